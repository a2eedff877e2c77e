// The matrix file of a set: its check, its reader and its writer.
ghost use Rattle.std.specs.Prelude.{◌≡◌, length, take};
ghost use Rattle.numbers.specs.Refusals.{answer_number};
ghost use Rattle.matrix_model.specs.File.{file_size, rows_size, layout_of, check_number, read_number, write_number, read_output, write_output, SurvivesOf, RestoresOf};

use crate::sets::named_layout;
use matrix_files::file::{file_check, file_read, file_write};
use numbers::refusal::Refusal;

// The matrix check: whether a file is fit, and no more.
pub fn matrix_check(set: u32, file: &[u8]) -> Result<(), Refusal>
    ensures { answer_number result ≡ check_number set file.now }
{
    file_check(named_layout(set)?, file)
}

// The reader: writes the rows of a file.
pub fn matrix_read(set: u32, file: &[u8], out: &mut [u8]) -> Result<(), Refusal>
    ensures result { answer_number result ≡ read_number set file.now (length out.old) }
    ensures output { out.new ≡ read_output set file.now out.old }
    ensures round_trip { answer_number result ≡ 0 → RestoresOf (layout_of set) (take (rows_size (layout_of set)) out.new) file.now }
{
    file_read(named_layout(set)?, file, out)
}

// The writer: writes the file of rows.
pub fn matrix_write(set: u32, rows: &[u8], out: &mut [u8]) -> Result<(), Refusal>
    ensures result { answer_number result ≡ write_number set rows.now (length out.old) }
    ensures output { out.new ≡ write_output set rows.now out.old }
    ensures round_trip { answer_number result ≡ 0 → SurvivesOf (layout_of set) rows.now (take (file_size (layout_of set)) out.new) }
{
    file_write(named_layout(set)?, rows, out)
}
