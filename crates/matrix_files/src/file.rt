// A matrix file of any layout, with room for the elimination: its check, its reader and its writer. Each first decides its number, over
// the whole of what it reads, and then writes.
ghost use Rattle.std.specs.Prelude.{◌≡◌, ◌++◌, ◌≤◌, length, take, drop};
ghost use Rattle.numbers.specs.Number.{first};
ghost use Rattle.numbers.specs.Refusals.{answer_number};
ghost use Rattle.matrix_model.specs.File.{file_size, rows_size, rows_of, file_from, faults_of, check_number_of, read_number_of, write_number_of, read_output_of, write_output_of, SurvivesOf, RestoresOf};
ghost use Rattle.matrix_model.specs.Internal.Rows.{Eliminable, block_number_of};
ghost use Rattle.matrix_blocks.specs.Layouts.{layout_in};

use linear_words::copies::put;
use matrix_blocks::files::{MatrixFile, MatrixRows, Standing};
use matrix_blocks::layouts::Layout;
use matrix_model::sizes::BLOCK_BYTES;
use matrix_ties::ties::check_all_rows;
use numbers::refusal::Refusal;

// The blocks of a file: the check of all before the layout of any.
pub fn check_blocks(file: MatrixFile) -> Result<(), Refusal>
    ensures { answer_number result ≡ block_number_of (layout_in file.entry.layout) file.entry.bytes.now }
{
    if file.bad_check() {
        return Err(Refusal::BlockCheck);
    }
    if file.bad_layout() {
        return Err(Refusal::BlockLayout);
    }
    Ok(())
}

// A file: its blocks, then its rows.
fn check_file(file: MatrixFile) -> Result<(), Refusal>
    requires { Eliminable (layout_in file.layout) }
    ensures { answer_number result ≡ first (faults_of (layout_in file.entry.layout) file.entry.bytes.now) }
{
    check_blocks(file)?;
    check_all_rows(Standing::InFile(file))
}

// The check of any bytes.
pub fn file_check(layout: Layout, file: &[u8]) -> Result<(), Refusal>
    requires { Eliminable (layout_in layout) }
    ensures { answer_number result ≡ check_number_of (layout_in layout) file.now }
{
    check_file(MatrixFile::new(layout, file)?)
}

// Writes the rows of a file.
fn write_rows(file: MatrixFile, out: &mut [u8])
    requires { rows_size (layout_in file.layout) ≤ length out.old }
    ensures { out.new ≡ rows_of (layout_in file.entry.layout) file.entry.bytes.now ++ drop (rows_size (layout_in file.entry.layout)) out.old }
{
    let layout = file.layout;
    for b in 0..layout.block_count() {
        put(file.rows_of_block(b), out, layout.bytes_before(b));
    }
}

// Writes the file of rows. It is not inlined, so that no block stands in the frame of the writer while it judges the rows.
#[inline(never)]
fn write_blocks(rows: MatrixRows, out: &mut [u8])
    requires { file_size (layout_in rows.layout) ≤ length out.old }
    ensures { out.new ≡ file_from (layout_in rows.entry.layout) rows.entry.bytes.now ++ drop (file_size (layout_in rows.entry.layout)) out.old }
{
    for b in 0..rows.layout.block_count() {
        let block = rows.block_of(b);
        put(&block, out, BLOCK_BYTES * b);
    }
}

// The reader.
pub fn file_read(layout: Layout, file: &[u8], out: &mut [u8]) -> Result<(), Refusal>
    requires { Eliminable (layout_in layout) }
    ensures result { answer_number result ≡ read_number_of (layout_in layout) file.now (length out.old) }
    ensures output { out.new ≡ read_output_of (layout_in layout) file.now out.old }
    ensures round_trip { answer_number result ≡ 0 → RestoresOf (layout_in layout) (take (rows_size (layout_in layout)) out.new) file.now }
{
    let file = MatrixFile::new(layout, file)?;
    if out.len() < layout.rows_size() {
        return Err(Refusal::WrongLength);
    }
    check_file(file)?;
    write_rows(file, out);
    Ok(())
}

// The writer.
pub fn file_write(layout: Layout, rows: &[u8], out: &mut [u8]) -> Result<(), Refusal>
    requires { Eliminable (layout_in layout) }
    ensures result { answer_number result ≡ write_number_of (layout_in layout) rows.now (length out.old) }
    ensures output { out.new ≡ write_output_of (layout_in layout) rows.now out.old }
    ensures round_trip { answer_number result ≡ 0 → SurvivesOf (layout_in layout) rows.now (take (file_size (layout_in layout)) out.new) }
{
    let rows = MatrixRows::new(layout, rows)?;
    if out.len() < layout.file_size() {
        return Err(Refusal::WrongLength);
    }
    check_all_rows(Standing::Alone(rows))?;
    write_blocks(rows, out);
    Ok(())
}
