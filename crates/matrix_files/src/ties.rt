// The list of the rows of a matrix file that are tied, for any layout, with room for the elimination and for what rows carry in it.
// A refusal writes nothing.
ghost use Rattle.std.specs.Prelude.{◌≡◌, ◌*◌, length, take, IfOk};
ghost use Rattle.numbers.specs.Number.{output};
ghost use Rattle.numbers.specs.Refusals.{answer_number};
ghost use Rattle.elimination_model.specs.Tie.{entry_count};
ghost use Rattle.matrix_model.specs.Ties.{tie_of_file, OnlyTieOfFile, tie_number_of};
ghost use Rattle.matrix_model.specs.Internal.Rows.{Eliminable, CarryingRoom, form_number_of};
ghost use Rattle.matrix_blocks.specs.Layouts.{layout_in};

use crate::file::check_blocks;
use matrix_blocks::files::{MatrixFile, Standing};
use matrix_blocks::layouts::Layout;
use matrix_rows::rows::check_each_row;
use matrix_ties::lists::list_tied;
use numbers::refusal::Refusal;

// A file, but for its ties.
fn check_form(file: MatrixFile) -> Result<(), Refusal>
    ensures { answer_number result ≡ form_number_of (layout_in file.entry.layout) file.entry.bytes.now }
{
    check_blocks(file)?;
    let _zero = check_each_row(Standing::InFile(file))?;
    Ok(())
}

// Writes the list of the tied rows of a file, and reports how many they are.
pub fn file_tied_rows(layout: Layout, file: &[u8], out: &mut [u8]) -> Result<u64, Refusal>
    requires { Eliminable (layout_in layout) × CarryingRoom (layout_in layout) }
    ensures result { answer_number result ≡ tie_number_of (layout_in layout) file.now (length out.old) }
    ensures count { IfOk result (λ count. count ≡ entry_count (tie_of_file (layout_in layout) file.now)) }
    ensures output { out.new ≡ output (answer_number result) (tie_of_file (layout_in layout) file.now) out.old }
    ensures only_tie { IfOk result (λ count. OnlyTieOfFile (layout_in layout) file.now (take (2 * count) out.new)) }
{
    let file = MatrixFile::new(layout, file)?;
    if out.len() < 2 * layout.row_count {
        return Err(Refusal::WrongLength);
    }
    check_form(file)?;
    let count = list_tied(file, out);
    if count == 0 {
        return Err(Refusal::NotTied);
    }
    Ok(count as u64)
}
