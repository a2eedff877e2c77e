// The rows of a set's matrix file that are tied.
ghost use Rattle.std.specs.Prelude.{◌≡◌, ◌*◌, length, take, IfOk};
ghost use Rattle.numbers.specs.Number.{output};
ghost use Rattle.numbers.specs.Refusals.{answer_number};
ghost use Rattle.elimination_model.specs.Tie.{entry_count};
ghost use Rattle.matrix_model.specs.File.{layout_of};
ghost use Rattle.matrix_model.specs.Ties.{tie_of_file, OnlyTieOfFile, tie_number};
ghost use Rattle.matrix_model.specs.TiedRowsEvidence.{TiedRowsEvidence};

use crate::sets::named_layout;
use matrix_files::ties::file_tied_rows;
use numbers::refusal::Refusal;

// Writes the list of the tied rows of a file, and reports how many they are. There is just one such list.
pub fn matrix_tied_rows(set: u32, file: &[u8], out: &mut [u8]) -> Result<u64, Refusal>
    ensures result { answer_number result ≡ tie_number set file.now (length out.old) }
    ensures count { IfOk result (λ count. count ≡ entry_count (tie_of_file (layout_of set) file.now)) }
    ensures output { out.new ≡ output (answer_number result) (tie_of_file (layout_of set) file.now) out.old }
    ensures only_tie { IfOk result (λ count. OnlyTieOfFile (layout_of set) file.now (take (2 * count) out.new)) }
    ensures evidence { TiedRowsEvidence }
{
    file_tied_rows(named_layout(set)?, file, out)
}
