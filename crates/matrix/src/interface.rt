// What C calls of the matrix file, which `matrix_c` exports: it answers a number of the table.
ghost use Rattle.std.specs.Prelude.{◌≡◌};
ghost use Rattle.matrix_model.specs.File.{check_number};

use crate::file;
use numbers::refusal::answer_number;

// The matrix check: the number of a file.
pub fn matrix_check(set: u32, file: &[u8]) -> u32
    ensures { result ≡ check_number set file.now }
{
    answer_number(file::matrix_check(set, file))
}
