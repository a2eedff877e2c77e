// The static library of `matrix`: for C, the check of a file under the same name and the same contract.
#![tactic(auto)]

ghost use Rattle.std.specs.Prelude.{◌≡◌};
ghost use Rattle.matrix_model.specs.File.{check_number};

use matrix::interface;

// The number of a file, and no more.
#[unsafe(no_mangle)]
pub extern "C" fn matrix_check(set: u32, file: &[u8]) -> u32
    ensures { result ≡ check_number set file.now }
{
    interface::matrix_check(set, file)
}
