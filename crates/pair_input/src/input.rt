// What the program's input may be refused for, the lowest number over all of it: its length, the matrix file and the tape.
ghost use Rattle.std.specs.Prelude.{◌≡◌, cond, eqb};
ghost use Rattle.numbers.specs.Refusals.{answer_number};
ghost use Rattle.pair_model.specs.WholeRun.{run_number};

use linear::trits::trits_fit;
use matrix::file::matrix_check;
use numbers::refusal::Refusal;
use pair_frames::sizes::{CODE_BYTES, INNER_TRITS, INPUT_BYTES, INPUT_FILE, INPUT_TAPE, TAPE_R};

// An input whose tape has a trit with both bits set, by its file.
fn with_unfit_tape(of_file: Result<(), Refusal>) -> Result<(), Refusal>
    ensures { answer_number result ≡ cond (eqb (answer_number of_file) 8) 8 (cond (eqb (answer_number of_file) 9) 9 10) }
{
    Err(match of_file {
        Err(Refusal::BlockCheck) => Refusal::BlockCheck,
        Err(Refusal::BlockLayout) => Refusal::BlockLayout,
        _ => Refusal::UnfitTrit,
    })
}

// All of the input.
pub fn check_run(input: &[u8], room: usize) -> Result<(), Refusal>
    ensures { answer_number result ≡ run_number input.now room }
{
    if input.len() != INPUT_BYTES || room < CODE_BYTES {
        return Err(Refusal::WrongLength);
    }
    let of_file = matrix_check(1, &input[INPUT_FILE..INPUT_BYTES]);
    if trits_fit(&input[INPUT_TAPE + TAPE_R..INPUT_FILE], INNER_TRITS) {
        return of_file;
    }
    with_unfit_tape(of_file)
}
