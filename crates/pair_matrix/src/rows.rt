// What is read of the matrix file for the rows.
ghost use Rattle.std.specs.Prelude.{◌≡◌, ◌*◌, ◌≤◌, length};
ghost use Rattle.numbers.specs.Number.{at_front};
ghost use Rattle.numbers.specs.Refusals.{answer_number};
ghost use Rattle.pair_frames.specs.Schemes.{scheme_in};
ghost use Rattle.pair_model.specs.Scheme.{files, reading_number};
ghost use Rattle.pair_model.specs.Frame.{code_bytes};
ghost use Rattle.pair_model.specs.Evaluator.{code_of};

use crate::layout::file_layout;
use matrix_digits::digits::code_of;
use matrix_files::file::file_check;
use numbers::refusal::Refusal;
use pair_frames::sizes::Sizes;

// The bytes of a matrix file.
pub fn file_bytes(sizes: Sizes) -> usize
    ensures { result ≡ (scheme_in sizes).rows_reading.bytes }
{
    file_layout(sizes).file_size()
}

// A matrix file, of any length.
pub fn check_file(sizes: Sizes, file: &[u8]) -> Result<(), Refusal>
    ensures { answer_number result ≡ reading_number (scheme_in sizes).rows_reading (files file.now) }
{
    file_check(file_layout(sizes), file)
}

// Writes the rows of a matrix file times a vector, modulo 3, to the front of `out`. No branch depends on the vector.
pub fn write_code(sizes: Sizes, file: &[u8], v: &[u8], out: &mut [u8])
    requires { (length file.now ≡ (scheme_in sizes).rows_reading.bytes) × (length v.now ≡ 2 * sizes.inner_bytes)
        × (code_bytes (scheme_in sizes) ≤ length out.old) }
    ensures { out.new ≡ at_front (code_of (scheme_in sizes) (files file.now) v.now) out.old }
{
    code_of(file_layout(sizes), file, v, out);
}
