// What the program prints for its input, all of it.
ghost use Rattle.std.specs.Prelude.{◌≡◌, ◌+◌, ◌<◌, ◌≤◌, ◌++◌};
ghost use Rattle.arrayvec.specs.ArrayVec.{array_vec_len};
ghost use Rattle.pair_model.specs.Base.{base};
ghost use Rattle.service_pair.specs.Printed.{result_line, code_line, digit, printed};

use arrayvec::ArrayVec;
use itoa::Buffer;
use matrix_model::sizes::PLANE_BYTES;
use pair_frames::sizes::{CODE_BYTES, DIGITS};
use protocol::interface::pair_run;

// The word that the line of a number begins with, and a space.
const RESULT: &[u8; 7] = b"result ";

// The digits of a number of 32 bits.
const NUMBER_DIGITS: usize = 10;

// Room for both lines.
pub const PRINTED_BYTES: usize = RESULT.len() + NUMBER_DIGITS + 1 + DIGITS + 1;

type Text = ArrayVec<u8, PRINTED_BYTES>;

// Digit `i` of a code, in ASCII.
fn digit(code: &[u8; CODE_BYTES], i: usize) -> u8
    requires { i < base.digits }
    ensures { result ≡ digit code.now i }
{
    b'0' + (code[i / 8] >> (i % 8)) % 2 + 2 * ((code[PLANE_BYTES + i / 8] >> (i % 8)) % 2)
}

// Appends the line of a code.
fn push_code_line(code: &[u8; CODE_BYTES], text: &mut Text)
    requires { array_vec_len text.old + base.digits + 1 ≤ PRINTED_BYTES }
    ensures { text.new.items ≡ text.old.items ++ code_line code.now }
{
    for i in 0..DIGITS {
        text.push(digit(code, i));
    }
    text.push(b'\n');
}

// Appends the line of a number.
fn push_result_line(number: u32, text: &mut Text)
    requires { array_vec_len text.old + 18 ≤ PRINTED_BYTES }
    ensures { text.new.items ≡ text.old.items ++ result_line number }
{
    let mut digits = Buffer::new();
    text.try_extend_from_slice(RESULT).unwrap();
    text.try_extend_from_slice(digits.format(number).as_bytes())
        .unwrap();
    text.try_extend_from_slice(b"\n").unwrap();
}

// All that is printed for `input`.
pub fn printed(input: &[u8]) -> Text
    ensures { result.items ≡ printed input.now }
{
    let mut text = Text::new();
    let mut code = [0u8; CODE_BYTES];
    // Stays a number: it is the C interface's, and printed as it is; that of a run that is done is 0.
    let number = pair_run(input, &mut code);
    push_result_line(number, &mut text);
    if number == 0 {
        push_code_line(&code, &mut text);
    }
    text
}
