// Copies of strings into others.
ghost use Rattle.std.specs.Prelude.{◌≡◌, ◌++◌, ◌+◌, ◌≤◌, length, take, drop};

use crate::words::{put_word, word};

// Copies `s` to `out` from `at` on.
pub fn put(s: &[u8], out: &mut [u8], at: usize)
    requires { at + length s.now ≤ length out.old }
    ensures { out.new ≡
        take at out.old ++ s.now ++ drop (at + length s.now) out.old }
{
    // Stays loops by words and by bytes: `copy_from_slice` looks for an overlap and copies few bytes by halves of words, so pair_sample of set 1
    // takes 373 ns with it and 344 with these, and the step of set 2 that takes a deal 49 ns and 39.
    let words = s.len() / 8;
    for k in 0..words {
        put_word(out, at + 8 * k, word(s, 8 * k));
    }
    for i in 8 * words..s.len() {
        out[at + i] = s[i];
    }
}
