// What an operation makes of whole vectors. No branch depends on a vector's bytes: the operation and the lengths are public.
// Planes of eight bytes or more go by words, the last of which begins eight bytes before the plane's end, if need be within the one before
// it; shorter planes, and strings that are not all there, go byte by byte.
ghost use Rattle.std.specs.Prelude.{◌≡◌, ℕ, ◌++◌, ◌+◌, ◌*◌, ◌/◌, ◌^◌, ◌<◌, ◌≤◌, length, drop};
ghost use Rattle.linear_model.specs.Trits.{pack_trits};
ghost use Rattle.linear_model.specs.Internal.Planes.{PlaneBits};
ghost use Rattle.linear_trits.specs.Results.{Holds, result_trit};

use crate::operation::Operation;
use linear_words::bytes::byte_at;
use linear_words::lanes::{Trits, narrow, put_trits};
use linear_words::words::word;

// Trits 8i to 8i + 63 of a string whose high plane begins at byte `high`.
fn word_trits(s: &[u8], high: usize, i: usize) -> Trits
    requires { (i + 8 ≤ length s.now) × (high + i + 8 ≤ length s.now) }
    ensures { Holds 64 high s.now i result.low result.high }
{
    Trits {
        low: word(s, i),
        high: word(s, high + i),
    }
}

// Trits 8i to 8i + 7.
fn byte_trits(s: &[u8], high: usize, i: usize) -> Trits
    requires { high + i < 2 ^ 64 }
    ensures { Holds 8 high s.now i result.low result.high }
{
    Trits {
        low: u64::from(byte_at(s, i)),
        high: u64::from(byte_at(s, high + i)),
    }
}

// What an operation gives of trits 8i to 8i + 63.
fn combined_word<O: Operation>(op: O, a: &[u8], high: usize, b: &[u8], m: usize, i: usize) -> Trits
    requires { (i + 8 ≤ length a.now) × (high + i + 8 ≤ length a.now) × (m + i + 8 ≤ length b.now) }
    ensures { PlaneBits 64 (result_trit (O.trit op) high m a.now b.now) i result.low result.high }
{
    op.apply(word_trits(a, high, i), word_trits(b, m, i))
}

// What an operation gives of `a`, whose high plane begins at byte `high`, and of `b`, by words, in planes of `m` bytes. A bit string has no
// high plane: `high` is 0, and what is read there is not used. Two words are made before one is stored: so the compiler takes them at once.
// No word is made twice: of the bytes after the last two words, eight at most are in one word. It is compiled into its callers, where `m` is
// a literal.
#[inline(always)]
pub fn combine_words<O: Operation>(op: O, a: &[u8], high: usize, b: &[u8], m: usize, out: &mut [u8])
    requires { (8 ≤ m) × (m ≡ length out.old / 2) × (m ≤ length a.now) × (high + m ≤ length a.now) × (m + m ≤ length b.now) }
    ensures { out.new ≡
        pack_trits (length out.old / 2) (result_trit (O.trit op) high (length out.old / 2) a.now b.now)
        ++ drop (2 * (length out.old / 2)) out.old }
{
    for k in 0..m / 16 {
        let first = combined_word(op, a, high, b, m, 16 * k);
        let second = combined_word(op, a, high, b, m, 16 * k + 8);
        put_trits(out, m, 16 * k, first);
        put_trits(out, m, 16 * k + 8, second);
    }
    let rest = m % 16;
    if 8 < rest {
        let next = combined_word(op, a, high, b, m, m - rest);
        let last = combined_word(op, a, high, b, m, m - 8);
        put_trits(out, m, m - rest, next);
        put_trits(out, m, m - 8, last);
    } else if rest != 0 {
        let only = combined_word(op, a, high, b, m, m - 8);
        put_trits(out, m, m - 8, only);
    }
}

// The same for any size: apart from `combine`, where the compiler would take the words one by one.
#[inline(never)]
fn combine_any_words<O: Operation>(op: O, a: &[u8], high: usize, b: &[u8], m: usize, out: &mut [u8])
    requires { (8 ≤ m) × (m ≡ length out.old / 2) × (m ≤ length a.now) × (high + m ≤ length a.now) × (m + m ≤ length b.now) }
    ensures { out.new ≡
        pack_trits (length out.old / 2) (result_trit (O.trit op) high (length out.old / 2) a.now b.now)
        ++ drop (2 * (length out.old / 2)) out.old }
{
    combine_words(op, a, high, b, m, out);
}

// The same byte by byte, of strings of any length.
pub fn combine_bytes<O: Operation>(op: O, a: &[u8], high: usize, b: &[u8], m: usize, out: &mut [u8])
    requires { (m ≡ length out.old / 2) × (high ≤ m) }
    ensures { out.new ≡
        pack_trits (length out.old / 2) (result_trit (O.trit op) high (length out.old / 2) a.now b.now)
        ++ drop (2 * (length out.old / 2)) out.old }
{
    for i in 0..m {
        let t = narrow(op.apply(byte_trits(a, high, i), byte_trits(b, m, i)));
        out[i] = t.low;
        out[m + i] = t.high;
    }
}

// The same by words where all words are there, and else byte by byte. It is not inlined: sizes in use have code of their own beside it.
#[inline(never)]
pub fn combine<O: Operation>(op: O, a: &[u8], high: usize, b: &[u8], m: usize, out: &mut [u8])
    requires { (m ≡ length out.old / 2) × (high ≤ m) }
    ensures { out.new ≡
        pack_trits (length out.old / 2) (result_trit (O.trit op) high (length out.old / 2) a.now b.now)
        ++ drop (2 * (length out.old / 2)) out.old }
{
    if 8 <= m && high + m <= a.len() && 2 * m <= b.len() {
        combine_any_words(op, a, high, b, m, out);
    } else {
        combine_bytes(op, a, high, b, m, out);
    }
}
