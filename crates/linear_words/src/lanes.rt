// Trits by words: 64 places of a vector at once, a word of each plane. The functions on bytes use them too, at eight places.
ghost use Rattle.std.specs.Prelude.{◌≡◌, ℕ, ◌+◌, ◌*◌, ◌%◌, ◌^◌, ◌<◌, ◌≤◌, length};
ghost use Rattle.linear_model.specs.Tables.{sum};
ghost use Rattle.linear_model.specs.Digits.{digit_product};
ghost use Rattle.linear_model.specs.Internal.Words.{set_word};
ghost use Rattle.linear_model.specs.Internal.Planes.{trit_of, Narrow};

use crate::words;

// Some trits: their low bits and their high bits.
#[derive(Clone, Copy)]
pub struct TwoPlanes<W> {
    pub low: W,
    pub high: W,
}

// A word of each plane: 64 trits.
pub type Trits = TwoPlanes<u64>;

// A byte of each plane: eight trits.
pub type Planes = TwoPlanes<u8>;

// The trits of planes `x` and `u`; a place with both bits set counts as 0.
pub fn fit(x: u64, u: u64) -> Trits
    ensures { (k : ℕ) → trit_of result.low result.high k ≡ trit_of x u k % 3 }
{
    let both = x & u;
    Trits {
        low: x ^ both,
        high: u ^ both,
    }
}

// The sum of two trits modulo 3, in each place where neither has both bits set.
pub fn add(s: Trits, t: Trits) -> Trits
    ensures { (k : ℕ) → trit_of s.low s.high k < 3 → trit_of t.low t.high k < 3
        → trit_of result.low result.high k ≡ (trit_of s.low s.high k + trit_of t.low t.high k) % 3 }
{
    let odd = (s.low | t.high) ^ (s.high | t.low);
    Trits {
        low: (s.high | t.high) ^ odd,
        high: (s.low | t.low) ^ odd,
    }
}

// The products modulo 3 of trits of planes `x`, `u` and of planes `y`, `w`: not 0 where both are not, and 2 where one of them is.
// In each place it is the entry of the table of digit products.
pub fn multiply(x: u64, u: u64, y: u64, w: u64) -> Trits
    ensures { (k : ℕ) → trit_of result.low result.high k ≡ digit_product (trit_of x u k % 3) (trit_of y w k % 3) }
{
    let some = (x ^ u) & (y ^ w);
    let two = some & (u ^ w);
    Trits {
        low: some ^ two,
        high: two,
    }
}

// The first eight trits.
pub fn narrow(t: Trits) -> Planes
    ensures { Narrow t.low t.high result.low result.high }
{
    Planes {
        low: words::byte_of(t.low, 0),
        high: words::byte_of(t.high, 0),
    }
}

// A number that is the sum of the trits modulo 3, its remainder not taken yet. 2 is -1 modulo 3, so a number is the sum of its bits at
// even places less that of its bits at odd places: `plus` has the low bits at even places and the high bits at odd ones, `minus` the others.
pub fn weight(t: Trits) -> u64
    ensures { (result % 3 ≡ sum 64 (trit_of t.low t.high) % 3) × (result < 2 ^ 35) }
{
    let even = (t.low ^ t.high) & 0x5555_5555_5555_5555;
    let plus = even ^ t.high;
    let minus = even ^ t.low;
    words::folded(plus) + 2 * words::folded(minus)
}

// Stores a word of each plane, at bytes `i` and `m + i`.
pub fn put_trits(out: &mut [u8], m: usize, i: usize, t: Trits)
    requires { (i + 8 ≤ m) × (m + m ≤ length out.old) }
    ensures { out.new ≡ set_word (set_word out.old i t.low) (m + i) t.high }
{
    words::put_word(out, i, t.low);
    words::put_word(out, m + i, t.high);
}
