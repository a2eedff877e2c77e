// Sums, differences and inner shares of trits modulo 3, by bitwise operations on a word of each plane.
ghost use Rattle.std.specs.Prelude.{◌≡◌, cond, ℕ, ◌+◌, ◌*◌, ◌%◌, ◌<◌, eqb};
ghost use Rattle.std.proofs.Common.{rules};
ghost use Rattle.linear_model.specs.Bits.{bit_at};
ghost use Rattle.linear_model.specs.Internal.Planes.{trit_of};

use linear_words::lanes::{Trits, add, fit};

// What is made of two strings, trit by trit.
pub trait Operation: Copy {
    // the trit that it gives of a bit b, or of a trit s whose low bit is b, and of a trit t
    ghost trit: { Self → ℕ → ℕ → ℕ → ℕ };

    // What it gives of the trits `s` and `t`. An operation on a bit string and a trit vector does not read the high plane of `s`.
    fn apply(self, s: Trits, t: Trits) -> Trits
        ensures { (k : ℕ) → trit_of result.low result.high k ≡ trit self (bit_at s.low k) (trit_of s.low s.high k) (trit_of t.low t.high k) };

    ghost fits: { (op : Self) (b s t : ℕ) → trit op b s t < 3 };
}

// The sum of two trit vectors.
#[derive(Clone, Copy)]
pub struct Sum;

impl Operation for Sum {
    ghost trit = { λ op b s t. (s + t) % 3 };

    ghost fits = { λ op b s t. Prim.search rules };

    fn apply(self, s: Trits, t: Trits) -> Trits {
        add(fit(s.low, s.high), fit(t.low, t.high))
    }
}

// A bit string less a trit vector: a trit with its planes in the other order is its negative.
#[derive(Clone, Copy)]
pub struct Difference;

impl Operation for Difference {
    ghost trit = { λ op b s t. (b + 2 * t) % 3 };

    ghost fits = { λ op b s t. Prim.search rules };

    fn apply(self, s: Trits, t: Trits) -> Trits {
        add(
            Trits {
                low: s.low,
                high: 0,
            },
            fit(t.high, t.low),
        )
    }
}

// The inner share of a unit, of ŵ and r: where ŵ has a 1, the planes of r change places, since twice a trit is its negative. Side 0 also
// adds ŵ.
#[derive(Clone, Copy)]
pub struct Share {
    pub side: u8,
}

impl Operation for Share {
    ghost trit = { λ op b s t. (t + b * t + cond (eqb op.side 0) b 0) % 3 };

    ghost fits = { λ op b s t. Prim.search rules };

    fn apply(self, s: Trits, t: Trits) -> Trits {
        let d = s.low & (t.low ^ t.high);
        let added = if self.side == 0 { s.low } else { 0 };
        add(
            fit(t.low ^ d, t.high ^ d),
            Trits {
                low: added,
                high: 0,
            },
        )
    }
}
