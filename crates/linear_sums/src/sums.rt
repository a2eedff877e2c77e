// Sums of whole vectors. No branch depends on a vector's bytes: the lengths are public.
ghost use Rattle.std.specs.Prelude.{◌≡◌, ◌++◌, ◌*◌, ◌/◌, length, drop};
ghost use Rattle.linear_model.specs.Trits.{add_trits};

use linear_trits::operation::Sum;
use linear_trits::vectors::{combine, combine_bytes, combine_words};

// The sum of two trit vectors modulo 3, in the planes that `out` has room for. The sizes in use are written out, so that each gets code of its own,
// and that of one word, which else takes twice as long.
#[tactic(auto, unfolding(linear_model::specs::Trits::add_trits))]
pub fn add_trits(a: &[u8], b: &[u8], out: &mut [u8])
    ensures { out.new ≡
        add_trits (length out.old / 2) a.now b.now
        ++ drop (2 * (length out.old / 2)) out.old }
{
    let m = out.len() / 2;
    // Stays a length that is passed: with a const parameter the words would need a second function, for all other sizes.
    match m {
        21 if 42 <= a.len() && 42 <= b.len() => combine_words(Sum, a, 21, b, 21, out),
        11 if 22 <= a.len() && 22 <= b.len() => combine_words(Sum, a, 11, b, 11, out),
        8 if 16 <= a.len() && 16 <= b.len() => combine_words(Sum, a, 8, b, 8, out),
        3 if 6 <= a.len() && 6 <= b.len() => combine_bytes(Sum, a, 3, b, 3, out),
        _ => combine(Sum, a, m, b, m, out),
    }
}
