// Differences and inner shares of whole vectors. No branch depends on a vector's bytes: the side and the lengths are public.
ghost use Rattle.std.specs.Prelude.{◌≡◌, ◌++◌, ◌*◌, ◌/◌, length, drop};
ghost use Rattle.linear_model.specs.Trits.{pack_trits, subtract_trits, inner_share};
ghost use Rattle.linear_trits.specs.Results.{result_trit};

use linear_trits::operation::{Difference, Operation, Share};
use linear_trits::vectors::{combine, combine_words};

// What an operation gives of a bit string and a trit vector, in the planes that `out` has room for. The sizes in use are written out, so that
// each gets code of its own.
fn combine_sized<O: Operation>(op: O, w: &[u8], r: &[u8], out: &mut [u8])
    ensures { out.new ≡
        pack_trits (length out.old / 2) (result_trit (O.trit op) 0 (length out.old / 2) w.now r.now)
        ++ drop (2 * (length out.old / 2)) out.old }
{
    let m = out.len() / 2;
    // Stays a length that is passed: with a const parameter the words would need a second function, for all other sizes.
    match m {
        64 if 64 <= w.len() && 128 <= r.len() => combine_words(op, w, 0, r, 64, out),
        32 if 32 <= w.len() && 64 <= r.len() => combine_words(op, w, 0, r, 32, out),
        8 if 8 <= w.len() && 16 <= r.len() => combine_words(op, w, 0, r, 8, out),
        _ => combine(op, w, 0, r, m, out),
    }
}

// The bits of `w` less the trits of `r`, modulo 3, in the planes that `out` has room for.
#[tactic(auto, unfolding(linear_model::specs::Trits::subtract_trits))]
pub fn subtract_trits(w: &[u8], r: &[u8], out: &mut [u8])
    ensures { out.new ≡
        subtract_trits (length out.old / 2) w.now r.now
        ++ drop (2 * (length out.old / 2)) out.old }
{
    combine_sized(Difference, w, r, out);
}

// The inner share of a unit, r + ŵ × r, to which side 0 also adds ŵ, modulo 3, in the planes that `out` has room for.
#[tactic(auto, unfolding(linear_model::specs::Trits::inner_share))]
pub fn inner_share(side: u8, w: &[u8], r: &[u8], out: &mut [u8])
    ensures { out.new ≡
        inner_share (length out.old / 2) side w.now r.now
        ++ drop (2 * (length out.old / 2)) out.old }
{
    combine_sized(Share { side }, w, r, out);
}
