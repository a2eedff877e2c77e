// The sampler: a tape from source bytes, drawn from a starting pair on.
ghost use Rattle.std.specs.Prelude.{◌≡◌, length, IfOk};
ghost use Rattle.numbers.specs.Number.{output};
ghost use Rattle.numbers.specs.Refusals.{answer_number};
ghost use Rattle.source_model.specs.Disjoint.{DisjointDraws};
ghost use Rattle.pair_frames.specs.Schemes.{scheme_in};
ghost use Rattle.numbers.specs.Sets.{number_in};
ghost use Rattle.pair_model.specs.Base.{scheme_of};
ghost use Rattle.pair_model.specs.Sampler.{sampled, next_pair, sample_conditions, sample_number};

use crate::packing::pack;
use numbers::refusal::Refusal;
use pair_frames::sets::named_sizes;
use pair_frames::sizes::{STRING_ROOM, Sizes};
use source::drawing::draw_from;

// The trits of the longest inner vector.
const MOST_TRITS: usize = 8 * STRING_ROOM;

// A tape of any sizes: what stands before r0 is copied from pair `start` on, and the trits of r0 are drawn from the pairs after. Gives the next
// unread pair.
pub fn sample_sized(sizes: Sizes, start: u64, source: &[u8], out: &mut [u8]) -> Result<u64, Refusal>
    ensures result { answer_number result ≡ sample_number (scheme_in sizes) source.now start (length out.old) }
    ensures next { IfOk result (λ next. next ≡ next_pair (scheme_in sizes) source.now start) }
    ensures output { out.new ≡ output (answer_number result) (sampled (scheme_in sizes) source.now start) out.old }
{
    let copied = 4 * sizes.key_bytes + 2 * sizes.inner_bytes;
    let wanted = 8 * sizes.inner_bytes;
    let tape = copied + 2 * sizes.inner_bytes;
    if out.len() < tape {
        return Err(Refusal::WrongLength);
    }
    let mut trits = [0; MOST_TRITS];
    let next = draw_from(start, source, &mut out[..copied], &mut trits[..wanted])?;
    pack(&trits[..wanted], sizes.inner_bytes, &mut out[copied..tape]);
    Ok(next)
}

// A tape of a set. Draws that follow one another share no pair, of whatever sets they are.
pub fn sample(set: u32, start: u64, source: &[u8], out: &mut [u8]) -> Result<u64, Refusal>
    ensures result { answer_number result ≡ number_in set (sample_conditions (scheme_of set) source.now start (length out.old)) }
    ensures next { IfOk result (λ next. next ≡ next_pair (scheme_of set) source.now start) }
    ensures output { out.new ≡ output (answer_number result) (sampled (scheme_of set) source.now start) out.old }
    ensures disjoint { DisjointDraws }
{
    sample_sized(named_sizes(set)?, start, source, out)
}
