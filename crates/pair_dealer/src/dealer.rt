// The dealer: both deal frames, of a tape or of source bytes. No branch depends on a tape's bytes but the test of r0.
ghost use Rattle.std.specs.Prelude.{◌≡◌, length, IfOk};
ghost use Rattle.numbers.specs.Number.{output};
ghost use Rattle.numbers.specs.Refusals.{answer_number};
ghost use Rattle.source_model.specs.Disjoint.{DisjointDraws};
ghost use Rattle.pair_frames.specs.Schemes.{scheme_in};
ghost use Rattle.pair_model.specs.Scheme.{no_files};
ghost use Rattle.numbers.specs.Sets.{number_in};
ghost use Rattle.pair_model.specs.Base.{scheme_of, InEachSet};
ghost use Rattle.pair_model.specs.Frame.{shared_parameters};
ghost use Rattle.pair_model.specs.Sampler.{sampled, next_pair};
ghost use Rattle.pair_model.specs.Dealer.{dealt, deal_conditions, deal_number, deal_source_conditions, deal_source_number, TakesAccepted};
ghost use Rattle.pair_model.specs.Run.{protocol};
ghost use Rattle.pair_model.specs.Theorem.{Privacy};

use linear::trits::trits_fit;
use numbers::refusal::Refusal;
use pair_deals::frames::write_deal;
use pair_frames::frame::{DEAL, frame_bytes};
use pair_frames::sets::named_sizes;
use pair_frames::sizes::{STRING_ROOM, Sizes};
use pair_sampler::sampler::sample_sized;

// The bytes of the longest tape.
const TAPE_ROOM: usize = 4 * STRING_ROOM + 4 * STRING_ROOM;

// A tape to be dealt where an output slice has so much room.
fn check_deal(sizes: Sizes, tape: &[u8], room: usize) -> Result<(), Refusal>
    ensures { answer_number result ≡ deal_number (scheme_in sizes) no_files tape.now room }
{
    let first_r = 4 * sizes.key_bytes + 2 * sizes.inner_bytes;
    let end = first_r + 2 * sizes.inner_bytes;
    if tape.len() != end {
        return Err(Refusal::WrongLength);
    }
    if room < 2 * frame_bytes(sizes, DEAL) {
        return Err(Refusal::WrongLength);
    }
    if trits_fit(&tape[first_r..end], 8 * sizes.inner_bytes) {
        Ok(())
    } else {
        Err(Refusal::UnfitTrit)
    }
}

// Deals a tape: the accepted ones and no other.
// Stay parameters, here and below: C's calls name session and line one by one, and a struct of them would be taken apart for each header.
fn deal_sized(
    sizes: Sizes,
    session: u32,
    line: u8,
    tape: &[u8],
    out: &mut [u8],
) -> Result<(), Refusal>
    ensures result { answer_number result ≡ deal_number (scheme_in sizes) no_files tape.now (length out.old) }
    ensures output { out.new ≡
        output (answer_number result) (dealt (scheme_in sizes) (shared_parameters session line) no_files tape.now) out.old }
{
    check_deal(sizes, tape, out.len())?;
    write_deal(sizes, session, line, tape, out);
    Ok(())
}

// The same in a set. Its frames stand in the views that `Privacy` speaks of, one pairing of accepted tapes for all lists.
pub fn deal(set: u32, session: u32, line: u8, tape: &[u8], out: &mut [u8]) -> Result<(), Refusal>
    ensures result { answer_number result ≡ number_in set (deal_conditions (scheme_of set) no_files tape.now (length out.old)) }
    ensures output { out.new ≡
        output (answer_number result) (dealt (scheme_of set) (shared_parameters session line) no_files tape.now) out.old }
    ensures accepted_tapes { InEachSet TakesAccepted }
    ensures privacy { InEachSet (λ S. Privacy (protocol S)) }
{
    // All of the tape, sliced once more for speed: a slice that is passed on as it came is copied by one load, which waits
    // for the two stores of its pointer and its length.
    deal_sized(named_sizes(set)?, session, line, &tape[0..], out)
}

// Deals the tape that the sampler draws of source bytes from pair `start` on.
fn deal_source_sized(
    sizes: Sizes,
    session: u32,
    line: u8,
    start: u64,
    source: &[u8],
    out: &mut [u8],
) -> Result<u64, Refusal>
    ensures result { answer_number result ≡ deal_source_number (scheme_in sizes) no_files source.now start (length out.old) }
    ensures next { IfOk result (λ next. next ≡ next_pair (scheme_in sizes) source.now start) }
    ensures output { out.new ≡
        output (answer_number result) (dealt (scheme_in sizes) (shared_parameters session line) no_files (sampled (scheme_in sizes) source.now start)) out.old }
{
    if out.len() < 2 * frame_bytes(sizes, DEAL) {
        return Err(Refusal::WrongLength);
    }
    let mut room = [0; TAPE_ROOM];
    let tape = &mut room[..4 * sizes.key_bytes + 4 * sizes.inner_bytes];
    let next = sample_sized(sizes, start, source, tape)?;
    write_deal(sizes, session, line, tape, out);
    Ok(next)
}

// The same in a set. Draws that follow one another share no pair.
pub fn deal_source(
    set: u32,
    session: u32,
    line: u8,
    start: u64,
    source: &[u8],
    out: &mut [u8],
) -> Result<u64, Refusal>
    ensures result { answer_number result ≡ number_in set (deal_source_conditions (scheme_of set) no_files source.now start (length out.old)) }
    ensures next { IfOk result (λ next. next ≡ next_pair (scheme_of set) source.now start) }
    ensures output { out.new ≡
        output (answer_number result) (dealt (scheme_of set) (shared_parameters session line) no_files (sampled (scheme_of set) source.now start)) out.old }
    ensures disjoint { DisjointDraws }
    ensures privacy { InEachSet (λ S. Privacy (protocol S)) }
{
    deal_source_sized(named_sizes(set)?, session, line, start, source, out)
}
