// Draws: bytes copied from a pair on, then the trits that a reader of pairs finds. Each pair is stored where the next trit goes; one of
// value 3 does not count, so the pair after it is stored in its place. No branch depends on the other pairs.
ghost use Rattle.std.specs.Prelude.{◌≡◌, ℕ, ◌+◌, ◌-◌, ◌*◌, ◌/◌, ◌^◌, ◌<◌, ◌≤◌, length, set, IfOk};
ghost use Rattle.numbers.specs.Number.{output};
ghost use Rattle.numbers.specs.Refusals.{answer_number};
ghost use Rattle.source_model.specs.Draw.{copied, drawn, source_number};
ghost use Rattle.source_model.specs.Disjoint.{DisjointDraws};
ghost use Rattle.source_model.specs.Internal.Drawing.{Reading, Drew, keep_four};

use crate::copying::copy_pairs;
use crate::reader::PairReader;
use numbers::refusal::Refusal;

// A source has fewer bytes, so that 64 bits count its pairs.
const SOURCE_LIMIT: usize = 0x4000_0000_0000_0000;

// How many trits a pair is: none if it is 3.
fn counted(p: u8) -> usize
    requires { p < 4 }
    ensures { result ≡ 1 - p / 3 }
{
    usize::from(1 - p / 3)
}

// Stores a pair as trit `found`, and gives how many are found then.
fn keep(trits: &mut [u8], found: usize, p: u8) -> usize
    requires { (found < length trits.old) × (p < 4) }
    ensures { (trits.new ≡ set trits.old found p) × (result ≡ found + (1 - p / 3)) }
{
    trits[found] = p;
    found + counted(p)
}

// The same with four pairs, one after the other.
fn keep_four(trits: &mut [u8], found: usize, four: u8) -> usize
    requires { found + 4 ≤ length trits.old }
    ensures { (trits.exit.now ≡ (keep_four four (record { trits = trits.entry.now; count = found })).trits)
        × (result ≡ (keep_four four (record { trits = trits.entry.now; count = found })).count) }
{
    let one = keep(trits, found, four % 4);
    let two = keep(trits, one, four / 4 % 4);
    let three = keep(trits, two, four / 16 % 4);
    keep(trits, three, four / 64 % 4)
}

// Reads four pairs at a time while four more trits are wanted and the source has as many pairs: each time at the same place of a byte. Gives
// how many trits are found.
fn draw_fours(reader: &mut PairReader, trits: &mut [u8]) -> usize
    requires { (length reader.old.source.now < 2 ^ 62) × (4 * reader.old.byte + reader.old.pair ≤ 4 * length reader.old.source.now) }
    ensures source { reader.new.source ≡ reader.old.source }
    ensures reading { Reading reader.old.source.now (length trits.old) (4 * reader.old.byte + reader.old.pair) trits.new result (4 * reader.new.byte + reader.new.pair) }
{
    let Some(last) = trits.len().checked_sub(4) else {
        return 0;
    };
    let mut found = 0;
    // Stays a while: it ends by what is found, and each turn moves the reader, so there is no index to count.
    while found <= last && reader.has_four() {
        found = keep_four(trits, found, reader.take_four());
    }
    found
}

// Reads on pair by pair, until all trits are found or the source ends, so that no pair after the last trit is read.
fn draw_pairs(reader: &mut PairReader, already: usize, trits: &mut [u8]) -> usize
    requires { (length reader.old.source.now < 2 ^ 62) × (already ≤ length trits.old) × (4 * reader.old.byte + reader.old.pair ≤ 4 * length reader.old.source.now) }
    ensures source { reader.new.source ≡ reader.old.source }
    ensures drew { (start : ℕ) → Reading reader.old.source.now (length trits.old) start trits.old already (4 * reader.old.byte + reader.old.pair)
        → Drew reader.old.source.now (length trits.old) start trits.new result (4 * reader.new.byte + reader.new.pair) }
{
    let mut found = already;
    // Stays a while, as above.
    while found < trits.len() && reader.byte < reader.source.len() {
        found = keep(trits, found, reader.take());
    }
    found
}

// Fills `trits` with those that stand from the reader's pair on, until it is full or the source ends. Gives how many are found.
fn draw_trits(reader: &mut PairReader, trits: &mut [u8]) -> usize
    requires { (length reader.old.source.now < 2 ^ 62) × (4 * reader.old.byte + reader.old.pair ≤ 4 * length reader.old.source.now) }
    ensures { Drew reader.old.source.now (length trits.old) (4 * reader.old.byte + reader.old.pair) trits.new result (4 * reader.new.byte + reader.new.pair) }
{
    let found = draw_fours(reader, trits);
    draw_pairs(reader, found, trits)
}

// A draw from pair `start` on, for any number of bytes and of trits: fills `bytes` with what is copied, and `trits` from the pairs after, and
// gives the next unread pair. Of a refused draw the trits are free. The start is compared before anything is added to it, since it may be any
// number.
#[tactic(auto, using(source_model::proofs::Disjoint::disjoint_draws, source_model::proofs::Conditions::too_long, source_model::proofs::Conditions::too_short, source_model::proofs::Conditions::too_few), unfolding(numbers::specs::Number::output, source_model::specs::Draw::drawn))]
pub fn draw_from(
    start: u64,
    source: &[u8],
    bytes: &mut [u8],
    trits: &mut [u8],
) -> Result<u64, Refusal>
    ensures result { answer_number result ≡ source_number (length bytes.old) (length trits.old) source.now start }
    ensures next { IfOk result (λ next. next ≡ (drawn (length bytes.old) (length trits.old) source.now start).next) }
    ensures bytes { bytes.new ≡ output (answer_number result) (copied (length bytes.old) source.now start) bytes.old }
    ensures trits { answer_number result ≡ 0 → trits.new ≡ (drawn (length bytes.old) (length trits.old) source.now start).trits }
    ensures disjoint { DisjointDraws }
{
    if SOURCE_LIMIT <= source.len() {
        return Err(Refusal::ShortSource);
    }
    let pairs = 4 * source.len() as u64;
    if pairs < start {
        return Err(Refusal::ShortSource);
    }
    if (pairs - start) / 4 < bytes.len() as u64 {
        return Err(Refusal::ShortSource);
    }
    let mut reader = PairReader::at_pair(source, start + 4 * bytes.len() as u64);
    let found = draw_trits(&mut reader, trits);
    if found < trits.len() {
        return Err(Refusal::ShortSource);
    }
    copy_pairs(source, start, bytes);
    Ok(reader.next())
}
