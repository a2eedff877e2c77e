// Bytes copied from a source, from any pair on. Where they begin inside a byte, each is made of two of the source's by shifts, eight at a
// time; no branch depends on their values. The last word begins eight bytes before the end, if need be within the one before it; fewer
// than eight bytes, and those that are not all there, go byte by byte.
ghost use Rattle.std.specs.Prelude.{◌≡◌, ◌+◌, ◌*◌, ◌^◌, ◌<◌, ◌≤◌, length};
ghost use Rattle.linear_model.specs.Tables.{from};
ghost use Rattle.linear_model.specs.Bits.{from_bits, bit};
ghost use Rattle.source_model.specs.Draw.{copied};

use crate::reader::PairReader;
use linear_words::copies::put;
use linear_words::words::{put_word, word};

// The eight bytes that begin at bit `q` of byte `i`. That `q` is below 8 is written out, so that the compiler makes one shift of both.
fn shifted_word(source: &[u8], i: usize, q: usize) -> u64
    requires { (i + 9 ≤ length source.now) × (0 < q) × (q < 8) }
    ensures { result ≡ from_bits 64 (from (8 * i + q) (bit source.now)) }
{
    (word(source, i) >> (q % 8)) | (u64::from(source[i + 8]) << (64 - q % 8))
}

// Copies from a reader's pair on, by words. Two are read before one is stored: so the compiler takes them at once.
fn copy_words(reader: PairReader, out: &mut [u8])
    requires { (0 < reader.pair) × (8 ≤ length out.old) × (reader.byte + length out.old < length reader.source.now) }
    ensures { out.new ≡ copied (length out.old) reader.entry.source.now (4 * reader.entry.byte + reader.entry.pair) }
{
    let n = out.len();
    let last = n - 8;
    for turn in 0..n.div_ceil(16) {
        let p = last.min(16 * turn);
        let q = last.min(16 * turn + 8);
        let first = shifted_word(reader.source, reader.byte + p, 2 * reader.pair);
        let second = shifted_word(reader.source, reader.byte + q, 2 * reader.pair);
        put_word(out, p, first);
        put_word(out, q, second);
    }
}

// Copies from a reader's pair on, byte by byte; past the end, 0.
fn copy_bytes(reader: PairReader, out: &mut [u8])
    requires { reader.byte < 2 ^ 62 }
    ensures { out.new ≡ copied (length out.old) reader.entry.source.now (4 * reader.entry.byte + reader.entry.pair) }
{
    let mut reader = reader;
    for byte in out.iter_mut() {
        *byte = reader.take_four();
    }
}

// Fills `out` with the bytes from pair `start` on; past the end, 0.
pub fn copy_pairs(source: &[u8], start: u64, out: &mut [u8])
    ensures { out.new ≡ copied (length out.old) source.now start }
{
    let reader = PairReader::at_pair(source, start);
    let n = out.len();
    if reader.byte < source.len() && n <= source.len() - reader.byte {
        if reader.pair == 0 {
            put(&source[reader.byte..reader.byte + n], out, 0);
            return;
        }
        if 8 <= n && n < source.len() - reader.byte {
            copy_words(reader, out);
            return;
        }
    }
    copy_bytes(reader, out);
}
