// Words of 64 bits of a string.
ghost use Rattle.std.specs.Prelude.{◌≡◌, ◌+◌, ◌*◌, ◌/◌, ◌%◌, ◌^◌, ◌<◌, ◌≤◌, length};
ghost use Rattle.linear_model.specs.Tables.{from};
ghost use Rattle.linear_model.specs.Bits.{from_bits, bit};
ghost use Rattle.linear_model.specs.Internal.Words.{set_word};

use crate::bytes::byte_at;

// Bits 8i to 8i + 63 of `s`, where it has as many: the eight loads are compiled to one.
pub fn word(s: &[u8], i: usize) -> u64
    requires { i + 8 ≤ length s.now }
    ensures { result ≡ from_bits 64 (from (8 * i) (bit s.now)) }
{
    u64::from_le_bytes([
        s[i],
        s[i + 1],
        s[i + 2],
        s[i + 3],
        s[i + 4],
        s[i + 5],
        s[i + 6],
        s[i + 7],
    ])
}

// The same near the end of `s` and past it, where bits are 0.
fn last_word(s: &[u8], i: usize) -> u64
    requires { i + 8 < 2 ^ 64 }
    ensures { result ≡ from_bits 64 (from (8 * i) (bit s.now)) }
{
    let mut acc: u64 = 0;
    for k in 0..8 {
        acc |= u64::from(byte_at(s, i + k)) << (8 * k);
    }
    acc
}

// The lowest bit of a word, in all places.
pub fn mask(x: u64) -> u64
    ensures { result ≡ x % 2 * 0xffffffffffffffff }
{
    (x % 2) * 0xffff_ffff_ffff_ffff
}

// The byte of `x` from bit `k` on.
pub fn byte_of(x: u64, k: usize) -> u8
    requires { k < 64 }
    ensures { result ≡ x / 2 ^ k % 256 }
{
    ((x >> k) % 256) as u8
}

// Stores a word at byte `i`: the eight stores are compiled to one.
pub fn put_word(out: &mut [u8], i: usize, x: u64)
    requires { i + 8 ≤ length out.old }
    ensures { out.new ≡ set_word out.old i x }
{
    out[i..i + 8].copy_from_slice(&x.to_le_bytes());
}

// Bits 8i to 8i + 63 of `s`, as a word; past the end, 0.
pub fn word_at(s: &[u8], i: usize) -> u64
    ensures { result ≡ from_bits 64 (from (8 * i) (bit s.now)) }
{
    if s.len() <= i {
        return 0;
    }
    if 8 <= s.len() - i {
        return word(s, i);
    }
    last_word(s, i)
}

// Both halves of a word added up: the same number modulo each divisor of 2 ^ 32 - 1, so modulo 3 and 255.
pub fn folded(x: u64) -> u64
    ensures { (result ≡ x % 2 ^ 32 + x / 2 ^ 32) × (result < 2 ^ 33) }
{
    x % 0x1_0000_0000 + (x >> 32)
}
