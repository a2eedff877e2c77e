// Trits, a byte each, packed to two planes, eight at a time.
ghost use Rattle.std.specs.Prelude.{◌≡◌, ◌++◌, ℕ, ◌+◌, ◌*◌, ◌%◌, ◌<◌, ◌≤◌, length, get_or, drop};
ghost use Rattle.linear_model.specs.Bits.{bit_at, from_bits, byte_of};
ghost use Rattle.linear_model.specs.Trits.{pack_trits};
ghost use Rattle.source_model.specs.Draw.{trit_of};
ghost use Rattle.pair_sampler.specs.Planes.{plane_bit};

use linear_words::words::word;

// Bit `h` of each of a word's bytes, all below 4, in a byte. The bytes' upper half is laid between the bits of the lower one, so that
// every fourth bit is kept; of the product bits 21 to 28 are these eight in turn, and no two terms of it meet in a bit.
fn gathered(x: u64, h: usize) -> u8
    requires { (h < 2) × ((j : ℕ) → j < 64 → 2 ≤ j % 8 → bit_at x j ≡ 0) }
    ensures { result ≡ from_bits 8 (λ k. bit_at x (8 * k + h)) }
{
    let every_fourth = ((x | x >> 28) >> h) & 0x1111_1111;
    ((every_fourth * 0x20_4081 >> 21) % 256) as u8
}

// Byte `i` of a plane of trits: bit `h` of each.
fn plane_byte(trits: &[u8], h: usize, i: usize) -> u8
    requires { (h < 2) × (8 * i + 8 ≤ length trits.now) × ((j : ℕ) → get_or trits.now j 0 < 4) }
    ensures { result ≡ byte_of (plane_bit trits.now h) i }
{
    gathered(word(trits, 8 * i), h)
}

// Writes the two planes of 8 × `m` trits to the front of `out`.
pub fn pack(trits: &[u8], m: usize, out: &mut [u8])
    requires { (8 * m ≤ length trits.now) × (2 * m ≤ length out.old) × ((j : ℕ) → get_or trits.now j 0 < 4) }
    ensures { out.new ≡ pack_trits m (trit_of trits.now) ++ drop (2 * m) out.old }
{
    for i in 0..m {
        out[i] = plane_byte(trits, 0, i);
        out[m + i] = plane_byte(trits, 1, i);
    }
}
