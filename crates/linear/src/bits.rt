// Sums of bit strings modulo 2, and bytes and words of strings.
ghost use Rattle.std.specs.Prelude.{◌≡◌, length};
ghost use Rattle.linear_model.specs.Bits.{add_bits};

use linear_bits::bits;
pub use linear_words::bytes::byte_at;
pub use linear_words::words::word_at;

// The sum of two bit strings modulo 2.
pub fn add_bits(a: &[u8], b: &[u8], out: &mut [u8])
    ensures { out.new ≡ add_bits (length out.old) a.now b.now }
{
    bits::add_bits(a, b, out);
}

// Adds a bit string to another in place, modulo 2.
pub fn add_bits_to(a: &[u8], out: &mut [u8])
    ensures { out.new ≡ add_bits (length out.old) out.old a.now }
{
    bits::add_bits_to(a, out);
}
