// For C: sums of bit strings modulo 2.
ghost use Rattle.std.specs.Prelude.{◌≡◌, length};
ghost use Rattle.linear_model.specs.Bits.{add_bits};

use linear::bits;

// The sum of two bit strings modulo 2.
#[unsafe(no_mangle)]
pub extern "C" fn add_bits(a: &[u8], b: &[u8], out: &mut [u8])
    ensures { out.new ≡ add_bits (length out.old) a.now b.now }
{
    bits::add_bits(a, b, out);
}

// Adds a bit string to another in place, modulo 2.
#[unsafe(no_mangle)]
pub extern "C" fn add_bits_to(a: &[u8], out: &mut [u8])
    ensures { out.new ≡ add_bits (length out.old) out.old a.now }
{
    bits::add_bits_to(a, out);
}
