// The circulant product of one word. A mask of one bit would have one use here, and of that the compiler makes a jump on the key's bit. So
// a mask has four bits of the key, 16 places apart, each in a quarter of the word, and it is used four times: on the label that is rotated,
// where all quarters add to the lowest quarter of the product, and on the same rotated by one, two and three quarters more, where they add to
// the others.
ghost use Rattle.std.specs.Prelude.{◌≡◌, ℕ, ◌-◌, ◌*◌, ◌/◌, ◌%◌, ◌^◌, ◌<◌};
ghost use Rattle.linear_model.specs.Bits.{bit_at, from_bits};
ghost use Rattle.linear_model.specs.Internal.Rotations.{word_product, quarters_bit};

// The lowest bit of each quarter of a word, in all places of the quarter.
fn quarter_masks(x: u64) -> u64
    ensures { (i : ℕ) → i < 64 → bit_at result i ≡ bit_at x (16 * (i / 16)) }
{
    (x & 0x1_0001_0001_0001) * 0xffff
}

// All quarters of a word added up.
fn quarters_added(x: u64) -> u64
    ensures { result ≡ from_bits 16 (quarters_bit x) }
{
    (x ^ (x >> 16) ^ (x >> 32) ^ (x >> 48)) % 0x1_0000
}

// The circulant matrix of `key` times `label`, modulo 2.
pub fn product(key: u64, label: u64) -> u64
    ensures { result ≡ from_bits 64 (word_product key label) }
{
    let mut x = label;
    let mut first: u64 = 0;
    let mut second: u64 = 0;
    let mut third: u64 = 0;
    let mut fourth: u64 = 0;
    for q in 0..16u32 {
        let m = quarter_masks(key >> q);
        first ^= m & x;
        second ^= m & x.rotate_right(16);
        third ^= m & x.rotate_right(32);
        fourth ^= m & x.rotate_right(48);
        x = x.rotate_right(1);
    }
    quarters_added(first)
        | quarters_added(second) << 16
        | quarters_added(third) << 32
        | quarters_added(fourth) << 48
}
