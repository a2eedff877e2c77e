// The circulant product of two to eight words. Bit i of it is the sum over k of key bit k times label bit i + k, counted
// around. The key's bits 64a + q are taken from the highest q down, some places q a step: the sum so far is rotated right by as many bits,
// and for each place and each a the label's words from a on, rotated by the place within the step, are added under the mask of key bit
// 64a + q. The label has its words twice over, so that no index turns round, and its rotations by 0 to 3 bits stand in rows of 17 words.
// No branch and no index depends on a bit.
ghost use Rattle.std.specs.Prelude.{◌≡◌, ◌⊎◌, ℕ, ◌+◌, ◌-◌, ◌*◌, ◌/◌, ◌%◌, ◌^◌, ◌<◌, ◌≤◌, length};
ghost use Rattle.std.specs.Int.Bits.{bit_xor, bit_and, bit_or};
ghost use Rattle.linear_model.specs.Bits.{bit, pack, zeros};
ghost use Rattle.linear_model.specs.Products.{circulant_product};
ghost use Rattle.linear_model.specs.Internal.Rotations.{Bits, Words, Overwritten, word_of, closed, rotated_at, added_at, mask_at, Masks, Added, AddedRows, Stepped, around, Rows, Multiplied};

use linear_words::words;

// The first `w` words of `s`, stored from place `o` on.
fn read(s: &[u8], to: &mut [u64], o: usize, w: usize)
    requires { (o ≤ 8) × (w ≤ 8) × (o + w ≤ length to.old) }
    ensures { Overwritten (word_of (bit s.now)) o w to.old to.new }
{
    for j in 0..w {
        to[o + j] = words::word_at(s, 8 * j);
    }
}

// The first `count` words rotated right by `n` bits, stored from place `o` on: each takes its highest bits from the next word. They are stored
// over themselves, or after all that is read.
fn rotate(words: &mut [u64], o: usize, count: usize, n: usize)
    requires { (0 < n) × (n < 64) × ((o ≡ 0) ⊎ (count < o)) × (o + count < length words.old) }
    ensures { Overwritten (rotated_at n words.old) o count words.old words.new }
{
    for s in 0..count {
        words[o + s] = (words[s] >> n) | (words[s + 1] << (64 - n));
    }
}

// The label's words twice over, and their rotations. The first word stands again after the last, so that each has a next one.
fn read_label(label: &[u8], to: &mut [u64; 68], w: usize)
    requires { (0 < w) × (w ≤ 8) }
    ensures { Rows (around (8 * w) label.now) (2 * w) 4 to.new }
{
    read(label, to, 0, w);
    read(label, to, w, w);
    to[2 * w] = to[0];
    rotate(to, 17, 2 * w, 1);
    rotate(to, 34, 2 * w, 2);
    rotate(to, 51, 2 * w, 3);
}

// The masks of bits `q` of the key's words, stored from place `o` on.
fn masks<const W: usize>(key: &[u64; 8], to: &mut [u64; 32], o: usize, q: usize)
    requires { (o ≤ 24) × (q < 64) × (W ≤ 8) }
    ensures { Overwritten (mask_at key.now q) o W to.old to.new }
{
    for a in 0..W {
        to[o + a] = words::mask(key[a] >> q);
    }
}

// The masks of bits `q` to `q + N - 1` of the key's words.
fn masks_of_places<const W: usize, const N: usize>(key: &[u64; 8], to: &mut [u64; 32], q: usize)
    requires { (N ≤ 4) × (q + N ≤ 64) × (W ≤ 8) }
    ensures { Masks key.now q W N to.new }
{
    for p in 0..N {
        masks::<W>(key, to, 8 * p, q + p);
    }
}

// Adds the label's words from place `o` on, under the mask `m`.
fn add_word<const W: usize>(acc: &mut [u64; 9], label: &[u64; 68], o: usize, m: u64)
    requires { (o ≤ 60) × (W ≤ 8) }
    ensures { Overwritten (added_at acc.old label.now o m) 0 W acc.old acc.new }
{
    for s in 0..W {
        acc[s] ^= m & label[o + s];
    }
}

// Adds the words of row `p` from each a on, under the mask of place `p` and word a.
fn add_words<const W: usize>(acc: &mut [u64; 9], label: &[u64; 68], m: &[u64; 32], p: usize)
    requires { (p < 4) × (W ≤ 8) }
    ensures { Added W m.now label.now p acc.old acc.new }
{
    for a in 0..W {
        add_word::<W>(acc, label, 17 * p + a, m[8 * p + a]);
    }
}

// Adds the words of the first `N` rows, each under the masks of its place.
fn add_rows<const W: usize, const N: usize>(acc: &mut [u64; 9], label: &[u64; 68], m: &[u64; 32])
    requires { (N ≤ 4) × (W ≤ 8) }
    ensures { AddedRows W N m.now label.now acc.old acc.new }
{
    for p in 0..N {
        add_words::<W>(acc, label, m, p);
    }
}

// Stays three parameters, the sum, the label's words and the key's: no plainer as a struct, since of what this calls the masks take the key
// alone, the rotation the sum alone, and only what adds takes two of them.
// The sum so far rotated, and what bits `q` to `q + N - 1` of the key's words add. Of a mask with one use the compiler makes a jump on the
// key's bit. Here each has `W` uses: `W` is two or more, and it is known, so no loop over the label's words is left.
fn step<const W: usize, const N: usize>(
    acc: &mut [u64; 9],
    label: &[u64; 68],
    key: &[u64; 8],
    q: usize,
)
    requires { (0 < N) × (N ≤ 4) × (q + N ≤ 64) × (0 < W) × (W ≤ 8) }
    ensures { Stepped W N key.now label.now q acc.old acc.new }
{
    let mut m = [0u64; 32];
    masks_of_places::<W, N>(key, &mut m, q);
    acc[W] = acc[0];
    rotate(acc, 0, W, N);
    add_rows::<W, N>(acc, label, &m);
}

// The product of the key and the label in steps of `N` places, from the highest bit of the key's words down.
fn multiply<const W: usize, const N: usize>(acc: &mut [u64; 9], label: &[u64; 68], key: &[u64; 8])
    requires { (0 < W) × (W ≤ 8) × (0 < N) × (N ≤ 4) × (64 % N ≡ 0) × (acc.old ≡ zeros 9) }
    ensures { Multiplied W 4 key.now label.now acc.new }
{
    for i in (0..64 / N).rev() {
        step::<W, N>(acc, label, key, N * i);
    }
}

// The same for any number of words. Each has code of its own, with as many places a step as is fastest.
fn multiply_any(acc: &mut [u64; 9], label: &[u64; 68], key: &[u64; 8], w: usize)
    requires { (1 < w) × (w ≤ 8) × (acc.old ≡ zeros 9) }
    ensures { Multiplied w 4 key.now label.now acc.new }
{
    match w {
        2 => multiply::<2, 2>(acc, label, key),
        3 => multiply::<3, 2>(acc, label, key),
        4 => multiply::<4, 4>(acc, label, key),
        5 => multiply::<5, 4>(acc, label, key),
        6 => multiply::<6, 4>(acc, label, key),
        7 => multiply::<7, 4>(acc, label, key),
        _ => multiply::<8, 2>(acc, label, key),
    }
}

// Stores words as bytes.
fn store(out: &mut [u8], acc: &[u64; 9], w: usize)
    requires { (w ≤ 8) × (length out.old ≡ 8 * w) }
    ensures { (f : ℕ → ℕ) → Bits f → Words f w acc.now → out.new ≡ pack (8 * w) f }
{
    for i in 0..w {
        words::put_word(out, 8 * i, acc[i]);
    }
}

// The circulant matrix of `key` times `label`, modulo 2, of `w` words.
pub fn product(key: &[u8], label: &[u8], out: &mut [u8], w: usize)
    requires { (1 < w) × (w ≤ 8) × (length out.old ≡ 8 * w) }
    ensures { out.new ≡ circulant_product (length out.old) key.now label.now }
{
    let mut k = [0u64; 8];
    read(key, &mut k, 0, w);
    let mut l = [0u64; 68];
    read_label(label, &mut l, w);
    let mut acc = [0u64; 9];
    multiply_any(&mut acc, &l, &k, w);
    store(out, &acc, w);
}
