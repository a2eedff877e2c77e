// Sums of bit strings modulo 2. Strings of eight bytes or more go by words, the last of which begins eight bytes before the end, if need be
// within the one before it; shorter strings, and those that are not all there, go byte by byte.
ghost use Rattle.std.specs.Prelude.{◌≡◌, ◌≤◌, length};
ghost use Rattle.linear_model.specs.Bits.{add_bits};

use linear_words::bytes::byte_at;
use linear_words::words::{put_word, word};

// The sum of two bit strings modulo 2, byte by byte.
fn add_bytes(a: &[u8], b: &[u8], out: &mut [u8])
    ensures { out.new ≡ add_bits (length out.old) a.now b.now }
{
    for i in 0..out.len() {
        out[i] = byte_at(a, i) ^ byte_at(b, i);
    }
}

// The sum of two bit strings of `n` bytes modulo 2. Two words are read before one is stored: so the compiler takes them at once.
fn add_words(a: &[u8], b: &[u8], n: usize, out: &mut [u8])
    requires { (8 ≤ n) × (n ≡ length out.old) × (n ≤ length a.now) × (n ≤ length b.now) }
    ensures { out.new ≡ add_bits (length out.old) a.now b.now }
{
    for k in 0..n.div_ceil(16) {
        let p = (16 * k).min(n - 8);
        let q = (16 * k + 8).min(n - 8);
        let first = word(a, p) ^ word(b, p);
        let second = word(a, q) ^ word(b, q);
        put_word(out, p, first);
        put_word(out, q, second);
    }
}

// The same of any size: by words where all words are there.
#[inline(never)]
fn add_any(a: &[u8], b: &[u8], out: &mut [u8])
    ensures { out.new ≡ add_bits (length out.old) a.now b.now }
{
    let n = out.len();
    if 8 <= n && n <= a.len() && n <= b.len() {
        add_words(a, b, n, out);
    } else {
        add_bytes(a, b, out);
    }
}

// The sum of two bit strings modulo 2. The sizes in use are written out, so that each gets code of its own.
pub fn add_bits(a: &[u8], b: &[u8], out: &mut [u8])
    ensures { out.new ≡ add_bits (length out.old) a.now b.now }
{
    // Stays a length that is passed: with a const parameter the words would need a second function, for all other sizes.
    match out.len() {
        64 if 64 <= a.len() && 64 <= b.len() => add_words(a, b, 64, out),
        32 if 32 <= a.len() && 32 <= b.len() => add_words(a, b, 32, out),
        8 if 8 <= a.len() && 8 <= b.len() => add_words(a, b, 8, out),
        _ => add_any(a, b, out),
    }
}

// Adds a bit string to another in place, modulo 2, byte by byte.
fn add_bytes_to(a: &[u8], out: &mut [u8])
    ensures { out.new ≡ add_bits (length out.old) out.old a.now }
{
    for i in 0..out.len() {
        out[i] = out[i] ^ byte_at(a, i);
    }
}

// Adds a bit string of `n` bytes to another in place, modulo 2. The last eight bytes are added up before any is stored.
fn add_words_to(a: &[u8], n: usize, out: &mut [u8])
    requires { (8 ≤ n) × (n ≡ length out.old) × (n ≤ length a.now) }
    ensures { out.new ≡ add_bits (length out.old) out.old a.now }
{
    let last = word(out, n - 8) ^ word(a, n - 8);
    for k in 0..n / 8 {
        put_word(out, 8 * k, word(out, 8 * k) ^ word(a, 8 * k));
    }
    if n % 8 != 0 {
        put_word(out, n - 8, last);
    }
}

// The same of any size: by words where all words are there.
#[inline(never)]
fn add_any_to(a: &[u8], out: &mut [u8])
    ensures { out.new ≡ add_bits (length out.old) out.old a.now }
{
    let n = out.len();
    if 8 <= n && n <= a.len() {
        add_words_to(a, n, out);
    } else {
        add_bytes_to(a, out);
    }
}

// Adds a bit string to another in place, modulo 2.
pub fn add_bits_to(a: &[u8], out: &mut [u8])
    ensures { out.new ≡ add_bits (length out.old) out.old a.now }
{
    // Stays a length that is passed: with a const parameter the words would need a second function, for all other sizes.
    match out.len() {
        64 if 64 <= a.len() => add_words_to(a, 64, out),
        32 if 32 <= a.len() => add_words_to(a, 32, out),
        8 if 8 <= a.len() => add_words_to(a, 8, out),
        _ => add_any_to(a, out),
    }
}
