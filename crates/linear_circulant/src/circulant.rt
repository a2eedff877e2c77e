// The circulant product modulo 2: up to eight whole words by rotations, others row by row. No branch depends on a bit.
ghost use Rattle.std.specs.Prelude.{◌≡◌, ◌+◌, ◌-◌, ◌*◌, ◌%◌, ◌^◌, ◌<◌, ◌≤◌, length};
ghost use Rattle.linear_model.specs.Tables.{sum, from};
ghost use Rattle.linear_model.specs.Bits.{byte_of, from_bits, bit};
ghost use Rattle.linear_model.specs.Products.{bit_row, circulant, circulant_product};
ghost use Rattle.linear_model.specs.Internal.Words.{shift_term};

use crate::quarters;
use linear_rotations::rotations;
use linear_words::bytes::byte_at;
use linear_words::words::word_at;
use linear_words::{bytes, words};

// Row 8p + q of the circulant matrix times `x`, modulo 2: the columns from 8p + q on, and those before.
fn row_bit(key: &[u8], x: &[u8], n: usize, p: usize, q: usize) -> u8
    requires { (p < n) × (q < 8) × (n < 2 ^ 63) }
    ensures { result ≡ bit_row n (circulant n key.now) x.now (8 * p + q) }
{
    let up = dot(key, bytes::front(x, n), n, p, q);
    if q == 0 {
        return up ^ dot(x, bytes::front(key, n), n, n - p, 0);
    }
    up ^ dot(x, bytes::front(key, n), n, n - p - 1, 8 - q)
}

// Rows 8p to 8p + 7 times `x`, modulo 2, in a byte.
fn circulant_rows(key: &[u8], x: &[u8], n: usize, p: usize) -> u8
    requires { (p < n) × (n < 2 ^ 63) }
    ensures { result ≡ byte_of (bit_row n (circulant n key.now) x.now) p }
{
    let mut acc: u8 = 0;
    for q in 0..8 {
        acc |= row_bit(key, x, n, p, q) << q;
    }
    acc
}

// The circulant matrix of `key` times `label`, modulo 2, row by row.
fn circulant_bytes(key: &[u8], label: &[u8], out: &mut [u8])
    ensures { out.new ≡ circulant_product (length out.old) key.now label.now }
{
    let n = out.len();
    for i in 0..n {
        out[i] = circulant_rows(key, label, n, i);
    }
}

// The circulant matrix of `key` times `label`, modulo 2.
pub fn circulant_product(key: &[u8], label: &[u8], out: &mut [u8])
    ensures { out.new ≡ circulant_product (length out.old) key.now label.now }
{
    let n = out.len();
    if n == 8 {
        words::put_word(
            out,
            0,
            quarters::product(word_at(key, 0), word_at(label, 0)),
        );
        return;
    }
    if n % 8 == 0 && 8 < n && n <= 64 {
        rotations::product(key, label, out, n / 8);
        return;
    }
    circulant_bytes(key, label, out);
}

// Bits 8i + q to 8i + q + 63 of `s`.
fn window(s: &[u8], i: usize, q: usize) -> u64
    requires { (i + 8 < 2 ^ 64) × (q < 8) }
    ensures { result ≡ from_bits 64 (from (8 * i + q) (bit s.now)) }
{
    let low = word_at(s, i);
    if q == 0 {
        return low;
    }
    (low >> q) | (u64::from(byte_at(s, i + 8)) << (64 - q))
}

// The bits of `a` times those of `b` from 8p + q on, modulo 2.
fn dot(a: &[u8], b: &[u8], n: usize, p: usize, q: usize) -> u8
    requires { (p ≤ n) × (q < 8) × (length b.now ≤ n) × (n < 2 ^ 63) }
    ensures { result ≡ sum (8 * n) (shift_term a.now b.now (8 * p + q)) % 2 }
{
    let mut acc: u64 = 0;
    for w in (0..n - p).step_by(8) {
        acc ^= word_at(a, w) & window(b, p + w, q);
    }
    (acc.count_ones() % 2) as u8
}
