// Rows of trits times a vector, modulo 3, by words of 64 bits: one loop over the words of a row, for planes of any number of bytes. No branch
// depends on a vector's bytes.
ghost use Rattle.std.specs.Prelude.{◌≡◌, ◌++◌, ◌+◌, ◌*◌, ◌/◌, ◌%◌, ◌^◌, ◌<◌, ◌≤◌, length, drop};
ghost use Rattle.linear_model.specs.Tables.{sum, from, below};
ghost use Rattle.linear_model.specs.Products.{row_product, row_digit, matrix_product, trit_term};
ghost use Rattle.linear_model.specs.Internal.Planes.{PlaneBits};

use linear_digits::{digits, partial};
use linear_words::lanes;
use linear_words::lanes::Planes;
use linear_words::words::word;

// Stays three parameters, a row, a vector and `m`: a struct of them would be no plainer, since each function that makes one has them, and asks the
// same of them.
// What columns 8i to 8i + 63 of a row give, modulo 3, its remainder not taken yet.
fn row_word(row: &[u8], v: &[u8], m: usize, i: usize) -> u64
    requires { (2 * m ≤ length row.now) × (2 * m ≤ length v.now) × (i + 8 ≤ m) }
    ensures { (result % 3 ≡ sum 64 (from (8 * i) (trit_term m row.now v.now)) % 3) × (result < 2 ^ 35) }
{
    lanes::weight(lanes::multiply(word(row, i), word(row, m + i), word(v, i), word(v, m + i)))
}

// What all whole words of a row give: weights are added up, and the remainder is taken once. A word adds less than 2 ^ 35.
fn row_words(row: &[u8], v: &[u8], m: usize) -> u64
    requires { (2 * m ≤ length row.now) × (2 * m ≤ length v.now) × (m < 2 ^ 31) }
    ensures { result ≡ sum (8 * (m / 8 * 8)) (trit_term m row.now v.now) % 3 }
{
    let mut acc: u64 = 0;
    for i in 0..m / 8 {
        acc += row_word(row, v, m, 8 * i);
    }
    acc % 3
}

// A row times a vector whose planes have `m` bytes, modulo 3: digit by digit after the last whole word.
fn row_digit(row: &[u8], v: &[u8], m: usize) -> u64
    requires { (2 * m ≤ length row.now) × (2 * m ≤ length v.now) × (m < 2 ^ 31) }
    ensures { result ≡ row_product m row.now v.now }
{
    let d = row_words(row, v, m);
    if m % 8 == 0 {
        return d;
    }
    u64::from(digits::row_product(row, v, m, m / 8 * 8, d as u8))
}

// The first `t` rows times a vector, last row first. `all` has the digits' low bits plus twice their high bits, so that only the high bits are
// taken apart in the loop.
fn some_rows(rows: &[u8], v: &[u8], m: usize, t: usize) -> Planes
    requires { (t ≤ 8) × (2 * m * t ≤ length rows.now) × (2 * m ≤ length v.now) × (m < 2 ^ 31) }
    ensures { PlaneBits 8 (below t (row_digit m rows.now v.now)) 0 result.low result.high }
{
    let mut all: u64 = 0;
    let mut hi: u64 = 0;
    // `place` goes back by a row each time: multiplied anew, rows of 16 bytes take an eighth longer.
    let mut place = 2 * m * t;
    for _ in 0..t {
        place -= 2 * m;
        let row = &rows[place..];
        let d = row_digit(row, v, m);
        all = 2 * all + d;
        hi = 2 * hi + d / 2;
    }
    Planes {
        low: (all - 2 * hi) as u8,
        high: hi as u8,
    }
}

// The first `t` rows of a matrix, which are all there, times a vector whose planes have `m` bytes, modulo 3.
fn whole_rows(rows: &[u8], v: &[u8], m: usize, t: usize, out: &mut [u8])
    requires { (m ≡ length v.now / 2) × (m < 2 ^ 31) × (2 * m * t ≤ length rows.now) }
    ensures { out.new ≡
        matrix_product (length out.old / 2) (length v.now / 2) t rows.now v.now
        ++ drop (2 * (length out.old / 2)) out.old }
{
    let n = out.len() / 2;
    let mut at: usize = 0;
    let mut left = t;
    for p in 0..n {
        let c = left.min(8);
        let rest = &rows[at..];
        let e = some_rows(rest, v, m, c);
        out[p] = e.low;
        out[n + p] = e.high;
        at += 2 * m * c;
        left -= c;
    }
}

// The first `t` rows of a matrix times a vector, modulo 3. The vector's two planes are the halves of `v`, and a row has as many bytes. The
// sizes in use are written out, so that each gets code of its own.
// Stays a match over literals: a const parameter would take a second function for all other sizes.
pub fn matrix_product(rows: &[u8], v: &[u8], t: usize, out: &mut [u8])
    ensures { out.new ≡
        matrix_product (length out.old / 2) (length v.now / 2) t rows.now v.now
        ++ drop (2 * (length out.old / 2)) out.old }
{
    match v.len() / 2 {
        8 if t <= rows.len() / 16 => whole_rows(rows, v, 8, t, out),
        32 if t <= rows.len() / 64 => whole_rows(rows, v, 32, t, out),
        64 if t <= rows.len() / 128 => whole_rows(rows, v, 64, t, out),
        m @ 1..0x8000_0000 if t <= rows.len() / (2 * m) => whole_rows(rows, v, m, t, out),
        _ => partial::matrix_product(rows, v, t, out),
    }
}
