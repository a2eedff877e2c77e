// A matrix whose rows need not all be there: a byte past its end counts as 0. Rows are taken digit by digit.
ghost use Rattle.std.specs.Prelude.{◌≡◌, ◌++◌, ◌+◌, ◌*◌, ◌/◌, length, drop};
ghost use Rattle.linear_model.specs.Tables.{below};
ghost use Rattle.linear_model.specs.Products.{row_digit, matrix_product};
ghost use Rattle.linear_model.specs.Internal.Planes.{PlaneBits};

use crate::digits;
use linear_words::bytes;
use linear_words::lanes::Planes;

// The first row of a matrix of `t` rows, times `v`; of no rows, 0.
fn first_row(rows: &[u8], v: &[u8], t: usize) -> u8
    ensures { result ≡ below t (row_digit (length v.now / 2) rows.now v.now) 0 }
{
    if 0 < t {
        digits::row_product(rows, v, v.len() / 2, 0, 0)
    } else {
        0
    }
}

// The first eight rows of a matrix of `t` rows, times `v`.
fn eight_rows(rows: &[u8], v: &[u8], t: usize) -> Planes
    ensures { PlaneBits 8 (below t (row_digit (length v.now / 2) rows.now v.now)) 0 result.low result.high }
{
    let step = v.len() / 2 * 2;
    let mut lo: u8 = 0;
    let mut hi: u8 = 0;
    for q in 0..8 {
        let row = bytes::skip(rows, step.saturating_mul(q));
        let d = first_row(row, v, t.saturating_sub(q));
        lo |= (d % 2) << q;
        hi |= (d / 2) << q;
    }
    Planes { low: lo, high: hi }
}

// The first `t` rows of a matrix times a vector, modulo 3.
pub fn matrix_product(rows: &[u8], v: &[u8], t: usize, out: &mut [u8])
    ensures { out.new ≡
        matrix_product (length out.old / 2) (length v.now / 2) t rows.now v.now
        ++ drop (2 * (length out.old / 2)) out.old }
{
    let step = v.len() / 2 * 2;
    let n = out.len() / 2;
    for p in 0..n {
        let eight = bytes::skip(rows, step.saturating_mul(p).saturating_mul(8));
        let e = eight_rows(eight, v, t.saturating_sub(p.saturating_mul(8)));
        out[p] = e.low;
        out[n + p] = e.high;
    }
}
