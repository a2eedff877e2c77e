// Rows are judged one by one where they stand: in the blocks of a file, or one after the other.
ghost use Rattle.std.specs.Prelude.{◌≡◌, ◌+◌, ◌*◌, ◌≤◌, length, take, drop};
ghost use Rattle.matrix_model.specs.File.{row_plane_of};
ghost use Rattle.matrix_model.specs.Internal.Rows.{rows_answer};
ghost use Rattle.matrix_blocks.specs.Layouts.{layout_in};
ghost use Rattle.matrix_blocks.specs.Standing.{layout_held, rows_held};

use linear::trits::row_is_zero;
use linear_fit::fit::planes_fit;
use matrix_blocks::files::Standing;
use matrix_blocks::layouts::Layout;
use numbers::refusal::Refusal;

// Row `i` of rows of `n` bytes one after the other.
fn row_of(rows: &[u8], n: usize, i: usize) -> &[u8]
    requires { n * i + n ≤ length rows.now }
    ensures { result.now ≡ take n (drop (n * i) rows.now) }
{
    let at = n * i;
    &rows[at..at + n]
}

// Whether one row, whose planes have `m` bytes, is all zero; one with a trit of which both bits are set is refused.
fn check_row(layout: Layout, row: &[u8], m: usize) -> Result<bool, Refusal>
    requires { (length row.now ≡ (layout_in layout).row_bytes) × (m ≡ row_plane_of (layout_in layout)) }
    ensures { result ≡ rows_answer (layout_in layout) 1 row.now }
{
    if !planes_fit(row, m, 8 * m) {
        return Err(Refusal::UnfitTrit);
    }
    Ok(row_is_zero(row))
}

// Whether one of `n` rows one after the other is all zero. A trit with both bits set comes before a zero row, wherever they stand, so it ends
// the loop.
fn check_rows(layout: Layout, rows: &[u8], m: usize, n: usize) -> Result<bool, Refusal>
    requires { (length rows.now ≡ (layout_in layout).row_bytes * n) × (m ≡ row_plane_of (layout_in layout)) }
    ensures { result ≡ rows_answer (layout_in layout) n rows.now }
{
    let mut zero = false;
    for i in 0..n {
        zero |= check_row(layout, row_of(rows, layout.row_bytes, i), m)?;
    }
    Ok(zero)
}

// The same. The sizes in use are written out for the test of fitness, so that each gets code of its own, and not for the test of a zero row: with
// both, the compiler reads a row of 64 bytes word by word.
fn check_block(layout: Layout, rows: &[u8], n: usize) -> Result<bool, Refusal>
    requires { length rows.now ≡ (layout_in layout).row_bytes * n }
    ensures { result ≡ rows_answer (layout_in layout) n rows.now }
{
    // Stays a match over literals: a const parameter would take a second function for all other sizes.
    match layout.row_bytes / 2 {
        8 => check_rows(layout, rows, 8, n),
        32 => check_rows(layout, rows, 32, n),
        64 => check_rows(layout, rows, 64, n),
        m => check_rows(layout, rows, m, n),
    }
}

// Whether one of all rows is all zero, block by block; rows tied without a zero row are not found here. Rows one after the other go the same
// way, so that `check_block` is called, and compiled, in one place.
pub fn check_each_row(rows: Standing) -> Result<bool, Refusal>
    ensures { result ≡ rows_answer (layout_held rows.entry) (layout_held rows.entry).row_count (rows_held rows.entry) }
{
    let layout = rows.layout();
    let mut zero = false;
    for b in 0..layout.block_count() {
        zero |= check_block(layout, rows.rows_at(b), layout.rows_in(b))?;
    }
    Ok(zero)
}
