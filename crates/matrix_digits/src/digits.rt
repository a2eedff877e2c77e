// The rows of a matrix file times a vector, multiplied where they stand, so that no copy of the rows is made: up to eight rows of a
// block at a time, whose digits are gathered until they are a byte of each plane of the code.
ghost use Rattle.std.specs.Prelude.{◌≡◌, ◌++◌, ◌+◌, ◌*◌, ◌<◌, ◌≤◌, min, length, drop};
ghost use Rattle.linear_model.specs.Products.{matrix_product};
ghost use Rattle.matrix_model.specs.Block.{rows_in};
ghost use Rattle.matrix_model.specs.File.{block_count, file_size, row_plane_of, code_plane_of, rows_of};
ghost use Rattle.matrix_model.specs.Internal.Digits.{code_digit, Span, Gathering};
ghost use Rattle.matrix_blocks.specs.Layouts.{layout_in};

use linear::products::matrix_product;
use matrix_blocks::files::MatrixFile;
use matrix_blocks::layouts::Layout;
use matrix_model::sizes::{BLOCK_BYTES, HEAD_BYTES};

// Digits of a code, the first one lowest: their low bits and their high bits.
#[derive(Clone, Copy)]
struct Digits {
    low: u64,
    high: u64,
}

// A row's block, and its place among the rows there.
#[derive(Clone, Copy)]
struct Place {
    block: usize,
    row: usize,
}

// Digits that are not written yet, and the next row: its number, its block and its place there.
#[derive(Clone, Copy)]
struct Gathered {
    low: u64,
    high: u64,
    done: usize,
    block: usize,
    place: usize,
}

// The digits of `n` rows of block `b`, from place `r` on.
fn piece(file: MatrixFile, v: &[u8], b: usize, r: usize, n: usize) -> Digits
    requires { (length v.now ≡ (layout_in file.layout).row_bytes) × (b < block_count (layout_in file.layout)) × (r + n ≤ rows_in (layout_in file.layout) b) × (n ≤ 8) }
    ensures { Span n (code_digit (layout_in file.entry.layout) file.entry.bytes.now v.now) ((layout_in file.entry.layout).block_rows * b + r) result.low result.high }
{
    let row_bytes = file.layout.row_bytes;
    let at = BLOCK_BYTES * b + HEAD_BYTES + row_bytes * r;
    let end = at + row_bytes * n;
    let mut planes = [0u8; 2];
    matrix_product(&file.bytes[at..end], v, n, &mut planes);
    Digits {
        low: u64::from(planes[0]),
        high: u64::from(planes[1]),
    }
}

// The same row, by the next block where place `r` is past block `b`.
fn place_of(layout: Layout, b: usize, r: usize) -> Place
    requires { (b < block_count (layout_in layout)) × (r ≤ (layout_in layout).block_rows) }
    ensures { ((layout_in layout).block_rows * result.block + result.row ≡ (layout_in layout).block_rows * b + r) × (result.row < (layout_in layout).block_rows) }
{
    if r < layout.block_rows {
        return Place { block: b, row: r };
    }
    Place {
        block: b + 1,
        row: 0,
    }
}

// Up to eight digits more, of one block.
fn more(file: MatrixFile, v: &[u8], start: usize, g: Gathered) -> Gathered
    requires { (length v.now ≡ (layout_in file.layout).row_bytes) × Gathering (layout_in file.layout) (code_digit (layout_in file.layout) file.bytes.now v.now) start g.done g.block g.place g.low g.high × (start ≤ g.done) × (g.done < start + 8) × (g.done < (layout_in file.layout).row_count) }
    ensures { Gathering (layout_in file.entry.layout) (code_digit (layout_in file.entry.layout) file.entry.bytes.now v.now) start result.done result.block result.place result.low result.high × (g.done < result.done) }
{
    let n = (file.layout.rows_in(g.block) - g.place).min(8);
    let d = piece(file, v, g.block, g.place, n);
    let next = place_of(file.layout, g.block, g.place + n);
    let have = g.done - start;
    Gathered {
        low: g.low | d.low << have,
        high: g.high | d.high << have,
        done: g.done + n,
        block: next.block,
        place: next.row,
    }
}

// The digits up to row `end`, and those of its block that come with them.
fn gather(file: MatrixFile, v: &[u8], start: usize, end: usize, g: Gathered) -> Gathered
    requires { (length v.now ≡ (layout_in file.layout).row_bytes) × Gathering (layout_in file.layout) (code_digit (layout_in file.layout) file.bytes.now v.now) start g.done g.block g.place g.low g.high × (start ≤ g.done) × (end ≡ min (start + 8) (layout_in file.layout).row_count) }
    ensures { Gathering (layout_in file.entry.layout) (code_digit (layout_in file.entry.layout) file.entry.bytes.now v.now) start result.done result.block result.place result.low result.high × (start ≤ result.done) × (end ≤ result.done) }
{
    let mut all = g;
    // Stays a while: a turn goes on by as many rows as are left in its block, another number each time.
    while all.done < end {
        all = more(file, v, start, all);
    }
    all
}

// The rows of a file times a vector, modulo 3, as a code.
pub fn code_of(layout: Layout, file: &[u8], v: &[u8], out: &mut [u8])
    requires { (length file.now ≡ file_size (layout_in layout)) × (length v.now ≡ (layout_in layout).row_bytes) × (2 * code_plane_of (layout_in layout) ≤ length out.old) }
    ensures { out.new ≡
        matrix_product (code_plane_of (layout_in layout)) (row_plane_of (layout_in layout)) (layout_in layout).row_count (rows_of (layout_in layout) file.now) v.now
        ++ drop (2 * code_plane_of (layout_in layout)) out.old }
{
    let whole = MatrixFile {
        layout,
        bytes: file,
    };
    let count = layout.row_count;
    let n = (count + 7) / 8;
    let mut g = Gathered {
        low: 0,
        high: 0,
        done: 0,
        block: 0,
        place: 0,
    };
    for p in 0..n {
        let all = gather(whole, v, 8 * p, (8 * p + 8).min(count), g);
        out[p] = (all.low % 256) as u8;
        out[n + p] = (all.high % 256) as u8;
        g = Gathered {
            low: all.low / 256,
            high: all.high / 256,
            ..all
        };
    }
}
