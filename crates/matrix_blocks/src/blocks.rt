// One block of a matrix file.
ghost use Rattle.std.specs.Prelude.{◌≡◌, ◌<◌, length};
ghost use Rattle.linear_model.specs.Tables.{every};
ghost use Rattle.matrix_model.specs.Block.{block_bytes, head_bytes, head_byte, zero_byte, laid_out, block_of};
ghost use Rattle.matrix_model.specs.File.{block_count, block};
ghost use Rattle.matrix_model.specs.Internal.Rows.{rows_in_file, rows_for_block};
ghost use Rattle.matrix_blocks.specs.Layouts.{layout_in};
ghost use Rattle.matrix_blocks.specs.Standing.{layout_held, rows_held};

use crate::files::{MatrixFile, MatrixRows, Standing};
use crate::layouts::Layout;
use linear_words::copies::put;
use matrix_model::sizes::{BLOCK_BYTES, CHECKED_BYTES, HEAD_BYTES};
use matrix_sums::sums::{Check, sums};

impl<'a> MatrixFile<'a> {
    // Block `b`.
    pub fn block(self, b: usize) -> &'a [u8]
        requires { b < block_count (layout_in self.layout) }
        ensures block { result.now ≡ block self.entry.bytes.now b }
        ensures long { length result.now ≡ block_bytes }
    {
        let at = BLOCK_BYTES * b;
        &self.bytes[at..at + BLOCK_BYTES]
    }

    // The rows in block `b`.
    pub fn rows_of_block(self, b: usize) -> &'a [u8]
        requires { b < block_count (layout_in self.layout) }
        ensures { result.now ≡ rows_in_file (layout_in self.entry.layout) self.entry.bytes.now b }
    {
        let at = BLOCK_BYTES * b + HEAD_BYTES;
        let end = at + self.layout.bytes_in(b);
        &self.bytes[at..end]
    }
}

impl<'a> MatrixRows<'a> {
    // The rows for block `b`.
    pub fn rows_for_block(self, b: usize) -> &'a [u8]
        requires { b < block_count (layout_in self.layout) }
        ensures { result.now ≡ rows_for_block (layout_in self.entry.layout) self.entry.bytes.now b }
    {
        let at = self.layout.bytes_before(b);
        let end = at + self.layout.bytes_in(b);
        &self.bytes[at..end]
    }

    // Block `b` of their file.
    pub fn block_of(self, b: usize) -> [u8; BLOCK_BYTES]
        requires { b < block_count (layout_in self.layout) }
        ensures { result ≡ block_of (layout_in self.entry.layout) self.entry.bytes.now b }
    {
        let layout = self.layout;
        let mut block = [0u8; BLOCK_BYTES];
        let n = layout.rows_in(b);
        put(
            &[layout.letter, b as u8, n as u8, layout.set],
            &mut block,
            0,
        );
        put(self.rows_for_block(b), &mut block, HEAD_BYTES);
        let Check { first, second } = sums(&block);
        put(&[first, second], &mut block, CHECKED_BYTES);
        block
    }
}

impl<'a> Standing<'a> {
    pub fn layout(self) -> Layout
        ensures { layout_in result ≡ layout_held self.entry }
    {
        match self {
            Standing::InFile(file) => file.layout,
            Standing::Alone(rows) => rows.layout,
        }
    }

    // The rows of block `b`.
    pub fn rows_at(self, b: usize) -> &'a [u8]
        requires { b < block_count (layout_held self) }
        ensures { result.now ≡ rows_for_block (layout_held self.entry) (rows_held self.entry) b }
    {
        match self {
            Standing::InFile(file) => file.rows_of_block(b),
            Standing::Alone(rows) => rows.rows_for_block(b),
        }
    }
}

// Whether bytes 0 to 3 are those of block `b`.
fn head_holds(layout: Layout, block: &[u8], b: usize) -> bool
    requires { (length block.now ≡ block_bytes) × (b < block_count (layout_in layout)) }
    ensures { result ≡ every head_bytes (head_byte (layout_in layout) b block.now) }
{
    let n = layout.rows_in(b);
    (block[0] == layout.letter)
        & (block[1] == b as u8)
        & (block[2] == n as u8)
        & (block[3] == layout.set)
}

// Whether all bytes of `s` are zero.
fn all_zero(s: &[u8]) -> bool
    ensures { result ≡ every (length s.now) (zero_byte s.now) }
{
    let mut any: u8 = 0;
    for x in s {
        any |= *x;
    }
    any == 0
}

// Whether block `b` is laid out as stated.
pub fn laid_out(layout: Layout, block: &[u8], b: usize) -> bool
    requires { (length block.now ≡ block_bytes) × (b < block_count (layout_in layout)) }
    ensures { result ≡ laid_out (layout_in layout) b block.now }
{
    let end = HEAD_BYTES + layout.bytes_in(b);
    head_holds(layout, block, b) & all_zero(&block[end..CHECKED_BYTES])
}
