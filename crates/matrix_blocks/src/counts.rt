// Numbers that follow from a layout.
ghost use Rattle.std.specs.Prelude.{◌≡◌, ◌*◌, ◌<◌};
ghost use Rattle.matrix_model.specs.Block.{rows_in};
ghost use Rattle.matrix_model.specs.File.{block_count, file_size, rows_size};
ghost use Rattle.matrix_blocks.specs.Layouts.{layout_in};

use crate::layouts::Layout;
use matrix_model::sizes::BLOCK_BYTES;

impl Layout {
    // The blocks of a file.
    pub fn block_count(self) -> usize
        ensures { result ≡ block_count (layout_in self) }
    {
        (self.row_count + self.block_rows - 1) / self.block_rows
    }

    // Its bytes.
    pub fn file_size(self) -> usize
        ensures { result ≡ file_size (layout_in self) }
    {
        BLOCK_BYTES * self.block_count()
    }

    // The bytes of its rows.
    pub fn rows_size(self) -> usize
        ensures { result ≡ rows_size (layout_in self) }
    {
        self.row_bytes * self.row_count
    }

    // The rows in block `b`: as many as a block holds; in the last block, what remains.
    pub fn rows_in(self, b: usize) -> usize
        requires { b < block_count (layout_in self) }
        ensures { result ≡ rows_in (layout_in self) b }
    {
        self.block_rows.min(self.row_count - self.block_rows * b)
    }

    // The bytes of the rows in block `b`.
    pub fn bytes_in(self, b: usize) -> usize
        requires { b < block_count (layout_in self) }
        ensures { result ≡ (layout_in self).row_bytes * rows_in (layout_in self) b }
    {
        self.row_bytes * self.rows_in(b)
    }

    // The bytes of the rows in all blocks before block `b`.
    pub fn bytes_before(self, b: usize) -> usize
        requires { b < block_count (layout_in self) }
        ensures { result ≡ (layout_in self).row_bytes * (layout_in self).block_rows * b }
    {
        self.row_bytes * self.block_rows * b
    }
}
