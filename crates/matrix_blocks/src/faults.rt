// The faults of a file's blocks: each test goes over all blocks.
ghost use Rattle.std.specs.Prelude.{◌≡◌};
ghost use Rattle.matrix_model.specs.File.{bad_check_of, bad_layout_of};
ghost use Rattle.matrix_blocks.specs.Layouts.{layout_in};

use crate::blocks::laid_out;
use crate::files::MatrixFile;
use matrix_sums::sums::check_holds;

impl MatrixFile<'_> {
    // Whether a block's check differs.
    pub fn bad_check(self) -> bool
        ensures { result ≡ bad_check_of (layout_in self.entry.layout) self.entry.bytes.now }
    {
        !(0..self.layout.block_count()).all(|b| check_holds(self.block(b)))
    }

    // Whether a block differs from the layout.
    pub fn bad_layout(self) -> bool
        ensures { result ≡ bad_layout_of (layout_in self.entry.layout) self.entry.bytes.now }
    {
        !(0..self.layout.block_count()).all(|b| laid_out(self.layout, self.block(b), b))
    }
}
