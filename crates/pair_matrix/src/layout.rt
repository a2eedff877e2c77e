// The layout of the matrix file.
ghost use Rattle.std.specs.Prelude.{◌≡◌};
ghost use Rattle.matrix_blocks.specs.Layouts.{layout_in};
ghost use Rattle.pair_frames.specs.Schemes.{file_layout};

use matrix_blocks::layouts::Layout;
use matrix_model::sizes::LETTER;
use pair_frames::sizes::Sizes;

// A row is as long as an inner trit vector, and each digit has one.
pub fn file_layout(sizes: Sizes) -> Layout
    ensures { layout_in result ≡ file_layout sizes }
{
    Layout {
        letter: LETTER,
        set: sizes.set,
        row_bytes: 2 * sizes.inner_bytes,
        block_rows: sizes.block_rows,
        row_count: sizes.digits,
    }
}
