// The layout of each set's matrix file.
ghost use Rattle.std.specs.Prelude.{◌≡◌, true, false, MatchResult};
ghost use Rattle.numbers.specs.Sets.{is_set, counted};
ghost use Rattle.numbers.specs.declared.refusal.Refusal.TheVariants.{NoSet};
ghost use Rattle.matrix_model.specs.File.{layout_of};
ghost use Rattle.matrix_blocks.specs.Layouts.{layout_in};

use matrix_blocks::layouts::Layout;
use matrix_model::sizes::LETTER;
use numbers::refusal::Refusal;
use numbers::sizes::{
    BITS_1, BITS_2, BITS_3, BLOCK_ROWS_1, BLOCK_ROWS_2, BLOCK_ROWS_3, DIGITS_1, DIGITS_2, DIGITS_3,
};

const SET_1: Layout = Layout {
    letter: LETTER,
    set: 1,
    row_bytes: BITS_1 / 4,
    block_rows: BLOCK_ROWS_1,
    row_count: DIGITS_1,
};

const SET_2: Layout = Layout {
    letter: LETTER,
    set: 2,
    row_bytes: BITS_2 / 4,
    block_rows: BLOCK_ROWS_2,
    row_count: DIGITS_2,
};

const SET_3: Layout = Layout {
    letter: LETTER,
    set: 3,
    row_bytes: BITS_3 / 4,
    block_rows: BLOCK_ROWS_3,
    row_count: DIGITS_3,
};

// The layout of a set's file; a number that is none counts as set 1.
pub fn layout_of(set: u32) -> Layout
    ensures { layout_in result ≡ layout_of (counted set) }
{
    match set {
        2 => SET_2,
        3 => SET_3,
        _ => SET_1,
    }
}

// The same, but a number that is none is refused.
pub fn named_layout(set: u32) -> Result<Layout, Refusal>
    ensures { MatchResult result (λ layout. (is_set set ≡ true) × (layout_in layout ≡ layout_of set))
        (λ refusal. (refusal ≡ NoSet) × (is_set set ≡ false)) }
{
    match set {
        1..=3 => Ok(layout_of(set)),
        _ => Err(Refusal::NoSet),
    }
}
