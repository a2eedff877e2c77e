// Whether the rows of a matrix are tied, and their number. The elimination works on a copy of them in words.
ghost use Rattle.std.specs.Prelude.{◌≡◌, ◌≤◌, not, length};
ghost use Rattle.numbers.specs.Number.{first};
ghost use Rattle.numbers.specs.Refusals.{answer_number};
ghost use Rattle.elimination_model.specs.Independence.{trit_at};
ghost use Rattle.elimination_model.specs.Internal.Words.{RowsWritten, LoadedWord};
ghost use Rattle.matrix_model.specs.File.{row_plane_of, tied_rows_of, row_faults_of};
ghost use Rattle.matrix_model.specs.Internal.Rows.{Eliminable, LoadingRoom, tied_in_columns};
ghost use Rattle.matrix_blocks.specs.Standing.{layout_held, rows_held};

use elimination::elimination::first_tied;
use elimination_rows::loading::load_rows_by_size;
use matrix_blocks::files::Standing;
use matrix_rows::rows::check_each_row;
use numbers::refusal::Refusal;
use numbers::sizes::{BITS_1, BITS_2, BITS_3, DIGITS_1, DIGITS_2, DIGITS_3};

// The words of both planes of all rows of each set.
const WORDS_1: usize = BITS_1 / 32 * DIGITS_1;

const WORDS_2: usize = BITS_2 / 32 * DIGITS_2;

const WORDS_3: usize = BITS_3 / 32 * DIGITS_3;

// Loads the first `f` words of each plane of all rows, block by block, to rows of `w` words to a plane.
pub fn load(rows: Standing, w: usize, f: usize, words: &mut [u64])
    requires { LoadingRoom (layout_held rows) w f (length words.old) }
    ensures { RowsWritten w 0 (layout_held rows.entry).row_count (LoadedWord f (trit_at (row_plane_of (layout_held rows.entry)) (rows_held rows.entry)))
        words.old words.new }
{
    let layout = rows.layout();
    let bytes = layout.row_bytes / 2;
    for b in 0..layout.block_count() {
        let part = rows.rows_at(b);
        let n = layout.rows_in(b);
        load_rows_by_size(part, bytes, n, words, w, f, layout.block_rows * b);
    }
}

// Whether the rows are tied in the columns of their first `v` words. What is left in the words is not said.
fn tied_in(rows: Standing, v: usize, words: &mut [u64]) -> bool
    requires { LoadingRoom (layout_held rows) v v (length words.old) }
    ensures { result ≡ tied_in_columns (layout_held rows.entry) v (rows_held rows.entry) }
{
    let row_count = rows.layout().row_count;
    load(rows, v, v, words);
    first_tied(words, v, v, row_count).is_some()
}

// The same, in `WORDS` words of its own. Each number of words is a function of its own, and there is none with three arrays: arrays of different
// functions get one place in a caller's frame, those of one function a place each.
fn tied_in_words<const WORDS: usize>(rows: Standing, v: usize) -> bool
    requires { LoadingRoom (layout_held rows) v v WORDS × (WORDS ≤ 2592) }
    ensures { result ≡ tied_in_columns (layout_held rows.entry) v (rows_held rows.entry) }
{
    let mut words = [0u64; WORDS];
    tied_in(rows, v, &mut words)
}

// The same, in the fewest words that are enough: as many as the rows of a set have.
fn tied_in_columns(rows: Standing, v: usize) -> bool
    requires { LoadingRoom (layout_held rows) v v 2592 }
    ensures { result ≡ tied_in_columns (layout_held rows.entry) v (rows_held rows.entry) }
{
    let n = 2 * v * rows.layout().row_count;
    if n <= WORDS_2 {
        tied_in_words::<WORDS_2>(rows, v)
    } else if n <= WORDS_1 {
        tied_in_words::<WORDS_1>(rows, v)
    } else {
        tied_in_words::<WORDS_3>(rows, v)
    }
}

// Whether the rows are not tied. First only as many words are looked at as have more columns than there are rows, which is less work: rows
// that are not tied there are not tied at all. Words are taken two by two, since two are added in the time of one.
fn independent(rows: Standing) -> bool
    requires { Eliminable (layout_held rows) }
    ensures { result ≡ not (tied_rows_of (layout_held rows.entry) (rows_held rows.entry)) }
{
    let layout = rows.layout();
    let w = layout.row_bytes / 16;
    let v = w.min(2 * (layout.row_count / 128 + 1));
    if !tied_in_columns(rows, v) {
        return true;
    }
    v < w && !tied_in_columns(rows, w)
}

// All rows: the tests of each row, and then whether they are tied.
pub fn check_all_rows(rows: Standing) -> Result<(), Refusal>
    requires { Eliminable (layout_held rows) }
    ensures { answer_number result ≡ first (row_faults_of (layout_held rows.entry) (rows_held rows.entry)) }
{
    let zero = check_each_row(rows)?;
    if zero || !independent(rows) {
        return Err(Refusal::TiedRows);
    }
    Ok(())
}
