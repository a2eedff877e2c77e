// Rows of bytes loaded into words. A row has `f` words to a plane, and behind them there is room for words that carry the combination of
// rows that it becomes: when it is loaded it is itself alone, a row of the diagonal.
ghost use Rattle.std.specs.Prelude.{ℕ, ◌+◌, ◌*◌, ◌^◌, ◌<◌, ◌≤◌, ◌≡◌, length};
ghost use Rattle.linear_model.specs.Tables.{one_at};
ghost use Rattle.linear_model.specs.Bits.{bit_at};
ghost use Rattle.elimination_model.specs.Independence.{trit_at};
ghost use Rattle.elimination_model.specs.Internal.Words.{RowWritten, RowsWritten, LoadedWord, rows_after};

use linear_words::lanes::{Trits, fit};
use linear_words::words::word;

// Word `m` of row `r` of the diagonal.
fn diagonal_word(r: usize, m: usize) -> u64
    ensures { (k : ℕ) → k < 64 → bit_at result k ≡ one_at r (64 * m + k) }
{
    if r / 64 != m {
        return 0;
    }
    1 << (r % 64)
}

// Word `m` of each plane of row `r`: of its first `f` words, which are those of row `i` of the bytes, or of what it carries behind them.
fn row_word(rows: &[u8], bytes: usize, i: usize, f: usize, r: usize, m: usize) -> Trits
    requires { (8 * f ≤ bytes) × (2 * bytes * i + 2 * bytes ≤ length rows.now) }
    ensures { LoadedWord f (λ _. trit_at bytes rows.now i) r m result.low result.high }
{
    if f <= m {
        return Trits {
            low: diagonal_word(r, m - f),
            high: 0,
        };
    }
    let at = 2 * bytes * i;
    fit(word(rows, at + 8 * m), word(rows, at + bytes + 8 * m))
}

// Loads row `i` to row `r`, of `w` words to a plane.
fn load_row(rows: &[u8], bytes: usize, i: usize, words: &mut [u64], w: usize, f: usize, r: usize)
    requires { (8 * f ≤ bytes) × (2 * bytes * i + 2 * bytes ≤ length rows.now) × (2 * w * r + 2 * w ≤ length words.old) }
    ensures { RowWritten w (2 * w * r) w (LoadedWord f (λ _. trit_at bytes rows.now i) r) words.old words.new }
{
    let b = 2 * w * r;
    for m in 0..w {
        let s = row_word(rows, bytes, i, f, r, m);
        words[b + m] = s.low;
        words[b + w + m] = s.high;
    }
}

// Loads `n` rows, one after the other, to row `first` and the rows after it.
fn load_rows(
    rows: &[u8],
    bytes: usize,
    n: usize,
    words: &mut [u64],
    w: usize,
    f: usize,
    first: usize,
)
    requires { (8 * f ≤ bytes) × (2 * bytes * n ≤ length rows.now) × (2 * w * (first + n) ≤ length words.old) × (first + n < 2 ^ 64) }
    ensures { RowsWritten w first (first + n) (LoadedWord f (rows_after first bytes rows.now)) words.old words.new }
{
    for i in 0..n {
        load_row(rows, bytes, i, words, w, f, first + i);
    }
}

// The same. Written out are the sizes of rows that carry nothing and are looked at first, and of the shortest that carry something.
// Stay parameters, `w` and `f` can be no const parameters: rows of any other size have the same code, with the sizes known only then.
pub fn load_rows_by_size(
    rows: &[u8],
    bytes: usize,
    n: usize,
    words: &mut [u64],
    w: usize,
    f: usize,
    first: usize,
)
    requires { (8 * f ≤ bytes) × (2 * bytes * n ≤ length rows.now) × (2 * w * (first + n) ≤ length words.old) × (first + n < 2 ^ 64) }
    ensures { RowsWritten w first (first + n) (LoadedWord f (rows_after first bytes rows.now)) words.old words.new }
{
    match (w, f) {
        (1, 1) => load_rows(rows, bytes, n, words, 1, 1, first),
        (2, 2) => load_rows(rows, bytes, n, words, 2, 2, first),
        (4, 4) => load_rows(rows, bytes, n, words, 4, 4, first),
        (2, 1) => load_rows(rows, bytes, n, words, 2, 1, first),
        _ => load_rows(rows, bytes, n, words, w, f, first),
    }
}
