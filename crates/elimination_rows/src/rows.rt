// Rows in words: a row of `w` words to a plane is `2w` words, its low words before its high words.
ghost use Rattle.std.specs.Prelude.{◌+◌, ◌*◌, ◌≤◌, length};
ghost use Rattle.linear_model.specs.Internal.Rotations.{Overwritten};
ghost use Rattle.elimination_model.specs.Internal.Words.{FitRow, RowWritten, SumWord, word_after, CopiedWord};

use linear_words::lanes::{Trits, add};

// Adds to the row from word `b` on the row of `table` from word `a` on.
pub fn add_row(table: &[u64], a: usize, words: &mut [u64], b: usize, w: usize)
    requires { FitRow w table.now a × FitRow w words.old b }
    ensures { RowWritten w b w (SumWord w table.now a words.old b) words.old words.new }
{
    for m in 0..w {
        let s = add(
            Trits {
                low: words[b + m],
                high: words[b + w + m],
            },
            Trits {
                low: table[a + m],
                high: table[a + w + m],
            },
        );
        words[b + m] = s.low;
        words[b + w + m] = s.high;
    }
}

// Copies `n` words, from word `a` on, to `table` from word `e` on: one plane at a time, so that the compiler can make it a copy where it sees
// both slices apart.
fn copy_words(words: &[u64], a: usize, table: &mut [u64], e: usize, n: usize)
    requires { (a + n ≤ length words.now) × (e + n ≤ length table.old) }
    ensures { Overwritten (word_after words.now a) e n table.old table.new }
{
    for m in 0..n {
        table[e + m] = words[a + m];
    }
}

// Writes the row of `table` from word `e` on: low words are those of `words` from word `low` on, high words those from word `high` on.
pub fn put_row(words: &[u64], low: usize, high: usize, table: &mut [u64], e: usize, w: usize)
    requires { (low + w ≤ length words.now) × (high + w ≤ length words.now) × (e + 2 * w ≤ length table.old) }
    ensures { RowWritten w e w (CopiedWord words.now low high) table.old table.new }
{
    copy_words(words, low, table, e, w);
    copy_words(words, high, table, e + w, w);
}
