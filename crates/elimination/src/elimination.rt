// Elimination: each row in turn, unless it has become zero, clears a column of the rows after it.
ghost use Rattle.std.specs.Prelude.{◌≡◌, ℕ, ◌+◌, ◌*◌, ◌%◌, ◌<◌, ◌≤◌, ◌≢◌, length, None, IfSome};
ghost use Rattle.std.specs.Option.{unwrap_or};
ghost use Rattle.linear_model.specs.Bits.{bit_at};
ghost use Rattle.linear_model.specs.Internal.Planes.{trit_of};
ghost use Rattle.elimination_model.specs.Internal.Words.{word_trit, FitRow, FitRows, RowWritten, RowsWritten, ClearedWord, Multiples, Entries, EntryWord, Table, Pivot, Turn, FirstTied};

use elimination_rows::rows::{add_row, put_row};
use linear_words::lanes::{Trits, add, multiply};
use linear_words::words::mask;

// A table of three rows of eleven words to a plane: eight, and three that carry the combination.
const TABLE_WORDS: usize = 66;

// A column: a word of each plane and a place in it.
#[derive(Clone, Copy)]
pub struct Column {
    pub word: usize,
    pub bit: u32,
    ghost in_word: { bit < 64 },
}

// A bit of `x` that is set.
fn set_bit(x: u64) -> u32
    requires { 0 < x }
    ensures { (result < 64) × (bit_at x result ≡ 1) }
{
    x.trailing_zeros()
}

// A column of the first `f` words in which the row from word `a` on is not 0, if there is one. It is the first, and nothing depends on that.
fn nonzero_column(words: &[u64], a: usize, w: usize, f: usize) -> Option<Column>
    requires { (a + 2 * w ≤ length words.now) × (f ≤ w) }
    ensures found { IfSome result (λ column. (column.word < f) × (word_trit w words.now a column.word column.bit ≢ 0)) }
    ensures zero_row { result ≡ None → (m : ℕ) → m < f → (k : ℕ) → word_trit w words.now a m k ≡ 0 }
{
    for word in 0..f {
        let some = words[a + word] | words[a + w + word];
        if some != 0 {
            return Some(Column {
                word,
                bit: set_bit(some),
            });
        }
    }
    None
}

// The digit of the row from word `a` on in a column.
pub fn digit_in(words: &[u64], a: usize, w: usize, column: Column) -> usize
    requires { (a + 2 * w ≤ length words.now) × (column.word < w) }
    ensures { result ≡ word_trit w words.now a column.word column.bit }
{
    let x = words[a + column.word];
    let u = words[a + w + column.word];
    ((x >> column.bit) % 2 + 2 * ((u >> column.bit) % 2)) as usize
}

// Fills the table: entry `d` is the row from word `a` on times 2 d p, so that a row with digit `d` where this one has `p` becomes 0 there
// when the entry is added. A row with its planes exchanged is its negative.
#[inline(always)]
fn fill_table(words: &[u64], a: usize, w: usize, p: usize, table: &mut [u64])
    requires { FitRow w words.now a × (0 < p) × (p < 3) × Table w table.old }
    ensures { Multiples w words.now a p table.new }
{
    put_row(words, a, a + w, table, 2 * w * (3 - p), w);
    put_row(words, a + w, a, table, 2 * w * p, w);
}

// The digit in place `bit` of `s`, times `e`.
fn digit_times(s: Trits, bit: u32, e: Trits) -> Trits
    requires { bit < 64 }
    ensures { (k : ℕ) → trit_of result.low result.high k ≡ trit_of s.low s.high bit * trit_of e.low e.high k % 3 }
{
    multiply(mask(s.low >> bit), mask(s.high >> bit), e.low, e.high)
}

// Adds to the row from word `b` on, of one word to a plane, the entry of its digit in place `bit`: entry 1 times the digit. Under masks
// that takes less time here than to find the entry, and for two words more.
fn add_entry_by_mask(words: &mut [u64], table: &[u64], b: usize, bit: u32)
    requires { FitRow 1 words.old b × Entries 1 table.now × (bit < 64) }
    ensures { RowWritten 1 b 1 (EntryWord 1 table.now words.old b 0 bit) words.old words.new }
{
    let s = Trits {
        low: words[b],
        high: words[b + 1],
    };
    let e = Trits {
        low: table[2],
        high: table[3],
    };
    let r = add(s, digit_times(s, bit, e));
    words[b] = r.low;
    words[b + 1] = r.high;
}

// Adds to the row from word `b` on the entry of its digit in a column.
fn add_entry(words: &mut [u64], table: &[u64], w: usize, b: usize, column: Column)
    requires { FitRow w words.old b × Entries w table.now × (column.word < w) }
    ensures { RowWritten w b w (EntryWord w table.now words.old b column.word column.bit) words.old words.new }
{
    if w == 1 {
        return add_entry_by_mask(words, table, b, column.bit);
    }
    let d = digit_in(words, b, w, column);
    add_row(table, 2 * w * d, words, b, w);
}

// Clears a column of the rows after row `r`: each gets the entry of its digit there.
// Stay parameters, here and below: the words and their sizes are the public functions' own, and a struct of them would be no plainer, since the
// rows that are added stand in two slices of the same size.
#[inline(always)]
fn clear_rows(words: &mut [u64], table: &[u64], w: usize, t: usize, r: usize, column: Column)
    requires { Turn w t r column.word column.bit words.old table.now }
    ensures { RowsWritten w (r + 1) t (ClearedWord w r column.word column.bit words.old) words.old words.new }
{
    for i in r + 1..t {
        add_entry(words, table, w, 2 * w * i, column);
    }
}

// The turn of row `r`, which is not 0 in a column: it clears this column of the rows after it.
#[inline(always)]
fn take_turn(words: &mut [u64], table: &mut [u64], w: usize, t: usize, r: usize, column: Column)
    requires { Pivot w t r column.word column.bit words.old × Table w table.old }
    ensures rows { RowsWritten w (r + 1) t (ClearedWord w r column.word column.bit words.old) words.old words.new }
    ensures table { Table w table.new }
{
    let a = 2 * w * r;
    let p = digit_in(words, a, w, column);
    fill_table(words, a, w, p, table);
    clear_rows(words, table, w, t, r, column);
}

// The first of `t` rows that is tied to the rows before it in the columns of the first `f` words, if there is one. What the rows carry behind
// these words is added with them. All is in line where the table is made, so that the compiler sees that `table` is apart from `words`: it
// copies two words at once, and the sums, which read two at once, need not wait for single ones.
#[inline(always)]
fn first_tied_of(words: &mut [u64], w: usize, f: usize, t: usize) -> Option<usize>
    requires { (w ≤ 11) × (f ≤ w) × FitRows w t words.old }
    ensures row { IfSome result (λ r. r < t) }
    ensures tied { FirstTied w f t words.old words.new (unwrap_or result t) }
{
    let mut table = [0; TABLE_WORDS];
    for r in 0..t {
        let Some(column) = nonzero_column(words, 2 * w * r, w, f) else {
            return Some(r);
        };
        take_turn(words, &mut table, w, t, r, column);
    }
    None
}

// The same, with the sizes in use written out, so that each gets code of its own.
// Stays a parameter, `w` can be no const parameter: rows of any other size have the same code, with the size known only then.
pub fn first_tied(words: &mut [u64], w: usize, f: usize, t: usize) -> Option<usize>
    requires { (w ≤ 11) × (f ≤ w) × FitRows w t words.old }
    ensures row { IfSome result (λ r. r < t) }
    ensures tied { FirstTied w f t words.old words.new (unwrap_or result t) }
{
    match w {
        1 => first_tied_of(words, 1, f, t),
        2 => first_tied_of(words, 2, f, t),
        4 => first_tied_of(words, 4, f, t),
        6 => first_tied_of(words, 6, f, t),
        8 => first_tied_of(words, 8, f, t),
        11 => first_tied_of(words, 11, f, t),
        _ => first_tied_of(words, w, f, t),
    }
}
