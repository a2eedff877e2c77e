// The list of the rows of a matrix file that are tied, from a copy of them in words in which each row carries its combination.
ghost use Rattle.std.specs.Prelude.{◌≡◌, ◌≤◌, length};
ghost use Rattle.matrix_model.specs.Internal.Rows.{carrying_words, CarryingRoom, ListingRoom, Listed};
ghost use Rattle.matrix_blocks.specs.Layouts.{layout_in};

use crate::ties::load;
use elimination_ties::ties::put_tie;
use matrix_blocks::files::{MatrixFile, Standing};
use matrix_blocks::layouts::Layout;
use numbers::sizes::{BITS_1, BITS_2, BITS_3, DIGITS_1, DIGITS_2, DIGITS_3};

// The words of both planes of all rows of each set, with those of the combinations that they carry.
const WORDS_1: usize = 2 * (BITS_1 / 64 + (DIGITS_1 + 63) / 64) * DIGITS_1;

const WORDS_2: usize = 2 * (BITS_2 / 64 + (DIGITS_2 + 63) / 64) * DIGITS_2;

const WORDS_3: usize = 2 * (BITS_3 / 64 + (DIGITS_3 + 63) / 64) * DIGITS_3;

// The words to a plane of a row that carries its combination, a digit for each row.
fn carrying_words(layout: Layout) -> usize
    requires { CarryingRoom (layout_in layout) }
    ensures { result ≡ carrying_words (layout_in layout) }
{
    layout.row_bytes / 16 + (layout.row_count + 63) / 64
}

// Writes the list of the rows that are tied and says how many they are; none where the rows are not tied. What is left in the words is not
// said.
fn list_in(file: MatrixFile, words: &mut [u64], out: &mut [u8]) -> usize
    requires { ListingRoom (layout_in file.layout) (length words.old) (length out.old) }
    ensures { Listed (layout_in file.entry.layout) file.entry.bytes.now out.old out.new result }
{
    let f = file.layout.row_bytes / 16;
    let w = carrying_words(file.layout);
    load(Standing::InFile(file), w, f, words);
    put_tie(words, w, f, file.layout.row_count, out)
}

// The same, in `WORDS` words of its own: a function for each number of words, as in `ties`.
fn list_in_words<const WORDS: usize>(file: MatrixFile, out: &mut [u8]) -> usize
    requires { ListingRoom (layout_in file.layout) WORDS (length out.old) × (WORDS ≤ 3564) }
    ensures { Listed (layout_in file.entry.layout) file.entry.bytes.now out.old out.new result }
{
    let mut words = [0u64; WORDS];
    list_in(file, &mut words, out)
}

// The same, in the fewest words that are enough: as many as the rows of a set have.
// Stays a count with 0 for none: it is the number of a list's entries, which may be none, as C gets it.
pub fn list_tied(file: MatrixFile, out: &mut [u8]) -> usize
    requires { ListingRoom (layout_in file.layout) 3564 (length out.old) }
    ensures { Listed (layout_in file.entry.layout) file.entry.bytes.now out.old out.new result }
{
    let n = 2 * carrying_words(file.layout) * file.layout.row_count;
    if n <= WORDS_2 {
        list_in_words::<WORDS_2>(file, out)
    } else if n <= WORDS_1 {
        list_in_words::<WORDS_1>(file, out)
    } else {
        list_in_words::<WORDS_3>(file, out)
    }
}
