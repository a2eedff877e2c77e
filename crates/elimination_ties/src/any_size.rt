// The tie of rows of any size, one after the other, in lent words.
ghost use Rattle.std.specs.Prelude.{◌≡◌, ◌*◌, length, None, IfSome};
ghost use Rattle.numbers.specs.Number.{at_front};
ghost use Rattle.elimination_model.specs.Independence.{trit_at};
ghost use Rattle.elimination_model.specs.Tie.{entry_count, tie_bytes};
ghost use Rattle.elimination_model.specs.AnySize.{Room, carrying_words};

use crate::ties::put_tie;
use elimination_rows::loading::load_rows_by_size;

// How many words to a plane `t` rows of `bytes` bytes to a plane have with what they carry, if there is room for them in slices of these
// lengths. `first_tied` takes eleven words to a plane; 88 bytes are as many, and with no more bytes or rows than here no product is too large.
fn words_with_room(bytes: usize, t: usize, rows: usize, words: usize, n: usize) -> Option<usize>
    ensures room { IfSome result (λ w. Room bytes t rows words n × (w ≡ carrying_words bytes t)) }
    ensures no_room { result ≡ None → Room bytes t rows words n → ⊥ }
{
    if bytes % 8 != 0 || 88 < bytes || 256 < t {
        return None;
    }
    let w = bytes / 8 + t.div_ceil(64);
    if 11 < w || rows < 2 * bytes * t || words < 2 * w * t || n < 2 * t {
        return None;
    }
    Some(w)
}

// Writes the tie of `t` rows of `bytes` bytes to a plane, and says how many entries it has: none where the rows are not tied, or where there
// is no room, and then nothing is written. Where there is room, what is left in the words is not said.
pub fn tie_of_rows(rows: &[u8], bytes: usize, t: usize, words: &mut [u64], out: &mut [u8]) -> usize
    ensures tie { Room bytes t (length rows.now) (length words.old) (length out.old)
        → (result ≡ entry_count (tie_bytes (8 * bytes) t (trit_at bytes rows.now)))
        × (out.new ≡ at_front (tie_bytes (8 * bytes) t (trit_at bytes rows.now)) out.old) }
    ensures no_room { (Room bytes t (length rows.now) (length words.old) (length out.old) → ⊥)
        → (result ≡ 0) × (words.new ≡ words.old) × (out.new ≡ out.old) }
{
    let Some(w) = words_with_room(bytes, t, rows.len(), words.len(), out.len()) else {
        return 0;
    };
    let f = bytes / 8;
    load_rows_by_size(rows, bytes, t, words, w, f, 0);
    put_tie(words, w, f, t, out)
}
