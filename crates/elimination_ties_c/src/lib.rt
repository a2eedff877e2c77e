// The static library of `elimination_ties`: for C, the tie of rows of any size under the same name and the same contract.
#![tactic(auto)]

ghost use Rattle.std.specs.Prelude.{◌≡◌, ◌*◌, length};
ghost use Rattle.numbers.specs.Number.{at_front};
ghost use Rattle.elimination_model.specs.Independence.{trit_at};
ghost use Rattle.elimination_model.specs.Tie.{entry_count, tie_bytes};
ghost use Rattle.elimination_model.specs.AnySize.{Room};

use elimination_ties::any_size;

// Writes the tie of `t` rows of `bytes` bytes to a plane, and says how many entries it has.
#[unsafe(no_mangle)]
pub extern "C" fn tie_of_rows(
    rows: &[u8],
    bytes: usize,
    t: usize,
    words: &mut [u64],
    out: &mut [u8],
) -> usize
    ensures tie { Room bytes t (length rows.now) (length words.old) (length out.old)
        → (result ≡ entry_count (tie_bytes (8 * bytes) t (trit_at bytes rows.now)))
        × (out.new ≡ at_front (tie_bytes (8 * bytes) t (trit_at bytes rows.now)) out.old) }
    ensures no_room { (Room bytes t (length rows.now) (length words.old) (length out.old) → ⊥)
        → (result ≡ 0) × (words.new ≡ words.old) × (out.new ≡ out.old) }
{
    any_size::tie_of_rows(rows, bytes, t, words, out)
}
