// The tie of the shortest tied beginning of some rows: the combination that the first tied row carries once it has become zero.
ghost use Rattle.std.specs.Prelude.{◌≡◌, ◌≢◌, suc, ◌+◌, ◌*◌, ◌%◌, ◌<◌, ◌≤◌, length};
ghost use Rattle.linear_model.specs.Tables.{tabulate};
ghost use Rattle.numbers.specs.Number.{at_front};
ghost use Rattle.elimination_model.specs.Tie.{leading_digit, entries_from, entry_count, tie_bytes};
ghost use Rattle.elimination_model.specs.Internal.Words.{digit_at, carried_at, Carrying, CarryingRow};

use elimination::elimination::{Column, digit_in, first_tied};

// Digit `k` of the combination that row `r` carries behind its first `f` words.
fn carried_digit(words: &[u64], w: usize, f: usize, r: usize, k: usize) -> usize
    requires { CarryingRow w f r words.now × (k < suc r) }
    ensures { (result ≡ carried_at w f words.now r k) × (result < 3) }
{
    digit_in(
        words,
        2 * w * r,
        w,
        Column {
            word: f + k / 64,
            bit: (k % 64) as u32,
        },
    )
}

// The first digit other than 0 of that combination, in which that of row `r` itself is not 0.
fn leading_digit(words: &[u64], w: usize, f: usize, r: usize) -> usize
    requires { CarryingRow w f r words.now × (carried_at w f words.now r r % 3 ≢ 0) }
    ensures { result ≡ leading_digit (suc r) (carried_at w f words.now r) }
{
    for k in 0..r {
        let d = carried_digit(words, w, f, r, k);
        if d != 0 {
            return d;
        }
    }
    carried_digit(words, w, f, r, r)
}

// Writes the entries of that combination, multiplied by `lead`, and says how many there are.
fn put_entries(words: &[u64], w: usize, f: usize, r: usize, lead: usize, out: &mut [u8]) -> usize
    requires { CarryingRow w f r words.now × (lead < 3) × (r < 256) × (2 * r + 2 ≤ length out.old) }
    ensures count { result ≡ entry_count (entries_from 0 (tabulate (suc r) (λ k. lead * carried_at w f words.now r k % 3))) }
    ensures output { out.new ≡ at_front (entries_from 0 (tabulate (suc r) (λ k. lead * carried_at w f words.now r k % 3))) out.old }
{
    let mut n = 0;
    for k in 0..r + 1 {
        let x = lead * carried_digit(words, w, f, r, k) % 3;
        if x != 0 {
            out[2 * n] = k as u8;
            out[2 * n + 1] = x as u8;
            n += 1;
        }
    }
    n
}

// Writes the tie of `t` rows, in the columns of their first `f` words, and says how many entries it has; none where they are not tied.
// Stays a count with 0 for none: C gets it so of `tie_of_rows`.
pub fn put_tie(words: &mut [u64], w: usize, f: usize, t: usize, out: &mut [u8]) -> usize
    requires { Carrying w f t words.old × (w ≤ 11) × (t ≤ 256) × (2 * t ≤ length out.old) }
    ensures count { result ≡ entry_count (tie_bytes (64 * f) t (digit_at w words.old)) }
    ensures output { out.new ≡ at_front (tie_bytes (64 * f) t (digit_at w words.old)) out.old }
{
    let Some(r) = first_tied(words, w, f, t) else {
        return 0;
    };
    let lead = leading_digit(words, w, f, r);
    put_entries(words, w, f, r, lead, out)
}
