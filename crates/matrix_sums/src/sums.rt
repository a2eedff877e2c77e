// The check of a block: two sums modulo 255, by words.
ghost use Rattle.std.specs.Prelude.{◌≡◌, [], ◌∷◌, ◌+◌, ◌^◌, ◌<◌, length, get_or};
ghost use Rattle.matrix_model.specs.Block.{block_bytes, checked_bytes, check, check_holds};
ghost use Rattle.matrix_model.specs.Internal.Lanes.{group_bytes, Weighted};
ghost use Rattle.matrix_sums.specs.Internal.Lanes.{AddedTo, LanesOf, TotalsOf};

use crate::groups::{Columns, Lanes, Sides, Totals};
use linear_words::words::{folded, word_at};
use matrix_model::sizes::{BLOCK_BYTES, FIRST_SUM, SECOND_SUM};

// The check of a block: two sums modulo 255.
#[derive(Clone, Copy, PartialEq, Eq)]
pub struct Check {
    pub first: u8,
    pub second: u8,
}

// A block is summed in two groups.
const GROUP_BYTES: usize = 256;

// Every second byte of a word.
const EVEN_BYTES: u64 = 0x00ff_00ff_00ff_00ff;

// The lanes of `x`, counted 8, 6, 4 and 2 times.
fn weighted(x: u64) -> u64
    ensures { Weighted x result }
{
    8 * (x % 0x1_0000) + 6 * ((x >> 16) % 0x1_0000) + 4 * ((x >> 32) % 0x1_0000) + 2 * (x >> 48)
}

// The lanes with a word more.
fn add_word(c: Lanes, x: u64) -> Lanes
    requires { (c.pairs < 2 ^ 63) × (c.odd < 2 ^ 63) × (c.ahead + c.pairs < 2 ^ 64) }
    ensures { AddedTo c x result }
{
    let y = (x >> 8) & EVEN_BYTES;
    Lanes {
        pairs: c.pairs + ((x & EVEN_BYTES) + y),
        odd: c.odd + y,
        ahead: c.ahead + c.pairs,
    }
}

// A group of 256 bytes in lanes, sixteen rows of two words. No lane is ever full: `pairs` is at most 16 * 510, and `ahead` at
// most 120 * 510 = 61,200. Two rows a turn are enough work for the compiler to make vector registers of left and right.
fn in_columns(part: &[u8]) -> Columns
    requires { length part.now ≡ group_bytes }
    ensures { LanesOf part.now result }
{
    let mut left = Lanes::default();
    let mut right = Lanes::default();
    for k in 0..GROUP_BYTES / 32 {
        let i = 32 * k;
        left = add_word(left, word_at(part, i));
        right = add_word(right, word_at(part, i + 8));
        let next = i + 16;
        left = add_word(left, word_at(part, next));
        right = add_word(right, word_at(part, next + 8));
    }
    Columns {
        pairs: Sides {
            left: left.pairs,
            right: right.pairs,
        },
        odd: Sides {
            left: left.odd,
            right: right.odd,
        },
        ahead: Sides {
            left: left.ahead,
            right: right.ahead,
        },
    }
}

// The same, with the length written out so that no load tests it.
fn group(part: &[u8]) -> Columns
    requires { length part.now ≡ group_bytes }
    ensures { LanesOf part.now result }
{
    in_columns(&part[..GROUP_BYTES])
}

// The sums of a group. The second has a byte once for each place from it on: 16, 15, 14, .. 1 times in its own row, and
// sixteen times in each row after that, by `ahead`. The second of a pair counts once less than the first, and 254 is -1.
fn group_sums(c: Columns) -> Totals
    ensures { TotalsOf c result }
{
    let first = folded(c.pairs.left);
    let ahead = folded(c.ahead.left) + folded(c.ahead.right);
    let odd = folded(c.odd.left) + folded(c.odd.right);
    Totals {
        first: first + folded(c.pairs.right),
        second: 16 * ahead
            + weighted(c.pairs.left)
            + 8 * first
            + weighted(c.pairs.right)
            + 254 * odd,
    }
}

// The check that stands in a block, right or not.
fn stored(block: &[u8]) -> Check
    requires { length block.now ≡ block_bytes }
    ensures { (result.first ≡ get_or block.now checked_bytes 0) × (result.second ≡ get_or block.now (checked_bytes + 1) 0) }
{
    Check {
        first: block[FIRST_SUM],
        second: block[SECOND_SUM],
    }
}

// The sums of bytes 0 to 509: those of both groups, with bytes 510 and 511 taken off again. They stay below 2^64, so one
// remainder at the end is enough.
pub fn sums(block: &[u8]) -> Check
    requires { length block.now ≡ block_bytes }
    ensures { result.first ∷ result.second ∷ [] ≡ check block.now }
{
    let a = group_sums(group(&block[0..GROUP_BYTES]));
    let b = group_sums(group(&block[GROUP_BYTES..BLOCK_BYTES]));
    let end = stored(block);
    let p = u64::from(end.first);
    let q = u64::from(end.second);
    let first = a.first + b.first + 254 * (p + q);
    let second = a.second + 256 * a.first + b.second + 253 * first + 253 * p + 254 * q;
    Check {
        first: (first % 255) as u8,
        second: (second % 255) as u8,
    }
}

// Whether bytes 510 and 511 are the check.
pub fn check_holds(block: &[u8]) -> bool
    requires { length block.now ≡ block_bytes }
    ensures { result ≡ check_holds block.now }
{
    stored(block) == sums(block)
}
