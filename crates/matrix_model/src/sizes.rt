// The sizes of a matrix file.
use numbers::sizes::{BLOCK_ROWS_1, DIGITS_1};

// A block, its head, and what its check is made of.
pub const BLOCK_BYTES: usize = 512;

pub const HEAD_BYTES: usize = 4;

pub const CHECKED_BYTES: usize = 510;

// Where the two sums of the check stand.
pub const FIRST_SUM: usize = CHECKED_BYTES;

pub const SECOND_SUM: usize = CHECKED_BYTES + 1;

// Byte 0 of every block.
pub const LETTER: u8 = 0x42;

// In set 1, document 01's: the blocks of a file, of which the last is not full.
pub const BLOCK_COUNT: usize = (DIGITS_1 + BLOCK_ROWS_1 - 1) / BLOCK_ROWS_1;

pub const FILE_BYTES: usize = BLOCK_COUNT * BLOCK_BYTES;

// A code: two planes, with a digit for each row.
pub const PLANE_BYTES: usize = (DIGITS_1 + 7) / 8;

pub const CODE_BYTES: usize = 2 * PLANE_BYTES;
