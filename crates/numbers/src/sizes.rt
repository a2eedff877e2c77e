// The sizes of each set: the bits of a key, a label and an inner vector, the digits of a code, and the rows of a full block of the matrix file.
pub const BITS_1: usize = 256;

pub const DIGITS_1: usize = 81;

pub const BLOCK_ROWS_1: usize = 7;

pub const BITS_2: usize = 64;

pub const DIGITS_2: usize = 21;

pub const BLOCK_ROWS_2: usize = 28;

pub const BITS_3: usize = 512;

pub const DIGITS_3: usize = 162;

pub const BLOCK_ROWS_3: usize = 3;
