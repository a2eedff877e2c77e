// All lengths and places, in this one place: those of the three sets, what every set has alike, and what follows from set 1's, which is
// document 01's. The matrix file's are those of its layer.
ghost use Rattle.pair_frames.specs.Numbers.{Fits};

pub use matrix_model::sizes::{CODE_BYTES, FILE_BYTES};
use numbers::sizes::{
    BITS_1, BITS_2, BITS_3, BLOCK_ROWS_1, BLOCK_ROWS_2, BLOCK_ROWS_3, DIGITS_1, DIGITS_2, DIGITS_3,
};

// The sizes that a scheme chooses: the bytes of a key, those of a bit string as long as the inner vector, and the digits of a code; and what
// its matrix file has besides: the set in byte 3 of its blocks, and the rows of a full block.
#[derive(Clone, Copy)]
pub struct Sizes {
    pub key_bytes: usize,
    pub inner_bytes: usize,
    pub digits: usize,
    pub set: u8,
    pub block_rows: usize,
    // Strings and rows of these sizes have room, and the product is circulant.
    pub ghost fits: { Fits (record { key_bytes = key_bytes; inner_bytes = inner_bytes; digits = digits; set = set; block_rows = block_rows }) },
}

// The sizes of each set.
pub const SET_1: Sizes = Sizes {
    key_bytes: BITS_1 / 8,
    inner_bytes: BITS_1 / 8,
    digits: DIGITS_1,
    set: 1,
    block_rows: BLOCK_ROWS_1,
};

pub const SET_2: Sizes = Sizes {
    key_bytes: BITS_2 / 8,
    inner_bytes: BITS_2 / 8,
    digits: DIGITS_2,
    set: 2,
    block_rows: BLOCK_ROWS_2,
};

pub const SET_3: Sizes = Sizes {
    key_bytes: BITS_3 / 8,
    inner_bytes: BITS_3 / 8,
    digits: DIGITS_3,
    set: 3,
    block_rows: BLOCK_ROWS_3,
};

// The room that a unit's state has for each bit string, and for the trits of r: the bytes of the largest set.
pub const STRING_ROOM: usize = BITS_3 / 8;

pub const TRITS_ROOM: usize = 2 * STRING_ROOM;

// A header: kind, side, session, line.
pub const HEADER_BYTES: usize = 7;

// A state in a slice: a header with the stage for its kind, the set, and the rooms of the halves, the deal and the own mask, each by its place.
pub const SET_AT: usize = HEADER_BYTES;

pub const KEY_AT: usize = SET_AT + 1;

pub const LABEL_AT: usize = KEY_AT + STRING_ROOM;

pub const KEY_MASK_AT: usize = LABEL_AT + STRING_ROOM;

pub const LABEL_MASK_AT: usize = KEY_MASK_AT + STRING_ROOM;

pub const Z_AT: usize = LABEL_MASK_AT + STRING_ROOM;

pub const R_AT: usize = Z_AT + STRING_ROOM;

pub const OWN_MASK_AT: usize = R_AT + TRITS_ROOM;

pub const STATE_BYTES: usize = OWN_MASK_AT + STRING_ROOM;

// Of set 1, the program's. Bytes of a key, of a label, and of a half or a mask of one.
pub const KEY_BYTES: usize = BITS_1 / 8;

// Bytes of a bit string as long as the inner vector: w̃, z, ŵ.
pub const INNER_BYTES: usize = BITS_1 / 8;

// Trits of the inner vector, and the bytes of their two planes.
pub const INNER_TRITS: usize = 8 * INNER_BYTES;

pub const TRITS_BYTES: usize = 2 * INNER_BYTES;

// Digits of a code: one for each row of the matrix.
pub const DIGITS: usize = DIGITS_1;

// The whole length of a frame of each kind.
pub const DEAL_FRAME_BYTES: usize = HEADER_BYTES + 2 * KEY_BYTES + INNER_BYTES + TRITS_BYTES;

pub const OPEN_FRAME_BYTES: usize = HEADER_BYTES + 2 * KEY_BYTES;

pub const MASK_FRAME_BYTES: usize = HEADER_BYTES + INNER_BYTES;

pub const SHARE_FRAME_BYTES: usize = HEADER_BYTES + CODE_BYTES;

// Both deal frames.
pub const DEALT_BYTES: usize = 2 * DEAL_FRAME_BYTES;

// A tape: K̃0, K̃1, x̃0, x̃1, w̃, z0, and then r0.
pub const TAPE_R: usize = 4 * KEY_BYTES + 2 * INNER_BYTES;

pub const TAPE_BYTES: usize = TAPE_R + TRITS_BYTES;

// The program's input: two key halves, two label halves, tape, matrix file, each by its place.
pub const INPUT_KEY_0: usize = 0;

pub const INPUT_KEY_1: usize = INPUT_KEY_0 + KEY_BYTES;

pub const INPUT_LABEL_0: usize = INPUT_KEY_1 + KEY_BYTES;

pub const INPUT_LABEL_1: usize = INPUT_LABEL_0 + KEY_BYTES;

pub const INPUT_TAPE: usize = INPUT_LABEL_1 + KEY_BYTES;

pub const INPUT_FILE: usize = INPUT_TAPE + TAPE_BYTES;

pub const INPUT_BYTES: usize = INPUT_FILE + FILE_BYTES;
