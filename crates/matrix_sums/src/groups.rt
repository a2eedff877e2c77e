// What the sums of a group of bytes are made of. The specs cite these structs, so they stand by themselves.

// Bytes of words added up in four lanes of 16 bits: `pairs` has those at places 0 and 1 of a word in its lowest lane, those at 2
// and 3 in the next, and so on, and `odd` the second of each pair. `ahead` adds up what `pairs` was before each word.
#[derive(Clone, Copy, Default)]
pub struct Lanes {
    pub pairs: u64,
    pub odd: u64,
    pub ahead: u64,
}

// A number of the words at even places, and one of those at odd places.
#[derive(Clone, Copy)]
pub struct Sides {
    pub left: u64,
    pub right: u64,
}

// The lanes of both, side by side, as one instruction may add them.
#[derive(Clone, Copy)]
pub struct Columns {
    pub pairs: Sides,
    pub odd: Sides,
    pub ahead: Sides,
}

// The two sums, whose remainder is still to be taken.
#[derive(Clone, Copy)]
pub struct Totals {
    pub first: u64,
    pub second: u64,
}
