// The stages of a unit: the kind of frame that it waits for, or none.
pub const IDLE: u8 = 0;

pub const WAITS_FOR_DEAL: u8 = 1;

pub const WAITS_FOR_OPEN: u8 = 2;

pub const WAITS_FOR_MASK: u8 = 3;

pub const FINISHED: u8 = 4;
