// The state of a unit.
use pair_frames::parameters::Parameters;
use pair_frames::sizes::{STRING_ROOM, TRITS_ROOM};

// The set, the parameters, the stage, and the two halves, the deal and the own mask ŵi, each in the front of its room.
#[derive(Clone, Copy)]
pub struct UnitState {
    pub set: u8,
    pub parameters: Parameters,
    pub stage: u8,
    pub key: [u8; STRING_ROOM],
    pub label: [u8; STRING_ROOM],
    pub key_mask: [u8; STRING_ROOM],
    pub label_mask: [u8; STRING_ROOM],
    pub z: [u8; STRING_ROOM],
    pub r: [u8; TRITS_ROOM],
    pub own_mask: [u8; STRING_ROOM],
}
