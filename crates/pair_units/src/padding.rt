// Zeros after each string of a state.
ghost use Rattle.std.specs.Prelude.{◌≡◌, ◌≤◌, take};
ghost use Rattle.pair_model.specs.StateSlice.{in_room};
ghost use Rattle.pair_units.specs.Units.{state_at, unit_of};

use crate::state::UnitState;
use pair_frames::sizes::Sizes;

// The first `n` bytes of a room, and zeros after them.
fn padded_room<const N: usize>(s: &[u8; N], n: usize) -> [u8; N]
    requires { n ≤ N }
    ensures { result ≡ in_room N (take n s.now) }
{
    let mut out = [0u8; N];
    out[..n].copy_from_slice(&s[..n]);
    out
}

// The struct of the state that `u` stands for: a state that no beginning made may have other bytes after its strings.
pub fn padded(sizes: Sizes, u: UnitState) -> UnitState
    ensures { result ≡ unit_of (state_at sizes u) }
{
    let n = sizes.key_bytes;
    let m = sizes.inner_bytes;
    UnitState {
        set: sizes.set,
        key: padded_room(&u.key, n),
        label: padded_room(&u.label, n),
        key_mask: padded_room(&u.key_mask, n),
        label_mask: padded_room(&u.label_mask, n),
        z: padded_room(&u.z, m),
        r: padded_room(&u.r, 2 * m),
        own_mask: padded_room(&u.own_mask, m),
        ..u
    }
}
