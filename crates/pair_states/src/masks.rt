// The own mask ŵi of a state in a slice.
ghost use Rattle.std.specs.Prelude.{◌≡◌, length};
ghost use Rattle.pair_frames.specs.Schemes.{scheme_in};
ghost use Rattle.pair_model.specs.Scheme.{no_files};
ghost use Rattle.pair_model.specs.Frame.{open_kind, side_of, frame_bytes, body_of};
ghost use Rattle.pair_model.specs.Unit.{take_open};
ghost use Rattle.pair_model.specs.StateSlice.{state_bytes, decode_as};

use pair_bodies::masks::{MaskSecrets, write_own_mask};
use pair_frames::sizes::{KEY_AT, KEY_MASK_AT, LABEL_AT, LABEL_MASK_AT, Sizes, Z_AT};

// Writes the own mask that an open frame makes: halves and deal are read where they stand.
pub fn write_mask_of(sizes: Sizes, side: u8, state: &[u8], f: &[u8], out: &mut [u8])
    requires { (length state.now ≡ state_bytes) × (side ≡ side_of state.now)
        × (length f.now ≡ frame_bytes (scheme_in sizes) open_kind) × (length out.old ≡ sizes.inner_bytes) }
    ensures { out.new ≡
        (take_open (scheme_in sizes) (decode_as (scheme_in sizes) state.now) (body_of f.now) no_files).next.secrets.own_mask }
{
    let n = sizes.key_bytes;
    let m = sizes.inner_bytes;
    write_own_mask(
        sizes,
        side,
        MaskSecrets {
            key: &state[KEY_AT..KEY_AT + n],
            label: &state[LABEL_AT..LABEL_AT + n],
            key_mask: &state[KEY_MASK_AT..KEY_MASK_AT + n],
            label_mask: &state[LABEL_MASK_AT..LABEL_MASK_AT + n],
            z: &state[Z_AT..Z_AT + m],
        },
        f,
        out,
    );
}
