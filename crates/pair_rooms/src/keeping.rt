// The rooms of a state that stay, and those of a deal.
ghost use Rattle.std.specs.Prelude.{◌≡◌, [], ◌∷◌, ◌++◌, ◌*◌, length, take, drop};
ghost use Rattle.pair_frames.specs.Headers.{parameters_in};
ghost use Rattle.pair_frames.specs.Schemes.{scheme_in};
ghost use Rattle.pair_model.specs.Scheme.{field, concat};
ghost use Rattle.pair_model.specs.Tape.{deal_layout};
ghost use Rattle.pair_model.specs.Frame.{deal_kind, frame_bytes, body_of};
ghost use Rattle.pair_model.specs.StateSlice.{string_room, trits_room, in_room, room_place, in_front, state_header, state_header_bytes, state_bytes};

use crate::rooms::{keep_room, put_room};
use pair_frames::frame::header_bytes;
use pair_frames::parameters::Parameters;
use pair_frames::sizes::{
    HEADER_BYTES, KEY_AT, KEY_MASK_AT, LABEL_AT, LABEL_MASK_AT, R_AT, SET_AT, STRING_ROOM, Sizes,
    TRITS_ROOM, Z_AT,
};

// Writes the header of a state, which names its set.
pub fn put_header(set: u8, parameters: Parameters, stage: u8, s: &mut [u8])
    requires { length s.old ≡ state_bytes }
    ensures { s.new ≡ state_header set (parameters_in parameters) stage ++ drop state_header_bytes s.old }
{
    s[..HEADER_BYTES].copy_from_slice(&header_bytes(stage, parameters));
    s[SET_AT] = set;
}

// Writes the header, and leaves both halves.
pub fn keep_halves(sizes: Sizes, parameters: Parameters, stage: u8, s: &mut [u8])
    requires { length s.old ≡ state_bytes }
    ensures { s.new ≡
        concat
        (state_header sizes.set (parameters_in parameters) stage ∷ in_room string_room (in_front s.old 0 sizes.key_bytes)
        ∷ in_room string_room (in_front s.old 1 sizes.key_bytes) ∷ [])
        ++ drop (room_place 2) s.old }
{
    let n = sizes.key_bytes;
    put_header(sizes.set, parameters, stage, s);
    keep_room(s, KEY_AT, n, STRING_ROOM);
    keep_room(s, LABEL_AT, n, STRING_ROOM);
}

// Leaves the deal.
pub fn keep_deal(sizes: Sizes, s: &mut [u8])
    requires { length s.old ≡ state_bytes }
    ensures { s.new ≡
        take (room_place 2) s.old
        ++ concat
        (in_room string_room (in_front s.old 2 sizes.key_bytes) ∷ in_room string_room (in_front s.old 3 sizes.key_bytes)
        ∷ in_room string_room (in_front s.old 4 sizes.inner_bytes) ∷ in_room trits_room (in_front s.old 5 (2 * sizes.inner_bytes)) ∷ [])
        ++ drop (room_place 6) s.old }
{
    let n = sizes.key_bytes;
    let m = sizes.inner_bytes;
    keep_room(s, KEY_MASK_AT, n, STRING_ROOM);
    keep_room(s, LABEL_MASK_AT, n, STRING_ROOM);
    keep_room(s, Z_AT, m, STRING_ROOM);
    keep_room(s, R_AT, 2 * m, TRITS_ROOM);
}

// Writes the deal in a deal frame.
pub fn put_deal(sizes: Sizes, f: &[u8], s: &mut [u8])
    requires { (length f.now ≡ frame_bytes (scheme_in sizes) deal_kind) × (length s.old ≡ state_bytes) }
    ensures { s.new ≡
        take (room_place 2) s.old
        ++ concat
        (in_room string_room (field (deal_layout (scheme_in sizes)) 0 (body_of f.now)) ∷ in_room string_room (field (deal_layout (scheme_in sizes)) 1 (body_of f.now))
        ∷ in_room string_room (field (deal_layout (scheme_in sizes)) 2 (body_of f.now)) ∷ in_room trits_room (field (deal_layout (scheme_in sizes)) 3 (body_of f.now)) ∷ [])
        ++ drop (room_place 6) s.old }
{
    let label_at = HEADER_BYTES + sizes.key_bytes;
    let z_at = label_at + sizes.key_bytes;
    let r_at = z_at + sizes.inner_bytes;
    let end = r_at + 2 * sizes.inner_bytes;
    put_room(&f[HEADER_BYTES..label_at], s, KEY_MASK_AT, STRING_ROOM);
    put_room(&f[label_at..z_at], s, LABEL_MASK_AT, STRING_ROOM);
    put_room(&f[z_at..r_at], s, Z_AT, STRING_ROOM);
    put_room(&f[r_at..end], s, R_AT, TRITS_ROOM);
}
