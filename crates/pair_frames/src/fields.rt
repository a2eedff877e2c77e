// The fields of a deal and of an open frame's body, read and written.
ghost use Rattle.std.specs.Prelude.{◌≡◌, [], ◌∷◌, ◌++◌, ◌+◌, ◌≤◌, length, drop};
ghost use Rattle.linear_model.specs.Bits.{add_bits};
ghost use Rattle.pair_model.specs.Scheme.{layout_bytes, field, concat};
ghost use Rattle.pair_model.specs.Tape.{deal_layout};
ghost use Rattle.pair_model.specs.Frame.{deal_kind, open_kind, frame, frame_bytes, body_of};
ghost use Rattle.pair_model.specs.StateSlice.{string_room, trits_room, in_room};
ghost use Rattle.pair_frames.specs.Headers.{parameters_in};
ghost use Rattle.pair_frames.specs.Schemes.{scheme_in};

use crate::copies::put_part;
use crate::frame::{OPEN, header_bytes};
use crate::parameters::Parameters;
use crate::sizes::{HEADER_BYTES, STRING_ROOM, Sizes, TRITS_ROOM};
use linear::bits::add_bits;
use linear_words::copies::put;

// A deal: K̃i, x̃i, zi, ri, each in the front of its room, and zeros after it.
#[derive(Clone, Copy)]
pub struct Deal {
    pub key_mask: [u8; STRING_ROOM],
    pub label_mask: [u8; STRING_ROOM],
    pub z: [u8; STRING_ROOM],
    pub r: [u8; TRITS_ROOM],
}

// The deal in `s` from `at` on.
pub fn read_deal(sizes: Sizes, s: &[u8], at: usize) -> Deal
    requires { at + layout_bytes (deal_layout (scheme_in sizes)) ≤ length s.now }
    ensures key_mask { result.key_mask ≡ in_room string_room (field (deal_layout (scheme_in sizes)) 0 (drop at s.now)) }
    ensures label_mask { result.label_mask ≡ in_room string_room (field (deal_layout (scheme_in sizes)) 1 (drop at s.now)) }
    ensures z { result.z ≡ in_room string_room (field (deal_layout (scheme_in sizes)) 2 (drop at s.now)) }
    ensures r { result.r ≡ in_room trits_room (field (deal_layout (scheme_in sizes)) 3 (drop at s.now)) }
{
    let n = sizes.key_bytes;
    let m = sizes.inner_bytes;
    let mut key_mask = [0u8; STRING_ROOM];
    let mut label_mask = [0u8; STRING_ROOM];
    let mut z = [0u8; STRING_ROOM];
    let mut r = [0u8; TRITS_ROOM];
    put_part(s, at, n, &mut key_mask, 0);
    put_part(s, at + n, n, &mut label_mask, 0);
    put_part(s, at + 2 * n, m, &mut z, 0);
    put_part(s, at + 2 * n + m, 2 * m, &mut r, 0);
    Deal {
        key_mask,
        label_mask,
        z,
        r,
    }
}

// The r of a deal frame.
pub fn r_of_deal(sizes: Sizes, f: &[u8]) -> &[u8]
    requires { length f.now ≡ frame_bytes (scheme_in sizes) deal_kind }
    ensures { result.now ≡ field (deal_layout (scheme_in sizes)) 3 (body_of f.now) }
{
    let at = HEADER_BYTES + 2 * sizes.key_bytes + sizes.inner_bytes;
    &f[at..at + 2 * sizes.inner_bytes]
}

// Writes an open frame to the front of `out`: key half + K̃i, label half + x̃i.
pub fn write_open_frame(
    sizes: Sizes,
    parameters: Parameters,
    key: &[u8],
    label: &[u8],
    key_mask: &[u8],
    label_mask: &[u8],
    out: &mut [u8],
)
    requires { frame_bytes (scheme_in sizes) open_kind ≤ length out.old }
    ensures { out.new ≡
        frame open_kind (parameters_in parameters)
        (concat
        (add_bits sizes.key_bytes key.now key_mask.now
        ∷ add_bits sizes.key_bytes label.now label_mask.now
        ∷ []))
        ++ drop (frame_bytes (scheme_in sizes) open_kind) out.old }
{
    put(&header_bytes(OPEN, parameters), out, 0);
    let label_at = HEADER_BYTES + sizes.key_bytes;
    let end = label_at + sizes.key_bytes;
    add_bits(key, key_mask, &mut out[HEADER_BYTES..label_at]);
    add_bits(label, label_mask, &mut out[label_at..end]);
}
