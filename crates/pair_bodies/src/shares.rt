// The share frame. No branch depends on a mask or on r.
ghost use Rattle.std.specs.Prelude.{◌≡◌, ◌*◌, ◌≤◌, length};
ghost use Rattle.linear_model.specs.Bits.{add_bits};
ghost use Rattle.numbers.specs.Number.{at_front};
ghost use Rattle.pair_frames.specs.Headers.{parameters_in};
ghost use Rattle.pair_frames.specs.Schemes.{scheme_in};
ghost use Rattle.pair_model.specs.Scheme.{files};
ghost use Rattle.pair_model.specs.Frame.{share_kind, frame, frame_bytes};
ghost use Rattle.pair_model.specs.Unit.{share_of};

use linear::bits::add_bits;
use linear::trits::inner_share;
use linear_words::copies::put;
use pair_frames::frame::{SHARE, frame_bytes, header_bytes};
use pair_frames::parameters::Parameters;
use pair_frames::sizes::{HEADER_BYTES, STRING_ROOM, Sizes, TRITS_ROOM};
use pair_matrix::rows::write_code;

// Writes a share frame to the front of `out`: the code share of ŵ = ŵ0 + ŵ1 and of r.
pub fn write_share_frame(
    sizes: Sizes,
    parameters: Parameters,
    own_mask: &[u8],
    other_mask: &[u8],
    r: &[u8],
    file: &[u8],
    out: &mut [u8],
)
    requires { (length file.now ≡ (scheme_in sizes).rows_reading.bytes) × (frame_bytes (scheme_in sizes) share_kind ≤ length out.old) }
    ensures { out.new ≡
        at_front
        (frame share_kind (parameters_in parameters)
        (share_of (scheme_in sizes) (files file.now) parameters.side
        (add_bits sizes.inner_bytes own_mask.now other_mask.now)
        r.now))
        out.old }
{
    let m = sizes.inner_bytes;
    let planes = 2 * m;
    let end = frame_bytes(sizes, SHARE);
    let mut w = [0u8; STRING_ROOM];
    let mut inner = [0u8; TRITS_ROOM];
    add_bits(own_mask, other_mask, &mut w[..m]);
    inner_share(parameters.side, &w[..m], r, &mut inner[..planes]);
    put(&header_bytes(SHARE, parameters), out, 0);
    write_code(sizes, file, &inner[..planes], &mut out[HEADER_BYTES..end]);
}
