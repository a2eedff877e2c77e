// Frames by their headers: what a frame is read to, and the bytes of a frame that is written.
ghost use Rattle.std.specs.Prelude.{◌≡◌, ◌++◌, ◌+◌, ◌≤◌, length, drop};
ghost use Rattle.numbers.specs.Number.{first};
ghost use Rattle.numbers.specs.Refusals.{answer_number};
ghost use Rattle.pair_model.specs.Frame.{header, header_bytes, frame, session_of, line_of, carried_parameters, code_bytes, frame_bytes};
ghost use Rattle.pair_model.specs.Header.{read_header, header_number, line_conditions};
ghost use Rattle.pair_frames.specs.Headers.{parameters_in, header_of};
ghost use Rattle.pair_frames.specs.Schemes.{scheme_in};

use crate::header::Header;
use crate::parameters::Parameters;
use crate::sizes::{HEADER_BYTES, Sizes};
use linear_words::copies::put;
use numbers::refusal::Refusal;

// The kinds of frames.
// Stays numbers, an enum is no plainer: a kind is the first byte of a frame that came, any byte, and is compared with bounds and a stage.
pub const DEAL: u8 = 1;

pub const OPEN: u8 = 2;

pub const MASK: u8 = 3;

pub const SHARE: u8 = 4;

// The bytes of a code.
pub fn code_bytes(sizes: Sizes) -> usize
    ensures { result ≡ code_bytes (scheme_in sizes) }
{
    2 * sizes.digits.div_ceil(8)
}

// The whole length of a frame, by its kind.
pub fn frame_bytes(sizes: Sizes, kind: u8) -> usize
    ensures { result ≡ frame_bytes (scheme_in sizes) kind }
{
    match kind {
        DEAL => HEADER_BYTES + 2 * sizes.key_bytes + 3 * sizes.inner_bytes,
        OPEN => HEADER_BYTES + 2 * sizes.key_bytes,
        MASK => HEADER_BYTES + sizes.inner_bytes,
        SHARE => HEADER_BYTES + code_bytes(sizes),
        _ => HEADER_BYTES,
    }
}

// The session in a header.
pub fn session_of(f: &[u8]) -> u32
    requires { header_bytes ≤ length f.now }
    ensures { result ≡ session_of f.now }
{
    u32::from_le_bytes([f[2], f[3], f[4], f[5]])
}

// The line in a header.
pub fn line_of(f: &[u8]) -> u8
    requires { header_bytes ≤ length f.now }
    ensures { result ≡ line_of f.now }
{
    f[6]
}

// The parameters in a header.
pub fn parameters_of(f: &[u8]) -> Parameters
    requires { header_bytes ≤ length f.now }
    ensures { parameters_in result ≡ carried_parameters f.now }
{
    Parameters {
        side: f[1],
        session: session_of(f),
        line: line_of(f),
    }
}

// Reads a frame whose kind may be `lowest` to `highest`.
pub fn read_header(sizes: Sizes, f: &[u8], lowest: u8, highest: u8) -> Header
    ensures { header_of result ≡ read_header (scheme_in sizes) lowest highest f.now }
{
    if f.len() < HEADER_BYTES {
        return Header::Refused(Refusal::NoKind);
    }
    let kind = f[0];
    if kind < lowest {
        return Header::Refused(Refusal::NoKind);
    }
    if highest < kind {
        return Header::Refused(Refusal::NoKind);
    }
    if f.len() != frame_bytes(sizes, kind) {
        return Header::Refused(Refusal::FrameLength);
    }
    Header::Fields {
        kind,
        side: f[1],
        session: session_of(f),
        line: line_of(f),
        body: f.len() - HEADER_BYTES,
    }
}

// A header that was read, by its refusal.
pub fn check_header(h: Header) -> Result<(), Refusal>
    ensures { answer_number result ≡ header_number (header_of h) }
{
    match h {
        Header::Fields { .. } => Ok(()),
        Header::Refused(why) => Err(why),
    }
}

// A frame's line, which must be `line`.
pub fn check_line(line: u8, f: &[u8]) -> Result<(), Refusal>
    requires { header_bytes ≤ length f.now }
    ensures { answer_number result ≡ first (line_conditions line f.now) }
{
    if line_of(f) == line {
        Ok(())
    } else {
        Err(Refusal::OtherLine)
    }
}

// The bytes of a header.
pub fn header_bytes(kind: u8, parameters: Parameters) -> [u8; HEADER_BYTES]
    ensures { result ≡ header kind (parameters_in parameters) }
{
    let [s0, s1, s2, s3] = parameters.session.to_le_bytes();
    [kind, parameters.side, s0, s1, s2, s3, parameters.line]
}

// Writes a frame to the front of `out`.
pub fn write_frame(kind: u8, parameters: Parameters, body: &[u8], out: &mut [u8])
    requires { header_bytes + length body.now ≤ length out.old }
    ensures { out.new ≡
        frame kind (parameters_in parameters) body.now ++ drop (header_bytes + length body.now) out.old }
{
    put(&header_bytes(kind, parameters), out, 0);
    put(body, out, HEADER_BYTES);
}
