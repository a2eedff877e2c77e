// What a step may be refused for: the lengths decide first, then the header and what the unit waits for, then what the frame brings, and
// last its line.
// No half and nothing of a deal is read but its r.
ghost use Rattle.std.specs.Prelude.{◌≡◌, eqb, length};
ghost use Rattle.numbers.specs.Number.{first};
ghost use Rattle.numbers.specs.Refusals.{answer_number};
ghost use Rattle.pair_model.specs.Scheme.{files};
ghost use Rattle.pair_frames.specs.Headers.{parameters_in};
ghost use Rattle.pair_frames.specs.Schemes.{scheme_in};
ghost use Rattle.pair_model.specs.Frame.{mask_kind, kind_of, frame_bytes};
ghost use Rattle.pair_model.specs.Unit.{expected_side, length_conditions, header_conditions, content_conditions, step_number};

use linear::trits::trits_fit;
use numbers::refusal::Refusal;
use pair_frames::fields::r_of_deal;
use pair_frames::frame::{DEAL, MASK, OPEN, check_header, check_line, frame_bytes, read_header};
use pair_frames::header::Header;
use pair_frames::parameters::Parameters;
use pair_frames::sizes::Sizes;
use pair_matrix::rows::{check_file, file_bytes};

// Whether the step reads the file: the frame has a first byte and it is 3.
fn reads_file(f: &[u8]) -> bool
    ensures { result ≡ eqb (kind_of f.now) mask_kind }
{
    f.first() == Some(&MASK)
}

// The side that a frame must name.
fn expected_side(kind: u8, side: u8) -> u8
    ensures { result ≡ expected_side kind side }
{
    if kind == DEAL {
        side
    } else {
        u8::from(side == 0)
    }
}

// As far as lengths decide it.
fn check_lengths(sizes: Sizes, f: &[u8], file: &[u8], room: usize) -> Result<(), Refusal>
    ensures { answer_number result ≡ first (length_conditions (scheme_in sizes) f.now (files file.now) room) }
{
    if room < frame_bytes(sizes, OPEN) {
        return Err(Refusal::WrongLength);
    }
    if reads_file(f) && file.len() != file_bytes(sizes) {
        return Err(Refusal::WrongLength);
    }
    Ok(())
}

// As far as the header and what the unit waits for decide it.
fn check_frame(sizes: Sizes, parameters: Parameters, stage: u8, f: &[u8]) -> Result<(), Refusal>
    ensures { answer_number result ≡ first (header_conditions (scheme_in sizes) (parameters_in parameters) stage f.now) }
{
    let h = read_header(sizes, f, DEAL, MASK);
    let Header::Fields {
        kind,
        side: named,
        session: number,
        ..
    } = h
    else {
        return check_header(h);
    };
    if number != parameters.session {
        return Err(Refusal::OtherSession);
    }
    if named != expected_side(kind, parameters.side) {
        return Err(Refusal::OtherSide);
    }
    if kind != stage {
        return Err(Refusal::NotWaitedFor);
    }
    Ok(())
}

// As far as what the frame brings decides it: the file that is read, or the trits of a deal.
fn check_content(sizes: Sizes, f: &[u8], file: &[u8]) -> Result<(), Refusal>
    requires { (length f.now ≡ frame_bytes (scheme_in sizes) (kind_of f.now))
        × (kind_of f.now ≡ mask_kind → length file.now ≡ (scheme_in sizes).rows_reading.bytes) }
    ensures { answer_number result ≡ first (content_conditions (scheme_in sizes) f.now (files file.now)) }
{
    if reads_file(f) {
        return check_file(sizes, file);
    }
    if f[0] == DEAL && !trits_fit(r_of_deal(sizes, f), 8 * sizes.inner_bytes) {
        return Err(Refusal::UnfitTrit);
    }
    Ok(())
}

// A step of a unit of these parameters and this stage.
pub fn check_step(
    sizes: Sizes,
    parameters: Parameters,
    stage: u8,
    f: &[u8],
    file: &[u8],
    room: usize,
) -> Result<(), Refusal>
    ensures { answer_number result ≡ step_number (scheme_in sizes) (parameters_in parameters) stage f.now (files file.now) room }
{
    check_lengths(sizes, f, file, room)?;
    check_frame(sizes, parameters, stage, f)?;
    check_content(sizes, f, file)?;
    check_line(parameters.line, f)
}
