// What a unit does at a frame that is accepted.
ghost use Rattle.std.specs.Prelude.{◌≡◌, ◌≤◌, length};
ghost use Rattle.numbers.specs.Number.{at_front};
ghost use Rattle.pair_frames.specs.Headers.{parameters_in};
ghost use Rattle.pair_frames.specs.Schemes.{scheme_in};
ghost use Rattle.pair_model.specs.Scheme.{files, no_files};
ghost use Rattle.pair_model.specs.Frame.{deal_kind, open_kind, mask_kind, share_kind, frame_bytes, body_of};
ghost use Rattle.pair_model.specs.Unit.{take_deal, take_open, take_mask, advance, step_number};
ghost use Rattle.pair_units.specs.Units.{state_at, unit_of};

use crate::begin::cleared;
use crate::state::UnitState;
use pair_bodies::masks::{MaskSecrets, write_own_mask};
use pair_bodies::shares::write_share_frame;
use pair_conditions::stages::{FINISHED, WAITS_FOR_DEAL, WAITS_FOR_MASK, WAITS_FOR_OPEN};
use pair_frames::fields::{Deal, read_deal, write_open_frame};
use pair_frames::frame::{MASK, OPEN, SHARE, frame_bytes, write_frame};
use pair_frames::sizes::{HEADER_BYTES, STRING_ROOM, Sizes};

// It takes a deal, and writes its open frame.
pub fn take_deal(sizes: Sizes, u: UnitState, f: &[u8], out: &mut [u8]) -> UnitState
    requires { (length f.now ≡ frame_bytes (scheme_in sizes) deal_kind) × (frame_bytes (scheme_in sizes) open_kind ≤ length out.old) }
    ensures next { state_at sizes result ≡ (take_deal (scheme_in sizes) (state_at sizes u) (body_of f.now)).next }
    ensures output { out.new ≡ at_front (take_deal (scheme_in sizes) (state_at sizes u) (body_of f.now)).written out.old }
{
    let n = sizes.key_bytes;
    let label_at = HEADER_BYTES + n;
    write_open_frame(
        sizes,
        u.parameters,
        &u.key[..n],
        &u.label[..n],
        &f[HEADER_BYTES..label_at],
        &f[label_at..label_at + n],
        out,
    );
    let Deal {
        key_mask,
        label_mask,
        z,
        r,
    } = read_deal(sizes, f, HEADER_BYTES);
    UnitState {
        set: sizes.set,
        stage: WAITS_FOR_OPEN,
        key_mask,
        label_mask,
        z,
        r,
        own_mask: [0u8; STRING_ROOM],
        ..u
    }
}

// It takes the other's open frame, and writes its mask frame.
fn take_open(sizes: Sizes, u: UnitState, f: &[u8], out: &mut [u8]) -> UnitState
    requires { (length f.now ≡ frame_bytes (scheme_in sizes) open_kind) × (frame_bytes (scheme_in sizes) open_kind ≤ length out.old) }
    ensures next { state_at sizes result ≡ (take_open (scheme_in sizes) (state_at sizes u) (body_of f.now) no_files).next }
    ensures output { out.new ≡ at_front (take_open (scheme_in sizes) (state_at sizes u) (body_of f.now) no_files).written out.old }
{
    let n = sizes.key_bytes;
    let m = sizes.inner_bytes;
    let mut own_mask = [0u8; STRING_ROOM];
    write_own_mask(
        sizes,
        u.parameters.side,
        MaskSecrets {
            key: &u.key[..n],
            label: &u.label[..n],
            key_mask: &u.key_mask[..n],
            label_mask: &u.label_mask[..n],
            z: &u.z[..m],
        },
        f,
        &mut own_mask[..m],
    );
    write_frame(MASK, u.parameters, &own_mask[..m], out);
    UnitState {
        stage: WAITS_FOR_MASK,
        own_mask,
        ..u
    }
}

// It takes the other's mask frame, writes its share frame and is done.
pub fn take_mask(sizes: Sizes, u: UnitState, f: &[u8], file: &[u8], out: &mut [u8]) -> UnitState
    requires { (length f.now ≡ frame_bytes (scheme_in sizes) mask_kind) × (frame_bytes (scheme_in sizes) share_kind ≤ length out.old)
        × (length file.now ≡ (scheme_in sizes).rows_reading.bytes) }
    ensures next { result ≡ unit_of (take_mask (scheme_in sizes) (state_at sizes u) (body_of f.now) (files file.now)).next }
    ensures output { out.new ≡
        at_front (take_mask (scheme_in sizes) (state_at sizes u) (body_of f.now) (files file.now)).written out.old }
{
    let m = sizes.inner_bytes;
    write_share_frame(
        sizes,
        u.parameters,
        &u.own_mask[..m],
        &f[HEADER_BYTES..HEADER_BYTES + m],
        &u.r[..2 * m],
        file,
        out,
    );
    cleared(sizes, u.parameters, FINISHED)
}

// How much an accepted frame had written, and the state after it.
#[derive(Clone, Copy)]
pub struct Advanced {
    pub written: usize,
    pub next: UnitState,
}

// A frame that is accepted, by what the unit waits for.
pub fn advance(sizes: Sizes, u: UnitState, f: &[u8], file: &[u8], out: &mut [u8]) -> Advanced
    requires { step_number (scheme_in sizes) (parameters_in u.parameters) u.stage f.now (files file.now) (length out.old) ≡ 0 }
    ensures count { result.written ≡ length (advance (scheme_in sizes) (state_at sizes u) (body_of f.now) (files file.now)).written }
    ensures next { state_at sizes result.next ≡ (advance (scheme_in sizes) (state_at sizes u) (body_of f.now) (files file.now)).next }
    ensures output { out.new ≡
        at_front (advance (scheme_in sizes) (state_at sizes u) (body_of f.now) (files file.now)).written out.old }
{
    match u.stage {
        WAITS_FOR_DEAL => Advanced {
            next: take_deal(sizes, u, f, out),
            written: frame_bytes(sizes, OPEN),
        },
        WAITS_FOR_OPEN => Advanced {
            next: take_open(sizes, u, f, out),
            written: frame_bytes(sizes, MASK),
        },
        _ => Advanced {
            next: take_mask(sizes, u, f, file, out),
            written: frame_bytes(sizes, SHARE),
        },
    }
}
