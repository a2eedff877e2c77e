// Frames that are accepted, taken in place by a state in a slice: copies of the state would be most of the time.
ghost use Rattle.std.specs.Prelude.{◌≡◌, ◌≤◌, length};
ghost use Rattle.numbers.specs.Number.{at_front};
ghost use Rattle.pair_frames.specs.Schemes.{scheme_in};
ghost use Rattle.pair_model.specs.Scheme.{files, no_files};
ghost use Rattle.pair_model.specs.Frame.{deal_kind, open_kind, mask_kind, share_kind, kind_of, frame_bytes, body_of, carried_parameters};
ghost use Rattle.pair_model.specs.Unit.{take_deal, take_open, take_mask, advance, step_number};
ghost use Rattle.pair_model.specs.StateSlice.{state_bytes, encode_state, decode_as};

use pair_bodies::shares::write_share_frame;
use pair_conditions::stages::{FINISHED, WAITS_FOR_DEAL, WAITS_FOR_MASK, WAITS_FOR_OPEN};
use pair_frames::fields::write_open_frame;
use pair_frames::frame::{MASK, OPEN, SHARE, frame_bytes, header_bytes, parameters_of};
use pair_frames::sizes::{
    HEADER_BYTES, KEY_AT, LABEL_AT, OWN_MASK_AT, R_AT, STATE_BYTES, STRING_ROOM, Sizes,
};
use pair_rooms::keeping::{keep_deal, keep_halves, put_deal};
use pair_rooms::rooms::{clear_between, put_room};
use pair_states::beginnings::clear;
use pair_states::masks::write_mask_of;

// Takes a deal: its fields go to their rooms, and the halves stay.
fn deal_in_place(sizes: Sizes, state: &mut [u8], f: &[u8], out: &mut [u8])
    requires { (length state.old ≡ state_bytes) × (length f.now ≡ frame_bytes (scheme_in sizes) deal_kind)
        × (frame_bytes (scheme_in sizes) open_kind ≤ length out.old) }
    ensures state { state.new ≡ encode_state (take_deal (scheme_in sizes) (decode_as (scheme_in sizes) state.old) (body_of f.now)).next }
    ensures output { out.new ≡ at_front (take_deal (scheme_in sizes) (decode_as (scheme_in sizes) state.old) (body_of f.now)).written out.old }
{
    let n = sizes.key_bytes;
    let label_at = HEADER_BYTES + n;
    let parameters = parameters_of(state);
    write_open_frame(
        sizes,
        parameters,
        &state[KEY_AT..KEY_AT + n],
        &state[LABEL_AT..LABEL_AT + n],
        &f[HEADER_BYTES..label_at],
        &f[label_at..label_at + n],
        out,
    );
    keep_halves(sizes, parameters, WAITS_FOR_OPEN, state);
    put_deal(sizes, f, state);
    clear_between(state, OWN_MASK_AT, STATE_BYTES);
}

// Writes the mask frame that the other's open frame makes.
fn write_mask_frame(sizes: Sizes, state: &[u8], f: &[u8], out: &mut [u8])
    requires { (length state.now ≡ state_bytes) × (length f.now ≡ frame_bytes (scheme_in sizes) open_kind)
        × (frame_bytes (scheme_in sizes) open_kind ≤ length out.old) }
    ensures { out.new ≡
        at_front (take_open (scheme_in sizes) (decode_as (scheme_in sizes) state.now) (body_of f.now) no_files).written out.old }
{
    let parameters = parameters_of(state);
    out[..HEADER_BYTES].copy_from_slice(&header_bytes(MASK, parameters));
    write_mask_of(
        sizes,
        parameters.side,
        state,
        f,
        &mut out[HEADER_BYTES..HEADER_BYTES + sizes.inner_bytes],
    );
}

// This and the next are not inlined, so that a step at a deal needs no room for what they call.
// Takes the other's open frame: the own mask goes to the mask frame and from there to its room, and halves and deal stay.
#[inline(never)]
fn open_in_place(sizes: Sizes, state: &mut [u8], f: &[u8], out: &mut [u8])
    requires { (length state.old ≡ state_bytes) × (length f.now ≡ frame_bytes (scheme_in sizes) open_kind)
        × (frame_bytes (scheme_in sizes) open_kind ≤ length out.old) }
    ensures state { state.new ≡
        encode_state (take_open (scheme_in sizes) (decode_as (scheme_in sizes) state.old) (body_of f.now) no_files).next }
    ensures output { out.new ≡
        at_front (take_open (scheme_in sizes) (decode_as (scheme_in sizes) state.old) (body_of f.now) no_files).written out.old }
{
    let parameters = parameters_of(state);
    write_mask_frame(sizes, state, f, out);
    keep_halves(sizes, parameters, WAITS_FOR_MASK, state);
    keep_deal(sizes, state);
    put_room(
        &out[HEADER_BYTES..HEADER_BYTES + sizes.inner_bytes],
        state,
        OWN_MASK_AT,
        STRING_ROOM,
    );
}

// Takes the other's mask frame: writes the share frame, and clears the slice.
#[inline(never)]
fn mask_in_place(sizes: Sizes, state: &mut [u8], f: &[u8], file: &[u8], out: &mut [u8])
    requires { (length state.old ≡ state_bytes) × (length f.now ≡ frame_bytes (scheme_in sizes) mask_kind)
        × (frame_bytes (scheme_in sizes) share_kind ≤ length out.old) × (length file.now ≡ (scheme_in sizes).rows_reading.bytes) }
    ensures state { state.new ≡
        encode_state (take_mask (scheme_in sizes) (decode_as (scheme_in sizes) state.old) (body_of f.now) (files file.now)).next }
    ensures output { out.new ≡
        at_front (take_mask (scheme_in sizes) (decode_as (scheme_in sizes) state.old) (body_of f.now) (files file.now)).written out.old }
{
    let m = sizes.inner_bytes;
    let parameters = parameters_of(state);
    write_share_frame(
        sizes,
        parameters,
        &state[OWN_MASK_AT..OWN_MASK_AT + m],
        &f[HEADER_BYTES..HEADER_BYTES + m],
        &state[R_AT..R_AT + 2 * m],
        file,
        out,
    );
    clear(sizes.set, parameters, FINISHED, state);
}

// Takes a frame that is accepted: the slice has the next state afterwards, and `out` the frame to send, whose length is returned.
pub fn advance_slice(sizes: Sizes, state: &mut [u8], f: &[u8], file: &[u8], out: &mut [u8]) -> usize
    requires { (length state.old ≡ state_bytes)
        × (step_number (scheme_in sizes) (carried_parameters state.old) (kind_of state.old) f.now (files file.now) (length out.old) ≡ 0) }
    ensures count { result ≡ length (advance (scheme_in sizes) (decode_as (scheme_in sizes) state.old) (body_of f.now) (files file.now)).written }
    ensures state { state.new ≡
        encode_state (advance (scheme_in sizes) (decode_as (scheme_in sizes) state.old) (body_of f.now) (files file.now)).next }
    ensures output { out.new ≡
        at_front (advance (scheme_in sizes) (decode_as (scheme_in sizes) state.old) (body_of f.now) (files file.now)).written out.old }
{
    // Stays a number: any byte may stand there in a state that no beginning made, and an enum would read it first.
    match state[0] {
        WAITS_FOR_DEAL => {
            deal_in_place(sizes, state, f, out);
            frame_bytes(sizes, OPEN)
        }
        WAITS_FOR_OPEN => {
            open_in_place(sizes, state, f, out);
            frame_bytes(sizes, MASK)
        }
        _ => {
            mask_in_place(sizes, state, f, file, out);
            frame_bytes(sizes, SHARE)
        }
    }
}
