// A unit's beginning in a slice, and states there that hold no secrets.
ghost use Rattle.std.specs.Prelude.{◌≡◌, ◌++◌, length, OnOk, OnErr};
ghost use Rattle.linear_model.specs.Bits.{zeros};
ghost use Rattle.pair_frames.specs.Headers.{parameters_in};
ghost use Rattle.pair_frames.specs.Schemes.{scheme_in};
ghost use Rattle.numbers.specs.Refusals.{answer_number};
ghost use Rattle.pair_model.specs.Base.{scheme_of};
ghost use Rattle.pair_model.specs.Scheme.{layout_bytes};
ghost use Rattle.pair_model.specs.Frame.{parameters};
ghost use Rattle.pair_model.specs.Unit.{begun, idle, unit_begin};
ghost use Rattle.pair_model.specs.StateSlice.{rooms, state_header, state_bytes, encode_state};

use numbers::refusal::Refusal;
use pair_conditions::begin::check_begin;
use pair_conditions::stages::{IDLE, WAITS_FOR_DEAL};
use pair_frames::parameters::Parameters;
use pair_frames::sets::named_sizes;
use pair_frames::sizes::{KEY_AT, KEY_MASK_AT, LABEL_AT, STATE_BYTES, STRING_ROOM, Sizes};
use pair_rooms::keeping::put_header;
use pair_rooms::rooms::{clear_between, put_room};

// Writes a state with zeros for all but its header.
pub fn clear(set: u8, parameters: Parameters, stage: u8, s: &mut [u8])
    requires { length s.old ≡ state_bytes }
    ensures { s.new ≡ state_header set (parameters_in parameters) stage ++ zeros (layout_bytes rooms) }
{
    put_header(set, parameters, stage, s);
    clear_between(s, KEY_AT, STATE_BYTES);
}

// Writes the idle state.
fn make_idle(s: &mut [u8])
    requires { length s.old ≡ state_bytes }
    ensures { s.new ≡ encode_state idle }
{
    let nobody = Parameters {
        side: 0,
        session: 0,
        line: 0,
    };
    clear(1, nobody, IDLE, s);
}

// Writes a state with these halves that waits for a deal.
fn begin_in_place(sizes: Sizes, parameters: Parameters, key: &[u8], label: &[u8], s: &mut [u8])
    requires { (length s.old ≡ state_bytes) × (length key.now ≡ sizes.key_bytes)
        × (length label.now ≡ sizes.key_bytes) }
    ensures { s.new ≡ encode_state (begun (scheme_in sizes) (parameters_in parameters) key.now label.now) }
{
    put_header(sizes.set, parameters, WAITS_FOR_DEAL, s);
    put_room(key, s, KEY_AT, STRING_ROOM);
    put_room(label, s, LABEL_AT, STRING_ROOM);
    clear_between(s, KEY_MASK_AT, STATE_BYTES);
}

// Begins a unit of a named set in a slice, which stays as it was where that is refused.
fn begin_named(
    set: u32,
    side: u32,
    session: u32,
    line: u8,
    key: &[u8],
    label: &[u8],
    state: &mut [u8],
) -> Result<(), Refusal>
    requires { length state.old ≡ state_bytes }
    ensures result { answer_number result ≡ (unit_begin set (parameters side session line) key.now label.now).result }
    ensures begun { OnOk result (state.new ≡ encode_state (begun (scheme_of set) (parameters side session line) key.now label.now)) }
    ensures refused { OnErr result (state.new ≡ state.old) }
{
    let sizes = named_sizes(set)?;
    check_begin(sizes.key_bytes, side, key, label)?;
    let parameters = Parameters {
        side: side as u8,
        session,
        line,
    };
    begin_in_place(sizes, parameters, key, label, state);
    Ok(())
}

// The same, but that a refused beginning writes the idle state.
pub fn begin_slice(
    set: u32,
    side: u32,
    session: u32,
    line: u8,
    key: &[u8],
    label: &[u8],
    state: &mut [u8],
) -> Result<(), Refusal>
    requires { length state.old ≡ state_bytes }
    ensures result { answer_number result ≡ (unit_begin set (parameters side session line) key.now label.now).result }
    ensures state { state.new ≡ encode_state (unit_begin set (parameters side session line) key.now label.now).next }
{
    let began = begin_named(set, side, session, line, key, label, state);
    if began.is_err() {
        make_idle(state);
    }
    began
}
