// The calls of the C interface on units, which `protocol_c` exports: a state stands in a slice that the caller keeps. Each function is
// total over slices, answers a number of the table, and neither allocates nor keeps a pointer.
// Stays with numbers, and a count behind a reference: the C interface, which `protocol_c` exports as it is.
ghost use Rattle.std.specs.Prelude.{◌≡◌, ◌≢◌, [], cond, length, IfOk, OnErr};
ghost use Rattle.numbers.specs.Number.{at_front};
ghost use Rattle.numbers.specs.Refusals.{answer_number};
ghost use Rattle.numbers.specs.Sets.{is_set};
ghost use Rattle.pair_model.specs.Scheme.{files};
ghost use Rattle.pair_model.specs.Base.{scheme_of, InEachSet};
ghost use Rattle.pair_model.specs.Frame.{parameters};
ghost use Rattle.pair_model.specs.Unit.{begun, idle, unit_begin};
ghost use Rattle.pair_model.specs.Run.{protocol};
ghost use Rattle.pair_model.specs.Theorem.{Begins, Correctness, Privacy, ThreeFrames};
ghost use Rattle.pair_model.specs.Evidence.{Evidence};
ghost use Rattle.pair_model.specs.StateSlice.{state_bytes, encode_state, decode_state, slice_step, pair_begin_number, pair_begin_state, pair_step_number, pair_step_state, pair_step_written};
ghost use Rattle.pair_model.specs.Calls.{StatesFit, CallsAreRuns};

use numbers::refusal::{Refusal, answer_number};
use pair_frames::sets::{is_set, sizes_of};
use pair_frames::sizes::{SET_AT, STATE_BYTES};
use pair_states::beginnings::begin_slice;
use pair_steps::step::step_slice;

// Begins a unit of a set in a slice. A refused beginning writes the idle state, since an old state would go on accepting frames; only a slice
// of another length stays as it was. The slice then stands for the model's state, and lists of both calls are runs of the theorem.
pub fn pair_begin(
    set: u32,
    side: u32,
    session: u32,
    line: u8,
    key: &[u8],
    label: &[u8],
    state: &mut [u8],
) -> u32
    ensures result { result ≡ pair_begin_number set (parameters side session line) key.now label.now state.old }
    ensures state { state.new ≡ pair_begin_state set (parameters side session line) key.now label.now state.old }
    ensures accepted { result ≡ 0 → state.new ≡ encode_state (begun (scheme_of set) (parameters side session line) key.now label.now) }
    ensures refused { result ≢ 0 → length state.old ≡ state_bytes → state.new ≡ encode_state idle }
    ensures wrong_length { length state.old ≢ state_bytes → (result ≡ cond (is_set set) 1 14) × (state.new ≡ state.old) }
    ensures next { length state.old ≡ state_bytes
        → decode_state state.new ≡ (unit_begin set (parameters side session line) key.now label.now).next }
    ensures states_fit { StatesFit }
    ensures same_protocol { CallsAreRuns }
    ensures begins { InEachSet (λ S. Begins (protocol S)) }
    ensures privacy { InEachSet (λ S. Privacy (protocol S)) }
{
    if state.len() == STATE_BYTES {
        return answer_number(begin_slice(set, side, session, line, key, label, state));
    }
    if is_set(set) {
        Refusal::WrongLength.number()
    } else {
        Refusal::NoSet.number()
    }
}

// The step of the unit in a slice, which may have any length.
fn step_state(state: &mut [u8], f: &[u8], file: &[u8], out: &mut [u8]) -> Result<u64, Refusal>
    ensures result { answer_number result ≡ pair_step_number state.old f.now (files file.now) (length out.old) }
    ensures state { state.new ≡ pair_step_state state.old f.now (files file.now) (length out.old) }
    ensures output { out.new ≡
        at_front (pair_step_written state.old f.now (files file.now) (length out.old)) out.old }
    ensures count { IfOk result (λ n. n ≡ length (pair_step_written state.old f.now (files file.now) (length out.old))) }
    ensures none { OnErr result (pair_step_written state.old f.now (files file.now) (length out.old) ≡ []) }
{
    if state.len() != STATE_BYTES {
        return Err(Refusal::WrongLength);
    }
    let sizes = sizes_of(u32::from(state[SET_AT]));
    step_slice(sizes, state, f, file, out)
}

// One step of the unit in a slice, in its set: what it writes goes to `out`, and how much to `count`; a refused step leaves the slice as it
// was. The theorem stands here for each set: the slice stands for the model's next state.
pub fn pair_step(state: &mut [u8], f: &[u8], file: &[u8], out: &mut [u8], count: &mut u64) -> u32
    ensures result { result ≡ pair_step_number state.old f.now (files file.now) (length out.old) }
    ensures state { state.new ≡ pair_step_state state.old f.now (files file.now) (length out.old) }
    ensures output { out.new ≡
        at_front (pair_step_written state.old f.now (files file.now) (length out.old)) out.old }
    ensures count { count.new ≡ length (pair_step_written state.old f.now (files file.now) (length out.old)) }
    ensures next { length state.old ≡ state_bytes
        → decode_state state.new ≡
        (slice_step state.old f.now (files file.now) (length out.old)).next }
    ensures same_protocol { CallsAreRuns }
    ensures correctness { InEachSet (λ S. Correctness (protocol S)) }
    ensures privacy { InEachSet (λ S. Privacy (protocol S)) }
    ensures three_frames { InEachSet (λ S. ThreeFrames (protocol S)) }
    ensures evidence { Evidence }
{
    let written = step_state(state, f, file, out);
    *count = written.unwrap_or(0);
    answer_number(written)
}
