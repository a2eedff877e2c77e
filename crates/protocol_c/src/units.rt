// For C: the units, whose states stand in slices that the caller keeps.
ghost use Rattle.std.specs.Prelude.{◌≡◌, ◌≢◌, cond, length};
ghost use Rattle.numbers.specs.Number.{at_front};
ghost use Rattle.numbers.specs.Sets.{is_set};
ghost use Rattle.pair_model.specs.Scheme.{files};
ghost use Rattle.pair_model.specs.Base.{scheme_of, InEachSet};
ghost use Rattle.pair_model.specs.Frame.{parameters};
ghost use Rattle.pair_model.specs.Unit.{begun, idle, unit_begin};
ghost use Rattle.pair_model.specs.Run.{protocol};
ghost use Rattle.pair_model.specs.Theorem.{Begins, Correctness, Privacy, ThreeFrames};
ghost use Rattle.pair_model.specs.Evidence.{Evidence};
ghost use Rattle.pair_model.specs.StateSlice.{state_bytes, encode_state, decode_state, slice_step, pair_begin_number, pair_begin_state, pair_step_number, pair_step_state, pair_step_written};
ghost use Rattle.pair_model.specs.Calls.{StatesFit, CallsAreRuns};

use protocol::units;

// Begins a unit of a set in a slice.
#[unsafe(no_mangle)]
pub extern "C" fn pair_begin(
    set: u32,
    side: u32,
    session: u32,
    line: u8,
    key: &[u8],
    label: &[u8],
    state: &mut [u8],
) -> u32
    ensures result { result ≡ pair_begin_number set (parameters side session line) key.now label.now state.old }
    ensures state { state.new ≡ pair_begin_state set (parameters side session line) key.now label.now state.old }
    ensures accepted { result ≡ 0 → state.new ≡ encode_state (begun (scheme_of set) (parameters side session line) key.now label.now) }
    ensures refused { result ≢ 0 → length state.old ≡ state_bytes → state.new ≡ encode_state idle }
    ensures wrong_length { length state.old ≢ state_bytes → (result ≡ cond (is_set set) 1 14) × (state.new ≡ state.old) }
    ensures next { length state.old ≡ state_bytes
        → decode_state state.new ≡ (unit_begin set (parameters side session line) key.now label.now).next }
    ensures states_fit { StatesFit }
    ensures same_protocol { CallsAreRuns }
    ensures begins { InEachSet (λ S. Begins (protocol S)) }
    ensures privacy { InEachSet (λ S. Privacy (protocol S)) }
{
    units::pair_begin(set, side, session, line, key, label, state)
}

// One step of the unit in a slice: what it writes goes to `out`, and how much to `count`.
#[unsafe(no_mangle)]
pub extern "C" fn pair_step(
    state: &mut [u8],
    f: &[u8],
    file: &[u8],
    out: &mut [u8],
    count: &mut u64,
) -> u32
    ensures result { result ≡ pair_step_number state.old f.now (files file.now) (length out.old) }
    ensures state { state.new ≡ pair_step_state state.old f.now (files file.now) (length out.old) }
    ensures output { out.new ≡
        at_front (pair_step_written state.old f.now (files file.now) (length out.old)) out.old }
    ensures count { count.new ≡ length (pair_step_written state.old f.now (files file.now) (length out.old)) }
    ensures next { length state.old ≡ state_bytes
        → decode_state state.new ≡
        (slice_step state.old f.now (files file.now) (length out.old)).next }
    ensures same_protocol { CallsAreRuns }
    ensures correctness { InEachSet (λ S. Correctness (protocol S)) }
    ensures privacy { InEachSet (λ S. Privacy (protocol S)) }
    ensures three_frames { InEachSet (λ S. ThreeFrames (protocol S)) }
    ensures evidence { Evidence }
{
    units::pair_step(state, f, file, out, count)
}
