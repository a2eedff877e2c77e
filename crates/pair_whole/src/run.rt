// What the program does as one call: the dealer and both units in session 1 and line 0, frame by frame, and the counter's sum.
// What must be accepted is not judged again: the file is checked once, and no branch depends on the shares.
ghost use Rattle.std.specs.Prelude.{◌≡◌, length, take};
ghost use Rattle.numbers.specs.Number.{output};
ghost use Rattle.numbers.specs.Refusals.{answer_number};
ghost use Rattle.pair_model.specs.Scheme.{files, no_files, side0, side1};
ghost use Rattle.pair_model.specs.Base.{base};
ghost use Rattle.pair_model.specs.Dealer.{deal_frame};
ghost use Rattle.pair_model.specs.Frame.{parameters, mask_kind, frame_bytes, code_bytes, body_of};
ghost use Rattle.pair_model.specs.Unit.{begin, least_output, step_number, step, take_mask};
ghost use Rattle.pair_model.specs.WholeRun.{program_shared, input_key, input_label, input_tape, input_file, run_number, run_code};
ghost use Rattle.pair_model.specs.Internal.Exchange.{Sends, RunFits};
ghost use Rattle.pair_frames.specs.Headers.{parameters_in};
ghost use Rattle.pair_frames.specs.Numbers.{set_sizes};
ghost use Rattle.pair_units.specs.Units.{state_by};

use numbers::refusal::Refusal;
use pair_counter::join::add_shares;
use pair_dealer::dealer::deal;
use pair_frames::sizes::{
    DEAL_FRAME_BYTES, DEALT_BYTES, INPUT_BYTES, INPUT_FILE, INPUT_KEY_0, INPUT_KEY_1,
    INPUT_LABEL_0, INPUT_LABEL_1, INPUT_TAPE, MASK_FRAME_BYTES, OPEN_FRAME_BYTES, SET_1,
    SHARE_FRAME_BYTES,
};
use pair_input::input::check_run;
use pair_units::begin::{Begun, begin_unit};
use pair_units::state::UnitState;
use pair_units::steps::{Advanced, advance, take_mask};

// What a unit sends, in the front of the least output slice, and the unit afterwards.
#[derive(Clone, Copy)]
struct Sent {
    frame: [u8; OPEN_FRAME_BYTES],
    next: UnitState,
}

// A step at a frame that is accepted, so that it is not judged again.
fn send(u: UnitState, f: &[u8], file: &[u8]) -> Sent
    requires { step_number base (parameters_in u.parameters) u.stage f.now (files file.now) (least_output base) ≡ 0 }
    ensures { Sends (step base (state_by (set_sizes 1) u) f.now (files file.now) (least_output base)) result.frame (state_by (set_sizes 1) result.next) }
{
    let mut frame = [0u8; OPEN_FRAME_BYTES];
    let Advanced { next, .. } = advance(SET_1, u, f, file, &mut frame);
    Sent { frame, next }
}

// Each unit takes what the other has sent.
fn exchange(first: Sent, second: Sent, file: &[u8]) -> (Sent, Sent)
    requires { (step_number base (parameters_in first.next.parameters) first.next.stage second.frame (files file.now) (least_output base) ≡ 0)
        × (step_number base (parameters_in second.next.parameters) second.next.stage first.frame (files file.now) (least_output base) ≡ 0) }
    ensures first { Sends (step base (state_by (set_sizes 1) first.next) second.frame (files file.now) (least_output base)) result.0.frame (state_by (set_sizes 1) result.0.next) }
    ensures second { Sends (step base (state_by (set_sizes 1) second.next) first.frame (files file.now) (least_output base)) result.1.frame (state_by (set_sizes 1) result.1.next) }
{
    (
        send(first.next, &second.frame, file),
        send(second.next, &first.frame, file),
    )
}

// The beginning of unit `side` and its step at the deal.
fn start(side: u32, key: &[u8], label: &[u8], f: &[u8], file: &[u8]) -> Sent
    requires { step_number base (begin base (parameters side 1 0) key.now label.now).next.parameters (begin base (parameters side 1 0) key.now label.now).next.stage
        f.now (files file.now) (least_output base) ≡ 0 }
    ensures { Sends (step base (begin base (parameters side 1 0) key.now label.now).next f.now (files file.now) (least_output base))
        result.frame (state_by (set_sizes 1) result.next) }
{
    let Begun { next, .. } = begin_unit(SET_1, side, 1, 0, key, label);
    send(next, f, file)
}

// The deal of the input's tape, and both units' first step.
fn first_round(input: &[u8]) -> (Sent, Sent)
    requires { RunFits input.now (code_bytes base) }
    ensures first { Sends
        (step base (begin base (parameters 0 1 0) (input_key base input.now side0) (input_label base input.now side0)).next
        (deal_frame base program_shared no_files (input_tape base input.now) side0) (files (input_file base input.now)) (least_output base))
        result.0.frame (state_by (set_sizes 1) result.0.next) }
    ensures second { Sends
        (step base (begin base (parameters 1 1 0) (input_key base input.now side1) (input_label base input.now side1)).next
        (deal_frame base program_shared no_files (input_tape base input.now) side1) (files (input_file base input.now)) (least_output base))
        result.1.frame (state_by (set_sizes 1) result.1.next) }
{
    let mut dealt = [0u8; DEALT_BYTES];
    deal(1, 1, 0, &input[INPUT_TAPE..INPUT_FILE], &mut dealt).unwrap();
    let file = &input[INPUT_FILE..INPUT_BYTES];
    let first = start(
        0,
        &input[INPUT_KEY_0..INPUT_KEY_1],
        &input[INPUT_LABEL_0..INPUT_LABEL_1],
        &dealt[..DEAL_FRAME_BYTES],
        file,
    );
    let second = start(
        1,
        &input[INPUT_KEY_1..INPUT_LABEL_0],
        &input[INPUT_LABEL_1..INPUT_TAPE],
        &dealt[DEAL_FRAME_BYTES..DEALT_BYTES],
        file,
    );
    (first, second)
}

// A unit's share frame: what its step writes at the mask frame in the front of what the other has sent.
fn share_frame(u: UnitState, sent: &[u8; OPEN_FRAME_BYTES], file: &[u8]) -> [u8; SHARE_FRAME_BYTES]
    requires { length file.now ≡ base.rows_reading.bytes }
    ensures { result ≡ (take_mask base (state_by (set_sizes 1) u) (body_of (take (frame_bytes base mask_kind) sent.now)) (files file.now)).written }
{
    let mut frame = [0u8; SHARE_FRAME_BYTES];
    take_mask(SET_1, u, &sent[..MASK_FRAME_BYTES], file, &mut frame);
    frame
}

// Runs both units on an input that fits, and adds their shares.
fn run_units(input: &[u8], out: &mut [u8])
    requires { RunFits input.now (length out.old) }
    ensures { out.new ≡ output 0 (run_code base input.now) out.old }
{
    let file = &input[INPUT_FILE..INPUT_BYTES];
    let (first, second) = first_round(input);
    let (first, second) = exchange(first, second, file);
    let share0 = share_frame(first.next, &second.frame, file);
    let share1 = share_frame(second.next, &first.frame, file);
    add_shares(SET_1, &share0, &share1, out);
}

// What the input is refused for, or the code, by running the dealer and both units in session 1 and line 0.
pub fn run(input: &[u8], out: &mut [u8]) -> Result<(), Refusal>
    ensures result { answer_number result ≡ run_number input.now (length out.old) }
    ensures output { out.new ≡ output (answer_number result) (run_code base input.now) out.old }
{
    check_run(input, out.len())?;
    run_units(input, out);
    Ok(())
}
