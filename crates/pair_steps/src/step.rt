// One step of a unit in a slice, of any sizes that fit.
ghost use Rattle.std.specs.Prelude.{◌≡◌, cond, eqb, length, IfOk};
ghost use Rattle.numbers.specs.Number.{at_front};
ghost use Rattle.numbers.specs.Refusals.{answer_number};
ghost use Rattle.pair_frames.specs.Schemes.{scheme_in};
ghost use Rattle.pair_model.specs.Scheme.{files};
ghost use Rattle.pair_model.specs.Unit.{step};
ghost use Rattle.pair_model.specs.StateSlice.{state_bytes, encode_state, decode_as};

use numbers::refusal::Refusal;
use pair_conditions::conditions::check_step;
use pair_frames::frame::parameters_of;
use pair_frames::sizes::Sizes;
use pair_slices::slices::advance_slice;

// What it writes goes to `out`, and how much is returned; a refused step leaves the slice as it was, and `out` too.
pub fn step_slice(
    sizes: Sizes,
    state: &mut [u8],
    f: &[u8],
    file: &[u8],
    out: &mut [u8],
) -> Result<u64, Refusal>
    requires { length state.old ≡ state_bytes }
    ensures result { answer_number result ≡ (step (scheme_in sizes) (decode_as (scheme_in sizes) state.old) f.now (files file.now) (length out.old)).result }
    ensures state { state.new ≡
        cond (eqb (answer_number result) 0)
        (encode_state (step (scheme_in sizes) (decode_as (scheme_in sizes) state.old) f.now (files file.now) (length out.old)).next)
        state.old }
    ensures output { out.new ≡
        at_front
        (step (scheme_in sizes) (decode_as (scheme_in sizes) state.old) f.now (files file.now) (length out.old)).written
        out.old }
    ensures count { IfOk result (λ n. n ≡
        length (step (scheme_in sizes) (decode_as (scheme_in sizes) state.old) f.now (files file.now) (length out.old)).written) }
{
    check_step(sizes, parameters_of(state), state[0], f, file, out.len())?;
    Ok(advance_slice(sizes, state, f, file, out) as u64)
}
