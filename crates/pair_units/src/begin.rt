// The beginning of a unit, and states without a deal.
ghost use Rattle.std.specs.Prelude.{◌≡◌, length};
ghost use Rattle.numbers.specs.Refusals.{answer_number};
ghost use Rattle.pair_model.specs.Base.{InEachSet};
ghost use Rattle.pair_model.specs.Frame.{parameters};
ghost use Rattle.pair_model.specs.Unit.{state, halves, nothing, idle, begin, unit_begin};
ghost use Rattle.pair_model.specs.Run.{protocol};
ghost use Rattle.pair_model.specs.Theorem.{Begins, Privacy};
ghost use Rattle.pair_frames.specs.Headers.{parameters_in};
ghost use Rattle.pair_frames.specs.Schemes.{scheme_in};
ghost use Rattle.pair_units.specs.Units.{unit_of};

use crate::state::UnitState;
use linear_words::copies::put;
use numbers::refusal::Refusal;
use pair_conditions::begin::check_begin;
use pair_conditions::stages::{IDLE, WAITS_FOR_DEAL};
use pair_frames::parameters::Parameters;
use pair_frames::sets::named_sizes;
use pair_frames::sizes::{SET_1, STRING_ROOM, Sizes, TRITS_ROOM};

// A state with these halves, and no deal.
pub fn with_halves(
    sizes: Sizes,
    parameters: Parameters,
    stage: u8,
    key: &[u8],
    label: &[u8],
) -> UnitState
    requires { (length key.now ≡ sizes.key_bytes) × (length label.now ≡ sizes.key_bytes) }
    ensures { result ≡ unit_of (state sizes.set (parameters_in parameters) stage (halves (scheme_in sizes) key.now label.now)) }
{
    let mut key_half = [0u8; STRING_ROOM];
    let mut label_half = [0u8; STRING_ROOM];
    put(key, &mut key_half, 0);
    put(label, &mut label_half, 0);
    UnitState {
        set: sizes.set,
        parameters,
        stage,
        key: key_half,
        label: label_half,
        key_mask: [0u8; STRING_ROOM],
        label_mask: [0u8; STRING_ROOM],
        z: [0u8; STRING_ROOM],
        r: [0u8; TRITS_ROOM],
        own_mask: [0u8; STRING_ROOM],
    }
}

// Zeros for all but the set, the parameters and the stage.
pub fn cleared(sizes: Sizes, parameters: Parameters, stage: u8) -> UnitState
    ensures { result ≡ unit_of (state sizes.set (parameters_in parameters) stage (nothing (scheme_in sizes))) }
{
    let zeros = [0u8; STRING_ROOM];
    let half = &zeros[..sizes.key_bytes];
    with_halves(sizes, parameters, stage, half, half)
}

// The idle state, of set 1 and line 0 whatever was named.
fn idle() -> UnitState
    ensures { result ≡ unit_of idle }
{
    let nobody = Parameters {
        side: 0,
        session: 0,
        line: 0,
    };
    cleared(SET_1, nobody, IDLE)
}

// What a beginning returns and gives: a refused one gives the idle state.
#[derive(Clone, Copy)]
pub struct Begun {
    pub result: Result<(), Refusal>,
    pub next: UnitState,
}

// A unit of this side, session and line with these halves, or the idle state.
pub fn begin_unit(
    sizes: Sizes,
    side: u32,
    session: u32,
    line: u8,
    key: &[u8],
    label: &[u8],
) -> Begun
    ensures result { answer_number result.result ≡ (begin (scheme_in sizes) (parameters side session line) key.now label.now).result }
    ensures next { result.next ≡ unit_of (begin (scheme_in sizes) (parameters side session line) key.now label.now).next }
{
    if let Err(why) = check_begin(sizes.key_bytes, side, key, label) {
        return Begun {
            result: Err(why),
            next: idle(),
        };
    }
    let parameters = Parameters {
        side: side as u8,
        session,
        line,
    };
    Begun {
        result: Ok(()),
        next: with_halves(sizes, parameters, WAITS_FOR_DEAL, key, label),
    }
}

// The same of a set. Beginnings of runs are accepted, and the state that is given stands in the view that `Privacy` speaks of.
pub fn begin(set: u32, side: u32, session: u32, line: u8, key: &[u8], label: &[u8]) -> Begun
    ensures result { answer_number result.result ≡ (unit_begin set (parameters side session line) key.now label.now).result }
    ensures next { result.next ≡ unit_of (unit_begin set (parameters side session line) key.now label.now).next }
    ensures begins { InEachSet (λ S. Begins (protocol S)) }
    ensures privacy { InEachSet (λ S. Privacy (protocol S)) }
{
    match named_sizes(set) {
        Ok(sizes) => begin_unit(sizes, side, session, line, key, label),
        Err(why) => Begun {
            result: Err(why),
            next: idle(),
        },
    }
}
