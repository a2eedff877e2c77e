// The step of a unit.
ghost use Rattle.std.specs.Prelude.{◌≡◌, cond, eqb, length};
ghost use Rattle.numbers.specs.Number.{at_front};
ghost use Rattle.numbers.specs.Refusals.{answer_number};
ghost use Rattle.pair_model.specs.Scheme.{files};
ghost use Rattle.pair_model.specs.Base.{InEachSet};
ghost use Rattle.pair_model.specs.Unit.{step, unit_step};
ghost use Rattle.pair_model.specs.Run.{protocol};
ghost use Rattle.pair_model.specs.Theorem.{Correctness, Privacy, ThreeFrames};
ghost use Rattle.pair_model.specs.Evidence.{Evidence};
ghost use Rattle.pair_frames.specs.Schemes.{scheme_in};
ghost use Rattle.pair_units.specs.Units.{state_at, state_of, unit_of};

use crate::padding::padded;
use crate::state::UnitState;
use crate::steps::{Advanced, advance};
use numbers::refusal::Refusal;
use pair_conditions::conditions::check_step;
use pair_frames::sets::sizes_of;
use pair_frames::sizes::Sizes;

// What a step returns, how much it wrote, and the next state.
#[derive(Clone, Copy)]
pub struct Stepped {
    pub result: Result<(), Refusal>,
    pub written: usize,
    pub next: UnitState,
}

// One frame, at these sizes: the answer, how much was written to `out`, and the next state. A refusal keeps every byte of the struct.
fn step_unit(sizes: Sizes, u: UnitState, f: &[u8], file: &[u8], out: &mut [u8]) -> Stepped
    ensures result { answer_number result.result ≡ (step (scheme_in sizes) (state_at sizes u) f.now (files file.now) (length out.old)).result }
    ensures count { result.written ≡ length (step (scheme_in sizes) (state_at sizes u) f.now (files file.now) (length out.old)).written }
    ensures next { result.next ≡
        cond (eqb (answer_number result.result) 0)
        (unit_of (step (scheme_in sizes) (state_at sizes u) f.now (files file.now) (length out.old)).next)
        u }
    ensures output { out.new ≡
        at_front (step (scheme_in sizes) (state_at sizes u) f.now (files file.now) (length out.old)).written
        out.old }
{
    if let Err(why) = check_step(sizes, u.parameters, u.stage, f, file, out.len()) {
        return Stepped {
            result: Err(why),
            written: 0,
            next: u,
        };
    }
    let Advanced { written, next } = advance(sizes, u, f, file, out);
    Stepped {
        result: Ok(()),
        written,
        next: padded(sizes, next),
    }
}

impl UnitState {
    // One frame, at the sizes of the unit's set. The last four clauses are the theorem over all lists of steps and what shows that it says
    // something, so that no part can be dropped unseen.
    pub fn step(self, f: &[u8], file: &[u8], out: &mut [u8]) -> Stepped
        ensures result { answer_number result.result ≡ (unit_step (state_of self) f.now (files file.now) (length out.old)).result }
        ensures count { result.written ≡ length (unit_step (state_of self) f.now (files file.now) (length out.old)).written }
        ensures next { result.next ≡
            cond (eqb (answer_number result.result) 0)
            (unit_of (unit_step (state_of self) f.now (files file.now) (length out.old)).next)
            self }
        ensures output { out.new ≡ at_front (unit_step (state_of self) f.now (files file.now) (length out.old)).written out.old }
        ensures correctness { InEachSet (λ S. Correctness (protocol S)) }
        ensures privacy { InEachSet (λ S. Privacy (protocol S)) }
        ensures three_frames { InEachSet (λ S. ThreeFrames (protocol S)) }
        ensures evidence { Evidence }
    {
        let sizes = sizes_of(u32::from(self.set));
        step_unit(sizes, self, f, file, out)
    }
}
