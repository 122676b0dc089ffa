// The driver, and the crank.
ghost use Rattle.std.specs.Prelude.{◌≡◌, ◌≤◌, [], ◌∷◌, length, max};
ghost use Rattle.ff_hands.specs.Windups.{cold};
ghost use Rattle.clock_lines.specs.Readings.{newest};
ghost use Rattle.replay_run.specs.Drives.{StepsBy, IsDriven, Turned};
ghost use Rattle.replay_run.specs.Fitting.{StepFits, PlanFits};
ghost use Rattle.replay_run.specs.Journals.{greatest};

use crate::plan::PlanStep;
use rad_io::Gate;
use tick_desk::{Crank, Pen};

// Winds a clock by a step, at the step's count, or past it where a crank is out. Where the step fits the
// clock, its order is not refused.
pub(crate) fn step(pen: &mut Pen, s: &PlanStep)
    requires spare { 1 ≤ pen.old.spare }
    requires fits { StepFits pen.old.top (newest pen.old.journal).est.update_ffcount s.now }
    ensures { StepsBy s.now pen.old pen.new }
{
    pen.advance(s.to);
    match pen.wind(s.order) {
        Ok(_) => {}
        Err(_) => unreachable!(),
    }
}

// Winds a clock that was never set by each step, in their order.
pub(crate) fn drive<G: Gate>(gate: &G, pen: &mut Pen, steps: &[PlanStep])
    requires journal { pen.old.journal ≡ cold ∷ [] }
    requires top { pen.old.top ≡ 0 }
    requires spare { length steps.now ≤ pen.old.spare }
    requires fits { PlanFits 0 0 steps.now }
    ensures { IsDriven steps.now pen.old pen.new }
{
    for (k, s) in steps.iter().enumerate() {
        gate.between_ticks(k as u64 + 1);
        step(pen, s);
    }
}

// Raises the counter to each step's count, in their order.
fn raise_all(crank: &mut Crank, steps: &[PlanStep])
    requires { PlanFits 0 0 steps.now }
    ensures { crank.new ≡
        record crank.old { top = max crank.old.top (greatest steps.now); met = crank.new.met } }
{
    for s in steps {
        crank.raise(s.to);
    }
}

// The same by a crank that is not always there.
pub(crate) fn turn(crank: &mut Option<Crank>, steps: &[PlanStep])
    requires { PlanFits 0 0 steps.now }
    ensures { Turned steps.now crank.old crank.new }
{
    if let Some(c) = crank {
        raise_all(c, steps);
    }
}
