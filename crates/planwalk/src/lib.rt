// The walk: a plan is judged, and then stepped from its beginning until a colour is first met or the allowance is spent.
#![tactic(auto)]

ghost use Rattle.std.specs.Prelude.{◌≡◌, ◌<◌, length};
ghost use Rattle.limits.specs.Ceilings.{colours_most};
ghost use Rattle.model.specs.Automaton.{bit};
ghost use Rattle.model.specs.Lists.{lists_of, held};
ghost use Rattle.judge.specs.Shape.{plan_of};
ghost use Rattle.judge.specs.Judged.{ArcNumbers};
ghost use Rattle.planwalk.specs.Walked.{walk_answer, steps_of_plan, position_after, first_met, walk_of, walked_answer};

use judge::{GivenPlan, judge_model};
use model::{Given, Model, has_bit};
use refusals::{Answer, Refusal};

// How a walk ends: the colour was met, with the steps made, the meeting step counted; or the allowance was spent, with the steps made.
#[derive(Clone, Copy)]
pub enum Walked {
    Met(u16),
    Spent(u16),
}

// The number and the detail of a walk, whether the colour was met, and the steps made. `walk_answer` gives document 02's values by it; calls hand
// `Walked` on.
#[derive(Clone, Copy)]
pub struct WalkAnswer {
    pub answer: Answer,
    pub met: bool,
    pub steps: u16,
}

impl From<Result<Walked, Refusal>> for WalkAnswer {
    ghost from_gives = { λ walked told. told ≡ walk_answer walked };

    // A refusal has its number and detail, and no step; the others have number 0.
    fn from(walked: Result<Walked, Refusal>) -> WalkAnswer {
        match walked {
            Ok(Walked::Met(made)) => WalkAnswer {
                answer: Answer::from(Ok(())),
                met: true,
                steps: made,
            },
            Ok(Walked::Spent(made)) => WalkAnswer {
                answer: Answer::from(Ok(())),
                met: false,
                steps: made,
            },
            Err(refusal) => WalkAnswer {
                answer: Answer::from(refusal),
                met: false,
                steps: 0,
            },
        }
    }
}

// Whether bit j of a colour byte is set: the arc meets colour j.
fn meets_colour(colours: u8, j: u32) -> bool
    requires { j < colours_most }
    ensures { result ≡ bit colours j }
{
    has_bit(u64::from(colours), j as usize)
}

// The position after one, the cycle repeating: behind the last arc stands the cycle's first, at position p.
fn position_after(at: usize, p: usize, length: usize) -> usize
    requires { (at < length) × (p < length) }
    ensures { result ≡ position_after at p length }
{
    if at + 1 < length {
        return at + 1;
    }
    p
}

// The steps of a plan from its beginning, the cycle repeating, until one meets colour j or the allowance is spent. The position is kept by hand:
// tried with the cycle chained behind the plan, repeated and taken `allowance` times, and the proof that it yields arcs of the model did not close.
fn step_until(model: &Model, plan: &[u8], p: usize, j: u32, allowance: u16) -> Walked
    requires { ArcNumbers model.now plan.now × (p < length plan.now) × (j < colours_most) }
    ensures { result ≡ first_met (held model.now) j (steps_of_plan (plan_of p plan.now) allowance) 0 }
{
    let mut at = 0;
    for steps in 0..allowance {
        let arc = model.arcs[plan[at] as usize];
        if meets_colour(arc.colours, j) {
            return Walked::Met(steps + 1);
        }
        at = position_after(at, p, plan.len());
    }
    Walked::Spent(allowance)
}

// A plan is judged, with the barred colours, then 18 is looked at, and then the plan is stepped until colour j, barred or not, is first met or
// the allowance is spent. For all numbers, lists and plans.
#[tactic(auto, using(crate::proofs::Steps::walk_unfit, crate::proofs::Steps::walk_unjudged, crate::proofs::Steps::walk_uncoloured, crate::proofs::Steps::walk_stepped))]
pub fn walk(
    given: &Given,
    c: u32,
    b: u32,
    barred: u8,
    plan: &GivenPlan,
    j: u32,
    allowance: u16,
) -> Result<Walked, Refusal>
    ensures walked { result ≡ walk_of given.now.n given.now.start given.now.k (lists_of given.now.lists) barred b c plan.now.p plan.now.q plan.now.arcs.now j allowance }
    ensures answer { walk_answer result ≡ walked_answer given.now.n given.now.start given.now.k (lists_of given.now.lists) barred b c plan.now.p plan.now.q plan.now.arcs.now j allowance }
{
    let judged = judge_model(given, c, b, barred, plan)?;
    judged.verdict?;
    if j >= given.k {
        return Err(Refusal::NoSuchColour);
    }
    Ok(step_until(&judged.model, plan.arcs, plan.p as usize, j, allowance))
}
