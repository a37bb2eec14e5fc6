// The calls of the planner for a model.
use crate::models::Model;
use decide::decide;
use judge::{GivenPlan, judge};
use planwalk::{Walked, walk};
use refusals::Refusal;
use search::{Lengths, search};

// What search answers.
pub fn searched(model: &Model, work: &mut [u16], plan: &mut [u8]) -> Result<Lengths, Refusal> {
    search(
        &model.given(),
        model.credit,
        model.bound,
        model.barred,
        model.on,
        work,
        plan,
    )
}

// What the decision answers.
pub fn decided(model: &Model, work: &mut [u32]) -> Result<(), Refusal> {
    decide(
        &model.given(),
        model.credit,
        model.bound,
        model.barred,
        model.on,
        work,
    )
}

// Whether judging says yes to a plan.
pub fn is_judged(model: &Model, plan: &GivenPlan) -> bool {
    judge(
        &model.given(),
        model.credit,
        model.bound,
        model.barred,
        plan,
    )
    .is_ok()
}

// What the walk of a plan for a number answers, with an allowance.
pub fn walked(
    model: &Model,
    plan: &GivenPlan,
    colour: u32,
    allowance: u16,
) -> Result<Walked, Refusal> {
    walk(
        &model.given(),
        model.credit,
        model.bound,
        model.barred,
        plan,
        colour,
        allowance,
    )
}
