// A plan that search hands back: judged, walked by `walk`, and walked plainly.
ghost use Rattle.std.specs.Prelude.{◌≤◌, length};
ghost use Rattle.limits.specs.Ceilings.{plan_most};

use crate::buffers::is_untouched;
use crate::calls::{is_judged, walked};
use crate::models::Model;
use crate::rounds::is_right;
use judge::GivenPlan;
use limits::Limits;
use planwalk::Walked;
use refusals::Refusal;

// Whether what a walk for a number answers is right: a required colour is met, a barred one within the prefix or not at all, and a number that
// is no colour is refused by 18.
fn is_answer_right(walked: Result<Walked, Refusal>, model: &Model, p: u32, colour: u32) -> bool {
    if colour >= model.colours {
        return matches!(walked, Err(Refusal::NoSuchColour));
    }
    let barred = (u32::from(model.barred) >> (colour % 8)) % 2 == 1;
    match walked {
        Ok(Walked::Met(steps)) => !barred || u32::from(steps) <= p,
        Ok(Walked::Spent(_)) => barred,
        Err(_) => false,
    }
}

// Whether the walk of a plan, with the plan's length as its allowance, is right for each colour and for the first number that is no colour.
fn is_walked(model: &Model, plan: &GivenPlan) -> bool
    requires { length plan.now.arcs.now ≤ plan_most }
{
    let allowance = plan.arcs.len() as u16;
    (0..=model.colours).all(|colour| {
        let answer = walked(model, plan, colour, allowance);
        is_answer_right(answer, model, plan.p, colour)
    })
}

// Whether the plan in a buffer is right: it is no longer than judging takes, later bytes are untouched, judging says yes, and it is walked by
// `walk` and plainly. Judging and `walk` know every arc; that all are on is tested plainly.
pub fn is_plan_right(model: &Model, p: u32, q: u32, buffer: &[u8]) -> bool {
    let length = (p as usize) + (q as usize);
    if length > buffer.len() || length > Limits::PLAN || !is_untouched(buffer, length) {
        return false;
    }
    let arcs = &buffer[..length];
    let plan = GivenPlan { p, q, arcs };
    is_judged(model, &plan) && is_walked(model, &plan) && is_right(model, p as usize, arcs)
}
