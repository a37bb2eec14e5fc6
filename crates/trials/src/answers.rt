// One model: the answers of search and of the decision compared with the plain one.
ghost use Rattle.std.specs.Prelude.{◌≤◌};
ghost use Rattle.limits.specs.Ceilings.{program_most};

use crate::buffers::{is_clear, is_untouched, junk_plan, junk_work};
use crate::calls::searched;
use crate::candidates::{ROOM, has_plan};
use crate::checks::is_plan_right;
use crate::decisions::is_decided;
use crate::models::Model;
use limits::Limits;
use refusals::Refusal;
use search::Lengths;

// The words of a working space and the bytes of a plan buffer that suffice for all pairs, and the three more that are lent at most.
pub const WORK: usize = Limits::WORK_WORDS * ROOM + 3;

pub const BYTES: usize = 2 * ROOM + 3;

// How a model is answered: by a plan that is right, rightly by none, or wrongly.
#[derive(Clone, Copy)]
pub enum Outcome {
    Plan,
    NoPlan,
    Difference,
}

// pairs: of a mode and a charge, n × (b + 1). room: k + 1 times as many, which search asks space for. The program keeps space for both.
#[derive(Clone, Copy)]
struct Sizes {
    pairs: usize,
    room: usize,
    ghost pairs_fit: { pairs ≤ program_most },
    ghost room_fits: { room ≤ program_most },
}

// Whether the answer is the expected one.
fn is_expected(
    model: &Model,
    answer: Result<Lengths, Refusal>,
    expected: bool,
    plan: &[u8],
) -> bool {
    match answer {
        Ok(lengths) => expected && is_plan_right(model, lengths.p, lengths.q, plan),
        Err(refusal) => !expected && refusal == Refusal::NoPlan && is_untouched(plan, 0),
    }
}

// Searches with buffers of junk, of these lengths; whether the answer is the expected one.
fn compare(model: &Model, expected: bool, work: &mut [u16], plan: &mut [u8]) -> bool {
    junk_work(work);
    junk_plan(plan);
    let answer = searched(model, work, plan);
    is_clear(work) && is_expected(model, answer, expected, plan)
}

// Searches and compares with the barred byte; where that is not 0, also with every bit of it at or above k turned, which changes no answer.
fn compare_turned(model: &Model, expected: bool, work: &mut [u16], plan: &mut [u8]) -> bool {
    if !compare(model, expected, work, plan) {
        return false;
    }
    if model.barred == 0 {
        return true;
    }
    let mut other = *model;
    other.barred ^= 255u8 << (model.colours % 8);
    compare(&other, expected, work, plan)
}

// The sizes of a model, where the program keeps space for so many pairs.
fn sizes_of(model: &Model) -> Option<Sizes> {
    let pairs = (model.modes as usize) * ((model.bound as usize) + 1);
    if pairs > ROOM || model.colours > Limits::COLOURS {
        return None;
    }
    let room = pairs * ((model.colours as usize) + 1);
    if room > ROOM {
        return None;
    }
    Some(Sizes { pairs, room })
}

// A model, tried with buffers as long as search asks for, and up to three places longer. One that is too large for the program's space is a
// difference.
pub fn try_model(model: &Model, extra: usize) -> Outcome {
    let Some(sizes) = sizes_of(model) else {
        return Outcome::Difference;
    };
    let expected = has_plan(model, sizes.pairs);
    let mut work = [0u16; WORK];
    let mut plan = [0u8; BYTES];
    let words = Limits::WORK_WORDS * sizes.room + extra % 4;
    let bytes = sizes.room + sizes.pairs + extra % 4;
    if !compare_turned(model, expected, &mut work[..words], &mut plan[..bytes])
        || !is_decided(model, expected)
    {
        return Outcome::Difference;
    }
    if expected {
        return Outcome::Plan;
    }
    Outcome::NoPlan
}
