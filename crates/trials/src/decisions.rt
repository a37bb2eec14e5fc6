// The decision without a plan, compared with the plain answer: for a model as it is, and with all its numbers a hundred times as large, which has the same
// answer under a bound that search does not take.
use crate::buffers::{is_clear, junk_work};
use crate::calls::decided;
use crate::models::Model;
use limits::Limits;
use refusals::Refusal;

// The words of a working space that suffices for every model.
const WORK: usize = Limits::DECIDE_WORDS
    * ((Limits::COLOURS as usize) + Limits::WORK_LEVELS)
    * (Limits::MODES as usize);

// How many times as large the numbers are made.
const SCALE: u16 = 100;

// How a model is decided: by yes, by none, as unfit, or in another way or with a working space that is not clear.
#[derive(Clone, Copy, PartialEq, Eq)]
enum Decision {
    Yes,
    NoPlan,
    Unfit,
    Other,
}

// A draw or a gain made larger, or above its ceiling where it would pass it.
fn enlarge_part(part: u16) -> u16 {
    if part > Limits::DRAW / SCALE {
        return Limits::DRAW + 1;
    }
    part * SCALE
}

// The model with draws, gains, bound and credit made larger.
fn enlarge(model: &Model) -> Model {
    let mut other = *model;
    for draw in &mut other.draws {
        *draw = enlarge_part(*draw);
    }
    for gain in &mut other.gains {
        *gain = enlarge_part(*gain);
    }
    other.bound = model.bound % (Limits::BOUND + 1) * u32::from(SCALE);
    other.credit = model.credit % (Limits::BOUND + 1) * u32::from(SCALE);
    other
}

// The decision of a model, with a working space of junk, which yes and none leave clear.
fn decision_of(model: &Model) -> Decision {
    let mut work = [0u32; WORK];
    junk_work(&mut work);
    let decided = decided(model, &mut work);
    let clear = is_clear(&work);
    match decided {
        Ok(()) if clear => Decision::Yes,
        Err(Refusal::NoPlan) if clear => Decision::NoPlan,
        Err(Refusal::UnfitArc(_)) => Decision::Unfit,
        _ => Decision::Other,
    }
}

// Whether the decision is the expected one, also for the larger model; that one is unfit, 5, where a draw or a gain would pass its ceiling.
pub fn is_decided(model: &Model, expected: bool) -> bool {
    let right = if expected {
        Decision::Yes
    } else {
        Decision::NoPlan
    };
    let larger = decision_of(&enlarge(model));
    decision_of(model) == right && (larger == right || larger == Decision::Unfit)
}
