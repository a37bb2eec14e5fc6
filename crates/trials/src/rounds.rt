// A plan tested plainly: its arcs are the model's and on, its prefix and three rounds can be walked, and its cycle has all required colours and no
// barred one.
use crate::models::Model;
use crate::pairs::{mode_of, pair_after, pair_of};

// Walks a list of arcs from a pair, and returns the pair that it comes to; none where an arc is not the model's, or is off, and where a step is not
// possible or leaves another mode.
fn walk(model: &Model, pair: usize, arcs: &[u8]) -> Option<usize> {
    let mut reached = pair;
    for &a in arcs {
        if !model.is_on(a) {
            return None;
        }
        reached = pair_after(model.arc(a), model.bound, reached)?;
    }
    Some(reached)
}

// Whether three rounds, walked after the prefix, each lead back to the cycle's mode, and the first or the second ends no lower than it began; none
// where they cannot be walked.
fn rounds_hold(model: &Model, prefix: &[u8], cycle: &[u8]) -> Option<bool> {
    let start = pair_of(model.start, model.credit, model.bound);
    let first = walk(model, start, prefix)?;
    let second = walk(model, first, cycle)?;
    let third = walk(model, second, cycle)?;
    let last = walk(model, third, cycle)?;
    let mode = mode_of(first, model.bound);
    let stays = mode_of(second, model.bound) == mode && mode_of(last, model.bound) == mode;
    Some(stays && (second >= first || third >= second))
}

// Whether a cycle has an arc, all colours that are not barred, and none that is.
fn has_required(model: &Model, cycle: &[u8]) -> bool {
    let mut mask = 0;
    for &a in cycle {
        mask |= model.arc(a).mask;
    }
    !cycle.is_empty()
        && mask & model.barred == 0
        && mask | model.barred | (255u8 << (model.colours % 8)) == 255
}

// Whether a plan is one, plainly: a prefix from the start mode, rounds that hold, and a cycle with the right colours.
pub fn is_right(model: &Model, p: usize, plan: &[u8]) -> bool {
    if p > plan.len() || (model.start as u32) >= model.modes {
        return false;
    }
    let (prefix, cycle) = plan.split_at(p);
    rounds_hold(model, prefix, cycle) == Some(true) && has_required(model, cycle)
}
