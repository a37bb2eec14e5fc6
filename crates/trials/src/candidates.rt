// A plain search over pairs of a mode and a charge, which shares no code with the real one. At first every pair is a candidate. A pair is
// removed where, for some required colour, no walk over candidates leads from it to an arc with the colour (where there is none, to any arc);
// these walks use no arc with a barred colour. When none is removed any more, the candidates are the pairs from which every required colour can
// be met again and again, and no barred one is met. A plan exists where a prefix, over any pairs and arcs, leads from the start mode with the
// credit to one. Arcs that are off are used by neither.
use crate::models::{Arc, Model};
use crate::pairs::{pair_after, pair_of};
use limits::Limits;

// The most pairs of a node and a charge, (k + 1) × n × (b + 1), that the program keeps space for.
pub const ROOM: usize = Limits::PROGRAM as usize;

// What is known of a pair: it can't be walked over, it can, or a walk from it is known.
#[derive(Clone, Copy, PartialEq, Eq)]
enum Mark {
    Removed,
    Free,
    Marked,
}

// What a walk is to come to, if not to a pair that is marked: any arc, an arc with a colour of a mask, or nothing else.
#[derive(Clone, Copy)]
enum Goal {
    AnyArc,
    Colour(u8),
    Nothing,
}

// What a walk is to come to, by arcs with no colour of `barred`.
#[derive(Clone, Copy)]
struct Sought {
    goal: Goal,
    barred: u8,
}

// The mark of a pair.
fn mark_of(pairs: &[Mark], pair: usize) -> Mark {
    pairs.get(pair).copied().unwrap_or(Mark::Removed)
}

// Marks a pair that is free; whether it was.
fn mark_free(pair: usize, pairs: &mut [Mark]) -> bool {
    match pairs.get_mut(pair) {
        Some(mark) if *mark == Mark::Free => {
            *mark = Mark::Marked;
            true
        }
        _ => false,
    }
}

// Whether an arc is one that is sought, or leads on to one, where it leads to a pair with this mark.
fn leads(arc: Arc, sought: Sought, mark: Mark) -> bool {
    if arc.mask & sought.barred != 0 {
        return false;
    }
    match sought.goal {
        Goal::AnyArc => mark != Mark::Removed,
        Goal::Colour(mask) if arc.mask & mask != 0 => mark != Mark::Removed,
        _ => mark == Mark::Marked,
    }
}

// Marks the free pairs from which an arc leads so, each looked at once; whether there was one.
fn sweep_arc(arc: Arc, bound: u32, sought: Sought, pairs: &mut [Mark]) -> bool {
    let mut more = false;
    for charge in 0..=bound {
        let pair = pair_of(arc.source, charge, bound);
        if let Some(after) = pair_after(arc, bound, pair) {
            if leads(arc, sought, mark_of(pairs, after)) && mark_free(pair, pairs) {
                more = true;
            }
        }
    }
    more
}

// Marks the free pairs from which some arc that is on leads so; whether there was one.
fn sweep(model: &Model, sought: Sought, pairs: &mut [Mark]) -> bool {
    let mut more = false;
    for a in 0..model.arcs {
        if model.is_on(a) && sweep_arc(model.arc(a), model.bound, sought, pairs) {
            more = true;
        }
    }
    more
}

// Marks the free pairs from which a walk leads to a pair that is marked or to an arc that is sought. Each sweep but the last marks one more.
fn spread(model: &Model, sought: Sought, pairs: &mut [Mark]) {
    for _ in 0..pairs.len() {
        if !sweep(model, sought, pairs) {
            return;
        }
    }
}

// Removes the free pairs, and takes the marks off the others; whether there was one to remove.
fn keep_marked(pairs: &mut [Mark]) -> bool {
    let mut removed = false;
    for mark in pairs {
        match *mark {
            Mark::Removed => {}
            Mark::Free => {
                *mark = Mark::Removed;
                removed = true;
            }
            Mark::Marked => {
                *mark = Mark::Free;
            }
        }
    }
    removed
}

// What is sought for a colour: an arc with it, or any arc where it is barred or is none of the model's.
fn goal_of(model: &Model, colour: u32) -> Goal {
    if colour >= model.colours {
        return Goal::AnyArc;
    }
    let mask = 1u8 << (colour % 8);
    if mask & model.barred != 0 {
        return Goal::AnyArc;
    }
    Goal::Colour(mask)
}

// Removes the candidates that cannot meet one of the required colours, or can go no further; whether there was one.
fn remove(model: &Model, pairs: &mut [Mark]) -> bool {
    let mut removed = false;
    for colour in 0..=model.colours {
        let sought = Sought {
            goal: goal_of(model, colour),
            barred: model.barred,
        };
        spread(model, sought, pairs);
        if keep_marked(pairs) {
            removed = true;
        }
    }
    removed
}

// Removes candidates until none is removed any more. Each round but the last removes one.
fn remove_all(model: &Model, pairs: &mut [Mark]) {
    for _ in 0..pairs.len() {
        if !remove(model, pairs) {
            return;
        }
    }
}

// Marks the candidates, and makes the other pairs free: a prefix may go over any.
fn mark_candidates(pairs: &mut [Mark]) {
    for mark in pairs {
        *mark = if *mark == Mark::Free {
            Mark::Marked
        } else {
            Mark::Free
        };
    }
}

// Whether a plan exists, where the model has this many pairs.
pub fn has_plan(model: &Model, count: usize) -> bool {
    let mut marks = [Mark::Free; ROOM];
    let pairs = &mut marks[..count.min(ROOM)];
    remove_all(model, pairs);
    mark_candidates(pairs);
    let sought = Sought {
        goal: Goal::Nothing,
        barred: 0,
    };
    spread(model, sought, pairs);
    let first = pair_of(model.start, model.credit, model.bound);
    mark_of(pairs, first) == Mark::Marked
}
