// Tries search and the decision: document 01's examples M and N, and random models, each compared with a plain search over mode and charge. The buffers hold
// junk before each call; every plan handed back is judged, walked for each colour, and walked plainly, by arcs that are on. Prints the examples'
// answers, and for each family of models how many there were, how many have a plan, how many have none, and the differences.
//
// The random models and the plain search (models, pairs, candidates, rounds) share no code with search, judging, walk or switches: of the
// planner they use the ceilings, the count of the switches' words, and the structs in which a call takes a model.
#![tactic(auto)]

mod answers;
mod buffers;
mod calls;
mod candidates;
mod checks;
mod decisions;
mod examples;
mod models;
mod pairs;
mod rounds;

use answers::{Outcome, try_model};
use limits::Limits;
use models::{Family, model_of};
use std::io;

// Ceilings, as families have them.
const MODES: u16 = Limits::MODES as u16;

const BOUND: u16 = Limits::BOUND as u16;

const COLOURS: u16 = Limits::COLOURS as u16;

// The family with small numbers, from which the others are made.
fn small(models: u16) -> Family {
    Family {
        models,
        modes_least: 1,
        modes_span: 4,
        colours_least: 0,
        colours_span: 4,
        arcs_least: 0,
        arcs_span: 8,
        bound_least: 0,
        bound_span: 8,
        net_span: 9,
        net_low: 5,
        both_span: 1,
        repeats: false,
        bars: false,
        switches: false,
    }
}

// The family with medium numbers.
fn medium(models: u16) -> Family {
    Family {
        modes_span: 8,
        colours_span: COLOURS + 1,
        arcs_least: 4,
        arcs_span: 24,
        bound_span: 32,
        net_span: 33,
        net_low: 18,
        ..small(models)
    }
}

// The family with 64 modes, and the greatest bound that search takes with them.
fn all_modes(models: u16) -> Family {
    Family {
        modes_least: MODES,
        modes_span: 1,
        colours_span: 1,
        arcs_least: 200,
        arcs_span: 56,
        bound_least: 127,
        bound_span: 1,
        net_span: 121,
        net_low: 101,
        ..small(models)
    }
}

// The family with all four colours over as many pairs as there is space for.
fn all_colours(models: u16) -> Family {
    Family {
        modes_least: 8,
        modes_span: 1,
        colours_least: COLOURS,
        colours_span: 1,
        arcs_least: 24,
        arcs_span: 24,
        bound_least: 203,
        bound_span: 1,
        net_span: 201,
        net_low: 175,
        ..small(models)
    }
}

// Tries the models of a family, from a state of the generator, and prints the line of the family. Returns the next state.
fn try_family(rt: &HostRuntime, name: &str, family: &Family, first: u32) -> io::Result<u32> {
    let mut state = first;
    let mut plans = 0u32;
    let mut none = 0u32;
    let mut differences = 0u32;
    // (The invariant reads the counter.)
    for i in 0..family.models {
        let (model, after) = model_of(family, state);
        state = after;
        match try_model(&model, state as usize) {
            Outcome::Plan => plans += 1,
            Outcome::NoPlan => none += 1,
            Outcome::Difference => differences += 1,
        }
    }
    println!(rt;
        "{name} {} plans {plans} none {none} differences {differences}",
        family.models
    )?;
    Ok(state)
}

// Families with small and with medium numbers, with bound 0, with arcs equal in all fields but the action, and with no arcs.
fn try_small(rt: &HostRuntime, first: u32) -> io::Result<u32> {
    let zero = Family {
        bound_span: 1,
        colours_span: COLOURS + 1,
        net_span: 3,
        net_low: 1,
        arcs_span: 16,
        ..small(1000)
    };
    let equal = Family {
        repeats: true,
        colours_span: COLOURS + 1,
        ..small(1000)
    };
    let none = Family {
        modes_span: MODES,
        arcs_span: 1,
        colours_span: COLOURS + 1,
        bound_span: 24,
        ..small(100)
    };
    let mut state = first;
    for (name, family) in [
        ("small", small(6000)),
        ("medium", medium(2000)),
        ("bound-0", zero),
        ("equal-arcs", equal),
        ("no-arcs", none),
    ] {
        state = try_family(rt, name, &family, state)?;
    }
    Ok(state)
}

// Families at the ceilings: 64 modes with bound 127, one mode with bound 8,191, and all four colours over as many pairs as there is space for.
fn try_large(rt: &HostRuntime, first: u32) -> io::Result<u32> {
    let bound = Family {
        modes_span: 1,
        colours_span: 1,
        arcs_least: 1,
        arcs_span: 4,
        bound_least: BOUND,
        bound_span: 1,
        net_span: 8001,
        net_low: 6000,
        ..small(64)
    };
    let mut state = first;
    for (name, family) in [
        ("64-modes", all_modes(64)),
        ("bound-8191", bound),
        ("4-colours", all_colours(64)),
    ] {
        state = try_family(rt, name, &family, state)?;
    }
    Ok(state)
}

// Families whose arcs draw and gain: with small and with medium numbers, with every arc's gain equal to its draw, and with 64 modes.
fn try_two_parts(rt: &HostRuntime, first: u32) -> io::Result<u32> {
    let few = Family {
        both_span: 6,
        ..small(4000)
    };
    let more = Family {
        net_low: 16,
        both_span: 24,
        ..medium(1000)
    };
    let level = Family {
        net_span: 1,
        net_low: 0,
        both_span: 12,
        ..small(1000)
    };
    let modes = Family {
        both_span: 64,
        ..all_modes(32)
    };
    let mut state = first;
    for (name, family) in [
        ("two-parts", few),
        ("medium-two-parts", more),
        ("level-two-parts", level),
        ("64-modes-two-parts", modes),
    ] {
        state = try_family(rt, name, &family, state)?;
    }
    Ok(state)
}

// Families with barred colours: with small numbers, with medium numbers whose arcs draw and gain, and with all four colours.
fn try_barred(rt: &HostRuntime, first: u32) -> io::Result<u32> {
    let few = Family {
        modes_least: 2,
        modes_span: 5,
        colours_span: COLOURS + 1,
        arcs_least: 4,
        arcs_span: 12,
        net_low: 3,
        bars: true,
        ..small(2000)
    };
    let more = Family {
        net_low: 8,
        both_span: 12,
        bars: true,
        ..medium(1000)
    };
    let colours = Family {
        net_low: 125,
        bars: true,
        ..all_colours(32)
    };
    let mut state = first;
    for (name, family) in [
        ("barred", few),
        ("medium-barred", more),
        ("4-colours-barred", colours),
    ] {
        state = try_family(rt, name, &family, state)?;
    }
    Ok(state)
}

// Families with arcs that are off: with small numbers, with medium numbers whose arcs draw and gain and with barred colours, and with 64 modes, whose
// arcs have switches in all four words.
fn try_switched(rt: &HostRuntime, first: u32) -> io::Result<()> {
    let few = Family {
        arcs_span: 16,
        net_low: 3,
        switches: true,
        ..small(4000)
    };
    let more = Family {
        net_low: 8,
        both_span: 12,
        bars: true,
        switches: true,
        ..medium(1000)
    };
    let modes = Family {
        net_low: 70,
        both_span: 64,
        switches: true,
        ..all_modes(64)
    };
    let mut state = first;
    for (name, family) in [
        ("switched", few),
        ("medium-switched", more),
        ("64-modes-switched", modes),
    ] {
        state = try_family(rt, name, &family, state)?;
    }
    Ok(())
}

fn main(rt: HostRuntime) -> io::Result<()> {
    examples::print_examples(&rt)?;
    let mut state = try_small(&rt, 20261115)?;
    state = try_large(&rt, state)?;
    state = try_two_parts(&rt, state)?;
    state = try_barred(&rt, state)?;
    try_switched(&rt, state)
}
