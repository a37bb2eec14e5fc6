// Search: a plan for a model, or that there is none. Refusals 1 to 10.
//
// Whether there is a plan is decided first (crate deciding), over the set of all peaks at once and at a cost that does not depend on the bound, and
// no pass runs for a "no". Else the plan goes by the first mode whose peak, the greatest charge with which the mode can be reached, is kept by a cycle.
// Two passes (crate passes) write it, and each ends with an arc that comes to that mode with the peak or more: for the prefix one from the start mode
// over a single level, none where the prefix is empty; for the cycle one from the mode with its peak, over the arcs without a barred colour and the
// levels 0 to r, of r required colours, which comes back in the last level.
#![tactic(auto)]

ghost use Rattle.std.specs.Prelude.{◌≡◌, ◌≤◌, ◌↔◌, length};
ghost use Rattle.limits.specs.Ceilings.{modes_most, colours_most, bound_most};
ghost use Rattle.model.specs.Lists.{lists_of, held};
ghost use Rattle.switches.specs.PlansOn.{SomePlanOn};
ghost use Rattle.search.specs.Search.{no_plan, Answered, spaces, search_answer, SearchOf};
ghost use Rattle.search.specs.Tasks.{Solvable, checked_of};

mod plans;

use deciding::count_required;
use groups::group;
use limits::Limits;
use model::{Given, Model, check_levels, check_model};
use passes::pass::Task;
use plans::Searching;
use refusals::{Answer, Refusal};
use switches::Switches;

// The lengths of a plan that search hands back: of the prefix, in the first bytes of the plan buffer, and of the cycle behind it.
#[derive(Clone, Copy)]
pub struct Lengths {
    pub p: u32,
    pub q: u32,
}

// The number and the detail of a search, and the lengths of prefix and cycle. A struct of its own for C's packing; search_answer names it.
#[derive(Clone, Copy)]
pub struct SearchAnswer {
    pub answer: Answer,
    pub p: u32,
    pub q: u32,
}

impl From<Result<Lengths, Refusal>> for SearchAnswer {
    ghost from_gives = { λ searched told. told ≡ search_answer searched };

    // A refusal has its number and detail, and p and q are 0; a plan has number 0.
    fn from(searched: Result<Lengths, Refusal>) -> SearchAnswer {
        match searched {
            Ok(lengths) => SearchAnswer {
                answer: Answer::from(Ok(())),
                p: lengths.p,
                q: lengths.q,
            },
            Err(refusal) => SearchAnswer {
                answer: Answer::from(refusal),
                p: 0,
                q: 0,
            },
        }
    }
}

// Refusals 7, by the product, 8 and 9, by the lengths of the buffers.
#[tactic(auto, unfolding(crate::specs::Search::spaces))]
fn check_spaces(n: u32, k: u32, b: u32, words: usize, bytes: usize) -> Result<(), Refusal>
    requires { (n ≤ modes_most) × (k ≤ colours_most) × (b ≤ bound_most) }
    ensures { result ≡ spaces n k b words bytes }
{
    if n * (b + 1) > Limits::PRODUCT {
        return Err(Refusal::Product);
    }
    let modes = n as usize;
    let colours = k as usize;
    let charges = (b as usize) + 1;
    if words < Limits::WORK_WORDS * (colours + Limits::WORK_LEVELS) * modes * charges {
        return Err(Refusal::WorkingSpace);
    }
    if bytes < (colours + Limits::PLAN_LEVELS) * modes * charges {
        return Err(Refusal::PlanBuffer);
    }
    Ok(())
}

// Refusals 1 to 9, or the model.
#[tactic(auto, using(crate::proofs::Searchable::checks))]
fn check_search(given: &Given, c: u32, b: u32, words: usize, bytes: usize) -> Result<Model, Refusal>
    ensures { result ≡ checked_of given.now.n given.now.start given.now.k (lists_of given.now.lists) b c words bytes }
{
    let model = check_model(given)?;
    check_levels(c, b)?;
    check_spaces(given.n, given.k, b, words, bytes)?;
    Ok(model)
}

// A plan for a fit model, of arcs that are on, or that there is none, by its groups and rows, "made inside the call, never lent" (document 02, Ask 7).
fn plan_model(
    model: Model,
    c: u16,
    b: u16,
    barred: u8,
    on: Switches,
    work: &mut [u16],
    plan: &mut [u8],
) -> Result<Lengths, Refusal>
    requires { Solvable model b c (length work.old) (length plan.old) }
    ensures no_plan { (result ≡ no_plan) ↔ (SomePlanOn (held model) barred on b c → ⊥) }
    ensures answered { Answered (held model) barred on b c plan.old plan.new result }
{
    let groups = group(model, barred, on);
    let required = count_required(u32::from(model.colours), barred);
    let task = Task {
        modes: usize::from(model.modes),
        start: usize::from(model.start),
        duties: required as usize,
        barred: barred != 0,
        credit: c,
        bound: b,
    };
    let searching = Searching {
        groups: &groups,
        task,
    };
    searching.make_plan(work, plan)
}

// Search, with a byte of barred colours and the switches of the arcs: p and q of a plan in the plan buffer, or 10 where there is none of arcs that are on, or the
// first of 1 to 9 that applies. For all numbers, lists and buffers. Which plan is handed back is free, its p and q with it.
// work: at least 4 × (k + 1) × n × (b + 1) words. plan: at least (k + 2) × n × (b + 1) bytes. Longer ones are fine, and what stands in them
// does not matter. Refusals 1 to 9 leave both as they were. After 10 or a plan every word of work is 0. After 10 plan is as it was; else the
// prefix is in its first p bytes and the cycle in the next q, and later bytes are as they were.
pub fn search(
    given: &Given,
    c: u32,
    b: u32,
    barred: u8,
    on: Switches,
    work: &mut [u16],
    plan: &mut [u8],
) -> Result<Lengths, Refusal>
    ensures { SearchOf given.now.n given.now.start given.now.k (lists_of given.now.lists) barred on b c work.old plan.old work.new plan.new result }
{
    let model = check_search(given, c, b, work.len(), plan.len())?;
    let searched = plan_model(model, c as u16, b as u16, barred, on, work, plan);
    work.fill(0);
    searched
}
