// Document 01's examples M and N.
use crate::answers::{BYTES, WORK};
use crate::buffers::{is_clear, is_junk, is_untouched, junk_plan, junk_work};
use crate::calls::{searched, walked};
use crate::models::{Model, without_arcs};
use judge::GivenPlan;
use planwalk::WalkAnswer;
use refusals::Refusal;
use search::{Lengths, SearchAnswer};
use std::io;

// G's model: a loop of mode 0 that gains 1, an arc to mode 1 that draws 5, and a loop there with colour 0.
fn model_g() -> Model {
    let mut model = without_arcs(2, 0, 1, 0, 5);
    model.arcs = 3;
    model.gains[0] = 1;
    model.targets[1] = 1;
    model.draws[1] = 5;
    model.sources[2] = 1;
    model.targets[2] = 1;
    model.masks[2] = 1;
    model
}

// M: the number that the walk of I for colour 0 answers, with an allowance, met or spent, and the steps. I: G's model, run-in 0 0 0 0 0 1, round 2.
fn print_walk(rt: &HostRuntime, allowance: u16) -> io::Result<()> {
    let plan = GivenPlan {
        p: 6,
        q: 1,
        arcs: &[0, 0, 0, 0, 0, 1, 2],
    };
    let result = WalkAnswer::from(walked(&model_g(), &plan, 0, allowance));
    let end = if result.met { "met" } else { "spent" };
    println!(rt; "M {} {end} {}", result.answer.number, result.steps)
}

// Whether search leaves buffers that held junk as it should: after 10 the working space is clear, after 1 to 9 untouched; the plan buffer is
// untouched after both.
fn are_right(answer: Result<Lengths, Refusal>, work: &[u16], plan: &[u8]) -> bool {
    is_untouched(plan, 0)
        && if matches!(answer, Err(Refusal::NoPlan)) {
            is_clear(work)
        } else {
            is_junk(work)
        }
}

// The number that search answers to a model in buffers of junk, and whether it leaves them as it should.
fn search_junk(model: &Model) -> (u8, bool) {
    let mut work = [0u16; WORK];
    let mut plan = [0u8; BYTES];
    junk_work(&mut work);
    junk_plan(&mut plan);
    let answer = searched(model, &mut work, &mut plan);
    let number = SearchAnswer::from(answer).answer.number;
    (number, are_right(answer, &work, &plan))
}

// N: n, start mode, k and b of a model without arcs, the number that search answers, and whether it leaves the buffers as it should.
fn print_search(rt: &HostRuntime, n: u32, start: u8, k: u32, b: u32) -> io::Result<()> {
    let (number, right) = search_junk(&without_arcs(n, start, k, 0, b));
    let end = if right { "right" } else { "wrong" };
    println!(rt; "N {n} {start} {k} {b} {number} {end}")
}

// A line for each call.
pub fn print_examples(rt: &HostRuntime) -> io::Result<()> {
    print_walk(rt, 7)?;
    print_walk(rt, 6)?;
    print_search(rt, 64, 0, 0, 127)?;
    print_search(rt, 64, 0, 0, 128)?;
    print_search(rt, 1, 0, 0, 8191)?;
    print_search(rt, 1, 0, 0, 8192)?;
    print_search(rt, 64, 64, 5, 127)
}
