// Whether a plan exists, without the plan (document 02, Ask 12): for bounds up to 1,000,000, at a cost that does not depend on the bound. Refusals 1 to
// 6, 8 and 10.
#![tactic(auto)]

ghost use Rattle.std.specs.Prelude.{◌≡◌, true, ◌↔◌, length};
ghost use Rattle.model.specs.Lists.{lists_of, held};
ghost use Rattle.switches.specs.PlansOn.{SomePlanOn};
ghost use Rattle.decide.specs.Decide.{space_of, answer_if, DecideOf};
ghost use Rattle.decide.specs.Within.{Answerable, checked_of};

use deciding::{Question, count_required, find_kept};
use groups::group;
use limits::Limits;
use model::{Given, Model, check_levels_within, check_model};
use refusals::Refusal;
use switches::Switches;

// Refusal 8, by the length of the working space.
#[tactic(auto, unfolding(crate::specs::Decide::space_of))]
fn check_space(modes: u8, colours: u8, words: usize) -> Result<(), Refusal>
    ensures { result ≡ space_of modes colours words }
{
    let levels = usize::from(colours) + Limits::WORK_LEVELS;
    if words < Limits::DECIDE_WORDS * levels * usize::from(modes) {
        return Err(Refusal::WorkingSpace);
    }
    Ok(())
}

// Refusals 1 to 6 and 8, and the model.
fn check_decide(given: &Given, c: u32, b: u32, words: usize) -> Result<Model, Refusal>
    ensures { result ≡ checked_of given.now.n given.now.start given.now.k (lists_of given.now.lists) b c words }
{
    let model = check_model(given)?;
    check_levels_within(c, b, Limits::DECIDE_BOUND)?;
    check_space(model.modes, model.colours, words)?;
    Ok(model)
}

// Whether a fit model has a plan of arcs that are on. The set of peaks stands in the lent space; the tables of closing, of which several are lent at
// once, stand on the stack.
fn decide_model(model: Model, c: u32, b: u32, barred: u8, on: Switches, work: &mut [u32]) -> bool
    requires { Answerable model b c (length work.old) }
    ensures { (result ≡ true) ↔ SomePlanOn (held model) barred on b c }
{
    let groups = group(model, barred, on);
    let modes = usize::from(model.modes);
    let start = usize::from(model.start);
    let required = count_required(u32::from(model.colours), barred);
    let question = Question {
        start,
        duties: required as usize,
        credit: c,
        bound: b,
    };
    find_kept(&groups, question, &mut work[..modes])
}

// Yes where there is a plan, and 10 where there is none.
fn answer(some: bool) -> Result<(), Refusal>
    ensures { result ≡ answer_if some }
{
    some.then_some(()).ok_or(Refusal::NoPlan)
}

// Whether a plan exists, with a byte of barred colours and the switches of the arcs: yes, or 10 where there is none of arcs that are on, or the first of 1
// to 6 and 8 that applies. For all numbers, lists and spaces. Inside the ceilings of search it is what search answers.
// work: at least 16 × (k + 1) × n words; a longer one is fine, and what stands in it does not matter. Refusals 1 to 6 and 8 leave it as it was; after
// yes or 10 every word of it is 0.
pub fn decide(
    given: &Given,
    c: u32,
    b: u32,
    barred: u8,
    on: Switches,
    work: &mut [u32],
) -> Result<(), Refusal>
    ensures { DecideOf given.now.n given.now.start given.now.k (lists_of given.now.lists) barred on b c work.old work.new result }
{
    let model = check_decide(given, c, b, work.len())?;
    let some = decide_model(model, c, b, barred, on, work);
    work.fill(0);
    answer(some)
}
