// Smallest battery, least charge (document 02, Ask 8): the least credit with which there is a plan under a given bound, and the least bound with which there is
// one from a given credit. By halving: each try is the decision without a plan (crate deciding), whose cost does not depend on the bound, over rows and groups
// that are made once. Refusals 1 to 8 and 10.
#![tactic(auto)]

ghost use Rattle.std.specs.Prelude.{◌≡◌, true, ◌↔◌};
ghost use Rattle.model.specs.Lists.{lists_of, held};
ghost use Rattle.deciding.specs.Deciding.{Decidable};
ghost use Rattle.least.specs.declared.Sought.TheVariants.{Credit, Bound};
ghost use Rattle.least.specs.Least.{Allowed, HasPlan, Least, level_of, largest_bound, largest_tried, space_of, least_answer, LeastOf};
ghost use Rattle.least.specs.Within.{checked_of, Answerable, lowest_tried, question_at, LassoAt, InRange, Decidables, Answered};

use closing::MODES;
use deciding::{Question, count_required, find_kept};
use groups::{Groups, group};
use limits::Limits;
use model::{Given, Model, check_levels, check_model};
use refusals::{Answer, Refusal};
use switches::Switches;

// Which of the two levels is sought, the charge at the start or the bound; the other one is known. The known level stands beside it and not in it:
// LeastOf, Allowed and HasPlan take the two apart.
#[derive(Clone, Copy)]
pub enum Sought {
    Credit,
    Bound,
}

// The number and the detail, and the value. A struct of its own for C's packing; least_answer names it.
#[derive(Clone, Copy)]
pub struct LeastAnswer {
    pub answer: Answer,
    pub value: u32,
}

// A refusal has its number and detail, and value 0; a value has number 0.
impl From<Result<u32, Refusal>> for LeastAnswer {
    ghost from_gives = { λ found told. told ≡ least_answer found };

    fn from(found: Result<u32, Refusal>) -> LeastAnswer {
        match found {
            Ok(value) => LeastAnswer {
                answer: Answer::from(Ok(())),
                value,
            },
            Err(refusal) => LeastAnswer {
                answer: Answer::from(refusal),
                value: 0,
            },
        }
    }
}

// The largest bound within the product ceiling of search; 0 where a model has no mode, which is refused.
fn largest_bound(modes: u8) -> u32
    ensures { result ≡ largest_bound modes }
{
    if modes == 0 {
        return 0;
    }
    Limits::PRODUCT / u32::from(modes) - 1
}

impl Sought {
    // The largest bound that may be tried, which is also the highest level that is looked at.
    fn largest_tried(self, modes: u8, known: u32) -> u32
        ensures { result ≡ largest_tried self modes known }
    {
        match self {
            Sought::Credit => known,
            Sought::Bound => largest_bound(modes),
        }
    }

    // The lowest level that is looked at.
    fn lowest_tried(self, known: u32) -> u32
        ensures { result ≡ lowest_tried self known }
    {
        match self {
            Sought::Credit => 0,
            Sought::Bound => known,
        }
    }

    // Refusal 6, of the least credit alone.
    fn check_level(self, known: u32) -> Result<(), Refusal>
        ensures { result ≡ level_of self known }
    {
        match self {
            Sought::Credit => check_levels(0, known),
            Sought::Bound => Ok(()),
        }
    }
}

// Refusals 7 and 8, by the known level and the length of the working space.
#[tactic(auto, unfolding(crate::specs::Least::space_of))]
fn check_space(
    sought: Sought,
    modes: u8,
    colours: u8,
    known: u32,
    words: usize,
) -> Result<(), Refusal>
    ensures { result ≡ space_of sought modes colours known words }
{
    let charges = u64::from(known) + 1;
    if u64::from(modes) * charges > u64::from(Limits::PRODUCT) {
        return Err(Refusal::Product);
    }
    let levels = usize::from(colours) + Limits::WORK_LEVELS;
    let largest = sought.largest_tried(modes, known);
    if words < Limits::WORK_WORDS * levels * usize::from(modes) * ((largest as usize) + 1) {
        return Err(Refusal::WorkingSpace);
    }
    Ok(())
}

// Refusals 1 to 8, and the model.
fn check_least(given: &Given, sought: Sought, known: u32, words: usize) -> Result<Model, Refusal>
    ensures { result ≡ checked_of sought given.now.n given.now.start given.now.k (lists_of given.now.lists) known words }
{
    let model = check_model(given)?;
    sought.check_level(known)?;
    check_space(sought, model.modes, model.colours, known, words)?;
    Ok(model)
}

// What is asked: the groups of a model, its modes, start mode and duties, which level is sought, the other one, and the range in which it is sought.
#[derive(Clone, Copy)]
struct Problem<'a> {
    groups: &'a Groups,
    modes: usize,
    start: usize,
    duties: usize,
    sought: Sought,
    known: u32,
    lowest: u32,
    highest: u32,
}

impl Problem<'_> {
    // What the decision is asked with the sought level at `level`.
    fn question_at(&self, level: u32) -> Question
        ensures { result ≡ question_at self.now level }
    {
        let (credit, bound) = match self.sought {
            Sought::Credit => (level, self.known),
            Sought::Bound => (self.known, level),
        };
        Question {
            start: self.start,
            duties: self.duties,
            credit,
            bound,
        }
    }

    // Whether there is a plan with the sought level at `level`.
    #[tactic(auto, unfolding(crate::specs::Within::LassoAt))]
    fn has_plan(&self, level: u32) -> bool
        requires { Decidable self.now.groups.now.rows self.now.groups.now.places (question_at self.now level) self.now.modes }
        ensures { (result ≡ true) ↔ LassoAt self.now level }
    {
        let mut kept = [0u32; MODES];
        find_kept(
            self.groups,
            self.question_at(level),
            &mut kept[..self.modes],
        )
    }

    // The least level of the range that serves, where the highest does. Each turn decides the middle of the levels that are left, so that a range of 8,192
    // levels takes 13 turns. Not partition_point, which is of slices: levels are no slice.
    fn halve(&self) -> u32
        requires decidables { Decidables self.now }
        requires lasso_at { LassoAt self.now self.now.highest }
        ensures { Least (InRange self.now) (LassoAt self.now) result }
    {
        let mut low = self.lowest;
        let mut high = self.highest;
        while low < high {
            let middle = low + (high - low) / 2;
            if self.has_plan(middle) {
                high = middle;
            } else {
                low = middle + 1;
            }
        }
        low
    }

    // The least level of the range that serves, or 10 where none does: more charge and a larger bound serve no worse, so the highest level is decided first.
    fn least_in(&self) -> Result<u32, Refusal>
        requires { Decidables self.now }
        ensures { Answered (InRange self.now) (LassoAt self.now) result }
    {
        if !self.has_plan(self.highest) {
            return Err(Refusal::NoPlan);
        }
        Ok(self.halve())
    }
}

// The least level for a fit model, of arcs that are on, or 10 where none serves. The groups are made once, and the set of peaks of each decision stands on the
// stack.
fn least_of(
    model: Model,
    sought: Sought,
    known: u32,
    barred: u8,
    on: Switches,
) -> Result<u32, Refusal>
    requires { Answerable model known }
    ensures { Answered (Allowed sought model.modes known) (HasPlan sought (held model) barred on known) result }
{
    let groups = group(model, barred, on);
    let modes = usize::from(model.modes);
    let start = usize::from(model.start);
    let required = count_required(u32::from(model.colours), barred);
    let problem = Problem {
        groups: &groups,
        modes,
        start,
        duties: required as usize,
        sought,
        known,
        lowest: sought.lowest_tried(known),
        highest: sought.largest_tried(model.modes, known),
    };
    problem.least_in()
}

// The least level, or the first of 1 to 8 that applies, or 10. The two calls below, which README and C know by their names, are this one.
fn least(
    given: &Given,
    sought: Sought,
    known: u32,
    barred: u8,
    on: Switches,
    work: &mut [u16],
) -> Result<u32, Refusal>
    ensures { LeastOf sought given.now.n given.now.start given.now.k (lists_of given.now.lists) barred on known work.old work.new result }
{
    let model = check_least(given, sought, known, work.len())?;
    let found = least_of(model, sought, known, barred, on);
    work.fill(0);
    found
}

// The least credit with which there is a plan under the bound b, with a byte of barred colours and the switches of the arcs; 10 where there is none with any
// credit up to b, or the first of 1 to 8 that applies. For all numbers, lists and spaces.
// work: at least 4 × (k + 1) × n × (b + 1) words, as search takes; a longer one is fine, and what stands in it does not matter. Refusals 1 to 8 leave it as it
// was; after a number or 10 every word of it is 0.
pub fn least_credit(
    given: &Given,
    b: u32,
    barred: u8,
    on: Switches,
    work: &mut [u16],
) -> Result<u32, Refusal>
    ensures { LeastOf Credit given.now.n given.now.start given.now.k (lists_of given.now.lists) barred on b work.old work.new result }
{
    least(given, Sought::Credit, b, barred, on, work)
}

// The least bound, not below the credit c and within the product ceiling of search, with which there is a plan from c; 10 where there is none with any such
// bound, or the first of 1 to 5, 7 and 8 that applies. For all numbers, lists and spaces.
// work: as many words as search takes for the largest bound that may be tried, n × (b + 1) at most 8,192; else as `least_credit`.
pub fn least_bound(
    given: &Given,
    c: u32,
    barred: u8,
    on: Switches,
    work: &mut [u16],
) -> Result<u32, Refusal>
    ensures { LeastOf Bound given.now.n given.now.start given.now.k (lists_of given.now.lists) barred on c work.old work.new result }
{
    least(given, Sought::Bound, c, barred, on, work)
}
