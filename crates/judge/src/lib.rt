// Judging: whether a plan of any origin is feasible and accepted for a model. Refusals 1 to 6, 11 to 16, 24 and 17, top to bottom.
#![tactic(auto)]

ghost use Rattle.std.specs.Prelude.{◌≡◌, ◌+◌, ◌*◌, ◌^◌, ◌≤◌, ◌<◌, length, drop, Err};
ghost use Rattle.limits.specs.Ceilings.{plan_most};
ghost use Rattle.refusals.specs.Refusals.{and_then, answer_of};
ghost use Rattle.model.specs.Lists.{lists_of, held};
ghost use Rattle.model.specs.Fitness.{Holds};
ghost use Rattle.judge.specs.Shape.{plan_of, length_of, numbers, path, shape};
ghost use Rattle.judge.specs.Charges.{ran, second_round, rounds, charges};
ghost use Rattle.judge.specs.Colours.{met_by, barred_from, colours_of, accepted_of};
ghost use Rattle.judge.specs.Judged.{serves_of, judged_plan, judged_levels, judged_model, judged, judged_answer, ArcNumbers};

use limits::Limits;
use model::{Given, Model, check_levels, check_model};
use refusals::Refusal;
use walks::bounded_step;

// A plan as it is given: the lengths of its prefix and its cycle, and the numbers of its arcs. Nothing is known of them: p and q as C passes them;
// 11 is about their sum.
#[derive(Clone, Copy)]
pub struct GivenPlan<'a> {
    pub p: u32,
    pub q: u32,
    pub arcs: &'a [u8],
}

// A model that is fit, and what judging says of a plan for it: yes, or the first of 6, 11 to 16, 24 and 17 that applies.
#[derive(Clone, Copy)]
pub struct JudgedModel {
    pub verdict: Result<(), Refusal>,
    pub model: Model,
}

// Refusal 11. The sum of p and q, of 32 bits each, is made in 64 and cannot wrap.
#[tactic(auto, unfolding(crate::specs::Shape::length_of))]
fn check_length(p: u32, q: u32, length: usize) -> Result<(), Refusal>
    ensures { result ≡ length_of p q length }
{
    if q == 0 || (p as usize) + (q as usize) != length || length > Limits::PLAN {
        return Err(Refusal::PlanLength);
    }
    Ok(())
}

// Refusal 12, in the plan from a position on. The position is an index: tried with `enumerate().skip(from)`, and the proof did not close.
#[tactic(auto, using(crate::proofs::Scans::number_turns))]
fn check_numbers(count: u8, plan: &[u8], from: usize) -> Result<(), Refusal>
    requires { (length plan.now ≤ plan_most) × (from ≤ length plan.now) }
    ensures { result ≡ numbers count (drop from plan.now) from }
{
    for i in from..plan.len() {
        if plan[i] >= count {
            return Err(Refusal::ArcNumber(i as u32));
        }
    }
    Ok(())
}

// Refusals 12 and 13 where the arc at a position leaves another mode: 12 in the rest of the plan comes first. A function of its own: tried within
// check_path, and the proof did not close.
fn other_mode(count: u8, plan: &[u8], at: usize) -> Result<(), Refusal>
    requires { (length plan.now ≤ plan_most) × (at < length plan.now) }
    ensures { result ≡ and_then (numbers count (drop (at + 1) plan.now) (at + 1)) (Err (Refusal.OtherMode at)) }
{
    check_numbers(count, plan, at + 1)?;
    Err(Refusal::OtherMode(at as u32))
}

// Refusals 12 to 14, in one scan. The cycle begins at position p, in the mode that the arc there leaves.
#[tactic(auto, using(crate::proofs::Paths::path_turns))]
fn check_path(model: &Model, plan: &[u8], p: usize) -> Result<(), Refusal>
    requires { Holds model.now × (p < length plan.now) × (length plan.now ≤ plan_most) }
    ensures { result ≡ path (held model.now) p plan.now }
{
    let count = model.count;
    let mut mode = model.start;
    for (i, &number) in plan.iter().enumerate() {
        if number >= count {
            return Err(Refusal::ArcNumber(i as u32));
        }
        let arc = model.arcs[usize::from(number)];
        if arc.source != mode {
            return other_mode(count, plan, i);
        }
        mode = arc.target;
    }
    let first = model.arcs[usize::from(plan[p])];
    if first.source != mode {
        return Err(Refusal::OpenCycle);
    }
    Ok(())
}

// Refusals 11 to 14. `Holds model` stands in clauses: Model has no invariant, since crate groups reads models that are not fit; a struct around the
// model alone would be opened at once.
#[tactic(auto, using(crate::proofs::Shapes::lengths), unfolding(crate::specs::Shape::shape))]
fn check_shape(model: &Model, plan: &GivenPlan) -> Result<(), Refusal>
    requires { Holds model.now }
    ensures { result ≡ shape (held model.now) plan.now.p plan.now.q plan.now.arcs.now }
{
    check_length(plan.p, plan.q, plan.arcs.len())?;
    check_path(model, plan.arcs, plan.p as usize)
}

// The charge at the end of the arcs, walked one after the other from a charge, or refusal 15; the first step has the number `step`.
#[tactic(auto, using(crate::proofs::Scans::ran_turns))]
fn run(model: &Model, arcs: &[u8], bound: u16, charge: u16, step: u32) -> Result<u16, Refusal>
    requires { ArcNumbers model.now arcs.now × (step + length arcs.now ≤ 2 * plan_most) }
    ensures { result ≡ ran (held model.now) bound arcs.now step charge }
{
    let mut reached = charge;
    for (i, &number) in arcs.iter().enumerate() {
        let arc = model.arcs[usize::from(number)];
        let Some(next) = bounded_step(reached, arc.draw, arc.gain, bound) else {
            return Err(Refusal::ImpossibleStep(step + (i as u32)));
        };
        reached = next.charge;
    }
    Ok(reached)
}

// A plan that has its shape, of a fit model: the arcs of its prefix and those of its cycle.
#[derive(Clone, Copy)]
struct Shaped<'a> {
    model: &'a Model,
    prefix: &'a [u8],
    cycle: &'a [u8],
    ghost fit: { Holds model.now },
    ghost leads: { ArcNumbers model.now prefix.now },
    ghost turns: { ArcNumbers model.now cycle.now },
    ghost short: { length prefix.now + length cycle.now ≤ plan_most },
}

impl Shaped<'_> {
    // Refusals 15 and 16 in the second round, where the first began with `before` and ended lower, with `charge`.
    #[tactic(auto, unfolding(crate::specs::Charges::second_round))]
    fn check_second(&self, bound: u16, before: u16, charge: u16) -> Result<(), Refusal>
        requires { charge < before }
        ensures { result ≡ second_round (held self.now.model.now) bound self.now.cycle.now (length self.now.prefix.now + length self.now.cycle.now) before charge }
    {
        let step = (self.prefix.len() + self.cycle.len()) as u32;
        let end = run(self.model, self.cycle, bound, charge, step)?;
        if end < charge {
            return Err(Refusal::FallingCycle);
        }
        Ok(())
    }

    // Refusals 15 and 16 in two rounds of the cycle. Where the first ends no lower than it began, so does the second, and it need not be
    // walked.
    #[tactic(auto, using(crate::proofs::Runs::kept), unfolding(crate::specs::Charges::rounds))]
    fn check_rounds(&self, bound: u16, charge: u16) -> Result<(), Refusal>
        ensures { result ≡ rounds (held self.now.model.now) bound self.now.cycle.now (length self.now.prefix.now) charge }
    {
        let end = run(
            self.model,
            self.cycle,
            bound,
            charge,
            self.prefix.len() as u32,
        )?;
        if end >= charge {
            return Ok(());
        }
        self.check_second(bound, charge, end)
    }

    // Refusals 15 and 16.
    #[tactic(auto, unfolding(crate::specs::Charges::charges))]
    fn check_charges(&self, credit: u16, bound: u16) -> Result<(), Refusal>
        ensures { result ≡ charges (held self.now.model.now) bound credit (record { prefix = self.now.prefix.now; cycle = self.now.cycle.now }) }
    {
        let charge = run(self.model, self.prefix, bound, credit, 0)?;
        self.check_rounds(bound, charge)
    }

    // Refusal 24: the first arc of the cycle that has a barred colour. No arc of a fit model has a colour at or above k, so that the bits of the
    // byte there do not matter. Where nothing is barred no arc is looked at.
    #[tactic(auto, using(crate::proofs::Scans::barred_turns))]
    fn check_barred(&self, barred: u8) -> Result<(), Refusal>
        ensures { result ≡ barred_from (held self.now.model.now) barred self.now.cycle.now (length self.now.prefix.now) }
    {
        if barred == 0 {
            return Ok(());
        }
        for (i, &number) in self.cycle.iter().enumerate() {
            let arc = self.model.arcs[usize::from(number)];
            if arc.colours & barred != 0 {
                return Err(Refusal::BarredColour((self.prefix.len() + i) as u32));
            }
        }
        Ok(())
    }

    // The colours of a mask and those that the arcs of the cycle meet, as a mask. It stops where all of the model's are in it.
    #[tactic(auto, using(crate::proofs::Scans::met_turns))]
    fn met_colours(&self, passed: u32, all: u32) -> u32
        requires { all + 1 ≡ 2 ^ self.now.model.now.colours }
        ensures { result ≡ met_by (held self.now.model.now) self.now.cycle.now passed }
    {
        let mut met = passed;
        for &number in self.cycle {
            if met == all {
                return met;
            }
            let arc = self.model.arcs[usize::from(number)];
            met |= u32::from(arc.colours);
        }
        met
    }

    // Refusal 17: the lowest bit of the mask of required colours not yet met. The barred colours are passed over: they are in the mask from the
    // beginning. No other colour is met by an arc of a fit model, so that what is missing is a difference.
    fn check_colours(&self, barred: u8) -> Result<(), Refusal>
        ensures { result ≡ colours_of (held self.now.model.now) barred self.now.cycle.now }
    {
        let all = (1u32 << self.model.colours) - 1;
        let missing = all - self.met_colours((barred as u32) & all, all);
        if missing == 0 {
            return Ok(());
        }
        Err(Refusal::MissingColour(missing.trailing_zeros()))
    }

    // Refusals 24 and 17: whether the plan is accepted.
    #[tactic(auto, unfolding(crate::specs::Colours::accepted_of))]
    fn check_accepted(&self, barred: u8) -> Result<(), Refusal>
        ensures { result ≡ accepted_of (held self.now.model.now) barred (record { prefix = self.now.prefix.now; cycle = self.now.cycle.now }) }
    {
        self.check_barred(barred)?;
        self.check_colours(barred)
    }

    // Refusals 15, 16, 24 and 17: whether the plan is feasible and accepted.
    #[tactic(auto, unfolding(crate::specs::Judged::serves_of))]
    fn check_serves(&self, credit: u16, bound: u16, barred: u8) -> Result<(), Refusal>
        ensures { result ≡ serves_of (held self.now.model.now) barred bound credit (record { prefix = self.now.prefix.now; cycle = self.now.cycle.now }) }
    {
        self.check_charges(credit, bound)?;
        self.check_accepted(barred)
    }
}

// Refusals 11 to 16, 24 and 17.
#[tactic(auto, unfolding(crate::specs::Judged::judged_plan))]
fn judge_plan(
    model: &Model,
    plan: &GivenPlan,
    credit: u16,
    bound: u16,
    barred: u8,
) -> Result<(), Refusal>
    requires { Holds model.now }
    ensures { result ≡ judged_plan (held model.now) barred bound credit plan.now.p plan.now.q plan.now.arcs.now }
{
    check_shape(model, plan)?;
    let (prefix, cycle) = plan.arcs.split_at(plan.p as usize);
    let shaped = Shaped {
        model,
        prefix,
        cycle,
    };
    shaped.check_serves(credit, bound, barred)
}

// Refusals 6, 11 to 16, 24 and 17.
#[tactic(auto, using(crate::proofs::Judged::levels), unfolding(crate::specs::Judged::judged_levels))]
fn judge_levels(model: &Model, plan: &GivenPlan, c: u32, b: u32, barred: u8) -> Result<(), Refusal>
    requires { Holds model.now }
    ensures { result ≡ judged_levels (held model.now) barred b c plan.now.p plan.now.q plan.now.arcs.now }
{
    check_levels(c, b)?;
    judge_plan(model, plan, c as u16, b as u16, barred)
}

// Judging, for calls that go on with the model: one of 1 to 5, or the model, and beside it what judging says of the plan. For all numbers, lists
// and plans. c, b and barred stay: model's line, beside Given, speaks for all.
#[tactic(auto, using(crate::proofs::Answers::model_answers))]
pub fn judge_model(
    given: &Given,
    c: u32,
    b: u32,
    barred: u8,
    plan: &GivenPlan,
) -> Result<JudgedModel, Refusal>
    ensures { result ≡ judged_model given.now.n given.now.start given.now.k (lists_of given.now.lists) barred b c plan.now.p plan.now.q plan.now.arcs.now }
{
    let model = check_model(given)?;
    Ok(JudgedModel {
        verdict: judge_levels(&model, plan, c, b, barred),
        model,
    })
}

// Judging, with a byte of barred colours: yes, or the first of 1 to 6, 11 to 16, 24 and 17 that applies. For all numbers, lists and plans.
#[tactic(auto, using(crate::proofs::Answers::told_unfit))]
pub fn judge(given: &Given, c: u32, b: u32, barred: u8, plan: &GivenPlan) -> Result<(), Refusal>
    ensures verdict { result ≡ judged given.now.n given.now.start given.now.k (lists_of given.now.lists) barred b c plan.now.p plan.now.q plan.now.arcs.now }
    ensures answer { answer_of result ≡ judged_answer given.now.n given.now.start given.now.k (lists_of given.now.lists) barred b c plan.now.p plan.now.q plan.now.arcs.now }
{
    let judged = judge_model(given, c, b, barred, plan)?;
    judged.verdict
}
