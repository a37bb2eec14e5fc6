// The gauge by value: starting it, and stepping it on one arc.
#![tactic(auto)]

ghost use Rattle.std.specs.Prelude.{◌≡◌, OnErr};
ghost use Rattle.refusals.specs.Refusals.{verdict_of, answer_of};
ghost use Rattle.model.specs.Lists.{lists_of, automaton_of};
ghost use Rattle.model.specs.Fitness.{Header};
ghost use Rattle.gauge.specs.Gauge.{no_gauge, gauge_or, started_of, started_answer, landed, moved_of, mixed_up, moved_matched, stepped_of, stepped_answer};

use model::{Given, check_fitness, check_levels};
use refusals::Refusal;
use walks::{Step, bounded_step};

// Where a walk stands: the mode, the charge, and the total of the charge that was lost at the bound since the start; and what the gauge was
// started with: the numbers of modes and arcs, and the bound. C has the same struct.
#[repr(C)]
#[derive(Clone, Copy)]
pub struct Gauge {
    pub mode: u8,
    pub charge: u16,
    pub spill: u64,
    pub modes: u8,
    pub arcs: u8,
    pub bound: u16,
}

impl Gauge {
    // What stands for a gauge where there is none, as after a refused start.
    pub fn none() -> Gauge
        ensures { result ≡ no_gauge }
    {
        Gauge {
            mode: 0,
            charge: 0,
            spill: 0,
            modes: 0,
            arcs: 0,
            bound: 0,
        }
    }

    // The gauge after a step that is possible, in this mode: moved on, or 15 where the total would pass 64 bits.
    fn land(self, mode: u8, step: Step) -> Result<Gauge, Refusal>
        ensures { result ≡ landed self mode (Some step) }
    {
        let total = self.spill.checked_add(u64::from(step.lost));
        let spill = total.ok_or(Refusal::ImpossibleStep(0))?;
        Ok(Gauge {
            mode,
            charge: step.charge,
            spill,
            ..self
        })
    }

    // A step on an arc of the lists, which 1 to 4 let through: 12, 13 and 15, or the gauge moved on. It reads the one arc, and makes no `Model`, which
    // is 2 KB of stack.
    #[tactic(auto, using(crate::proofs::Gauges::lists_number, crate::proofs::Gauges::lists_mode, crate::proofs::Gauges::lists_lands))]
    fn step_on(self, given: &Given, b: u16, arc: u32) -> Result<Gauge, Refusal>
        requires { Header given.now.n given.now.start given.now.k (lists_of given.now.lists) }
        ensures { result ≡ moved_of (automaton_of given.now.n given.now.start given.now.k (lists_of given.now.lists)) b arc self }
    {
        let taken = given.lists.arc(arc as usize).ok_or(Refusal::ArcNumber(0))?;
        if taken.source != self.mode {
            return Err(Refusal::OtherMode(0));
        }
        let stepped = bounded_step(self.charge, taken.draw, taken.gain, b);
        let step = stepped.ok_or(Refusal::ImpossibleStep(0))?;
        self.land(taken.target, step)
    }

    // Refusal 22: whether the gauge was started with another number of modes, another number of arcs or another bound.
    #[tactic(auto, unfolding(crate::specs::Gauge::mixed_up))]
    fn mixed_up(self, modes: u8, arcs: u8, b: u16) -> bool
        ensures { result ≡ mixed_up modes arcs b self }
    {
        self.modes != modes || self.arcs != arcs || self.bound != b
    }

    // Refusal 22, and the step, where 6 does not apply.
    #[tactic(auto, using(crate::proofs::Gauges::lists_mixed, crate::proofs::Gauges::lists_matched))]
    fn step_matched(self, given: &Given, b: u16, arc: u32) -> Result<Gauge, Refusal>
        requires { Header given.now.n given.now.start given.now.k (lists_of given.now.lists) }
        ensures { result ≡ moved_matched (automaton_of given.now.n given.now.start given.now.k (lists_of given.now.lists)) b arc self }
    {
        if self.mixed_up(given.n as u8, given.lists.sources.len() as u8, b) {
            return Err(Refusal::MixedGauge);
        }
        self.step_on(given, b, arc)
    }

    // A new gauge with the start mode and the credit c, which carries n, the number of arcs and b; or the first of 1 to 6 that applies. For all
    // numbers and lists.
    #[tactic(auto, using(crate::proofs::Gauges::start_unfit, crate::proofs::Gauges::start_levels, crate::proofs::Gauges::start_fit))]
    pub fn start(given: &Given, c: u32, b: u32) -> Result<Gauge, Refusal>
        ensures gauged { result ≡ started_of given.now.n given.now.start given.now.k (lists_of given.now.lists) b c }
        ensures refused { OnErr result (gauge_or no_gauge result ≡ no_gauge) }
        ensures answer { answer_of (verdict_of result) ≡ started_answer given.now.n given.now.start given.now.k (lists_of given.now.lists) b c }
    {
        check_fitness(given)?;
        check_levels(c, b)?;
        Ok(Gauge {
            mode: given.start as u8,
            charge: c as u16,
            spill: 0,
            modes: given.n as u8,
            arcs: given.lists.sources.len() as u8,
            bound: b as u16,
        })
    }

    // The gauge after a step on an arc, or the first of 1 to 6, 22, 12, 13 and 15 that applies; the caller has the gauge as found. For all
    // gauges, numbers and lists.
    #[tactic(auto, using(crate::proofs::Gauges::step_unfit, crate::proofs::Gauges::step_levels, crate::proofs::Gauges::step_fit))]
    pub fn step(self, given: &Given, b: u32, arc: u32) -> Result<Gauge, Refusal>
        ensures gauged { result ≡ stepped_of given.now.n given.now.start given.now.k (lists_of given.now.lists) b arc self }
        ensures refused { OnErr result (gauge_or self result ≡ self) }
        ensures answer { answer_of (verdict_of result) ≡ stepped_answer given.now.n given.now.start given.now.k (lists_of given.now.lists) b arc self }
    {
        let charge = u32::from(self.charge);
        check_fitness(given)?;
        check_levels(charge, b)?;
        self.step_matched(given, b as u16, arc)
    }
}
