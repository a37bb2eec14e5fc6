// A plan or that there is none: the first mode whose peak a cycle keeps, as the crate deciding finds it, and the prefix and the cycle that are written.
ghost use Rattle.std.specs.Prelude.{◌≡◌, true, ◌↔◌, ◌≤◌, ◌<◌, length};
ghost use Rattle.limits.specs.Ceilings.{plan_buffer};
ghost use Rattle.nets.specs.Table.{KeptCycle};
ghost use Rattle.nets.specs.Net.{AcceptedLasso};
ghost use Rattle.passes.specs.Pass.{nodes, room};
ghost use Rattle.passes.specs.Outcome.{Peak, CyclePassed, PrefixWritten, CycleWritten};
ghost use Rattle.search.specs.Search.{no_plan};
ghost use Rattle.search.specs.Tasks.{net_of, CanSearch, question_of, PrefixPassed, Written};

use crate::Lengths;
use closing::MODES;
use deciding::{Question, find_kept, first_kept};
use groups::Groups;
use limits::Limits;
use passes::entries::trace;
use passes::pass::{Aim, Closing, Pass, Task};
use refusals::Refusal;

// The most nodes of a pass.
const NODES: usize = ((Limits::COLOURS as usize) + 1) * MODES;

// A search for a plan: the groups and rows of a net that fits, and the task. That a search can go on (CanSearch) stands in the contracts and not in a
// ghost field: it is more than a fact, since it has the place of each arc that is on.
#[derive(Clone, Copy)]
pub struct Searching<'a> {
    pub groups: &'a Groups,
    pub task: Task,
}

impl Searching<'_> {
    // The two passes are two functions, since they promise different things and have tables of different sizes; so are the two that write. Mode, charge
    // and working space travel in all four: what each pass is asked differs, and a struct would be made and opened at each call. The pass is made in
    // both, and both that write end in the same three lines: a function of either would need a contract that says its body again.
    //
    // The pass to a mode with its peak: from the start mode with the credit, over a single level. It ends at the first arc that comes there with the peak or
    // more, and no charge of the mode is above its peak.
    fn find_prefix(&self, mode: usize, peak: u16, work: &mut [u16]) -> Closing
        requires searchable { CanSearch self.now (length work.old) }
        requires peak { Peak (net_of self.now) self.now.task.bound self.now.task.credit mode peak × ((mode ≡ self.now.task.start) × (peak ≡ self.now.task.credit) → ⊥) }
        ensures { PrefixPassed (net_of self.now) self.now.task.bound self.now.task.credit mode peak work.new result.head result.arc }
    {
        let task = self.task;
        let aim = Aim {
            lasting: false,
            last: 0,
            goal: mode,
            least: peak,
        };
        let pass = Pass {
            groups: self.groups,
            task,
            aim,
        };
        let mut best = [0u16; MODES];
        let outcome = pass.run(task.start, task.credit, &mut best[..task.modes], work);
        outcome.found.unwrap()
    }

    // The pass from a mode with a charge, over the arcs that last and a level for each duty and one more: an arc that comes back to the mode in the
    // last level with that charge or more closes the cycle. Where nothing is barred every arc lasts, and none is looked at for it.
    fn find_cycle(&self, mode: usize, charge: u16, work: &mut [u16]) -> Option<Closing>
        requires searchable { CanSearch self.now (length work.old) }
        requires within { (mode < self.now.task.modes) × (charge ≤ self.now.task.bound) }
        ensures { CyclePassed (net_of self.now) self.now.task.bound mode charge work.new result }
    {
        let task = self.task;
        let nodes = (task.duties + 1) * task.modes;
        let aim = Aim {
            lasting: task.barred,
            last: task.duties,
            goal: task.duties * task.modes + mode,
            least: charge,
        };
        let pass = Pass {
            groups: self.groups,
            task,
            aim,
        };
        let mut best = [0u16; NODES];
        pass.run(mode, charge, &mut best[..nodes], work).found
    }

    // Writes a prefix that leads to a mode with its peak, from byte 0 on, and returns its length: 0 at the beginning, and else the pass has a last arc.
    fn write_prefix(&self, mode: usize, peak: u16, work: &mut [u16], plan: &mut [u8]) -> usize
        requires searchable { CanSearch self.now (length work.old) }
        requires peak { Peak (net_of self.now) self.now.task.bound self.now.task.credit mode peak }
        requires fits { room self.now.task.modes self.now.task.bound ≤ length plan.old }
        ensures { PrefixWritten (net_of self.now) self.now.task.bound self.now.task.credit mode peak plan.old plan.new result }
    {
        if mode == self.task.start && peak == self.task.credit {
            return 0;
        }
        let end = self.find_prefix(mode, peak, work);
        let last = trace(work, end.head, plan);
        plan[last] = end.arc as u8;
        last + 1
    }

    // Writes a cycle from a mode that keeps a charge, from byte 0 of its part of the plan buffer on, and returns its length.
    fn write_cycle(&self, mode: usize, charge: u16, work: &mut [u16], part: &mut [u8]) -> usize
        requires searchable { CanSearch self.now (length work.old) }
        requires kept { (mode < self.now.task.modes) × (charge ≤ self.now.task.bound) × KeptCycle (net_of self.now) self.now.task.bound mode charge }
        requires fits { room (nodes self.now.task.modes self.now.task.duties) self.now.task.bound ≤ length part.old }
        ensures { CycleWritten (net_of self.now) self.now.task.bound mode charge part.old part.new result }
    {
        let end = self.find_cycle(mode, charge, work).unwrap();
        let last = trace(work, end.head, part);
        part[last] = end.arc as u8;
        last + 1
    }

    // What is asked of the crate deciding, in its words of 32 bits. It is no `From`: neither type is this crate's.
    fn question(&self) -> Question
        ensures { result ≡ question_of self.now.task }
    {
        Question {
            start: self.task.start,
            duties: self.task.duties,
            credit: u32::from(self.task.credit),
            bound: u32::from(self.task.bound),
        }
    }

    // A plan, or that there is none: a prefix to the first mode whose peak a cycle keeps, and straight after it that cycle. Where there is none no pass
    // runs, so that the working space is as it was; else it is left as the passes leave it.
    pub fn make_plan(&self, work: &mut [u16], plan: &mut [u8]) -> Result<Lengths, Refusal>
        requires searchable { CanSearch self.now (length work.old) }
        requires fits { plan_buffer self.now.task.duties self.now.task.modes self.now.task.bound ≤ length plan.old }
        ensures no_plan { (result ≡ no_plan) ↔ (AcceptedLasso (net_of self.now) self.now.task.bound self.now.task.credit → ⊥) }
        ensures answered { Written (net_of self.now) self.now.task.bound self.now.task.credit plan.old plan.new result }
    {
        let modes = self.task.modes;
        let question = self.question();
        let mut kept = [0u32; MODES];
        if !find_kept(self.groups, question, &mut kept[..modes]) {
            return Err(Refusal::NoPlan);
        }
        let mode = first_kept(self.groups, question, &kept[..modes]).unwrap();
        let peak = (kept[mode] - 1) as u16;
        let p = self.write_prefix(mode, peak, work, plan);
        let q = self.write_cycle(mode, peak, work, &mut plan[p..]);
        let lengths = Lengths {
            p: p as u32,
            q: q as u32,
        };
        Ok(lengths)
    }
}
