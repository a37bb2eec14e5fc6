// The pass: the greatest charge with which each node, a level and a mode, is reached, and an arc that closes a cycle. A table has a word for each
// node, 0 for none and else the charge plus 1: Queue and Passed, and the theory of nets, speak of these words.
ghost use Rattle.std.specs.Prelude.{◌≡◌, ◌&&◌, ◌+◌, ◌*◌, ◌≤◌, ◌<◌, eqb, length, get_or, set, replicate};
ghost use Rattle.limits.specs.Ceilings.{modes_most, arcs_most, colours_most, bound_most, work_words};
ghost use Rattle.passes.specs.Pass.{node, closes_at, Ready};
ghost use Rattle.passes.specs.Queue.{word_count, Pushed, Arrives, Arrived, Running, Passed};
ghost use Rattle.passes.specs.Tasks.{level_after, pass_in, entry_of, Trying, Relaxed, VisitedAt};

use crate::entries::{EntryWords, push, words_of};
use groups::Groups;
use walks::bounded_step;

// What a search is for: the model's modes, its start mode and the number of its required colours, which are the duties; whether an arc may have
// a barred colour; the credit and the bound. The groups have the model's arcs.
#[derive(Clone, Copy)]
pub struct Task {
    pub modes: usize,
    pub start: usize,
    pub duties: usize,
    pub barred: bool,
    pub credit: u16,
    pub bound: u16,
}

// What a pass is for: whether its arcs have to last, as those of a cycle have to, so that none has a barred colour; it goes over the levels 0 to
// last, and an arc that comes to the node goal with the charge least or more closes the cycle, and ends the pass.
#[derive(Clone, Copy)]
pub struct Aim {
    pub lasting: bool,
    pub last: usize,
    pub goal: usize,
    pub least: u16,
}

// A pass over the groups of a model: the task, and what this pass of it is for.
#[derive(Clone, Copy)]
pub struct Pass<'a> {
    pub groups: &'a Groups,
    pub task: Task,
    pub aim: Aim,
}

// An entry of the queue, with the level and the mode of its node.
#[derive(Clone, Copy)]
pub struct Entry {
    pub index: usize,
    pub level: usize,
    pub mode: usize,
    pub charge: u16,
}

// An arc that closes the cycle: the entry that it was tried at, and the arc's number.
#[derive(Clone, Copy)]
pub struct Closing {
    pub head: usize,
    pub arc: usize,
}

// What trying an arc gives, or all arcs at an entry, or a whole pass: the arc that closes the cycle, where one does; and the number of entries of
// the queue.
#[derive(Clone, Copy)]
pub struct Outcome {
    pub found: Option<Closing>,
    pub tail: usize,
}

// The table and the working space stay two parameters: a struct of the two, which are lent to be written, would need a further clause in each
// contract from here on, that its references are the same afterwards; tail goes in and comes back in the Outcome.

// The first entry, and its word of the table.
fn begin(best: &mut [u16], work: &mut [u16], node: usize, charge: u16)
    requires { (node < length best.old) × (length best.old ≤ word_count) × (charge ≤ bound_most) × (work_words ≤ length work.old) }
    ensures { (best.new ≡ set best.old node (charge + 1)) × Pushed work.old 0 node charge 0 0 work.new }
{
    best[node] = charge + 1;
    let words = EntryWords {
        node: node as u16,
        charge,
        parent: 0,
        arc: 0,
    };
    push(work, 0, words);
}

// Whether an arc that comes to a node with a charge closes the cycle.
#[tactic(auto, unfolding(crate::specs::Pass::closes_at))]
fn closes(aim: Aim, node: usize, charge: u16) -> bool
    ensures { result ≡ closes_at aim.goal aim.least node charge }
{
    node == aim.goal && charge >= aim.least
}

// An entry is found, an arc from the entry before it to a node with a charge: the arc closes the cycle, or where the table has less, the table rises and
// the entry is added.
fn arrive(aim: Aim, words: EntryWords, best: &mut [u16], work: &mut [u16], tail: usize) -> Outcome
    requires { Arrives best.old work.old tail words.node words.charge words.parent words.arc }
    ensures { Arrived aim.goal aim.least best.old work.old tail words.node words.charge words.parent words.arc best.new work.new result.found result.tail }
{
    let node = usize::from(words.node);
    if closes(aim, node, words.charge) {
        let found = Some(Closing {
            head: usize::from(words.parent),
            arc: usize::from(words.arc),
        });
        return Outcome { found, tail };
    }
    if words.charge < best[node] {
        return Outcome { found: None, tail };
    }
    best[node] = words.charge + 1;
    push(work, tail, words);
    Outcome {
        found: None,
        tail: tail + 1,
    }
}

// The level after an arc with these required colours, of the levels 0 to last: the duty of level l is at bit l.
#[tactic(auto, unfolding(crate::specs::Tasks::level_after))]
fn next_level(colours: u16, level: usize, last: usize) -> usize
    requires { (level ≤ last) × (last ≤ colours_most) }
    ensures { result ≡ level_after last colours level }
{
    if level < last && (colours >> level) % 2 == 1 {
        level + 1
    } else {
        level
    }
}

// The node that an arc enters from a level, of the levels 0 to last.
fn entered(modes: usize, last: usize, level: usize, target: usize, colours: u16) -> usize
    requires { (level ≤ last) × (last ≤ colours_most) × (modes ≤ modes_most) × (target < modes) }
    ensures { result ≡ node modes (level_after last colours level) target }
{
    let level = next_level(colours, level, last);
    level * modes + target
}

// The entry of the queue with these words, of this many modes.
fn entry_of(modes: usize, index: usize, words: EntryWords) -> Entry
    requires { 0 < modes }
    ensures { result ≡ entry_of modes index words }
{
    let node = usize::from(words.node);
    Entry {
        index,
        level: node / modes,
        mode: node % modes,
        charge: words.charge,
    }
}

// Whether the charge of an entry is the greatest of its node.
fn is_greatest(best: &[u16], words: EntryWords) -> bool
    requires { (words.node < length best.now) × (words.charge ≤ bound_most) }
    ensures { result ≡ eqb (get_or best.now words.node 0) (words.charge + 1) }
{
    best[usize::from(words.node)] == words.charge + 1
}

impl Pass<'_> {
    // Tries the arc at place i, one of its mode's, at an entry.
    fn relax(
        &self,
        entry: Entry,
        i: usize,
        best: &mut [u16],
        work: &mut [u16],
        tail: usize,
    ) -> Outcome
        requires { Trying self.now.groups.now.rows self.now.groups.now.places self.now.task self.now.aim entry i best.old work.old tail }
        ensures { Relaxed (pass_in self.now) entry i best.old work.old tail best.new work.new result }
    {
        let arc = self.groups.arc_placed(i);
        let aim = self.aim;
        if self.groups.is_left_out(aim.lasting, arc) {
            return Outcome { found: None, tail };
        }
        match bounded_step(
            entry.charge,
            self.groups.draw_of(arc),
            self.groups.gain_of(arc),
            self.task.bound,
        ) {
            Some(step) => {
                let node = entered(
                    self.task.modes,
                    aim.last,
                    entry.level,
                    self.groups.target_of(arc),
                    self.groups.colours_of(arc),
                );
                let words = EntryWords {
                    node: node as u16,
                    charge: step.charge,
                    parent: entry.index as u16,
                    arc: arc as u16,
                };
                arrive(aim, words, best, work, tail)
            }
            None => Outcome { found: None, tail },
        }
    }

    // Tries every arc that leaves the mode of an entry, at the places from the mode's first up to the next mode's; none where a greater charge is
    // known for the entry's node.
    fn visit(&self, head: usize, best: &mut [u16], work: &mut [u16], tail: usize) -> Outcome
        requires running { Running (pass_in self.now) best.old work.old tail }
        requires head_lt_tail { head < tail }
        ensures { VisitedAt (pass_in self.now) best.old work.old tail head best.new work.new result }
    {
        let words = words_of(work, head);
        if !is_greatest(best, words) {
            return Outcome { found: None, tail };
        }
        let entry = entry_of(self.task.modes, head, words);
        let end = self.groups.first_place(entry.mode + 1);
        let mut entries = tail;
        for i in self.groups.first_place(entry.mode)..end {
            let outcome = self.relax(entry, i, best, work, entries);
            if outcome.found.is_some() {
                return outcome;
            }
            entries = outcome.tail;
        }
        Outcome {
            found: None,
            tail: entries,
        }
    }

    // A pass from a node with a charge, with a table of zeros. Where no arc closes the cycle, the table has the greatest charge of each node plus
    // 1, 0 for none. The entries that reach them are in the working space.
    pub fn run(&self, node: usize, charge: u16, best: &mut [u16], work: &mut [u16]) -> Outcome
        requires ready { Ready (pass_in self.now) (length best.old) (length work.old) }
        requires begins { (node < length best.old) × (charge ≤ self.now.task.bound) × (best.old ≡ replicate (length best.old) 0) }
        ensures { Passed (pass_in self.now) node charge best.new work.new result.found result.tail }
    {
        begin(best, work, node, charge);
        // Not a `for`: the queue grows while it is gone over.
        let mut head = 0;
        let mut tail = 1;
        while head < tail {
            let outcome = self.visit(head, best, work, tail);
            if outcome.found.is_some() {
                return outcome;
            }
            tail = outcome.tail;
            head += 1;
        }
        Outcome { found: None, tail }
    }
}
