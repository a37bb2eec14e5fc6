// Whether a net has a plan, at a cost that does not depend on the bound (document 02, Ask 12). All modes with a peak are tested together: a set of
// peaks, from all of which at once the levels are closed one after the other; those that are reached again in the last level with their peak or more
// stay. Where none is left there is no plan; where all stay there is one. A table has a word for each mode: 0 for none, and else the charge plus 1; a word
// and no Option: see crate closing.
#![tactic(auto)]

ghost use Rattle.std.specs.Prelude.{◌≡◌, true, ◌||◌, ◌↔◌, ◌+◌, ◌≤◌, ◌<◌, length};
ghost use Rattle.limits.specs.Ceilings.{colours_most};
ghost use Rattle.model.specs.Required.{required};
ghost use Rattle.passes.specs.Outcome.{KeptPeak, FirstKept};
ghost use Rattle.closing.specs.Stratum.{stratum};
ghost use Rattle.closing.specs.Tables.{Closes, PeaksFound};
ghost use Rattle.sets.specs.Sets.{LastTable, sifted};
ghost use Rattle.deciding.specs.Deciding.{level_at, word, asked_net, net_of, Decidable, Askable, Below, Enterable, ClosedTo, EntersNext, Sifted, SiftedOnce, KeptFound};

use closing::{Level, MODES, close, find_peaks};
use duties::some_unmet;
use groups::Groups;

mod duties;

// What is asked: whether there is a plan from the start mode with the credit, under the bound, whose cycle meets so many duties. The modes are as many as the
// tables have words.
#[derive(Clone, Copy)]
pub struct Question {
    pub start: usize,
    pub duties: usize,
    pub credit: u32,
    pub bound: u32,
}

// How many of k colours are required: the duties of a model with these barred colours. A loop and no `filter(..).count()`: `required` counts the colours
// below j one after the other.
pub fn count_required(k: u32, barred: u8) -> u32
    requires { k ≤ colours_most }
    ensures { result ≡ required barred k }
{
    let mut count = 0;
    for j in 0..k {
        count += 1 - (u32::from(barred) >> j) % 2;
    }
    count
}

// The level with this number. Without duties every arc leaves level 0, so that a cycle has at least one arc.
fn level_of(question: Question, arcs: usize, level: usize) -> Level
    ensures { result ≡ level_at arcs question.duties question.bound level }
{
    if question.duties == 0 {
        return Level {
            arcs,
            level,
            last: 1,
            every: level < 1,
            lasting: true,
            bound: question.bound,
        };
    }
    Level {
        arcs,
        level,
        last: question.duties,
        every: false,
        lasting: true,
        bound: question.bound,
    }
}

// Closes the last level, which no arc leaves. Two functions, with enter_next: the last level's later table is thrown away, so each promises another table.
fn close_last(groups: &Groups, level: Level, best: &mut [u32])
    requires { Enterable (stratum groups.now.rows level) groups.now.places best.old }
    ensures { ClosedTo (stratum groups.now.rows level) best.old best.new }
{
    let modes = best.len();
    let mut later = [0u32; MODES];
    close(groups, level, best, &mut later[..modes]);
}

// Closes a level, and makes of its table the one with which the next level is entered.
fn enter_next(groups: &Groups, level: Level, best: &mut [u32])
    requires { Enterable (stratum groups.now.rows level) groups.now.places best.old }
    ensures { EntersNext (stratum groups.now.rows level) best.old best.new }
{
    let modes = best.len();
    let mut later = [0u32; MODES];
    close(groups, level, best, &mut later[..modes]);
    best.copy_from_slice(&later[..modes]);
}

// The word of a member that is reached again with its peak or more stays.
fn sift_word(member: u32, reached: u32) -> u32
    ensures { result ≡ sifted member reached }
{
    if member <= reached { member } else { 0 }
}

// What sifting makes of a set: no member is left, all have stayed, or some have stayed and not all.
#[derive(Clone, Copy)]
pub enum Sifting {
    Empty,
    Same,
    Fewer,
}

// Takes out of the set the members that are not reached again with their peak or more. By the number of the mode and no zip: `SiftedTo` says what stands
// below it in both.
fn sift(set: &mut [u32], last: &[u32]) -> Sifting
    requires { length last.now ≡ length set.old }
    ensures { Sifted set.old last.now set.new result }
{
    let mut changed = false;
    let mut some = false;
    for (v, reached) in last.iter().enumerate() {
        let member = set[v];
        let kept = sift_word(member, *reached);
        set[v] = kept;
        changed |= kept < member;
        some |= 0 < kept;
    }
    if !some {
        Sifting::Empty
    } else if changed {
        Sifting::Fewer
    } else {
        Sifting::Same
    }
}

// What is asked, with the groups of the model that it is asked of. What is asked of both (Askable) stands in the contracts and not in a ghost field: it has
// the number of modes, the length of the tables.
#[derive(Clone, Copy)]
struct Asked<'a> {
    groups: &'a Groups,
    question: Question,
}

impl Asked<'_> {
    // Makes of a set of peaks the greatest charges with which the modes are reached in the last level from its members, over arcs that last.
    fn tour(&self, best: &mut [u32])
        requires { Askable self.now (length best.old) × Below self.now.question.bound best.old }
        ensures { LastTable (net_of self.now (length best.old)) self.now.question.bound (word best.old) (word best.new) }
    {
        let arcs = self.groups.first_place(best.len() + 1);
        let last = self.question.duties.max(1);
        for level in 0..last {
            enter_next(self.groups, level_of(self.question, arcs, level), best);
        }
        close_last(self.groups, level_of(self.question, arcs, last), best);
    }

    // Makes in last the table of a tour from all members of the set.
    fn tour_from(&self, set: &[u32], last: &mut [u32])
        requires { Askable self.now (length set.now) × Below self.now.question.bound set.now × (length last.old ≡ length set.now) }
        ensures { LastTable (net_of self.now (length set.now)) self.now.question.bound (word set.now) (word last.new) }
    {
        last.copy_from_slice(set);
        self.tour(last);
    }

    // One tour from all members of the set, and the set sifted by it.
    fn sift_once(&self, set: &mut [u32]) -> Sifting
        requires { Askable self.now (length set.old) × Below self.now.question.bound set.old }
        ensures { SiftedOnce (net_of self.now (length set.old)) self.now.question.bound set.old set.new result }
    {
        let modes = set.len();
        let mut last = [0u32; MODES];
        self.tour_from(set, &mut last[..modes]);
        sift(set, &last[..modes])
    }

    // The set of all peaks, sifted until it keeps all its members; whether it has some.
    fn sift_all(&self, set: &mut [u32]) -> bool
        requires { Askable self.now (length set.old) }
        ensures { KeptFound (net_of self.now (length set.old)) self.now.question.bound self.now.question.credit set.new result }
    {
        find_peaks(
            self.groups,
            self.question.start,
            self.question.credit,
            self.question.bound,
            set,
        );
        loop {
            match self.sift_once(set) {
                Sifting::Empty => return false,
                Sifting::Same => return true,
                Sifting::Fewer => {}
            }
        }
    }

    // Whether a cycle keeps the charge of a mode's word, if it has one: a tour from that mode alone.
    fn keeps(&self, modes: usize, mode: usize, member: u32) -> bool
        requires { Askable self.now modes × (mode < modes) × (member ≤ self.now.question.bound + 1) }
        ensures { (result ≡ true) ↔ KeptPeak (net_of self.now modes) self.now.question.bound mode member }
    {
        if member == 0 {
            return false;
        }
        let mut last = [0u32; MODES];
        last[mode] = member;
        self.tour(&mut last[..modes]);
        member <= last[mode]
    }
}

// Finds the set of peaks that keeps all its members, and whether it has some: then there is a plan, and one of them is kept by a cycle. Set has a word for
// each mode; what stands in it before does not matter. Where some duty is on no arc that may stand in a cycle, the set is empty at once.
pub fn find_kept(groups: &Groups, question: Question, set: &mut [u32]) -> bool
    requires { Decidable groups.now.rows groups.now.places question (length set.old) }
    ensures { KeptFound (asked_net groups.now.rows groups.now.places question (length set.old)) question.bound question.credit set.new result }
{
    let arcs = groups.first_place(set.len() + 1);
    if some_unmet(groups, arcs, question.duties) {
        set.fill(0);
        return false;
    }
    let asked = Asked { groups, question };
    asked.sift_all(set)
}

// The first member of a set whose peak a cycle keeps. A loop and no `find`: `NoneKept` says of each turn that no mode below has such a peak.
pub fn first_kept(groups: &Groups, question: Question, set: &[u32]) -> Option<usize>
    requires { Decidable groups.now.rows groups.now.places question (length set.now) × Below question.bound set.now }
    ensures { FirstKept (asked_net groups.now.rows groups.now.places question (length set.now)) question.bound set.now result }
{
    let asked = Asked { groups, question };
    for (mode, member) in set.iter().enumerate() {
        if asked.keeps(set.len(), mode, *member) {
            return Some(mode);
        }
    }
    None
}
