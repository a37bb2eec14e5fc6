// A level closed (document 02, Ask 9; document 001, section 4): the greatest charge with which each mode is reached. Loops that gain are raised to
// their top in one step, so that the cost does not depend on the bound. A table has a word for each mode: 0 for none, and else the charge plus 1. It is
// a word and no Option, since the decision's set stands in the words that C lends, and the theory (`Spread`, `ClosedLevel`, `KeptPeak`) speaks of words.
#![tactic(auto)]

ghost use Rattle.std.specs.Prelude.{◌≡◌, ◌<◌, length, set, replicate};
ghost use Rattle.closing.specs.Stratum.{stratum};
ghost use Rattle.closing.specs.Tables.{Closable, Closes, Findable, PeaksFound};

use groups::Groups;
use limits::Limits;

mod loops;
mod rounds;
mod steps;

// A level, of the levels 0 to last, over so many arcs, under a bound. An arc leaves the level where every arc does, or below the last level where it
// meets the level's duty. lasting: no arc with a barred colour may be used. Every, level and last are no enum: `leaves_by`, `level_at` and the theory over the
// levels 0 to last read the three.
#[derive(Clone, Copy)]
pub struct Level {
    pub arcs: usize,
    pub level: usize,
    pub last: usize,
    pub every: bool,
    pub lasting: bool,
    pub bound: u32,
}

// A level with the arcs of a model, grouped: what is closed. The tables best and later are lent to each method: as fields of a struct, each method would
// have to promise that they are still the same two. Ready stands in the contracts and not in a ghost field: it has the number of modes, the length of
// the tables.
#[derive(Clone, Copy)]
struct Stage<'a> {
    groups: &'a Groups,
    level: Level,
}

// The words of a table: one for each mode.
pub const MODES: usize = Limits::MODES as usize;

// What is noted of the modes while a level is closed: the word that each had when its arcs were last tried, and the arc over which it last rose; none
// where it has not risen, and where it is full, so that no loop can raise it. Two arrays: most methods are lent the hints alone.
#[derive(Clone, Copy)]
pub struct Notes {
    pub done: [u32; MODES],
    pub hints: [Option<u8>; MODES],
}

// Makes the table with one entry.
fn set_only(words: &mut [u32], at: usize, y: u32)
    requires { at < length words.old }
    ensures { words.new ≡ set (replicate (length words.old) 0) at y }
{
    words.fill(0);
    words[at] = y;
}

// Closes a level: best becomes the table of the greatest charges with which the modes are reached from its entries over arcs that stay in the level,
// and later what the arcs that leave it make of them. What stands in later before does not matter.
pub fn close(groups: &Groups, level: Level, best: &mut [u32], later: &mut [u32])
    requires { Closable (stratum groups.now.rows level) groups.now.places best.old later.old }
    ensures { Closes (stratum groups.now.rows level) best.old best.new later.new }
{
    later.fill(0);
    let mut notes = Notes {
        done: [0; MODES],
        hints: [None; MODES],
    };
    let stage = Stage { groups, level };
    while stage.round(best, later, &mut notes) {}
}

// Finds the peaks: the greatest charge with which each mode is reached from the start mode with the credit. Best has a word for each mode.
pub fn find_peaks(groups: &Groups, start: usize, credit: u32, bound: u32, best: &mut [u32])
    requires { Findable groups.now.rows groups.now.places start credit bound best.old }
    ensures { PeaksFound groups.now.rows groups.now.places (length best.old) start credit bound best.new }
{
    let modes = best.len();
    let arcs = groups.first_place(modes + 1);
    let level = Level {
        arcs,
        level: 0,
        last: 0,
        every: false,
        lasting: false,
        bound,
    };
    let mut later = [0u32; MODES];
    set_only(best, start, credit + 1);
    close(groups, level, best, &mut later[..modes]);
}
