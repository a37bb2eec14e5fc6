// The table of greatest charges, by value (document 02, Ask 9): made afresh, and with an arc switched. It carries the switches that it was made for.
#![tactic(auto)]

ghost use Rattle.std.specs.Prelude.{◌≡◌, ℕ, ◌+◌, ◌≤◌, get_or};
ghost use Rattle.limits.specs.Ceilings.{modes_most, bound_most};
ghost use Rattle.model.specs.Lists.{lists_of, held};
ghost use Rattle.reach.specs.Table.{IsTable};
ghost use Rattle.reach.specs.Reach.{unreached_with, kept, left, StartOf, SwitchOf};
ghost use Rattle.reach.specs.Words.{charge_of, Charged, Tabled, Turned, levelled_model};

use closing::{MODES, find_peaks};
use groups::group;
use model::{Given, Model, check_levels, check_model};
use refusals::Refusal;
use switches::{Switches, is_on, switch};

// The word for a mode that cannot be reached; no charge is as high. It is no Option, since C reads the words.
pub const UNREACHED: u16 = 65535;

// The switches of the arcs, and for each mode the greatest charge with which it can be reached over arcs that are on, or UNREACHED, also for modes
// that are none of the model's. C has the same struct.
#[repr(C)]
#[derive(Clone, Copy)]
pub struct Reach {
    pub on: Switches,
    pub charges: [u16; MODES],
}

// The charge of a word of closing, whose tables have 0 for none and else the charge plus 1; in C's struct UNREACHED stands for none.
// The two cases are those of charge_of in specs; checked_sub and map_or are no plainer.
fn charge_of(word: u32) -> u16
    requires { word ≤ bound_most + 1 }
    ensures { result ≡ charge_of word }
{
    if word == 0 {
        return UNREACHED;
    }
    (word - 1) as u16
}

// The charges of the words of closing.
fn charges_of(words: &[u32; MODES]) -> [u16; MODES]
    requires { (s : ℕ) → get_or words.now s 0 ≤ bound_most + 1 }
    ensures { Charged words.now modes_most result }
{
    let mut charges = [UNREACHED; MODES];
    for s in 0..MODES {
        charges[s] = charge_of(words[s]);
    }
    charges
}

// The table of a fit model and of levels to which 6 does not apply: the peaks over the arcs that are on, in words on the stack.
fn table(model: Model, c: u32, b: u32, on: Switches) -> [u16; MODES]
    requires { Tabled model b c }
    ensures { IsTable (held model) on b c result }
{
    let groups = group(model, 0, on);
    let modes = usize::from(model.modes);
    let start = usize::from(model.start);
    let mut best = [0u32; MODES];
    find_peaks(&groups, start, c, b, &mut best[..modes]);
    charges_of(&best)
}

// Refusals 1 to 6, or the model.
#[tactic(auto, using(crate::proofs::Calls::levels))]
fn check_levelled(given: &Given, c: u32, b: u32) -> Result<Model, Refusal>
    ensures { result ≡ levelled_model given.now.n given.now.start given.now.k (lists_of given.now.lists) b c }
{
    let model = check_model(given)?;
    check_levels(c, b)?;
    Ok(model)
}

impl Reach {
    // A table that is all unreached, with these switches: what a refused start leaves to those that have no table yet, as C has none.
    pub fn unreached(on: Switches) -> Reach
        ensures { result ≡ unreached_with on }
    {
        let charges = [UNREACHED; MODES];
        Reach { on, charges }
    }

    // The table after a start or a switching that has this answer: the one that it hands back, or after a refusal this one.
    pub fn kept(self, answer: Result<Reach, Refusal>) -> Reach
        ensures { result ≡ kept self answer }
    {
        answer.unwrap_or(self)
    }

    // Arc a switched, for a fit model and levels to which 6 does not apply: as it was where that is what it is already, else the table afresh.
    fn turn(self, model: Model, c: u32, b: u32, a: u8, told: bool) -> Reach
        requires { Tabled model b c }
        ensures { Turned (held model) b c a told self result }
    {
        let words = self.on;
        if is_on(words, a) == told {
            return self;
        }
        let next = switch(words, a, told);
        let charges = table(model, c, b, next);
        Reach { on: next, charges }
    }

    // A table made afresh from a model, c, b and the switches, or the first of 1 to 6 that applies; then the table to go on with is Reach::unreached
    // of the switches. For all numbers and lists.
    pub fn start(given: &Given, c: u32, b: u32, on: Switches) -> Result<Reach, Refusal>
        ensures { StartOf given.now.n given.now.start given.now.k (lists_of given.now.lists) on b c (left (unreached_with on) result) }
    {
        let model = check_levelled(given, c, b)?;
        let charges = table(model, c, b, on);
        Ok(Reach { on, charges })
    }

    // The table with an arc switched on or off, or the first of 1 to 6 and 12 that applies, after which the table to go on with is this one. An arc
    // that is already so changes nothing; else the table is made afresh from the arcs then on. For all numbers, lists and tables, also one that
    // never was made.
    pub fn switch(
        self,
        given: &Given,
        c: u32,
        b: u32,
        arc: u32,
        told: bool,
    ) -> Result<Reach, Refusal>
        ensures { SwitchOf given.now.n given.now.start given.now.k (lists_of given.now.lists) b c arc told self (left self result) }
    {
        let model = check_levelled(given, c, b)?;
        if arc >= u32::from(model.count) {
            return Err(Refusal::ArcNumber(0));
        }
        Ok(self.turn(model, c, b, arc as u8, told))
    }
}
