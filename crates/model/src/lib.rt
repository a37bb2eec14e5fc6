// The model as one value, and the checks that every call begins with: fitness (1 to 5) and levels (6).
#![tactic(auto)]

ghost use Rattle.std.specs.Prelude.{◌≡◌, ◌≤◌, ◌<◌, ◌^◌, length, Ok, None, IfSome};
ghost use Rattle.limits.specs.Ceilings.{colours_most};
ghost use Rattle.refusals.specs.Refusals.{and_then};
ghost use Rattle.model.specs.Automaton.{bit};
ghost use Rattle.model.specs.Lists.{lists_of, arc_of, blank_model};
ghost use Rattle.model.specs.Fitness.{unfit_lists, header, unfit_arc, EqualLists, Header, arcs_fitness, fitness, fitted_arcs, fitted_of, levels_within, levels_of};

use limits::Limits;
use refusals::Refusal;

// An arc: its two modes, its draw and its gain, its colour byte, whose bit j says that the arc meets colour j, and its action.
#[derive(Clone, Copy)]
pub struct Arc {
    pub source: u8,
    pub target: u8,
    pub draw: u16,
    pub gain: u16,
    pub colours: u8,
    pub action: u8,
}

// What stands where no arc is.
const NO_ARC: Arc = Arc {
    source: 0,
    target: 0,
    draw: 0,
    gain: 0,
    colours: 0,
    action: 0,
};

// A model by value. The first `count` arcs are the model's; the others are blank: an array of fixed length, since there is no heap. That it is fit
// (`Holds`) stands in contracts and not in a ghost field, since `groups::group` and its theorems speak of models that are not.
#[derive(Clone, Copy)]
pub struct Model {
    pub modes: u8,
    pub start: u8,
    pub colours: u8,
    pub count: u8,
    pub arcs: [Arc; Limits::ARCS],
}

impl Model {
    // A model with no mode and no arc, which is not fit: what a model is written into.
    pub fn blank() -> Model
        ensures { result ≡ blank_model }
    {
        Model {
            modes: 0,
            start: 0,
            colours: 0,
            count: 0,
            arcs: [NO_ARC; Limits::ARCS],
        }
    }
}

// The six lists of a model's arcs, as C lends them: an arc stands at one place of each. Nothing is known of their lengths.
#[derive(Clone, Copy)]
pub struct Lists<'a> {
    pub sources: &'a [u8],
    pub targets: &'a [u8],
    pub draws: &'a [u16],
    pub gains: &'a [u16],
    pub colours: &'a [u8],
    pub actions: &'a [u8],
}

// A model as it is given: numbers of modes, start mode and colours, and the lists of its arcs. Nothing is known of them. The other arguments of
// calls, c and b, the barred colours and the switches, stay apart: README and the documents name the calls with each of them in this order, and
// judging, gauge, reach and the least levels take different ones.
#[derive(Clone, Copy)]
pub struct Given<'a> {
    pub n: u32,
    pub start: u32,
    pub k: u32,
    pub lists: Lists<'a>,
}

impl Lists<'_> {
    // The arc with this number, if there is one: for lists that are equally long, where it is below their length.
    pub fn arc(&self, a: usize) -> Option<Arc>
        ensures some { IfSome result (λ x. (a < length self.now.sources.now) × (x ≡ arc_of (lists_of self.now) a)) }
        ensures none { EqualLists (lists_of self.now) → result ≡ None → length self.now.sources.now ≤ a }
    {
        Some(Arc {
            source: *self.sources.get(a)?,
            target: *self.targets.get(a)?,
            draw: *self.draws.get(a)?,
            gain: *self.gains.get(a)?,
            colours: *self.colours.get(a)?,
            action: *self.actions.get(a)?,
        })
    }
}

// Whether a word has bit i: above the 64 bits it has none.
#[tactic(auto, using(crate::proofs::Bits::word_bits))]
pub fn has_bit(word: u64, i: usize) -> bool
    ensures { result ≡ bit word i }
{
    i < 64 && (word >> i) % 2 == 1
}

// Refusal 3, from the lengths of the six lists.
#[tactic(auto, unfolding(crate::specs::Fitness::unfit_lists))]
fn unfit_lists(lists: &Lists) -> bool
    ensures { result ≡ unfit_lists (length lists.now.sources.now) (length lists.now.targets.now) (length lists.now.draws.now) (length lists.now.gains.now) (length lists.now.colours.now) (length lists.now.actions.now) }
{
    let arcs = lists.sources.len();
    lists.targets.len() != arcs
        || lists.draws.len() != arcs
        || lists.gains.len() != arcs
        || lists.colours.len() != arcs
        || lists.actions.len() != arcs
        || arcs > Limits::ARCS
}

// Refusals 1 to 4, from the numbers and whether 3 applies to the lists.
pub fn check_header(n: u32, start: u32, k: u32, unfit: bool) -> Result<(), Refusal>
    ensures { result ≡ header n start k unfit }
{
    if n == 0 {
        return Err(Refusal::ModeCount);
    }
    if n > Limits::MODES {
        return Err(Refusal::ModeCount);
    }
    if start >= n {
        return Err(Refusal::StartMode);
    }
    if unfit {
        return Err(Refusal::ArcLists);
    }
    if k > Limits::COLOURS {
        return Err(Refusal::ColourCount);
    }
    Ok(())
}

// Refusal 6 of a call with this ceiling: the bound is above it, or the credit above the bound.
pub fn check_levels_within(c: u32, b: u32, most: u32) -> Result<(), Refusal>
    ensures { result ≡ levels_within most b c }
{
    if b > most {
        return Err(Refusal::Levels);
    }
    if c > b {
        return Err(Refusal::Levels);
    }
    Ok(())
}

// Refusal 6.
pub fn check_levels(c: u32, b: u32) -> Result<(), Refusal>
    ensures { result ≡ levels_of b c }
{
    check_levels_within(c, b, Limits::BOUND)
}

// Whether an arc is unfit for n modes and k colours, where `power` is 2 to the k.
#[tactic(auto, unfolding(crate::specs::Fitness::unfit_arc))]
fn unfit_arc(arc: Arc, n: u32, power: u32) -> bool
    ensures { result ≡ unfit_arc n power arc }
{
    u32::from(arc.source) >= n
        || u32::from(arc.target) >= n
        || arc.draw > Limits::DRAW
        || arc.gain > Limits::GAIN
        || u32::from(arc.colours) >= power
        || arc.action > Limits::ACTION
}

// 2 to the k: the least number that has a bit at or above k.
fn two_to(k: u32) -> u32
    requires { k ≤ colours_most }
    ensures { result ≡ 2 ^ k }
{
    1u32 << k
}

// The arc at a place of lists that are equally long.
fn arc_at(lists: &Lists, i: usize) -> Arc
    requires equal { EqualLists (lists_of lists.now) }
    requires within { i < length lists.now.sources.now }
    ensures { result ≡ arc_of (lists_of lists.now) i }
{
    Arc {
        source: lists.sources[i],
        target: lists.targets[i],
        draw: lists.draws[i],
        gain: lists.gains[i],
        colours: lists.colours[i],
        action: lists.actions[i],
    }
}

// Refusal 5, from numbers and lists that 1 to 4 let through, and the model, written into the lent one: one pass that checks each arc and copies it.
fn check_arcs(given: &Given, model: &mut Model) -> Result<(), Refusal>
    requires { Header given.now.n given.now.start given.now.k (lists_of given.now.lists) }
    ensures { and_then result (Ok model.new) ≡ fitted_arcs given.now.n given.now.start given.now.k (lists_of given.now.lists) }
{
    let lists = given.lists;
    let count = lists.sources.len();
    let power = two_to(given.k);
    *model = Model {
        modes: given.n as u8,
        start: given.start as u8,
        colours: given.k as u8,
        count: count as u8,
        arcs: [NO_ARC; Limits::ARCS],
    };
    for i in 0..count {
        let arc = arc_at(&lists, i);
        if unfit_arc(arc, given.n, power) {
            return Err(Refusal::UnfitArc(i as u32));
        }
        model.arcs[i] = arc;
    }
    Ok(())
}

// Refusal 5 alone, from numbers and lists that 1 to 4 let through: one pass that checks each arc and keeps none.
fn check_each_arc(given: &Given) -> Result<(), Refusal>
    requires { Header given.now.n given.now.start given.now.k (lists_of given.now.lists) }
    ensures { result ≡ arcs_fitness given.now.n (2 ^ given.now.k) (lists_of given.now.lists) }
{
    let power = two_to(given.k);
    for i in 0..given.lists.sources.len() {
        let arc = arc_at(&given.lists, i);
        if unfit_arc(arc, given.n, power) {
            return Err(Refusal::UnfitArc(i as u32));
        }
    }
    Ok(())
}

// Fitness alone, for callers that go on with the lists: a `Model` takes 2 KB of stack, and as much again wherever it is handed on. The first of 1 to 5
// that applies. For all numbers and lists.
pub fn check_fitness(given: &Given) -> Result<(), Refusal>
    ensures { result ≡ fitness given.now.n given.now.start given.now.k (lists_of given.now.lists) }
{
    check_header(given.n, given.start, given.k, unfit_lists(&given.lists))?;
    check_each_arc(given)
}

// Fitness of a model: the first of 1 to 5 that applies, or the model, written into the lent one. For callers that hold two: of a `Result` with a model `?`
// makes a copy of 2 KB. What stands in the lent one before does not matter, and after a refusal nothing is said of it. For all numbers and lists.
pub fn check_model_into(given: &Given, model: &mut Model) -> Result<(), Refusal>
    ensures { and_then result (Ok model.new) ≡ fitted_of given.now.n given.now.start given.now.k (lists_of given.now.lists) }
{
    let unfit = unfit_lists(&given.lists);
    check_header(given.n, given.start, given.k, unfit)?;
    check_arcs(given, model)
}

// The same by value: the first of 1 to 5 that applies, or the model. For all numbers and lists.
pub fn check_model(given: &Given) -> Result<Model, Refusal>
    ensures { result ≡ fitted_of given.now.n given.now.start given.now.k (lists_of given.now.lists) }
{
    let mut model = Model::blank();
    check_model_into(given, &mut model)?;
    Ok(model)
}
