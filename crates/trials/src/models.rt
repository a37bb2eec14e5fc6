// Random models: a fixed generator, families of models, and a model of one.
ghost use Rattle.std.specs.Prelude.{◌≤◌};

use limits::Limits;
use model::{Given, Lists};
use switches::WORDS;

// The actions that an arc may have.
const ACTIONS: u8 = Limits::ACTION + 1;

// An arc; mask: its colours.
#[derive(Clone, Copy)]
pub struct Arc {
    pub source: u8,
    pub target: u8,
    pub draw: u16,
    pub gain: u16,
    pub mask: u8,
    pub action: u8,
}

// A model, with credit, bound, barred colours and switches. Its arcs stand in the first `arcs` places of the six lists, as the planner's calls are
// lent them.
#[derive(Clone, Copy)]
pub struct Model {
    pub arcs: u8,
    pub sources: [u8; Limits::ARCS],
    pub targets: [u8; Limits::ARCS],
    pub draws: [u16; Limits::ARCS],
    pub gains: [u16; Limits::ARCS],
    pub masks: [u8; Limits::ARCS],
    pub actions: [u8; Limits::ARCS],
    pub modes: u32,
    pub start: u8,
    // At most Limits::COLOURS, 4, in all families: the remainder by 8, where bits are shifted by it, keeps the shift within its word, and changes nothing.
    pub colours: u32,
    pub credit: u32,
    pub bound: u32,
    pub barred: u8,
    pub on: [u64; WORDS],
}

// A family of models: from `least` on, `span` values of each number. An arc's gain less its draw is a number below net_span less net_low; beyond
// that it draws and gains a number below both_span, the same, so that with 1 no arc has both parts. Where `repeats`, an arc is as likely as not
// equal in all fields but its action to the one before. Where `bars`, the barred byte is any byte, also with bits at or above k; else it is 0.
// Where `switches`, the bits of the switches are random, also those at or above m; else all are set.
#[derive(Clone, Copy)]
pub struct Family {
    pub models: u16,
    pub modes_least: u16,
    pub modes_span: u16,
    pub colours_least: u16,
    pub colours_span: u16,
    pub arcs_least: u16,
    pub arcs_span: u16,
    pub bound_least: u16,
    pub bound_span: u16,
    pub net_span: u16,
    pub net_low: u16,
    pub both_span: u16,
    pub repeats: bool,
    pub bars: bool,
    pub switches: bool,
}

// A model without arcs, with nothing barred and every switch on.
pub fn without_arcs(modes: u32, start: u8, colours: u32, credit: u32, bound: u32) -> Model {
    Model {
        arcs: 0,
        sources: [0; Limits::ARCS],
        targets: [0; Limits::ARCS],
        draws: [0; Limits::ARCS],
        gains: [0; Limits::ARCS],
        masks: [0; Limits::ARCS],
        actions: [0; Limits::ARCS],
        modes,
        start,
        colours,
        credit,
        bound,
        barred: 0,
        on: [u64::MAX; WORDS],
    }
}

impl Model {
    // The model as the planner's calls take it.
    pub fn given(&self) -> Given<'_> {
        let m = self.arcs as usize;
        Given {
            n: self.modes,
            start: u32::from(self.start),
            k: self.colours,
            lists: Lists {
                sources: &self.sources[..m],
                targets: &self.targets[..m],
                draws: &self.draws[..m],
                gains: &self.gains[..m],
                colours: &self.masks[..m],
                actions: &self.actions[..m],
            },
        }
    }

    // Adds an arc, where there is a place for one.
    fn add(&mut self, arc: Arc) {
        let at = self.arcs as usize;
        if at < Limits::ARCS {
            self.sources[at] = arc.source;
            self.targets[at] = arc.target;
            self.draws[at] = arc.draw;
            self.gains[at] = arc.gain;
            self.masks[at] = arc.mask;
            self.actions[at] = arc.action;
            self.arcs += 1;
        }
    }

    // What stands at a place of the lists, which is an arc where is_on says so.
    pub fn arc(&self, a: u8) -> Arc {
        let at = (a as usize) % Limits::ARCS;
        Arc {
            source: self.sources[at],
            target: self.targets[at],
            draw: self.draws[at],
            gain: self.gains[at],
            mask: self.masks[at],
            action: self.actions[at],
        }
    }

    // Whether an arc is the model's, and on.
    pub fn is_on(&self, a: u8) -> bool {
        let word = (a / 64) as usize;
        a < self.arcs && (self.on[word] >> (a % 64)) % 2 == 1
    }
}

// The generator (functions of its state, so that each use names its place in the sequence): x ↦ 48271·x modulo 2³¹ − 1.
fn next(state: u32) -> u32 {
    ((state as u64) * 48271 % 2147483647) as u32
}

// A number below a limit, from a state of the generator; 0 where the limit is 0.
fn pick(state: u32, limit: u32) -> u32
    ensures { result ≤ limit }
{
    if limit == 0 {
        return 0;
    }
    (state / 8) % limit
}

// The state after those that an arc, or a model's numbers, are picked by: six, so that none serves twice.
fn skip(state: u32) -> u32 {
    next(next(next(next(next(next(state))))))
}

// By how much x is above y, and some more.
fn excess(x: u32, y: u32, more: u32) -> u16 {
    let rest = more % 32768;
    if x < y {
        return rest as u16;
    }
    ((x - y) % 32768 + rest) as u16
}

// A number of a family: least, or up to span − 1 more.
fn number(state: u32, least: u16, span: u16) -> u32
    ensures { result ≤ 131070 }
{
    (least as u32) + pick(state, span as u32)
}

// A word of switches, by a state: three numbers of another generator, x ↦ 16807·x modulo 2³¹ − 1, one over the other. So a bit is set with one
// chance in two or, where two numbers meet, with three in four.
fn word_of(state: u32) -> u64 {
    let first = (state as u64) * 16807 % 2147483647;
    let second = first * 16807 % 2147483647;
    let third = second * 16807 % 2147483647;
    (first << 33) | (second << 17) | third
}

// A model of a family without its arcs, by the seven states after a state. Its first arc is picked by later ones.
fn numbers_of(family: &Family, state: u32) -> Model {
    let first = next(state);
    let second = next(first);
    let fourth = next(next(second));
    let fifth = next(fourth);
    let sixth = next(fifth);
    let modes = number(first, family.modes_least, family.modes_span);
    let bound = number(fourth, family.bound_least, family.bound_span);
    let colours = number(second, family.colours_least, family.colours_span);
    let start = (pick(fifth, modes) % 256) as u8;
    let mut model = without_arcs(modes, start, colours, pick(sixth, bound + 1), bound);
    if family.bars {
        model.barred = (pick(next(sixth), 256) % 256) as u8;
    }
    model
}

// Random switches, by states after a state.
fn switches_of(state: u32) -> [u64; WORDS] {
    let second = skip(state);
    let third = skip(second);
    [
        word_of(state),
        word_of(second),
        word_of(third),
        word_of(skip(third)),
    ]
}

// The arc of a family that a seed gives, by the six states after it, for a model.
fn random_arc(family: &Family, model: &Model, seed: u32) -> Arc {
    let second = next(next(seed));
    let third = next(second);
    let fourth = next(third);
    let fifth = next(fourth);
    let masks = 1u32 << (model.colours % 8);
    let net = pick(third, family.net_span as u32);
    let low = family.net_low as u32;
    let both = pick(next(fifth), family.both_span as u32);
    // No family makes a draw or a gain that is too great. All actions come in turn: they change no answer.
    Arc {
        source: (pick(next(seed), model.modes) % 256) as u8,
        target: (pick(second, model.modes) % 256) as u8,
        draw: excess(low, net, both),
        gain: excess(net, low, both),
        mask: ((pick(fourth, masks) & pick(fifth, masks)) % 256) as u8,
        action: model.arcs % ACTIONS,
    }
}

// A model of a family, from a state of the generator, and the next state.
pub fn model_of(family: &Family, state: u32) -> (Model, u32) {
    let count = number(next(next(next(state))), family.arcs_least, family.arcs_span);
    let mut model = numbers_of(family, state);
    if family.switches {
        model.on = switches_of(state);
    }
    let mut reached = skip(state);
    let mut seed = reached;
    for _ in 0..count {
        reached = skip(reached);
        // The last arc once more, where the family repeats arcs and the state says so.
        if !family.repeats || pick(reached, 2) != 0 {
            seed = reached;
        }
        let arc = random_arc(family, &model, seed);
        model.add(arc);
    }
    (model, skip(reached))
}
