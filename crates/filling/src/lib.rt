// Arc lists that are lent to be filled, by reading and by the join: how many arcs they take, an arc written at one place of each, and what such a
// call answers.
#![tactic(auto)]

ghost use Rattle.std.specs.Prelude.{◌≡◌, set};
ghost use Rattle.filling.specs.Filling.{lists_lent, SameLent, room_of, room_in, put, numbers_in};

use model::Arc;
use refusals::Refusal;

// The numbers of a model that was written into lent lists: of its modes, its start mode, of its colours and of its arcs.
#[derive(Clone, Copy, Default)]
pub struct Numbers {
    pub modes: u32,
    pub start: u32,
    pub colours: u32,
    pub count: u32,
}

// The numbers that a call answers, each 0 where it is refused.
pub fn numbers_in(told: Result<Numbers, Refusal>) -> Numbers
    ensures { result ≡ numbers_in told }
{
    told.unwrap_or_default()
}

// How many arcs six lists of these lengths take: the length of the shortest.
pub fn room(
    sources: usize,
    targets: usize,
    draws: usize,
    gains: usize,
    colours: usize,
    actions: usize,
) -> usize
    ensures { result ≡ room_of sources targets draws gains colours actions }
{
    let ends = sources.min(targets);
    let parts = draws.min(gains);
    let bytes = colours.min(actions);
    ends.min(parts.min(bytes))
}

// A value written at place i of a list. Where the list has no such place, nothing is written.
fn put<T: Copy>(list: &mut [T], i: usize, value: T)
    ensures { list.new ≡ set list.old i value }
{
    if i < list.len() {
        list[i] = value;
    }
}

// Six lists that are lent to be filled, an arc at one place of each. They may have any lengths. (Six lists, and not one of arcs, as C lends them.)
#[derive(Drop)]
pub struct LentLists<'a> {
    pub sources: &'a mut [u8],
    pub targets: &'a mut [u8],
    pub draws: &'a mut [u16],
    pub gains: &'a mut [u16],
    pub colours: &'a mut [u8],
    pub actions: &'a mut [u8],
}

impl LentLists<'_> {
    // How many arcs they take: as many as the shortest has places.
    pub fn room(&self) -> usize
        ensures { result ≡ room_in (lists_lent self.now) }
    {
        room(
            self.sources.len(),
            self.targets.len(),
            self.draws.len(),
            self.gains.len(),
            self.colours.len(),
            self.actions.len(),
        )
    }

    // An arc written at place i of each list.
    pub fn write(&mut self, arc: Arc, i: usize)
        ensures arc { lists_lent self.new ≡ put (lists_lent self.old) i arc }
        ensures same_lists { SameLent self.old self.new }
    {
        put(self.sources, i, arc.source);
        put(self.targets, i, arc.target);
        put(self.draws, i, arc.draw);
        put(self.gains, i, arc.gain);
        put(self.colours, i, arc.colours);
        put(self.actions, i, arc.action);
    }
}
