// The entries of the queue in the working space, four words each: writing them, and reading the arcs back. C lends the space as words, so that the
// entries are no array of structs.
ghost use Rattle.std.specs.Prelude.{◌≡◌, ◌+◌, ◌*◌, ◌≤◌, ◌<◌, length};
ghost use Rattle.limits.specs.Ceilings.{work_words};
ghost use Rattle.passes.specs.Queue.{words_at, Pushed};
ghost use Rattle.passes.specs.Trace.{Linked, Chain, Wrote};

use limits::Limits;

// The four words of an entry: the node, the charge with which it was reached, the entry that it was reached from and the arc.
#[derive(Clone, Copy)]
pub struct EntryWords {
    pub node: u16,
    pub charge: u16,
    pub parent: u16,
    pub arc: u16,
}

// Writes the entry with number tail.
pub fn push(work: &mut [u16], tail: usize, words: EntryWords)
    requires { work_words * tail + work_words ≤ length work.old }
    ensures { Pushed work.old tail words.node words.charge words.parent words.arc work.new }
{
    let at = Limits::WORK_WORDS * tail;
    work[at] = words.node;
    work[at + 1] = words.charge;
    work[at + 2] = words.parent;
    work[at + 3] = words.arc;
}

// The words of entry i.
pub fn words_of(work: &[u16], i: usize) -> EntryWords
    requires { work_words * i + work_words ≤ length work.now }
    ensures { result ≡ words_at work.now i }
{
    let at = Limits::WORK_WORDS * i;
    EntryWords {
        node: work[at],
        charge: work[at + 1],
        parent: work[at + 2],
        arc: work[at + 3],
    }
}

// The number of arcs from the first entry to an entry.
fn depth(work: &[u16], i: usize) -> usize
    requires { Linked work.now i }
    ensures { Chain work.now i result }
{
    // Not a `for`: it follows parents until the first entry, and their number is what is asked.
    let mut j = i;
    let mut steps: usize = 0;
    while 0 < j {
        j = usize::from(words_of(work, j).parent);
        steps += 1;
    }
    steps
}

// Writes the arcs from the first entry to an entry, from byte 0 on, and returns their number.
pub fn trace(work: &[u16], i: usize, plan: &mut [u8]) -> usize
    requires { Linked work.now i × (i ≤ length plan.old) }
    ensures { Wrote work.now i plan.old plan.new result }
{
    let steps = depth(work, i);
    let mut entry = i;
    for at in (0..steps).rev() {
        let words = words_of(work, entry);
        plan[at] = words.arc as u8;
        entry = usize::from(words.parent);
    }
    steps
}
