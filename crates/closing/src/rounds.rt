// A round over the modes: those that are due have their arcs tried.
ghost use Rattle.std.specs.Prelude.{◌≡◌, true, ◌||◌, ◌+◌, ◌<◌, length};
ghost use Rattle.groups.specs.Rows.{source_at, on_at};
ghost use Rattle.closing.specs.Stratum.{stratum_of, Placed};
ghost use Rattle.closing.specs.Tables.{Lifted, Tried, Expanded, Rounded, Turned, Workable, Closable};

use crate::{MODES, Notes, Stage};

// The word at a place rises to y where it is lower.
fn lift(words: &mut [u32], at: usize, y: u32)
    requires { at < length words.old }
    ensures { Lifted words.old at y words.new }
{
    words[at] = words[at].max(y);
}

impl Stage<'_> {
    // Tries arc a, which is on, from the charge of its source v.
    fn relax(
        &self,
        a: usize,
        v: usize,
        best: &mut [u32],
        later: &mut [u32],
        hints: &mut [Option<u8>; MODES],
    )
        requires workable { Workable (stratum_of self.now) best.old × (length later.old ≡ length best.old) }
        requires leaves_mode { (a < self.now.level.arcs) × (on_at self.now.groups.now.rows a ≡ true) × (source_at self.now.groups.now.rows a ≡ v) × (v < length best.old) }
        ensures { Tried (stratum_of self.now) a best.old later.old best.new later.new }
    {
        let Some(charge) = best[v].checked_sub(1) else {
            return;
        };
        let Some(stepped) = self.step(a, charge) else {
            return;
        };
        if stepped.leaves {
            lift(later, stepped.mode, stepped.charge + 1);
        } else {
            self.rise(a, stepped.mode, stepped.charge, best, hints);
        }
    }

    // Tries every arc that leaves mode v, at the places from the mode's first up to the next mode's.
    fn expand(&self, v: usize, best: &mut [u32], later: &mut [u32], hints: &mut [Option<u8>; MODES])
        requires workable { Workable (stratum_of self.now) best.old × (length later.old ≡ length best.old) }
        requires placed { Placed (stratum_of self.now) (length best.old) self.now.groups.now.places × (v < length best.old) }
        ensures { Expanded (stratum_of self.now) v best.old later.old best.new later.new }
    {
        let first = self.groups.first_place(v);
        let end = self.groups.first_place(v + 1);
        for i in first..end {
            self.relax(self.groups.arc_placed(i), v, best, later, hints);
        }
    }

    // Where mode v is due, tries its arcs and notes from which word: whether it was due.
    fn visit(&self, v: usize, best: &mut [u32], later: &mut [u32], notes: &mut Notes) -> bool
        requires { Closable (stratum_of self.now) self.now.groups.now.places best.old later.old × (v < length best.old) }
        ensures { Rounded (stratum_of self.now) v (v + 1) best.old later.old notes.old.done best.new later.new notes.new.done result }
    {
        let word = best[v];
        if word <= notes.done[v] {
            return false;
        }
        self.expand(v, best, later, &mut notes.hints);
        notes.done[v] = word;
        true
    }

    // Raises the loops that the rounds before have closed, and tries the arcs of every mode that is due: whether some mode was.
    pub fn round(&self, best: &mut [u32], later: &mut [u32], notes: &mut Notes) -> bool
        requires { Closable (stratum_of self.now) self.now.groups.now.places best.old later.old }
        ensures { Turned (stratum_of self.now) best.old later.old notes.old.done best.new later.new notes.new.done result }
    {
        self.raise_loops(best, notes);
        let mut due = false;
        for v in 0..best.len() {
            due |= self.visit(v, best, later, notes);
        }
        due
    }
}
