// Loops raised to their top. For each mode the hints name the arc over which it last rose; where these arcs lead back to a mode they began from, the
// loop is walked, and where walking it gains, its modes rise to what walking it again and again ends with. Nothing is assumed of the hints: each arc
// is tried before it counts.
ghost use Rattle.std.specs.Prelude.{◌≡◌, ℕ, ◌+◌, ◌≤◌, ◌<◌, length, IfSome};
ghost use Rattle.limits.specs.Ceilings.{modes_most, arcs_most};
ghost use Rattle.closing.specs.Stratum.{charge_most, stratum_of, Ready};
ghost use Rattle.closing.specs.Tables.{Lifted, Risen, Workable};
ghost use Rattle.closing.specs.Loops.{Climbed, Tops};

use crate::{MODES, Notes, Stage};
use model::has_bit;

// The set with mode i: a word as a set of modes, no heap.
fn with(set: u64, i: usize) -> u64
    requires { i < modes_most }
{
    set | (1 << i)
}

// What following the arcs over which the modes rose gives: the modes passed so far, and a mode on the loop that the arcs lead to, if they lead to one.
#[derive(Clone, Copy)]
pub struct Trail {
    pub passed: u64,
    pub mode: Option<usize>,
}

impl Stage<'_> {
    // Walks the arcs of a candidate loop, the last first, from mode v with a charge, and at the same time from the bound: walked again and again, a loop
    // that gains ends with what it makes of the bound. Two walks, with climb: find_top only looks and needs the charge at the top; climb writes. None where the walk is not possible, does not come back or does not gain.
    fn find_top(&self, arcs: &[u8], v: usize, charge: u32) -> Option<u32>
        requires { ((n : ℕ) × Ready (stratum_of self.now) n) × (charge ≤ self.now.level.bound) }
        ensures { IfSome result (λ top. Tops (stratum_of self.now) v charge top) }
    {
        let mut mode = v;
        let mut e = charge;
        let mut high = self.level.bound;
        for arc in arcs.iter().rev() {
            let a = usize::from(*arc);
            let stepped = self.step_from(a, mode, e)?;
            mode = stepped.mode;
            e = stepped.charge;
            high = self.charge_after(a, high);
        }
        if mode == v && charge < e {
            return Some(high);
        }
        None
    }

    // A mode is reached with a charge over arc a: where that is more than the table has, the table rises.
    pub fn rise(
        &self,
        a: usize,
        mode: usize,
        charge: u32,
        best: &mut [u32],
        hints: &mut [Option<u8>; MODES],
    )
        requires { (mode < length best.old) × (length best.old ≤ modes_most) × (charge ≤ charge_most) × (a < arcs_most) }
        ensures { Lifted best.old mode (charge + 1) best.new }
    {
        if charge < best[mode] {
            return;
        }
        best[mode] = charge + 1;
        hints[mode] = if charge == self.level.bound {
            None
        } else {
            Some(a as u8)
        };
    }

    // Walks as find_top does, and raises each mode that it meets with more.
    fn climb(
        &self,
        arcs: &[u8],
        v: usize,
        charge: u32,
        best: &mut [u32],
        hints: &mut [Option<u8>; MODES],
    )
        requires { Ready (stratum_of self.now) (length best.old) × (charge ≤ self.now.level.bound) }
        ensures { Climbed (stratum_of self.now) v charge best.old best.new }
    {
        let mut mode = v;
        let mut e = charge;
        for arc in arcs.iter().rev() {
            let a = usize::from(*arc);
            let Some(stepped) = self.step_from(a, mode, e) else {
                return;
            };
            mode = stepped.mode;
            e = stepped.charge;
            self.rise(a, mode, e, best, hints);
        }
    }

    // The arc over which a mode rose, if one of the level's arcs is noted of it.
    fn arc_behind(&self, modes: usize, hints: &[Option<u8>; MODES], mode: usize) -> Option<u8>
        requires { modes ≤ modes_most }
        ensures { IfSome result (λ a. (a < self.now.level.arcs) × (mode < modes)) }
    {
        if mode >= modes {
            return None;
        }
        let arcs = self.level.arcs;
        hints[mode].filter(|a| usize::from(*a) < arcs)
    }

    // Reads the arcs over which the modes rose, from mode v back to v, into the bytes of a loop. Their number, if they come back.
    fn collect(
        &self,
        modes: usize,
        hints: &[Option<u8>; MODES],
        v: usize,
        around: &mut [u8; MODES],
    ) -> Option<usize>
        requires { (self.now.level.arcs ≤ arcs_most) × (modes ≤ modes_most) }
        ensures { IfSome result (λ len. len ≤ modes) }
    {
        let mut mode = v;
        for len in 0..modes {
            let a = self.arc_behind(modes, hints, mode)?;
            around[len] = a;
            mode = self.groups.source_of(usize::from(a));
            if mode == v {
                return Some(len + 1);
            }
        }
        None
    }

    // Where the arcs over which the modes rose lead from mode v back to it, and walking them gains: raises the modes of this loop to what one more round
    // from its top gives them.
    fn raise(&self, v: usize, best: &mut [u32], hints: &mut [Option<u8>; MODES])
        requires { Workable (stratum_of self.now) best.old × (v < length best.old) }
        ensures { Risen (stratum_of self.now) best.old best.new }
    {
        let Some(charge) = best[v].checked_sub(1) else {
            return;
        };
        let mut around = [0u8; MODES];
        let Some(len) = self.collect(best.len(), hints, v, &mut around) else {
            return;
        };
        let arcs = &around[..len];
        if let Some(top) = self.find_top(arcs, v, charge) {
            self.climb(arcs, v, top, best, hints);
        }
    }

    // Follows the arcs over which the modes rose, back from mode v to one that was passed before.
    fn follow(&self, modes: usize, hints: &[Option<u8>; MODES], passed: u64, v: usize) -> Trail
        requires { (self.now.level.arcs ≤ arcs_most) × (modes ≤ modes_most) }
        ensures { IfSome result.mode (λ u. u < modes) }
    {
        let mut path: u64 = 0;
        let mut mode = v;
        for _ in 0..=modes {
            let Some(a) = self.arc_behind(modes, hints, mode) else {
                break;
            };
            if has_bit(path, mode) {
                return Trail {
                    passed: passed | path,
                    mode: Some(mode),
                };
            }
            if has_bit(passed, mode) {
                break;
            }
            path = with(path, mode);
            mode = self.groups.source_of(usize::from(a));
        }
        Trail {
            passed: passed | path,
            mode: None,
        }
    }

    // Where mode v is due, raises the loop into which the arcs lead over which the modes rose, from v back: the modes passed then.
    fn raise_from(&self, best: &mut [u32], notes: &mut Notes, passed: u64, v: usize) -> u64
        requires { Workable (stratum_of self.now) best.old × (v < length best.old) }
        ensures same { notes.new.done ≡ notes.old.done }
        ensures risen { Risen (stratum_of self.now) best.old best.new }
    {
        if best[v] <= notes.done[v] {
            return passed;
        }
        let trail = self.follow(best.len(), &notes.hints, passed, v);
        if let Some(mode) = trail.mode {
            self.raise(mode, best, &mut notes.hints);
        }
        trail.passed
    }

    // Raises the loops into which the arcs lead over which the modes rose that are due; passes each mode once.
    pub fn raise_loops(&self, best: &mut [u32], notes: &mut Notes)
        requires { Workable (stratum_of self.now) best.old }
        ensures same { notes.new.done ≡ notes.old.done }
        ensures risen { Risen (stratum_of self.now) best.old best.new }
    {
        let mut passed: u64 = 0;
        for v in 0..best.len() {
            passed = self.raise_from(best, notes, passed, v);
        }
    }
}
