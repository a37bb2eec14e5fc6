// One arc in a level: whether it may be used there, whether it leaves the level, and what it makes of a charge.
ghost use Rattle.std.specs.Prelude.{◌≡◌, true, ℕ, ◌≤◌, ◌<◌, ltb, IfSome};
ghost use Rattle.limits.specs.Ceilings.{arcs_most, colours_most};
ghost use Rattle.walks.specs.BoundedStep.{after};
ghost use Rattle.groups.specs.Rows.{source_at, draw_at, on_at};
ghost use Rattle.passes.specs.RowsNet.{rows_graph};
ghost use Rattle.closing.specs.Stratum.{charge_most, stratum_of, leaving, leaves_by, Ready};
ghost use Rattle.closing.specs.Loops.{Moves, Steps};

use crate::{Level, Stage};

// Whether an arc with these required colours leaves the level.
#[tactic(auto, unfolding(crate::specs::Stratum::leaves_by))]
fn leaves_by(level: Level, colours: u16) -> bool
    requires { level.last ≤ colours_most }
    ensures { result ≡ leaves_by level colours }
{
    level.every || level.level < level.last && (colours >> level.level) % 2 == 1
}

// Where an arc leads from a charge: whether it leaves the level, the mode and the charge.
#[derive(Clone, Copy)]
pub struct Stepped {
    pub leaves: bool,
    pub mode: usize,
    pub charge: u32,
}

impl Stage<'_> {
    // Whether a charge is less than an arc draws. An addition of its own, with charge_after: charges have 32 bits here; walks has those of 16 bits.
    fn is_short(&self, a: usize, charge: u32) -> bool
        requires { a < arcs_most }
        ensures { result ≡ ltb charge (draw_at self.now.groups.now.rows a) }
    {
        charge < u32::from(self.groups.draw_of(a))
    }

    // The charge after an arc that is possible.
    pub fn charge_after(&self, a: usize, charge: u32) -> u32
        requires { (a < arcs_most) × (draw_at self.now.groups.now.rows a ≤ charge) × (charge ≤ charge_most) }
        ensures { result ≡ after self.now.level.bound ((rows_graph self.now.groups.now.rows).move a) charge }
    {
        let sum = charge - u32::from(self.groups.draw_of(a)) + u32::from(self.groups.gain_of(a));
        sum.min(self.level.bound)
    }

    // Whether an arc leaves the level.
    fn is_leaving(&self, a: usize) -> bool
        requires { (a < arcs_most) × (self.now.level.last ≤ colours_most) }
        ensures { result ≡ leaving (stratum_of self.now) a }
    {
        leaves_by(self.level, self.groups.colours_of(a))
    }

    // Tries an arc from a charge: where it leads, if it may be used and is possible.
    pub fn step(&self, a: usize, charge: u32) -> Option<Stepped>
        requires { ((n : ℕ) × Ready (stratum_of self.now) n) × (a < self.now.level.arcs) × (charge ≤ self.now.level.bound) }
        ensures { Moves (stratum_of self.now) a charge result }
    {
        if self.groups.is_left_out(self.level.lasting, a) || self.is_short(a, charge) {
            return None;
        }
        Some(Stepped {
            leaves: self.is_leaving(a),
            mode: self.groups.target_of(a),
            charge: self.charge_after(a, charge),
        })
    }

    // Whether a number is that of an arc which is on and leaves a mode.
    fn leads_from(&self, a: usize, mode: usize) -> bool
        requires { self.now.level.arcs ≤ arcs_most }
        ensures { result ≡ true → (a < self.now.level.arcs) × (on_at self.now.groups.now.rows a ≡ true) × (source_at self.now.groups.now.rows a ≡ mode) }
    {
        a < self.level.arcs && self.groups.is_on(a) && self.groups.source_of(a) == mode
    }

    // Tries an arc from a mode with a charge: where it leads, if it leaves that mode, stays in the level and is possible. Nothing is known of the arc's number.
    pub fn step_from(&self, a: usize, mode: usize, charge: u32) -> Option<Stepped>
        requires { ((n : ℕ) × Ready (stratum_of self.now) n) × (charge ≤ self.now.level.bound) }
        ensures { IfSome result (λ s. Steps (stratum_of self.now) a mode charge s.mode s.charge) }
    {
        if !self.leads_from(a, mode) {
            return None;
        }
        self.step(a, charge).filter(|stepped| !stepped.leaves)
    }
}
