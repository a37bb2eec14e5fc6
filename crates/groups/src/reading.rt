// Reading the groups and the rows of the arcs: a method for each column, with one promise each, which the theory names. `a < arcs_most` stays a clause: a
// type for the number of a row would be made and opened at each call.
ghost use Rattle.std.specs.Prelude.{◌≡◌, ◌<◌, ◌&&◌};
ghost use Rattle.limits.specs.Ceilings.{arcs_most};
ghost use Rattle.groups.specs.Groups.{order_from};
ghost use Rattle.groups.specs.Grouped.{first_place, arc_placed};
ghost use Rattle.groups.specs.Rows.{source_at, target_at, draw_at, gain_at, colours_at, barred_at, on_at};

use crate::{Groups, ORDER};

impl Groups {
    // The first place of a mode.
    pub fn first_place(&self, mode: usize) -> usize
        requires { mode < order_from }
        ensures { result ≡ first_place self.now.places mode }
    {
        usize::from(self.places[mode])
    }

    // The arc at a place.
    pub fn arc_placed(&self, i: usize) -> usize
        requires { i < arcs_most }
        ensures { result ≡ arc_placed self.now.places i }
    {
        usize::from(self.places[ORDER + i])
    }

    // The mode that an arc leaves.
    pub fn source_of(&self, a: usize) -> usize
        requires { a < arcs_most }
        ensures { result ≡ source_at self.now.rows a }
    {
        usize::from(self.rows[a].source)
    }

    // The mode that an arc enters.
    pub fn target_of(&self, a: usize) -> usize
        requires { a < arcs_most }
        ensures { result ≡ target_at self.now.rows a }
    {
        usize::from(self.rows[a].target)
    }

    // What an arc draws.
    pub fn draw_of(&self, a: usize) -> u16
        requires { a < arcs_most }
        ensures { result ≡ draw_at self.now.rows a }
    {
        self.rows[a].draw
    }

    // What an arc gains.
    pub fn gain_of(&self, a: usize) -> u16
        requires { a < arcs_most }
        ensures { result ≡ gain_at self.now.rows a }
    {
        self.rows[a].gain
    }

    // The duties that an arc meets, from bit 0 on.
    pub fn colours_of(&self, a: usize) -> u16
        requires { a < arcs_most }
        ensures { result ≡ colours_at self.now.rows a }
    {
        self.rows[a].colours
    }

    // Whether an arc has a barred colour.
    pub fn has_barred(&self, a: usize) -> bool
        requires { a < arcs_most }
        ensures { result ≡ barred_at self.now.rows a }
    {
        self.rows[a].barred
    }

    // Whether an arc is on.
    pub fn is_on(&self, a: usize) -> bool
        requires { a < arcs_most }
        ensures { result ≡ on_at self.now.rows a }
    {
        self.rows[a].on
    }

    // Whether a walk may not use an arc: its arcs have to last, and this one has a barred colour.
    pub fn is_left_out(&self, lasting: bool, a: usize) -> bool
        requires { a < arcs_most }
        ensures { result ≡ lasting && barred_at self.now.rows a }
    {
        lasting && self.has_barred(a)
    }
}
