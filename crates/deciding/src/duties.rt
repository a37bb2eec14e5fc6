// Duties that no arc of a cycle can meet: then there is no plan, and no table has to be closed.
ghost use Rattle.std.specs.Prelude.{◌≡◌, true, false, ◌≤◌, ◌<◌};
ghost use Rattle.limits.specs.Ceilings.{arcs_most, colours_most};
ghost use Rattle.model.specs.Automaton.{bit};
ghost use Rattle.groups.specs.Rows.{colours_at, barred_at, on_at};
ghost use Rattle.deciding.specs.Deciding.{Unmet, SomeUnmet};

use groups::Groups;
use model::has_bit;

// Whether an arc may stand in a cycle and meets a duty.
fn is_meeting(groups: &Groups, a: usize, duty: usize) -> bool
    requires { (a < arcs_most) × (duty < colours_most) }
    ensures { result ≡ false → on_at groups.now.rows a ≡ true → barred_at groups.now.rows a ≡ false → bit (colours_at groups.now.rows a) duty ≡ false }
{
    groups.is_on(a) && !groups.has_barred(a) && has_bit(u64::from(groups.colours_of(a)), duty)
}

// Whether no arc that may stand in a cycle meets a duty.
fn is_unmet(groups: &Groups, arcs: usize, duty: usize) -> bool
    requires { (arcs ≤ arcs_most) × (duty < colours_most) }
    ensures { result ≡ true → Unmet groups.now.rows arcs duty }
{
    (0..arcs).all(|a| !is_meeting(groups, a, duty))
}

// Whether there is such a duty.
pub fn some_unmet(groups: &Groups, arcs: usize, duties: usize) -> bool
    requires { (arcs ≤ arcs_most) × (duties ≤ colours_most) }
    ensures { result ≡ true → SomeUnmet groups.now.rows arcs duties }
{
    (0..duties).any(|duty| is_unmet(groups, arcs, duty))
}
