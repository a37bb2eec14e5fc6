// Pairs of a mode and a charge, as numbers from 0 on, and the pair that an arc leads to from another.
ghost use Rattle.std.specs.Prelude.{◌≤◌, IfSome};

use crate::models::Arc;

// The charge that a draw and a gain lead to, cut off at the bound; none where the charge is less than the draw.
fn charge_after(charge: u32, draw: u16, gain: u16, bound: u32) -> Option<u32>
    ensures { IfSome result (λ after. after ≤ bound) }
{
    let rest = charge.checked_sub(u32::from(draw))?;
    Some(rest.saturating_add(u32::from(gain)).min(bound))
}

// The pair of a mode and a charge.
pub fn pair_of(mode: u8, charge: u32, bound: u32) -> usize {
    (mode as usize) * ((bound as usize) + 1) + (charge as usize)
}

// The mode of a pair.
pub fn mode_of(pair: usize, bound: u32) -> usize {
    pair / ((bound as usize) + 1)
}

// The pair that an arc leads to from a pair, where it leads anywhere.
pub fn pair_after(arc: Arc, bound: u32, pair: usize) -> Option<usize> {
    if mode_of(pair, bound) != arc.source as usize {
        return None;
    }
    let charge = (pair % ((bound as usize) + 1)) as u32;
    let after = charge_after(charge, arc.draw, arc.gain, bound)?;
    Some(pair_of(arc.target, after, bound))
}
