// The gauge lent by &mut to one thin step, over the by-value step of `gauge`.
#![tactic(auto)]

ghost use Rattle.std.specs.Prelude.{◌≡◌};
ghost use Rattle.model.specs.Lists.{lists_of};
ghost use Rattle.lent_gauge.specs.Moved.{LentStep};

use gauge::Gauge;
use model::Given;
use refusals::Answer;

// One step of the lent gauge on an arc: number 0 and the gauge moved on, or the first of 1 to 6, 22, 12, 13 and 15 that applies and the gauge
// as found. For all gauges, numbers and lists. It answers number and detail, and no Result: LentStep says them.
pub fn step(gauge: &mut Gauge, given: &Given, b: u32, arc: u32) -> Answer
    ensures { LentStep given.now.n given.now.start given.now.k (lists_of given.now.lists) b arc gauge.old gauge.new result }
{
    match gauge.step(given, b, arc) {
        Ok(moved) => {
            *gauge = moved;
            Answer::from(Ok(()))
        }
        Err(refusal) => Answer::from(refusal),
    }
}
