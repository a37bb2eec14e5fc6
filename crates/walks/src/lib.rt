// The bounded step: a draw taken from a charge, and a gain added under a bound. It takes plain numbers and answers an `Option`.
#![tactic(auto)]

ghost use Rattle.std.specs.Prelude.{◌≡◌, pos, ◌-ℤ◌};
ghost use Rattle.walks.specs.BoundedStep.{stepped};
ghost use Rattle.walks.specs.Cases.{step_case};

// A step that is possible: the charge that it leads to, and what the bound cut off.
#[derive(Clone, Copy)]
pub struct Step {
    pub charge: u16,
    pub lost: u32,
}

// The cases of a step (document 02, Ask 10): the charge is less than the draw; or charge − draw + gain is below the bound, exactly the bound, or
// above it.
#[derive(Clone, Copy)]
pub enum StepCase {
    TooLittle,
    Below,
    Exactly,
    Above,
}

// Gain − draw.
fn change_of(draw: u16, gain: u16) -> i32
    ensures { result ≡ pos gain -ℤ pos draw }
{
    (gain as i32) - (draw as i32)
}

// The case that charge, draw, gain and bound fall under, for all of them. `room` is the charge that leads exactly to the bound. The charge is compared
// with it, and not the whole sum with the bound, so that the next step of a walk waits for one operation less. The change is used twice, so that the
// compiler shares it and the room with bounded_step.
pub fn step_case(charge: u16, draw: u16, gain: u16, bound: u16) -> StepCase
    ensures { result ≡ step_case bound (record { draw = draw; gain = gain }) charge }
{
    if charge < draw {
        return StepCase::TooLittle;
    }
    let change = change_of(draw, gain);
    let room = (bound as i32) - change;
    if (charge as i32) < room {
        return StepCase::Below;
    }
    let whole = (charge as i32) + change;
    if whole == (bound as i32) {
        return StepCase::Exactly;
    }
    StepCase::Above
}

// A step on an arc with this draw and this gain: possible only where the charge is at least the draw, and then to the smaller of
// charge − draw + gain and the bound, with what the bound cut off. For all charges, draws, gains and bounds. Below the bound all of the charge is kept,
// else as much as leads exactly to the bound, and then the change is added: so no branch hangs on the bound.
pub fn bounded_step(charge: u16, draw: u16, gain: u16, bound: u16) -> Option<Step>
    ensures { result ≡ stepped bound (record { draw = draw; gain = gain }) charge }
{
    let change = change_of(draw, gain);
    let room = (bound as i32) - change;
    let case = step_case(charge, draw, gain, bound);
    let kept = match case {
        StepCase::TooLittle => return None,
        StepCase::Below => charge as i32,
        StepCase::Exactly => room,
        StepCase::Above => room,
    };
    let reached = (kept + change) as u16;
    let lost = ((charge as i32) - kept) as u32;
    Some(Step {
        charge: reached,
        lost,
    })
}
