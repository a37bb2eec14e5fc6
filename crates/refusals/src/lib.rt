// Where a call stops: the refusals of document 01's table, with those that document 02 adds, and the number and detail of each.
#![tactic(auto)]

ghost use Rattle.std.specs.Prelude.{◌≡◌};
ghost use Rattle.refusals.specs.Refusals.{answer, numbered, answer_of};

// Where a call stops: a case for each number of document 01's table, and of document 02, with its detail where one is named.
#[derive(Clone, Copy, Debug, PartialEq, Eq)]
pub enum Refusal {
    ModeCount,
    StartMode,
    ArcLists,
    ColourCount,
    UnfitArc(u32),
    Levels,
    Product,
    WorkingSpace,
    PlanBuffer,
    NoPlan,
    PlanLength,
    ArcNumber(u32),
    OtherMode(u32),
    OpenCycle,
    ImpossibleStep(u32),
    FallingCycle,
    MissingColour(u32),
    NoSuchColour,
    HoaLine(u64),
    DimacsLine(u64),
    TextsDisagree,
    MixedGauge,
    JoinSize,
    BarredColour(u32),
}

// A number and its detail, 0 where none is named. A detail may be the line of a text, or a wearer's place in a ward, which no ceiling bounds. It
// is laid out as C lays it out, since the call for a ward answers it.
#[repr(C)]
#[derive(Clone, Copy)]
pub struct Answer {
    pub number: u8,
    pub detail: u64,
}

// A number and its detail.
fn row(number: u8, detail: u64) -> Answer
    ensures { result ≡ answer number detail }
{
    Answer { number, detail }
}

impl From<Refusal> for Answer {
    ghost from_gives = { λ refusal told. told ≡ numbered refusal };

    // The number, with the detail.
    fn from(refusal: Refusal) -> Answer {
        match refusal {
            Refusal::ModeCount => row(1, 0),
            Refusal::StartMode => row(2, 0),
            Refusal::ArcLists => row(3, 0),
            Refusal::ColourCount => row(4, 0),
            Refusal::UnfitArc(arc) => row(5, u64::from(arc)),
            Refusal::Levels => row(6, 0),
            Refusal::Product => row(7, 0),
            Refusal::WorkingSpace => row(8, 0),
            Refusal::PlanBuffer => row(9, 0),
            Refusal::NoPlan => row(10, 0),
            Refusal::PlanLength => row(11, 0),
            Refusal::ArcNumber(position) => row(12, u64::from(position)),
            Refusal::OtherMode(position) => row(13, u64::from(position)),
            Refusal::OpenCycle => row(14, 0),
            Refusal::ImpossibleStep(step) => row(15, u64::from(step)),
            Refusal::FallingCycle => row(16, 0),
            Refusal::MissingColour(colour) => row(17, u64::from(colour)),
            Refusal::NoSuchColour => row(18, 0),
            Refusal::HoaLine(line) => row(19, line),
            Refusal::DimacsLine(line) => row(20, line),
            Refusal::TextsDisagree => row(21, 0),
            Refusal::MixedGauge => row(22, 0),
            Refusal::JoinSize => row(23, 0),
            Refusal::BarredColour(position) => row(24, u64::from(position)),
        }
    }
}

// What a check says, yes or a refusal: 0 for yes, else the refusal's number, with the detail.
impl From<Result<(), Refusal>> for Answer {
    ghost from_gives = { λ checked told. told ≡ answer_of checked };

    fn from(checked: Result<(), Refusal>) -> Answer {
        match checked {
            Ok(()) => row(0, 0),
            Err(refusal) => Answer::from(refusal),
        }
    }
}
