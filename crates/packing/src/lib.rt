// What the C entries answer: an answer in one word, and structs for what no word holds. The entries stand in crate desk.
#![tactic(auto)]

ghost use Rattle.std.specs.Prelude.{◌≡◌};
ghost use Rattle.refusals.specs.Refusals.{verdict_of, answer_of};
ghost use Rattle.filling.specs.Filling.{numbers_in};
ghost use Rattle.least.specs.Least.{least_answer};
ghost use Rattle.reach.specs.Reach.{left};
ghost use Rattle.packing.specs.Packing.{packed, Fields, least_word};
ghost use Rattle.packing.specs.Desk.{started_with, read_with, reached_with};

use filling::{Numbers, numbers_in};
use gauge::Gauge;
use least::LeastAnswer;
use reach::Reach;
use refusals::{Answer, Refusal};

// Where each part of an answer begins in the word: the number at bit 0, the detail at bit 8, and two numbers more at bits 32 and 48.
const DETAIL: u64 = 256;

const FIRST: u64 = 4294967296;

const SECOND: u64 = 281474976710656;

// What starting a gauge answers: number and detail in one word, as in the other answers, and the new gauge. C has the same struct, so it is no `Result`.
#[repr(C)]
#[derive(Clone, Copy)]
pub struct Started {
    pub answer: u64,
    pub gauge: Gauge,
}

// What making a table of greatest charges and switching an arc answer: number and detail in one word, and the table. C has the same struct.
#[repr(C)]
#[derive(Clone, Copy)]
pub struct Reached {
    pub answer: u64,
    pub reach: Reach,
}

// What reading and the join answer: number and detail, which may be a line beyond 24 bits, and the numbers of the model written. C has the same struct.
#[repr(C)]
#[derive(Clone, Copy)]
pub struct Read {
    pub number: u8,
    pub detail: u64,
    pub n: u32,
    pub start: u32,
    pub k: u32,
    pub m: u32,
}

// An answer in one word, with the two numbers that go with it. `Fields` is asked by each function that packs, and not kept by a struct of the parts: each
// of its values would be made and packed in one line, by a caller that knows the fact from a theorem of proofs/Sizes.
pub fn pack(answer: Answer, first: u32, second: u32) -> u64
    requires { Fields answer first second }
    ensures { result ≡ packed answer first second }
{
    u64::from(answer.number)
        + answer.detail * DETAIL
        + u64::from(first) * FIRST
        + u64::from(second) * SECOND
}

// An answer in one word, where nothing goes with it.
pub fn pack_alone(answer: Answer) -> u64
    requires { Fields answer 0 0 }
    ensures { result ≡ packed answer 0 0 }
{
    pack(answer, 0, 0)
}

// The number and the detail of a call that hands a value back: those of its refusal, or of the yes.
fn answer_to<T: Copy>(told: Result<T, Refusal>) -> Answer
    ensures { result ≡ answer_of (verdict_of told) }
{
    match told {
        Ok(_) => Answer::from(Ok(())),
        Err(refusal) => Answer::from(refusal),
    }
}

// What the least credit and the least bound answer, in one word.
// (This, pack_started and pack_reached are functions: `From` can't require `Fields`.)
// (What search and the walk answer is packed in desk, by the one entry of each; this by two.)
pub fn pack_least(found: Result<u32, Refusal>) -> u64
    requires { Fields (least_answer found).answer (least_answer found).value 0 }
    ensures { result ≡ least_word found }
{
    let told = LeastAnswer::from(found);
    pack(told.answer, told.value, 0)
}

// What starting a gauge answers: after a refusal a gauge of zeros.
pub fn pack_started(started: Result<Gauge, Refusal>) -> Started
    requires { Fields (answer_of (verdict_of started)) 0 0 }
    ensures { result ≡ started_with started }
{
    Started {
        answer: pack_alone(answer_to(started)),
        gauge: started.unwrap_or(Gauge::none()),
    }
}

// What making a table and switching an arc answer, where `own` is the table that stands after a refusal.
pub fn pack_reached(own: Reach, told: Result<Reach, Refusal>) -> Reached
    requires { Fields (answer_of (verdict_of told)) 0 0 }
    ensures { result ≡ reached_with (left own told) }
{
    Reached {
        answer: pack_alone(answer_to(told)),
        reach: own.kept(told),
    }
}

// What a call that fills lists answers, field by field.
impl From<Result<Numbers, Refusal>> for Read {
    ghost from_gives = { λ told read. read ≡ read_with (answer_of (verdict_of told)) (numbers_in told) };

    fn from(told: Result<Numbers, Refusal>) -> Read {
        let answer = answer_to(told);
        let numbers = numbers_in(told);
        Read {
            number: answer.number,
            detail: answer.detail,
            n: numbers.modes,
            start: numbers.start,
            k: numbers.colours,
            m: numbers.count,
        }
    }
}
