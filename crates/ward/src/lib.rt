// One plan for a ward: a lent list of wearers, each with its start mode, credit and bound, whose verdicts are filled by judging.
#![tactic(auto)]

ghost use Rattle.std.specs.Prelude.{◌≡◌};
ghost use Rattle.model.specs.Lists.{lists_of};
ghost use Rattle.ward.specs.Ward.{verdict_of, ward_fitness, WardOf};
ghost use Rattle.ward.specs.Turns.{after_verdict};

use judge::{GivenPlan, judge};
use model::{Given, Lists, check_fitness};
use refusals::{Answer, Refusal};

// A wearer: start mode, credit, bound, and the verdict, which is 0 for yes or the number of a refusal: C has the same struct, and reads the number.
#[repr(C)]
#[derive(Clone, Copy)]
pub struct Wearer {
    pub start: u32,
    pub c: u32,
    pub b: u32,
    pub verdict: u8,
}

// The model of a ward: yes, or the first of 1, 3, 4 and 5 that applies. Each wearer has a start mode of its own: 0 stands for it here, which is
// below every n that 1 does not refuse, so that 2 is not answered.
#[tactic(auto, unfolding(crate::specs::Ward::ward_fitness))]
fn check_ward(n: u32, k: u32, lists: &Lists) -> Result<(), Refusal>
    ensures { result ≡ ward_fitness n k (lists_of lists.now) }
{
    check_fitness(&Given {
        n,
        start: 0,
        k,
        lists: *lists,
    })
}

// The number that judging gives for a wearer, 0 for yes. A verdict is its number here: C reads the list, and first_other and WardOf speak of numbers.
#[tactic(auto, unfolding(crate::specs::Ward::verdict_of))]
fn judge_wearer(wearer: &Wearer, n: u32, k: u32, lists: &Lists, barred: u8, plan: &GivenPlan) -> u8
    ensures { result ≡ verdict_of n k (lists_of lists.now) barred plan.now.p plan.now.q plan.now.arcs.now wearer.now }
{
    let given = Given {
        n,
        start: wearer.start,
        k,
        lists: *lists,
    };
    Answer::from(judge(&given, wearer.c, wearer.b, barred, plan)).number
}

// The answer so far after one more verdict, a number as in `judge_wearer`: the first that is not yes, with its place.
fn after_verdict(answer: Answer, verdict: u8, place: usize) -> Answer
    ensures { result ≡ after_verdict answer verdict place }
{
    if answer.number != 0 || verdict == 0 {
        return answer;
    }
    Answer {
        number: verdict,
        detail: place as u64,
    }
}

// One plan for a ward: each wearer's verdict is filled with the number that judging gives, and the answer is yes where all are yes, else the first
// other verdict, with its place as detail; or the first of 1, 3, 4 and 5 that applies to the model, and the wearers as found. For all numbers,
// lists, plans and wearers. n, k and the lists, and no Given: a ward has no start mode, each wearer has one.
pub fn ward(
    wearers: &mut [Wearer],
    n: u32,
    k: u32,
    lists: &Lists,
    barred: u8,
    plan: &GivenPlan,
) -> Answer
    ensures { WardOf n k (lists_of lists.now) barred plan.now.p plan.now.q plan.now.arcs.now wearers.old wearers.new result }
{
    let checked = check_ward(n, k, lists);
    let mut answer = Answer::from(checked);
    if checked.is_err() {
        return answer;
    }
    for (place, wearer) in wearers.iter_mut().enumerate() {
        let verdict = judge_wearer(wearer, n, k, lists, barred, plan);
        wearer.verdict = verdict;
        answer = after_verdict(answer, verdict, place);
    }
    answer
}
