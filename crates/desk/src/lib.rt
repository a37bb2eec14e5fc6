// The fitting desk's entries: judging, search, the decision without a plan, the least credit and the least bound, gauge, walk, reading, the join, wards and the
// table of greatest charges, to be called from C.
// include/chargeplan.h declares and explains them.
// C passes a slice as two arguments, a pointer and a length, and a `&mut` as a pointer.
// It passes a model, a plan and the switches part by part (the C interface), and each entry makes of them the structs that the calls take. (No helper: a call
// of nine arguments is no plainer than the fields by name.)
#![tactic(auto)]

ghost use Rattle.std.specs.Prelude.{◌≡◌, not, eqb};
ghost use Rattle.model.specs.Lists.{lists};
ghost use Rattle.reading.specs.Reading.{lists_read};
ghost use Rattle.join.specs.Joining.{given, lists_joined};
ghost use Rattle.ward.specs.Ward.{WardOf};
ghost use Rattle.reach.specs.Reach.{StartOf, SwitchOf};
ghost use Rattle.packing.specs.Desk.{four_words, desk_judged, desk_started, desk_walked, desk_read, desk_joined, DeskSearched, DeskDecided, DeskLeast, DeskStepped, DeskReached};
ghost use Rattle.least.specs.declared.Sought.TheVariants.{Credit, Bound};

use decide::decide;
use filling::LentLists;
use gauge::Gauge;
use join::join;
use judge::{GivenPlan, judge};
use least::{least_bound, least_credit};
use lent_gauge::step;
use model::{Given, Lists};
use packing::{Reached, Read, Started, pack, pack_alone, pack_least, pack_reached, pack_started};
use planwalk::{WalkAnswer, walk};
use reach::Reach;
use reading::read;
use refusals::Answer;
use search::{SearchAnswer, search};
use ward::{Wearer, ward};

// Judging: number 0 for yes, or the first of 1 to 6, 11 to 16, 24 and 17 that applies. For all numbers, lists and plans.
#[unsafe(no_mangle)]
pub extern "C" fn chargeplan_judge(
    n: u32,
    start: u32,
    k: u32,
    sources: &[u8],
    targets: &[u8],
    draws: &[u16],
    gains: &[u16],
    colours: &[u8],
    actions: &[u8],
    c: u32,
    b: u32,
    barred: u8,
    p: u32,
    q: u32,
    plan: &[u8],
) -> u64
    ensures { result ≡ desk_judged n start k (lists sources.now targets.now draws.now gains.now colours.now actions.now) barred b c p q plan.now }
{
    let lists = Lists {
        sources,
        targets,
        draws,
        gains,
        colours,
        actions,
    };
    let given = Given { n, start, k, lists };
    let plan = GivenPlan { p, q, arcs: plan };
    pack_alone(Answer::from(judge(&given, c, b, barred, &plan)))
}

// Search: number 0 with p and q of a plan in the plan buffer, 10 where there is none of arcs that are on, or the first of 1 to 9 that applies. For
// all numbers, switches, lists and buffers; what it writes is as `search::search` says.
#[unsafe(no_mangle)]
pub extern "C" fn chargeplan_search(
    n: u32,
    start: u32,
    k: u32,
    sources: &[u8],
    targets: &[u8],
    draws: &[u16],
    gains: &[u16],
    colours: &[u8],
    actions: &[u8],
    c: u32,
    b: u32,
    barred: u8,
    on0: u64,
    on1: u64,
    on2: u64,
    on3: u64,
    work: &mut [u16],
    plan: &mut [u8],
) -> u64
    ensures { DeskSearched n start k (lists sources.now targets.now draws.now gains.now colours.now actions.now) barred (four_words on0 on1 on2 on3) b c work.old plan.old work.new plan.new result }
{
    let lists = Lists {
        sources,
        targets,
        draws,
        gains,
        colours,
        actions,
    };
    let given = Given { n, start, k, lists };
    let searched = search(&given, c, b, barred, [on0, on1, on2, on3], work, plan);
    let told = SearchAnswer::from(searched);
    pack(told.answer, told.p, told.q)
}

// The decision without a plan: number 0 where there is a plan of arcs that are on, 10 where there is none, or the first of 1 to 6 and 8 that applies, with
// b up to 1,000,000. For all numbers, switches, lists and spaces; how it leaves the space is as `decide::decide` says.
#[unsafe(no_mangle)]
pub extern "C" fn chargeplan_decide(
    n: u32,
    start: u32,
    k: u32,
    sources: &[u8],
    targets: &[u8],
    draws: &[u16],
    gains: &[u16],
    colours: &[u8],
    actions: &[u8],
    c: u32,
    b: u32,
    barred: u8,
    on0: u64,
    on1: u64,
    on2: u64,
    on3: u64,
    work: &mut [u32],
) -> u64
    ensures { DeskDecided n start k (lists sources.now targets.now draws.now gains.now colours.now actions.now) barred (four_words on0 on1 on2 on3) b c work.old work.new result }
{
    let lists = Lists {
        sources,
        targets,
        draws,
        gains,
        colours,
        actions,
    };
    let given = Given { n, start, k, lists };
    let decided = decide(&given, c, b, barred, [on0, on1, on2, on3], work);
    pack_alone(Answer::from(decided))
}

// The least credit under the bound b: number 0 with its value, 10 where there is no plan with any credit up to b, or the first of 1 to 8 that applies. For all
// numbers, switches, lists and spaces; how it leaves the space is as `least::least_credit` says.
#[unsafe(no_mangle)]
pub extern "C" fn chargeplan_least_credit(
    n: u32,
    start: u32,
    k: u32,
    sources: &[u8],
    targets: &[u8],
    draws: &[u16],
    gains: &[u16],
    colours: &[u8],
    actions: &[u8],
    b: u32,
    barred: u8,
    on0: u64,
    on1: u64,
    on2: u64,
    on3: u64,
    work: &mut [u16],
) -> u64
    ensures { DeskLeast Credit n start k (lists sources.now targets.now draws.now gains.now colours.now actions.now) barred (four_words on0 on1 on2 on3) b work.old work.new result }
{
    let lists = Lists {
        sources,
        targets,
        draws,
        gains,
        colours,
        actions,
    };
    let given = Given { n, start, k, lists };
    pack_least(least_credit(&given, b, barred, [on0, on1, on2, on3], work))
}

// The least bound, not below the credit c and within the product ceiling of search: number 0 with its value, 10 where there is no plan with any such bound, or the
// first of 1 to 5, 7 and 8 that applies. For all numbers, switches, lists and spaces; how it leaves the space is as `least::least_bound` says.
#[unsafe(no_mangle)]
pub extern "C" fn chargeplan_least_bound(
    n: u32,
    start: u32,
    k: u32,
    sources: &[u8],
    targets: &[u8],
    draws: &[u16],
    gains: &[u16],
    colours: &[u8],
    actions: &[u8],
    c: u32,
    barred: u8,
    on0: u64,
    on1: u64,
    on2: u64,
    on3: u64,
    work: &mut [u16],
) -> u64
    ensures { DeskLeast Bound n start k (lists sources.now targets.now draws.now gains.now colours.now actions.now) barred (four_words on0 on1 on2 on3) c work.old work.new result }
{
    let lists = Lists {
        sources,
        targets,
        draws,
        gains,
        colours,
        actions,
    };
    let given = Given { n, start, k, lists };
    pack_least(least_bound(&given, c, barred, [on0, on1, on2, on3], work))
}

// Starting a gauge: number 0 and a new gauge with the start mode, the credit c and spill 0, which carries n, the number of arcs and b; or the
// first of 1 to 6 that applies and a gauge of zeros. For all numbers and lists.
#[unsafe(no_mangle)]
pub extern "C" fn chargeplan_gauge_start(
    n: u32,
    start: u32,
    k: u32,
    sources: &[u8],
    targets: &[u8],
    draws: &[u16],
    gains: &[u16],
    colours: &[u8],
    actions: &[u8],
    c: u32,
    b: u32,
) -> Started
    ensures { result ≡ desk_started n start k (lists sources.now targets.now draws.now gains.now colours.now actions.now) b c }
{
    let lists = Lists {
        sources,
        targets,
        draws,
        gains,
        colours,
        actions,
    };
    let given = Given { n, start, k, lists };
    pack_started(Gauge::start(&given, c, b))
}

// One step of the lent gauge on an arc: number 0 and the gauge moved on, or the first of 1 to 6, 22, 12, 13 and 15 that applies and the gauge as
// found. For all gauges, numbers and lists.
#[unsafe(no_mangle)]
pub extern "C" fn chargeplan_gauge_step(
    gauge: &mut Gauge,
    n: u32,
    start: u32,
    k: u32,
    sources: &[u8],
    targets: &[u8],
    draws: &[u16],
    gains: &[u16],
    colours: &[u8],
    actions: &[u8],
    b: u32,
    arc: u32,
) -> u64
    ensures { DeskStepped n start k (lists sources.now targets.now draws.now gains.now colours.now actions.now) b arc gauge.old gauge.new result }
{
    let lists = Lists {
        sources,
        targets,
        draws,
        gains,
        colours,
        actions,
    };
    let given = Given { n, start, k, lists };
    pack_alone(step(gauge, &given, b, arc))
}

// The walk: number 0 with the steps made and whether colour j was met, or the first of 1 to 6, 11 to 16, 24, 17 and 18 that applies. For all
// numbers, lists and plans.
#[unsafe(no_mangle)]
pub extern "C" fn chargeplan_walk(
    n: u32,
    start: u32,
    k: u32,
    sources: &[u8],
    targets: &[u8],
    draws: &[u16],
    gains: &[u16],
    colours: &[u8],
    actions: &[u8],
    c: u32,
    b: u32,
    barred: u8,
    p: u32,
    q: u32,
    plan: &[u8],
    j: u32,
    allowance: u16,
) -> u64
    ensures { result ≡ desk_walked n start k (lists sources.now targets.now draws.now gains.now colours.now actions.now) barred b c p q plan.now j allowance }
{
    let lists = Lists {
        sources,
        targets,
        draws,
        gains,
        colours,
        actions,
    };
    let given = Given { n, start, k, lists };
    let plan = GivenPlan { p, q, arcs: plan };
    let told = WalkAnswer::from(walk(&given, c, b, barred, &plan, j, allowance));
    pack(told.answer, u32::from(told.steps), u32::from(told.met))
}

// Reading: number 0 with n, the start mode, k and m, and the model's arcs in the lent lists, from place 0 of each on; or the first of 19, 20, 21 and 1
// to 5 that applies, four zeros, and the lists as they were. For all texts and lists.
#[unsafe(no_mangle)]
pub extern "C" fn chargeplan_read(
    hoa: &[u8],
    dimacs: &[u8],
    sources: &mut [u8],
    targets: &mut [u8],
    draws: &mut [u16],
    gains: &mut [u16],
    colours: &mut [u8],
    actions: &mut [u8],
) -> Read
    ensures answer { result ≡ desk_read hoa.now dimacs.now (lists sources.old targets.old draws.old gains.old colours.old actions.old) }
    ensures lists { lists sources.new targets.new draws.new gains.new colours.new actions.new ≡ lists_read hoa.now dimacs.now (lists sources.old targets.old draws.old gains.old colours.old actions.old) }
{
    let mut lent = LentLists {
        sources,
        targets,
        draws,
        gains,
        colours,
        actions,
    };
    Read::from(read(hoa, dimacs, &mut lent))
}

// The join of a knee and a habit: number 0 with n, the start mode, k and m of the joined model, and its arcs in the lent lists, from place 0 of each
// on; or the first of 1 to 5 of the knee, 1 to 5 of the habit and 23 that applies, four zeros, and the lists as they were. For all numbers and lists.
#[unsafe(no_mangle)]
pub extern "C" fn chargeplan_join(
    n1: u32,
    start1: u32,
    k1: u32,
    sources1: &[u8],
    targets1: &[u8],
    draws1: &[u16],
    gains1: &[u16],
    colours1: &[u8],
    actions1: &[u8],
    n2: u32,
    start2: u32,
    k2: u32,
    sources2: &[u8],
    targets2: &[u8],
    draws2: &[u16],
    gains2: &[u16],
    colours2: &[u8],
    actions2: &[u8],
    sources: &mut [u8],
    targets: &mut [u8],
    draws: &mut [u16],
    gains: &mut [u16],
    colours: &mut [u8],
    actions: &mut [u8],
) -> Read
    ensures answer { result ≡ desk_joined (given n1 start1 k1 (lists sources1.now targets1.now draws1.now gains1.now colours1.now actions1.now)) (given n2 start2 k2 (lists sources2.now targets2.now draws2.now gains2.now colours2.now actions2.now)) (lists sources.old targets.old draws.old gains.old colours.old actions.old) }
    ensures lists { lists sources.new targets.new draws.new gains.new colours.new actions.new ≡ lists_joined (given n1 start1 k1 (lists sources1.now targets1.now draws1.now gains1.now colours1.now actions1.now)) (given n2 start2 k2 (lists sources2.now targets2.now draws2.now gains2.now colours2.now actions2.now)) (lists sources.old targets.old draws.old gains.old colours.old actions.old) }
{
    let knee = Given {
        n: n1,
        start: start1,
        k: k1,
        lists: Lists {
            sources: sources1,
            targets: targets1,
            draws: draws1,
            gains: gains1,
            colours: colours1,
            actions: actions1,
        },
    };
    let habit = Given {
        n: n2,
        start: start2,
        k: k2,
        lists: Lists {
            sources: sources2,
            targets: targets2,
            draws: draws2,
            gains: gains2,
            colours: colours2,
            actions: actions2,
        },
    };
    let mut lent = LentLists {
        sources,
        targets,
        draws,
        gains,
        colours,
        actions,
    };
    Read::from(join(&knee, &habit, &mut lent))
}

// One plan for a ward: the verdict of each wearer of the lent list is filled with judging's number, and the answer is 0 where all are 0, else the
// first other verdict with its place; or the first of 1, 3, 4 and 5 that applies to the model, and the wearers as they were. For all numbers, lists,
// plans and wearers.
#[unsafe(no_mangle)]
pub extern "C" fn chargeplan_ward(
    wearers: &mut [Wearer],
    n: u32,
    k: u32,
    sources: &[u8],
    targets: &[u8],
    draws: &[u16],
    gains: &[u16],
    colours: &[u8],
    actions: &[u8],
    barred: u8,
    p: u32,
    q: u32,
    plan: &[u8],
) -> Answer
    ensures { WardOf n k (lists sources.now targets.now draws.now gains.now colours.now actions.now) barred p q plan.now wearers.old wearers.new result }
{
    let lists = Lists {
        sources,
        targets,
        draws,
        gains,
        colours,
        actions,
    };
    let plan = GivenPlan { p, q, arcs: plan };
    ward(wearers, n, k, &lists, barred, &plan)
}

// The table of greatest charges, made afresh: number 0 with the switches that were given and for each mode the greatest charge with which it can be
// reached over arcs that are on, or that it cannot; or the first of 1 to 6 that applies and all unreached. For all numbers, switches and lists.
#[unsafe(no_mangle)]
pub extern "C" fn chargeplan_reach_start(
    n: u32,
    start: u32,
    k: u32,
    sources: &[u8],
    targets: &[u8],
    draws: &[u16],
    gains: &[u16],
    colours: &[u8],
    actions: &[u8],
    c: u32,
    b: u32,
    on0: u64,
    on1: u64,
    on2: u64,
    on3: u64,
) -> Reached
    ensures { DeskReached (StartOf n start k (lists sources.now targets.now draws.now gains.now colours.now actions.now) (four_words on0 on1 on2 on3) b c) result }
{
    let lists = Lists {
        sources,
        targets,
        draws,
        gains,
        colours,
        actions,
    };
    let given = Given { n, start, k, lists };
    let on = [on0, on1, on2, on3];
    pack_reached(Reach::unreached(on), Reach::start(&given, c, b, on))
}

// The table with an arc switched on, where on is not 0, or off: number 0, and the table as it was where the arc is so already, else with the switch
// turned and made afresh; or the first of 1 to 6 and 12 that applies and the table as it was. For all tables, numbers and lists.
#[unsafe(no_mangle)]
pub extern "C" fn chargeplan_reach_switch(
    reach: Reach,
    n: u32,
    start: u32,
    k: u32,
    sources: &[u8],
    targets: &[u8],
    draws: &[u16],
    gains: &[u16],
    colours: &[u8],
    actions: &[u8],
    c: u32,
    b: u32,
    arc: u32,
    on: u8,
) -> Reached
    ensures { DeskReached (SwitchOf n start k (lists sources.now targets.now draws.now gains.now colours.now actions.now) b c arc (not (eqb on 0)) reach) result }
{
    let lists = Lists {
        sources,
        targets,
        draws,
        gains,
        colours,
        actions,
    };
    let given = Given { n, start, k, lists };
    pack_reached(reach, reach.switch(&given, c, b, arc, on != 0))
}
