// Prints document 01's judged examples, one a line: letter, number (0 is yes), detail. Each answer is computed by judging.
#![tactic(auto)]

use judge::{GivenPlan, judge};
use model::{Given, Lists};
use refusals::{Answer, Refusal};
use std::io;

// One line.
fn print_case(rt: &HostRuntime, letter: char, judged: Result<(), Refusal>) -> io::Result<()> {
    let answer = Answer::from(judged);
    println!(rt; "{letter} {} {}", answer.number, answer.detail)
}

// B's model: n 1, k 0, arc 0→0, −1; round 0; b = c.
fn print_draining(rt: &HostRuntime, letter: char, level: u32) -> io::Result<()> {
    let lists = Lists {
        sources: &[0],
        targets: &[0],
        draws: &[1],
        gains: &[0],
        colours: &[0],
        actions: &[0],
    };
    let given = Given {
        n: 1,
        start: 0,
        k: 0,
        lists,
    };
    let plan = GivenPlan {
        p: 0,
        q: 1,
        arcs: &[0],
    };
    print_case(rt, letter, judge(&given, level, level, 0, &plan))
}

// E's model: n 2, k 0, arcs 0→1, +3 and 1→0, −3; round 0, 1; b = c.
fn print_balanced(rt: &HostRuntime, letter: char, level: u32) -> io::Result<()> {
    let lists = Lists {
        sources: &[0, 1],
        targets: &[1, 0],
        draws: &[0, 3],
        gains: &[3, 0],
        colours: &[0, 0],
        actions: &[0, 0],
    };
    let given = Given {
        n: 2,
        start: 0,
        k: 0,
        lists,
    };
    let plan = GivenPlan {
        p: 0,
        q: 2,
        arcs: &[0, 1],
    };
    print_case(rt, letter, judge(&given, level, level, 0, &plan))
}

// G's model: n 2, k 1, arcs 0→0, +1; 0→1, −5; 1→1, 0, colour 0; c 0, b 5; run-in 0 0 0 0 0 1, round 2.
fn print_charged(rt: &HostRuntime, letter: char) -> io::Result<()> {
    let lists = Lists {
        sources: &[0, 0, 1],
        targets: &[0, 1, 1],
        draws: &[0, 5, 0],
        gains: &[1, 0, 0],
        colours: &[0, 0, 1],
        actions: &[0, 0, 0],
    };
    let given = Given {
        n: 2,
        start: 0,
        k: 1,
        lists,
    };
    let plan = GivenPlan {
        p: 6,
        q: 1,
        arcs: &[0, 0, 0, 0, 0, 1, 2],
    };
    print_case(rt, letter, judge(&given, 0, 5, 0, &plan))
}

// J's model: n 1, k 2, arcs 0→0, −2, colour 0 and 0→0, +2, colour 1; c 0, b 2; a round of q arcs without a run-in.
fn print_coloured(rt: &HostRuntime, letter: char, q: u32, round: &[u8]) -> io::Result<()> {
    let lists = Lists {
        sources: &[0, 0],
        targets: &[0, 0],
        draws: &[2, 0],
        gains: &[0, 2],
        colours: &[1, 2],
        actions: &[0, 0],
    };
    let given = Given {
        n: 1,
        start: 0,
        k: 2,
        lists,
    };
    let plan = GivenPlan {
        p: 0,
        q,
        arcs: round,
    };
    print_case(rt, letter, judge(&given, 0, 2, 0, &plan))
}

fn main(rt: HostRuntime) -> io::Result<()> {
    print_draining(&rt, 'C', 5)?;
    print_draining(&rt, 'D', 1)?;
    print_balanced(&rt, 'E', 10)?;
    print_balanced(&rt, 'F', 2)?;
    print_charged(&rt, 'I')?;
    print_coloured(&rt, 'J', 2, &[1, 0])?;
    print_coloured(&rt, 'K', 2, &[0, 1])?;
    print_coloured(&rt, 'L', 1, &[1])
}
