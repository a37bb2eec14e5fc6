// A model read from HOA text and DIMACS text into lent lists. Both texts are walked side by side, and nothing is kept of them: there is no ceiling on
// their length, and an edge past the 255th still has to agree.
#![tactic(auto)]

ghost use Rattle.std.specs.Prelude.{◌≡◌, ◌&&◌, map, ◌≤◌, eqb, length};
ghost use Rattle.std.specs.Iterator.{YieldsFirstBy, item_count};
ghost use Rattle.limits.specs.Ceilings.{arcs_most};
ghost use Rattle.refusals.specs.Refusals.{and_then, answer_of, verdict_of};
ghost use Rattle.model.specs.Fitness.{header};
ghost use Rattle.fields.specs.Fields.{lines_of};
ghost use Rattle.hoa.specs.Text.{edges_from, edges_of, modes_of, start_of, colours_of};
ghost use Rattle.dimacs.specs.Text.{text_arc_on, IsProblemOf};
ghost use Rattle.filling.specs.Filling.{lists_lent, SameLent, Narrow, AllNarrow, written_from};
ghost use Rattle.reading.specs.Agreement.{same_ends, all_same};
ghost use Rattle.reading.specs.ModelRead.{arc_read, arcs_read};
ghost use Rattle.reading.specs.Reading.{no_room, readable, read_of, read_answer, lists_read};
ghost use Rattle.reading.specs.Within.{edge_said, edges_left, out_of_range, weights_verdict, read_by};

use dimacs::Problem;
use fields::SplitAfter;
use filling::{LentLists, Numbers};
use limits::Limits;
use model::Arc;
use refusals::Refusal;

// An edge of a body: its source, and its line.
#[derive(Clone, Copy)]
pub struct Edge<'a> {
    pub source: u32,
    pub line: &'a [u8],
}

// A walk over the edges of a body: the lines that are left, and the mode whose block is open.
#[derive(Drop)]
pub struct Edges<'a> {
    lines: SplitAfter<'a>,
    source: u32,
}

impl<'a> Iterator for Edges<'a> {
    type Item = Edge<'a>;

    ghost next_gives = { YieldsFirstBy edge_said edges_left };

    ghost remaining = { item_count edges_left };

    #[tactic(auto, unfolding(hoa::specs::Text::edges_from, fields::specs::Fields::split))]
    fn next(&mut self) -> Option<Edge<'a>> {
        while let Some(line) = self.lines.next() {
            if hoa::is_state(line) {
                self.source = hoa::state_of(line);
            } else if hoa::is_end(line) {
                self.lines = fields::lines(&[]);
            } else {
                return Some(Edge {
                    source: self.source,
                    line,
                });
            }
        }
        None
    }
}

// The edges of a body.
fn edges_in(body: &[u8]) -> Edges<'_>
    ensures { edges_left result ≡ edges_from 0 (lines_of body.now) }
{
    Edges {
        lines: fields::lines(body),
        source: 0,
    }
}

// Whether an edge and an `a` line have the same ends.
fn same_ends(edge: Edge, arc: &[u8]) -> bool
    ensures { result ≡ same_ends (edge_said edge.entry) (text_arc_on arc.now) }
{
    let from = u64::from(dimacs::from_on(arc));
    let to = u64::from(dimacs::to_on(arc));
    let target = u64::from(hoa::target_of(edge.line));
    u64::from(edge.source) + 1 == from && target + 1 == to
}

// Whether the edges of a body and the `a` lines are as many and have the same ends.
#[tactic(auto, unfolding(crate::specs::Agreement::all_same))]
fn all_same(body: &[u8], arcs: &[u8]) -> bool
    ensures { result ≡ all_same (edges_from 0 (lines_of body.now)) (map text_arc_on (lines_of arcs.now)) }
{
    let mut edges = edges_in(body);
    for arc in fields::lines(arcs) {
        let Some(edge) = edges.next() else {
            return false;
        };
        if !same_ends(edge, arc) {
            return false;
        }
    }
    edges.next().is_none()
}

// Whether HOA text agrees with the number of modes and the `a` lines of DIMACS text.
fn texts_agree(hoa: &[u8], modes: u32, arcs: &[u8]) -> bool
    ensures { result ≡ (eqb (modes_of (lines_of hoa.now)) modes && all_same (edges_of (lines_of hoa.now)) (map text_arc_on (lines_of arcs.now))) }
{
    hoa::modes_of(hoa) == modes && all_same(hoa::body_of(hoa), arcs)
}

// Refusal 3: more arcs than there is room for, or than a model may have.
#[tactic(auto, unfolding(crate::specs::Reading::no_room))]
fn no_room(room: usize, count: u32) -> bool
    ensures { result ≡ no_room room count }
{
    let m = count as usize;
    m > room || m > Limits::ARCS
}

// Whether the weight on an `a` line is outside its range.
#[tactic(auto, unfolding(crate::specs::Within::out_of_range))]
fn is_out_of_range(arc: &[u8]) -> bool
    ensures { result ≡ out_of_range arc.now }
{
    let parts = dimacs::parts_on(arc);
    parts.draw > u32::from(Limits::DRAW) || parts.gain > u32::from(Limits::GAIN)
}

// Refusal 5: of an arc that is read, only the weight can be outside its range.
#[tactic(auto, unfolding(crate::specs::Within::weights_verdict))]
fn check_weights(arcs: &[u8]) -> Result<(), Refusal>
    requires { length (lines_of arcs.now) ≤ arcs_most }
    ensures { result ≡ weights_verdict (lines_of arcs.now) 0 }
{
    for (i, arc) in fields::lines(arcs).enumerate() {
        if is_out_of_range(arc) {
            return Err(Refusal::UnfitArc(i as u32));
        }
    }
    Ok(())
}

// Refusals 1 to 5 of texts that agree.
fn check_fitness(hoa: &[u8], count: u32, arcs: &[u8], room: usize) -> Result<(), Refusal>
    requires { length (lines_of arcs.now) ≡ count }
    ensures { result ≡ and_then (header (modes_of (lines_of hoa.now)) (start_of (lines_of hoa.now)) (colours_of (lines_of hoa.now)) (no_room room count)) (weights_verdict (lines_of arcs.now) 0) }
{
    let modes = hoa::modes_of(hoa);
    let start = hoa::start_of(hoa);
    let colours = hoa::colours_of(hoa);
    let unfit = no_room(room, count);
    model::check_header(modes, start, colours, unfit)?;
    check_weights(arcs)
}

// All refusals of a reading into lists of which the shortest takes so many arcs; `problem` has the numbers of the DIMACS text.
fn check_texts(hoa: &[u8], dimacs: &[u8], problem: Problem, room: usize) -> Result<(), Refusal>
    requires { IsProblemOf dimacs.now problem }
    ensures { result ≡ readable (lines_of hoa.now) (lines_of dimacs.now) room }
{
    if let Some(line) = hoa::hoa_wrong(hoa) {
        return Err(Refusal::HoaLine(line as u64));
    }
    if let Some(line) = dimacs::dimacs_wrong(dimacs) {
        return Err(Refusal::DimacsLine(line as u64));
    }
    let arcs = &dimacs[problem.arcs..];
    if !texts_agree(hoa, problem.modes, arcs) {
        return Err(Refusal::TextsDisagree);
    }
    check_fitness(hoa, problem.count, arcs, room)
}

// The arc of an edge and its `a` line. In files every action is 0.
fn arc_of(edge: Edge, arc: &[u8]) -> Arc
    requires { Narrow (arc_read (edge_said edge) (text_arc_on arc.now)) }
    ensures { result ≡ arc_read (edge_said edge.entry) (text_arc_on arc.now) }
{
    let parts = dimacs::parts_on(arc);
    Arc {
        source: edge.source as u8,
        target: hoa::target_of(edge.line) as u8,
        draw: parts.draw as u16,
        gain: parts.gain as u16,
        colours: hoa::colour_byte(edge.line),
        action: 0,
    }
}

// The arcs of a body and the `a` lines, written into the lent lists.
fn fill(body: &[u8], arcs: &[u8], lists: &mut LentLists)
    requires { AllNarrow (arcs_read (edges_from 0 (lines_of body.now)) (map text_arc_on (lines_of arcs.now))) }
    ensures arcs { lists_lent lists.new ≡ written_from 0 (arcs_read (edges_from 0 (lines_of body.now)) (map text_arc_on (lines_of arcs.now))) (lists_lent lists.old) }
    ensures same_lists { SameLent lists.old lists.new }
{
    for (i, (edge, arc)) in edges_in(body).zip(fields::lines(arcs)).enumerate() {
        lists.write(arc_of(edge, arc), i);
    }
}

// The numbers of a model of HOA text that has so many arcs.
fn numbers(hoa: &[u8], count: u32) -> Numbers
    ensures { result ≡ read_by (lines_of hoa.now) count }
{
    Numbers {
        modes: hoa::modes_of(hoa),
        start: hoa::start_of(hoa),
        colours: hoa::colours_of(hoa),
        count,
    }
}

// A model read from HOA text and DIMACS text into six lent lists, from place 0 of each on: the first of 19, 20, 21 and 1 to 5 that applies, and the
// lists as they were, or the numbers of the model. For all texts and lists.
pub fn read(hoa: &[u8], dimacs: &[u8], lists: &mut LentLists) -> Result<Numbers, Refusal>
    ensures reading { result ≡ read_of hoa.now dimacs.now (lists_lent lists.old) }
    ensures answer { answer_of (verdict_of result) ≡ read_answer hoa.now dimacs.now (lists_lent lists.old) }
    ensures lists { lists_lent lists.new ≡ lists_read hoa.now dimacs.now (lists_lent lists.old) }
    ensures same_lists { SameLent lists.old lists.new }
{
    let room = lists.room();
    let problem = dimacs::problem_of(dimacs);
    check_texts(hoa, dimacs, problem, room)?;
    fill(hoa::body_of(hoa), &dimacs[problem.arcs..], lists);
    Ok(numbers(hoa, problem.count))
}
