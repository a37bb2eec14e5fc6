// DIMACS text: its lines, the first that is outside the forms, and the numbers of a text.
#![tactic(auto)]

ghost use Rattle.std.specs.Prelude.{◌≡◌, suc, ◌≤◌, drop};
ghost use Rattle.fields.specs.Fields.{lines_of, LineAt, line_or_none};
ghost use Rattle.dimacs.specs.Lines.{
  is_comment,
  modes_on,
  count_field,
  count_on,
  is_problem,
  from_on,
  to_field,
  to_on,
  weight_field,
  is_negative,
  unsigned,
  parts_on,
  is_mode,
  weight_ends,
  is_arc,
};
ghost use Rattle.dimacs.specs.Text.{comments, problem_line, IsProblemOf, arcs_wrong, dimacs_wrong};

use fields::Bytes;

const COMMENT_LETTER: u8 = b'c';

// The draw and the gain that a weight means.
#[derive(Clone, Copy)]
pub struct Parts {
    pub draw: u32,
    pub gain: u32,
}

// The numbers on the `p` line of a text, and the place where the lines of the arcs begin. (A place and no slice: `IsProblemOf` and `LineAt`, which MAP
// names, speak of places.)
#[derive(Clone, Copy)]
pub struct Problem {
    pub modes: u32,
    pub count: u32,
    pub arcs: usize,
}

// A place in a text where a line begins, and the number of lines before it. (A place and no slice, as `LineAt` says it.)
#[derive(Clone, Copy)]
struct Place {
    at: usize,
    line: usize,
}

// The `p` line of a text, and the place behind it.
#[derive(Clone, Copy)]
struct Head<'a> {
    problem: &'a [u8],
    arcs: Place,
}

// Whether a line is a comment.
#[tactic(auto, unfolding(crate::specs::Lines::is_comment))]
fn is_comment(line: &[u8]) -> bool
    ensures { result ≡ is_comment line.now }
{
    matches!(line, [COMMENT_LETTER, .., Bytes::FEED])
}

// The number of modes on a `p` line.
fn modes_on(line: &[u8]) -> u32
    ensures { result ≡ modes_on line.now }
{
    fields::number_after(line, b"p sp ")
}

// The field of the number of arcs on a `p` line.
fn count_field(line: &[u8]) -> &[u8]
    ensures { result.now ≡ count_field line.now }
{
    fields::field_after(line, b"p sp ", b" ")
}

// The number of arcs on a `p` line.
fn count_on(line: &[u8]) -> u32
    ensures { result ≡ count_on line.now }
{
    fields::number_of(count_field(line))
}

// Whether a line is a `p` line.
fn is_problem(line: &[u8]) -> bool
    ensures { result ≡ is_problem line.now }
{
    fields::is_only(fields::after_number(count_field(line)), Bytes::FEED)
}

// The source on an `a` line, from 1.
pub fn from_on(line: &[u8]) -> u32
    ensures { result ≡ from_on line.now }
{
    fields::number_after(line, b"a ")
}

// The field of the target on an `a` line.
fn to_field(line: &[u8]) -> &[u8]
    ensures { result.now ≡ to_field line.now }
{
    fields::field_after(line, b"a ", b" ")
}

// The target on an `a` line, from 1.
pub fn to_on(line: &[u8]) -> u32
    ensures { result ≡ to_on line.now }
{
    fields::number_of(to_field(line))
}

// The field of the weight on an `a` line.
fn weight_field(line: &[u8]) -> &[u8]
    ensures { result.now ≡ weight_field line.now }
{
    let tail = fields::after_number(to_field(line));
    fields::after_word(tail, b" ")
}

// Whether a field has a minus.
#[tactic(auto, unfolding(crate::specs::Lines::is_negative))]
fn is_negative(field: &[u8]) -> bool
    ensures { result ≡ is_negative field.now }
{
    matches!(field, [Bytes::MINUS, ..])
}

// A field without its minus.
#[tactic(auto, unfolding(crate::specs::Lines::unsigned))]
fn unsigned_of(field: &[u8]) -> &[u8]
    ensures { result.now ≡ unsigned field.now }
{
    match field {
        [Bytes::MINUS, rest @ ..] => rest,
        _ => field,
    }
}

// The draw and the gain on an `a` line.
pub fn parts_on(line: &[u8]) -> Parts
    ensures { result ≡ parts_on line.now }
{
    let field = weight_field(line);
    let size = fields::number_of(unsigned_of(field));
    if is_negative(field) {
        Parts {
            draw: size,
            gain: 0,
        }
    } else {
        Parts {
            draw: 0,
            gain: size,
        }
    }
}

// Whether a mode is one from 1 to n.
fn is_mode(n: u32, x: u32) -> bool
    ensures { result ≡ is_mode n x }
{
    (1..=n).contains(&x)
}

// Whether nothing but the line feed follows the weight of a field.
fn weight_ends(field: &[u8]) -> bool
    ensures { result ≡ weight_ends field.now }
{
    fields::is_only(fields::after_number(unsigned_of(field)), Bytes::FEED)
}

// Whether a line is an `a` line. What `from_on`, `to_on` and `weight_field` look for is read in one pass here, since every line of the arcs is tried.
#[tactic(auto, unfolding(crate::specs::Lines::is_arc))]
fn is_arc(line: &[u8], n: u32) -> bool
    ensures { result ≡ is_arc n line.now }
{
    let from = fields::after_word(line, b"a ");
    let to = fields::after_word(fields::after_number(from), b" ");
    let weight = fields::after_word(fields::after_number(to), b" ");
    is_mode(n, fields::number_of(from)) && is_mode(n, fields::number_of(to)) && weight_ends(weight)
}

// The place after the comments that a text begins with.
fn after_comments(text: &[u8]) -> Place
    ensures { (result.line ≡ comments (lines_of text.now)) × (result.line ≤ result.at) × LineAt text.now result.at result.line }
{
    // Counted by hand: where the text ends, the answer is this count too.
    let mut place = Place { at: 0, line: 0 };
    for line in fields::lines(text) {
        if !is_comment(line) {
            return place;
        }
        place.at += line.len();
        place.line += 1;
    }
    place
}

// The line after the comments, nothing where there is none, and the place behind it.
fn head_of(text: &[u8]) -> Head<'_>
    ensures problem { result.problem.now ≡ problem_line (lines_of text.now) }
    ensures line { result.arcs.line ≡ suc (comments (lines_of text.now)) }
    ensures few { result.arcs.line ≤ suc result.arcs.at }
    ensures place { LineAt text.now result.arcs.at result.arcs.line }
{
    let place = after_comments(text);
    let e = fields::piece_end(text, place.at, Bytes::FEED);
    Head {
        problem: &text[place.at..e],
        arcs: Place {
            at: e,
            line: place.line + 1,
        },
    }
}

// The first line from a place on that is outside the forms of the lines of arcs, from 1 over the whole text, or none.
#[tactic(auto, using(crate::proofs::Lists::lines_few), unfolding(crate::specs::Text::arcs_wrong))]
fn arcs_wrong(text: &[u8], place: Place, n: u32, m: u32) -> Option<usize>
    requires { (place.line ≤ suc place.at) × LineAt text.now place.at place.line }
    ensures { result ≡ line_or_none (arcs_wrong n m place.line 0 (drop place.line (lines_of text.now))) }
{
    // Counted by hand: where the text ends, the answer rests on this count too.
    let mut i = 0;
    for line in fields::lines(&text[place.at..]) {
        if i >= (m as usize) || !is_arc(line, n) {
            return Some(place.line + i + 1);
        }
        i += 1;
    }
    if i == (m as usize) {
        None
    } else {
        Some(place.line + i + 1)
    }
}

// The first line of a text that is outside the forms, from 1, or none.
pub fn dimacs_wrong(text: &[u8]) -> Option<usize>
    ensures { result ≡ line_or_none (dimacs_wrong (lines_of text.now)) }
{
    let head = head_of(text);
    if !is_problem(head.problem) {
        return Some(head.arcs.line);
    }
    arcs_wrong(
        text,
        head.arcs,
        modes_on(head.problem),
        count_on(head.problem),
    )
}

// The numbers of a text, and where the lines of its arcs begin.
pub fn problem_of(text: &[u8]) -> Problem
    ensures { IsProblemOf text.now result }
{
    let head = head_of(text);
    Problem {
        modes: modes_on(head.problem),
        count: count_on(head.problem),
        arcs: head.arcs.at,
    }
}
