// HOA text: its lines, and the first that is outside the forms.
#![tactic(auto)]

ghost use Rattle.std.specs.Prelude.{◌≡◌, true, cond, [], map, suc, ◌≤◌, max, length, take, drop};
ghost use Rattle.fields.specs.Bytes.{blank, ampersand};
ghost use Rattle.fields.specs.Fields.{number_of, split, lines_of, is_word, line_or_none};
ghost use Rattle.hoa.specs.Words.{close_brace};
ghost use Rattle.hoa.specs.Lines.{
  is_state,
  state_of,
  target_of,
  inside,
  are_colours,
  is_braces,
  is_edge,
  colour_count,
  condition,
  inf_tail,
  inf_number,
  are_infs,
  is_acceptance,
};
ghost use Rattle.hoa.specs.Text.{
  modes_of,
  start_of,
  colours_of,
  head_wrong,
  opens_block,
  has_block,
  is_new_block,
  may_stand,
  is_end,
  body_wrong,
  hoa_wrong,
  colours_said,
  contains,
  colour_byte,
};
ghost use Rattle.hoa.specs.Blocks.{Knows, low_with, blocks_after};

use fields::Bytes;
use limits::Limits;

// What is known of the modes that have a block in the lines so far: bit j of low for each mode j that a fit model may have; no mode from top on.
// (A word as a set: no heap.)
#[derive(Clone, Copy)]
pub struct Blocks {
    pub low: u64,
    pub top: u64,
}

// Whether a line is a `State:` line.
pub fn is_state(line: &[u8]) -> bool
    ensures { result ≡ is_state line.now }
{
    fields::is_numbered(line, b"State: ")
}

// The mode of a `State:` line.
pub fn state_of(line: &[u8]) -> u32
    ensures { result ≡ state_of line.now }
{
    fields::number_after(line, b"State: ")
}

// The target of an edge's line.
pub fn target_of(line: &[u8]) -> u32
    ensures { result ≡ target_of line.now }
{
    fields::number_after(line, b"[t] ")
}

// What follows the opening brace of an edge's line.
fn inside_of(line: &[u8]) -> &[u8]
    ensures { result.now ≡ inside line.now }
{
    fields::field_after(line, b"[t] ", b" {")
}

// Whether a list ends a pair of braces.
fn closes(s: &[u8]) -> bool
    ensures { result ≡ is_word close_brace s.now }
{
    fields::is_word(s, b"}")
}

// Whether colours below k stand in a list, with what closes them.
#[tactic(auto, unfolding(crate::specs::Lines::are_colours))]
fn are_colours(s: &[u8], k: u32) -> bool
    ensures { result ≡ are_colours k (split blank s.now) }
{
    for piece in fields::split_after(s, Bytes::BLANK) {
        if fields::number_of(piece) >= k {
            return false;
        }
        let tail = fields::after_number(piece);
        if closes(tail) {
            return true;
        }
        if !fields::is_only(tail, Bytes::BLANK) {
            return false;
        }
    }
    false
}

// Whether braces that are open are closed rightly.
#[tactic(auto, unfolding(crate::specs::Lines::is_braces))]
fn is_braces(s: &[u8], k: u32) -> bool
    ensures { result ≡ is_braces k s.now }
{
    closes(s) || are_colours(s, k)
}

// Whether a line is an edge's line. What `target_of` and `inside_of` look for is read in one pass here, since every line of a body is tried.
#[tactic(auto, unfolding(crate::specs::Lines::is_edge))]
fn is_edge(line: &[u8], n: u32, k: u32) -> bool
    ensures { result ≡ is_edge n k line.now }
{
    let rest = fields::after_word(line, b"[t] ");
    let tail = fields::after_number(rest);
    fields::number_of(rest) < n
        && (fields::is_only(tail, Bytes::FEED) || is_braces(fields::after_word(tail, b" {"), k))
}

// The number of colours on an `Acceptance:` line.
fn colour_count(line: &[u8]) -> u32
    ensures { result ≡ colour_count line.now }
{
    fields::number_after(line, b"Acceptance: ")
}

// The condition on an `Acceptance:` line.
fn condition_of(line: &[u8]) -> &[u8]
    ensures { result.now ≡ condition line.now }
{
    fields::field_after(line, b"Acceptance: ", b" ")
}

// What follows `Inf(`, a number and the closing bracket.
fn inf_tail(piece: &[u8]) -> &[u8]
    ensures { result.now ≡ inf_tail piece.now }
{
    fields::field_after(piece, b"Inf(", b")")
}

// The number after `Inf(`.
fn inf_number(piece: &[u8]) -> u32
    ensures { result ≡ inf_number piece.now }
{
    fields::number_after(piece, b"Inf(")
}

// Whether a condition is `Inf(0)` to `Inf(k-1)`.
#[tactic(auto, unfolding(crate::specs::Lines::are_infs))]
fn are_infs(s: &[u8], k: u32) -> bool
    ensures { result ≡ are_infs k 0 (split ampersand s.now) }
{
    for (j, piece) in fields::split_after(s, Bytes::AMPERSAND).enumerate() {
        if (inf_number(piece) as usize) != j {
            return false;
        }
        let tail = inf_tail(piece);
        if fields::is_only(tail, Bytes::FEED) {
            return j + 1 == (k as usize);
        }
        if !fields::is_only(tail, Bytes::AMPERSAND) {
            return false;
        }
    }
    false
}

// Whether a line is an `Acceptance:` line.
#[tactic(auto, unfolding(crate::specs::Lines::is_acceptance))]
fn is_acceptance(line: &[u8]) -> bool
    ensures { result ≡ is_acceptance line.now }
{
    let k = colour_count(line);
    let rest = condition_of(line);
    if k == 0 {
        fields::is_word(rest, b"t")
    } else {
        are_infs(rest, k)
    }
}

// The number of modes of a text.
pub fn modes_of(text: &[u8]) -> u32
    ensures { result ≡ modes_of (lines_of text.now) }
{
    fields::line_number(text, 1, b"States: ")
}

// The start mode of a text.
pub fn start_of(text: &[u8]) -> u32
    ensures { result ≡ start_of (lines_of text.now) }
{
    fields::line_number(text, 2, b"Start: ")
}

// The number of colours of a text.
pub fn colours_of(text: &[u8]) -> u32
    ensures { result ≡ colours_of (lines_of text.now) }
{
    fields::line_number(text, 4, b"Acceptance: ")
}

// The first of the lines before the body that is outside the forms, from 1, or none.
#[tactic(auto, unfolding(crate::specs::Text::head_wrong))]
fn head_wrong(text: &[u8]) -> Option<usize>
    ensures { result ≡ line_or_none (head_wrong (lines_of text.now)) }
{
    if !fields::is_word_line(text, 0, b"HOA: v1") {
        Some(1)
    } else if !fields::is_numbered_line(text, 1, b"States: ") {
        Some(2)
    } else if !fields::is_numbered_line(text, 2, b"Start: ") {
        Some(3)
    } else if !fields::is_word_line(text, 3, b"AP: 0") {
        Some(4)
    } else if !is_acceptance(fields::line_of(text, 4)) {
        Some(5)
    } else if !fields::is_word_line(text, 5, b"--BODY--") {
        Some(6)
    } else {
        None
    }
}

// Whether a line opens the block of a mode.
#[tactic(auto, unfolding(crate::specs::Text::opens_block))]
fn opens(line: &[u8], mode: u32) -> bool
    ensures { result ≡ opens_block mode line.now }
{
    is_state(line) && mode == state_of(line)
}

// Whether a mode has a block in the first lines of a body. (Body and count go through three functions, each with another fact of them.)
fn has_block(body: &[u8], count: usize, mode: u32) -> bool
    ensures { result ≡ has_block mode (take count (lines_of body.now)) }
{
    fields::lines(body)
        .take(count)
        .any(|line| opens(line, mode))
}

// Whether a line opens the block of a mode that has none in the first lines of a body. Those lines are scanned only for a mode that no fit model
// has, so that the text of a fit model is read in linear time.
#[tactic(auto, unfolding(crate::specs::Text::is_new_block))]
fn is_new_block(body: &[u8], count: usize, blocks: Blocks, line: &[u8], n: u32) -> bool
    requires { Knows blocks (take count (lines_of body.now)) }
    ensures { result ≡ is_new_block n (take count (lines_of body.now)) line.now }
{
    if !is_state(line) {
        return false;
    }
    let mode = state_of(line);
    if mode >= n {
        return false;
    }
    if mode < Limits::MODES {
        return (blocks.low >> mode) % 2 != 1;
    }
    u64::from(mode) >= blocks.top || !has_block(body, count, mode)
}

// Whether a line may stand after the first lines of a body.
#[tactic(auto, unfolding(crate::specs::Text::may_stand))]
fn may_stand(body: &[u8], count: usize, blocks: Blocks, line: &[u8], n: u32, k: u32) -> bool
    requires { (count ≤ length (lines_of body.now)) × Knows blocks (take count (lines_of body.now)) }
    ensures { result ≡ may_stand n k (take count (lines_of body.now)) line.now }
{
    is_new_block(body, count, blocks, line, n) || (count != 0 && is_edge(line, n, k))
}

// The bits with the mode's own, where it has one.
#[tactic(auto, unfolding(crate::specs::Blocks::low_with))]
fn low_with(low: u64, mode: u32) -> u64
    ensures { result ≡ low_with low mode }
{
    if mode < Limits::MODES {
        low | (1u64 << mode)
    } else {
        low
    }
}

// What is known with one line more.
#[tactic(auto, unfolding(crate::specs::Blocks::blocks_after))]
fn blocks_after(blocks: Blocks, line: &[u8]) -> Blocks
    ensures { result ≡ blocks_after blocks line.now }
{
    if !is_state(line) {
        return blocks;
    }
    let mode = state_of(line);
    Blocks {
        low: low_with(blocks.low, mode),
        top: blocks.top.max(u64::from(mode) + 1),
    }
}

// Whether a line is the last.
pub fn is_end(line: &[u8]) -> bool
    ensures { result ≡ is_end line.now }
{
    fields::is_word(line, b"--END--")
}

// The first line of a body that is outside the forms, from 1 over the whole text, or none.
#[tactic(auto, using(fields::proofs::Pieces::split_few))]
fn body_wrong(body: &[u8], n: u32, k: u32) -> Option<usize>
    ensures { result ≡ line_or_none (body_wrong n k [] (lines_of body.now)) }
{
    let mut blocks = Blocks { low: 0, top: 0 };
    let mut lines = fields::lines(body);
    // Counted by hand, and walked by hand: where the text ends early the answer is this count too, and after the last line comes a look at the next.
    let mut j = 0;
    while let Some(line) = lines.next() {
        if is_end(line) {
            if lines.next().is_some() {
                return Some(j + 8);
            }
            return None;
        }
        if !may_stand(body, j, blocks, line, n, k) {
            return Some(j + 7);
        }
        blocks = blocks_after(blocks, line);
        j += 1;
    }
    Some(j + 7)
}

// The lines behind the six before the body.
pub fn body_of(text: &[u8]) -> &[u8]
    ensures { lines_of result.now ≡ drop 6 (lines_of text.now) }
{
    &text[fields::line_at(text, 6)..]
}

// The first line of a text that is outside the forms, from 1, or none.
#[tactic(auto, using(crate::proofs::Bodies::text_head, crate::proofs::Bodies::text_body))]
pub fn hoa_wrong(text: &[u8]) -> Option<usize>
    ensures { result ≡ line_or_none (hoa_wrong (lines_of text.now)) }
{
    if let Some(line) = head_wrong(text) {
        return Some(line);
    }
    body_wrong(body_of(text), modes_of(text), colours_of(text))
}

// Whether a colour stands among the pieces of a list.
fn in_pieces(s: &[u8], colour: u32) -> bool
    ensures { result ≡ contains colour (map number_of (split blank s.now)) }
{
    fields::split_after(s, Bytes::BLANK).any(|piece| colour == fields::number_of(piece))
}

// A bit where a colour stands among the pieces of a list, else 0.
fn colour_bit(s: &[u8], colour: u32, bit: u8) -> u8
    ensures { (result ≡ cond (contains colour (map number_of (split blank s.now))) bit 0) × (result ≤ bit) }
{
    if in_pieces(s, colour) { bit } else { 0 }
}

// The colour byte of the pieces of a list. (Four terms, as `colour_byte` of specs/Text adds them.)
#[tactic(auto, unfolding(crate::specs::Text::colour_byte))]
fn pieces_byte(s: &[u8]) -> u8
    ensures { result ≡ colour_byte (map number_of (split blank s.now)) }
{
    colour_bit(s, 0, 1) + colour_bit(s, 1, 2) + colour_bit(s, 2, 4) + colour_bit(s, 3, 8)
}

// The colour byte of an edge's line.
#[tactic(auto, unfolding(crate::specs::Text::colours_said, crate::specs::Text::colour_byte, crate::specs::Text::contains))]
pub fn colour_byte(line: &[u8]) -> u8
    ensures { result ≡ colour_byte (colours_said line.now) }
{
    let rest = inside_of(line);
    if closes(rest) { 0 } else { pieces_byte(rest) }
}
