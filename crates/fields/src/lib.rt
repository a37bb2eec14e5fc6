// Words, plain numbers, pieces and lines of a list of bytes. What reads a line returns the rest of it as a slice, and the empty one where it fails.
// It answers no Option: specs/Fields gives each form by the list that is left, for every list, and no form takes the empty one, so that a caller has
// no failure to pass on.
#![tactic(auto)]

ghost use Rattle.std.specs.Prelude.{◌≡◌, true, ◌+◌, ◌-◌, ◌*◌, ◌≤◌, ◌<◌, length, drop};
ghost use Rattle.std.specs.Iterator.{YieldsFirstRef, item_count};
ghost use Rattle.fields.specs.Bytes.{feed, blank, ampersand, minus, digit_zero, digit_nine};
ghost use Rattle.fields.specs.Fields.{
  after_word,
  is_only,
  digit_count,
  is_plain,
  number_of,
  after_number,
  piece_length,
  split,
  pieces_left,
  lines_of,
  line_of,
  LineAt,
  is_word,
  number_after,
  tail_after,
  field_after,
  is_numbered,
};

use limits::Limits;

// The bytes that texts are split at, or that stand alone between fields.
#[derive(Clone, Copy)]
pub struct Bytes;

impl Bytes {
    pub const FEED: u8 = b'\n';

    pub const BLANK: u8 = b' ';

    pub const AMPERSAND: u8 = b'&';

    pub const MINUS: u8 = b'-';

    pub const DIGIT_ZERO: u8 = b'0';

    // Used by `agree` alone since the library tests digits.
    pub const DIGIT_NINE: u8 = b'9';

    // Every constant is the numeral of specs/Bytes: changing one side alone is refused.
    pub fn agree() -> bool
        ensures yes { result ≡ true }
        ensures feed { Bytes.FEED ≡ feed }
        ensures blank { Bytes.BLANK ≡ blank }
        ensures ampersand { Bytes.AMPERSAND ≡ ampersand }
        ensures minus { Bytes.MINUS ≡ minus }
        ensures digit_zero { Bytes.DIGIT_ZERO ≡ digit_zero }
        ensures digit_nine { Bytes.DIGIT_NINE ≡ digit_nine }
    {
        true
    }
}

// A walk over the pieces of a list, split after each byte `end`. (The library's `split_inclusive` is no plainer: it says its pieces by the calls of a
// closure, and `lines_of`, which the theorems name, says them by `split` of specs/Fields, so that each walk over lines would show that both agree.)
#[derive(Drop)]
pub struct SplitAfter<'a> {
    rest: &'a [u8],
    end: u8,
}

impl<'a> Iterator for SplitAfter<'a> {
    type Item = &'a [u8];

    ghost next_gives = { YieldsFirstRef pieces_left };

    ghost remaining = { item_count pieces_left };

    fn next(&mut self) -> Option<&'a [u8]> {
        if self.rest.is_empty() {
            return None;
        }
        let (piece, rest) = self.rest.split_at(piece_length(self.rest, self.end));
        self.rest = rest;
        Some(piece)
    }
}

// The pieces of a list, split after each byte `end`.
pub fn split_after(s: &[u8], end: u8) -> SplitAfter<'_>
    ensures { pieces_left result ≡ split end s.now }
{
    SplitAfter { rest: s, end }
}

// The lines of a text.
pub fn lines(text: &[u8]) -> SplitAfter<'_>
    ensures { pieces_left result ≡ lines_of text.now }
{
    split_after(text, Bytes::FEED)
}

// How long the first piece of a list is: past the first byte b, or the whole list.
fn piece_length(s: &[u8], b: u8) -> usize
    ensures { result ≡ piece_length b s.now }
{
    match s.iter().position(|x| *x == b) {
        Some(i) => i + 1,
        None => s.len(),
    }
}

// Where the first piece that begins at a place ends.
pub fn piece_end(s: &[u8], at: usize, b: u8) -> usize
    ensures { result ≡ at + piece_length b (drop at s.now) }
{
    if at > s.len() {
        return at;
    }
    at + piece_length(&s[at..], b)
}

// What follows the word at the head of a list; nothing where the list does not begin with it.
pub fn after_word<'a, 'b>(s: &'a [u8], word: &'b [u8]) -> &'a [u8]
    ensures { result.now ≡ after_word word.now s.now }
{
    s.strip_prefix(word).unwrap_or(&[])
}

// Whether the list is this one byte.
#[tactic(auto, unfolding(crate::specs::Fields::is_only))]
pub fn is_only(s: &[u8], b: u8) -> bool
    ensures { result ≡ is_only b s.now }
{
    matches!(s, [x] if *x == b)
}

// How many digits stand at the head of a list.
fn digit_count(s: &[u8]) -> usize
    ensures { result ≡ digit_count s.now }
{
    s.iter()
        .position(|x| !x.is_ascii_digit())
        .unwrap_or(s.len())
}

// Whether so many digits make a plain number.
#[tactic(auto, unfolding(crate::specs::Fields::is_plain))]
fn is_plain(count: usize) -> bool
    ensures { result ≡ is_plain count }
{
    (1..=Limits::DIGITS).contains(&count)
}

// What follows the plain number at the head of a list; nothing where there is none.
#[tactic(auto, using(crate::proofs::Numbers::digits_le), unfolding(crate::specs::Fields::after_number))]
pub fn after_number(s: &[u8]) -> &[u8]
    ensures { result.now ≡ after_number s.now }
{
    let count = digit_count(s);
    if !is_plain(count) {
        return &[];
    }
    &s[count..]
}

// The plain number at the head of a list, 0 where there is none (as `number_of` of specs/Fields says, of every list).
#[tactic(auto, unfolding(crate::specs::Fields::number_of))]
pub fn number_of(s: &[u8]) -> u32
    ensures { result ≡ number_of s.now }
{
    let count = digit_count(s);
    if !is_plain(count) {
        return 0;
    }
    let mut v = 0;
    for x in &s[..count] {
        v = v * 10 + u32::from(*x - Bytes::DIGIT_ZERO);
    }
    v
}

// Where line j of a text begins, from 0.
pub fn line_at(text: &[u8], j: usize) -> usize
    ensures { LineAt text.now result j }
{
    let mut at = 0;
    for _ in 0..j {
        at = piece_end(text, at, Bytes::FEED);
    }
    at
}

// Line j of a text, from 0; nothing where there is none.
pub fn line_of(text: &[u8], j: usize) -> &[u8]
    ensures { result.now ≡ line_of (lines_of text.now) j }
{
    lines(text).nth(j).unwrap_or(&[])
}

// Whether a line is this word.
pub fn is_word(line: &[u8], word: &[u8]) -> bool
    ensures { result ≡ is_word word.now line.now }
{
    is_only(after_word(line, word), Bytes::FEED)
}

// The plain number after a word.
pub fn number_after(line: &[u8], word: &[u8]) -> u32
    ensures { result ≡ number_after word.now line.now }
{
    number_of(after_word(line, word))
}

// What follows the plain number after a word.
pub fn tail_after<'a, 'b>(line: &'a [u8], word: &'b [u8]) -> &'a [u8]
    ensures { result.now ≡ tail_after word.now line.now }
{
    after_number(after_word(line, word))
}

// What follows a word, a plain number and a second word.
pub fn field_after<'a, 'b, 'c>(line: &'a [u8], word: &'b [u8], second: &'c [u8]) -> &'a [u8]
    ensures { result.now ≡ field_after word.now second.now line.now }
{
    after_word(tail_after(line, word), second)
}

// Whether a line is this word and a plain number.
pub fn is_numbered(line: &[u8], word: &[u8]) -> bool
    ensures { result ≡ is_numbered word.now line.now }
{
    is_only(tail_after(line, word), Bytes::FEED)
}

// Whether line j of a text is this word.
pub fn is_word_line(text: &[u8], j: usize, word: &[u8]) -> bool
    ensures { result ≡ is_word word.now (line_of (lines_of text.now) j) }
{
    is_word(line_of(text, j), word)
}

// Whether line j of a text is this word and a plain number.
pub fn is_numbered_line(text: &[u8], j: usize, word: &[u8]) -> bool
    ensures { result ≡ is_numbered word.now (line_of (lines_of text.now) j) }
{
    is_numbered(line_of(text, j), word)
}

// The plain number after this word on line j of a text.
pub fn line_number(text: &[u8], j: usize, word: &[u8]) -> u32
    ensures { result ≡ number_after word.now (line_of (lines_of text.now) j) }
{
    number_after(line_of(text, j), word)
}
