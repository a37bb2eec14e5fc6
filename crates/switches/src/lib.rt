// The switches of the arcs, four words of 64 bits (document 02, Ask 9): arc a has bit a mod 64 of word a / 64. A byte is the number of every
// arc, so that each function is for all numbers and words.
#![tactic(auto)]

ghost use Rattle.std.specs.Prelude.{◌≡◌, true, false};
ghost use Rattle.switches.specs.Switches.{is_on, switched};

// The words of the switches.
pub const WORDS: usize = 4;

// The switches of the arcs. C has them as four words, in a struct and as arguments.
pub type Switches = [u64; WORDS];

// The switches with which every arc is on.
pub const ALL: Switches = [u64::MAX; WORDS];

// Whether arc a is on.
pub fn is_on(on: Switches, a: u8) -> bool
    ensures { result ≡ is_on on a }
{
    let word = (a / 64) as usize;
    (on[word] >> (a % 64)) & 1 == 1
}

// Setting and clearing are two functions and `switch` a third, since the documents and docs/DECISIONS.md name each.
//
// The switches with arc a on.
pub fn switch_on(on: Switches, a: u8) -> Switches
    ensures { result ≡ switched true on a }
{
    let word = (a / 64) as usize;
    let mut words = on;
    words[word] |= 1 << (a % 64);
    words
}

// The switches with arc a off.
pub fn switch_off(on: Switches, a: u8) -> Switches
    ensures { result ≡ switched false on a }
{
    let word = (a / 64) as usize;
    let mut words = on;
    words[word] &= !(1 << (a % 64));
    words
}

// The switches with arc a on, where told, or else off.
pub fn switch(on: Switches, a: u8, told: bool) -> Switches
    ensures { result ≡ switched told on a }
{
    if told {
        return switch_on(on, a);
    }
    switch_off(on, a)
}
