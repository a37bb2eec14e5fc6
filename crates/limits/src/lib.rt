// Every ceiling of document 01 ("Ceilings") and of the requests of document 02, each under its name. Code cites the constants; definitions cite
// the numerals of specs/Ceilings; `Limits::agree` ties each constant to its numeral.
#![tactic(auto)]

ghost use Rattle.std.specs.Prelude.{◌≡◌, true};
ghost use Rattle.limits.specs.Ceilings.{
  modes_most,
  arcs_most,
  colours_most,
  bound_most,
  product_most,
  plan_most,
  draw_most,
  gain_most,
  action_most,
  digits_most,
  spill_most,
  work_words,
  work_levels,
  plan_levels,
  program_most,
  decide_bound_most,
  decide_words,
};

#[derive(Clone, Copy)]
pub struct Limits;

impl Limits {
    // The most modes of a model: n is 1 to 64.
    pub const MODES: u32 = 64;

    // The most arcs of a model: m is 0 to 255.
    pub const ARCS: usize = 255;

    // The most colours of a model: k is 0 to 4.
    pub const COLOURS: u32 = 4;

    // The highest bound: b is 0 to 8,191.
    pub const BOUND: u32 = 8191;

    // The highest product n × (b + 1) that search takes.
    pub const PRODUCT: u32 = 8192;

    // The longest plan that judging takes.
    pub const PLAN: usize = 65535;

    // The greatest draw of an arc.
    pub const DRAW: u16 = 10000;

    // The greatest gain of an arc.
    pub const GAIN: u16 = 10000;

    // The highest action of an arc.
    pub const ACTION: u8 = 15;

    // The most digits of a plain number in a text.
    pub const DIGITS: usize = 9;

    // The greatest total of charge that spilled over, the last number of 64 bits.
    pub const SPILL: u64 = 18446744073709551615;

    // Working space of search: 4 × (k + 1) × n × (b + 1) words. The words of one entry.
    pub const WORK_WORDS: usize = 4;

    // What is added to k in the size of the working space.
    pub const WORK_LEVELS: usize = 1;

    // Plan buffer of search: (k + 2) × n × (b + 1) bytes. What is added to k.
    pub const PLAN_LEVELS: usize = 2;

    // The highest (k + 1) × n × (b + 1) that the supplied program keeps space for.
    pub const PROGRAM: u32 = 8192;

    // The highest bound of a decision without a plan.
    pub const DECIDE_BOUND: u32 = 1000000;

    // Working space of such a decision: 16 × (k + 1) × n words, k + 1 by WORK_LEVELS. The words of a mode in one level.
    pub const DECIDE_WORDS: usize = 16;

    // Every constant is the numeral of specs/Ceilings: changing one side alone is refused.
    pub fn agree() -> bool
        ensures yes { result ≡ true }
        ensures modes { Limits.MODES ≡ modes_most }
        ensures arcs { Limits.ARCS ≡ arcs_most }
        ensures colours { Limits.COLOURS ≡ colours_most }
        ensures bound { Limits.BOUND ≡ bound_most }
        ensures product { Limits.PRODUCT ≡ product_most }
        ensures plan { Limits.PLAN ≡ plan_most }
        ensures draw { Limits.DRAW ≡ draw_most }
        ensures gain { Limits.GAIN ≡ gain_most }
        ensures action { Limits.ACTION ≡ action_most }
        ensures digits { Limits.DIGITS ≡ digits_most }
        ensures spill { Limits.SPILL ≡ spill_most }
        ensures work_words { Limits.WORK_WORDS ≡ work_words }
        ensures work_levels { Limits.WORK_LEVELS ≡ work_levels }
        ensures plan_levels { Limits.PLAN_LEVELS ≡ plan_levels }
        ensures program { Limits.PROGRAM ≡ program_most }
        ensures decide_bound { Limits.DECIDE_BOUND ≡ decide_bound_most }
        ensures decide_words { Limits.DECIDE_WORDS ≡ decide_words }
    {
        true
    }
}
