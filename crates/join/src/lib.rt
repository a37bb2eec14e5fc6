// A knee joined with a habit: the model of both at once, written into six lent lists. A first pass over the pairs of arcs counts and checks, a second
// writes, so that nothing is written before 23 is known.
#![tactic(auto)]

ghost use Rattle.std.specs.Prelude.{◌≡◌, ◌+◌, ◌*◌, ◌^◌, ◌≤◌, ◌<◌, ℕ, false, length};
ghost use Rattle.refusals.specs.Refusals.{answer_of, verdict_of};
ghost use Rattle.model.specs.Lists.{held};
ghost use Rattle.model.specs.Fitness.{Holds};
ghost use Rattle.filling.specs.Filling.{lists_lent, SameLent, Narrow, Written, numbers_of};
ghost use Rattle.join.specs.Joined.{join_mode, join_arc, join_row, joined};
ghost use Rattle.join.specs.Joining.{given_of, sum_above, oversize, size_of, join_of, join_answer, lists_joined};
ghost use Rattle.join.specs.Within.{joined_held, counted, ColoursFit, Below, RowFits, AllFit};

use filling::{LentLists, Numbers};
use limits::Limits;
use model::{Arc, Given, Model, check_model_into};
use refusals::Refusal;

// The arcs of a model.
fn arcs_of(model: &Model) -> &[Arc]
    ensures { result.now ≡ (held model.now).arcs }
{
    &model.arcs[..usize::from(model.count)]
}

// Whether a sum of a pair is above 10,000. Modes and colours do not matter to a sum: 0 stands for both.
fn sum_above(x: Arc, y: Arc) -> bool
    ensures { result ≡ sum_above (join_arc 0 0 x y) }
{
    u32::from(x.draw) + u32::from(y.draw) > u32::from(Limits::DRAW)
        || u32::from(x.gain) + u32::from(y.gain) > u32::from(Limits::GAIN)
}

// Whether 23 applies, by the numbers of modes, colours and arcs of a joined model no draw or gain of which is above 10,000, to lists that take so many
// arcs.
#[tactic(auto, unfolding(crate::specs::Joining::oversize))]
fn is_oversize(modes: u32, colours: u32, count: usize, room: usize) -> bool
    ensures { result ≡ oversize modes count colours false room }
{
    modes > Limits::MODES || count > Limits::ARCS || colours > Limits::COLOURS || count > room
}

// The joined mode of i and j, where the habit has n modes.
fn join_mode(i: u8, j: u8, n: u8) -> u8
    requires { join_mode n i j < 256 }
    ensures { result ≡ join_mode n i j }
{
    i * n + j
}

// The knee's colours, and above its k bits the habit's.
fn join_colours(knee: u8, habit: u8, k: u8) -> u8
    requires { ColoursFit knee habit k }
    ensures { result ≡ knee + 2 ^ k * habit }
{
    knee | (habit << k)
}

// The joined arc of a pair, where the habit has n modes and the knee k colours.
fn join_arc(x: Arc, y: Arc, n: u8, k: u8) -> Arc
    requires { Below k x × Narrow (join_arc n k x y) }
    ensures { result ≡ join_arc n k x y }
{
    Arc {
        source: join_mode(x.source, y.source, n),
        target: join_mode(x.target, y.target, n),
        draw: x.draw + y.draw,
        gain: x.gain + y.gain,
        colours: join_colours(x.colours, y.colours, k),
        action: x.action,
    }
}

// A fit knee and a fit habit, which are joined.
#[derive(Clone, Copy)]
struct Both<'a> {
    knee: &'a Model,
    habit: &'a Model,
    ghost knee_fit: { Holds knee.now },
    ghost habit_fit: { Holds habit.now },
}

impl Both<'_> {
    // The number of modes of the joined model.
    fn modes(&self) -> u32
        ensures { result ≡ self.now.knee.now.modes * self.now.habit.now.modes }
    {
        u32::from(self.knee.modes) * u32::from(self.habit.modes)
    }

    // The number of colours of the joined model.
    fn colours(&self) -> u32
        ensures { result ≡ self.now.knee.now.colours + self.now.habit.now.colours }
    {
        u32::from(self.knee.colours) + u32::from(self.habit.colours)
    }

    // `count`, and one more for each arc that a knee's arc makes with the habit's; 23 where a sum of one is above 10,000. Before the last row there are
    // at most 254 × 255 arcs. (Two loops, here and in write_row: nothing is written before 23 is known, and a shared iterator would carry both models'
    // facts.)
    fn count_row(&self, x: Arc, count: usize) -> Result<usize, Refusal>
        requires { count ≤ 64770 }
        ensures { (k : ℕ) → result ≡ counted count (join_row self.now.habit.now.modes k x (held self.now.habit.now).arcs) }
    {
        let mut so_far = count;
        for y in arcs_of(self.habit) {
            if x.action == y.action {
                if sum_above(x, *y) {
                    return Err(Refusal::JoinSize);
                }
                so_far += 1;
            }
        }
        Ok(so_far)
    }

    // How many joined arcs there are; 23 where a sum of one is above 10,000.
    fn count_all(&self) -> Result<usize, Refusal>
        ensures { result ≡ counted 0 (joined_held self.now.knee.now self.now.habit.now) }
    {
        let mut count = 0;
        for x in arcs_of(self.knee) {
            count = self.count_row(*x, count)?;
        }
        Ok(count)
    }

    // Refusal 23, for lists that take so many arcs.
    fn check_size(&self, room: usize) -> Result<(), Refusal>
        ensures { result ≡ size_of (joined (held self.now.knee.now) (held self.now.habit.now)) room }
    {
        let count = self.count_all()?;
        if is_oversize(self.modes(), self.colours(), count, room) {
            return Err(Refusal::JoinSize);
        }
        Ok(())
    }

    // A knee's arc joined with each of the habit's that has its action, written from a place on. Answers the place behind the last.
    fn write_row(&self, x: Arc, at: usize, lists: &mut LentLists) -> usize
        requires { RowFits self.now.knee.now x self.now.habit.now at }
        ensures row { Written (join_row self.now.habit.now.modes self.now.knee.now.colours x (held self.now.habit.now).arcs) at (lists_lent lists.old) result (lists_lent lists.new) }
        ensures same_lists { SameLent lists.old lists.new }
    {
        // Counted by hand: the answer is the place behind the last.
        let mut i = at;
        for y in arcs_of(self.habit) {
            if x.action == y.action {
                let arc = join_arc(x, *y, self.habit.modes, self.knee.colours);
                lists.write(arc, i);
                i += 1;
            }
        }
        i
    }

    // The joined arcs, written from place 0 on. Answers how many they are.
    fn write_all(&self, lists: &mut LentLists) -> usize
        requires { AllFit self.now.knee.now self.now.habit.now }
        ensures all { Written (joined_held self.now.knee.now self.now.habit.now) 0 (lists_lent lists.old) result (lists_lent lists.new) }
        ensures same_lists { SameLent lists.old lists.new }
    {
        let mut at = 0;
        for x in arcs_of(self.knee) {
            at = self.write_row(*x, at, lists);
        }
        at
    }

    // The numbers of the joined model, which has so many arcs.
    fn numbers(&self, count: usize) -> Numbers
        requires few { count ≤ 255 }
        requires all { count ≡ length (joined_held self.now.knee.now self.now.habit.now) }
        ensures { result ≡ numbers_of (joined (held self.now.knee.now) (held self.now.habit.now)) }
    {
        let first = u32::from(self.knee.start) * u32::from(self.habit.modes);
        let start = first + u32::from(self.habit.start);
        Numbers {
            modes: self.modes(),
            start,
            colours: self.colours(),
            count: count as u32,
        }
    }
}

// A knee and a habit, each as it is given, joined into the six lent lists, from place 0 of each on: the first of the knee's 1 to 5, the habit's 1 to 5
// and 23 that applies, and the lists as they were, or the numbers of the joined model. For all numbers and lists.
pub fn join(knee: &Given, habit: &Given, lists: &mut LentLists) -> Result<Numbers, Refusal>
    ensures reading { result ≡ join_of (given_of knee.now) (given_of habit.now) (lists_lent lists.old) }
    ensures answer { answer_of (verdict_of result) ≡ join_answer (given_of knee.now) (given_of habit.now) (lists_lent lists.old) }
    ensures lists { lists_lent lists.new ≡ lists_joined (given_of knee.now) (given_of habit.now) (lists_lent lists.old) }
    ensures same_lists { SameLent lists.old lists.new }
{
    let mut g = Model::blank();
    check_model_into(knee, &mut g)?;
    let mut h = Model::blank();
    check_model_into(habit, &mut h)?;
    let both = Both {
        knee: &g,
        habit: &h,
    };
    let room = lists.room();
    both.check_size(room)?;
    let count = both.write_all(lists);
    Ok(both.numbers(count))
}
