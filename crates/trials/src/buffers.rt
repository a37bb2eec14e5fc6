// What stands in the buffers before a search or a decision, and what may stand there after it. A plan buffer and a working space have functions of their
// own: words need junk above 255, so the numbers differ.

// The junk at a place of a plan buffer.
fn junk_byte(i: usize) -> u8 {
    (i % 251) as u8
}

// The junk at a place of a working space.
fn junk_word(i: usize) -> u16 {
    (i % 65521 + 7) as u16
}

// Fills a plan buffer with junk.
pub fn junk_plan(plan: &mut [u8]) {
    for (i, byte) in plan.iter_mut().enumerate() {
        *byte = junk_byte(i);
    }
}

// Whether the junk still stands in the plan buffer from a place on.
pub fn is_untouched(plan: &[u8], from: usize) -> bool {
    plan.iter()
        .enumerate()
        .skip(from)
        .all(|(i, &byte)| byte == junk_byte(i))
}

// Fills a working space with junk, of 16 bits for search and of 32 for the decision.
pub fn junk_work<T: Copy + From<u16>>(work: &mut [T]) {
    for (i, word) in work.iter_mut().enumerate() {
        *word = T::from(junk_word(i));
    }
}

// Whether the junk still stands in the working space of a search.
pub fn is_junk(work: &[u16]) -> bool {
    work.iter()
        .enumerate()
        .all(|(i, &word)| word == junk_word(i))
}

// Whether every word of a working space is 0.
pub fn is_clear<T: Copy + PartialEq + From<u16>>(work: &[T]) -> bool {
    work.iter().all(|word| *word == T::from(0))
}
