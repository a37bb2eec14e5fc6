// The pass by which search finds peaks and cycles (pass), and the entries of its queue (entries). Its theory is here too: the queue of reached entries,
// what a pass over it leaves, and what the arcs read back from it are.
#![tactic(auto)]

pub mod entries;
pub mod pass;
