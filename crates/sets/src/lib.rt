// Theory alone: this crate has no code. specs/ defines tables that begin at many modes, level by level, and sets of peaks; proofs/ shows that they decide.
#![tactic(auto)]
