// Theory alone: this crate has no code. specs/ defines nets, their lassos and tables of greatest charges; proofs/ shows when a plan exists.
#![tactic(auto)]
