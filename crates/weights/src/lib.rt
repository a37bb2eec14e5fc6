// Theory alone: this crate has no code. specs/ has judging, gauge, walk and search as they read one weight for each arc; proofs/ shows that a model
// given by weights gets exactly these answers from its draws and gains.
#![tactic(auto)]
