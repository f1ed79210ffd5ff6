//! Definitions that several crates cite, and the lemmas about them. It has no code.
#![tactic(auto)]
