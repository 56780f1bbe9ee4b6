//! Lemmas: when a thread of quads keeps to a thread of the source, and that a thread goes by its live registers.
#![tactic(auto)]
