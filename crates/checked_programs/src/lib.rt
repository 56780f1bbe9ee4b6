//! Definitions: which programs are checked, and which keep to the limits, with worked examples.
#![tactic(auto)]
