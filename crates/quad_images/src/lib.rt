//! The instructions of quads, functions and programs whose registers live in slots of their own, as definitions.
#![tactic(auto)]
