//! The typed program that a raw tree stands for, as a definition.
#![tactic(auto)]
