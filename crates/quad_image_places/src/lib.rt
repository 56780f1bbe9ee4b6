//! Lemmas: where the code of each quad stands in the image, and which registers live in the thread's own frame.
#![tactic(auto)]
