//! What passes know, as plain data. No value of these types is made: they exist in contracts and proofs alone.
use std::collections::LinkedList;

/// What an access does to its word: a load leaves it, a store sets it to the operand, and an add adds the operand
/// modulo 2^64.
#[derive(Clone, Copy, PartialEq, Eq)]
pub enum Action {
    Load,
    Store,
    Add,
}

/// One access to a word: the number of the pass that made it, what it did, at which word, with which operand (0 for a
/// load), and the word found there.
pub struct Entry {
    pub number: u64,
    pub action: Action,
    pub place: u64,
    pub operand: u64,
    pub reply: u64,
}

/// The words as they were opened, and the accesses since, the oldest first.
pub struct History {
    pub opened: LinkedList<u64>,
    pub entries: LinkedList<Entry>,
}

/// What a pass knows: the numbers that it holds, the one that it writes with, how many more it may draw, and what it
/// has seen of the history.
pub struct Known {
    pub numbers: LinkedList<u64>,
    pub writes_with: Option<u64>,
    pub room: u64,
    pub seen: History,
}
