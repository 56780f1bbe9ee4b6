//! The words, and the calls on them. Each call but `open` and `close` is one atomic operation on one word, and `merge` is two.
ghost use Rattle.std.specs.Prelude.{◌≡◌, ℕ, ◌-◌, ◌≤◌, ◌<◌, ◌^◌, [], None, IfOk, IfErr, slice_index, vec_len};
ghost use Rattle.shared_words.specs.declared.log.Action.TheVariants.{Load, Store, Add};
ghost use Rattle.shared_words.specs.Passes.{IsPassOf, IsEnrolled, Accesses, Enrols, Merges, Ends};
ghost use Rattle.std.specs.Slots.{IsFull, slots_items, slots_len};

use crate::rule::{
    Adds, Amount, Cut, Draws, Loads, Looks, OneHistory, Opening, Stores, TakeIn, View,
};
use atomic_table::{Closed, Seat, Table};
use std::alloc::{AllocError, Global};
use std::marker::{Brand, Model};

/// Words of 64 bits that threads share. Contracts see which words they are, and how many.
#[derive(Drop)]
pub struct Words {
    table: Table<(), View, Opening, OneHistory, Global>,
    opened: Vec<u64>,
}

impl Model for Words {
    ghost use Rattle.std.specs.Prelude.{vec_len};
    ghost use Rattle.shared_words.specs.Passes.{WordsId};
    ghost use Rattle.shared_words.specs.Rule.{HasPlace};
    ghost use Rattle.atomic_table.specs.Seated.{table_id_coded};

    ghost Value = { WordsId };

    ghost coded = { table_id_coded };

    ghost view = { λ w. w.table.shared.table_id };

    ghost invariant = { λ w. HasPlace w.table.shared.table_id (vec_len w.opened) };
}

/// A caller's token, of no bytes. Contracts see the words that it is of, what it has seen of their history, the numbers
/// that it holds, the one that it writes with, and its room, which is how many more numbers it may draw.
#[derive(Drop)]
pub struct Pass {
    seat: Seat<(), View>,
}

impl Model for Pass {
    ghost use Rattle.shared_words.specs.Passes.{Token};

    ghost Value = { Token };

    ghost use Rattle.shared_words.specs.Rule.{token_of, IsHeld};

    ghost view = { λ p. token_of p.seat.table_id p.seat.me.0 };

    ghost invariant = { λ p. IsHeld p.seat.table_id p.seat.me };
}

impl Words {
    /// Begins a history of these words, with a pass that has seen it so far and may draw `room` numbers, at most 2^63.
    /// Word 0 is the next number to be drawn.
    ///
    /// # Errors
    ///
    /// For want of memory alone. The words come back as they were.
    pub fn open(
        alloc: Global,
        words: Vec<u64>,
        room: u64,
    ) -> Result<(Words, Pass), (Vec<u64>, AllocError)>
        requires long { 12 ≤ vec_len words }
        requires none_drawn { slice_index words.items 0 ≡ 0 }
        requires room { room ≤ 2 ^ 63 }
        ensures long { IfOk result (λ r. r.0.words ≡ vec_len words) }
        ensures pass { IfOk result (λ r. IsPassOf r.0 r.1) }
        ensures known { IfOk result (λ r. r.1.known ≡ record { numbers = []; writes_with = None; room = room; seen = record { opened = words.items; entries = [] } }) }
        ensures err { IfErr result (λ r. r.0.items ≡ words.items) }
    {
        let about = Opening { words, room };
        match Table::of_words(alloc, about.words.as_slice(), &about) {
            Ok((table, seat)) => {
                let Opening {
                    words: opened,
                    room: _,
                } = about;
                Ok((Words { table, opened }, Pass { seat }))
            }
            Err(error) => {
                let Opening { words, room: _ } = about;
                Err((words, error))
            }
        }
    }

    /// The pass draws the next number, by a fetch-and-add of 1 on word 0, and writes with it from then on.
    pub fn enrol(&self, pass: &mut Pass) -> u64
        requires of { pass.old.of ≡ self.now }
        requires room { 0 < pass.old.known.room }
        ensures of { IsPassOf self.now pass.new }
        ensures number { Enrols pass.old.known pass.new.known result }
    {
        self.table.shared.fetch_add::<Draws>(&mut pass.seat, 0, 1)
    }

    /// Answers the word.
    pub fn load(&self, pass: &mut Pass, at: u32) -> u64
        requires of { pass.old.of ≡ self.now }
        requires enrolled { IsEnrolled pass.old.known }
        requires inside { (0 < at) × (at < self.now.words) }
        ensures of { IsPassOf self.now pass.new }
        ensures entry { Accesses pass.old.known pass.new.known Load at 0 result }
    {
        self.table.shared.load::<Loads>(&mut pass.seat, at as usize)
    }

    /// Sets the word, by a swap.
    pub fn store(&self, pass: &mut Pass, at: u32, v: u64)
        requires of { pass.old.of ≡ self.now }
        requires enrolled { IsEnrolled pass.old.known }
        requires inside { (0 < at) × (at < self.now.words) }
        ensures of { IsPassOf self.now pass.new }
        ensures entry { (reply : ℕ) × Accesses pass.old.known pass.new.known Store at v reply }
    {
        let shared = &self.table.shared;
        shared.swap::<Stores>(&mut pass.seat, at as usize, v);
    }

    /// Adds to the word modulo 2^64, by a fetch-and-add, and answers the old word.
    pub fn add(&self, pass: &mut Pass, at: u32, d: u64) -> u64
        requires of { pass.old.of ≡ self.now }
        requires enrolled { IsEnrolled pass.old.known }
        requires inside { (0 < at) × (at < self.now.words) }
        ensures of { IsPassOf self.now pass.new }
        ensures entry { Accesses pass.old.known pass.new.known Add at d result }
    {
        self.table
            .shared
            .fetch_add::<Adds>(&mut pass.seat, at as usize, d)
    }

    /// Takes room off the pass for a new one, which has seen the same and holds no number.
    pub fn split(&self, pass: &mut Pass, room: u64) -> Pass
        requires of { pass.old.of ≡ self.now }
        requires room { room ≤ pass.old.known.room }
        ensures of { IsPassOf self.now pass.new × IsPassOf self.now result }
        ensures left { pass.new.known ≡ record pass.old.known { room = pass.old.known.room - room } }
        ensures new { result.known ≡ record { numbers = []; writes_with = None; room = room; seen = pass.old.known.seen } }
    {
        self.split_by::<Brand>(pass, room)
    }

    // The same, where the type tells the room: what a split does to the views may depend on types alone.
    fn split_by<A: Amount>(&self, pass: &mut Pass, room: u64) -> Pass
        requires of { pass.old.of ≡ self.now }
        requires amount { room ≡ A.amount }
        requires room { room ≤ pass.old.known.room }
        ensures of { IsPassOf self.now pass.new × IsPassOf self.now result }
        ensures left { pass.new.known ≡ record pass.old.known { room = pass.old.known.room - room } }
        ensures new { result.known ≡ record { numbers = []; writes_with = None; room = room; seen = pass.old.known.seen } }
    {
        let seat = self.table.shared.split_seat::<Cut<A>>(&mut pass.seat);
        Pass { seat }
    }

    /// Takes in another pass, with its numbers and its room, and sees the history as it is then.
    pub fn merge(&self, into: &mut Pass, from: Pass)
        requires of { (into.old.of ≡ self.now) × (from.of ≡ self.now) }
        ensures of { IsPassOf self.now into.new }
        ensures merged { Merges into.old.known from.known into.new.known }
    {
        let Pass { seat } = from;
        self.table.shared.join_seat::<TakeIn>(&mut into.seat, seat);
        self.table.shared.load::<Looks>(&mut into.seat, 0);
    }

    /// The words as the last call left them. Passes that are still held can do nothing more.
    pub fn close(self, pass: Pass) -> Vec<u64>
        requires { pass.of ≡ self }
        ensures words { Ends pass.known result.items }
        ensures long { vec_len result ≡ self.words }
    {
        let Words { table, opened } = self;
        let Pass { seat } = pass;
        let closed = table.close_with(seat);
        let words = copied(&closed, opened);
        closed.free();
        words
    }
}

// The words of a closed table, in a list of that length.
fn copied(closed: &Closed<(), Global>, mut words: Vec<u64>) -> Vec<u64>
    requires full { IsFull closed.now.words }
    requires long { vec_len words ≡ slots_len closed.now.words }
    ensures { result.items ≡ slots_items closed.now.words }
{
    for i in 0..words.len() {
        words[i] = closed.word(i);
    }
    words
}
