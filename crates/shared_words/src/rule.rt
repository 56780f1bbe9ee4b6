//! The rule of the words: one history, of which each pass has seen a beginning.
//!
//! A seat of the table holds what a pass knows as its view. Seven kinds of step keep the rule, each one atomic operation: a
//! cut of a view in two, the joining of two views and a look at the whole history, which load word 0 and write no entry; an
//! enrolment, which is a fetch-and-add on word 0; and a load, a swap and a fetch-and-add on another word.
use crate::log::{History, Known};
use atomic_table::{Join, Play, Split, TableRule};
use std::collections::LinkedList;
use std::marker::{Brand, PhantomData};

/// The numbers of a pass that was taken in, and what it had seen.
pub(crate) struct Part {
    pub numbers: LinkedList<u64>,
    pub seen: History,
}

/// What a seat knows, and of the pass that it has taken in but not looked at since. A spent one is not live. No value of it is made.
pub(crate) struct View {
    pub live: bool,
    pub known: Known,
    pub taken: Option<Part>,
}

/// What a table is told when it is made.
#[derive(Drop)]
pub(crate) struct Opening {
    pub words: Vec<u64>,
    pub room: u64,
}

pub(crate) struct OneHistory;

impl TableRule<(), View, Opening> for OneHistory {
    ghost use Rattle.shared_words.specs.Rule.{Kept, opener};

    ghost holds = { λ about s. Kept about.words.items s };

    ghost first = { λ about. opener about.words.items about.room };
}

/// A load, with its entry.
pub(crate) struct Loads;

impl Play<(), View> for Loads {
    ghost use Rattle.shared_words.specs.Steps.{Accessed};
    ghost use Rattle.shared_words.specs.declared.log.Action.TheVariants.{Load};

    ghost then = { Accessed Load };
}

/// A swap, with its entry.
pub(crate) struct Stores;

impl Play<(), View> for Stores {
    ghost use Rattle.shared_words.specs.Steps.{Accessed};
    ghost use Rattle.shared_words.specs.declared.log.Action.TheVariants.{Store};

    ghost then = { Accessed Store };
}

/// A fetch-and-add, with its entry.
pub(crate) struct Adds;

impl Play<(), View> for Adds {
    ghost use Rattle.shared_words.specs.Steps.{Accessed};
    ghost use Rattle.shared_words.specs.declared.log.Action.TheVariants.{Add};

    ghost then = { Accessed Add };
}

/// A fetch-and-add on word 0, with the entry of the number drawn.
pub(crate) struct Draws;

impl Play<(), View> for Draws {
    ghost use Rattle.shared_words.specs.Steps.{Drew};

    ghost then = { Drew };
}

/// A look: a load of word 0 after another view was taken in. The view has seen the whole history then.
pub(crate) struct Looks;

impl Play<(), View> for Looks {
    ghost use Rattle.shared_words.specs.Steps.{Looked};

    ghost then = { Looked };
}

/// How much room a new view is given. The call picks it.
pub(crate) trait Amount {
    ghost use Rattle.std.specs.Prelude.{ℕ};

    ghost amount: { ℕ };
}

impl Amount for Brand {
    ghost amount = { 0 };
}

/// Cuts a view in two: room is taken off it for a new one.
pub(crate) struct Cut<A> {
    amount: PhantomData<A>,
}

impl<A: Amount> Split<View> for Cut<A> {
    ghost use Rattle.shared_words.specs.Steps.{giver, given};

    ghost left = { giver A.amount };

    ghost right = { given A.amount };
}

/// Joins two views: one takes in the other, which is spent.
pub(crate) struct TakeIn;

impl Join<View> for TakeIn {
    ghost use Rattle.shared_words.specs.Steps.{taker, spent_view};

    ghost both = { taker };

    ghost spent = { spent_view };
}
