//! The words that the machine uses: thread numbers, prefix-sum registers, memory. `draw`, `ps`, `psm`, `read`,
//! `write`, `raise` and `halted` are one entry each, at the stated word. The low 32 bits of the replay are the
//! replay in 32-bit numbers, and draws count up.
#![tactic(auto)]

ghost use Rattle.std.specs.Prelude.{◌≡◌, ◌≢◌, ℕ, ◌+◌, ◌≤◌, ◌<◌, MatchBool};
ghost use Rattle.shared_words.specs.declared.log.Action.TheVariants.{Load, Store, Add};
ghost use Rattle.shared_words.specs.Passes.{IsPassOf, IsEnrolled, Accesses};
ghost use Rattle.prefix_sum.specs.Draws.{DrawsCountUp, ChangesHaveCauses};
ghost use Rattle.prefix_sum.specs.Low.{low, LowWordsAgree, LowRepliesAgree};

use shared_words::{Pass, Words};

const NEXT_THREAD: u32 = 1;

const HALT: u32 = 3;

const REGISTERS: u32 = 4;

// The value of a word: its low 32 bits.
fn value_of(word: u64) -> u32
    ensures { result ≡ low word }
{
    (word & 0xffff_ffff) as u32
}

/// Draws the next thread number: adds 1 to word 1, and answers the old number.
pub fn draw(words: &Words, pass: &mut Pass) -> u64
    requires of { pass.old.of ≡ words.now }
    requires enrolled { IsEnrolled pass.old.known }
    requires inside { 1 < words.now.words }
    ensures of { IsPassOf words.now pass.new }
    ensures entry { Accesses pass.old.known pass.new.known Add 1 1 result }
{
    words.add(pass, NEXT_THREAD, 1)
}

/// Adds 0 or 1 to a register, 0 to 7, and answers its old value.
pub fn ps(words: &Words, pass: &mut Pass, register: u32, e: u32) -> u32
    requires of { pass.old.of ≡ words.now }
    requires enrolled { IsEnrolled pass.old.known }
    requires inside { 4 + register < words.now.words }
    requires register { register < 8 }
    requires bit { e ≤ 1 }
    ensures of { IsPassOf words.now pass.new }
    ensures entry { (reply : ℕ) × (result ≡ low reply) × Accesses pass.old.known pass.new.known Add (4 + register) e reply }
{
    value_of(words.add(pass, REGISTERS + register, e as u64))
}

/// Adds to a register or a word of memory modulo 2^32, and answers its old value.
pub fn psm(words: &Words, pass: &mut Pass, at: u32, e: u32) -> u32
    requires of { pass.old.of ≡ words.now }
    requires enrolled { IsEnrolled pass.old.known }
    requires inside { (4 ≤ at) × (at < words.now.words) }
    ensures of { IsPassOf words.now pass.new }
    ensures entry { (reply : ℕ) × (result ≡ low reply) × Accesses pass.old.known pass.new.known Add at e reply }
{
    value_of(words.add(pass, at, e as u64))
}

/// Answers the value of a register or a word of memory.
pub fn read(words: &Words, pass: &mut Pass, at: u32) -> u32
    requires of { pass.old.of ≡ words.now }
    requires enrolled { IsEnrolled pass.old.known }
    requires inside { (4 ≤ at) × (at < words.now.words) }
    ensures of { IsPassOf words.now pass.new }
    ensures entry { (reply : ℕ) × (result ≡ low reply) × Accesses pass.old.known pass.new.known Load at 0 reply }
{
    value_of(words.load(pass, at))
}

/// Sets a register or a word of memory.
pub fn write(words: &Words, pass: &mut Pass, at: u32, v: u32)
    requires of { pass.old.of ≡ words.now }
    requires enrolled { IsEnrolled pass.old.known }
    requires inside { (4 ≤ at) × (at < words.now.words) }
    ensures of { IsPassOf words.now pass.new }
    ensures entry { (reply : ℕ) × Accesses pass.old.known pass.new.known Store at v reply }
{
    words.store(pass, at, v as u64)
}

/// Raises the halt word: stores 1 to it.
pub fn raise(words: &Words, pass: &mut Pass)
    requires of { pass.old.of ≡ words.now }
    requires enrolled { IsEnrolled pass.old.known }
    requires inside { 3 < words.now.words }
    ensures of { IsPassOf words.now pass.new }
    ensures entry { (reply : ℕ) × Accesses pass.old.known pass.new.known Store 3 1 reply }
{
    words.store(pass, HALT, 1)
}

/// Tells whether the halt word isn't 0.
pub fn halted(words: &Words, pass: &mut Pass) -> bool
    requires of { pass.old.of ≡ words.now }
    requires enrolled { IsEnrolled pass.old.known }
    requires inside { 3 < words.now.words }
    ensures of { IsPassOf words.now pass.new }
    ensures entry { (reply : ℕ) × MatchBool result (reply ≢ 0) (reply ≡ 0) × Accesses pass.old.known pass.new.known Load 3 0 reply }
{
    words.load(pass, HALT) != 0
}

/// The law of 32-bit replay: the values of the words after a history are what the history leaves in 32-bit words, and
/// the values of its replies are those words.
pub fn low_replay()
    ensures words { LowWordsAgree }
    ensures replies { LowRepliesAgree }
{}

/// Where the only accesses to a word are draws, they get the numbers from the first on, each once and none left out.
pub fn draws_count_up()
    ensures { DrawsCountUp }
{}

/// A word that no longer holds what it held at the start was stored or added to.
pub fn changes_have_causes()
    ensures { ChangesHaveCauses }
{}
