//! A section: the workers at once, each with a pass of its own, and then all passes in one.
ghost use Rattle.std.specs.Prelude.{◌≡◌, ◌+◌, ◌*◌, ◌<◌, ◌≤◌, length, All, None, IfOk, IfErr, vec_len, slice_index};
ghost use Rattle.xmt_isa.specs.Fits.{StartFits};
ghost use Rattle.xmt_isa.specs.Valid.{IsValid};
ghost use Rattle.shared_words.specs.Passes.{IsPassOf, Merges};
ghost use Rattle.shared_words.specs.Sections.{Gathers};
ghost use Rattle.spawn_join.specs.Worked.{IsDue, IsReady, HasWorked, HasPass, IsTaken, RanAtOnce};
ghost use Rattle.spawn_join.specs.Worked.{AllGiven, AllHaveWorked, AllTaken, AllFinished, known_of, knowns};
ghost use Rattle.spawn_join.specs.Ends.{SectionGives};

use crate::end::{SectionEnd, end_of};
use crate::gate::Gate;
use crate::running::run_unit;
use crate::worker::Worker;
use image_loader::Loaded;
use shared_words::{Pass, Words};
use std::alloc::Global;
use std::thread::{Threads, for_each_mut};
use xmt_isa::Start;

// Enrols a worker, and runs its unit until it has ended.
fn work<G: Gate>(
    image: &Loaded,
    start: &Start,
    words: &Words,
    gate: &G,
    budget: u64,
    worker: &mut Worker,
)
    requires valid { IsValid image.now }
    requires start { StartFits image.now start.now }
    requires long { words.now.words ≡ 12 + length image.now.words + 257 * image.now.outer }
    requires ready { IsReady image.now start.now budget words.now worker.old }
    ensures { HasWorked image.now start.now budget words.now worker.old worker.new }
{
    if let Some(mut pass) = worker.pass.take() {
        words.enrol(&mut pass);
        run_unit(
            image,
            start,
            words,
            gate,
            budget,
            &mut worker.unit,
            &mut pass,
        );
        worker.pass = Some(pass);
    }
}

// All workers at once, each on a thread.
fn work_at_once<R: Threads + Sync, G: Gate + Sync>(
    rt: &R,
    image: &Loaded,
    start: &Start,
    words: &Words,
    gate: &G,
    budget: u64,
    workers: &mut [Worker],
)
    requires valid { IsValid image.now }
    requires start { StartFits image.now start.now }
    requires long { words.now.words ≡ 12 + length image.now.words + 257 * image.now.outer }
    requires some { 0 < length workers.old }
    requires ready { All (λ w. IsReady image.now start.now budget words.now w) workers.old }
    ensures { AllHaveWorked image.now start.now budget words.now workers.old workers.new }
{
    let one = |_: usize, worker: &mut Worker|
        requires valid { IsValid image.now }
        requires start { StartFits image.now start.now }
        requires long { words.now.words ≡ 12 + length image.now.words + 257 * image.now.outer }
        requires ready { IsReady image.now start.now budget words.now worker.now }
        ensures worked { HasWorked image.entry.now start.entry.now budget words.entry.now worker.entry.now worker.exit.now }
    { work(image, start, words, gate, budget, worker) };
    for_each_mut(rt, workers, workers.len(), &one);
}

// Gives each worker a pass that may draw one number.
fn give_passes(words: &Words, pass: &mut Pass, workers: &mut [Worker])
    requires of { IsPassOf words.now pass.old }
    requires room { length workers.old ≤ pass.old.known.room }
    ensures of { IsPassOf words.now pass.new }
    ensures left { pass.new.known ≡ record pass.old.known { room = pass.new.known.room } }
    ensures room { pass.new.known.room + length workers.old ≡ pass.old.known.room }
    ensures given { AllGiven words.now pass.old.known.seen workers.old workers.new }
{
    for worker in workers.iter_mut() {
        worker.pass = Some(words.split(pass, 1));
    }
}

// Takes the pass of a worker back.
fn take_pass(words: &Words, pass: &mut Pass, worker: &mut Worker)
    requires of { IsPassOf words.now pass.old }
    requires worked { HasPass words.now worker.old.pass }
    ensures of { IsPassOf words.now pass.new }
    ensures merges { Merges pass.old.known (known_of worker.old.pass) pass.new.known }
    ensures taken { IsTaken worker.old worker.new }
{
    if let Some(from) = worker.pass.take() {
        words.merge(pass, from);
    }
}

// Takes the passes of all workers back into one.
fn take_passes(words: &Words, pass: &mut Pass, workers: &mut [Worker])
    requires of { IsPassOf words.now pass.old }
    requires worked { All (λ w. HasPass words.now w.pass) workers.old }
    ensures of { IsPassOf words.now pass.new }
    ensures gathers { Gathers pass.old.known (knowns workers.old) pass.new.known }
    ensures taken { AllTaken workers.old workers.new }
{
    for worker in workers.iter_mut() {
        take_pass(words, pass, worker);
    }
}

// Runs the units of a section on threads of their own, one a worker, until each has stopped, stands at a trap, or has
// spent its budget. Answers the words that they leave. Without memory nothing has run, and the words come back.
fn run_at_once<R: Threads + Sync, G: Gate + Sync>(
    rt: &R,
    alloc: Global,
    image: &Loaded,
    start: &Start,
    words: Vec<u64>,
    workers: &mut [Worker],
    gate: &G,
    budget: u64,
) -> Result<Vec<u64>, Vec<u64>>
    requires start { StartFits image.now start.now }
    requires long { vec_len words ≡ 12 + length image.now.words + 257 * image.now.outer }
    requires none_drawn { slice_index words.items 0 ≡ 0 }
    requires some { 0 < length workers.old }
    requires due { All (λ w. IsDue image.now start.now budget w.unit) workers.old }
    ensures run { IfOk result (λ left. RanAtOnce image.now start.now words.items workers.old workers.new left.items) }
    ensures finished { IfOk result (λ left. AllFinished image.now start.now budget workers.old workers.new) }
    ensures err { IfErr result (λ same. (same.items ≡ words.items) × (workers.new ≡ workers.old)) }
{
    let _ = image.image();
    match Words::open(alloc, words, 1 << 63) {
        Ok((words, mut pass)) => {
            give_passes(&words, &mut pass, workers);
            work_at_once(rt, image, start, &words, gate, budget, workers);
            take_passes(&words, &mut pass, workers);
            Ok(words.close(pass))
        }
        Err((words, _)) => Err(words),
    }
}

/// Runs one section: its units on threads of their own, one a worker, over these words. Each runs until it has stopped,
/// stands at a trap, or has spent its budget. Answers the words that they leave, and how they ended.
pub fn section<R: Threads + Sync, G: Gate + Sync>(
    rt: &R,
    alloc: Global,
    image: &Loaded,
    start: &Start,
    words: Vec<u64>,
    workers: &mut [Worker],
    gate: &G,
    budget: u64,
) -> (Vec<u64>, SectionEnd)
    requires start { StartFits image.now start.now }
    requires long { vec_len words ≡ 12 + length image.now.words + 257 * image.now.outer }
    requires none_drawn { slice_index words.items 0 ≡ 0 }
    requires some { 0 < length workers.old }
    requires due { All (λ w. IsDue image.now start.now budget w.unit) workers.old }
    ensures { SectionGives image.now start.now budget words.items workers.old workers.new result.0.items result.1 }
{
    match run_at_once(rt, alloc, image, start, words, workers, gate, budget) {
        Ok(words) => {
            let end = end_of(image, start, budget, workers);
            (words, end)
        }
        Err(words) => (words, SectionEnd::NoMemory),
    }
}
