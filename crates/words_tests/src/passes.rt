ghost use Rattle.std.specs.Prelude.{◌≡◌, ℕ, ◌+◌, ◌<◌, [], ◌∷◌, All, IfSome, IfOk, IsSome, length, vec_len, unwrap_or};
ghost use Rattle.shared_words.specs.History.{own};
ghost use Rattle.shared_words.specs.Passes.{IsPassOf};
ghost use Rattle.shared_words.specs.Sections.{unnumbered};
ghost use Rattle.words_tests.specs.Workers.{IsReady, HasWorked};

use shared_words::{Pass, Words};
use std::test::Fail;
use std::thread::{for_each_mut, join_mut};

// A caller with the place for its pass.
#[derive(Drop)]
struct Worker {
    pass: Option<Pass>,
}

// Draws a number, and adds 1 to word 12 a thousand times.
fn add_all(words: &Words, pass: &mut Pass)
    requires of { pass.old.of ≡ words.now }
    requires room { pass.old.known ≡ unnumbered pass.old.known.seen }
    requires inside { 12 < words.now.words }
    ensures of { IsPassOf words.now pass.new }
    ensures seen { (n : ℕ) × (pass.new.known.numbers ≡ n ∷ []) × (length (own n pass.new.known.seen.entries) ≡ 1001) }
{
    words.enrol(pass);
    for _ in 0..1000u64 {
        words.add(pass, 12, 1);
    }
}

fn work(words: &Words, worker: &mut Worker)
    requires ready { IsReady words.now worker.old.pass }
    requires inside { 12 < words.now.words }
    ensures { HasWorked words.now worker.new.pass }
{
    if let Some(mut pass) = worker.pass.take() {
        add_all(words, &mut pass);
        worker.pass = Some(pass);
    }
}

fn work_each(words: &Words, workers: &mut [Worker])
    requires ready { All (λ w. IsReady words.now w.pass) workers.old }
    requires inside { 12 < words.now.words }
    ensures { All (λ w. HasWorked words.now w.pass) workers.new }
{
    for worker in workers.iter_mut() {
        work(words, worker);
    }
}

// Takes a worker's pass back.
fn take_in(words: &Words, pass: &mut Pass, worker: &mut Worker)
    requires of { pass.old.of ≡ words.now }
    requires worked { HasWorked words.now worker.old.pass }
    ensures { pass.new.of ≡ words.now }
{
    if let Some(from) = worker.pass.take() {
        words.merge(pass, from);
    }
}

fn take_in_each(words: &Words, pass: &mut Pass, workers: &mut [Worker])
    requires of { pass.old.of ≡ words.now }
    requires worked { All (λ w. HasWorked words.now w.pass) workers.old }
    ensures { pass.new.of ≡ words.now }
{
    for worker in workers.iter_mut() {
        take_in(words, pass, worker);
    }
}

// A worker with a pass that may draw one number.
fn armed(words: &Words, pass: &mut Pass) -> Worker
    requires of { pass.old.of ≡ words.now }
    requires room { 0 < pass.old.known.room }
    ensures of { pass.new.of ≡ words.now }
    ensures left { pass.new.known.room + 1 ≡ pass.old.known.room }
    ensures ready { IsReady words.now result.pass }
{
    Worker {
        pass: Some(words.split(pass, 1)),
    }
}

#[test]
fn passes_cross_into_threads_and_back(rt: HostRuntime) -> Result<(), Fail> {
    let zeros = vec![in rt.alloc(); 0u64; 13]?;
    let Ok((words, mut pass)) = Words::open(rt.alloc(), zeros, 4) else {
        panic!(rt; "memory")
    };
    let mut pair = [armed(&words, &mut pass), armed(&words, &mut pass)];
    let mut halves = [armed(&words, &mut pass), armed(&words, &mut pass)];
    for_each_mut(&rt, &mut pair, 2, &|_, worker| work(&words, worker));
    let (front, back) = halves.split_at_mut(1);
    join_mut(
        &rt,
        &mut || work_each(&words, front),
        &mut || { work_each(&words, back) },
    );
    take_in_each(&words, &mut pass, &mut pair);
    take_in_each(&words, &mut pass, &mut halves);
    let last = words.close(pass);
    assert_eq!(rt;
        last.as_slice(),
        [4, 0, 0, 0, 0, 0, 0, 0, 0, 0, 0, 0, 4000].as_slice()
    );
    Ok(())
}
