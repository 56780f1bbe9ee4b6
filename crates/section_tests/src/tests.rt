ghost use Rattle.std.specs.Prelude.{◌≡◌, ◌≢◌, ◌<◌, ◌≤◌, ◌^◌, All, IfOk, vec_len};
ghost use Rattle.section_tests.specs.Due.{IsNew};

use crate::images::{Row, loaded, start_behind_spawn, zero_words};
use shared_words::Words;
use spawn_join::{OpenGate, SectionEnd, Worker, section};
use std::alloc::{AllocError, Global};
use std::test::Fail;
use std::thread::Threads;
use xmt_base::{Trap, TrapKind};
use xmt_isa::Unit;

// A worker whose unit is due to draw.
fn new_worker(alloc: Global, number: u32) -> Result<Worker, AllocError>
    requires { number ≢ 0 }
    ensures { IfOk result IsNew }
{
    Ok(Worker {
        unit: Unit::new(alloc, number)?,
        pass: None,
        gap: [0; 8],
    })
}

// So many workers, numbered from 1.
fn new_workers(alloc: Global, n: u32) -> Result<Vec<Worker>, AllocError>
    requires { n < 2 ^ 31 }
    ensures new { IfOk result (λ workers. All IsNew workers.items) }
    ensures len { IfOk result (λ workers. vec_len workers ≡ n) }
{
    let mut workers = Vec::new(alloc);
    for i in 0..n {
        workers.push(new_worker(alloc, i + 1)?)?;
    }
    Ok(workers)
}

// Runs a section of so many threads of this code with so many units.
fn run<R: Threads + Sync>(
    rt: &R,
    alloc: Global,
    rows: &[Row],
    count: u64,
    units: u32,
    budget: u64,
) -> Result<(Vec<u64>, SectionEnd), Fail>
    requires count { count ≤ 2 ^ 32 }
    requires some { 0 < units }
    requires few { units ≤ 64 }
{
    let image = loaded(alloc, rows)?;
    let start = start_behind_spawn(alloc, &image, count)?;
    let words = zero_words(alloc, &image)?;
    let mut workers = new_workers(alloc, units)?;
    Ok(section(
        rt,
        alloc,
        &image,
        &start,
        words,
        workers.as_mut_slice(),
        &OpenGate,
        budget,
    ))
}

// Four threads store `$ * $ + 1` at `A[$]`.
static SQUARES: [Row; 9] = [
    (1, 3, 0, 0, 0),
    (1, 4, 0, 0, 3),
    (44, 3, 4, 0, 0),
    (5, 5, 1, 1, 0),
    (1, 6, 0, 0, 1),
    (3, 5, 5, 6, 0),
    (35, 5, 1, 0, 0),
    (45, 0, 0, 0, 0),
    (24, 0, 0, 0, 0),
];

// Of three threads the last one's number is no index.
static INDEX: [Row; 6] = [
    (1, 3, 0, 0, 0),
    (1, 4, 0, 0, 2),
    (44, 3, 4, 0, 0),
    (30, 0, 1, 0, 2),
    (45, 0, 0, 0, 0),
    (24, 0, 0, 0, 0),
];

// Units, and the words that they leave: how many have numbers, how many drew, and the data.
static LEFT: [(u32, [u64; 17]); 3] = [
    (1, [1, 5, 0, 0, 0, 0, 0, 0, 0, 0, 0, 0, 1, 2, 5, 10, 0]),
    (2, [2, 6, 0, 0, 0, 0, 0, 0, 0, 0, 0, 0, 1, 2, 5, 10, 0]),
    (4, [4, 8, 0, 0, 0, 0, 0, 0, 0, 0, 0, 0, 1, 2, 5, 10, 0]),
];

#[test]
fn units_at_once_leave_the_same_data(rt: HostRuntime) -> Result<(), Fail> {
    for (units, left) in &LEFT {
        assert!(rt; 0 < *units && *units <= 64);
        let (words, end) = run(&rt, rt.alloc(), &SQUARES, 4, *units, 1000)?;
        assert_eq!(rt; end, SectionEnd::All);
        assert!(rt; words.as_slice() == left.as_slice());
    }
    Ok(())
}

#[test]
fn traps_and_spent_budgets_are_named(rt: HostRuntime) -> Result<(), Fail> {
    let no_index = Trap {
        kind: TrapKind::Index,
        line: 4,
        thread: Some(2),
    };
    let (_, end) = run(&rt, rt.alloc(), &INDEX, 3, 1, 1000)?;
    assert_eq!(rt; end, SectionEnd::Trap(1, no_index));
    let (_, end) = run(&rt, rt.alloc(), &SQUARES, 4, 1, 5)?;
    assert_eq!(rt; end, SectionEnd::Spent(1));
    Ok(())
}

fn is_shared<T: Sync>(_value: &T) {}

fn is_sent<T: Send>(_value: &T) {}

#[test]
fn what_a_section_uses_crosses_threads(rt: HostRuntime) -> Result<(), Fail> {
    let image = loaded(rt.alloc(), &SQUARES)?;
    let start = start_behind_spawn(rt.alloc(), &image, 4)?;
    let zeros = vec![in rt.alloc(); 0u64; 13]?;
    let Ok((words, pass)) = Words::open(rt.alloc(), zeros, 4) else {
        panic!(rt; "memory")
    };
    let mut worker = new_worker(rt.alloc(), 1)?;
    is_shared(&image);
    is_shared(&start);
    is_shared(&words);
    is_sent(&pass);
    is_sent(&worker.unit);
    worker.pass = Some(pass);
    is_sent(&worker);
    Ok(())
}
