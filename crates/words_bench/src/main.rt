//! Makes one call of the shared words many times, on one to four threads at once: `words_bench CALL COUNT THREADS`.
//!
//! It prints how many calls it made. With a fourth word `time` it prints the nanoseconds that they took in place of that.
#![tactic(auto)]

ghost use Rattle.std.specs.Prelude.{◌≡◌, ◌+◌, ◌*◌, ◌^◌, ◌≤◌, ◌<◌, All};
ghost use Rattle.shared_words.specs.Passes.{IsEnrolled};
ghost use Rattle.words_bench.specs.Callers.{IsReady};

use prefix_sum::{draw, halted, ps, psm, raise, read, write};
use shared_words::{Pass, Words};
use std::thread::{Threads, for_each_mut};
use std::time::{Clock, Duration, Instant};
use std::{env, io};

#[derive(Clone, Copy)]
enum Call {
    Load,
    Store,
    Add,
    Enrol,
    SplitAndMerge,
    Draw,
    PrefixSum,
    PrefixSumToMemory,
    Read,
    Write,
    Raise,
    Halted,
}

fn call_named(name: &str) -> Option<Call> {
    match name {
        "load" => Some(Call::Load),
        "store" => Some(Call::Store),
        "add" => Some(Call::Add),
        "enrol" => Some(Call::Enrol),
        "split+merge" => Some(Call::SplitAndMerge),
        "draw" => Some(Call::Draw),
        "ps" => Some(Call::PrefixSum),
        "psm" => Some(Call::PrefixSumToMemory),
        "read" => Some(Call::Read),
        "write" => Some(Call::Write),
        "raise" => Some(Call::Raise),
        "halted" => Some(Call::Halted),
        _ => None,
    }
}

/// The place for a pass, as a control unit has it.
#[derive(Drop)]
struct Caller {
    pass: Option<Pass>,
}

// One call, mostly at word 12.
fn make(words: &Words, pass: &mut Pass, call: Call)
    requires of { pass.old.of ≡ words.now }
    requires enrolled { IsEnrolled pass.old.known }
    requires room { 0 < pass.old.known.room }
    requires inside { 12 < words.now.words }
    ensures of { pass.new.of ≡ words.now }
    ensures enrolled { IsEnrolled pass.new.known }
    ensures room { pass.old.known.room ≤ pass.new.known.room + 1 }
{
    match call {
        Call::Load => {
            words.load(pass, 12);
        }
        Call::Store => words.store(pass, 12, 7),
        Call::Add => {
            words.add(pass, 12, 1);
        }
        Call::Enrol => {
            words.enrol(pass);
        }
        Call::SplitAndMerge => {
            let other = words.split(pass, 0);
            words.merge(pass, other);
        }
        Call::Draw => {
            draw(words, pass);
        }
        Call::PrefixSum => {
            ps(words, pass, 0, 1);
        }
        Call::PrefixSumToMemory => {
            psm(words, pass, 12, 1);
        }
        Call::Read => {
            read(words, pass, 12);
        }
        Call::Write => write(words, pass, 12, 7),
        Call::Raise => raise(words, pass),
        Call::Halted => {
            halted(words, pass);
        }
    }
}

fn make_all(words: &Words, pass: &mut Pass, call: Call, count: u32)
    requires of { pass.old.of ≡ words.now }
    requires room { 2 ^ 32 ≤ pass.old.known.room }
    requires inside { 12 < words.now.words }
{
    words.enrol(pass);
    for _ in 0..count {
        make(words, pass, call);
    }
}

fn work(words: &Words, caller: &mut Caller, call: Call, count: u32)
    requires ready { IsReady words.now caller.old.pass }
    requires inside { 12 < words.now.words }
{
    if let Some(pass) = &mut caller.pass {
        make_all(words, pass, call, count);
    }
}

// A caller whose pass may draw 2^32 numbers.
fn ready(words: &Words, pass: &mut Pass) -> Caller
    requires of { pass.old.of ≡ words.now }
    requires room { 2 ^ 32 ≤ pass.old.known.room }
    ensures of { pass.new.of ≡ words.now }
    ensures left { pass.new.known.room + 2 ^ 32 ≡ pass.old.known.room }
    ensures ready { IsReady words.now result.pass }
{
    Caller {
        pass: Some(words.split(pass, 1 << 32)),
    }
}

// The time that so many calls take on each of `threads` threads.
fn timed<R: Threads + Clock + Sync>(
    rt: &R,
    words: &Words,
    mut pass: Pass,
    call: Call,
    count: u32,
    threads: usize,
) -> io::Result<Duration>
    requires of { pass.of ≡ words.now }
    requires room { pass.known.room ≡ 2 ^ 63 }
    requires inside { 12 < words.now.words }
    requires threads { threads < 5 }
{
    let mut callers = [
        ready(words, &mut pass),
        ready(words, &mut pass),
        ready(words, &mut pass),
        ready(words, &mut pass),
    ];
    let start = Instant::now(rt)?;
    for_each_mut(
        rt,
        &mut callers[..threads],
        4,
        &|_, caller| { work(words, caller, call, count) },
    );
    start.elapsed(rt)
}

fn main(rt: HostRuntime) -> io::Result<()> {
    let given: Vec<String> = env::args(&rt)?.collect(rt.alloc())?;
    let (Some(name), Some(count), Some(threads)) = (given.get(1), given.get(2), given.get(3)) else {
        return eprintln!(rt; "usage: words_bench CALL COUNT THREADS [time]");
    };
    let (Some(call), Ok(count), Ok(threads)) = (
        call_named(name.as_str()),
        count.parse::<u32>(),
        threads.parse::<usize>(),
    ) else {
        return eprintln!(rt; "usage: words_bench CALL COUNT THREADS [time]");
    };
    if threads > 4 {
        return eprintln!(rt; "words_bench: at most 4 threads");
    }
    let zeros = vec![in rt.alloc(); 0u64; 13]?;
    let Ok((words, pass)) = Words::open(rt.alloc(), zeros, 1 << 63) else {
        return eprintln!(rt; "words_bench: no memory");
    };
    let took = timed(&rt, &words, pass, call, count, threads)?;
    if given.len() > 4 {
        return println!(rt; "{}", took.as_nanos());
    }
    println!(rt; "{name}: {count} calls on each of {threads} threads")
}
