//! The limits of sources at their edges, and the seeds of a race.
use crate::calls::{call, has_said, host_of};
use std::alloc::Global;
use std::test::Fail;
use std::thread::Threads;
use xmt_host::MemoryHost;

const RACE: &str = "int x; main() { spawn(0, 1) { x = $; } printf(\"%d\\n\", x); }";

// Runs words over a host with one file.
fn run<R: Threads + Sync>(
    rt: &R,
    alloc: Global,
    words: &str,
    source: &[u8],
) -> Result<(u8, MemoryHost), Fail> {
    let mut host = host_of(alloc, &[("p.xmtc", source)])?;
    let code = call(rt, alloc, &mut host, words)?;
    Ok((code, host))
}

// The line for a refused source that ends so.
fn refusal(alloc: Global, end: &str) -> Result<String, Fail> {
    Ok(format!(in alloc; "xmt: p.xmtc:{end}\n")?)
}

// Two threads that race print 0 or 1, and each comes with some seed; the same seed prints the same.
#[test]
fn seeds_pick_the_run(rt: HostRuntime) -> Result<(), Fail> {
    let alloc = rt.alloc();
    let (mut zero, mut one) = (false, false);
    for seed in 0..20 {
        let line = format!(in alloc; "run p.xmtc --units 2 --seed {seed}")?;
        let (code, first) = run(&rt, alloc, line.as_str(), RACE.as_bytes())?;
        let (_, second) = run(&rt, alloc, line.as_str(), RACE.as_bytes())?;
        assert_eq!(rt; code, 0);
        assert!(rt; first.out.as_slice() == second.out.as_slice());
        match first.out.as_slice() {
            b"0\n" => zero = true,
            b"1\n" => one = true,
            _ => assert!(rt; false, "another output"),
        }
    }
    assert!(rt; zero && one);
    Ok(())
}

// A value with so many pairs of brackets around it.
fn bracketed(alloc: Global, pairs: usize) -> Result<Vec<u8>, Fail> {
    let mut source = Vec::from_slice(alloc, b"int x; main() { x = ")?;
    for _ in 0..pairs {
        source.push(b'(')?;
    }
    source.push(b'1')?;
    for _ in 0..pairs {
        source.push(b')')?;
    }
    source.extend_from_slice(b"; }")?;
    Ok(source)
}

// `main(){}` with so many spaces behind it.
fn spaced(alloc: Global, length: usize) -> Result<Vec<u8>, Fail> {
    let mut source = Vec::from_slice(alloc, b"main(){}")?;
    for _ in source.len()..length {
        source.push(b' ')?;
    }
    Ok(source)
}

// Pairs of brackets, and how the line for the refusal ends, if there is one.
const DEPTHS: [(usize, &str); 5] = [
    (197, ""),
    (198, "1:219: Syntax"),
    (199, "1:219: Syntax"),
    (200, "1:220: TooDeep"),
    (100_000, "1:220: TooDeep"),
];

#[test]
fn brackets_are_bounded(rt: HostRuntime) -> Result<(), Fail> {
    let alloc = rt.alloc();
    for (pairs, end) in DEPTHS {
        let source = bracketed(alloc, pairs)?;
        let (_code, host) = run(&rt, alloc, "run p.xmtc", source.as_slice())?;
        let wanted = if end.is_empty() {
            String::new(alloc)
        } else {
            refusal(alloc, end)?
        };
        assert!(rt;
            host.err.as_slice() == wanted.as_bytes(),
            "{pairs} pairs of brackets"
        );
    }
    Ok(())
}

#[test]
fn limits_hold(rt: HostRuntime) -> Result<(), Fail> {
    let alloc = rt.alloc();
    let source = spaced(alloc, 1_048_576)?;
    let (found, _host) = run(&rt, alloc, "run p.xmtc", source.as_slice())?;
    assert_eq!(rt; found, 0);
    let source = spaced(alloc, 1_048_577)?;
    let (found, host) = run(&rt, alloc, "run p.xmtc", source.as_slice())?;
    assert_eq!(rt; found, 1);
    assert!(rt; has_said(&host, "", "xmt: p.xmtc:1:1: TooLong\n"));
    Ok(())
}
