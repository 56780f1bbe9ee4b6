//! `run` prints, answers and complains the same as `cc` followed by `sim` with the same options.
use crate::calls::{COMPACTION, PAST_THE_END, call, file, host_of, image_of};
use std::alloc::Global;
use std::test::Fail;
use std::thread::Threads;

const OUTER_VARIABLE: &str =
    "main() { int n = 10; int hit = 0; spawn(0, 4) { if ($ == 3) hit = n; } printf(\"%d\\n\", hit); }";

const RACE: &str = "int x; main() { spawn(0, 1) { x = $; } printf(\"%d\\n\", x); }";

// Whether both ways agree: the code, the output, the line on the error stream and the dump.
fn agree<R: Threads + Sync>(
    rt: &R,
    alloc: Global,
    source: &str,
    image: &[u8],
    options: &str,
) -> Result<bool, Fail> {
    let mut once = host_of(alloc, &[("p.xmtc", source.as_bytes())])?;
    let run = format!(in alloc; "run p.xmtc --dump d {options}")?;
    let code = call(rt, alloc, &mut once, run.as_str())?;
    let mut then = host_of(alloc, &[("p.img", image)])?;
    let sim = format!(in alloc; "sim p.img --dump d {options}")?;
    let other = call(rt, alloc, &mut then, sim.as_str())?;
    Ok(
        code == other
            && once.out.as_slice() == then.out.as_slice()
            && once.err.as_slice() == then.err.as_slice()
            && file(&once, "d") == file(&then, "d"),
    )
}

#[test]
fn run_is_cc_then_sim(rt: HostRuntime) -> Result<(), Fail> {
    for source in [COMPACTION, PAST_THE_END, OUTER_VARIABLE] {
        let image = image_of(&rt, rt.alloc(), source)?;
        assert!(rt;
            agree(&rt, rt.alloc(), source, image.as_slice(), "--seed 3")?,
            "{source}"
        );
    }
    Ok(())
}

// The first of these seeds with which the two ways differ for a race of two threads.
fn differing_seed<R: Threads + Sync>(
    rt: &R,
    alloc: Global,
    from: u64,
    to: u64,
) -> Result<Option<u64>, Fail> {
    let image = image_of(rt, alloc, RACE)?;
    for seed in from..to {
        let options = format!(in alloc; "--units 2 --seed {seed}")?;
        if !agree(rt, alloc, RACE, image.as_slice(), options.as_str())? {
            return Ok(Some(seed));
        }
    }
    Ok(None)
}

// The first of these budgets with which they differ for the compaction.
fn differing_budget<R: Threads + Sync>(
    rt: &R,
    alloc: Global,
    from: u64,
    to: u64,
) -> Result<Option<u64>, Fail> {
    let image = image_of(rt, alloc, COMPACTION)?;
    for budget in from..to {
        let options = format!(in alloc; "--units 2 --seed 3 --budget {budget}")?;
        if !agree(rt, alloc, COMPACTION, image.as_slice(), options.as_str())? {
            return Ok(Some(budget));
        }
    }
    Ok(None)
}

#[test]
fn run_is_cc_then_sim_for_seeds_to_49(rt: HostRuntime) -> Result<(), Fail> {
    assert_eq!(rt; differing_seed(&rt, rt.alloc(), 0, 50)?, None);
    Ok(())
}

#[test]
fn run_is_cc_then_sim_for_seeds_to_99(rt: HostRuntime) -> Result<(), Fail> {
    assert_eq!(rt; differing_seed(&rt, rt.alloc(), 50, 100)?, None);
    Ok(())
}

#[test]
fn run_is_cc_then_sim_for_budgets_to_100(rt: HostRuntime) -> Result<(), Fail> {
    assert_eq!(rt; differing_budget(&rt, rt.alloc(), 1, 101)?, None);
    Ok(())
}

#[test]
fn run_is_cc_then_sim_for_budgets_to_200(rt: HostRuntime) -> Result<(), Fail> {
    assert_eq!(rt; differing_budget(&rt, rt.alloc(), 101, 201)?, None);
    Ok(())
}

#[test]
fn run_is_cc_then_sim_for_budgets_to_300(rt: HostRuntime) -> Result<(), Fail> {
    assert_eq!(rt; differing_budget(&rt, rt.alloc(), 201, 301)?, None);
    Ok(())
}

#[test]
fn run_is_cc_then_sim_for_budgets_to_400(rt: HostRuntime) -> Result<(), Fail> {
    assert_eq!(rt; differing_budget(&rt, rt.alloc(), 301, 401)?, None);
    Ok(())
}

#[test]
fn run_is_cc_then_sim_for_budgets_to_500(rt: HostRuntime) -> Result<(), Fail> {
    assert_eq!(rt; differing_budget(&rt, rt.alloc(), 401, 501)?, None);
    Ok(())
}
