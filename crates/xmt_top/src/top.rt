//! The top call.
ghost use Rattle.std.specs.Prelude.{◌≡◌, ◌⊎◌, ◌≤◌, ◌∷◌, [], None, Contains, map, string_bytes};
ghost use Rattle.xmt_host.specs.Told.{MeetsNoFault};
ghost use Rattle.xmt_host.specs.Host.{Rose};
ghost use Rattle.xmt_cli.specs.JobOf.{HasRange, seen_job, task_of};
ghost use Rattle.xmt_jobs.specs.declared.outcome.Outcome.TheVariants as ended;
ghost use Rattle.xmt_jobs.specs.Ended.{HasFiles};
ghost use Rattle.xmt_top.specs.Complaints.{Complains};
ghost use Rattle.xmt_top.specs.Messages.{no_job_line};
ghost use Rattle.xmt_top.specs.Shows.{ForTask, Shows, ShowsDone, ShowsRefusedSource, ShowsRefusedBytes, ShowsTrap, ShowsSpent, ShowsNoMemory, ShowsNoWords, Reported};
ghost use Rattle.xmt_top.specs.Completeness.{MustRefuseSource, MustRefuseBytes, MustRun, MustEnd};

use crate::messages::{NO_JOB, NO_MEMORY};
use crate::report::{Status, complain, report};
use spawn_join::Gate;
use std::alloc::Global;
use std::thread::Threads;
use xmt_cli::{Job, WordsRefusal, read_words};
use xmt_host::Host;
use xmt_jobs::do_job;

/// Does what the words of a command line say, over a host: `cc FILE --out FILE` compiles the source
/// in a file, `sim FILE` runs an image, and `run FILE` does both. A run is that of a master and
/// control units, as many as the options say. With a seed it picks each turn; without one each control
/// unit is a host thread, which passes the gate before each of its draws, and it isn't promised which
/// legal schedule the run was. With any code but 0 one line goes to the error stream.
pub fn xmt<R: Threads + Sync, H: Host, G: Gate + Sync>(
    rt: &R,
    alloc: Global,
    words: &[String],
    host: &mut H,
    gate: &G,
) -> Status
    // Which codes there are, and when. Want of memory, code 7, is free.
    ensures codes { Contains (0 ∷ 1 ∷ 2 ∷ 3 ∷ 4 ∷ 5 ∷ 6 ∷ 7 ∷ []) result.code }
    ensures no_job { result.code ≡ 2 → task_of (map string_bytes words.now) ≡ None }
    ensures no_job_only { task_of (map string_bytes words.now) ≡ None → (result.code ≡ 2) ⊎ (result.code ≡ 7) }
    ensures fault { result.code ≡ 6 → Rose (H.told host.old).faults (H.told host.new).faults }
    ensures refused_source_only { ForTask (map string_bytes words.now) (λ task. MustRefuseSource (H.told host.old).files task → Contains (1 ∷ 6 ∷ 7 ∷ []) result.code) }
    ensures refused_bytes_only { ForTask (map string_bytes words.now) (λ task. MustRefuseBytes (H.told host.old).files task → Contains (3 ∷ 6 ∷ 7 ∷ []) result.code) }
    // Where the host meets no fault, what is accepted ends with 0, 4 or 5, and with 0 where it neither traps nor takes more
    // steps than the budget is enough for.
    ensures accepted { ¬ Rose (H.told host.old).faults (H.told host.new).faults → ForTask (map string_bytes words.now) (λ task. MustRun (H.told host.old).files task → Contains (0 ∷ 4 ∷ 5 ∷ 7 ∷ []) result.code) }
    ensures complete { ¬ Rose (H.told host.old).faults (H.told host.new).faults → ForTask (map string_bytes words.now) (λ task. MustEnd (H.told host.old).files task → Contains (0 ∷ 7 ∷ []) result.code) }
    ensures no_fault { MeetsNoFault (H.told host.old) (H.told host.new) (λ files. ForTask (map string_bytes words.now) (HasFiles files)) }

    // What the job has done, in words of the source or the image, and the line on the error stream.
    ensures done { result.code ≡ 0 → ForTask (map string_bytes words.now) (ShowsDone (H.told host.old) (H.told host.new)) }
    ensures refused_source { result.code ≡ 1 → ForTask (map string_bytes words.now) (ShowsRefusedSource (H.told host.old) (H.told host.new)) }
    ensures refused_bytes { result.code ≡ 3 → ForTask (map string_bytes words.now) (ShowsRefusedBytes (H.told host.old) (H.told host.new)) }
    ensures trapped { result.code ≡ 4 → ForTask (map string_bytes words.now) (ShowsTrap (H.told host.old) (H.told host.new)) }
    ensures spent { result.code ≡ 5 → ForTask (map string_bytes words.now) (ShowsSpent (H.told host.old) (H.told host.new)) }
    ensures failed { result.code ≡ 6 → ForTask (map string_bytes words.now) (λ task. Shows (H.told host.old) (H.told host.new) task ended.Fault) }
    ensures no_memory { result.code ≡ 7 → ShowsNoWords (H.told host.old) (H.told host.new) ⊎ ForTask (map string_bytes words.now) (ShowsNoMemory (H.told host.old) (H.told host.new)) }
    ensures no_job_line { result.code ≡ 2 → Complains no_job_line (H.told host.old) (H.told host.new) }

    // What stays.
    ensures later { (H.told host.old).faults ≤ (H.told host.new).faults }
    ensures steady { (H.told host.new).steady ≡ (H.told host.old).steady }
    ensures files { Contains (1 ∷ 2 ∷ 3 ∷ 4 ∷ 5 ∷ []) result.code → (H.told host.new).files ≡ (H.told host.old).files }
    ensures out { Contains (1 ∷ 2 ∷ 3 ∷ []) result.code → (H.told host.new).out ≡ (H.told host.old).out }
{
    match read_words(alloc, words) {
        Err(WordsRefusal::NotAJob) => complain(2, NO_JOB, host),
        Err(WordsRefusal::NoMemory) => complain(7, NO_MEMORY, host),
        Ok(job) => do_and_report(rt, alloc, &job, host, gate),
    }
}

// Does a job, and reports how it has ended.
fn do_and_report<R: Threads + Sync, H: Host, G: Gate + Sync>(
    rt: &R,
    alloc: Global,
    job: &Job,
    host: &mut H,
    gate: &G,
) -> Status
    requires range { HasRange job.now }
    ensures reported { Reported (seen_job job.now) (H.told host.old) (H.told host.new) result.code }
    ensures no_fault { MeetsNoFault (H.told host.old) (H.told host.new) (λ files. HasFiles files (seen_job job.now)) }
    ensures later { (H.told host.old).faults ≤ (H.told host.new).faults }
    ensures steady { (H.told host.new).steady ≡ (H.told host.old).steady }
{
    let outcome = do_job(rt, alloc, job, host, gate);
    report(alloc, job, outcome, host)
}
