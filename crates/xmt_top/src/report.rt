//! The exit status of a job, and its line on the error stream.
ghost use Rattle.std.specs.Prelude.{◌≡◌, ◌⊎◌, ◌≤◌, ℕ, List, IfOk, string_bytes};
ghost use Rattle.xmt_cli.specs.JobOf.{seen_job};
ghost use Rattle.xmt_host.specs.Told.{OnlyComplains};
ghost use Rattle.xmt_jobs.specs.Written.{WritesPart};
ghost use Rattle.xmt_top.specs.Complaints.{Complains};
ghost use Rattle.xmt_top.specs.Shows.{code_of, file_of, line_of, map_of};

use crate::messages::{HOST_FAULT, NO_MEMORY, bytes_line, refusal_line, spent_line, trap_line};
use crate::print::complain_all;
use std::alloc::{AllocError, Global};
use xmt_cli::Job;
use xmt_host::{Host, HostFault};
use xmt_jobs::Outcome;

/// How a job ended, as the exit status of the program.
#[derive(Clone, Copy, Debug, PartialEq, Eq)]
pub struct Status {
    /// 0: done. 1: the source was refused. 2: the words are no job. 3: the image or the map was
    /// refused. 4: a trap. 5: a unit spent its budget. 6: the host failed. 7: want of memory.
    pub code: u8,
}

/// Writes a line to the error stream. Want of memory makes the code 7.
pub(crate) fn complain<H: Host>(code: u8, line: &[u8], host: &mut H) -> Status
    ensures code { (result.code ≡ code) ⊎ (result.code ≡ 7) }
    ensures line { (result.code ≡ 7) ⊎ Complains line.now (H.told host.old) (H.told host.new) }
    ensures part { WritesPart line.now (H.told host.old).err (H.told host.new).err }
    ensures only { OnlyComplains (H.told host.old) (H.told host.new) }
{
    match complain_all(host, line) {
        Ok(()) | Err(HostFault::Failed) => Status { code },
        Err(HostFault::NoMemory) => Status { code: 7 },
    }
}

// Writes a line that was made, or else nothing.
fn complain_made<H: Host>(code: u8, made: Result<String, AllocError>, host: &mut H) -> Status
    ensures code { (result.code ≡ code) ⊎ (result.code ≡ 7) }
    ensures line { (line : List ℕ) → IfOk made (λ text. string_bytes text ≡ line) → (result.code ≡ 7) ⊎ Complains line (H.told host.old) (H.told host.new) }
    ensures part { (line : List ℕ) → IfOk made (λ text. string_bytes text ≡ line) → WritesPart line (H.told host.old).err (H.told host.new).err }
    ensures only { OnlyComplains (H.told host.old) (H.told host.new) }
{
    match made {
        Ok(line) => complain(code, line.as_bytes(), host),
        Err(_) => Status { code: 7 },
    }
}

// The file whose source is compiled or whose image is run.
fn file_of(job: &Job) -> &str
    ensures { result.now ≡ file_of (seen_job job.now) }
{
    match job {
        Job::Compile { file, .. } | Job::Simulate { file, .. } | Job::Run { file, .. } => {
            file.as_str()
        }
    }
}

// The map's file.
fn map_of(job: &Job) -> &str
    ensures { result.now ≡ map_of (seen_job job.now) }
{
    match job {
        Job::Simulate { map: Some(map), .. } | Job::Run { map: Some(map), .. } => map.as_str(),
        _ => "",
    }
}

/// Complains of an outcome other than Done.
pub(crate) fn report<H: Host>(alloc: Global, job: &Job, outcome: Outcome, host: &mut H) -> Status
    ensures code { (result.code ≡ code_of outcome) ⊎ (result.code ≡ 7) }
    ensures line { (result.code ≡ 7) ⊎ Complains (line_of (seen_job job.now) outcome) (H.told host.old) (H.told host.new) }
    ensures part { WritesPart (line_of (seen_job job.now) outcome) (H.told host.old).err (H.told host.new).err }
    ensures done { result.code ≡ 0 → (H.told host.new).err ≡ (H.told host.old).err }
    ensures only { OnlyComplains (H.told host.old) (H.told host.new) }
{
    match outcome {
        Outcome::Done => Status { code: 0 },
        Outcome::SourceRefused(kind, place) => {
            complain_made(1, refusal_line(alloc, file_of(job), kind, place), host)
        }
        Outcome::ImageRefused(fault) => {
            complain_made(3, bytes_line(alloc, file_of(job), fault), host)
        }
        Outcome::MapRefused(fault) => complain_made(3, bytes_line(alloc, map_of(job), fault), host),
        Outcome::Trap(trap) => complain_made(4, trap_line(alloc, trap), host),
        Outcome::Spent { unit, steps } => complain_made(5, spent_line(alloc, unit, steps), host),
        Outcome::Fault => complain(6, HOST_FAULT, host),
        Outcome::NoMemory => complain(7, NO_MEMORY, host),
    }
}
