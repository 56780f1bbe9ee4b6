//! Doing a job.
ghost use Rattle.std.specs.Prelude.{◌≡◌, string_bytes};
ghost use Rattle.std.specs.Option.{option_map};
ghost use Rattle.xmt_host.specs.Told.{MeetsNoFault, OnlyPuts, OnlyWorks};
ghost use Rattle.xmt_host.specs.Host.{Rose, HasFile};
ghost use Rattle.xmt_isa.specs.Valid.{IsValid};
ghost use Rattle.xmt_cli.specs.JobOf.{AreInRange, HasRange, seen_job};
ghost use Rattle.xmt_jobs.specs.Sources.{PutsImage};
ghost use Rattle.xmt_jobs.specs.Ended.{HasEnded, HasEndedCompiling, HasEndedSimulating, HasEndedRunning, HasMap, HasFiles};

use crate::loaded_image::{load_file, run_loaded};
use crate::outcome::Outcome;
use crate::source::compile_file;
use image_loader::{admit, encode};
use run_options::SimOptions;
use spawn_join::Gate;
use std::alloc::Global;
use std::thread::Threads;
use xmt_cli::Job;
use xmt_host::{Host, HostFault};
use xmt_isa::Image;

// Puts the bytes of an image into a file.
fn put_image<H: Host>(alloc: Global, image: &Image, out: &str, host: &mut H) -> Outcome
    requires valid { IsValid image.now }
    ensures put { PutsImage image.now out.now (H.told host.old).files (H.told host.new).files result }
    ensures fault { result ≡ Outcome.Fault → Rose (H.told host.old).faults (H.told host.new).faults }
    ensures only { OnlyPuts (H.told host.old) (H.told host.new) }
{
    match encode(alloc, image) {
        Err(_) => Outcome::NoMemory,
        Ok(bytes) => match host.put(out, bytes.as_slice()) {
            Ok(()) => Outcome::Done,
            Err(HostFault::Failed) => Outcome::Fault,
            Err(HostFault::NoMemory) => Outcome::NoMemory,
        },
    }
}

// Compiles the source in a file, and puts the image into another.
fn compile_into<H: Host>(alloc: Global, file: &str, out: &str, host: &mut H) -> Outcome
    ensures ended { HasEndedCompiling file.now out.now (H.told host.old) (H.told host.new) result }
    ensures fault { result ≡ Outcome.Fault → Rose (H.told host.old).faults (H.told host.new).faults }
    ensures no_fault { MeetsNoFault (H.told host.old) (H.told host.new) (λ files. HasFile files file.now) }
    ensures only { OnlyWorks (H.told host.old) (H.told host.new) }
{
    match compile_file(alloc, file, host) {
        Err(outcome) => outcome,
        Ok(image) => put_image(alloc, &image, out, host),
    }
}

// Runs the image in a file.
fn simulate_file<R: Threads + Sync, H: Host, G: Gate + Sync>(
    rt: &R,
    alloc: Global,
    file: &str,
    options: &SimOptions,
    map: &Option<String>,
    dump: &Option<String>,
    host: &mut H,
    gate: &G,
) -> Outcome
    requires range { AreInRange options.now }
    ensures ended { HasEndedSimulating file.now options.now (option_map string_bytes map.now) (option_map string_bytes dump.now) (H.told host.old) (H.told host.new) result }
    ensures fault { result ≡ Outcome.Fault → Rose (H.told host.old).faults (H.told host.new).faults }
    ensures no_fault { MeetsNoFault (H.told host.old) (H.told host.new) (λ files. HasFile files file.now × HasMap files (option_map string_bytes map.now)) }
    ensures only { OnlyWorks (H.told host.old) (H.told host.new) }
{
    match load_file(alloc, file, host) {
        Err(outcome) => outcome,
        Ok(image) => run_loaded(rt, alloc, &image, options, map, dump, host, gate),
    }
}

// Compiles the source in a file, and runs the image.
fn run_file<R: Threads + Sync, H: Host, G: Gate + Sync>(
    rt: &R,
    alloc: Global,
    file: &str,
    options: &SimOptions,
    map: &Option<String>,
    dump: &Option<String>,
    host: &mut H,
    gate: &G,
) -> Outcome
    requires range { AreInRange options.now }
    ensures ended { HasEndedRunning file.now options.now (option_map string_bytes map.now) (option_map string_bytes dump.now) (H.told host.old) (H.told host.new) result }
    ensures fault { result ≡ Outcome.Fault → Rose (H.told host.old).faults (H.told host.new).faults }
    ensures no_fault { MeetsNoFault (H.told host.old) (H.told host.new) (λ files. HasFile files file.now × HasMap files (option_map string_bytes map.now)) }
    ensures only { OnlyWorks (H.told host.old) (H.told host.new) }
{
    match compile_file(alloc, file, host) {
        Err(outcome) => outcome,
        Ok(image) => match admit(alloc, image) {
            // A valid image is refused only for want of memory.
            Err(_) => Outcome::NoMemory,
            Ok(image) => run_loaded(rt, alloc, &image, options, map, dump, host, gate),
        },
    }
}

/// Does a job over a host. Compiling puts the image into a file, once the source is known to be
/// accepted. A run prints at its steps, and puts its dump, where one is named, when it is done; without a
/// seed its control units are host threads, which pass the gate before each of their draws. The files are
/// read in order: the source or the image, then the map.
pub fn do_job<R: Threads + Sync, H: Host, G: Gate + Sync>(
    rt: &R,
    alloc: Global,
    job: &Job,
    host: &mut H,
    gate: &G,
) -> Outcome
    requires range { HasRange job.now }
    ensures ended { HasEnded (seen_job job.now) (H.told host.old) (H.told host.new) result }
    ensures fault { result ≡ Outcome.Fault → Rose (H.told host.old).faults (H.told host.new).faults }
    ensures no_fault { MeetsNoFault (H.told host.old) (H.told host.new) (λ files. HasFiles files (seen_job job.now)) }
    ensures only { OnlyWorks (H.told host.old) (H.told host.new) }
{
    match job {
        Job::Compile { file, out } => compile_into(alloc, file.as_str(), out.as_str(), host),
        Job::Simulate {
            file,
            options,
            map,
            dump,
        } => simulate_file(rt, alloc, file.as_str(), options, map, dump, host, gate),
        Job::Run {
            file,
            options,
            map,
            dump,
        } => run_file(rt, alloc, file.as_str(), options, map, dump, host, gate),
    }
}
