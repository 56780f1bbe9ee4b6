//! Running a loaded image.
ghost use Rattle.std.specs.Prelude.{◌≡◌, IfOk, IfErr, Err, length, string_bytes};
ghost use Rattle.std.specs.Option.{option_map};
ghost use Rattle.xmt_host.specs.Told.{MeetsNoFault, OnlyPuts, OnlyReads, OnlyWorks};
ghost use Rattle.xmt_host.specs.Host.{Rose, HasFile};
ghost use Rattle.xmt_cli.specs.JobOf.{AreInRange};
ghost use Rattle.memory_map.specs.DumpText.{dump_text};
ghost use Rattle.xmt_jobs.specs.Files.{PutsDump};
ghost use Rattle.xmt_jobs.specs.Faults.{HoldsImage};
ghost use Rattle.xmt_jobs.specs.Images.{LoadsNot, HasRunLoaded};
ghost use Rattle.xmt_jobs.specs.Ended.{HasMap};

use crate::dump::put_dump;
use crate::map::{BYTE_LIMIT, opening_memory};
use crate::outcome::{BytesFault, Outcome};
use image_loader::{LoadRefusal, Loaded, load};
use run_options::{SimEnd, SimOptions};
use spawn_join::Gate;
use std::alloc::Global;
use std::thread::Threads;
use xmt_base::Memory;
use xmt_host::{Host, HostFault, TakeFault, take_file};
use xmt_isa::Image;
use xmtsim_run::simulate;

/// The image in a file, or how the job ends.
pub(crate) fn load_file<H: Host>(alloc: Global, file: &str, host: &mut H) -> Result<Loaded, Outcome>
    ensures ok { IfOk result (HoldsImage (H.told host.old).files file.now) }
    ensures not { IfErr result (LoadsNot (H.told host.old).files file.now) }
    ensures fault { result ≡ Err Outcome.Fault → Rose (H.told host.old).faults (H.told host.new).faults }
    ensures no_fault { MeetsNoFault (H.told host.old) (H.told host.new) (λ files. HasFile files file.now) }
    ensures only { OnlyReads (H.told host.old) (H.told host.new) }
{
    match take_file(alloc, host, file, BYTE_LIMIT) {
        Err(TakeFault::Fault) => Err(Outcome::Fault),
        Err(TakeFault::TooLong) => Err(Outcome::ImageRefused(BytesFault::TooLong)),
        Err(TakeFault::NoMemory) => Err(Outcome::NoMemory),
        Ok(bytes) => match load(alloc, bytes.as_slice()) {
            Err(LoadRefusal::Refused(kind)) => {
                Err(Outcome::ImageRefused(BytesFault::BadImage(kind)))
            }
            Err(LoadRefusal::NoMemory) => Err(Outcome::NoMemory),
            Ok(image) => Ok(image),
        },
    }
}

// How many prefix-sum registers an image opens.
fn registers(image: &Image) -> usize
    ensures all { result ≡ length image.now.ps }
    ensures eight { length image.now.ps ≡ 8 }
{
    let ps: &[u32] = &image.ps;
    ps.len()
}

// Puts the dump of a run that is done.
fn dump_words<H: Host>(
    alloc: Global,
    image: &Loaded,
    memory: &Memory,
    dump: &Option<String>,
    host: &mut H,
) -> Outcome
    requires size { length memory.now.words ≡ length image.now.words }
    ensures put { PutsDump (option_map string_bytes dump.now) (dump_text image.now.symbols memory.now.words) (H.told host.old).files (H.told host.new).files result }
    ensures fault { result ≡ Outcome.Fault → Rose (H.told host.old).faults (H.told host.new).faults }
    ensures only { OnlyPuts (H.told host.old) (H.told host.new) }
{
    match put_dump(alloc, image.image().symbols.as_slice(), memory, dump, host) {
        Ok(()) => Outcome::Done,
        Err(HostFault::Failed) => Outcome::Fault,
        Err(HostFault::NoMemory) => Outcome::NoMemory,
    }
}

/// Runs a loaded image from its opening words or from those that a map makes of them, and puts the
/// dump when the run is done.
pub(crate) fn run_loaded<R: Threads + Sync, H: Host, G: Gate + Sync>(
    rt: &R,
    alloc: Global,
    image: &Loaded,
    options: &SimOptions,
    map: &Option<String>,
    dump: &Option<String>,
    host: &mut H,
    gate: &G,
) -> Outcome
    requires range { AreInRange options.now }
    ensures ended { HasRunLoaded image.now options.now (option_map string_bytes map.now) (option_map string_bytes dump.now) (H.told host.old) (H.told host.new) result }
    ensures fault { result ≡ Outcome.Fault → Rose (H.told host.old).faults (H.told host.new).faults }
    ensures no_fault { MeetsNoFault (H.told host.old) (H.told host.new) (λ files. HasMap files (option_map string_bytes map.now)) }
    ensures only { OnlyWorks (H.told host.old) (H.told host.new) }
{
    match opening_memory(alloc, image, map, host) {
        Err(outcome) => outcome,
        Ok(memory) => match simulate(rt, alloc, image, memory, options, host, gate) {
            SimEnd::Done(memory) => {
                let _registers = registers(image.image());
                dump_words(alloc, image, &memory, dump, host)
            }
            SimEnd::Trap(trap) => Outcome::Trap(trap),
            SimEnd::Spent { unit, steps } => Outcome::Spent { unit, steps },
            SimEnd::WriteFault => Outcome::Fault,
            SimEnd::NoMemory => Outcome::NoMemory,
        },
    }
}
