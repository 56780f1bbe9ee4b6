//! The words that a run begins with.
ghost use Rattle.std.specs.Prelude.{◌≡◌, Some, Err, IfOk, IfErr, length, string_bytes};
ghost use Rattle.std.specs.Option.{option_map};
ghost use Rattle.xmt_host.specs.Told.{MeetsNoFault, OnlyReads};
ghost use Rattle.xmt_host.specs.Host.{Rose, HasFile};
ghost use Rattle.xmt_jobs.specs.Faults.{OpensAs, OpensNot, end_of_map};
ghost use Rattle.xmt_jobs.specs.Ended.{HasMap};

use crate::outcome::{BytesFault, Outcome};
use image_loader::Loaded;
use memory_map::{MapRefusal, read_map};
use sqlite_items::Items;
use std::alloc::Global;
use xmt_base::Memory;
use xmt_host::{Host, TakeFault, take_file};
use xmt_isa::Image;

/// The greatest number of bytes of an image and of a map.
pub(crate) const BYTE_LIMIT: u64 = 67_108_864;

// How a job ends whose map is refused.
fn given_up(refusal: MapRefusal) -> Outcome
    ensures { result ≡ end_of_map refusal }
{
    match refusal {
        MapRefusal::NoMemory => Outcome::NoMemory,
        other => Outcome::MapRefused(BytesFault::BadMap(other)),
    }
}

// The words that the image opens with.
fn opening(alloc: Global, image: &Image) -> Result<Memory, Outcome>
    ensures ok { IfOk result (λ memory. memory.words ≡ image.now.words) }
    ensures not { IfErr result (λ outcome. outcome ≡ Outcome.NoMemory) }
{
    match Items::from_slice(alloc, image.words.as_slice()) {
        Ok(words) => Ok(Memory { words }),
        Err(_) => Err(Outcome::NoMemory),
    }
}

// The words that the map in a file makes of the opening ones.
fn mapped<H: Host>(
    alloc: Global,
    image: &Loaded,
    name: &str,
    host: &mut H,
) -> Result<Memory, Outcome>
    ensures ok { IfOk result (λ memory. OpensAs (H.told host.old).files (Some name.now) image.now.symbols image.now.words memory.words) }
    ensures size { IfOk result (λ memory. length memory.words ≡ length image.now.words) }
    ensures not { IfErr result (OpensNot (H.told host.old).files (Some name.now) image.now.symbols image.now.words) }
    ensures fault { result ≡ Err Outcome.Fault → Rose (H.told host.old).faults (H.told host.new).faults }
    ensures no_fault { MeetsNoFault (H.told host.old) (H.told host.new) (λ files. HasFile files name.now) }
    ensures only { OnlyReads (H.told host.old) (H.told host.new) }
{
    match take_file(alloc, host, name, BYTE_LIMIT) {
        Err(TakeFault::Fault) => Err(Outcome::Fault),
        Err(TakeFault::TooLong) => Err(Outcome::MapRefused(BytesFault::TooLong)),
        Err(TakeFault::NoMemory) => Err(Outcome::NoMemory),
        Ok(bytes) => {
            let image = image.image();
            let opening = opening(alloc, image)?;
            match read_map(alloc, bytes.as_slice(), image.symbols.as_slice(), &opening) {
                Err(refusal) => Err(given_up(refusal)),
                Ok(memory) => Ok(memory),
            }
        }
    }
}

/// The words that a run of the image begins with, or how the job ends.
pub(crate) fn opening_memory<H: Host>(
    alloc: Global,
    image: &Loaded,
    map: &Option<String>,
    host: &mut H,
) -> Result<Memory, Outcome>
    ensures ok { IfOk result (λ memory. OpensAs (H.told host.old).files (option_map string_bytes map.now) image.now.symbols image.now.words memory.words) }
    ensures size { IfOk result (λ memory. length memory.words ≡ length image.now.words) }
    ensures not { IfErr result (OpensNot (H.told host.old).files (option_map string_bytes map.now) image.now.symbols image.now.words) }
    ensures fault { result ≡ Err Outcome.Fault → Rose (H.told host.old).faults (H.told host.new).faults }
    ensures no_fault { MeetsNoFault (H.told host.old) (H.told host.new) (λ files. HasMap files (option_map string_bytes map.now)) }
    ensures only { OnlyReads (H.told host.old) (H.told host.new) }
{
    match map {
        None => opening(alloc, image.image()),
        Some(name) => mapped(alloc, image, name.as_str(), host),
    }
}
