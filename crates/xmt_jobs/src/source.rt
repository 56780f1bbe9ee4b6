//! Reading and compiling the source in a file.
ghost use Rattle.std.specs.Prelude.{◌≡◌, Err, IfOk, IfErr};
ghost use Rattle.xmt_host.specs.Told.{MeetsNoFault, OnlyReads};
ghost use Rattle.xmt_host.specs.Host.{Rose, HasFile};
ghost use Rattle.xmt_jobs.specs.Sources.{Implemented, CompilesNot, end_of_source};

use crate::outcome::Outcome;
use std::alloc::Global;
use xmt_base::Place;
use xmt_compile::{SourceKind, SourceRefusal, compile};
use xmt_host::{Host, TakeFault, take_file};
use xmt_isa::Image;

// The greatest number of bytes of a source.
const LIMIT: u64 = 1 << 20;

// Where a source begins.
const FIRST: Place = Place { line: 1, column: 1 };

// How a job ends whose source is refused.
fn given_up(refusal: SourceRefusal) -> Outcome
    ensures { result ≡ end_of_source refusal }
{
    match refusal {
        SourceRefusal::Refused(kind, place) => Outcome::SourceRefused(kind, place),
        SourceRefusal::NoMemory => Outcome::NoMemory,
    }
}

/// The image of the source in a file, or how the job ends.
pub(crate) fn compile_file<H: Host>(
    alloc: Global,
    file: &str,
    host: &mut H,
) -> Result<Image, Outcome>
    ensures ok { IfOk result (Implemented (H.told host.old).files file.now) }
    ensures not { IfErr result (CompilesNot (H.told host.old).files file.now) }
    ensures fault { result ≡ Err Outcome.Fault → Rose (H.told host.old).faults (H.told host.new).faults }
    ensures no_fault { MeetsNoFault (H.told host.old) (H.told host.new) (λ files. HasFile files file.now) }
    ensures only { OnlyReads (H.told host.old) (H.told host.new) }
{
    match take_file(alloc, host, file, LIMIT) {
        Err(TakeFault::Fault) => Err(Outcome::Fault),
        Err(TakeFault::TooLong) => Err(Outcome::SourceRefused(SourceKind::TooLong, FIRST)),
        Err(TakeFault::NoMemory) => Err(Outcome::NoMemory),
        Ok(source) => match compile(alloc, source.as_slice()) {
            Err(refusal) => Err(given_up(refusal)),
            Ok(image) => Ok(image),
        },
    }
}
