//! Reading a whole file in pieces.
ghost use Rattle.std.specs.Prelude.{◌≡◌, ◌+◌, ◌≤◌, vec_len, IfOk, Err};
ghost use Rattle.xmt_host.specs.Told.{MeetsNoFault, OnlyReads};
ghost use Rattle.xmt_host.specs.Host.{Rose, RoseBy, HasFile, IsWholeFile, IsLonger};

use crate::{Host, HostFault};
use std::alloc::{AllocError, Global};
use thiserror::Error;

/// Why a file was not taken.
#[derive(Clone, Copy, Debug, PartialEq, Eq, Error)]
pub enum TakeFault {
    /// The host failed.
    #[error("host fault")]
    Fault,
    /// The file is longer than the limit.
    #[error("file is too long")]
    TooLong,
    #[error("out of memory")]
    NoMemory,
}

impl From<AllocError> for TakeFault {
    ghost use Rattle.std.specs.Prelude.{◌≡◌};
    ghost use Rattle.xmt_host.specs.declared.whole_file.TakeFault.TheVariants.{NoMemory};

    ghost from_gives = { λ _ fault. fault ≡ NoMemory };

    fn from(_: AllocError) -> Self {
        TakeFault::NoMemory
    }
}

// How much is asked for at once.
const PIECE: usize = 4096;

/// All bytes of the named file, of which there are at most `limit`.
pub fn take_file<H: Host>(
    alloc: Global,
    host: &mut H,
    name: &str,
    limit: u64,
) -> Result<Vec<u8>, TakeFault>
    ensures whole { IfOk result (λ bytes. IsWholeFile (H.told host.old).files name.now bytes.items) }
    ensures fits { IfOk result (λ bytes. vec_len bytes ≤ limit) }

    // When each refusal comes.
    ensures fault { result ≡ Err TakeFault.Fault → Rose (H.told host.old).faults (H.told host.new).faults }
    ensures too_long { result ≡ Err TakeFault.TooLong → RoseBy (limit + 1) (H.told host.old).taken (H.told host.new).taken }
    ensures longer { result ≡ Err TakeFault.TooLong → IsLonger (H.told host.old).files name.now limit }
    ensures no_fault { MeetsNoFault (H.told host.old) (H.told host.new) (λ files. HasFile files name.now) }

    // What stays.
    ensures only { OnlyReads (H.told host.old) (H.told host.new) }
{
    let mut bytes = Vec::new(alloc);
    let mut piece = [0; PIECE];
    while bytes.len() as u64 <= limit {
        match host.read_at(name, bytes.len() as u64, &mut piece) {
            Ok(0) => return Ok(bytes),
            Ok(count) => bytes.extend_from_slice(&piece[..count])?,
            Err(HostFault::Failed) => return Err(TakeFault::Fault),
            Err(HostFault::NoMemory) => return Err(TakeFault::NoMemory),
        }
    }
    Err(TakeFault::TooLong)
}
