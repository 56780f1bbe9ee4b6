//! What the toolchain reaches outside itself: files by name, standard output and standard error.
ghost use Rattle.std.specs.Prelude.{◌≡◌};
ghost use Rattle.xmt_host.specs.declared.host.HostFault.TheVariants.{NoMemory};
ghost use Rattle.xmt_host.specs.Told.{Told, MeetsNoFault, OnlyReads, OnlyPuts, OnlyPrints, OnlyComplains};
ghost use Rattle.xmt_host.specs.Host.{HasCause, HasFile, Reads, RisesBy, Puts, Appends};

use std::alloc::AllocError;

/// Why a call of a host was refused.
#[derive(Clone, Copy, Debug, PartialEq, Eq)]
pub enum HostFault {
    /// The outside failed, which the host counts.
    Failed,
    /// Want of memory, and nothing else.
    NoMemory,
}

impl From<AllocError> for HostFault {
    ghost from_gives = { λ _ fault. fault ≡ NoMemory };

    fn from(_: AllocError) -> Self {
        HostFault::NoMemory
    }
}

/// Files by name, an output and an error stream. What a call does not name is left as it is.
pub trait Host {
    /// What the host tells: what each file holds, what was printed and what was complained so far;
    /// how often a call has failed, which never falls, and how many bytes `read_at` has answered,
    /// both of which stay at the greatest u64; and whether it is steady.
    ghost told: { Self → Told };

    /// Puts bytes of the named file, from place `at` on, into the front of `buf`, and answers how many.
    fn read_at(&mut self, name: &str, at: u64, buf: &mut [u8]) -> Result<usize, HostFault>
        ensures bytes { Reads (told self.old).files name.now at result buf.new }
        ensures taken { RisesBy result (told self.old).taken (told self.new).taken }
        ensures cause { HasCause (told self.old) (told self.new) result }
        ensures no_fault { MeetsNoFault (told self.old) (told self.new) (λ files. HasFile files name.now) }
        ensures only { OnlyReads (told self.old) (told self.new) };

    /// Makes the named file equal to `bytes`. After a refusal the file is as before or holds a prefix of `bytes`.
    fn put(&mut self, name: &str, bytes: &[u8]) -> Result<(), HostFault>
        ensures bytes { Puts name.now bytes.now result (told self.old).files (told self.new).files }
        ensures cause { HasCause (told self.old) (told self.new) result }
        ensures only { OnlyPuts (told self.old) (told self.new) };

    /// Appends the first bytes of the piece to the output, and answers how many.
    fn print(&mut self, piece: &[u8]) -> Result<usize, HostFault>
        ensures bytes { Appends piece.now result (told self.old).out (told self.new).out }
        ensures cause { HasCause (told self.old) (told self.new) result }
        ensures only { OnlyPrints (told self.old) (told self.new) };

    /// Appends the first bytes of the piece to the error stream, and answers how many.
    fn complain(&mut self, piece: &[u8]) -> Result<usize, HostFault>
        ensures bytes { Appends piece.now result (told self.old).err (told self.new).err }
        ensures cause { HasCause (told self.old) (told self.new) result }
        ensures only { OnlyComplains (told self.old) (told self.new) };
}
