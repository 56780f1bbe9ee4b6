//! The host over real files and streams.
ghost use Rattle.std.specs.Prelude.{◌≡◌, ◌<◌, ◌≤◌, length, IfOk};

use crate::{Host, HostFault};
use std::io::{Read, Seek, SeekFrom};
use std::rt::Files;
use std::{fs, io};

/// The host over real files, standard output and standard error. It tells no contents, and counts
/// its faults and the bytes that it has read.
#[derive(Drop)]
pub struct RealHost<'a, R> {
    rt: &'a R,
    faults: u64,
    taken: u64,
}

impl<'a, R: Files + Print + Eprint> RealHost<'a, R> {
    /// A host over the runtime, with no fault and no byte counted.
    pub fn new(rt: &'a R) -> RealHost<'a, R>
        ensures faults { result.faults ≡ 0 }
        ensures taken { result.taken ≡ 0 }
    {
        RealHost {
            rt,
            faults: 0,
            taken: 0,
        }
    }
}

// Reads from a place of a file on.
fn read_part<R: Files>(rt: &R, name: &str, at: u64, buf: &mut [u8]) -> io::Result<usize>
    ensures { IfOk result (λ count. count ≤ length buf.new) }
{
    let mut file = fs::open(rt, name)?;
    file.seek(SeekFrom::Start(at))?;
    file.read(buf)
}

// Writes some bytes of a piece; to write none of them is a fault.
fn print_some<R: Print>(rt: &R, piece: &[u8]) -> io::Result<usize>
    ensures bound { IfOk result (λ count. count ≤ length piece.now) }
    ensures some { IfOk result (λ count. 0 < length piece.now → 0 < count) }
{
    let count = rt.write_some(piece)?;
    if count == 0 && !piece.is_empty() {
        return Err(io::Error::from(io::ErrorKind::WriteZero));
    }
    Ok(count)
}

// Writes a piece to the error stream, which takes text alone.
fn complain_all<R: Eprint>(rt: &R, piece: &[u8]) -> io::Result<usize>
    ensures { IfOk result (λ count. count ≡ length piece.now) }
{
    match std::str::from_utf8(piece) {
        Ok(text) => {
            rt.eprint(text)?;
            Ok(piece.len())
        }
        Err(_) => Err(io::Error::from(io::ErrorKind::InvalidData)),
    }
}

impl<R: Files + Print + Eprint> Host for RealHost<'_, R> {
    ghost use Rattle.std.specs.Prelude.{None, false};

    ghost told = { λ host. record { files = None; out = None; err = None; faults = host.faults; taken = host.taken; steady = false } };

    fn read_at(&mut self, name: &str, at: u64, buf: &mut [u8]) -> Result<usize, HostFault> {
        match read_part(self.rt, name, at, buf) {
            Ok(count) => {
                self.taken = self.taken.saturating_add(count as u64);
                Ok(count)
            }
            Err(_) => {
                self.faults = self.faults.saturating_add(1);
                Err(HostFault::Failed)
            }
        }
    }

    fn put(&mut self, name: &str, bytes: &[u8]) -> Result<(), HostFault> {
        match fs::write(self.rt, name, bytes) {
            Ok(()) => Ok(()),
            Err(_) => {
                self.faults = self.faults.saturating_add(1);
                Err(HostFault::Failed)
            }
        }
    }

    fn print(&mut self, piece: &[u8]) -> Result<usize, HostFault> {
        match print_some(self.rt, piece) {
            Ok(count) => Ok(count),
            Err(_) => {
                self.faults = self.faults.saturating_add(1);
                Err(HostFault::Failed)
            }
        }
    }

    fn complain(&mut self, piece: &[u8]) -> Result<usize, HostFault> {
        match complain_all(self.rt, piece) {
            Ok(count) => Ok(count),
            Err(_) => {
                self.faults = self.faults.saturating_add(1);
                Err(HostFault::Failed)
            }
        }
    }
}
