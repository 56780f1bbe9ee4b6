//! A host in memory, whose calls fail where they are told to.
ghost use Rattle.std.specs.Prelude.{◌≡◌, ◌≤◌, [], length, replicate, OnOk, OnErr, IfSome, IfNone, IsSomeAnd};
ghost use Rattle.std.specs.BTreeMap.{IsUnchanged};
ghost use Rattle.xmt_host.specs.FileMaps.{file_map};
ghost use Rattle.xmt_host.specs.Host.{ReadsPart, Holds};

use crate::{Host, HostFault};
use std::alloc::{AllocError, Global};
use std::collections::BTreeMap;

/// A kind of call of a host.
#[derive(Clone, Copy, Debug, PartialEq, Eq)]
pub enum HostCall {
    Read,
    Put,
    Print,
    Complain,
}

impl HostCall {
    ghost use Rattle.xmt_host.specs.HostCalls.{place_of};

    // Its place among the counts.
    fn place(self) -> usize
        ensures { result ≡ place_of self }
    {
        match self {
            HostCall::Read => 0,
            HostCall::Put => 1,
            HostCall::Print => 2,
            HostCall::Complain => 3,
        }
    }
}

/// A host in memory: its files, its streams, and which of its calls fail.
#[derive(Drop)]
pub struct MemoryHost {
    pub files: BTreeMap<String, Vec<u8>>,
    pub out: Vec<u8>,
    pub err: Vec<u8>,
    pub faults: u64,
    pub taken: u64,
    /// The calls that fail: of each kind, those with these numbers, from 0.
    pub failing: Vec<(HostCall, u64)>,
    /// How many calls of each kind there were.
    pub calls: [u64; 4],
}

impl MemoryHost {
    ghost use Rattle.xmt_host.specs.MemoryHost.{Counts};

    /// A host with no files and empty streams.
    pub fn new(alloc: Global, failing: Vec<(HostCall, u64)>) -> MemoryHost
        ensures files { result.files.entries ≡ [] }
        ensures out { result.out.items ≡ [] }
        ensures err { result.err.items ≡ [] }
        ensures faults { result.faults ≡ 0 }
        ensures taken { result.taken ≡ 0 }
        ensures failing { result.failing ≡ failing }
        ensures calls { result.calls ≡ replicate 4 0 }
    {
        MemoryHost {
            files: BTreeMap::new(alloc),
            out: Vec::new(alloc),
            err: Vec::new(alloc),
            faults: 0,
            taken: 0,
            failing,
            calls: [0; 4],
        }
    }

    /// Makes the named file equal to the bytes, and changes nothing where there is no memory.
    pub fn with_file(&mut self, name: &str, bytes: Vec<u8>) -> Result<(), AllocError>
        ensures ok { OnOk result (Holds name.now bytes.items (file_map self.old.files) (file_map self.new.files)) }
        ensures err { OnErr result (IsUnchanged self.old.files self.new.files) }
        ensures others { self.new ≡ record self.old { files = self.new.files } }
    {
        store(&mut self.files, name, bytes)
    }

    // Counts a call of this kind, and a fault where it is to fail.
    fn fails(&mut self, call: HostCall) -> bool
        ensures { Counts call result self.old self.new }
    {
        let place = call.place();
        let number = self.calls[place];
        self.calls[place] = number.saturating_add(1);
        let listed = self.failing.contains(&(call, number));
        if listed {
            self.faults = self.faults.saturating_add(1);
        }
        listed
    }
}

// Copies bytes from a place on, as many as there are and fit, and answers how many.
fn copy_from(bytes: &[u8], at: u64, buf: &mut [u8]) -> usize
    ensures bound { result ≤ length buf.new }
    ensures part { ReadsPart bytes.now at result buf.new }
{
    if at >= bytes.len() as u64 {
        return 0;
    }
    let rest = &bytes[at as usize..];
    let count = rest.len().min(buf.len());
    buf[..count].copy_from_slice(&rest[..count]);
    count
}

// Copies bytes of the named file, where it is there.
fn copy_from_file(
    files: &BTreeMap<String, Vec<u8>>,
    name: &str,
    at: u64,
    buf: &mut [u8],
) -> Option<usize>
    ensures bound { IfSome result (λ count. count ≤ length buf.new) }
    ensures absent { IfNone result (file_map files.now name.now ≡ None) }
    ensures found { IfSome result (λ count. IsSomeAnd (file_map files.now name.now) (λ file. ReadsPart file at count buf.new)) }
{
    match files.get(name) {
        None => None,
        Some(bytes) => Some(copy_from(bytes, at, buf)),
    }
}

// Makes the named file equal to the bytes.
fn store(
    files: &mut BTreeMap<String, Vec<u8>>,
    name: &str,
    bytes: Vec<u8>,
) -> Result<(), AllocError>
    ensures ok { OnOk result (Holds name.now bytes.items (file_map files.old) (file_map files.new)) }
    ensures err { OnErr result (IsUnchanged files.old files.new) }
{
    let alloc = *bytes.allocator();
    let key = String::from_str(alloc, name)?;
    files.insert(key, bytes)?;
    Ok(())
}

impl Host for MemoryHost {
    ghost use Rattle.std.specs.Prelude.{◌≡◌, IfOk, length};
    ghost use Rattle.xmt_host.specs.declared.memory_host.HostCall.TheVariants.{Read, Put, Print, Complain};
    ghost use Rattle.xmt_host.specs.Told.{MeetsNoFault, OnlyReads, OnlyPuts, OnlyPrints, OnlyComplains};
    ghost use Rattle.xmt_host.specs.Host.{HasCause, HasFile, Reads, RisesBy, Puts, Appends};
    ghost use Rattle.xmt_host.specs.MemoryHost.{IsCall, told};

    ghost told = { told };

    fn read_at(&mut self, name: &str, at: u64, buf: &mut [u8]) -> Result<usize, HostFault>
        ensures call { IsCall Read result self.old self.new }
        ensures bytes { Reads (told self.old).files name.now at result buf.new }
        ensures taken { RisesBy result self.old.taken self.new.taken }
        ensures cause { HasCause (told self.old) (told self.new) result }
        ensures no_fault { MeetsNoFault (told self.old) (told self.new) (λ files. HasFile files name.now) }
        ensures only { OnlyReads (told self.old) (told self.new) }
    {
        if self.fails(HostCall::Read) {
            return Err(HostFault::Failed);
        }
        match copy_from_file(&self.files, name, at, buf) {
            None => {
                self.faults = self.faults.saturating_add(1);
                Err(HostFault::Failed)
            }
            Some(count) => {
                self.taken = self.taken.saturating_add(count as u64);
                Ok(count)
            }
        }
    }

    fn put(&mut self, name: &str, bytes: &[u8]) -> Result<(), HostFault>
        ensures call { IsCall Put result self.old self.new }
        ensures bytes { Puts name.now bytes.now result (told self.old).files (told self.new).files }
        ensures cause { HasCause (told self.old) (told self.new) result }
        ensures only { OnlyPuts (told self.old) (told self.new) }
    {
        if self.fails(HostCall::Put) {
            return Err(HostFault::Failed);
        }
        let alloc = *self.out.allocator();
        let copy = Vec::from_slice(alloc, bytes)?;
        store(&mut self.files, name, copy)?;
        Ok(())
    }

    fn print(&mut self, piece: &[u8]) -> Result<usize, HostFault>
        ensures call { IsCall Print result self.old self.new }
        ensures bytes { Appends piece.now result (told self.old).out (told self.new).out }
        ensures whole { IfOk result (λ n. n ≡ length piece.now) }
        ensures cause { HasCause (told self.old) (told self.new) result }
        ensures only { OnlyPrints (told self.old) (told self.new) }
    {
        if self.fails(HostCall::Print) {
            return Err(HostFault::Failed);
        }
        self.out.extend_from_slice(piece)?;
        Ok(piece.len())
    }

    fn complain(&mut self, piece: &[u8]) -> Result<usize, HostFault>
        ensures call { IsCall Complain result self.old self.new }
        ensures bytes { Appends piece.now result (told self.old).err (told self.new).err }
        ensures whole { IfOk result (λ n. n ≡ length piece.now) }
        ensures cause { HasCause (told self.old) (told self.new) result }
        ensures only { OnlyComplains (told self.old) (told self.new) }
    {
        if self.fails(HostCall::Complain) {
            return Err(HostFault::Failed);
        }
        self.err.extend_from_slice(piece)?;
        Ok(piece.len())
    }
}
