//! The master and the control units: what a unit keeps, and what it asks for.
ghost use Rattle.std.specs.Prelude.{◌≡◌, ◌+◌, ◌*◌, ◌^◌, ◌≤◌, length, take, drop, true, IfOk};
ghost use Rattle.xmt_base.specs.Operators.{count_between};
ghost use Rattle.xmt_isa.specs.declared.image.Image.{Image};
ghost use Rattle.xmt_isa.specs.declared.unit.UnitState.TheVariants.{Stopped};
ghost use Rattle.xmt_isa.specs.Opening.{new_unit, zeros_of};
ghost use Rattle.xmt_isa.specs.Machine.{broadcast, masked, ready};
ghost use Rattle.xmt_isa.specs.Regions.{IsSpawn};
ghost use Rattle.xmt_isa.specs.Threads.{HasRoom};
ghost use Rattle.xmt_isa.specs.Fits.{UnitFits, StartFits};

use sqlite_items::Items;
use std::alloc::{AllocError, Global};
use xmt_base::TrapKind;

// How many return positions a unit has.
const DEPTHS: usize = 256;

// How many slots a frame has, and how many all frames of a unit have.
const FRAME: usize = 512;

const SLOTS: usize = 257 * FRAME;

/// What a unit is at.
#[derive(Clone, Copy, Debug, PartialEq, Eq)]
pub enum UnitState {
    /// Due to draw a number; of the master, due to begin.
    Draws,
    Runs,
    /// A control unit that drew a number past the count.
    Stopped,
    /// The master behind the end of the main function.
    Halted,
}

/// What a unit has done since it was made.
#[derive(Clone, Copy, Debug, PartialEq, Eq)]
pub struct Counts {
    pub steps: u64,
    pub loads: u64,
    pub stores: u64,
    pub adds: u64,
    pub threads: u64,
}

/// The master, which is number 0, or a control unit, counted from 1. What each step looks at stands
/// first.
#[derive(Debug, Drop)]
pub struct Unit {
    pub state: UnitState,
    /// What it asked for hasn't been answered yet.
    pub waits: bool,
    /// The next instruction.
    pub at: u32,
    /// How many calls it is in, at most 256.
    pub depth: u32,
    pub regs: [u32; 32],
    /// The frames of all depths, 257 times 512 slots.
    pub frames: Items<u32>,
    /// Where calls go on when they return: 256 places, of which the first `depth` are used.
    pub back: Items<u32>,
    pub number: u32,
    /// The number of the virtual thread that it runs.
    pub thread: Option<u32>,
    /// The argument list.
    pub list: [u32; 16],
    pub counts: Counts,
}

impl Unit {
    /// A new unit, with all its frames. Number 0 is the master, which is due to begin; any other is
    /// a control unit, which is due to draw.
    pub fn new(alloc: Global, number: u32) -> Result<Unit, AllocError>
        ensures value { IfOk result (λ unit. unit ≡ new_unit number) }
        ensures room { IfOk result HasRoom }
        ensures fits { IfOk result (λ unit. (image : Image) (start : Start) → UnitFits image start unit) }
    {
        Ok(Unit {
            state: UnitState::Draws,
            waits: false,
            at: 0,
            depth: 0,
            regs: [0; 32],
            frames: zeros(alloc, SLOTS)?,
            back: zeros(alloc, DEPTHS)?,
            number,
            thread: None,
            list: [0; 16],
            counts: Counts {
                steps: 0,
                loads: 0,
                stores: 0,
                adds: 0,
                threads: 0,
            },
        })
    }

    /// Its number: 0 for the master, 1 and up for control units.
    pub fn number(&self) -> u32
        ensures { result ≡ self.now.number }
    {
        self.number
    }

    /// How many steps it has done: instructions and draws.
    pub fn steps(&self) -> u64
        ensures { result ≡ self.now.counts.steps }
    {
        self.counts.steps
    }

    /// Its argument list.
    pub fn args(&self) -> &[u32]
        ensures { result.now ≡ self.now.list }
    {
        &self.list
    }

    /// The number of the virtual thread that it runs, if it runs one.
    pub fn thread(&self) -> Option<u32>
        ensures { result ≡ self.now.thread }
    {
        self.thread
    }

    /// What it has done since it was made.
    pub fn counts(&self) -> Counts
        ensures { result ≡ self.now.counts }
    {
        self.counts
    }

    /// Makes a control unit that has stopped due to draw.
    pub fn ready(&mut self)
        requires { self.old.state ≡ Stopped }
        ensures { self.new ≡ ready self.old }
    {
        self.state = UnitState::Draws;
    }

    /// What the master, which waits at this spawn, broadcasts.
    pub fn start(&self, alloc: Global, ask: &SpawnAsk) -> Result<Start, AllocError>
        requires master { self.now.number ≡ 0 }
        requires waits { self.now.waits ≡ true }
        requires spawn { ask.now.at ≡ self.now.at + 1 }
        requires depth { self.now.depth ≤ 256 }
        requires frames { length self.now.frames ≡ 131584 }
        ensures value { IfOk result (λ start. start ≡ broadcast self.now ask.now) }
        ensures fits { IfOk result (λ start. (image : Image) (before : Start) → UnitFits image before self.now → IsSpawn image self.now.at → StartFits image start) }
    {
        let frame = frame_at(self.frames.as_slice(), self.depth);
        Ok(Start {
            at: ask.at,
            low: ask.low,
            count: count_between(ask.low, ask.high),
            depth: self.depth,
            regs: masked(ask.mask, &self.regs),
            frame: Items::from_slice(alloc, frame)?,
        })
    }
}

fn zeros(alloc: Global, n: usize) -> Result<Items<u32>, AllocError>
    ensures { IfOk result (λ zeros. zeros ≡ zeros_of n) }
{
    Ok(Items::from_vec(vec![in alloc; 0; n]?))
}

// The frame of a depth.
fn frame_at(frames: &[u32], depth: u32) -> &[u32]
    requires deep { depth ≤ 256 }
    requires whole { length frames.now ≡ 131584 }
    ensures { result.now ≡ take 512 (drop (512 * depth) frames.now) }
{
    let from = FRAME * depth as usize;
    &frames[from..from + FRAME]
}

// How many numbers there are from low to high, both included and both read as signed.
fn count_between(low: u32, high: u32) -> u64
    ensures { result ≡ count_between low high }
{
    if high.cast_signed() < low.cast_signed() {
        0
    } else {
        high.wrapping_sub(low) as u64 + 1
    }
}

// Clears the registers whose bit isn't set.
fn mask_out(mask: u32, regs: &mut [u32])
    ensures { regs.new ≡ masked mask regs.old }
{
    if let Some((first, others)) = regs.split_first_mut() {
        if mask % 2 != 1 {
            *first = 0;
        }
        mask_out(mask / 2, others);
    }
}

// The registers, with 0 in place of those whose bit isn't set.
fn masked(mask: u32, regs: &[u32; 32]) -> [u32; 32]
    ensures { result ≡ masked mask regs.now }
{
    let mut kept = [0; 32];
    kept.copy_from_slice(regs);
    mask_out(mask, &mut kept);
    kept
}

/// What a spawn broadcasts.
#[derive(Debug, Drop)]
pub struct Start {
    /// The block's first instruction.
    pub at: u32,
    /// The first number.
    pub low: u32,
    /// How many numbers there are.
    pub count: u64,
    /// The master's depth.
    pub depth: u32,
    /// The master's registers, those outside the mask being 0.
    pub regs: [u32; 32],
    /// The master's frame.
    pub frame: Items<u32>,
}

/// What the master asks for at a spawn.
#[derive(Clone, Copy, Debug, PartialEq, Eq)]
pub struct SpawnAsk {
    /// The block's first instruction.
    pub at: u32,
    pub low: u32,
    pub high: u32,
    /// The registers that are broadcast.
    pub mask: u32,
}

/// A shared action that a unit asks for. A place is that of a word in the machine's table.
#[derive(Clone, Copy, Debug, PartialEq, Eq)]
pub enum Request {
    Load(u64),
    Store(u64, u32),
    /// Adds to a word, and asks for what it held.
    Add(u64, u32),
    /// The next number of a thread.
    Draw,
    /// The print of the text with this number.
    Print(u32),
    Spawn(SpawnAsk),
}

/// What a unit does next.
#[derive(Clone, Copy, Debug, PartialEq, Eq)]
pub enum Next {
    /// An instruction that touches the unit alone.
    Local,
    Trap(TrapKind),
    Ask(Request),
}
