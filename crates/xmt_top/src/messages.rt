//! The lines for the error stream.
ghost use Rattle.std.specs.Prelude.{◌≡◌, ◌++◌, IfOk, codes, string_bytes};
ghost use Rattle.std.specs.Fmt.{decimal, signed_decimal};
ghost use Rattle.xmt_base.specs.Operators.{signed};
ghost use Rattle.xmt_top.specs.Messages.{bytes_line, kind_name, limit_name, load_name, map_text, rule_name, refusal_line, spent_line, trap_line};

use image_loader::LoadKind;
use memory_map::MapRefusal;
use std::alloc::{AllocError, Global};
use xmt_base::{Place, Trap, TrapKind};
use xmt_compile::{SourceKind, Which};
use xmt_jobs::BytesFault;

/// The line for words that are no job.
pub(crate) const NO_JOB: &[u8] =
    b"xmt: words are no command; commands are cc, sim, run, asm, dis, ref, gen\n";

/// The line for a fault of the host.
pub(crate) const HOST_FAULT: &[u8] = b"xmt: host fault\n";

/// The line for want of memory.
pub(crate) const NO_MEMORY: &[u8] = b"xmt: out of memory\n";

fn limit_name(limit: Which) -> &'static str
    ensures { result.now ≡ limit_name limit }
{
    match limit {
        Which::Variables => "TooMany Variables",
        Which::Parameters => "TooMany Parameters",
        Which::Globals => "TooMany Globals",
        Which::Functions => "TooMany Functions",
        Which::Registers => "TooMany Registers",
        Which::PrintValues => "TooMany PrintValues",
        Which::Waiting => "TooMany Waiting",
        Which::Nodes => "TooMany Nodes",
    }
}

fn rule_name(kind: SourceKind) -> &'static str
    ensures { result.now ≡ rule_name kind }
{
    match kind {
        SourceKind::TooLong => "TooLong",
        SourceKind::BadByte => "BadByte",
        SourceKind::BadNumber => "BadNumber",
        SourceKind::OpenComment => "OpenComment",
        SourceKind::OpenText => "OpenText",
        SourceKind::BadEscape => "BadEscape",
        SourceKind::HashLine => "HashLine",
        SourceKind::TooDeep => "TooDeep",
        SourceKind::Syntax => "Syntax",
        SourceKind::Unknown => "Unknown",
        SourceKind::Double => "Double",
        SourceKind::NotScalar => "NotScalar",
        SourceKind::NotArray => "NotArray",
        SourceKind::NotFunction => "NotFunction",
        SourceKind::NotRegister => "NotRegister",
        SourceKind::WrongCount => "WrongCount",
        SourceKind::BadFormat => "BadFormat",
        SourceKind::VoidValue => "VoidValue",
        SourceKind::ConstWrite => "ConstWrite",
        SourceKind::NotConstant => "NotConstant",
        SourceKind::BadLength => "BadLength",
        SourceKind::TooMany(limit) => limit_name(limit),
        SourceKind::NoMain => "NoMain",
        SourceKind::DollarOutside => "DollarOutside",
        SourceKind::ReturnInside => "ReturnInside",
        SourceKind::JumpOut => "JumpOut",
        SourceKind::Nested => "Nested",
        SourceKind::PrintInside => "PrintInside",
        SourceKind::CallReachesSpawn => "CallReachesSpawn",
        SourceKind::TooMuchMemory => "TooMuchMemory",
    }
}

// The line for a file in which the rule of this name is broken.
fn broken_rule(
    alloc: Global,
    file: &str,
    line: u32,
    column: u32,
    name: &str,
) -> Result<String, AllocError>
    ensures { IfOk result (λ text. string_bytes text ≡ codes "xmt: " ++ file.now ++ codes ":" ++ decimal line ++ codes ":" ++ decimal column ++ codes ": " ++ name.now ++ codes "\n") }
{
    format!(in alloc; "xmt: {file}:{line}:{column}: {name}\n")
}

/// The line for a source that breaks a rule at a place.
pub(crate) fn refusal_line(
    alloc: Global,
    file: &str,
    kind: SourceKind,
    place: Place,
) -> Result<String, AllocError>
    ensures { IfOk result (λ line. string_bytes line ≡ refusal_line file.now kind place) }
{
    let Place { line, column } = place;
    broken_rule(alloc, file, line, column, rule_name(kind))
}

fn kind_name(kind: TrapKind) -> &'static str
    ensures { result.now ≡ kind_name kind }
{
    match kind {
        TrapKind::DivideByZero => "DivideByZero",
        TrapKind::Index => "Index",
        TrapKind::PsIncrement => "PsIncrement",
        TrapKind::CallDepth => "CallDepth",
        TrapKind::Address => "Address",
    }
}

// The line for a trap of serial code.
fn serial_trap(alloc: Global, kind: &str, line: u32) -> Result<String, AllocError>
    ensures { IfOk result (λ text. string_bytes text ≡ codes "xmt: trap " ++ kind.now ++ codes " line " ++ decimal line ++ codes " serial\n") }
{
    format!(in alloc; "xmt: trap {kind} line {line} serial\n")
}

// The line for a trap of the virtual thread with a number.
fn thread_trap(alloc: Global, kind: &str, line: u32, number: &str) -> Result<String, AllocError>
    ensures { IfOk result (λ text. string_bytes text ≡ codes "xmt: trap " ++ kind.now ++ codes " line " ++ decimal line ++ codes " thread " ++ number.now ++ codes "\n") }
{
    format!(in alloc; "xmt: trap {kind} line {line} thread {number}\n")
}

// A number, read as signed.
fn signed_text(alloc: Global, number: u32) -> Result<String, AllocError>
    ensures { IfOk result (λ text. string_bytes text ≡ signed_decimal (signed number)) }
{
    let number = number.cast_signed();
    format!(in alloc; "{number}")
}

/// The line for a trap.
pub(crate) fn trap_line(alloc: Global, trap: Trap) -> Result<String, AllocError>
    ensures { IfOk result (λ line. string_bytes line ≡ trap_line trap) }
{
    let Trap { kind, line, thread } = trap;
    match thread {
        None => serial_trap(alloc, kind_name(kind), line),
        Some(number) => {
            let number = signed_text(alloc, number)?;
            thread_trap(alloc, kind_name(kind), line, number.as_str())
        }
    }
}

/// The line for a unit that has spent its budget.
pub(crate) fn spent_line(alloc: Global, unit: u32, steps: u64) -> Result<String, AllocError>
    ensures { IfOk result (λ line. string_bytes line ≡ spent_line unit steps) }
{
    format!(in alloc; "xmt: budget spent by unit {unit} after {steps} steps\n")
}

fn load_name(kind: LoadKind) -> &'static str
    ensures { result.now ≡ load_name kind }
{
    match kind {
        LoadKind::Short => "Short",
        LoadKind::BadMark => "BadMark",
        LoadKind::BadVersion => "BadVersion",
        LoadKind::Extra => "Extra",
        LoadKind::BadSize => "BadSize",
        LoadKind::BadOpcode => "BadOpcode",
        LoadKind::BadRegister => "BadRegister",
        LoadKind::BadTarget => "BadTarget",
        LoadKind::BadRegion => "BadRegion",
        LoadKind::BadText => "BadText",
        LoadKind::BadSymbol => "BadSymbol",
    }
}

// The name of a fault, and its line.
fn on_line(alloc: Global, name: &str, line: u32) -> Result<String, AllocError>
    ensures { IfOk result (λ text. string_bytes text ≡ name.now ++ codes " line " ++ decimal line) }
{
    format!(in alloc; "{name} line {line}")
}

// What is wrong with a map.
fn map_text(alloc: Global, refusal: MapRefusal) -> Result<String, AllocError>
    ensures { IfOk result (λ text. string_bytes text ≡ map_text refusal) }
{
    match refusal {
        MapRefusal::BadLine(line) => on_line(alloc, "BadLine", line),
        MapRefusal::UnknownName(line) => on_line(alloc, "UnknownName", line),
        MapRefusal::DoubleName(line) => on_line(alloc, "DoubleName", line),
        MapRefusal::TooManyValues(line) => on_line(alloc, "TooManyValues", line),
        MapRefusal::BadNumber(line) => on_line(alloc, "BadNumber", line),
        MapRefusal::NoMemory => format!(in alloc; "NoMemory"),
    }
}

// The line for a file with which this is wrong.
fn faulty_file(alloc: Global, file: &str, fault: &str) -> Result<String, AllocError>
    ensures { IfOk result (λ text. string_bytes text ≡ codes "xmt: " ++ file.now ++ codes ": " ++ fault.now ++ codes "\n") }
{
    format!(in alloc; "xmt: {file}: {fault}\n")
}

/// The line for a file that holds no image or no map.
pub(crate) fn bytes_line(alloc: Global, file: &str, fault: BytesFault) -> Result<String, AllocError>
    ensures { IfOk result (λ line. string_bytes line ≡ bytes_line file.now fault) }
{
    match fault {
        BytesFault::TooLong => faulty_file(alloc, file, "TooLong"),
        BytesFault::BadImage(kind) => faulty_file(alloc, file, load_name(kind)),
        BytesFault::BadMap(refusal) => {
            let fault = map_text(alloc, refusal)?;
            faulty_file(alloc, file, fault.as_str())
        }
    }
}
