//! Putting the dump of a run.
ghost use Rattle.std.specs.Prelude.{OnOk, OnErr, length, string_bytes};
ghost use Rattle.std.specs.Option.{option_map};
ghost use Rattle.xmt_host.specs.Told.{OnlyPuts};
ghost use Rattle.xmt_host.specs.Host.{HasCause};
ghost use Rattle.xmt_isa.specs.Symbols.{AreSymbols};
ghost use Rattle.memory_map.specs.DumpText.{dump_text};
ghost use Rattle.xmt_jobs.specs.Files.{MayPut, MayPutPart};

use memory_map::write_map;
use std::alloc::Global;
use xmt_base::{Memory, Symbol};
use xmt_host::{Host, HostFault};

/// Puts the dump of a memory into a file, where one is named.
pub(crate) fn put_dump<H: Host>(
    alloc: Global,
    symbols: &[Symbol],
    memory: &Memory,
    dump: &Option<String>,
    host: &mut H,
) -> Result<(), HostFault>
    requires symbols { AreSymbols symbols.now (length memory.now.words) }
    ensures ok { OnOk result (MayPut (option_map string_bytes dump.now) (dump_text symbols.now memory.now.words) (H.told host.old).files (H.told host.new).files) }
    ensures part { OnErr result (MayPutPart (option_map string_bytes dump.now) (dump_text symbols.now memory.now.words) (H.told host.old).files (H.told host.new).files) }
    ensures cause { HasCause (H.told host.old) (H.told host.new) result }
    ensures only { OnlyPuts (H.told host.old) (H.told host.new) }
{
    match dump {
        None => Ok(()),
        Some(name) => {
            let text = write_map(alloc, memory, symbols)?;
            host.put(name.as_str(), text.as_slice())
        }
    }
}
