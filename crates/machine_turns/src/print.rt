//! Printing a whole text.
ghost use Rattle.std.specs.Prelude.{◌≡◌, OnOk, OnErr};
ghost use Rattle.xmt_host.specs.Told.{OnlyPrints};
ghost use Rattle.xmt_host.specs.Host.{HasCause};
ghost use Rattle.machine_turns.specs.Prints.{Prints, PrintsPart};

use xmt_host::{Host, HostFault};

/// Prints all the bytes; what the host doesn't take goes on as a further piece.
pub(crate) fn print_all<H: Host>(host: &mut H, bytes: &[u8]) -> Result<(), HostFault>
    ensures ok { OnOk result (Prints bytes.now (H.told host.old).out (H.told host.new).out) }
    ensures part { OnErr result (PrintsPart bytes.now (H.told host.old).out (H.told host.new).out) }
    ensures cause { HasCause (H.told host.old) (H.told host.new) result }
    ensures only { OnlyPrints (H.told host.old) (H.told host.new) }
{
    let mut at = 0;
    while at < bytes.len() {
        match host.print(&bytes[at..]) {
            Ok(count) => at += count,
            Err(fault) => return Err(fault),
        }
    }
    Ok(())
}
