//! Handing a whole line to the host's error stream.
ghost use Rattle.std.specs.Prelude.{◌≡◌, ◌≤◌, OnOk, OnErr};
ghost use Rattle.xmt_host.specs.Told.{OnlyComplains};
ghost use Rattle.xmt_host.specs.Host.{HasCause};
ghost use Rattle.xmt_jobs.specs.Written.{Writes, WritesPart};

use xmt_host::{Host, HostFault};

/// Complains of all the bytes. What the host doesn't take goes on as a further piece, and no bytes
/// make no call.
pub(crate) fn complain_all<H: Host>(host: &mut H, bytes: &[u8]) -> Result<(), HostFault>
    ensures ok { OnOk result (Writes bytes.now (H.told host.old).err (H.told host.new).err) }
    ensures part { OnErr result (WritesPart bytes.now (H.told host.old).err (H.told host.new).err) }
    ensures cause { HasCause (H.told host.old) (H.told host.new) result }
    ensures only { OnlyComplains (H.told host.old) (H.told host.new) }
{
    let mut at = 0;
    while at < bytes.len() {
        match host.complain(&bytes[at..]) {
            Ok(count) => at += count,
            Err(fault) => return Err(fault),
        }
    }
    Ok(())
}
