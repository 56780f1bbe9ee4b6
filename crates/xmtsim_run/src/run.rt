//! The run of an image.
ghost use Rattle.std.specs.Prelude.{◌≡◌, ◌≤◌, length};
ghost use Rattle.xmt_host.specs.Told.{OnlyPrints};
ghost use Rattle.xmt_host.specs.Host.{Rose};
ghost use Rattle.xmtsim_run.specs.Runs.{Ends};

use image_loader::Loaded;
use machine_core::run_picked;
use run_options::{SimEnd, SimOptions};
use spawn_join::Gate;
use std::alloc::Global;
use std::thread::Threads;
use threaded_runs::run_threaded;
use xmt_base::Memory;
use xmt_host::Host;

/// Runs the image on a master and control units, which are all made first. With a seed each turn is the one that the
/// generator picks. Without one each control unit of a section is a host thread, which passes the gate before each of
/// its draws.
pub fn simulate<R: Threads + Sync, H: Host, G: Gate + Sync>(
    rt: &R,
    alloc: Global,
    image: &Loaded,
    memory: Memory,
    options: &SimOptions,
    host: &mut H,
    gate: &G,
) -> SimEnd
    requires some { 1 ≤ options.now.units }
    requires few { options.now.units ≤ 64 }
    requires memory { length memory.words ≡ length image.now.words }
    ensures end { Ends image.now memory.words options.now (H.told host.old).out (H.told host.new).out result }
    ensures fault { result ≡ SimEnd.WriteFault → Rose (H.told host.old).faults (H.told host.new).faults }
    ensures only { OnlyPrints (H.told host.old) (H.told host.new) }
{
    match options.seed {
        None => run_threaded(rt, alloc, image, memory, options, host, gate),
        Some(seed) => run_picked(alloc, image, memory, options, seed, host),
    }
}
