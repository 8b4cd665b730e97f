//! The command `net`.

ghost use Rattle.std.specs.Prelude.{IfErr, IfOk, OnOk};
ghost use Rattle.std.specs.Io.KnownBytes.{Appends};
ghost use Rattle.ring_network.specs.Network.{LeavesOff, replayed_lines};
ghost use Rattle.ring_network.specs.Replays.{IsReplayed, IsRing};

use crate::fault::NetworkFault;
use crate::replays::{Replayed, replay_ring};
use crate::ring::run_ring;
use line_protocol::write_text;
use std::alloc::Global;
use std::io::Write;
use std::rt::Clock;
use std::sync::Wait;
use std::thread::Threads;

/// What is printed, each node's history having been replayed.
const LINES: &str = "node 0 replay ok\nnode 1 replay ok\nnode 2 replay ok\n";

/// Runs three routers in a ring by `run_ring`, replays the journals that come back, and writes a line for each. A fault stands in
/// place of all lines: of several the one of the first node, and there of the first job.
pub fn net_lines<R: Threads + Wait + Clock + Sync, W: Write>(
    rt: &R,
    alloc: Global,
    writer: &mut W,
) -> Result<(), NetworkFault>
    ensures ok { OnOk result (Appends (W.contents writer.old) (W.contents writer.new) replayed_lines) }
    ensures err { IfErr result (λ fault. LeavesOff fault (W.contents writer.old) (W.contents writer.new)) }
{
    let _replayed = run_and_replay(rt, alloc)?;
    match write_text(writer, LINES.as_bytes()) {
        Ok(()) => Ok(()),
        Err(fault) => Err(NetworkFault::Stream(fault)),
    }
}

/// Runs the ring, and replays its journals.
pub fn run_and_replay<R: Threads + Wait + Clock + Sync>(
    rt: &R,
    alloc: Global,
) -> Result<Replayed, NetworkFault>
    ensures ring { IfOk result (λ r. IsRing r.ring) }
    ensures replayed { IfOk result IsReplayed }
{
    let ring = run_ring(rt, alloc)?;
    match replay_ring(alloc, ring) {
        Ok(replayed) => Ok(replayed),
        Err(error) => Err(NetworkFault::from(error)),
    }
}
