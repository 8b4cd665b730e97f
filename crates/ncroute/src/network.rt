//! The command `net`: from the words to an exit status.
ghost use Rattle.std.specs.Prelude.{◌≡◌, IfErr, IfOk};
ghost use Rattle.ncroute.specs.Networking.{FailsToReportNetwork, ServesNetwork, network_line};

use filter_reports::{FAILED, ProgramFault};
use line_protocol::{StreamFault, write_text};
use program_console::{Console, Program, fault_line};
use ring_network::{NetworkFault, net_lines};
use route_history::CallFault;
use route_session::RunFault;
use slot_lock::LockFault;
use std::alloc::Global;
use std::io::{Read, Write};
use std::rt::Clock;
use std::sync::Wait;
use std::thread::Threads;

/// The line that tells of a fault.
fn network_line(fault: NetworkFault) -> &'static str
    ensures { result.now ≡ network_line fault }
{
    match fault {
        NetworkFault::Stream(fault) => fault_line(Program::Ncroute, ProgramFault::Stream(fault)),
        NetworkFault::Call(CallFault::Full) => "ncroute: J1\n",
        NetworkFault::Call(CallFault::Memory) => "ncroute: J2\n",
        NetworkFault::Lock(LockFault::Held) => "ncroute: L2\n",
        NetworkFault::Lock(LockFault::Memory) => "ncroute: L3\n",
        NetworkFault::Run(RunFault::Memory) => "ncroute: X1\n",
        NetworkFault::Run(RunFault::NotStarted) => "ncroute: X2\n",
    }
}

/// Runs the network, and returns the exit status: 0, or 1 where a fault ended it, which is told. The error is that of standard error, which
/// did not take the whole line.
pub(crate) fn serve_network<R: Threads + Wait + Clock + Sync, I: Read, W: Write, E: Write>(
    rt: &R,
    alloc: Global,
    console: &mut Console<I, W, E>,
) -> Result<u8, StreamFault>
    ensures served { IfOk result (ServesNetwork console.old console.new) }
    ensures not_reported { IfErr result (λ cut. (cut ≡ StreamFault.Write) × FailsToReportNetwork console.old console.new) }
{
    match net_lines(rt, alloc, &mut console.writer) {
        Ok(()) => Ok(0),
        Err(fault) => match write_text(&mut console.errors, network_line(fault).as_bytes()) {
            Ok(()) => Ok(FAILED),
            Err(fault) => Err(fault),
        },
    }
}
