//! When a router has come to rest for the first time.

use crate::shared::Shared;
use crate::signals::Closing;
use router_operator::Naming;
use std::io::Write;
use std::rt::Clock;
use std::sync::Wait;
use std::thread;
use std::time::Duration;

/// For how many tenths of a second nothing is entered by a router at rest.
const QUIET: u32 = 3;

/// Waits until the router has come to rest for the first time: each link has come up, or failed and is not opened again, and nothing was entered for
/// a while. A link that is opened again often fails at first, where its neighbour has not noticed yet that its old session is over. It waits no longer
/// than so many seconds. That the router is being closed, if it is.
pub(crate) fn await_rest<R: Wait + Clock, J: Naming, E: Write>(
    rt: &R,
    shared: &Shared<J, E>,
    most: u32,
) -> Option<Closing> {
    let (mut before, mut quiet) = (0u64, 0u32);
    for _ in 0..u64::from(most) * 10 {
        thread::sleep(rt, Duration::from_millis(100));
        if let Some(closing) = shared.signals.closing(rt) {
            return Some(closing);
        }
        let (entries, are_there) = shared.signals.news.look(rt);
        quiet = if are_there && entries == before {
            quiet.saturating_add(1)
        } else {
            0
        };
        before = entries;
        if quiet >= QUIET {
            return None;
        }
    }
    None
}
