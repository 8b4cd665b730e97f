//! When a link that was closed is opened again.
//!
//! **A link waits twice as long each time, while its sessions are short.** Each session that comes and goes is told to all neighbours, and costs
//! every router of the domain entries. A minute is what an operator who mends a link is ready to wait; after a session of a minute the link counts
//! as mended.
ghost use Rattle.std.specs.Prelude.{◌≡◌, ◌*◌, ◌≤◌, IfSome};
ghost use Rattle.std.specs.Duration.{as_nanos};
ghost use Rattle.router_daemon.specs.Retries as spec;

use std::rt::Clock;
use std::time::{Duration, Instant};

/// Seconds: a link waits no longer, unless `--retry` says so, and a session that lasts so long is a long one.
const MINUTE: u32 = 60;

/// How long to wait before something is tried again, by how long it was waited for before, if it was: so long at first, then twice as long each time,
/// up to the longest.
pub(crate) fn next_wait(first: u32, before: Option<u32>, longest: u32) -> u32
    requires { first ≤ longest }
    ensures next { result ≡ spec.next_wait first before longest }
    ensures doubles { IfSome before (λ wait. wait * 2 ≤ longest → result ≡ wait * 2) }
    ensures bounded { result ≤ longest }
{
    match before {
        Some(wait) => (u64::from(wait) * 2).min(u64::from(longest)) as u32,
        None => first,
    }
}

/// After how many seconds a link is opened again, where its last session says whether it can be: never without `--retry`.
pub(crate) fn reopening(retry: Option<u32>, again: bool, before: Option<u32>) -> Option<u32>
    ensures { result ≡ spec.reopens retry again before }
{
    match retry {
        Some(retry) if again => Some(next_wait(retry, before, retry.max(MINUTE))),
        _ => None,
    }
}

/// How long a link waited before, as it counts after a session that was long or short.
pub(crate) fn wait_before(is_long: bool, before: Option<u32>) -> Option<u32>
    ensures { result ≡ spec.wait_before is_long before }
{
    if is_long { None } else { before }
}

/// So many seconds.
pub(crate) fn seconds(count: u32) -> Duration
    ensures { as_nanos result ≡ count * 1000000000 }
{
    Duration::from_secs(u64::from(count))
}

/// Whether a session that began then, if one did, was a long one.
pub(crate) fn was_long<R: Clock>(rt: &R, begun: Option<Instant>) -> bool {
    let Some(begun) = begun else {
        return false;
    };
    match begun.elapsed(rt) {
        Ok(lasted) => lasted.as_secs() >= u64::from(MINUTE),
        Err(_) => false,
    }
}
