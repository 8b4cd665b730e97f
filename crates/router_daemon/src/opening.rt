//! A router is opened.
ghost use Rattle.std.specs.Prelude.{◌≡◌, [], true, IfErr, IfOk};
ghost use Rattle.router_daemon.specs.Passes.{IsLegalPass};
ghost use Rattle.router_daemon.specs.Running.{IsEarly};
ghost use Rattle.router_daemon.specs.Uses.{BeginsWithFilters};
ghost use Rattle.slot_lock.specs.Passes.{IsNew};

use crate::fault::DaemonFault;
use crate::filtering::set_filters;
use crate::setting::VerifiedFilters;
use route_history::Journal;
use router_options::RouterPlan;
use slot_lock::{Pass, Right, Router};
use std::alloc::{AllocError, Global};
use std::sync::Wait;

/// A router that was opened: it, its first pass, and the right to forget.
pub(crate) type Opened = (Router, Pass, Right);

/// The journal of a plan, without entries.
fn open_journal(alloc: Global, plan: &RouterPlan) -> Result<Journal, AllocError>
    ensures { IfOk result (λ j. j ≡ record { opening = plan.now.opening; limit = plan.now.limit; entries = [] }) }
{
    Journal::open(alloc, plan.opening.copy(alloc)?, plan.limit)
}

/// The router of a plan, with an empty history.
fn open_empty(alloc: Global, plan: &RouterPlan) -> Result<Opened, DaemonFault>
    ensures router { IfOk result (λ r. (r.0.opening ≡ plan.now.opening) × (r.0.limit ≡ plan.now.limit)) }
    ensures kind { IfOk result (λ r. r.0.endless ≡ true) }
    ensures pass { IfOk result (λ r. IsNew r.0 65535 r.1) }
    ensures right { IfOk result (λ r. IsNew r.0 1 r.2) }
    ensures early { IfErr result IsEarly }
{
    let journal = open_journal(alloc, plan)?;
    match Router::open_endless(alloc, journal) {
        Ok(opened) => Ok(opened),
        Err(fault) => Err(DaemonFault::Lock(fault)),
    }
}

/// The router of a plan, whose filters are set.
pub(crate) fn open_router<R: Wait>(
    rt: &R,
    alloc: Global,
    plan: &RouterPlan,
    filters: &VerifiedFilters,
) -> Result<Opened, DaemonFault>
    ensures router { IfOk result (λ r. (r.0.opening ≡ plan.now.opening) × (r.0.limit ≡ plan.now.limit)) }
    ensures kind { IfOk result (λ r. r.0.endless ≡ true) }
    ensures pass { IfOk result (λ r. IsLegalPass r.0 r.1) }
    ensures right { IfOk result (λ r. IsNew r.0 1 r.2) }
    ensures set { IfOk result (λ r. BeginsWithFilters r.0 plan.now filters.now.entries r.1) }
    ensures early { IfErr result IsEarly }
{
    let (router, mut pass, right) = open_empty(alloc, plan)?;
    set_filters(rt, &router, &mut pass, plan, filters)?;
    Ok((router, pass, right))
}
