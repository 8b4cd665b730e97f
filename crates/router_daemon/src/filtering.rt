//! The sets of filters that a router begins with.
ghost use Rattle.std.specs.Prelude.{◌≡◌, IfErr, OnOk, string_bytes};
ghost use Rattle.router_operator.specs.OperatorView.{filter_of};
ghost use Rattle.slot_lock.specs.Calls.{Answered};
ghost use Rattle.slot_lock.specs.declared.answer.Answer.{Answer};
ghost use Rattle.router_daemon.specs.Passes.{IsLegalPass};
ghost use Rattle.router_daemon.specs.Running.{IsEarly};
ghost use Rattle.router_daemon.specs.Uses as spec;

use crate::fault::DaemonFault;
use crate::setting::VerifiedFilters;
use crate::signals::Signals;
use netchange_core::Event;
use operator_cmds::Direction;
use router_options::{FilterUse, RouterPlan};
use slot_lock::{Pass, Router};
use std::sync::{Arc, Wait};

/// Enters an event.
fn enter<R: Wait>(rt: &R, router: &Router, pass: &mut Pass, event: Event) -> Result<(), DaemonFault>
    requires { IsLegalPass router.now pass.old }
    ensures legal { IsLegalPass router.now pass.new }
    ensures shares { pass.new.fragment.shares ≡ pass.old.fragment.shares }
    ensures entered { OnOk result ((answer : Answer) × Answered router.now pass.old event answer pass.new) }
    ensures early { IfErr result IsEarly }
{
    match router.call(rt, pass, event) {
        Ok(_) => Ok(()),
        Err(fault) => Err(DaemonFault::Call(fault)),
    }
}

/// Sets the filter that a neighbour has in a direction, if the filter is there.
fn set_one<R: Wait>(
    rt: &R,
    router: &Router,
    pass: &mut Pass,
    direction: Direction,
    used: &FilterUse,
    filters: &VerifiedFilters,
) -> Result<(), DaemonFault>
    requires { IsLegalPass router.now pass.old }
    ensures legal { IsLegalPass router.now pass.new }
    ensures shares { pass.new.fragment.shares ≡ pass.old.fragment.shares }
    ensures set { OnOk result (spec.SetsOne router.now direction (filter_of filters.now.entries (string_bytes used.now.name)) used.now.node
        pass.old pass.new) }
    ensures early { IfErr result IsEarly }
{
    match filters.get(used.name.as_bytes()) {
        Some(filter) => {
            let event = direction.event(used.node, Arc::try_clone(filter)?);
            enter(rt, router, pass, event)
        }
        None => Ok(()),
    }
}

/// Sets the filters of a router in a direction, in order.
fn set_each<R: Wait>(
    rt: &R,
    router: &Router,
    pass: &mut Pass,
    direction: Direction,
    uses: &[FilterUse],
    filters: &VerifiedFilters,
) -> Result<(), DaemonFault>
    requires { IsLegalPass router.now pass.old }
    ensures legal { IsLegalPass router.now pass.new }
    ensures shares { pass.new.fragment.shares ≡ pass.old.fragment.shares }
    ensures set { OnOk result (spec.SetsEach router.now direction filters.now.entries uses.now pass.old pass.new) }
    ensures early { IfErr result IsEarly }
{
    for used in uses {
        set_one(rt, router, pass, direction, used, filters)?;
    }
    Ok(())
}

/// Sets the filters that a plan uses: first the import filters, then the export filters, each in the order of the plan.
pub(crate) fn set_filters<R: Wait>(
    rt: &R,
    router: &Router,
    pass: &mut Pass,
    plan: &RouterPlan,
    filters: &VerifiedFilters,
) -> Result<(), DaemonFault>
    requires { IsLegalPass router.now pass.old }
    ensures legal { IsLegalPass router.now pass.new }
    ensures shares { pass.new.fragment.shares ≡ pass.old.fragment.shares }
    ensures set { OnOk result (spec.SetsFilters router.now plan.now filters.now.entries pass.old pass.new) }
    ensures early { IfErr result IsEarly }
{
    set_each(
        rt,
        router,
        pass,
        Direction::Import,
        plan.imports.as_slice(),
        filters,
    )?;
    set_each(
        rt,
        router,
        pass,
        Direction::Export,
        plan.exports.as_slice(),
        filters,
    )
}

/// Notes the names of the filters that a router begins with, in a direction.
pub(crate) fn name_filters<R: Wait>(
    rt: &R,
    signals: &Signals,
    direction: Direction,
    uses: &[FilterUse],
    filters: &VerifiedFilters,
) {
    for used in uses {
        let name = used.name.as_str();
        if let Some(filter) = filters.get(name.as_bytes()) {
            signals.name_filter(rt, direction, used.node, name, filter);
        }
    }
}
