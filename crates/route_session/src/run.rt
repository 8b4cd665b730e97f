//! Many sessions at the same time.
//!
//! **Threads are started by `scope` and its `spawn_with`, and not by `join`.** `join` runs a closure on the caller's thread where no thread can be
//! made. Jobs that wait for one another would then wait forever, and X2 could not be answered.
//!
//! **The lists of the two halves leave the scope apart**, and are joined outside. So the closures' clauses need no lemma about lists.
//!
//! **`merge_passes` is public.** Whoever ran sessions wants their passes in one again before the router is closed.

ghost use Rattle.std.specs.Prelude.{◌≡◌, ◌+◌, ◌<◌, ◌≤◌, ◌^◌, IfOk, vec_len};
ghost use Rattle.std.specs.Thread.{IsSync};
ghost use denote.Param.Send.{IsSend};
ghost use Rattle.route_session.specs.Jobs.{AreBack, AreFinished, AreFor};

use crate::fault::RunFault;
use crate::gate::Gate;
use crate::job::{Finished, Job, run_job};
use crate::link::Link;
use crate::promise::Done;
use slot_lock::Router;
use std::alloc::Global;
use std::rt::Clock;
use std::snapshot::Snapshot;
use std::sync::Wait;
use std::thread;
use std::thread::Threads;

/// Runs sessions, each in a thread of its own, and waits for their ends: what each came to, in the order of the jobs. A job's
/// number, which the gate is told, is its index. One job has the caller's thread. The link of a job is closed as it ends.
///
/// X1 where memory was refused, X2 where a thread was not started. Jobs that were not started are then dropped, which closes
/// their links, those that were are waited for, and all are given up with their passes.
pub fn run_sessions<R: Threads + Wait + Clock + Sync, L: Link + Send + Drop, G: Gate + Sync>(
    rt: &R,
    alloc: Global,
    router: &Router,
    jobs: Vec<Job<L>>,
    gate: &G,
    turns: u32,
) -> Result<Vec<Finished<L>>, RunFault>
    requires few { vec_len jobs ≤ 65536 }
    requires passes { AreFor router.now jobs.items }
    ensures finished { IfOk result (λ v. AreFinished L.trace (G.may_answer gate.now) turns router.now 0 jobs.items v.items) }
    ensures passes { IfOk result (λ v. AreBack router.now v.items) }
{
    run_from(rt, alloc, router, jobs, gate, 0, turns)
}

/// Runs jobs whose numbers begin with `first`: the second half of them on a new thread, the first half on this one.
#[cycle(halves)]
fn run_from<R: Threads + Wait + Clock + Sync, L: Link + Send + Drop, G: Gate + Sync>(
    rt: &R,
    alloc: Global,
    router: &Router,
    mut jobs: Vec<Job<L>>,
    gate: &G,
    first: u32,
    turns: u32,
) -> Result<Vec<Finished<L>>, RunFault>
    requires few { first + vec_len jobs < 2 ^ 32 }
    requires passes { AreFor router.now jobs.items }
    ensures { IfOk result (λ v. AreFinished L.trace (G.may_answer gate.now) turns router.now first jobs.items v.items) }
{
    let count = jobs.len();
    if count < 2 {
        return run_one(rt, alloc, router, jobs, gate, first, turns);
    }
    let half = count - count / 2;
    let next = first + half as u32;
    let high = jobs.split_off(half)?;
    let promise = Done {
        jobs: Snapshot::of(&high),
        router: Snapshot::of(router),
        gate: Snapshot::of(gate),
        first: next,
        turns,
    };
    let done = thread::scope(
        thread::scope_env(),
        rt,
        move |scope| -> Result<(Vec<Finished<L>>, Vec<Finished<L>>), RunFault>
            requires sync { IsSync R.row × IsSync G.row × IsSend L.row }
            requires high { (next + vec_len high < 2 ^ 32) × AreFor router.now high.items }
            requires low { (first + vec_len jobs < 2 ^ 32) × AreFor router.now jobs.items }
            requires promise { (promise.jobs.value ≡ high) × (promise.router.value ≡ router.now) × (promise.gate.value ≡ gate.now)
                × (promise.first ≡ next) × (promise.turns ≡ turns) }
            ensures { IfOk result (λ v. AreFinished L.trace (G.may_answer gate.entry.now) turns router.entry.now first jobs.items v.0.items
                × AreFinished L.trace (G.may_answer gate.entry.now) turns router.entry.now next high.items v.1.items) }
        {
            let back = move || -> Result<Vec<Finished<L>>, RunFault>
                requires sync { IsSync R.row × IsSync G.row × IsSend L.row }
                requires high { (next + vec_len high < 2 ^ 32) × AreFor router.now high.items }
                ensures { IfOk result (λ v. AreFinished L.trace (G.may_answer gate.entry.now) turns router.entry.now next high.items v.items) }
            { run_from(rt, alloc, router, high, gate, next, turns) };
            let Ok(child) = scope.spawn_with(promise, back) else {
                return Err(RunFault::NotStarted);
            };
            let all = run_from(rt, alloc, router, jobs, gate, first, turns);
            let rest = child.join(rt);
            Ok((all?, rest?))
        },
    );
    let (mut all, mut rest) = done?;
    all.append(&mut rest)?;
    Ok(all)
}

/// Runs at most one job on this thread.
fn run_one<R: Wait + Clock, L: Link + Drop, G: Gate>(
    rt: &R,
    alloc: Global,
    router: &Router,
    mut jobs: Vec<Job<L>>,
    gate: &G,
    number: u32,
    turns: u32,
) -> Result<Vec<Finished<L>>, RunFault>
    requires one { vec_len jobs < 2 }
    requires passes { AreFor router.now jobs.items }
    ensures { IfOk result (λ v. AreFinished L.trace (G.may_answer gate.now) turns router.now number jobs.items v.items) }
{
    let mut finished = Vec::with_capacity(alloc, jobs.len())?;
    if let Some(job) = jobs.pop() {
        finished.push_reserved(run_job(rt, alloc, router, job, gate, number, turns));
    }
    Ok(finished)
}
