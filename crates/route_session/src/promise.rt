//! What a thread promises of the jobs that it is given.

ghost use Rattle.std.specs.Prelude.{IfOk};

use crate::fault::RunFault;
use crate::gate::Gate;
use crate::job::{Finished, Job};
use crate::link::Link;
use slot_lock::Router;
use std::snapshot::Snapshot;
use std::thread::Promise;

/// These jobs, whose numbers begin with `first`, done at this router with so many turns each, as this gate lets them go.
#[derive(Drop)]
pub(crate) struct Done<L, G> {
    pub(crate) jobs: Snapshot<Vec<Job<L>>>,
    pub(crate) router: Snapshot<Router>,
    pub(crate) gate: Snapshot<G>,
    pub(crate) first: u32,
    pub(crate) turns: u32,
}

impl<L: Link, G: Gate> Promise<Result<Vec<Finished<L>>, RunFault>> for Done<L, G> {
    ghost use Rattle.route_session.specs.Jobs.{AreFinished};

    ghost kept_by = { λ p r. IfOk r (λ v.
        AreFinished L.trace (G.may_answer p.gate.value) p.turns p.router.value p.first p.jobs.value.items v.items) };
}
