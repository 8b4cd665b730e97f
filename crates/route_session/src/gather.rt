//! What is done with the passes of jobs that were done.

ghost use Rattle.route_session.specs.Jobs.{AreBack, Gathered};
ghost use Rattle.slot_lock.specs.Passes.{IsOwn, IsPassOf};

use crate::job::Finished;
use slot_lock::{Pass, Router};

/// Joins the passes of jobs that were done with a pass of the same router, in the order of the jobs. What else there is of the jobs
/// is dropped.
pub fn merge_passes<L: Drop>(router: &Router, pass: &mut Pass, finished: Vec<Finished<L>>)
    requires of { IsPassOf router.now pass.old × AreBack router.now finished.items }
    ensures of { IsPassOf router.now pass.new }
    ensures own { IsOwn pass.old.fragment → IsOwn pass.new.fragment }
    ensures merged { Gathered pass.old.fragment finished.items pass.new.fragment }
{
    for job in finished {
        router.join(pass, job.pass);
    }
}
