//! A neighbour advertises a distance.

ghost use Rattle.std.specs.Prelude.{◌≡◌, ◌<◌, ◌≤◌, true, Some, Ok, Err, IfOk, IfErr};
ghost use Rattle.std.specs.Int.{from_bool};
ghost use Rattle.netchange_core.specs.FilteredDistance.{filtered_distance};
ghost use Rattle.netchange_core.specs.Handling.{Handles};
ghost use Rattle.netchange_core.specs.Kept.{AreTables, views_of, world_of};
ghost use Rattle.netchange_core.specs.Next.{receive};
ghost use Rattle.netchange_core.specs.World.{is_up, neighbour_at};
ghost use Rattle.netchange_core.specs.declared.reply.Reply.TheVariants as reply;

use crate::best_route::stays;
use crate::changing::advertise;
use crate::filter::filtered_distance;
use crate::message::Message;
use crate::recomputing::{put, route_after};
use crate::reply::{EventRefusal, Reply};
use crate::room::make_room_if_differs;
use crate::state::State;
use crate::telling::tell_if_differs;
use std::alloc::AllocError;

impl State {
    /// A message of an up neighbour came. Mostly the route to its node stays, which is seen without a call.
    #[inline(always)]
    pub(crate) fn receive(&mut self, hop: usize, message: Message) -> Result<Reply, AllocError>
        requires right { AreTables self.old }
        requires up { is_up (neighbour_at (views_of self.old) hop) ≡ true }
        ensures { Handles self.old (receive (world_of self.old) (Some hop) message.dest message.dist) self.new result }
    {
        let Message { dest, dist } = message;
        let opening = &self.opening;
        if opening.size() <= dest {
            return Ok(Reply::Refused(EventRefusal::BadDest));
        }
        if opening.size() < dist {
            return Ok(Reply::Refused(EventRefusal::BadDist));
        }
        let near = filtered_distance(opening, &self.neighbours[hop].imports, dest, dist);
        let destination = &mut self.destinations[usize::from(dest)];
        let route = destination.route;
        if stays(route, hop, near) {
            put(destination, hop, near, route);
            advertise(&mut self.neighbours[hop], dest, dist);
            return Ok(Reply::Done { changed: 0 });
        }
        let differs = self.reroute(hop, message, near)?;
        Ok(Reply::Done {
            changed: u16::from(differs),
        })
    }

    /// A message came from an up neighbour, which is now at this distance from the node that it names. Answers whether the distance to that
    /// node changed.
    #[inline(never)]
    fn reroute(&mut self, hop: usize, message: Message, near: u16) -> Result<bool, AllocError>
        requires right { AreTables self.old }
        requires up { is_up (neighbour_at (views_of self.old) hop) ≡ true }
        requires dest { message.dest < self.old.opening.size }
        requires dist { message.dist ≤ self.old.opening.size }
        requires near { near ≡ filtered_distance self.old.opening (neighbour_at (views_of self.old) hop).imports message.dest message.dist }
        ensures done { IfOk result (λ differs. Handles self.old (receive (world_of self.old) (Some hop) message.dest message.dist) self.new
            (Ok (reply.Done (from_bool differs)))) }
        ensures no_memory { IfErr result (λ e. Handles self.old (receive (world_of self.old) (Some hop) message.dest message.dist) self.new
            (Err e)) }
    {
        let Message { dest, dist } = message;
        let opening = &self.opening;
        let present = self.sessions.present.as_slice();
        let destination = &mut self.destinations[usize::from(dest)];
        let route = route_after(opening, present, dest, destination, hop, near);
        let old = destination.route.dist;
        make_room_if_differs(present, &mut self.neighbours, old, route.dist)?;
        advertise(&mut self.neighbours[hop], dest, dist);
        put(destination, hop, near, route);
        let differs = tell_if_differs(
            opening,
            present,
            &mut self.neighbours,
            dest,
            old,
            route.dist,
        );
        Ok(differs)
    }
}
