//! The best route to a node, by how far each neighbour is from it.
//!
//! **A neighbour that is down is at distance N from everything**, so its distances need no rule of their own: the definition takes the nearest of
//! all nodes. The code looks along the list of the present sessions, and finds the same one; in a large domain with few neighbours a route that got
//! worse costs no look at the others. That list goes by sessions and not by nodes, so of two neighbours that are as near the one of the lesser
//! number is taken.

ghost use Rattle.std.specs.Prelude.{◌≡◌, ◌⊎◌, ℕ, ◌+◌, ◌<◌, ◌≤◌, ◌^◌, true, false, List, length, slice_index, slice_set};
ghost use Rattle.std.specs.List.{HoldsAt};
ghost use Rattle.netchange_core.specs.declared.reply.Via.TheVariants.{Node};
ghost use Rattle.netchange_core.specs.declared.sessions.Present.{Present};
ghost use Rattle.netchange_core.specs.Best.{best_by, nearest, route_of};
ghost use Rattle.netchange_core.specs.Leading.{LeadsListed, ListsReachable};
ghost use Rattle.netchange_core.specs.OpeningView.{OpeningView};

use crate::opening::Opening;
use crate::reply::Via;
use crate::sessions::Present;

/// The distance to a node, and through whom the route goes.
#[derive(Clone, Copy)]
pub struct BestRoute {
    /// The distance: the size of the domain where there is no route.
    pub dist: u16,
    /// Through whom.
    pub via: Via,
}

/// How far a neighbour is from the node, where one of them is now at another distance.
fn distance_at(distances: &[u16], hop: usize, near: u16, k: usize) -> u16
    requires { k < length distances.now }
    ensures { result ≡ slice_index (slice_set distances.now hop near) k }
{
    if k == hop { near } else { distances[k] }
}

/// Whether a neighbour beats the current next hop: it is nearer, or equally near with no higher number.
fn overtakes(near: u16, hop: usize, dist: u16, node: u16) -> bool
    ensures fits { result ≡ true → near + 1 ≤ dist }
    ensures closer { result ≡ true → (near + 1 < dist) ⊎ ((near + 1 ≡ dist) × (hop ≤ node)) }
    ensures farther { result ≡ false → (dist < near + 1) ⊎ ((dist ≡ near + 1) × (node < hop)) }
{
    let through = u32::from(near) + 1;
    let limit = u32::from(dist);
    through < limit || (through == limit && hop <= usize::from(node))
}

/// The route through a neighbour, which is so far from the node.
fn through(near: u16, node: u16) -> BestRoute
    requires { near + 1 < 2 ^ 16 }
    ensures { result ≡ route_of (near + 1) (Node node) }
{
    BestRoute {
        dist: near + 1,
        via: Via::Node(node),
    }
}

/// The better of a route and the one through a neighbour, which is so far from the node.
fn nearer(best: BestRoute, near: u16, node: u16) -> BestRoute
    ensures { (size i : ℕ) (ps : List Present) (distances : List ℕ) → i < length ps → HoldsAt (λ p. p.node ≡ node) ps i →
        node < length distances → slice_index distances node ≡ near → LeadsListed size i ps distances best →
        LeadsListed size (i + 1) ps distances result }
{
    match best.via {
        Via::Node(hop) => {
            if overtakes(near, usize::from(node), best.dist, hop) {
                through(near, node)
            } else {
                best
            }
        }
        Via::Local | Via::Nowhere => {
            if u32::from(near) + 1 < u32::from(best.dist) {
                through(near, node)
            } else {
                best
            }
        }
    }
}

/// The best route, where one neighbour is now at another distance, found by looking at each that is up. They stand in the order of
/// their sessions, not of their numbers.
#[inline(never)]
fn nearest_after(
    size: u16,
    present: &[Present],
    distances: &[u16],
    hop: usize,
    near: u16,
) -> BestRoute
    requires listed { ListsReachable size (slice_set distances.now hop near) present.now }
    ensures { result ≡ nearest size (slice_set distances.now hop near) }
{
    let mut best = BestRoute {
        dist: size,
        via: Via::Nowhere,
    };
    for session in present {
        let k = usize::from(session.node);
        best = nearer(best, distance_at(distances, hop, near, k), session.node);
    }
    best
}

/// Whether it is seen at once that the best route stays, where one neighbour is now at another distance.
#[inline(always)]
pub(crate) fn stays(best: BestRoute, hop: usize, near: u16) -> bool
    ensures { (o : OpeningView) (v : ℕ) (distances : List ℕ) → result ≡ true → best ≡ best_by o v distances →
        hop < length distances → best ≡ best_by o v (slice_set distances hop near) }
{
    match best.via {
        Via::Node(node) => {
            if hop == usize::from(node) {
                return false;
            }
            !overtakes(near, hop, best.dist, node)
        }
        Via::Nowhere => u32::from(best.dist) <= u32::from(near) + 1,
        Via::Local => false,
    }
}

/// The best route, where one neighbour is now at another distance, from the one that was best. Only where the next hop
/// got worse is each up neighbour looked at.
#[inline(always)]
pub(crate) fn best_after(
    size: u16,
    present: &[Present],
    distances: &[u16],
    hop: usize,
    near: u16,
    best: BestRoute,
) -> BestRoute
    requires best { best ≡ nearest size distances.now }
    requires within { hop < length distances.now }
    requires short { length distances.now ≤ 2 ^ 16 }
    requires listed { ListsReachable size (slice_set distances.now hop near) present.now }
    ensures { result ≡ nearest size (slice_set distances.now hop near) }
{
    match best.via {
        Via::Node(node) => {
            if overtakes(near, hop, best.dist, node) {
                through(near, hop as u16)
            } else if hop == usize::from(node) {
                nearest_after(size, present, distances, hop, near)
            } else {
                best
            }
        }
        Via::Nowhere => {
            if u32::from(near) + 1 < u32::from(best.dist) {
                through(near, hop as u16)
            } else {
                best
            }
        }
        Via::Local => unreachable!(),
    }
}

/// The best route to a node.
pub(crate) fn best_by(
    opening: &Opening,
    present: &[Present],
    node: u16,
    distances: &[u16],
) -> BestRoute
    requires some { 0 < length distances.now }
    requires listed { ListsReachable opening.now.size distances.now present.now }
    ensures { result ≡ best_by opening.now node distances.now }
{
    if node == opening.me() {
        return BestRoute {
            dist: 0,
            via: Via::Local,
        };
    }
    nearest_after(opening.size(), present, distances, 0, distances[0])
}
