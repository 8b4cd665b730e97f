//! The route of a node to the destination.

ghost use Rattle.std.specs.Prelude.{◌≡◌, suc, MatchBool};
ghost use Rattle.domain_routes.specs.Offers.{ComesBefore, IsBetter, StaysBehind, hop_of};

use netchange_core::Via;

/// The route of a node to a destination.
#[derive(Clone, Copy, PartialEq, Eq)]
pub struct Best {
    /// The distance, 0 to the size of the domain, which says that there is no route.
    pub dist: u16,
    /// Through whom it goes: local at the destination itself, otherwise the next hop, or nowhere.
    pub via: Via,
}

/// The number that decides between routes of one distance: that of the next hop, if there is one.
fn hop_of(via: Via) -> u16
    ensures { result ≡ hop_of via }
{
    match via {
        Via::Node(hop) => hop,
        Via::Local | Via::Nowhere => 0,
    }
}

/// Whether a way through a neighbour, one more than what its distance comes to, comes before a route: it is shorter, or as short
/// through the neighbour of the lesser number.
pub(crate) fn comes_before(route: Best, filtered: u16, hop: u16) -> bool
    ensures { MatchBool result (ComesBefore (suc filtered) hop route) (StaysBehind (suc filtered) hop route) }
{
    let length = u32::from(filtered) + 1;
    let dist = u32::from(route.dist);
    length < dist || (length == dist && hop < hop_of(route.via))
}

/// The better of a route and the way through a neighbour, one more than what its distance comes to. Of two that are as
/// short, the one through the neighbour of the lesser number.
pub(crate) fn better(route: Best, filtered: u16, hop: u16) -> Best
    ensures { IsBetter route (suc filtered) hop result }
{
    if comes_before(route, filtered, hop) {
        Best {
            dist: filtered + 1,
            via: Via::Node(hop),
        }
    } else {
        route
    }
}
