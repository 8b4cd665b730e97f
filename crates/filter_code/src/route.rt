ghost use Rattle.std.specs.Prelude.{◌≡◌, ◌≤◌};
ghost use Rattle.std.specs.Option.{SomeIff};

use crate::limits::{LARGEST_SIZE, SMALLEST_SIZE};
use prefix_patterns::Prefix;
use std::marker::Model;

/// A route as a filter sees it: its prefix, the metric that was received, and the size of the domain. The size is the
/// number of nodes, and the metric of what cannot be reached.
///
/// A contract sees a route as a `RouteView`.
#[derive(Clone, Copy)]
pub struct Route {
    net: Prefix,
    metric: u32,
    size: u32,
}

impl Model for Route {
    ghost use Rattle.filter_code.specs.RouteView.{RouteView, IsWithinLimits};

    ghost Value = { RouteView };

    ghost view = { λ r. record { net = r.net; metric = r.metric; size = r.size } };

    ghost invariant = { λ r. IsWithinLimits r.metric r.size };

    ghost inverse = { λ a. record { net = a.net; metric = a.metric; size = a.size } };
}

impl Route {
    ghost use Rattle.filter_code.specs.RouteView.{IsWithinLimits};

    /// The route to a prefix. None if and only if the size is not 2 to 250 or the metric is above the size.
    pub fn new(net: Prefix, metric: u32, size: u32) -> Option<Route>
        ensures { SomeIff result (IsWithinLimits metric size) (record { net = net; metric = metric; size = size }) }
    {
        if size < SMALLEST_SIZE || size > LARGEST_SIZE || metric > size {
            return None;
        }
        Some(Route { net, metric, size })
    }

    /// The prefix.
    pub fn net(&self) -> Prefix
        ensures { result ≡ self.now.net }
    {
        self.net
    }

    /// The metric received.
    pub fn metric(&self) -> u32
        ensures value { result ≡ self.now.metric }
        ensures limits { IsWithinLimits self.now.metric self.now.size }
    {
        self.metric
    }

    /// The size of the domain: its number of nodes, 2 to 250.
    pub fn size(&self) -> u32
        ensures value { result ≡ self.now.size }
        ensures limits { IsWithinLimits self.now.metric self.now.size }
    {
        self.size
    }
}
