//! Laws of filters that were found to keep the order of metrics, or not to.

ghost use Rattle.std.specs.Prelude.{◌≡◌, ℕ, ◌<◌, ◌≤◌};
ghost use Rattle.filter_code.specs.CodeView.{CodeView};
ghost use Rattle.filter_diff.specs.Ordering.{IsOrderOf, KeepsOrder as KeepsMetrics};
ghost use Rattle.filter_diff.specs.declared.ordering.Disorder.{Disorder};
ghost use Rattle.filter_diff.specs.declared.ordering.Order.TheVariants as order;
ghost use Rattle.netchange_core.specs.Best.{distance};
ghost use Rattle.ordered_filters.specs.Filters.{HasOrderedFilters};
ghost use Rattle.routing_domain.specs.Domain.{Domain, IsInOrder, IsQuiet, topology};
ghost use Rattle.routing_domain.specs.Gains.{Gains, KeepsOrder};
ghost use Rattle.routing_domain.specs.Ways.{Forwards};

/// Where each filter of a domain was found to keep the order of metrics, what distances come to on its links keeps order, to each destination.
/// And a filter does not keep the order of which two metrics are shown that lose it: so what is found of a filter is so just where it is told.
pub fn checked_filters_keep_order()
    ensures kept { (d : Domain) → IsInOrder d → HasOrderedFilters d → (v : ℕ) → v < d.size → KeepsOrder (topology d v) }
    ensures lost { (program : CodeView) → (size : ℕ) → (shown : Disorder) → IsOrderOf program size (order.Lost shown) → KeepsMetrics program size → ⊥ }
{}

/// So a new link makes no loop there: where the domain was quiet and only gains links, no distance rises, and at each moment what a node with a
/// route forwards arrives, in at most as many hops as the node's distance.
pub fn checked_filters_make_no_loop()
    ensures falls { (j k : ℕ) → (d e f : Domain) → IsInOrder d → HasOrderedFilters d → IsQuiet d → Gains j d e → Gains k e f → (v : ℕ) → v < d.size →
        (u : ℕ) → u < d.size → distance (f.router u) v ≤ distance (e.router u) v }
    ensures forwards { (k : ℕ) → (d e : Domain) → IsInOrder d → HasOrderedFilters d → IsQuiet d → Gains k d e → (v : ℕ) → v < d.size →
        (u : ℕ) → u < d.size → distance (e.router u) v < d.size → (h : ℕ) × (h ≤ distance (e.router u) v) × Forwards e v h u }
{}
