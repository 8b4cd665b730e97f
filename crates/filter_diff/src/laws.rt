//! Laws on parts, each the contract of a function with an empty body.
ghost use Rattle.std.specs.Prelude.{◌↔◌, ℕ};
ghost use Rattle.filter_code.specs.RouteView.{RouteView};
ghost use Rattle.filter_diff.specs.Parts.{Has, HasRoute, IsMatched, IsReal};
ghost use Rattle.filter_diff.specs.declared.route_part.RoutePart.{RoutePart as RoutePartView};

/// A part that is real has a route of the size, and its routes are those whose prefix matches it as a pattern and whose metric is in
/// its range.
pub fn parts_are_patterns()
    ensures some { (size : ℕ) (part : RoutePartView) → IsReal size part → HasRoute size part }
    ensures pattern { (size : ℕ) (part : RoutePartView) (route : RouteView) → IsReal size part → Has part route ↔ IsMatched part route }
{}
