//! Laws on comparisons and tests, each the contract of a function with an empty body.
ghost use Rattle.std.specs.Prelude.{◌≡◌, ◌≢◌, ℕ, List};
ghost use Rattle.filter_code.specs.CodeView.{CodeView};
ghost use Rattle.filter_code.specs.RouteView.{RouteView};
ghost use Rattle.filter_reports.specs.Saying.{Says, SaysTheSame};
ghost use Rattle.filter_compiler.specs.Verdicts.{meaning};
ghost use Rattle.filter_diff.specs.Answers.{answer_of};
ghost use Rattle.filter_diff.specs.Endings.{outcome_at};
ghost use Rattle.filter_diff.specs.Parts.{IsEnough};
ghost use Rattle.filter_diff.specs.Expectations.{IsCovered, IsMet, IsShown, route_of};
ghost use Rattle.filter_diff.specs.declared.answer.Comparison.TheVariants as answer;
ghost use Rattle.filter_diff.specs.declared.checking.Counterexample.{Counterexample as TheCounterexample};
ghost use Rattle.filter_diff.specs.declared.expectation.Expectation.{Expectation as TheExpectation};
ghost use Rattle.filter_diff.specs.declared.route_part.RoutePart.{RoutePart as RoutePartView};
ghost use Rattle.filter_syntax.specs.SyntaxText.{FilterView, IsText};
ghost use Rattle.filter_reports.specs.Notices.{Named};
ghost use Rattle.filter_reports.specs.Reports.{ReportView};
ghost use Rattle.filter_verifier.specs.Safe.{IsRouteOf};
ghost use Rattle.report_formats.specs.declared.options.DiffOptions.{DiffOptions as HowToCompare};
ghost use Rattle.filter_checks.specs.Comparing.{IsDiffReport, IsPartsReport};
ghost use Rattle.filter_differences.specs.Differences.{AreParts};
ghost use Rattle.filter_checks.specs.Filters.{ArePartsOf};

/// What parts say of two codes they say of two filters, where the codes say of each route what the filters say, as verified code does.
pub fn parts_are_of_filters()
    ensures { (f g : FilterView) (p q : CodeView) (size limit : ℕ) (parts : List RoutePartView) → SaysTheSame f p size → SaysTheSame g q size
        → AreParts p q size limit parts → ArePartsOf f g size parts }
{}

/// Two filters say the same of every route in a domain of the size if the comparison comes to `Same`, and not of every one if it comes
/// to `Differ`.
pub fn comparison_is_of_filters()
    ensures same { (f g : FilterView) (size : ℕ) (parts : List RoutePartView) → ArePartsOf f g size parts → answer_of parts ≡ answer.Same
        → (route : RouteView) → IsRouteOf size route → meaning f route ≡ meaning g route }
    ensures differ { (f g : FilterView) (size : ℕ) (parts : List RoutePartView) → ArePartsOf f g size parts → answer_of parts ≡ answer.Differ
        → (route : RouteView) × IsRouteOf size route × (meaning f route ≢ meaning g route) }
{}

/// What a test that holds says of code it says of the filter, where the code says of each route what the filter says, as verified code
/// does: the filter's verdict on each route of the test is the expected one.
pub fn held_tests_are_of_filters()
    ensures { (f : FilterView) (program : CodeView) (size : ℕ) (expected : TheExpectation) → SaysTheSame f program size
        → IsMet program size expected → (route : RouteView) → IsRouteOf size route → IsCovered expected route
        → Says (meaning f route) (outcome_at route expected.ending) }
{}

/// The route that is shown of a test that does not hold is one of the test, the filter's verdict on it is the one that is shown, and not
/// the expected one.
pub fn shown_routes_are_of_filters()
    ensures covered { (program : CodeView) (size : ℕ) (expected : TheExpectation) (shown : TheCounterexample)
        → IsShown program size expected shown → IsRouteOf size (route_of size shown) × IsCovered expected (route_of size shown) }
    ensures verdict { (f : FilterView) (program : CodeView) (size : ℕ) (expected : TheExpectation) (shown : TheCounterexample)
        → SaysTheSame f program size → IsShown program size expected shown → Says (meaning f (route_of size shown)) shown.outcome }
    ensures otherwise { (f : FilterView) (program : CodeView) (size : ℕ) (expected : TheExpectation) (shown : TheCounterexample)
        → SaysTheSame f program size → IsShown program size expected shown
        → Says (meaning f (route_of size shown)) (outcome_at (route_of size shown) expected.ending) → ⊥ }
{}

/// Two texts whose report of `diff` has status 0 spell filters of one meaning: the two say the same of every route in a domain of the
/// size. Where the status is 1 they do not say the same of every route. Where the limit leaves out no class of routes, two filters have no other
/// status.
pub fn compared_filters_mean_the_same()
    ensures same { (how : HowToCompare) (old new : Named) (report : ReportView) → IsDiffReport how old new report → report.status ≡ 0
        → (f : FilterView) × (g : FilterView) × IsText old.text f × IsText new.text g
        × ((route : RouteView) → IsRouteOf how.size route → meaning f route ≡ meaning g route) }
    ensures differ { (how : HowToCompare) (old new : Named) (report : ReportView) → IsDiffReport how old new report → report.status ≡ 1
        → (f : FilterView) × (g : FilterView) × IsText old.text f × IsText new.text g
        × (route : RouteView) × IsRouteOf how.size route × (meaning f route ≢ meaning g route) }
    ensures decided { (how : HowToCompare) (name : List ℕ) (old new : CodeView) (size : ℕ) (report : ReportView) → IsEnough size how.limit
        → IsPartsReport how name old new size report → report.status ≡ 3 → ⊥ }
{}
