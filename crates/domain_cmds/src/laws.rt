//! What holds of each script of a domain.
ghost use Rattle.std.specs.Prelude.{◌≡◌, ℕ, List, Option, Some, true};
ghost use Rattle.domain_routes.specs.declared.best.Best.{Best};
ghost use Rattle.line_protocol.specs.Answers.{Answer};
ghost use Rattle.domain_cmds.specs.Failures.{still_told};
ghost use Rattle.domain_cmds.specs.Marks.{IsMarked};
ghost use Rattle.domain_cmds.specs.Script.{AnswersLine, new_planning};
ghost use Rattle.domain_cmds.specs.Sizes.{is_size};
ghost use Rattle.domain_cmds.specs.Texts.{still_below};
ghost use Rattle.domain_cmds.specs.declared.failure.Failing.TheVariants as failing;
ghost use Rattle.domain_cmds.specs.State.{PlanningView};

/// Between any two lines of a script the routes at the last `mark` are those of the plan as it was, and two plans are noted between which it lay, and
/// the plan now lies. So what `changes` says to stand still is what `what_is_near_stands_still` of `domain_routes` promises.
pub fn marks_are_of_a_plan()
    ensures begins { (size : ℕ) → is_size size ≡ true → IsMarked (new_planning size) }
    ensures goes_on { (p after : PlanningView) → (number : ℕ) → (line : List ℕ) → (answer : Answer) → IsMarked p →
        AnswersLine (Some p) number line answer (Some after) → IsMarked after }
{}

/// The bound that `failures` finds for a link and a destination is the one that `changes` says of this destination once the link is cut.
pub fn failures_stand_still_as_cuts()
    ensures { (size u w : ℕ) → (before after : List (List Best)) → (v : ℕ) →
        still_told size (failing.Link u w) before after v ≡ still_below size before after v }
{}
