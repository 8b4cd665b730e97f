//! What holds of each file of a domain.
ghost use Rattle.std.specs.Prelude.{◌≡◌, ℕ, List, true};
ghost use Rattle.line_protocol.specs.Answers.{Answer};
ghost use Rattle.domain_cmds.specs.CommandView.{CommandView};
ghost use Rattle.domain_cmds.specs.Script.{AnswersPlanned, begin};
ghost use Rattle.domain_cmds.specs.State.{PlanningView};
ghost use Rattle.domain_files.specs.FileView.{FileView};
ghost use Rattle.domain_files.specs.Files.{AreUses, IsFile, is_asking};

/// What is passed over changes neither the plan nor the filters, whatever the script of a domain answers to it: prefixes stay from then on, and that is
/// all. So the plan of a file is that of its script, carried out whole.
pub fn questions_change_no_plan()
    ensures { (p q : PlanningView) → (number : ℕ) → (command : CommandView) → (answer : Answer) → is_asking command ≡ true →
        AnswersPlanned p number command answer q → (q.plan ≡ (begin p).plan) × (q.filters ≡ (begin p).filters) × (q.begun ≡ (begin p).begun) }
{}

/// In the plan of each file of a domain the filters are those that have the names of the last uses, and where nothing is used there is none. So a router
/// that uses these filters by their names does what was computed from the plan.
pub fn filters_are_those_of_names()
    ensures { (text : List ℕ) → (f : FileView) → IsFile text f → AreUses f.planning f.uses }
{}
