//! What holds of every script.
ghost use Rattle.std.specs.Prelude.{ℕ, List, Option};
ghost use Rattle.line_protocol.specs.Answers.{Answer};
ghost use Rattle.line_protocol.specs.Runs.{Runs};
ghost use Rattle.operator_cmds.specs.Alike.{AreAlike, AreAlikeAnswers, AreAnsweredAlike, AreWrittenAlike};
ghost use Rattle.operator_cmds.specs.Running.{IsCarriedOut};
ghost use Rattle.operator_cmds.specs.Entries.{GoesOn};
ghost use Rattle.operator_cmds.specs.Script.{AnswersLine, ScriptView};

/// A line makes at most one entry, the last one, whatever it is; and a journal that is open stays so, with the same opening. So who
/// writes the new entry after each line has written the history.
pub fn one_line_one_entry()
    ensures { (before after : ScriptView) (number : ℕ) (line : List ℕ) (answer : Answer) → AnswersLine before number line answer after →
        GoesOn before.stage after.stage }
{}

/// Two scripts that have come equally far answer a line alike, and have come equally far after it; so two runs of one script have equal
/// answers to each line, or both refuse it with a P code, or both with a Y code: which of the faults of a filter's text is named is
/// left open, and nothing else is.
pub fn two_runs_are_answered_alike()
    ensures line { (one other after later : ScriptView) (number : ℕ) (line : List ℕ) (answer reply : Answer) → AreAlike one other
        → AnswersLine one number line answer after → AnswersLine other number line reply later
        → AreAlikeAnswers number answer reply × AreAlike after later }
    ensures runs { (lines : List (ℕ × List ℕ)) (given told : List Answer) (one other after later : ScriptView) → AreAlike one other
        → Runs AnswersLine one lines given after → Runs AnswersLine other lines told later
        → AreAnsweredAlike lines given told × AreAlike after later }
    ensures scripts { (input : List ℕ) (left rest held holds had has : Option (List ℕ)) (refused count : ℕ)
        → IsCarriedOut input left held holds refused → IsCarriedOut input rest had has count → AreWrittenAlike input held holds had has }
{}
