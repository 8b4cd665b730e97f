//! Laws on the code that is printed, each the contract of a function with an empty body.
//!
//! **The law that verified code means what its filter means is in `filter_reports`**, `verified_code_says_the_same`: it is what `verified` in a
//! report comes to, and `diff` and `test` rest on it without a route line.
ghost use Rattle.std.specs.Prelude.{◌≡◌, ℕ, ◌+◌, ◌*◌, ◌≤◌, List, false, true, length};
ghost use Rattle.code_file.specs.Spelling.{IsCode, spelling_in};
ghost use Rattle.code_file.specs.declared.version.Version.{Version};
ghost use Rattle.filter_code.specs.CodeView.{CodeView};
ghost use Rattle.filter_compiler.specs.Same.{MeansTheSame};
ghost use Rattle.filter_syntax.specs.SyntaxText.{FilterView};
ghost use Rattle.filter_source.specs.Sources.{Translates};
ghost use Rattle.filter_verifier.specs.Safe.{IsSafe};
ghost use Rattle.filter_reports.specs.Check.{FitsLine, GivesCode, AreCodeLines, AreLines, LinesView, printed};
ghost use Rattle.filter_reports.specs.Saying.{SaysTheSame};

/// The code that `check` prints is read by `check --code` as the same code, with the same lines: code that is written and read
/// again has the same verdicts. Its digits have to be within the limit of a source.
pub fn printed_code_is_checked_alike()
    ensures { (size : ℕ) (program : CodeView) (report : LinesView) → FitsLine program → AreCodeLines size program report
        → AreLines size true (printed program) report }
{}

/// The code of each text has a code file. This has at most four times as many bytes as the text, and 6,409 more, and so has one of the
/// older form. So what `check` prints of a text is within the limit of a source, whatever the text is, and `check --code` always reads it
/// as the same code, with the same lines.
pub fn translations_fit_a_line()
    ensures has_file { (text : List ℕ) (filter : FilterView) (program : CodeView) → Translates text filter program → IsCode program }
    ensures size { (version : Version) (text : List ℕ) (filter : FilterView) (program : CodeView) → Translates text filter program
        → length (spelling_in version program) ≤ 4 * length text + 6409 }
    ensures fits { (text : List ℕ) (filter : FilterView) (program : CodeView) → Translates text filter program → FitsLine program }
    ensures checked_alike { (size : ℕ) (text : List ℕ) (program : CodeView) (report : LinesView) → GivesCode false text program
        → AreCodeLines size program report → AreLines size true (printed program) report }
{}

/// Code that means what a filter means, and that never goes wrong in domains of a size, says of each route of such a domain
/// just what the filter says: it accepts it with the same metric, or rejects it. No run of it is divided by zero, and none
/// meets a full stack.
pub fn verified_code_says_the_same()
    ensures { (filter : FilterView) (program : CodeView) (size : ℕ) →
        MeansTheSame filter program → IsSafe program size → SaysTheSame filter program size }
{}
