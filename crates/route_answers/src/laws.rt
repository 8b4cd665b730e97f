//! Laws on what answers to routes rest on, each the contract of a function with an empty body.
ghost use Rattle.std.specs.Prelude.{◌≡◌, ◌≤◌, ◌↔◌, ◌++◌, ℕ, Bool, false, List, None, Ok, Err, map};
ghost use Rattle.std.specs.Str.Lines.{lines};
ghost use Rattle.code_file.specs.Spelling.{IsCode, spelling};
ghost use Rattle.filter_code.specs.CodeView.{CodeView};
ghost use Rattle.filter_code.specs.Machine.{outcome_of};
ghost use Rattle.filter_code.specs.RouteView.{RouteView};
ghost use Rattle.filter_compiler.specs.Verdicts.{meaning};
ghost use Rattle.filter_machine.specs.Verdicts.{announced};
ghost use Rattle.filter_syntax.specs.SyntaxText.{FilterView};
ghost use Rattle.filter_reports.specs.Check.{FitsLine, GivesCode, printed};
ghost use Rattle.filter_reports.specs.Saying.{Says, SaysTheSame};
ghost use Rattle.hex.specs.Hex.{encode_lower};
ghost use Rattle.line_protocol.specs.Lines.{answerable_from};
ghost use Rattle.line_protocol.specs.declared.answers.LineReply.TheVariants as reply;
ghost use Rattle.route_answers.specs.Eval.{code_in, eval_answers, route_answer, verdict};
ghost use Rattle.route_answers.specs.RouteLine.{IsLineFault, IsRouteLine, route_in};
ghost use Rattle.route_answers.specs.Sizes.{ReadsFirst, clipped};
ghost use Rattle.route_answers.specs.declared.line_fault.LineFault.{LineFault as TheFault};

/// What `check` prints of a code is read by `eval` as that code: each line after it is answered as a route under the code, and
/// numbered from 2. Where the code says of the routes of a size what a filter says, a line with a route of that size is answered by
/// what the filter says of it: `accept` with that metric, or `reject`. The digits of the code have to be within the limit of a source.
pub fn printed_code_is_evaluated()
    ensures line { (program : CodeView) → FitsLine program → IsCode program → code_in (encode_lower (spelling program)) ≡ Ok program }
    ensures answers { (program : CodeView) (routes : List ℕ) → FitsLine program → IsCode program
        → eval_answers (printed program ++ routes) ≡ map (route_answer program) (answerable_from 2 (lines routes)) }
    ensures meant { (filter : FilterView) (program : CodeView) (size number : ℕ) (line : List ℕ) (route : RouteView)
        → SaysTheSame filter program size → IsRouteLine line route → route.size ≡ size
        → Says (meaning filter route) (outcome_of program route)
        × (route_answer program (number, line) ≡ record { text = verdict (outcome_of program route); reply = reply.Answered }) }
{}

/// What `check` prints of a text is read by `eval` as the code of that text, whatever the text is: each line after it is answered as a
/// route under the code, and numbered from 2.
pub fn translations_are_evaluated()
    ensures { (text : List ℕ) (program : CodeView) (routes : List ℕ) → GivesCode false text program
        → eval_answers (printed program ++ routes) ≡ map (route_answer program) (answerable_from 2 (lines routes)) }
{}

/// A line of `eval` gives a route if and only if it is within the limit of a line and has three words: a prefix, and two numbers
/// of at most 65,535, the second a size from 2 to 250 and the first a metric of at most that size. Otherwise the first fault in
/// the order O7, O1, O8, O2 refuses it.
pub fn route_lines()
    ensures found { (line : List ℕ) (route : RouteView) → (route_in None line ≡ Ok route) ↔ IsRouteLine line route }
    ensures refused { (line : List ℕ) (why : TheFault) → (route_in None line ≡ Err why) ↔ IsLineFault line why }
{}

/// Code in which no instruction reads the metric behind one that sets it says of a route in a domain what it says of the same route in
/// a larger one, but that a metric over the size of the smaller one becomes that size. So code that is verified for the largest size
/// can be run in its place in each.
pub fn smaller_domains_clip_the_metric()
    ensures { (program : CodeView) (net : List Bool) (received larger size : ℕ) → ReadsFirst program.instrs → size ≤ larger → received ≤ size
        → outcome_of program (announced net received size) ≡ clipped size (outcome_of program (announced net received larger)) }
{}
