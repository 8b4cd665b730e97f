//! The line of JSON that says why a source is refused.
ghost use Rattle.std.specs.Prelude.{◌≡◌, ℕ, List, IfOk, option_map};
ghost use Rattle.refusal_words.specs.Explanations.{coded};
ghost use Rattle.filter_reports.specs.Notices.{named};
ghost use Rattle.refusal_words.specs.Places.{column_at, line_at};
ghost use Rattle.filter_reports.specs.Refusing.{IsCheckFinding, IsRefusalFinding, refusal_view, verified_view};
ghost use Rattle.report_formats.specs.Findings.{finding_line};

use crate::named_text::NamedText;
use filter_source::Diagnosis;
use refusal_words::{place_in, refusal_words};
use report_formats::{Finding, Severity, push_finding};
use std::alloc::{AllocError, Global};

/// The words of a refusal without the code behind them, which a finding has by itself.
#[tactic(auto, using(crate::proofs::Coded::cut))]
fn without_code<'a>(words: &'a [u8], code: &str) -> &'a [u8]
    ensures { (plain : List ℕ) → words.now ≡ coded plain code.now → result.now ≡ plain }
{
    let len = words.len().saturating_sub(code.len() + 3);
    let (plain, _) = words.split_at(len);
    plain
}

/// The number of the line of a byte, and that of the character in it.
fn place_of(text: &[u8], byte: Option<usize>) -> (Option<usize>, Option<usize>)
    ensures line { result.0 ≡ option_map (line_at text.now) byte }
    ensures column { result.1 ≡ option_map (column_at text.now) byte }
{
    match byte {
        Some(at) => {
            let place = place_in(text, at);
            (Some(place.line), Some(place.column))
        }
        None => (None, None),
    }
}

/// The line of JSON on a refusal in these words.
fn finding_in(
    alloc: Global,
    source: &NamedText<'_>,
    why: &Diagnosis,
    words: &[u8],
) -> Result<Vec<u8>, AllocError>
    ensures { IfOk result (λ line. line.items ≡ finding_line (refusal_view (named source.now) why.now words.now)) }
{
    let (line, column) = place_of(source.text, why.byte);
    let mut out = Vec::new(alloc);
    push_finding(
        alloc,
        &mut out,
        &Finding {
            severity: Severity::Error,
            code: Some(why.refusal.code().as_bytes()),
            file: source.name,
            line,
            column,
            words,
        },
    )?;
    Ok(out)
}

/// The line of JSON on a refusal.
pub fn refusal_finding(
    alloc: Global,
    source: &NamedText<'_>,
    why: &Diagnosis,
) -> Result<Vec<u8>, AllocError>
    ensures { IfOk result (λ line. IsRefusalFinding (named source.now) why.now line.items) }
{
    let coded = refusal_words(alloc, source.text, why)?;
    let words = without_code(coded.as_slice(), why.refusal.code());
    finding_in(alloc, source, why, words)
}

/// The line of JSON on a source of this name that is verified.
fn verified_finding(alloc: Global, name: &[u8]) -> Result<Vec<u8>, AllocError>
    ensures { IfOk result (λ line. line.items ≡ finding_line (verified_view name.now)) }
{
    let mut line = Vec::new(alloc);
    push_finding(
        alloc,
        &mut line,
        &Finding {
            severity: Severity::Ok,
            code: None,
            file: name,
            line: None,
            column: None,
            words: b"verified",
        },
    )?;
    Ok(line)
}

/// The line of JSON on a source that was checked: why it is refused, or that it is verified where not only refusals are written.
pub fn check_finding(
    alloc: Global,
    is_quiet: bool,
    source: &NamedText<'_>,
    why: &Option<Diagnosis>,
) -> Result<Vec<u8>, AllocError>
    ensures { IfOk result (λ line. IsCheckFinding is_quiet (named source.now) why.now line.items) }
{
    match why {
        Some(why) => refusal_finding(alloc, source, why),
        None if is_quiet => Ok(Vec::new(alloc)),
        None => verified_finding(alloc, source.name),
    }
}
