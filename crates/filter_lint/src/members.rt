//! W4 by itself, for whoever tells it at places of another text than the filter's own.
ghost use Rattle.std.specs.Prelude.{◌≡◌, ◌++◌, All, IfOk, OnOk};
ghost use Rattle.refusal_words.specs.Explanations.{coded};
ghost use Rattle.filter_lint.specs.Sets.{overlapping_members as members};
ghost use Rattle.filter_lint.specs.Truths.{IsTrueOf};
ghost use Rattle.filter_lint.specs.WarningLines as lines;

use crate::sets::overlapping_members;
use crate::surveyed_filter::SurveyedFilter;
use crate::warning::{Warning, WarningCause};
use crate::warning_lines::push_words;
use filter_code::Code;
use filter_reports::PlacedCode;
use filter_verifier::survey_code;
use prefix_patterns::PatternSet;
use std::alloc::{AllocError, Global};

/// What W4 says of a filter's code, for domains of a size.
fn members_of_code(
    alloc: Global,
    text: &[u8],
    code: &Code,
    places: &[usize],
    size: u32,
) -> Result<Vec<Warning>, AllocError>
    ensures found { IfOk result (λ found. found.items
        ≡ members (record { text = text.now; program = code.now; places = places.now; size = size })) }
    ensures sound { IfOk result (λ found. All (IsTrueOf code.now size places.now) found.items) }
{
    let survey = survey_code(alloc, code, size)?;
    let source = SurveyedFilter::new(text, code, places, size, &survey);
    overlapping_members(alloc, &source)
}

/// What W4 says of the verified code of a text: the members of its sets that overlap, in the order of the code. Each is true of the code.
pub fn overlap_warnings(
    alloc: Global,
    text: &[u8],
    placed: &PlacedCode,
) -> Result<Vec<Warning>, AllocError>
    ensures found { IfOk result (λ found. found.items ≡ members (record {
      text = text.now;
      program = placed.now.verified.program;
      places = placed.now.places.items;
      size = placed.now.verified.size;
    })) }
    ensures sound { IfOk result (λ found. All (IsTrueOf placed.now.verified.program placed.now.verified.size placed.now.places.items) found.items) }
{
    members_of_code(
        alloc,
        text,
        placed.verified.code(),
        placed.places.as_slice(),
        placed.verified.size(),
    )
}

/// Puts what a warning says, and its code, at the end of `out`: `WORDS (CODE)`. The sets are those of the code.
pub fn push_warning_words(
    alloc: Global,
    out: &mut Vec<u8>,
    sets: &[PatternSet],
    cause: &WarningCause,
) -> Result<(), AllocError>
    ensures { OnOk result (out.new.items ≡ out.old.items ++ coded (lines.words sets.now cause.now) (lines.code_of cause.now)) }
{
    push_words(alloc, out, sets, *cause)?;
    out.extend_from_slice(b" (")?;
    out.extend_from_slice(cause.code())?;
    out.extend_from_slice(b")")
}
