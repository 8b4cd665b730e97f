//! The words of a refusal.
ghost use Rattle.std.specs.Prelude.{◌≡◌, ◌++◌, IfOk, OnOk};
ghost use Rattle.refusal_words.specs.Ranges.{EndsInRange, page_text, range_text, see_page, whatever_before};

use crate::shown::push_shown;
use crate::words::words_of;
use filter_source::{Diagnosis, Refusal};
use filter_verifier::Range;
use line_protocol::push_decimal;
use std::alloc::{AllocError, Global};

/// That no condition narrows a range.
#[tactic(auto, unfolding(crate::specs::Ranges::whatever_before))]
fn whatever_before() -> &'static [u8]
    ensures { result.now ≡ whatever_before }
{
    b" here, whatever the conditions before it"
}

/// Where more is said of a code.
#[tactic(auto, unfolding(crate::specs::Ranges::see_page))]
fn see_page() -> &'static [u8]
    ensures { result.now ≡ see_page }
{
    b"; see `ncroute explain "
}

/// Puts which page says more of a code at the end of `out`.
fn push_page(out: &mut Vec<u8>, code: &str) -> Result<(), AllocError>
    ensures { OnOk result (out.new.items ≡ out.old.items ++ page_text code.now) }
{
    out.extend_from_slice(see_page())?;
    out.extend_from_slice(code.as_bytes())?;
    out.extend_from_slice(b"`")
}

/// Puts the range of an int that is refused at the end of `out`, and which page says more.
fn push_range(out: &mut Vec<u8>, why: Refusal, range: Option<Range>) -> Result<(), AllocError>
    ensures { OnOk result (out.new.items ≡ out.old.items ++ range_text why range) }
{
    match range {
        Some(range) => {
            out.extend_from_slice(b": it is ")?;
            push_decimal(out, u64::from(range.low()))?;
            out.extend_from_slice(b"..")?;
            push_decimal(out, u64::from(range.high()))?;
            out.extend_from_slice(whatever_before())?;
            push_page(out, why.code())
        }
        None => Ok(()),
    }
}

/// What is wrong with a source, as it is shown, and the range of the int that is refused.
pub(crate) fn diagnosis_words(
    alloc: Global,
    text: &[u8],
    diagnosis: &Diagnosis,
) -> Result<Vec<u8>, AllocError>
    ensures { IfOk result (λ words. EndsInRange diagnosis.now words.items) }
{
    let plain = words_of(alloc, text, diagnosis)?;
    let mut words = Vec::new(alloc);
    push_shown(alloc, &mut words, plain.as_bytes())?;
    push_range(&mut words, diagnosis.refusal, diagnosis.range)?;
    Ok(words)
}
