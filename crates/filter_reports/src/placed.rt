//! The verified code of a filter's text.
ghost use Rattle.std.specs.Prelude.{◌≡◌, false, IfErr, IfOk, MatchResult};
ghost use Rattle.filter_source.specs.Failures.{OnDiagnosis};
ghost use Rattle.filter_source.specs.TextPlaces.{ArePlacesOf};
ghost use Rattle.filter_tokens.specs.Tokenization.{IsTokenization};
ghost use Rattle.filter_reports.specs.Checking.{IsDiagnosis};
ghost use Rattle.filter_reports.specs.Notices.{named};
ghost use Rattle.filter_reports.specs.Opening.{IsFilterRefusal, IsPlacedOf};
ghost use Rattle.filter_reports.specs.Reports.{report_of};
ghost use Rattle.filter_reports.specs.VerifiedFilters.{IsVerifiedOf};

use crate::check::code_of;
use crate::named_text::NamedText;
use crate::refusal::refusal_line;
use crate::report::Report;
use crate::status::FAILED;
use crate::wording::{Wording, refusal_notice};
use filter_source::{CompiledSource, Failure, verify_mapped};
use filter_tokens::Token;
use filter_verifier::Verified;
use std::alloc::{AllocError, Global};

/// The verified code of a text, for each instruction the byte that it comes from, and the text's tokens.
#[derive(Drop)]
pub struct PlacedCode {
    /// The code.
    pub verified: Verified,
    /// The bytes of the text.
    pub places: Vec<usize>,
    /// The tokens that cut the text.
    pub tokens: Vec<Token>,
}

/// The verified code of the filter that a text spells, for domains of `size` nodes, and the bytes that its instructions come from.
pub fn placed_code(alloc: Global, text: &[u8], size: u32) -> Result<PlacedCode, Failure>
    ensures verified { IfOk result (λ placed. IsVerifiedOf size text.now placed.verified) }
    ensures places { IfOk result (λ placed. ArePlacesOf text.now placed.places.items) }
    ensures tokens { IfOk result (λ placed. IsTokenization placed.tokens.items 0 text.now) }
    ensures refused { IfErr result (OnDiagnosis (IsDiagnosis size false text.now)) }
{
    let CompiledSource {
        code,
        places,
        tokens,
    } = code_of(alloc, text, false)?;
    match verify_mapped(alloc, code, places.as_slice(), size) {
        Ok(verified) => Ok(PlacedCode {
            verified,
            places,
            tokens,
        }),
        Err(failure) => Err(failure),
    }
}

/// The verified code of the filter that a text spells, for domains of `size` nodes.
pub fn verified_filter(alloc: Global, text: &[u8], size: u32) -> Result<Verified, Failure>
    ensures verified { IfOk result (IsVerifiedOf size text.now) }
    ensures refused { IfErr result (OnDiagnosis (IsDiagnosis size false text.now)) }
{
    match placed_code(alloc, text, size) {
        Ok(placed) => Ok(placed.verified),
        Err(failure) => Err(failure),
    }
}

/// The verified code of the filter that a text spells, for domains of `size` nodes; or the report that refuses it, of which people are told as
/// `wording` says. It is all that comes of a filter before its first route.
pub fn open_filter(
    alloc: Global,
    source: &NamedText<'_>,
    size: u32,
    wording: Wording,
) -> Result<Result<PlacedCode, Report>, AllocError>
    ensures { IfOk result (λ opened. MatchResult opened (IsPlacedOf size source.now.text.now)
        (λ report. IsFilterRefusal size wording (named source.now) (report_of report))) }
{
    match placed_code(alloc, source.text, size) {
        Ok(placed) => Ok(Ok(placed)),
        Err(Failure::Refused(why)) => Ok(Err(Report {
            out: refusal_line(alloc, why.refusal)?,
            err: refusal_notice(alloc, wording, source, &why)?,
            status: FAILED,
        })),
        Err(Failure::Memory) => Err(AllocError),
    }
}
