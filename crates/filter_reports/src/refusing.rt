//! The report on a source that is refused.
ghost use Rattle.std.specs.Prelude.{◌≡◌, IfOk};
ghost use Rattle.filter_reports.specs.Notices.{named};
ghost use Rattle.filter_reports.specs.Reports.{report_of};
ghost use Rattle.filter_reports.specs.Refusing.{IsRefusalReport};

use crate::named_text::NamedText;
use crate::refusal_findings::refusal_finding;
use crate::report::Report;
use crate::wording::{Wording, refusal_notice};
use filter_source::Diagnosis;
use report_formats::Format;
use std::alloc::{AllocError, Global};

/// The report on a source that is refused, with this exit status: people are told why, as `wording` says, or a line of JSON says it.
pub fn refusal_report(
    alloc: Global,
    format: Format,
    wording: Wording,
    source: &NamedText<'_>,
    why: &Diagnosis,
    status: u8,
) -> Result<Report, AllocError>
    ensures said { IfOk result (λ report. IsRefusalReport format wording (named source.now) why.now (report_of report)) }
    ensures status { IfOk result (λ report. report.status ≡ status) }
{
    match format {
        Format::Text => Ok(Report {
            out: Vec::new(alloc),
            err: refusal_notice(alloc, wording, source, why)?,
            status,
        }),
        Format::Json => Ok(Report {
            out: refusal_finding(alloc, source, why)?,
            err: Vec::new(alloc),
            status,
        }),
    }
}
