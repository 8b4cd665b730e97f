//! The commands on whole texts: what each says of one.
ghost use Rattle.std.specs.Prelude.{◌≡◌};
ghost use Rattle.filter_checks.specs.Comparing.{IsDiffReport};
ghost use Rattle.filter_lint.specs.Checking.{IsCheckReport};
ghost use Rattle.filter_lint.specs.Linting.{IsLintReport};
ghost use Rattle.filter_reports.specs.Listing.{IsListReport};
ghost use Rattle.filter_reports.specs.Notices.{named, words_if};
ghost use Rattle.filter_reports.specs.Rewriting.{IsRewriteReport};

use filter_checks::diff_report;
use filter_lint::{check_report, lint_report};
use filter_reports::{NamedText, Report, Wording, list_report, rewrite_report};
use program_console::TextCommand;
use report_formats::{CheckOptions, DiffOptions, LintOptions};
use std::alloc::{AllocError, Global};

/// `check`
#[derive(Clone, Copy)]
pub(crate) struct CheckCommand {
    /// How a source is checked.
    pub(crate) how: CheckOptions,
}

impl TextCommand for CheckCommand {
    ghost reports = { λ command source report. IsCheckReport command.how source report };

    fn report(&self, alloc: Global, source: &NamedText<'_>) -> Result<Report, AllocError> {
        check_report(alloc, self.how, source)
    }
}

/// `diff`, whose older filter is at hand
#[derive(Clone, Copy)]
pub(crate) struct DiffCommand<'a> {
    /// How the two are compared.
    pub(crate) how: DiffOptions,
    /// The text of the older filter.
    pub(crate) old: NamedText<'a>,
}

impl<'a> TextCommand for DiffCommand<'a> {
    ghost reports = { λ command source report. IsDiffReport command.how (named command.old) source report };

    fn report(&self, alloc: Global, source: &NamedText<'_>) -> Result<Report, AllocError> {
        diff_report(alloc, self.how, &self.old, source)
    }
}

/// `lint`
#[derive(Clone, Copy)]
pub(crate) struct LintCommand<'a> {
    /// How a filter is looked through.
    pub(crate) how: &'a LintOptions,
}

impl<'a> TextCommand for LintCommand<'a> {
    ghost reports = { λ command source report. IsLintReport command.how.now source report };

    fn report(&self, alloc: Global, source: &NamedText<'_>) -> Result<Report, AllocError> {
        lint_report(alloc, self.how, source)
    }
}

/// `list`
#[derive(Clone, Copy)]
pub(crate) struct ListCommand {
    /// The number of nodes of the domains for which the code is verified, if it is.
    pub(crate) size: Option<u32>,
    /// The source is a code file in hexadecimal, and not a filter's text.
    pub(crate) is_code: bool,
    /// A refusal is told in words too.
    pub(crate) is_explained: bool,
}

impl TextCommand for ListCommand {
    ghost reports = { λ command source report. IsListReport command.size command.is_code (words_if command.is_explained) source report };

    fn report(&self, alloc: Global, source: &NamedText<'_>) -> Result<Report, AllocError> {
        let wording = Wording::words_if(self.is_explained);
        list_report(alloc, source, self.size, self.is_code, wording)
    }
}

/// `rewrite`
#[derive(Clone, Copy)]
pub(crate) struct RewriteCommand {
    /// The code file is written in the older form.
    pub(crate) is_old: bool,
}

impl TextCommand for RewriteCommand {
    ghost reports = { λ command source report. IsRewriteReport command.is_old source.text report };

    fn report(&self, alloc: Global, source: &NamedText<'_>) -> Result<Report, AllocError> {
        rewrite_report(alloc, source.text, self.is_old)
    }
}
