//! What each code means by which something is refused or warned of, an input that earns it, and how to mend that: the one source of
//! `ncroute explain` and of the documents' tables.
#![tactic(auto)]

ghost use Rattle.refusal_texts.specs.Codes.{IsSaidOf, all_codes, code_codes, lint_codes, run_codes, text_codes};

mod code_pages;
mod lint_pages;
mod page;
mod run_pages;
mod text_pages;

use code_pages::CODE_PAGES;
use lint_pages::LINT_PAGES;
use page::text_of;
use run_pages::RUN_PAGES;
use text_pages::TEXT_PAGES;

/// What is said of a code, as `P2`. None if there is no such code.
pub fn explanation_of(code: &str) -> Option<&'static str>
    ensures { IsSaidOf all_codes code.now result }
{
    if let Some(text) = of_texts(code) {
        return Some(text);
    }
    if let Some(text) = of_code(code) {
        return Some(text);
    }
    if let Some(text) = of_runs(code) {
        return Some(text);
    }
    of_warnings(code)
}

/// What is said of a code by which a text is refused.
fn of_texts(code: &str) -> Option<&'static str>
    ensures { IsSaidOf text_codes code.now result }
{
    text_of(&TEXT_PAGES, code)
}

/// What is said of a code by which code or a code file is refused, or goes wrong.
fn of_code(code: &str) -> Option<&'static str>
    ensures { IsSaidOf code_codes code.now result }
{
    text_of(&CODE_PAGES, code)
}

/// What is said of a code of a run.
fn of_runs(code: &str) -> Option<&'static str>
    ensures { IsSaidOf run_codes code.now result }
{
    text_of(&RUN_PAGES, code)
}

/// What is said of a code of a warning.
fn of_warnings(code: &str) -> Option<&'static str>
    ensures { IsSaidOf lint_codes code.now result }
{
    text_of(&LINT_PAGES, code)
}
