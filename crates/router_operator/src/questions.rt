//! What is asked of a line and of a node before anything is done.
ghost use Rattle.std.specs.Prelude.{◌≡◌};
ghost use Rattle.router_operator.specs.Operators as spec;
ghost use Rattle.router_operator.specs.Questions as questions;

use operator_cmds::{one_word, two_words};
use router_status::Form;

/// What a line asks of a running router that no script can ask.
#[derive(Clone, Copy)]
pub enum Question {
    /// `quit`: the operator's work ends.
    Quit,
    /// `status` and `status json`: what the router is about.
    Status(Form),
    /// `routes json`: the route to each node, for a program.
    Routes,
}

/// What a line of one word asks.
fn question_of(word: &[u8]) -> Option<Question>
    ensures { result ≡ questions.question_of word.now }
{
    if word == b"quit".as_slice() {
        Some(Question::Quit)
    } else if word == b"status".as_slice() {
        Some(Question::Status(Form::Text))
    } else {
        None
    }
}

/// What a line of two words asks.
fn question_for(word: &[u8], form: &[u8]) -> Option<Question>
    ensures { result ≡ questions.question_for word.now form.now }
{
    if form != b"json".as_slice() {
        None
    } else if word == b"status".as_slice() {
        Some(Question::Status(Form::Json))
    } else if word == b"routes".as_slice() {
        Some(Question::Routes)
    } else {
        None
    }
}

/// What a line asks of a running router that no script can ask, if it does.
pub(crate) fn question_in(line: &[u8]) -> Option<Question>
    ensures { result ≡ questions.question_in line.now }
{
    if let Some(word) = one_word(line) {
        return question_of(word);
    }
    match two_words(line) {
        Some((word, form)) => question_for(word, form),
        None => None,
    }
}

/// Whether a node is one of those that have links.
pub(crate) fn has_link(links: &[u16], node: u16) -> bool
    ensures { result ≡ spec.has_link links.now node }
{
    for linked in links {
        if *linked == node {
            return true;
        }
    }
    false
}
