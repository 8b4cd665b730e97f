//! What a router's file says twice.
ghost use Rattle.std.specs.Prelude.{◌≡◌, MatchOption, find, map};
ghost use Rattle.std.specs.Option.{option_map};
ghost use Rattle.router_files.specs.Again as spec;
ghost use Rattle.router_files.specs.Files.{statement_of};
ghost use Rattle.router_files.specs.Said.{view_of};

use crate::reading::Statement;
use crate::said::Said;

/// A statement that says again what an earlier one says.
#[derive(Clone, Copy)]
pub struct Again<'a> {
    /// It.
    pub later: &'a Statement,
    /// The first that says so.
    pub earlier: &'a Statement,
}

/// The name that a statement gives to a filter.
fn filter_named(said: &Said) -> Option<&str>
    ensures { option_map (λ name. name.now) result ≡ spec.filter_named (view_of said.now) }
{
    match said {
        Said::Named { name, .. } => Some(name.as_str()),
        _ => None,
    }
}

/// Whether both give one name to a filter.
fn have_one_name(one: &Said, other: &Said) -> bool
    ensures { result ≡ spec.have_one_name (view_of one.now) (view_of other.now) }
{
    match (filter_named(one), filter_named(other)) {
        (Some(one), Some(other)) => one == other,
        _ => false,
    }
}

/// Whether a statement says again what another one says.
fn says_again(one: &Statement, other: &Statement) -> bool
    ensures { result ≡ spec.says_again (statement_of one.now) (statement_of other.now) }
{
    if one.option.name() != other.option.name() {
        return false;
    }
    one.option.stands_once() || have_one_name(&one.said, &other.said)
}

/// The first of some statements that another one says again.
fn first_said<'a>(earlier: &'a [Statement], one: &Statement) -> Option<&'a Statement>
    ensures { option_map (λ s. statement_of s.now) result ≡ find (spec.says_again (statement_of one.now)) (map statement_of earlier.now) }
{
    for other in earlier {
        if says_again(one, other) {
            return Some(other);
        }
    }
    None
}

/// The first statement that says again what an earlier one says: an option that one line alone may say, or the name of a filter.
pub fn find_again(statements: &[Statement]) -> Option<Again<'_>>
    ensures { MatchOption result (spec.NoneAgain (map statement_of statements.now)) (spec.IsAgain (map statement_of statements.now)) }
{
    for (n, later) in statements.iter().enumerate() {
        if let Some(earlier) = first_said(&statements[..n], later) {
            return Some(Again { later, earlier });
        }
    }
    None
}
