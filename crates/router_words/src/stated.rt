//! Which line of a router's file says an option.
ghost use Rattle.std.specs.Prelude.{◌≡◌, map};
ghost use Rattle.std.specs.Option.{option_map};
ghost use Rattle.router_files.specs.Files.{statement_of};
ghost use Rattle.router_words.specs.Stated as spec;

use router_files::{RouterOption, Statement};

/// The file that says options of a router. Where there is none, no line says any.
#[derive(Clone, Copy)]
pub struct Origin<'a> {
    /// Its name.
    pub name: &'a str,
    /// What its lines say, in order.
    pub statements: &'a [Statement],
}

/// No file.
pub fn no_file() -> Origin<'static>
    ensures { spec.origin_of result ≡ spec.no_file }
{
    Origin {
        name: "",
        statements: &[],
    }
}

/// Whether a line says an option.
pub(crate) fn is_of(statement: &Statement, option: RouterOption) -> bool
    ensures { result ≡ spec.is_of option (statement_of statement.now) }
{
    statement.option.name() == option.name()
}

/// The line that says an option, before which so many others say it too.
pub fn nth_stated<'a>(
    statements: &'a [Statement],
    option: RouterOption,
    at: usize,
) -> Option<&'a Statement>
    ensures { option_map (λ s. statement_of s.now) result ≡ spec.nth_stated option at (map statement_of statements.now) }
{
    let mut left = at;
    for statement in statements {
        if is_of(statement, option) {
            if left == 0 {
                return Some(statement);
            }
            left -= 1;
        }
    }
    None
}
