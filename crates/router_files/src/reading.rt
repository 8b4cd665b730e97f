//! A router's file is read.
//!
//! **The first line that is wrong refuses the whole file.** A router that was started without an option that was mistyped would be another router.
ghost use Rattle.std.specs.Prelude.{◌≡◌, ◌+◌, ◌<◌, ◌^◌, Ok, OnOk, MatchResult, length, map};
ghost use Rattle.std.specs.List.{enumerate_from};
ghost use Rattle.std.specs.Option.{option_map};
ghost use Rattle.std.specs.Str.Lines.{lines};
ghost use Rattle.router_files.specs.Files as spec;
ghost use Rattle.router_files.specs.Said.{said_of};

use crate::lines::cut_line;
use crate::options::{RouterOption, option_named};
use crate::said::{LineFault, Said, said_of};
use crate::words::words_of;
use std::alloc::{AllocError, Global};

/// A line of a router's file that says an option.
#[derive(Drop)]
pub struct Statement {
    /// The option.
    pub option: RouterOption,
    /// What it says of it.
    pub said: Said,
    /// The number of the line, counted from 1.
    pub number: usize,
    /// The line.
    pub line: Vec<u8>,
}

/// The first line that is refused.
#[derive(Drop)]
pub struct WrongLine {
    /// Its number, counted from 1.
    pub number: usize,
    /// The line. It is empty where memory was refused.
    pub line: Vec<u8>,
    /// Why it is refused.
    pub why: LineFault,
}

/// What an option and the words behind its name say.
fn read_option(
    alloc: Global,
    folder: &str,
    option: RouterOption,
    values: &[&str],
) -> Result<Option<(RouterOption, Said)>, LineFault>
    ensures { spec.IsRead result (spec.as_read option (said_of folder.now option (map (λ value. value.now) values.now))) }
{
    let said = said_of(alloc, folder, option, values)?;
    Ok(Some((option, said)))
}

/// What these words of a line say; nothing where there are none.
fn read_words(
    alloc: Global,
    folder: &str,
    words: &[&str],
) -> Result<Option<(RouterOption, Said)>, LineFault>
    ensures { spec.IsRead result (spec.words_read folder.now (map (λ word. word.now) words.now)) }
{
    match words {
        [] => Ok(None),
        [name, values @ ..] => match option_named(name) {
            Some(option) => read_option(alloc, folder, option, values),
            None => Err(LineFault::Unknown),
        },
    }
}

/// What a line says, in a file of this folder; nothing where it is empty, or has a comment alone.
fn read_line(
    alloc: Global,
    folder: &str,
    line: &[u8],
) -> Result<Option<(RouterOption, Said)>, LineFault>
    ensures { spec.IsRead result (spec.line_read folder.now line.now) }
{
    match words_of(alloc, line)? {
        Some(words) => read_words(alloc, folder, words.as_slice()),
        None => Err(LineFault::NotText),
    }
}

/// Adds what a line says to what earlier ones say.
fn add(
    alloc: Global,
    statements: &mut Vec<Statement>,
    number: usize,
    line: &[u8],
    read: Option<(RouterOption, Said)>,
) -> Result<(), AllocError>
    ensures { OnOk result (map spec.statement_of statements.new.items
        ≡ spec.with_read (map spec.statement_of statements.old.items) number line.now (option_map spec.read_of read)) }
{
    if let Some((option, said)) = read {
        let line = Vec::from_slice(alloc, line)?;
        statements.push(Statement {
            option,
            said,
            number,
            line,
        })?;
    }
    Ok(())
}

/// The line that is refused.
fn wrong_line(alloc: Global, number: usize, line: &[u8], why: LineFault) -> WrongLine
    ensures { spec.IsWrong number line.now why result }
{
    match Vec::from_slice(alloc, line) {
        Ok(line) => WrongLine { number, line, why },
        Err(_) => WrongLine {
            number,
            line: Vec::new(alloc),
            why: LineFault::Memory,
        },
    }
}

/// What the lines of a router's file say, in order; or the first that is refused. `folder` is what stands before the names of files that it
/// says, unless they count from the root on.
pub fn read_statements(
    alloc: Global,
    folder: &str,
    text: &[u8],
) -> Result<Vec<Statement>, WrongLine>
    requires { length text.now < 2 ^ 63 }
    ensures { MatchResult result (λ statements. spec.file_in folder.now text.now ≡ Ok (map spec.statement_of statements.items))
        (spec.IsFileFault (spec.file_in folder.now text.now)) }
{
    let mut statements = Vec::new(alloc);
    let mut rest = text;
    let mut number = 1;
    while let Some((line, behind)) = cut_line(rest) {
        let read = match read_line(alloc, folder, line) {
            Ok(read) => read,
            Err(why) => return Err(wrong_line(alloc, number, line, why)),
        };
        if add(alloc, &mut statements, number, line, read).is_err() {
            return Err(wrong_line(alloc, number, line, LineFault::Memory));
        }
        rest = behind;
        number += 1;
    }
    Ok(statements)
}
