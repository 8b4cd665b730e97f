//! The options and arguments of the commands, with their help.
//!
//! **The options of each command stand twice**: in the table that the help is made of, and, without its texts, in `specs/Parameters.antt`. What the
//! words of a command line mean is said by the second, so that an option that is lost, or need not be there any more, is refused by a contract.
ghost use Rattle.std.specs.Prelude.{◌≡◌, false, Some};
ghost use Rattle.clap.specs.Words.{rule_of};
ghost use Rattle.command_line.specs.Parameters.{written};

use clap::builder::ValueParser;
use clap::{Arg, ArgAction};
use std::alloc::Global;

/// How an option or an argument is written, and what it takes.
#[derive(Clone, Copy)]
pub enum ParameterKind {
    /// An option that stands there or not.
    Flag,
    /// One that may also be a letter behind a dash.
    Letter(char),
    /// An option with a text.
    Text,
    /// One that may be given many times.
    Texts,
    /// An option that is one of some words.
    When,
    /// An option with the code of a warning, which may be given many times.
    Codes,
    /// An option that says how reports are written.
    Format,
    /// One that says how what comes of tests is written.
    TestFormat,
    /// An option with a number of at most 32 bits.
    Number,
    /// One with a number of at most 64 bits.
    Count,
    /// An argument.
    Argument,
    /// Any number of arguments.
    Arguments,
}

/// An option or an argument.
#[derive(Clone, Copy)]
pub struct Parameter {
    /// Its name, which an option has behind two dashes.
    pub name: &'static str,
    /// What its help calls its value. A flag has none.
    pub value: &'static str,
    /// What its help says of it.
    pub help: &'static str,
    /// How it is written, and what it takes.
    pub kind: ParameterKind,
    /// There is no default.
    pub is_required: bool,
}

/// The words that options may say which take one of some.
#[derive(Clone, Copy)]
pub struct Choices<'a> {
    /// Those of the kind `When`.
    pub words: &'a [&'a str],
    /// Those of the kind `Codes`.
    pub codes: &'a [&'a str],
    /// Those of the kind `Format`.
    pub formats: &'a [&'a str],
    /// Those of the kind `TestFormat`.
    pub test_formats: &'a [&'a str],
}

/// A parameter as the parser of words knows it, where options that are one of some words take these. The help shows it under this heading, if it
/// has one.
pub(crate) fn arg_of<'a>(
    alloc: Global,
    parameter: &Parameter,
    heading: Option<&'static str>,
    choices: Choices<'a>,
) -> Arg<'a>
    ensures rule { rule_of result ≡ record (written choices.entry parameter.now.name.now parameter.now.kind) { required = parameter.now.is_required } }
    ensures local { result.global ≡ false }
{
    let arg = written(alloc, parameter, choices)
        .help(parameter.help)
        .required(parameter.is_required);
    match heading {
        Some(heading) => arg.help_heading(heading),
        None => arg,
    }
}

/// A parameter as it is written.
fn written<'a>(alloc: Global, parameter: &Parameter, choices: Choices<'a>) -> Arg<'a>
    ensures rule { rule_of result ≡ written choices.entry parameter.now.name.now parameter.now.kind }
    ensures local { result.global ≡ false }
{
    let arg = Arg::new(alloc, parameter.name);
    match parameter.kind {
        ParameterKind::Flag => flag(arg, parameter.name),
        ParameterKind::Letter(letter) => flag(arg, parameter.name).short(letter),
        ParameterKind::Argument => arg.value_name(parameter.value),
        ParameterKind::Arguments => arg
            .value_name(parameter.value)
            .action(ArgAction::Append)
            .num_args(0..),
        ParameterKind::Text => option(arg, parameter),
        ParameterKind::Texts => option(arg, parameter).action(ArgAction::Append),
        ParameterKind::When => option(arg, parameter).value_parser(ValueParser::Names(
            choices.words,
        )),
        ParameterKind::Codes => option(arg, parameter)
            .value_parser(ValueParser::Names(choices.codes))
            .action(ArgAction::Append),
        ParameterKind::Format => {
            option(arg, parameter).value_parser(ValueParser::Names(choices.formats))
        }
        ParameterKind::TestFormat => {
            option(arg, parameter).value_parser(ValueParser::Names(choices.test_formats))
        }
        ParameterKind::Number => option(arg, parameter).value_parser(clap::value_parser!(u32)),
        ParameterKind::Count => option(arg, parameter).value_parser(clap::value_parser!(u64)),
    }
}

/// An option that has no value.
fn flag<'a>(arg: Arg<'a>, name: &'static str) -> Arg<'a>
    ensures rule { rule_of result ≡ record (rule_of arg.entry) { long = Some name.now; action = Some ArgAction.SetTrue } }
    ensures local { result.global ≡ arg.entry.global }
{
    arg.long(name).action(ArgAction::SetTrue)
}

/// An option that has one.
fn option<'a>(arg: Arg<'a>, parameter: &Parameter) -> Arg<'a>
    ensures rule { rule_of result ≡ record (rule_of arg.entry) { long = Some parameter.now.name.now; value_names = 1 } }
    ensures local { result.global ≡ arg.entry.global }
{
    arg.long(parameter.name).value_name(parameter.value)
}
