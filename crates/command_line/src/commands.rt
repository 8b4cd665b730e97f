//! The commands of the program, each with its options and arguments, and their help.
ghost use Rattle.std.specs.Prelude.{◌≡◌, false, IfOk, map};
ghost use Rattle.std.specs.List.{All};
ghost use Rattle.clap.specs.Words.{app_of, new_app, rule_of, shape_of};
ghost use Rattle.command_line.specs.Parameters as spec;

use crate::headings::heading_of;
use crate::help::help_of;
use crate::options::{Choices, Parameter, ParameterKind, arg_of};
use clap::{Arg, Command};
use program_words::VERSION;
use std::alloc::{AllocError, Global};

/// The program, with all commands. Options that are one of some words take these.
pub(crate) fn program<'a>(alloc: Global, choices: Choices<'a>) -> Result<Command<'a>, AllocError>
    ensures { IfOk result (λ program. app_of program ≡ spec.program choices.entry) }
{
    bare_program(alloc).subcommands(commands_of(alloc, choices)?)
}

/// The program without its commands.
fn bare_program<'a>(alloc: Global) -> Command<'a>
    ensures { app_of result ≡ spec.bare_program }
{
    Command::new(alloc, "ncroute")
        .about("Check route filters, take routes through their code, and run a router with them")
        .version(VERSION)
        .subcommand_required(true)
        .arg_required_else_help(true)
}

/// The commands, in order.
fn commands_of<'a>(alloc: Global, choices: Choices<'a>) -> Result<Vec<Command<'a>>, AllocError>
    ensures shapes { IfOk result (λ commands. map shape_of commands.items ≡ map (λ name. (spec.command_app choices.entry name).top) spec.listed) }
    ensures local { IfOk result (λ commands. All (λ c. spec.has_globals c ≡ false) commands.items) }
{
    let mut commands = Vec::new(alloc);
    for (name, about) in all_commands() {
        commands.push(command_of(alloc, *name, *about, choices)?)?;
    }
    Ok(commands)
}

/// A command as the parser of words knows it.
fn command_of<'a>(
    alloc: Global,
    name: &'static str,
    about: &'static str,
    choices: Choices<'a>,
) -> Result<Command<'a>, AllocError>
    ensures app { IfOk result (λ command. app_of command ≡ spec.command_app choices.entry name.now) }
    ensures local { IfOk result (λ command. spec.has_globals command ≡ false) }
{
    described(alloc, name, about).args(args_of(alloc, name, choices)?)
}

/// A command without its options and arguments.
fn described<'a>(alloc: Global, name: &'static str, about: &'static str) -> Command<'a>
    ensures app { app_of result ≡ new_app name.now }
    ensures local { spec.has_globals result ≡ false }
{
    let command = Command::new(alloc, name).about(about);
    match help_of(name) {
        Some(help) => command.after_help(help),
        None => command,
    }
}

/// The table of commands. What handles it is not to know its texts: the checker would carry them along with each step.
fn all_commands() -> &'static [(&'static str, &'static str)]
    ensures { map (λ entry. entry.0.now) result.now ≡ spec.listed }
{
    &COMMANDS
}

/// The table of options and arguments, likewise.
pub(crate) fn all_parameters() -> &'static [(&'static str, Parameter)]
    ensures { map spec.taken_by result.now ≡ spec.all_taken }
{
    &PARAMETERS
}

/// The options and arguments of a command, in order.
fn args_of<'a>(
    alloc: Global,
    command: &str,
    choices: Choices<'a>,
) -> Result<Vec<Arg<'a>>, AllocError>
    ensures rules { IfOk result (λ args. map rule_of args.items ≡ spec.rules_of choices.entry command.now spec.all_taken) }
    ensures local { IfOk result (λ args. All (λ a. a.global ≡ false) args.items) }
{
    let mut args = Vec::new(alloc);
    for (name, parameter) in all_parameters() {
        if *name == command {
            let heading = heading_of(command, parameter.name);
            args.push(arg_of(alloc, parameter, heading, choices))?;
        }
    }
    Ok(args)
}

/// The commands and what each does, in the order in which the help shows them.
static COMMANDS: [(&str, &str); 14] = [
    ("check", "Compile a filter, and verify its code"),
    (
        "diff",
        "Compare two filters on all routes, and say where they differ",
    ),
    (
        "explain",
        "Explain a refusal code, with an example and a fix",
    ),
    ("filter", "Verify a filter, and take routes through it"),
    (
        "lint",
        "Warn of what is plainly wrong in filters, such as a command that no route reaches",
    ),
    (
        "list",
        "List the code of a filter, with what the verifier knows before each instruction",
    ),
    (
        "test",
        "Run test files, which say what verdicts a filter is to give",
    ),
    (
        "eval",
        "Take routes through a code file, and print the verdict of each",
    ),
    (
        "rewrite",
        "Write a code file in the newer form, or in the older one",
    ),
    (
        "domain",
        "Compute the routes of a whole domain, by a script of commands",
    ),
    (
        "net",
        "Run three routers in a ring, and replay what happened at each",
    ),
    (
        "replay",
        "Replay the history of a router, and say whether each reply in it is right",
    ),
    (
        "router",
        "Run a router that talks to its neighbours over files such as FIFOs",
    ),
    (
        "run",
        "Run a router by a script of commands, and answer each of them",
    ),
];

/// The options and arguments of each command, in the order in which its help shows them.
static PARAMETERS: [(&str, Parameter); 70] = [
    ("check", SIZE),
    ("check", CODE),
    ("check", NAMES),
    ("check", QUIET),
    ("check", WARN),
    ("check", FORMAT),
    ("check", EXPLAIN),
    ("check", CHECKED),
    ("diff", SIZE),
    ("diff", LIMIT),
    ("diff", FORMAT),
    ("diff", EXPLAIN),
    ("diff", OLD_FILE),
    ("diff", NEW_FILE),
    ("explain", EXPLAINED),
    ("filter", SIZE),
    ("filter", WHY),
    ("filter", COVERAGE),
    ("filter", EXPLAIN),
    ("filter", TRIED),
    ("lint", SIZE),
    ("lint", LIMIT),
    ("lint", ALLOW),
    ("lint", ORDER),
    ("lint", FORMAT),
    ("lint", EXPLAIN),
    ("lint", LINTED),
    ("list", VERIFIED_SIZE),
    ("list", CODE),
    ("list", EXPLAIN),
    ("list", LISTED),
    ("test", LIMIT),
    ("test", TEST_FORMAT),
    ("test", EXPLAIN),
    ("test", TEST_FILES),
    ("eval", EXPLAIN),
    ("rewrite", OLD),
    ("domain", COMPARE),
    ("domain", FORMAT),
    ("domain", PAGE),
    ("domain", EXPLAIN),
    ("domain", SCRIPT),
    ("replay", REPLAYED),
    ("router", CONFIG),
    ("router", CHECK),
    ("router", WHOLE_DOMAIN),
    ("router", OTHER_DOMAIN),
    ("router", ROUTER_SIZE),
    ("router", NODE),
    ("router", PREFIX),
    ("router", LINK),
    ("router", HOLD),
    ("router", RETRY),
    ("router", QUEUE),
    ("router", NAMED_FILTER),
    ("router", IMPORT),
    ("router", EXPORT),
    ("router", CONTROL),
    ("router", STAY),
    ("router", ROOM),
    ("router", SEGMENT_FOLDER),
    ("router", SEGMENTS),
    ("router", ROUTES),
    ("router", SETTLE),
    ("router", LOG),
    ("run", FILTER),
    ("run", SAVE),
    ("run", STOP),
    ("run", EXPLAIN),
    ("run", SCRIPTS),
];

/// The options that take a number.
pub(crate) static NUMBERED: [&str; 8] = [
    "--size",
    "--limit",
    "--node",
    "--queue",
    "--retry",
    "--hold",
    "--segments",
    "--settle",
];

/// The number of nodes of the domain.
const SIZE: Parameter = Parameter {
    name: "size",
    value: "N",
    help: "The number of nodes of the routing domain (2 to 250); without it NCROUTE_SIZE in the environment says it",
    kind: ParameterKind::Number,
    is_required: true,
};

/// A source is a code file.
const CODE: Parameter = Parameter {
    name: "code",
    value: "",
    help: "Read a code file in hexadecimal in place of a filter",
    kind: ParameterKind::Flag,
    is_required: false,
};

/// Warnings of a code are not told.
const ALLOW: Parameter = Parameter {
    name: "allow",
    value: "CODE",
    help: "Say no warning of this code, as W3; may be given many times",
    kind: ParameterKind::Codes,
    is_required: false,
};

/// Whether filters keep the order of metrics is looked for.
const ORDER: Parameter = Parameter {
    name: "order",
    value: "",
    help: "Look for metrics whose order is not kept (W9), too, which may take long",
    kind: ParameterKind::Flag,
    is_required: false,
};

/// The name of its source stands before each line of a report.
const NAMES: Parameter = Parameter {
    name: "names",
    value: "",
    help: "Begin each line of the output with the name of its file, as `FILE: `",
    kind: ParameterKind::Flag,
    is_required: false,
};

/// Only refusals are written.
const QUIET: Parameter = Parameter {
    name: "quiet",
    value: "",
    help: "Print nothing but the lines that refuse something",
    kind: ParameterKind::Letter('q'),
    is_required: false,
};

/// The warnings of what is verified are told.
const WARN: Parameter = Parameter {
    name: "warn",
    value: "",
    help: "Say on standard error what `ncroute lint` says of each filter that is verified",
    kind: ParameterKind::Flag,
    is_required: false,
};

/// How reports are written.
const FORMAT: Parameter = Parameter {
    name: "format",
    value: "FORMAT",
    help: "How to print what is found: text, the default, or json, an object a line",
    kind: ParameterKind::Format,
    is_required: false,
};

/// How what comes of tests is written.
const TEST_FORMAT: Parameter = Parameter {
    name: "format",
    value: "FORMAT",
    help: "How to print what comes of the tests: text, the default, which is TAP; json, an object a line; or junit, JUnit's XML",
    kind: ParameterKind::TestFormat,
    is_required: false,
};

/// A refusal is told in words on standard error.
const EXPLAIN: Parameter = Parameter {
    name: "explain",
    value: "WHEN",
    help: "When to say on standard error why something is refused, with its line and column; auto, the default, does so on a terminal and for files that are named",
    kind: ParameterKind::When,
    is_required: false,
};

/// The files to check.
const CHECKED: Parameter = Parameter {
    name: "file",
    value: "FILE",
    help: "A file to check in place of standard input; - is standard input",
    kind: ParameterKind::Arguments,
    is_required: false,
};

/// The number of classes of routes after which a comparison, a test or a search for warnings ends.
const LIMIT: Parameter = Parameter {
    name: "limit",
    value: "CLASSES",
    help: "Try at most this many classes of routes (1000000)",
    kind: ParameterKind::Count,
    is_required: false,
};

/// The file of the filter as it was.
const OLD_FILE: Parameter = Parameter {
    name: "old",
    value: "OLD",
    help: "The file of the filter as it was; - is standard input",
    kind: ParameterKind::Argument,
    is_required: true,
};

/// The file of the filter as it will be.
const NEW_FILE: Parameter = Parameter {
    name: "new",
    value: "NEW",
    help: "The file of the filter as it will be; - is standard input",
    kind: ParameterKind::Argument,
    is_required: true,
};

/// The code that is explained.
const EXPLAINED: Parameter = Parameter {
    name: "code",
    value: "CODE",
    help: "The code to explain, as P2; or a letter, whose codes are listed; without it the letters are listed",
    kind: ParameterKind::Argument,
    is_required: false,
};

/// The file of a filter that is tried.
const TRIED: Parameter = Parameter {
    name: "file",
    value: "FILE",
    help: "The file of the filter's text",
    kind: ParameterKind::Argument,
    is_required: true,
};

/// The verdict on a route is explained.
const WHY: Parameter = Parameter {
    name: "why",
    value: "",
    help: "Say of each route which place decided, and what happened on the way",
    kind: ParameterKind::Flag,
    is_required: false,
};

/// Routes are counted where they come by.
const COVERAGE: Parameter = Parameter {
    name: "coverage",
    value: "",
    help: "After all routes, say how many of them came to each command",
    kind: ParameterKind::Flag,
    is_required: false,
};

/// The filters that are looked through.
const LINTED: Parameter = Parameter {
    name: "file",
    value: "FILE",
    help: "The file of a filter in place of standard input; - is standard input",
    kind: ParameterKind::Arguments,
    is_required: false,
};

/// The number of nodes that a listing is verified for.
const VERIFIED_SIZE: Parameter = Parameter {
    name: "size",
    value: "N",
    help: "Verify the code for a routing domain of N nodes (2 to 250), and say what is known before each instruction",
    kind: ParameterKind::Number,
    is_required: false,
};

/// The file to list.
const LISTED: Parameter = Parameter {
    name: "file",
    value: "FILE",
    help: "The file to list in place of standard input; - is standard input",
    kind: ParameterKind::Argument,
    is_required: false,
};

/// The test files.
const TEST_FILES: Parameter = Parameter {
    name: "file",
    value: "FILE",
    help: "A test file in place of standard input; - is standard input",
    kind: ParameterKind::Arguments,
    is_required: false,
};

/// A code file is written in the older form.
const OLD: Parameter = Parameter {
    name: "old",
    value: "",
    help: "Write the older form, NCF1",
    kind: ParameterKind::Flag,
    is_required: false,
};

/// The file of a domain's script.
const SCRIPT: Parameter = Parameter {
    name: "file",
    value: "FILE",
    help: "The file of the commands in place of standard input; - is standard input",
    kind: ParameterKind::Argument,
    is_required: false,
};

/// The files to replay.
const REPLAYED: Parameter = Parameter {
    name: "file",
    value: "FILE",
    help: "The text of a history, or its segments in order, in place of standard input; - is standard input",
    kind: ParameterKind::Arguments,
    is_required: false,
};

/// The domain before a change.
const COMPARE: Parameter = Parameter {
    name: "compare",
    value: "BEFORE",
    help: "Say what a change does: from the domain of the script BEFORE to that of the script FILE",
    kind: ParameterKind::Text,
    is_required: false,
};

/// The file of the page of a domain.
const PAGE: Parameter = Parameter {
    name: "page",
    value: "OUT",
    help: "Write a page for a browser to OUT, which must not be there yet: the domain as it is behind the last command",
    kind: ParameterKind::Text,
    is_required: false,
};

/// The file in which a router's options are.
const CONFIG: Parameter = Parameter {
    name: "config",
    value: "FILE",
    help: "Read options from FILE too, one a line without dashes, as `link 1 in out`",
    kind: ParameterKind::Text,
    is_required: false,
};

/// A router is not started.
const CHECK: Parameter = Parameter {
    name: "check",
    value: "",
    help: "Read the options and verify the filters, say what is wrong with them, and start nothing",
    kind: ParameterKind::Flag,
    is_required: false,
};

/// The file of a router's whole domain.
const WHOLE_DOMAIN: Parameter = Parameter {
    name: "domain",
    value: "FILE",
    help: "Take size, prefixes, links and filters from FILE, a script of `ncroute domain`",
    kind: ParameterKind::Text,
    is_required: false,
};

/// A neighbour's domain may have been set up by another file.
const OTHER_DOMAIN: Parameter = Parameter {
    name: "allow-other-domain",
    value: "",
    help: "Speak with neighbours that were started from another file of the domain, too",
    kind: ParameterKind::Flag,
    is_required: false,
};

/// The number of nodes of a router's domain.
const ROUTER_SIZE: Parameter = Parameter {
    name: "size",
    value: "N",
    help: "The number of nodes of the routing domain (2 to 250)",
    kind: ParameterKind::Number,
    is_required: false,
};

/// The node that a router is.
const NODE: Parameter = Parameter {
    name: "node",
    value: "ME",
    help: "The node that the router is, below N",
    kind: ParameterKind::Number,
    is_required: false,
};

/// How many entries of its history a router has room for.
const ROOM: Parameter = Parameter {
    name: "limit",
    value: "ENTRIES",
    help: "How many entries of the history are kept in memory (2,048 to 1,000,000)",
    kind: ParameterKind::Number,
    is_required: false,
};

/// The most messages that may wait for a neighbour of a router.
const QUEUE: Parameter = Parameter {
    name: "queue",
    value: "MESSAGES",
    help: "Close a link where more messages wait for the neighbour (N or more; 65,536 if left out)",
    kind: ParameterKind::Number,
    is_required: false,
};

/// How long a closed link waits before it is opened again.
const RETRY: Parameter = Parameter {
    name: "retry",
    value: "SECONDS",
    help: "Reopen a closed link after this many seconds (1 or more), later each time, up to 60",
    kind: ParameterKind::Number,
    is_required: false,
};

/// How long a router may be silent.
const HOLD: Parameter = Parameter {
    name: "hold",
    value: "SECONDS",
    help: "Neighbours hold the router for dead after this silence (0 to 3,600; 0: never; 9 if left out)",
    kind: ParameterKind::Number,
    is_required: false,
};

/// The prefixes of nodes.
const PREFIX: Parameter = Parameter {
    name: "prefix",
    value: "V=PREFIX",
    help: "The prefix of node V; otherwise it is 10.V.0.0/16",
    kind: ParameterKind::Texts,
    is_required: false,
};

/// The filters of a router.
const NAMED_FILTER: Parameter = Parameter {
    name: "filter",
    value: "NAME=FILE",
    help: "Give the filter of FILE this name; where one is refused, nothing is started",
    kind: ParameterKind::Texts,
    is_required: false,
};

/// The import filters of a router.
const IMPORT: Parameter = Parameter {
    name: "import",
    value: "W=NAME",
    help: "The filter of what neighbour W tells",
    kind: ParameterKind::Texts,
    is_required: false,
};

/// The export filters of a router.
const EXPORT: Parameter = Parameter {
    name: "export",
    value: "W=NAME",
    help: "The filter of what neighbour W is told",
    kind: ParameterKind::Texts,
    is_required: false,
};

/// The links of a router.
const LINK: Parameter = Parameter {
    name: "link",
    value: "W=IN,OUT",
    help: "Read what neighbour W says from IN, and write what it is told to OUT",
    kind: ParameterKind::Texts,
    is_required: false,
};

/// Where a router's operators are served.
const CONTROL: Parameter = Parameter {
    name: "control",
    value: "IN,OUT[,look]",
    help: "Serve an operator at two FIFOs, who may look alone by `look`; may be given many times",
    kind: ParameterKind::Texts,
    is_required: false,
};

/// Where a router keeps its log.
const LOG: Parameter = Parameter {
    name: "log",
    value: "FILE",
    help: "Add a line to FILE for each event, with its time; FILE may be renamed at any time",
    kind: ParameterKind::Text,
    is_required: false,
};

/// The folder in which a router's history is kept.
const SEGMENT_FOLDER: Parameter = Parameter {
    name: "save",
    value: "FOLDER",
    help: "Keep the history in FOLDER, which is made and must not be there yet; see `ncroute replay`",
    kind: ParameterKind::Text,
    is_required: false,
};

/// How many segments of its history a router keeps.
const SEGMENTS: Parameter = Parameter {
    name: "segments",
    value: "COUNT",
    help: "Keep the last segments of FOLDER alone, so many (1 or more); otherwise all",
    kind: ParameterKind::Number,
    is_required: false,
};

/// Where a router tells its routes.
const ROUTES: Parameter = Parameter {
    name: "routes",
    value: "FILE",
    help: "Tell the routes, and each change of them, to FILE, mostly a FIFO; see `man ncroute-kernel`",
    kind: ParameterKind::Text,
    is_required: false,
};

/// How long it waits before it tells them first.
const SETTLE: Parameter = Parameter {
    name: "settle",
    value: "SECONDS",
    help: "Tell the routes after this many seconds (10 if left out), or as soon as nothing changes any more",
    kind: ParameterKind::Number,
    is_required: false,
};

/// The file in which the history of a script's router is kept.
const SAVE: Parameter = Parameter {
    name: "save",
    value: "FILE",
    help: "Keep the router's history in FILE, which must not be there yet; see `ncroute replay`",
    kind: ParameterKind::Text,
    is_required: false,
};

/// A router goes on where its standard input ends.
const STAY: Parameter = Parameter {
    name: "stay",
    value: "",
    help: "Go on when standard input ends, until the process is killed",
    kind: ParameterKind::Flag,
    is_required: false,
};

/// The filters that a script is started with.
const FILTER: Parameter = Parameter {
    name: "filter",
    value: "NAME=FILE",
    help: "Give the filter of FILE this name when the domain is set up; a run whose filter is refused ends there",
    kind: ParameterKind::Texts,
    is_required: false,
};

/// A script ends at its first refused line.
const STOP: Parameter = Parameter {
    name: "stop",
    value: "",
    help: "End at the first refused line, and say on standard error which line that is",
    kind: ParameterKind::Flag,
    is_required: false,
};

/// The files of a router's script.
const SCRIPTS: Parameter = Parameter {
    name: "file",
    value: "FILE",
    help: "A file of the commands in place of standard input; - is standard input; several are one script, in order",
    kind: ParameterKind::Arguments,
    is_required: false,
};
