//! The options and the argument of the program, and their help.
ghost use Rattle.std.specs.Prelude.{◌≡◌, false, IfOk};
ghost use Rattle.clap.specs.Words.{app_of, rule_of};
ghost use Rattle.import_words.specs.Program as spec;

use clap::{Arg, Command};
use program_words::VERSION;
use std::alloc::{AllocError, Global};

/// The options that take a number.
pub(crate) static NUMBERED: [&str; 1] = ["--size"];

/// The program, with its options and its argument.
pub(crate) fn program<'a>(alloc: Global) -> Result<Command<'a>, AllocError>
    ensures { IfOk result (λ program. app_of program ≡ spec.program) }
{
    let sized = bare_program(alloc).arg(size(alloc))?;
    let writing = sized.arg(out(alloc))?;
    writing.arg(file(alloc))
}

/// The program without them.
fn bare_program<'a>(alloc: Global) -> Command<'a>
    ensures { app_of result ≡ spec.bare_program }
{
    Command::new(alloc, "ncimport")
        .about("Take a configuration of BIRD apart, and verify each filter of it")
        .version(VERSION)
        .after_help(HELP)
}

/// The number of nodes of the domain.
fn size<'a>(alloc: Global) -> Arg<'a>
    ensures rule { rule_of result ≡ spec.size }
    ensures local { result.global ≡ false }
{
    Arg::new(alloc, "size")
        .long("size")
        .value_name("N")
        .value_parser(clap::value_parser!(u32))
        .help(
            "The number of nodes of the routing domain (2 to 250); without it NCROUTE_SIZE in the environment says it",
        )
        .required(true)
}

/// The folder of imported filters.
fn out<'a>(alloc: Global) -> Arg<'a>
    ensures rule { rule_of result ≡ spec.out }
    ensures local { result.global ≡ false }
{
    Arg::new(alloc, "out").long("out").value_name("FOLDER").help(
        "Write each filter into a new file of this folder, which has to be there",
    )
}

/// The configuration that is imported.
fn file<'a>(alloc: Global) -> Arg<'a>
    ensures rule { rule_of result ≡ spec.file }
    ensures local { result.global ≡ false }
{
    Arg::new(alloc, "file").value_name("FILE").help(
        "The configuration, in place of standard input; - is standard input",
    )
}

/// What the help says behind the options.
const HELP: &str = "\
FILE is a configuration of BIRD 2.0. Its filters are found, with those that a protocol has
without a name, and each is written in this language: definitions and functions stand where
they are used. Files that it includes are read. What has no counterpart is left out, and so
is the whole filter that it stands in. `ncroute lint` says where a filter that is taken would
lower a metric in BIRD, and does not here.

For each filter a line is printed:
  FILE:LINE:COL filter NAME verified BUDGET DEPTH
                    it is taken; with --out after its name ` -> FOLDER/NAME.filter`, a new
                    file with its text and the places that it comes from
  FILE:LINE:COL filter NAME: WHY: this filter was left out
                    what stands there is not taken

Example:
  mkdir filters; ncimport --size 16 --out filters examples/edge_router.bird
The exit status is 0; 1 if something was left out or a fault ended the run; 2 if the command
line is wrong.
";
