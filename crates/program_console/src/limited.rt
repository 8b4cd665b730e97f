//! A configuration as it is read: no longer than a limit.
ghost use Rattle.std.specs.Option.{option_map};
ghost use Rattle.std.specs.Prelude.{◌≡◌, IfErr, IfOk, OnOk};
ghost use Rattle.filter_reports.specs.Faults.{stream_fault};
ghost use Rattle.program_console.specs.Limited.{CutsWithin, IsText, StopsText, TakesWithin, long_config, long_config_line};
ghost use Rattle.program_console.specs.Streaming.{CutsTelling, Tells};

use crate::console::{Console, Loaded};
use crate::folder::Folder;
use crate::notices::tell_of;
use crate::sources::name_of;
use filter_reports::ProgramFault;
use line_protocol::INPUT_LIMIT;
use program_words::Source;
use std::alloc::Global;
use std::io::{Read, Write};

/// What is said of a configuration that is longer than its limit.
#[tactic(auto, unfolding(crate::specs::Limited::long_config))]
fn long_config() -> &'static str
    ensures { result.now ≡ long_config }
{
    "longer than 16777216 bytes"
}

/// Tells that a configuration is longer than its limit.
fn tell_long_config<R: Read, W: Write, E: Write>(
    alloc: Global,
    source: &Source,
    console: &mut Console<R, W, E>,
) -> Result<(), ProgramFault>
    ensures told { OnOk result (Tells (long_config_line source.now) console.old console.new) }
    ensures cut { IfErr result (λ fault. CutsTelling (stream_fault fault) (long_config_line source.now) console.old console.new) }
    ensures unwritten { console.new.holds ≡ console.old.holds }
{
    tell_of(
        alloc,
        &mut console.errors,
        name_of(source),
        long_config(),
        b" (E4)\n",
    )
}

/// The text of a configuration, unless it is longer than the limit, which people are told.
fn take_within<R: Read, W: Write, E: Write>(
    alloc: Global,
    source: &Source,
    text: Vec<u8>,
    console: &mut Console<R, W, E>,
) -> Result<Option<Vec<u8>>, ProgramFault>
    ensures taken { IfOk result (λ found. TakesWithin source.now text.items (option_map (λ text. text.items) found) console.old console.new) }
    ensures cut { IfErr result (λ fault. CutsWithin (stream_fault fault) source.now text.items console.old console.new) }
    ensures unwritten { console.new.holds ≡ console.old.holds }
{
    if text.len() <= INPUT_LIMIT {
        return Ok(Some(text));
    }
    tell_long_config(alloc, source, console)?;
    Ok(None)
}

/// Reads a file of a configuration. One that cannot be read is told of.
pub fn read_config<F: Folder, R: Read, W: Write, E: Write>(
    files: &F,
    alloc: Global,
    source: &Source,
    console: &mut Console<R, W, E>,
) -> Result<Option<Vec<u8>>, ProgramFault>
    ensures read { IfOk result (λ found. IsText (F.opens files.now) source.now (option_map (λ text. text.items) found) console.old console.new) }
    ensures stopped { IfErr result (λ fault. StopsText (F.opens files.now) (stream_fault fault) source.now console.old console.new) }
    ensures unwritten { console.new.holds ≡ console.old.holds }
{
    match console.read(files, alloc, source, INPUT_LIMIT) {
        Loaded::Text(text) => take_within(alloc, source, text, console),
        Loaded::Skipped => Ok(None),
        Loaded::Stopped(fault) => Err(fault),
    }
}
