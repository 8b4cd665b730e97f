//! The script of a domain with its page.
//!
//! **The file of the page is made before the script begins**, so that nothing is computed for a page that cannot be written.
ghost use Rattle.std.specs.Prelude.{IfOk, IfSome};
ghost use Rattle.domain_cmds.specs.Paging.{PagesDomain};
ghost use Rattle.ncroute.specs.Paging as spec;
ghost use Rattle.ncroute.specs.Scripts.{IsQuiet, TakesLines, text_of};

use crate::domain_loading::read_script;
use crate::script::Lines;
use crate::watcher::Teller;
use domain_cmds::{Paged, run_paged_domain};
use filter_reports::{FAILED, FAULT, ProgramFault, status_of};
use line_protocol::StreamFault;
use operator_cmds::NoWatcher;
use program_console::{Console, Folder, Loaded, name_of, tell_uncreated, tell_unwritten};
use program_words::Source;
use std::alloc::Global;
use std::io::{Read, Write};

/// Answers the lines of a script that people know by a name, and writes its page.
fn answer<R: Read, W: Write, E: Write, P: Write>(
    alloc: Global,
    name: &[u8],
    is_explained: bool,
    reader: &mut R,
    writer: &mut W,
    errors: &mut E,
    page: &mut P,
) -> Result<Paged, StreamFault>
    ensures finished { IfOk result (λ paged. IfSome (R.remaining reader.old) (λ input. PagesDomain name.now input (R.remaining reader.new)
        (W.contents writer.old) (W.contents writer.new) (P.contents page.old) (P.contents page.new) paged)) }
    ensures quiet { IsQuiet is_explained (E.contents errors.old) (E.contents errors.new) }
{
    if is_explained {
        let teller = Teller { name, errors };
        run_paged_domain(alloc, reader, writer, teller, name, page)
    } else {
        run_paged_domain(alloc, reader, writer, NoWatcher, name, page)
    }
}

/// Answers lines as `answer` does, wherever they come from.
fn answer_lines<R: Read, W: Write, E: Write, P: Write>(
    alloc: Global,
    name: &[u8],
    is_explained: bool,
    lines: Lines<'_>,
    console: &mut Console<R, W, E>,
    page: &mut P,
) -> Result<Paged, StreamFault>
    ensures finished { IfOk result (λ paged. TakesLines (text_of lines.entry) (λ input left. PagesDomain name.now input left
        console.old.holds console.new.holds (P.contents page.old) (P.contents page.new) paged) console.old.reads console.new.reads) }
    ensures quiet { IsQuiet is_explained console.old.tells console.new.tells }
{
    match lines {
        Lines::Input => answer(
            alloc,
            name,
            is_explained,
            &mut console.reader,
            &mut console.writer,
            &mut console.errors,
            page,
        ),
        Lines::Text(mut text) => answer(
            alloc,
            name,
            is_explained,
            &mut text,
            &mut console.writer,
            &mut console.errors,
            page,
        ),
    }
}

/// The exit status of a script with its page. A page that did not get all is told of.
fn end<E: Write>(
    alloc: Global,
    errors: &mut E,
    page: &str,
    paged: Paged,
) -> Result<u8, ProgramFault>
    ensures { IfOk result (spec.TellsPaged page.now paged (E.contents errors.old) (E.contents errors.new)) }
{
    if paged.is_written {
        Ok(status_of(paged.refused))
    } else {
        match tell_unwritten(alloc, errors, page) {
            Ok(()) => Ok(FAILED),
            Err(fault) => Err(fault),
        }
    }
}

/// Carries out a script that people know by a name, writes its page, and returns the exit status.
fn carry_out<R: Read, W: Write, E: Write, P: Write>(
    alloc: Global,
    name: &[u8],
    is_explained: bool,
    lines: Lines<'_>,
    console: &mut Console<R, W, E>,
    page_name: &str,
    page: &mut P,
) -> Result<u8, ProgramFault>
    ensures { IfOk result (spec.RunsPaged name.now page_name.now is_explained (text_of lines.entry) (P.contents page.old) (P.contents page.new)
        console.old console.new) }
{
    let paged = answer_lines(alloc, name, is_explained, lines, console, page)?;
    match end(alloc, &mut console.errors, page_name, paged) {
        Ok(status) => Ok(status),
        Err(fault) => Err(fault),
    }
}

/// Carries out the script of a file, writes its page, and returns the exit status.
fn page_file<F: Folder, R: Read, W: Write, E: Write, P: Write>(
    files: &F,
    alloc: Global,
    source: &Source,
    is_explained: bool,
    console: &mut Console<R, W, E>,
    page_name: &str,
    page: &mut P,
) -> Result<u8, ProgramFault>
    ensures { IfOk result (spec.PagesFile (F.opens files.now) source.now page_name.now is_explained (P.contents page.old) (P.contents page.new)
        console.old console.new) }
{
    match read_script(files, alloc, source, console) {
        Loaded::Text(text) => carry_out(
            alloc,
            name_of(source),
            is_explained,
            Lines::Text(text.as_slice()),
            console,
            page_name,
            page,
        ),
        Loaded::Skipped => Ok(FAULT),
        Loaded::Stopped(fault) => Err(fault),
    }
}

/// Carries out the script of a source, writes its page, and returns the exit status. The lines of standard input are answered as they come.
fn page_lines<F: Folder, R: Read, W: Write, E: Write, P: Write>(
    files: &F,
    alloc: Global,
    source: &Source,
    is_explained: bool,
    console: &mut Console<R, W, E>,
    page_name: &str,
    page: &mut P,
) -> Result<u8, ProgramFault>
    ensures { IfOk result (spec.PagesLines (F.opens files.now) source.now page_name.now is_explained (P.contents page.old) (P.contents page.new)
        console.old console.new) }
{
    match source {
        Source::Input => carry_out(
            alloc,
            name_of(source),
            is_explained,
            Lines::Input,
            console,
            page_name,
            page,
        ),
        Source::File(_) => page_file(files, alloc, source, is_explained, console, page_name, page),
    }
}

/// Carries out the script of a domain, writes its page to a new file of this name, and returns the exit status.
#[tactic(auto, unfolding(crate::specs::Paging::PagesSource))]
pub(crate) fn page_source<F: Folder, R: Read, W: Write, E: Write>(
    files: &F,
    alloc: Global,
    source: &Source,
    is_explained: bool,
    page: &str,
    console: &mut Console<R, W, E>,
) -> Result<u8, ProgramFault>
    ensures { IfOk result (spec.PagesSource (F.opens files.now) (F.creates files.now) (F.leaves files.now) source.now is_explained page.now
        console.old console.new) }
{
    match files.create(page) {
        Ok(mut file) => {
            let ended = page_lines(files, alloc, source, is_explained, console, page, &mut file);
            files.close(page, file);
            ended
        }
        Err(error) => {
            tell_uncreated(alloc, &mut console.errors, page, &error)?;
            Ok(FAILED)
        }
    }
}
