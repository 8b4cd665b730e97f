//! The script of a domain, behind whose last line the page of the domain is written.
ghost use Rattle.std.specs.Prelude.{IfOk, IfSome};
ghost use Rattle.domain_cmds.specs.Paging.{IsPaged, PagesDomain};
ghost use Rattle.domain_reports.specs.declared.page.Shell.{Shell as TheShell};

use crate::engine::{DomainScript, WatchedDomain};
use domain_reports::page_shell;
use line_protocol::{StreamFault, answer_lines, write_text};
use operator_cmds::Watch;
use std::alloc::{AllocError, Global};
use std::io::{Read, Write};

/// What came of a script with a page.
#[derive(Clone, Copy)]
pub struct Paged {
    /// How many lines were refused.
    pub refused: u32,
    /// The page was written to its end. No page is written of a script that set no domain up.
    pub is_written: bool,
}

/// Writes the page of a domain that a script set up. Whether it was written to its end.
fn write_page<P: Write>(
    alloc: Global,
    engine: &mut DomainScript,
    name: &[u8],
    page: &mut P,
) -> Result<bool, AllocError>
    ensures { IfOk result (λ is_written. (shell : TheShell) × IsPaged shell name.now engine.old.planning (P.contents page.old) (P.contents page.new)
        is_written) }
{
    let shell = page_shell();
    match &mut engine.planning {
        Some(planning) => {
            let mut text = Vec::new(alloc);
            planning.push_page(alloc, &mut text, shell, name)?;
            Ok(write_text(page, text.as_slice()).is_ok())
        }
        None => Ok(true),
    }
}

/// Does what `run_watched_domain` does, and then writes the page of the domain as it is behind the last line.
pub fn run_paged_domain<R: Read, W: Write, S: Watch + Drop, P: Write>(
    alloc: Global,
    reader: &mut R,
    writer: &mut W,
    watcher: S,
    name: &[u8],
    page: &mut P,
) -> Result<Paged, StreamFault>
    ensures { IfOk result (λ paged. IfSome (R.remaining reader.old) (λ input. PagesDomain name.now input (R.remaining reader.new)
        (W.contents writer.old) (W.contents writer.new) (P.contents page.old) (P.contents page.new) paged)) }
{
    let mut service = WatchedDomain {
        engine: DomainScript::new(),
        watcher,
    };
    let refused = answer_lines(alloc, reader, writer, &mut service)?;
    match write_page(alloc, &mut service.engine, name, page) {
        Ok(is_written) => Ok(Paged {
            refused,
            is_written,
        }),
        Err(_) => Err(StreamFault::Memory),
    }
}
