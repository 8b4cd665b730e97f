//! The links of a running router, as its file of options and its command line say them when they are read again.
//!
//! **They are refused as at the start, in the same words.** A link of the command line to a node that is no neighbour now is gone, since nobody can
//! change these words. The files of a link that is new are looked for: to open a FIFO would wait for its other end.

use crate::domain_lines::domain_line;
use crate::domain_words::{find_unfit_beside, is_among};
use crate::origins::{DomainOrigin, is_link};
use crate::planning::{is_memory, plan_of};
use crate::reloading::{first_told, is_said, refused_by};
use crate::wrong_words::wrong_line;
use command_line::RouterWords;
use program_console::{Folder, broken_line};
use program_words::Source;
use router_files::{Said, Statement};
use router_operator::ConfigurationFault;
use router_options::{LinkFiles, RouterPlan};
use router_words::Origin;
use std::alloc::{AllocError, Global};

/// Looks for a file of a link that is new.
fn find_stream<F: Folder>(files: &F, alloc: Global, name: &str) -> Result<(), ConfigurationFault> {
    match files.find(name) {
        Ok(()) => Ok(()),
        Err(why) => {
            let source = Source::File(String::from_str(alloc, name)?);
            Err(refused_by(alloc, broken_line(alloc, &source, &why)))
        }
    }
}

/// Looks for both files of a link that a line says, if it says one. A line that does not is refused later.
fn find_streams<F: Folder>(
    files: &F,
    alloc: Global,
    said: &Said,
) -> Result<(), ConfigurationFault> {
    let Said::Text(text) = said else {
        return Ok(());
    };
    match LinkFiles::read(alloc, text.as_str()) {
        Ok(link) => {
            find_stream(files, alloc, link.input.as_str())?;
            find_stream(files, alloc, link.output.as_str())
        }
        Err(_) => Ok(()),
    }
}

/// Looks for the files of each link that only the first of two files says.
pub(crate) fn find_new_streams<F: Folder>(
    files: &F,
    alloc: Global,
    these: &[Statement],
    those: &[Statement],
) -> Result<(), ConfigurationFault> {
    for statement in these {
        if is_link(statement) && !is_said(those, statement) {
            find_streams(files, alloc, &statement.said)?;
        }
    }
    Ok(())
}

/// Adds the link of a line, if it says one.
fn add_stated_link(
    alloc: Global,
    links: &mut Vec<String>,
    statement: &Statement,
) -> Result<(), AllocError> {
    match &statement.said {
        Said::Text(text) if is_link(statement) => {
            links.push(String::from_str(alloc, text.as_str())?)?;
            Ok(())
        }
        _ => Ok(()),
    }
}

/// Whether a link that the command line says leads to one of these neighbours.
fn leads_to_some(alloc: Global, text: &str, neighbours: &[u16]) -> bool {
    match LinkFiles::read(alloc, text) {
        Ok(link) => is_among(neighbours, link.node),
        Err(_) => true,
    }
}

/// The links that lines say, and then those of the command line that lead to these neighbours.
fn said_links(
    alloc: Global,
    origin: &DomainOrigin,
    statements: &[Statement],
    neighbours: &[u16],
) -> Result<Vec<String>, AllocError> {
    let mut links = Vec::new(alloc);
    for statement in statements {
        add_stated_link(alloc, &mut links, statement)?;
    }
    for text in &origin.links {
        if leads_to_some(alloc, text.as_str(), neighbours) {
            links.push(String::from_str(alloc, text.as_str())?)?;
        }
    }
    Ok(links)
}

/// Words that say these links to a node of a domain of a size, and nothing else.
fn link_words(alloc: Global, size: u16, me: u32, links: Vec<String>) -> RouterWords {
    RouterWords {
        config: None,
        checks: false,
        domain: None,
        allows_other: false,
        size: Some(u32::from(size)),
        node: Some(me),
        limit: None,
        queue: None,
        retry: None,
        hold: None,
        save: None,
        segments: None,
        routes: None,
        settle: None,
        log: None,
        stays: false,
        prefixes: Vec::new(alloc),
        filters: Vec::new(alloc),
        imports: Vec::new(alloc),
        exports: Vec::new(alloc),
        links,
        controls: Vec::new(alloc),
    }
}

/// The links of a router that has these neighbours now, by what the lines of its file of options and its command line say.
pub(crate) fn links_again(
    alloc: Global,
    origin: &DomainOrigin,
    by: Origin<'_>,
    size: u16,
    neighbours: &[u16],
) -> Result<Vec<LinkFiles>, ConfigurationFault> {
    let said = said_links(alloc, origin, by.statements, neighbours)?;
    let words = link_words(alloc, size, origin.me, said);
    let plan = match plan_of(alloc, &words) {
        Ok(plan) => plan,
        Err(fault) if is_memory(fault) => return Err(ConfigurationFault::Memory),
        Err(fault) => return Err(refused_by(alloc, wrong_line(alloc, by, fault))),
    };
    if let Some(fault) = find_unfit_beside(plan.links.as_slice(), neighbours) {
        return Err(refused_by(alloc, domain_line(alloc, by, fault)));
    }
    let RouterPlan { links, .. } = plan;
    Ok(links)
}
