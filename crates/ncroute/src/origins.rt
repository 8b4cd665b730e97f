//! The files by which a router was started, as they were then.

use command_line::RouterWords;
use domain_files::{DomainFile, NodeFile};
use prefix_patterns::Prefix;
use program_words::Source;
use router_files::{RouterOption, Statement};
use router_words::Origin;
use std::alloc::{AllocError, Global};

/// The file of options by which a router was started.
#[derive(Drop)]
pub(crate) struct OptionFile {
    /// Its name.
    pub(crate) name: String,
    /// Its lines that say something.
    pub(crate) lines: Vec<u8>,
    /// How many of them say links.
    pub(crate) links: usize,
}

/// The file of the domain by which a router was started, and what it said to the router.
#[derive(Drop)]
pub(crate) struct DomainOrigin {
    /// Its name.
    pub(crate) name: String,
    /// The router's node.
    pub(crate) me: u32,
    /// The prefixes of all nodes.
    pub(crate) prefixes: Vec<Prefix>,
    /// The links that the command line says, `W=IN,OUT`.
    pub(crate) links: Vec<String>,
}

/// The files by which a router is started, as they were then. Where memory is refused for that, nothing is read again.
#[derive(Drop)]
pub struct Origins {
    /// The file of options, if there is one.
    pub(crate) options: Result<Option<OptionFile>, AllocError>,
    /// The file of the domain, if there is one.
    pub(crate) domain: Result<Option<DomainOrigin>, AllocError>,
}

/// The file of options, by its name and what its lines say.
fn option_file(alloc: Global, origin: Origin<'_>) -> Result<Option<OptionFile>, AllocError> {
    if origin.name.is_empty() {
        return Ok(None);
    }
    let mut lines = Vec::new(alloc);
    for statement in origin.statements {
        lines.extend_from_slice(statement.line.as_slice())?;
        lines.push(b'\n')?;
    }
    Ok(Some(OptionFile {
        name: String::from_str(alloc, origin.name)?,
        lines,
        links: links_in(origin.statements),
    }))
}

/// Whether a line says a link.
pub(crate) fn is_link(statement: &Statement) -> bool {
    statement.option.name() == RouterOption::Link.name()
}

/// How many lines say links.
fn links_in(statements: &[Statement]) -> usize {
    let mut count = 0usize;
    for statement in statements {
        if is_link(statement) {
            count = count.saturating_add(1);
        }
    }
    count
}

/// Copies of texts, but for the first ones.
fn copy_after(alloc: Global, texts: &[String], count: usize) -> Result<Vec<String>, AllocError> {
    let mut copies = Vec::new(alloc);
    for (at, text) in texts.iter().enumerate() {
        if at >= count {
            copies.push(String::from_str(alloc, text.as_str())?)?;
        }
    }
    Ok(copies)
}

/// The same prefixes.
fn copy_prefixes(alloc: Global, prefixes: &[Prefix]) -> Result<Vec<Prefix>, AllocError> {
    let mut copy = Vec::with_capacity(alloc, prefixes.len())?;
    for prefix in prefixes {
        copy.push(*prefix)?;
    }
    Ok(copy)
}

/// What the file of a domain that words name said to the router of a node, which a file of options may say more to.
fn domain_origin(
    alloc: Global,
    options: &Result<Option<OptionFile>, AllocError>,
    words: &RouterWords,
    file: &DomainFile,
    me: u32,
    node: &Option<NodeFile>,
) -> Result<Option<DomainOrigin>, AllocError> {
    let (Some(name), Some(_)) = (&words.domain, node) else {
        return Ok(None);
    };
    let Ok(options) = options else {
        return Err(AllocError);
    };
    let stated = match options {
        Some(options) => options.links,
        None => 0,
    };
    let plan = file.plan();
    Ok(Some(DomainOrigin {
        name: String::from_str(alloc, name.as_str())?,
        me,
        prefixes: copy_prefixes(alloc, plan.prefixes())?,
        links: copy_after(alloc, words.links.as_slice(), stated)?,
    }))
}

impl Origins {
    /// No files.
    pub fn none() -> Origins {
        Origins {
            options: Ok(None),
            domain: Ok(None),
        }
    }

    /// The same with the file of options, if there is one.
    pub(crate) fn by_options(self, alloc: Global, origin: Origin<'_>) -> Origins {
        Origins {
            options: option_file(alloc, origin),
            domain: self.domain,
        }
    }

    /// The same with the file of the domain, which words name.
    pub(crate) fn in_domain(
        self,
        alloc: Global,
        words: &RouterWords,
        file: &DomainFile,
        me: u32,
        node: &Option<NodeFile>,
    ) -> Origins {
        let domain = domain_origin(alloc, &self.options, words, file, me, node);
        Origins {
            options: self.options,
            domain,
        }
    }

    /// The file in whose folder the names of others begin: that of the domain, or else that of options.
    pub(crate) fn origin(&self, alloc: Global) -> Result<Source, AllocError> {
        let (Ok(domain), Ok(options)) = (&self.domain, &self.options) else {
            return Err(AllocError);
        };
        let name = match (domain, options) {
            (Some(domain), _) => domain.name.as_str(),
            (None, Some(options)) => options.name.as_str(),
            (None, None) => return Ok(Source::Input),
        };
        Ok(Source::File(String::from_str(alloc, name)?))
    }
}
