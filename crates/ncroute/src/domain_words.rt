//! What the file of a domain says to one of its routers, as if the command line had said it.
//!
//! **There is one plan of a router**, with one list of what may be wrong with it, whether its domain has a file or not.
ghost use Rattle.std.specs.Prelude.{◌≡◌, ◌<◌, ◌∷◌, ◌++◌, [], IfOk, OnOk, length, map, string_bytes};
ghost use Rattle.ncroute.specs.DomainWords as spec;

use command_line::{NamedFile, RouterWords};
use domain_files::{DomainFile, FilterAt, NodeFile};
use operator_cmds::Direction;
use prefix_patterns::Prefix;
use program_words::Source;
use router_daemon::VerifiedFilters;
use router_files::RouterOption;
use router_options::LinkFiles;
use std::alloc::{AllocError, Global};

/// What does not go together with the file of a domain.
#[derive(Clone, Copy)]
pub enum DomainFault {
    /// It says this, and so nobody else does.
    Beside(RouterOption),
    /// A link, before which so many others are said, leads to a node that is no neighbour.
    NoNeighbour {
        /// How many.
        at: usize,
        /// The node.
        node: u16,
    },
    /// No link says where the streams of this neighbour are.
    NoStreams(u16),
}

/// The first option that only the file of a domain may say, and that is said beside it.
pub(crate) fn said_beside(words: &RouterWords) -> Option<RouterOption>
    ensures { result ≡ spec.said_beside words.now }
{
    if words.size.is_some() {
        return Some(RouterOption::Size);
    }
    if !words.prefixes.is_empty() {
        return Some(RouterOption::Prefix);
    }
    if !words.filters.is_empty() {
        return Some(RouterOption::Filter);
    }
    if !words.imports.is_empty() {
        return Some(RouterOption::Import);
    }
    if !words.exports.is_empty() {
        return Some(RouterOption::Export);
    }
    None
}

/// The prefix of a node, `V=PREFIX`.
fn prefix_text(alloc: Global, v: usize, prefix: Prefix) -> Result<String, AllocError>
    ensures { IfOk result (λ text. string_bytes text ≡ spec.prefix_said prefix v) }
{
    format!(in alloc; "{v}={prefix}")
}

/// Adds the prefix of a node to those of lesser ones.
fn push_prefix_text(
    alloc: Global,
    texts: &mut Vec<String>,
    prefixes: &[Prefix],
    v: usize,
) -> Result<(), AllocError>
    requires { v < length prefixes.now }
    ensures { OnOk result (map (λ text. string_bytes text) texts.new.items
        ≡ map (λ text. string_bytes text) texts.old.items ++ spec.prefix_at prefixes.now v) }
{
    let text = prefix_text(alloc, v, prefixes[v])?;
    texts.push(text)?;
    Ok(())
}

/// The prefixes of all nodes.
fn prefix_texts(alloc: Global, prefixes: &[Prefix]) -> Result<Vec<String>, AllocError>
    ensures { IfOk result (λ texts. spec.ArePrefixes prefixes.now texts.items) }
{
    let mut texts = Vec::new(alloc);
    for v in 0..prefixes.len() {
        push_prefix_text(alloc, &mut texts, prefixes, v)?;
    }
    Ok(texts)
}

/// The text of a name.
fn text_of_name(alloc: Global, name: &[u8]) -> Result<String, AllocError>
    ensures { IfOk result (spec.IsText name.now) }
{
    match str::from_utf8(name) {
        Ok(name) => String::from_str(alloc, name),
        // A name is letters, digits and `_`, so this never comes.
        Err(_) => Err(AllocError),
    }
}

/// The use of a filter, `W=NAME`.
fn use_text(alloc: Global, used: &FilterAt) -> Result<String, AllocError>
    ensures { IfOk result (λ text. string_bytes text ≡ spec.use_said used.now) }
{
    let node = used.node;
    let name = text_of_name(alloc, used.name.as_slice())?;
    format!(in alloc; "{node}={name}")
}

/// The uses of filters.
fn use_texts(alloc: Global, uses: &[FilterAt]) -> Result<Vec<String>, AllocError>
    ensures { IfOk result (λ texts. spec.AreUses uses.now texts.items) }
{
    let mut texts = Vec::new(alloc);
    for used in uses {
        texts.push(use_text(alloc, used)?)?;
    }
    Ok(texts)
}

/// Adds a filter of this name, which the file of a domain gives.
fn push_named(
    alloc: Global,
    named: &mut Vec<NamedFile>,
    name: &[u8],
    file: &str,
) -> Result<(), AllocError>
    ensures { OnOk result (map spec.name_of_filter named.new.items ≡ map spec.name_of_filter named.old.items ++ name.now ∷ []) }
{
    let name = text_of_name(alloc, name)?;
    let source = Source::File(String::from_str(alloc, file)?);
    named.push(NamedFile { name, source })?;
    Ok(())
}

/// The names of filters, which the file of this name gives.
fn named_files(
    alloc: Global,
    filters: &VerifiedFilters,
    file: &str,
) -> Result<Vec<NamedFile>, AllocError>
    ensures { IfOk result (λ named. spec.AreNamed filters.now.entries named.items) }
{
    let mut named = Vec::new(alloc);
    for (name, _) in filters.iter() {
        push_named(alloc, &mut named, name.as_slice(), file)?;
    }
    Ok(named)
}

/// A copy of texts.
fn copies_of(alloc: Global, texts: &[String]) -> Result<Vec<String>, AllocError>
    ensures { IfOk result (λ copies. spec.AreCopies texts.now copies.items) }
{
    let mut copies = Vec::new(alloc);
    for text in texts {
        let copy = String::from_str(alloc, text.as_str())?;
        copies.push(copy)?;
    }
    Ok(copies)
}

/// A copy of a text, if there is one.
fn copy_of(alloc: Global, text: &Option<String>) -> Result<Option<String>, AllocError>
    ensures { IfOk result (spec.IsCopy text.now) }
{
    match text {
        Some(text) => Ok(Some(String::from_str(alloc, text.as_str())?)),
        None => Ok(None),
    }
}

/// The uses that a node has in a direction; none where it is not in the domain.
fn uses_of(
    alloc: Global,
    node: &Option<NodeFile>,
    direction: Direction,
) -> Result<Vec<String>, AllocError>
    ensures { IfOk result (λ texts. spec.AreUses (spec.uses_of direction node.now) texts.items) }
{
    match (node, direction) {
        (Some(node), Direction::Import) => use_texts(alloc, node.imports.as_slice()),
        (Some(node), Direction::Export) => use_texts(alloc, node.exports.as_slice()),
        (None, _) => Ok(Vec::new(alloc)),
    }
}

/// The name of the file of a domain, if one is named.
fn name_of_domain(words: &RouterWords) -> &str {
    match &words.domain {
        Some(name) => name.as_str(),
        None => "",
    }
}

/// What words and the file of a domain say together to a node of it. A node that is not in the domain has no uses.
pub(crate) fn with_domain(
    alloc: Global,
    words: &RouterWords,
    file: &DomainFile,
    node: &Option<NodeFile>,
) -> Result<RouterWords, AllocError>
    ensures { IfOk result (spec.SaysDomain words.now file.now node.now) }
{
    Ok(RouterWords {
        config: None,
        checks: words.checks,
        domain: None,
        allows_other: words.allows_other,
        size: Some(u32::from(file.plan().size())),
        node: words.node,
        limit: words.limit,
        queue: words.queue,
        retry: words.retry,
        hold: words.hold,
        save: copy_of(alloc, &words.save)?,
        segments: words.segments,
        routes: copy_of(alloc, &words.routes)?,
        settle: words.settle,
        log: copy_of(alloc, &words.log)?,
        stays: words.stays,
        prefixes: prefix_texts(alloc, file.plan().prefixes())?,
        filters: named_files(alloc, file.filters(), name_of_domain(words))?,
        imports: uses_of(alloc, node, Direction::Import)?,
        exports: uses_of(alloc, node, Direction::Export)?,
        links: copies_of(alloc, words.links.as_slice())?,
        controls: copies_of(alloc, words.controls.as_slice())?,
    })
}

/// Whether a node is one of these.
pub(crate) fn is_among(nodes: &[u16], node: u16) -> bool
    ensures { result ≡ spec.is_among nodes.now node }
{
    nodes.iter().any(|other| *other == node)
}

/// Whether a node has one of these links.
fn has_link(links: &[LinkFiles], node: u16) -> bool
    ensures { result ≡ spec.has_link links.now node }
{
    links.iter().any(|link| link.node == node)
}

/// The first link that leads to no neighbour.
fn find_stranger(links: &[LinkFiles], neighbours: &[u16]) -> Option<DomainFault>
    ensures { result ≡ spec.stranger_from 0 links.now neighbours.now }
{
    for at in 0..links.len() {
        let node = links[at].node;
        if !is_among(neighbours, node) {
            return Some(DomainFault::NoNeighbour { at, node });
        }
    }
    None
}

/// The first neighbour to whom no link leads.
fn find_unserved(links: &[LinkFiles], neighbours: &[u16]) -> Option<DomainFault>
    ensures { result ≡ spec.unserved links.now neighbours.now }
{
    for node in neighbours {
        if !has_link(links, *node) {
            return Some(DomainFault::NoStreams(*node));
        }
    }
    None
}

/// What is wrong with the links of a node that has these neighbours.
pub(crate) fn find_unfit_beside(links: &[LinkFiles], neighbours: &[u16]) -> Option<DomainFault>
    ensures { result ≡ spec.unfit_beside links.now neighbours.now }
{
    match find_stranger(links, neighbours) {
        Some(fault) => Some(fault),
        None => find_unserved(links, neighbours),
    }
}

/// What is wrong with the links of a node: one leads to no neighbour, or none leads to one.
pub(crate) fn find_unfit(links: &[LinkFiles], node: &Option<NodeFile>) -> Option<DomainFault>
    ensures { result ≡ spec.unfit_of links.now node.now }
{
    match node {
        Some(node) => find_unfit_beside(links, node.neighbours.as_slice()),
        None => None,
    }
}
