//! The files of a running router, which are read again.
//!
//! **What a running router cannot take is refused, and nothing is changed then**: another node, another size or prefixes of its domain, and what its
//! file of options says beside links. Each difference is named, since all of them are to be known before the router is started again.
//!
//! **A use that the file says no more is replaced by a filter that lets all pass**: no event takes a filter away.
ghost use Rattle.std.specs.List.{flat_map, list_any};
ghost use Rattle.std.specs.Prelude.{◌≡◌, ◌==◌, ◌++◌, ◌<◌, ◌^◌, IfOk, OnOk, length, map};
ghost use Rattle.operator_cmds.specs.Script.{GivesText, IsVerified};
ghost use Rattle.ncroute.specs.Reloading as spec;

use crate::domain_loading::{DomainRead, load_domain};
use crate::origins::{DomainOrigin, OptionFile, Origins, is_link};
use crate::relinking::{find_new_streams, links_again};
use crate::wrong_lines::refused_line;
use domain_files::{DomainFile, FilterAt, NodeFile, domain_digest};
use filter_source::{Failure, SOURCE_LIMIT};
use filter_verifier::Verified;
use operator_cmds::{Direction, verify_text};
use prefix_patterns::Prefix;
use program_console::{
    Console, Folder, SourceText, included_path, load, name_of, path_beside, read_config,
};
use program_words::Source;
use refusal_words::explain;
use router_daemon::VerifiedFilters;
use router_files::{Said, Statement, cut_line, read_statements};
use router_operator::{Configuration, ConfigurationFault, Configured, NamedUse};
use router_options::LinkFiles;
use router_words::{Origin, no_file};
use std::alloc::{AllocError, Global};
use std::io::{self, Empty};
use std::sync::Arc;

/// Where the files of a running router are read.
#[derive(Drop)]
pub struct RouterFiles<F> {
    /// Where they are opened.
    files: F,
    /// What they were.
    origins: Origins,
}

/// Streams that people do not see: what is told there is told to an operator.
fn unseen(alloc: Global) -> Console<Empty, Vec<u8>, Vec<u8>> {
    Console {
        reader: io::empty(),
        writer: Vec::new(alloc),
        errors: Vec::new(alloc),
    }
}

/// A refusal in words.
fn refused_as(alloc: Global, words: &[u8]) -> ConfigurationFault {
    match Vec::from_slice(alloc, words) {
        Ok(words) => ConfigurationFault::Refused(words),
        Err(_) => ConfigurationFault::Memory,
    }
}

/// The refusal that was told first. Where none was told, memory was refused.
pub(crate) fn first_told(alloc: Global, told: &[u8]) -> ConfigurationFault {
    match cut_line(told) {
        Some((line, _)) => refused_as(alloc, line),
        None => ConfigurationFault::Memory,
    }
}

/// The refusal that a line tells, if there is memory for it.
pub(crate) fn refused_by(alloc: Global, line: Result<Vec<u8>, AllocError>) -> ConfigurationFault {
    match line {
        Ok(line) => first_told(alloc, line.as_slice()),
        Err(_) => ConfigurationFault::Memory,
    }
}

/// The text of a filter that is verified for domains of a size.
fn verified_text(
    alloc: Global,
    size: u16,
    source: &Source,
    text: Vec<u8>,
) -> Result<Vec<u8>, ConfigurationFault>
    ensures { IfOk result (λ text. spec.SpellsFilter size text.items) }
{
    match verify_text(alloc, text.as_slice(), size) {
        Ok(_) => Ok(text),
        Err(Failure::Refused(diagnosis)) => {
            let line = explain(alloc, name_of(source), text.as_slice(), &diagnosis);
            Err(refused_by(alloc, line))
        }
        Err(Failure::Memory) => Err(ConfigurationFault::Memory),
    }
}

/// Adds a difference, behind those that were found before.
fn push_difference(out: &mut Vec<u8>, parts: &[&[u8]]) -> Result<(), AllocError> {
    if out.is_empty() {
        out.extend_from_slice(b"needs a restart: ")?;
    } else {
        out.extend_from_slice(b" | ")?;
    }
    for part in parts {
        out.extend_from_slice(part)?;
    }
    Ok(())
}

/// Whether two lines say the same of an option.
fn is_same_said(one: &Said, other: &Said) -> bool {
    match (one, other) {
        (Said::Given, Said::Given) => true,
        (Said::Number(a), Said::Number(b)) => a == b,
        (Said::Text(a), Said::Text(b)) => a.as_str() == b.as_str(),
        (
            Said::Named {
                name: a,
                file: from,
            },
            Said::Named {
                name: b,
                file: other_from,
            },
        ) => a.as_str() == b.as_str() && from.as_str() == other_from.as_str(),
        _ => false,
    }
}

/// Whether one of these lines says what a line says.
pub(crate) fn is_said(statements: &[Statement], one: &Statement) -> bool {
    statements.iter().any(|other| {
        one.option.name() == other.option.name() && is_same_said(&one.said, &other.said)
    })
}

/// Adds each line that only the first of two files says, but for links.
fn push_unsaid(
    out: &mut Vec<u8>,
    name: &str,
    these: &[Statement],
    those: &[Statement],
    what: &[u8],
) -> Result<(), AllocError> {
    for statement in these {
        if !is_link(statement) && !is_said(those, statement) {
            let line = statement.line.as_slice().trim_ascii();
            push_difference(out, &[name.as_bytes(), b": `", line, what])?;
        }
    }
    Ok(())
}

/// What the lines of a file of options say, which has this name.
fn statements_of(
    alloc: Global,
    name: &str,
    text: &[u8],
) -> Result<Vec<Statement>, ConfigurationFault>
    requires { length text.now < 2 ^ 63 }
{
    let folder = path_beside(alloc, name, "")?;
    match read_statements(alloc, folder.as_str(), text) {
        Ok(statements) => Ok(statements),
        Err(wrong) => match refused_line(alloc, name, &wrong) {
            Ok(line) => Err(first_told(alloc, line.as_slice())),
            Err(_) => Err(ConfigurationFault::Memory),
        },
    }
}

/// What the file of options says, read again.
fn read_options_again<F: Folder>(
    files: &F,
    alloc: Global,
    name: &str,
) -> Result<Vec<Statement>, ConfigurationFault> {
    let mut console = unseen(alloc);
    let source = Source::File(String::from_str(alloc, name)?);
    match read_config(files, alloc, &source, &mut console) {
        Ok(Some(text)) => statements_of(alloc, name, text.as_slice()),
        Ok(None) => Err(first_told(alloc, console.errors.as_slice())),
        Err(_) => Err(ConfigurationFault::Memory),
    }
}

/// What the lines of the file of options say now, if there is one. Adds each line that is new or gone, but for links.
fn compare_options<F: Folder>(
    files: &F,
    alloc: Global,
    options: &Option<OptionFile>,
    out: &mut Vec<u8>,
) -> Result<Vec<Statement>, ConfigurationFault> {
    let Some(options) = options else {
        return Ok(Vec::new(alloc));
    };
    let name = options.name.as_str();
    let new = read_options_again(files, alloc, name)?;
    let old = statements_of(alloc, name, options.lines.as_slice())?;
    push_unsaid(out, name, new.as_slice(), old.as_slice(), b"` is new")?;
    push_unsaid(out, name, old.as_slice(), new.as_slice(), b"` is gone")?;
    find_new_streams(files, alloc, new.as_slice(), old.as_slice())?;
    Ok(new)
}

/// The file of a domain, read again.
fn read_domain_again<F: Folder>(
    files: &F,
    alloc: Global,
    name: &str,
) -> Result<DomainFile, ConfigurationFault>
    ensures { IfOk result spec.IsSomeFile }
{
    let mut console = unseen(alloc);
    match load_domain(files, alloc, name, &mut console) {
        Ok(DomainRead::File(file)) => Ok(file),
        Ok(DomainRead::Unread | DomainRead::Wrong) => {
            Err(first_told(alloc, console.errors.as_slice()))
        }
        Err(_) => Err(ConfigurationFault::Memory),
    }
}

/// Adds a node whose prefix is another.
fn compare_prefix(
    alloc: Global,
    out: &mut Vec<u8>,
    node: usize,
    before: Prefix,
    after: Prefix,
) -> Result<(), AllocError> {
    if before.address().0 == after.address().0 && before.len() == after.len() {
        return Ok(());
    }
    let said = format!(in alloc; "node {node} has the prefix {after}, and not {before}")?;
    push_difference(out, &[said.as_str().as_bytes()])
}

/// Adds each node whose prefix is another.
fn compare_prefixes(
    alloc: Global,
    out: &mut Vec<u8>,
    old: &[Prefix],
    new: &[Prefix],
) -> Result<(), AllocError> {
    for (v, after) in new.iter().enumerate() {
        if let Some(before) = old.get(v) {
            compare_prefix(alloc, out, v, *before, *after)?;
        }
    }
    Ok(())
}

/// Adds what the file of a domain says otherwise than it did, but for filters and links.
fn compare_domain(
    alloc: Global,
    out: &mut Vec<u8>,
    origin: &DomainOrigin,
    file: &DomainFile,
) -> Result<(), AllocError> {
    let (old, new) = (origin.prefixes.as_slice(), file.plan().prefixes());
    if old.len() != new.len() {
        let (before, after) = (old.len(), new.len());
        let said = format!(in alloc; "the domain has {after} nodes, and not {before}")?;
        return push_difference(out, &[said.as_str().as_bytes()]);
    }
    compare_prefixes(alloc, out, old, new)
}

/// Adds a use that a file says, if a filter has its name.
fn push_named_use(
    alloc: Global,
    uses: &mut Vec<NamedUse>,
    direction: Direction,
    said: &FilterAt,
    filters: &VerifiedFilters,
) -> Result<(), AllocError>
    ensures { OnOk result (map spec.use_of uses.new.items
        ≡ map spec.use_of uses.old.items ++ spec.named_use direction filters.now.entries said.now) }
{
    match filters.get(said.name.as_slice()) {
        Some(filter) => {
            let name = Vec::from_slice(alloc, said.name.as_slice())?;
            let filter = Arc::try_clone(filter)?;
            uses.push(NamedUse {
                direction,
                node: said.node,
                name,
                filter,
                is_plain: false,
            })?;
            Ok(())
        }
        None => Ok(()),
    }
}

/// Adds the uses that a file says in a direction.
fn push_named(
    alloc: Global,
    uses: &mut Vec<NamedUse>,
    direction: Direction,
    said: &[FilterAt],
    filters: &VerifiedFilters,
) -> Result<(), AllocError>
    ensures { OnOk result (map spec.use_of uses.new.items
        ≡ map spec.use_of uses.old.items ++ flat_map (spec.named_use direction filters.now.entries) said.now) }
{
    for one in said {
        push_named_use(alloc, uses, direction, one, filters)?;
    }
    Ok(())
}

/// Whether a file says a filter for a node.
fn is_said_of(said: &[FilterAt], node: u16) -> bool
    ensures { result ≡ list_any (λ at. at.node == node) said.now }
{
    said.iter().any(|at| at.node == node)
}

/// Adds a use of a filter that lets all pass, where a file says none.
fn push_plain_use(
    alloc: Global,
    uses: &mut Vec<NamedUse>,
    direction: Direction,
    said: &[FilterAt],
    plain: &Arc<Verified>,
    node: u16,
) -> Result<(), AllocError>
    ensures { OnOk result (map spec.use_of uses.new.items
        ≡ map spec.use_of uses.old.items ++ spec.plain_use direction said.now plain.now.value node) }
{
    if is_said_of(said, node) {
        return Ok(());
    }
    let name = Vec::from_slice(alloc, b"-")?;
    let filter = Arc::try_clone(plain)?;
    uses.push(NamedUse {
        direction,
        node,
        name,
        filter,
        is_plain: true,
    })?;
    Ok(())
}

/// Adds those of the neighbours for whom a file says none.
fn push_plain(
    alloc: Global,
    uses: &mut Vec<NamedUse>,
    direction: Direction,
    said: &[FilterAt],
    plain: &Arc<Verified>,
    neighbours: &[u16],
) -> Result<(), AllocError>
    ensures { OnOk result (map spec.use_of uses.new.items
        ≡ map spec.use_of uses.old.items ++ flat_map (spec.plain_use direction said.now plain.now.value) neighbours.now) }
{
    for node in neighbours {
        push_plain_use(alloc, uses, direction, said, plain, *node)?;
    }
    Ok(())
}

/// Adds the uses of a direction.
fn push_toward(
    alloc: Global,
    uses: &mut Vec<NamedUse>,
    direction: Direction,
    said: &[FilterAt],
    filters: &VerifiedFilters,
    plain: &Arc<Verified>,
    neighbours: &[u16],
) -> Result<(), AllocError>
    ensures { OnOk result (map spec.use_of uses.new.items
        ≡ map spec.use_of uses.old.items ++ spec.uses_toward direction filters.now.entries said.now neighbours.now plain.now.value) }
{
    push_named(alloc, uses, direction, said, filters)?;
    push_plain(alloc, uses, direction, said, plain, neighbours)
}

/// A filter that lets all pass, for domains of a size.
fn plain_filter(alloc: Global, size: u16) -> Result<Arc<Verified>, AllocError>
    ensures { IfOk result (λ plain. IsVerified (GivesText spec.plain_text) size plain.value) }
{
    match verify_text(alloc, b"filter plain { accept; }", size) {
        Ok(filter) => Ok(Arc::new(alloc, filter)?),
        Err(_) => Err(AllocError),
    }
}

/// The uses of a node's filters.
fn uses_at(
    alloc: Global,
    node: &NodeFile,
    filters: &VerifiedFilters,
    plain: &Arc<Verified>,
) -> Result<Vec<NamedUse>, AllocError>
    ensures { IfOk result (λ uses. map spec.use_of uses.items ≡ spec.uses_at node.now filters.now.entries plain.now.value) }
{
    let mut uses = Vec::new(alloc);
    let neighbours = node.neighbours.as_slice();
    let (imports, exports) = (node.imports.as_slice(), node.exports.as_slice());
    push_toward(
        alloc,
        &mut uses,
        Direction::Import,
        imports,
        filters,
        plain,
        neighbours,
    )?;
    push_toward(
        alloc,
        &mut uses,
        Direction::Export,
        exports,
        filters,
        plain,
        neighbours,
    )?;
    Ok(uses)
}

/// What the file of a domain of this digest says to a node that has these links.
fn configured_by(
    alloc: Global,
    file: DomainFile,
    node: &NodeFile,
    links: Vec<LinkFiles>,
    digest: [u8; 8],
) -> Result<Configured, AllocError>
    ensures { IfOk result (λ configured. spec.SaysTo file node.now configured.filters.entries configured.uses.items) }
{
    let plain = plain_filter(alloc, file.plan().size())?;
    let uses = uses_at(alloc, node, file.filters(), &plain)?;
    Ok(Configured {
        filters: file.into_filters(),
        uses,
        links,
        digest,
    })
}

/// What the file of a domain says now beside a file of options, if a running router can take it. `differences` are those that were found before.
fn take_domain<F: Folder>(
    files: &F,
    alloc: Global,
    origin: &DomainOrigin,
    by: Origin<'_>,
    mut differences: Vec<u8>,
) -> Result<Configured, ConfigurationFault>
    ensures { IfOk result (λ configured. spec.Says origin.now.me configured.filters.entries configured.uses.items) }
{
    let file = read_domain_again(files, alloc, origin.name.as_str())?;
    let Some(node) = file.node(alloc, origin.me)? else {
        return Err(refused_as(alloc, b"needs a restart: the domain is without this node"));
    };
    compare_domain(alloc, &mut differences, origin, &file)?;
    if !differences.is_empty() {
        return Err(ConfigurationFault::Refused(differences));
    }
    let (size, neighbours) = (file.plan().size(), node.neighbours.as_slice());
    let links = links_again(alloc, origin, by, size, neighbours)?;
    let digest = domain_digest(alloc, file.plan())?;
    Ok(configured_by(alloc, file, &node, links, digest)?)
}

/// A file of options, if there is one, whose lines say this now.
fn origin_by<'a>(options: &'a Option<OptionFile>, statements: &'a [Statement]) -> Origin<'a> {
    match options {
        Some(options) => Origin {
            name: options.name.as_str(),
            statements,
        },
        None => no_file(),
    }
}

impl<F> RouterFiles<F> {
    /// The files of a router that was started by these.
    pub(crate) fn new(files: F, origins: Origins) -> RouterFiles<F> {
        RouterFiles { files, origins }
    }
}

impl<F: Folder> Configuration for RouterFiles<F> {
    ghost reads = { λ _ size _ text. spec.SpellsFilter size text };

    ghost says = { λ files names uses. spec.SaysAgain files.origins.domain names uses };

    fn read_filter(
        &self,
        alloc: Global,
        size: u16,
        file: &[u8],
    ) -> Result<Vec<u8>, ConfigurationFault> {
        let Ok(file) = str::from_utf8(file) else {
            return Err(refused_as(alloc, b"the name of the file is not UTF-8"));
        };
        let by = self.origins.origin(alloc)?;
        let source = Source::File(included_path(alloc, &by, file)?);
        match load(&self.files, alloc, &source, SOURCE_LIMIT, &mut io::empty()) {
            Ok(SourceText::Text(text)) => verified_text(alloc, size, &source, text),
            Ok(SourceText::Unread(line)) => Err(first_told(alloc, line.as_slice())),
            Err(_) => Err(ConfigurationFault::Memory),
        }
    }

    fn read_again(&self, alloc: Global) -> Result<Configured, ConfigurationFault> {
        let (Ok(domain), Ok(options)) = (&self.origins.domain, &self.origins.options) else {
            return Err(ConfigurationFault::Memory);
        };
        let mut differences = Vec::new(alloc);
        let statements = compare_options(&self.files, alloc, options, &mut differences)?;
        let by = origin_by(options, statements.as_slice());
        match domain {
            Some(origin) => take_domain(&self.files, alloc, origin, by, differences),
            None => Err(refused_as(
                alloc,
                b"needs a restart: no --domain says which filters are used",
            )),
        }
    }
}
