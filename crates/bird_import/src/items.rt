//! What a configuration consists of: its filters, functions and definitions.
//!
//! **Which filters there are is found by rules of thumb, and what is found is judged.** BIRD's protocols have more forms than are known here. So no
//! clause says to which protocol a filter belongs, and whether its routes are those of IPv4: rows of `tests/rows/ncimport.rows` do. Of what is found
//! `find_items` says that such an item begins there, by its name where it has one, and that items stand in the words, one behind another.
//! Definitions are exact: each is found, and nothing else.
ghost use Rattle.std.specs.Prelude.{◌≡◌, ◌↔◌, ◌+◌, ◌-◌, ◌^◌, ◌<◌, ◌≤◌, ℕ, AllPairs};
ghost use Rattle.std.specs.Prelude.{Contains, IfOk, IfSome, IsTrue, List, OnOk, length, map};
ghost use Rattle.bird_import.specs.Indices.{IsAt, IsNameAt};
ghost use Rattle.bird_import.specs.Items as spec;
ghost use Rattle.bird_import.specs.Items.{AreItemsIn, AreUpTo, BeginsItem, IsDefinitionIn, IsDirectionAt, IsItemAt, IsNameOf, view_of_item};
ghost use Rattle.bird_import.specs.declared.items.Definition.{Definition as TheDefinition};
ghost use Rattle.bird_import.specs.declared.word.Word.{Word as TheWord};
ghost use Rattle.filter_tokens.specs.declared.symbol.Symbol.TheVariants as symbol;

use crate::outline::{Outline, Statement, block_end, name_of_protocol, outline_of};
use crate::word::{
    Word, WordKind, bytes_at, bytes_behind, find_outside, is_at, is_foreign_at, is_name_at,
    is_symbol, is_word_at, kind_at,
};
use filter_tokens::Symbol;
use line_protocol::push_decimal;
use std::alloc::{AllocError, Global};

/// What a part of a configuration is.
#[derive(Clone, Copy, PartialEq, Eq)]
pub enum ItemKind {
    /// A filter with a name.
    Filter,
    /// A filter that a protocol imports or exports by.
    Anonymous,
    /// A condition that a protocol imports or exports by.
    Condition,
    /// A function.
    Function,
}

/// A filter or a function of a configuration.
#[derive(Drop)]
pub struct Item {
    /// What it is.
    pub kind: ItemKind,
    /// The index of its first word.
    pub from: usize,
    /// The index behind its last word.
    pub to: usize,
    /// Its name. That of a filter without a name is its protocol's with the direction.
    pub name: Vec<u8>,
    /// Its braces are closed.
    pub is_closed: bool,
    /// It is for routes of IPv6, or for others that are none of IPv4.
    pub is_ipv6: bool,
}

/// A constant or a set that is defined.
#[derive(Clone, Copy)]
pub struct Definition {
    /// The index of its name.
    pub name: usize,
    /// The index of the first word of its value.
    pub from: usize,
    /// The index of the `;` behind its value.
    pub to: usize,
}

/// Whether a word is a name.
#[tactic(auto, unfolding(crate::specs::Items::is_name))]
fn is_name(kind: WordKind) -> bool
    ensures { result ≡ spec.is_name kind }
{
    matches!(kind, WordKind::Name)
}

/// How many blocks are open behind a word, where so many are before it.
#[tactic(auto, unfolding(crate::specs::Items::blocks_behind))]
fn blocks_behind(depth: usize, kind: WordKind) -> usize
    requires { depth < 2 ^ 64 - 1 }
    ensures is { result ≡ spec.blocks_behind depth kind }
    ensures bound { result ≤ depth + 1 }
{
    if is_symbol(kind, Symbol::LeftBrace) {
        depth + 1
    } else if is_symbol(kind, Symbol::RightBrace) {
        depth.saturating_sub(1)
    } else {
        depth
    }
}

/// The definition whose first word has an index, if `NAME = VALUE ;` stands behind that.
#[tactic(auto, unfolding(crate::specs::Items::definition_behind))]
fn definition_behind(words: &[Word<'_>], at: usize) -> Option<Definition>
    requires { at < length words.now }
    ensures { result ≡ spec.definition_behind words.now at }
{
    let (name, from) = (at + 1, at + 3);
    if is_name(kind_at(words, name)) && is_symbol(kind_at(words, at + 2), Symbol::Equal) {
        let to = find_outside(words, from, Symbol::Semicolon)?;
        Some(Definition { name, from, to })
    } else {
        None
    }
}

/// The definition that begins at an index, where so many blocks are open.
#[tactic(auto, unfolding(crate::specs::Items::definition_at))]
fn definition_at(words: &[Word<'_>], depth: usize, at: usize) -> Option<Definition>
    requires { at < length words.now }
    ensures { result ≡ spec.definition_at words.now depth at }
{
    if depth == 0 && is_foreign_at(words, at, b"define") {
        definition_behind(words, at)
    } else {
        None
    }
}

/// The definitions of a configuration, in order.
pub fn find_definitions(alloc: Global, words: &[Word<'_>]) -> Result<Vec<Definition>, AllocError>
    ensures each { IfOk result (λ found. (definition : TheDefinition) → Contains found.items definition ↔ IsDefinitionIn words.now definition) }
    ensures order { IfOk result (λ found. AllPairs (λ one other. one.name < other.name) found.items) }
{
    let mut found = Vec::new(alloc);
    let mut depth = 0usize;
    for at in 0..words.len() {
        if let Some(definition) = definition_at(words, depth, at) {
            found.push(definition)?;
        }
        depth = blocks_behind(depth, kind_at(words, at));
    }
    Ok(found)
}

/// The name of what a protocol imports or exports by in a statement: that of the innermost protocol or template round it, and the direction. One
/// without a name is called by its kind and the number that BIRD puts behind it: how many of its kind have begun without a name.
fn directed_name(
    alloc: Global,
    words: &[Word<'_>],
    outline: &Outline,
    statement: Statement,
    direction: &[u8],
) -> Result<Vec<u8>, AllocError> {
    let Some(owner) = outline.innermost(statement).owner else {
        return Vec::from_slice(alloc, direction);
    };
    let mut name = Vec::new(alloc);
    match name_of_protocol(words, owner) {
        Some(own) => name.extend_from_slice(own)?,
        None => {
            let kind = bytes_behind(words, owner, 1);
            name.extend_from_slice(kind)?;
            push_decimal(&mut name, outline.number_of(words, owner))?;
        }
    }
    name.push(b'_')?;
    name.extend_from_slice(direction)?;
    Ok(name)
}

/// The kind of the item that begins at an index of the outermost level, if one does. A filter whose name is none is left out, and not
/// overlooked; a name in quotes is none of this language.
fn named_kind(words: &[Word<'_>], at: usize) -> Option<ItemKind>
    ensures { IfSome result (λ kind. BeginsItem kind words.now at) }
{
    if is_at(words, at, Symbol::Filter) {
        return Some(ItemKind::Filter);
    }
    let name = at.saturating_add(1);
    if is_foreign_at(words, at, b"function")
        && (is_name_at(words, name) || bytes_at(words, name).starts_with(b"'"))
    {
        Some(ItemKind::Function)
    } else {
        None
    }
}

/// Whether the word at an index is `import` or `export`.
fn is_direction(words: &[Word<'_>], at: usize) -> bool
    ensures { IsTrue result → IsDirectionAt words.now at }
{
    is_word_at(words, at, b"import") || is_word_at(words, at, b"export")
}

/// Whether a filter without a name stands behind the word at an index.
fn is_anonymous(words: &[Word<'_>], at: usize) -> bool
    requires { at < length words.now }
    ensures { IsTrue result → IsAt symbol.Filter words.now (at + 1) × (IsNameAt words.now (at + 2) → ⊥) }
{
    is_at(words, at + 1, Symbol::Filter) && !is_name_at(words, at.saturating_add(2))
}

/// The kind of the item that stands behind the `import` or `export` at an index of a protocol, if one does.
fn direction_kind(words: &[Word<'_>], at: usize) -> Option<ItemKind>
    requires { at < length words.now }
    ensures { IfSome result (λ kind. BeginsItem kind words.now at) }
{
    if !is_direction(words, at) {
        None
    } else if is_anonymous(words, at) {
        Some(ItemKind::Anonymous)
    } else if is_word_at(words, at + 1, b"where") {
        Some(ItemKind::Condition)
    } else {
        None
    }
}

/// The kind of the item that begins at an index of a statement, if one does. On the outermost level one begins only where the statement does.
fn item_kind(words: &[Word<'_>], statement: Statement, at: usize) -> Option<ItemKind>
    requires { at < length words.now }
    ensures { IfSome result (λ kind. BeginsItem kind words.now at) }
{
    if statement.enclosing.is_some() {
        direction_kind(words, at)
    } else if at == statement.head {
        named_kind(words, at)
    } else {
        None
    }
}

/// The name of the item of a kind that begins at an index.
fn item_name(
    alloc: Global,
    words: &[Word<'_>],
    outline: &Outline,
    statement: Statement,
    kind: ItemKind,
    at: usize,
) -> Result<Vec<u8>, AllocError>
    requires { at < length words.now }
    ensures { IfOk result (λ name. IsNameOf kind words.now at name.items) }
{
    match kind {
        ItemKind::Filter | ItemKind::Function => Vec::from_slice(alloc, bytes_at(words, at + 1)),
        ItemKind::Anonymous | ItemKind::Condition => {
            directed_name(alloc, words, outline, statement, bytes_at(words, at))
        }
    }
}

/// Whether the filter or function of a kind that begins at an index is for other routes than those of IPv4. One that has a name is where it
/// is used for such alone.
fn is_for_others(
    words: &[Word<'_>],
    outline: &Outline,
    statement: Statement,
    kind: ItemKind,
    at: usize,
) -> bool {
    match kind {
        ItemKind::Filter => outline.is_used_for_others(words, bytes_behind(words, at, 1)),
        _ => outline.innermost(statement).is_other,
    }
}

/// The index behind an item of a kind that begins at an index, if it is closed.
fn item_end(words: &[Word<'_>], kind: ItemKind, from: usize) -> Option<usize> {
    match kind {
        ItemKind::Condition => find_outside(words, from, Symbol::Semicolon),
        _ => block_end(words, from),
    }
}

/// The index behind an item of a kind that begins at an index, and whether it is closed: one that is not goes on to the end.
fn item_to(words: &[Word<'_>], kind: ItemKind, from: usize) -> (usize, bool)
    requires { from < length words.now }
    ensures { (from < result.0) × (result.0 ≤ length words.now) }
{
    match item_end(words, kind, from) {
        Some(to) if from < to && to <= words.len() => (to, true),
        _ => (words.len(), false),
    }
}

/// The item of a kind that begins at an index.
fn item_of(
    alloc: Global,
    words: &[Word<'_>],
    outline: &Outline,
    statement: Statement,
    at: usize,
    kind: ItemKind,
) -> Result<Item, AllocError>
    requires below { at < length words.now }
    requires begins { BeginsItem kind words.now at }
    ensures { IfOk result (λ one. IsItemAt words.now at (view_of_item one)) }
{
    let name = item_name(alloc, words, outline, statement, kind, at)?;
    let (to, is_closed) = item_to(words, kind, at);
    Ok(Item {
        kind,
        from: at,
        to,
        name,
        is_closed,
        is_ipv6: is_for_others(words, outline, statement, kind, at),
    })
}

/// A walk over the statements of a configuration, up to a place.
#[derive(Drop)]
struct Walk {
    /// The index behind the last item.
    next: usize,
    /// The filters and functions so far.
    found: Vec<Item>,
}

impl Walk {
    /// Goes past an item.
    fn take(&mut self, item: Item) -> Result<(), AllocError>
        ensures { OnOk result ((words : List TheWord) (at : ℕ) → self.old.next ≤ at → IsItemAt words at (view_of_item item)
            → AreUpTo words self.old.next (map view_of_item self.old.found.items) → AreUpTo words self.new.next (map view_of_item self.new.found.items)) }
    {
        self.next = item.to;
        self.found.push(item)?;
        Ok(())
    }

    /// Goes past the word at an index of a statement. An item that begins there is taken, and what is in it is gone past.
    fn go_past(
        &mut self,
        alloc: Global,
        words: &[Word<'_>],
        outline: &Outline,
        statement: Statement,
        at: usize,
    ) -> Result<(), AllocError>
        requires { at < length words.now }
        ensures { OnOk result (AreUpTo words.now self.old.next (map view_of_item self.old.found.items)
            → AreUpTo words.now self.new.next (map view_of_item self.new.found.items)) }
    {
        if at < self.next {
            return Ok(());
        }
        match item_kind(words, statement, at) {
            Some(kind) => {
                let item = item_of(alloc, words, outline, statement, at, kind)?;
                self.take(item)?;
                Ok(())
            }
            None => Ok(()),
        }
    }

    /// Goes through a statement.
    fn go_through(
        &mut self,
        alloc: Global,
        words: &[Word<'_>],
        outline: &Outline,
        statement: Statement,
    ) -> Result<(), AllocError>
        ensures { OnOk result (AreUpTo words.now self.old.next (map view_of_item self.old.found.items)
            → AreUpTo words.now self.new.next (map view_of_item self.new.found.items)) }
    {
        let end = statement.end.min(words.len());
        for at in statement.head..end {
            self.go_past(alloc, words, outline, statement, at)?;
        }
        Ok(())
    }
}

/// The filters and functions of a configuration, in order.
pub fn find_items(alloc: Global, words: &[Word<'_>]) -> Result<Vec<Item>, AllocError>
    ensures { IfOk result (λ found. AreItemsIn words.now (map view_of_item found.items)) }
{
    let outline = outline_of(alloc, words)?;
    let mut walk = Walk {
        next: 0,
        found: Vec::new(alloc),
    };
    for statement in &outline.statements {
        walk.go_through(alloc, words, &outline, *statement)?;
    }
    let Walk { next: _next, found } = walk;
    Ok(found)
}
