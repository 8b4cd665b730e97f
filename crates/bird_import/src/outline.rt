//! The statements of a configuration, as a tree.
//!
//! One walk over the words makes it. A `;`, `{` or `}` ends a statement, so that each word belongs to one. A statement has a block if a `{` ends it; it
//! stands in the block of another one, or on the outermost level. The same walk notes the tables that are declared for other routes than those of
//! IPv4, the places at which filters are used, and the protocols without a name. Then each block is judged once: by the words of its statement, and
//! for a pipe by those of its block. The memory is linear in the number of words.
//!
//! **A filter's own words are no tree.** A step writes a few of them anew, wherever they stand, and a rule says of a step what stands before, in and
//! behind its place. So the rules are said of words, and a tree would be made again at each step.
ghost use Rattle.std.specs.Prelude.{◌≡◌, ◌<◌, ◌≤◌, ℕ, IfSome, None, length, true};
ghost use Rattle.bird_import.specs.Items as spec;

use crate::word::{
    Word, WordKind, bytes_at, bytes_behind, closing, is_at, is_name_at, is_symbol, is_word_at,
    kind_at,
};
use filter_tokens::Symbol;
use std::alloc::{AllocError, Global};

/// Whether a word is a prefix.
#[tactic(auto, unfolding(crate::specs::Items::is_prefix))]
fn is_prefix(kind: WordKind) -> bool
    ensures { result ≡ spec.is_prefix kind }
{
    matches!(kind, WordKind::Prefix)
}

/// Whether a block opens at an index. The braces of a pattern stand behind a prefix.
#[tactic(auto, unfolding(crate::specs::Items::opens_block))]
fn opens_block(words: &[Word<'_>], at: usize) -> bool
    ensures { result ≡ spec.opens_block words.now at }
{
    is_symbol(kind_at(words, at), Symbol::LeftBrace)
        && !(at > 0 && is_prefix(kind_at(words, at - 1)))
}

/// The index of the first block from an index on.
pub(crate) fn first_block(words: &[Word<'_>], from: usize) -> Option<usize>
    ensures some { IfSome result (λ at. (spec.opens_block words.now at ≡ true) × ((k : ℕ) → from ≤ k → k < at → spec.opens_block words.now k ≡ true → ⊥)) }
    ensures none { result ≡ None → (k : ℕ) → from ≤ k → k < length words.now → spec.opens_block words.now k ≡ true → ⊥ }
    ensures within { IfSome result (λ at. (from ≤ at) × (at < length words.now)) }
{
    for at in from..words.len() {
        if opens_block(words, at) {
            return Some(at);
        }
    }
    None
}

/// The index behind the first block from an index on, if it is closed.
pub(crate) fn block_end(words: &[Word<'_>], from: usize) -> Option<usize> {
    let open = first_block(words, from)?;
    let close = closing(words, open.saturating_add(1))?;
    Some(close.saturating_add(1))
}

/// Whether a protocol or a template begins at an index.
pub(crate) fn is_protocol(words: &[Word<'_>], head: usize) -> bool {
    is_word_at(words, head, b"protocol") || is_word_at(words, head, b"template")
}

/// Whether a word behind the kind of the protocol that begins at an index belongs to it: there are `ospf v2`, `ospf v3` and `rip ng`.
fn has_variant(words: &[Word<'_>], head: usize) -> bool {
    let (kind, word) = (bytes_behind(words, head, 1), bytes_behind(words, head, 2));
    (kind == b"ospf".as_slice() && (word == b"v2".as_slice() || word == b"v3".as_slice()))
        || (kind == b"rip".as_slice() && word == b"ng".as_slice())
}

/// What stands between the single quotes of a word, if it is in quotes.
fn unquoted<'a>(word: &'a [u8]) -> Option<&'a [u8]> {
    match word {
        [b'\'', inner @ .., _] => Some(inner),
        _ => None,
    }
}

/// The name of the protocol that begins at an index, if it has one: in single quotes or without, and not `from`, behind which stands a template.
pub(crate) fn name_of_protocol<'a>(words: &[Word<'a>], head: usize) -> Option<&'a [u8]> {
    let more = if has_variant(words, head) { 3 } else { 2 };
    let (at, word) = (head.saturating_add(more), bytes_behind(words, head, more));
    let name = if is_name_at(words, at) {
        word
    } else {
        unquoted(word)?
    };
    if name == b"from".as_slice() {
        None
    } else {
        Some(name)
    }
}

/// Whether a channel that begins with a word carries other routes than those of IPv4: routes of IPv6, of VPNs, origins, flows or labels.
fn is_other_channel(word: &[u8]) -> bool {
    word.starts_with(b"ipv6")
        || word.starts_with(b"vpn")
        || word.starts_with(b"roa")
        || word.starts_with(b"flow")
        || word.starts_with(b"mpls")
}

/// Whether a table is declared at an index for other routes than those of IPv4: `KIND table NAME`.
fn declares_other(words: &[Word<'_>], at: usize) -> bool {
    is_other_channel(bytes_at(words, at)) && bytes_behind(words, at, 1) == b"table".as_slice()
}

/// Whether the table of a name has other routes than those of IPv4: BIRD's own of IPv6, or one that is declared at one of these indices.
fn is_other_table(words: &[Word<'_>], tables: &[usize], name: &[u8]) -> bool {
    if name == b"master6".as_slice() {
        return true;
    }
    for table in tables {
        if bytes_behind(words, *table, 2) == name {
            return true;
        }
    }
    false
}

/// Whether a pipe between tables of other routes than those of IPv4 begins at an index.
fn is_other_pipe(words: &[Word<'_>], tables: &[usize], head: usize) -> bool {
    if !is_protocol(words, head) || bytes_behind(words, head, 1) != b"pipe".as_slice() {
        return false;
    }
    let to = block_end(words, head).unwrap_or(words.len());
    for at in head..to {
        if bytes_at(words, at) == b"table".as_slice()
            && is_other_table(words, tables, bytes_behind(words, at, 1))
        {
            return true;
        }
    }
    false
}

/// What a block says of the places in it.
#[derive(Clone, Copy)]
pub(crate) struct Block {
    /// The index of the first word of the innermost protocol or template, if they are in one.
    pub owner: Option<usize>,
    /// Their routes are other ones than those of IPv4.
    pub is_other: bool,
}

/// What is said outside of each block.
const OUTERMOST: Block = Block {
    owner: None,
    is_other: false,
};

/// A statement of a configuration.
#[derive(Clone, Copy)]
pub(crate) struct Statement {
    /// The index of its first word.
    pub head: usize,
    /// The index of what ends it: its `;`, the `{` of its block, or the `}` of the block that it stands in. The number of words if nothing does.
    pub end: usize,
    /// The index of the statement in whose block it stands. None on the outermost level.
    pub enclosing: Option<usize>,
    /// What its block says, if it has one.
    pub block: Block,
}

/// A use of a filter that has a name: `filter NAME` within a block.
#[derive(Clone, Copy)]
struct Use {
    /// The index of the name.
    name: usize,
    /// The index of the statement in whose block it is.
    enclosing: usize,
}

/// The statements of a configuration, up to a place.
#[derive(Drop)]
pub(crate) struct Outline {
    /// They, in order.
    pub statements: Vec<Statement>,
    /// Where filters are used, in order.
    uses: Vec<Use>,
    /// Where tables are declared for other routes than those of IPv4, in order.
    tables: Vec<usize>,
    /// The heads of the protocols without a name, in order.
    nameless: Vec<usize>,
    /// The index at which the present statement begins.
    start: usize,
    /// The index of the statement in whose block it stands.
    enclosing: Option<usize>,
}

impl Outline {
    /// There is none before the first word.
    fn new(alloc: Global) -> Outline {
        Outline {
            statements: Vec::new(alloc),
            uses: Vec::new(alloc),
            tables: Vec::new(alloc),
            nameless: Vec::new(alloc),
            start: 0,
            enclosing: None,
        }
    }

    /// Ends the present statement at an index.
    fn end_statement(&mut self, at: usize) -> Result<(), AllocError> {
        self.statements.push(Statement {
            head: self.start,
            end: at,
            enclosing: self.enclosing,
            block: OUTERMOST,
        })?;
        self.start = at.saturating_add(1);
        Ok(())
    }

    /// Goes into the block of the present statement, which opens at an index.
    fn enter(&mut self, words: &[Word<'_>], at: usize) -> Result<(), AllocError> {
        let (index, head) = (self.statements.len(), self.start);
        if is_protocol(words, head) && name_of_protocol(words, head).is_none() {
            self.nameless.push(head)?;
        }
        self.end_statement(at)?;
        self.enclosing = Some(index);
        Ok(())
    }

    /// Notes the word at an index if it declares a table or uses a filter.
    fn note(&mut self, words: &[Word<'_>], at: usize) -> Result<(), AllocError> {
        if declares_other(words, at) {
            self.tables.push(at)?;
        }
        if let Some(enclosing) = self.enclosing
            && is_at(words, at, Symbol::Filter)
        {
            let name = at.saturating_add(1);
            self.uses.push(Use { name, enclosing })?;
        }
        Ok(())
    }

    /// Goes past the word at an index.
    fn go_past(&mut self, words: &[Word<'_>], at: usize) -> Result<(), AllocError> {
        self.note(words, at)?;
        let kind = kind_at(words, at);
        if is_symbol(kind, Symbol::LeftBrace) {
            self.enter(words, at)?;
        } else if is_symbol(kind, Symbol::RightBrace) {
            self.end_statement(at)?;
            self.enclosing = self.statement(self.enclosing).and_then(|one| one.enclosing);
        } else if is_symbol(kind, Symbol::Semicolon) {
            self.end_statement(at)?;
        }
        Ok(())
    }

    /// The statement of an index, if there is one.
    fn statement(&self, index: Option<usize>) -> Option<Statement> {
        self.statements.get(index?).copied()
    }

    /// What the innermost block round a statement says.
    pub fn innermost(&self, statement: Statement) -> Block {
        match self.statement(statement.enclosing) {
            Some(enclosing) => enclosing.block,
            None => OUTERMOST,
        }
    }

    /// What the block of a statement says, if it has one. What the block round it says is known.
    fn block_of(&self, words: &[Word<'_>], statement: Statement) -> Block {
        let (head, outer) = (statement.head, self.innermost(statement));
        Block {
            owner: if is_protocol(words, head) {
                Some(head)
            } else {
                outer.owner
            },
            is_other: outer.is_other
                || is_other_channel(bytes_at(words, head))
                || is_other_pipe(words, self.tables.as_slice(), head),
        }
    }

    /// Finds out what each block says. Whether a pipe is between tables of IPv4 shows only once each table is known.
    fn judge(&mut self, words: &[Word<'_>]) {
        for index in 0..self.statements.len() {
            if let Some(statement) = self.statement(Some(index))
                && is_at(words, statement.end, Symbol::LeftBrace)
            {
                let block = self.block_of(words, statement);
                if let Some(place) = self.statements.get_mut(index) {
                    place.block = block;
                }
            }
        }
    }

    /// Which of the protocols of its kind without a name begins at an index: 1 for the first.
    pub fn number_of(&self, words: &[Word<'_>], owner: usize) -> u64 {
        let kind = bytes_behind(words, owner, 1);
        let mut number = 0u64;
        for head in &self.nameless {
            if *head <= owner && bytes_behind(words, *head, 1) == kind {
                number = number.saturating_add(1);
            }
        }
        number
    }

    /// Whether a use of a filter is for other routes than those of IPv4.
    fn is_for_others(&self, one: Use) -> bool {
        match self.statement(Some(one.enclosing)) {
            Some(enclosing) => enclosing.block.is_other,
            None => false,
        }
    }

    /// Whether a filter of a name is used, and only for other routes than those of IPv4.
    pub fn is_used_for_others(&self, words: &[Word<'_>], name: &[u8]) -> bool {
        let mut is_used = false;
        for one in &self.uses {
            if bytes_at(words, one.name) == name {
                if !self.is_for_others(*one) {
                    return false;
                }
                is_used = true;
            }
        }
        is_used
    }
}

/// The statements of a configuration.
pub(crate) fn outline_of(alloc: Global, words: &[Word<'_>]) -> Result<Outline, AllocError> {
    let mut outline = Outline::new(alloc);
    for at in 0..words.len() {
        outline.go_past(words, at)?;
    }
    outline.end_statement(words.len())?;
    outline.judge(words);
    Ok(outline)
}
