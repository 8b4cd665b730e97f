//! The filters of a configuration, word by word.
ghost use Rattle.std.specs.List.{list_all};
ghost use Rattle.std.specs.Prelude.{◌≡◌, ◌↔◌, ◌⊎◌, ◌+◌, ◌*◌, ◌<◌, ◌≤◌, false, [], ◌∷◌, List, IfErr, IfOk, IfSome, IsTrue, None, OnOk, Some, length, max};
ghost use Rattle.bird_import.specs.Conversions.{BeginsAs, IfConverted, IsCallee, IsNext, kinds_of, words_of};
ghost use Rattle.bird_import.specs.Functions.{IsCallOf};
ghost use Rattle.bird_import.specs.Indices.{place_at};
ghost use Rattle.bird_import.specs.Names.{KnowsAll};
ghost use Rattle.bird_import.specs.Judged.{AreJudged, HasConversion, HaveConversions, IsConversion, IsFilter, IsJudged, IsNoFilter};
ghost use Rattle.bird_import.specs.Reasons.{AreKnown, HasNameBefore, HaveUnknown, IsLeftOpen, IsNamedBefore, is_nameable, is_spelled_name, why_of, why_of_next, why_of_plan};
ghost use Rattle.bird_import.specs.Scopes.{AreInScope};
ghost use Rattle.bird_import.specs.Stuck.{AreApart, Calls, Halts, Hinder, Hinders, IsCallBy, IsOutside, IsStuck, IsTooDeep};
ghost use Rattle.bird_import.specs.Steps.{Becomes, BecomesWithin, Fits, IsCallWritten, Replaces, Writes};
ghost use Rattle.bird_import.specs.declared.step.Rule.{Rule as TheRule};
ghost use Rattle.bird_import.specs.declared.items.ItemKind.TheVariants as item_kind;
ghost use Rattle.bird_import.specs.declared.reason.Why.TheVariants as why;
ghost use Rattle.bird_import.specs.declared.word.WordKind.TheVariants as word_kind;
ghost use Rattle.filter_tokens.specs.Shapes.{continues_word};
ghost use Rattle.filter_tokens.specs.declared.symbol.Symbol.TheVariants as symbol;

use crate::calls::{call_at, first_call, item_of, plan_return};
use crate::cases::plan_case;
use crate::config::Config;
use crate::declarations::{first_without_value, plan_declaration};
use crate::defines::{WORD_LIMIT, define_all, first_of_two_meanings, is_much, plan_definition};
use crate::items::{Item, ItemKind};
use crate::names::{Names, names_of};
use crate::operators::{plan_grouping, plan_semicolon, plan_type_test, plan_unwrapping};
use crate::printing::plan_printing;
use crate::reason::{Reason, Why};
use crate::scopes::first_stray;
use crate::set_variables::plan_sets;
use crate::step::{NextStep, Rule, apply, apply_call, joined};
use crate::unknown::first_unknown;
use crate::word::{Word, bytes_at, find_outside, is_at};
use filter_tokens::{Symbol, continues_word};
use std::alloc::{AllocError, Global};

/// The most steps that are made for a filter.
const STEP_LIMIT: usize = 65_536;

/// How far behind a parenthesis or a bracket that is not closed the `;` is looked for that shows it.
const REACH: usize = 1_024;

/// How deep functions call functions at most.
const CALL_DEPTH: u8 = 16;

/// What becomes of a filter.
#[derive(Drop)]
pub enum ConversionOutcome<'a> {
    /// Its words in this language.
    Converted(Vec<Word<'a>>),
    /// It is left out.
    LeftOut(Reason<'a>),
}

/// What a configuration's filter becomes.
#[derive(Drop)]
pub struct Conversion<'a> {
    /// Its name.
    pub name: &'a [u8],
    /// The place of its first word.
    pub at: usize,
    /// The place of its last word.
    pub end: usize,
    /// What becomes of it.
    pub outcome: ConversionOutcome<'a>,
}

/// The rules by which a step is looked for, in this order.
const ORDER: [Rule; 10] = [
    Rule::Defined,
    Rule::Unwrapped,
    Rule::Separated,
    Rule::Unprinted,
    Rule::SetPlaced,
    Rule::Declared,
    Rule::CaseTaken,
    Rule::Ipv4Only,
    Rule::Grouped,
    Rule::Returned,
];

/// The plan by a rule, or by one that belongs with it.
fn plan_by<'a>(
    alloc: Global,
    config: &Config<'a>,
    names: &Names,
    words: &[Word<'a>],
    rule: Rule,
) -> Result<NextStep<'a>, AllocError>
    requires names { KnowsAll config.now names.now }
    ensures { IfOk result (λ plan. IfSome (why_of_plan plan) (Hinders config.now words.now)) }
{
    match rule {
        Rule::Defined => plan_definition(alloc, config, names, words),
        Rule::Separated => plan_semicolon(alloc, words),
        Rule::Unprinted | Rule::Shortened => plan_printing(alloc, words),
        Rule::SetPlaced => plan_sets(alloc, words),
        Rule::Declared => plan_declaration(alloc, words),
        Rule::CaseTaken | Rule::CaseBraced => plan_case(alloc, words),
        Rule::Ipv4Only => plan_type_test(alloc, words),
        Rule::Grouped => plan_grouping(alloc, words),
        Rule::Unwrapped => plan_unwrapping(alloc, words),
        Rule::Returned => plan_return(alloc, words),
    }
}

/// The first of the plans that has something to do.
fn plan<'a>(
    alloc: Global,
    config: &Config<'a>,
    names: &Names,
    words: &[Word<'a>],
) -> Result<NextStep<'a>, AllocError>
    requires names { KnowsAll config.now names.now }
    ensures { IfOk result (λ plan. IfSome (why_of_plan plan) (Hinders config.now words.now)) }
{
    for rule in &ORDER {
        match plan_by(alloc, config, names, words, *rule)? {
            NextStep::Done => {}
            found => return Ok(found),
        }
    }
    Ok(NextStep::Done)
}

/// What comes next for some words.
#[derive(Drop)]
pub enum Next<'a> {
    /// They become these.
    Words(Vec<Word<'a>>),
    /// The filter has to be left out.
    Stuck(Reason<'a>),
    /// Nothing.
    Done,
}

/// Makes the next step by a rule.
fn next_step<'a>(
    alloc: Global,
    config: &Config<'a>,
    names: &Names,
    words: &[Word<'a>],
) -> Result<Next<'a>, AllocError>
    requires names { KnowsAll config.now names.now }
    ensures step { IfOk result (IsNext (λ after. (by : TheRule) × Replaces (Fits config.now.words.now by) words.now after)) }
    ensures stuck { IfOk result (λ next. IfSome (why_of_next next) (Hinders config.now words.now)) }
{
    match plan(alloc, config, names, words)? {
        NextStep::Step(step) => match apply(alloc, config.words, words, &step)? {
            Some(after) => Ok(Next::Words(after)),
            None => Ok(Next::Stuck(step.stuck)),
        },
        NextStep::Stuck(reason) => Ok(Next::Stuck(reason)),
        NextStep::Done => Ok(Next::Done),
    }
}

/// Puts what stands for a call in its place, whose function had the words `source`, which have become others.
fn place_call<'a>(
    alloc: Global,
    words: &[Word<'a>],
    at: usize,
    word: Word<'a>,
    source: &[Word<'a>],
    function: &[Word<'a>],
) -> Result<Next<'a>, AllocError>
    requires { IsCallBy words.now at word }
    ensures stuck { IfOk result (λ next. IfSome (why_of_next next) (Hinder words.now)) }
    ensures step { IfOk result (IsNext (Replaces (λ front old new back. IsCallOf source.now function.now front old new) words.now)) }
{
    let call = match call_at(alloc, words, at, word, function)? {
        Ok(call) => call,
        Err(reason) => return Ok(Next::Stuck(reason)),
    };
    match apply_call(alloc, words, source, function, &call)? {
        Some(after) => Ok(Next::Words(after)),
        None => Ok(Next::Stuck(call.stuck)),
    }
}

/// A function that is called.
#[derive(Clone, Copy)]
struct Callee<'a> {
    /// It.
    item: &'a Item,
    /// Its words in the configuration.
    source: &'a [Word<'a>],
    /// How deep functions call functions in it at most.
    less: u8,
}

/// The function that is called at an index, where functions call functions so deep at most.
#[tactic(auto, using(crate::proofs::Reached::callee))]
fn callee_of<'a>(
    config: &Config<'a>,
    words: &[Word<'a>],
    at: usize,
    word: Word<'a>,
    depth: u8,
) -> Result<Callee<'a>, Reason<'a>>
    requires { IsCallBy words.now at word }
    ensures callee { IfOk result (λ found. IsCallee config.now.words.now depth found.source.now found.less) }
    ensures called { IfOk result (λ found. Calls config.now words.now found.item.now × (found.source.now ≡ words_of config.now.words.now found.item.now)) }
    ensures refused { IfErr result (λ reason. Hinders config.now words.now reason.why ⊎ IsTooDeep config.now depth words.now reason.why) }
{
    let item = match item_of(config, word) {
        Ok(item) => item,
        Err(reason) => return Err(reason),
    };
    let source = match source_of(config, item, word.at) {
        Ok(source) => source,
        Err(reason) => return Err(reason),
    };
    match less_deep(depth, word.at) {
        Ok(less) => Ok(Callee { item, source, less }),
        Err(reason) => Err(reason),
    }
}

/// The words of a function that is called at a place.
fn source_of<'a>(config: &Config<'a>, item: &Item, at: usize) -> Result<&'a [Word<'a>], Reason<'a>>
    ensures ok { IfOk result (λ source. source.now ≡ words_of config.now.words.now item.now) }
    ensures err { IfErr result (λ reason. (reason.why ≡ why.TooLong) × IsOutside config.now item.now) }
{
    match words_of_item_at(config.words, item) {
        Some(source) => Ok(source),
        None => Err(Reason {
            at,
            why: Why::TooLong,
        }),
    }
}

/// How deep functions call functions in one that is called at a place, where they do so deep at most round it.
fn less_deep<'a>(depth: u8, at: usize) -> Result<u8, Reason<'a>>
    ensures ok { IfOk result (λ less. depth ≡ less + 1) }
    ensures err { IfErr result (λ reason. (reason.why ≡ why.TooLong) × (depth ≡ 0)) }
{
    match depth.checked_sub(1) {
        Some(less) => Ok(less),
        None => Err(Reason {
            at,
            why: Why::TooLong,
        }),
    }
}

/// Makes the step for the call at an index, by this word.
#[cycle(rewriting)]
fn next_call<'a>(
    alloc: Global,
    config: &Config<'a>,
    names: &Names,
    words: &[Word<'a>],
    at: usize,
    word: Word<'a>,
    depth: u8,
) -> Result<Next<'a>, AllocError>
    requires names { KnowsAll config.now names.now }
    requires called { IsCallBy words.now at word }
    ensures step { IfOk result (IsNext (Replaces (IsCallWritten config.now.words.now (BecomesWithin config.now.words.now depth)) words.now)) }
    ensures stuck { IfOk result (λ next. IfSome (why_of_next next) (Halts config.now depth words.now)) }
{
    let callee = match callee_of(config, words, at, word, depth) {
        Ok(callee) => callee,
        Err(reason) => return Ok(Next::Stuck(reason)),
    };
    match rewrite(
        alloc,
        config,
        names,
        copy_of(alloc, callee.source)?,
        callee.less,
    )? {
        ConversionOutcome::Converted(function) => {
            place_call(alloc, words, at, word, callee.source, function.as_slice())
        }
        ConversionOutcome::LeftOut(reason) => Ok(Next::Stuck(reason)),
    }
}

/// Makes the next step for some words.
#[cycle(rewriting)]
fn next_words<'a>(
    alloc: Global,
    config: &Config<'a>,
    names: &Names,
    words: &[Word<'a>],
    depth: u8,
) -> Result<Next<'a>, AllocError>
    requires names { KnowsAll config.now names.now }
    ensures step { IfOk result (IsNext (Writes config.now.words.now (BecomesWithin config.now.words.now depth) words.now)) }
    ensures stuck { IfOk result (λ next. IfSome (why_of_next next) (Halts config.now depth words.now)) }
{
    match first_call(words) {
        Some((at, word)) => next_call(alloc, config, names, words, at, word, depth),
        None => next_step(alloc, config, names, words),
    }
}

/// Makes all steps for some words.
#[cycle(rewriting)]
fn rewrite<'a>(
    alloc: Global,
    config: &Config<'a>,
    names: &Names,
    words: Vec<Word<'a>>,
    depth: u8,
) -> Result<ConversionOutcome<'a>, AllocError>
    requires names { KnowsAll config.now names.now }
    ensures converted { IfOk result (IfConverted (Becomes config.now.words.now depth words.entry.items)) }
    ensures apart { IfOk result (IfConverted (λ after. AreApart config.now words.entry.items)) }
    ensures in_scope { IfOk result (IfConverted (λ after. AreInScope words.entry.items)) }
    ensures stuck { IfOk result (λ outcome. IfSome (why_of outcome) (IsStuck config.now depth words.entry.items)) }
{
    if words.len() > WORD_LIMIT {
        return Ok(too_long(words.as_slice()));
    }
    if let Some(reason) = first_of_two_meanings(config, names, words.as_slice()) {
        return Ok(ConversionOutcome::LeftOut(reason));
    }
    if let Some(reason) = first_stray(words.as_slice()) {
        return Ok(ConversionOutcome::LeftOut(reason));
    }
    let mut words = define_all(alloc, config, names, words)?;
    for made in 0..STEP_LIMIT {
        let all = words.as_slice();
        if all.len() > WORD_LIMIT {
            return Ok(too_long(all));
        }
        if is_much(made, all.len()) {
            return Ok(too_long(all));
        }
        match next_words(alloc, config, names, all, depth)? {
            Next::Words(after) => words = after,
            Next::Stuck(reason) => return Ok(ConversionOutcome::LeftOut(reason)),
            Next::Done => return Ok(ConversionOutcome::Converted(words)),
        }
    }
    Ok(too_long(words.as_slice()))
}

/// What becomes of words that are too many, or to which too many steps have come.
fn too_long<'a>(words: &[Word<'a>]) -> ConversionOutcome<'a>
    ensures { why_of result ≡ Some why.TooLong }
{
    ConversionOutcome::LeftOut(Reason {
        at: match words.first() {
            Some(word) => word.at,
            None => 0,
        },
        why: Why::TooLong,
    })
}

/// The words of a filter that has a name from its protocol.
fn named_words<'a>(
    alloc: Global,
    all: &[Word<'a>],
    name: &'a [u8],
) -> Result<Vec<Word<'a>>, AllocError>
    ensures { IfOk result (λ words. BeginsAs item_kind.Anonymous name.now all.now words.items) }
{
    // `import` or `export`, then `filter`, then the rest.
    let Some((direction, others)) = all.split_first() else {
        return Ok(Vec::new(alloc));
    };
    let Some((_, rest)) = others.split_first() else {
        return Ok(Vec::new(alloc));
    };
    let head = Word::of_symbol(Symbol::Filter, direction.at).after(direction.gap);
    joined(alloc, &[head], &[Word::named(name, direction.at)], rest)
}

/// The words with which a condition opens a body.
fn condition_front<'a>(at: usize) -> [Word<'a>; 2]
    ensures { kinds_of result ≡ word_kind.Symbol symbol.LeftBrace ∷ word_kind.Symbol symbol.If ∷ [] }
{
    [
        Word::of_symbol(Symbol::LeftBrace, at),
        Word::of_symbol(Symbol::If, at),
    ]
}

/// The words behind a condition, up to the end of the body.
fn condition_back<'a>(at: usize) -> [Word<'a>; 6]
    ensures { kinds_of result ≡ word_kind.Symbol symbol.Then ∷ word_kind.Symbol symbol.Accept
        ∷ word_kind.Symbol symbol.Semicolon ∷ word_kind.Symbol symbol.Reject ∷ word_kind.Symbol symbol.Semicolon
        ∷ word_kind.Symbol symbol.RightBrace ∷ [] }
{
    let stop = Word::of_symbol(Symbol::Semicolon, at).after(b"");
    [
        Word::of_symbol(Symbol::Then, at),
        Word::of_symbol(Symbol::Accept, at),
        stop,
        Word::of_symbol(Symbol::Reject, at),
        stop,
        Word::of_symbol(Symbol::RightBrace, at),
    ]
}

/// The words of the filter that a condition stands for.
fn condition_words<'a>(
    alloc: Global,
    all: &[Word<'a>],
    name: &'a [u8],
) -> Result<Vec<Word<'a>>, AllocError>
    ensures { IfOk result (λ words. BeginsAs item_kind.Condition name.now all.now words.items) }
{
    let Some((direction, others)) = all.split_first() else {
        return Ok(Vec::new(alloc));
    };
    let Some((_, condition)) = others.split_first() else {
        return Ok(Vec::new(alloc));
    };
    let at = direction.at;
    let body = joined(alloc, &condition_front(at), condition, &condition_back(at))?;
    let head = Word::of_symbol(Symbol::Filter, at).after(direction.gap);
    joined(alloc, &[head], &[Word::named(name, at)], body.as_slice())
}

/// The words of an item.
fn words_of_item_at<'a>(words: &'a [Word<'a>], item: &Item) -> Option<&'a [Word<'a>]>
    ensures some { IfSome result (λ all. all.now ≡ words_of words.now item.now) }
    ensures none { result ≡ None → length words.now < max item.now.from item.now.to }
{
    let (_, rest) = words.split_at_checked(item.from)?;
    let (all, _) = rest.split_at_checked(item.to.saturating_sub(item.from))?;
    Some(all)
}

/// The words of a filter as the configuration has it, with its name.
fn first_words<'a>(
    alloc: Global,
    all: &[Word<'a>],
    item: &'a Item,
) -> Result<Vec<Word<'a>>, AllocError>
    ensures { IfOk result (λ words. BeginsAs item.now.kind item.now.name.items all.now words.items) }
{
    match item.kind {
        ItemKind::Anonymous => named_words(alloc, all, item.name.as_slice()),
        ItemKind::Condition => condition_words(alloc, all, item.name.as_slice()),
        ItemKind::Filter | ItemKind::Function => copy_of(alloc, all),
    }
}

/// A copy of words.
fn copy_of<'a>(alloc: Global, all: &[Word<'a>]) -> Result<Vec<Word<'a>>, AllocError>
    ensures { IfOk result (λ words. words.items ≡ all.now) }
{
    Vec::from_slice(alloc, all)
}

/// Whether a parenthesis or a bracket at an index is not closed: a `;` comes before what closes it.
fn is_left_open(words: &[Word<'_>], at: usize) -> bool
    requires { at < length words.now }
    ensures { IsTrue result → IsLeftOpen words.now at }
{
    if !is_at(words, at, Symbol::LeftParen) && !is_at(words, at, Symbol::LeftBracket) {
        return false;
    }
    match find_outside(words, at + 1, Symbol::Semicolon) {
        Some(_stop) => true,
        None => false,
    }
}

/// Whether a `;` is near behind an index, before what closes the parentheses, brackets or braces that are open there.
fn has_stop_near(words: &[Word<'_>], at: usize) -> bool {
    let end = at.saturating_add(REACH).min(words.len());
    find_outside(&words[..end], at.saturating_add(1), Symbol::Semicolon).is_some()
}

/// The index of the first parenthesis or bracket from an index on that is not closed, if there is one. It is not found where the `;` that
/// shows it is far behind it: so each word is passed over but so often.
fn first_left_open(words: &[Word<'_>], from: usize) -> Option<usize>
    ensures { IfSome result (λ k. (from ≤ k) × (k < length words.now) × IsLeftOpen words.now k) }
{
    for at in from..words.len() {
        if has_stop_near(words, at) && is_left_open(words, at) {
            return Some(at);
        }
    }
    None
}

/// Why an item that begins at a place and is not closed is no filter.
fn unclosed<'a>(config: &Config<'a>, item: &Item, at: usize) -> Reason<'a>
    ensures { item.now.is_closed ≡ false → IsNoFilter config.now item.now result.why }
{
    match first_left_open(config.words, item.from) {
        Some(index) => Reason {
            at: place_of(config, index),
            why: Why::LeftOpen(bytes_at(config.words, index)),
        },
        None => Reason {
            at,
            why: Why::Unclosed,
        },
    }
}

/// Why an item that begins at a place cannot be a filter at all, if it cannot.
fn why_no_filter<'a>(config: &Config<'a>, item: &Item, at: usize) -> Option<Reason<'a>>
    ensures some { IfSome result (λ reason. IsNoFilter config.now item.now reason.why) }
    ensures none { result ≡ None → IsFilter config.now item.now }
{
    if !item.is_closed {
        Some(unclosed(config, item, at))
    } else if item.is_ipv6 {
        Some(Reason { at, why: Why::Ipv6 })
    } else if is_named_before(config, item) {
        Some(Reason {
            at,
            why: Why::SameName,
        })
    } else if !is_nameable(item) {
        Some(Reason {
            at,
            why: Why::NoName,
        })
    } else {
        None
    }
}

/// Whether each byte may stand in a name.
fn has_name_bytes(name: &[u8]) -> bool
    ensures { result ≡ list_all continues_word name.now }
{
    for byte in name {
        if !continues_word(*byte) {
            return false;
        }
    }
    true
}

/// Whether bytes are spelled as a name: letters, digits and `_`, of which the first is no digit.
fn is_spelled_name(name: &[u8]) -> bool
    ensures { result ≡ is_spelled_name name.now }
{
    if name.is_empty() || name[0].is_ascii_digit() {
        return false;
    }
    has_name_bytes(name)
}

/// Whether an item has a name of this language. Of a filter with one in quotes that is told at the name.
fn is_nameable(item: &Item) -> bool
    ensures { result ≡ is_nameable item.now.kind item.now.name.items }
{
    let name = item.name.as_slice();
    match item.kind {
        ItemKind::Anonymous | ItemKind::Condition => is_spelled_name(name),
        ItemKind::Filter => name.starts_with(b"'") || is_spelled_name(name),
        ItemKind::Function => true,
    }
}

/// Whether a filter before an item has its name.
fn is_named_before(config: &Config<'_>, item: &Item) -> bool
    ensures { IsTrue result ↔ IsNamedBefore config.now.items.now item.now }
{
    for other in config.items {
        if has_name_before(other, item) {
            return true;
        }
    }
    false
}

/// Whether an item is a filter before another one, and has its name.
fn has_name_before(other: &Item, item: &Item) -> bool
    ensures { IsTrue result ↔ HasNameBefore other.now item.now }
{
    other.from < item.from
        && other.kind != ItemKind::Function
        && other.name.as_slice() == item.name.as_slice()
}

/// The words of a filter, unless one of them cannot be kept.
fn kept<'a>(words: Vec<Word<'a>>) -> ConversionOutcome<'a>
    ensures converted { IfConverted (λ after. (after ≡ words.entry.items) × AreKnown words.entry.items) result }
    ensures unknown { IfSome (why_of result) (HaveUnknown words.entry.items) }
{
    match first_unknown(words.as_slice()) {
        Some(reason) => ConversionOutcome::LeftOut(reason),
        None => ConversionOutcome::Converted(words),
    }
}

/// What becomes of the filter of an item.
#[tactic(auto, using(crate::proofs::Judged::of_words))]
fn outcome_of<'a>(
    alloc: Global,
    config: &Config<'a>,
    names: &Names,
    item: &'a Item,
    at: usize,
) -> Result<ConversionOutcome<'a>, AllocError>
    requires names { KnowsAll config.now names.now }
    ensures { IfOk result (IsJudged config.now item.now) }
{
    if let Some(reason) = why_no_filter(config, item, at) {
        return Ok(ConversionOutcome::LeftOut(reason));
    }
    let Some(all) = words_of_item_at(config.words, item) else {
        return Ok(ConversionOutcome::LeftOut(Reason {
            at,
            why: Why::Unclosed,
        }));
    };
    rewritten(alloc, config, names, first_words(alloc, all, item)?)
}

/// What becomes of a filter that begins with some words.
fn rewritten<'a>(
    alloc: Global,
    config: &Config<'a>,
    names: &Names,
    words: Vec<Word<'a>>,
) -> Result<ConversionOutcome<'a>, AllocError>
    requires names { KnowsAll config.now names.now }
    ensures { IfOk result (AreJudged config.now words.entry.items) }
{
    if let Some(reason) = first_without_value(words.as_slice()) {
        return Ok(ConversionOutcome::LeftOut(reason));
    }
    match rewrite(alloc, config, names, words, CALL_DEPTH)? {
        ConversionOutcome::Converted(words) => Ok(kept(words)),
        ConversionOutcome::LeftOut(reason) => Ok(ConversionOutcome::LeftOut(reason)),
    }
}

/// The place of the word at an index.
fn place_of(config: &Config<'_>, index: usize) -> usize
    ensures { result ≡ place_at config.now.words.now index }
{
    match config.words.get(index) {
        Some(word) => word.at,
        None => 0,
    }
}

/// The conversion of an item.
fn conversion_of<'a>(
    alloc: Global,
    config: &Config<'a>,
    names: &Names,
    item: &'a Item,
) -> Result<Conversion<'a>, AllocError>
    requires names { KnowsAll config.now names.now }
    ensures { IfOk result (IsConversion config.now item.now) }
{
    let at = place_of(config, item.from);
    Ok(Conversion {
        name: item.name.as_slice(),
        at,
        end: place_of(config, item.to.saturating_sub(1)),
        outcome: outcome_of(alloc, config, names, item, at)?,
    })
}

/// Puts the conversion of an item behind those of the items before it, unless it is a function.
fn push_conversion<'a>(
    alloc: Global,
    config: &Config<'a>,
    names: &Names,
    item: &'a Item,
    conversions: &mut Vec<Conversion<'a>>,
) -> Result<(), AllocError>
    requires names { KnowsAll config.now names.now }
    ensures { OnOk result (HasConversion config.now item.now.kind item.now conversions.old.items conversions.new.items) }
{
    match item.kind {
        ItemKind::Function => Ok(()),
        ItemKind::Filter | ItemKind::Anonymous | ItemKind::Condition => {
            conversions.push(conversion_of(alloc, config, names, item)?)?;
            Ok(())
        }
    }
}

/// What becomes of each filter of a configuration, in the order of its items.
#[tactic(auto, using(crate::proofs::Reached::no_conversion))]
pub fn make_conversions<'a>(
    alloc: Global,
    config: &Config<'a>,
) -> Result<Vec<Conversion<'a>>, AllocError>
    // Each item that is no function has one conversion, in order. The words that are converted come of the item's, by steps that fit their rules.
    ensures { IfOk result (λ conversions. HaveConversions config.now config.now.items.now (length config.now.items.now) conversions.items) }
{
    let names = names_of(alloc, config)?;
    let mut found = Vec::new(alloc);
    for item in config.items {
        push_conversion(alloc, config, &names, item, &mut found)?;
    }
    Ok(found)
}
