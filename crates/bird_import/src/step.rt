//! Single steps from a filter of BIRD's to one of this language.
ghost use Rattle.std.specs.Prelude.{◌≡◌, ◌++◌, IfOk, IfSome, Some};
ghost use Rattle.bird_import.specs.Functions.{IsCallOf};
ghost use Rattle.bird_import.specs.Reasons.{why_of_plan};
ghost use Rattle.bird_import.specs.Rules.{IsEnclosed};
ghost use Rattle.bird_import.specs.Steps.{Fits, Replaces};

use crate::fits::fits;
use crate::functions::is_call_of;
use crate::reason::Reason;
use crate::rules::split;
use crate::word::Word;
use filter_tokens::Symbol;
use std::alloc::{AllocError, Global};

/// Why words of a filter are written as others.
#[derive(Clone, Copy)]
pub enum Rule {
    /// A defined name: the words of its definition.
    Defined,
    /// In a function: what is returned on a condition, and what otherwise, as one value.
    Returned,
    /// `print` is left out: it changes no route.
    Unprinted,
    /// Of what is printed behind `accept` or `reject` a text is kept.
    Shortened,
    /// A variable that is a set: the set, where it is used.
    SetPlaced,
    /// A declaration is moved to the others.
    Declared,
    /// A `case` of addresses: an `if` for its first label, and an `else` for the others.
    CaseTaken,
    /// The same, in braces, before that is done.
    CaseBraced,
    /// A test of the kind of a prefix, which is always one of IPv4.
    Ipv4Only,
    /// Parentheses where `&&` and `||` are mixed.
    Grouped,
    /// A `;` that is missing before `else` or a closing brace.
    Separated,
    /// A number or an address in a label or a set: no parentheses stand round it.
    Unwrapped,
}

/// A step: the words `from..to` of a filter are written as others.
#[derive(Drop)]
pub struct RewriteStep<'a> {
    /// Why.
    pub rule: Rule,
    /// The index of the definition in the configuration, where one is placed.
    pub origin: usize,
    /// The index of the first word.
    pub from: usize,
    /// The index behind the last one.
    pub to: usize,
    /// What is written in their place.
    pub words: Vec<Word<'a>>,
    /// Why the filter is left out if the step is none of its rule.
    pub stuck: Reason<'a>,
}

/// What is to be done next.
#[derive(Drop)]
pub enum NextStep<'a> {
    /// A step.
    Step(RewriteStep<'a>),
    /// The filter has to be left out.
    Stuck(Reason<'a>),
    /// Nothing.
    Done,
}

/// The plan of a step that places no definition.
pub(crate) fn planned<'a>(
    rule: Rule,
    from: usize,
    to: usize,
    words: Result<Vec<Word<'a>>, AllocError>,
    stuck: Reason<'a>,
) -> Result<NextStep<'a>, AllocError>
    ensures { IfOk result (λ plan. why_of_plan plan ≡ Some stuck.entry.why) }
{
    Ok(NextStep::Step(RewriteStep {
        rule,
        origin: 0,
        from,
        to,
        words: words?,
        stuck,
    }))
}

/// The parts of some words: those before a step, those that it writes as others, and those behind it.
#[derive(Clone, Copy)]
struct StepParts<'w, 'a> {
    /// The words before it.
    front: &'w [Word<'a>],
    /// The words that are written as others.
    old: &'w [Word<'a>],
    /// The words behind it.
    back: &'w [Word<'a>],
}

/// The words `from..to`, with those before and behind them.
fn parts_at<'w, 'a>(words: &'w [Word<'a>], from: usize, to: usize) -> Option<StepParts<'w, 'a>>
    ensures { IfSome result (λ parts. words.now ≡ parts.front.now ++ (parts.old.now ++ parts.back.now)) }
{
    let (front, rest) = split(words, from)?;
    let (old, back) = split(rest, to.saturating_sub(from))?;
    Some(StepParts { front, old, back })
}

/// The words after a step, if it is one of its rule.
#[tactic(auto, using(crate::proofs::Reached::replaced))]
pub(crate) fn apply<'a>(
    alloc: Global,
    config: &[Word<'a>],
    words: &[Word<'a>],
    step: &RewriteStep<'a>,
) -> Result<Option<Vec<Word<'a>>>, AllocError>
    ensures { IfOk result (λ made. IfSome made (λ after. Replaces (Fits config.now step.now.rule) words.now after.items)) }
{
    let Some(StepParts { front, old, back }) = parts_at(words, step.from, step.to) else {
        return Ok(None);
    };
    let new = step.words.as_slice();
    if !fits(config, step.rule, step.origin, front, old, new, back) {
        return Ok(None);
    }
    Ok(Some(joined(alloc, front, new, back)?))
}

/// A call of a function: the words `from..to` of a filter are written as what stands for it.
#[derive(Drop)]
pub struct Call<'a> {
    /// The index of the first word.
    pub from: usize,
    /// The index behind the last one.
    pub to: usize,
    /// What is written in their place.
    pub words: Vec<Word<'a>>,
    /// Why the filter is left out if it does not stand for the call.
    pub stuck: Reason<'a>,
}

/// The words after a call, if what is written for it means what the function does, whose words were `source` and have become others.
#[tactic(auto, using(crate::proofs::Reached::replaced))]
pub(crate) fn apply_call<'a>(
    alloc: Global,
    words: &[Word<'a>],
    source: &[Word<'a>],
    function: &[Word<'a>],
    call: &Call<'a>,
) -> Result<Option<Vec<Word<'a>>>, AllocError>
    ensures { IfOk result (λ made. IfSome made (λ after.
        Replaces (λ front old new back. IsCallOf source.now function.now front old new) words.now after.items)) }
{
    let Some(StepParts { front, old, back }) = parts_at(words, call.from, call.to) else {
        return Ok(None);
    };
    let placed = call.words.as_slice();
    if !is_call_of(source, function, front, old, placed) {
        return Ok(None);
    }
    Ok(Some(joined(alloc, front, placed, back)?))
}

/// The words of three parts, side by side.
pub(crate) fn joined<'a>(
    alloc: Global,
    front: &[Word<'a>],
    new: &[Word<'a>],
    back: &[Word<'a>],
) -> Result<Vec<Word<'a>>, AllocError>
    ensures { IfOk result (λ words. words.items ≡ front.now ++ new.now ++ back.now) }
{
    let mut words = Vec::from_slice(alloc, front)?;
    words.extend_from_slice(new)?;
    words.extend_from_slice(back)?;
    Ok(words)
}

/// Words between two symbols, in the place of a word.
pub(crate) fn enclosed<'a>(
    alloc: Global,
    left: Symbol,
    inner: &[Word<'a>],
    right: Symbol,
    word: Word<'a>,
) -> Result<Vec<Word<'a>>, AllocError>
    ensures { IfOk result (λ words. IsEnclosed left right inner.now words.items) }
{
    let front = Word::of_symbol(left, word.at).after(word.gap);
    joined(alloc, &[front], inner, &[Word::of_symbol(right, word.at)])
}

/// Puts words behind others, part by part.
pub(crate) fn push_parts<'a>(
    words: &mut Vec<Word<'a>>,
    parts: &[&[Word<'a>]],
) -> Result<(), AllocError> {
    for part in parts {
        words.extend_from_slice(part)?;
    }
    Ok(())
}
