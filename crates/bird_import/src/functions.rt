//! Functions without parameters: whether what is written for one means the same.
ghost use Rattle.std.specs.Prelude.{◌≡◌, ◌⊎◌, [], ◌∷◌, All, IfSome, IsTrue, codes};
ghost use Rattle.bird_import.specs.Functions as spec;
ghost use Rattle.bird_import.specs.Rules.{Is, IsForeign};
ghost use Rattle.bird_import.specs.declared.word.Word.{Word as TheWord};
ghost use Rattle.filter_tokens.specs.declared.symbol.Symbol.TheVariants as symbols;

use crate::rules::{
    are_balanced, are_of_one, are_same, ends_command, is_grouped, is_kind, split, until,
};
use crate::word::{Word, WordKind};
use filter_tokens::Symbol;

/// Whether words are one expression.
fn is_expression(words: &[Word<'_>]) -> bool
    ensures { IsTrue result → spec.IsExpression words.now }
{
    are_balanced(words) && are_of_one(words)
}

/// The value of `return VALUE;`.
fn value_of_return<'w, 'a>(words: &'w [Word<'a>]) -> Option<&'w [Word<'a>]>
    ensures { IfSome result (λ value. spec.IsReturn words.now value.now) }
{
    match words {
        [command, value @ .., stop]
            if command.is_foreign(b"return")
                && stop.is(Symbol::Semicolon)
                && is_expression(value) => { Some(value) }
        _ => None,
    }
}

/// The words between braces.
fn inside_braces<'w, 'a>(words: &'w [Word<'a>]) -> Option<&'w [Word<'a>]>
    ensures { IfSome result (λ inner. spec.IsBraced inner.now words.now) }
{
    let [opening, inner @ .., closing] = words else {
        return None;
    };
    (opening.is(Symbol::LeftBrace) && closing.is(Symbol::RightBrace)).then_some(inner)
}

/// The value that words return, in braces or not.
pub(crate) fn returned<'w, 'a>(words: &'w [Word<'a>]) -> Option<&'w [Word<'a>]>
    ensures { IfSome result (λ value. spec.Returns words.now value.now) }
{
    match inside_braces(words) {
        Some(inner) => value_of_return(inner),
        None => value_of_return(words),
    }
}

/// Whether a command behind a word is on no condition.
fn ends_alone(kind: WordKind) -> bool
    ensures { result ≡ spec.ends_alone kind }
{
    matches!(
        kind,
        WordKind::Symbol(Symbol::Semicolon | Symbol::LeftBrace | Symbol::RightBrace)
    )
}

/// Whether a command behind some words is on no condition.
pub(crate) fn stands_alone(front: &[Word<'_>]) -> bool
    ensures { IsTrue result → spec.StandsAlone front.now }
{
    match front.split_last() {
        Some((last, _)) => ends_alone(last.kind),
        None => false,
    }
}

/// Whether words are `;` alone.
fn are_empty(words: &[Word<'_>]) -> bool
    ensures { IsTrue result → All (Is symbols.Semicolon) words.now }
{
    words.iter().all(|word| word.is(Symbol::Semicolon))
}

/// Whether a word is the only one, and `else`.
fn is_else(words: &[Word<'_>]) -> bool
    ensures { IsTrue result → (word : TheWord) × (words.now ≡ word ∷ []) × Is symbols.Else word }
{
    match words {
        [word] => word.is(Symbol::Else),
        _ => false,
    }
}

/// Whether what is returned on a condition and what is returned otherwise follow one another.
pub(crate) fn is_between(front: &[Word<'_>], middle: &[Word<'_>]) -> bool
    ensures { IsTrue result → spec.IsBetween front.now middle.now }
{
    is_else(middle) || (stands_alone(front) && are_empty(middle))
}

/// Whether words are two others in parentheses with an operator between them.
fn is_joined(
    operator: Symbol,
    condition: &[Word<'_>],
    other: &[Word<'_>],
    words: &[Word<'_>],
) -> bool
    ensures { IsTrue result → spec.IsJoined operator condition.now other.now words.now }
{
    let Some((first, rest)) = split(words, condition.len().saturating_add(2)) else {
        return false;
    };
    let Some((word, second)) = rest.split_first() else {
        return false;
    };
    word.is(operator) && is_grouped(condition, first) && is_grouped(other, second)
}

/// Whether a value is true or false on a condition, and another one otherwise.
fn is_answered(
    answer: &Word<'_>,
    condition: &[Word<'_>],
    other: &[Word<'_>],
    value: &[Word<'_>],
) -> bool
    ensures { IsTrue result → spec.IsAnswered answer.now condition.now other.now value.now }
{
    if answer.is(Symbol::True) {
        return is_joined(Symbol::Or, condition, other, value);
    }
    let [negation, rest @ ..] = value else {
        return false;
    };
    answer.is(Symbol::False)
        && negation.is(Symbol::Not)
        && is_joined(Symbol::And, condition, other, rest)
}

/// `if CONDITION then return ANSWER;`, with what stands between this and `return OTHER;`.
#[derive(Clone, Copy)]
pub struct Decision<'w, 'a> {
    /// The condition.
    pub condition: &'w [Word<'a>],
    /// What is returned where it holds.
    pub answer: &'w Word<'a>,
    /// What is between the two commands.
    pub middle: &'w [Word<'a>],
    /// What is returned otherwise.
    pub other: &'w [Word<'a>],
}

/// The condition behind `if`, and the words behind `then`.
fn condition_of<'w, 'a>(words: &'w [Word<'a>]) -> Option<(&'w [Word<'a>], &'w [Word<'a>])>
    ensures { IfSome result (λ found. spec.IsConditional words.now found.0.now found.1.now) }
{
    let (begin, rest) = words.split_first()?;
    let (condition, _, commands) = until(Symbol::Then, rest)?;
    if begin.is(Symbol::If) && is_expression(condition) {
        Some((condition, commands))
    } else {
        None
    }
}

/// The word that words return, in braces or not.
fn returned_word<'w, 'a>(words: &'w [Word<'a>]) -> Option<&'w Word<'a>>
    ensures { IfSome result (λ answer. spec.Returns words.now (answer.now ∷ [])) }
{
    match returned(words)? {
        [answer] => Some(answer),
        _ => None,
    }
}

/// The number of words of the `return` of one word at the front of some words, in braces or not.
fn answer_len(words: &[Word<'_>]) -> usize {
    match words.first() {
        Some(word) if word.is(Symbol::LeftBrace) => 5,
        _ => 3,
    }
}

/// The number of words at the front of some words that are one of two keywords or punctuators.
fn front_len(words: &[Word<'_>], one: Symbol, other: Symbol) -> usize {
    for at in 0..words.len() {
        if !(words[at].is(one) || words[at].is(other)) {
            return at;
        }
    }
    words.len()
}

/// The parts of words that decide what is returned.
pub(crate) fn decision_of<'w, 'a>(words: &'w [Word<'a>]) -> Option<Decision<'w, 'a>>
    ensures { IfSome result (λ made. spec.Decides words.now made.condition.now made.answer.now made.middle.now made.other.now) }
{
    let (condition, rest) = condition_of(words)?;
    let (first, rest) = split(rest, answer_len(rest))?;
    let (middle, last) = split(rest, front_len(rest, Symbol::Semicolon, Symbol::Else))?;
    Some(Decision {
        condition,
        answer: returned_word(first)?,
        middle,
        other: returned(last)?,
    })
}

/// Whether two commands that return are written as one.
pub(crate) fn is_decided(front: &[Word<'_>], old: &[Word<'_>], new: &[Word<'_>]) -> bool
    ensures { IsTrue result → spec.IsDecided front.now old.now new.now }
{
    let (Some(made), Some(value)) = (decision_of(old), value_of_return(new)) else {
        return false;
    };
    is_between(front, made.middle) && is_answered(made.answer, made.condition, made.other, value)
}

/// A function without parameters.
#[derive(Clone, Copy)]
pub struct Function<'w, 'a> {
    /// What stands between its name and its braces.
    pub between: &'w [Word<'a>],
    /// What is in its braces.
    pub body: &'w [Word<'a>],
    /// Its last brace.
    pub end: &'w Word<'a>,
}

/// The words before the first brace, and what is in the braces, with the last of them.
fn body_of<'w, 'a>(words: &'w [Word<'a>]) -> Option<(&'w [Word<'a>], &'w [Word<'a>], &'w Word<'a>)>
    ensures { IfSome result (λ found. spec.HasBody words.now found.0.now found.1.now found.2.now) }
{
    let (between, _, rest) = until(Symbol::LeftBrace, words)?;
    let (end, body) = rest.split_last()?;
    if end.is(Symbol::RightBrace) && are_balanced(body) {
        Some((between, body, end))
    } else {
        None
    }
}

/// The parts of the function of a name, if it has no parameters.
pub(crate) fn function_of<'w, 'a>(name: &[u8], words: &'w [Word<'a>]) -> Option<Function<'w, 'a>>
    ensures { IfSome result (λ made. spec.IsFunction name.now words.now made.between.now made.body.now made.end.now) }
{
    let (head, rest) = words.split_first()?;
    let (called, rest) = behind_call(rest)?;
    let (between, body, end) = body_of(rest)?;
    if head.is_foreign(b"function") && called.is_named(name) {
        Some(Function { between, body, end })
    } else {
        None
    }
}

/// Whether two words that follow one another declare no variable.
fn is_no_declaration(kind: &Word<'_>, name: &Word<'_>) -> bool
    ensures { IsTrue result → spec.IsDeclaration kind.now name.now → ⊥ }
{
    !(is_kind(kind.kind) && name.is_name())
}

/// Whether no variable is declared by the word at an index and the one behind it.
fn declares_nothing_at(words: &[Word<'_>], at: usize) -> bool
    ensures { IsTrue result → spec.DeclaresNothingAt words.now at }
{
    let Some(next) = at.checked_add(1) else {
        return false;
    };
    match (words.get(at), words.get(next)) {
        (Some(kind), Some(name)) => is_no_declaration(kind, name),
        (_, None) => true,
        _ => false,
    }
}

/// Whether no variable is declared among some words.
fn declares_nothing(words: &[Word<'_>]) -> bool
    ensures { IsTrue result → spec.DeclaresNothing words.now }
{
    for at in 0..words.len() {
        if !declares_nothing_at(words, at) {
            return false;
        }
    }
    true
}

/// Whether nothing is declared between a function's name and its braces.
fn is_plain(between: &[Word<'_>]) -> bool
    ensures { IsTrue result → spec.IsPlain between.now }
{
    match between.split_first() {
        Some((minus, _)) => minus.is(Symbol::Minus),
        None => true,
    }
}

/// Whether a command begins behind some words.
pub(crate) fn begins_command(front: &[Word<'_>]) -> bool
    ensures { IsTrue result → spec.BeginsCommand front.now }
{
    match front.split_last() {
        Some((last, _)) => ends_command(last.kind),
        None => false,
    }
}

/// Whether what stands behind some words is no part of a value.
fn is_no_part(front: &[Word<'_>]) -> bool
    ensures { IsTrue result → spec.IsNoPart front.now }
{
    match front.split_last() {
        Some((last, _)) => !last.is(Symbol::Dot),
        None => true,
    }
}

/// Whether words return nothing.
fn return_nothing(words: &[Word<'_>]) -> bool
    ensures { IsTrue result → All (λ word. IsForeign (codes "return") word → ⊥) words.now }
{
    words.iter().all(|word| !word.is_foreign(b"return"))
}

/// Whether words are others in braces.
pub(crate) fn is_block(commands: &[Word<'_>], words: &[Word<'_>]) -> bool
    ensures { IsTrue result → spec.IsBlock commands.now words.now }
{
    match inside_braces(words) {
        Some(kept) => are_same(commands, kept),
        None => false,
    }
}

/// Whether the commands of a function stand for a command that calls it.
fn is_run(body: &[Word<'_>], front: &[Word<'_>], rest: &[Word<'_>], new: &[Word<'_>]) -> bool
    ensures { IsTrue result → spec.IsRun body.now front.now rest.now new.now }
{
    let [stop] = rest else {
        return false;
    };
    stop.is(Symbol::Semicolon)
        && begins_command(front)
        && return_nothing(body)
        && is_block(body, new)
}

/// What the commands of a function return, if they do nothing else.
pub(crate) fn value_of<'w, 'a>(body: &'w [Word<'a>]) -> Option<&'w [Word<'a>]>
    ensures { IfSome result (λ value. spec.OnlyReturns body.now value.now) }
{
    let len = front_len(body, Symbol::Semicolon, Symbol::Semicolon);
    let (empty, last) = split(body, len)?;
    if are_empty(empty) {
        returned(last)
    } else {
        None
    }
}

/// Whether the value of a function stands for a call of it.
fn is_valued(body: &[Word<'_>], front: &[Word<'_>], rest: &[Word<'_>], new: &[Word<'_>]) -> bool
    ensures { IsTrue result → spec.IsValued body.now front.now rest.now new.now }
{
    let Some(value) = value_of(body) else {
        return false;
    };
    rest.is_empty() && is_no_part(front) && is_grouped(value, new)
}

/// What stands behind `NAME()`.
fn behind_call<'w, 'a>(words: &'w [Word<'a>]) -> Option<(&'w Word<'a>, &'w [Word<'a>])>
    ensures { IfSome result (λ call. spec.IsCall words.now call.0.now call.1.now) }
{
    match words {
        [name, opening, closing, rest @ ..]
            if name.is_name() && opening.is(Symbol::LeftParen) && closing.is(Symbol::RightParen) =>
            { Some((name, rest)) }
        _ => None,
    }
}

/// Whether the function of a name ends before the place of this name.
fn ends_before(name: &Word<'_>, words: &[Word<'_>]) -> bool
    ensures { IsTrue result → spec.EndsBefore name.now words.now }
{
    match function_of(name.bytes, words) {
        Some(made) => made.end.at < name.at,
        None => false,
    }
}

/// Whether a function declares nothing.
fn is_plain_function(between: &[Word<'_>], body: &[Word<'_>]) -> bool
    ensures { IsTrue result → spec.IsPlainFunction between.now body.now }
{
    is_plain(between) && declares_nothing(body)
}

/// The commands of the function of a name, if it declares nothing.
#[tactic(auto, using(crate::proofs::Placed::plain_body))]
fn plain_body<'w, 'a>(name: &[u8], words: &'w [Word<'a>]) -> Option<&'w [Word<'a>]>
    ensures { IfSome result (λ body. spec.HasPlainBody name.now words.now body.now) }
{
    let made = function_of(name, words)?;
    if is_plain_function(made.between, made.body) {
        Some(made.body)
    } else {
        None
    }
}

/// Whether the commands of a function, or its value, stand for a call of it.
fn stands_for_call(
    body: &[Word<'_>],
    front: &[Word<'_>],
    rest: &[Word<'_>],
    new: &[Word<'_>],
) -> bool
    ensures { IsTrue result → (spec.IsRun body.now front.now rest.now new.now ⊎ spec.IsValued body.now front.now rest.now new.now) }
{
    is_run(body, front, rest, new) || is_valued(body, front, rest, new)
}

/// Whether words stand for a call of a function of the configuration, whose words were `source` and have become others.
#[tactic(auto, using(crate::proofs::Placed::call_of))]
pub(crate) fn is_call_of(
    source: &[Word<'_>],
    function: &[Word<'_>],
    front: &[Word<'_>],
    old: &[Word<'_>],
    new: &[Word<'_>],
) -> bool
    ensures { IsTrue result → spec.IsCallOf source.now function.now front.now old.now new.now }
{
    let Some((name, rest)) = behind_call(old) else {
        return false;
    };
    let Some(body) = plain_body(name.bytes, function) else {
        return false;
    };
    ends_before(name, source) && stands_for_call(body, front, rest, new)
}
