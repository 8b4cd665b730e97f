//! Variables that are sets: whether the set is written in the right places.
ghost use Rattle.std.specs.Prelude.{◌≡◌, [], IfSome, IsTrue};
ghost use Rattle.bird_import.specs.Sets as spec;

use crate::blocks::are_commands;
use crate::functions::stands_alone;
use crate::rules::{are_same, closes, is_kind, is_same, is_set, split, until};
use crate::word::Word;
use filter_tokens::Symbol;

/// Whether a word that is not the name is written as it is.
fn is_kept(name: &[u8], word: &Word<'_>, written: &[Word<'_>]) -> bool
    ensures { IsTrue result → spec.IsKept name.now word.now written.now }
{
    match written {
        [kept] => !word.is_named(name) && is_same(word, kept),
        _ => false,
    }
}

/// Whether a word is written: the set where it is the name, and else the word itself.
fn stands_for(name: &[u8], set: &[Word<'_>], word: &Word<'_>, written: &[Word<'_>]) -> bool
    ensures { IsTrue result → spec.StandsFor name.now set.now word.now written.now }
{
    if word.is_named(name) {
        are_same(set, written)
    } else {
        is_kept(name, word, written)
    }
}

/// The words behind the first one, and those behind what stands for it.
fn without_word<'w, 'a>(
    name: &[u8],
    set: &[Word<'_>],
    words: &'w [Word<'a>],
    written: &'w [Word<'a>],
) -> Option<(&'w [Word<'a>], &'w [Word<'a>])>
    ensures { IfSome result (λ left. spec.IsFirstReplaced name.now set.now words.now written.now left.0.now left.1.now) }
{
    let (word, later) = words.split_first()?;
    let len = if word.is_named(name) { set.len() } else { 1 };
    let (first, others) = split(written, len)?;
    if stands_for(name, set, word, first) {
        Some((later, others))
    } else {
        None
    }
}

/// Whether no word is among some, nor among others.
fn are_both_empty(words: &[Word<'_>], others: &[Word<'_>]) -> bool
    ensures { IsTrue result → (words.now ≡ []) × (others.now ≡ []) }
{
    words.is_empty() && others.is_empty()
}

/// Whether words are written with a set in the place of each word of a name.
fn is_replaced<'w, 'a>(
    name: &[u8],
    set: &[Word<'_>],
    words: &'w [Word<'a>],
    written: &'w [Word<'a>],
) -> bool
    ensures { IsTrue result → spec.IsReplaced name.now set.now words.now written.now }
{
    let (_, mut left) = words.split_at(0);
    let (_, mut rest) = written.split_at(0);
    for _ in 0..words.len() {
        let Some((later, others)) = without_word(name, set, left, rest) else {
            return false;
        };
        left = later;
        rest = others;
    }
    are_both_empty(left, rest)
}

/// Whether no word of a name is among some words.
fn are_others(name: &[u8], words: &[Word<'_>]) -> bool
    ensures { IsTrue result → spec.AreOthers name.now words.now }
{
    words.iter().all(|word| !word.is_named(name))
}

/// Whether a variable is not assigned among some words.
fn assigns_others(name: &[u8], words: &[Word<'_>]) -> bool
    ensures { IsTrue result → spec.AssignsOthers name.now words.now }
{
    for at in 1..words.len() {
        if words[at - 1].is_named(name) && words[at].is(Symbol::Equal) {
            return false;
        }
    }
    true
}

/// The set of `= SET; LATER`, and what is behind it.
fn given<'w, 'a>(words: &'w [Word<'a>]) -> Option<(&'w [Word<'a>], &'w [Word<'a>])>
    ensures { IfSome result (λ found. spec.IsGiven words.now found.0.now found.1.now) }
{
    let (equal, rest) = words.split_first()?;
    let (set, _, later) = until(Symbol::Semicolon, rest)?;
    if equal.is(Symbol::Equal) && is_set(set) {
        Some((set, later))
    } else {
        None
    }
}

/// A variable that is a set, from the name in its declaration on.
#[derive(Clone, Copy)]
pub struct SetVariable<'w, 'a> {
    /// The words between its declaration and the assignment of its set.
    pub between: &'w [Word<'a>],
    /// The set.
    pub set: &'w [Word<'a>],
    /// The words behind the assignment.
    pub later: &'w [Word<'a>],
}

/// The same of a variable whose declaration has no value: its first use is the assignment, on no condition.
fn given_later<'w, 'a>(name: &[u8], words: &'w [Word<'a>]) -> Option<SetVariable<'w, 'a>>
    ensures { IfSome result (λ made. spec.IsGivenLater name.now words.now made.between.now made.set.now made.later.now) }
{
    let (stop, rest) = words.split_first()?;
    let len = rest.iter().position(|word| word.is_named(name))?;
    let (between, rest) = split(rest, len)?;
    let (again, rest) = rest.split_first()?;
    let (set, later) = given(rest)?;
    if stop.is(Symbol::Semicolon)
        && are_others(name, between)
        && again.is_named(name)
        && stands_alone(between)
    {
        Some(SetVariable {
            between,
            set,
            later,
        })
    } else {
        None
    }
}

/// How the variable of a name gets its set, by the words before its declaration and those behind its name there.
pub(crate) fn assigned<'w, 'a>(
    name: &[u8],
    front: &[Word<'_>],
    words: &'w [Word<'a>],
) -> Option<SetVariable<'w, 'a>>
    ensures { IfSome result (λ made. spec.IsAssigned name.now front.now words.now made.between.now made.set.now made.later.now) }
{
    let Some((set, later)) = given(words) else {
        return given_later(name, words);
    };
    if stands_alone(front) {
        let (between, _) = words.split_at(0);
        Some(SetVariable {
            between,
            set,
            later,
        })
    } else {
        None
    }
}

/// Whether a block ends behind some words, and no word of a name follows.
fn ends_block(name: &[u8], back: &[Word<'_>]) -> bool
    ensures { IsTrue result → spec.EndsBlock name.now back.now }
{
    match back.split_first() {
        Some((next, _)) => closes(next.kind) && are_others(name, back),
        None => false,
    }
}

/// Whether words are those of a variable's block without the variable.
fn is_written<'w, 'a>(name: &[u8], made: &SetVariable<'w, 'a>, new: &'w [Word<'a>]) -> bool
    ensures { IsTrue result → spec.IsWithout name.now made.now.between.now made.now.set.now made.now.later.now new.now }
{
    let Some((kept, used)) = split(new, made.between.len()) else {
        return false;
    };
    are_same(made.between, kept) && is_replaced(name, made.set, made.later, used)
}

/// The name of a variable that is a set, and the words behind it.
pub(crate) fn declared<'w, 'a>(words: &'w [Word<'a>]) -> Option<(&'w Word<'a>, &'w [Word<'a>])>
    ensures { IfSome result (λ found. spec.IsDeclared words.now found.0.now found.1.now) }
{
    match words {
        [kind, set, name, rest @ ..]
            if is_kind(kind.kind) && set.is_foreign(b"set") && name.is_name() => {
            Some((name, rest))
        }
        _ => None,
    }
}

/// Whether a variable that has its set before some words is used as one among them, and not behind them.
fn is_used_inside(name: &[u8], later: &[Word<'_>], back: &[Word<'_>]) -> bool
    ensures { IsTrue result → spec.IsUsedInside name.now later.now back.now }
{
    assigns_others(name, later) && are_commands(later) && ends_block(name, back)
}

/// Whether a set stands where its variable was used.
#[tactic(auto, using(crate::proofs::Placed::set_placed))]
pub(crate) fn is_set_placed<'w, 'a>(
    front: &'w [Word<'a>],
    old: &'w [Word<'a>],
    new: &'w [Word<'a>],
    back: &'w [Word<'a>],
) -> bool
    ensures { IsTrue result → spec.IsSetPlaced front.now old.now new.now back.now }
{
    let Some((name, rest)) = declared(old) else {
        return false;
    };
    let Some(made) = assigned(name.bytes, front, rest) else {
        return false;
    };
    is_used_inside(name.bytes, made.later, back) && is_written(name.bytes, &made, new)
}
