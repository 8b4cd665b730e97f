//! Variables that are sets: the set stands where the variable is used.
//!
//! **A variable that is a set is used in the block of its assignment only.** Then no run comes to a use past the assignment, whatever the scopes of
//! blocks are in BIRD.

ghost use Rattle.std.specs.Prelude.{◌≡◌, IfOk, IfSome};
ghost use Rattle.bird_import.specs.Reasons.{why_of_plan};
ghost use Rattle.bird_import.specs.Stuck.{HasSetVariable, Hinder};
ghost use Rattle.bird_import.specs.declared.reason.Why.TheVariants as why;

use crate::reason::{Reason, Why};
use crate::rules::split;
use crate::sets::{SetVariable, assigned, declared};
use crate::step::{NextStep, Rule, planned, push_parts};
use crate::word::{Word, closing};
use std::alloc::{AllocError, Global};

/// Puts words behind others, with a set in the place of each word of a name.
fn push_placed<'a>(
    words: &mut Vec<Word<'a>>,
    more: &[Word<'a>],
    name: &[u8],
    set: &[Word<'a>],
) -> Result<(), AllocError> {
    for word in more {
        match set {
            [first, others @ ..] if word.is_named(name) => {
                push_parts(words, &[&[first.after(word.gap)], others])?;
            }
            _ => words.extend_from_slice(&[*word])?,
        }
    }
    Ok(())
}

/// The words of a variable's block without the variable, of which these are behind its assignment.
fn without<'a>(
    alloc: Global,
    made: SetVariable<'_, 'a>,
    name: &[u8],
    later: &[Word<'a>],
) -> Result<Vec<Word<'a>>, AllocError> {
    let mut placed = Vec::from_slice(alloc, made.between)?;
    push_placed(&mut placed, later, name, made.set)?;
    Ok(placed)
}

/// The step that puts a set in the places of the variable that is declared at an index, up to what closes the block round it.
fn place<'a>(
    alloc: Global,
    words: &[Word<'a>],
    at: usize,
    made: SetVariable<'_, 'a>,
    name: &Word<'a>,
) -> Result<NextStep<'a>, AllocError>
    requires { HasSetVariable name.now.bytes.now words.now }
    ensures { IfOk result (λ plan. IfSome (why_of_plan plan) (Hinder words.now)) }
{
    let len = closing(made.later, 0).unwrap_or(made.later.len());
    let Some((later, left)) = split(made.later, len) else {
        return Ok(NextStep::Done);
    };
    let to = words.len().saturating_sub(left.len());
    let written = without(alloc, made, name.bytes, later);
    planned(Rule::SetPlaced, at, to, written, not_once(name))
}

/// Why a variable that is a set is not taken.
fn not_once<'a>(name: &Word<'a>) -> Reason<'a>
    ensures { result.why ≡ why.SetVariable name.now.bytes }
{
    Reason {
        at: name.at,
        why: Why::SetVariable(name.bytes),
    }
}

/// Puts the first variable that is a set in its places.
pub(crate) fn plan_sets<'a>(alloc: Global, words: &[Word<'a>]) -> Result<NextStep<'a>, AllocError>
    ensures { IfOk result (λ plan. IfSome (why_of_plan plan) (Hinder words.now)) }
{
    for at in 0..words.len() {
        let Some((front, all)) = split(words, at) else {
            continue;
        };
        if let Some((name, rest)) = declared(all) {
            return match assigned(name.bytes, front, rest) {
                Some(made) => place(alloc, words, at, made, name),
                None => Ok(NextStep::Stuck(not_once(name))),
            };
        }
    }
    Ok(NextStep::Done)
}
