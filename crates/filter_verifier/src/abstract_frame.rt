//! What is known of a stack and of the local variables.

ghost use Rattle.std.specs.Prelude.{◌≡◌, ◌≤◌, false, None, Some, [], IfOk, IsTrue, length, map, replicate};
ghost use Rattle.filter_code.specs.Limits.{stack_limit};
ghost use Rattle.filter_verifier.specs.Facts.{all_known};
ghost use Rattle.filter_verifier.specs.PairwiseJoin.{join_two_places};
ghost use Rattle.filter_verifier.specs.InStateView.{Known};
ghost use Rattle.filter_verifier.specs.Sweep.{fact_at};
ghost use Rattle.filter_verifier.specs.Surveys.{top_int};

use crate::fact::{Fact, join_two_at};
use crate::range::Range;
use filter_code::Stack;
use std::alloc::{AllocError, Global};
use std::marker::Model;

/// What is known of each place of a stack, its top first, and of each local variable: None where kinds differ between
/// the paths that lead here, and for a local variable also where it may be empty.
///
/// A contract sees a frame as an `AbstractFrameView`.
#[derive(Drop)]
pub struct AbstractFrame {
    stack: Vec<Option<Fact>>,
    locals: Vec<Option<Fact>>,
}

impl Model for AbstractFrame {
    ghost use Rattle.std.specs.Prelude.{◌≤◌, length};
    ghost use Rattle.filter_code.specs.Limits.{stack_limit};
    ghost use Rattle.filter_verifier.specs.AbstractFrameView.{AbstractFrameView};

    ghost Value = { AbstractFrameView };

    ghost view = { λ f. record { stack = f.stack.items; locals = f.locals.items } };

    ghost invariant = { λ f. length f.stack.items ≤ stack_limit };
}

/// Puts the facts of some places, the top first, on an empty stack. False if and only if one of them is not known.
pub(crate) fn fill(stack: &mut Stack<Fact>, places: &[Option<Fact>]) -> bool
    requires empty { stack.old ≡ [] }
    requires limit { length places.now ≤ stack_limit }
    ensures known { IsTrue result → all_known places.now ≡ Some stack.new }
    ensures unknown { result ≡ false → all_known places.now ≡ None }
{
    for at in (0..places.len()).rev() {
        match places[at] {
            Some(fact) => stack.push(fact).unwrap(),
            None => return false,
        }
    }
    true
}

/// The facts of a stack, the top first, in the memory of some places, which are dropped. The stack is then empty.
pub(crate) fn refilled(
    places: Vec<Option<Fact>>,
    stack: &mut Stack<Fact>,
) -> Result<Vec<Option<Fact>>, AllocError>
    ensures value { IfOk result (λ v. v.items ≡ map (λ f. Some f) stack.old) }
    ensures limit { IfOk result (λ v. length v.items ≤ stack_limit) }
    ensures emptied { IfOk result (λ _. stack.new ≡ []) }
{
    let mut places = places;
    places.clear();
    places.reserve(stack.len())?;
    while let Ok(fact) = stack.take_one() {
        places.push(Some(fact))?;
    }
    Ok(places)
}

/// What is known at one place. None where there is no such place.
fn fact_at(places: &[Option<Fact>], at: usize) -> Option<Fact>
    ensures { result ≡ fact_at places.now at }
{
    match places.get(at) {
        Some(place) => *place,
        None => None,
    }
}

/// The join of two lists of places, place by place.
fn join_two_places(
    alloc: Global,
    places: &[Option<Fact>],
    others: &[Option<Fact>],
) -> Result<Vec<Option<Fact>>, AllocError>
    ensures { IfOk result (λ v. v.items ≡ join_two_places places.now others.now) }
{
    let mut joined = Vec::with_capacity(alloc, places.len())?;
    for (at, place) in places.iter().enumerate() {
        joined.push(join_two_at(place, &fact_at(others, at)))?;
    }
    Ok(joined)
}

impl AbstractFrame {
    /// The frame at the entry of a code: an empty stack, and this many empty local variables.
    pub fn at_entry(alloc: Global, locals: u8) -> Result<AbstractFrame, AllocError>
        ensures { IfOk result (λ f. f ≡ record { stack = []; locals = replicate locals None }) }
    {
        Ok(AbstractFrame {
            stack: Vec::new(alloc),
            locals: vec![in alloc; None; usize::from(locals)]?,
        })
    }

    /// The frame of these places of a stack, the top first, and these local variables.
    pub fn of_parts(stack: Vec<Option<Fact>>, locals: Vec<Option<Fact>>) -> AbstractFrame
        requires { length stack.items ≤ stack_limit }
        ensures { result ≡ record { stack = stack.items; locals = locals.items } }
    {
        AbstractFrame { stack, locals }
    }

    /// The places of the stack, the top first, and the local variables.
    pub fn into_parts(self) -> (Vec<Option<Fact>>, Vec<Option<Fact>>)
        ensures stack { result.0.items ≡ self.stack }
        ensures locals { result.1.items ≡ self.locals }
        ensures limit { length result.0.items ≤ stack_limit }
    {
        (self.stack, self.locals)
    }

    /// The depth of the stack.
    pub fn height(&self) -> u32
        ensures value { result ≡ length self.now.stack }
        ensures limit { result ≤ stack_limit }
    {
        self.stack.len() as u32
    }

    /// What is known of the places of the stack, the top first.
    pub fn stack(&self) -> &[Option<Fact>]
        ensures { result.now ≡ self.now.stack }
    {
        &self.stack
    }

    /// What is known of the local variables.
    pub fn locals(&self) -> &[Option<Fact>]
        ensures { result.now ≡ self.now.locals }
    {
        &self.locals
    }

    /// The range of the int on top of the stack, if one is known there.
    pub fn top_int(&self) -> Option<Range>
        ensures { result ≡ top_int (Known self.now) }
    {
        match fact_at(&self.stack, 0) {
            Some(fact) => fact.range(),
            None => None,
        }
    }

    /// A copy of the frame.
    pub fn copy(&self, alloc: Global) -> Result<AbstractFrame, AllocError>
        ensures { IfOk result (λ f. f ≡ self.now) }
    {
        Ok(AbstractFrame {
            stack: Vec::from_slice(alloc, &self.stack)?,
            locals: Vec::from_slice(alloc, &self.locals)?,
        })
    }

    /// The join of two frames whose stacks are equally deep.
    #[tactic(auto, using(crate::proofs::JoinedPlaces::length_joined))]
    pub fn join(&self, alloc: Global, other: &AbstractFrame) -> Result<AbstractFrame, AllocError>
        ensures { IfOk result (λ f. f ≡ record {
          stack = join_two_places self.now.stack other.now.stack;
          locals = join_two_places self.now.locals other.now.locals;
        }) }
    {
        Ok(AbstractFrame {
            stack: join_two_places(alloc, &self.stack, &other.stack)?,
            locals: join_two_places(alloc, &self.locals, &other.locals)?,
        })
    }
}
