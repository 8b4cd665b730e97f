ghost use Rattle.std.specs.Prelude.{◌≡◌, ◌+◌, ◌<◌, ◌≤◌, [], ◌∷◌, length, MatchResult};
ghost use Rattle.filter_code.specs.declared.outcome.FaultKind.TheVariants as fault;
ghost use Rattle.filter_code.specs.Limits.{stack_limit};

use crate::limits::STACK_LIMIT;
use crate::outcome::FaultKind;
use arrayvec::ArrayVec;
use std::marker::Model;

/// A stack of at most 32 values, held in place: it allocates nothing.
///
/// A contract sees a stack as the list of its values, the top first.
#[derive(Drop)]
pub struct Stack<T> {
    values: ArrayVec<T, STACK_LIMIT>,
}

impl<T> Model for Stack<T> {
    ghost use Rattle.std.specs.Prelude.{List, reverse};

    ghost Value = { List T };

    ghost view = { λ s. reverse s.values.items };
}

impl<T: Copy + Default> Stack<T> {
    /// An empty stack.
    pub fn new() -> Stack<T>
        ensures { result ≡ [] }
    {
        Stack {
            values: ArrayVec::new(),
        }
    }

    /// Puts a value on top. A fault if and only if the stack is full; it is then unchanged.
    #[inline(always)]
    pub fn push(&mut self, value: T) -> Result<(), FaultKind>
        ensures pushed { MatchResult result (λ _. self.new ≡ value ∷ self.old) (λ why. (why ≡ fault.FullStack) × (self.new ≡ self.old)) }
        ensures room { MatchResult result (λ _. length self.old < stack_limit) (λ why. stack_limit ≤ length self.old) }
    {
        if self.values.is_full() {
            return Err(FaultKind::FullStack);
        }
        self.values.push(value);
        Ok(())
    }

    /// Takes the top. A fault if and only if the stack is empty.
    #[inline(always)]
    pub fn take_one(&mut self) -> Result<T, FaultKind>
        ensures { MatchResult result (λ a. self.old ≡ a ∷ self.new)
            (λ why. (why ≡ fault.MissingOperand) × (self.old ≡ []) × (self.new ≡ [])) }
    {
        match self.values.pop() {
            None => Err(FaultKind::MissingOperand),
            Some(a) => Ok(a),
        }
    }

    /// Takes the top two; the second was on top. A fault if and only if there are fewer; the stack is then unchanged.
    #[inline(always)]
    pub fn take_two(&mut self) -> Result<(T, T), FaultKind>
        ensures { MatchResult result (λ p. self.old ≡ p.1 ∷ (p.0 ∷ self.new))
            (λ why. (why ≡ fault.MissingOperand) × (length self.old < 2) × (self.new ≡ self.old)) }
    {
        if self.values.len() < 2 {
            return Err(FaultKind::MissingOperand);
        }
        let b = self.values.pop().unwrap();
        let a = self.values.pop().unwrap();
        Ok((a, b))
    }

    /// The number of values.
    pub fn len(&self) -> usize
        ensures value { result ≡ length self.now }
        ensures limit { result ≤ stack_limit }
    {
        self.values.len()
    }
}
