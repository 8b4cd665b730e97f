//! The operands of a run: an array, and the depth, which is the number of its values that are in use.
//!
//! The depth is a variable of its own. `Stack` writes its length to memory at each `push` and `pop`, and each step of a run
//! would wait for the one before.

ghost use Rattle.std.specs.Prelude.{◌≡◌, ◌+◌, ◌<◌, ◌≤◌, [], ◌∷◌, length, IfOk, MatchResult};
ghost use Rattle.filter_code.specs.declared.outcome.FaultKind.TheVariants as fault;
ghost use Rattle.filter_code.specs.declared.value.Value.TheVariants as value;
ghost use Rattle.filter_code.specs.Limits.{stack_limit};
ghost use Rattle.filter_code.specs.Steps.{operands_in};
ghost use Rattle.filter_code.specs.Table.{One, Two, Good, Bad, each_is, is_bool, is_int, is_ip, is_prefix, one_of, passing, two_of};
ghost use Rattle.filter_code.specs.Values.{kind_of};

use crate::limits::STACK_LIMIT;
use crate::outcome::FaultKind;
use crate::tagged::Tagged;
use prefix_patterns::{Ip, Prefix};

/// Puts a value on top. There is room for it.
#[inline(always)]
pub(crate) fn put(value: Tagged, stack: &mut [Tagged; STACK_LIMIT], depth: &mut usize)
    requires all { length stack.old ≡ stack_limit }
    requires room { depth.old < stack_limit }
    ensures given { operands_in stack.new depth.new ≡ value ∷ operands_in stack.old depth.old }
    ensures room { length (operands_in stack.old depth.old) < stack_limit }
    ensures depth { depth.new ≡ depth.old + 1 }
    ensures all { length stack.new ≡ stack_limit }
{
    stack[*depth] = value;
    *depth += 1;
}

/// Puts a value on top. A fault if and only if the stack is full.
#[inline(always)]
pub(crate) fn give(
    value: Tagged,
    stack: &mut [Tagged; STACK_LIMIT],
    depth: &mut usize,
) -> Result<(), FaultKind>
    requires all { length stack.old ≡ stack_limit }
    requires within { depth.old ≤ stack_limit }
    ensures given { MatchResult result (λ _. operands_in stack.new depth.new ≡ value ∷ operands_in stack.old depth.old)
        (λ why. why ≡ fault.FullStack) }
    ensures room { MatchResult result (λ _. length (operands_in stack.old depth.old) < stack_limit)
        (λ why. stack_limit ≤ length (operands_in stack.old depth.old)) }
    ensures depth { IfOk result (λ _. depth.new ≤ stack_limit) }
    ensures all { length stack.new ≡ stack_limit }
{
    if *depth >= STACK_LIMIT {
        return Err(FaultKind::FullStack);
    }
    put(value, stack, depth);
    Ok(())
}

/// Takes the top. A fault if and only if there is none.
#[inline(always)]
pub(crate) fn take_one(
    stack: &[Tagged; STACK_LIMIT],
    depth: &mut usize,
) -> Result<Tagged, FaultKind>
    requires all { length stack.now ≡ stack_limit }
    requires within { depth.old ≤ stack_limit }
    ensures taken { MatchResult result (λ a. operands_in stack.now depth.old ≡ a ∷ operands_in stack.now depth.new)
        (λ why. (why ≡ fault.MissingOperand) × (operands_in stack.now depth.old ≡ [])) }
    ensures depth { IfOk result (λ _. depth.old ≡ depth.new + 1) }
{
    if *depth < 1 {
        return Err(FaultKind::MissingOperand);
    }
    *depth -= 1;
    Ok(stack[*depth])
}

/// Takes the top two; the second was on top. A fault if and only if there are fewer.
#[inline(always)]
pub(crate) fn take_two(
    stack: &[Tagged; STACK_LIMIT],
    depth: &mut usize,
) -> Result<(Tagged, Tagged), FaultKind>
    requires all { length stack.now ≡ stack_limit }
    requires within { depth.old ≤ stack_limit }
    ensures taken { MatchResult result (λ p. operands_in stack.now depth.old ≡ p.1 ∷ (p.0 ∷ operands_in stack.now depth.new))
        (λ why. (why ≡ fault.MissingOperand) × (length (operands_in stack.now depth.old) < 2)) }
    ensures depth { IfOk result (λ _. depth.old ≡ depth.new + 2) }
{
    if *depth < 2 {
        return Err(FaultKind::MissingOperand);
    }
    *depth -= 2;
    Ok((stack[*depth], stack[*depth + 1]))
}

/// Takes an int.
#[inline(always)]
pub(crate) fn take_int(stack: &[Tagged; STACK_LIMIT], depth: &mut usize) -> Result<u32, FaultKind>
    requires all { length stack.now ≡ stack_limit }
    requires within { depth.old ≤ stack_limit }
    ensures taken { let drawn = passing (each_is (λ x. is_int (kind_of x))) (one_of (operands_in stack.now depth.old)) in
        MatchResult result (λ v. drawn ≡ Good (One (value.Int v)) (operands_in stack.now depth.new)) (λ why. drawn ≡ Bad why) }
    ensures depth { IfOk result (λ _. depth.old ≡ depth.new + 1) }
{
    match take_one(stack, depth)?.as_int() {
        Some(v) => Ok(v),
        None => Err(FaultKind::WrongKind),
    }
}

/// Takes a bool.
#[inline(always)]
pub(crate) fn take_bool(stack: &[Tagged; STACK_LIMIT], depth: &mut usize) -> Result<bool, FaultKind>
    requires all { length stack.now ≡ stack_limit }
    requires within { depth.old ≤ stack_limit }
    ensures taken { let drawn = passing (each_is (λ x. is_bool (kind_of x))) (one_of (operands_in stack.now depth.old)) in
        MatchResult result (λ v. drawn ≡ Good (One (value.Bool v)) (operands_in stack.now depth.new)) (λ why. drawn ≡ Bad why) }
    ensures depth { IfOk result (λ _. depth.old ≡ depth.new + 1) }
{
    match take_one(stack, depth)?.as_bool() {
        Some(v) => Ok(v),
        None => Err(FaultKind::WrongKind),
    }
}

/// Takes an ip.
#[inline(always)]
pub(crate) fn take_ip(stack: &[Tagged; STACK_LIMIT], depth: &mut usize) -> Result<Ip, FaultKind>
    requires all { length stack.now ≡ stack_limit }
    requires within { depth.old ≤ stack_limit }
    ensures taken { let drawn = passing (each_is (λ x. is_ip (kind_of x))) (one_of (operands_in stack.now depth.old)) in
        MatchResult result (λ v. drawn ≡ Good (One (value.Addr v)) (operands_in stack.now depth.new)) (λ why. drawn ≡ Bad why) }
    ensures depth { IfOk result (λ _. depth.old ≡ depth.new + 1) }
{
    match take_one(stack, depth)?.as_ip() {
        Some(v) => Ok(v),
        None => Err(FaultKind::WrongKind),
    }
}

/// Takes a prefix.
#[inline(always)]
pub(crate) fn take_prefix(
    stack: &[Tagged; STACK_LIMIT],
    depth: &mut usize,
) -> Result<Prefix, FaultKind>
    requires all { length stack.now ≡ stack_limit }
    requires within { depth.old ≤ stack_limit }
    ensures taken { let drawn = passing (each_is (λ x. is_prefix (kind_of x))) (one_of (operands_in stack.now depth.old)) in
        MatchResult result (λ v. drawn ≡ Good (One (value.Net v)) (operands_in stack.now depth.new)) (λ why. drawn ≡ Bad why) }
    ensures depth { IfOk result (λ _. depth.old ≡ depth.new + 1) }
{
    match take_one(stack, depth)?.as_prefix() {
        Some(v) => Ok(v),
        None => Err(FaultKind::WrongKind),
    }
}

/// Takes two ints; the second was on top.
#[inline(always)]
pub(crate) fn take_two_ints(
    stack: &[Tagged; STACK_LIMIT],
    depth: &mut usize,
) -> Result<(u32, u32), FaultKind>
    requires all { length stack.now ≡ stack_limit }
    requires within { depth.old ≤ stack_limit }
    ensures taken { let drawn = passing (each_is (λ x. is_int (kind_of x))) (two_of (operands_in stack.now depth.old)) in
        MatchResult result (λ p. drawn ≡ Good (Two (value.Int p.0) (value.Int p.1)) (operands_in stack.now depth.new))
        (λ why. drawn ≡ Bad why) }
    ensures depth { IfOk result (λ _. depth.old ≡ depth.new + 2) }
{
    let (a, b) = take_two(stack, depth)?;
    match a.as_ints(b) {
        Some(ints) => Ok(ints),
        None => Err(FaultKind::WrongKind),
    }
}
