//! The transfer function: what is known after an instruction, from what is known before it.

ghost use Rattle.std.specs.Prelude.{◌≡◌, ◌<◌, ◌≤◌, ℕ, true, false, ◌∷◌, Some, length, slice_get, MatchOption, MatchResult};
ghost use Rattle.filter_code.specs.Limits.{stack_limit};
ghost use Rattle.filter_code.specs.declared.outcome.FaultKind.TheVariants as fault;
ghost use Rattle.filter_code.specs.Table.{One, Two, Good, Bad, are_alike, are_nested, are_ordered, draw, each_is};
ghost use Rattle.filter_code.specs.Table.{is_bool, is_int, is_ip, is_prefix, one_of, passing, two_of};
ghost use Rattle.filter_verifier.specs.declared.fact.Fact.TheVariants as fact;
ghost use Rattle.filter_verifier.specs.Facts.{kind_of_fact};
ghost use Rattle.filter_verifier.specs.OutStateView.{Refused};
ghost use Rattle.filter_verifier.specs.Sweep.{frame_of, transferred};
ghost use Rattle.filter_verifier.specs.Ranges.{range_of_quotient};
ghost use Rattle.filter_verifier.specs.Transfer.{judge};
ghost use Rattle.filter_verifier.specs.Faults.{refusal_of};

use crate::fact::Fact;
use crate::range::Range;
use filter_code::{Code, FaultKind, Instr, Stack};

/// Pops an int.
fn take_int(stack: &mut Stack<Fact>) -> Result<Range, FaultKind>
    ensures { let drawn = passing (each_is (λ x. is_int (kind_of_fact x))) (one_of stack.old) in
        MatchResult result (λ v. drawn ≡ Good (One (fact.Int v)) stack.new) (λ why. drawn ≡ Bad why) }
{
    match stack.take_one()? {
        Fact::Int(range) => Ok(range),
        _ => Err(FaultKind::WrongKind),
    }
}

/// Pops a bool, and answers the fact of the result.
fn take_bool(stack: &mut Stack<Fact>, given: Fact) -> Result<Fact, FaultKind>
    ensures { let drawn = passing (each_is (λ x. is_bool (kind_of_fact x))) (one_of stack.old) in
        MatchResult result (λ f. (drawn ≡ Good (One fact.Bool) stack.new) × (f ≡ given)) (λ why. drawn ≡ Bad why) }
{
    match stack.take_one()? {
        Fact::Bool => Ok(given),
        _ => Err(FaultKind::WrongKind),
    }
}

/// Pops an ip, and answers the fact of the result.
fn take_ip(stack: &mut Stack<Fact>, given: Fact) -> Result<Fact, FaultKind>
    ensures { let drawn = passing (each_is (λ x. is_ip (kind_of_fact x))) (one_of stack.old) in
        MatchResult result (λ f. (drawn ≡ Good (One fact.Ip) stack.new) × (f ≡ given)) (λ why. drawn ≡ Bad why) }
{
    match stack.take_one()? {
        Fact::Ip => Ok(given),
        _ => Err(FaultKind::WrongKind),
    }
}

/// Pops a prefix, and answers the fact of the result.
fn take_prefix(stack: &mut Stack<Fact>, given: Fact) -> Result<Fact, FaultKind>
    ensures { let drawn = passing (each_is (λ x. is_prefix (kind_of_fact x))) (one_of stack.old) in
        MatchResult result (λ f. (drawn ≡ Good (One fact.Prefix) stack.new) × (f ≡ given)) (λ why. drawn ≡ Bad why) }
{
    match stack.take_one()? {
        Fact::Prefix => Ok(given),
        _ => Err(FaultKind::WrongKind),
    }
}

/// Pops two ints; the second was on top.
fn take_two_ints(stack: &mut Stack<Fact>) -> Result<(Range, Range), FaultKind>
    ensures { let drawn = passing (each_is (λ x. is_int (kind_of_fact x))) (two_of stack.old) in
        MatchResult result (λ p. drawn ≡ Good (Two (fact.Int p.0) (fact.Int p.1)) stack.new) (λ why. drawn ≡ Bad why) }
{
    let operands = stack.take_two()?;
    match &operands {
        (Fact::Int(a), Fact::Int(b)) => Ok((*a, *b)),
        _ => Err(FaultKind::WrongKind),
    }
}

/// Pushes a fact.
fn give(fact: Fact, stack: &mut Stack<Fact>) -> Result<(), FaultKind>
    ensures given { MatchResult result (λ _. stack.new ≡ fact ∷ stack.old) (λ why. why ≡ fault.FullStack) }
    ensures room { MatchResult result (λ _. length stack.old < stack_limit) (λ why. stack_limit ≤ length stack.old) }
{
    stack.push(fact)
}

/// Pushes an int in a range.
fn give_int(range: Range, stack: &mut Stack<Fact>) -> Result<(), FaultKind>
    ensures given { MatchResult result (λ _. stack.new ≡ fact.Int range ∷ stack.old) (λ why. why ≡ fault.FullStack) }
    ensures room { MatchResult result (λ _. length stack.old < stack_limit) (λ why. stack_limit ≤ length stack.old) }
{
    stack.push(Fact::Int(range))
}

/// The quotient of two ints. A fault if and only if the divisor may be 0.
fn quotient(size: u32, operands: (Range, Range)) -> Result<Range, FaultKind>
    ensures { MatchResult result
        (λ r. (0 < operands.1.low) × (r ≡ range_of_quotient size operands.0 operands.1))
        (λ why. (operands.1.low ≡ 0) × (why ≡ fault.ZeroDivisor)) }
{
    match Range::quotient(size, operands) {
        Some(range) => Ok(range),
        None => Err(FaultKind::ZeroDivisor),
    }
}

/// The result of a test for equality. A fault if and only if the kinds differ.
fn equal(operands: (Fact, Fact)) -> Result<Fact, FaultKind>
    ensures { MatchResult result
        (λ f. (are_alike (kind_of_fact operands.0) (kind_of_fact operands.1) ≡ true) × (f ≡ fact.Bool))
        (λ why. (are_alike (kind_of_fact operands.0) (kind_of_fact operands.1) ≡ false) × (why ≡ fault.WrongKind)) }
{
    match &operands {
        (Fact::Int(_), Fact::Int(_))
        | (Fact::Bool, Fact::Bool)
        | (Fact::Ip, Fact::Ip)
        | (Fact::Prefix, Fact::Prefix) => Ok(Fact::Bool),
        _ => Err(FaultKind::WrongKind),
    }
}

/// The result of a comparison. A fault unless the operands are two ints or two ips.
fn ordered(operands: (Fact, Fact)) -> Result<Fact, FaultKind>
    ensures { MatchResult result
        (λ f. (are_ordered (kind_of_fact operands.0) (kind_of_fact operands.1) ≡ true) × (f ≡ fact.Bool))
        (λ why. (are_ordered (kind_of_fact operands.0) (kind_of_fact operands.1) ≡ false) × (why ≡ fault.WrongKind)) }
{
    match &operands {
        (Fact::Int(_), Fact::Int(_)) | (Fact::Ip, Fact::Ip) => Ok(Fact::Bool),
        _ => Err(FaultKind::WrongKind),
    }
}

/// The result of WITHIN. A fault unless the operands are an ip or a prefix, and a prefix.
fn within(operands: (Fact, Fact)) -> Result<Fact, FaultKind>
    ensures { MatchResult result
        (λ f. (are_nested (kind_of_fact operands.0) (kind_of_fact operands.1) ≡ true) × (f ≡ fact.Bool))
        (λ why. (are_nested (kind_of_fact operands.0) (kind_of_fact operands.1) ≡ false) × (why ≡ fault.WrongKind)) }
{
    match &operands {
        (Fact::Ip, Fact::Prefix) | (Fact::Prefix, Fact::Prefix) => Ok(Fact::Bool),
        _ => Err(FaultKind::WrongKind),
    }
}

/// A fault if and only if an int is not known to be at least the metric received.
fn not_lower(range: Range) -> Result<(), FaultKind>
    ensures { MatchResult result (λ _. range.at_least_received ≡ true) (λ why. (range.at_least_received ≡ false) × (why ≡ fault.LowerMetric)) }
{
    if !range.is_at_least_received() {
        return Err(FaultKind::LowerMetric);
    }
    Ok(())
}

/// A fault if and only if the code has no local variable, or no set, with this number.
fn check_name(name: u8, count: usize) -> Result<(), FaultKind>
    ensures { MatchResult result (λ _. name < count) (λ why. (count ≤ name) × (why ≡ fault.UnknownName)) }
{
    if usize::from(name) < count {
        Ok(())
    } else {
        Err(FaultKind::UnknownName)
    }
}

/// The fact of a local variable. A fault if the code has none with this number, or if it is not known.
fn load(locals: &[Option<Fact>], local: u8) -> Result<Fact, FaultKind>
    ensures { MatchResult result
        (λ f. slice_get locals.now local ≡ Some (Some f))
        (λ why. MatchOption (slice_get locals.now local)
        (why ≡ fault.UnknownName)
        (λ held. (held ≡ None) × (why ≡ fault.WrongKind))) }
{
    match locals.get(usize::from(local)) {
        Some(Some(fact)) => Ok(*fact),
        Some(None) => Err(FaultKind::WrongKind),
        None => Err(FaultKind::UnknownName),
    }
}

/// Applies one instruction of a code to what is known, in a domain of a size.
/// After a fault the stack and the local variables are unspecified.
pub(crate) fn transfer(
    instr: Instr,
    size: u32,
    code: &Code,
    stack: &mut Stack<Fact>,
    locals: &mut [Option<Fact>],
) -> Result<(), FaultKind>
    ensures { (count at : ℕ) →
        let out_state = judge count size at locals.old instr (draw kind_of_fact code.now instr (frame_of stack.old locals.old)) in
        MatchResult result
        (λ _. out_state ≡ transferred count at instr stack.new locals.new)
        (λ why. out_state ≡ Refused (refusal_of why at)) }
{
    let length = Fact::Int(Range::of_length(size));
    match instr {
        Instr::Int(number) => give_int(Range::of_number(size, number), stack),
        Instr::Bool(_) => give(Fact::Bool, stack),
        Instr::Ip(_) => give(Fact::Ip, stack),
        Instr::Prefix(_) | Instr::Net => give(Fact::Prefix, stack),
        Instr::Load(local) => give(load(locals, local)?, stack),
        Instr::Store(local) => {
            check_name(local, locals.len())?;
            locals[usize::from(local)] = Some(stack.take_one()?);
            Ok(())
        }
        Instr::Metric | Instr::Received => give_int(Range::of_metric(size), stack),
        Instr::SetMetric => not_lower(take_int(stack)?),
        Instr::Add => give_int(Range::sum(size, take_two_ints(stack)?), stack),
        Instr::Sub => give_int(Range::difference(size, take_two_ints(stack)?), stack),
        Instr::Mul => give_int(Range::product(size, take_two_ints(stack)?), stack),
        Instr::Div => give_int(quotient(size, take_two_ints(stack)?)?, stack),
        Instr::Max => give_int(Range::greater(size, take_two_ints(stack)?), stack),
        Instr::Eq => give(equal(stack.take_two()?)?, stack),
        Instr::Lt | Instr::Le => give(ordered(stack.take_two()?)?, stack),
        Instr::Not => give(take_bool(stack, Fact::Bool)?, stack),
        Instr::Addr => give(take_prefix(stack, Fact::Ip)?, stack),
        Instr::Len => give(take_prefix(stack, length)?, stack),
        Instr::Mask(_) => give(take_ip(stack, Fact::Ip)?, stack),
        Instr::Within => give(within(stack.take_two()?)?, stack),
        Instr::Member(set) => {
            check_name(set, code.sets().len())?;
            give(take_prefix(stack, Fact::Bool)?, stack)
        }
        Instr::InSet(set) => {
            check_name(set, code.int_sets().len())?;
            take_int(stack)?;
            give(Fact::Bool, stack)
        }
        Instr::JumpIfNot(_) => {
            take_bool(stack, Fact::Bool)?;
            Ok(())
        }
        Instr::Jump(_) | Instr::Accept | Instr::Reject => Ok(()),
    }
}
