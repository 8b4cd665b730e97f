//! The machine that tests each step.
//!
//! **`run_counted` is public besides `run_checked`.** It also counts the steps, which tests compare with those that are expected. `run_checked` is
//! `run_counted` without the count.

ghost use Rattle.std.specs.Prelude.{◌≡◌, ℕ, ◌+◌, ◌-◌, ◌*◌, ◌/◌, ◌%◌, ◌^◌, ◌<◌, ◌≤◌, true, false, List, ◌∷◌, Some, length, max};
ghost use Rattle.std.specs.Prelude.{min, nat_le, nat_lt, slice_get, IfOk, MatchResult};
ghost use Rattle.prefix_patterns.specs.Bits.{address_length, address_of, prefix_bits};
ghost use Rattle.prefix_patterns.specs.Matching.{lies_within};
ghost use Rattle.filter_code.specs.Limits.{instruction_limit, stack_limit};
ghost use Rattle.filter_code.specs.declared.outcome.FaultKind.TheVariants as fault;
ghost use Rattle.filter_code.specs.declared.value.Value.TheVariants as value;
ghost use Rattle.filter_code.specs.RouteView.{RouteView};
ghost use Rattle.filter_code.specs.Machine.{Going, Ended, EndsAfter, IsOutcome, carry_out, on_two, outcome_of};
ghost use Rattle.filter_code.specs.CodeView.{HasMask, CodeView};
ghost use Rattle.filter_code.specs.Steps.{config_of, operands_in, stopped};
ghost use Rattle.filter_code.specs.Table.{Two, are_alike, are_nested, are_ordered};
ghost use Rattle.filter_code.specs.Values.{bits_of, is_same, kind_of, net_of, number_of};

use crate::code::Code;
use crate::instruction::Instr;
use crate::limits::STACK_LIMIT;
use crate::locals::Locals;
use crate::operands::{
    give, put, take_bool, take_int, take_ip, take_one, take_prefix, take_two, take_two_ints,
};
use crate::outcome::{Counted, FaultKind, Outcome};
use crate::route::Route;
use crate::tagged::Tagged;
use int_sets::IntSet;
use prefix_patterns::{Ip, PatternSet, Prefix};

/// How an instruction ends a run.
#[derive(Clone, Copy)]
pub(crate) enum Stop {
    Accept(u32),
    Reject,
    Fault(FaultKind),
}

impl From<FaultKind> for Stop {
    ghost use Rattle.filter_code.specs.declared.machine.Stop.TheVariants as stop;

    ghost from_gives = { λ kind result. result ≡ stop.Fault kind };

    #[inline(always)]
    fn from(kind: FaultKind) -> Stop {
        Stop::Fault(kind)
    }
}

impl Stop {
    /// The outcome of a run that ends so at a place.
    #[inline(always)]
    pub(crate) fn at(self, pc: usize) -> Outcome
        ensures { result ≡ stopped self pc }
    {
        match self {
            Stop::Accept(metric) => Outcome::Accept(metric),
            Stop::Reject => Outcome::Reject,
            Stop::Fault(kind) => Outcome::Fault(kind, pc),
        }
    }
}

/// The sum modulo 2^32.
#[inline(always)]
fn sum(operands: (u32, u32)) -> Tagged
    ensures { result ≡ value.Int ((operands.0 + operands.1) % 2 ^ 32) }
{
    Tagged::int(operands.0.wrapping_add(operands.1))
}

/// The first less the second, modulo 2^32.
#[inline(always)]
fn difference(operands: (u32, u32)) -> Tagged
    ensures { result ≡ value.Int ((operands.0 + (2 ^ 32 - operands.1)) % 2 ^ 32) }
{
    Tagged::int(operands.0.wrapping_sub(operands.1))
}

/// The product modulo 2^32.
#[inline(always)]
fn product(operands: (u32, u32)) -> Tagged
    ensures { result ≡ value.Int ((operands.0 * operands.1) % 2 ^ 32) }
{
    Tagged::int(operands.0.wrapping_mul(operands.1))
}

/// The first divided by the second, the rest dropped. A fault exactly where the second is 0.
#[inline(always)]
fn quotient(operands: (u32, u32)) -> Result<Tagged, FaultKind>
    ensures { MatchResult result
        (λ v. (0 < operands.1) × (v ≡ value.Int (operands.0 / operands.1)))
        (λ why. (operands.1 ≡ 0) × (why ≡ fault.ZeroDivisor)) }
{
    if operands.1 == 0 {
        return Err(FaultKind::ZeroDivisor);
    }
    Ok(Tagged::int(operands.0 / operands.1))
}

/// The greater.
#[inline(always)]
fn greater(operands: (u32, u32)) -> Tagged
    ensures { result ≡ value.Int (max operands.0 operands.1) }
{
    Tagged::int(operands.0.max(operands.1))
}

/// Whether two values of one kind are equal. A fault exactly where they have two kinds.
#[inline(always)]
fn equal(operands: (Tagged, Tagged)) -> Result<Tagged, FaultKind>
    ensures { MatchResult result
        (λ v. (are_alike (kind_of operands.0) (kind_of operands.1) ≡ true) × (v ≡ value.Bool (is_same operands.0 operands.1)))
        (λ why. (are_alike (kind_of operands.0) (kind_of operands.1) ≡ false) × (why ≡ fault.WrongKind)) }
{
    match operands.0.equals(operands.1) {
        Some(same) => Ok(Tagged::bool(same)),
        None => Err(FaultKind::WrongKind),
    }
}

/// Two ints or two ips, as the numbers by which they are ordered. A fault exactly where the values are neither.
#[inline(always)]
fn ordered(operands: (Tagged, Tagged)) -> Result<(u32, u32), FaultKind>
    ensures { MatchResult result
        (λ p. (are_ordered (kind_of operands.0) (kind_of operands.1) ≡ true) × (number_of operands.0 ≡ Some p.0)
        × (number_of operands.1 ≡ Some p.1))
        (λ why. (are_ordered (kind_of operands.0) (kind_of operands.1) ≡ false) × (why ≡ fault.WrongKind)) }
{
    match operands.0.numbers(operands.1) {
        Some(numbers) => Ok(numbers),
        None => Err(FaultKind::WrongKind),
    }
}

/// Whether the first is less.
#[inline(always)]
fn less(operands: (u32, u32)) -> Tagged
    ensures { result ≡ value.Bool (nat_lt operands.0 operands.1) }
{
    Tagged::bool(operands.0 < operands.1)
}

/// Whether the first is not greater.
#[inline(always)]
fn not_greater(operands: (u32, u32)) -> Tagged
    ensures { result ≡ value.Bool (nat_le operands.0 operands.1) }
{
    Tagged::bool(operands.0 <= operands.1)
}

/// Whether an ip or a prefix lies within a prefix. A fault exactly where the values are not these.
#[inline(always)]
fn within(operands: (Tagged, Tagged)) -> Result<Tagged, FaultKind>
    ensures { MatchResult result
        (λ v. (are_nested (kind_of operands.0) (kind_of operands.1) ≡ true)
        × (on_two bits_of net_of (λ bits net. value.Bool (lies_within bits net)) (Two operands.0 operands.1) ≡ Some v))
        (λ why. (are_nested (kind_of operands.0) (kind_of operands.1) ≡ false) × (why ≡ fault.WrongKind)) }
{
    let Some(net) = operands.1.as_prefix() else {
        return Err(FaultKind::WrongKind);
    };
    if let Some(ip) = operands.0.as_ip() {
        return Ok(Tagged::bool(net.contains(ip)));
    }
    match operands.0.as_prefix() {
        Some(inner) => Ok(Tagged::bool(inner.within(&net))),
        None => Err(FaultKind::WrongKind),
    }
}

/// The address with so many of its first bits, and the others cleared.
#[inline(always)]
fn masked(ip: Ip, bits: u8) -> Ip
    requires { bits ≤ address_length }
    ensures { result.0 ≡ address_of (prefix_bits ip.0 bits) }
{
    Prefix::new(ip, bits).unwrap().address()
}

/// The set of patterns with this number. A fault if and only if there is none.
#[inline(always)]
fn set_at(code: &Code, set: u8) -> Result<&PatternSet, FaultKind>
    ensures { MatchResult result
        (λ patterns. slice_get code.now.sets set ≡ Some patterns.now)
        (λ why. (length code.now.sets ≤ set) × (why ≡ fault.UnknownName)) }
{
    match code.sets().get(usize::from(set)) {
        Some(patterns) => Ok(patterns),
        None => Err(FaultKind::UnknownName),
    }
}

/// The set of ints with this number. A fault if and only if there is none.
#[inline(always)]
fn int_set_at(code: &Code, set: u8) -> Result<&IntSet, FaultKind>
    ensures { MatchResult result
        (λ ranges. slice_get code.now.int_sets set ≡ Some ranges.now)
        (λ why. (length code.now.int_sets ≤ set) × (why ≡ fault.UnknownName)) }
{
    match code.int_sets().get(usize::from(set)) {
        Some(ranges) => Ok(ranges),
        None => Err(FaultKind::UnknownName),
    }
}

/// The metric that SETMETRIC sets for an operand: at most the size. A fault if and only if the operand is below the
/// metric received.
#[inline(always)]
fn metric_set(operand: u32, route: &Route) -> Result<u32, FaultKind>
    ensures { MatchResult result
        (λ metric. (route.now.metric ≤ operand) × (metric ≡ min operand route.now.size))
        (λ why. (operand < route.now.metric) × (why ≡ fault.LowerMetric)) }
{
    if operand < route.metric() {
        return Err(FaultKind::LowerMetric);
    }
    Ok(operand.min(route.size()))
}

/// That a whole run carries out an instruction.
#[derive(Drop)]
pub(crate) struct WholeRun;

/// That a single step of a run carries out an instruction.
#[derive(Drop)]
pub(crate) struct SingleStep;

/// Carries out one instruction. A jump adds to the place what it skips; the next instruction is then one further.
/// After a stop the operands, the local variables and the metric are unspecified.
///
/// Its caller is a parameter, so that each of the two has an instance of its own: a function as large as this is inlined
/// only where it has one caller in a program, and a call of it takes longer than most instructions.
#[inline(always)]
pub(crate) fn carry_out<Caller>(
    instr: &Instr,
    code: &Code,
    route: &Route,
    stack: &mut [Tagged; STACK_LIMIT],
    depth: &mut usize,
    locals: &mut Locals,
    metric: &mut u32,
    pc: &mut usize,
) -> Result<(), Stop>
    requires mask { HasMask instr.now }
    requires inside { pc.old < instruction_limit }
    requires all { length stack.old ≡ stack_limit }
    requires within { depth.old ≤ stack_limit }
    ensures step { let before = config_of pc.old (operands_in stack.old depth.old) locals.old metric.old in
        let state = carry_out code.now route.now before (Some instr.now) in
        MatchResult result
        (λ _. state ≡ Going (config_of (pc.new + 1) (operands_in stack.new depth.new) locals.new metric.new))
        (λ stop. state ≡ Ended (stopped stop pc.old)) }
    ensures on { MatchResult result (λ _. (pc.old ≤ pc.new) × (pc.new ≤ 131072)) (λ _. pc.new ≡ pc.old) }
    ensures within { IfOk result (λ _. depth.new ≤ stack_limit) }
    ensures all { length stack.new ≡ stack_limit }
{
    match instr {
        Instr::Int(number) => give(Tagged::int(*number), stack, depth)?,
        Instr::Bool(flag) => give(Tagged::bool(*flag), stack, depth)?,
        Instr::Ip(ip) => give(Tagged::ip(*ip), stack, depth)?,
        Instr::Prefix(prefix) => give(Tagged::prefix(*prefix), stack, depth)?,
        Instr::Load(local) => give(locals.get(*local)?, stack, depth)?,
        Instr::Store(local) => {
            locals.check(*local)?;
            locals.set(*local, take_one(stack, depth)?);
        }
        Instr::Net => give(Tagged::prefix(route.net()), stack, depth)?,
        Instr::Metric => give(Tagged::int(*metric), stack, depth)?,
        Instr::Received => give(Tagged::int(route.metric()), stack, depth)?,
        Instr::SetMetric => *metric = metric_set(take_int(stack, depth)?, route)?,
        Instr::Add => put(sum(take_two_ints(stack, depth)?), stack, depth),
        Instr::Sub => put(difference(take_two_ints(stack, depth)?), stack, depth),
        Instr::Mul => put(product(take_two_ints(stack, depth)?), stack, depth),
        Instr::Div => put(quotient(take_two_ints(stack, depth)?)?, stack, depth),
        Instr::Max => put(greater(take_two_ints(stack, depth)?), stack, depth),
        Instr::Eq => put(equal(take_two(stack, depth)?)?, stack, depth),
        Instr::Lt => put(less(ordered(take_two(stack, depth)?)?), stack, depth),
        Instr::Le => put(not_greater(ordered(take_two(stack, depth)?)?), stack, depth),
        Instr::Not => put(Tagged::bool(!take_bool(stack, depth)?), stack, depth),
        Instr::Addr => put(
            Tagged::ip(take_prefix(stack, depth)?.address()),
            stack,
            depth,
        ),
        Instr::Len => put(
            Tagged::int(u32::from(take_prefix(stack, depth)?.len())),
            stack,
            depth,
        ),
        Instr::Mask(bits) => put(
            Tagged::ip(masked(take_ip(stack, depth)?, *bits)),
            stack,
            depth,
        ),
        Instr::Within => put(within(take_two(stack, depth)?)?, stack, depth),
        Instr::Member(set) => {
            let patterns = set_at(code, *set)?;
            put(
                Tagged::bool(patterns.matches(&take_prefix(stack, depth)?)),
                stack,
                depth,
            );
        }
        Instr::InSet(set) => {
            let ranges = int_set_at(code, *set)?;
            put(
                Tagged::bool(ranges.holds(take_int(stack, depth)?)),
                stack,
                depth,
            );
        }
        Instr::Jump(skipped) => {
            *pc += usize::from(*skipped);
            return Ok(());
        }
        Instr::JumpIfNot(skipped) => {
            if !take_bool(stack, depth)? {
                *pc += usize::from(*skipped);
                return Ok(());
            }
        }
        Instr::Accept => return Err(Stop::Accept(*metric)),
        Instr::Reject => return Err(Stop::Reject),
    }
    Ok(())
}

/// Runs a code on a route step by step from its first instruction, and answers how the run ends and after how many steps.
///
/// It is a function of its own, so that the loop over steps stands once in a program, and not in each caller of
/// `run_counted`.
#[inline(never)]
fn run_steps(code: &Code, route: &Route) -> Counted
    ensures outcome { result.outcome ≡ outcome_of code.now route.now }
    ensures steps { EndsAfter code.now route.now result.steps result.outcome }
    ensures accepted { (d : ℕ) → result.outcome ≡ Outcome.Accept d → (route.now.metric ≤ d) × (d ≤ route.now.size) }
{
    let instrs = code.instrs();
    let mut stack = [Tagged::int(0); STACK_LIMIT];
    let mut depth = 0;
    let mut locals = Locals::new(code.locals());
    let mut metric = route.metric();
    let mut pc = 0;
    let mut steps = 0;
    while let Some(instr) = instrs.get(pc) {
        steps += 1;
        match carry_out::<WholeRun>(
            instr,
            code,
            route,
            &mut stack,
            &mut depth,
            &mut locals,
            &mut metric,
            &mut pc,
        ) {
            Ok(()) => pc += 1,
            Err(stop) => {
                return Counted {
                    outcome: stop.at(pc),
                    steps,
                };
            }
        }
    }
    Counted {
        outcome: Outcome::Fault(FaultKind::OutsideCode, pc),
        steps: steps + 1,
    }
}

/// Runs a code on a route, and answers how the run ends and after how many steps. The step that ends the run counts.
/// It allocates nothing.
///
/// It is inlined, since a call of it would take longer than a run of code that only accepts.
#[inline(always)]
pub fn run_counted(code: &Code, route: &Route) -> Counted
    ensures outcome { result.outcome ≡ outcome_of code.now route.now }
    ensures steps { EndsAfter code.now route.now result.steps result.outcome }
    ensures accepted { (d : ℕ) → result.outcome ≡ Outcome.Accept d → (route.now.metric ≤ d) × (d ≤ route.now.size) }
{
    // Code that begins with ACCEPT, as a filter that accepts everything does, needs no stack.
    if let Some(Instr::Accept) = code.instrs().first() {
        return Counted {
            outcome: Outcome::Accept(route.metric()),
            steps: 1,
        };
    }
    run_steps(code, route)
}

/// Runs a code on a route, and answers how the run ends. It allocates nothing.
#[inline(always)]
pub fn run_checked(code: &Code, route: &Route) -> Outcome
    ensures outcome { result ≡ outcome_of code.now route.now }
    ensures accepted { (d : ℕ) → result ≡ Outcome.Accept d → (route.now.metric ≤ d) × (d ≤ route.now.size) }
{
    run_counted(code, route).outcome
}

/// Each run has exactly one outcome, and ends within one step more than the code has instructions.
pub fn one_outcome()
    ensures exists { (program : CodeView) (route : RouteView) → IsOutcome program route (outcome_of program route) }
    ensures only { (program : CodeView) (route : RouteView) (end : Outcome) →
        IsOutcome program route end → end ≡ outcome_of program route }
    ensures soon { (program : CodeView) (route : RouteView) (steps : ℕ) (end : Outcome) →
        EndsAfter program route steps end → steps ≤ length program.instrs + 1 }
{}
