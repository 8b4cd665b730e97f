//! Instructions that compute, on all routes of a class.

ghost use Rattle.std.specs.Prelude.{◌≡◌, ℕ, ◌+◌, ◌∷◌, Bool, IfSome, List, MatchOption, None, Option, Some, length, nat_lt};
ghost use Rattle.prefix_patterns.specs.Bits.{address_of, prefix_bits};
ghost use Rattle.filter_code.specs.CodeView.{CodeView};
ghost use Rattle.filter_code.specs.Machine.{Going, carry_out, unless_full};
ghost use Rattle.filter_code.specs.RouteView.{RouteView};
ghost use Rattle.filter_code.specs.declared.instruction.Instr.TheVariants as instr_is;
ghost use Rattle.filter_code.specs.declared.value.Value.TheVariants as value;
ghost use Rattle.filter_diff.specs.declared.symbol.SymbolicValue.{SymbolicValue as SymbolView};
ghost use Rattle.filter_diff.specs.declared.symbol.SymbolicValue.TheVariants as symbol;
ghost use Rattle.filter_code.specs.Limits.{stack_limit};
ghost use Rattle.filter_diff.specs.Classes.{Always};
ghost use Rattle.filter_diff.specs.Symbols.{Puts, config_at, value_at};
ghost use Rattle.filter_diff.specs.Turns.{Restacks};

use crate::class::Class;
use crate::judge::{equal, less, within};
use crate::symbol::SymbolicValue;
use filter_code::{Code, Instr, Stack};
use prefix_patterns::{ADDRESS_LENGTH, Ip, Prefix};

/// What an instruction without operands puts on the stack, if it is one of these.
fn literal(instr: &Instr, class: &Class) -> Option<SymbolicValue>
    ensures { IfSome result (λ v. Always class.now (λ route. (program : CodeView) →
        Puts program instr.now route (λ rest. rest) (value_at route v))) }
{
    match instr {
        Instr::Int(number) => Some(SymbolicValue::Int(*number)),
        Instr::Bool(truth) => Some(SymbolicValue::Bool(*truth)),
        Instr::Ip(ip) => Some(SymbolicValue::Ip(*ip)),
        Instr::Prefix(prefix) => Some(SymbolicValue::Net(*prefix)),
        Instr::Net => Some(class.own_net()),
        _ => None,
    }
}

/// The address with so many of its first bits, and the others cleared.
fn masked(ip: Ip, bits: u8) -> Option<Ip>
    ensures { IfSome result (λ masked. masked.0 ≡ address_of (prefix_bits ip.0 bits)) }
{
    match Prefix::new(ip, bits) {
        Some(prefix) => Some(prefix.address()),
        None => None,
    }
}

/// What MASK gives, where that can be said.
fn mask(bits: u8, a: SymbolicValue, class: &Class) -> Option<SymbolicValue>
    ensures { IfSome result (λ v. Always class.now (λ route. (program : CodeView) →
        Puts program (instr_is.Mask bits) route (λ rest. value_at route a ∷ rest) (value_at route v))) }
{
    match a {
        SymbolicValue::Ip(ip) => match masked(ip, bits) {
            Some(masked) => Some(SymbolicValue::Ip(masked)),
            None => None,
        },
        SymbolicValue::OwnIp(kept) => {
            if class.len < kept || ADDRESS_LENGTH < class.len || ADDRESS_LENGTH < bits {
                return None;
            }
            if kept <= bits {
                return Some(a);
            }
            Some(class.kept(bits))
        }
        _ => None,
    }
}

/// What MEMBER gives, where that can be said.
fn member(set: u8, a: SymbolicValue, class: &Class, code: &Code) -> Option<SymbolicValue>
    ensures { IfSome result (λ v. Always class.now (λ route.
        Puts code.now (instr_is.Member set) route (λ rest. value_at route a ∷ rest) (value_at route v))) }
{
    let Some(patterns) = code.sets().get(usize::from(set)) else {
        return None;
    };
    match a {
        SymbolicValue::Net(prefix) => Some(SymbolicValue::Bool(patterns.matches(&prefix))),
        SymbolicValue::OwnNet => match class.matches_any(patterns) {
            Some(truth) => Some(SymbolicValue::Bool(truth)),
            None => None,
        },
        _ => None,
    }
}

/// What INSET gives, where that can be said.
fn in_set(set: u8, a: SymbolicValue, code: &Code) -> Option<SymbolicValue>
    ensures { IfSome result (λ v. (route : RouteView) →
        Puts code.now (instr_is.InSet set) route (λ rest. value_at route a ∷ rest) (value_at route v)) }
{
    let Some(ranges) = code.int_sets().get(usize::from(set)) else {
        return None;
    };
    match a {
        SymbolicValue::Int(number) => Some(SymbolicValue::Bool(ranges.holds(number))),
        _ => None,
    }
}

/// What an instruction with one operand gives, where that can be said.
fn one(instr: &Instr, a: SymbolicValue, class: &Class, code: &Code) -> Option<SymbolicValue>
    ensures { IfSome result (λ v. Always class.now (λ route.
        Puts code.now instr.now route (λ rest. value_at route a ∷ rest) (value_at route v))) }
{
    match instr {
        Instr::Not => match a {
            SymbolicValue::Bool(truth) => Some(SymbolicValue::Bool(!truth)),
            _ => None,
        },
        Instr::Addr => match a {
            SymbolicValue::Net(prefix) => Some(SymbolicValue::Ip(prefix.address())),
            SymbolicValue::OwnNet => Some(class.kept(class.len)),
            _ => None,
        },
        Instr::Len => match a {
            SymbolicValue::Net(prefix) => Some(SymbolicValue::Int(u32::from(prefix.len()))),
            SymbolicValue::OwnNet => Some(SymbolicValue::Int(u32::from(class.len))),
            _ => None,
        },
        Instr::Mask(bits) => mask(*bits, a, class),
        Instr::Member(set) => member(*set, a, class, code),
        Instr::InSet(set) => in_set(*set, a, code),
        _ => None,
    }
}

/// What an instruction gives for two ints, if it is arithmetic and does not fault.
fn arithmetic(instr: &Instr, a: u32, b: u32) -> Option<SymbolicValue>
    ensures { IfSome result (λ v. (program : CodeView) (route : RouteView) →
        Puts program instr.now route (λ rest. value.Int b ∷ (value.Int a ∷ rest)) (value_at route v)) }
{
    match instr {
        Instr::Add => Some(SymbolicValue::Int(a.wrapping_add(b))),
        Instr::Sub => Some(SymbolicValue::Int(a.wrapping_sub(b))),
        Instr::Mul => Some(SymbolicValue::Int(a.wrapping_mul(b))),
        Instr::Div if b > 0 => Some(SymbolicValue::Int(a / b)),
        Instr::Max => Some(SymbolicValue::Int(a.max(b))),
        _ => None,
    }
}

/// What an instruction with two operands gives, of which the second was on top, where that can be said.
fn two(instr: &Instr, a: SymbolicValue, b: SymbolicValue, class: &Class) -> Option<SymbolicValue>
    ensures { IfSome result (λ v. Always class.now (λ route. (program : CodeView) →
        Puts program instr.now route (λ rest. value_at route b ∷ (value_at route a ∷ rest)) (value_at route v))) }
{
    match instr {
        Instr::Eq => match equal(a, b, class) {
            Some(truth) => Some(SymbolicValue::Bool(truth)),
            None => None,
        },
        Instr::Lt => match less(a, b, class) {
            Some(truth) => Some(SymbolicValue::Bool(truth)),
            None => None,
        },
        Instr::Le => match less(b, a, class) {
            Some(truth) => Some(SymbolicValue::Bool(!truth)),
            None => None,
        },
        Instr::Within => match within(a, b, class) {
            Some(truth) => Some(SymbolicValue::Bool(truth)),
            None => None,
        },
        _ => match (a, b) {
            (SymbolicValue::Int(a), SymbolicValue::Int(b)) => arithmetic(instr, a, b),
            _ => None,
        },
    }
}

/// What an instruction takes off the stack.
fn given(
    instr: &Instr,
    class: &Class,
    code: &Code,
    stack: &mut Stack<SymbolicValue>,
) -> Option<SymbolicValue>
    ensures { IfSome result (λ v. Always class.now (λ route. (pc : ℕ) (locals : List (Option SymbolView)) (metric : Option ℕ) →
        carry_out code.now route (config_at route pc stack.old locals metric) (Some instr.now)
        ≡ unless_full (nat_lt stack_limit (1 + length stack.new)) pc (Going (config_at route (pc + 1) (v ∷ stack.new) locals metric)))) }
{
    match instr {
        Instr::Not
        | Instr::Addr
        | Instr::Len
        | Instr::Mask(_)
        | Instr::Member(_)
        | Instr::InSet(_) => {
            let Ok(a) = stack.take_one() else {
                return None;
            };
            one(instr, a, class, code)
        }
        Instr::Int(_) | Instr::Bool(_) | Instr::Ip(_) | Instr::Prefix(_) | Instr::Net => {
            literal(instr, class)
        }
        _ => {
            let Ok((a, b)) = stack.take_two() else {
                return None;
            };
            two(instr, a, b, class)
        }
    }
}

/// Carries out an instruction that computes. Whether that could be said.
pub(crate) fn compute(
    instr: &Instr,
    class: &Class,
    code: &Code,
    stack: &mut Stack<SymbolicValue>,
) -> bool
    ensures { Restacks code.now class.now instr.now stack.old stack.new result }
{
    match given(instr, class, code, stack) {
        Some(value) => match stack.push(value) {
            Ok(()) => true,
            Err(_) => false,
        },
        None => false,
    }
}
