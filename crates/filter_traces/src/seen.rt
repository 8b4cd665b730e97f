//! What is told of one step of a run.
ghost use Rattle.std.specs.Prelude.{◌≡◌, ◌≤◌, ◌++◌, ◌&&◌, not, OnOk, slice_get};
ghost use Rattle.filter_code.specs.Limits.{instruction_limit};
ghost use Rattle.filter_code.specs.Names.{truth_text};
ghost use Rattle.filter_traces.specs.Shown.{compared, is_declaration, is_negated, is_not, is_shown, left_of, operand_text, right_text, same_byte};
ghost use Rattle.filter_traces.specs.Shown.{sign, step_line, shown_step, shown_line, truth_given, value_text};

use crate::site::{InstructionSite, push_site, word_of};
use crate::traced::Traced;
use filter_code::{Instr, Value};
use line_protocol::push_decimal;
use refusal_words::push_prefix;
use std::alloc::{AllocError, Global};

/// What is seen of a step.
#[derive(Clone, Copy)]
pub(crate) struct Seen {
    /// The value below the top of the stack before the step, if there is one.
    pub(crate) below: Option<Value>,
    /// The value on top of the stack before the step, if there is one.
    pub(crate) top: Option<Value>,
    /// The value on top of the stack after the step, if there is one.
    pub(crate) given: Option<Value>,
    /// The metric after the step.
    pub(crate) metric: u32,
}

/// Puts a truth value at the end of `out`.
fn push_truth(out: &mut Vec<u8>, truth: bool) -> Result<(), AllocError>
    ensures { OnOk result (out.new.items ≡ out.old.items ++ truth_text truth) }
{
    if truth {
        out.extend_from_slice(b"true")
    } else {
        out.extend_from_slice(b"false")
    }
}

/// Puts a value at the end of `out`, as the language spells it.
fn push_value(alloc: Global, out: &mut Vec<u8>, value: Value) -> Result<(), AllocError>
    ensures { OnOk result (out.new.items ≡ out.old.items ++ value_text value) }
{
    match value {
        Value::Int(number) => push_decimal(out, u64::from(number)),
        Value::Bool(truth) => push_truth(out, truth),
        Value::Addr(ip) => {
            let text = format!(in alloc; "{ip}")?;
            out.extend_from_slice(text.as_bytes())
        }
        Value::Net(prefix) => push_prefix(alloc, out, prefix),
    }
}

/// Puts an operand at the end of `out`, if there is one.
fn push_operand(alloc: Global, out: &mut Vec<u8>, operand: Option<Value>) -> Result<(), AllocError>
    ensures { OnOk result (out.new.items ≡ out.old.items ++ operand_text operand) }
{
    match operand {
        Some(value) => push_value(alloc, out, value),
        None => Ok(()),
    }
}

/// The sign of a comparison.
fn sign(negated: bool, instr: &Instr) -> &'static [u8]
    ensures { result.now ≡ sign negated instr.now }
{
    match instr {
        Instr::Eq => { if negated { b"!=" } else { b"=" } }
        Instr::Lt => { if negated { b">=" } else { b"<" } }
        Instr::Le => { if negated { b">" } else { b"<=" } }
        Instr::Within | Instr::Member(_) | Instr::InSet(_) => { if negated { b"!~" } else { b"~" } }
        _ => b"",
    }
}

/// Puts the truth of a comparison at the end of `out`, which gave a value.
fn push_truth_given(
    out: &mut Vec<u8>,
    negated: bool,
    given: Option<Value>,
) -> Result<(), AllocError>
    ensures { OnOk result (out.new.items ≡ out.old.items ++ truth_given negated given) }
{
    match given {
        Some(Value::Bool(truth)) => push_truth(out, if negated { !truth } else { truth }),
        _ => Ok(()),
    }
}

/// What stands left of the sign of a comparison.
fn left_of(instr: &Instr, seen: &Seen) -> Option<Value>
    ensures { result ≡ left_of instr.now seen.now }
{
    match instr {
        Instr::Member(_) | Instr::InSet(_) => seen.top,
        _ => seen.below,
    }
}

/// Puts what stands right of it at the end of `out`, where this is on top of the stack.
fn push_right(
    alloc: Global,
    out: &mut Vec<u8>,
    instr: &Instr,
    top: Option<Value>,
) -> Result<(), AllocError>
    ensures { OnOk result (out.new.items ≡ out.old.items ++ right_text instr.now top) }
{
    match instr {
        Instr::Member(_) | Instr::InSet(_) => out.extend_from_slice(b"[..]"),
        _ => push_operand(alloc, out, top),
    }
}

/// Puts a comparison at the end of `out`.
fn push_compared(
    alloc: Global,
    out: &mut Vec<u8>,
    negated: bool,
    instr: Instr,
    seen: Seen,
) -> Result<(), AllocError>
    ensures { OnOk result (out.new.items ≡ out.old.items ++ compared negated instr seen) }
{
    push_operand(alloc, out, left_of(&instr, &seen))?;
    out.push(b' ')?;
    out.extend_from_slice(sign(negated, &instr))?;
    out.push(b' ')?;
    push_right(alloc, out, &instr, seen.top)?;
    out.extend_from_slice(b" is ")?;
    push_truth_given(out, negated, seen.given)
}

/// Puts what is told of an instruction at the end of `out`. A word stands where it comes from.
fn push_instruction(
    alloc: Global,
    out: &mut Vec<u8>,
    word: &[u8],
    negated: bool,
    instr: Instr,
    seen: Seen,
) -> Result<(), AllocError>
    ensures { OnOk result (out.new.items ≡ out.old.items ++ shown_step word.now negated instr seen) }
{
    match instr {
        Instr::Store(_) => {
            out.extend_from_slice(word)?;
            out.extend_from_slice(b" = ")?;
            push_operand(alloc, out, seen.top)
        }
        Instr::SetMetric => {
            out.extend_from_slice(word)?;
            out.extend_from_slice(b" = ")?;
            push_decimal(out, u64::from(seen.metric))
        }
        Instr::JumpIfNot(_) => {
            out.extend_from_slice(word)?;
            out.push(b' ')?;
            push_operand(alloc, out, seen.top)
        }
        Instr::Eq | Instr::Lt | Instr::Le | Instr::Within | Instr::Member(_) | Instr::InSet(_) =>
            push_compared(alloc, out, negated, instr, seen),
        _ => Ok(()),
    }
}

/// Whether something is told of an instruction.
fn is_shown(instr: &Instr) -> bool
    ensures { result ≡ is_shown instr.now }
{
    matches!(
        instr,
        Instr::Store(_)
            | Instr::SetMetric
            | Instr::JumpIfNot(_)
            | Instr::Eq
            | Instr::Lt
            | Instr::Le
            | Instr::Within
            | Instr::Member(_)
            | Instr::InSet(_)
    )
}

/// Whether an instruction is a NOT.
fn is_not(instr: Option<Instr>) -> bool
    ensures { result ≡ is_not instr }
{
    matches!(instr, Some(Instr::Not))
}

/// Whether two instructions come from the same byte.
fn same_byte(site: Option<InstructionSite>, other: Option<InstructionSite>) -> bool
    ensures { result ≡ same_byte site other }
{
    match (site, other) {
        (Some(site), Some(other)) => site.byte == other.byte,
        _ => false,
    }
}

impl<'a> Traced<'a> {
    /// Whether an instruction is one of a declaration.
    pub(crate) fn is_declaration(&self, at: usize) -> bool
        ensures { result ≡ is_declaration self.now at }
    {
        at < 2 * usize::from(self.code().locals())
    }

    /// Whether a NOT of the same operator follows an instruction.
    fn is_negated(&self, at: usize) -> bool
        requires { at ≤ instruction_limit }
        ensures { result ≡ is_negated self.now at }
    {
        is_not(self.instr(at + 1)) && same_byte(self.site(at), self.site(at + 1))
    }

    /// Puts the line on an instruction at the end of `out`.
    fn push_line(
        &self,
        alloc: Global,
        out: &mut Vec<u8>,
        at: usize,
        instr: Instr,
        seen: Seen,
    ) -> Result<(), AllocError>
        requires { at ≤ instruction_limit }
        ensures { OnOk result (out.new.items ≡ out.old.items ++ shown_line self.now at instr seen) }
    {
        let site = self.site(at);
        let negated = self.is_negated(at);
        out.extend_from_slice(b"  ")?;
        push_site(out, site)?;
        out.push(b' ')?;
        push_instruction(alloc, out, word_of(self.text(), site), negated, instr, seen)?;
        out.push(b'\n')?;
        Ok(())
    }

    /// Puts what is told of a step at the end of `out`, which carried out an instruction.
    pub(crate) fn push_step(
        &self,
        alloc: Global,
        out: &mut Vec<u8>,
        at: usize,
        instr: Instr,
        seen: Seen,
    ) -> Result<(), AllocError>
        requires { at ≤ instruction_limit }
        ensures { OnOk result (out.new.items ≡ out.old.items ++ step_line self.now at instr seen) }
    {
        if is_shown(&instr) && !self.is_declaration(at) {
            self.push_line(alloc, out, at, instr, seen)
        } else {
            Ok(())
        }
    }
}
