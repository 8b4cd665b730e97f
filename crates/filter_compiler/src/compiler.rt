//! A filter becomes code.

ghost use Rattle.std.specs.Prelude.{◌≡◌, ◌↔◌, ◌≤◌, true, IfOk, IsErrOf, length};
ghost use Rattle.filter_syntax.specs.Places.{end_place};
ghost use Rattle.filter_syntax.specs.SyntaxText.{view_filter};
ghost use Rattle.filter_syntax.specs.Surroundings.{variable_limit};
ghost use Rattle.filter_code.specs.CodeView.{IsAllowed, CodeView};
ghost use Rattle.filter_compiler.specs.InstructionPlaces.{places_of};
ghost use Rattle.filter_compiler.specs.Limits.{HasTooMany, IsTooLong};
ghost use Rattle.filter_compiler.specs.Same.{MeansTheSame};
ghost use Rattle.filter_compiler.specs.Translation.{code_of, instructions};
ghost use Rattle.filter_compiler.specs.Written.{Holds};

use crate::commands::{emit_commands, emit_declarations};
use crate::fault::CompileFault;
use crate::numbers::SetNumbers;
use crate::output::Output;
use crate::sets::{SetLists, build_int_sets, build_sets, sets_in};
use filter_code::{Code, INSTRUCTION_LIMIT, Instr};
use filter_syntax::Filter;
use filter_types::Typed;
use int_sets::IntSet;
use prefix_patterns::PatternSet;
use std::alloc::{AllocError, Global};

/// The code of a filter, and where in the text its instructions come from.
#[derive(Drop)]
pub struct MappedCode {
    /// The code.
    pub code: Code,
    /// For each instruction of the code, in order, the place in the text of the part that it translates: the number of bytes
    /// before it.
    pub places: Vec<usize>,
}

/// The place of a filter's last token.
fn end_place(filter: &Filter) -> usize
    ensures { result ≡ end_place filter.now }
{
    match filter.tokens().last() {
        Some(token) => token.from,
        None => 0,
    }
}

/// A filter's instructions.
fn write_filter(alloc: Global, typed: &Typed) -> Output
    ensures code { Holds result (instructions (view_filter typed.now)) }
    ensures places { result.kept ≡ true → result.mapped.places ≡ places_of typed.now }
    ensures each { result.kept ≡ true → length result.mapped.places ≡ length result.mapped.instrs }
{
    let filter = typed.filter();
    let mut out = Output::new(alloc);
    emit_declarations(filter.decls(), &mut out);
    emit_commands(typed, filter.body(), SetNumbers::first(), &mut out);
    out.put(end_place(filter), Instr::Reject);
    out
}

/// The code of these parts, which are within the limits.
fn finished(locals: usize, sets: Vec<PatternSet>, int_sets: Vec<IntSet>, instrs: Vec<Instr>) -> Code
    requires { let program : CodeView = record { locals = locals; sets = sets.items; int_sets = int_sets.items; instrs = instrs.items } in
        IsAllowed program }
    ensures { let program : CodeView = record { locals = locals; sets = sets.items; int_sets = int_sets.items; instrs = instrs.items } in
        result ≡ program }
{
    Code::new(locals as u8, sets, int_sets, instrs).unwrap()
}

/// The code of the instructions that an output has kept and of these sets, and its places.
fn build_code(
    alloc: Global,
    locals: usize,
    lists: &SetLists,
    out: Output,
) -> Result<MappedCode, AllocError>
    requires locals { locals ≤ variable_limit }
    requires short { let program : CodeView = record {
      locals = locals;
      sets = lists.now.patterns.items;
      int_sets = lists.now.ints.items;
      instrs = out.mapped.instrs;
    } in ¬ IsTooLong program }
    requires few { let program : CodeView = record {
      locals = locals;
      sets = lists.now.patterns.items;
      int_sets = lists.now.ints.items;
      instrs = out.mapped.instrs;
    } in ¬ HasTooMany program }
    ensures code { let program : CodeView = record {
      locals = locals;
      sets = lists.now.patterns.items;
      int_sets = lists.now.ints.items;
      instrs = out.mapped.instrs;
    } in
        IfOk result (λ mapped. mapped.code ≡ program) }
    ensures places { IfOk result (λ mapped. mapped.places.items ≡ out.mapped.places) }
{
    let sets = build_sets(alloc, &lists.patterns)?;
    let int_sets = build_int_sets(alloc, &lists.ints)?;
    let (instrs, places) = out.mapped.into_parts();
    Ok(MappedCode {
        code: finished(locals, sets, int_sets, instrs),
        places,
    })
}

/// The code of a filter as `compile` gives it, and for each instruction the place in the text of the part that it translates. The
/// instructions of an operator are at the operator, those of an assignment at its name, the jumps of `if` and `else` at the `if`, the
/// question for a set at its `[`, the question and the jumps of a part of a `case` at its label, and the REJECT at the end at the last token.
///
/// It is refused as `compile` refuses it.
pub fn compile_mapped(alloc: Global, typed: &Typed) -> Result<MappedCode, CompileFault>
    ensures code { IfOk result (λ mapped. mapped.code ≡ code_of (view_filter typed.now)) }
    ensures places { IfOk result (λ mapped. mapped.places.items ≡ places_of typed.now) }
    ensures one_place_each { IfOk result (λ mapped. length mapped.places.items ≡ length mapped.code.instrs) }
    ensures meaning { IfOk result (λ mapped. MeansTheSame (view_filter typed.now) mapped.code) }
    ensures too_long { IsErrOf result CompileFault.TooManyInstructions ↔ IsTooLong (code_of (view_filter typed.now)) }
    ensures too_many { IsErrOf result CompileFault.TooManySets
        ↔ (¬ IsTooLong (code_of (view_filter typed.now)) × HasTooMany (code_of (view_filter typed.now))) }
{
    let out = write_filter(alloc, typed);
    if usize::from(out.length) > INSTRUCTION_LIMIT {
        return Err(CompileFault::TooManyInstructions);
    }
    let sets = sets_in(alloc, typed);
    if sets.too_many {
        return Err(CompileFault::TooManySets);
    }
    // All is within the limits: what is not kept was refused memory.
    if !out.kept || !sets.kept {
        return Err(CompileFault::Memory);
    }
    Ok(build_code(alloc, typed.filter().decls().len(), &sets, out)?)
}

/// The code of a filter, which means what the filter means: for every route its outcome is what the filter says, or
/// the stack is full, and this only where the filter needs more than 32 operands at one time.
///
/// It is refused where the code would have more than 1,024 instructions, and otherwise where it would have more than
/// 64 sets of patterns, more than 1,024 patterns in one, more than 64 sets of ints or more than 1,024 ranges in one; and where memory is refused.
pub fn compile(alloc: Global, typed: &Typed) -> Result<Code, CompileFault>
    ensures code { IfOk result (λ code. code ≡ code_of (view_filter typed.now)) }
    ensures meaning { IfOk result (λ code. MeansTheSame (view_filter typed.now) code) }
    ensures too_long { IsErrOf result CompileFault.TooManyInstructions ↔ IsTooLong (code_of (view_filter typed.now)) }
    ensures too_many { IsErrOf result CompileFault.TooManySets
        ↔ (¬ IsTooLong (code_of (view_filter typed.now)) × HasTooMany (code_of (view_filter typed.now))) }
{
    let mapped = compile_mapped(alloc, typed)?;
    Ok(mapped.code)
}
