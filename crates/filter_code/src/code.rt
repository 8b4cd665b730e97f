ghost use Rattle.std.specs.Prelude.{◌≡◌, ◌≤◌, All, length};
ghost use Rattle.std.specs.Option.{SomeIff};
ghost use Rattle.filter_code.specs.Limits.{local_limit, set_limit, int_set_limit, instruction_limit};
ghost use Rattle.filter_code.specs.CodeView.{HasMask};

use crate::instruction::Instr;
use crate::limits::{INSTRUCTION_LIMIT, INT_SET_LIMIT, LOCAL_LIMIT, SET_LIMIT};
use int_sets::IntSet;
use prefix_patterns::PatternSet;
use std::marker::Model;

/// Filter code: the number of its local variables, its sets of patterns, its sets of ints and its instructions, all
/// within the limits.
///
/// A contract sees a code as a `CodeView`.
#[derive(Drop)]
pub struct Code {
    locals: u8,
    sets: Vec<PatternSet>,
    int_sets: Vec<IntSet>,
    instrs: Vec<Instr>,
}

impl Model for Code {
    ghost use Rattle.filter_code.specs.CodeView.{CodeView, IsAllowed};

    ghost Value = { CodeView };

    ghost view = { λ c. record { locals = c.locals; sets = c.sets.items; int_sets = c.int_sets.items; instrs = c.instrs.items } };

    ghost invariant = { λ c. IsAllowed (record { locals = c.locals; sets = c.sets.items; int_sets = c.int_sets.items; instrs = c.instrs.items }) };
}

impl Code {
    ghost use Rattle.filter_code.specs.CodeView.{CodeView, IsAllowed};

    /// The code of these parts. None if and only if there are more than 16 local variables, 64 sets of patterns, 64 sets
    /// of ints or 1,024 instructions, or a MASK keeps more than 32 bits.
    pub fn new(
        locals: u8,
        sets: Vec<PatternSet>,
        int_sets: Vec<IntSet>,
        instrs: Vec<Instr>,
    ) -> Option<Code>
        ensures { let program : CodeView = record {
          locals = locals;
          sets = sets.items;
          int_sets = int_sets.items;
          instrs = instrs.items;
        } in
            SomeIff result (IsAllowed program) program }
    {
        let within_limits = usize::from(locals) <= LOCAL_LIMIT
            && sets.len() <= SET_LIMIT
            && int_sets.len() <= INT_SET_LIMIT
            && instrs.len() <= INSTRUCTION_LIMIT;
        if within_limits && instrs.iter().all(|instr| instr.has_mask()) {
            Some(Code {
                locals,
                sets,
                int_sets,
                instrs,
            })
        } else {
            None
        }
    }

    /// The number of local variables.
    pub fn locals(&self) -> u8
        ensures value { result ≡ self.now.locals }
        ensures limit { result ≤ local_limit }
    {
        self.locals
    }

    /// The sets of patterns, in order.
    pub fn sets(&self) -> &[PatternSet]
        ensures value { result.now ≡ self.now.sets }
        ensures limit { length result.now ≤ set_limit }
    {
        &self.sets
    }

    /// The sets of ints, in order.
    pub fn int_sets(&self) -> &[IntSet]
        ensures value { result.now ≡ self.now.int_sets }
        ensures limit { length result.now ≤ int_set_limit }
    {
        &self.int_sets
    }

    /// The instructions, in order.
    pub fn instrs(&self) -> &[Instr]
        ensures value { result.now ≡ self.now.instrs }
        ensures limit { length result.now ≤ instruction_limit }
        ensures masks { All HasMask result.now }
    {
        &self.instrs
    }
}
