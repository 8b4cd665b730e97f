//! The code that is being written.
//!
//! **Code is written once, and each jump gets its distance after the instructions that it skips.** To know their number before, each `if` would be
//! walked again for each `if` around it.
//!
//! **Writing does not fail.** What is past a limit, or would need memory that is refused, is counted and not kept, and `compile` judges it at the
//! end: G1 and G2 come exactly where they should, also where memory is refused. So no function that writes a part has a `Result`.
//!
//! **A contract says what an output holds**: whatever program it held before, it then holds that program with one more part. Parts are joined by
//! one lemma, which each function cites.
//!
//! **The place in the text is kept beside each instruction as it is written**, so that no second walk of the tree has to know how long each form
//! is. A jump that gets its distance later keeps its place. `compile` drops the places at the end.

ghost use Rattle.std.specs.Prelude.{◌≡◌, [], ◌∷◌, ◌++◌, All, OnOk, slice_set};
ghost use Rattle.filter_code.specs.CodeView.{HasMask};

use filter_code::{INSTRUCTION_LIMIT, Instr};
use std::alloc::{AllocError, Global};
use std::marker::Model;

/// Instructions of which no MASK keeps more than 32 bits, and beside them the places in the text that they come from. A contract
/// sees them as two lists.
#[derive(Drop)]
pub(crate) struct MappedInstrs {
    instrs: Vec<Instr>,
    places: Vec<usize>,
}

impl Model for MappedInstrs {
    ghost use Rattle.std.specs.Prelude.{All};
    ghost use Rattle.filter_code.specs.CodeView.{HasMask};
    ghost use Rattle.filter_compiler.specs.Mapped.{Mapped};

    ghost Value = { Mapped };

    ghost view = { λ l. record { instrs = l.instrs.items; places = l.places.items } };

    ghost invariant = { λ l. All HasMask l.instrs.items };
}

impl MappedInstrs {
    /// No instructions.
    fn new(alloc: Global) -> MappedInstrs
        ensures { result ≡ record { instrs = []; places = [] } }
    {
        MappedInstrs {
            instrs: Vec::new(alloc),
            places: Vec::new(alloc),
        }
    }

    /// One more instruction, and its place.
    fn push(&mut self, at: usize, instr: Instr) -> Result<(), AllocError>
        requires { HasMask instr }
        ensures { OnOk result (self.new ≡ record { instrs = self.old.instrs ++ instr ∷ []; places = self.old.places ++ at ∷ [] }) }
    {
        self.instrs.push(instr)?;
        self.places.push(at)?;
        Ok(())
    }

    /// Another instruction in the place of the one at this index, if there is one. It comes from the same place in the text.
    fn replace(&mut self, index: usize, instr: Instr)
        requires { HasMask instr }
        ensures { self.new ≡ record { instrs = slice_set self.old.instrs index instr; places = self.old.places } }
    {
        if index < self.instrs.len() {
            self.instrs[index] = instr;
        }
    }

    /// The instructions, and their places.
    pub(crate) fn into_parts(self) -> (Vec<Instr>, Vec<usize>)
        ensures instrs { result.0.items ≡ self.instrs }
        ensures places { result.1.items ≡ self.places }
        ensures masks { All HasMask result.0.items }
    {
        (self.instrs, self.places)
    }
}

/// The code so far. Code that is past a limit, or for which memory was refused, is counted and no longer kept.
#[derive(Drop)]
pub(crate) struct Output {
    pub alloc: Global,
    /// The instructions and their places, while they are kept.
    pub mapped: MappedInstrs,
    /// How many instructions were put, or some number past the limit.
    pub length: u16,
    /// Whether the instructions are kept.
    pub kept: bool,
}

impl Output {
    ghost use Rattle.std.specs.Prelude.{◌-◌, ◌<◌, true};
    ghost use Rattle.filter_compiler.specs.Written.{Holds, Notes, Puts, patched};

    /// Nothing yet.
    pub(crate) fn new(alloc: Global) -> Output
        ensures holds { Holds result [] }
        ensures empty { result.mapped ≡ record { instrs = []; places = [] } }
    {
        Output {
            alloc,
            mapped: MappedInstrs::new(alloc),
            length: 0,
            kept: true,
        }
    }

    /// One more instruction, which comes from a place in the text: the number of bytes before it.
    pub(crate) fn put(&mut self, at: usize, instr: Instr)
        requires { HasMask instr }
        ensures code { Puts self.old self.new (instr ∷ []) }
        ensures places { Notes self.old self.new (at ∷ []) }
    {
        let index = self.length;
        self.length = index.saturating_add(1);
        if usize::from(index) >= INSTRUCTION_LIMIT {
            self.kept = false;
            return;
        }
        if self.kept && self.mapped.push(at, instr).is_err() {
            self.kept = false;
        }
    }

    /// What comes next asks for the set of this number. Code that asks for a set past this limit is not kept.
    pub(crate) fn need_set(&mut self, number: u8, limit: usize)
        ensures code { Puts self.old self.new [] }
        ensures places { Notes self.old self.new [] }
        ensures within { self.new.kept ≡ true → number < limit }
    {
        if usize::from(number) >= limit {
            self.kept = false;
        }
    }

    /// The number of instructions after a jump at this index.
    pub(crate) fn distance(&self, jump: u16) -> u16
        ensures value { result ≡ self.now.length - jump - 1 }
        ensures limit { result < 65535 }
    {
        self.length.saturating_sub(jump).saturating_sub(1)
    }

    /// Another instruction in the place of the one at this index, from the same place in the text.
    pub(crate) fn patch(&mut self, index: u16, instr: Instr)
        requires { HasMask instr }
        ensures { self.new ≡ patched self.old index instr }
    {
        self.mapped.replace(usize::from(index), instr);
    }
}
