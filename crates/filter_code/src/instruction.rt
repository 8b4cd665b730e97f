//! Instructions.
//!
//! **One table has a row for each instruction** (`signature` in `specs/Table.antt`): its opcode and what it carries in a code file; which operands
//! it takes, and of which kinds; what it names, how many values it gives, and where its successors are. It speaks of anything that has a kind: the
//! machine reads it with values, the verifier with facts about values, and `code_file` spells by it, so their definitions cannot differ. It has no
//! row for all others: an instruction without a row is refused by the checker.

ghost use Rattle.std.specs.Prelude.{◌≡◌, ◌↔◌, IsTrue, Some};
ghost use Rattle.filter_code.specs.Names.{instruction_text, name_of};
ghost use Rattle.filter_code.specs.Table.{opcode};

use prefix_patterns::{ADDRESS_LENGTH, Ip, Prefix};
use std::fmt;

/// One instruction of filter code.
///
/// Each variant begins with what it pops and pushes, the top of the stack at the right.
#[derive(Clone, Copy, PartialEq, Eq)]
pub enum Instr {
    /// to int: the number itself.
    Int(u32),
    /// to bool: the truth value itself.
    Bool(bool),
    /// to ip: the address itself.
    Ip(Ip),
    /// to prefix: the prefix itself.
    Prefix(Prefix),
    /// to value: the value of the local variable with this number.
    Load(u8),
    /// Any value to none: sets the local variable with this number.
    Store(u8),
    /// to prefix: the prefix of the route, as BIRD's `net`.
    Net,
    /// to int: the current metric.
    Metric,
    /// to int: the metric that the route was received with.
    Received,
    /// int to none: sets the current metric to this number, at most the domain's size. A number below the metric
    /// received is a fault.
    SetMetric,
    /// int int to int: the sum modulo 2^32.
    Add,
    /// int int to int: the first less the second, modulo 2^32.
    Sub,
    /// int int to int: the product modulo 2^32.
    Mul,
    /// int int to int: the first divided by the second, without the remainder. A division by 0 is a fault.
    Div,
    /// int int to int: the greater.
    Max,
    /// Two of one kind to bool: whether they are equal.
    Eq,
    /// Two ints or two ips to bool: whether the first is less.
    Lt,
    /// Two ints or two ips to bool: whether the first is not greater.
    Le,
    /// bool to bool: the negation.
    Not,
    /// prefix to ip: its first address.
    Addr,
    /// prefix to int: its length.
    Len,
    /// ip to ip: keeps this many of the first bits, and clears the others.
    Mask(u8),
    /// ip prefix, or prefix prefix, to bool: whether the first lies within the second, or is the second.
    Within,
    /// prefix to bool: whether it matches the set of patterns with this number.
    Member(u8),
    /// int to bool: whether it is in the set of ints with this number.
    InSet(u8),
    /// Any stack: skips the next instructions, this many.
    Jump(u16),
    /// bool to none: skips the next instructions, this many, if it is false.
    JumpIfNot(u16),
    /// Any stack: ends, and accepts the route with the current metric.
    Accept,
    /// Any stack: ends, and rejects the route.
    Reject,
}

impl Instr {
    ghost use Rattle.filter_code.specs.CodeView.{HasMask};

    /// Whether it keeps at most 32 bits, if it is a MASK.
    pub(crate) fn has_mask(&self) -> bool
        ensures { IsTrue result ↔ HasMask self.now }
    {
        match self {
            Instr::Mask(bits) => *bits <= ADDRESS_LENGTH,
            _ => true,
        }
    }

    /// Its opcode, which is its first byte in a code file, and its name.
    fn row(&self) -> (u8, &'static str)
        ensures opcode { result.0 ≡ opcode self.now }
        ensures name { result.1.now ≡ name_of self.now }
    {
        match self {
            Instr::Int(_) => (0x01, "INT"),
            Instr::Bool(_) => (0x02, "BOOL"),
            Instr::Ip(_) => (0x03, "IP"),
            Instr::Prefix(_) => (0x04, "PREFIX"),
            Instr::Load(_) => (0x10, "LOAD"),
            Instr::Store(_) => (0x11, "STORE"),
            Instr::Net => (0x12, "NET"),
            Instr::Metric => (0x13, "METRIC"),
            Instr::Received => (0x14, "RECEIVED"),
            Instr::SetMetric => (0x15, "SETMETRIC"),
            Instr::Add => (0x20, "ADD"),
            Instr::Sub => (0x21, "SUB"),
            Instr::Mul => (0x22, "MUL"),
            Instr::Div => (0x23, "DIV"),
            Instr::Max => (0x24, "MAX"),
            Instr::Eq => (0x30, "EQ"),
            Instr::Lt => (0x31, "LT"),
            Instr::Le => (0x32, "LE"),
            Instr::Not => (0x33, "NOT"),
            Instr::Addr => (0x40, "ADDR"),
            Instr::Len => (0x41, "LEN"),
            Instr::Mask(_) => (0x42, "MASK"),
            Instr::Within => (0x50, "WITHIN"),
            Instr::Member(_) => (0x51, "MEMBER"),
            Instr::InSet(_) => (0x52, "INSET"),
            Instr::Jump(_) => (0x60, "JUMP"),
            Instr::JumpIfNot(_) => (0x61, "JUMPIFNOT"),
            Instr::Accept => (0x70, "ACCEPT"),
            Instr::Reject => (0x71, "REJECT"),
        }
    }

    /// The instruction's opcode: its first byte in a code file, before the operand.
    pub fn opcode(self) -> u8
        ensures { result ≡ opcode self }
    {
        self.row().0
    }
}

impl fmt::Display for Instr {
    ghost output = { λ i. Some (instruction_text i) };

    fn fmt<W: fmt::Write>(&self, f: &mut fmt::Formatter<W>) -> fmt::Result {
        let (_, name) = self.row();
        match self {
            Instr::Int(number) => write!(f, "{name} {number}"),
            Instr::Bool(flag) => write!(f, "{name} {flag}"),
            Instr::Ip(ip) => write!(f, "{name} {ip}"),
            Instr::Prefix(prefix) => write!(f, "{name} {prefix}"),
            Instr::Load(byte)
            | Instr::Store(byte)
            | Instr::Mask(byte)
            | Instr::Member(byte)
            | Instr::InSet(byte) => write!(f, "{name} {byte}"),
            Instr::Jump(skipped) | Instr::JumpIfNot(skipped) => write!(f, "{name} {skipped}"),
            _ => f.write_str(name),
        }
    }
}
