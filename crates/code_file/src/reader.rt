//! Reading a file field by field.

ghost use Rattle.std.specs.Prelude.{◌≡◌, ◌+◌, ◌<◌, ◌≤◌, true, false, length, take, MatchOption, MatchResult, IfOk};
ghost use Rattle.filter_code.specs.CodeView.{HasMask};
ghost use Rattle.code_file.specs.Fields.{is_prefix, is_pattern, is_range, form_of};
ghost use Rattle.code_file.specs.Fields.FieldKind.{Mark, Locals, Sets, Patterns, IntSets, Ranges, Instructions};
ghost use Rattle.code_file.specs.Fields.FieldKind.{WordOperand, NameOperand, BitsOperand, SkipOperand};
ghost use Rattle.code_file.specs.Reading.{past, Reads, a_number, prefix_of, pattern_of, range_of, a_pattern, a_range, a_prefix, a_truth};
ghost use Rattle.code_file.specs.Reading.{a_form, an_operand, an_instruction, a_version, a_mark};

use crate::fault::FileFault;
use crate::version::Version;
use byteorder::{BigEndian, ByteOrder};
use filter_code::{INSTRUCTION_LIMIT, INT_SET_LIMIT, Instr, IntRange, LOCAL_LIMIT, SET_LIMIT};
use int_sets::RANGE_LIMIT;
use prefix_patterns::{ADDRESS_LENGTH, Ip, PATTERN_LIMIT, Pattern, Prefix};
use std::marker::Model;

/// The first bytes of each file. The next one tells the version.
pub const MARK: [u8; 3] = *b"NCF";

/// The bytes that are left of a file, and the number of bytes before them.
#[derive(Drop)]
pub struct Reader<'a> {
    at: usize,
    bytes: &'a [u8],
}

impl<'a> Model for Reader<'a> {
    ghost use Rattle.std.specs.Prelude.{◌+◌, ◌<◌, ◌^◌, length};
    ghost use Rattle.code_file.specs.Reading.{Rest};

    ghost Value = { Rest };

    ghost view = { λ r. record { at = r.at; bytes = r.bytes.now } };

    ghost invariant = { λ r. r.at + length r.bytes.now < 2 ^ 64 };
}

impl<'a> Reader<'a> {
    /// A reader of a whole file.
    pub fn new(bytes: &'a [u8]) -> Reader<'a>
        ensures { result ≡ record { at = 0; bytes = bytes.now } }
    {
        Reader { at: 0, bytes }
    }

    /// The number of bytes that were read.
    pub fn at(&self) -> usize
        ensures { result ≡ self.now.at }
    {
        self.at
    }

    /// The number of bytes that are left.
    pub fn left(&self) -> usize
        ensures { result ≡ length self.now.bytes }
    {
        self.bytes.len()
    }

    /// The bytes of the next field.
    fn field(&mut self, width: usize) -> Result<&'a [u8], FileFault>
        ensures whole { MatchResult result (λ field. width ≤ length self.old.bytes) (λ found. length self.old.bytes < width) }
        ensures value { MatchResult result (λ field. field.now ≡ take width self.old.bytes)
            (λ found. found ≡ FileFault.EndsEarly (self.old.at + length self.old.bytes)) }
        ensures left { MatchResult result (λ field. self.new ≡ past width self.old) (λ found. self.new ≡ self.old) }
    {
        if self.bytes.len() < width {
            return Err(FileFault::EndsEarly(self.at + self.bytes.len()));
        }
        let (field, bytes) = self.bytes.split_at(width);
        self.at += width;
        self.bytes = bytes;
        Ok(field)
    }

    fn mark_byte(&mut self, place: usize) -> Result<u8, FileFault>
        requires { place < 3 }
        ensures { Reads (λ byte. byte) (a_number (Mark place)) self.old self.new result }
    {
        let at = self.at;
        let byte = self.field(1)?[0];
        if byte != MARK[place] {
            return Err(FileFault::OtherMark(at));
        }
        Ok(byte)
    }

    fn version(&mut self) -> Result<Version, FileFault>
        ensures { Reads (λ v. v) a_version self.old self.new result }
    {
        let at = self.at;
        match Version::of(self.field(1)?[0]) {
            Some(version) => Ok(version),
            None => Err(FileFault::OtherMark(at)),
        }
    }

    /// The mark, which tells the version.
    pub fn mark(&mut self) -> Result<Version, FileFault>
        ensures { Reads (λ v. v) a_mark self.old self.new result }
    {
        self.mark_byte(0)?;
        self.mark_byte(1)?;
        self.mark_byte(2)?;
        self.version()
    }

    /// The number of local variables.
    pub fn locals(&mut self) -> Result<u8, FileFault>
        ensures value { Reads (λ n. n) (a_number Locals) self.old self.new result }
        ensures limit { IfOk result (λ n. n ≤ LOCAL_LIMIT) }
    {
        let at = self.at;
        let number = self.field(1)?[0];
        if number as usize > LOCAL_LIMIT {
            return Err(FileFault::OverLimit(at));
        }
        Ok(number)
    }

    /// The number of sets.
    pub fn set_count(&mut self) -> Result<u8, FileFault>
        ensures value { Reads (λ n. n) (a_number Sets) self.old self.new result }
        ensures limit { IfOk result (λ n. n ≤ SET_LIMIT) }
    {
        let at = self.at;
        let number = self.field(1)?[0];
        if number as usize > SET_LIMIT {
            return Err(FileFault::OverLimit(at));
        }
        Ok(number)
    }

    /// The number of patterns of a set.
    pub fn pattern_count(&mut self) -> Result<u16, FileFault>
        ensures value { Reads (λ n. n) (a_number Patterns) self.old self.new result }
        ensures limit { IfOk result (λ n. n ≤ PATTERN_LIMIT) }
    {
        let at = self.at;
        let number = BigEndian::read_u16(self.field(2)?);
        if number as usize > PATTERN_LIMIT {
            return Err(FileFault::OverLimit(at));
        }
        Ok(number)
    }

    /// The next pattern.
    pub fn pattern(&mut self) -> Result<Pattern, FileFault>
        ensures { Reads (λ p. p) a_pattern self.old self.new result }
    {
        let at = self.at;
        match pattern_in(self.field(7)?) {
            Some(pattern) => Ok(pattern),
            None => Err(FileFault::BadOperand(at)),
        }
    }

    /// The number of sets of ints.
    pub fn int_set_count(&mut self) -> Result<u8, FileFault>
        ensures value { Reads (λ n. n) (a_number IntSets) self.old self.new result }
        ensures limit { IfOk result (λ n. n ≤ INT_SET_LIMIT) }
    {
        let at = self.at;
        let number = self.field(1)?[0];
        if number as usize > INT_SET_LIMIT {
            return Err(FileFault::OverLimit(at));
        }
        Ok(number)
    }

    /// The number of ranges of a set of ints.
    pub fn range_count(&mut self) -> Result<u16, FileFault>
        ensures value { Reads (λ n. n) (a_number Ranges) self.old self.new result }
        ensures limit { IfOk result (λ n. n ≤ RANGE_LIMIT) }
    {
        let at = self.at;
        let number = BigEndian::read_u16(self.field(2)?);
        if number as usize > RANGE_LIMIT {
            return Err(FileFault::OverLimit(at));
        }
        Ok(number)
    }

    /// The next range of ints.
    pub fn range(&mut self) -> Result<IntRange, FileFault>
        ensures { Reads (λ r. r) a_range self.old self.new result }
    {
        let at = self.at;
        match range_in(self.field(8)?) {
            Some(range) => Ok(range),
            None => Err(FileFault::BadOperand(at)),
        }
    }

    /// The number of instructions.
    pub fn instruction_count(&mut self) -> Result<u16, FileFault>
        ensures value { Reads (λ n. n) (a_number Instructions) self.old self.new result }
        ensures limit { IfOk result (λ n. n ≤ INSTRUCTION_LIMIT) }
    {
        let at = self.at;
        let number = BigEndian::read_u16(self.field(2)?);
        if number as usize > INSTRUCTION_LIMIT {
            return Err(FileFault::OverLimit(at));
        }
        Ok(number)
    }

    /// An operand that is a number of four bytes.
    fn word(&mut self) -> Result<u32, FileFault>
        ensures { Reads (λ n. n) (a_number WordOperand) self.old self.new result }
    {
        Ok(BigEndian::read_u32(self.field(4)?))
    }

    /// An operand that is a number of two bytes: how many instructions are skipped.
    fn skip(&mut self) -> Result<u16, FileFault>
        ensures { Reads (λ n. n) (a_number SkipOperand) self.old self.new result }
    {
        Ok(BigEndian::read_u16(self.field(2)?))
    }

    /// An operand that is the number of a local variable, of a set or of a set of ints.
    fn name(&mut self) -> Result<u8, FileFault>
        ensures { Reads (λ n. n) (a_number NameOperand) self.old self.new result }
    {
        Ok(self.field(1)?[0])
    }

    /// An operand that is a number of bits.
    fn bits(&mut self) -> Result<u8, FileFault>
        ensures value { Reads (λ n. n) (a_number BitsOperand) self.old self.new result }
        ensures limit { IfOk result (λ n. n ≤ ADDRESS_LENGTH) }
    {
        let at = self.at;
        match self.field(1)?[0] {
            bits if bits <= ADDRESS_LENGTH => Ok(bits),
            _ => Err(FileFault::BadOperand(at)),
        }
    }

    /// An operand that is a truth value.
    fn truth(&mut self) -> Result<bool, FileFault>
        ensures { Reads (λ b. b) a_truth self.old self.new result }
    {
        let at = self.at;
        match self.field(1)?[0] {
            0 => Ok(false),
            1 => Ok(true),
            _ => Err(FileFault::BadOperand(at)),
        }
    }

    /// An operand that is a prefix.
    fn prefix(&mut self) -> Result<Prefix, FileFault>
        ensures { Reads (λ p. p) a_prefix self.old self.new result }
    {
        let at = self.at;
        match prefix_in(self.field(5)?) {
            Some(prefix) => Ok(prefix),
            None => Err(FileFault::BadOperand(at)),
        }
    }

    /// The opcode of an instruction in a file of this version: the instruction that has it, with a blank operand.
    fn form(&mut self, version: Version) -> Result<Instr, FileFault>
        ensures { Reads (λ i. i) (a_form version) self.old self.new result }
    {
        let at = self.at;
        match form_with(version, self.field(1)?[0]) {
            Some(form) => Ok(form),
            None => Err(FileFault::UnknownOpcode(at)),
        }
    }

    /// The operand of an instruction: the instruction with it, in place of its own.
    fn operand(&mut self, form: Instr) -> Result<Instr, FileFault>
        ensures value { Reads (λ i. i) (an_operand form) self.old self.new result }
        ensures mask { IfOk result HasMask }
    {
        match form {
            Instr::Int(_) => Ok(Instr::Int(self.word()?)),
            Instr::Bool(_) => Ok(Instr::Bool(self.truth()?)),
            Instr::Ip(_) => Ok(Instr::Ip(Ip(self.word()?))),
            Instr::Prefix(_) => Ok(Instr::Prefix(self.prefix()?)),
            Instr::Load(_) => Ok(Instr::Load(self.name()?)),
            Instr::Store(_) => Ok(Instr::Store(self.name()?)),
            Instr::Mask(_) => Ok(Instr::Mask(self.bits()?)),
            Instr::Member(_) => Ok(Instr::Member(self.name()?)),
            Instr::InSet(_) => Ok(Instr::InSet(self.name()?)),
            Instr::Jump(_) => Ok(Instr::Jump(self.skip()?)),
            Instr::JumpIfNot(_) => Ok(Instr::JumpIfNot(self.skip()?)),
            _ => Ok(form),
        }
    }

    /// The next instruction of a file of this version: its opcode, and what is read after it.
    pub fn instruction(&mut self, version: Version) -> Result<Instr, FileFault>
        ensures value { Reads (λ i. i) (an_instruction version) self.old self.new result }
        ensures mask { IfOk result HasMask }
    {
        let form = self.form(version)?;
        self.operand(form)
    }
}

/// The instruction of a version with this opcode, with a blank operand. None if and only if there is none.
#[tactic(auto, unfolding(crate::specs::Fields::form_of))]
fn form_with(version: Version, opcode: u8) -> Option<Instr>
    ensures { result ≡ form_of version opcode }
{
    match opcode {
        0x01 => Some(Instr::Int(0)),
        0x02 => Some(Instr::Bool(false)),
        0x03 => Some(Instr::Ip(Ip(0))),
        0x04 => Some(Instr::Prefix(Prefix::new(Ip(0), 0)?)),
        0x10 => Some(Instr::Load(0)),
        0x11 => Some(Instr::Store(0)),
        0x12 => Some(Instr::Net),
        0x13 => Some(Instr::Metric),
        0x14 => Some(Instr::Received),
        0x15 => Some(Instr::SetMetric),
        0x20 => Some(Instr::Add),
        0x21 => Some(Instr::Sub),
        0x22 => Some(Instr::Mul),
        0x23 => Some(Instr::Div),
        0x24 => Some(Instr::Max),
        0x30 => Some(Instr::Eq),
        0x31 => Some(Instr::Lt),
        0x32 => Some(Instr::Le),
        0x33 => Some(Instr::Not),
        0x40 => Some(Instr::Addr),
        0x41 => Some(Instr::Len),
        0x42 => Some(Instr::Mask(0)),
        0x50 => Some(Instr::Within),
        0x51 => Some(Instr::Member(0)),
        0x52 if version.has_int_sets() => Some(Instr::InSet(0)),
        0x60 => Some(Instr::Jump(0)),
        0x61 => Some(Instr::JumpIfNot(0)),
        0x70 => Some(Instr::Accept),
        0x71 => Some(Instr::Reject),
        _ => None,
    }
}

/// The prefix of an address in four bytes and a length in one. None if a bit past the length is set or the length is
/// over 32.
fn prefix_in(field: &[u8]) -> Option<Prefix>
    requires { 5 ≤ length field.now }
    ensures good { MatchOption result (is_prefix field.now ≡ false) (λ _. is_prefix field.now ≡ true) }
    ensures value { MatchOption result (is_prefix field.now ≡ false) (λ prefix. prefix ≡ prefix_of field.now) }
{
    let address = Ip(BigEndian::read_u32(field));
    let prefix = Prefix::new(address, field[4])?;
    if prefix.address() == address {
        Some(prefix)
    } else {
        None
    }
}

/// The pattern of a prefix in five bytes and two lengths in one byte each.
fn pattern_in(field: &[u8]) -> Option<Pattern>
    requires { 7 ≤ length field.now }
    ensures good { MatchOption result (is_pattern field.now ≡ false) (λ _. is_pattern field.now ≡ true) }
    ensures value { MatchOption result (is_pattern field.now ≡ false) (λ pattern. pattern ≡ pattern_of field.now) }
{
    let prefix = prefix_in(field)?;
    Pattern::new(prefix, field[5], field[6])
}

/// The range from one number of four bytes to another. None if the first is above the last.
fn range_in(field: &[u8]) -> Option<IntRange>
    requires { 8 ≤ length field.now }
    ensures good { MatchOption result (is_range field.now ≡ false) (λ _. is_range field.now ≡ true) }
    ensures value { MatchOption result (is_range field.now ≡ false) (λ range. range ≡ range_of field.now) }
{
    IntRange::new(BigEndian::read_u32(field), BigEndian::read_u32(&field[4..]))
}
