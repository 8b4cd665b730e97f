//! Reading a whole file.

ghost use Rattle.std.specs.Prelude.{◌≡◌, ◌≤◌, ◌⊎◌, length, All, Ok, Err, IfOk, IfErr, MatchResult};
ghost use Rattle.filter_code.specs.CodeView.{CodeView, HasMask};
ghost use Rattle.code_file.specs.Fields.FieldKind.{Sets, IntSets, Instructions};
ghost use Rattle.code_file.specs.Spelling.{IsFile};
ghost use Rattle.code_file.specs.Fault.{IsFault};
ghost use Rattle.code_file.specs.Reading.{a_pattern, a_set, a_range, an_int_set, the_int_sets, an_instruction, a_code};
ghost use Rattle.code_file.specs.Reading.{a_count_of, times, file_of, ReadsInto};

use crate::fault::FileFault;
use crate::reader::Reader;
use crate::version::Version;
use filter_code::{Code, INSTRUCTION_LIMIT, INT_SET_LIMIT, Instr, IntRange, IntSet, SET_LIMIT};
use prefix_patterns::{PATTERN_LIMIT, Pattern, PatternSet};
use std::alloc::Global;

/// The next patterns, so many as `count`.
fn patterns(alloc: Global, reader: &mut Reader<'_>, count: u16) -> Result<Vec<Pattern>, FileFault>
    ensures value { ReadsInto (λ v. v.items) (times count a_pattern) reader.old reader.new result }
    ensures count { IfOk result (λ v. length v.items ≡ count) }
{
    let mut patterns = Vec::with_capacity(alloc, (count as usize).min(reader.left()))?;
    for _ in 0..count {
        let pattern = reader.pattern()?;
        patterns.push(pattern)?;
    }
    Ok(patterns)
}

/// The next set.
fn set(alloc: Global, reader: &mut Reader<'_>) -> Result<PatternSet, FileFault>
    ensures { ReadsInto (λ set. set) a_set reader.old reader.new result }
{
    let count = reader.pattern_count()?;
    let patterns = patterns(alloc, reader, count)?;
    match PatternSet::build(alloc, &patterns) {
        Ok(set) => Ok(set),
        Err(_) => Err(FileFault::Memory),
    }
}

/// So many sets.
fn sets(alloc: Global, reader: &mut Reader<'_>, count: u8) -> Result<Vec<PatternSet>, FileFault>
    ensures value { ReadsInto (λ v. v.items) (times count a_set) reader.old reader.new result }
    ensures count { IfOk result (λ v. length v.items ≡ count) }
{
    let mut sets = Vec::with_capacity(alloc, (count as usize).min(reader.left()))?;
    for _ in 0..count {
        let set = set(alloc, reader)?;
        sets.push(set)?;
    }
    Ok(sets)
}

/// The next ranges of ints, so many as `count`.
fn ranges(alloc: Global, reader: &mut Reader<'_>, count: u16) -> Result<Vec<IntRange>, FileFault>
    ensures value { ReadsInto (λ v. v.items) (times count a_range) reader.old reader.new result }
    ensures count { IfOk result (λ v. length v.items ≡ count) }
{
    let mut ranges = Vec::with_capacity(alloc, (count as usize).min(reader.left()))?;
    for _ in 0..count {
        let range = reader.range()?;
        ranges.push(range)?;
    }
    Ok(ranges)
}

/// The next set of ints.
fn int_set(alloc: Global, reader: &mut Reader<'_>) -> Result<IntSet, FileFault>
    ensures { ReadsInto (λ set. set) an_int_set reader.old reader.new result }
{
    let count = reader.range_count()?;
    let ranges = ranges(alloc, reader, count)?;
    match IntSet::build(alloc, &ranges) {
        Ok(set) => Ok(set),
        Err(_) => Err(FileFault::Memory),
    }
}

/// So many sets of ints.
fn int_sets(alloc: Global, reader: &mut Reader<'_>, count: u8) -> Result<Vec<IntSet>, FileFault>
    ensures value { ReadsInto (λ v. v.items) (times count an_int_set) reader.old reader.new result }
    ensures count { IfOk result (λ v. length v.items ≡ count) }
{
    let mut sets = Vec::with_capacity(alloc, (count as usize).min(reader.left()))?;
    for _ in 0..count {
        let set = int_set(alloc, reader)?;
        sets.push(set)?;
    }
    Ok(sets)
}

/// So many instructions.
fn instructions(
    alloc: Global,
    reader: &mut Reader<'_>,
    version: Version,
    count: u16,
) -> Result<Vec<Instr>, FileFault>
    ensures value { ReadsInto (λ v. v.items) (times count (an_instruction version)) reader.old reader.new result }
    ensures count { IfOk result (λ v. length v.items ≡ count) }
    ensures masks { IfOk result (λ v. All HasMask v.items) }
{
    let mut instrs = Vec::with_capacity(alloc, (count as usize).min(reader.left()))?;
    for _ in 0..count {
        let instr = reader.instruction(version)?;
        instrs.push(instr)?;
    }
    Ok(instrs)
}

/// The code of a whole file.
fn code_of(alloc: Global, bytes: &[u8]) -> Result<Code, FileFault>
    ensures { MatchResult result (λ code. file_of bytes.now ≡ Ok code)
        (λ fault. (fault ≡ FileFault.Memory) ⊎ (file_of bytes.now ≡ Err fault)) }
{
    let mut reader = Reader::new(bytes);
    let version = reader.mark()?;
    let code = code_in(alloc, &mut reader, version)?;
    if reader.left() > 0 {
        return Err(FileFault::BytesAfterEnd(reader.at()));
    }
    Ok(code)
}

/// What follows the mark of a version.
fn code_in(alloc: Global, reader: &mut Reader<'_>, version: Version) -> Result<Code, FileFault>
    ensures { ReadsInto (λ code. code) (a_code version) reader.old reader.new result }
{
    let locals = reader.locals()?;
    let sets = counted_sets(alloc, reader)?;
    let int_sets = version_int_sets(alloc, reader, version)?;
    let instrs = counted_instructions(alloc, reader, version)?;
    Ok(Code::new(locals, sets, int_sets, instrs).unwrap())
}

/// The number of sets, and these.
fn counted_sets(alloc: Global, reader: &mut Reader<'_>) -> Result<Vec<PatternSet>, FileFault>
    ensures value { ReadsInto (λ v. v.items) (a_count_of Sets a_set) reader.old reader.new result }
    ensures limit { IfOk result (λ v. length v.items ≤ SET_LIMIT) }
{
    let count = reader.set_count()?;
    sets(alloc, reader, count)
}

/// The number of sets of ints, and these.
fn counted_int_sets(alloc: Global, reader: &mut Reader<'_>) -> Result<Vec<IntSet>, FileFault>
    ensures value { ReadsInto (λ v. v.items) (a_count_of IntSets an_int_set) reader.old reader.new result }
    ensures limit { IfOk result (λ v. length v.items ≤ INT_SET_LIMIT) }
{
    let count = reader.int_set_count()?;
    int_sets(alloc, reader, count)
}

/// The sets of ints of a version.
fn version_int_sets(
    alloc: Global,
    reader: &mut Reader<'_>,
    version: Version,
) -> Result<Vec<IntSet>, FileFault>
    ensures value { ReadsInto (λ v. v.items) (the_int_sets version) reader.old reader.new result }
    ensures limit { IfOk result (λ v. length v.items ≤ INT_SET_LIMIT) }
{
    match version {
        Version::One => Ok(Vec::new(alloc)),
        Version::Two => counted_int_sets(alloc, reader),
    }
}

/// The number of instructions, and these.
fn counted_instructions(
    alloc: Global,
    reader: &mut Reader<'_>,
    version: Version,
) -> Result<Vec<Instr>, FileFault>
    ensures value { ReadsInto (λ v. v.items) (a_count_of Instructions (an_instruction version)) reader.old reader.new result }
    ensures limit { IfOk result (λ v. length v.items ≤ INSTRUCTION_LIMIT) }
    ensures masks { IfOk result (λ v. All HasMask v.items) }
{
    let count = reader.instruction_count()?;
    instructions(alloc, reader, version, count)
}

/// Reads a code file: all the bytes, and nothing after them.
///
/// Otherwise the first fault, or that memory was refused, which may come before a fault is found.
pub fn read_code(alloc: Global, bytes: &[u8]) -> Result<Code, FileFault>
    // What is read is the code whose file the bytes are.
    ensures found { IfOk result (IsFile bytes.now) }
    // The file of a code is read as that code, unless memory is refused.
    ensures only { (code : CodeView) → IsFile bytes.now code →
        MatchResult result (λ read. read ≡ code) (λ fault. fault ≡ FileFault.Memory) }
    // The fault that is answered is that of the bytes, unless memory was refused.
    ensures refused { IfErr result (λ fault. (fault ≡ FileFault.Memory) ⊎ IsFault bytes.now fault) }
    // Code and fault as a function of the bytes.
    ensures exact { MatchResult result (λ code. file_of bytes.now ≡ Ok code)
        (λ fault. (fault ≡ FileFault.Memory) ⊎ (file_of bytes.now ≡ Err fault)) }
{
    code_of(alloc, bytes)
}
