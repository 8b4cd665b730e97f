//! Writing a whole file.

ghost use Rattle.std.specs.Prelude.{◌≡◌, ◌≤◌, ◌++◌, ◌∷◌, [], List, All, length, OnOk, IfOk, IfErr, IsErrOf, Err, ◌⊎◌, ◌↔◌, true, false};
ghost use Rattle.std.specs.List.{flat_map, list_any};
ghost use Rattle.prefix_patterns.specs.Bits.{address_length};
ghost use Rattle.code_file.specs.declared.version.Version.TheVariants.{One, Two};
ghost use Rattle.code_file.specs.Spelling.{bytes_of, prefix_bytes, pattern as pattern_field, set as set_fields, instruction};
ghost use Rattle.code_file.specs.Spelling.{range as range_field, int_set as int_set_fields, int_sets as int_set_list};
ghost use Rattle.code_file.specs.Spelling.{spelling, spelling_in, IsPattern, IsSet, IsInstruction, IsCode, IsCodeIn, IsFile};
ghost use Rattle.code_file.specs.Spelling.{IsRange, IsIntSet, AreIntSets};
ghost use Rattle.code_file.specs.Spelling as spec;
ghost use Rattle.code_file.specs.Fields as field;
ghost use Rattle.code_file.specs.Fault.{IsFault};
ghost use Rattle.code_file.specs.Reading.{file_of};
ghost use Rattle.filter_code.specs.CodeView.{CodeView, HasMask};

use crate::fault::FileFault;
use crate::reader::MARK;
use crate::reading::read_code;
use crate::version::Version;
use filter_code::{Code, INT_SET_LIMIT, Instr, IntRange, IntSet};
use prefix_patterns::{Ip, Pattern, PatternSet, Prefix};
use std::alloc::{AllocError, Global};

fn put_prefix(out: &mut Vec<u8>, prefix: Prefix) -> Result<(), AllocError>
    ensures written { OnOk result (out.new.items ≡ out.old.items ++ prefix_bytes prefix) }
    ensures fits { length prefix ≤ address_length }
{
    let len = prefix.len();
    out.extend_from_slice(&prefix.address().0.to_be_bytes())?;
    out.push(len)?;
    Ok(())
}

fn put_pattern(out: &mut Vec<u8>, pattern: &Pattern) -> Result<(), AllocError>
    ensures written { OnOk result (out.new.items ≡ out.old.items ++ bytes_of (pattern_field pattern.now ∷ [])) }
    ensures fits { OnOk result (IsPattern pattern.now) }
{
    put_prefix(out, pattern.prefix())?;
    out.push(pattern.low())?;
    out.push(pattern.high())?;
    Ok(())
}

fn put_instruction(out: &mut Vec<u8>, instr: &Instr) -> Result<(), AllocError>
    requires { HasMask instr.now }
    ensures written { OnOk result (out.new.items ≡ out.old.items ++ bytes_of (instruction Two instr.now)) }
    ensures fits { OnOk result (IsInstruction Two instr.now) }
{
    out.push(instr.opcode())?;
    match instr {
        Instr::Int(number) | Instr::Ip(Ip(number)) => {
            out.extend_from_slice(&number.to_be_bytes())?;
        }
        Instr::Bool(truth) => out.push(u8::from(*truth))?,
        Instr::Prefix(prefix) => put_prefix(out, *prefix)?,
        Instr::Load(byte)
        | Instr::Store(byte)
        | Instr::Mask(byte)
        | Instr::Member(byte)
        | Instr::InSet(byte) => out.push(*byte)?,
        Instr::Jump(skipped) | Instr::JumpIfNot(skipped) => {
            out.extend_from_slice(&skipped.to_be_bytes())?;
        }
        _ => {}
    }
    Ok(())
}

fn put_patterns(out: &mut Vec<u8>, patterns: &[Pattern]) -> Result<(), AllocError>
    ensures written { OnOk result (out.new.items ≡ out.old.items ++ flat_map (λ p. bytes_of (pattern_field p ∷ [])) patterns.now) }
    ensures fits { OnOk result (All IsPattern patterns.now) }
{
    for pattern in patterns {
        put_pattern(out, pattern)?;
    }
    Ok(())
}

fn put_set(out: &mut Vec<u8>, set: &PatternSet) -> Result<(), AllocError>
    ensures written { OnOk result (out.new.items ≡ out.old.items ++ bytes_of (set_fields set.now)) }
    ensures fits { OnOk result (IsSet set.now) }
{
    let patterns = set.patterns();
    out.extend_from_slice(&(patterns.len() as u16).to_be_bytes())?;
    put_patterns(out, patterns)?;
    Ok(())
}

fn put_sets(out: &mut Vec<u8>, sets: &[PatternSet]) -> Result<(), AllocError>
    ensures written { OnOk result (out.new.items ≡ out.old.items ++ flat_map (λ s. bytes_of (set_fields s)) sets.now) }
    ensures fits { OnOk result (All IsSet sets.now) }
{
    for set in sets {
        put_set(out, set)?;
    }
    Ok(())
}

fn put_range(out: &mut Vec<u8>, range: &IntRange) -> Result<(), AllocError>
    ensures written { OnOk result (out.new.items ≡ out.old.items ++ bytes_of (range_field range.now ∷ [])) }
    ensures fits { OnOk result (IsRange range.now) }
{
    out.extend_from_slice(&range.low().to_be_bytes())?;
    out.extend_from_slice(&range.high().to_be_bytes())?;
    Ok(())
}

fn put_ranges(out: &mut Vec<u8>, ranges: &[IntRange]) -> Result<(), AllocError>
    ensures written { OnOk result (out.new.items ≡ out.old.items ++ flat_map (λ r. bytes_of (range_field r ∷ [])) ranges.now) }
    ensures fits { OnOk result (All IsRange ranges.now) }
{
    for range in ranges {
        put_range(out, range)?;
    }
    Ok(())
}

fn put_int_set(out: &mut Vec<u8>, set: &IntSet) -> Result<(), AllocError>
    ensures written { OnOk result (out.new.items ≡ out.old.items ++ bytes_of (int_set_fields set.now)) }
    ensures fits { OnOk result (IsIntSet set.now) }
{
    let ranges = set.ranges();
    out.extend_from_slice(&(ranges.len() as u16).to_be_bytes())?;
    put_ranges(out, ranges)?;
    Ok(())
}

fn put_int_sets(out: &mut Vec<u8>, sets: &[IntSet]) -> Result<(), AllocError>
    ensures written { OnOk result (out.new.items ≡ out.old.items ++ flat_map (λ s. bytes_of (int_set_fields s)) sets.now) }
    ensures fits { OnOk result (All IsIntSet sets.now) }
{
    for set in sets {
        put_int_set(out, set)?;
    }
    Ok(())
}

/// The sets of ints, counted, in a version that has them. In another there are none.
fn put_version_int_sets(
    out: &mut Vec<u8>,
    version: Version,
    sets: &[IntSet],
) -> Result<(), AllocError>
    requires limit { length sets.now ≤ INT_SET_LIMIT }
    requires none { version ≡ One → length sets.now ≡ 0 }
    ensures written { OnOk result (out.new.items ≡ out.old.items ++ bytes_of (int_set_list version sets.now)) }
    ensures fits { OnOk result (AreIntSets version sets.now) }
{
    match version {
        Version::One => Ok(()),
        Version::Two => {
            out.push(sets.len() as u8)?;
            put_int_sets(out, sets)
        }
    }
}

fn put_instructions(out: &mut Vec<u8>, instrs: &[Instr]) -> Result<(), AllocError>
    requires { All HasMask instrs.now }
    ensures written { OnOk result (out.new.items ≡ out.old.items ++ flat_map (λ i. bytes_of (instruction Two i)) instrs.now) }
    ensures fits { OnOk result (All (IsInstruction Two) instrs.now) }
{
    for instr in instrs {
        put_instruction(out, instr)?;
    }
    Ok(())
}

/// Writes the file of a code, with the mark `NCF2`. It is the only such file. The fault can only be that memory was
/// refused.
pub fn write_code(alloc: Global, code: &Code) -> Result<Vec<u8>, FileFault>
    ensures written { IfOk result (λ bytes. bytes.items ≡ spelling code.now) }
    ensures readable { OnOk result (IsCode code.now) }
    ensures refused { IfErr result (λ fault. fault ≡ FileFault.Memory) }
{
    Ok(file_in(alloc, Version::Two, code)?)
}

/// Whether an instruction looks into a set of ints.
fn is_in_set(instr: &Instr) -> bool
    ensures { result ≡ field.is_in_set instr.now }
{
    matches!(instr, Instr::InSet(_))
}

/// Whether one of the instructions looks into a set of ints.
fn any_in_set(instrs: &[Instr]) -> bool
    ensures { result ≡ list_any field.is_in_set instrs.now }
{
    instrs.iter().any(|instr| is_in_set(instr))
}

/// Whether a code has a set of ints or an INSET.
fn needs_int_sets(code: &Code) -> bool
    ensures { result ≡ spec.needs_int_sets code.now }
{
    !code.int_sets().is_empty() || any_in_set(code.instrs())
}

/// Writes the file of a code with the mark `NCF1`. It is the only such file.
///
/// Refused with C8 if and only if the code has a set of ints or an INSET. Otherwise the fault can only be that memory was
/// refused.
pub fn write_old(alloc: Global, code: &Code) -> Result<Vec<u8>, FileFault>
    ensures written { IfOk result (λ bytes. bytes.items ≡ spelling_in One code.now) }
    ensures readable { OnOk result (IsCodeIn One code.now) }
    ensures old_form { IsErrOf result FileFault.OldForm ↔ (spec.needs_int_sets code.now ≡ true) }
    ensures refused { IfErr result (λ fault. (fault ≡ FileFault.OldForm) ⊎ (fault ≡ FileFault.Memory)) }
{
    if needs_int_sets(code) {
        return Err(FileFault::OldForm);
    }
    Ok(file_in(alloc, Version::One, code)?)
}

/// Writes a code file anew, with the mark `NCF2`: the file of the same code. Refused as in `read_code`.
pub fn rewrite(alloc: Global, bytes: &[u8]) -> Result<Vec<u8>, FileFault>
    ensures written { IfOk result (λ file. (code : CodeView) × IsFile bytes.now code × (file.items ≡ spelling code)) }
    ensures same { IfOk result (λ file. file_of file.items ≡ file_of bytes.now) }
    ensures refused { IfErr result (λ fault. (fault ≡ FileFault.Memory) ⊎ IsFault bytes.now fault) }
    ensures exact { IfErr result (λ fault. (fault ≡ FileFault.Memory) ⊎ (file_of bytes.now ≡ Err fault)) }
{
    let code = read_code(alloc, bytes)?;
    write_code(alloc, &code)
}

/// The file of a code in a version.
fn file_in(alloc: Global, version: Version, code: &Code) -> Result<Vec<u8>, AllocError>
    requires { version ≡ One → spec.needs_int_sets code.now ≡ false }
    ensures written { IfOk result (λ bytes. bytes.items ≡ spelling_in version code.now) }
    ensures fits { OnOk result (IsCodeIn version code.now) }
{
    let sets = code.sets();
    let instrs = code.instrs();
    let mut out = Vec::new(alloc);
    out.extend_from_slice(&MARK)?;
    out.push(version.byte())?;
    out.push(code.locals())?;
    out.push(sets.len() as u8)?;
    put_sets(&mut out, sets)?;
    put_version_int_sets(&mut out, version, code.int_sets())?;
    out.extend_from_slice(&(instrs.len() as u16).to_be_bytes())?;
    put_instructions(&mut out, instrs)?;
    Ok(out)
}
