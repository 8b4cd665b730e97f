//! A filter's text, or a code file, becomes code, and code is verified.
ghost use Rattle.std.specs.Prelude.{◌≡◌, ◌<◌, ◌≤◌, ◌↔◌, [], Ok, Err, Some, None, false, IfOk, IfErr, MatchResult, OnOk, length};
ghost use Rattle.code_file.specs.Spelling.{IsCodeIn, spelling_in};
ghost use Rattle.filter_syntax.specs.Surroundings.{nothing};
ghost use Rattle.filter_syntax.specs.SyntaxText.{FilterView};
ghost use Rattle.filter_tokens.specs.Tokenization.{IsTokenization};
ghost use Rattle.filter_verifier.specs.FirstFault.{is_size, the_fault};
ghost use Rattle.filter_verifier.specs.Safe.{IsSafe};
ghost use Rattle.filter_verifier.specs.declared.fault.VerifyFault.TheVariants as fault;
ghost use Rattle.filter_source.specs.Diagnoses.{TellsOfCode, TellsOfFile, TellsOfText, of_source};
ghost use Rattle.filter_source.specs.Failures.{OnDiagnosis, OnRefusal, of_verify, refusal_of};
ghost use Rattle.filter_source.specs.Limits.{source_limit};
ghost use Rattle.filter_source.specs.Sources as spec;
ghost use Rattle.filter_source.specs.TextPlaces.{ArePlacesOf};
ghost use Rattle.filter_source.specs.declared.failure.Failure.TheVariants as failure;
ghost use Rattle.filter_source.specs.declared.refusal.Refusal.TheVariants as refusal;

use crate::diagnosis::Diagnosis;
use crate::failure::Failure;
use crate::refusal::Refusal;
use code_file::{read_code, write_code, write_old};
use filter_code::Code;
use filter_compiler::{MappedCode, compile_mapped};
use filter_parser::parse_explained;
use filter_tokens::Token;
use filter_types::check_explained;
use filter_verifier::{Range, Unverified, Verified, VerifyFault, verify_or_tell};
use std::alloc::Global;

/// A source of more bytes than this is refused.
pub const SOURCE_LIMIT: usize = 1_048_576;

/// The code of a source, and what is known of its text.
#[derive(Drop)]
pub struct CompiledSource {
    /// The code.
    pub code: Code,
    /// For each instruction of the code, in order, the place in the text of the part that it translates. A code file has none.
    pub places: Vec<usize>,
    /// The tokens that cut the text. A code file has none.
    pub tokens: Vec<Token>,
}

/// Refuses a source that is longer than its limit.
pub fn check_length(source: &[u8]) -> Result<(), Failure>
    ensures ok { OnOk result (length source.now ≤ source_limit) }
    ensures long { IfErr result (λ e. (e ≡ failure.Refused (of_source refusal.TooLong nothing)) × (source_limit < length source.now)) }
{
    if source.len() > SOURCE_LIMIT {
        return Err(Failure::from(Refusal::TooLong));
    }
    Ok(())
}

/// The code of the filter that a text spells, for each instruction the place in the text of the part that it translates, and the tokens: the
/// text is parsed, its names and kinds are checked, and the filter is compiled.
pub fn compile_text_mapped(alloc: Global, text: &[u8]) -> Result<CompiledSource, Failure>
    ensures code { IfOk result (λ compiled. (filter : FilterView) × spec.Translates text.now filter compiled.code) }
    ensures places { IfOk result (λ compiled. ArePlacesOf text.now compiled.places.items) }
    ensures tokens { IfOk result (λ compiled. IsTokenization compiled.tokens.items 0 text.now) }
    ensures refused { IfErr result (OnRefusal (spec.IsRefusedText text.now)) }
    ensures diagnosis { IfErr result (OnDiagnosis (TellsOfText text.now)) }
{
    let filter = parse_explained(alloc, text)?;
    let typed = check_explained(alloc, filter)?;
    let MappedCode { code, places } = compile_mapped(alloc, &typed)?;
    let filter = typed.into_filter();
    Ok(CompiledSource {
        code,
        places,
        tokens: filter.into_tokens(),
    })
}

/// The code of the filter that a text spells.
pub fn compile_text(alloc: Global, text: &[u8]) -> Result<Code, Failure>
    ensures code { IfOk result (λ code. (filter : FilterView) × spec.Translates text.now filter code) }
    ensures refused { IfErr result (OnRefusal (spec.IsRefusedText text.now)) }
    ensures diagnosis { IfErr result (OnDiagnosis (TellsOfText text.now)) }
{
    let compiled = compile_text_mapped(alloc, text)?;
    Ok(compiled.code)
}

/// The code of a code file.
pub fn read_file(alloc: Global, bytes: &[u8]) -> Result<Code, Failure>
    ensures code { MatchResult result (λ code. spec.code_in_file bytes.now ≡ Ok code)
        (OnRefusal (λ why. spec.code_in_file bytes.now ≡ Err why)) }
    ensures diagnosis { IfErr result (OnDiagnosis TellsOfFile) }
{
    Ok(read_code(alloc, bytes)?)
}

/// The file of a code in the newer form, or in the older one. In the older form a code without sets of ints has a file.
pub fn write_file(alloc: Global, code: &Code, is_old: bool) -> Result<Vec<u8>, Failure>
    ensures written { IfOk result (λ bytes. IsCodeIn (spec.version_for is_old) code.now
        × (bytes.items ≡ spelling_in (spec.version_for is_old) code.now)) }
    ensures refused { IfErr result (OnRefusal (spec.IsUnwritten is_old code.now)) }
    ensures diagnosis { IfErr result (OnDiagnosis TellsOfFile) }
{
    if is_old {
        Ok(write_old(alloc, code)?)
    } else {
        Ok(write_code(alloc, code)?)
    }
}

/// The code of a code file in hexadecimal, in letters of either case.
pub fn read_hexadecimal(alloc: Global, digits: &[u8]) -> Result<Code, Failure>
    ensures code { MatchResult result (λ code. spec.code_in_hexadecimal digits.now ≡ Ok code)
        (OnRefusal (λ why. spec.code_in_hexadecimal digits.now ≡ Err why)) }
    ensures diagnosis { IfErr result (OnDiagnosis TellsOfFile) }
{
    let bytes = hex::decode(alloc, digits)?;
    read_file(alloc, bytes.as_slice())
}

/// The failure of code that is refused, or whose verification memory was refused for.
fn failure_of(fault: VerifyFault, range: Option<Range>, places: &[usize]) -> Failure
    ensures { result ≡ of_verify fault range places.now }
{
    match fault {
        VerifyFault::Memory => Failure::Memory,
        _ => Failure::Refused(Diagnosis::of_code(fault, range, places)),
    }
}

/// Verifies code whose instructions come from these places of a text, for domains of a size, 2 to 250 nodes. Code that is refused
/// is dropped.
pub fn verify_mapped(
    alloc: Global,
    code: Code,
    places: &[usize],
    size: u32,
) -> Result<Verified, Failure>
    ensures verified { IfOk result (λ v. (v ≡ record { program = code; size = size }) × (the_fault code size ≡ None)) }
    ensures safe { OnOk result (IsSafe code size) }
    ensures refused { IfErr result (OnRefusal (spec.IsUnsafe code size)) }
    ensures diagnosis { IfErr result (OnDiagnosis (TellsOfCode code places.now size)) }
    ensures bad_size { IfErr result (λ e. (refusal_of e ≡ Some (refusal.Verify fault.BadSize)) ↔ (is_size size ≡ false)) }
{
    match verify_or_tell(alloc, code, size) {
        Ok(verified) => Ok(verified),
        Err(Unverified { fault, range }) => Err(failure_of(fault, range, places)),
    }
}

/// Verifies code of which no text is known, for domains of a size, 2 to 250 nodes. Code that is refused is dropped; `verify` hands
/// it back.
pub fn verify_code(alloc: Global, code: Code, size: u32) -> Result<Verified, Failure>
    ensures verified { IfOk result (λ v. (v ≡ record { program = code; size = size }) × (the_fault code size ≡ None)) }
    ensures safe { OnOk result (IsSafe code size) }
    ensures refused { IfErr result (OnRefusal (spec.IsUnsafe code size)) }
    ensures diagnosis { IfErr result (OnDiagnosis (TellsOfCode code [] size)) }
    ensures bad_size { IfErr result (λ e. (refusal_of e ≡ Some (refusal.Verify fault.BadSize)) ↔ (is_size size ≡ false)) }
{
    verify_mapped(alloc, code, &[], size)
}
