//! How a source is checked: a filter's text, or a code file, becomes code, and the verifier judges the code.
//!
//! **A source is parsed once and its code swept once**, whatever is said of it: the lines of `check` and the warnings of `lint` follow from one survey.
ghost use Rattle.std.specs.Prelude.{◌≡◌, ℕ, Bool, List, IfErr, IfOk, IfSome, OnOk};
ghost use Rattle.code_file.specs.Spelling.{IsCode};
ghost use Rattle.filter_source.specs.Diagnoses.{TellsOfSource};
ghost use Rattle.filter_source.specs.Failures.{OnDiagnosis, OnRefusal};
ghost use Rattle.filter_reports.specs.Check.{GivesCode, IsRefused, code_line, without_white_end};
ghost use Rattle.filter_reports.specs.Checking.{ArePlaces, AreTokens, Checks, ChecksOff, EndsLines, IsChecked, IsSurvey, judged};
ghost use Rattle.filter_reports.specs.Faults.{stream_fault};
ghost use Rattle.filter_tokens.specs.Tokenization.{is_space};

use crate::fault::ProgramFault;
use crate::lines::{Lines, end_lines, line_of_code, refusal_lines};
use filter_code::Code;
use filter_source::{
    CompiledSource, Diagnosis, Failure, SOURCE_LIMIT, check_length, compile_text_mapped,
    read_hexadecimal,
};
use filter_tokens::Token;
use filter_verifier::{Survey, survey_code};
use line_protocol::{read_input, write_text};
use std::alloc::{AllocError, Global};
use std::io::{Read, Write};

/// A text without the spaces, tabs, carriage returns and line feeds at its end.
fn trim_white_end(text: &[u8]) -> &[u8]
    ensures { result.now ≡ without_white_end text.now }
{
    let mut end = text.len();
    while end > 0 && matches!(text[end - 1], b' ' | b'\t' | b'\r' | b'\n') {
        end -= 1;
    }
    &text[..end]
}

/// The code that an input gives, the translation of a filter's text or what a code file in hexadecimal has, and for each instruction
/// the place in the text that it comes from, and the text's tokens. A code file has neither.
pub fn code_of(alloc: Global, input: &[u8], is_code: bool) -> Result<CompiledSource, Failure>
    ensures code { IfOk result (λ compiled. GivesCode is_code input.now compiled.code) }
    ensures places { IfOk result (λ compiled. ArePlaces is_code input.now compiled.places.items) }
    ensures tokens { IfOk result (λ compiled. AreTokens is_code input.now compiled.tokens.items) }
    ensures refused { IfErr result (OnRefusal (IsRefused is_code input.now)) }
    ensures diagnosis { IfErr result (OnDiagnosis (TellsOfSource is_code input.now)) }
{
    check_length(input)?;
    if is_code {
        let code = read_hexadecimal(alloc, trim_white_end(input))?;
        return Ok(CompiledSource {
            code,
            places: Vec::new(alloc),
            tokens: Vec::new(alloc),
        });
    }
    compile_text_mapped(alloc, input)
}

/// The code of a source, and what the verifier knows of it.
#[derive(Drop)]
pub struct SurveyedSource {
    /// The code.
    pub code: Code,
    /// For each instruction of the code, in order, the place in the text of the part that it translates. A code file has none.
    pub places: Vec<usize>,
    /// The tokens that cut the text. A code file has none.
    pub tokens: Vec<Token>,
    /// What the verifier knows of the code.
    pub survey: Survey,
}

/// The code of a source, and what the verifier knows of it in domains of a size.
fn survey_source(
    alloc: Global,
    source: &[u8],
    size: u32,
    is_code: bool,
) -> Result<SurveyedSource, Failure>
    ensures surveyed { IfOk result (IsSurvey size is_code source.now) }
    ensures refused { IfErr result (OnRefusal (IsRefused is_code source.now)) }
    ensures diagnosis { IfErr result (OnDiagnosis (TellsOfSource is_code source.now)) }
{
    let CompiledSource {
        code,
        places,
        tokens,
    } = code_of(alloc, source, is_code)?;
    match survey_code(alloc, &code, size) {
        Ok(survey) => Ok(SurveyedSource {
            code,
            places,
            tokens,
            survey,
        }),
        Err(_) => Err(Failure::Memory),
    }
}

/// What comes of a source that is checked.
#[derive(Drop)]
pub struct Checked {
    /// The lines of the report on it.
    pub lines: Vec<u8>,
    /// Its code, which is verified; or why it is refused.
    pub verdict: Result<SurveyedSource, Diagnosis>,
}

/// The code of a source, unless this says why it is refused.
fn judged(surveyed: SurveyedSource, why: Option<Diagnosis>) -> Result<SurveyedSource, Diagnosis>
    ensures { result ≡ judged surveyed why }
{
    match why {
        Some(why) => Err(why),
        None => Ok(surveyed),
    }
}

/// The lines on the code of a source, and why it is refused, if it is.
fn lines_on(alloc: Global, surveyed: &SurveyedSource) -> Result<Lines, AllocError>
    ensures lines { IfOk result (λ lines. EndsLines surveyed.now.places.items surveyed.now.survey.verdict (code_line surveyed.now.code)
        lines.text.items lines.diagnosis) }
    ensures readable { OnOk result (IsCode surveyed.now.code) }
{
    let line = line_of_code(alloc, &surveyed.code)?;
    let lines = end_lines(line, surveyed.places.as_slice(), surveyed.survey.verdict)?;
    Ok(lines)
}

/// What comes of a source whose code was surveyed for domains of a size.
fn check_surveyed(alloc: Global, surveyed: SurveyedSource) -> Result<Checked, AllocError>
    ensures { (size : ℕ) (is_code : Bool) (source : List ℕ) → IsSurvey size is_code source surveyed
        → IfOk result (IsChecked size is_code source) }
{
    let lines = lines_on(alloc, &surveyed)?;
    Ok(Checked {
        lines: lines.text,
        verdict: judged(surveyed, lines.diagnosis),
    })
}

/// What comes of a source that has no code.
fn check_refused(alloc: Global, diagnosis: &Diagnosis) -> Result<Checked, AllocError>
    ensures { (size : ℕ) (is_code : Bool) (source : List ℕ) → IsRefused is_code source diagnosis.now.refusal
        → TellsOfSource is_code source diagnosis.now → IfOk result (IsChecked size is_code source) }
{
    let lines = refusal_lines(alloc, *diagnosis)?;
    Ok(Checked {
        lines: lines.text,
        verdict: Err(*diagnosis),
    })
}

/// Checks a filter's text, or a code file in hexadecimal where `is_code` says so, for domains of `size` nodes.
pub fn check_source(
    alloc: Global,
    source: &[u8],
    size: u32,
    is_code: bool,
) -> Result<Checked, AllocError>
    ensures { IfOk result (IsChecked size is_code source.now) }
{
    match survey_source(alloc, source, size, is_code) {
        Ok(surveyed) => check_surveyed(alloc, surveyed),
        Err(Failure::Refused(diagnosis)) => check_refused(alloc, &diagnosis),
        Err(Failure::Memory) => Err(AllocError),
    }
}

/// Reads a filter's text, or a code file in hexadecimal where `is_code` says so, checks it for domains of `size` nodes, and writes the lines of the report
/// on it. Returns how many of them refuse it: none or one.
pub fn check_text<R: Read, W: Write>(
    alloc: Global,
    reader: &mut R,
    writer: &mut W,
    size: u32,
    is_code: bool,
) -> Result<u32, ProgramFault>
    ensures finished { IfOk result (λ refused. IfSome (R.remaining reader.old) (λ input.
        Checks size is_code input (R.remaining reader.new) (W.contents writer.old) (W.contents writer.new) refused)) }
    ensures broken_off { IfErr result (λ fault. IfSome (R.remaining reader.old) (λ input.
        ChecksOff (stream_fault fault) size is_code input (R.remaining reader.new) (W.contents writer.old) (W.contents writer.new))) }
{
    let input = read_input(alloc, reader, SOURCE_LIMIT)?;
    let checked = check_source(alloc, input.as_slice(), size, is_code)?;
    write_text(writer, checked.lines.as_slice())?;
    match checked.verdict {
        Ok(_) => Ok(0),
        Err(_) => Ok(1),
    }
}
