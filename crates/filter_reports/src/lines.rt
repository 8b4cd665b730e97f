//! Lines on a source, and the last of them: the bounds of its code, or why it is refused.
ghost use Rattle.std.specs.Prelude.{◌≡◌, ◌++◌, ◌∷◌, [], codes, IfOk, OnOk, Some};
ghost use Rattle.code_file.specs.Spelling.{IsCode};
ghost use Rattle.hex.specs.Hex.{encode_lower};
ghost use Rattle.filter_reports.specs.Check.{code_line, refusal_lines};
ghost use Rattle.filter_reports.specs.Checking.{EndsLines, EndsWith};
ghost use Rattle.filter_reports.specs.Steps.{lines_of};

use crate::refusal::FIRST_LINE;
use code_file::write_code;
use filter_code::Code;
use filter_source::{Diagnosis, push_bounds};
use filter_verifier::{RunBounds, Unverified};
use line_protocol::push_refusal;
use std::alloc::{AllocError, Global};

/// Lines on a source, and what is told of the refusal in the last of them, if there is one.
#[derive(Drop)]
pub struct Lines {
    /// The lines.
    pub text: Vec<u8>,
    /// Why the source is refused.
    pub diagnosis: Option<Diagnosis>,
}

/// The line that refuses a source.
pub(crate) fn refusal_lines(alloc: Global, diagnosis: Diagnosis) -> Result<Lines, AllocError>
    ensures text { IfOk result (λ lines. lines_of lines ≡ refusal_lines diagnosis.refusal) }
    ensures ends { IfOk result (λ lines. EndsWith lines.diagnosis lines.text.items) }
    ensures diagnosis { IfOk result (λ lines. lines.diagnosis ≡ Some diagnosis) }
{
    let mut text = Vec::new(alloc);
    push_refusal(
        &mut text,
        diagnosis.refusal.code(),
        diagnosis.refusal.place_in_line(FIRST_LINE),
    )?;
    Ok(Lines {
        text,
        diagnosis: Some(diagnosis),
    })
}

/// The line of a code file's bytes.
fn line_of_bytes(alloc: Global, bytes: &[u8]) -> Result<Vec<u8>, AllocError>
    ensures { IfOk result (λ text. text.items ≡ codes "code " ++ encode_lower bytes.now ++ 10 ∷ []) }
{
    let digits = hex::encode(alloc, bytes)?;
    let mut text = Vec::new(alloc);
    text.extend_from_slice(b"code ")?;
    text.extend_from_slice(digits.as_bytes())?;
    text.push(b'\n')?;
    Ok(text)
}

/// The line of a code: its file in hexadecimal.
pub(crate) fn line_of_code(alloc: Global, code: &Code) -> Result<Vec<u8>, AllocError>
    ensures line { IfOk result (λ text. text.items ≡ code_line code.now) }
    ensures readable { OnOk result (IsCode code.now) }
{
    match write_code(alloc, code) {
        Ok(bytes) => line_of_bytes(alloc, bytes.as_slice()),
        Err(_) => Err(AllocError),
    }
}

/// Ends the lines on code whose instructions come from these places: with its bounds, or with why it is refused.
pub(crate) fn end_lines(
    text: Vec<u8>,
    places: &[usize],
    verdict: Result<RunBounds, Unverified>,
) -> Result<Lines, AllocError>
    ensures { IfOk result (λ lines. EndsLines places.now verdict text.items lines.text.items lines.diagnosis) }
{
    let mut text = text;
    match verdict {
        Ok(bounds) => {
            push_bounds(&mut text, bounds)?;
            Ok(Lines {
                text,
                diagnosis: None,
            })
        }
        Err(Unverified { fault, range }) => {
            push_refusal(&mut text, fault.code(), fault.at() as u64)?;
            Ok(Lines {
                text,
                diagnosis: Some(Diagnosis::of_code(fault, range, places)),
            })
        }
    }
}
