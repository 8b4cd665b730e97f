//! What is told of a refusal.
ghost use Rattle.std.specs.Prelude.{◌≡◌, slice_get};
ghost use Rattle.filter_source.specs.Diagnoses as spec;

use crate::refusal::Refusal;
use filter_parser::Around;
use filter_verifier::{Range, VerifyFault};
use std::fmt;

/// Why a source is refused, and what is told of it besides: it is made once, where the refusal is found.
#[derive(Clone, Copy)]
pub struct Diagnosis {
    /// Why the source is refused.
    pub refusal: Refusal,
    /// The byte of a filter's text at which it is shown. A code file has none, and a limit of the whole filter has none.
    pub byte: Option<usize>,
    /// The range of the int that is refused: of a divisor that may be 0 (V3), or of a metric that may be too low (V6).
    pub range: Option<Range>,
    /// What stands round that byte in a text that spells no filter, or one whose names and kinds do not fit: the words for people are made
    /// of it.
    pub around: Around,
}

impl Diagnosis {
    /// That of a source which gives no code, by what stands round the place.
    pub fn of_source(refusal: Refusal, around: Around) -> Diagnosis
        ensures { result ≡ spec.of_source refusal around }
    {
        let byte = match refusal {
            Refusal::Parse(fault) => Some(fault.shown_at()),
            Refusal::Typing(fault) => Some(fault.at()),
            _ => None,
        };
        Diagnosis {
            refusal,
            byte,
            range: None,
            around,
        }
    }

    /// That of code whose instructions come from these places of a text.
    pub fn of_code(fault: VerifyFault, range: Option<Range>, places: &[usize]) -> Diagnosis
        ensures { result ≡ spec.of_code fault range places.now }
    {
        Diagnosis {
            refusal: Refusal::Verify(fault),
            byte: place_of(places, refused_instruction(fault)),
            range,
            around: Around::nothing(),
        }
    }
}

/// The words of the refusal, with the range of the int that is refused.
impl fmt::Display for Diagnosis {
    fn fmt<W: fmt::Write>(&self, f: &mut fmt::Formatter<W>) -> fmt::Result {
        write!(f, "{}", self.refusal)?;
        match self.range {
            Some(range) => write!(f, ": it is {}..{} here", range.low(), range.high()),
            None => Ok(()),
        }
    }
}

/// The same words.
impl fmt::Debug for Diagnosis {
    fn fmt<W: fmt::Write>(&self, f: &mut fmt::Formatter<W>) -> fmt::Result {
        write!(f, "{}", self)
    }
}

/// The instruction that the verifier refuses, if the fault is about one.
fn refused_instruction(fault: VerifyFault) -> Option<usize>
    ensures { result ≡ spec.refused_instruction fault }
{
    match fault {
        VerifyFault::BadSize | VerifyFault::Memory => None,
        _ => Some(fault.at()),
    }
}

/// The place of the instruction of an index, if there is one.
fn place_of(places: &[usize], at: Option<usize>) -> Option<usize>
    ensures { result ≡ spec.place_of places.now at }
{
    match at {
        Some(at) => place_at(places, at),
        None => None,
    }
}

/// The place of the instruction at an index.
pub fn place_at(places: &[usize], at: usize) -> Option<usize>
    ensures { result ≡ slice_get places.now at }
{
    places.get(at).copied()
}
