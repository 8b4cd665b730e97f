//! Why a source is refused.
ghost use Rattle.std.specs.Prelude.{◌≡◌};

use code_file::FileFault;
use filter_compiler::CompileFault;
use filter_parser::ParseFault;
use filter_types::TypeFault;
use filter_verifier::VerifyFault;
use thiserror::Error;

/// Why a source gives no verified code: the fault of the step that refused it.
///
/// No function of this crate answers a fault that only refused memory causes: that is `Failure::Memory`.
#[derive(Clone, Copy, Debug, Error)]
pub enum Refusal {
    /// O7: the source is longer than its limit.
    #[error("the source is longer than 1048576 bytes")]
    TooLong,
    /// O3: the digits of a code file are not hexadecimal.
    #[error("expected pairs of hexadecimal digits")]
    Hexadecimal,
    /// C1 to C6: the bytes are no code file; C8: its code has no file in the older form.
    #[error(transparent)]
    File(FileFault),
    /// P1 to P10: the text spells no filter.
    #[error(transparent)]
    Parse(ParseFault),
    /// Y1 to Y5, Y7: the filter's names and kinds, or its labels, do not fit.
    #[error(transparent)]
    Typing(TypeFault),
    /// G1 or G2: the filter's code would be over a limit.
    #[error(transparent)]
    Compile(CompileFault),
    /// V1 to V9: it is not known that the code never goes wrong.
    #[error(transparent)]
    Verify(VerifyFault),
}

impl Refusal {
    ghost use Rattle.filter_source.specs.Refusals.{refusal_code, refusal_place, place_in_line};

    /// The code and the place, of which `code` and `at` are the halves.
    fn code_and_place(self) -> (&'static str, usize)
        ensures code { result.0.now ≡ refusal_code self }
        ensures place { result.1 ≡ refusal_place self }
    {
        match self {
            Refusal::TooLong => ("O7", 0),
            Refusal::Hexadecimal => ("O3", 0),
            Refusal::File(fault) => (fault.code(), fault.at()),
            Refusal::Parse(fault) => (fault.code(), fault.at()),
            Refusal::Typing(fault) => (fault.code(), fault.at()),
            Refusal::Compile(fault) => (fault.code(), fault.at()),
            Refusal::Verify(fault) => (fault.code(), fault.at()),
        }
    }

    /// The code that names the refusal in an answer, as `P2`.
    pub fn code(self) -> &'static str
        ensures { result.now ≡ refusal_code self }
    {
        self.code_and_place().0
    }

    /// The place within the source: a byte of the text or of the code file, or an instruction; 0 where there is none.
    pub fn at(self) -> usize
        ensures { result ≡ refusal_place self }
    {
        self.code_and_place().1
    }

    /// The place that an answer to a line names: the line's number for an O code, and otherwise the place within the source.
    pub fn place_in_line(self, line: u32) -> u64
        ensures { result ≡ place_in_line self line }
    {
        match self {
            Refusal::TooLong | Refusal::Hexadecimal => u64::from(line),
            _ => self.at() as u64,
        }
    }
}
