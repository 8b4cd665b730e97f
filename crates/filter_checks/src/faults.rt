//! How it is told that a text is no test file.
ghost use Rattle.std.specs.Prelude.{◌≡◌, ◌++◌, IfOk, OnOk};
ghost use Rattle.filter_checks.specs.Faults as spec;

use crate::test_file::TestFileFault;
use line_protocol::push_decimal;
use refusal_words::push_shown;
use std::alloc::{AllocError, Global};

impl TestFileFault {
    /// The code and the place, of which `code` and `at` are the halves.
    fn code_and_place(self) -> (&'static str, usize)
        ensures code { result.0.now ≡ spec.fault_code self }
        ensures place { result.1 ≡ spec.fault_line self }
    {
        match self {
            TestFileFault::Line(at) => ("O1", at),
            TestFileFault::Ended | TestFileFault::NoTest | TestFileFault::Name => ("O1", 0),
            TestFileFault::TooLong => ("O7", 1),
            TestFileFault::Memory => ("E3", 0),
        }
    }

    /// The code that names the fault.
    pub fn code(self) -> &'static str
        ensures { result.now ≡ spec.fault_code self }
    {
        self.code_and_place().0
    }

    /// The number of the line that it names: 0 for what is lacking at the end.
    pub fn at(self) -> usize
        ensures { result ≡ spec.fault_line self }
    {
        self.code_and_place().1
    }
}

/// What is said of a line that a test file has not there.
#[tactic(auto, unfolding(crate::specs::Faults::line_words))]
fn line_words() -> &'static [u8]
    ensures { result.now ≡ spec.line_words }
{
    b": this line is none of `filter FILE`, `size N`, `PREFIX METRIC -> VERDICT` and `every PATTERN -> VERDICT`, or a number in it is out of range (O1)"
}

/// Puts what is wrong at the end of `out`, in words.
fn push_words(out: &mut Vec<u8>, why: TestFileFault) -> Result<(), AllocError>
    ensures { OnOk result (out.new.items ≡ out.old.items ++ spec.fault_words why) }
{
    match why {
        TestFileFault::Line(at) => {
            out.extend_from_slice(b":")?;
            push_decimal(out, at as u64)?;
            out.extend_from_slice(line_words())
        }
        TestFileFault::Ended => {
            out.extend_from_slice(b": it ends before its `filter FILE` and `size N` (O1)")
        }
        TestFileFault::NoTest => out.extend_from_slice(b": it has no test (O1)"),
        TestFileFault::Name => {
            out.extend_from_slice(b": the name of its filter is not UTF-8 (O1)")
        }
        TestFileFault::TooLong => out.extend_from_slice(b": longer than 1048576 bytes (O7)"),
        TestFileFault::Memory => out.extend_from_slice(b": out of memory (E3)"),
    }
}

/// Puts the refusal of a test file at the end of `out`, or what is wrong in words.
fn push_tail(out: &mut Vec<u8>, is_explained: bool, why: TestFileFault) -> Result<(), AllocError>
    ensures { OnOk result (out.new.items ≡ out.old.items ++ spec.fault_tail is_explained why) }
{
    if is_explained {
        return push_words(out, why);
    }
    out.extend_from_slice(b": refused ")?;
    out.extend_from_slice(why.code().as_bytes())?;
    out.extend_from_slice(b" ")?;
    push_decimal(out, why.at() as u64)
}

/// The line that tells why the text of a file of this name is no test file: in words where `is_explained` says so.
pub(crate) fn fault_text(
    alloc: Global,
    is_explained: bool,
    name: &[u8],
    why: TestFileFault,
) -> Result<Vec<u8>, AllocError>
    ensures { IfOk result (λ out. out.items ≡ spec.fault_text is_explained name.now why) }
{
    let mut out = Vec::new(alloc);
    push_shown(alloc, &mut out, name)?;
    push_tail(&mut out, is_explained, why)?;
    out.push(b'\n')?;
    Ok(out)
}
