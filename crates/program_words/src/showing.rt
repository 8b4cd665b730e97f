//! What is shown in place of what the words ask for: help, or what is wrong with them.
ghost use Rattle.std.specs.Prelude.{◌≡◌, ◌≢◌, ◌⊎◌, IfErr, IfOk};
ghost use Rattle.clap.specs.Words.{kind_of};
ghost use Rattle.program_words.specs.Showing.{status_of};

use crate::negative::negative_number;
use clap::Error;
use clap::error::ErrorKind;
use line_protocol::StreamFault;
use std::convert::AsStr;

/// The exit status of a run whose words were wrong.
pub const WRONG_WORDS: u8 = 2;

/// Shows what is wrong with these words, or help, and returns the exit status. A negative number behind an option is for the parser of words an
/// option that it does not know; people are told what is wrong with the number, where the option is one of these, which take a number.
pub fn show_wrong<R: Print + Eprint, S: AsStr>(
    rt: &R,
    words: &[S],
    numbered: &[&str],
    error: &Error,
) -> Result<u8, StreamFault>
    ensures shown { IfOk result (λ status. (kind_of error.now ≢ ErrorKind.OutOfMemory) × (status ≡ status_of (kind_of error.now))) }
    ensures fails { IfErr result (λ fault. (fault ≡ StreamFault.Memory)
        ⊎ ((fault ≡ StreamFault.Write) × (kind_of error.now ≢ ErrorKind.OutOfMemory) × (status_of (kind_of error.now) ≡ 0))) }
{
    if error.kind() == ErrorKind::UnknownArgument {
        if let Some((option, number)) = negative_number(words, numbered) {
            let _ = eprintln!(rt;
                "error: invalid value '{number}' for '{option}': a number is at least 0"
            );
            return Ok(WRONG_WORDS);
        }
    }
    show(rt, error)
}

/// Shows what the parser of words answered in place of matches, and returns the exit status: help on standard output, or what is wrong with the
/// words on standard error. Wrong words have their status also where standard error takes no text.
pub fn show<R: Print + Eprint>(rt: &R, error: &Error) -> Result<u8, StreamFault>
    ensures shown { IfOk result (λ status. (kind_of error.now ≢ ErrorKind.OutOfMemory) × (status ≡ status_of (kind_of error.now))) }
    ensures fails { IfErr result (λ fault. (fault ≡ StreamFault.Memory)
        ⊎ ((fault ≡ StreamFault.Write) × (kind_of error.now ≢ ErrorKind.OutOfMemory) × (status_of (kind_of error.now) ≡ 0))) }
{
    if error.kind() == ErrorKind::OutOfMemory {
        return Err(StreamFault::Memory);
    }
    let printed = error.print(rt);
    if error.use_stderr() {
        return Ok(WRONG_WORDS);
    }
    printed.map_err(|_| StreamFault::Write)?;
    Ok(0)
}

/// Tells people that standard input is waited for by a program. Where standard error takes no text, they are not told.
pub fn tell_that_input_is_read<R: Eprint>(rt: &R, program: &str) {
    let _ = eprintln!(rt; "{program}: reading standard input, which Ctrl-D ends");
}
