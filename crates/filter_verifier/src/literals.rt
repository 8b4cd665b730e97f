//! The literals of instructions.
//!
//! **Verification reads each literal of the code once more.** That the number of an INT is below 2^32, and that a PREFIX has at most 32 bits, is
//! known of the values themselves, but a contract sees only the code. A loop that changes nothing tells the proof.

ghost use Rattle.std.specs.Prelude.{All};
ghost use Rattle.filter_verifier.specs.Safe.{HasLiteral};

use filter_code::Instr;
use filter_steps::word_of_ip;

/// Reads the literal of an instruction, so that the proof learns that it is within the limits of its kind.
fn read_literal(instr: &Instr)
    ensures { HasLiteral instr.now }
{
    match instr {
        Instr::Int(number) => {
            let _number = *number;
        }
        Instr::Ip(ip) => {
            let _word = word_of_ip(*ip);
        }
        Instr::Prefix(prefix) => {
            let _bits = prefix.len();
        }
        _ => {}
    }
}

/// Reads the literal of each instruction.
pub(crate) fn read_literals(instrs: &[Instr])
    ensures { All HasLiteral instrs.now }
{
    for instr in instrs {
        read_literal(instr);
    }
}
