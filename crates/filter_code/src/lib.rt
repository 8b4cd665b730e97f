//! Filter code: its instructions, and the machine that runs it on a route and checks each step.
//!
//! **`Stack` is public.** The verifier keeps its facts about operands on it. A run keeps its operands in an array, since a `Stack` writes its
//! length to memory at each operand.
#![tactic(auto)]

mod code;
mod instruction;
mod limits;
mod locals;
mod machine;
mod operands;
mod outcome;
mod route;
mod running;
mod stack;
mod tagged;
mod value;

pub use code::Code;
pub use instruction::Instr;
pub use int_sets::{IntRange, IntSet};
pub use limits::{
    INSTRUCTION_LIMIT, INT_SET_LIMIT, LARGEST_SIZE, LOCAL_LIMIT, SET_LIMIT, SMALLEST_SIZE,
    STACK_LIMIT,
};
pub use machine::{one_outcome, run_checked, run_counted};
pub use outcome::{Counted, FaultKind, Outcome};
pub use route::Route;
pub use running::Running;
pub use stack::Stack;
pub use value::{Kind, Value};
