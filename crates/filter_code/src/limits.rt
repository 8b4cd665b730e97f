/// The greatest number of local variables of a code.
pub const LOCAL_LIMIT: usize = 16;

/// The greatest number of sets of patterns of a code.
pub const SET_LIMIT: usize = 64;

/// The greatest number of sets of ints of a code.
pub const INT_SET_LIMIT: usize = 64;

/// The greatest number of instructions of a code.
pub const INSTRUCTION_LIMIT: usize = 1024;

/// The greatest number of values on the stack.
pub const STACK_LIMIT: usize = 32;

/// The least number of nodes of a domain.
pub const SMALLEST_SIZE: u32 = 2;

/// The greatest number of nodes of a domain.
pub const LARGEST_SIZE: u32 = 250;
