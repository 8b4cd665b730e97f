//! The codes of code and its runs.
use crate::page::Page;

/// A page for each code.
pub static CODE_PAGES: [Page; 25] = [
    Page {
        code: "V1",
        text: "\
V1: too few operands
Place: the instruction

    $ echo 4e43463200000000022070 | ncroute check --size 16 --code | tail -n 1
    refused V1 0

Only code that was written by hand has this fault. `ncroute list` shows what is known before each instruction.
",
    },
    Page {
        code: "V2",
        text: "\
V2: an instruction where paths meet whose stacks differ in kind at some place
    an operand of the wrong kind, or LOAD of a local variable that may be empty
Place: the instruction

    $ echo 4e434632000000000302011570 | ncroute check --size 16 --code | tail -n 1
    refused V2 1

Only code that was written by hand has this fault. `ncroute list` shows what is known before each instruction.
",
    },
    Page {
        code: "V3",
        text: "\
V3: a divisor whose low is 0
Place: the instruction DIV

    $ echo 'filter q { rip_metric = 100 / rip_metric; accept; }' | ncroute check --size 16 | tail -n 1
    refused V3 2

Write a divisor whose range does not contain 0, as `100 / (rip_metric + 1)`. A guard does not help, since
conditions are not followed. `ncroute list --size N` shows the range.
",
    },
    Page {
        code: "V4",
        text: "\
V4: an instruction with a successor outside the code; code without instructions, at 0
Place: the instruction

    $ echo 4e434632000000000113 | ncroute check --size 16 --code | tail -n 1
    refused V4 0

End each path with ACCEPT or REJECT. The code of a filter does.
",
    },
    Page {
        code: "V5",
        text: "\
V5: a push if the stack may already hold 32 operands
Place: the instruction that pushes

    $ printf 'filter q { rip_metric = %s1%s; }' \"$(printf '1+(%.0s' $(seq 32))\" \"$(printf ')%.0s' $(seq 32))\" | ncroute check --size 16 | tail -n 1
    refused V5 32

Parentheses to the right hold an operand for each level. Assign an inner part to a variable first.
",
    },
    Page {
        code: "V6",
        text: "\
V6: SETMETRIC of an int that may be lower than the metric received
Place: the instruction

    $ echo 4e434632000000000301000000001570 | ncroute check --size 16 --code | tail -n 1
    refused V6 1

Take MAX of RECEIVED and the number before SETMETRIC. The code of a filter does.
",
    },
    Page {
        code: "V7",
        text: "\
V7: a local variable, a set of patterns or a set of ints that the code does not have
Place: the instruction

    $ echo 4e4346320000000002100070 | ncroute check --size 16 --code | tail -n 1
    refused V7 0

Only code that was written by hand has this fault. `ncroute list` shows what is known before each instruction.
",
    },
    Page {
        code: "V8",
        text: "\
V8: a size that is not 2 to 250; this comes before all else, at place 0
Place: 0

    $ echo 'filter q { accept; }' | ncroute check --size 251 | tail -n 1
    refused V8 0

Give the number of nodes of the routing domain, 2 to 250, to `--size`.
",
    },
    Page {
        code: "V9",
        text: "\
V9: an instruction where paths meet whose stacks differ in depth
Place: the instruction

    $ echo 4e434632000000000402016100011370 | ncroute check --size 16 --code | tail -n 1
    refused V9 3

Only code that was written by hand has this fault. `ncroute list` shows what is known before each instruction.
",
    },
    Page {
        code: "V10",
        text: "\
V10: (not a test) memory was refused to the verifier; nothing is said of the code
Place: none, shown as 0

Give the process more memory. `ncroute` answers E3 in its place.
",
    },
    Page {
        code: "K1",
        text: "\
K1: the stack holds too few operands
Place: the instruction

    $ printf '%s\\n' 4e43463200000000022070 '10.0.0.0/8 3 8' | ncroute eval
    fault K1 0

Run verified code only: `ncroute check --size N --code` refuses this one.
",
    },
    Page {
        code: "K2",
        text: "\
K2: an operand has the wrong kind, or LOAD names an empty local variable
Place: the instruction

    $ printf '%s\\n' 4e434632000000000302011570 '10.0.0.0/8 3 8' | ncroute eval
    fault K2 1

Run verified code only: `ncroute check --size N --code` refuses this one.
",
    },
    Page {
        code: "K3",
        text: "\
K3: a divisor is zero
Place: the instruction

    $ printf '%s\\n' 4e4346320000000004010000000101000000002370 '10.0.0.0/8 3 8' | ncroute eval
    fault K3 2

Run verified code only: `ncroute check --size N --code` refuses this one.
Verified code has it too, where the route's size is another than the one it was verified for.
",
    },
    Page {
        code: "K4",
        text: "\
K4: the place is not an instruction of the code
Place: the instruction

    $ printf '%s\\n' 4e4346320000000001600007 '10.0.0.0/8 3 8' | ncroute eval
    fault K4 8

Run verified code only: `ncroute check --size N --code` refuses this one.
",
    },
    Page {
        code: "K5",
        text: "\
K5: the stack would hold more than 32 operands
Place: the instruction

    $ printf '%s\\n' 4e43463100000022$(printf '13%.0s' $(seq 33))70 '10.0.0.0/8 3 8' | ncroute eval
    fault K5 32

Run verified code only: `ncroute check --size N --code` refuses this one.
",
    },
    Page {
        code: "K6",
        text: "\
K6: SETMETRIC of an operand smaller than the metric that was received
Place: the instruction

    $ printf '%s\\n' 4e4346320000000005130100000002211570 '10.0.0.0/8 3 8' | ncroute eval
    fault K6 3

Run verified code only: `ncroute check --size N --code` refuses this one.
",
    },
    Page {
        code: "K7",
        text: "\
K7: the instruction names a local variable, a set of patterns or a set of ints that the code does not have
Place: the instruction

    $ printf '%s\\n' 4e4346320000000002100070 '10.0.0.0/8 3 8' | ncroute eval
    fault K7 0

Run verified code only: `ncroute check --size N --code` refuses this one.
",
    },
    Page {
        code: "C1",
        text: "\
C1: a byte of the mark is wrong
Place: that byte

    $ echo 4e434633 | ncroute check --size 16 --code
    refused C1 3

A code file begins with 4e434632, or with 4e434631 if it is of the older form. Give the whole line that `ncroute check` wrote, without the word `code`.
",
    },
    Page {
        code: "C2",
        text: "\
C2: the file ends before a field is complete
Place: the length of the file

    $ echo 4e43463100000001 | ncroute check --size 16 --code
    refused C2 8

The line was cut. Give the whole line that `ncroute check` wrote, without the word `code`.
",
    },
    Page {
        code: "C3",
        text: "\
C3: unknown opcode; in a file of the older form, INSET
Place: the opcode

    $ echo 4e4346310000000172 | ncroute check --size 16 --code
    refused C3 8

`man ncroute-machine` (docs/MACHINE.md) has the opcodes. Give the whole line that `ncroute check` wrote, without the word `code`.
",
    },
    Page {
        code: "C4",
        text: "\
C4: invalid operand, pattern or range
Place: its first byte

    $ echo 4e4346320000000002020270 | ncroute check --size 16 --code
    refused C4 10

`man ncroute-code-file` (docs/CODE_FILE.md) says which operands are valid. Give the whole line that `ncroute check` wrote, without the word `code`.
",
    },
    Page {
        code: "C5",
        text: "\
C5: a number over its limit
Place: the number's first byte

    $ echo 4e434632110000000170 | ncroute check --size 16 --code
    refused C5 4

There are at most 16 local variables, 64 sets of patterns, 1,024 patterns in one, 64 sets of ints, 1,024 ranges in
one, and 1,024 instructions.
",
    },
    Page {
        code: "C6",
        text: "\
C6: bytes after the end
Place: the first of them

    $ echo 4e434631000000017000 | ncroute check --size 16 --code
    refused C6 9

Take the bytes away, or correct the number of instructions. Give the whole line that `ncroute check` wrote, without the word `code`.
",
    },
    Page {
        code: "C7",
        text: "\
C7: memory was refused (`ncroute` answers E3 instead)
Place: none, shown as 0

Give the process more memory. `ncroute` answers E3 in its place.
",
    },
    Page {
        code: "C8",
        text: "\
C8: the code has a set of ints or an INSET, and an `NCF1` file is asked for (comes before C7)
Place: none, shown as 0

    $ echo 4e4346320000010001000000020000000200051352006100017071 | ncroute rewrite --old
    refused C8 0

Keep the file as it is: only programs that read NCF1 alone need the older form.
",
    },
];
