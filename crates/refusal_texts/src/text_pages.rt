//! The codes of a filter's text.
use crate::page::Page;

/// A page for each code.
pub static TEXT_PAGES: [Page; 21] = [
    Page {
        code: "P1",
        text: "\
P1: no token begins with this byte; `0x` without a hexadecimal digit
Place: the byte; the `0`

    $ echo 'filter q { $ }' | ncroute check --size 16
    refused P1 11

Take the byte out. Bytes outside ASCII may stand only in comments and in quoted texts.
",
    },
    Page {
        code: "P2",
        text: "\
P2: an unexpected token
Place: its first byte

    $ echo 'filter q { accept }' | ncroute check --size 16
    refused P2 18

Most often a `;` is missing before the place, or the word before it is misspelt: `acept;` is refused at
the `;`, since `acept` could be a variable. `--explain always` says what was expected, and shows the word.

Words of other languages, and what stands for them here:

    net in [ .. ]              net ~ [ .. ]
    net ~ 10.0.0.0/8+          net ~ [ 10.0.0.0/8+ ]: a pattern stands in a set
    [ 10.0.0.0/8 le 24 ]       [ 10.0.0.0/8{8,24} ]
    default: reject;           else: reject;
    rip_metric += 1;           rip_metric = rip_metric + 1;
    net.len => 24              net.len >= 24
    then a; b; else c;         then { a; b; } else c;
    filter cust-a { .. }       filter cust_a { .. }
",
    },
    Page {
        code: "P3",
        text: "\
P3: a number over 4,294,967,295
Place: its first byte

    $ echo 'filter q { rip_metric = 4294967296; }' | ncroute check --size 16
    refused P3 24

Write a number of 32 bits. No metric is over 250.
",
    },
    Page {
        code: "P4",
        text: "\
P4: an address with a group over 255, a prefix with a length over 32
    an argument of `mask` over 32
    a pattern whose lengths are out of order or over 32
    a range whose first int is the greater one
Place: its first byte; the number's first byte; its `{`; its first byte

    $ echo 'filter q { if net ~ [1.0.0.0/33] then ; }' | ncroute check --size 16
    refused P4 21

Correct the group or the length. In `{low,high}` the lengths are 0 to 32, the lower one first, and so are the
numbers of a range: `4..6`.
",
    },
    Page {
        code: "P5",
        text: "\
P5: the 33rd block, parenthesis, `!`, `if` or `case` inside one another
Place: the token that opens it

    $ printf 'filter q { rip_metric = %s' \"$(printf '(%.0s' $(seq 33))\" | ncroute check --size 16
    refused P5 56

Take parentheses or blocks out, or keep an inner part in a variable.
",
    },
    Page {
        code: "P6",
        text: "\
P6: `&&` in a chain of `||`, or `||` in a chain of `&&`
Place: that operator

    $ echo 'filter m { if true && false || true then accept; }' | ncroute check --size 16
    refused P6 28

Add parentheses: `(true && false) || true`.
",
    },
    Page {
        code: "P7",
        text: "\
P7: more than 65,536 bytes
Place: 65,536

    $ head -c 65537 /dev/zero | tr '\\0' ' ' | ncroute check --size 16
    refused P7 65536

Shorten the text, or split the filter in two.
",
    },
    Page {
        code: "P8",
        text: "\
P8: a name over 64 bytes
Place: its first byte

    $ printf 'filter %s { }' $(printf 'a%.0s' $(seq 65)) | ncroute check --size 16
    refused P8 7

Choose a shorter name.
",
    },
    Page {
        code: "P9",
        text: "\
P9: a comment that is not closed, a quoted text that is not closed on its line
    the text ends before the filter does
Place: its first byte; the text's length

    $ printf 'filter q {' | ncroute check --size 16
    refused P9 10

Close the comment, the text or the block. Empty input is no filter either.
",
    },
    Page {
        code: "P10",
        text: "\
P10: something that is left out by name
Place: its first byte

    $ echo 'filter q { print \"x\"; }' | ncroute check --size 16
    refused P10 11

The word belongs to a part of BIRD's language that is not read here. In place of `define` or `set` write the
value or the set where it is used; of `function`, its commands where it is called; of `print`, nothing. A
variable is an int, a bool, an ip or a prefix, and a route has only `net` and `rip_metric`. `--explain always`
names the word.
",
    },
    Page {
        code: "P11",
        text: "\
P11: memory was refused (`ncroute` answers E3 instead)
Place: none, shown as 0

Give the process more memory. `ncroute` answers E3 in its place.
",
    },
    Page {
        code: "Y1",
        text: "\
Y1: a name that is not declared
Place: its first byte

    $ echo 'filter q { b = 1; }' | ncroute check --size 16
    refused Y1 11

Declare the variable before the first command, or correct the name. The attributes are `net` and `rip_metric`.
A name that BIRD has from a `define` is put in its place by `ncimport`.
",
    },
    Page {
        code: "Y2",
        text: "\
Y2: a name that is declared again
Place: the second declaration's name

    $ echo 'filter q { int a; int a; }' | ncroute check --size 16
    refused Y2 22

Leave one of the declarations out, or rename a variable.
",
    },
    Page {
        code: "Y3",
        text: "\
Y3: an operand of the wrong kind
Place: its first byte

    $ echo 'filter q { if rip_metric then accept; }' | ncroute check --size 16
    refused Y3 14

Compare the number with something, as in `rip_metric > 3`. `--explain always` says which kind is expected.
",
    },
    Page {
        code: "Y4",
        text: "\
Y4: an assignment to `net`, whatever its right side
Place: `net`

    $ echo 'filter q { net = 1; }' | ncroute check --size 16
    refused Y4 11

A filter can set `rip_metric` and variables only.
",
    },
    Page {
        code: "Y5",
        text: "\
Y5: a seventeenth variable; if its name is an earlier one's, it is Y2
Place: its name

    $ printf 'filter q { %s }' \"$(printf 'int v%s; ' $(seq 17))\" | ncroute check --size 16
    refused Y5 150

Use one variable for several values, one after the other.
",
    },
    Page {
        code: "Y6",
        text: "\
Y6: memory was refused (`ncroute` answers E3 instead)
Place: none, shown as 0

Give the process more memory. `ncroute` answers E3 in its place.
",
    },
    Page {
        code: "Y7",
        text: "\
Y7: a label that shares a number with an earlier label of the same `case`
Place: the later label's first byte

    $ echo 'filter q { case rip_metric { 1..3: accept; 3: reject; } }' | ncroute check --size 16
    refused Y7 43

Take the number out of one of the labels. Ranges of one label may overlap.
",
    },
    Page {
        code: "G1",
        text: "\
G1: the code would have more than 1,024 instructions
Place: none, shown as 0

    $ printf 'filter q { rip_metric = %s1; }' \"$(printf '1+%.0s' $(seq 600))\" | ncroute check --size 16
    refused G1 0

Shorten the filter. A set of many patterns is one instruction, a chain of comparisons is many.
",
    },
    Page {
        code: "G2",
        text: "\
G2: more than 64 sets of patterns, or more than 1,024 patterns in one set
    more than 64 sets of ints, or more than 1,024 ranges in one set; a label of a `case` is such a set
Place: none, shown as 0

    $ printf 'filter q { %s }' \"$(printf 'if net ~ [1.0.0.0/8] then ;%.0s' $(seq 65))\" | ncroute check --size 16
    refused G2 0

Join sets, or cover several prefixes by one pattern, as `10.0.0.0/8{16,24}`, and several numbers by one range, as
`8..24`. A list of more patterns can be two sets: `net ~ [ .. ] || net ~ [ .. ]`.
",
    },
    Page {
        code: "G3",
        text: "\
G3: memory was refused (`ncroute` answers E3 instead)
Place: none, shown as 0

Give the process more memory. `ncroute` answers E3 in its place.
",
    },
];
