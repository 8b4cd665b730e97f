//! The codes of the warnings of `lint`.
use crate::page::Page;

/// A page for each code.
pub static LINT_PAGES: [Page; 9] = [
    Page {
        code: "W1",
        text: "\
W1: a condition comes out the same way on every route that comes to it
Place: the `if`; the `&&` or `||`, whose condition is what is left of it; the label of a `case`

    $ echo 'filter f { if net.len < 33 && rip_metric > 3 then reject; accept; }' | ncroute lint --size 16
    <stdin>:1:28: what is left of `&&` is true on every route that comes here (W1)

Take the condition out, or correct it: here no prefix is longer than 32 bits. All routes of a domain of this
size were tried, or what is true of classes of them, so there is no route of which it is not so.
",
    },
    Page {
        code: "W2",
        text: "\
W2: no route reaches a command
Place: the command; for an assignment the name that is assigned

    $ echo 'filter f { if net.len > 24 then reject; else accept; rip_metric = 3; }' | ncroute lint --size 16
    <stdin>:1:54: no route reaches this command (W2)

Take the command out, or move it before what ends the filter. Of commands that follow one another and are all
not reached the first alone is named.
",
    },
    Page {
        code: "W3",
        text: "\
W3: arithmetic may wrap
Place: the operator

    $ echo 'filter f { if net.len - 24 > 4 then reject; accept; }' | ncroute lint --size 16
    <stdin>:1:23: 0..32 - 24 may wrap below 0 (W3)

Ints are those of 32 bits, and the difference of 0 and 24 is 4294967272. Compare before you subtract, as in
`net.len > 28`. It is a hint: the ranges are those that `ncroute list --size` shows, whatever the conditions
before the operation.
",
    },
    Page {
        code: "W4",
        text: "\
W4: a pattern of a set is covered by another one of the set, or two ranges of ints share a number
Place: the `[` of the set

    $ echo 'filter f { if net ~ [10.0.0.0/8+, 10.1.0.0/16+] then reject; accept; }' | ncroute lint --size 16
    <stdin>:1:21: 10.1.0.0/16+ is covered by 10.0.0.0/8+ of the same set (W4)

Take the covered pattern out: each prefix that matches it matches the other one.

    $ echo 'filter f { if net.len ~ [ 8..24, 16 ] then reject; accept; }' | ncroute lint --size 16
    <stdin>:1:25: 16 overlaps 8..24 of the same set (W4)

Take the numbers out that another range has. BIRD looks a number up in a tree of the ranges, and does not find
each one where they overlap: here it misses 24.
",
    },
    Page {
        code: "W5",
        text: "\
W5: a prefix is written with bits past its length
Place: its first byte

    $ echo 'filter f { if net ~ [ 10.1.2.3/8+ ] then reject; accept; }' | ncroute lint --size 16
    <stdin>:1:23: 10.1.2.3/8 is read as 10.0.0.0/8 (W5)

Correct the length, or write the first address of the prefix: the bits past the length are not kept, and BIRD
refuses them. A `/8` that was meant as `/32` matches 16 million addresses more.
",
    },
    Page {
        code: "W6",
        text: "\
W6: a variable is never read
Place: its name in the declaration

    $ echo 'filter f { int x; x = 3; accept; }' | ncroute lint --size 16
    <stdin>:1:16: this variable is never read (W6)

Take the variable and its assignments out, or use its value.
",
    },
    Page {
        code: "W7",
        text: "\
W7: a metric is set that means unreachable
Place: the name that is assigned

    $ echo 'filter f { rip_metric = 16; accept; }' | ncroute lint --size 16
    <stdin>:1:12: the metric is set to 16, which means unreachable (W7)

In a domain of 16 nodes the metric 16 means unreachable, and so does what is above it. Use `reject` where no
route is to be accepted, or a smaller number. It is a hint, by the ranges that `ncroute list --size` shows.
",
    },
    Page {
        code: "W8",
        text: "\
W8: an assignment would lower the metric, and cannot
Place: the name that is assigned

    $ echo 'filter f { rip_metric = 3; accept; }' | ncroute lint --size 16
    <stdin>:1:12: a filter cannot lower the metric: on some route that comes here the value is below the one received (W8)

On a route that came with metric 5 the metric stays 5, where BIRD would make it 3. Ask first, as in
`if rip_metric < 3 then rip_metric = 3;`, or reject what came with more. All routes of a domain of this size
were tried, so there is such a route.
",
    },
    Page {
        code: "W9",
        text: "\
W9: the order of metrics is not kept
Place: the filter's first command

    $ echo 'filter f { if rip_metric = 1 then reject; accept; }' | ncroute lint --order --size 16
    <stdin>:1:15: the order of metrics is not kept: of 0.0.0.0/0 metric 1 is rejected, and 2 becomes 2 (W9)

A lesser metric comes to more than a greater one, where a rejection counts as the most. With such a filter a new
link, over which a route gets shorter, may cut others off, and make loops on the way there. Write tests of metrics
so that what is nearer is never treated worse, as `if rip_metric > 7 then reject;`. It is said only where `--order`
asks for it: the search compares each metric with the next one, and may take long.
",
    },
];
