//! The codes of input, output and the router.
use crate::page::Page;

/// A page for each code.
pub static RUN_PAGES: [Page; 38] = [
    Page {
        code: "O1",
        text: "\
O1: the command is unknown, has the wrong number of words, or its NAME is no name
Place: the number of the line

    $ printf '%s\\n' 'jump' | ncroute run
    refused O1 1

`ncroute run --help` has the commands. A line of `eval` is a prefix, a metric and a size.
`ncroute test --help` has the lines of a test file.
",
    },
    Page {
        code: "O2",
        text: "\
O2: a number is not digits, is over its limit, or is out of the command's range: N is not 2 to 250, ME is not below N, LIMIT is 0, V of `prefix` is not below N, or W of `told` is not up
Place: the number of the line

    $ printf '%s\\n' 'network 251 0' | ncroute run
    refused O2 1

Correct the number. A metric is at most the domain's size. `neighbours` lists the nodes that are up.
",
    },
    Page {
        code: "O3",
        text: "\
O3: HEX is not hexadecimal, or has an odd number of digits
    with `--code`: not hexadecimal, or an odd number of digits
Place: the number of the line

    $ echo 'code 4e434632000000000170' | ncroute check --size 16 --code
    refused O3 1

Give the digits alone, without the word `code` before them.
",
    },
    Page {
        code: "O4",
        text: "\
O4: there is no network yet
Place: the number of the line

    $ printf '%s\\n' 'up 1' | ncroute run
    refused O4 1

Begin the script with `network N ME`.
",
    },
    Page {
        code: "O5",
        text: "\
O5: there is a network already; or a `prefix` after the first event
Place: the number of the line

    $ printf '%s\\n' 'network 4 0' 'network 4 0' | ncroute run
    ok
    refused O5 2

A script has one `network`. Put each `prefix` before the first event. `ncroute router` takes neither: it has `--size`, `--node` and `--prefix`.
",
    },
    Page {
        code: "O6",
        text: "\
O6: no filter has this NAME
Place: the number of the line

    $ printf '%s\\n' 'network 4 0' 'import 1 Z' | ncroute run
    ok
    refused O6 2

Name the filter first, by `load`, by `code` or by the option `--filter`. A filter that is refused does not get the name.
",
    },
    Page {
        code: "O7",
        text: "\
O7: the line is longer than 1,048,576 bytes
    the input has more than 1,048,576 bytes
Place: the number of the line; 1

    $ head -c 1048577 /dev/zero | ncroute check --size 16
    refused O7 1

No filter, code file or route is that long: look at what is given as the input.
",
    },
    Page {
        code: "O8",
        text: "\
O8: PREFIX is not a prefix
Place: the number of the line

    $ printf '%s\\n' 4e434632000000000170 '10.0.0.0/33 3 8' | ncroute eval
    refused O8 2

A prefix is four numbers up to 255 joined by dots, `/` and a length up to 32.
",
    },
    Page {
        code: "O9",
        text: "\
O9: only a link brings a node up, and down where it has one
Place: the number of the line

    $ echo 'up 1' | ncroute router --size 4 --node 0 --link 1=/dev/null,/dev/null 2>/dev/null
    refused O9 1

Leave it to `--link`. `neighbours` lists the nodes that are up.
",
    },
    Page {
        code: "O10",
        text: "\
O10: the entry at FROM is forgotten
Place: the first position whose entry is not

    $ { yes 'show 0' | head -n 2000; sleep 1; echo 'history 0'; } | ncroute router --size 4 --node 0 --limit 2048 2>/dev/null | tail -n 1
    refused O10 1024

A router keeps the last entries alone in memory. Ask from that position on; or start the router with `--save FOLDER`, which then has them all.
",
    },
    Page {
        code: "O11",
        text: "\
O11: the operator may look alone
Place: the number of the line

    $ mkfifo in out; ncroute router --size 4 --node 0 --stay --control in,out,look < /dev/null 2> /dev/null & sleep 0.2; echo quit > in; head -n 1 out; kill $!
    refused O11 1

A control with `look` answers `routes`, `neighbours`, `told`, `history` and `status`. Say the rest at standard input, or at a control without it.
",
    },
    Page {
        code: "O12",
        text: "\
O12: a file is not taken
Place: the number of the line; what is wrong stands behind it

    $ mkfifo to from; ncroute router --size 4 --node 0 --stay --control to,from < /dev/null 2> /dev/null & sleep 0.2; echo 'read near no.filter' > to; head -n 1 from; kill $!
    refused O12 1 no.filter: No such file or directory (E1)

`read` and `reload` change nothing then. Where `reload` says `needs a restart`, a running router cannot take what follows.
",
    },
    Page {
        code: "O13",
        text: "\
O13: a reload was broken off
Place: the number of the line; what was set stands behind it

The router refused to set a filter, as where its history has no room at the moment. Say `reload` again: it sets what is not in force yet.
",
    },
    Page {
        code: "E1",
        text: "\
E1: the input could not be read

    $ ncroute eval < . 2>&1
    ncroute: E1

See that the file exists, is no folder and may be read.
",
    },
    Page {
        code: "E2",
        text: "\
E2: the output could not be written

    $ echo 4e4 | ncroute eval 2>&1 >/dev/full
    ncroute: E2

See that the disk has room, and that what reads the pipe still runs. `run --save` and `import --out` make new
files, and `router --save` a new folder: a name that is there already is E2, too.
",
    },
    Page {
        code: "E3",
        text: "\
E3: there was not enough memory

Give the process more memory.
",
    },
    Page {
        code: "E4",
        text: "\
E4: the input is longer than the command's limit

`eval`, `run` and `domain` take 16,777,216 bytes, about a million routes of 16 bytes;
`filter` takes 4,000,000,000 bytes of routes.

    $ (echo 4e434632000000000170; head -c 17000000 /dev/zero | tr '\\0' '\\n') | ncroute eval 2>&1
    ncroute: E4

Cut the routes of `eval` or `filter`, and give each part to a run of its own, of `eval` with the same first line. A script cannot be cut so, since each run begins anew.
",
    },
    Page {
        code: "N1",
        text: "\
N1: the node is the router itself, or not in the domain
Place: the event's place in the history

    $ printf '%s\\n' 'network 4 0' 'up 0' | ncroute run
    ok
    refused N1 0

Name another node below N.
",
    },
    Page {
        code: "N2",
        text: "\
N2: the node is an up neighbour already
Place: the event's place in the history

    $ printf '%s\\n' 'network 4 0' 'up 1' 'up 1' | ncroute run
    ok
    opened 1
    refused N2 1

Take it down first.
",
    },
    Page {
        code: "N3",
        text: "\
N3: no neighbour is up in this session
Place: the event's place in the history

    $ printf '%s\\n' 'network 4 0' 'down 1' | ncroute run
    ok
    refused N3 0

Bring the neighbour up first. A caller whose session is over has to open another.
",
    },
    Page {
        code: "N4",
        text: "\
N4: the destination is not in the domain
Place: the event's place in the history

    $ printf '%s\\n' 'network 4 0' 'show 9' | ncroute run
    ok
    refused N4 0

Name a node below N.
",
    },
    Page {
        code: "N5",
        text: "\
N5: the distance is above N
Place: the event's place in the history

    $ printf '%s\\n' 'network 4 0' 'up 1' 'recv 1 2 9' | ncroute run
    ok
    opened 1
    refused N5 1

A distance is 0 to N; N means unreachable.
",
    },
    Page {
        code: "N6",
        text: "\
N6: the filter was verified for domains of another size
Place: the event's place in the history

Verify it for the size of the router's domain. `ncroute run` does, so no script earns this.
",
    },
    Page {
        code: "N7",
        text: "\
N7: no session number is left, after 4,294,967,295 sessions
Place: the event's place in the history

Start the router anew.
",
    },
    Page {
        code: "J1",
        text: "\
J1: the journal has as many entries as its limit allows; this is judged before memory is asked for
Place: the number of entries

    $ printf '%s\\n' 'network 4 0 1' 'up 1' 'show 0' | ncroute run
    ok
    opened 1
    refused J1 1

Give `network` a higher LIMIT, at most 1,000,000. `ncroute router` forgets its first entries, once they are saved where they are to be, and then
takes events again: a higher `--limit` makes J1 rarer, and room on the disk ends one that stays.
",
    },
    Page {
        code: "J2",
        text: "\
J2: the memory for the event or for its entry was refused

Give the process more memory. `ncroute run` answers E3 in its place.
",
    },
    Page {
        code: "L1",
        text: "\
L1: another caller has the lock; the event comes back

Try again, or make the call that waits. No command of `ncroute` answers it.
",
    },
    Page {
        code: "L2",
        text: "\
L2: the router was closed while another pass had the journal; no public call leads to that

Join all passes before the close.
",
    },
    Page {
        code: "L3",
        text: "\
L3: no memory for the router, when it is opened

Give the process more memory.
",
    },
    Page {
        code: "X1",
        text: "\
X1: the memory for the jobs or for their results was refused

Give the process more memory.
",
    },
    Page {
        code: "X2",
        text: "\
X2: a thread was not started

Allow the process more threads, or run fewer sessions.
",
    },
    Page {
        code: "D1",
        text: "\
D1: a node is not in the domain, or a node is to be its own neighbour
Place: the number of the line

    $ printf '%s\\n' 'domain 3' 'link 0 3' | ncroute domain
    ok
    refused D1 2

Nodes are numbered from 0: those of `domain 3` are 0, 1 and 2.
",
    },
    Page {
        code: "D2",
        text: "\
D2: the two nodes are linked already
Place: the number of the line

    $ printf '%s\\n' 'domain 3' 'link 0 1' 'link 1 0' | ncroute domain
    ok
    ok
    refused D2 3

A link is of both nodes, so `link 1 0` is `link 0 1` again. Two links between the same nodes route as one.
",
    },
    Page {
        code: "D3",
        text: "\
D3: the two nodes are not linked
Place: the number of the line

    $ printf '%s\\n' 'domain 3' 'cut 0 1' | ncroute domain
    ok
    refused D3 2

Only a link that is there can be cut.
",
    },
    Page {
        code: "D4",
        text: "\
D4: the routers cannot run any further: one of their counts is at its maximum
Place: the number of the line

A router has at most 4,294,967,295 sessions, and `settle` counts its messages in 64 bits. No script within the limit of the input is known to get there. Questions about rest are answered as before.
",
    },
    Page {
        code: "H1",
        text: "\
H1: the line is not as a history has it here, or there are more entries than the limit
Place: the number of the line, counted from 1

    $ printf '%s\\n' 'NCH1 2 0 9 10.0.0.0/16 10.1.0.0/16' '0 up 1 opened 1' '2 down 1 done 0' | ncroute replay
    refused H1 3

Here the entry at position 1 is missing. Each line of a history has its position, its event and its reply, in these words and no others.
",
    },
    Page {
        code: "H2",
        text: "\
H2: no router comes to the state that the segment begins in
Place: 2, the line where the state begins

    $ printf '%s\\n' 'NCH2 2 0 9 10.0.0.0/16 10.1.0.0/16' 'at 7 sessions 1' 'node 0 down' 'node 1 up 2 2 0' . | ncroute replay
    refused H2 2

Here node 1 is up in session 2, of one session in all. Each session has its own number, from 1 on, and the router's own node is never up.
",
    },
    Page {
        code: "H3",
        text: "\
H3: the segment does not begin in the state in which the one before ends
Place: 2, the line where the state begins

    $ printf '%s\\n' 'NCH2 2 0 9 10.0.0.0/16 10.1.0.0/16' 'at 0 sessions 1' 'node 0 down' 'node 1 up 1 2 0' . | ncroute replay
    refused H3 2

Here a history begins, at 0, with a neighbour that is up already: a first segment at 0 begins with a router that was just opened.
",
    },
];
