//! What the help of a command says behind its options.
ghost use Rattle.std.specs.Prelude.{◌≡◌, ◌&&◌, codes, is_some, not};
ghost use Rattle.std.specs.Str.{bytes_eq};
ghost use Rattle.command_line.specs.CommandNames.{command_of};

/// What the help of this command says, if it says more than the options do.
#[tactic(auto, unfolding(crate::specs::CommandNames::command_of))]
pub(crate) fn help_of(command: &str) -> Option<&'static str>
    ensures { is_some result ≡ (is_some (command_of command.now) && not (bytes_eq command.now (codes "explain"))) }
{
    match command {
        "check" => Some(CHECK_HELP),
        "diff" => Some(DIFF_HELP),
        "domain" => Some(DOMAIN_HELP),
        "eval" => Some(EVAL_HELP),
        "filter" => Some(FILTER_HELP),
        "lint" => Some(LINT_HELP),
        "list" => Some(LIST_HELP),
        "net" => Some(NET_HELP),
        "replay" => Some(REPLAY_HELP),
        "rewrite" => Some(REWRITE_HELP),
        "router" => Some(ROUTER_HELP),
        "run" => Some(RUN_HELP),
        "test" => Some(TEST_HELP),
        _ => None,
    }
}

/// Of `check`.
const CHECK_HELP: &str = "\
Standard input is one filter, or with --code a code file in hexadecimal. Where files are
named, each of them is, in order; `-` is standard input. For each refused file, standard
error says why, or with --explain never just its name and the refusal. With --names each
printed line begins with the name of its file, as `FILE: verified 7 2`, and with -q only
refusals are printed. With --warn standard error says of each filter that is verified what
`ncroute lint` says of it. Where refusals are told in words, it also says what a prefix with
bits past its length is read as, with or without --warn.

Two lines are printed:
  code HEX                the filter's code, as `ncroute eval` reads it
  verified BUDGET DEPTH   the code can never go wrong, takes at most BUDGET steps on
                          a route, and holds at most DEPTH operands at a time
For a filter or code that is refused, the last line is `refused CODE AT` instead:
  P1 to P10   the text is not a filter: a syntax error at byte AT
  Y1 to Y5    a name or a kind is wrong at byte AT; Y7: a label is
  G1, G2      the code would be too long, or have too many sets
  V1 to V9    instruction AT might go wrong on some route; V8: N is not 2 to 250
  C1 to C6    not a code file: an error at byte AT
  O3, O7      not hexadecimal; more than 1,048,576 bytes

Example:
  echo 'filter up { rip_metric = rip_metric + 2; accept; }' | ncroute check --size 16
The exit status is 0; 1 if something was refused, a file could not be read or a fault
ended the run; 2 if the command line is wrong.
";

/// Of `diff`.
const DIFF_HELP: &str = "\
OLD and NEW are filters. Both are verified first, as by `ncroute check`. If one is refused,
standard error says why, and nothing is printed. Routes are all prefixes, with each metric
from 0 to N.

For each part of the routes on which the filters differ, or may differ, a line is printed:
  differ PREFIX{LOW,HIGH}, metrics LEAST..MOST: BEFORE | AFTER
             the routes whose prefix is within PREFIX and has a length from LOW to HIGH, with
             a metric from LEAST to MOST: OLD does BEFORE with each of them, and NEW AFTER
  undecided PREFIX{LOW,HIGH}, metrics LEAST..MOST
             whether they differ on these was not found out within CLASSES
BEFORE and AFTER are `reject`, `accept METRIC`, or `accept`, which is with the metric received.
Of more than 1,000 parts the others are counted by `parts that are not shown: COUNT`.
The last line is one of these:
  same on all routes of a domain of N nodes
             there is no other line: the filters do the same
  same on all other routes of a domain of N nodes
             they do the same outside of these parts
  undecided on COUNT parts
             this many parts are undecided; outside of the parts they do the same

Example:
  sed 's/> 12/> 10/' examples/backup_link.filter |
    ncroute diff --size 16 examples/backup_link.filter -
prints `differ 0.0.0.0/0{0,32}, metrics 8..8: accept 11 | reject`, the same of metric 9 with
`accept 12`, and `same on all other routes of a domain of 16 nodes`.
The exit status is 0 if they are the same on all routes; 1 if they differ; 2 if the command
line is wrong; 3 if that is undecided, if a filter was refused, if a fault ended the run, or if
a file could not be read.
";

/// Of `filter`.
const FILTER_HELP: &str = "\
The filter is verified first. If it is refused, as by `ncroute check`, the line
`refused CODE AT` is all that is printed, and no route is answered.

Standard input is lines, each a route: its prefix and the metric that a neighbour sent.
Empty lines and lines that begin with # are skipped. Each route is answered on standard
output by what the filter means for it:
  accept D         the filter accepts it with the metric D
  reject           the filter rejects it
  refused O AT     line AT is not a route (O1 words, O2 numbers, O7 length, O8 prefix)

With --why a route is answered by `PREFIX METRIC VERDICT LINE:COL`, with the place that decided,
and below it, behind two blanks, by what happened on the way:
  5:3 worse = 13          an assignment
  6:12 13 < 6 is false    a comparison
  6:3 if false            a condition
With --coverage, which cannot be given with --why, refused lines alone are answered. After all routes, a line for each command,
`COUNT LINE:COL WORD`, says how many of them came to it; those that none came to are last.

Example:
  echo '8.8.8.0/24 9' | ncroute filter --size 16 examples/backup_link.filter
prints `accept 12`. The exit status is 0; 1 if something was refused; 2 if the command
line is wrong; 3 if a fault ended the run or a file could not be read.
";

/// Of `lint`.
const LINT_HELP: &str = "\
Each file is a filter; without one, standard input is. Each is verified first, as by
`ncroute check`. If it is refused, standard error says why. For each thing that is plainly
wrong with a verified one, a line is printed:
  FILE:LINE:COL: WORDS (W2)
W1, W2, W8 and W9 are told by all routes of the domain, which are searched as by `ncroute diff`.
  W1   a condition that is always true, or always false
  W2   a command that no route reaches
  W3   arithmetic that may wrap, by what the verifier knows of the numbers
  W4   a pattern that another one of its set covers, or ints of a set that overlap
  W5   a prefix with bits past its length, as 10.1.2.3/8
  W6   a variable that is never read
  W7   a metric that means unreachable, whatever the route
  W8   an assignment that would lower the metric on some route, which no filter can
  W9   metrics whose order is not kept: the lesser one of two comes to more; with --order
Where CLASSES are not enough for W1, W2 and W8, or for W9, a line `FILE: undecided: ..` says so.
A warning is left out where --allow names its code, or where the line that it is said of ends
with a comment as `# lint: allow W3`.

Example:
  echo 'filter f { if net.len > 32 then reject; accept; }' | ncroute lint --size 16
The exit status is 0 if nothing is said of any filter; 1 if there is a warning, or a filter was
refused; 2 if the command line is wrong; 3 if nothing is said but a filter is undecided or was
not read, or a fault ended the run.
";

/// Of `list`.
const LIST_HELP: &str = "\
Each line is an instruction: its index, its name, where it jumps to, and behind ; the line
and the column of the text that it comes from. With --size N a line before it says what
the verifier knows there: the operands on the stack, the top first, and the variables.
  0..16             an int in this range
  0..16>=received   one that is at least the metric received
  bool, ip, prefix  another kind
  ?                 nothing, or no value
The last line is then `verified BUDGET DEPTH`, or the listing ends at the instruction that
is refused, with `refused CODE AT`.

Example:
  echo 'filter up { rip_metric = rip_metric + 2; accept; }' | ncroute list --size 16
The exit status is 0; 1 if something was refused; 2 if the command line is wrong;
3 if a fault ended the run or a file could not be read.
";

/// Of `test`.
const TEST_HELP: &str = "\
A test file names a filter, the number of nodes of the routing domain, and tests, a line each:
  filter FILE                 the filter; its name is taken from the folder of the test file
  size N                      2 to 250
  PREFIX METRIC -> VERDICT    a route, and the verdict on it
  every PATTERN -> VERDICT    all routes whose prefix matches, with each metric
  every PATTERN metric A..B -> VERDICT    the same with these metrics alone, or with one
PATTERN is PREFIX, PREFIX+, PREFIX- or PREFIX{LOW,HIGH}; VERDICT is `accept METRIC`, `reject`, or
`accept`, which is with the metric received. Empty lines and lines that begin with # are
skipped. The filter is verified first.

The output is that of the Test Anything Protocol, version 13, with one plan for all files:
  ok N - TEST          on all of its routes the verdict is the expected one
  not ok N - TEST      it is not on the route that the next line shows, as
                       `# PREFIX METRIC -> VERDICT`; or the next line is `# undecided`:
                       that was not found out within CLASSES
  not ok N - FILE: not run, since a file was refused or not read
                       in place of the tests of a file; standard error says why
  1..N                 how many tests there are

Example:
  ncroute test examples/customer_list.test
The exit status is 0 if each test holds; 1 if one does not; 2 if the command line is wrong;
3 if one is undecided and all others hold, if a file was refused or not read, or if a fault
ended the run.
";

/// Of `eval`.
const EVAL_HELP: &str = "\
Standard input is lines. The first is a code file in hexadecimal; each other line is a route:
its prefix, the metric that a neighbour sent, and the domain's number of nodes (2 to 250).
Empty lines and lines that begin with # are skipped.

Each route is answered on standard output:
  accept D         the filter accepts it with the metric D
  reject           the filter rejects it
  fault K AT       the code went wrong at instruction AT (K1 to K7)
  refused O AT     line AT is not a route (O1 words, O2 numbers, O7 length, O8 prefix)
A first line that is not a code file is refused, and ends the run.

Example:
  printf '4e4346310000000170\\n10.0.0.0/8 3 8\\n' | ncroute eval
prints `accept 3`. The exit status is 0; 1 if a line was refused or a fault
ended the run; 2 if the command line is wrong.
";

/// Of `rewrite`.
const REWRITE_HELP: &str = "\
Standard input is a code file in hexadecimal, of either form. One line is printed: the file of
the same code in the newer form, NCF2, or with --old in the older one, NCF1. Each code has one
file in the newer form; in the older one a code with sets of ints has none.
For input that is refused the line is `refused CODE AT` instead:
  C1 to C6   not a code file: an error at byte AT
  C8         the code has sets of ints, which the older form has not
  O3, O7     not hexadecimal; more than 1,048,576 bytes

Example:
  echo 4e4346310000000170 | ncroute rewrite
prints `4e434632000000000170`. The exit status is 0; 1 if the input was refused or a
fault ended the run; 2 if the command line is wrong.
";

/// Of `domain`.
const DOMAIN_HELP: &str = "\
The input is commands, one a line. Empty lines and lines that begin with # are skipped.
  domain N               a domain of N nodes (2 to 250), without links
  prefix V P             P is the prefix of node V; otherwise it is 10.V.0.0/16
  load NAME TEXT         name a filter: the rest of the line is its text
  include NAME FILE      name the filter of FILE, beside the file that the commands are in
  code NAME HEX          name a filter by its code file in hexadecimal
  link U W, cut U W      U and W are neighbours from now on, or no more
  import U W NAME        the filter of what U hears from W
  export U W NAME        the filter of what U tells W
  anew U                 all links of U are cut and made again
  route U V              U's route to V when the domain is at rest
  path U V               the nodes on the way
  table U                all routes of U
  draw V                 a picture of the routes to V, for Graphviz
  draw V changes         the same; who may feel what was done since the mark is red
  reach                  how far routes go, and how soon all of them are right
  mark                   remember all routes
  changes                the routes that are not what they were at the last mark, and
                         which distances stand still while the changes happen
  failures [nodes]       what the failure of each link, or node, changes by itself
  settle                 have the routers exchange messages until none is left
  json                   the whole domain and all failures on a line, for programs

Each command is answered on standard output before more input is read:
  ok                     domain, prefix, link, cut, import, export, anew, mark
  verified BUDGET DEPTH  load, code
  route D local, route D via W, route D none
  path U .. V, path none
  table V:D:W V:D ..     to V at distance D through W
  reach LONGEST PHASES   a phase is over when all came in that waited at its start
  changes U:V ..         of U to V
  .. still V:K ..        while all that was done since the mark happens, and again: to
                         V no distance below K changes; to others none
  failures COUNT         and as many lines: link U W, or node U, and what changes
  settled ROUNDS COUNT   COUNT messages were heard
  digraph { .. }         draw
  refused CODE AT        the command was refused, and no route changed:
    O1 to O8     the command is wrong (AT is the number of its line)
    D1 to D4     the domain refuses it (AT is the number of its line)
    P, Y, G, V   the filter is refused, as `ncroute check` refuses it; C: its code file

With --compare both scripts are carried out, and none of their answers is printed. Both
domains have as many nodes. What is printed is what the change from one to the other does:
  lost U:V ..            U reaches V no longer
  gained U:V ..          U reaches V from now on
  changed U:V ..         U reaches V at another distance, or through another neighbour
  failures COUNT         and as many lines: link U W, or node U, and what its failure does
  .. loses L keeps K     it takes L routes that it did not take before, and K no longer

Example:
  printf 'domain 3\\nlink 0 1\\nlink 1 2\\nroute 0 2\\n' | ncroute domain
prints `ok` three times and `route 2 via 1`. The exit status is 0; 1 if a command
was refused, or a page could not be written; 2 if the command line is wrong; 3 if a fault
ended the run. With --compare it is 1 if something is lost, by the change or by a failure
behind it; 3 if a command was refused, or the domains cannot be compared.
";

/// Of `net`.
const NET_HELP: &str = "\
Three routers are neighbours of one another. Each link is read and written by threads
of its own, 200 turns each, and then each router replays its whole history. It
takes about a second, and no input.

Three lines are printed, `node 0 replay ok` to `node 2 replay ok`, or none and a
fault on standard error: E2 (output), E3 (memory), J1 or J2 (a router refused a
call), L3 (a router was not opened), X1 or X2 (sessions or threads were not run).
The exit status is 0; 1 if a fault ended the run; 2 if the command line is wrong.
";

/// Of `replay`.
const REPLAY_HELP: &str = "\
FILE is the text of a history, of at most 1,073,741,824 bytes: a line for the router's
opening, and a line for each entry with the reply that was given. Several files are the
segments of one history, in order. The entries are carried out again, in order, and one
line is printed:
  replay ok ENTRIES                   each of these entries has the right reply
  replay ok ENTRIES from POSITION     the same, from the state that the first segment
                                      begins in
  differs AT saved REPLY right REPLY  the reply at position AT is the first that is wrong
  cut LINE                            line LINE was not written to its end; all before it
                                      is right
  refused H1 LINE                     line LINE is not as a history has it
  refused H2 2                        no router comes to the state of this segment
  refused H3 2                        the segment does not begin where the one before ends
Where there are several files, `file K ` stands in front of the last five of these.

Example:
  ncroute replay examples/one_neighbour.history
prints `replay ok 8`. The exit status is 0 for `replay ok`; 1 for the other lines; 2 if the
command line is wrong; 3 if a fault ended the run or a file could not be read.
";

/// Of `router`.
const ROUTER_HELP: &str = "\
Of two neighbours the one with the lower number opens its OUT first, the other its IN, so
that FIFOs meet. Each greets, `netchange 2 N ME HOLD NUMBER HEARD`, and answers the other's
greeting. Then the neighbour is up, and each line is a message, `V D`: node V is at distance
D. When its stream ends, or it is silent for its HOLD, it is down, and standard error says why.

Standard input has the operator's commands, as `ncroute run` answers them, without
`network`, `prefix`, `recv` and `take`. `up`, and `down` of a node with a link, are refused
as O9. `status` and `status json` tell of the router and its links, and `routes json` the
routes. `quit` ends the router, and so does the end of standard input without --stay. Each
--control serves one operator more, to whom `ncroute-ctl` speaks.

A line of the FILE of --config says an option without its dashes, with blanks between its
parts: `size 4`, `link 1 in out`, `control in out look`, `stay`. Names of files count from
the folder of FILE. A word that begins with # begins a comment.

--domain takes size, prefixes, links and filters of node ME from the script by which
`ncroute domain` predicts the routes of the whole domain; --link says where the streams of
each of its links are. A line `include NAME FILE` there is `load NAME` with the text of FILE.
A digest of the domain goes with each greeting: two routers that were started from different
domains say so, and are not up with one another, unless --allow-other-domain is given.

The last entries of the history are kept in memory. With --save all of them are in FOLDER, or
the last ones with --segments, and one that is not saved yet is not forgotten.

Example, in two terminals after `mkfifo a b`:
  ncroute router --size 2 --node 0 --link 1=a,b
  ncroute router --size 2 --node 1 --link 0=b,a
The exit status is 0; 1 if the router was not started, as where a filter or FILE was not read,
a filter was refused, or FOLDER was not made; 2 if the command line or FILE is wrong; 3 if the
operator's lines could not be read or answered; 4 if the end of the history was not saved.
";

/// Of `run`.
const RUN_HELP: &str = "\
The input is commands, one a line. Empty lines and lines that begin with # are skipped. Several
FILEs are one script, one after another, and all are read before the first line is answered.
  network N ME [LIMIT]   a domain of N nodes (2 to 250), of which the router is node ME;
                         its history has at most LIMIT entries (1,000,000)
  prefix V P             P is the prefix of node V; otherwise it is 10.V.0.0/16
  load NAME TEXT         name a filter: the rest of the line is its text
  code NAME HEX          name a filter by its code file in hexadecimal
  import W NAME          the filter of what neighbour W tells
  export W NAME          the filter of what neighbour W is told
  up W, down W           the channel to neighbour W works, or failed
  recv W V D             neighbour W told distance D to node V
  take W                 take the messages that wait for neighbour W
  show V                 the route to node V
  routes                 the route to each node
  neighbours             the up neighbours, with their present sessions
  told W                 what neighbour W told, and what its import filter made of it
  history FROM           the history from entry FROM on, at most 100 entries

Each command is answered on standard output before more input is read:
  ok                     network, prefix
  verified BUDGET DEPTH  load, code
  opened SESSION         up
  done C                 import, export, down, recv: C distances changed
  messages V:D V:D ..    take
  route D local, route D via W, route D none
  routes V:D:W V:D:W ..  and `V:D` where there is no next hop
  neighbours W:S W:S ..
  told V:D V:D>E ..      the filter made E of distance D
  history ENTRY | ENTRY ..
  refused CODE AT        the command was refused, and no route changed:
    O1 to O8     the command is wrong (AT is the number of its line)
    N1 to N7     the router refused it (AT is its position in the history)
    J1           the history is full (AT is the number of its entries)
    P, Y, G, V   the filter is refused, as `ncroute check` refuses it; C: its code file

With --save each event's line is in FILE before its answer is written, so a run that is
killed leaves a history that `ncroute replay` reads up to its last whole line.

Example:
  printf 'network 4 0\\nup 1\\nrecv 1 1 0\\nshow 1\\n' | ncroute run
prints `ok`, `opened 1`, `done 1` and `route 1 via 1`. The exit status is 0; 1 if
a command was refused or a fault ended the run; 2 if the command line is wrong.
";
