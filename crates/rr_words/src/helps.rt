//! What the long helps end with: the format of what is read or printed, and two examples. A line has at
//! most 100 letters. Each text comes from a function, so that no proof carries its bytes.

/// The help of a FILE that is a schedule.
pub(crate) fn schedule<'a>() -> &'a str {
    "The schedule [default: standard input]"
}

/// The help of a FILE that is a schedule or a tape.
pub(crate) fn recorded<'a>() -> &'a str {
    "The schedule, or the tape [default: standard input]"
}

/// The help of the option that takes a text as a tape.
pub(crate) fn as_tape<'a>() -> &'a str {
    "Reads FILE as a tape, also where it could be a schedule"
}

/// The help of the option for reasons on a tape.
pub(crate) fn explain_tape<'a>() -> &'a str {
    "Tells the event behind each line, and what it did"
}

/// The help of the option for reasons.
pub(crate) fn explain<'a>() -> &'a str {
    "Tells each line's event, and why others were refused or came to nothing"
}

/// The help of the option for a finish.
pub(crate) fn finish<'a>() -> &'a str {
    "Goes on from the schedule's end without faults until nothing is left to do"
}

/// The help of the program.
pub(crate) fn program<'a>() -> &'a str {
    "\
A schedule is a text with one event a line. Its first line is `nodes N`, with N from 1 to 7. In the
event `submit 0 7 1 claim a x`, client 7 asks node 0, as its request 1, to claim the name a with the
value x. `rr COMMAND --help` has the format of what a command reads and prints, and docs/FORMATS.md
has all formats. A FILE that is left out or is - is standard input.

Examples:
  rr sim examples/one_command.schedule
  rr random --schedule-only --seed 1 --steps 200 --nodes 3 | rr sim"
}

/// The help of `rr sim`.
pub(crate) fn sim<'a>() -> &'a str {
    "\
FILE is a schedule: a first line `nodes N`, with N from 1 to 7, and then one event a line, as
`restart 0`, `dev 0`, `submit 0 7 1 claim a x` or `hear 0 5`. Lines end with LF, and one space
divides words. The report has a line for each message that is sent, each acknowledgement, each node
that has opened its disk, and each event that is refused. It ends with `decided N` and the list of
the N decided commands. With --explain an indented line for each event has its line, its text, and
what it did or why it was refused or came to nothing. With --json each line is an object.

With --finish the run goes on, by events that are added to the schedule: nodes that are down
restart, nobody is suspected or fails, and what is sent is heard. It ends when each request that a
node was asked for since it is up is acknowledged, and each instance that it has begun is decided.
The report is that of all events. With --schedule-only the lines of the added events are printed
alone. If it can't be finished, this is told, what there is is printed, and the status is 8.

Examples:
  rr sim --explain examples/one_command.schedule
  rr sim --finish --schedule-only examples/suspected_coordinator.schedule
  rr random --lively --schedule-only --seed 1 --steps 200 --nodes 3 | rr sim"
}

/// The help of `rr stats`.
pub(crate) fn stats<'a>() -> &'a str {
    "\
FILE is a schedule, as `rr sim` reads it, or a tape, as `rr audit` reads it. Bytes that could be
both are a schedule, unless --tape is given. Printed is a table of the run: the events of each kind,
and how many of them the report tells, were refused or came to nothing; the messages of each kind,
and how many were heard, heard again and never heard; the refusals of each name; and how many rounds
and device calls there were for each decision. A tape has no device calls. One with an event that
isn't next is refused as by `rr audit`. With --json printed is one object.

Examples:
  rr stats examples/tie_of_two_commands.schedule
  rr random --lively --schedule-only --seed 1 --steps 5000 --nodes 3 | rr stats"
}

/// The help of `rr check`.
pub(crate) fn check<'a>() -> &'a str {
    "\
FILE is a schedule, as `rr sim` reads it, and REPORT a text that is to be its report. Where they are
the same, nothing is printed and the status is 0. Else the status is 1, and printed is the first
line in which they differ, as the run and as REPORT have it, with the event that it tells of. One of
both may be -, which is standard input.

Examples:
  rr check examples/failed_write.schedule expected.report
  rr sim examples/one_command.schedule | rr check examples/one_command.schedule -"
}

/// The help of `rr show`.
pub(crate) fn show<'a>() -> &'a str {
    "\
DIR is the folder of one node's disk, whose two areas are the files a0 and a1. Printed is a line for
each area: `area A unformatted`, or `area A epoch E node P of N facts F decided D`. F is the number
of the node's next fact, and D the number of commands that it knows as decided. With --json each
line is an object. Nothing is written.

Examples:
  rr show /tmp/nodes/0
  rr run --nodes 3 --dir /tmp/nodes --script examples/three_clients.script && rr show /tmp/nodes/0"
}

/// The help of `rr verify`.
pub(crate) fn verify<'a>() -> &'a str {
    "\
DIR is the folder of the nodes' folders, as `rr run` and `rr shell` are given it: DIR/0 is that of
node 0. How many there are is what the first of them says that can be read. Printed is a line for
each folder: the node and the number of nodes that it names, its facts, its decided commands, how
many commands are left to be decided, and its version. Then comes a line for each two folders that
decide an instance differently, with both commands, and last `agree` or `disagree`. They agree if
each names its own node and one number of nodes, and no instance is decided differently. Else the
status is 4: also if a node's folder is missing, blank or damaged. If DIR is missing it is 5.
Nothing is written. No other program may have the folders open.

Examples:
  rr verify /tmp/nodes
  rr verify --json /tmp/nodes"
}

/// The help of `rr export`.
pub(crate) fn export<'a>() -> &'a str {
    "\
DIR is the folder of the nodes' folders. Those that can be read are read, and no instance may be
decided differently in them: else the status is 4. The longest of their decided lists counts.
Printed is a script that claims each name that is bound by this list, in byte order, for its owner
and with its value. `rr run` takes it for any number of nodes. Run over an empty folder, it gives
the same registry. What only a lost folder had decided isn't in it. With --list printed are
`decided N` and the N commands of the list. With --json printed is an object for each bound name, or
for each of these lines. Nothing is written. No other program may have the folders open.

Examples:
  rr export /tmp/nodes > claims.script && rr run --nodes 5 --dir /tmp/new --script claims.script
  rr export --list /tmp/nodes"
}

/// The help of `rr migrate`.
pub(crate) fn migrate<'a>() -> &'a str {
    "\
DIR is the folder of the disk of node P of N, whose two areas are the files a0 and a1. Both have to
be there: nothing is made. The node opens its disk, as it does before it serves: where version 1
wrote the folder, the same facts are then written in version 2. There is no way back, so keep a
copy. Then the areas are printed, a line for each, as `rr show` prints them. An area of another
node, or of another number of nodes, is damaged for this one. No other program may have the folder
open.

Examples:
  rr migrate /tmp/nodes/0 --node 0 --nodes 3
  rr migrate /tmp/nodes/0 --node 0 --nodes 3 && rr show /tmp/nodes/0"
}

/// The help of `rr replace`.
pub(crate) fn replace<'a>() -> &'a str {
    "\
DIR is the folder of a cluster, of which node P has lost its disk for good. More than half of the
nodes have to be left, with whole folders, and no other program may have them open. They are run
without P until they have decided eight instances above the highest of which their folders keep
anything: all in which P can have had a say. Then P gets a new folder with these decisions alone,
and may be started. What stood at DIR/P is moved aside, as DIR/P.replaced-1, and never deleted. It
isn't opened any more if it is put back. Printed is `node P replaced: N decided commands`, and
`moved aside: ` with the path. Interrupted, it is given again. With --without other nodes stay down
whose disks are lost too: they are replaced one after another. With --dry-run nothing is written,
and printed is `node P would be replaced: N decided commands, M more to decide`. The status is 8 if
no command is decided for a minute, or if the list has no room for so many.

Examples:
  rr replace /tmp/nodes --node 1 --dry-run
  rr replace /tmp/nodes --node 1 && rr verify /tmp/nodes"
}

/// The help of `rr random`.
pub(crate) fn random<'a>() -> &'a str {
    "\
Printed is the text of a schedule, a line `report`, and the report of its run, as `rr sim` prints
it. With --schedule-only it is the text of the schedule alone, which `rr sim` reads. With --finish
the events that `rr sim --finish` adds stand behind those that are drawn. With --json it is the
report alone, as `rr sim --json` prints it; that goes with neither of the two. The same words print
the same bytes. Most of the events come to nothing: hardly anything is decided. With --lively each
event is drawn among those that do something at that moment. Then --faults of a thousand steps have
a fault: a crash, a failing call, a lost message, a suspicion or the like.

Examples:
  rr random --lively --seed 1 --steps 1000 --nodes 3
  rr random --schedule-only --seed 1 --steps 1000 --nodes 3 | rr sim"
}

/// The help of `rr audit`.
pub(crate) fn audit<'a>() -> &'a str {
    "\
FILE is a tape, a record of what nodes did: a first line `nodes N`, and then one event a line, in
the words of a schedule or a report, as `submit 0 7 1 claim a x` or `send 0 0 1 beat`. Printed is
`audit yes K` where its K events are what nodes do, in this order, from an empty start. Otherwise
standard error names the first event that isn't. With --json an object is printed in either case.
With --explain printed are the messages and replies of the tape and its decided list instead. An
indented line for each event has its line, its text, and what it did; with --json each of these
lines is an object.

Examples:
  rr audit crates/worked_rows/data/tapes-one_command.tape
  rr run --nodes 3 --dir /tmp/new --script examples/three_clients.script --tape /tmp/tape
  rr audit /tmp/tape"
}

/// The help of `rr run`.
pub(crate) fn run<'a>() -> &'a str {
    "\
SCRIPT has a line for each thing that clients ask, as `submit 0 7 1 claim a x` or `look 1 a`. A
SCRIPT that is - is standard input. Each node runs in threads, node P over the files in the folder
DIR/P, which are made where they are missing. Printed is an answer for each line of the script, in
its order: `ack P C.S REPLY`, `none P C.S`, or `look P NAME` and what the name is bound to. With
--json each answer is an object. With --tape the folders have to be fresh, and what the nodes did is
recorded for `rr audit`. With --without the nodes that are named stay down, and their lines are
unanswered. More than half of the nodes have to be left.

Examples:
  rr run --nodes 3 --dir /tmp/nodes --script examples/three_clients.script
  rr run --nodes 3 --dir /tmp/new --script examples/three_clients.script --tape /tmp/tape"
}

/// The help of `rr shell`.
pub(crate) fn shell<'a>() -> &'a str {
    "\
Each line of standard input is a command, which is answered before the next is read:
`claim NAME [VALUE]`, `update NAME [VALUE]`, `release NAME`, `transfer NAME OWNER`, `look NAME`,
`list [PREFIX]`, `watch [PREFIX]`, `sync`, `at NODE`, `stop NODE`, `start NODE`, `snapshot NODE`,
`status`, `again`, `help [COMMAND]`, `quit` or `exit`. Spaces and tabs divide words. Without VALUE
the value is empty, and `help COMMAND` has an example. Node 0, or else the first that is not left
out, is asked first, and from `at NODE` on that node. The answers are `claimed`, `updated`,
`released`, `transferred`, `taken OWNER`, `unknown`, `notowner`, `full`, `unacknowledged` or
`full list: ` and a text; to a look `NAME free`, `NAME bound OWNER VALUE` or `NAME unseen`; to a
list `list COUNT` and a line as a look's for each bound name that begins with PREFIX; to a watch
`watching`, and until the next line `changed NAME bound OWNER VALUE` or `freed NAME` for each
change of these names; to a sync `synced`; to a status a line for each node; else `error: ` and
what is expected. With --json each of these lines is an object of JSON. A look or a list answers
from what the node that is asked has seen. Behind `synced` it has all that was acknowledged at any
node before that line was read. `again` asks the last command that was unacknowledged once more,
under its request number, so that it counts once. A node that is stopped goes down as by a crash,
and opens its folder when it is started. Each node runs in threads over the folder DIR/P, as in
`rr run`. The file DIR/requests keeps request numbers unique from one start to the next.

With --without a cluster starts though a disk is broken: the nodes that are named are down, as by
`stop`, and their folders are neither opened nor touched before `start`. More than half of the nodes
have to be left.

With -c each LINE is answered, in order, and nothing is read. Without --strict the status is 0
whatever was answered. With it the shell ends at the first line that isn't answered as asked, with
one of these:
  10 taken  11 notowner  12 unknown  13 full  14 unacknowledged  15 unseen  16 full list  17 error
  18 free

Examples:
  rr shell -c 'claim printer room-4' -c 'look printer'
  printf 'claim printer room-4\\nlook printer\\n' | rr shell --nodes 3 --dir /tmp/nodes --client 7"
}

/// The help of `rr sweep`.
pub(crate) fn sweep<'a>() -> &'a str {
    "\
FILE is a schedule, as `rr sim` reads it. Behind each of its lines `dev P` node P is crashed, in
five ways, and started again. Printed are five lines for each, `L E restart P F D` with the names
that are bound: L is the number of the line, E the way, from 1 to 5, F the number of the node's next
fact, and D the number of commands that it knows as decided. The bytes that the fifth way leaves are
drawn by the seed.

Examples:
  rr sweep --seed 0 examples/one_command.schedule
  rr random --schedule-only --seed 1 --steps 200 --nodes 3 | rr sweep --seed 7"
}

/// The help of `rr draw`.
pub(crate) fn draw<'a>() -> &'a str {
    "\
FILE is a schedule, as `rr sim` reads it, or a tape, as `rr audit` reads it. Bytes that could be
both are a schedule, unless --tape is given. Printed is a picture of the run, in SVG. Time goes
down, and each node has a line. An arrow is a message, a box a flush, and a diamond a decision;
docs/FORMATS.md has all symbols. Each event tells its line and what came of it, where the pointer
rests on it. Lines count from 1, and the first event is on line 2. In a picture of more than 300
lines, requests are folded into dots. With --requests they are arrows. If --from, --to, --node and
--instance leave no event, this is told, nothing is printed, and the status is 2. With --html it is
a page that a browser opens without a network: a click on an event tells what came of it, and marks
what it depends on.

Examples:
  rr draw --html examples/suspected_coordinator.schedule > run.html
  rr draw examples/suspected_coordinator.schedule > run.svg
  rr draw --from 20 --to 60 --node 1 examples/suspected_coordinator.schedule > part.svg"
}
