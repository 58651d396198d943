//! What the program says of itself: the texts of `--help`.

pub const ABOUT: &str = "Closed process groups with access rules, in one agreed order";

pub const MORE: &str = "\
Example: a process joins a group; how that is judged, and what it is told of it.
  $ printf '1.1 40 7 100 join db\\n' | cpgring judge
  1 1.1 40 7 100 join db -> allowed default group db members 1/40
  records 1
  inbox 1.1
  event 1 verdict allowed default
  event 1 change db members 1/40 left - joined 1/40:join

`cpgring COMMAND --help` explains the script of each command.

A script is read from FILE, or from standard input where no FILE is given, or -:
  $ cpgring judge day.judge

With -v the fault of a script is followed by its line and what is wanted there:
  $ printf '1.1 x40 7 100 join db\\n' | cpgring judge -v
  cpgring: 41 BadCommand 1
  line 1: 1.1 x40 7 100 join db
              ^ PID: a number from 0 to 4294967295

Exit status: 0 done; 1 a fault, told on standard error as `cpgring: 41 BadCommand 2`; 2 a fault of the
command line, a FILE that can't be read among them. Where the reader of a pipe has left, nothing is told.";

pub const JUDGE_ABOUT: &str = "Judges the agreed entries of a script";

pub const JUDGE_HELP: &str = "\
Judges the agreed entries of a script, and prints the verdict on each and what each connection is told. Each
line is one entry, in the agreed order:

  NODE.CONN PID UID GID CALL

NODE is 1 to 8, CONN the connection's number at its node (1 to 65535), PID its process, UID and GID its
credentials (each 0 to 4294967295). CALL is one of:

  join GROUP                                 become a member of the group
  leave                                      leave its group
  send TEXT                                  multicast to its group
  insert GROUP POS EFFECT RIGHT WHO          put a rule into the group's table
  remove GROUP ID                            take the rule of that id out
  gone                                       the connection has ended

GROUP is 1 to 128 printing ASCII characters. TEXT stands for itself, %XX for any byte, - alone for the
empty message; a message has at most 8192 bytes. POS is where the rule is put, 0 to 255, 0 before all
others; EFFECT is allow or deny; RIGHT is join, send, list or edit; WHO is any, or uid:N, gid:N and node:N
joined by + in this order. ID is the number of the entry that put the rule in, 0 to 4294967295.

Space, tab and CR at both ends of a line are trimmed. Empty lines and lines that begin with # are ignored,
but count as lines. The input has at most 16777216 bytes (16 MiB) and 1048576 entries.";

pub const JUDGE_MORE: &str = "\
Printed is a line for each entry, at its place from 1, with the verdict and, where the connection has or
names a group, that group and its members after it; then the number of entries; then the inbox of each
connection, in the order of their first entries:

  PLACE NODE.CONN PID UID GID CALL -> VERDICT group GROUP members MEMBERS
  records COUNT
  inbox NODE.CONN
  event PLACE verdict VERDICT                to the connection that made the entry
  event PLACE change GROUP members MEMBERS left MOVES joined MOVES
                                             to the group's members before and after it
  event PLACE message GROUP NODE PID TEXT    to the group's members: what the process there sent
  event PLACE rules GROUP                    to the group's members: its rules were edited

MEMBERS are NODE/PID, in the order of their joins; MOVES are NODE/PID:CAUSE, with the cause join, leave or
down, the end of the connection. Both are joined by commas, and - where there are none.

With --json each line is an object with the same content; docs/CLI.md has its fields.

--only, --group, --connection and --places print some of these lines alone; what is given of them has to hold
of each line but that of the count, which is of all entries. KIND is denied (denied entries, and what is told
of them), verdicts (each entry, and its answer), messages (what is sent), changes (who joins, leaves and ends)
or rules (edits of rules); of the last three what is allowed. The line of an inbox stands where anything of it
is printed.

VERDICT is `allowed` with what allows it, or `denied` with the first reason. The first rule of the group's
table that gives or denies the right and matches the connection decides: join for join, send for send,
edit for insert and remove.

  allowed rule ID, denied rule ID            the rule of that id decides
  allowed default, denied default            no rule does: edit is denied, the other rights are allowed
  allowed root                               UID 0 may edit every table
  allowed free                               leave and gone need no right
  denied closed                              leave or send: the connection is in no group
  denied joined                              join: the connection is in a group already
  denied twice                               join: the process is a member of the group already
  denied full                                join: the group has 128 members
  denied position                            insert: POS is past the table's end
  denied tablefull                           insert: the table has 64 rules
  denied absent                              remove: no rule of the table has that id

Example:
  $ printf '1.1 40 7 100 join db\\n1.1 40 7 100 send hi\\n' | cpgring judge
  1 1.1 40 7 100 join db -> allowed default group db members 1/40
  2 1.1 40 7 100 send hi -> allowed default group db members 1/40
  records 2
  inbox 1.1
  event 1 verdict allowed default
  event 1 change db members 1/40 left - joined 1/40:join
  event 2 verdict allowed default
  event 2 message db 1 40 hi

Exit status: 0 done; 1 a fault, told on standard error; 2 a fault of the command line. The faults are
`cpgring: 41 BadCommand LINE`, the first line that is no entry or one entry too many, `cpgring: 42 Read`,
also where the input is too long, `cpgring: 43 Write` and `cpgring: 1 Memory`. Nothing is printed before
all lines were read.";

pub const WHY_ABOUT: &str = "Explains why entries of a script were answered as they were";

pub const WHY_HELP: &str = "\
Judges the agreed entries of a script as `cpgring judge` does, and explains the answer to the entry at PLACE, or to
the one that told a connection its event of a number, by NODE.CONN:EVENT, or with --all each denial: the rule that
decides, or the state that does, and which entry made it. With --connection it tells the way of one connection
instead: its entries with their verdicts, and the changes of its group's members that it was told. With --to it tells
why that connection was told of the entry at PLACE, or was not; --to=PID tells it of each connection of the processes of
that number. The help of `cpgring judge` has the script and the words of a verdict; a connection's events are numbered
from 1 in the order in which it was told them, as `cpgring judge --connection=NODE.CONN` prints them.";

pub const WHY_MORE: &str = "\
Printed are lines that each begin with what they tell; between the entries of --all stands an empty line:

  entry PLACE line LINE: NODE.CONN PID UID GID CALL
                                             the entry, with the number of its line in the script
  verdict: VERDICT                           how it is answered
  decided: rule ID at POS of COUNT in GROUP: EFFECT RIGHT WHO
                                             the rule that decides, at POS in the group's table of COUNT rules
  put in: entry PLACE line LINE: ...         the entry that put that rule in
  passed: rule ID at POS: EFFECT RIGHT WHO: NAME HAS is not WANTED
                                             a rule of that right before it, with a condition that is not met
  without it: VERDICT                        the answer if the table lacked the rule that decides
  decided: default of RIGHT in GROUP         no rule of the table decides; each of that right is passed
  decided: root, free, closed, joined, twice, full, position, tablefull, absent
                                             the state that decides, as a rule for that, with the entry that
                                             made it so: the last join, leave or end of the connection

With --to=NODE.CONN the entry and its verdict are followed by

  to NODE.CONN: told, not told               whether the entry tells that connection anything
  decided: maker, member                     told: it made the entry, or is in its group since ...
  decided: denied, groupless, elsewhere, outside
                                             not told: of a denied entry its maker alone is; the entry is of no
                                             group; it is in another since ..., or in none
  tried: entry PLACE line LINE: ... -> VERDICT
                                             its last denied join since then
  event PLACE ...                            what it is told, as `cpgring judge` prints it

Example:
  $ printf '1.1 40 0 0 insert db 0 deny join uid:7\\n1.2 41 7 100 join db\\n' | cpgring why 2
  entry 2 line 2: 1.2 41 7 100 join db
  verdict: denied rule 1
  decided: rule 1 at 0 of 1 in db: deny join uid:7
  put in: entry 1 line 1: 1.1 40 0 0 insert db 0 deny join uid:7
  without it: allowed default

Exit status: 0 done; 1 a fault, told on standard error; 2 a fault of the command line, a PLACE that has no entry, a
connection that made none and an EVENT that was not told among them: `cpgring: there is no entry 3: the script has
2`, `cpgring: there is no connection 2.9: the script has 3`, `cpgring: there is no event 4: 1.2 was told 3`,
`cpgring: there is no connection of process 9: the script has 3`. The faults are those of `cpgring judge`; nothing is
printed before all is known.";

pub const ADMIT_ABOUT: &str = "Tells whom conf files let in";

pub const ADMIT_HELP: &str = "\
Tells whom conf files let in, as they stand on a machine: for each UID:GID, each a number or a name, what
`cpgring accept` prints of it; where none are given, the users and then the groups of the files, in the order of
their lines, as the words that let them in for step, draw and run:

  $ cpgring admit --conf=/etc/corosync/corosync.conf --conf=/etc/corosync/uidgid.d 1000:100 7:7
  accepted user
  refused 2 Access

The conf files are taken in their order, and of a directory its files in the order of their names. A FILE that is -
is standard input. Of a conf file the sections `uidgid` at the outermost level are read alone, whose keys are uid
and gid, each with a number of at most 4294967295 or a name; `cpgring accept --help` has the form. Names are looked
up in a names text, or in accounts:

  user NAME N                                of --names: the number of a user's name
  group NAME N                               and of a group's
  NAME:PASSWORD:UID:GID:GECOS:DIRECTORY:SHELL
                                             of --passwd, as passwd(5) has it
  NAME:PASSWORD:GID:MEMBERS                  of --group, as group(5) has it

In each file space, tab and CR at both ends of a line are trimmed, lines that are empty or begin with # are
ignored, and the first line for a name counts. A file has at most 16777216 bytes (16 MiB).";

pub const ADMIT_MORE: &str = "\
Printed for each UID:GID, the first that holds:

  accepted root-user                         the user is 0
  accepted root-group                        the group is 0
  accepted user                              the user is listed
  accepted group                             the group is listed
  refused 2 Access                           nothing lets them in

With --echo each stands behind its UID:GID in numbers: `1000:100 accepted user`. With --json each line is an object
(docs/CLI.md).

A fault of a file is told with the file, the line and what stands there, the names' before the conf files'. With -v
the line follows, and what is wanted there:

  cpgring: corosync.conf:6: 36 UnknownName, uid: nosuch
  line 6: uid: nosuch
               ^ VALUE: a number, or a NAME that the file of --names or --passwd has

Exit status: 0 done; 1 a fault of a file, or one of writing; 2 a fault of the command line, a FILE that can't be
read and a UID:GID with a name that no file has among them.";

pub const ACCEPT_ABOUT: &str = "Answers which credentials the conf texts of a script let in";

pub const ACCEPT_HELP: &str = "\
Reads names, conf texts and asks of a script, and prints whether the credentials of each ask are let in.
A line %names, %conf or %ask begins a part of the script, and the parts are taken in order; before
the first only empty lines and lines that begin with # may stand.

A %names part replaces the names. Each line is one of:

  user NAME N                                the number of a user's name
  group NAME N                               the number of a group's name

N is 0 to 4294967295. The first line for a name counts.

A %conf part adds users and groups to the list. It has the shape of Corosync's configuration files:

  NAME {                                     open a section
  KEY: VALUE                                 what the key is in its section
  }                                          close the section

Of all sections only uidgid at the outermost level is read: uid: VALUE lists a user and gid: VALUE a
group, and another key is a fault; VALUE is a number of at most 4294967295, or a name of the names before,
of a user or of a group. Every other section is skipped, one inside uidgid too, but its braces have to match
and its lines to have one of these shapes.

An %ask part has lines UID GID, each 0 to 4294967295. Each is answered by the list so far, with the first
that holds:

  accepted root-user                         UID is 0
  accepted root-group                        GID is 0
  accepted user                              UID is listed
  accepted group                             GID is listed
  refused 2 Access                           none of these

Space, tab and CR at both ends of a line are trimmed. Empty lines and lines that begin with # are ignored,
but count as lines. The input has at most 16777216 bytes (16 MiB). Nothing is printed before all parts were
read.";

pub const ACCEPT_MORE: &str = "\
Example:
  $ printf '%s\\n' %names 'user ann 7' %conf 'uidgid {' 'uid: ann' '}' %ask '7 100' '8 100' | cpgring accept
  accepted user
  refused 2 Access

With --json each answer is an object (docs/CLI.md).

Exit status: 0 done; 1 a fault, told on standard error; 2 a fault of the command line. A fault of a names
or conf part is told with the part's number and the line in the part, both from 1, as in `cpgring: part 2:
35 BadValue 2`: 31 BadLine LINE, 32 Unopened LINE, 33 Unclosed, 34 BadItem LINE, 35 BadValue LINE or
36 UnknownName LINE; where memory was refused to it, `cpgring: part 2: 1 Memory`. A line of an ask part that
is no ask, and one that may not stand before the first part, is `cpgring: 41 BadCommand LINE`, with the
script's line. The others are `cpgring: 42 Read`, also where the input is too long, `cpgring: 43 Write` and
`cpgring: 1 Memory`.";

pub const STEP_ABOUT: &str = "Runs the commands of a script over a ring of nodes";

pub const STEP_HELP: &str = "\
Sets up a ring of nodes that has sent its first token and nothing else, and runs the commands of a script
over it, one after the other. Nothing happens but by a command, so any loss, repeat and order of
frames can be played: a frame that no command brings stays under way, and one may be brought any number of times.
Each line is one command. These act:

  connect NODE PID UID GID                   a process asks the node to be let in
  call NODE CONN CALL                        a connection hands in a call, which waits for the token
  disconnect NODE CONN                       a connection ends
  frame NODE K                               the K-th frame that was ever sent reaches the node
  timer NODE                                 the node sends its last token again, if it sent one
  deliver NODE                               the node judges and delivers the next place, if it holds it
  take NODE CONN                             a connection takes the next event of its inbox
  list NODE CONN GROUP                       a connection asks for a group's members
  groups NODE CONN                           a connection asks for the groups that it may list

and these only look:

  show K                                     the K-th frame that was ever sent; frame 1 is the first token
  audit NODE                                 what the node delivered, with the verdicts
  rules NODE GROUP                           a group's rules as the node has them
  safe NODE                                  the place up to which the node knows that all nodes hold all

NODE is 1 to the number of nodes; CONN the connection's number at its node, 1 to 65535; PID, UID and GID are
0 to 4294967295; K is 0 to 18446744073709551615. CALL is one of join GROUP, leave, send TEXT, insert GROUP
POS EFFECT RIGHT WHO, and remove GROUP ID, as `cpgring judge --help` has them.

Space, tab and CR at both ends of a line are trimmed. Empty lines and lines that begin with # are ignored,
but count as lines. The input has at most 16777216 bytes (16 MiB).";

pub const STEP_MORE: &str = "\
Printed is for each command, after it is done: connected CONN, admitted, closed, sent COUNT (of frames, by a
frame that was brought or a timer), delivered PLACE or delivered none, the event as `cpgring judge` prints
it or none, members MEMBERS, groups and their names; for show a frame, as in the example, or data PLACE
NODE.CONN PID UID GID CALL; for audit the lines of `cpgring judge` and records COUNT; for rules ID EFFECT
RIGHT WHO of each and rules COUNT; and safe PLACE. With --numbers, frames K K ... stand behind `sent COUNT`,
the numbers by which later commands bring them; with --echo each line stands behind the number of its script line
and what its command is of, a connection `7 1.2 `, a node `7 n1 ` or nothing `7 - `; by either all is printed once
the script is done. With --json each line is an object (docs/CLI.md), and either is a field of it. With --why=PLACE
none of this is printed, but why the entry at that place was answered as it was, as `cpgring why` tells it, by what the
node that delivered most delivered; --why=NODE.CONN:EVENT tells it of the entry that told the connection that event,
--why=all of each denied entry, --why=NODE.CONN the way of a connection. With --checked a line `=> TEXT` behind a
command says that TEXT is the next line that it prints, and `=>` alone that it prints no more; where lines are said of
a command, they are all that it prints. What is not so is told on standard error,
`cpgring: line 3: wanted \"sent 2\", printed \"sent 3\"`, and the script goes on. A command that is refused prints the
refusal, as in `refused 10 Stale`, and the script goes on:

  2 Access           nobody lets the credentials in
  3 NoConnection     the node has no open connection of that number
  4 BadName          a group's name is not 1 to 128 printing ASCII characters
  5 TooLong          a message has more than 8192 bytes
  6 QueueFull        256 calls wait at the node
  7 ConnectionsFull  the node has given out its 65535 numbers
  9 NotMine          the token's hop is for another node
  10 Stale           that hop or a later one was accepted
  12 Held            the node has that place
  13 FarAhead        the place is more than 64 past what the node delivered
  15 RingEnd         the token's last hop is used
  16 NoFrame         so many frames were not sent
  21 Denied rule ID  a rule denies the listing

Example: frame 2, the data of place 1, never reaches node 2. The token that node 2 sends on (frame 5) asks
for place 1 in rtr, node 1 sends it again (frame 6), and node 2 delivers both places in their order.
  $ printf '%s\\n' 'connect 1 40 7 100' 'call 1 1 join db' 'call 1 1 send hi' 'frame 1 1' 'frame 2 3' \\
      'deliver 2' 'frame 2 4' 'show 5' 'frame 1 5' 'frame 2 6' 'deliver 2' 'deliver 2' 'audit 2' |
    cpgring step uid:7
  connected 1
  admitted
  admitted
  sent 3
  sent 0
  delivered none
  sent 1
  token hop 2 seq 2 aru 0 id 2 rtr 1
  sent 2
  sent 0
  delivered 1
  delivered 2
  1 1.1 40 7 100 join db -> allowed default group db members 1/40
  2 1.1 40 7 100 send hi -> allowed default group db members 1/40
  records 2

Exit status: 0 done; 1 a fault, told on standard error, or with --checked a line that was not as wanted; 2 a fault of
the command line, `cpgring: bad accept word` among them, and with --why a PLACE that has no entry, a connection that made
none and an EVENT that was not told: `cpgring: there is no entry 9: 2 were delivered`. The faults are `cpgring: 41
BadCommand LINE`, the first line that is no command, before which nothing is done or printed; `cpgring: 42 Read`, also
where the input is too long; `cpgring: 43 Write`; and `cpgring: 1 Memory`, which ends the script at the command that met
it.";

pub const DRAW_ABOUT: &str = "Draws the run of a `step` script";

pub const DRAW_HELP: &str = "\
Runs the commands of a script over a new ring as `cpgring step` does, and draws what the frames did: the nodes
are columns, and time goes down, a row for each command. Printed is one SVG, which a browser opens, or with
--text lines for a terminal. The script and the options are those of `cpgring step`; its help has the commands.";

pub const DRAW_MORE: &str = "\
In the SVG an arrow goes from the row that sent a frame to the row that brings it, with the frame's place or hop:
solid is data, dashed data that is served again, dotted the token. Towards each node that a frame went to and did
not come to goes a stub, which ends in a cross where the frame is lost, and in an open diamond where it is under way;
the first two of a row for a node have their place or hop beyond that node's column. The title of an arrow or a stub
is the frame as `show` of `cpgring step` prints it. The nodes' numbers come again every 40 rows. Right of the columns
stands what a row of --text has, cut after 112 letters; its title then has all of it.

--rows=A..B draws the commands A to B alone, as if the script ended with B: a frame that comes later is then under way.
Rows above A are not shown, nor what became of their frames; an arrow from there begins with an open diamond below the
nodes' numbers. --frames-only folds away each row that neither sends a frame nor brings one. Rows keep their numbers.

With --text, in a row `*` is the node that the command is at, and an arrow comes in from the node that sent the frame
that the row brings, marked `o`: --> is data, ==> data that is sent again, ..> the token. The first token, which was
sent before the script, comes from outside. After the columns stand the row's number and

  COMMAND, WHAT of row ROW: ENTRY, sends K WHAT: ENTRY, waiting COUNT, safe PLACE: ANSWER

COMMAND is its first word, with the frame's or the connection's number, and the call that it hands in; then what the
frame is that it brings, and the row that sent it; each frame that the row sends, with its number; how many calls wait
at the node, and its safe mark; and what `cpgring step` prints, with the entry that was delivered and its verdict.
WHAT is data PLACE, again PLACE or token HOP; data has an ENTRY, NODE/PID and its call. A command that only looks has
no answer: its row says what the frame is that is shown, or how the node stands.

Last come the frames that did not come to a node that they went to, data to every other node and the token to the
next: `lost K WHAT of row ROW` where a later frame of the same sender came to that node, as links keep their order,
and `under way K WHAT of row ROW` where none did. With three nodes or more, ` for node NODE` follows for data, and
there is a line for each node. Nothing is printed before the picture is whole.

Example: frame 2, the data of place 1, never reaches node 2.
  $ cpgring draw lost.step uid:7 > lost.svg
  $ printf '%s\\n' 'connect 1 40 7 100' 'call 1 1 join db' 'call 1 1 send hi' 'frame 1 1' 'frame 2 3' \\
      'frame 2 4' 'frame 1 5' 'frame 2 6' 'deliver 2' |
    cpgring draw --text uid:7
     1   2  row
     |   |  0 start, sends 1 token 0
     *   |  1 connect, waiting 0, safe 0: connected 1
     *   |  2 call 1 join db, waiting 1, safe 0: admitted
     *   |  3 call 1 send hi, waiting 2, safe 0: admitted
  ..>*   |  4 frame 1, token 0 of row 0, sends 2 data 1: 1/40 join db, sends 3 data 2: 1/40 send hi, sends 4 token 1, \
waiting 0, safe 0: sent 3
     o-->*  5 frame 3, data 2 of row 4: 1/40 send hi, waiting 0, safe 0: sent 0
     o..>*  6 frame 4, token 1 of row 4, sends 5 token 2, waiting 0, safe 0: sent 1
     *<..o  7 frame 5, token 2 of row 6, sends 6 again 1: 1/40 join db, sends 7 token 3, waiting 0, safe 0: sent 2
     o==>*  8 frame 6, again 1 of row 7: 1/40 join db, waiting 0, safe 0: sent 0
     |   *  9 deliver, waiting 0, safe 0: delivered 1: 1/40 join db -> allowed default
  lost 2 data 1 of row 4
  under way 7 token 3 of row 7

Exit status: 0 done; 1 a fault, told on standard error; 2 a fault of the command line, `cpgring: bad accept
word` among them. The faults are `cpgring: 41 BadCommand LINE`, the first line that is no command; `cpgring: 42
Read`, also where the input is too long; `cpgring: 43 Write`; and `cpgring: 1 Memory`.";

pub const RUN_ABOUT: &str = "Runs the commands of a script over a running cluster";

pub const RUN_HELP: &str = "\
Starts a cluster in this process, a thread for each node and links between them that lose nothing but what finds them
full and what --lose asks for, and runs the commands of a script over it, one after the other. The nodes pass the
token round and deliver by themselves, so a script says only what processes do at their nodes. Each line is one
command:

  connect NODE PID UID GID                   a process asks the node to be let in, and gets a session
  call S CALL                                session S hands in a call, which waits for the token
  wait S                                     session S takes the next event of its inbox, when there is one
  list S GROUP                               session S asks for a group's members
  groups S                                   session S asks for the groups that it may list
  audit S                                    the records that session S has seen, with the verdicts
  close S                                    session S ends
  safe NODE                                  the place up to which the node knows that all nodes hold all

Sessions have the numbers 1, 2 and so on, in the order in which they were let in. NODE is 1 to the number of
nodes; PID, UID and GID are 0 to 4294967295. CALL is one of join GROUP, leave, send TEXT, insert GROUP POS
EFFECT RIGHT WHO, and remove GROUP ID, as `cpgring judge --help` has them.

A node's calls are entered in the order in which they were handed in. Calls of two nodes are ordered by the
token, so a script that wants one order waits for the event of the one before it makes the other.

Space, tab and CR at both ends of a line are trimmed. Empty lines and lines that begin with # are ignored,
but count as lines. The input has at most 16777216 bytes (16 MiB).";

pub const RUN_MORE: &str = "\
Printed is for each command, after it is done: session S, admitted, closed, the event as `cpgring judge` prints it,
or none where after 1000000 looks there still was none (with -v, a line that begins with # says what is known then:
how many of the ring's places the session has seen, and after how many hops the ring ends), members MEMBERS, groups
and their names, for audit the lines of `cpgring judge` and records COUNT, and safe PLACE. What was printed is handed
on before a wait begins. With --wait=MS a wait looks for so many milliseconds, and at least once; with --echo each
line stands behind the number of its script line and its session, `7 s2 `, or `7 - ` where it has none. With --lose=N
so many of 100 frames are lost on their way, and with --repeat=N so many of 100 of the others come twice; --seed=N
chooses which: the frame of a number between two nodes meets the same fate in each run. What sessions are told stays the
same, and takes longer. With --why=PLACE none of this is printed, but, once all commands are done, why the entry at
that place was answered as it was, as `cpgring why` tells it; --why=NODE.CONN:EVENT tells it of the entry that told
the connection that event, --why=all of each denied entry, --why=NODE.CONN the way of a connection, and --why=PLACE
with --to=NODE.CONN why that connection was told of the entry, or was not, or --to=PID why each of that process was: a
session is named by its connection, which its audit shows. All entries that the nodes have judged by then are told of,
so wait for a call's verdict before the script ends. With --trace=FILE all that happened in the nodes, each frame,
delivery and answer in the order in which it came, is written to FILE once the nodes have stopped, as a script that
`cpgring step $(cat FILE.words) < FILE` plays again and `cpgring draw` draws; FILE.words has the words for that. With
--checked lines `=> TEXT` say what is printed, as `cpgring step --help` has it, a NAME, which begins with a letter, stands for a session's
number, and these are commands, too; nothing is held or cut past the script:

  connect NODE PID UID GID as NAME           the session gets that name, too
  wait S MS                                  session S waits so many milliseconds for the next event
  drain S                                    session S takes all events that have come, and prints no none
  hold NODE, let NODE                        the node's turns wait, and go on
  cut NODE NODE, mend NODE NODE              all frames between two nodes are lost, and come again

A command that is refused prints the refusal, and the script goes on:

  2 Access           nobody lets the credentials in
  3 NoConnection     no open session has the number
  4 BadName          a group's name is not 1 to 128 printing ASCII characters
  5 TooLong          a message has more than 8192 bytes
  6 QueueFull        256 calls wait at the node
  7 ConnectionsFull  the node has given out its 65535 numbers
  19 Behind PLACE    the node has only so many records, fewer than the session has seen
  20 Stopped         the node has stopped
  21 Denied rule ID  a rule denies the listing

Example:
  $ printf '%s\\n' 'connect 1 40 7 100' 'connect 2 50 0 0' 'call 1 join db' 'wait 1' 'wait 1' \\
      'call 2 send hi' 'wait 2' 'call 1 send hi' 'wait 1' 'wait 1' 'audit 1' |
    cpgring run uid:7
  session 1
  session 2
  admitted
  event 1 verdict allowed default
  event 1 change db members 1/40 left - joined 1/40:join
  admitted
  event 2 verdict denied closed
  admitted
  event 3 verdict allowed default
  event 3 message db 1 40 hi
  1 1.1 40 7 100 join db -> allowed default group db members 1/40
  2 2.1 50 0 0 send hi -> denied closed
  3 1.1 40 7 100 send hi -> allowed default group db members 1/40
  records 3

What a rule decided, explained:
  $ printf '%s\\n' 'connect 2 50 0 0' 'call 1 insert db 0 deny join uid:7' 'wait 1' \\
      'connect 1 40 7 100' 'call 2 join db' 'wait 2' |
    cpgring run --why=2 uid:7
  entry 2: 1.1 40 7 100 join db
  verdict: denied rule 1
  decided: rule 1 at 0 of 1 in db: deny join uid:7
  put in: entry 1: 2.1 50 0 0 insert db 0 deny join uid:7
  without it: allowed default

Exit status: 0 done; 1 a fault, told on standard error, or with --checked a line that was not as wanted; 2 a fault of
the command line, `cpgring: bad accept word` among them, and with --why a PLACE that has no entry, a connection that made
none and an EVENT that was not told: `cpgring: there is no entry 9: 2 were delivered`. The faults are `cpgring: 41
BadCommand LINE`, the first line that is no command, before which nothing is done or printed; `cpgring: 42 Read`, also
where the input is too long; `cpgring: 43 Write`; and `cpgring: 1 Memory`, which ends the script at the command that met
it, also where a thread is not given.";

pub const SHELL_ABOUT: &str = "Answers commands over a running cluster as they are typed";

pub const SHELL_HELP: &str = "\
Starts a cluster as `cpgring run` does, and answers its commands line by line as they are typed, each at once:
`cpgring run --help` has them. `help` prints them; empty lines and lines that begin with # print nothing. A line
that says nothing is told on standard error by its number, from 1, and the next is read; so is one of more than
1048576 bytes. The end of the input stops the cluster.

Over a pipe it serves as a driver for the tests of other programs: what a line prints is there before the next
line is read. With -v, a line that begins with # says behind a none what is known. With --checked the lines may be those
that `cpgring run --checked` has beside its own, too.";

pub const SHELL_MORE: &str = "\
Example:
  $ printf '%s\\n' 'connect 1 40 7 100' 'jump' 'call 1 join db' 'wait 1' | cpgring shell --nodes=1 uid:7
  session 1
  cpgring: 41 BadCommand 2
  admitted
  event 1 verdict allowed default

Exit status: 0 at the end of the input, whatever lines said nothing; 1 a fault, told on standard error, or with
--checked a line that was not as wanted; 2 a fault of the command line. The faults are those of `cpgring run`, but for
the bad lines.";
