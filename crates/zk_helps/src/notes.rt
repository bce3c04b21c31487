//! The notes under the helps of the commands: their errors, their lines, and what they print.

/// Where the errors of all commands are explained.
pub(crate) const FAULTS: &str =
    "The status is 0, 2 for a rejected command line, and else 1 with one line on standard error. The help
of each command lists these lines; with --explain, or on a terminal, a second one says what it means
and what helps. In the source repository, docs/ERRORS.md explains them.";

/// The errors of `zk show` and `zk list`.
pub(crate) const LOG_NOTES: &str =
    r#"Errors, on standard error after `zk: `; AT is the byte where the entry begins:
  G1          not a transaction log: a snapshot, compressed or empty
  G2 AT       checksum mismatch: the entry is corrupt
  G3 AT       no record of a 3.4 to 3.8 server, nor, on standard input, of a 3.4 one
  G4 AT       the zxid is not above the one before
  G5 AT       the length is above 16777216 bytes
  G6          a read failed
  G7          no end after 1048576 reads
Of a directory these have the file's NAME before AT, and there are more. One log of a 3.5 to 3.8 server is
read as a directory that has only it:
  D1          no snapshot and no log
  D2 FIRST    no snapshot serves, and the logs begin with FIRST
  D3 FROM TO  the transactions between these two are missing
  D4 NAME AT  another entry than an earlier one of its zxid
  D5 NAME ZXID
              the logs end before ZXID, from which this snapshot is exact
  D6 NAME ZXID
              this snapshot is exact from ZXID on, and no earlier one serves
  D7 LAST     what was asked for comes after LAST, the last transaction
  D8          no log has a transaction
  S1 NAME to S8 NAME
              this snapshot is unusable, and no log has a record
and `read` and `write` if a file or directory cannot be opened or written, and `memory`.
With status 0, of what the logs hold, and on what a tree rests beyond the files:
  range FIRST LAST TIME TIME
              a listing is of the transactions from FIRST to LAST; others were before
  lost LOG FROM NEXT TIME TIME
              this log is damaged: the transactions between these two are left out
  ends ZXID   no log has a transaction after this snapshot's
  unproved LAST NEXT
              nothing shows that LAST is the last transaction of its epoch
  otherDigest N FIRST
              N records, from FIRST on, state other digests than those of the trees

With --json a line is an object of JSON. `zk list` also takes --time iso, for times in UTC, and of a
directory --follow: it goes on as the server writes, until it is stopped or its output is closed.

In the source repository, docs/ERRORS.md has what helps."#;

/// The lines of `zk verify`, and its errors.
pub(crate) const VERIFY_NOTES: &str =
    r#"Each log is read as far as a server reads it, and then searched for intact entries; each snapshot, the
latest first, is followed in the logs to the zxid from which the next one is exact. The lines are:
  NAME records N FIRST LAST end ..
                      a log, as `zk files` prints it
  lost LOG WHY AT TO FROM NEXT TIME TIME
                      the bytes AT to TO hold no entry, and intact ones follow: the transactions between
                      FROM and NEXT are lost. WHY is what a server finds at AT: G1 to G5, padding or torn
  zk: D3 FROM NEXT TIME TIME
                      the transactions between FROM and NEXT are in no log
  NAME to LAST digest N otherDigest N exact ZXID
                      a snapshot: it leads to the states from ZXID to LAST, and N records state the
                      digest of the tree after them, or another; `empty` is the empty tree, if there is
                      no snapshot; `to none`, if a fault of a log keeps it from a state
  missing LAST NEXT   after LAST, at the end of its epoch, transactions are missing: the digests say so
  unproved LAST NEXT  no digest says whether LAST is the last transaction of its epoch
  otherDigest ZXID TIME SESSION PATH
                      the first record that states the digest of another tree
  zk: ..              a fault, as other commands print it on standard error
  help ..             what helps against each kind of fault
  well, or wrong N    nothing is wrong, or N things are; then the status is 1

Errors, on standard error after `zk: `:
  D1          no snapshot and no log
and `read` if a directory cannot be read, `write` and `memory`."#;

/// The lines of `zk diff`, and its errors.
pub(crate) const DIFF_NOTES: &str =
    r#"The trees are those that `zk show` prints. The lines are, in order of path:
  + TIME ZXID NODE    the second tree alone has this node, in the form of `zk show`
  - TIME ZXID NODE    the first tree alone has it
  < TIME ZXID NODE    a node that differs, in the first tree
  > TIME ZXID NODE    the same node in the second tree
TIME, in UTC, and ZXID are those of the last transaction between the two that created, changed or deleted
the node or one of its children. Both are - where the logs do not lead from the one tree to the other.

Errors, on standard error after `zk: `, are those of `zk show` of a directory."#;

/// The lines of `zk restore`, and its errors.
pub(crate) const RESTORE_NOTES: &str =
    r#"The tree is that of `zk show`. The lines create the nodes with their contents and access control lists,
parents first, and set the root. They assume that the parent is there and that these nodes are not, and a
UTF-8 locale. Versions, times and zxids are not restored; containers and nodes with a time to live become
plain nodes. Comments, which begin with #, name what is left out:
  ephemeral nodes, and /zookeeper, /zookeeper/config and /zookeeper/quota
  contents that zkCli.sh cannot read: bytes that are no UTF-8, ends of lines, both " and '
  nodes whose path or access control list it cannot read

Errors, on standard error after `zk: `, are those of `zk show` of a directory."#;

/// What `zk snapshot` writes, and its errors.
pub(crate) const SNAPSHOT_NOTES: &str =
    r#"The snapshot has the tree and the open sessions that `zk show` prints, and the digest of the tree. A
server starts from it if its name is `snapshot.ZXID` in the server's version-2, with the zxid of the last
transaction in hexadecimal digits without leading zeros, and no log is there but those that continue it.

OUT is created or truncated once the state is known: an error other than `write` and `memory` leaves it as
it was.

Errors, on standard error after `zk: `, are those of `zk show` of a directory, and
  long        a text or a number of the state has no field in a snapshot"#;

/// The lines of `zk history`, and its errors.
pub(crate) const HISTORY_NOTES: &str =
    r#"A line has the time in UTC, the zxid, the operation as in a listing, and the session. `expired` follows
the end of a session that the leader closed. With -r the paths of the nodes follow. With --json a line is
an object of JSON.

The end of a session deletes the nodes that its record lists, as those of 3.6 and later do, or else the
ephemeral nodes that the session created in these logs.

Errors, on standard error after `zk: `, are those of `zk list` of a directory. With status 0:
  range FIRST LAST TIME TIME
              the lines are of the transactions from FIRST to LAST; others were before
  lost LOG FROM NEXT TIME TIME
              this log is damaged: the transactions between these two are left out"#;

/// The lines of `zk compare`, and its errors.
pub(crate) const COMPARE_NOTES: &str =
    r#"Transactions are compared by zxid, between the first zxid and the last one that both directories have. Two
records of one transaction may have other digests, a failed multi may have kept its requests, and the end of
a session may list its nodes: all else must be the same, byte for byte. Then the trees are compared that
`zk show` prints of both, after the last transaction of that range. The status is 1 if a transaction or a
node differs, or if both have no transaction in common.
  before first N FROM TO TIME TIME  DIR has N transactions more, and DIR2 begins after them; `second`: DIR2 has
  same N FROM TO TIME TIME          both have these
  lost N                            one has N transactions where the other lost some
  differ ZXID A B                   A is what DIR has of this zxid, B what DIR2 has: the time, the operation,
                                    the session and the path, or `- - - -`; of a thousand differences
  differences N                     their number
  after first N FROM TO TIME TIME   DIR has N transactions more, and DIR2 ends before them; `second`: DIR2 has
  node first PATH                   the trees differ: DIR alone has the node; `second`: DIR2 alone; `both`: its
                                    data, ACL or stat differ; of a thousand nodes
  tree ZXID N                       their number, after this transaction
  compare "DIR" "DIR2"              of three or more directories: the two that the lines below are about
If A and B are alike, contents differ: see `zk list` of both. With --json a line is an object of JSON.

Lines on standard error say what the answer does not cover:
  zk: lost first FROM NEXT TIME TIME  DIR lost transactions between these two; `second`: DIR2
  zk: broken first G2 FILE AT         a log is broken from here on; also G1 to G6
  zk: tree first D2 ZXID              DIR's files prove no tree after that transaction, and no trees are compared
  zk: compare "DIR" "DIR2"            of three or more directories: the two that the lines below are about
The notices of `zk show` on the two trees follow.

Errors, on standard error after `zk: `, are D1, D4 and D8 of a directory, and `read`."#;

/// The lines of `zk top`, and its errors.
pub(crate) const TOP_NOTES: &str =
    r#"A line has the number of writes, and the path or the session. A write creates, changes or deletes a
node, alone or as a part of a multi. Nodes that end with a session are no writes. With --json a line is
an object of JSON.

Errors, on standard error after `zk: `, are those of `zk list` of a directory. With status 0:
  range FIRST LAST TIME TIME
              the lines count the transactions from FIRST to LAST; the range asked for goes beyond
  lost LOG FROM NEXT TIME TIME
              this log is damaged: the transactions between these two are left out"#;

/// The lines of `zk sessions`, and its errors.
pub(crate) const SESSIONS_NOTES: &str =
    r#"A line is `SESSION opened TIME ZXID timeout MS writes N created N deleted N left N`, and then `open`,
`closed TIME ZXID` by its client, or `expired TIME ZXID`. Its writes are the nodes that its requests created,
changed or deleted; the other numbers count its ephemeral nodes. Sessions and ephemeral nodes from before
the logs are those of the first snapshot; `unknown` is what no file has. With --json a line is an object of
JSON.

The status is 1 if there is no session. Errors and notices are those of `zk history`."#;

/// The lines of `zk session`, and its errors.
pub(crate) const SESSION_NOTES: &str =
    r#"The first line is that of `zk sessions`. A line for each of its transactions follows, as `zk history -r`
prints them. With --json a line is an object of JSON.

The status is 1 if no file has the session. Errors and notices are those of `zk history`."#;

/// The lines of `zk files`, and its errors.
pub(crate) const FILES_NOTES: &str = r#"A line has the file's name, and then:
  nodes N sessions N exact ZXID
                      of a snapshot: from ZXID on, a replay of the logs is exact; `or later` follows
                      where the snapshot does not state that
  S1                  not a snapshot
  S2                  the snapshot ends early
  S3                  a length, a number or a text is invalid
  S4                  checksum mismatch: the snapshot is corrupt
  S5                  bytes follow its end
  S6                  compressed
  records N FIRST LAST
                      of a log: its records, and the zxids of the first and the last
  end whole, end padding, end torn AT
                      how the log ends
  G1, G2 AT, G3 AT, G4 AT, G5 AT
                      why the log is rejected, as `zk list --help` says
  gap FROM TO         the transactions between these two are missing
  unread NAME         of a name that a server reads too: the file NAME is read in its place
With --json a line is an object of JSON.

Errors, on standard error after `zk: `; NAME is the file's:
  D1          no snapshot and no log
  G6 NAME     a read of the file failed
and `read` if a directory cannot be read, `write` and `memory`.

In the source repository, docs/ERRORS.md has what helps."#;

/// What `zk asm` does with its output, and its errors.
pub(crate) const ASM_NOTES: &str =
    r#"FILE is truncated before TEXT is read, so never write to the file that TEXT comes from: write a new
file, and then `mv` it.

Errors, on standard error after `zk: `; LINE counts from 1:
  L1 LINE     a field is missing, empty or one too many, or a separator is not one space
  L2 LINE     a bad number
  L3 LINE     a bad quoted text
  L4 LINE     a bad content
  L5 LINE     an unknown word
  L6 LINE     a bad path
  L7 LINE     the last line has no newline
and `order LINE` if the zxid does not rise, `length LINE` if the record is longer than 16777216 bytes,
`utf8`, `read`, `write` and `memory`.

In the source repository, docs/ERRORS.md has what helps, and docs/FORMATS.md the format."#;

/// What `zk mend` reports, and its errors.
pub(crate) const MEND_NOTES: &str =
    r#"FILE is a log of a 3.4 to 3.8 server. Standard output has a report: the number of records, how many did
not change, each kind of change with its count and the offset of the first, and how FILE ends.

OUT is for reading: no server should continue it. It stays empty if FILE is rejected.

Errors, on standard error after `zk: `; AT is the byte where the entry begins:
  G1          not a transaction log: a snapshot, compressed or empty
  G2 AT       checksum mismatch: the entry is corrupt
  G3 AT       no record of a 3.4 to 3.8 server
  G4 AT       the zxid is not above the one before
  G5 AT       the length is above 16777216 bytes
  G6          a read failed
  G7          no end after 1048576 reads
  N1 AT       a failed multi without a reason: it would be applied
  N2 AT       the end of a session lists a node that the session does not own
  N3 AT       the record of 3.4 would be longer than 16777216 bytes
and `read` and `write` if a file cannot be opened or written, and `memory`.

In the source repository, docs/ERRORS.md has what helps, and docs/FORMATS.md the changes."#;

/// The lines of a debug script and of a session, and their errors.
pub(crate) const DEBUG_LINES: &str = r#"Lines of a debug script, one command each:
  step                one place up
  back                one place down
  run                 up to the first place that matches a breakpoint, or to the end
  runback             down to the last one that does, or to the start
  goto ZXID           to the place after all transactions up to this zxid
  tree                prints the tree at the place
  node PATH           prints one node of it
  last                prints the result of the transaction just applied
  break at ZXID       sets a breakpoint on a zxid
  break path PATH     on a path that a transaction or a part names, or a closed session deletes
  break session ID    on a session
  break kind WORD     on a kind of transaction
  break error         on a result whose code is not 0
  clear N             removes breakpoint N
  reset               back to the start; breakpoints stay

Lines of a session, which has no SCRIPT, besides these:
  help                prints the lines of a session, and their short forms
  step N              N places up, or to the end
  tree PATH           prints the nodes at and below a path
  list [N]            prints the log around the place, marked >: N lines on each side, or 5
  diff                prints what the last move changed: - removed, + added, < before, > after
  diff last           prints what the transaction just applied changed
  break prefix PATH   sets a breakpoint on a path and all below it
  info breaks         prints the breakpoints
  quit                ends the session, as the end of input does

Words of a kind:
  create0 create delete setData setACL createSession closeSession error multi

A place is a number of applied transactions. A ZXID and an ID are sixteen lower-case hexadecimal
digits, and a PATH stands in double quotes.

Errors among the results:
  B1          no transaction above
  B2          no transaction below
  B3          no such breakpoint
  B4          out of memory; after a move, `reset` before anything else
  B5          the debugger failed earlier: `reset`
  B6          all 65535 numbers of breakpoints are used

Errors, on standard error after `zk: `; AT is the byte where the entry begins:
  G1          not a transaction log: a snapshot, compressed or empty
  G2 AT       checksum mismatch: the entry is corrupt
  G3 AT       no record of a 3.4 to 3.8 server, nor, on standard input, of a 3.4 one
  G4 AT       the zxid is not above the one before
  G5 AT       the length is above 16777216 bytes
  G6          a read failed
  G7          no end after 1048576 reads
and `script LINE` if a line is no command, `utf8`, `read`, `write` and `memory`.

In the source repository, docs/ERRORS.md has what helps, and docs/FORMATS.md the results."#;

/// The lines of a run script, and its errors.
pub(crate) const RUN_LINES: &str = r#"Lines of a run script, one command each:
  servers N           the first line, and no other: starts N servers, 2 to 15
  servers N weights WEIGHT ..
                      the same, and each has its weight; else each weighs 1
  lead P              makes server P lead
  follow P Q          makes server P follow Q
  arrive K            message K arrives at its addressee
  crash P             server P stops
  restart P           server P starts again
  submit P TAG SESSION CXID NOW AUTHS REQUEST
                      submits a client's request at P
  expire P TAG SESSION NOW
                      submits the end of a session at P
  sync P TAG          asks P to catch up with its leader
  read P SESSION SEEN AUTHS READ
                      a client reads at P
  delivered P         prints the entries that P has delivered
  history P           prints the entries of its history, delivered or not
  answers P           prints the result of each delivered entry
  syncs P             prints the completed syncs of P, each with its length
  events P            prints the events that watches at P fired
  tree P              prints the tree of P

A REQUEST:
  create [-s] [-e] PATH CONTENT ACL
  delete PATH VERSION
  set PATH CONTENT VERSION
  setacl PATH ACL VERSION
  open TIMEOUT
  close
  multi               and ` ; ` before each part: a create, delete or set, or a
  check PATH VERSION

A READ:
  get [-w] PATH       content and stat; -w sets a watch
  stat [-w] PATH      the stat
  ls [-w] PATH        the names of the children, and the stat
  getacl PATH         the access control list, and the stat

SESSION and SEEN are sixteen lower-case hexadecimal digits, a PATH stands in double quotes, AUTHS is
a number and as many quoted identities.

Errors among the results:
  E1 SEEN AT  the client has seen more than this server has delivered
  E2          no such server, or it would follow itself
  E3          no such message
  E4          the server is down
  E5          the server is not down
  E6          the server takes no calls now
  E7          the tag is used
  E8          no epoch is left, or no number in it
  E9          out of memory: nothing has happened
  E10 P       out of memory: server P has crashed

Errors, on standard error after `zk: `: `script LINE` if a line is no command, `utf8`, `read`, `write`
and `memory`.

In the source repository, docs/ERRORS.md has what helps, and docs/FORMATS.md the results."#;

/// The lines of a connection, and their errors.
pub(crate) const SERVE_LINES: &str =
    r#"The servers run as threads, and their trees end with the command. Server 1 leads, and serves the
connections. Standard output has `listening PORT` once a client can connect.

Lines of a connection, one command each:
  open TIMEOUT        opens a session; the timeout is in milliseconds, 4000 to 40000
  addauth digest "USER:PASSWORD"
                      adds an identity to the session
  create [-s] [-e] PATH CONTENT ACL
                      creates a node; -s appends a number to its name, -e ends it with the session
  delete PATH VERSION
                      deletes a node; version -1 is any
  set PATH CONTENT VERSION
                      changes its content
  setacl PATH ACL VERSION
                      changes its access control list
  get [-w] PATH       content and stat; -w sets a watch
  stat [-w] PATH      the stat
  ls [-w] PATH        the names of the children, and the stat
  getacl PATH         the access control list, and the stat
  sync PATH           server 1 catches up with the leader
  multi               the lines up to `commit` are its parts: a create, delete or set, or a
  check PATH VERSION  and they have no reply
  commit              all parts are applied, or none
  close               ends the session
  ruok                replies `imok`

The server replies to each line before it looks at the next. `event KIND PATH` before a reply means
that a watch of the session fired: KIND 1 a node was created, 2 deleted, 3 its content changed, 4 its
children changed. A reply is `ok` with the result, `err CODE`, `err server` or `err behind`.

A PATH stands in double quotes.

Errors, on standard error after `zk: `: `listen` if the port cannot be opened or accepts no more,
`write` and `memory`; and at the end, by a defect of the program:
  C1          calls, receipts and events differ
  C2 INDEX    a receipt does not match its event

In the source repository, docs/ERRORS.md has the codes, and docs/FORMATS.md the fields and replies."#;

/// What an ensemble prints, and the commands of its operator.
pub(crate) const ENSEMBLE_LINES: &str =
    r#"Standard output has `serving PORT ..`, the port of each server, once a client can connect. The
ensemble runs in one process until that is ended. Without `--data` its data ends with it.

With it, the data of server P is in DIR/P, whose log `zk show DIR/P` reads. Acknowledged writes are
stored there, even if the process is killed. The next run on DIR has the same number of servers.

Lines of standard input, one command each; each prints what every server then does:
  crash P             server P stops; its clients go to others
  restart P           server P starts again, with what it had stored
  lead P              makes server P lead
  cut P Q             cuts the link between servers P and Q
  heal                makes all links healthy
  status

A client is closed at 4 MB of unsent bytes. A server that runs out of memory starts again within two
seconds; one whose store fails stays down until the next run. Standard error has a line for each.

FILE of `--record` has the events in which `zk run` delivers the same transactions at each server,
with the same results and trees. If it ends before the ensemble, standard error has the reason.

Errors, on standard error after `zk: `: `listen` if a port cannot be opened or ADDR is no IPv4 address,
`data` and the reason if DIR cannot be used, `read`, `write` (also of FILE) and `memory`."#;
