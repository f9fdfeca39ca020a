// The help and the version.

/// What `--help` prints.
pub fn help_text() -> &'static str {
    HELP
}

/// What `--version` prints. The number is that of the file VERSION at the root of the repository.
pub fn version_line() -> &'static str {
    "bfqhost 0.1.0\n"
}

/// The line of the help on a refusal or a cause, without the blanks before it: `28 NotHeld: ..`. The exit statuses, which begin with a
/// number too, have no colon.
pub fn meaning_of(number: &str) -> Option<&'static str> {
    for line in HELP.lines() {
        let line = line.trim_start();
        if let Some((first, rest)) = line.split_once(' ') {
            if first == number && rest.contains(':') {
                return Some(line);
            }
        }
    }
    None
}

const HELP: &str = "\
NAME
    bfqhost - a block I/O host whose every step can be undone

SYNOPSIS
    bfqhost sim [OPTION]... < SCRIPT
    bfqhost serve --image FILE --dir DIR [OPTION]...
    bfqhost replay RECORD [OPTION]... < SCRIPT
    bfqhost --help | --version

EXAMPLE
    $ printf 'attach 0 0 4\\nwrite 0 1 5 1 65\\ndispatch\\nfinish 0 3 stored\\nreap 0 1\\n' | bfqhost sim
    attached 1
    queued 2
    issued 0 3 store 5 1
    finished 1
    completed 2 written

OPTIONS of sim and serve
    --scheduler NAME     the scheduler: bfq or none (bfq)
    --nr-requests N      requests at most, 1 to 256 (64)
    --tags N             tags of the device, 1 to 64 (4)
    --first-budget N     sectors of a new queue's budget, 256 to --max-budget (1024)
    --max-budget N       sectors of the greatest budget, 256 to 65536 (4096)
    --timeout N          ticks until a queue in service expires, 1 to 1000 (8)
    --history N          accepted calls at most, 1 to 16777216 (65536)
    --first-vtime N      virtual time at the start, 0 to 2^62 (0)
    --image FILE         the device is this file, which is read and never written
    --help, -h           print this help
    --version            print the version; no other word may stand beside it

OPTIONS of sim
    --sectors N          sectors of a device of zeros, 0 to 65536 (1024); not used if there is an image
    --payload FILE       a write line may take its bytes from this file, of 64 MiB at most

OPTIONS of serve
    --dir DIR            the folder of the sockets: client0, client1 and so on, operator and inspect
    --clients N          clients that have a socket, 1 to 16 (4)
    --workers N          workers of the device, 1 to 4 (2)
    --delay US           each request takes a worker so many microseconds at least, 0 to 1000000 (0)
    --bad START+COUNT,.. a read that has one of these sectors fails; at most 16 runs of sectors
    --no-inspect         no socket inspect
    --record FILE        every accepted call goes to FILE, which must not be there

OPTIONS of replay
    --image FILE         the device of the script is this file; else it is of zeros
    --payload FILE       a write line of the script may take its bytes from this file, of 64 MiB at most
    --history N          accepted calls at most, in place of the record's number
    --to N               stop before entry N, from 1
    --list               list the entries, and read no script

SERVE
    It serves until the operator stops it (bfqctl --socket DIR/operator stop). Each read, write or discard makes four calls:
    so the usual history holds 16384 of them, and then nothing more is accepted. Say --history 16777216 for a long run.
    A line on standard error says when it serves, another when nine tenths of the history are used, and one when it is full.
    At DIR/inspect lines of a script that only look (sector, queue, vtime, entity, class, line, show) are answered as there.

SCRIPT: one call a line, words joined by one space; an empty line or one that begins with # is skipped
    attach SEAT GROUP PRIO [rt|be|idle]  read SEAT SESSION START COUNT
    write SEAT SESSION START COUNT BYTE  discard SEAT SESSION START COUNT
    write SEAT SESSION START COUNT @SECTOR, with the bytes that stand from that sector on in the file of --payload
    reap SEAT SESSION                    leave SEAT
    dispatch
    finish TAG ISSUE stored|short|fault|fill BYTE
    work TAG ISSUE                       requeue TAG ISSUE
    group PARENT WEIGHT
    drop GROUP, weight GROUP WEIGHT      freeze, thaw, switch none|bfq, tick
    hold, release                        undo K, redo K
    sector NUMBER                        queue SEAT
    vtime GROUP [rt|be|idle]             entity NUMBER
    line                                 class NUMBER
    show seat|outbox|queue SEAT          show requeued|flight|service|host|state
    show tree GROUP                      show stored FROM, show step K

REFUSALS: what 'refused N' says; nothing has changed
     1 BadSeat: seats are numbered 0 to 15
     2 SeatTaken: a session sits at this seat, or has left it with a request that is not finished
     3 NoSession: nobody sits at this seat, or whoever did has left
     4 StaleSession: another session sits at this seat
     5 NoGroup: there is no such group; perhaps it was dropped, or its making undone
     6 RootGroup: group 0 is the root, which is neither dropped nor given a weight
     7 BadWeight: a weight is 1 to 1000
     8 BadPrio: a priority is 0 to 7
     9 TooDeep: groups stand at most four levels under the root
    10 GroupsFull: there are 32 groups, the root among them, and there can be no more
    11 GroupInUse: another group is in this group, or a session, even one that has left with a request that is not finished
    12 BadCount: a read, a write or a discard has 1 to 64 sectors
    13 BadLength: a write brings 512 bytes for each sector, and a read or a discard none; no line of a script breaks this
    14 OutOfRange: the last of these sectors is past the end of the device
    15 TooManyBios: the session has 32 reads, writes and discards that are not reaped; reap one first
    16 NothingOwed: the session has no result to come: it has reaped one for each read, write and discard, if it made any
    17 NothingQueued: no request waits to be sent
    18 NoTag: every tag bears a request in flight; one must be finished or given back first
    19 BadTag: tags are numbered from 0, and are as many as --tags says
    20 NotInFlight: no request is in flight under this tag and issue; perhaps it was undone or has been finished
    21 BadOutcome: a write or a discard is finished by stored alone, and a read by fill, short or fault
    22 AlreadyFrozen: the host is frozen already
    23 NotFrozen: the host is not frozen; thaw and switch want a frozen host
    24 NotDrained: a request is still queued, in flight or given back by the device
    25 SameScheduler: the host has this scheduler already
    26 NoneInService: no queue is in service that could grow older; under the scheduler none there never is one
    27 VtimeFull: a virtual time would pass 2^62
    28 NotHeld: the host is not held; release, undo and redo want a held host
    29 AlreadyHeld: the host is held already
    30 ZeroCount: undo and redo take at least one step
    31 NothingToUndo: fewer steps stand than are to be undone
    32 NothingToRedo: fewer undone steps are left than are to be redone; a new step drops all that are left
    33 HistoryFull: the journal has as many accepted calls as --history allows; going back makes no room
    34 OutOfMemory: there was no memory for this call

CAUSES: what 'notyet N' says; nothing has changed, and the same line may be accepted later
    41 Held: the host is held; it takes no step, a completion neither, until it is released
    42 Frozen: the host is frozen; it takes no new read, write or discard until it is thawed
    43 RequestsFull: there are as many requests as --nr-requests allows, and this read, write or discard joins none of them
    44 NotCompleted: of the reads, writes and discards that the session has not reaped, none is finished yet

EXIT STATUS
    0 end of input, or the operator's stop    2 bad line    3 read fault    4 write fault    5 no memory
    6 bad words, configuration, image, payload or record    7 a socket, a thread or a record cannot be had
";
