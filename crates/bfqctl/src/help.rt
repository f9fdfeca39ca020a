// The help and the version.

/// What `--version` prints. The number is that of the file VERSION at the root of the repository.
pub fn version_line() -> &'static str {
    "bfqctl 0.1.0\n"
}

/// What `--help` prints.
pub fn help_text() -> &'static str {
    HELP
}

const HELP: &str = "\
NAME
    bfqctl - one call of the operator to a host that serves

SYNOPSIS
    bfqctl --socket PATH COMMAND
    bfqctl --socket PATH LOOK
    bfqctl --help | --version

EXAMPLE
    $ bfqctl --socket /run/bfq/operator hold
    moved 5 5
    $ bfqctl --socket /run/bfq/operator undo 2
    moved 3 5
    $ bfqctl --socket /run/bfq/operator release
    done

COMMANDS
    group-make PARENT WEIGHT     a group comes under its parent; 0 is the root
    group-drop GROUP             a group goes
    set-weight GROUP WEIGHT      a group gets another weight, 1 to 1000
    freeze                       from now on reads, writes and discards wait
    thaw                         they wait no longer
    switch none|bfq              a frozen host without a request gets this scheduler
    tick                         the queue in service grows older
    hold                         from now on no step is taken, and steps can be undone and redone
    release                      steps are taken again
    undo K                       the last K steps that stand are undone
    redo K                       the next K steps that were undone are redone
    stop                         the host ends

LOOKS: lines of a script that change nothing, as `bfqhost --help` has them; they are asked at inspect in the folder of PATH
    sector, queue, vtime, entity, class, line, show

OPTIONS
    --socket PATH        the host's socket for its operator
    --help, -h           print this help
    --version            print the version; no other word may stand beside it

ANSWERS: one line
    group NUMBER         the group that was made
    moved CURSOR LENGTH  how many steps stand now, and how many the line has
    done                 any other call was accepted
    refused N, notyet N  nothing has changed; `bfqhost --help` has the numbers, and at a terminal the sentence follows
    closed               the host has ended
    a look's text        what a script prints for it; bad line 1 if the host does not know it

EXIT STATUS
    0 accepted, or closed after stop    1 refused, not yet, or closed after another call
    2 bad words                         3 no connection, or no answer on it
    4 write fault                       5 no memory
";
