// The command line: each command with its arguments and its help.
use clap::{Arg, ArgAction, Command};
use std::alloc::{AllocError, Global};

/// What `--version` prints behind the program's name. There was no release yet.
const VERSION: &str = "0.1.0";

/// How an argument is given.
#[derive(Clone, Copy)]
enum ArgumentKind {
    /// A word at its place.
    Word,
    /// A word at its place, which may be left out.
    MayBeLeftOut,
    /// Words at its place, as many as there are, or none.
    Several,
    /// `--` and its name, without a value.
    Flag,
    /// `--` and its name, with a value.
    Valued,
    /// A word at its place, which is left out beside the other argument.
    Unless(&'static str),
    /// `--` and its name, without a value, and none of the other arguments.
    Without(&'static [&'static str]),
    /// `--`, its name and a value, which is called so, only beside the other argument.
    Beside(&'static str, &'static str),
    /// `--`, its name and a value, which is called so.
    Called(&'static str),
}

/// An argument of a command.
#[derive(Clone, Copy)]
struct Argument {
    name: &'static str,
    kind: ArgumentKind,
    help: &'static str,
}

/// A command, what it does, and what its help says beyond its arguments.
#[derive(Clone, Copy)]
struct Described {
    name: &'static str,
    about: &'static str,
    more: &'static str,
    arguments: &'static [Argument],
}

const SELF: Argument = Argument {
    name: "SELF",
    kind: ArgumentKind::Word,
    help: "The number of this node, below NODES",
};

const NODES: Argument = Argument {
    name: "NODES",
    kind: ArgumentKind::Word,
    help: "How many nodes the cluster has",
};

const FILE: Argument = Argument {
    name: "FILE",
    kind: ArgumentKind::Word,
    help: "The file of the node",
};

const LEASE_FILE: Argument = Argument {
    name: "FILE",
    kind: ArgumentKind::Word,
    help: "The file of leases of this machine",
};

const LOOKED_AT: Argument = Argument {
    name: "FILE",
    kind: ArgumentKind::Word,
    help: "The file of a node or of a store",
};

const JUDGED: Argument = Argument {
    name: "FILE",
    kind: ArgumentKind::Several,
    help: "A file of the run, in place of standard input: the nodes of each come behind those of the files before it",
};

const PATH: Argument = Argument {
    name: "PATH",
    kind: ArgumentKind::Word,
    help: "The file of the store",
};

const SLOTS: Argument = Argument {
    name: "SLOTS",
    kind: ArgumentKind::Word,
    help: "How many records an area of its journal holds, 4 to 4096",
};

const FORMAT_SLOTS: Argument = Argument {
    kind: ArgumentKind::Unless("lease"),
    ..SLOTS
};

const FORMAT_SELF: Argument = Argument {
    kind: ArgumentKind::Unless("lease"),
    ..SELF
};

const FORMAT_NODES: Argument = Argument {
    kind: ArgumentKind::Unless("lease"),
    ..NODES
};

const LEASE: Argument = Argument {
    name: "lease",
    kind: ArgumentKind::Without(&["NODES", "FIRST", "jobs", "stride", "cluster"]),
    help: "Makes a file of leases: behind FILE stand the SELF of its machine and then FIRST, if any, and no more",
};

const FIRST: Argument = Argument {
    name: "FIRST",
    kind: ArgumentKind::MayBeLeftOut,
    help: "The number that its group numbers and its ids begin behind, 0 if not given",
};

const JOBS: Argument = Argument {
    name: "jobs",
    kind: ArgumentKind::Valued,
    help: "A file of jobs that it begins with, as export prints them, or - for standard input; their ids are below FIRST",
};

const STRIDE: Argument = Argument {
    name: "stride",
    kind: ArgumentKind::Valued,
    help: "The bytes of the file for each sector: 512, if not given, or 4096, for devices of large sectors",
};

const KEY: Argument = Argument {
    name: "key",
    kind: ArgumentKind::Beside("KEYFILE", "cluster"),
    help: "Seals the messages by the key in this file: 64 hex digits; a second line has a key that only opens",
};

const CLUSTER: Argument = Argument {
    name: "cluster",
    kind: ArgumentKind::Beside("NAME", "key"),
    help: "The name of the cluster, which the key is bound to",
};

const FORMAT_CLUSTER: Argument = Argument {
    help: "The name of the cluster that it is made for: a node of another one doesn't take it",
    ..NODE_CLUSTER
};

const LIFE: Argument = Argument {
    name: "life",
    kind: ArgumentKind::Beside("HEX", "key"),
    help: "What was drawn for this process, 32 hex digits that no other had: only what is sealed for it is taken",
};

const NODE_CLUSTER: Argument = Argument {
    kind: ArgumentKind::Called("NAME"),
    help: "The name of the cluster, which the key is bound to: a file that was made for another one isn't taken",
    ..CLUSTER
};

const VERIFY: Argument = Argument {
    name: "verify",
    kind: ArgumentKind::Flag,
    help: "Prints, too, what no crash leaves in a file, as broken, and what may tell of an older state, as a hint",
};

const SALVAGE: Argument = Argument {
    name: "salvage",
    kind: ArgumentKind::Flag,
    help: "Prints each job that can still be read, in front of what is damaged and behind it; standard error says what is",
};

const ROUND_TRIP_MS: Argument = Argument {
    name: "ROUND_TRIP_MS",
    kind: ArgumentKind::MayBeLeftOut,
    help: "The milliseconds that a message and its answer take, 20 if not given; all that it waits for counts these",
};

const NAMES: Argument = Argument {
    name: "names",
    kind: ArgumentKind::Flag,
    help: "Prints what each message says, on a line of its own, in place of its bytes",
};

const TABLES: Argument = Argument {
    name: "nodes",
    kind: ArgumentKind::Flag,
    help: "Prints the nodes in front of each act, too",
};

const ONGOING: Argument = Argument {
    name: "ongoing",
    kind: ArgumentKind::Flag,
    help: "The run may go on: prints Ongoing and the nodes of the entries that can be taken, where all others wait",
};

const ORDER: Argument = Argument {
    name: "order",
    kind: ArgumentKind::Flag,
    help: "Prints the order in which the turns were taken, too",
};

const TURNS: Argument = Argument {
    name: "turns",
    kind: ArgumentKind::Without(&["FILE", "ongoing"]),
    help: "Prints the turns in the order that stands beside the trace, if they can come so, and how the node of each stands then",
};

const CORE: Argument = Argument {
    name: "core",
    kind: ArgumentKind::Without(&["FILE", "ongoing", "turns"]),
    help: "Prints the last entries of a node up to one that can't be, whatever the others did, and how it stood before them",
};

/// The commands in the order of the help.
const COMMANDS: [Described; 13] = [
    Described {
        name: "answer",
        about: "Reads messages in hex lines, and prints what one node answers",
        more: "The node begins alone in its group and keeps nothing. A line is one message or several (docs/FORMATS.md).\n\nExit status: 0 all was answered; 1 a line or a message can't be read, or comes of a stranger, reading or writing failed, or there was no memory; 2 the command line can't be read, or asks for help.\n\nExample: echo 010102000000 | invite answer 0 3",
        arguments: &[SELF, NODES],
    },
    Described {
        name: "show",
        about: "Reads messages in hex lines, and prints them as text",
        more: "A line is one message or several (docs/FORMATS.md).\n\nExit status: 0 all was shown; 1 a line or a message can't be read, reading or writing failed, or there was no memory; 2 the command line can't be read, or asks for help.\n\nExample: echo 010102000000 | invite show",
        arguments: &[],
    },
    Described {
        name: "sim",
        about: "Reads a schedule, runs it on a simulated cluster, and prints what each act did",
        more: "The first line is cluster NODES SLOTS, each other one an act, such as check 0, deliver 3, cut 0 1 or crash 2 (docs/SIMULATION.md). After the last act each node is printed.\n\nExit status: 0 the acts were done, or refused; 1 a line can't be read, reading or writing failed, or there was no memory; 2 the command line can't be read, or asks for help.\n\nExample: printf 'cluster 2 8\\ncheck 0\\ndeliver 0\\n' | invite sim",
        arguments: &[NAMES, TABLES],
    },
    Described {
        name: "store",
        about: "Reads lines that ask something of a store in a file, and prints what each was answered",
        more: "A store is a counter and a journal of jobs. Its lines are format SLOTS, mount, raise, put, done, compact and list (docs/FORMATS.md).\n\nExit status: 0 the lines were answered, some as refused; 1 a line can't be read, reading or writing failed, or there was no memory; 2 the command line can't be read, or asks for help.\n\nExample: printf 'format 4\\nmount\\nraise\\n' | invite store /tmp/store",
        arguments: &[PATH],
    },
    Described {
        name: "format",
        about: "Makes the file of a node, where there is none of this name",
        more: "It reads nothing but the jobs. With --lease it is the file of a process of leases, as in: invite format --lease /tmp/leases0 0. A node that lost its file takes FIRST above each count and id that it gave (docs/FORMATS.md).\n\nExit status: 0 the file was made; 1 there is something of its name, or a line of the jobs can't be taken, reading or writing failed, or there was no memory; 2 the command line can't be read, or asks for help; 3 the device failed; 7 its folder isn't there, or may not be written; 8 there is no room for it.\n\nExample: invite format /tmp/node0 64 0 3",
        arguments: &[
            FILE,
            FORMAT_SLOTS,
            FORMAT_SELF,
            FORMAT_NODES,
            FIRST,
            JOBS,
            STRIDE,
            FORMAT_CLUSTER,
            LEASE,
        ],
    },
    Described {
        name: "node",
        about: "Reads lines that ask something of the node over its file, and answers each at once",
        more: "Its lines are events such as check, deliver HEX, submit, finish, tick MS, and state and jobs (docs/FORMATS.md).\n\nExit status: 0 the input ended; 1 reading or writing failed, or there was no memory; 2 the command line can't be read, or asks for help; 3 the device failed; 4 another process has the file open; 5 the file isn't this node's; 6 the keys can't be used; 7 the file can't be opened, or was removed, replaced, cut off or written over meanwhile.\n\nExample: printf 'state\\n' | invite node /tmp/node0 0 3",
        arguments: &[FILE, SELF, NODES, ROUND_TRIP_MS, KEY, NODE_CLUSTER, LIFE],
    },
    Described {
        name: "lease",
        about: "Reads lines that ask something of a process of leases over its file, and answers each at once",
        more: "It writes process COUNT first; a time of a line is read behind that. Its lines are tick MS, deliver MS HEX, acquire MS NAME CLIENT and release MS NAME CLIENT (docs/FORMATS.md).\n\nExit status: 0 the input ended; 1 reading or writing failed, or there was no memory; 2 the command line can't be read, or asks for help; 3 the device failed; 4 another process has the file open; 5 the file isn't one of this machine's leases, is damaged, or has no epochs left; 6 the keys can't be used; 7 the file can't be opened, or was removed or cut off meanwhile.\n\nExample: printf 'tick 0\\n' | invite lease /tmp/leases0 0 3",
        arguments: &[LEASE_FILE, SELF, NODES, ROUND_TRIP_MS, KEY, CLUSTER],
    },
    Described {
        name: "inspect",
        about: "Prints what the file of a node or of a store holds",
        more: "A line for each name and its value: whose file it is, the slots, the count of groups, the next id, the jobs by queue, or what is damaged and where (docs/FORMATS.md). It takes no lock and writes nothing.\n\nExit status: 0 all was printed; 1 something is damaged, missing or broken, reading or writing failed, or there was no memory; 2 the command line can't be read, or asks for help; 3 the device failed; 7 the file can't be opened.\n\nExample: invite inspect /tmp/node0",
        arguments: &[LOOKED_AT, VERIFY],
    },
    Described {
        name: "export",
        about: "Prints the jobs of the file of a node or of a store",
        more: "A line for each job: job ID QUEUE HEX P, as list of invite store prints it. It takes no lock and writes nothing.\n\nExit status: 0 the jobs were printed; 1 something is damaged or missing, reading or writing failed, or there was no memory; 2 the command line can't be read, or asks for help; 3 the device failed; 7 the file can't be opened.\n\nExample: invite export /tmp/node0 > /tmp/jobs",
        arguments: &[LOOKED_AT, SALVAGE],
    },
    Described {
        name: "trace",
        about: "Reads a trace, and prints an order in which its entries can have come, or where none goes on",
        more: "A trace is the nodes' histories as JSON. It is read from standard input, or from files that have some of the nodes each, in their order (docs/SIMULATION.md).\n\nExit status: 0 it is a run, or one that may go on; 1 it is none, or no trace, reading or writing failed, or there was no memory; 2 the command line can't be read, or asks for help.\n\nExample: echo '{\"nodes\":1,\"histories\":[[{\"do\":\"check\",\"sent\":[]}]]}' | invite trace",
        arguments: &[JUDGED, ONGOING, TURNS, CORE],
    },
    Described {
        name: "judge",
        about: "Reads the entries of a run as they come, and prints the verdict on all that came where that is asked for",
        more: "A line is a trace of all nodes, whose entries come behind those before (docs/SIMULATION.md). An empty line asks; what it prints is what trace --ongoing prints of all that came.\n\nExit status: 0 the input ended, and each verdict was Run or Ongoing; 1 one was NotARun, a line is no trace of as many nodes as the first, reading or writing failed, or there was no memory; 2 the command line can't be read, or asks for help.\n\nExample: printf '{\"nodes\":1,\"histories\":[[{\"do\":\"check\",\"sent\":[]}]]}\\n\\n' | invite judge",
        arguments: &[],
    },
    Described {
        name: "record",
        about: "Reads a schedule, runs it on a simulated cluster, and prints its trace",
        more: "The trace is what trace reads: the nodes' histories as JSON, in one line, with the order in which their entries came (docs/SIMULATION.md).\n\nExit status: 0 the trace was printed; 1 a line can't be read, reading or writing failed, or there was no memory; 2 the command line can't be read, or asks for help.\n\nExample: printf 'cluster 2 8\\ncheck 0\\ndeliver 0\\n' | invite record",
        arguments: &[],
    },
    Described {
        name: "threads",
        about: "Reads plans, runs them on nodes in threads, and prints the trace of that run",
        more: "The first line is cluster NODES SLOTS, the second links CAPACITY, each other one a turn of a worker, such as 0 clock check, 1 intake 0 or 0 operator crash (docs/SIMULATION.md). The trace is what trace reads: the nodes and their histories, in one line.\n\nExit status: 0 the trace was printed; 1 a line can't be read, or the run is unfinished, reading or writing failed, or there was no memory; 2 the command line can't be read, or asks for help.\n\nExample: printf 'cluster 2 8\\nlinks 8\\n0 clock check\\n1 intake 0\\n' | invite threads",
        arguments: &[ORDER],
    },
];

/// Every command with its arguments.
pub fn command<'a>(alloc: Global) -> Result<Command<'a>, AllocError> {
    let mut whole = Command::new(alloc, "invite")
        .about(
            "A verified cluster manager: the nodes of a cluster regroup while some fail, recover and are cut off",
        )
        .version(VERSION)
        .after_help(
            "Each command but format, inspect and export reads standard input, trace where no file is named. invite COMMAND --help says what, with its exit statuses and an example.",
        )
        .subcommand_required(true)
        .disable_help_subcommand(true);
    for described in &COMMANDS {
        whole = with_command(alloc, whole, described)?;
    }
    Ok(whole)
}

fn with_command<'a>(
    alloc: Global,
    whole: Command<'a>,
    described: &Described,
) -> Result<Command<'a>, AllocError> {
    let mut command = Command::new(alloc, described.name)
        .about(described.about)
        .after_help(described.more);
    for argument in described.arguments {
        command = command.arg(made(alloc, argument)?)?;
    }
    whole.subcommand(command)
}

fn made<'a>(alloc: Global, argument: &Argument) -> Result<Arg<'a>, AllocError> {
    let named = Arg::new(alloc, argument.name).help(argument.help);
    match argument.kind {
        ArgumentKind::Word => Ok(named.required(true)),
        ArgumentKind::MayBeLeftOut => Ok(named),
        ArgumentKind::Several => Ok(named.num_args(1..)),
        ArgumentKind::Flag => Ok(named.long(argument.name).action(ArgAction::SetTrue)),
        ArgumentKind::Valued => Ok(named.long(argument.name)),
        ArgumentKind::Unless(other) => named.required_unless_present(other),
        ArgumentKind::Without(others) => named
            .long(argument.name)
            .action(ArgAction::SetTrue)
            .conflicts_with_all(others),
        ArgumentKind::Beside(value, other) => named
            .long(argument.name)
            .value_name(value)
            .requires_arg(other),
        ArgumentKind::Called(value) => Ok(named.long(argument.name).value_name(value)),
    }
}
