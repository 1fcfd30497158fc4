//! The commands, each with its options.
ghost use Rattle.std.specs.Prelude.{◌≡◌, [], IfOk, fold};
ghost use Rattle.clap.specs.Words.{app_of, shape_of};
ghost use Rattle.command_table.specs.Rows.{name_shape, with_name, with_row};
ghost use Rattle.command_table.specs.Table.{table, help_shape, journal_shape, merge_shape, program_shape, proxy_shape, rehearse_shape, serve_shape, session_shape, show_shape};

use crate::argument::argument;
use crate::row::Row;
use clap::{Arg, ArgAction, Command};
use std::alloc::{AllocError, Global};

/// What an operator needs next to the list of commands: the options of each.
const OPTIONS_AT_A_GLANCE: &str = "Options of session:
      --genesis <HEX32>
          Genesis validators root of the chain: 0x and 64 hex digits [required]
      --journal <PATH>
          Remembers over restarts, in PATH.a and PATH.b; without it the record ends with the run
      --signer <URL>
          Signing service (Web3Signer), as http://127.0.0.1:9000; without it a stand-in signs,
          whose signatures are no BLS signatures
      --fork <PREVIOUS:CURRENT:EPOCH>
          Fork of the signing domains: two versions, each 0x and 8 hex digits, and the epoch from
          which the second holds, in decimal [default: 0x00000000:0x00000000:0]
      --altair <EPOCH>
          From that epoch on, blocks have the Altair body [default: never]
      --watch
          A key that becomes active signs only once it was told not live in the two epochs after

Options of serve:
      --genesis <HEX32>
          Genesis validators root of the chain: 0x and 64 hex digits [required]
      --journal <PATH>
          Remembers over restarts, in PATH.a and PATH.b [required]
      --signer <URL>
          Signing service (Web3Signer), as http://127.0.0.1:9000 [required]
      --listen <ADDR:PORT>
          Where the Keymanager API is served, as 127.0.0.1:5062 or localhost:5062 [required]
      --token <TEXT>
          Requests of the Keymanager API must carry it: 1 to 256 characters from ! to ~ [required];
          --token-file PATH in its place names a file that holds it, so that ps does not show it
      --altair <EPOCH>
          From that epoch on, blocks have the Altair body [default: never]
      --watch
          A key that becomes active signs only once it was told not live in the two epochs after
      --aggregate
          Validators that are chosen to aggregate the votes of their committee do so, two thirds
          into the slot
      --slots <N>
          Duties end after that many slots; for tests and scripts [default: no end]
      --connections <N>
          The Keymanager API ends after that many connections; for tests and scripts
          [default: no end]
      --lanes <N>
          How many duties are done at the same time, 1 to 64 [default: 4]
      --keep-epochs <N>
          Of how many epochs before the one at hand everything signed is kept, 2 or more, or all
          [default: 64]
      --timeout <SECONDS>
          How long a question to a beacon node may take, 1 to 60 [default: 2]
      --quiet
          Standard error has a line for each fault, and no other
      <NODE>...
          Beacon nodes, as http://127.0.0.1:5052, one or more, after the options [required]

Options of proxy:
      --genesis <HEX32>
          Genesis validators root of the chain: 0x and 64 hex digits [required]
      --journal <PATH>
          Remembers over restarts, in PATH.a and PATH.b [required]
      --signer <URL>
          Signing service (Web3Signer), as http://127.0.0.1:9000 [required]
      --genesis-time <N>
          When the chain began, in seconds since 1970, as 1606824023 [required]
      --listen <ADDR:PORT>
          Where validator clients and key managers are answered, as 127.0.0.1:9001 [required]
      --token <TEXT>
          Requests of the Keymanager API must carry it, requests for signatures need none: 1 to 256
          characters from ! to ~ [required]; --token-file PATH in its place names a file that holds it
      --connections <N>
          Ends after that many connections; for tests and scripts [default: no end]
      --lanes <N>
          How many connections are served at the same time, 1 to 64 [default: 4]
      --quiet
          Standard error has a line for each fault, and no other

Options of merge and show:
      --genesis <HEX32>
          Genesis validators root of the chain: 0x and 64 hex digits [required]
      --journal <PATH>
          Journal of session, serve or proxy, in PATH.a and PATH.b [required]

A session reads requests from standard input, one JSON object a line, and writes the answer to each
to standard output, until the input ends. Hex digits may be of either case.";

/// The options of `session`.
const SESSION: [Row; 6] = [
    Row::Genesis,
    Row::Choice {
        id: "journal",
        name: "PATH",
        about: "Remembers over restarts, in PATH.a and PATH.b; without{n}it the record ends with the run",
        is_required: false,
    },
    Row::Choice {
        id: "signer",
        name: "URL",
        about: "Signing service (Web3Signer), as http://127.0.0.1:9000; without{n}it a stand-in signs, whose signatures are no BLS signatures",
        is_required: false,
    },
    Row::Fork,
    Row::Choice {
        id: "altair",
        name: "EPOCH",
        about: "From that epoch on, blocks have the Altair body [default: never]",
        is_required: false,
    },
    Row::Watch,
];

/// The options of `serve`, and its nodes last.
const SERVE: [Row; 15] = [
    Row::Genesis,
    Row::Choice {
        id: "journal",
        name: "PATH",
        about: "Remembers over restarts, in PATH.a and PATH.b",
        is_required: true,
    },
    Row::Choice {
        id: "signer",
        name: "URL",
        about: "Signing service (Web3Signer), as http://127.0.0.1:9000",
        is_required: true,
    },
    Row::Choice {
        id: "listen",
        name: "ADDR:PORT",
        about: "Where the Keymanager API is served, as 127.0.0.1:5062 or localhost:5062",
        is_required: true,
    },
    Row::Choice {
        id: "token",
        name: "TEXT",
        about: "Requests of the Keymanager API must carry it: 1 to 256 characters{n}from ! to ~; --token-file PATH in its place names a file{n}that holds it, so that ps does not show it",
        is_required: true,
    },
    Row::Choice {
        id: "altair",
        name: "EPOCH",
        about: "From that epoch on, blocks have the Altair body [default: never]",
        is_required: false,
    },
    Row::Watch,
    Row::Aggregate,
    Row::Choice {
        id: "slots",
        name: "N",
        about: "Duties end after that many slots; for tests and scripts [default: no end]",
        is_required: false,
    },
    Row::Choice {
        id: "connections",
        name: "N",
        about: "The Keymanager API ends after that many connections;{n}for tests and scripts [default: no end]",
        is_required: false,
    },
    Row::Choice {
        id: "lanes",
        name: "N",
        about: "How many duties are done at the same time, 1 to 64 [default: 4]",
        is_required: false,
    },
    Row::Choice {
        id: "keep-epochs",
        name: "N",
        about: "Of how many epochs before the one at hand everything signed{n}is kept, 2 or more, or all [default: 64]",
        is_required: false,
    },
    Row::Choice {
        id: "timeout",
        name: "SECONDS",
        about: "How long a question to a beacon node may take, 1 to 60 [default: 2]",
        is_required: false,
    },
    Row::Quiet,
    Row::Nodes,
];

/// The options of `proxy`.
const PROXY: [Row; 9] = [
    Row::Genesis,
    Row::Choice {
        id: "journal",
        name: "PATH",
        about: "Remembers over restarts, in PATH.a and PATH.b",
        is_required: true,
    },
    Row::Choice {
        id: "signer",
        name: "URL",
        about: "Signing service (Web3Signer), as http://127.0.0.1:9000",
        is_required: true,
    },
    Row::Choice {
        id: "genesis-time",
        name: "N",
        about: "When the chain began, in seconds since 1970, as 1606824023",
        is_required: true,
    },
    Row::Choice {
        id: "listen",
        name: "ADDR:PORT",
        about: "Where validator clients and key managers are answered, as{n}127.0.0.1:9001",
        is_required: true,
    },
    Row::Choice {
        id: "token",
        name: "TEXT",
        about: "Requests of the Keymanager API must carry it, requests for{n}signatures need none: 1 to 256 characters from ! to ~;{n}--token-file PATH in its place names a file that holds it",
        is_required: true,
    },
    Row::Choice {
        id: "connections",
        name: "N",
        about: "Ends after that many connections; for tests and scripts{n}[default: no end]",
        is_required: false,
    },
    Row::Choice {
        id: "lanes",
        name: "N",
        about: "How many connections are served at the same time, 1 to 64{n}[default: 4]",
        is_required: false,
    },
    Row::Quiet,
];

/// The options of a command over a journal that there is.
const JOURNAL_OF_A_RUN: [Row; 2] = [
    Row::Genesis,
    Row::Choice {
        id: "journal",
        name: "PATH",
        about: "Journal of session, serve or proxy, in PATH.a and PATH.b",
        is_required: true,
    },
];

/// The values of `rehearse`.
const REHEARSE: [Row; 3] = [
    Row::Value {
        id: "number",
        name: "NUMBER",
        about: "Number that everything is drawn from, below 2^64",
    },
    Row::Value {
        id: "clients",
        name: "CLIENTS",
        about: "How many clients there are, 1 to 16",
    },
    Row::Value {
        id: "steps",
        name: "STEPS",
        about: "How many steps there are, up to 20000",
    },
];

/// A command of the program.
#[derive(Clone, Copy)]
enum Name {
    Session,
    Serve,
    Proxy,
    Merge,
    Show,
    Rehearse,
    Help,
}

/// The commands of the program, in their order.
const NAMES: [Name; 7] = [
    Name::Session,
    Name::Serve,
    Name::Proxy,
    Name::Merge,
    Name::Show,
    Name::Rehearse,
    Name::Help,
];

/// The whole command line: the program `validator` with its commands, one of which must be named. The error is want of memory, and nothing stands after it.
pub fn program<'a>(alloc: Global) -> Result<Command<'a>, AllocError>
    ensures { IfOk result (λ c. app_of c ≡ table) }
{
    with_commands(alloc, without_commands(alloc), &NAMES)
}

/// The program before its commands.
fn without_commands<'a>(alloc: Global) -> Command<'a>
    ensures { app_of result ≡ record { top = program_shape; subs = [] } }
{
    Command::new(alloc, "validator")
        .version("0.1.0")
        .about("Ethereum validator client that never signs two messages that get a key slashed")
        .after_help(OPTIONS_AT_A_GLANCE)
        .subcommand_required(true)
        .disable_help_subcommand(true)
}

/// The program with a command for each name.
fn with_commands<'a>(
    alloc: Global,
    program: Command<'a>,
    names: &[Name],
) -> Result<Command<'a>, AllocError>
    ensures { IfOk result (λ c. app_of c ≡ fold with_name (app_of program.entry) names.now) }
{
    let mut program = program;
    'each: for name in names {
        program = with_command(alloc, program, *name)?;
    }
    Ok(program)
}

/// The program with one more command.
fn with_command<'a>(
    alloc: Global,
    program: Command<'a>,
    name: Name,
) -> Result<Command<'a>, AllocError>
    ensures { IfOk result (λ c. app_of c ≡ with_name (app_of program.entry) name) }
{
    let command = named(alloc, name)?;
    program.subcommand(command)
}

/// The command of this name.
fn named<'a>(alloc: Global, name: Name) -> Result<Command<'a>, AllocError>
    ensures { IfOk result (λ c. shape_of c ≡ name_shape name) }
{
    match name {
        Name::Session => session(alloc),
        Name::Serve => serve(alloc),
        Name::Proxy => proxy(alloc),
        Name::Merge => merge(alloc),
        Name::Show => show(alloc),
        Name::Rehearse => rehearse(alloc),
        Name::Help => help(alloc),
    }
}

/// The command with an argument for each row.
fn with_rows<'a>(
    alloc: Global,
    command: Command<'a>,
    rows: &[Row],
) -> Result<Command<'a>, AllocError>
    ensures { IfOk result (λ c. app_of c ≡ fold with_row (app_of command.entry) rows.now) }
{
    let mut command = command;
    'each: for row in rows {
        command = command.arg(argument(alloc, row))?;
    }
    Ok(command)
}

/// The command `session` with its options, alone, for its help. The error is want of memory, and nothing stands after it.
pub fn session<'a>(alloc: Global) -> Result<Command<'a>, AllocError>
    ensures { IfOk result (λ c. shape_of c ≡ session_shape) }
{
    let command = Command::new(alloc, "session").about(
        "Answers signing requests, one JSON object a line, from standard input",
    );
    with_rows(alloc, command, &SESSION)
}

/// The command `serve` with its options, alone, for its help. The error is want of memory, and nothing stands after it.
pub fn serve<'a>(alloc: Global) -> Result<Command<'a>, AllocError>
    ensures { IfOk result (λ c. shape_of c ≡ serve_shape) }
{
    let command = Command::new(alloc, "serve").about(
        "Does the duties of its keys and answers the Keymanager API",
    );
    with_rows(alloc, command, &SERVE)
}

/// The command `proxy` with its options, alone, for its help. The error is want of memory, and nothing stands after it.
pub fn proxy<'a>(alloc: Global) -> Result<Command<'a>, AllocError>
    ensures { IfOk result (λ c. shape_of c ≡ proxy_shape) }
{
    let command = Command::new(alloc, "proxy").about(
        "Stands between validator clients and a signing service: nothing slashable by its journal is signed",
    );
    with_rows(alloc, command, &PROXY)
}

/// The command `merge` with its options, alone, for its help. The error is want of memory, and nothing stands after it.
pub fn merge<'a>(alloc: Global) -> Result<Command<'a>, AllocError>
    ensures { IfOk result (λ c. shape_of c ≡ merge_shape) }
{
    over_journal(
        alloc,
        "merge",
        "Merges the interchange file (EIP-3076) on the input into a journal",
    )
}

/// The command `show` with its options, alone, for its help. The error is want of memory, and nothing stands after it.
pub fn show<'a>(alloc: Global) -> Result<Command<'a>, AllocError>
    ensures { IfOk result (λ c. shape_of c ≡ show_shape) }
{
    over_journal(alloc, "show", "Prints what each key of a journal has")
}

/// A command over a journal that there is.
fn over_journal<'a>(alloc: Global, name: &'a str, about: &'a str) -> Result<Command<'a>, AllocError>
    ensures { IfOk result (λ c. shape_of c ≡ journal_shape name.now) }
{
    let command = Command::new(alloc, name).about(about);
    with_rows(alloc, command, &JOURNAL_OF_A_RUN)
}

/// The command `rehearse` with its options, alone, for its help. The error is want of memory, and nothing stands after it.
pub fn rehearse<'a>(alloc: Global) -> Result<Command<'a>, AllocError>
    ensures { IfOk result (λ c. shape_of c ≡ rehearse_shape) }
{
    let command = Command::new(alloc, "rehearse").about(
        "Plays clients that vote, hand keys over, stop and prune, and counts slashable pairs",
    );
    with_rows(alloc, command, &REHEARSE)
}

/// The command `help` with its options, alone, for its help. The error is want of memory, and nothing stands after it.
pub fn help<'a>(alloc: Global) -> Result<Command<'a>, AllocError>
    ensures { IfOk result (λ c. shape_of c ≡ help_shape) }
{
    let command = Arg::new(alloc, "command")
        .value_name("COMMAND")
        .help("Command to show, or the whole program where it is absent")
        .action(ArgAction::Set);
    Command::new(alloc, "help")
        .about("Shows this help, or that of a command")
        .arg(command)
}
