//! The words of a command line as a plan.
ghost use Rattle.std.specs.Prelude.{◌≡◌, ◌≢◌, IfOk, Some, map, option_map, string_bytes, if◌then◌else◌};
ghost use Rattle.clap.specs.Words.{found_of, kind_of, rows_of, subcommand_rows_of};
ghost use Rattle.clap.specs.declared.error.kind.ErrorKind.TheVariants.{OutOfMemory};
ghost use Rattle.command_line.specs.Plans.{asked_at, asked_in, asked_of, help_on, is_display, merge_in, nothing, rehearse_in, session_by, session_in, session_with, show_in, shown, taken_as};

use crate::fault::{Argument, Fault, refused};
use crate::options::{
    altair_of, clients_of, fork_of, genesis_of, journal_of, number_of, steps_of, text_of, watch_of,
};
use crate::path_text::{PathText, read_path};
use crate::planned::{Plan, ShownText, Usage};
use crate::proxying::proxy_plan;
use crate::rehearsal_size::RehearsalSize;
use crate::serving::serve_plan;
use clap::error::ErrorKind;
use clap::{ArgMatches, Command, Error};
use command_table::{help, merge, program, proxy, rehearse, serve, session, show};
use edge_kit::Root;
use phase0_types::Fork;
use service_url::ServiceUrl;
use std::alloc::{AllocError, Global};

/// What the words ask the program to do, the first of which is the program's name:
///
/// - `session` with `--genesis`, `0x` and 64 hex digits, maybe `--journal`, a path that is not empty, maybe
///   `--signer`, a URL of scheme http with a host and without user, password, query and fragment, and maybe
///   `--fork`, two versions and an epoch joined by `:`, each version `0x` and 8 hex digits, the
///   epoch 1 to 20 decimal digits below 2^64; `0x00000000:0x00000000:0` where it is absent. Hex digits
///   are of either case. Maybe also `--altair`, an epoch of 1 to 20 decimal digits below 2^64; none where it is absent.
///   Maybe also `--watch`, which has no value. The first that is out of form of `--genesis`, `--fork`, `--altair`,
///   `--journal` and `--signer`, in this order, is reported.
/// - `serve` with `--genesis`, `--journal` and `--signer` as above, `--listen`, `localhost` or four decimals of at
///   most 255 joined by dots, `:` and a port of at most 65535, and `--token`, 1 to 256 ASCII characters from `!` to
///   `~`; maybe `--altair`, an epoch, none where it is absent; maybe `--watch`, `--aggregate` and `--quiet`, which have no
///   value; maybe `--slots` and `--connections`, which are 18446744073709551615 where they are absent; maybe `--lanes`, 1
///   to 64, which is 4 where it is absent; maybe `--keep-epochs`, 2 or more, or `all`, which is 64 where it is absent;
///   maybe `--timeout`, 1 to 60, which is 2 where it is absent; and one node or more, each a URL as for `--signer`. Each
///   number has 1 to 20 decimal digits and is below 2^64. The first that is out of form, in the order of this list, is
///   reported.
/// - `proxy` with `--genesis`, `--journal`, `--signer`, `--listen` and `--token` as for `serve`, and `--genesis-time`, a
///   number; maybe `--connections`, `--lanes` and `--quiet`, also as there.
/// - `merge` and `show`, each with `--genesis` and `--journal`.
/// - `rehearse` with a number, how many clients, 1 to 16, and how many steps, 0 to 20,000, each 1 to 20 decimal digits
///   below 2^64.
/// - `--help` anywhere before a fault, `help`, `help` with a command's name, and `--version`: a text.
///
/// The words are read as `clap` reads them. The inner error comes exactly where they are none of these;
/// the outer one is want of memory, and nothing stands after it.
pub fn plan(alloc: Global, words: &[String]) -> Result<Result<Plan, Usage>, AllocError>
    ensures { IfOk result (λ answer. taken_as answer ≡ asked_of (map string_bytes words.now)) }
{
    let program = program(alloc)?;
    match program.try_get_matches_from(words) {
        Ok(matches) => planned(alloc, &matches),
        Err(error) => told(alloc, &error),
    }
}

/// The answer where `clap` takes no matches from the words: what it says of them.
fn told(alloc: Global, error: &Error) -> Result<Result<Plan, Usage>, AllocError>
    ensures { IfOk result (λ answer. (kind_of error.now ≢ OutOfMemory)
        × (taken_as answer ≡ (if is_display (kind_of error.now) then shown else nothing))) }
{
    match error.kind() {
        ErrorKind::OutOfMemory => Err(AllocError),
        ErrorKind::DisplayHelp | ErrorKind::DisplayVersion => {
            let text = format!(in alloc; "{error}")?;
            Ok(Ok(Plan::Shown(ShownText::new(text))))
        }
        _ => {
            let text = format!(in alloc; "{error}")?;
            Ok(Err(Usage::new(text)))
        }
    }
}

/// The answer where `clap` takes the words.
fn planned(alloc: Global, matches: &ArgMatches<'_>) -> Result<Result<Plan, Usage>, AllocError>
    ensures { IfOk result (λ answer. taken_as answer ≡ asked_at (subcommand_rows_of matches.now)) }
{
    match matches.subcommand() {
        Some((name, options)) => command_plan(alloc, name, options),
        None => refused(alloc, Fault::NoCommand),
    }
}

/// The answer to a command with its options.
fn command_plan(
    alloc: Global,
    name: &str,
    options: &ArgMatches<'_>,
) -> Result<Result<Plan, Usage>, AllocError>
    ensures { IfOk result (λ answer. taken_as answer ≡ asked_in name.now (rows_of (found_of options.now))) }
{
    match name {
        "session" => session_plan(alloc, options),
        "serve" => serve_plan(alloc, options),
        "proxy" => proxy_plan(alloc, options),
        "merge" => merge_plan(alloc, options),
        "show" => show_plan(alloc, options),
        "rehearse" => rehearse_plan(alloc, options),
        "help" => help_plan(alloc, text_of(options, "command")),
        other => refused(alloc, Fault::Command(other)),
    }
}

/// The answer to `session`.
fn session_plan(alloc: Global, options: &ArgMatches<'_>) -> Result<Result<Plan, Usage>, AllocError>
    ensures { IfOk result (λ answer. taken_as answer ≡ session_in (rows_of (found_of options.now))) }
{
    let Some(genesis) = genesis_of(options) else {
        return no_genesis(alloc, options);
    };
    let Some(fork) = fork_of(options) else {
        let text = text_of(options, "fork").unwrap_or("");
        return refused(alloc, Fault::Value(Argument::Fork, text));
    };
    let Some(altair) = altair_of(options) else {
        let text = text_of(options, "altair").unwrap_or("");
        return refused(alloc, Fault::Value(Argument::Altair, text));
    };
    let journal = text_of(options, "journal");
    let signer = text_of(options, "signer");
    session_at(
        alloc,
        genesis,
        fork,
        altair,
        journal,
        signer,
        watch_of(options),
    )
}

/// The answer to `session` for a chain, a fork and the epoch of Altair, if there is one, with the values of `--journal`
/// and `--signer`, if there are any, and with or without a watch.
fn session_at(
    alloc: Global,
    genesis: Root,
    fork: Fork,
    altair: Option<u64>,
    path: Option<&str>,
    url: Option<&str>,
    watch: bool,
) -> Result<Result<Plan, Usage>, AllocError>
    ensures { IfOk result (λ answer. taken_as answer ≡ session_with genesis fork altair (option_map (λ s. s.now) path.entry) (option_map (λ s. s.now) url.entry) watch) }
{
    let Some(path) = path else {
        return session_by(alloc, genesis, fork, altair, None, url, watch);
    };
    let Some(journal) = read_path(alloc, path)? else {
        return refused(alloc, Fault::Value(Argument::Journal, ""));
    };
    session_by(alloc, genesis, fork, altair, Some(journal), url, watch)
}

/// The answer to `session` for a chain, a fork, the epoch of Altair, if there is one, and a journal, with the value of
/// `--signer`, if there is one, and with or without a watch.
fn session_by(
    alloc: Global,
    genesis: Root,
    fork: Fork,
    altair: Option<u64>,
    journal: Option<PathText>,
    url: Option<&str>,
    watch: bool,
) -> Result<Result<Plan, Usage>, AllocError>
    ensures { IfOk result (λ answer. taken_as answer ≡ session_by genesis fork altair journal (option_map (λ s. s.now) url.entry) watch) }
{
    let Some(url) = url else {
        return Ok(Ok(Plan::Session {
            genesis,
            journal,
            fork,
            altair,
            signer: None,
            watch,
        }));
    };
    let Some(signer) = ServiceUrl::read(alloc, url)? else {
        return refused(alloc, Fault::Value(Argument::Signer, url));
    };
    Ok(Ok(Plan::Session {
        genesis,
        journal,
        fork,
        altair,
        signer: Some(signer),
        watch,
    }))
}

/// The answer to `merge`.
fn merge_plan(alloc: Global, options: &ArgMatches<'_>) -> Result<Result<Plan, Usage>, AllocError>
    ensures { IfOk result (λ answer. taken_as answer ≡ merge_in (rows_of (found_of options.now))) }
{
    let Some(genesis) = genesis_of(options) else {
        return no_genesis(alloc, options);
    };
    let Some(journal) = journal_of(alloc, options)? else {
        return refused(alloc, Fault::Value(Argument::Journal, ""));
    };
    Ok(Ok(Plan::Merge { genesis, journal }))
}

/// The answer to `show`.
fn show_plan(alloc: Global, options: &ArgMatches<'_>) -> Result<Result<Plan, Usage>, AllocError>
    ensures { IfOk result (λ answer. taken_as answer ≡ show_in (rows_of (found_of options.now))) }
{
    let Some(genesis) = genesis_of(options) else {
        return no_genesis(alloc, options);
    };
    let Some(journal) = journal_of(alloc, options)? else {
        return refused(alloc, Fault::Value(Argument::Journal, ""));
    };
    Ok(Ok(Plan::Show { genesis, journal }))
}

/// The answer to `rehearse`.
fn rehearse_plan(alloc: Global, options: &ArgMatches<'_>) -> Result<Result<Plan, Usage>, AllocError>
    ensures { IfOk result (λ answer. taken_as answer ≡ rehearse_in (rows_of (found_of options.now))) }
{
    let Some(number) = number_of(options, "number") else {
        return refused(
            alloc,
            Fault::Value(Argument::Number, text_of(options, "number").unwrap_or("")),
        );
    };
    let Some(clients) = clients_of(options) else {
        return refused(
            alloc,
            Fault::Value(Argument::Clients, text_of(options, "clients").unwrap_or("")),
        );
    };
    let Some(steps) = steps_of(options) else {
        return refused(
            alloc,
            Fault::Value(Argument::Steps, text_of(options, "steps").unwrap_or("")),
        );
    };
    Ok(Ok(Plan::Rehearse {
        number,
        size: RehearsalSize::new(clients, steps),
    }))
}

/// The answer to a command whose value of `--genesis` is out of form.
fn no_genesis(alloc: Global, options: &ArgMatches<'_>) -> Result<Result<Plan, Usage>, AllocError>
    ensures { IfOk result (λ answer. taken_as answer ≡ nothing) }
{
    let text = text_of(options, "genesis").unwrap_or("");
    refused(alloc, Fault::Value(Argument::Genesis, text))
}

/// The answer to `help`, on a command or on the program.
fn help_plan(alloc: Global, command: Option<&str>) -> Result<Result<Plan, Usage>, AllocError>
    ensures { IfOk result (λ answer. taken_as answer ≡ help_on (option_map (λ s. s.now) command.entry)) }
{
    match command {
        None => shown_help(program(alloc)?),
        Some(name) => command_help(alloc, name),
    }
}

/// The answer to `help` on a command.
fn command_help(alloc: Global, name: &str) -> Result<Result<Plan, Usage>, AllocError>
    ensures { IfOk result (λ answer. taken_as answer ≡ help_on (Some name.now)) }
{
    match name {
        "session" => named_help(session(alloc), "validator session"),
        "serve" => named_help(serve(alloc), "validator serve"),
        "proxy" => named_help(proxy(alloc), "validator proxy"),
        "merge" => named_help(merge(alloc), "validator merge"),
        "show" => named_help(show(alloc), "validator show"),
        "rehearse" => named_help(rehearse(alloc), "validator rehearse"),
        "help" => named_help(help(alloc), "validator help"),
        other => refused(alloc, Fault::Command(other)),
    }
}

/// The help of a command that is called by this name. The command's error is want of memory.
fn named_help(
    command: Result<Command<'_>, AllocError>,
    name: &str,
) -> Result<Result<Plan, Usage>, AllocError>
    ensures { IfOk result (λ answer. taken_as answer ≡ shown) }
{
    shown_help(command?.bin_name(name)?)
}

/// The help of a command.
fn shown_help(mut command: Command<'_>) -> Result<Result<Plan, Usage>, AllocError>
    ensures { IfOk result (λ answer. taken_as answer ≡ shown) }
{
    let text = command.render_help()?;
    Ok(Ok(Plan::Shown(ShownText::new(text))))
}
