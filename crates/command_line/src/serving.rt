//! The words of `serve` as its options.
ghost use Rattle.std.specs.Prelude.{◌≡◌, IfOk, map};
ghost use Rattle.std.specs.Result.{result_ok};
ghost use Rattle.clap.specs.Words.{found_of, rows_of};
ghost use Rattle.command_line.specs.Plans.{serve_in, taken_as};
ghost use Rattle.command_line.specs.Serving.{door_in, ends_in, nodes_in, serve_options_in, services_of, signing_in, work_in};

use crate::fault::{Argument, Fault, refused};
use crate::options::{
    aggregate_of, altair_of, genesis_of, journal_of, keep_epochs_of, lanes_of, limit_of, listen_of,
    quiet_of, signer_of, text_of, texts_of, timeout_of, token_of, watch_of,
};
use crate::planned::{Plan, Usage};
use crate::serve_options::{DoorOptions, EndOptions, ServeOptions, SigningOptions, WorkOptions};
use clap::ArgMatches;
use edge_kit::Items;
use service_url::ServiceUrl;
use std::alloc::{AllocError, Global};

/// The answer to `serve`.
pub(crate) fn serve_plan(
    alloc: Global,
    options: &ArgMatches<'_>,
) -> Result<Result<Plan, Usage>, AllocError>
    ensures { IfOk result (λ answer. taken_as answer ≡ serve_in (rows_of (found_of options.now))) }
{
    match read_options(alloc, options)? {
        Ok(options) => Ok(Ok(Plan::Serve(options))),
        Err(fault) => refused(alloc, fault),
    }
}

/// The options of `serve`, or the first of them that is out of form, in the order of the table.
fn read_options<'a>(
    alloc: Global,
    options: &ArgMatches<'a>,
) -> Result<Result<ServeOptions, Fault<'a>>, AllocError>
    ensures { IfOk result (λ read. result_ok read ≡ serve_options_in (rows_of (found_of options.now))) }
{
    let signing = match read_signing(alloc, options)? {
        Ok(signing) => signing,
        Err(fault) => return Ok(Err(fault)),
    };
    let door = match read_door(alloc, options)? {
        Ok(door) => door,
        Err(fault) => return Ok(Err(fault)),
    };
    let ends = match read_ends(options) {
        Ok(ends) => ends,
        Err(fault) => return Ok(Err(fault)),
    };
    let work = match read_work(options) {
        Ok(work) => work,
        Err(fault) => return Ok(Err(fault)),
    };
    let nodes = match read_nodes(alloc, options)? {
        Ok(nodes) => nodes,
        Err(fault) => return Ok(Err(fault)),
    };
    Ok(Ok(ServeOptions {
        genesis: signing.genesis,
        journal: signing.journal,
        signer: signing.signer,
        listen: door.listen,
        token: door.token,
        altair: ends.altair,
        watch: watch_of(options),
        aggregate: work.aggregate,
        slots: ends.slots,
        connections: ends.connections,
        lanes: ends.lanes,
        keep_epochs: work.keep_epochs,
        timeout: work.timeout,
        quiet: work.quiet,
        nodes,
    }))
}

/// What a server signs for, where it keeps that, and who signs.
pub(crate) fn read_signing<'a>(
    alloc: Global,
    options: &ArgMatches<'a>,
) -> Result<Result<SigningOptions, Fault<'a>>, AllocError>
    ensures { IfOk result (λ read. result_ok read ≡ signing_in (rows_of (found_of options.now))) }
{
    let Some(genesis) = genesis_of(options) else {
        return Ok(Err(Fault::Value(Argument::Genesis, value_of(options, "genesis"))));
    };
    let Some(journal) = journal_of(alloc, options)? else {
        return Ok(Err(Fault::Value(Argument::Journal, "")));
    };
    let Some(signer) = signer_of(alloc, options)? else {
        return Ok(Err(Fault::Value(Argument::Signer, value_of(options, "signer"))));
    };
    Ok(Ok(SigningOptions {
        genesis,
        journal,
        signer,
    }))
}

/// Where a server answers the Keymanager API, and the token that it wants.
pub(crate) fn read_door<'a>(
    alloc: Global,
    options: &ArgMatches<'a>,
) -> Result<Result<DoorOptions, Fault<'a>>, AllocError>
    ensures { IfOk result (λ read. result_ok read ≡ door_in (rows_of (found_of options.now))) }
{
    let Some(listen) = listen_of(options) else {
        return Ok(Err(Fault::Value(Argument::Listen, value_of(options, "listen"))));
    };
    let Some(token) = token_of(alloc, options)? else {
        return Ok(Err(Fault::Token));
    };
    Ok(Ok(DoorOptions { listen, token }))
}

/// From which epoch on blocks have the Altair body, after how many slots and connections a server ends, and in how many
/// lanes it does its duties.
fn read_ends<'a>(options: &ArgMatches<'a>) -> Result<EndOptions, Fault<'a>>
    ensures { result_ok result ≡ ends_in (rows_of (found_of options.now)) }
{
    let Some(altair) = altair_of(options) else {
        return Err(Fault::Value(Argument::Altair, value_of(options, "altair")));
    };
    let Some(slots) = limit_of(options, "slots") else {
        return Err(Fault::Value(Argument::Slots, value_of(options, "slots")));
    };
    let Some(connections) = limit_of(options, "connections") else {
        return Err(Fault::Value(Argument::Connections, value_of(options, "connections")));
    };
    let Some(lanes) = lanes_of(options) else {
        return Err(Fault::Value(Argument::Lanes, value_of(options, "lanes")));
    };
    Ok(EndOptions {
        altair,
        slots,
        connections,
        lanes,
    })
}

/// Whether a server aggregates votes, what it keeps of what was signed, how long it waits for a node, and whether it reports
/// only faults.
fn read_work<'a>(options: &ArgMatches<'a>) -> Result<WorkOptions, Fault<'a>>
    ensures { result_ok result ≡ work_in (rows_of (found_of options.now)) }
{
    let Some(keep_epochs) = keep_epochs_of(options) else {
        return Err(Fault::Value(Argument::KeepEpochs, value_of(options, "keep-epochs")));
    };
    let Some(timeout) = timeout_of(options) else {
        return Err(Fault::Value(Argument::Timeout, value_of(options, "timeout")));
    };
    Ok(WorkOptions {
        aggregate: aggregate_of(options),
        keep_epochs,
        timeout,
        quiet: quiet_of(options),
    })
}

/// The beacon nodes.
fn read_nodes<'a>(
    alloc: Global,
    options: &ArgMatches<'a>,
) -> Result<Result<Items<ServiceUrl>, Fault<'a>>, AllocError>
    ensures { IfOk result (λ read. result_ok read ≡ nodes_in (rows_of (found_of options.now))) }
{
    match texts_of(options, "node") {
        Some(texts) => read_services(alloc, texts),
        None => Ok(Err(Fault::Value(Argument::Node, ""))),
    }
}

/// The services of one address or more, or the first text that is no address of one.
fn read_services<'a>(
    alloc: Global,
    texts: &[&'a str],
) -> Result<Result<Items<ServiceUrl>, Fault<'a>>, AllocError>
    ensures { IfOk result (λ read. result_ok read ≡ services_of (map (λ text. text.now) texts.now)) }
{
    if texts.is_empty() {
        return Ok(Err(Fault::Value(Argument::Node, "")));
    }
    let mut services = Vec::with_capacity(alloc, texts.len())?;
    'texts: for text in texts {
        let Some(service) = ServiceUrl::read(alloc, text)? else {
            return Ok(Err(Fault::Value(Argument::Node, text)));
        };
        services.push(service)?;
    }
    Ok(Ok(Items::from_vec(services)))
}

/// The text of an option's value, for what is reported of it.
pub(crate) fn value_of<'a>(options: &ArgMatches<'a>, id: &str) -> &'a str {
    text_of(options, id).unwrap_or("")
}
