//! The words of `proxy` as its options.
ghost use Rattle.std.specs.Prelude.{◌≡◌, IfOk};
ghost use Rattle.std.specs.Result.{result_ok};
ghost use Rattle.clap.specs.Words.{found_of, rows_of};
ghost use Rattle.command_line.specs.Plans.{proxy_in, taken_as};
ghost use Rattle.command_line.specs.Proxying.{genesis_time_in, lane_options_in, proxy_options_in};

use crate::fault::{Argument, Fault, refused};
use crate::options::{lanes_of, limit_of, number_of, quiet_of};
use crate::planned::{Plan, Usage};
use crate::proxy_options::{LaneOptions, ProxyOptions};
use crate::serving::{read_door, read_signing, value_of};
use clap::ArgMatches;
use std::alloc::{AllocError, Global};

/// The answer to `proxy`.
pub(crate) fn proxy_plan(
    alloc: Global,
    options: &ArgMatches<'_>,
) -> Result<Result<Plan, Usage>, AllocError>
    ensures { IfOk result (λ answer. taken_as answer ≡ proxy_in (rows_of (found_of options.now))) }
{
    match read_options(alloc, options)? {
        Ok(options) => Ok(Ok(Plan::Proxy(options))),
        Err(fault) => refused(alloc, fault),
    }
}

/// The options of `proxy`, or the first of them that is out of form, in the order of the table.
fn read_options<'a>(
    alloc: Global,
    options: &ArgMatches<'a>,
) -> Result<Result<ProxyOptions, Fault<'a>>, AllocError>
    ensures { IfOk result (λ read. result_ok read ≡ proxy_options_in (rows_of (found_of options.now))) }
{
    let signing = match read_signing(alloc, options)? {
        Ok(signing) => signing,
        Err(fault) => return Ok(Err(fault)),
    };
    let genesis_time = match read_genesis_time(options) {
        Ok(time) => time,
        Err(fault) => return Ok(Err(fault)),
    };
    let door = match read_door(alloc, options)? {
        Ok(door) => door,
        Err(fault) => return Ok(Err(fault)),
    };
    let served = match read_lanes(options) {
        Ok(served) => served,
        Err(fault) => return Ok(Err(fault)),
    };
    Ok(Ok(ProxyOptions {
        genesis: signing.genesis,
        journal: signing.journal,
        signer: signing.signer,
        genesis_time,
        listen: door.listen,
        token: door.token,
        connections: served.connections,
        lanes: served.lanes,
        quiet: quiet_of(options),
    }))
}

/// When the chain began, in seconds since 1970.
fn read_genesis_time<'a>(options: &ArgMatches<'a>) -> Result<u64, Fault<'a>>
    ensures { result_ok result ≡ genesis_time_in (rows_of (found_of options.now)) }
{
    match number_of(options, "genesis-time") {
        Some(time) => Ok(time),
        None => Err(Fault::Value(Argument::GenesisTime, value_of(options, "genesis-time"))),
    }
}

/// How many connections a proxy serves, and in how many lanes.
fn read_lanes<'a>(options: &ArgMatches<'a>) -> Result<LaneOptions, Fault<'a>>
    ensures { result_ok result ≡ lane_options_in (rows_of (found_of options.now)) }
{
    let Some(connections) = limit_of(options, "connections") else {
        return Err(Fault::Value(Argument::Connections, value_of(options, "connections")));
    };
    let Some(lanes) = lanes_of(options) else {
        return Err(Fault::Value(Argument::Lanes, value_of(options, "lanes")));
    };
    Ok(LaneOptions { connections, lanes })
}
