//! The options of a command, and its values in their place, as `clap` takes them.
ghost use Rattle.std.specs.Prelude.{◌≡◌, false};
ghost use Rattle.clap.specs.Words.{rule_of};
ghost use Rattle.command_table.specs.Rows.{row_rule};
ghost use Rattle.command_table.specs.Table.{aggregate_rule, flag_rule, fork_rule, genesis_rule, nodes_rule, option_rule, quiet_rule, value_rule, watch_rule};

use crate::row::Row;
use clap::{Arg, ArgAction};
use std::alloc::Global;

/// The argument that a row says.
pub(crate) fn argument<'a>(alloc: Global, row: &Row) -> Arg<'a>
    ensures local { result.global ≡ false }
    ensures rule { rule_of result ≡ row_rule row.now }
{
    match *row {
        Row::Genesis => genesis(alloc),
        Row::Fork => fork(alloc),
        Row::Watch => watch(alloc),
        Row::Aggregate => aggregate(alloc),
        Row::Quiet => quiet(alloc),
        Row::Nodes => nodes(alloc),
        Row::Value { id, name, about } => value(alloc, id, name, about),
        Row::Choice {
            id,
            name,
            about,
            is_required,
        } => value_option(alloc, id, name, about, is_required),
    }
}

/// A value that must be given, in its place.
fn value<'a>(alloc: Global, id: &'a str, name: &'a str, about: &'a str) -> Arg<'a>
    ensures local { result.global ≡ false }
    ensures rule { rule_of result ≡ value_rule id.now }
{
    Arg::new(alloc, id)
        .value_name(name)
        .help(about)
        .required(true)
        .action(ArgAction::Set)
}

/// An option of one value, which a command cannot do without, or can.
fn value_option<'a>(
    alloc: Global,
    id: &'a str,
    name: &'a str,
    about: &'a str,
    is_required: bool,
) -> Arg<'a>
    ensures local { result.global ≡ false }
    ensures rule { rule_of result ≡ option_rule id.now is_required }
{
    Arg::new(alloc, id)
        .long(id)
        .value_name(name)
        .help(about)
        .required(is_required)
        .action(ArgAction::Set)
}

/// An option that has no value.
fn flag<'a>(alloc: Global, id: &'a str, about: &'a str) -> Arg<'a>
    ensures local { result.global ≡ false }
    ensures rule { rule_of result ≡ flag_rule id.now }
{
    Arg::new(alloc, id)
        .long(id)
        .help(about)
        .action(ArgAction::SetTrue)
}

/// The option `--genesis`.
fn genesis<'a>(alloc: Global) -> Arg<'a>
    ensures local { result.global ≡ false }
    ensures rule { rule_of result ≡ genesis_rule }
{
    value_option(
        alloc,
        "genesis",
        "HEX32",
        "Genesis validators root of the chain: 0x and 64 hex digits",
        true,
    )
}

/// The option `--fork`.
fn fork<'a>(alloc: Global) -> Arg<'a>
    ensures local { result.global ≡ false }
    ensures rule { rule_of result ≡ fork_rule }
{
    Arg::new(alloc, "fork")
        .long("fork")
        .value_name("PREVIOUS:CURRENT:EPOCH")
        .help(
            "Fork of the signing domains: two versions, each 0x and 8{n}hex digits, and the epoch from which the second holds,{n}in decimal",
        )
        .default_value("0x00000000:0x00000000:0")
        .action(ArgAction::Set)
}

/// The option `--watch`.
fn watch<'a>(alloc: Global) -> Arg<'a>
    ensures local { result.global ≡ false }
    ensures rule { rule_of result ≡ watch_rule }
{
    flag(
        alloc,
        "watch",
        "A key that becomes active signs only once it was told{n}not live in the two epochs after",
    )
}

/// The option `--aggregate`.
fn aggregate<'a>(alloc: Global) -> Arg<'a>
    ensures local { result.global ≡ false }
    ensures rule { rule_of result ≡ aggregate_rule }
{
    flag(
        alloc,
        "aggregate",
        "Validators that are chosen to aggregate the votes of their{n}committee do so, two thirds into the slot",
    )
}

/// The option `--quiet`.
fn quiet<'a>(alloc: Global) -> Arg<'a>
    ensures local { result.global ≡ false }
    ensures rule { rule_of result ≡ quiet_rule }
{
    flag(
        alloc,
        "quiet",
        "Standard error has a line for each fault, and no other",
    )
}

/// The nodes, which stand after the options.
fn nodes<'a>(alloc: Global) -> Arg<'a>
    ensures local { result.global ≡ false }
    ensures rule { rule_of result ≡ nodes_rule }
{
    Arg::new(alloc, "node")
        .value_name("NODE")
        .help("Beacon nodes, as http://127.0.0.1:5052, one or more")
        .required(true)
        .action(ArgAction::Append)
}
