//! The values of options, as `clap` found them.
ghost use Rattle.std.specs.Prelude.{◌≡◌, ◌<◌, ◌≤◌, IfOk, IfSome, map, option_map};
ghost use Rattle.clap.specs.Words.{all_of, first_of, found_of, rows_of};
ghost use Rattle.command_line.specs.Serving.{keep_epochs_in, lanes_in, limit_in, listen_in, signer_in, timeout_in, token_in};
ghost use Rattle.command_line.specs.Options.{aggregate_in, altair_in, clients_in, flag_in, fork_in, genesis_in, journal_in, number_in, quiet_in, steps_in, watch_in};

use crate::fork_text::read_fork;
use crate::kept_epochs::KeptEpochs;
use crate::lane_count::LaneCount;
use crate::listen_address::{ListenAddress, read_listen};
use crate::node_timeout::NodeTimeout;
use crate::path_text::{PathText, read_path};
use crate::token_text::{TokenText, read_token};
use clap::ArgMatches;
use edge_kit::{Root, read_hex, read_quoted};
use phase0_types::Fork;
use service_url::ServiceUrl;
use std::alloc::{AllocError, Global};

/// The text of an option's value, or of its default.
pub(crate) fn text_of<'a>(options: &ArgMatches<'a>, id: &str) -> Option<&'a str>
    ensures { option_map (λ s. s.now) result ≡ first_of id.now (rows_of (found_of options.now)) }
{
    options.get_str(id)
}

/// The texts of a word's values, in their order.
pub(crate) fn texts_of<'m, 'a>(options: &'m ArgMatches<'a>, id: &str) -> Option<&'m [&'a str]>
    ensures { option_map (λ s. map (λ v. v.now) s.now) result ≡ all_of id.now (rows_of (found_of options.now)) }
{
    options.get_strs(id)
}

/// The value of `--genesis`, if it has its form.
pub(crate) fn genesis_of(options: &ArgMatches<'_>) -> Option<Root>
    ensures { result ≡ genesis_in (rows_of (found_of options.now)) }
{
    let text = text_of(options, "genesis")?;
    read_hex::<32>(text).map(Root)
}

/// The value of `--journal`, if there is one and it is not empty.
pub(crate) fn journal_of(
    alloc: Global,
    options: &ArgMatches<'_>,
) -> Result<Option<PathText>, AllocError>
    ensures { IfOk result (λ path. path ≡ journal_in (rows_of (found_of options.now))) }
{
    match text_of(options, "journal") {
        Some(text) => read_path(alloc, text),
        None => Ok(None),
    }
}

/// Whether `--watch` was given.
pub(crate) fn watch_of(options: &ArgMatches<'_>) -> bool
    ensures { result ≡ watch_in (rows_of (found_of options.now)) }
{
    flag_of(options, "watch")
}

/// Whether `--aggregate` was given.
pub(crate) fn aggregate_of(options: &ArgMatches<'_>) -> bool
    ensures { result ≡ aggregate_in (rows_of (found_of options.now)) }
{
    flag_of(options, "aggregate")
}

/// Whether `--quiet` was given.
pub(crate) fn quiet_of(options: &ArgMatches<'_>) -> bool
    ensures { result ≡ quiet_in (rows_of (found_of options.now)) }
{
    flag_of(options, "quiet")
}

/// Whether an option that has no value was given.
fn flag_of(options: &ArgMatches<'_>, id: &str) -> bool
    ensures { result ≡ flag_in id.now (rows_of (found_of options.now)) }
{
    text_of(options, id).map_or(false, |text| text == "true")
}

/// The value of `--fork`, if it has its form.
pub(crate) fn fork_of(options: &ArgMatches<'_>) -> Option<Fork>
    ensures { result ≡ fork_in (rows_of (found_of options.now)) }
{
    let text = text_of(options, "fork")?;
    read_fork(text)
}

/// The epoch that the value of `--altair` writes in decimal, or no epoch where the option is absent. None where the value
/// is out of form.
pub(crate) fn altair_of(options: &ArgMatches<'_>) -> Option<Option<u64>>
    ensures { result ≡ altair_in (rows_of (found_of options.now)) }
{
    match text_of(options, "altair") {
        Some(text) => read_quoted(text).map(Some),
        None => Some(None),
    }
}

/// The number that a value writes in decimal, if it has its form.
pub(crate) fn number_of(options: &ArgMatches<'_>, id: &str) -> Option<u64>
    ensures { result ≡ number_in id.now (rows_of (found_of options.now)) }
{
    let text = text_of(options, id)?;
    read_quoted(text)
}

/// How many clients a rehearsal is to have, if that many may be.
pub(crate) fn clients_of(options: &ArgMatches<'_>) -> Option<u64>
    ensures clients { result ≡ clients_in (rows_of (found_of options.now)) }
    ensures some { IfSome result (λ n. 0 < n) }
    ensures few { IfSome result (λ n. n ≤ 16) }
{
    let clients = number_of(options, "clients")?;
    if 1 <= clients && clients <= 16 {
        Some(clients)
    } else {
        None
    }
}

/// How many steps a rehearsal is to have, if that many may be.
pub(crate) fn steps_of(options: &ArgMatches<'_>) -> Option<u64>
    ensures steps { result ≡ steps_in (rows_of (found_of options.now)) }
    ensures short { IfSome result (λ n. n ≤ 20000) }
{
    let steps = number_of(options, "steps")?;
    if steps <= 20_000 { Some(steps) } else { None }
}

/// The value of `--signer`, if there is one and it is the address of a service.
pub(crate) fn signer_of(
    alloc: Global,
    options: &ArgMatches<'_>,
) -> Result<Option<ServiceUrl>, AllocError>
    ensures { IfOk result (λ signer. signer ≡ signer_in (rows_of (found_of options.now))) }
{
    match text_of(options, "signer") {
        Some(text) => ServiceUrl::read(alloc, text),
        None => Ok(None),
    }
}

/// The value of `--listen`, if it has its form.
pub(crate) fn listen_of(options: &ArgMatches<'_>) -> Option<ListenAddress>
    ensures { result ≡ listen_in (rows_of (found_of options.now)) }
{
    let text = text_of(options, "listen")?;
    read_listen(text)
}

/// The value of `--token`, if it has its form.
pub(crate) fn token_of(
    alloc: Global,
    options: &ArgMatches<'_>,
) -> Result<Option<TokenText>, AllocError>
    ensures { IfOk result (λ token. token ≡ token_in (rows_of (found_of options.now))) }
{
    match text_of(options, "token") {
        Some(text) => read_token(alloc, text),
        None => Ok(None),
    }
}

/// The number that a value writes in decimal, if it has its form; where it is absent, one that is never reached.
pub(crate) fn limit_of(options: &ArgMatches<'_>, id: &str) -> Option<u64>
    ensures { result ≡ limit_in id.now (rows_of (found_of options.now)) }
{
    match text_of(options, id) {
        Some(text) => read_quoted(text),
        None => Some(u64::MAX),
    }
}

/// The value of `--lanes`, if it has its form; where it is absent, four.
pub(crate) fn lanes_of(options: &ArgMatches<'_>) -> Option<LaneCount>
    ensures { result ≡ lanes_in (rows_of (found_of options.now)) }
{
    match text_of(options, "lanes") {
        Some(text) => LaneCount::read(text),
        None => Some(LaneCount::four()),
    }
}

/// The value of `--keep-epochs`, if it has its form; where it is absent, the last 64.
pub(crate) fn keep_epochs_of(options: &ArgMatches<'_>) -> Option<KeptEpochs>
    ensures { result ≡ keep_epochs_in (rows_of (found_of options.now)) }
{
    match text_of(options, "keep-epochs") {
        Some(text) => KeptEpochs::read(text),
        None => Some(KeptEpochs::sixty_four()),
    }
}

/// The value of `--timeout`, if it has its form; where it is absent, two seconds.
pub(crate) fn timeout_of(options: &ArgMatches<'_>) -> Option<NodeTimeout>
    ensures { result ≡ timeout_in (rows_of (found_of options.now)) }
{
    match text_of(options, "timeout") {
        Some(text) => NodeTimeout::read(text),
        None => Some(NodeTimeout::two()),
    }
}
