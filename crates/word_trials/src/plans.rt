//! Words of the command line, and the plans that they are.
use crate::reading::{push_digits, push_ended};
use command_line::{PathText, Plan, ProxyOptions, ServeOptions, Usage, plan};
use edge_kit::{Root, push_hex};
use plan_places::{token_path, with_token};
use service_url::ServiceUrl;
use sign_roots::Fork;
use std::alloc::{AllocError, Global};

/// The root that a `%` stands for.
const ROOT: &str = "0xabababababababababababababababababababababababababababababababab";

/// The text with the root in the place of a `%`.
fn with_root(alloc: Global, marked: &str) -> Result<String, AllocError> {
    match marked.split_once('%') {
        Some((before, after)) => format!(in alloc; "{before}{}{after}", ROOT),
        None => String::from_str(alloc, marked),
    }
}

/// Words, the first of which is the program's name. Each word ends at a `|` or with the line.
fn words_of(alloc: Global, line: &str) -> Result<Vec<String>, AllocError> {
    let mut words = Vec::new(alloc);
    for word in line.split_terminator('|') {
        words.push(with_root(alloc, word)?)?;
    }
    Ok(words)
}

/// The plan of words.
fn plan_of(alloc: Global, line: &str) -> Result<Result<Plan, Usage>, AllocError> {
    let words = words_of(alloc, line)?;
    plan(alloc, words.as_slice())
}

/// Appends what words come to: a plan in words, or what is said of words that are none.
pub(crate) fn push_plan_of(alloc: Global, line: &str, out: &mut String) -> Option<()> {
    match &plan_of(alloc, line).ok()? {
        Ok(planned) => push_plan(alloc, planned, out).ok(),
        Err(usage) => push_text(out, "usage ", usage.as_str()).ok(),
    }
}

/// Appends what `{:?}` writes of what words come to.
pub(crate) fn push_debug_of(alloc: Global, line: &str, out: &mut String) -> Option<()> {
    let planned = plan_of(alloc, line).ok()?;
    write!(out, "{planned:?}").ok()
}

/// Appends the path of the file of the token that words name, and the words with the token `read`.
pub(crate) fn push_token_of(alloc: Global, line: &str, out: &mut String) -> Option<()> {
    let words = words_of(alloc, line).ok()?;
    push_path(token_path(words.as_slice()), out).ok()?;
    let words = with_token(alloc, words, "read").ok()?;
    push_words(words.as_slice(), out).ok()
}

/// Appends a path, or that there is none.
fn push_path(path: Option<&str>, out: &mut String) -> Result<(), AllocError> {
    match path {
        Some(path) => writeln!(out, "path {path}"),
        None => out.push_str("no path\n"),
    }
}

/// Appends words, each with a `|` behind it.
fn push_words(words: &[String], out: &mut String) -> Result<(), AllocError> {
    for word in words {
        write!(out, "{word}|")?;
    }
    Ok(())
}

/// Appends a text after a word.
fn push_text(out: &mut String, word: &str, text: &str) -> Result<(), AllocError> {
    out.push_str(word)?;
    push_ended(out, text)
}

/// Appends a plan in words.
fn push_plan(alloc: Global, planned: &Plan, out: &mut String) -> Result<(), AllocError> {
    match planned {
        Plan::Session {
            genesis,
            journal,
            fork,
            altair,
            signer,
            watch,
        } => {
            push_place(alloc, out, "session", genesis, journal.as_ref())?;
            push_signing(out, fork, signer.is_some(), *watch)?;
            push_altair(out, *altair)
        }
        Plan::Serve(options) => push_options(alloc, out, options),
        Plan::Proxy(options) => push_proxy(alloc, out, options),
        Plan::Merge { genesis, journal } => {
            push_place(alloc, out, "merge", genesis, Some(journal))
        }
        Plan::Show { genesis, journal } => push_place(alloc, out, "show", genesis, Some(journal)),
        Plan::Rehearse { number, size } => {
            write!(out, "rehearse {number} {} {}", size.clients(), size.steps())
        }
        Plan::Shown(text) => push_text(out, "shown ", text.as_str()),
    }
}

/// Appends a command, its chain and its journal, if it has one.
fn push_place(
    alloc: Global,
    out: &mut String,
    command: &str,
    genesis: &Root,
    journal: Option<&PathText>,
) -> Result<(), AllocError> {
    write!(out, "{command} ")?;
    push_hex(alloc, out, &genesis.0)?;
    match journal {
        Some(path) => write!(out, " at {}", path.as_str()),
        None => out.push_str(" nowhere"),
    }
}

/// Appends a fork, whether a service signs, and whether keys are watched.
fn push_signing(
    out: &mut String,
    fork: &Fork,
    has_signer: bool,
    watch: bool,
) -> Result<(), AllocError> {
    out.push(' ')?;
    push_digits(out, &fork.previous_version)?;
    out.push(' ')?;
    push_digits(out, &fork.current_version)?;
    write!(out, " {} {has_signer} {watch}", fork.epoch)
}

/// Appends from which epoch on blocks have the Altair body, or a `-` where they never have.
fn push_altair(out: &mut String, altair: Option<u64>) -> Result<(), AllocError> {
    match altair {
        Some(epoch) => write!(out, " altair {epoch}"),
        None => out.push_str(" altair -"),
    }
}

/// Appends the address of a service.
fn push_service(out: &mut String, service: &ServiceUrl) -> Result<(), AllocError> {
    write!(out, " {}{}", service.authority(), service.path())
}

/// Appends the options of a server.
fn push_options(alloc: Global, out: &mut String, options: &ServeOptions) -> Result<(), AllocError> {
    push_place(
        alloc,
        out,
        "serve",
        &options.genesis,
        Some(&options.journal),
    )?;
    push_service(out, &options.signer)?;
    push_door(out, options)?;
    push_work(out, options)?;
    push_altair(out, options.altair)?;
    for node in options.nodes.as_slice() {
        push_service(out, node)?;
    }
    Ok(())
}

/// Appends of how many epochs a server keeps everything, and how many seconds a question to a node may take.
fn push_work(out: &mut String, options: &ServeOptions) -> Result<(), AllocError> {
    match options.keep_epochs.last() {
        Some(count) => write!(out, " {count}")?,
        None => out.push_str(" all")?,
    }
    write!(out, " {}", options.timeout.seconds())
}

/// Appends where a server answers, its token, whether it watches and aggregates, when it ends, and how many lanes it has.
fn push_door(out: &mut String, options: &ServeOptions) -> Result<(), AllocError> {
    let listen = options.listen;
    let token = options.token.as_str();
    let watch = options.watch;
    let aggregate = options.aggregate;
    let slots = options.slots;
    let connections = options.connections;
    let lanes = options.lanes.get();
    write!(
        out,
        " {listen} {token} {watch} {aggregate} {slots} {connections} {lanes}"
    )
}

/// Appends the options of a signing proxy.
fn push_proxy(alloc: Global, out: &mut String, options: &ProxyOptions) -> Result<(), AllocError> {
    push_place(
        alloc,
        out,
        "proxy",
        &options.genesis,
        Some(&options.journal),
    )?;
    push_service(out, &options.signer)?;
    push_lanes(out, options)
}

/// Appends when the chain of a signing proxy began, where it answers, its token, when it ends, how many lanes it has, and
/// whether it is quiet.
fn push_lanes(out: &mut String, options: &ProxyOptions) -> Result<(), AllocError> {
    let genesis_time = options.genesis_time;
    let listen = options.listen;
    let token = options.token.as_str();
    let connections = options.connections;
    let lanes = options.lanes.get();
    let quiet = options.quiet;
    write!(
        out,
        " {genesis_time} {listen} {token} {connections} {lanes} {quiet}"
    )
}
