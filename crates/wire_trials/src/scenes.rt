//! Something whose calls are made one after another, and its twin.
use crate::reading::{Stop, first_part};
use crate::{links, nodes, signers, stages};
use std::alloc::Global;

/// Something whose calls are made one after another.
pub trait Scene: Sized + Drop {
    /// Makes a call, and answers what comes of it in words.
    fn call(&mut self, alloc: Global, name: &str, arguments: &str) -> Result<String, Stop>;

    /// Another of the same.
    fn another(&self, alloc: Global) -> Result<Self, Stop>;
}

/// What comes of the calls of a setting, which are given after it: each after a bar.
pub fn outcome(
    alloc: Global,
    subject: &str,
    arguments: &str,
    failing: &[u64],
) -> Result<String, Stop> {
    let (setting, calls) = first_part(arguments, " | ");
    match subject {
        "link" => play(alloc, &mut links::link(alloc, setting, failing)?, calls),
        "signer" => play(alloc, &mut signers::signer(alloc, setting, failing)?, calls),
        "node" => play(alloc, &mut nodes::node(alloc, setting, failing)?, calls),
        _ => play(alloc, &mut stages::stage_of(alloc, setting)?, calls),
    }
}

/// Makes calls. Those after the word `twin` are made of a twin, and then of what it is the twin of.
fn play<S: Scene>(alloc: Global, scene: &mut S, calls: &str) -> Result<String, Stop> {
    let mut text = String::new(alloc);
    match calls.split_once("twin | ") {
        Some((before, after)) => {
            make_calls(alloc, scene, before, &mut text)?;
            play_twice(alloc, scene, after, &mut text)?;
        }
        None => make_calls(alloc, scene, calls, &mut text)?,
    }
    Ok(text)
}

/// Makes calls of a twin, and then of what it is the twin of.
fn play_twice<S: Scene>(
    alloc: Global,
    scene: &mut S,
    calls: &str,
    text: &mut String,
) -> Result<(), Stop> {
    let mut twin = scene.another(alloc)?;
    text.push_str("of the twin\n")?;
    make_calls(alloc, &mut twin, calls, text)?;
    text.push_str("of the first\n")?;
    make_calls(alloc, scene, calls, text)
}

/// Makes calls one after another, and adds what comes of each.
fn make_calls<S: Scene>(
    alloc: Global,
    scene: &mut S,
    calls: &str,
    text: &mut String,
) -> Result<(), Stop> {
    for call in calls.split(" | ") {
        if !call.is_empty() {
            make_call(alloc, scene, call, text)?;
        }
    }
    Ok(())
}

/// Makes a call, and adds what comes of it.
fn make_call<S: Scene>(
    alloc: Global,
    scene: &mut S,
    call: &str,
    text: &mut String,
) -> Result<(), Stop> {
    let (name, arguments) = first_part(call, " ");
    let words = scene.call(alloc, name, arguments)?;
    let words = words.as_str();
    text.push_str(words.strip_suffix('\n').unwrap_or(words))?;
    Ok(text.push_str("\n")?)
}
