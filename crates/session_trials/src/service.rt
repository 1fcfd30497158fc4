//! Runs of scripts with a service that signs, over a link in memory.
use crate::outside::{Ended, fresh_disks};
use crate::runs::run_over;
use crate::script::Script;
use crate::shown::{marked, push_lines, shown};
use crate::words::{has_word, numbers_of};
use edge_kit::{MemLink, Sig, hex_text};
use service_url::ServiceUrl;
use signer_link::{SignCall, SignReply, Told};
use slash_defs::Message;
use std::alloc::{AllocError, Global};
use std::sync::Wait;
use std::thread::Threads;
use test_texts::filled;
use web3_signer::Web3Signer;

/// The address of the service.
const ADDRESS: &str = "http://signer.example:9000/eth/";

/// Runs the requests that the words name over new disks, with a service that says this, and gives what came of it.
pub fn serve<T: Threads + Wait + Sync>(
    rt: &T,
    alloc: Global,
    script: &Script,
    words: &str,
    said: &str,
) -> Result<String, AllocError> {
    let signer = service_of(alloc, words, said)?;
    let ended = run_over(rt, alloc, script, words, fresh_disks(alloc)?, signer)?;
    let text = shown_with_service(alloc, ended, words)?;
    marked(alloc, text)
}

/// What a run came to, what the service was sent, and what it told.
fn shown_with_service(
    alloc: Global,
    ended: Ended<Web3Signer<MemLink>>,
    words: &str,
) -> Result<String, AllocError> {
    let mut text = shown(alloc, &ended, words)?;
    push_told(alloc, &mut text, ended.signer.told())?;
    let sent = ended.signer.into_link().into_sent();
    push_lines(alloc, &mut text, "sent", sent.as_slice(), words)?;
    Ok(text)
}

/// A service that says this, whose link fails where the words say so.
fn service_of(alloc: Global, words: &str, said: &str) -> Result<Web3Signer<MemLink>, AllocError> {
    let link = link_of(alloc, words, said)?;
    let address = address(alloc)?;
    if has_word(words, "telling") {
        Ok(Web3Signer::telling(link, address))
    } else {
        Ok(Web3Signer::new(link, address))
    }
}

/// The address of the service, read.
fn address(alloc: Global) -> Result<ServiceUrl, AllocError> {
    match ServiceUrl::read(alloc, ADDRESS)? {
        Some(address) => Ok(address),
        None => Err(AllocError),
    }
}

/// The link to a service that says this, over each connection what stands up to the next ` || `.
fn link_of(alloc: Global, words: &str, said: &str) -> Result<MemLink, AllocError> {
    let mut conversations = Vec::new(alloc);
    for said in said.split(" || ") {
        conversations.push(said_bytes(alloc, said)?)?;
    }
    let failing = numbers_of(alloc, words, "failing", 0)?;
    MemLink::new(alloc, conversations, 4096, failing)
}

/// The bytes of a text with marks, in which `\r` and `\n` end lines.
fn said_bytes(alloc: Global, said: &str) -> Result<Vec<u8>, AllocError> {
    let said = said.replace(alloc, "\\r", "\r")?;
    let said = said.replace(alloc, "\\n", "\n")?;
    let said = filled(alloc, said.as_str())?;
    Ok(said.into_bytes())
}

/// Adds the calls of a service that tells them, a line each.
fn push_told(alloc: Global, text: &mut String, told: Option<&[Told]>) -> Result<(), AllocError> {
    for told in told.unwrap_or(&[]) {
        let line = match told {
            Told::Sign(call, SignReply::Signed(signature)) => signed_words(alloc, call, signature)?,
            _ => String::from_str(alloc, "told another call\n")?,
        };
        text.push_str(line.as_str())?;
    }
    Ok(())
}

/// A call that was answered with a signature.
fn signed_words(alloc: Global, call: &SignCall, signature: &Sig) -> Result<String, AllocError> {
    let key = hex_text(alloc, &call.key.0)?;
    let message = message_words(alloc, &call.message)?;
    let signature = hex_text(alloc, &signature.0)?;
    let (key, message, signature) = (key.as_str(), message.as_str(), signature.as_str());
    format!(in alloc; "told signed {key} {message} {signature}\n")
}

/// A message in words.
fn message_words(alloc: Global, message: &Message) -> Result<String, AllocError> {
    let root = hex_text(alloc, &message.signing_root().0)?;
    let root = root.as_str();
    match message {
        Message::Block { slot, .. } => format!(in alloc; "block {} {root}", *slot),
        Message::Vote { source, target, .. } => {
            format!(in alloc; "vote {} {} {root}", *source, *target)
        }
    }
}
