//! Several nodes in memory, and the schedule that takes their answers.
use crate::answers::answer_words;
use crate::nodes::post_of;
use crate::permits::PERMIT;
use crate::questions::{answer_of, ask_of, keys_of};
use crate::reading::{Stop, first_part, numbers_in};
use crate::scenes::Scene;
use duty_schedule::{DutyRows, Schedule, Taken};
use edge_kit::Items;
use node_calls::{Answer, Ask, MemNode, NodeCall};
use node_fallback::{NoAnswer, Nodes};
use std::alloc::{AllocError, Global};

/// Nodes in their order, and a schedule.
#[derive(Drop)]
pub struct Stage {
    nodes: Nodes<MemNode>,
    schedule: Schedule,
}

/// A node with these answers, whose calls of these numbers fail, each after a semicolon.
fn mem_node(alloc: Global, setting: &str) -> Result<MemNode, Stop> {
    let mut answers = Vec::new(alloc);
    let mut failing = Vec::new(alloc);
    for part in setting.split("; ") {
        if part.starts_with("fails") {
            failing = numbers_in(alloc, part)?;
        } else if part != "silent" {
            answers.push(answer_of(alloc, part)?)?;
        }
    }
    Ok(MemNode::new(alloc, answers, failing))
}

/// Nodes, each after a slash.
pub fn stage_of(alloc: Global, setting: &str) -> Result<Stage, Stop> {
    let mut nodes = Vec::new(alloc);
    for node in setting.split(" / ") {
        nodes.push(mem_node(alloc, node)?)?;
    }
    Ok(Stage {
        nodes: Nodes::new(alloc, nodes),
        schedule: Schedule::new(alloc),
    })
}

/// Why no node gave anything.
fn why_none(alloc: Global, why: &NoAnswer) -> Result<String, Stop> {
    let NoAnswer::NoNode(causes) = why else {
        return Err(Stop::OutOfMemory);
    };
    let mut text = String::from_str(alloc, "none:")?;
    for cause in causes.as_slice() {
        write!(text, " {cause}")?;
    }
    Ok(text)
}

/// What the nodes answer to a question.
fn ask(alloc: Global, stage: &mut Stage, words: &str) -> Result<String, Stop> {
    let ask = ask_of(alloc, words)?;
    match stage.nodes.ask(&ask) {
        Ok(answer) => Ok(answer_words(alloc, &answer)?),
        Err(why) => why_none(alloc, &why),
    }
}

/// Whether a node takes something signed.
fn post(alloc: Global, stage: &mut Stage, words: &str) -> Result<String, Stop> {
    let post = post_of(alloc, words)?;
    match stage.nodes.post(&PERMIT, &post) {
        Ok(()) => Ok(String::from_str(alloc, "taken")?),
        Err(why) => why_none(alloc, &why),
    }
}

/// What becomes of the answer to a question about duties.
fn take_in(
    alloc: Global,
    schedule: &mut Schedule,
    ask: Ask,
    answer: Answer,
) -> Result<Taken, Stop> {
    match (ask, answer) {
        (
            Ask::Attester { epoch, indices },
            Answer::Attester {
                dependent_root,
                rows,
            },
        ) => Ok(schedule.take_answer(epoch, indices, dependent_root, DutyRows::Attester(rows))),
        (
            Ask::Proposer { epoch },
            Answer::Proposer {
                dependent_root,
                rows,
            },
        ) => {
            let indices = Items::new(alloc);
            let rows = DutyRows::Proposer(rows);
            Ok(schedule.take_answer(epoch, indices, dependent_root, rows))
        }
        _ => Err(Stop::Unread),
    }
}

/// What becomes of what the nodes answer to a question about duties.
fn take(alloc: Global, stage: &mut Stage, words: &str) -> Result<String, Stop> {
    let ask = ask_of(alloc, words)?;
    match stage.nodes.ask(&ask) {
        Ok(answer) => {
            let taken = take_in(alloc, &mut stage.schedule, ask, answer)?;
            Ok(format!(in alloc; "{taken:?}")?)
        }
        Err(why) => why_none(alloc, &why),
    }
}

/// What becomes of an answer, which is given after its question.
fn hold(alloc: Global, stage: &mut Stage, words: &str) -> Result<String, Stop> {
    let (ask, answer) = first_part(words, ": ");
    let ask = ask_of(alloc, ask)?;
    let answer = answer_of(alloc, answer)?;
    let taken = take_in(alloc, &mut stage.schedule, ask, answer)?;
    Ok(format!(in alloc; "{taken:?}")?)
}

/// What is due at a slot for these keys.
fn due(alloc: Global, stage: &Stage, words: &str) -> Result<String, Stop> {
    match numbers_in(alloc, words)?.as_slice() {
        [slot, keys @ ..] => {
            let keys = keys_of(alloc, keys)?;
            let duties = stage.schedule.due(*slot, keys.as_slice())?;
            Ok(format!(in alloc; "{duties:?}")?)
        }
        [] => Err(Stop::Unread),
    }
}

/// What a node was asked or given.
fn call_name(call: &NodeCall) -> &'static str {
    match call {
        NodeCall::Asked(Ask::Syncing, _) => " syncing",
        NodeCall::Asked(Ask::Genesis, _) => " genesis",
        NodeCall::Asked(_, _) => " another",
        NodeCall::Posted(_, _) => " post",
    }
}

/// Adds what a node was asked or given, after a bar.
fn push_calls(node: &MemNode, text: &mut String) -> Result<(), AllocError> {
    text.push('|')?;
    for call in node.told() {
        text.push_str(call_name(call))?;
    }
    Ok(())
}

/// What each node was asked or given.
fn calls(alloc: Global, stage: &Stage) -> Result<String, Stop> {
    let nodes = stage.nodes.twin(alloc)?.into_nodes();
    let mut text = String::new(alloc);
    for node in nodes.as_slice() {
        push_calls(node, &mut text)?;
    }
    Ok(text)
}

impl Scene for Stage {
    fn call(&mut self, alloc: Global, name: &str, arguments: &str) -> Result<String, Stop> {
        match name {
            "ask" => ask(alloc, self, arguments),
            "refresh" => Ok(format!(in alloc; "{:?}", self.nodes.refresh())?),
            "post" => post(alloc, self, arguments),
            "take" => take(alloc, self, arguments),
            "hold" => hold(alloc, self, arguments),
            "due" => due(alloc, self, arguments),
            "calls" => calls(alloc, self),
            _ => Err(Stop::Unread),
        }
    }

    /// The nodes' twins, with a schedule that holds no answer.
    fn another(&self, alloc: Global) -> Result<Self, Stop> {
        Ok(Stage {
            nodes: self.nodes.twin(alloc)?,
            schedule: Schedule::new(alloc),
        })
    }
}
