//! What is asked of the beacon nodes before the journal is opened.
ghost use Rattle.std.specs.Prelude.{◌≡◌, true, IfOk};
ghost use Rattle.node_calls.specs.Fitting.{fits};
ghost use Rattle.duty_plans.specs.Seats.{nodes_seen};
ghost use Rattle.serve_run.specs.Starting.{ByFork, ByGenesis, ByRoot, StartsBy};

use edge_kit::{Items, Root};
use node_calls::{Answer, Ask, Node};
use node_fallback::{Cause, NoAnswer, Nodes};
use phase0_types::Fork;

/// What the nodes gave before the journal is opened.
#[derive(Clone, Copy, PartialEq, Eq, Debug)]
pub struct Start {
    /// When the chain began, in seconds since 1970.
    pub genesis_time: u64,
    /// The chain's fork.
    pub fork: Fork,
}

/// Why nothing is begun.
#[derive(Drop)]
pub enum Unstarted {
    /// A question had no answer: the cause at each node, in the order of the nodes.
    NoNode(Items<Cause>),
    /// The first node that answered is of a chain with this root of genesis validators.
    GenesisDiffers(Root),
    /// Memory ran out.
    OutOfMemory,
}

/// Asks the nodes for the genesis (Beacon API, `getGenesis`) and, where its root of genesis validators is this one, for the
/// fork (`getStateFork`), each of the first node that answers.
///
/// # Errors
///
/// `NoNode` exactly where a question ended without an answer; `GenesisDiffers` exactly where the answer to the first has
/// another root; `OutOfMemory` where memory was wanted.
pub fn ask_start<N: Node + Drop>(genesis: &Root, nodes: &mut Nodes<N>) -> Result<Start, Unstarted>
    ensures { StartsBy genesis.now (nodes_seen N.told N.faults nodes.old) (nodes_seen N.told N.faults nodes.new) result }
{
    let given = nodes.ask(&Ask::Genesis);
    by_genesis(genesis, given, nodes)
}

/// Goes on by what was given for the genesis.
fn by_genesis<N: Node + Drop>(
    genesis: &Root,
    given: Result<Answer, NoAnswer>,
    nodes: &mut Nodes<N>,
) -> Result<Start, Unstarted>
    requires { IfOk given (λ a. fits Ask.Genesis a ≡ true) }
    ensures { ByGenesis genesis.now (nodes_seen N.told N.faults nodes.old) (nodes_seen N.told N.faults nodes.new) given result }
{
    match given {
        Ok(
            Answer::Genesis {
                genesis_time,
                genesis_validators_root,
            },
        ) => by_root(genesis, genesis_time, genesis_validators_root, nodes),
        Ok(_) => unreachable!(),
        Err(NoAnswer::NoNode(causes)) => Err(Unstarted::NoNode(causes)),
        Err(NoAnswer::OutOfMemory) => Err(Unstarted::OutOfMemory),
    }
}

/// Asks for the fork of a chain that began then, if its root is this one.
fn by_root<N: Node + Drop>(
    genesis: &Root,
    genesis_time: u64,
    root: Root,
    nodes: &mut Nodes<N>,
) -> Result<Start, Unstarted>
    ensures { ByRoot genesis.now genesis_time root (nodes_seen N.told N.faults nodes.old) (nodes_seen N.told N.faults nodes.new) result }
{
    if root != *genesis {
        return Err(Unstarted::GenesisDiffers(root));
    }
    let given = nodes.ask(&Ask::Fork);
    by_fork(genesis_time, given)
}

/// What is begun with by what was given for the fork.
fn by_fork(genesis_time: u64, given: Result<Answer, NoAnswer>) -> Result<Start, Unstarted>
    requires { IfOk given (λ a. fits Ask.Fork a ≡ true) }
    ensures { ByFork genesis_time given result }
{
    match given {
        Ok(Answer::Fork(fork)) => Ok(Start { genesis_time, fork }),
        Ok(_) => unreachable!(),
        Err(NoAnswer::NoNode(causes)) => Err(Unstarted::NoNode(causes)),
        Err(NoAnswer::OutOfMemory) => Err(Unstarted::OutOfMemory),
    }
}
