//! What is reported when a server begins.

use crate::node_genesis::{Genesis, node_genesis};
use crate::node_version::{NodeVersion, node_version};
use command_line::{Plan, ProxyOptions, ServeOptions, plan};
use edge_kit::Root;
use service_url::ServiceUrl;
use std::alloc::{AllocError, Global};
use std::fmt;
use std::fmt::{Display, Formatter};
use std::io::Eprint;
use std::net::Net;
use std::rt::Clock;

/// Reports on standard error how a server begins, a line each: the version of the program, the chain, where the server takes
/// connections, and the services that it calls, of each node with the version that it says it has. Of a server that is quiet
/// it reports none of that. In both cases it reports a node of another chain, or of one that began at another moment than the
/// first node says. How a signing proxy begins it reports similarly, without nodes. Of other words it reports nothing.
///
/// # Errors
///
/// `AllocError` where memory was wanted.
pub fn announce<R: Net + Eprint + Clock>(
    rt: &R,
    alloc: Global,
    words: &[String],
) -> Result<(), AllocError> {
    match plan(alloc, words)? {
        Ok(Plan::Serve(options)) => {
            if !options.quiet {
                announce_program(rt, alloc)?;
                announce_server(rt, &options);
            }
            look_at_nodes(rt, alloc, &options)
        }
        Ok(Plan::Proxy(options)) if !options.quiet => {
            announce_program(rt, alloc)?;
            announce_proxy(rt, &options);
            Ok(())
        }
        _ => Ok(()),
    }
}

/// Reports the version of the program, as the word `--version` asks for it.
fn announce_program<R: Eprint>(rt: &R, alloc: Global) -> Result<(), AllocError> {
    let mut words = Vec::new(alloc);
    words.push(String::from_str(alloc, "validator")?)?;
    words.push(String::from_str(alloc, "--version")?)?;
    if let Ok(Plan::Shown(text)) = plan(alloc, words.as_slice())? {
        let text = text.as_str().trim_end();
        let _ = eprintln!(rt; "{text}");
    }
    Ok(())
}

/// Reports the chain of a server, where it takes connections, and its signing service.
fn announce_server<R: Eprint>(rt: &R, options: &ServeOptions) {
    announce_chain(rt, &options.genesis);
    let (host, port) = (options.listen.host, options.listen.port);
    let _ = eprintln!(rt; "validator: Keymanager API at {host}:{port}");
    announce_signer(rt, &options.signer);
}

/// Reports the chain of a signing proxy, where it takes connections, and its signing service.
fn announce_proxy<R: Eprint>(rt: &R, options: &ProxyOptions) {
    announce_chain(rt, &options.genesis);
    let (host, port) = (options.listen.host, options.listen.port);
    let _ = eprintln!(rt; "validator: signatures and Keymanager API at {host}:{port}");
    announce_signer(rt, &options.signer);
}

/// Reports the chain.
fn announce_chain<R: Eprint>(rt: &R, genesis: &Root) {
    let genesis = RootText(genesis);
    let _ = eprintln!(rt; "validator: genesis validators root {genesis}");
}

/// Reports the signing service.
fn announce_signer<R: Eprint>(rt: &R, service: &ServiceUrl) {
    let signer = UrlText(service);
    let _ = eprintln!(rt; "validator: signing service {signer}");
}

/// Looks at the nodes of a server, in their order.
fn look_at_nodes<R: Net + Eprint + Clock>(
    rt: &R,
    alloc: Global,
    options: &ServeOptions,
) -> Result<(), AllocError> {
    let mut began = None;
    'nodes: for service in options.nodes.as_slice() {
        let answers = options.quiet || has_version(rt, alloc, service, options)?;
        if answers {
            look_at_chain(rt, alloc, service, options, &mut began)?;
        }
    }
    Ok(())
}

/// Asks a node for its version, reports it, and says whether the node answered.
fn has_version<R: Net + Eprint + Clock>(
    rt: &R,
    alloc: Global,
    service: &ServiceUrl,
    options: &ServeOptions,
) -> Result<bool, AllocError> {
    let version = node_version(rt, alloc, service, options.timeout.seconds())?;
    let node = UrlText(service);
    let _ = eprintln!(rt; "validator: beacon node {node}: {version}");
    Ok(!matches!(&version, NodeVersion::Silent))
}

/// Asks a node for its chain, and reports it where it is another than that of the server, or began at another moment than the
/// first node said, which is kept.
fn look_at_chain<R: Net + Eprint + Clock>(
    rt: &R,
    alloc: Global,
    service: &ServiceUrl,
    options: &ServeOptions,
    began: &mut Option<u64>,
) -> Result<(), AllocError> {
    let Some(genesis) = node_genesis(rt, alloc, service, options.timeout.seconds())? else {
        return Ok(());
    };
    if genesis.root != options.genesis {
        report_root(rt, service, &genesis);
    }
    match *began {
        Some(first) if first != genesis.time => report_time(rt, service, &genesis, first),
        Some(_) => {}
        None => *began = Some(genesis.time),
    }
    Ok(())
}

/// Reports a node of another chain.
fn report_root<R: Eprint>(rt: &R, service: &ServiceUrl, genesis: &Genesis) {
    let (node, root) = (UrlText(service), RootText(&genesis.root));
    let _ = eprintln!(rt;
        "validator: beacon node {node} is of another chain: genesis validators root {root}"
    );
}

/// Reports a node whose chain began at another moment than the first node said.
fn report_time<R: Eprint>(rt: &R, service: &ServiceUrl, genesis: &Genesis, first: u64) {
    let (node, time) = (UrlText(service), genesis.time);
    let _ = eprintln!(rt;
        "validator: beacon node {node} has genesis time {time}, and the first node {first}"
    );
}

/// A root in hex.
#[derive(Drop)]
struct RootText<'a>(&'a Root);

impl Display for RootText<'_> {
    fn fmt<W: fmt::Write>(&self, f: &mut Formatter<W>) -> fmt::Result {
        let RootText(root) = self;
        write!(f, "0x")?;
        for byte in &root.0 {
            write!(f, "{byte:02x}")?;
        }
        Ok(())
    }
}

/// Where a service is.
#[derive(Drop)]
struct UrlText<'a>(&'a ServiceUrl);

impl Display for UrlText<'_> {
    fn fmt<W: fmt::Write>(&self, f: &mut Formatter<W>) -> fmt::Result {
        let UrlText(service) = self;
        write!(f, "http://{}{}", service.authority(), service.path())
    }
}
