//! What a command line names of the outside: the files of its journal, the services that it calls, where it takes
//! connections, and the file that holds the token.
#![tactic(auto)]

ghost use Rattle.std.specs.Prelude.{◌≡◌, [], IfOk, None, Ok, Some, true, false, map, option_map, string_bytes, ◌++◌};
ghost use Rattle.command_line.specs.Plans.{asked_of, taken_as};
ghost use Rattle.plan_places.specs.Files.{files_at, files_of};
ghost use Rattle.plan_places.specs.Services.{connections_of, is_proxy, listen_of, nodes_of, quiet_of, signer_of, timeout_of, token_of, watch_of};

mod token_file;

use command_line::{ListenAddress, NodeTimeout, Plan, ProxyOptions, ServeOptions, TokenText, plan};
use service_url::ServiceUrl;
use std::alloc::{AllocError, Global};
pub use token_file::{token_path, with_token, without_line_end};

/// What words name of the outside.
#[derive(Drop)]
pub struct Places {
    /// The paths of the two files of the journal, if they name one.
    pub files: Option<(String, String)>,
    /// The services, and where connections are taken.
    pub services: Services,
}

/// What words name of the network.
#[derive(Drop)]
pub struct Services {
    /// The address of the signing service, if they name one.
    pub signer: Option<ServiceUrl>,
    /// The addresses of the beacon nodes, in their order.
    pub nodes: Vec<ServiceUrl>,
    /// How long a question to a beacon node may take, if they say.
    pub timeout: Option<NodeTimeout>,
    /// Where connections are taken, if anywhere.
    pub listen: Option<ListenAddress>,
    /// How many connections are taken, if they say.
    pub connections: Option<u64>,
    /// The token that connections must bear, if any are taken.
    pub token: Option<TokenText>,
    /// Whether standard error has only lines of faults.
    pub quiet: bool,
    /// Whether a server watches the keys that become active.
    pub watch: bool,
    /// Whether validator clients call at the door, for signatures.
    pub is_proxy: bool,
}

/// What the words of a command line name of the outside; nothing where they are no command.
///
/// # Errors
///
/// `AllocError` where memory was wanted.
pub fn named(alloc: Global, words: &[String]) -> Result<Places, AllocError>
    ensures files { IfOk result (λ x. option_map (λ f. (string_bytes f.0, string_bytes f.1)) x.files ≡ files_of (asked_of (map string_bytes words.now))) }
    ensures signer { IfOk result (λ x. x.services.signer ≡ signer_of (asked_of (map string_bytes words.now))) }
    ensures nodes { IfOk result (λ x. x.services.nodes.items ≡ nodes_of (asked_of (map string_bytes words.now))) }
    ensures timeout { IfOk result (λ x. x.services.timeout ≡ timeout_of (asked_of (map string_bytes words.now))) }
    ensures listen { IfOk result (λ x. x.services.listen ≡ listen_of (asked_of (map string_bytes words.now))) }
    ensures connections { IfOk result (λ x. x.services.connections ≡ connections_of (asked_of (map string_bytes words.now))) }
    ensures token { IfOk result (λ x. x.services.token ≡ token_of (asked_of (map string_bytes words.now))) }
    ensures quiet { IfOk result (λ x. x.services.quiet ≡ quiet_of (asked_of (map string_bytes words.now))) }
    ensures watch { IfOk result (λ x. x.services.watch ≡ watch_of (asked_of (map string_bytes words.now))) }
    ensures proxy { IfOk result (λ x. x.services.is_proxy ≡ is_proxy (asked_of (map string_bytes words.now))) }
{
    match plan(alloc, words)? {
        Ok(plan) => named_by(alloc, plan),
        Err(_) => Ok(Places {
            files: None,
            services: no_services(alloc),
        }),
    }
}

/// What a plan names of the outside.
fn named_by(alloc: Global, plan: Plan) -> Result<Places, AllocError>
    ensures files { IfOk result (λ x. option_map (λ f. (string_bytes f.0, string_bytes f.1)) x.files ≡ files_of (taken_as (Ok plan))) }
    ensures signer { IfOk result (λ x. x.services.signer ≡ signer_of (taken_as (Ok plan))) }
    ensures nodes { IfOk result (λ x. x.services.nodes.items ≡ nodes_of (taken_as (Ok plan))) }
    ensures timeout { IfOk result (λ x. x.services.timeout ≡ timeout_of (taken_as (Ok plan))) }
    ensures listen { IfOk result (λ x. x.services.listen ≡ listen_of (taken_as (Ok plan))) }
    ensures connections { IfOk result (λ x. x.services.connections ≡ connections_of (taken_as (Ok plan))) }
    ensures token { IfOk result (λ x. x.services.token ≡ token_of (taken_as (Ok plan))) }
    ensures quiet { IfOk result (λ x. x.services.quiet ≡ quiet_of (taken_as (Ok plan))) }
    ensures watch { IfOk result (λ x. x.services.watch ≡ watch_of (taken_as (Ok plan))) }
    ensures proxy { IfOk result (λ x. x.services.is_proxy ≡ is_proxy (taken_as (Ok plan))) }
{
    let files = plan_files(alloc, &plan)?;
    let services = services_in(alloc, plan);
    Ok(Places { files, services })
}

/// No service, and no place for connections.
fn no_services(alloc: Global) -> Services
    ensures signer { result.signer ≡ None }
    ensures nodes { result.nodes.items ≡ [] }
    ensures timeout { result.timeout ≡ None }
    ensures listen { result.listen ≡ None }
    ensures connections { result.connections ≡ None }
    ensures token { result.token ≡ None }
    ensures quiet { result.quiet ≡ false }
    ensures watch { result.watch ≡ false }
    ensures proxy { result.is_proxy ≡ false }
{
    Services {
        signer: None,
        nodes: Vec::new(alloc),
        timeout: None,
        listen: None,
        connections: None,
        token: None,
        quiet: false,
        watch: false,
        is_proxy: false,
    }
}

/// What a plan names of the network.
fn services_in(alloc: Global, plan: Plan) -> Services
    ensures signer { result.signer ≡ signer_of (taken_as (Ok plan)) }
    ensures nodes { result.nodes.items ≡ nodes_of (taken_as (Ok plan)) }
    ensures timeout { result.timeout ≡ timeout_of (taken_as (Ok plan)) }
    ensures listen { result.listen ≡ listen_of (taken_as (Ok plan)) }
    ensures connections { result.connections ≡ connections_of (taken_as (Ok plan)) }
    ensures token { result.token ≡ token_of (taken_as (Ok plan)) }
    ensures quiet { result.quiet ≡ quiet_of (taken_as (Ok plan)) }
    ensures watch { result.watch ≡ watch_of (taken_as (Ok plan)) }
    ensures proxy { result.is_proxy ≡ is_proxy (taken_as (Ok plan)) }
{
    match plan {
        Plan::Serve(options) => services_of(options),
        Plan::Proxy(options) => services_of_proxy(alloc, options),
        Plan::Session { signer, .. } => Services {
            signer,
            nodes: Vec::new(alloc),
            timeout: None,
            listen: None,
            connections: None,
            token: None,
            quiet: false,
            watch: false,
            is_proxy: false,
        },
        _ => no_services(alloc),
    }
}

/// What the options of a server name of the network.
fn services_of(options: ServeOptions) -> Services
    ensures signer { result.signer ≡ Some options.signer }
    ensures nodes { result.nodes.items ≡ options.nodes }
    ensures timeout { result.timeout ≡ Some options.timeout }
    ensures listen { result.listen ≡ Some options.listen }
    ensures connections { result.connections ≡ Some options.connections }
    ensures token { result.token ≡ Some options.token }
    ensures quiet { result.quiet ≡ options.quiet }
    ensures watch { result.watch ≡ options.watch }
    ensures proxy { result.is_proxy ≡ false }
{
    let ServeOptions {
        genesis: _genesis,
        journal: _journal,
        signer,
        listen,
        token,
        altair: _altair,
        watch,
        aggregate: _aggregate,
        slots: _slots,
        connections,
        lanes: _lanes,
        keep_epochs: _keep_epochs,
        timeout,
        quiet,
        nodes,
    } = options;
    Services {
        signer: Some(signer),
        nodes: nodes.into_vec(),
        timeout: Some(timeout),
        listen: Some(listen),
        connections: Some(connections),
        token: Some(token),
        quiet,
        watch,
        is_proxy: false,
    }
}

/// What the options of a signing proxy name of the network.
fn services_of_proxy(alloc: Global, options: ProxyOptions) -> Services
    ensures signer { result.signer ≡ Some options.signer }
    ensures nodes { result.nodes.items ≡ [] }
    ensures timeout { result.timeout ≡ None }
    ensures listen { result.listen ≡ Some options.listen }
    ensures connections { result.connections ≡ Some options.connections }
    ensures token { result.token ≡ Some options.token }
    ensures quiet { result.quiet ≡ options.quiet }
    ensures watch { result.watch ≡ false }
    ensures proxy { result.is_proxy ≡ true }
{
    let ProxyOptions {
        genesis: _genesis,
        journal: _journal,
        signer,
        genesis_time: _genesis_time,
        listen,
        token,
        connections,
        lanes: _lanes,
        quiet,
    } = options;
    Services {
        signer: Some(signer),
        nodes: Vec::new(alloc),
        timeout: None,
        listen: Some(listen),
        connections: Some(connections),
        token: Some(token),
        quiet,
        watch: false,
        is_proxy: true,
    }
}

/// The paths of the two files of a plan's journal, if it has one.
fn plan_files(alloc: Global, plan: &Plan) -> Result<Option<(String, String)>, AllocError>
    ensures { IfOk result (λ files. option_map (λ f. (string_bytes f.0, string_bytes f.1)) files ≡ files_of (taken_as (Ok plan.now))) }
{
    let path = match plan {
        Plan::Session { journal, .. } => match journal {
            Some(path) => path.as_str(),
            None => return Ok(None),
        },
        Plan::Serve(options) => options.journal.as_str(),
        Plan::Proxy(options) => options.journal.as_str(),
        Plan::Merge { journal, .. } | Plan::Show { journal, .. } => journal.as_str(),
        Plan::Rehearse { .. } | Plan::Shown(_) => return Ok(None),
    };
    let files = path_files(alloc, path)?;
    Ok(Some(files))
}

/// The paths of the two files of a journal's path.
fn path_files(alloc: Global, path: &str) -> Result<(String, String), AllocError>
    ensures { IfOk result (λ f. (string_bytes f.0, string_bytes f.1) ≡ files_at path.now) }
{
    let first = with_ending(alloc, path, ".a")?;
    let second = with_ending(alloc, path, ".b")?;
    Ok((first, second))
}

/// A path with an ending.
fn with_ending(alloc: Global, path: &str, ending: &str) -> Result<String, AllocError>
    ensures { IfOk result (λ text. string_bytes text ≡ path.now ++ ending.now) }
{
    let mut text = String::from_str(alloc, path)?;
    text.push_str(ending)?;
    Ok(text)
}
