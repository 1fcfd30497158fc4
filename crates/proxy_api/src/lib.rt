//! The connections of the signing proxy, over any desk and any signer: a request for a signature is answered as a signing service
//! would (Web3Signer API, `eth2/sign`, `eth2/publicKeys`, `upcheck`), and a request of the Keymanager API as `keymanager_api` does.
#![tactic(auto)]

mod form;
mod listing;
mod replying;
mod route;
mod servant;
mod serve;

pub use form::Form;
pub use route::Wanted;
pub use servant::ProxyServant;
pub use serve::sign_connection;
