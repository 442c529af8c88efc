//! A server node: a file server and a volume server over one store. Messages of clients are the file server's, all others the volume server's.
#![tactic(auto)]

mod handling;
pub mod laws;
mod node;
mod waiting;

pub use node::ServerNode;
