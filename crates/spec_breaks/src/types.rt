use afs_num::types::{Fid, Node};

/// A client's right to its copy of a file, until the server breaks it or the clock reaches the expiry.
#[derive(Clone, Copy, Debug)]
pub struct Promise {
    pub client: Node,
    pub fid: Fid,
    /// In ticks of the server's clock.
    pub expiry: u32,
}

/// A break that the server has still to bring to a client.
#[derive(Clone, Copy, Debug)]
pub struct OwedBreak {
    /// From 1 in each boot of the server.
    pub number: u32,
    pub client: Node,
    /// The file; without one, all that the client holds of this server.
    pub what: Option<Fid>,
    /// That of the promise which was withdrawn.
    pub expiry: u32,
}
