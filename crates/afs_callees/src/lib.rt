//! Parts of what a server has in memory, for which no message is spelled: the nodes that it calls, the replies that it keeps, and the
//! lines that it tells.
#![tactic(auto)]

pub mod callees;
pub mod few;
pub mod replies;
pub mod telling;
