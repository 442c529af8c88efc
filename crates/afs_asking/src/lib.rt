//! What a client keeps of the act that it runs: what it has asked, what it reads from its cache, and what replies tell it.
#![tactic(auto)]

mod asked;
mod breaks;
mod looks;
mod replies;
mod seeking;
mod wanted;

pub use asked::{Asked, code_in, into_operand, is_giving};
pub use breaks::{is_spoiled_by_all, names_call};
pub use looks::{Walked, walk};
pub use replies::{
    body_told, entries_told, entry_told, is_any_spent, is_below, is_busy, scope_of, status_told,
};
pub use seeking::{Left, Seeking};
pub use wanted::{
    body_wanted, bytes_stored, fields_stored, is_gift, rights_wanted, status_wanted,
    statuses_wanted,
};
