//! Acts of administrators on volumes where they are, each a machine of places: what is asked at a place, and where an answer leads. They are
//! new volumes, further sites, backups, dumps, removals, and the recovery that puts a volume in order.
#![tactic(auto)]

pub mod copying;
pub mod creating;
pub mod recovering;
pub mod removing;
