//! What a server keeps on its disk, as definitions and laws: the records of its journal, and what they make of its
//! volumes. The same of the location database and its entries. No code runs in it.
#![tactic(auto)]

pub mod laws;
