//! That no key changes files twice in a cell, whichever servers its volumes come to. No code runs in it.
#![tactic(auto)]

pub mod laws;
