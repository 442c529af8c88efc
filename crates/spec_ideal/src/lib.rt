//! What a volume is, and what each operation of a file server does to it, as definitions and laws. No code runs in it.
#![tactic(auto)]

pub mod change_laws;
pub mod directory_laws;
pub mod soundness_laws;
