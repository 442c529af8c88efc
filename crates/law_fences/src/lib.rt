//! What an administrator closes when it fences a volume, in runs with administrators. No code runs in it.
#![tactic(auto)]

pub mod laws;
