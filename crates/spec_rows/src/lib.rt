//! The rows of the nodes: what a file server and a cache manager do with one input, what the location database decides on a message,
//! and the runs of a cell, as definitions. No code runs in it.
#![tactic(auto)]
