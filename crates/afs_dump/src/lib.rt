//! Dumps of volumes: the bytes of one, whole or in pieces.
#![tactic(auto)]

mod dumping;
pub mod pieces;

pub use dumping::{Piece, dump, dump_piece};
