//! Tests of records of another program, and of bytes that are none.
#![tactic(auto)]

#[cfg(test)]
mod records;
#[cfg(test)]
mod vectors;
