//! Tests of hostile bytes that a file server and the location database are given, each over a disk in memory. What is wanted is a run of
//! another program that is played again.
#![tactic(auto)]

#[cfg(test)]
mod database;
#[cfg(test)]
mod disks;
#[cfg(test)]
mod hostile;
#[cfg(test)]
mod playing;
#[cfg(test)]
mod runs;
#[cfg(test)]
mod servers;
#[cfg(test)]
mod shown;
#[cfg(test)]
mod vectors;
#[cfg(test)]
mod words;
