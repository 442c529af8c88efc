//! Tests of the disks, the banks and the journal: worked images, files in a real folder, and each call once. Tests of sources
//! and sinks: those in memory, over the standard streams, and with a buffer.
#![tactic(auto)]

#[cfg(test)]
mod called;
#[cfg(test)]
mod disks;
#[cfg(test)]
mod files;
#[cfg(test)]
mod interrupted;
#[cfg(test)]
mod journals;
#[cfg(test)]
mod played;
#[cfg(test)]
mod streams;
