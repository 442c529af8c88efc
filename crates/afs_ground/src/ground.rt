//! The ground that a script's volumes are laid on.

ghost use Rattle.std.specs.Prelude.{◌≡◌, ◌+◌, ◌&&◌, [], nat_le};
ghost use Rattle.afs_ground.specs.Grounds.{names_size, sizes_at, IsGround};

use crate::laid::{Laid, fit_at, names_fit};
use afs_grammar::ground::Ground;
use afs_num::scripts::Reason;
use afs_words::faults::LineFault;
use afs_words::words::must;
use spec_history::scripts::{SetupLine, VolumeLine};
use std::alloc::Global;

/// How many bytes a disk has on which a server's first record tells no volume: the journal's first byte, and a record's place.
const FIRST_RECORD: u32 = 42;

/// The same for the location database.
const FIRST_ENTRIES: u32 = 50;

/// The volumes of a script as far as it was read. It keeps none of its lines: that they make just these volumes is what it
/// keeps.
#[derive(Drop)]
pub struct SetUpGround {
    volumes: Vec<Laid>,
}

impl SetUpGround {
    /// Nothing is laid.
    pub fn new(alloc: Global) -> SetUpGround
        ensures { IsGround result.volumes.items [] }
    {
        SetUpGround {
            volumes: Vec::new(alloc),
        }
    }

    /// Whether the first record of a server fits on a disk of this capacity.
    fn fits_server(&self, server: u8, capacity: u32) -> bool
        ensures { result ≡ nat_le (42 + sizes_at server self.now.volumes.items) capacity }
    {
        match capacity.checked_sub(FIRST_RECORD) {
            Some(room) => fit_at(server, &self.volumes, u64::from(room)),
            None => false,
        }
    }

    /// Whether the first record of the location database fits on a disk of this capacity.
    fn fits_loc(&self, capacity: u32) -> bool
        ensures { result ≡ nat_le (50 + names_size self.now.volumes.items) capacity }
    {
        match capacity.checked_sub(FIRST_ENTRIES) {
            Some(room) => names_fit(&self.volumes, u64::from(room)),
            None => false,
        }
    }

    /// Whether both do.
    fn fits(&self, server: u8, capacity: u32) -> bool
        ensures { result ≡ (nat_le (42 + sizes_at server self.now.volumes.items) capacity && nat_le (50 + names_size self.now.volumes.items) capacity) }
    {
        self.fits_server(server, capacity) && self.fits_loc(capacity)
    }
}

impl Ground for SetUpGround {
    ghost lays = { λ g ls. IsGround g.volumes.items ls };

    fn add(&mut self, alloc: Global, volume: &VolumeLine, capacity: u32) -> Result<(), LineFault> {
        match self.volumes.push(Laid::new(alloc, volume)?) {
            Ok(()) => {}
            Err(_) => return Err(LineFault::OutOfMemory),
        }
        must(self.fits(volume.server, capacity), Reason::Limit)?;
        Ok(())
    }

    fn lay(
        &mut self,
        _alloc: Global,
        place: usize,
        line: &SetupLine,
        capacity: u32,
    ) -> Result<(), LineFault> {
        if place >= self.volumes.len() {
            return Err(LineFault::Bad(Reason::Path));
        }
        let server = self.volumes[place].server;
        self.volumes[place].lay(line)?;
        must(self.fits_server(server, capacity), Reason::Limit)?;
        Ok(())
    }
}
