//! Changes that a disk tells, made in the volumes in memory.

ghost use Rattle.std.specs.Prelude.{◌≡◌, Err, OnOk};
ghost use Rattle.std.specs.List.{AllByRecursion};
ghost use Rattle.spec_ideal.specs.VnodeImage.{FitsImage};
ghost use Rattle.afs_volume.specs.Seen.{IsReadable};
ghost use Rattle.afs_shelves.specs.Numbered.{AreShelved};
ghost use Rattle.afs_memory.specs.Redoing.{IsChanged, IsRefused};
ghost use Rattle.afs_record.specs.declared.faults.Unfit.TheVariants.{Bad};

use afs_patch::changed;
use afs_record::faults::Unfit;
use afs_seats::Seats;
use afs_shelves::shelf::Shelf;
use afs_volume::ReadyChange;
use std::alloc::Global;

/// The volume of this number changes. `Bad` where there is none, or it can't.
pub(crate) fn change_in(
    alloc: Global,
    volumes: &mut Seats<Shelf>,
    id: u32,
    change: ReadyChange,
) -> Result<(), Unfit>
    requires numbered { AreShelved volumes.old.table }
    requires read { AllByRecursion IsReadable change.vnodes }
    requires fits { AllByRecursion FitsImage change.vnodes }
    ensures changed { OnOk result (IsChanged id change volumes.old.table volumes.new.table) }
    ensures bad { result ≡ Err Bad → IsRefused id change volumes.old.table }
    ensures numbered { AreShelved volumes.new.table }
{
    let Some(shelf) = volumes.take(id) else {
        return Err(Unfit::Bad);
    };
    let Shelf { volume, is_new } = shelf;
    let volume = changed(alloc, volume, change)?;
    match volumes.put(id, Shelf { volume, is_new }) {
        Ok(()) => Ok(()),
        Err(_) => unreachable!(),
    }
}
