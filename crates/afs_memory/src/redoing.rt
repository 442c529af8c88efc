//! What a record says is done to what stands in memory.

ghost use Rattle.std.specs.Prelude.{◌≡◌, ◌≤◌, ◌<◌, ◌+◌, None, Some, true, false, is_some, length, map, nat_lt, IsSome, OnErr, OnOk};
ghost use Rattle.std.specs.List.{AllByRecursion};
ghost use Rattle.std.specs.Option.{option_map};
ghost use Rattle.spec_ideal.specs.Tables.{get, set};
ghost use Rattle.spec_records.specs.Durable.{changed_stored, most_volumes, noted};
ghost use Rattle.spec_fold.specs.Fold.{body_taken};
ghost use Rattle.afs_seats.specs.Seated.{seen_as};
ghost use Rattle.afs_volume.specs.Taking.{stored_of, CanTakeIn, HasRoom};
ghost use Rattle.afs_memory.specs.Called.{IsCaller};
ghost use Rattle.afs_shelves.specs.Deeds.{deed_body, SuitsDeed};
ghost use Rattle.afs_shelves.specs.Numbered.{AreShelved};
ghost use Rattle.afs_shelves.specs.Shelving.{shelved, HasSeats};
ghost use Rattle.afs_memory.specs.Redos.{body_of, IsMadeAgain, IsReady, Suits};
ghost use Rattle.afs_memory.specs.Redoing.{laid, AreKept, AreTooMany, CanChange, FitsRedo, IsChanged, KeepsChanges, KeepsStates, KeepsVolumes, TellsFull};
ghost use Rattle.afs_memory.specs.States.{parts_of, HasPlace, HasRoomFor, HasRoomIn};

use crate::memory::State;
use crate::redo::Redo;
use afs_num::records::RecordHead;
use afs_num::sequences::Sequence;
use afs_num::types::Mem;
use afs_seats::Seats;
use afs_shelves::deed::Deed;
use afs_shelves::shelf::Shelf;
use afs_volume::{ReadyChange, Volume};

/// How many volumes a server has at most.
const MOST_VOLUMES: usize = 64;

/// With a volume of this number the server would have too many.
#[tactic(auto, using(crate::proofs::Redone::full_for))]
fn is_full_for(volumes: &Seats<Shelf>, id: u32) -> bool
    ensures { TellsFull volumes.now.table id result }
{
    let most = if volumes.get(id).is_some() {
        MOST_VOLUMES
    } else {
        MOST_VOLUMES - 1
    };
    volumes.len() > most
}

/// Puts a volume in the place of the one with its number, if there is one, unless there would be too many.
fn put_volume(volumes: &mut Seats<Shelf>, volume: Volume) -> bool
    requires numbered { AreShelved volumes.old.table }
    requires room { 0 < volumes.old.room }
    ensures put { result ≡ true → (nat_lt most_volumes (length (set volume.head.id (laid volume) volumes.old.table)) ≡ false) × (volumes.new.table ≡ set volume.head.id (laid volume) volumes.old.table) }
    ensures many { result ≡ false → nat_lt most_volumes (length (set volume.head.id (laid volume) volumes.old.table)) ≡ true }
    ensures numbered { AreShelved volumes.new.table }
    ensures room { volumes.old.room ≤ volumes.new.room + 1 }
{
    let id = volume.head().id;
    if is_full_for(volumes, id) {
        return false;
    }
    let shelf = Shelf {
        volume,
        is_new: false,
    };
    match volumes.put(id, shelf) {
        Ok(()) => true,
        Err(_) => unreachable!(),
    }
}

/// Puts these volumes, unless there would be too many.
pub fn put_volumes(volumes: &mut Seats<Shelf>, added: Sequence<Volume>) -> bool
    requires ready { AllByRecursion IsMadeAgain added }
    requires numbered { AreShelved volumes.old.table }
    requires room { length added ≤ volumes.old.room }
    ensures taken { result ≡ true → AreKept added volumes.old.table volumes.new.table }
    ensures many { result ≡ false → AreTooMany added volumes.old.table }
    ensures numbered { AreShelved volumes.new.table }
{
    for volume in added.into_vec() {
        if !put_volume(volumes, volume) {
            return false;
        }
    }
    true
}

/// A volume with a change taken in.
fn taken_in(shelf: Shelf, change: ReadyChange) -> Shelf
    requires can { CanTakeIn shelf.volume change }
    requires room { HasRoom shelf.volume change }
    ensures changed { changed_stored change.counter change.unique change.vnodes change.removed (stored_of shelf.volume) ≡ Some (stored_of result.volume) }
    ensures is_new { result.is_new ≡ shelf.is_new }
    ensures id { result.volume.head.id ≡ shelf.volume.head.id }
{
    let Shelf { volume, is_new } = shelf;
    let mut volume = volume;
    volume.take_in(change);
    Shelf { volume, is_new }
}

/// The volume of this number takes a change in.
fn put_change(volumes: &mut Seats<Shelf>, id: u32, change: ReadyChange)
    requires there { IsSome (get id volumes.old.table) }
    requires can { CanChange volumes.old.table id change }
    requires room { HasRoomIn volumes.old.table id change }
    requires numbered { AreShelved volumes.old.table }
    ensures changed { IsChanged id change volumes.old.table volumes.new.table }
    ensures numbered { AreShelved volumes.new.table }
{
    match volumes.take(id) {
        Some(shelf) => match volumes.put(id, taken_in(shelf, change)) {
            Ok(()) => {}
            Err(_) => unreachable!(),
        },
        None => unreachable!(),
    }
}

/// Makes room for a change in a volume.
fn reserved(shelf: Shelf, change: &ReadyChange) -> (Shelf, Mem<()>)
    ensures room { OnOk result.1 (HasRoom result.0.volume change.now) }
    ensures stored { shelved result.0 ≡ shelved shelf }
    ensures id { result.0.volume.head.id ≡ shelf.volume.head.id }
    ensures keeps { KeepsChanges shelf.volume result.0.volume }
{
    let Shelf { volume, is_new } = shelf;
    let mut volume = volume;
    let answer = volume.reserve(change);
    (Shelf { volume, is_new }, answer)
}

/// Makes room for a change in the volume of this number, if there is one.
fn reserve_change(volumes: &mut Seats<Shelf>, id: u32, change: &ReadyChange) -> Mem<()>
    requires numbered { AreShelved volumes.old.table }
    ensures room { OnOk result (HasRoomIn volumes.new.table id change.now) }
    ensures same { seen_as shelved volumes.new.table ≡ seen_as shelved volumes.old.table }
    ensures numbered { AreShelved volumes.new.table }
    ensures keeps { KeepsVolumes volumes.old volumes.new }
{
    match volumes.take(id) {
        Some(shelf) => {
            let (shelf, answer) = reserved(shelf, change);
            match volumes.put(id, shelf) {
                Ok(()) => answer,
                Err(_) => unreachable!(),
            }
        }
        None => Ok(()),
    }
}

impl State {
    /// Makes room for what a record says.
    pub fn reserve(&mut self, redo: &Redo) -> Mem<()>
        ensures room { OnOk result (HasRoomFor redo.now self.new) }
        ensures parts { parts_of self.new ≡ parts_of self.old }
        ensures keeps { KeepsStates self.old self.new }
    {
        self.reserve_head()?;
        match redo {
            Redo::Volumes(added) => self.shelves.volumes.reserve(added.len()),
            Redo::Change(id, change) => reserve_change(&mut self.shelves.volumes, *id, change),
            Redo::Start(_) => Ok(()),
            Redo::Deed(_) => self.shelves.reserve_one(),
        }
    }

    /// Does what a volume server did, for which there is room.
    fn redo_deed(&mut self, deed: Deed)
        requires suits { SuitsDeed deed (parts_of self.old) }
        requires room { HasSeats self.old.shelves }
        ensures parts { body_taken (deed_body deed) (parts_of self.old) ≡ Some (parts_of self.new) }
        ensures rest { (self.new.stamps ≡ self.old.stamps) × (self.new.kept ≡ self.old.kept) }
    {
        self.shelves.do_deed(deed);
    }

    /// Does what a volume server did, and takes the memory for it. Want of memory leaves all as it was.
    pub fn take_deed(&mut self, deed: Deed) -> Mem<()>
        requires { SuitsDeed deed (parts_of self.old) }
        ensures taken { OnOk result (body_taken (deed_body deed) (parts_of self.old) ≡ Some (parts_of self.new)) }
        ensures same { OnErr result (parts_of self.new ≡ parts_of self.old) }
    {
        match self.shelves.reserve_one() {
            Ok(()) => {
                self.redo_deed(deed);
                Ok(())
            }
            Err(fault) => {
                drop(deed);
                Err(fault)
            }
        }
    }

    /// Does what a record's body says.
    fn redo_body(&mut self, redo: Redo)
        requires taken { is_some (body_taken (body_of redo) (parts_of self.old)) ≡ true }
        requires ready { IsReady redo }
        requires fits { FitsRedo redo }
        requires suits { Suits redo (parts_of self.old) }
        requires place { HasPlace redo self.old }
        ensures parts { body_taken (body_of redo) (parts_of self.old) ≡ Some (parts_of self.new) }
        ensures rest { (self.new.stamps ≡ self.old.stamps) × (self.new.kept ≡ self.old.kept) }
    {
        match redo {
            Redo::Volumes(added) => {
                put_volumes(&mut self.shelves.volumes, added);
            }
            Redo::Change(id, change) => put_change(&mut self.shelves.volumes, id, change),
            Redo::Start(boot) => self.start(boot),
            Redo::Deed(deed) => self.redo_deed(deed),
        }
    }

    /// Does what a record says that can be taken, and for which there is room. It takes no memory.
    pub fn redo(&mut self, head: RecordHead, redo: Redo)
        requires caller { IsCaller head.caller }
        requires taken { is_some (body_taken (body_of redo) (parts_of self.old)) ≡ true }
        requires ready { IsReady redo }
        requires fits { FitsRedo redo }
        requires suits { Suits redo (parts_of self.old) }
        requires room { HasRoomFor redo self.old }
        ensures { option_map (noted head) (body_taken (body_of redo) (parts_of self.old)) ≡ Some (parts_of self.new) }
    {
        self.redo_body(redo);
        self.note(head);
    }
}
