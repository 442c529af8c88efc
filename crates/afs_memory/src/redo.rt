// What a record says.
use afs_num::sequences::Sequence;
use afs_shelves::deed::Deed;
use afs_volume::{ReadyChange, Volume};

/// What a record says, ready to be done: these are the volumes of set-up; the volume of this number changes; the server
/// starts with this boot number; or a volume server did this.
#[derive(Drop)]
pub enum Redo {
    Volumes(Sequence<Volume>),
    Change(u32, ReadyChange),
    Start(u32),
    Deed(Deed),
}
