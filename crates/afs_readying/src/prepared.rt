// A record that is to be put on the disk.
use afs_memory::redo::Redo;
use afs_num::records::RecordHead;
use afs_num::sequences::Octets;

/// A record that the next commit puts on the disk: its bytes, its head, and what it says.
#[derive(Drop)]
pub struct Prepared {
    pub bytes: Octets,
    pub head: RecordHead,
    pub redo: Redo,
}
