// What is decided on a call.
use afs_callees::few::Few;
use afs_callees::telling::Grant;
use afs_message::spelled::SpelledMessage;
use afs_num::calls::FsReply;
use afs_num::sequences::Sequence;
use afs_num::types::Fid;
use afs_volume::ReadyChange;

/// What becomes of a call: no answer; its caller is told this server's boot number; its kept reply is sent again; it is refused
/// with this code; it is told this, and granted these promises; its caller gives its promises on these fids up; or it changes the
/// volume of this number, where there is room for the record, and these are the names of what it leaves.
#[derive(Drop)]
pub enum Decided {
    Drops,
    TellsBoot,
    Repeats(SpelledMessage),
    Refuses(i32),
    Shows(FsReply, Few<Grant>),
    GivesUp(Sequence<Fid>),
    Changes(u32, ReadyChange),
}
