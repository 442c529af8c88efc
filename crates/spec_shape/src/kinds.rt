ghost use Rattle.std.specs.Prelude.{◌≡◌};

use afs_num::calls::{
    AfsCallBack, AfsFetchStatus, AfsStoreStatus, AfsVolSync, CallBacks, Fids, Statuses,
};
use afs_num::location_calls::LocEntry;
use afs_num::sequences::{Octets, Sequence};
use afs_num::types::Fid;
use afs_num::volume_calls::ListedVolumes;

/// What a field is. Behind a shape's last field stands `Nothing`.
#[derive(Clone, Copy, Debug, PartialEq, Eq)]
pub enum Kind {
    Nothing,
    Word,
    Signed,
    /// A word from 0 to 2: a read-write volume, a read-only one, a backup.
    VolumeKind,
    /// A word from 1 to 8: the number of a server.
    Server,
    Fid,
    StoreStatus,
    FetchStatus,
    CallBack,
    VolSync,
    /// A location entry: a name of at most 32 bytes, four words, at most 16 sites.
    Entry,
    /// Bytes, at most so many.
    Opaque(u32),
    /// A count, and so many fids; at most the number here.
    Fids(u32),
    CallBacks(u32),
    Statuses(u32),
    Volumes(u32),
}

impl Kind {
    ghost use Rattle.spec_shape.specs.Tables.{is_field};

    /// Whether a field can be of this kind.
    pub fn is_field(&self) -> bool
        ensures { result ≡ is_field self.now }
    {
        match self {
            Kind::Nothing => false,
            _ => true,
        }
    }
}

/// The value of a field.
#[derive(Drop)]
pub enum Field {
    Word(u32),
    Signed(i32),
    VolumeKind(u32),
    Server(u32),
    Fid(Fid),
    StoreStatus(AfsStoreStatus),
    FetchStatus(AfsFetchStatus),
    CallBack(AfsCallBack),
    VolSync(AfsVolSync),
    Entry(LocEntry),
    Opaque(Octets),
    Fids(Fids),
    CallBacks(CallBacks),
    Statuses(Statuses),
    Volumes(ListedVolumes),
}

/// The values of a message's fields, in order.
pub type Fields = Sequence<Field>;

/// The value of a field that lies elsewhere: what a message is written from.
#[derive(Clone, Copy)]
pub enum Part<'a> {
    Word(&'a u32),
    Signed(&'a i32),
    VolumeKind(&'a u32),
    Server(&'a u32),
    Fid(&'a Fid),
    StoreStatus(&'a AfsStoreStatus),
    FetchStatus(&'a AfsFetchStatus),
    CallBack(&'a AfsCallBack),
    VolSync(&'a AfsVolSync),
    Entry(&'a LocEntry),
    Opaque(&'a Octets),
    Fids(&'a Fids),
    CallBacks(&'a CallBacks),
    Statuses(&'a Statuses),
    Volumes(&'a ListedVolumes),
}

impl Field {
    ghost use Rattle.spec_shape.specs.Parts.{field_of};

    /// The field, as what it is written from.
    pub fn part(&self) -> Part<'_>
        ensures { field_of result ≡ self.now }
    {
        match self {
            Field::Word(n) => Part::Word(n),
            Field::Signed(z) => Part::Signed(z),
            Field::VolumeKind(n) => Part::VolumeKind(n),
            Field::Server(n) => Part::Server(n),
            Field::Fid(fid) => Part::Fid(fid),
            Field::StoreStatus(status) => Part::StoreStatus(status),
            Field::FetchStatus(status) => Part::FetchStatus(status),
            Field::CallBack(callback) => Part::CallBack(callback),
            Field::VolSync(sync) => Part::VolSync(sync),
            Field::Entry(entry) => Part::Entry(entry),
            Field::Opaque(octets) => Part::Opaque(octets),
            Field::Fids(fids) => Part::Fids(fids),
            Field::CallBacks(callbacks) => Part::CallBacks(callbacks),
            Field::Statuses(statuses) => Part::Statuses(statuses),
            Field::Volumes(volumes) => Part::Volumes(volumes),
        }
    }
}
