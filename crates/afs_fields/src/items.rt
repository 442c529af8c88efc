//! The parts of a message that are the same number of words in each message.

ghost use Rattle.std.specs.Prelude.{◌≡◌, ◌++◌, length, OnOk, OnErr};
ghost use Rattle.afs_xdr.specs.Reading.{Reads, KeepsEnd};
ghost use Rattle.afs_xdr.specs.Words.{word_at, AreWords};
ghost use Rattle.spec_shape.specs.Spelling.{fid, store_status, status, callback, sync, listed_volume, site, fid_words, store_status_words, status_words, callback_words, sync_words, listed_volume_words, site_words};
ghost use Rattle.spec_shape.specs.Items.{items_at, fid_at, store_status_at, status_at, callback_at, sync_at, ranged_at, volume_kind_at, server_at, listed_volume_at, site_at};

use afs_num::calls::{AfsCallBack, AfsFetchStatus, AfsStoreStatus, AfsVolSync};
use afs_num::location_calls::LocSite;
use afs_num::types::{Fid, Mem};
use afs_num::volume_calls::ListedVolume;
use afs_xdr::faults::XdrFault;
use afs_xdr::reading::Reader;
use afs_xdr::writing::Writer;

/// A part of a message that is the same number of words in each message.
pub trait Item: Drop {
    ghost use Rattle.std.specs.Prelude.{List, ℕ, Result};
    ghost use Rattle.afs_xdr.specs.declared.faults.XdrFault.{XdrFault};

    ghost item: { Self → List ℕ };

    ghost item_at: { List ℕ → Result (Self × List ℕ) XdrFault };

    ghost InRange: { Self → Type 0 };

    /// Reads one.
    fn read(r: &mut Reader) -> Result<Self, XdrFault>
        ensures value { Reads item_at (λ x. x) r.old r.new result }
        ensures end { KeepsEnd r.old r.new };

    /// Appends it. Want of memory leaves the writer as it was.
    fn write(&self, w: &mut Writer) -> Mem<()>
        ensures ok { OnOk result (w.new ≡ w.old ++ item self.now) }
        ensures fits { InRange self.now }
        ensures err { OnErr result (w.new ≡ w.old) };
}

/// Reads as many words as there are places for.
fn fill_words(r: &mut Reader, words: &mut [u32]) -> Result<(), XdrFault>
    ensures value { Reads (items_at word_at (length words.old)) (λ u. words.new) r.old r.new result }
    ensures end { KeepsEnd r.old r.new }
{
    for place in words.iter_mut() {
        let word = r.word()?;
        *place = word;
    }
    Ok(())
}

/// Reads words, one after the other.
fn read_words<const N: usize>(r: &mut Reader) -> Result<[u32; N], XdrFault>
    ensures value { Reads (items_at word_at N) (λ ns. ns) r.old r.new result }
    ensures end { KeepsEnd r.old r.new }
{
    let mut words = [0; N];
    fill_words(r, &mut words)?;
    Ok(words)
}

/// Reads a word from `low` to `high`. `BadType` at any other.
#[tactic(auto, unfolding(spec_shape::specs::Items::ranged_at))]
fn read_ranged(r: &mut Reader, low: u32, high: u32) -> Result<u32, XdrFault>
    ensures value { Reads (ranged_at low high) (λ n. n) r.old r.new result }
    ensures end { KeepsEnd r.old r.new }
{
    let n = r.word()?;
    if n < low || high < n {
        return Err(XdrFault::BadType);
    }
    Ok(n)
}

/// Reads the kind of a volume.
pub(crate) fn read_volume_kind(r: &mut Reader) -> Result<u32, XdrFault>
    ensures value { Reads volume_kind_at (λ n. n) r.old r.new result }
    ensures end { KeepsEnd r.old r.new }
{
    read_ranged(r, 0, 2)
}

/// Reads the number of a server.
pub(crate) fn read_server(r: &mut Reader) -> Result<u32, XdrFault>
    ensures value { Reads server_at (λ n. n) r.old r.new result }
    ensures end { KeepsEnd r.old r.new }
{
    read_ranged(r, 1, 8)
}

impl Item for Fid {
    ghost item = { fid };

    ghost item_at = { fid_at };

    ghost InRange = { λ x. AreWords (fid_words x) };

    #[tactic(auto, unfolding(spec_shape::specs::Items::fid_at))]
    fn read(r: &mut Reader) -> Result<Fid, XdrFault> {
        let volume = r.word()?;
        let vnode = r.word()?;
        let unique = r.word()?;
        Ok(Fid {
            volume,
            vnode,
            unique,
        })
    }

    fn write(&self, w: &mut Writer) -> Mem<()> {
        w.words(&[self.volume, self.vnode, self.unique])
    }
}

impl Item for AfsFetchStatus {
    ghost item = { status };

    ghost item_at = { status_at };

    ghost InRange = { λ x. AreWords (status_words x) };

    #[tactic(auto, using(crate::proofs::Words::status_read, crate::proofs::Words::status_refused))]
    fn read(r: &mut Reader) -> Result<AfsFetchStatus, XdrFault> {
        let [
            interface_version,
            file_type,
            link_count,
            length,
            data_version,
            author,
            owner,
            caller_access,
            anonymous_access,
            unix_mode_bits,
            parent_vnode,
            parent_unique,
            seg_size,
            client_mod_time,
            server_mod_time,
            group,
            sync_counter,
            spare1,
            spare2,
            spare3,
            spare4,
        ] = read_words::<21>(r)?;
        Ok(AfsFetchStatus {
            interface_version,
            file_type,
            link_count,
            length,
            data_version,
            author,
            owner,
            caller_access,
            anonymous_access,
            unix_mode_bits,
            parent_vnode,
            parent_unique,
            seg_size,
            client_mod_time,
            server_mod_time,
            group,
            sync_counter,
            spare1,
            spare2,
            spare3,
            spare4,
        })
    }

    fn write(&self, w: &mut Writer) -> Mem<()> {
        w.words(&[
            self.interface_version,
            self.file_type,
            self.link_count,
            self.length,
            self.data_version,
            self.author,
            self.owner,
            self.caller_access,
            self.anonymous_access,
            self.unix_mode_bits,
            self.parent_vnode,
            self.parent_unique,
            self.seg_size,
            self.client_mod_time,
            self.server_mod_time,
            self.group,
            self.sync_counter,
            self.spare1,
            self.spare2,
            self.spare3,
            self.spare4,
        ])
    }
}

impl Item for AfsStoreStatus {
    ghost item = { store_status };

    ghost item_at = { store_status_at };

    ghost InRange = { λ x. AreWords (store_status_words x) };

    #[tactic(auto, unfolding(spec_shape::specs::Items::store_status_at))]
    fn read(r: &mut Reader) -> Result<AfsStoreStatus, XdrFault> {
        let mask = r.word()?;
        let client_mod_time = r.word()?;
        let owner = r.word()?;
        let group = r.word()?;
        let unix_mode_bits = r.word()?;
        let seg_size = r.word()?;
        Ok(AfsStoreStatus {
            mask,
            client_mod_time,
            owner,
            group,
            unix_mode_bits,
            seg_size,
        })
    }

    fn write(&self, w: &mut Writer) -> Mem<()> {
        w.words(&[
            self.mask,
            self.client_mod_time,
            self.owner,
            self.group,
            self.unix_mode_bits,
            self.seg_size,
        ])
    }
}

impl Item for AfsCallBack {
    ghost item = { callback };

    ghost item_at = { callback_at };

    ghost InRange = { λ x. AreWords (callback_words x) };

    #[tactic(auto, unfolding(spec_shape::specs::Items::callback_at))]
    fn read(r: &mut Reader) -> Result<AfsCallBack, XdrFault> {
        let version = r.word()?;
        let expiration_time = r.word()?;
        let kind = r.word()?;
        Ok(AfsCallBack {
            version,
            expiration_time,
            kind,
        })
    }

    fn write(&self, w: &mut Writer) -> Mem<()> {
        w.words(&[self.version, self.expiration_time, self.kind])
    }
}

impl Item for AfsVolSync {
    ghost item = { sync };

    ghost item_at = { sync_at };

    ghost InRange = { λ x. AreWords (sync_words x) };

    #[tactic(auto, unfolding(spec_shape::specs::Items::sync_at))]
    fn read(r: &mut Reader) -> Result<AfsVolSync, XdrFault> {
        let release = r.word()?;
        let spare1 = r.word()?;
        let spare2 = r.word()?;
        let spare3 = r.word()?;
        let spare4 = r.word()?;
        let spare5 = r.word()?;
        Ok(AfsVolSync {
            release,
            spare1,
            spare2,
            spare3,
            spare4,
            spare5,
        })
    }

    fn write(&self, w: &mut Writer) -> Mem<()> {
        w.words(&[
            self.release,
            self.spare1,
            self.spare2,
            self.spare3,
            self.spare4,
            self.spare5,
        ])
    }
}

impl Item for ListedVolume {
    ghost item = { listed_volume };

    ghost item_at = { listed_volume_at };

    ghost InRange = { λ x. AreWords (listed_volume_words x) };

    #[tactic(auto, unfolding(spec_shape::specs::Items::listed_volume_at))]
    fn read(r: &mut Reader) -> Result<ListedVolume, XdrFault> {
        let volume = r.word()?;
        let kind = read_volume_kind(r)?;
        let flags = r.word()?;
        let release = r.word()?;
        Ok(ListedVolume {
            volume,
            kind,
            flags,
            release,
        })
    }

    fn write(&self, w: &mut Writer) -> Mem<()> {
        w.words(&[self.volume, self.kind, self.flags, self.release])
    }
}

impl Item for LocSite {
    ghost item = { site };

    ghost item_at = { site_at };

    ghost InRange = { λ x. AreWords (site_words x) };

    #[tactic(auto, unfolding(spec_shape::specs::Items::site_at))]
    fn read(r: &mut Reader) -> Result<LocSite, XdrFault> {
        let server = read_server(r)?;
        let flags = r.word()?;
        Ok(LocSite { server, flags })
    }

    fn write(&self, w: &mut Writer) -> Mem<()> {
        w.words(&[self.server, self.flags])
    }
}
