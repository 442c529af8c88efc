//! The kinds of fields, as who reads them names them.

ghost use Rattle.spec_shape.specs.declared.kinds.Kind.TheVariants as kinds;
ghost use Rattle.spec_shape.specs.declared.kinds.Field.TheVariants as fields;
ghost use Rattle.spec_shape.specs.Taking.{word_first, signed_first, volume_kind_first, server_first, fid_first, store_status_first, status_first, callback_first, sync_first, entry_first, octets_first, fids_first, callbacks_first, statuses_first, volumes_first};
ghost use Rattle.spec_shape.specs.Firsts as firsts;

use crate::fields::{read_entry, read_octets, read_signed};
use crate::items::{Item, read_server, read_volume_kind};
use crate::lists::read_list;
use crate::taking::Slot;
use afs_num::calls::{
    AfsCallBack, AfsFetchStatus, AfsStoreStatus, AfsVolSync, CallBacks as CallBackList,
    Fids as FidList, Statuses as StatusList,
};
use afs_num::location_calls::LocEntry;
use afs_num::sequences::Octets;
use afs_num::types::Fid as AfsFid;
use afs_num::volume_calls::ListedVolumes;
use afs_xdr::reading::Reader;
use spec_shape::faults::FieldFault;
use std::alloc::Global;

pub struct Word;

impl Slot for Word {
    type Value = u32;

    ghost kind = { kinds.Word };

    ghost field = { fields.Word };

    ghost first = { word_first };

    ghost is_first = { firsts.word };

    #[inline]
    #[tactic(auto, unfolding(spec_shape::specs::Reading::field_at))]
    fn read(_: Global, r: &mut Reader) -> Result<u32, FieldFault> {
        let value = r.word()?;
        Ok(value)
    }
}

pub struct Signed;

impl Slot for Signed {
    type Value = i32;

    ghost kind = { kinds.Signed };

    ghost field = { fields.Signed };

    ghost first = { signed_first };

    ghost is_first = { firsts.signed };

    #[inline]
    #[tactic(auto, unfolding(spec_shape::specs::Reading::field_at))]
    fn read(_: Global, r: &mut Reader) -> Result<i32, FieldFault> {
        let value = read_signed(r)?;
        Ok(value)
    }
}

pub struct VolumeKind;

impl Slot for VolumeKind {
    type Value = u32;

    ghost kind = { kinds.VolumeKind };

    ghost field = { fields.VolumeKind };

    ghost first = { volume_kind_first };

    ghost is_first = { firsts.volume_kind };

    #[inline]
    #[tactic(auto, unfolding(spec_shape::specs::Reading::field_at))]
    fn read(_: Global, r: &mut Reader) -> Result<u32, FieldFault> {
        let value = read_volume_kind(r)?;
        Ok(value)
    }
}

pub struct Server;

impl Slot for Server {
    type Value = u32;

    ghost kind = { kinds.Server };

    ghost field = { fields.Server };

    ghost first = { server_first };

    ghost is_first = { firsts.server };

    #[inline]
    #[tactic(auto, unfolding(spec_shape::specs::Reading::field_at))]
    fn read(_: Global, r: &mut Reader) -> Result<u32, FieldFault> {
        let value = read_server(r)?;
        Ok(value)
    }
}

pub struct Fid;

impl Slot for Fid {
    type Value = AfsFid;

    ghost kind = { kinds.Fid };

    ghost field = { fields.Fid };

    ghost first = { fid_first };

    ghost is_first = { firsts.fid };

    #[inline]
    #[tactic(auto, unfolding(spec_shape::specs::Reading::field_at))]
    fn read(_: Global, r: &mut Reader) -> Result<AfsFid, FieldFault> {
        let value = AfsFid::read(r)?;
        Ok(value)
    }
}

pub struct StoreStatus;

impl Slot for StoreStatus {
    type Value = AfsStoreStatus;

    ghost kind = { kinds.StoreStatus };

    ghost field = { fields.StoreStatus };

    ghost first = { store_status_first };

    ghost is_first = { firsts.store_status };

    #[inline]
    #[tactic(auto, unfolding(spec_shape::specs::Reading::field_at))]
    fn read(_: Global, r: &mut Reader) -> Result<AfsStoreStatus, FieldFault> {
        let value = AfsStoreStatus::read(r)?;
        Ok(value)
    }
}

pub struct FetchStatus;

impl Slot for FetchStatus {
    type Value = AfsFetchStatus;

    ghost kind = { kinds.FetchStatus };

    ghost field = { fields.FetchStatus };

    ghost first = { status_first };

    ghost is_first = { firsts.status };

    #[inline]
    #[tactic(auto, unfolding(spec_shape::specs::Reading::field_at))]
    fn read(_: Global, r: &mut Reader) -> Result<AfsFetchStatus, FieldFault> {
        let value = AfsFetchStatus::read(r)?;
        Ok(value)
    }
}

pub struct CallBack;

impl Slot for CallBack {
    type Value = AfsCallBack;

    ghost kind = { kinds.CallBack };

    ghost field = { fields.CallBack };

    ghost first = { callback_first };

    ghost is_first = { firsts.callback };

    #[inline]
    #[tactic(auto, unfolding(spec_shape::specs::Reading::field_at))]
    fn read(_: Global, r: &mut Reader) -> Result<AfsCallBack, FieldFault> {
        let value = AfsCallBack::read(r)?;
        Ok(value)
    }
}

pub struct VolSync;

impl Slot for VolSync {
    type Value = AfsVolSync;

    ghost kind = { kinds.VolSync };

    ghost field = { fields.VolSync };

    ghost first = { sync_first };

    ghost is_first = { firsts.sync };

    #[inline]
    #[tactic(auto, unfolding(spec_shape::specs::Reading::field_at))]
    fn read(_: Global, r: &mut Reader) -> Result<AfsVolSync, FieldFault> {
        let value = AfsVolSync::read(r)?;
        Ok(value)
    }
}

pub struct Entry;

impl Slot for Entry {
    type Value = LocEntry;

    ghost kind = { kinds.Entry };

    ghost field = { fields.Entry };

    ghost first = { entry_first };

    ghost is_first = { firsts.entry };

    #[inline]
    #[tactic(auto, unfolding(spec_shape::specs::Reading::field_at))]
    fn read(alloc: Global, r: &mut Reader) -> Result<LocEntry, FieldFault> {
        let value = read_entry(alloc, r)?;
        Ok(value)
    }
}

pub struct Opaque<const MOST: u32>;

impl<const MOST: u32> Slot for Opaque<MOST> {
    type Value = Octets;

    ghost kind = { kinds.Opaque MOST };

    ghost field = { fields.Opaque };

    ghost first = { octets_first };

    ghost is_first = { firsts.octets };

    #[inline]
    #[tactic(auto, unfolding(spec_shape::specs::Reading::field_at))]
    fn read(alloc: Global, r: &mut Reader) -> Result<Octets, FieldFault> {
        let value = read_octets(alloc, r, MOST)?;
        Ok(value)
    }
}

pub struct Fids<const MOST: u32>;

impl<const MOST: u32> Slot for Fids<MOST> {
    type Value = FidList;

    ghost kind = { kinds.Fids MOST };

    ghost field = { fields.Fids };

    ghost first = { fids_first };

    ghost is_first = { firsts.fids };

    #[inline]
    #[tactic(auto, unfolding(spec_shape::specs::Reading::field_at))]
    fn read(alloc: Global, r: &mut Reader) -> Result<FidList, FieldFault> {
        let value = read_list(alloc, r, MOST)?;
        Ok(value)
    }
}

pub struct CallBacks<const MOST: u32>;

impl<const MOST: u32> Slot for CallBacks<MOST> {
    type Value = CallBackList;

    ghost kind = { kinds.CallBacks MOST };

    ghost field = { fields.CallBacks };

    ghost first = { callbacks_first };

    ghost is_first = { firsts.callbacks };

    #[inline]
    #[tactic(auto, unfolding(spec_shape::specs::Reading::field_at))]
    fn read(alloc: Global, r: &mut Reader) -> Result<CallBackList, FieldFault> {
        let value = read_list(alloc, r, MOST)?;
        Ok(value)
    }
}

pub struct Statuses<const MOST: u32>;

impl<const MOST: u32> Slot for Statuses<MOST> {
    type Value = StatusList;

    ghost kind = { kinds.Statuses MOST };

    ghost field = { fields.Statuses };

    ghost first = { statuses_first };

    ghost is_first = { firsts.statuses };

    #[inline]
    #[tactic(auto, unfolding(spec_shape::specs::Reading::field_at))]
    fn read(alloc: Global, r: &mut Reader) -> Result<StatusList, FieldFault> {
        let value = read_list(alloc, r, MOST)?;
        Ok(value)
    }
}

pub struct Volumes<const MOST: u32>;

impl<const MOST: u32> Slot for Volumes<MOST> {
    type Value = ListedVolumes;

    ghost kind = { kinds.Volumes MOST };

    ghost field = { fields.Volumes };

    ghost first = { volumes_first };

    ghost is_first = { firsts.volumes };

    #[inline]
    #[tactic(auto, unfolding(spec_shape::specs::Reading::field_at))]
    fn read(alloc: Global, r: &mut Reader) -> Result<ListedVolumes, FieldFault> {
        let value = read_list(alloc, r, MOST)?;
        Ok(value)
    }
}
