//! A whole record.

use crate::deeds::Body;
use afs_num::records::RecordHead;
use std::marker::Model;

/// A record of the location database's journal.
#[derive(Drop)]
pub struct LocRecord {
    pub head: RecordHead,
    pub body: Body,
}

impl Model for LocRecord {
    ghost use Rattle.spec_records.specs.LocRecords.{LocRecord};
    ghost use Rattle.afs_locrecord.specs.Bodies.{body_of};

    ghost Value = { LocRecord };

    ghost view = { λ r. record { head = r.head; body = body_of r.body } };
}
