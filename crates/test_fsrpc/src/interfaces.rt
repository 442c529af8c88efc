//! Messages of the volume servers and of the location database as words, made by another program: each is read and
//! written again, and refused with its fault where it is cut, where a pad byte is set or a count raised, and where more
//! stands behind it.

use crate::samples::{
    Interface, faults, faults_where_changed, have_no_row, keeps_all, refuses_all,
};
use afs_num::types::Half;
use std::alloc::Global;
use std::process::Abort;
use std::test::Fail;

/// Each of so many is read and written again, and refused where it is changed.
fn have_one_spelling(
    rt: &impl Abort,
    alloc: Global,
    interface: Interface,
    half: Half,
    count: usize,
) -> Result<(), Fail> {
    keeps_all(rt, alloc, interface, half, count)?;
    refuses_all(rt, alloc, interface, half)
}

#[test]
fn each_volume_call_has_one_spelling(rt: HostRuntime) -> Result<(), Fail> {
    have_one_spelling(&rt, rt.alloc(), Interface::Volumes, Half::Call, 14)
}

#[test]
fn each_volume_reply_has_one_spelling(rt: HostRuntime) -> Result<(), Fail> {
    have_one_spelling(&rt, rt.alloc(), Interface::Volumes, Half::Reply, 14)
}

#[test]
fn each_location_call_has_one_spelling(rt: HostRuntime) -> Result<(), Fail> {
    have_one_spelling(&rt, rt.alloc(), Interface::Locations, Half::Call, 9)
}

#[test]
fn each_location_reply_has_one_spelling(rt: HostRuntime) -> Result<(), Fail> {
    have_one_spelling(&rt, rt.alloc(), Interface::Locations, Half::Reply, 9)
}

#[test]
fn an_interface_reads_no_call_of_another(rt: HostRuntime) -> Result<(), Fail> {
    have_no_row(&rt, rt.alloc(), Interface::Volumes, Interface::Locations)?;
    have_no_row(&rt, rt.alloc(), Interface::Volumes, Interface::Files)?;
    have_no_row(&rt, rt.alloc(), Interface::Locations, Interface::Volumes)?;
    have_no_row(&rt, rt.alloc(), Interface::Locations, Interface::Files)
}

const CREATE: &str = "1 201 2 1 2 3 4 100 0 0x20000000 0x20000001 4 0x70726f6a 1 3 5000";

#[test]
fn a_creation_has_one_of_three_kinds(rt: HostRuntime) -> Result<(), Fail> {
    let told = faults_where_changed(rt.alloc(), Interface::Volumes, Half::Call, CREATE, "13 3")?;
    assert_eq!(rt; told.as_str(), "Field(4, BadType)\n");
    Ok(())
}

const FORWARD: &str = "1 201 2 1 2 3 4 103 0 0x20000000 7 5 3 9";

#[test]
fn a_forward_goes_to_one_of_eight_servers(rt: HostRuntime) -> Result<(), Fail> {
    let servers = "12 0\n12 9\n12 0xffffffff\n12 1\n12 8";
    let told = faults_where_changed(rt.alloc(), Interface::Volumes, Half::Call, FORWARD, servers)?;
    assert_eq!(rt;
        told.as_str(),
        "Field(4, BadType)\nField(4, BadType)\nField(4, BadType)\nnone\nnone\n"
    );
    Ok(())
}

/// Replies whose second volume has a kind that is none; in the last one the bytes end behind it.
const BAD_KINDS: &str = "\
2 2 201 1 2 3 0 116 0 2 0x20000000 0 2 0 0x20000002 3 0 6
2 2 201 1 2 3 0 116 0 2 0x20000000 0 2 0 0x20000002 3
";

#[test]
fn a_listed_volume_has_one_of_three_kinds(rt: HostRuntime) -> Result<(), Fail> {
    let told = faults(rt.alloc(), Interface::Volumes, Half::Reply, BAD_KINDS)?;
    assert_eq!(rt; told.as_str(), "Field(1, BadType)\nField(1, BadType)\n");
    Ok(())
}

const LOCK: &str = "2 0 201 1 2 1 0 508 0 12 4 0x70726f6a 0x20000000 0x20000002 0 0x3000 2 2 4 3 2";

#[test]
fn a_site_is_one_of_eight_servers(rt: HostRuntime) -> Result<(), Fail> {
    let told = faults_where_changed(
        rt.alloc(),
        Interface::Locations,
        Half::Reply,
        LOCK,
        "19 0\n19 9",
    )?;
    assert_eq!(rt; told.as_str(), "Field(2, BadType)\nField(2, BadType)\n");
    Ok(())
}
