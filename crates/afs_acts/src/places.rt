//! Where the volumes of operands are.

ghost use Rattle.std.specs.Prelude.{◌≡◌, find};
ghost use Rattle.std.specs.Option.{option_copied, option_map};
ghost use Rattle.std.specs.Str.{bytes_eq};
ghost use Rattle.afs_num.specs.Nodes.{IsNode};
ghost use Rattle.afs_num.specs.declared.location_calls.LocEntry.{LocEntry as Known};
ghost use Rattle.spec_rows.specs.ClientRow.{server_for};
ghost use Rattle.spec_rows.specs.Going.{find_location, has_number, home_at, homes_of, volume_at};
ghost use Rattle.afs_acts.specs.Named.{operand_at};

use crate::known::Location;
use crate::named::{Place, named};
use crate::types::Homes;
use crate::volumes::{base_of, has_number, number_in};
use afs_num::types::Node;
use spec_history::acts::{Act, Operand, Path};

fn with_number(table: &[Location], id: u32) -> Option<&Location>
    ensures { option_copied result ≡ find (has_number id) table.now }
{
    table
        .iter()
        .find(|location| has_number(location.entry(), id))
}

fn with_name<'a>(table: &'a [Location], name: &[u8]) -> Option<&'a Location>
    ensures { option_copied result ≡ find (λ (l : Known). bytes_eq l.name name.now) table.now }
{
    table
        .iter()
        .find(|location| location.entry().name.as_slice() == name)
}

/// What is known of a path's volume.
fn find_path<'a>(table: &'a [Location], path: &Path) -> Option<&'a Location>
    ensures { option_copied result ≡ find_location table.now (Operand.Path path.now) }
{
    with_name(table, base_of(path.volume.as_slice()))
}

/// What is known of an operand's volume.
fn find_operand<'a>(table: &'a [Location], operand: &Operand) -> Option<&'a Location>
    ensures { option_copied result ≡ find_location table.now operand.now }
{
    match operand {
        Operand::Path(path) => find_path(table, path),
        Operand::Fid(fid) => with_number(table, fid.volume),
    }
}

fn volume_named(table: &[Location], path: &Path) -> Option<u32>
    ensures { result ≡ volume_at table.now (Operand.Path path.now) }
{
    match find_path(table, path) {
        Some(location) => number_in(location.entry(), path.volume.as_slice()),
        None => None,
    }
}

/// The number of an operand's volume, where it is known.
pub fn volume_at(table: &[Location], operand: &Operand) -> Option<u32>
    ensures { result ≡ volume_at table.now operand.now }
{
    match operand {
        Operand::Path(path) => volume_named(table, path),
        Operand::Fid(fid) => match with_number(table, fid.volume) {
            Some(_) => Some(fid.volume),
            None => None,
        },
    }
}

/// What is known of the volume of an act's operand.
pub fn find_place<'a>(table: &'a [Location], place: Place<'_>) -> Option<&'a Location>
    ensures { option_copied result ≡ find_location table.now (operand_at place.entry) }
{
    match place {
        Place::Object(operand) => find_operand(table, operand),
        Place::Path(path) => find_path(table, path),
    }
}

/// The server of an operand's volume; of one that isn't known nobody asks for it.
pub fn server_for(table: &[Location], place: Option<Place<'_>>) -> u8
    ensures value { result ≡ server_for table.now (option_map operand_at place.entry) }
    ensures node { IsNode (Node.Server result) }
{
    let Some(place) = place else {
        return 1;
    };
    match find_place(table, place) {
        Some(location) => location.server(),
        None => 1,
    }
}

fn volume_of(table: &[Location], place: Place<'_>) -> Option<u32>
    ensures { result ≡ volume_at table.now (operand_at place.entry) }
{
    match place {
        Place::Object(operand) => volume_at(table, operand),
        Place::Path(path) => volume_named(table, path),
    }
}

fn home_at(table: &[Location], place: Option<Place<'_>>) -> Option<u32>
    ensures { result ≡ home_at table.now (option_map operand_at place.entry) }
{
    match place {
        Some(place) => volume_of(table, place),
        None => None,
    }
}

/// The numbers of the volumes that an act names.
pub fn homes_of(table: &[Location], act: &Act) -> Homes
    ensures { result ≡ homes_of table.now act.now }
{
    let named = named(act);
    Homes {
        first: home_at(table, named.first()),
        second: home_at(table, named.second()),
    }
}
