//! The volumes that a script has so far.

ghost use Rattle.std.specs.Prelude.{◌≡◌, ◌≤◌, length, filter, Ok, Err, IfOk, OnOk};
ghost use Rattle.std.specs.List.{list_all, list_any, position_or_len};
ghost use Rattle.spec_history.specs.Written.{bytes_in};
ghost use Rattle.afs_grammar.specs.Lines.{has_name, has_no_lines, stands_at_server, place_of, lines_of_server, written_length};

use afs_words::bytes::length_of;
use spec_history::scripts::{SetupLine, VolumeLine};

pub fn has_name(volume: &VolumeLine, name: &[u8]) -> bool
    ensures { result ≡ has_name name.now volume.now }
{
    volume.name.as_slice() == name
}

/// Where the volume of this name stands; how many there are, if it is none of them.
pub fn place_of(name: &[u8], volumes: &[VolumeLine]) -> usize
    ensures value { result ≡ place_of name.now volumes.now }
    ensures within { result ≤ length volumes.now }
{
    volumes
        .iter()
        .take_while(|volume| !has_name(volume, name))
        .count()
}

pub fn is_taken(name: &[u8], volumes: &[VolumeLine]) -> bool
    ensures { result ≡ list_any (has_name name.now) volumes.now }
{
    volumes.iter().any(|volume| has_name(volume, name))
}

/// How many volumes the server has.
pub fn count_at(server: u8, volumes: &[VolumeLine]) -> usize
    ensures { result ≡ length (lines_of_server server volumes.now) }
{
    volumes
        .iter()
        .filter(|volume| volume.server == server)
        .count()
}

/// Whether no line of set-up was laid yet.
pub fn are_bare(volumes: &[VolumeLine]) -> bool
    ensures { result ≡ list_all has_no_lines volumes.now }
{
    volumes.iter().all(|volume| volume.lines.is_empty())
}

/// How many bytes are written in a line of set-up.
pub fn written_length(line: &SetupLine) -> usize
    ensures { result ≡ written_length line.now }
{
    match line {
        SetupLine::Directory { .. } => 0,
        SetupLine::File { contents, .. } => length_of(contents),
        SetupLine::Link { target, .. } => length_of(target),
        SetupLine::AccessList { text, .. } => length_of(text),
    }
}
