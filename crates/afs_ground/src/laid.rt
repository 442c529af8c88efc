//! One volume of a script, with the lines that were laid in it so far.

ghost use Rattle.std.specs.Prelude.{◌≡◌, ◌≤◌, ℕ, [], Result, Ok, Err, true, pos, nat_le, IfOk, OnOk};
ghost use Rattle.afs_num.specs.Names.{volume_name_ok};
ghost use Rattle.spec_ideal.specs.SetUp.{first_volume, laid};
ghost use Rattle.spec_ideal.specs.Volumes.{Volume as Ideal};
ghost use Rattle.spec_history.specs.declared.scripts.VolumeLine.{VolumeLine};
ghost use Rattle.afs_laying.specs.Filled.{IsCodeOf};
ghost use Rattle.afs_words.specs.Reads.{Gives};
ghost use Rattle.afs_grammar.specs.Lines.{setup_accepts, setup_reason, with_line};
ghost use Rattle.afs_ground.specs.Grounds.{names_size, sizes_at, IsLaid};

use crate::sizes::{filled_up, volume_size};
use afs_laying::lay;
use afs_num::scripts::Reason;
use afs_num::types::{Code, Mem};
use afs_reads::faults::OpFault;
use afs_volume::Volume;
use afs_words::faults::LineFault;
use spec_history::scripts::{SetupLine, VolumeLine};
use std::alloc::Global;

/// A volume that is laid: its server, how long its name is, filled up, and how long it is in the server's first record.
#[derive(Drop)]
pub struct Laid {
    pub server: u8,
    pub name: u64,
    pub size: u64,
    pub volume: Volume,
}

/// Why a line of set-up is refused: what is too large or too many is over a limit.
fn reason_of(code: Code) -> Reason
    ensures { (n : ℕ) → code.0 ≡ pos n → result ≡ setup_reason n }
{
    match code.0 {
        27 | 108 | 109 => Reason::Limit,
        _ => Reason::Path,
    }
}

fn refusal(fault: OpFault) -> LineFault
    ensures { (r : Result Ideal ℕ) → IsCodeOf r fault → Gives (setup_accepts r) (Err result) }
{
    match fault {
        OpFault::Code(code) => LineFault::Bad(reason_of(code)),
        OpFault::OutOfMemory => LineFault::OutOfMemory,
    }
}

impl Laid {
    /// A new volume, in which nothing is laid yet.
    pub fn new(alloc: Global, line: &VolumeLine) -> Mem<Laid>
        requires bare { line.now.lines ≡ [] }
        requires name { volume_name_ok line.now.name ≡ true }
        ensures { IfOk result (λ g. IsLaid g line.now) }
    {
        let name = line.name.as_slice();
        let volume = Volume::new(alloc, line.id, line.id, name, 0, 0, line.quota)?;
        Ok(Laid {
            server: line.server,
            name: filled_up(name.len()),
            size: volume_size(&volume),
            volume,
        })
    }

    /// Lays one more line in it, or leaves it as it was.
    pub fn lay(&mut self, line: &SetupLine) -> Result<(), LineFault>
        ensures value { (l : VolumeLine) → IsLaid self.old l → Gives (setup_accepts (laid l.id line.now (first_volume l))) result }
        ensures laid { OnOk result ((l : VolumeLine) → IsLaid self.old l → IsLaid self.new (with_line line.now l)) }
        ensures server { self.new.server ≡ self.old.server }
    {
        match lay(&mut self.volume, line) {
            Ok(()) => {}
            Err(fault) => return Err(refusal(fault)),
        }
        self.size = volume_size(&self.volume);
        Ok(())
    }
}

/// Whether the volumes of a server fit into so many bytes.
pub fn fit_at(server: u8, volumes: &[Laid], room: u64) -> bool
    ensures { result ≡ nat_le (sizes_at server volumes.now) room }
{
    let mut left = room;
    for laid in volumes {
        if laid.server == server {
            if left < laid.size {
                return false;
            }
            left -= laid.size;
        }
    }
    true
}

/// Whether the entries of all volumes in the location database fit into so many bytes.
pub fn names_fit(volumes: &[Laid], room: u64) -> bool
    ensures { result ≡ nat_le (names_size volumes.now) room }
{
    let mut left = room;
    for laid in volumes {
        if left < 44 || left - 44 < laid.name {
            return false;
        }
        left -= 44 + laid.name;
    }
    true
}
