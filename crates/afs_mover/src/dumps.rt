//! The dumps that an administrator holds, each under its label.

ghost use Rattle.std.specs.Prelude.{◌≡◌, ◌≤◌, ◌++◌, ◌∷◌, [], filter, find, length, IfOk, OnErr, OnOk};
ghost use Rattle.std.specs.Option.{option_copied};
ghost use Rattle.std.specs.Vec.{vec_capacity};
ghost use Rattle.afs_adminparts.specs.Fitting.{FitDumps, FitsDump, FitsDumpIfAny};
ghost use Rattle.spec_adminrows.specs.AdminRow.{dump_held, has_label, has_other_label};

use afs_num::sequences::Octets;
use afs_num::types::Mem;
use spec_adminrows::turns::HeldDump;
use std::alloc::Global;
use std::marker::Model;

/// Dumps, the one that was taken last behind the others. Each has fewer bytes than a word counts.
#[derive(Drop)]
pub struct Dumps {
    dumps: Vec<HeldDump>,
}

impl Model for Dumps {
    ghost use Rattle.std.specs.Prelude.{List};
    ghost use Rattle.afs_adminparts.specs.Fitting.{FitDumps};
    ghost use Rattle.spec_adminrows.specs.declared.turns.HeldDump.{HeldDump};

    ghost Value = { List HeldDump };

    ghost view = { λ d. d.dumps.items };

    ghost invariant = { λ d. FitDumps d.dumps.items };
}

/// Whether a dump is held under this label.
fn is_under(dump: &HeldDump, label: &[u8]) -> bool
    ensures { result ≡ has_label label.now dump.now }
{
    dump.label.as_slice() == label
}

/// Drops the dump under this label.
fn drop_labelled(dumps: &mut Vec<HeldDump>, label: &[u8])
    ensures items { dumps.new.items ≡ filter (has_other_label label.now) dumps.old.items }
    ensures fewer { length dumps.new.items ≤ length dumps.old.items }
    ensures room { vec_capacity dumps.old ≤ vec_capacity dumps.new }
{
    dumps.retain(|dump| !is_under(dump, label));
}

/// The dump under this label.
fn find_labelled<'a>(dumps: &'a [HeldDump], label: &[u8]) -> Option<&'a HeldDump>
    ensures { option_copied result ≡ find (has_label label.now) dumps.entry.now }
{
    dumps.iter().find(|dump| is_under(dump, label))
}

/// A dump takes the place of the one under its label, and stands last.
fn put_labelled(dumps: &mut Vec<HeldDump>, dump: HeldDump) -> Mem<()>
    ensures ok { OnOk result (dumps.new.items ≡ filter (has_other_label dump.label) dumps.old.items ++ dump ∷ []) }
    ensures err { OnErr result (dumps.new.items ≡ dumps.old.items) }
    ensures fits { FitsDump dump.bytes → FitDumps dumps.old.items → FitDumps dumps.new.items }
{
    dumps.reserve(1)?;
    drop_labelled(dumps, dump.label.as_slice());
    match dumps.push(dump) {
        Ok(()) => Ok(()),
        Err(_) => unreachable!(),
    }
}

impl Dumps {
    /// No dumps. It takes no memory.
    pub fn new(alloc: Global) -> Dumps
        ensures { result ≡ [] }
    {
        Dumps {
            dumps: Vec::new(alloc),
        }
    }

    /// A dump takes the place of the one under its label, and stands last.
    pub fn put(&mut self, label: Octets, bytes: Octets) -> Mem<()>
        requires fits { FitsDump bytes }
        ensures ok { OnOk result (self.new ≡ filter (has_other_label label) self.old ++ record { label = label; bytes = bytes } ∷ []) }
        ensures err { OnErr result (self.new ≡ self.old) }
    {
        put_labelled(&mut self.dumps, HeldDump { label, bytes })?;
        Ok(())
    }

    /// The bytes of the dump under this label, which are shared.
    pub fn held(&self, alloc: Global, label: &[u8]) -> Mem<Option<Octets>>
        ensures value { IfOk result (λ bytes. bytes ≡ dump_held label.now self.now) }
        ensures fits { IfOk result FitsDumpIfAny }
    {
        match find_labelled(&self.dumps, label) {
            Some(dump) => Ok(Some(dump.bytes.copy(alloc)?)),
            None => Ok(None),
        }
    }
}
