//! What an act has read, and what it needs.

ghost use Rattle.std.specs.Prelude.{◌≡◌, ◌<◌, ◌+◌, ◌^◌, IfOk, IfSome, IsSome, None, OnErr, OnOk, is_some};
ghost use Rattle.std.specs.Option.{option_map};
ghost use Rattle.afs_num.specs.Nodes.{IsNode};
ghost use Rattle.spec_rows.specs.ClientRow.{server_for};
ghost use Rattle.spec_rows.specs.Going.{began, filled, is_home, known_or, operand_in, reads_of, with_read};
ghost use Rattle.afs_acts.specs.Acts.{FitsCalls, IsShortIfAny};
ghost use Rattle.afs_acts.specs.Named.{operand_at};
ghost use Rattle.afs_acts.specs.Ways.{first_operand, names_of, Steps};

use crate::behind::Behind;
use crate::copies::{copy_place, copy_read};
use crate::known::Location;
use crate::named::{Place, named};
use crate::places::{homes_of, server_for};
use crate::reads::most_reads;
use crate::walks::goes_on;
use crate::ways::{name_behind, start};
use afs_num::calls::{Fids, FsCall};
use afs_num::histories::ReadBody;
use afs_num::sequences::Sequence;
use afs_num::types::{Fid, Mem, Node};
use spec_history::acts::{Act, Operand, SharedAct};
use std::alloc::Global;
use std::marker::Model;

/// The numbers of the volumes of an act's operands; none where it has none, or the client doesn't know it.
#[derive(Drop)]
pub struct Homes {
    pub first: Option<u32>,
    pub second: Option<u32>,
}

impl Model for Homes {
    ghost use Rattle.spec_rows.specs.Going.{Homes};

    ghost Value = { Homes };

    ghost view = { λ h. record { first = h.first; second = h.second } };
}

/// What an act has read of a fid.
#[derive(Drop)]
pub struct Shown {
    pub fid: Fid,
    pub body: ReadBody,
}

impl Model for Shown {
    ghost use Rattle.spec_rows.specs.Going.{ReadShown};

    ghost Value = { ReadShown };

    ghost view = { λ s. record { fid = s.fid; body = s.body } };
}

pub type Reads = Sequence<Shown>;

/// How far an act has come along its first path: behind so many names, at this fid; and what it read on the way.
#[derive(Drop)]
pub struct Way {
    pub names: usize,
    pub fid: Fid,
    pub behind: Behind,
}

/// An act that runs, how far it has come, and what it has read and not yet left behind, the first first. Copies of it share the act.
pub struct Going {
    pub(crate) act: SharedAct,
    pub(crate) homes: Homes,
    pub(crate) way: Way,
    pub(crate) rest: Reads,
}

/// It ends by a drop of its own: a step that ends with it has one drop to prove, and not one for each of its parts.
impl Drop for Going {
    fn drop(self) {
        let Going {
            act: _,
            homes: _,
            way: _,
            rest: _,
        } = self;
    }
}

impl Model for Going {
    ghost use Rattle.std.specs.Prelude.{◌++◌};
    ghost use Rattle.spec_rows.specs.Going.{Going};
    ghost use Rattle.afs_acts.specs.Ways.{first_operand, IsUnderway};

    ghost Value = { Going };

    ghost view = { λ g. record { act = g.act; homes = g.homes; reads = g.way.behind ++ g.rest } };

    ghost invariant = { λ g. IsUnderway g.homes.first (first_operand g.act) g.way.names g.way.fid g.way.behind };
}

impl Shown {
    fn copy(&self, alloc: Global) -> Mem<Shown>
        ensures { IfOk result (λ c. c ≡ self.now) }
    {
        Ok(Shown {
            fid: self.fid,
            body: copy_read(alloc, &self.body)?,
        })
    }
}

/// A copy of reads, with room for one more: an act that goes on has read something. None of them take no memory.
pub(crate) fn copy_shown(alloc: Global, reads: &[Shown]) -> Mem<Vec<Shown>>
    ensures { IfOk result (λ c. c.items ≡ reads.now) }
{
    if reads.is_empty() {
        return Ok(Vec::new(alloc));
    }
    let mut copy = Vec::with_capacity(alloc, reads.len() + 1)?;
    for shown in reads {
        copy.push(shown.copy(alloc)?)?;
    }
    Ok(copy)
}

impl Way {
    /// A copy.
    fn copy(&self) -> Mem<Way>
        ensures { IfOk result (λ c. c ≡ self.now) }
    {
        Ok(Way {
            names: self.names,
            fid: self.fid,
            behind: self.behind.copy()?,
        })
    }
}

/// Where a walk goes on by a read: one name along, to a directory. There is none where the volume isn't known, where another read is
/// ahead of it, or where the last name is next.
fn step(
    home: Option<u32>,
    act: &Act,
    way: &Way,
    ahead: &[Shown],
    fid: &Fid,
    body: &ReadBody,
) -> Option<Fid>
    ensures known { IfSome result (λ next. IsSome home) }
    ensures steps { IfSome result (Steps (names_of (first_operand act.now)) way.now.names way.now.fid ahead.now (record { fid = fid.now; body = body.now })) }
    ensures few { IfSome result (λ next. way.now.names + 1 < 2 ^ 64) }
{
    if home.is_none() || !ahead.is_empty() {
        return None;
    }
    let name = name_behind(act, way.names)?;
    goes_on(&way.fid, name, fid, body)
}

impl Homes {
    fn first(&self) -> Option<u32>
        ensures { result ≡ self.now.first }
    {
        self.first
    }

    fn copy(&self) -> Homes
        ensures { result ≡ self.now }
    {
        Homes {
            first: self.first,
            second: self.second,
        }
    }

    fn without_second(&self) -> Homes
        ensures { result ≡ record self.now { second = None } }
    {
        Homes {
            first: self.first,
            second: None,
        }
    }
}

/// What is known, or what was found.
fn known_or(known: Option<u32>, found: Option<u32>) -> Option<u32>
    ensures { result ≡ known_or known found }
{
    match known {
        Some(number) => Some(number),
        None => found,
    }
}

fn is_home(home: Option<u32>, volume: u32) -> bool
    ensures { result ≡ is_home home volume }
{
    match home {
        Some(number) => number == volume,
        None => false,
    }
}

impl Homes {
    /// The numbers that are lacking here are taken from there.
    fn filled(&self, found: &Homes) -> Homes
        ensures { result ≡ record { first = known_or self.now.first found.now.first; second = known_or self.now.second found.now.second } }
    {
        Homes {
            first: known_or(self.first, found.first),
            second: known_or(self.second, found.second),
        }
    }
}

impl Going {
    /// An act that begins.
    pub fn began(alloc: Global, table: &[Location], act: &SharedAct) -> Mem<Going>
        ensures { IfOk result (λ g. g ≡ began table.now act.now) }
    {
        let homes = homes_of(table, act.get());
        let way = Way {
            names: 0,
            fid: start(homes.first, act.get()),
            behind: Behind::new(alloc),
        };
        Ok(Going {
            act: act.copy()?,
            homes,
            way,
            rest: Sequence::new(alloc),
        })
    }

    /// A copy.
    pub fn copy(&self, alloc: Global) -> Mem<Going>
        ensures { IfOk result (λ g. g ≡ self.now) }
    {
        Ok(Going {
            act: self.act.copy()?,
            homes: self.homes.copy(),
            way: self.way.copy()?,
            rest: Sequence::from_vec(copy_shown(alloc, self.rest.as_slice())?),
        })
    }

    /// How many reads it takes from a cache at most.
    pub fn most_reads(&self) -> u64
        ensures { result ≡ reads_of self.now.act }
    {
        most_reads(self.act.get())
    }

    /// Adds a read. Where it takes the walk on it is left behind, so that no later step looks at it.
    pub fn add(&mut self, fid: Fid, body: ReadBody) -> Mem<()>
        ensures ok { OnOk result (self.new ≡ with_read fid body self.old) }
        ensures err { OnErr result (self.new ≡ self.old) }
    {
        match step(
            self.homes.first(),
            self.act.get(),
            &self.way,
            self.rest.as_slice(),
            &fid,
            &body,
        ) {
            Some(next) => {
                self.way.behind.push(Shown { fid, body })?;
                self.way.names += 1;
                self.way.fid = next;
                Ok(())
            }
            None => self.rest.push(Shown { fid, body }),
        }
    }

    /// The numbers that it lacks are looked up again. Where its first volume becomes known its walk begins there.
    pub fn fill(&mut self, table: &[Location])
        ensures { self.new ≡ filled table.now self.old }
    {
        let found = homes_of(table, self.act.get());
        if self.homes.first.is_none() {
            self.way.fid = start(found.first, self.act.get());
        }
        self.homes = self.homes.filled(&found);
    }

    /// Whether the number of its first volume is known.
    pub fn knows_first(&self) -> bool
        ensures { result ≡ is_some self.now.homes.first }
    {
        self.homes.first().is_some()
    }

    /// The number of its second volume is to be looked up anew.
    pub fn forget_second(&mut self)
        ensures { self.new ≡ record self.old { homes = record self.old.homes { second = None } } }
    {
        self.homes = self.homes.without_second();
    }

    /// The operand in whose volume it calls: the first, or the second where that alone is in the volume.
    pub fn place_in(&self, volume: u32) -> Option<Place<'_>>
        ensures { option_map operand_at result ≡ operand_in self.now volume }
    {
        let named = named(self.act.get());
        if is_home(self.homes.second, volume) && !is_home(self.homes.first, volume) {
            named.second()
        } else {
            named.first()
        }
    }

    /// A copy of that operand.
    pub fn operand_in(&self, alloc: Global, volume: u32) -> Mem<Option<Operand>>
        ensures value { IfOk result (λ o. o ≡ operand_in self.now volume) }
        ensures short { FitsCalls self.now.act → IsShortIfAny (operand_in self.now volume) }
    {
        match self.place_in(volume) {
            Some(place) => Ok(Some(copy_place(alloc, place)?)),
            None => Ok(None),
        }
    }

    /// The server of its calls in this volume.
    pub fn server_in(&self, table: &[Location], volume: u32) -> u8
        ensures value { result ≡ server_for table.now (operand_in self.now volume) }
        ensures node { IsNode (Node.Server result) }
    {
        server_for(table, self.place_in(volume))
    }
}

/// What an act needs next: the body, the status, or the rights of this fid, or the status of each of these; this call; to
/// give its promises back; where the volume of this operand is; or to answer. A call and an operand are longer than the others, and stand
/// apart.
#[derive(Drop)]
pub enum Need {
    Body(Fid),
    Status(Fid),
    Statuses(Fids),
    Rights(Fid),
    Call(Box<FsCall>),
    GiveBack,
    Locate(Box<Operand>),
    Answer(u32),
}
