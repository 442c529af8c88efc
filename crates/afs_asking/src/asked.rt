//! The act that runs, with its unanswered call.

ghost use Rattle.std.specs.Prelude.{◌≡◌, IfOk};
ghost use Rattle.std.specs.List.{All};
ghost use Rattle.spec_model.specs.CellRows.{cell_calls};
ghost use Rattle.spec_shape.specs.Rows.{IsWithin};
ghost use Rattle.afs_num.specs.Nodes.{IsNode};
ghost use Rattle.spec_rows.specs.ClientRow.{behind_batch, call_by, server_for, volume_asked};
ghost use Rattle.spec_rows.specs.Going.{next, operand_in};
ghost use Rattle.spec_copyrows.specs.Sites.{entry_located, round_begun, round_by_entry, round_or};
ghost use Rattle.std.specs.Option.{option_copied};
ghost use Rattle.afs_acts.specs.Acts.{FitsNeed, FitsCalls, IsShortIfAny};
ghost use Rattle.afs_acts.specs.Walks.{need_of};
ghost use Rattle.afs_asking.specs.Asking.{code_of, IsGift, is_giving, Parts};
ghost use Rattle.afs_num.specs.declared.messages.Call.TheVariants as ask;

use afs_acts::{Going, Location, Need, volume_asked};
use afs_entries::{Gift, batch_len, copy_gifts, gift_batch, gift_call};
use afs_num::calls::FsCall;
use afs_num::messages::Call;
use afs_num::types::{Code, Mem, Node};
use afs_sites::{Round, round_for};
use spec_history::acts::Operand;
use std::alloc::Global;
use std::marker::Model;

/// What is kept of the act that runs: it, what it gives back still, its unanswered call, and whether that gives promises
/// back.
#[derive(Drop)]
struct Held {
    going: Going,
    gifts: Vec<Gift>,
    call: Call,
    gives_back: bool,
}

/// The act that runs, with its unanswered call. It is moved from hand to hand, and what is kept of it stays where it is.
#[derive(Drop)]
pub struct Asked {
    held: Box<Held>,
}

impl Model for Asked {
    ghost use Rattle.afs_asking.specs.Asking.{Asking, IsAskedForNeed};

    ghost Value = { Asking };

    ghost view = { λ a. record { going = a.held.value.going; gifts = a.held.value.gifts.items } };

    ghost invariant = { λ a. IsAskedForNeed a.held.value.going a.held.value.gifts.items a.held.value.call a.held.value.gives_back };
}

/// The code with which an act is answered; it has none where it asks for something.
pub fn code_in(need: &Need) -> Option<Code>
    requires { FitsNeed (need_of need.now) }
    ensures { result ≡ code_of (need_of need.now) }
{
    match need {
        Need::Answer(code) => Some(Code(*code as i32)),
        _ => None,
    }
}

/// Whether promises are given back.
pub fn is_giving(need: &Need) -> bool
    ensures { result ≡ is_giving (need_of need.now) }
{
    matches!(need, Need::GiveBack)
}

/// The operand whose volume must be asked for, or what else is needed.
pub fn into_operand(need: Need) -> Result<Operand, Need>
    ensures { Parts (need_of need) result }
{
    match need {
        Need::Locate(operand) => Ok(Box::into_inner(operand)),
        need => Err(need),
    }
}

/// The call for a need.
fn call_for(alloc: Global, need: Need, gifts: &[Gift]) -> Mem<FsCall>
    ensures { IfOk result (λ c. c ≡ call_by gifts.now (need_of need)) }
{
    match need {
        Need::Body(fid) => Ok(FsCall::FetchData {
            fid,
            position: 0,
            length: 2_147_483_647,
        }),
        Need::Status(fid) => Ok(FsCall::FetchStatus { fid }),
        Need::Statuses(fids) => Ok(FsCall::BulkStatus { fids }),
        Need::Rights(fid) => Ok(FsCall::FetchAcl { fid }),
        Need::Call(call) => Ok(Box::into_inner(call)),
        Need::GiveBack => gift_call(alloc, gift_batch(gifts)),
        Need::Locate(_) => Ok(FsCall::GetTime),
        Need::Answer(_) => Ok(FsCall::GetTime),
    }
}

impl Asked {
    /// An act that goes on with the call for what it needs.
    pub fn new(alloc: Global, going: Going, need: Need, gifts: Vec<Gift>) -> Mem<Asked>
        requires short { FitsCalls going.act }
        requires need { need_of need ≡ next going }
        requires nodes { All IsGift gifts.items }
        ensures { IfOk result (λ a. a ≡ record { going = going; gifts = gifts.items }) }
    {
        let gives_back = is_giving(&need);
        let call = Call::File(call_for(alloc, need, &gifts)?);
        let held = Held {
            going,
            gifts,
            call,
            gives_back,
        };
        Ok(Asked {
            held: Box::new(alloc, held)?,
        })
    }

    /// Whether its call gives promises back.
    pub fn gives_back(&self) -> bool
        ensures { result ≡ is_giving (next self.now.going) }
    {
        self.held.gives_back
    }

    /// The server that it asks where it doesn't give promises back.
    pub fn server(&self, table: &[Location]) -> u8
        ensures value { result ≡ server_for table.now (operand_in self.now.going (volume_asked (call_by self.now.gifts (next self.now.going)))) }
        ensures node { IsNode (Node.Server result) }
    {
        self.held
            .going
            .server_in(table, volume_asked(self.file_call()))
    }

    /// The round in whose volume it calls, where this one was begun, if one was.
    pub fn round(
        &self,
        alloc: Global,
        begun: Option<&Round>,
        table: &[Location],
    ) -> Mem<Option<Round>>
        ensures { IfOk result (λ o. o ≡ round_or (round_begun (volume_asked (call_by self.now.gifts (next self.now.going))) (option_copied begun.entry)) (round_by_entry (volume_asked (call_by self.now.gifts (next self.now.going))) (entry_located table.now (operand_in self.now.going (volume_asked (call_by self.now.gifts (next self.now.going))))))) }
    {
        let volume = volume_asked(self.file_call());
        round_for(alloc, begun, table, &self.held.going, volume)
    }

    /// A copy of the operand in whose volume it calls.
    pub fn operand(&self, alloc: Global) -> Mem<Option<Operand>>
        ensures value { IfOk result (λ o. o ≡ operand_in self.now.going (volume_asked (call_by self.now.gifts (next self.now.going)))) }
        ensures short { IsShortIfAny (operand_in self.now.going (volume_asked (call_by self.now.gifts (next self.now.going)))) }
    {
        let volume = volume_asked(self.file_call());
        self.held.going.operand_in(alloc, volume)
    }

    /// A copy of the act, and of what it has read.
    pub fn copy_going(&self, alloc: Global) -> Mem<Going>
        ensures value { IfOk result (λ g. g ≡ self.now.going) }
        ensures short { FitsCalls self.now.going.act }
    {
        self.held.going.copy(alloc)
    }

    pub fn gifts(&self) -> &[Gift]
        ensures value { result.now ≡ self.now.gifts }
        ensures nodes { All IsGift self.now.gifts }
    {
        &self.held.gifts
    }

    pub fn call(&self) -> &Call
        ensures value { result.now ≡ ask.File (call_by self.now.gifts (next self.now.going)) }
        ensures within { IsWithin cell_calls (ask.File (call_by self.now.gifts (next self.now.going))) }
    {
        &self.held.call
    }

    /// A copy of what it gives back still.
    pub fn copy_gifts(&self, alloc: Global) -> Mem<Vec<Gift>>
        ensures value { IfOk result (λ gs. gs.items ≡ self.now.gifts) }
        ensures nodes { All IsGift self.now.gifts }
    {
        copy_gifts(alloc, &self.held.gifts)
    }

    /// What it gives back behind the batch that its call carries.
    pub fn behind_batch(&self, alloc: Global) -> Mem<Vec<Gift>>
        ensures value { IfOk result (λ gs. gs.items ≡ behind_batch self.now.gifts) }
        ensures nodes { IfOk result (λ gs. All IsGift gs.items) }
    {
        copy_gifts(
            alloc,
            self.held.gifts.split_at(batch_len(&self.held.gifts)).1,
        )
    }

    /// Its call: all calls of clients are of the interface of the file servers.
    pub fn file_call(&self) -> &FsCall
        ensures { result.now ≡ call_by self.now.gifts (next self.now.going) }
    {
        match &self.held.call {
            Call::File(call) => call,
            _ => unreachable!(),
        }
    }
}
