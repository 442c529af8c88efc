//! An act asks the location database where a volume is, and goes on with the answer.

ghost use Rattle.std.specs.Prelude.{◌≡◌, ◌+◌, ◌<◌, [], ◌∷◌, ◌&&◌, Some, IsSome, IsTrue, IfOk, IfSome, OnErr, OnOk, nat_lt};
ghost use Rattle.std.specs.Option.{option_copied, option_map};
ghost use Rattle.afs_acts.specs.Located.{Puts};
ghost use Rattle.spec_model.specs.Calls.{last_timeout};
ghost use Rattle.spec_model.specs.Messages.{HasSpelling, messages_spelled, parcels_read};
ghost use Rattle.afs_num.specs.declared.messages.Received.TheVariants.{Whole};
ghost use Rattle.afs_num.specs.declared.types.Node.TheVariants.{Loc as Database};
ghost use Rattle.spec_rows.specs.Going.{filled, operand_in};
ghost use Rattle.spec_rows.specs.ClientRow.{act_sought, asks_where, boot_of, call_of, calls_again, dead_code, entry_in, with_given, guest_row, is_answer, is_gone_code, located, located_by, most_moved, refuses_for_good, seeks_again, seeks_step, sought_by, sought_ends, timeout_line, volume_asked, walks_on, with_boot};
ghost use Rattle.spec_shape.specs.Tables.{IsEntry};
ghost use Rattle.afs_acts.specs.Acts.{FitsCalls, IsShortIfAny, IsShortOperand};
ghost use Rattle.afs_cache.specs.Acting.{CanFollow, PlansFor, question_head, sought_from};
ghost use Rattle.spec_copyrows.specs.CopyRow.{entry_told as entry_in_message, hears_by};
ghost use Rattle.spec_copyrows.specs.Sites.{with_client};
ghost use Rattle.afs_cache.specs.Locating.{IsAskedAnew, Sought, calls_elsewhere, entry_answered, entry_told, filled_from, found_on, goes_as_before, goes_by_table, left_sought, operand_called, renewed_by, renewed_in, volume_sought};
ghost use Rattle.afs_cache.specs.Managing.{AnswersStill, by_act, GoesStill, number_limit, seek_times_out, sought_by_head, Takes, TakesCopy};

use crate::acting::{Plan, Seeks};
use crate::node::CacheManager;
use crate::refusing::DEAD;
use afs_acts::{Going, Location, next, volume_asked, volume_at, with_location};
use afs_asking::{Asked, Left, Seeking};
use afs_call::{LAST_TIMEOUT, Timeout, timed_out};
use afs_calling::boots::{boot_of, note_boot};
use afs_calling::messages::{outs_calling, quiet};
use afs_num::location_calls::{LocEntry, LocReply};
use afs_num::messages::{Carried, Reply};
use afs_num::types::{Code, Half, Head, Mem, Node};
use spec_history::acts::Operand;
use spec_history::lines::{Line, Lines, Outs};
use std::mem::replace;

/// No such volume is known (VL_NOENT).
const NO_ENTRY: Code = Code(363_524);

/// So often an act asks where a volume went.
const MOST_MOVED: u32 = 4;

/// The server has no such volume, or not any more.
fn is_gone(code: Code) -> bool
    ensures { result ≡ is_gone_code code }
{
    code.0 == 103 || code.0 == 111
}

/// The entry that answers a look-up.
fn entry_in(reply: &LocReply) -> Option<&LocEntry>
    ensures { option_copied result ≡ entry_in reply.now }
{
    match reply {
        LocReply::GetEntryById { entry } => Some(entry),
        LocReply::GetEntryByName { entry } => Some(entry),
        _ => None,
    }
}

/// The entry that a reply tells, if it answers a look-up.
fn entry_told(reply: &Reply) -> Option<&LocEntry>
    ensures { option_copied result ≡ entry_told reply.now }
{
    match reply {
        Reply::Location(reply) => entry_in(reply),
        _ => None,
    }
}

/// The same of a message.
fn entry_carried(carried: &Carried) -> Option<&LocEntry>
    ensures { option_copied result ≡ entry_in_message carried.now }
{
    match carried {
        Carried::Reply { reply } => entry_told(reply),
        _ => None,
    }
}

/// Whether it answers a call.
fn is_answer(carried: &Carried) -> bool
    ensures { result ≡ is_answer carried.now }
{
    !matches!(carried, Carried::Call { .. })
}

impl CacheManager {
    // ---- questions

    /// The header of a question under this number.
    fn question_head(&self, number: u32, boot: u32, seeking: &Seeking) -> Head
        ensures { result ≡ question_head self.now.node self.now.state.client.epoch number boot seeking.now.operand }
    {
        Head {
            half: Half::Call,
            from: self.node,
            to: Node::Loc,
            epoch: self.callers.boot(),
            number,
            boot,
            stamp: 0,
            opcode: seeking.opcode(),
        }
    }

    /// What is given out with the question of an act.
    fn question_outs(&self, number: u32, boot: u32, seeking: &Seeking, lines: Lines) -> Mem<Outs>
        ensures lines { IfOk result (λ o. o.lines ≡ lines) }
        ensures sent { IfOk result (λ o. parcels_read o.parcels ≡ messages_spelled (sought_from self.now.node self.now.state.client number boot seeking.now.operand ∷ [])) }
    {
        let head = self.question_head(number, boot, seeking);
        outs_calling(
            self.alloc,
            lines,
            &head,
            self.user.as_slice(),
            seeking.call(),
        )
    }

    /// What is given out behind these lines with a question that is asked first.
    fn first_question(&self, seeking: &Seeking, lines: Lines) -> Mem<Outs>
        requires { self.now.state.client.last < number_limit }
        ensures lines { IfOk result (λ o. o.lines ≡ lines) }
        ensures sent { IfOk result (λ o. parcels_read o.parcels ≡ messages_spelled (sought_from self.now.node self.now.state.client (self.now.state.client.last + 1) (boot_of Database self.now.state.client.boots) seeking.now.operand ∷ [])) }
    {
        let boot = boot_of(&Node::Loc, &self.boots);
        self.question_outs(self.calls.last + 1, boot, seeking, lines)
    }

    /// Behind these lines an act asks where the volume of this operand is.
    pub(crate) fn plan_seeking(
        &self,
        going: Going,
        operand: Operand,
        left: Option<Left>,
        lines: Lines,
    ) -> Mem<Plan>
        requires short { FitsCalls going.act }
        requires operand { IsShortOperand operand }
        requires last { self.now.state.client.last < number_limit }
        ensures plan { IfOk result (λ p. PlansFor (λ d front. seeks_step self.now.node d (record { act = going; operand = operand; left = left }) d.cache front) lines self.now p) }
        ensures follows { IfOk result (CanFollow self.now.state.client.last) }
    {
        let seeking = Seeking::new(self.alloc, going, operand, left)?;
        let outs = self.first_question(&seeking, lines)?;
        Ok(Plan::Seeks(Seeks { seeking, outs }))
    }

    // ---- a server has no such volume

    /// Whether an act that is refused so asks where the volume went.
    fn may_move(&self, code: Code) -> bool
        ensures value { result ≡ (is_gone_code code && nat_lt self.now.state.client.moved most_moved) }
        ensures few { IsTrue result → self.now.state.client.moved < 4 }
    {
        is_gone(code) && self.moved < MOST_MOVED
    }

    /// The act asks once more.
    fn count_move(&mut self)
        requires { self.old.state.client.moved < 4 }
        ensures { self.new ≡ record self.old { state = with_client self.old.state (record self.old.state.client { moved = self.old.state.client.moved + 1 }) } }
    {
        self.moved += 1;
    }

    /// The server that the act that runs leaves with this code.
    fn left(&self, code: Code) -> Left
        ensures { result ≡ record { server = self.now.state.client.callee; code = code } }
    {
        Left::new(self.calls.callee, code)
    }

    /// The act that runs asks where the volume of this operand went.
    fn seek(&mut self, operand: Operand, code: Code) -> Mem<Outs>
        requires operand { IsShortOperand operand }
        requires few { self.old.state.client.moved < 4 }
        requires last { self.old.state.client.last < number_limit }
        ensures { Takes (λ place. by_act self.old.state.client place (λ act. asks_where self.old.node self.old.state.client place act code (Some operand)) self.old.state.client.running) self.old self.new result }
    {
        let Some(asked) = self.running() else {
            return self.ignore();
        };
        let going = asked.copy_going(self.alloc)?;
        let left = self.left(code);
        let lines = self.no_lines();
        let plan = self.plan_seeking(going, operand, Some(left), lines)?;
        self.count_move();
        Ok(self.follow(plan))
    }

    /// The operand in whose volume the act that runs calls.
    fn operand_asked(&self) -> Mem<Option<Operand>>
        ensures value { IfOk result (λ o. o ≡ operand_called self.now.state.client self.now.state.client.running) }
        ensures short { IsShortIfAny (operand_called self.now.state.client self.now.state.client.running) }
    {
        match &self.asked {
            Some(asked) => asked.operand(self.alloc),
            None => Ok(None),
        }
    }

    /// The act that runs asks where the volume went in which it calls.
    fn ask_where(&mut self, code: Code) -> Mem<Outs>
        requires few { self.old.state.client.moved < 4 }
        requires last { self.old.state.client.last < number_limit }
        ensures { Takes (λ place. by_act self.old.state.client place (λ act. asks_where self.old.node self.old.state.client place act code (operand_in act (volume_asked (call_of self.old.state.client act)))) self.old.state.client.running) self.old self.new result }
    {
        let Some(_asked) = self.running() else {
            return self.ignore();
        };
        match self.operand_asked()? {
            Some(operand) => self.seek(operand, code),
            None => self.answer(code),
        }
    }

    /// A refusal that an act doesn't wait out: where the volume is gone it asks where to, so often.
    pub(crate) fn refuse_for_good(&mut self, code: Code) -> Mem<Outs>
        requires last { self.old.state.client.last < number_limit }
        ensures { Takes (λ place. by_act self.old.state.client place (λ act. refuses_for_good self.old.node self.old.state.client place act code) self.old.state.client.running) self.old self.new result }
    {
        let Some(_asked) = self.running() else {
            return self.ignore();
        };
        let may_move = self.may_move(code);
        if may_move {
            self.ask_where(code)
        } else {
            self.answer(code)
        }
    }

    // ---- answers

    /// Behind these lines the act that waits for the database is answered.
    fn end_seeking(&mut self, code: Code, lines: Lines) -> Mem<Outs>
        ensures { GoesStill (λ front. sought_ends self.old.node self.old.state.client front code) lines self.old self.new result }
    {
        let mut lines = lines;
        lines.push(Line::Answer {
            node: self.node,
            code,
        })?;
        let outs = quiet(self.alloc, lines);
        self.seeking = None;
        Ok(outs)
    }

    /// The act that waits for the database is answered.
    fn answer_seeking(&mut self, code: Code) -> Mem<Outs>
        ensures { Takes (λ place. sought_ends self.old.node self.old.state.client (with_given place) code) self.old self.new result }
    {
        let lines = self.no_lines();
        self.end_seeking(code, lines)
    }

    /// The act that waits for the database.
    fn sought(&self) -> &Seeking
        requires { IsSome self.now.state.client.seeking }
        ensures { Some result.now ≡ self.now.state.client.seeking }
    {
        match &self.seeking {
            Some(seeking) => seeking,
            None => unreachable!(),
        }
    }

    /// A copy of it.
    fn copy_sought(&self) -> Mem<Going>
        requires { IsSome self.now.state.client.seeking }
        ensures value { IfOk result (λ g. Some g ≡ act_sought self.now.state.client.seeking) }
        ensures short { IfOk result (λ g. FitsCalls g.act) }
    {
        self.sought().copy_going(self.alloc)
    }

    /// A copy that has the numbers of its volumes as the table has them now.
    fn filled(&self) -> Mem<Going>
        requires { IsSome self.now.state.client.seeking }
        ensures value { IfOk result (λ g. Some g ≡ filled_from self.now.state.client.table self.now.state.client.seeking) }
        ensures short { IfOk result (λ g. FitsCalls g.act) }
    {
        let mut going = self.copy_sought()?;
        going.fill(&self.table);
        Ok(going)
    }

    /// The server that it left.
    fn left_sought(&self) -> Option<Left>
        requires { IsSome self.now.state.client.seeking }
        ensures { result ≡ left_sought self.now.state.client.seeking }
    {
        match self.sought().left() {
            Some(left) => Some(Left::new(left.server(), left.code())),
            None => None,
        }
    }

    /// The number of the volume that it asks for, where the table has it.
    fn volume_sought(&self) -> Option<u32>
        requires { IsSome self.now.state.client.seeking }
        ensures { result ≡ volume_sought self.now.state.client.table self.now.state.client.seeking }
    {
        volume_at(&self.table, self.sought().operand())
    }

    /// The act goes on: the number that it lacked is known now.
    fn go_located(&mut self, now: u32) -> Mem<Outs>
        requires seeks { IsSome self.old.state.client.seeking }
        requires last { self.old.state.client.last < number_limit }
        ensures { Sought (λ place k. walks_on self.old.node self.old.state.client now (with_given place) (filled self.old.state.client.table k.act) self.old.state.client.cache) self.old self.new result }
    {
        let going = self.filled()?;
        let need = next(self.alloc, &going)?;
        let lines = self.no_lines();
        self.walk_on(going, need, lines, now)
    }

    /// The act with the call that was refused.
    fn asked_anew(&self) -> Mem<Asked>
        requires seeks { IsSome self.now.state.client.seeking }
        ensures { IfOk result (IsAskedAnew self.now.state.client self.now.state.client.seeking) }
    {
        let going = self.copy_sought()?;
        let need = next(self.alloc, &going)?;
        let gifts = self.copy_gifts()?;
        Asked::new(self.alloc, going, need, gifts)
    }

    /// The act makes its call anew.
    fn call_anew(&mut self, asked: Asked) -> Mem<Outs>
        requires gifts { asked.gifts ≡ self.old.state.client.gifts }
        requires last { self.old.state.client.last < number_limit }
        ensures { Takes (λ place. calls_again self.old.node self.old.state.client place asked.going) self.old self.new result }
    {
        let lines = self.no_lines();
        let plan = self.plan_asked(asked, lines)?;
        Ok(self.follow(plan))
    }

    /// The act makes the call anew that the server refused that it left, unless the table names that one still.
    fn call_moved(&mut self, left: Left) -> Mem<Outs>
        requires seeks { IsSome self.old.state.client.seeking }
        requires last { self.old.state.client.last < number_limit }
        ensures { Sought (λ place k. calls_elsewhere self.old.node self.old.state.client place k.act left) self.old self.new result }
    {
        let asked = self.asked_anew()?;
        let server = left.server();
        let code = left.code();
        let is_left = self.callee(&asked).is(&server);
        if is_left {
            self.answer_seeking(code)
        } else {
            self.call_anew(asked)
        }
    }

    /// The act goes on with a number that the table has.
    fn go_found(&mut self, now: u32) -> Mem<Outs>
        requires seeks { IsSome self.old.state.client.seeking }
        requires last { self.old.state.client.last < number_limit }
        ensures { Sought (λ place k. found_on self.old.node self.old.state.client now place k k.left) self.old self.new result }
    {
        match self.left_sought() {
            Some(left) => self.call_moved(left),
            None => self.go_located(now),
        }
    }

    /// What the act does once the table has the entry that came.
    fn go_by_table(&mut self, now: u32) -> Mem<Outs>
        requires seeks { IsSome self.old.state.client.seeking }
        requires last { self.old.state.client.last < number_limit }
        ensures { Sought (λ place k. goes_by_table self.old.node self.old.state.client now place k) self.old self.new result }
    {
        match self.volume_sought() {
            Some(_) => self.go_found(now),
            None => self.answer_seeking(NO_ENTRY),
        }
    }

    /// What the act does where the table had just the entry that came: it names the server that was left, if one was.
    fn go_as_before(&mut self, now: u32) -> Mem<Outs>
        requires seeks { IsSome self.old.state.client.seeking }
        requires last { self.old.state.client.last < number_limit }
        ensures { Sought (λ place k. goes_as_before self.old.node self.old.state.client now place k k.left) self.old self.new result }
    {
        match self.left_sought() {
            Some(left) => {
                let code = left.code();
                self.answer_seeking(code)
            }
            None => self.go_by_table(now),
        }
    }

    /// The client has this table, and gives the one that it had.
    fn swap_table(&mut self, table: Vec<Location>) -> Vec<Location>
        ensures new { self.new ≡ record self.old { state = with_client self.old.state (record self.old.state.client { table = table.items }) } }
        ensures old { result.items ≡ self.old.state.client.table }
    {
        replace(&mut self.table, table)
    }

    /// The same with another table; where memory is wanting the client has its own again.
    fn go_with_table(&mut self, table: Vec<Location>, now: u32) -> Mem<Outs>
        requires seeks { IsSome self.old.state.client.seeking }
        requires last { self.old.state.client.last < number_limit }
        ensures { Sought (λ place k. goes_by_table self.old.node (record self.old.state.client { table = table.items }) now place k) self.old self.new result }
    {
        let known = self.swap_table(table);
        match self.go_by_table(now) {
            Ok(outs) => Ok(outs),
            Err(fault) => {
                let _table = self.swap_table(known);
                Err(fault)
            }
        }
    }

    /// The table with this entry, where that isn't the table as it is.
    fn with_entry(&self, entry: &LocEntry) -> Mem<Option<Vec<Location>>>
        requires { IsEntry entry.now }
        ensures { IfOk result (λ t. Puts entry.now self.now.state.client.table (option_map (λ v. v.items) t)) }
    {
        let location = Location::new(self.alloc, entry)?;
        with_location(self.alloc, &self.table, location)
    }

    /// The entry comes that an act asked for.
    fn locate(&mut self, entry: &LocEntry, now: u32) -> Mem<Outs>
        requires entry { IsEntry entry.now }
        requires seeks { IsSome self.old.state.client.seeking }
        requires last { self.old.state.client.last < number_limit }
        ensures { Sought (λ place k. located self.old.node self.old.state.client now place k entry.now k.left) self.old self.new result }
    {
        match self.with_entry(entry)? {
            Some(table) => self.go_with_table(table, now),
            None => self.go_as_before(now),
        }
    }

    /// A reply of the database.
    fn hear_entry(&mut self, reply: &Reply, now: u32) -> Mem<Outs>
        requires entry { IfSome (entry_told reply.now) IsEntry }
        requires seeks { IsSome self.old.state.client.seeking }
        requires last { self.old.state.client.last < number_limit }
        ensures { Sought (λ place k. located_by self.old.node self.old.state.client now place k (entry_told reply.now)) self.old self.new result }
    {
        match entry_told(reply) {
            Some(entry) => self.locate(entry, now),
            None => self.ignore(),
        }
    }

    /// A boot number is noted for the database.
    fn note_database(&mut self, boot: u32) -> Mem<()>
        ensures ok { OnOk result (self.new ≡ record self.old { state = with_client self.old.state (record self.old.state.client { boots = with_boot Database boot self.old.state.client.boots }) }) }
        ensures err { OnErr result (self.new ≡ self.old) }
    {
        note_boot(&mut self.boots, Node::Loc, boot)
    }

    /// What is given out where the question is sent again with this boot number.
    fn question_with(&self, seeking: &Seeking, boot: u32) -> Mem<Outs>
        ensures lines { IfOk result (λ o. o.lines ≡ []) }
        ensures sent { IfOk result (λ o. parcels_read o.parcels ≡ messages_spelled (sought_from self.now.node self.now.state.client self.now.state.client.last boot seeking.now.operand ∷ [])) }
    {
        let lines = self.no_lines();
        self.question_outs(self.calls.last, boot, seeking, lines)
    }

    /// The database told its boot number: it is asked again.
    fn ask_again(&mut self, boot: u32) -> Mem<Outs>
        requires seeks { IsSome self.old.state.client.seeking }
        ensures { Sought (λ place k. seeks_again self.old.node self.old.state.client place k boot) self.old self.new result }
    {
        let outs = self.question_with(self.sought(), boot)?;
        self.note_database(boot)?;
        Ok(outs)
    }

    /// Whether a message answers the question of the act that waits for the database.
    pub(crate) fn is_sought(&self, head: &Head, carried: &Carried) -> bool
        ensures { result ≡ sought_by_head self.now.node self.now.state.client head.now carried.now self.now.state.client.seeking }
    {
        match &self.seeking {
            Some(seeking) => {
                (is_answer(carried) && head.to.is(&self.node))
                    && (head.from.is(&Node::Loc)
                        && (head.epoch == self.callers.boot()
                            && (head.number == self.calls.last && head.opcode == seeking.opcode())))
            }
            None => false,
        }
    }

    /// What answers the question.
    pub(crate) fn hear_database(&mut self, head: &Head, carried: Carried, now: u32) -> Mem<Outs>
        requires sound { HasSpelling (record { head = head.now; carried = carried }) }
        requires seeks { IsSome self.old.state.client.seeking }
        requires last { self.old.state.client.last < number_limit }
        ensures { Sought (λ place k. sought_by self.old.node self.old.state.client now place k head.now carried) self.old self.new result }
    {
        match carried {
            Carried::Refusal { code } => self.answer_seeking(code),
            Carried::Reply { reply } => self.hear_entry(&reply, now),
            Carried::Notice => self.ask_again(head.boot),
            Carried::Call { .. } => self.ignore(),
        }
    }

    // ---- the database tells an entry that is new

    /// The entry that the database tells.
    fn entry_sought<'a>(&self, head: &Head, carried: &'a Carried) -> Option<&'a LocEntry>
        ensures { option_copied result ≡ entry_answered self.now.node self.now.state.client head.now carried.entry.now self.now.state.client.seeking }
    {
        let sought = self.is_sought(head, carried);
        if sought { entry_carried(carried) } else { None }
    }

    /// The act that waits, as it is where the table is this one: the volume of its second operand is looked up anew, unless it walks there.
    fn renew(&self, table: &[Location]) -> Mem<Seeking>
        requires { IsSome self.now.state.client.seeking }
        ensures { IfOk result (λ k. Some k ≡ renewed_in table.now self.now.state.client.seeking) }
    {
        self.sought().renewed(self.alloc, table)
    }

    /// The same, where the database tells an entry that is new to the table.
    fn renewed(&self, head: &Head, carried: &Carried) -> Mem<Option<Seeking>>
        requires sound { HasSpelling (record { head = head.now; carried = carried.now }) }
        requires seeks { IsSome self.now.state.client.seeking }
        ensures { IfOk result (λ o. o ≡ renewed_by self.now.node self.now.state.client (record { head = head.now; carried = carried.now }) self.now.state.client.seeking) }
    {
        let Some(entry) = self.entry_sought(head, carried) else {
            return Ok(None);
        };
        match self.with_entry(entry)? {
            Some(table) => Ok(Some(self.renew(&table)?)),
            None => Ok(None),
        }
    }

    /// This act waits, and the one that waited is given.
    fn swap_seeking(&mut self, seeking: Option<Seeking>) -> Option<Seeking>
        ensures new { self.new ≡ record self.old { state = with_client self.old.state (record self.old.state.client { seeking = seeking }) } }
        ensures old { result ≡ self.old.state.client.seeking }
    {
        replace(&mut self.seeking, seeking)
    }

    /// A message to a client whose act waits so; where memory is wanting the act waits as it did.
    fn take_renewed(
        &mut self,
        seeking: Seeking,
        head: &Head,
        carried: Carried,
        now: u32,
    ) -> Mem<Outs>
        requires sound { HasSpelling (record { head = head.now; carried = carried }) }
        requires last { self.old.state.client.last < number_limit }
        ensures { Takes (λ place. guest_row self.old.node (record self.old.state.client { seeking = Some seeking }) now place (Whole (record { head = head.now; carried = carried }))) self.old self.new result }
    {
        let known = self.swap_seeking(Some(seeking));
        match self.take_guest(head, carried, now) {
            Ok(outs) => Ok(outs),
            Err(fault) => {
                let _seeking = self.swap_seeking(known);
                Err(fault)
            }
        }
    }

    /// A message, while an act waits for the database.
    pub(crate) fn take_seeking(&mut self, head: &Head, carried: Carried, now: u32) -> Mem<Outs>
        requires sound { HasSpelling (record { head = head.now; carried = carried }) }
        requires seeks { IsSome self.old.state.client.seeking }
        requires last { self.old.state.client.last < number_limit }
        ensures { TakesCopy (λ place. hears_by self.old.node self.old.state now place (record { head = head.now; carried = carried }) self.old.state.client.seeking) self.old self.new result }
    {
        match self.renewed(head, &carried)? {
            Some(seeking) => self.take_renewed(seeking, head, carried, now),
            None => self.take_guest(head, carried, now),
        }
    }

    // ---- timeouts

    /// The question is sent again. It has had so many timeouts by now.
    fn question_again(&self, seeking: &Seeking, tries: u32) -> Mem<Outs>
        ensures lines { IfOk result (λ o. o.lines ≡ timeout_line self.now.node self.now.state.client tries ∷ []) }
        ensures sent { IfOk result (λ o. parcels_read o.parcels ≡ messages_spelled (sought_from self.now.node self.now.state.client self.now.state.client.last (boot_of Database self.now.state.client.boots) seeking.now.operand ∷ [])) }
    {
        let boot = boot_of(&Node::Loc, &self.boots);
        let lines = self.tell_timeout(tries)?;
        self.question_outs(self.calls.last, boot, seeking, lines)
    }

    /// The question is given up.
    fn give_up_seeking(&mut self) -> Mem<Outs>
        ensures { AnswersStill (sought_ends self.old.node self.old.state.client (λ ls. timeout_line self.old.node self.old.state.client last_timeout ∷ ls) dead_code) self.old self.new result }
    {
        let lines = self.tell_timeout(LAST_TIMEOUT)?;
        self.end_seeking(DEAD, lines)
    }

    /// The question of the act that waits for the database is sent again, and at its last timeout given up.
    pub(crate) fn time_out_seeking(&mut self) -> Mem<Outs>
        ensures { AnswersStill (seek_times_out self.old.node self.old.state.client self.old.state.client.seeking) self.old self.new result }
    {
        let tries = self.calls.tries;
        let Some(seeking) = &self.seeking else {
            return self.ignore();
        };
        match timed_out(tries) {
            Timeout::Again(tries) => {
                let outs = self.question_again(seeking, tries)?;
                self.count_tries(tries);
                Ok(outs)
            }
            Timeout::Dead => self.give_up_seeking(),
        }
    }
}
