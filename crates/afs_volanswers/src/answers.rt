//! What is answered or written by a verdict.

ghost use Rattle.std.specs.Prelude.{◌≡◌, ◌<◌, ◌^◌, pos, IfOk, if◌then◌else◌};
ghost use Rattle.spec_rows.specs.ServerRow.{bad_fields, not_served};
ghost use Rattle.afs_voldecisions.specs.Verdicts.{after_of};
ghost use Rattle.afs_voldecisions.specs.declared.replies.Answer.TheVariants as answers;
ghost use Rattle.afs_voldecisions.specs.declared.transactions.After.TheVariants as afters;
ghost use Rattle.afs_voldecisions.specs.declared.verdicts.Verdict.TheVariants as verdicts;
ghost use Rattle.spec_volrows.specs.VolSteps.{is_vol_caller, is_volume_call, when_full};
ghost use Rattle.afs_volanswers.specs.Deciding.{raised_decided, same_decided, same_planned, saving_of, IsCoded, IsFullAnswer};
ghost use Rattle.afs_volanswers.specs.declared.decided.Decided.TheVariants as decided;

use crate::decided::{Decided, Saving};
use afs_num::records::RecordBody;
use afs_num::sequences::Octets;
use afs_num::types::{Mem, Node};
use afs_voldecisions::replies::Answer;
use afs_voldecisions::transactions::{After, Transactions};
use afs_voldecisions::verdicts::{NO_MORE, Plan, Verdict};
use afs_volume::Volume;
use std::alloc::Global;

/// The calls that the server serves.
pub const CALLS: [u32; 14] = [
    100, 101, 102, 103, 104, 105, 106, 107, 108, 109, 111, 113, 116, 120,
];

/// The call isn't served here.
pub const NOT_SERVED: i32 = -455;

/// The user or the fields can't be read.
const BAD_FIELDS: i32 = -453;

/// Servers and administrators are served, and no other node.
pub fn is_served(node: &Node) -> bool
    ensures { result ≡ is_vol_caller node.now }
{
    match *node {
        Node::Server(_) | Node::Admin(_) => true,
        Node::Loc | Node::Client(_) => false,
    }
}

/// Whether a call of this opcode is served.
fn serves(opcode: u32) -> bool
    ensures { result ≡ is_volume_call opcode }
{
    CALLS.iter().any(|served| opcode == *served)
}

/// The code for a call whose user or fields can't be read.
pub fn code_of_unreadable(opcode: u32) -> i32
    ensures { result ≡ (if is_volume_call opcode then bad_fields else not_served) }
{
    if serves(opcode) {
        BAD_FIELDS
    } else {
        NOT_SERVED
    }
}

/// A code of the volume server's own, as a refusal tells it.
fn told(code: u32) -> Answer
    requires { code < 2 ^ 31 }
    ensures { result ≡ answers.Refused (pos code) }
{
    Answer::Refused(code as i32)
}

/// The call is refused, and the transactions stay.
pub fn refused(code: i32) -> Decided
    ensures { result ≡ decided.Answers (answers.Refused code) afters.Stays }
{
    Decided::Answers(Answer::Refused(code), After::Stays)
}

/// What a refusal does to the transactions for want of room: a piece is forgotten with those before it.
fn when_full(alloc: Global, after: After) -> After
    ensures { after_of result ≡ when_full (after_of after) }
{
    match after {
        After::Gives { number, .. } => After::Gives {
            number,
            given: Octets::new(alloc),
        },
        _ => After::Stays,
    }
}

/// What is written with this answer, under this stamp. `live` are the transactions before it.
fn saved(
    family: u32,
    stamp: u32,
    live: Transactions,
    answer: Answer,
    body: RecordBody,
    withdraws: Option<u32>,
    after: After,
    made: Option<Volume>,
) -> Mem<Decided>
    ensures { IfOk result (λ x. x ≡ decided.Saves (saving_of live family stamp answer body withdraws after made)) }
{
    let mut transactions = live;
    transactions.change(after)?;
    Ok(Decided::Saves(Saving {
        answer,
        body,
        family,
        stamp,
        withdraws,
        transactions,
        made,
    }))
}

/// What is written of an accepted call under the stored stamp, or answered where nothing is.
fn planned(alloc: Global, ts: &Transactions, plan: Plan) -> Mem<Decided>
    ensures { IfOk result (λ x. x ≡ same_planned ts.now plan plan.body) }
{
    let (reply, body, withdraws, after, made) = plan.into_parts();
    let Some(body) = body else {
        return Ok(Decided::Answers(Answer::Told(reply), after));
    };
    let live = ts.copy(alloc)?;
    saved(
        0,
        0,
        live,
        Answer::Told(reply),
        body,
        withdraws,
        after,
        made,
    )
}

/// What is decided under the stored stamp.
pub fn same(alloc: Global, ts: &Transactions, verdict: Verdict) -> Mem<Decided>
    requires { IsCoded verdict }
    ensures { IfOk result (λ x. x ≡ same_decided ts.now verdict) }
{
    match verdict {
        Verdict::Refused(code, after) => Ok(Decided::Answers(told(code), after)),
        Verdict::Accepted(plan) => planned(alloc, ts, plan),
        Verdict::Sends(dispatch) => Ok(Decided::Dispatches(dispatch)),
    }
}

/// What is written of an accepted call under a higher stamp: the stamp alone, where the call writes nothing else.
fn planned_raised(family: u32, stamp: u32, live: Transactions, plan: Plan) -> Mem<Decided>
    ensures { IfOk result (λ x. x ≡ raised_decided family stamp live (verdicts.Accepted plan)) }
{
    let (reply, body, withdraws, after, made) = plan.into_parts();
    let body = body.unwrap_or(RecordBody::Stamp);
    saved(
        family,
        stamp,
        live,
        Answer::Told(reply),
        body,
        withdraws,
        after,
        made,
    )
}

/// What is decided under a higher stamp, which ends the family's transactions: `live` are the others.
pub fn raised(family: u32, stamp: u32, live: Transactions, verdict: Verdict) -> Mem<Decided>
    requires { IsCoded verdict }
    ensures { IfOk result (λ x. x ≡ raised_decided family stamp live verdict) }
{
    match verdict {
        Verdict::Refused(code, after) => saved(
            family,
            stamp,
            live,
            told(code),
            RecordBody::Stamp,
            None,
            after,
            None,
        ),
        Verdict::Accepted(plan) => planned_raised(family, stamp, live, plan),
        Verdict::Sends(dispatch) => Ok(Decided::Dispatches(dispatch)),
    }
}

/// What is answered where there is no room for the record of what this verdict says.
pub fn full(alloc: Global, verdict: Verdict) -> (Answer, After)
    requires { IsCoded verdict }
    ensures { IsFullAnswer verdict result }
{
    match verdict {
        Verdict::Refused(code, after) => (told(code), after),
        Verdict::Accepted(plan) => {
            let (_, _, _, after, _) = plan.into_parts();
            (told(NO_MORE), when_full(alloc, after))
        }
        Verdict::Sends(_) => (told(NO_MORE), After::Stays),
    }
}
