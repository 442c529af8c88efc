//! Acts and plans.

ghost use Rattle.std.specs.Prelude.{◌≡◌};
ghost use Rattle.spec_history.specs.declared.scripts.Plan.TheVariants as plans;
ghost use Rattle.afs_grammar.specs.declared.spellings.ActWord.TheVariants as act_words;
ghost use Rattle.afs_grammar.specs.declared.spellings.AdminWord.TheVariants as admin_words;
ghost use Rattle.afs_grammar.specs.declared.spellings.PlanWord.TheVariants as plan_words;
ghost use Rattle.afs_words.specs.Words.{server_at};
ghost use Rattle.afs_grammar.specs.Acts.{act_parts, client_act_read, dump_act_in, admin_parts, admin_act_read, task_of, plan_parts, plan_at};
ghost use Rattle.afs_words.specs.Reads.{Reads, ReadsInMemory, Gives};

use crate::spellings::{ActWord, AdminWord, PlanWord, act_spelled, admin_spelled, plan_spelled};
use afs_num::scripts::Reason;
use afs_num::sequences::Octets;
use afs_num::types::Node;
use afs_words::bytes::{CONTENTS, TEXT, mode, written};
use afs_words::faults::LineFault;
use afs_words::names::{act_path, label, operand, volume_name};
use afs_words::nodes::{ALL_NODES, Counts, node, one_of};
use afs_words::parts::Parts;
use afs_words::words::{end, number, word};
use spec_history::acts::Act;
use spec_history::scripts::{AdminAct, Plan, Task};
use std::alloc::Global;

/// The act that holds this operand alone.
macro_rules! holding {
    ($read:expr, $act:ident { $field:ident }) => {
        match $read {
            Ok($field) => Ok(Act::$act { $field }),
            Err(fault) => Err(fault),
        }
    };
}

/// The operands of a client's act.
#[tactic(auto, unfolding(crate::specs::Acts::act_parts))]
fn act_parts(alloc: Global, named: ActWord, words: &mut Parts<'_>) -> Result<Act, LineFault>
    ensures { ReadsInMemory (act_parts named) (λ a. a) words.old words.new result }
{
    match named {
        ActWord::Open => holding!(operand(alloc, words), Open { operand }),
        ActWord::List => holding!(operand(alloc, words), ListNames { operand }),
        ActWord::ReadLink => holding!(operand(alloc, words), ReadLink { operand }),
        ActWord::Stat => holding!(operand(alloc, words), Stat { operand }),
        ActWord::StatAll => holding!(operand(alloc, words), StatAll { operand }),
        ActWord::Close => close(alloc, words),
        ActWord::Make => holding!(act_path(alloc, words), Make { path }),
        ActWord::MkDir => holding!(act_path(alloc, words), MakeDirectory { path }),
        ActWord::Rm => holding!(act_path(alloc, words), Remove { path }),
        ActWord::RmDir => holding!(act_path(alloc, words), RemoveDirectory { path }),
        ActWord::Mv => rename(alloc, words),
        ActWord::Ln => link(alloc, words),
        ActWord::Symlink => symlink(alloc, words),
        ActWord::ChMod => set_mode(alloc, words),
        ActWord::SetAcl => set_access_list(alloc, words),
        ActWord::GetAcl => holding!(operand(alloc, words), GetAccessList { operand }),
        ActWord::GiveUp => Ok(Act::GiveUp),
    }
}

#[tactic(auto, unfolding(crate::specs::Acts::act_parts))]
fn close(alloc: Global, words: &mut Parts<'_>) -> Result<Act, LineFault>
    ensures { ReadsInMemory (act_parts act_words.Close) (λ a. a) words.old words.new result }
{
    let operand = operand(alloc, words)?;
    let contents = written(alloc, words, CONTENTS)?;
    Ok(Act::Close { operand, contents })
}

#[tactic(auto, unfolding(crate::specs::Acts::act_parts))]
fn rename(alloc: Global, words: &mut Parts<'_>) -> Result<Act, LineFault>
    ensures { ReadsInMemory (act_parts act_words.Mv) (λ a. a) words.old words.new result }
{
    let from = act_path(alloc, words)?;
    let to = act_path(alloc, words)?;
    Ok(Act::Move { from, to })
}

#[tactic(auto, unfolding(crate::specs::Acts::act_parts))]
fn link(alloc: Global, words: &mut Parts<'_>) -> Result<Act, LineFault>
    ensures { ReadsInMemory (act_parts act_words.Ln) (λ a. a) words.old words.new result }
{
    let target = act_path(alloc, words)?;
    let path = act_path(alloc, words)?;
    Ok(Act::Link { target, path })
}

#[tactic(auto, unfolding(crate::specs::Acts::act_parts))]
fn symlink(alloc: Global, words: &mut Parts<'_>) -> Result<Act, LineFault>
    ensures { ReadsInMemory (act_parts act_words.Symlink) (λ a. a) words.old words.new result }
{
    let path = act_path(alloc, words)?;
    let target = written(alloc, words, TEXT)?;
    Ok(Act::Symlink { path, target })
}

#[tactic(auto, unfolding(crate::specs::Acts::act_parts))]
fn set_mode(alloc: Global, words: &mut Parts<'_>) -> Result<Act, LineFault>
    ensures { ReadsInMemory (act_parts act_words.ChMod) (λ a. a) words.old words.new result }
{
    let operand = operand(alloc, words)?;
    let mode = mode(words)?;
    Ok(Act::SetMode { operand, mode })
}

#[tactic(auto, unfolding(crate::specs::Acts::act_parts))]
fn set_access_list(alloc: Global, words: &mut Parts<'_>) -> Result<Act, LineFault>
    ensures { ReadsInMemory (act_parts act_words.SetAcl) (λ a. a) words.old words.new result }
{
    let operand = operand(alloc, words)?;
    let text = written(alloc, words, TEXT)?;
    Ok(Act::SetAccessList { operand, text })
}

#[tactic(auto, unfolding(crate::specs::Acts::client_act_read))]
fn client_act(alloc: Global, words: &mut Parts<'_>) -> Result<Act, LineFault>
    ensures { Gives (client_act_read words.old) result }
{
    let named = act_spelled(word(words)?).ok_or(Reason::Word)?;
    let act = act_parts(alloc, named, words)?;
    end(words)?;
    Ok(act)
}

fn server(words: &mut Parts<'_>, counts: Counts) -> Result<u8, Reason>
    ensures value { Reads (server_at counts) (λ n. n) words.old words.new result }
{
    one_of(words, b's', counts.servers)
}

#[tactic(auto, unfolding(crate::specs::Acts::admin_parts))]
fn create(counts: Counts, name: Octets, words: &mut Parts<'_>) -> Result<AdminAct, LineFault>
    ensures { ReadsInMemory (admin_parts counts admin_words.Create name) (λ a. a) words.old words.new result }
{
    let server = server(words, counts)?;
    let quota = number(words, 1, 16_384)? as u32;
    Ok(AdminAct::Create {
        name,
        server,
        quota,
    })
}

#[tactic(auto, unfolding(crate::specs::Acts::admin_parts))]
fn restore(
    alloc: Global,
    counts: Counts,
    name: Octets,
    words: &mut Parts<'_>,
) -> Result<AdminAct, LineFault>
    ensures { ReadsInMemory (admin_parts counts admin_words.Restore name) (λ a. a) words.old words.new result }
{
    let server = server(words, counts)?;
    let label = Octets::from_slice(alloc, label(words)?)?;
    Ok(AdminAct::Restore {
        name,
        server,
        label,
    })
}

#[tactic(auto, unfolding(crate::specs::Acts::dump_act_in))]
fn dump(alloc: Global, name: Octets, words: &mut Parts<'_>) -> Result<AdminAct, LineFault>
    ensures { ReadsInMemory (dump_act_in name) (λ a. a) words.old words.new result }
{
    let label = Octets::from_slice(alloc, label(words)?)?;
    let from = number(words, 0, 4_294_967_295)? as u32;
    Ok(AdminAct::Dump { name, label, from })
}

/// The operands of an administrator's act behind the volume's name.
#[tactic(auto, unfolding(crate::specs::Acts::admin_parts))]
fn admin_parts(
    alloc: Global,
    counts: Counts,
    named: AdminWord,
    name: Octets,
    words: &mut Parts<'_>,
) -> Result<AdminAct, LineFault>
    ensures { ReadsInMemory (admin_parts counts named name) (λ a. a) words.old words.new result }
{
    match named {
        AdminWord::Create => create(counts, name, words),
        AdminWord::Restore => restore(alloc, counts, name, words),
        AdminWord::AddSite => {
            let server = server(words, counts)?;
            Ok(AdminAct::AddSite { name, server })
        }
        AdminWord::Backup => Ok(AdminAct::Backup { name }),
        AdminWord::Release => Ok(AdminAct::Release { name }),
        AdminWord::Move => {
            let server = server(words, counts)?;
            Ok(AdminAct::Move { name, server })
        }
        AdminWord::Dump => dump(alloc, name, words),
        AdminWord::Remove => Ok(AdminAct::Remove { name }),
        AdminWord::Recover => Ok(AdminAct::Recover { name }),
    }
}

#[tactic(auto, unfolding(crate::specs::Acts::admin_act_read))]
fn admin_act(alloc: Global, counts: Counts, words: &mut Parts<'_>) -> Result<AdminAct, LineFault>
    ensures { Gives (admin_act_read counts words.old) result }
{
    let named = admin_spelled(word(words)?).ok_or(Reason::Word)?;
    let name = volume_name(alloc, words)?;
    let act = admin_parts(alloc, counts, named, name, words)?;
    end(words)?;
    Ok(act)
}

/// The act of a client or of an administrator.
#[tactic(auto, unfolding(crate::specs::Acts::task_of))]
pub fn task(
    alloc: Global,
    counts: Counts,
    node: Node,
    words: &mut Parts<'_>,
) -> Result<Task, LineFault>
    ensures { Gives (task_of counts node words.old) result }
{
    match node {
        Node::Client(client) => Ok(Task::Client {
            client,
            act: client_act(alloc, words)?,
        }),
        Node::Admin(admin) => Ok(Task::Admin {
            admin,
            act: admin_act(alloc, counts, words)?,
        }),
        Node::Loc | Node::Server(_) => Err(LineFault::Bad(Reason::Node)),
    }
}

#[tactic(auto, unfolding(crate::specs::Acts::plan_parts))]
fn plan_parts(counts: Counts, named: PlanWord, words: &mut Parts<'_>) -> Result<Plan, Reason>
    ensures { Reads (plan_parts counts named) (λ p. p) words.old words.new result }
{
    match named {
        PlanWord::Lose => {
            let (from, to, nth) = message(counts, words)?;
            Ok(Plan::Lose { from, to, nth })
        }
        PlanWord::Repeat => {
            let (from, to, nth) = message(counts, words)?;
            Ok(Plan::Repeat { from, to, nth })
        }
        PlanWord::Crash => {
            let server = server(words, counts)?;
            let nth = number(words, 1, 4_294_967_295)? as u32;
            Ok(Plan::Crash { server, nth })
        }
    }
}

/// A message from the one node to the other, by its number.
#[tactic(auto, unfolding(crate::specs::Acts::plan_parts))]
fn message(counts: Counts, words: &mut Parts<'_>) -> Result<(Node, Node, u32), Reason>
    ensures lost { Reads (plan_parts counts plan_words.Lose) (λ m. plans.Lose m.0 m.1 m.2) words.old words.new result }
    ensures repeated { Reads (plan_parts counts plan_words.Repeat) (λ m. plans.Repeat m.0 m.1 m.2) words.old words.new result }
{
    let from = node(words, ALL_NODES, counts)?;
    let to = node(words, ALL_NODES, counts)?;
    let nth = number(words, 1, 4_294_967_295)? as u32;
    Ok((from, to, nth))
}

#[tactic(auto, unfolding(crate::specs::Acts::plan_at))]
pub fn plan(counts: Counts, words: &mut Parts<'_>) -> Result<Plan, Reason>
    ensures { result ≡ plan_at counts words.old }
{
    let named = plan_spelled(word(words)?).ok_or(Reason::Word)?;
    let plan = plan_parts(counts, named, words)?;
    end(words)?;
    Ok(plan)
}
