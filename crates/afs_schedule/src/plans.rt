//! What a node has yet to do.

ghost use Rattle.std.specs.Prelude.{◌≡◌, drop, length, map, slice_get, IfOk};
ghost use Rattle.std.specs.Option.{option_copied};
ghost use Rattle.afs_schedule.specs.Schedules.{admin_act, client_act, doer, tasks_of};

use afs_num::types::{Mem, Node};
use spec_history::acts::Act;
use spec_history::scripts::{AdminAct, Task};
use std::alloc::Global;
use std::marker::Model;

/// What a client or an administrator has not begun, in the script's order.
#[derive(Drop)]
pub struct Plan<'a> {
    tasks: Vec<&'a Task>,
    begun: usize,
}

impl<'a> Model for Plan<'a> {
    ghost use Rattle.std.specs.Prelude.{List, ◌≤◌, drop, length, map};
    ghost use Rattle.spec_history.specs.declared.scripts.Task.{Task};

    ghost Value = { List Task };

    ghost view = { λ p. drop p.begun (map (λ t. t.now) p.tasks.items) };

    ghost invariant = { λ p. p.begun ≤ length p.tasks.items };
}

/// Who is to do it.
fn doer(task: &Task) -> Node
    ensures { result ≡ doer task.now }
{
    match task {
        Task::Client { client, .. } => Node::Client(*client),
        Task::Admin { admin, .. } => Node::Admin(*admin),
    }
}

fn nth<'a>(tasks: &[&'a Task], n: usize) -> Option<&'a Task>
    ensures { option_copied result ≡ slice_get (map (λ t. t.now) tasks.now) n }
{
    match tasks.get(n) {
        Some(task) => Some(*task),
        None => None,
    }
}

impl<'a> Plan<'a> {
    /// All tasks of this node.
    pub fn of(alloc: Global, node: Node, tasks: &'a [Task]) -> Mem<Plan<'a>>
        ensures { IfOk result (λ p. p ≡ tasks_of node tasks.entry.now) }
    {
        let mut own = Vec::new(alloc);
        for task in tasks {
            if doer(task).is(&node) {
                own.push(task)?;
            }
        }
        Ok(Plan {
            tasks: own,
            begun: 0,
        })
    }

    /// The next task; none where each has begun.
    pub fn next(&self) -> Option<&'a Task>
        ensures { option_copied result ≡ slice_get self.now 0 }
    {
        nth(&self.tasks, self.begun)
    }

    /// The act that a client begins next; none where each has begun.
    pub fn next_act(&self) -> Option<&'a Act>
        ensures { option_copied result ≡ client_act (slice_get self.now 0) }
    {
        match self.next() {
            Some(Task::Client { act, .. }) => Some(act),
            _ => None,
        }
    }

    /// The act that an administrator begins next; none where each has begun.
    pub fn next_admin_act(&self) -> Option<&'a AdminAct>
        ensures { option_copied result ≡ admin_act (slice_get self.now 0) }
    {
        match self.next() {
            Some(Task::Admin { act, .. }) => Some(act),
            _ => None,
        }
    }

    /// The next task has begun.
    pub fn advance(&mut self)
        ensures { self.new ≡ drop 1 self.old }
    {
        if self.begun < self.tasks.len() {
            self.begun += 1;
        }
    }
}
