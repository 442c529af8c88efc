//! A script is made for a number.

ghost use Rattle.std.specs.Prelude.{◌≡◌, ◌+◌, ◌<◌, ◌≤◌, [], ◌∷◌, ◌++◌, flat_map, IfOk, OnOk};
ghost use Rattle.afs_generate.specs.Generated.{act_drawn, act_drawn_at, acts_of, admin_act_behind, drawn, file_at, file_name, generated, made_file_line, lines_from, lot_behind, doer_of, played, tasks_at, volume, volume_name, made_volumes};

use afs_num::sequences::{Octets, Sequence};
use afs_num::types::{Mem, Node};
use spec_history::acts::{Act, Operand, Path, Written};
use spec_history::scripts::{
    AdminAct, Event, Events, Script, SetupLine, SetupLines, Task, Tasks, VolumeLine, VolumeLines,
};
use std::alloc::Global;

// ---- draws

/// The state of the lot behind this one.
#[tactic(auto, unfolding(crate::specs::Generated::lot_behind))]
fn next(x: u32) -> u32
    ensures { result ≡ lot_behind x }
{
    ((1_103_515_245 * x as u64 + 12_345) % 2_147_483_648) as u32
}

/// A number below another one, drawn in this state.
#[tactic(auto, unfolding(crate::specs::Generated::drawn))]
fn drawn(below: u32, x: u32) -> u32
    requires { 0 < below }
    ensures value { result ≡ drawn below x }
    ensures small { result < below }
{
    (x / 65_536) % below
}

// ---- what acts are on

fn volume_name(alloc: Global, volume: u32) -> Mem<Octets>
    ensures { IfOk result (λ name. name ≡ volume_name volume) }
{
    let name = format!(in alloc; "v{volume}")?;
    Octets::from_slice(alloc, name.as_bytes())
}

fn file_name(alloc: Global, file: u32) -> Mem<Octets>
    ensures { IfOk result (λ name. name ≡ file_name file) }
{
    let name = format!(in alloc; "f{file}")?;
    Octets::from_slice(alloc, name.as_bytes())
}

/// The names of a file's path: it lies in the root of its volume.
fn names(alloc: Global, file: u32) -> Mem<Sequence<Octets>>
    ensures { IfOk result (λ names. names ≡ file_name file ∷ []) }
{
    let mut names = Sequence::new(alloc);
    names.push(file_name(alloc, file)?)?;
    Ok(names)
}

fn file_at(alloc: Global, file: u32) -> Mem<Operand>
    ensures { IfOk result (λ o. o ≡ file_at file) }
{
    let volume = volume_name(alloc, file % 3)?;
    Ok(Operand::Path(Path {
        volume,
        names: names(alloc, file)?,
    }))
}

// ---- one act

/// An act, and the state of the lot behind it.
#[derive(Drop)]
struct Picked {
    act: Act,
    state: u32,
}

/// A file is opened, or stored with bytes of a length that is drawn.
fn act_drawn(alloc: Global, k: u32, file: u32, stored: u32, x: u32) -> Mem<Picked>
    ensures { IfOk result (λ d. d ≡ act_drawn k file stored x) }
{
    let operand = file_at(alloc, file)?;
    if stored == 0 {
        return Ok(Picked {
            act: Act::Open { operand },
            state: x,
        });
    }
    let length = next(x);
    Ok(Picked {
        act: Act::Close {
            operand,
            contents: Written::Fill {
                count: drawn(4096, length),
                byte: (k % 256) as u8,
            },
        },
        state: length,
    })
}

/// Act k, and the state behind it: which client, which file, and whether it is stored, are drawn one after the other.
fn act_of(alloc: Global, k: u32, x: u32) -> Mem<(Task, u32)>
    ensures { IfOk result (λ t. t ≡ act_drawn_at k x) }
{
    let client = next(x);
    let file = next(client);
    let stored = next(file);
    let Picked { act, state } = act_drawn(alloc, k, drawn(40, file), drawn(2, stored), stored)?;
    let client = 1 + drawn(6, client) as u8;
    Ok((Task::Client { client, act }, state))
}

// ---- all acts

/// What the administrator does behind act k.
fn behind(alloc: Global, n: u32, k: u32) -> Mem<Option<AdminAct>>
    requires { n ≤ 1000 }
    ensures { IfOk result (λ o. o ≡ admin_act_behind n k) }
{
    if k == 2 * n {
        let name = volume_name(alloc, 1)?;
        return Ok(Some(AdminAct::AddSite { name, server: 3 }));
    }
    if k == 3 * n {
        let name = volume_name(alloc, 1)?;
        return Ok(Some(AdminAct::Release { name }));
    }
    if k == 5 * n {
        let name = volume_name(alloc, 0)?;
        return Ok(Some(AdminAct::Move { name, server: 2 }));
    }
    if k == 8 * n {
        let name = volume_name(alloc, 2)?;
        return Ok(Some(AdminAct::Move { name, server: 1 }));
    }
    Ok(None)
}

/// Act k, and what the administrator does behind it, are put behind the others. What is given is the state of the lot behind it.
fn put_act(alloc: Global, n: u32, k: u32, x: u32, tasks: &mut Tasks) -> Mem<u32>
    requires { n ≤ 1000 }
    ensures tasks { OnOk result (tasks.new ≡ tasks.old ++ tasks_at (act_drawn_at k x).0 (admin_act_behind n k)) }
    ensures state { IfOk result (λ y. y ≡ (act_drawn_at k x).1) }
{
    let (task, state) = act_of(alloc, k, x)?;
    let behind = behind(alloc, n, k)?;
    tasks.push(task)?;
    if let Some(act) = behind {
        tasks.push(Task::Admin { admin: 1, act })?;
    }
    Ok(state)
}

/// All acts, in their order.
fn acts_of(alloc: Global, n: u32) -> Mem<Tasks>
    requires { n ≤ 1000 }
    ensures { IfOk result (λ ts. ts ≡ acts_of n) }
{
    let mut tasks = Sequence::new(alloc);
    let mut x = n;
    let mut k = 1;
    let mut left = 10 * n;
    while 0 < left {
        x = put_act(alloc, n, k, x, &mut tasks)?;
        k += 1;
        left -= 1;
    }
    Ok(tasks)
}

// ---- the schedule

fn node_of(task: &Task) -> Node
    ensures { result ≡ doer_of task.now }
{
    match task {
        Task::Client { client, act: _ } => Node::Client(*client),
        Task::Admin { admin, act: _ } => Node::Admin(*admin),
    }
}

/// An act is begun, and then all messages are given.
fn put_played(events: &mut Events, task: &Task) -> Mem<()>
    ensures { OnOk result (events.new ≡ events.old ++ played task.now) }
{
    events.push(Event::Act {
        node: node_of(task),
    })?;
    events.push(Event::Drain)
}

/// So it is with each act.
fn schedule(alloc: Global, tasks: &[Task]) -> Mem<Events>
    ensures { IfOk result (λ es. es ≡ flat_map played tasks.now) }
{
    let mut events = Sequence::new(alloc);
    for task in tasks {
        put_played(&mut events, task)?;
    }
    Ok(events)
}

// ---- the volumes

/// File J has J bytes.
fn line_of(alloc: Global, file: u32) -> Mem<SetupLine>
    ensures { IfOk result (λ l. l ≡ made_file_line file) }
{
    Ok(SetupLine::File {
        path: names(alloc, file)?,
        contents: Written::Fill {
            count: file,
            byte: b'a',
        },
    })
}

/// So many files, every third one from this one on.
fn lines_from(alloc: Global, files: u32, first: u32) -> Mem<SetupLines>
    requires { files + first ≤ 100 }
    ensures { IfOk result (λ ls. ls ≡ lines_from files first) }
{
    let mut lines = Sequence::new(alloc);
    let mut left = files;
    let mut file = first;
    while 0 < left {
        lines.push(line_of(alloc, file)?)?;
        file += 3;
        left -= 1;
    }
    Ok(lines)
}

/// The volume of this number, with so many files.
fn volume(alloc: Global, number: u8, files: u32) -> Mem<VolumeLine>
    requires number { number ≤ 2 }
    requires files { files ≤ 14 }
    ensures { IfOk result (λ v. v ≡ volume number files) }
{
    let name = volume_name(alloc, number as u32)?;
    let lines = lines_from(alloc, files, number as u32)?;
    Ok(VolumeLine {
        id: 536_870_912 + number as u32,
        name,
        server: number + 1,
        quota: 10_000,
        lines,
    })
}

fn volumes(alloc: Global) -> Mem<Sequence<VolumeLine>>
    ensures { IfOk result (λ vs. vs ≡ made_volumes) }
{
    let mut volumes = Sequence::new(alloc);
    volumes.push(volume(alloc, 0, 14)?)?;
    volumes.push(volume(alloc, 1, 13)?)?;
    volumes.push(volume(alloc, 2, 13)?)?;
    Ok(volumes)
}

// ---- the script

/// The script that is made for a number: what it takes grows as the number does.
pub fn generate(alloc: Global, n: u32) -> Mem<Script>
    requires { n ≤ 1000 }
    ensures { IfOk result (λ s. s ≡ generated n) }
{
    let tasks = acts_of(alloc, n)?;
    let events = schedule(alloc, tasks.as_slice())?;
    let volumes = volumes(alloc)?;
    Ok(Script {
        servers: 3,
        clients: 6,
        admins: 1,
        cache: 64,
        capacity: 268_435_456,
        users: Sequence::new(alloc),
        volumes,
        tasks,
        plans: Sequence::new(alloc),
        schedule: Some(events),
    })
}
