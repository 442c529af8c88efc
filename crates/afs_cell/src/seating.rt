//! The location database and the servers of a cell at set-up.

ghost use Rattle.std.specs.Prelude.{◌≡◌, ◌≤◌, ◌<◌, ◌+◌, ◌^◌, ◌++◌, ◌∷◌, [], length, IfErr, IfOk};
ghost use Rattle.std.specs.Vec.{vec_capacity};
ghost use Rattle.afs_grammar.specs.CellScripts.{IsCellScript};
ghost use Rattle.afs_host.specs.declared.seats.Seat.TheVariants.{Up};
ghost use Rattle.afs_cell.specs.Ends.{AreAllLeft, AreLeft, IsRefused};
ghost use Rattle.afs_cell.specs.FirstSeats.{AreFirstHosts, AreFirstSeats, IsFirstServer, IsFirstStore, IsRefusedAt};
ghost use Rattle.afs_cell.specs.Refusing.{refused_as, HaveRoom};
ghost use Rattle.afs_lending.specs.Lending.{AreLent};

use crate::disks::{give, give_back, give_rest};
use crate::faults::SetupFault;
use crate::founding::database_at_first;
use afs_clients::setup::lines_at;
use afs_disk::{Disk, Disks, Fuse, Lent};
use afs_host::{DatabaseRunning, Seat};
use afs_node::ServerNode;
use afs_num::faults::StoreFault;
use afs_num::types::{Mem, Node};
use afs_serverhost::server::over;
use afs_serverhost::{ServerRunning, ServerSeat};
use afs_setup::create;
use afs_volstore::VolStore;
use law_legal::laws::set_ups_are_first;
use law_scripts::laws::{numbers_ascend, set_ups_are_accepted};
use spec_history::scripts::Script;
use std::alloc::{AllocError, Global};

// ---- one server

/// Why a node's disk couldn't be set up. That it has no room can't be, by the script.
pub fn refusal(fault: StoreFault, node: Node) -> SetupFault
    ensures { result ≡ refused_as fault node }
{
    match fault {
        StoreFault::OutOfMemory => SetupFault::OutOfMemory,
        _ => SetupFault::Disk(node),
    }
}

/// A server's store at set-up, over a disk that is cut to nothing. A refusal hands the disk back.
fn store_at_first<D: Disk>(
    alloc: Global,
    script: &Script,
    server: u8,
    disk: D,
) -> Result<VolStore<Fuse<D>>, (SetupFault, D)>
    requires script { IsCellScript script.now }
    requires capacity { D.limit disk ≡ script.now.capacity }
    ensures ok { IfOk result (IsFirstStore D.seen D.may_leave D.faults D.limit script.now server disk) }
    ensures err { IfErr result (IsRefusedAt D.seen D.may_leave D.faults D.limit script.now server disk) }
{
    set_ups_are_accepted();
    numbers_ascend();
    set_ups_are_first();
    let Ok(lines) = lines_at(alloc, script, server) else {
        return Err((SetupFault::OutOfMemory, disk));
    };
    let node = Node::Server(server);
    match create(alloc, Fuse::new(disk), node, lines.as_slice()) {
        Ok(store) => Ok(store),
        Err((fault, fuse)) => Err((refusal(fault, node), fuse.into_inner())),
    }
}

/// A server at set-up, over a disk that is cut to nothing. A refusal hands the disk back.
fn server_at_first<D: Disk>(
    alloc: Global,
    script: &Script,
    server: u8,
    disk: D,
) -> Result<ServerRunning<D>, (SetupFault, D)>
    requires script { IsCellScript script.now }
    requires server { (1 ≤ server) × (server ≤ script.now.servers) }
    requires capacity { D.limit disk ≡ script.now.capacity }
    ensures ok { IfOk result (IsFirstServer D.seen D.may_leave D.faults D.limit script.now server disk) }
    ensures err { IfErr result (IsRefusedAt D.seen D.may_leave D.faults D.limit script.now server disk) }
{
    let store = store_at_first(alloc, script, server, disk)?;
    match ServerNode::new(alloc, &store, script.clients) {
        Ok(memory) => Ok(over(memory, store)),
        Err(_) => Err((SetupFault::OutOfMemory, store.into_disk().into_inner())),
    }
}

// ---- all servers

/// Room for the seats of a cell's servers, and for their disks and the location database's to go back.
pub struct Rooms<D: Disk> {
    pub seats: Vec<ServerSeat<D>>,
    pub back: Vec<Lent<D>>,
}

impl<D: Disk> Rooms<D> {
    /// Such room for so many.
    pub fn with_room(alloc: Global, servers: usize) -> Mem<Rooms<D>>
        requires few { servers < 2 ^ 8 }
        ensures { IfOk result (HaveRoom servers) }
    {
        let Ok(seats) = Vec::with_capacity(alloc, servers) else {
            return Err(AllocError);
        };
        match Vec::with_capacity(alloc, servers + 1) {
            Ok(back) => Ok(Rooms { seats, back }),
            Err(refused) => {
                // No server sits there yet.
                seats.destroy_empty();
                Err(refused)
            }
        }
    }
}

/// A server takes its seat, for which there is room.
fn sit<D: Disk>(seats: &mut Vec<ServerSeat<D>>, running: ServerRunning<D>)
    requires room { length seats.old.items < vec_capacity seats.old }
    ensures items { seats.new.items ≡ seats.old.items ++ Up running ∷ [] }
    ensures room { vec_capacity seats.old ≤ vec_capacity seats.new }
{
    match seats.push(Seat::Up(running)) {
        Ok(()) => {}
        Err(_) => unreachable!(),
    }
}

/// The servers at set-up, in order of number, over these disks. A refusal hands all disks back, in order.
fn servers_at_first<D: Disk + Drop>(
    alloc: Global,
    script: &Script,
    disks: Vec<Lent<D>>,
    rooms: Rooms<D>,
) -> Result<Rooms<D>, (SetupFault, Vec<Lent<D>>)>
    requires script { IsCellScript script.now }
    requires disks { AreLent D.limit script.now.capacity 1 disks.items }
    requires all { length disks.items ≡ script.now.servers }
    requires room { HaveRoom script.now.servers rooms }
    ensures seats { IfOk result (λ r. AreFirstSeats D.seen D.may_leave D.faults D.limit script.now 1 disks.items r.seats.items []) }
    ensures room { IfOk result (λ r. (r.back.items ≡ []) × (script.now.servers + 1 ≤ vec_capacity r.back)) }
    ensures back { IfErr result (λ e. AreLent D.limit script.now.capacity 1 e.1.items × (length e.1.items ≡ script.now.servers)) }
    ensures cause { IfErr result (λ e. IsRefused D.faults 1 disks.items (e.0, e.1.items)) }
    ensures left { IfErr result (λ e. AreLeft D.seen D.may_leave script.now 1 disks.items e.1.items) }
    ensures room_back { IfErr result (λ e. script.now.servers + 1 ≤ vec_capacity e.1) }
{
    let Rooms {
        mut seats,
        mut back,
    } = rooms;
    let mut disks = disks.into_iter();
    while let Some(lent) = disks.next() {
        let Lent { node, disk } = lent;
        match server_at_first(alloc, script, node, disk) {
            Ok(running) => sit(&mut seats, running),
            Err((fault, disk)) => {
                give_back(seats, &mut back);
                give(&mut back, node, disk);
                give_rest(disks, &mut back);
                return Err((fault, back));
            }
        }
    }
    Ok(Rooms { seats, back })
}

// ---- the database and all servers

/// The first of these disks.
fn take_first<D: Disk>(disks: &mut Vec<Lent<D>>) -> Lent<D>
    requires some { 1 ≤ length disks.old.items }
    ensures items { disks.old.items ≡ result ∷ disks.new.items }
    ensures room { length disks.new.items < vec_capacity disks.new }
{
    disks.remove(0)
}

/// A disk before these, for which there is room.
fn put_first<D: Disk>(disks: &mut Vec<Lent<D>>, node: u8, disk: D)
    requires room { length disks.old.items < vec_capacity disks.old }
    ensures { disks.new.items ≡ record { node = node; disk = disk } ∷ disks.old.items }
{
    match disks.insert(0, Lent { node, disk }) {
        Ok(()) => {}
        Err(_) => unreachable!(),
    }
}

/// The location database and the servers at set-up, over these disks, in order of number. A refusal hands all disks back, in order.
pub fn hosts_at_first<D: Disk + Drop>(
    alloc: Global,
    script: &Script,
    disks: Disks<D>,
    rooms: Rooms<D>,
) -> Result<(DatabaseRunning<D>, Rooms<D>), (SetupFault, Disks<D>)>
    requires script { IsCellScript script.now }
    requires disks { AreLent D.limit script.now.capacity 0 disks }
    requires all { length disks ≡ script.now.servers + 1 }
    requires room { HaveRoom script.now.servers rooms }
    ensures hosts { IfOk result (λ r. AreFirstHosts D.seen D.may_leave D.faults D.limit script.now disks r.0 r.1.seats.items) }
    ensures room { IfOk result (λ r. (r.1.back.items ≡ []) × (script.now.servers + 1 ≤ vec_capacity r.1.back)) }
    ensures back { IfErr result (λ e. AreLent D.limit script.now.capacity 0 e.1 × (length e.1 ≡ script.now.servers + 1)) }
    ensures cause { IfErr result (λ e. IsRefused D.faults 0 disks e) }
    ensures left { IfErr result (λ e. AreAllLeft D.seen D.may_leave script.now disks e.1) }
{
    let mut disks = disks.into_vec();
    let Lent { node, disk } = take_first(&mut disks);
    let database = match database_at_first(alloc, script, disk) {
        Ok(database) => database,
        Err((fault, disk)) => {
            put_first(&mut disks, node, disk);
            let Rooms { seats, back } = rooms;
            seats.destroy_empty();
            back.destroy_empty();
            return Err((fault, Disks::from_vec(disks)));
        }
    };
    match servers_at_first(alloc, script, disks, rooms) {
        Ok(rooms) => Ok((database, rooms)),
        Err((fault, mut back)) => {
            put_first(&mut back, node, database.into_disk());
            Err((fault, Disks::from_vec(back)))
        }
    }
}
