//! The lines of a history, but for the one with which an act begins.

ghost use Rattle.afs_text.specs.Laying.{Lays};
ghost use Rattle.afs_text.specs.RunText.{dumped_text, older_text, stuck_text};
ghost use Rattle.spec_model.specs.LineText.{answer_text, change_text, crash_text, drop_all_text, drop_text, enable_text, fail_text, fault_text, fence_text, full_text, given_text, grant_text, located_text, locked_text, made_text, owe_text, quit_text, read_text, recovered_text, released_text, restart_text, settle_text, stop_text, tick_text, timeout_text, unlocked_text, vanish_text, version_text};

use crate::bodies::{Owed, lay_body, lay_read_body};
use crate::bytes::Name;
use crate::laying::{TextPiece, lay_short};
use crate::pieces::lay_long;
use afs_num::histories::{ReadBody, ReadSource, Version};
use afs_num::sequences::Octets;
use afs_num::types::{Code, Fid, Key, Node};
use afs_outside::outside::{Failed, Sink};

// ---- versions, reads and answers

#[tactic(auto, unfolding(spec_model::specs::LineText::change_text))]
pub fn lay_change<K: Sink>(
    sink: &mut K,
    piece: &mut TextPiece,
    server: Node,
    key: Key,
    count: u32,
) -> Result<(), Failed>
    ensures { Lays (change_text server key count) piece.old piece.new (K.held sink.old) (K.held sink.new) (K.faults sink.old) (K.faults sink.new) result }
{
    lay_short(
        sink,
        piece,
        &row!("change ", server, " ", key, " ", count, "\n"),
    )
}

#[tactic(auto, unfolding(spec_model::specs::LineText::version_text))]
pub fn lay_version<K: Sink>(
    sink: &mut K,
    piece: &mut TextPiece,
    version: &Version,
) -> Result<(), Failed>
    ensures { Lays (version_text version.now) piece.old piece.new (K.held sink.old) (K.held sink.new) (K.faults sink.old) (K.faults sink.new) result }
{
    lay_short(
        sink,
        piece,
        &row!(
            "version ",
            version.fid,
            " ",
            version.index,
            " ",
            version.data_version,
            " "
        ),
    )?;
    lay_body(sink, piece, &version.body)?;
    lay_short(sink, piece, &"\n")
}

#[tactic(auto, unfolding(spec_model::specs::LineText::read_text))]
pub fn lay_read<K: Sink>(
    sink: &mut K,
    piece: &mut TextPiece,
    client: Node,
    fid: Fid,
    index: u32,
    source: ReadSource,
    body: &ReadBody,
) -> Result<(), Failed>
    ensures { Lays (read_text client fid index source body.now) piece.old piece.new (K.held sink.old) (K.held sink.new) (K.faults sink.old) (K.faults sink.new) result }
{
    lay_short(
        sink,
        piece,
        &row!("read ", client, " ", fid, " ", index, " ", source, " "),
    )?;
    lay_read_body(sink, piece, body)?;
    lay_short(sink, piece, &"\n")
}

#[tactic(auto, unfolding(spec_model::specs::LineText::answer_text))]
pub fn lay_answer<K: Sink>(
    sink: &mut K,
    piece: &mut TextPiece,
    node: Node,
    code: Code,
) -> Result<(), Failed>
    ensures { Lays (answer_text node code) piece.old piece.new (K.held sink.old) (K.held sink.new) (K.faults sink.old) (K.faults sink.new) result }
{
    lay_short(sink, piece, &row!("answer ", node, " ", code, "\n"))
}

#[tactic(auto, unfolding(crate::specs::RunText::older_text))]
pub fn lay_older<K: Sink>(
    sink: &mut K,
    piece: &mut TextPiece,
    node: Node,
    offered: u32,
    seen: u32,
) -> Result<(), Failed>
    ensures { Lays (older_text node offered seen) piece.old piece.new (K.held sink.old) (K.held sink.new) (K.faults sink.old) (K.faults sink.new) result }
{
    lay_short(
        sink,
        piece,
        &row!("answer ", node, " 105 ", offered, " ", seen, "\n"),
    )
}

#[tactic(auto, unfolding(crate::specs::RunText::stuck_text))]
pub fn lay_stuck<K: Sink>(
    sink: &mut K,
    piece: &mut TextPiece,
    node: Node,
    code: Code,
) -> Result<(), Failed>
    ensures { Lays (stuck_text node code) piece.old piece.new (K.held sink.old) (K.held sink.new) (K.faults sink.old) (K.faults sink.new) result }
{
    lay_short(sink, piece, &row!("answer ", node, " ", code, " stuck\n"))
}

#[tactic(auto, unfolding(crate::specs::RunText::dumped_text))]
pub fn lay_dumped<K: Sink>(
    sink: &mut K,
    piece: &mut TextPiece,
    node: Node,
    label: &Octets,
    size: u32,
) -> Result<(), Failed>
    ensures { Lays (dumped_text node label.now size) piece.old piece.new (K.held sink.old) (K.held sink.new) (K.faults sink.old) (K.faults sink.new) result }
{
    lay_short(sink, piece, &row!("dumped ", node, " "))?;
    lay_long(sink, piece, &Name(label.as_slice()))?;
    lay_short(sink, piece, &row!(" ", size, "\n"))
}

#[tactic(auto, unfolding(spec_model::specs::LineText::given_text))]
pub fn lay_given<K: Sink>(sink: &mut K, piece: &mut TextPiece, place: u64) -> Result<(), Failed>
    ensures { Lays (given_text place) piece.old piece.new (K.held sink.old) (K.held sink.new) (K.faults sink.old) (K.faults sink.new) result }
{
    lay_short(sink, piece, &row!("given ", place, "\n"))
}

// ---- promises and breaks

#[tactic(auto, unfolding(spec_model::specs::LineText::grant_text))]
pub fn lay_grant<K: Sink>(
    sink: &mut K,
    piece: &mut TextPiece,
    server: Node,
    client: Node,
    fid: Fid,
    index: u32,
    expiry: u32,
) -> Result<(), Failed>
    ensures { Lays (grant_text server client fid index expiry) piece.old piece.new (K.held sink.old) (K.held sink.new) (K.faults sink.old) (K.faults sink.new) result }
{
    lay_short(
        sink,
        piece,
        &row!(
            "grant ", server, " ", client, " ", fid, " ", index, " ", expiry, "\n"
        ),
    )
}

#[tactic(auto, unfolding(spec_model::specs::LineText::owe_text))]
pub fn lay_owe<K: Sink>(
    sink: &mut K,
    piece: &mut TextPiece,
    server: Node,
    client: Node,
    fid: Option<Fid>,
    number: u32,
) -> Result<(), Failed>
    ensures { Lays (owe_text server client fid number) piece.old piece.new (K.held sink.old) (K.held sink.new) (K.faults sink.old) (K.faults sink.new) result }
{
    lay_short(
        sink,
        piece,
        &row!(
            "owe ",
            server,
            " ",
            client,
            " ",
            Owed(fid),
            " ",
            number,
            "\n"
        ),
    )
}

#[tactic(auto, unfolding(spec_model::specs::LineText::settle_text))]
pub fn lay_settle<K: Sink>(
    sink: &mut K,
    piece: &mut TextPiece,
    server: Node,
    client: Node,
    number: u32,
) -> Result<(), Failed>
    ensures { Lays (settle_text server client number) piece.old piece.new (K.held sink.old) (K.held sink.new) (K.faults sink.old) (K.faults sink.new) result }
{
    lay_short(
        sink,
        piece,
        &row!("settle ", server, " ", client, " ", number, "\n"),
    )
}

#[tactic(auto, unfolding(spec_model::specs::LineText::quit_text))]
pub fn lay_quit<K: Sink>(
    sink: &mut K,
    piece: &mut TextPiece,
    server: Node,
    client: Node,
    number: u32,
) -> Result<(), Failed>
    ensures { Lays (quit_text server client number) piece.old piece.new (K.held sink.old) (K.held sink.new) (K.faults sink.old) (K.faults sink.new) result }
{
    lay_short(
        sink,
        piece,
        &row!("quit ", server, " ", client, " ", number, "\n"),
    )
}

#[tactic(auto, unfolding(spec_model::specs::LineText::drop_text))]
pub fn lay_drop<K: Sink>(
    sink: &mut K,
    piece: &mut TextPiece,
    client: Node,
    fid: Fid,
) -> Result<(), Failed>
    ensures { Lays (drop_text client fid) piece.old piece.new (K.held sink.old) (K.held sink.new) (K.faults sink.old) (K.faults sink.new) result }
{
    lay_short(sink, piece, &row!("drop ", client, " ", fid, "\n"))
}

#[tactic(auto, unfolding(spec_model::specs::LineText::drop_all_text))]
pub fn lay_drop_all<K: Sink>(
    sink: &mut K,
    piece: &mut TextPiece,
    client: Node,
    server: Node,
) -> Result<(), Failed>
    ensures { Lays (drop_all_text client server) piece.old piece.new (K.held sink.old) (K.held sink.new) (K.faults sink.old) (K.faults sink.new) result }
{
    lay_short(sink, piece, &row!("drop ", client, " all ", server, "\n"))
}

// ---- crashes and disks

#[tactic(auto, unfolding(spec_model::specs::LineText::crash_text))]
pub fn lay_crash<K: Sink>(sink: &mut K, piece: &mut TextPiece, node: Node) -> Result<(), Failed>
    ensures { Lays (crash_text node) piece.old piece.new (K.held sink.old) (K.held sink.new) (K.faults sink.old) (K.faults sink.new) result }
{
    lay_short(sink, piece, &row!("crash ", node, "\n"))
}

#[tactic(auto, unfolding(spec_model::specs::LineText::fault_text))]
pub fn lay_fault<K: Sink>(sink: &mut K, piece: &mut TextPiece, node: Node) -> Result<(), Failed>
    ensures { Lays (fault_text node) piece.old piece.new (K.held sink.old) (K.held sink.new) (K.faults sink.old) (K.faults sink.new) result }
{
    lay_short(sink, piece, &row!("fault ", node, "\n"))
}

#[tactic(auto, unfolding(spec_model::specs::LineText::full_text))]
pub fn lay_full<K: Sink>(sink: &mut K, piece: &mut TextPiece, node: Node) -> Result<(), Failed>
    ensures { Lays (full_text node) piece.old piece.new (K.held sink.old) (K.held sink.new) (K.faults sink.old) (K.faults sink.new) result }
{
    lay_short(sink, piece, &row!("full ", node, "\n"))
}

#[tactic(auto, unfolding(spec_model::specs::LineText::restart_text))]
pub fn lay_restart<K: Sink>(
    sink: &mut K,
    piece: &mut TextPiece,
    node: Node,
    boot: u32,
) -> Result<(), Failed>
    ensures { Lays (restart_text node boot) piece.old piece.new (K.held sink.old) (K.held sink.new) (K.faults sink.old) (K.faults sink.new) result }
{
    lay_short(sink, piece, &row!("restart ", node, " ", boot, "\n"))
}

#[tactic(auto, unfolding(spec_model::specs::LineText::stop_text))]
pub fn lay_stop<K: Sink>(
    sink: &mut K,
    piece: &mut TextPiece,
    node: Node,
    calls: u32,
    pick: u8,
) -> Result<(), Failed>
    ensures { Lays (stop_text node calls pick) piece.old piece.new (K.held sink.old) (K.held sink.new) (K.faults sink.old) (K.faults sink.new) result }
{
    lay_short(
        sink,
        piece,
        &row!("stop ", node, " ", calls, " ", pick, "\n"),
    )
}

#[tactic(auto, unfolding(spec_model::specs::LineText::fail_text))]
pub fn lay_fail<K: Sink>(
    sink: &mut K,
    piece: &mut TextPiece,
    node: Node,
    calls: u32,
) -> Result<(), Failed>
    ensures { Lays (fail_text node calls) piece.old piece.new (K.held sink.old) (K.held sink.new) (K.faults sink.old) (K.faults sink.new) result }
{
    lay_short(sink, piece, &row!("fail ", node, " ", calls, "\n"))
}

// ---- volumes at a server

#[tactic(auto, unfolding(spec_model::specs::LineText::made_text))]
pub fn lay_made<K: Sink>(
    sink: &mut K,
    piece: &mut TextPiece,
    server: Node,
    volume: u32,
    count: u32,
) -> Result<(), Failed>
    ensures { Lays (made_text server volume count) piece.old piece.new (K.held sink.old) (K.held sink.new) (K.faults sink.old) (K.faults sink.new) result }
{
    lay_short(
        sink,
        piece,
        &row!("made ", server, " ", volume, " ", count, "\n"),
    )
}

#[tactic(auto, unfolding(spec_model::specs::LineText::fence_text))]
pub fn lay_fence<K: Sink>(
    sink: &mut K,
    piece: &mut TextPiece,
    volume: u32,
    server: Node,
) -> Result<(), Failed>
    ensures { Lays (fence_text volume server) piece.old piece.new (K.held sink.old) (K.held sink.new) (K.faults sink.old) (K.faults sink.new) result }
{
    lay_short(sink, piece, &row!("fence ", volume, " ", server, "\n"))
}

#[tactic(auto, unfolding(spec_model::specs::LineText::enable_text))]
pub fn lay_enable<K: Sink>(
    sink: &mut K,
    piece: &mut TextPiece,
    volume: u32,
    server: Node,
) -> Result<(), Failed>
    ensures { Lays (enable_text volume server) piece.old piece.new (K.held sink.old) (K.held sink.new) (K.faults sink.old) (K.faults sink.new) result }
{
    lay_short(sink, piece, &row!("enable ", volume, " ", server, "\n"))
}

#[tactic(auto, unfolding(spec_model::specs::LineText::vanish_text))]
pub fn lay_vanish<K: Sink>(
    sink: &mut K,
    piece: &mut TextPiece,
    volume: u32,
    server: Node,
) -> Result<(), Failed>
    ensures { Lays (vanish_text volume server) piece.old piece.new (K.held sink.old) (K.held sink.new) (K.faults sink.old) (K.faults sink.new) result }
{
    lay_short(sink, piece, &row!("vanish ", volume, " ", server, "\n"))
}

#[tactic(auto, unfolding(spec_model::specs::LineText::released_text))]
pub fn lay_released<K: Sink>(
    sink: &mut K,
    piece: &mut TextPiece,
    family: u32,
    volume: u32,
    release: u32,
    server: Node,
) -> Result<(), Failed>
    ensures { Lays (released_text family volume release server) piece.old piece.new (K.held sink.old) (K.held sink.new) (K.faults sink.old) (K.faults sink.new) result }
{
    lay_short(
        sink,
        piece,
        &row!(
            "released ",
            family,
            " ",
            volume,
            " ",
            release,
            " ",
            server,
            "\n"
        ),
    )
}

// ---- the location database

#[tactic(auto, unfolding(spec_model::specs::LineText::locked_text))]
pub fn lay_locked<K: Sink>(
    sink: &mut K,
    piece: &mut TextPiece,
    volume: u32,
    stamp: u32,
    operation: u32,
) -> Result<(), Failed>
    ensures { Lays (locked_text volume stamp operation) piece.old piece.new (K.held sink.old) (K.held sink.new) (K.faults sink.old) (K.faults sink.new) result }
{
    lay_short(
        sink,
        piece,
        &row!("locked ", volume, " ", stamp, " ", operation, "\n"),
    )
}

#[tactic(auto, unfolding(spec_model::specs::LineText::unlocked_text))]
pub fn lay_unlocked<K: Sink>(sink: &mut K, piece: &mut TextPiece, volume: u32) -> Result<(), Failed>
    ensures { Lays (unlocked_text volume) piece.old piece.new (K.held sink.old) (K.held sink.new) (K.faults sink.old) (K.faults sink.new) result }
{
    lay_short(sink, piece, &row!("unlocked ", volume, "\n"))
}

#[tactic(auto, unfolding(spec_model::specs::LineText::recovered_text))]
pub fn lay_recovered<K: Sink>(
    sink: &mut K,
    piece: &mut TextPiece,
    volume: u32,
) -> Result<(), Failed>
    ensures { Lays (recovered_text volume) piece.old piece.new (K.held sink.old) (K.held sink.new) (K.faults sink.old) (K.faults sink.new) result }
{
    lay_short(sink, piece, &row!("recovered ", volume, "\n"))
}

#[tactic(auto, unfolding(spec_model::specs::LineText::located_text))]
pub fn lay_located<K: Sink>(
    sink: &mut K,
    piece: &mut TextPiece,
    volume: u32,
    server: Node,
) -> Result<(), Failed>
    ensures { Lays (located_text volume server) piece.old piece.new (K.held sink.old) (K.held sink.new) (K.faults sink.old) (K.faults sink.new) result }
{
    lay_short(sink, piece, &row!("located ", volume, " ", server, "\n"))
}

// ---- timeouts and the clock

#[tactic(auto, unfolding(spec_model::specs::LineText::timeout_text))]
pub fn lay_timeout<K: Sink>(
    sink: &mut K,
    piece: &mut TextPiece,
    caller: Node,
    callee: Node,
    epoch: u32,
    number: u32,
    count: u32,
) -> Result<(), Failed>
    ensures { Lays (timeout_text caller callee epoch number count) piece.old piece.new (K.held sink.old) (K.held sink.new) (K.faults sink.old) (K.faults sink.new) result }
{
    lay_short(
        sink,
        piece,
        &row!(
            "timeout ", caller, " ", callee, " ", epoch, ".", number, " ", count, "\n"
        ),
    )
}

#[tactic(auto, unfolding(spec_model::specs::LineText::tick_text))]
pub fn lay_tick<K: Sink>(sink: &mut K, piece: &mut TextPiece, ticks: u32) -> Result<(), Failed>
    ensures { Lays (tick_text ticks) piece.old piece.new (K.held sink.old) (K.held sink.new) (K.faults sink.old) (K.faults sink.new) result }
{
    lay_short(sink, piece, &row!("tick ", ticks, "\n"))
}
