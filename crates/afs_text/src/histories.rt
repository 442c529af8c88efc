//! The history of a run whose clients take every act: its entries, each with its lines and the messages that it sent.

ghost use Rattle.std.specs.Prelude.{◌≡◌, ◌+◌, ◌<◌, ◌≤◌, ◌^◌, length};
ghost use Rattle.afs_outside.specs.Outside.{Puts};
ghost use Rattle.afs_text.specs.Laying.{Lays};
ghost use Rattle.afs_text.specs.KeptText.{kept_entries_text, kept_entry_text, kept_history_text, parcels_text};
ghost use Rattle.afs_text.specs.RunText.{lines_text};
ghost use Rattle.afs_text.specs.Telling.{sent_by};

use crate::laying::TextPiece;
use crate::printing::{lay_parcel, lay_step};
use crate::run_lines::lay_line;
use afs_num::types::Parcel;
use afs_outside::outside::{Failed, Sink, put_bytes};
use spec_history::lines::{Entry, Line};

/// Lays these lines.
#[tactic(auto, unfolding(crate::specs::RunText::lines_text))]
fn lay_lines<K: Sink>(sink: &mut K, piece: &mut TextPiece, lines: &[Line]) -> Result<(), Failed>
    ensures { Lays (lines_text lines.now) piece.old piece.new (K.held sink.old) (K.held sink.new) (K.faults sink.old) (K.faults sink.new) result }
{
    for line in lines {
        lay_line(sink, piece, line)?;
    }
    Ok(())
}

/// Lays the lines of these parcels, the first of which has this place.
fn lay_sent<K: Sink>(
    sink: &mut K,
    piece: &mut TextPiece,
    first_place: u64,
    sent: &[Parcel],
    wire: bool,
) -> Result<(), Failed>
    requires places { first_place + length sent.now ≤ 2 ^ 64 }
    ensures { Lays (parcels_text wire first_place sent.now) piece.old piece.new (K.held sink.old) (K.held sink.new) (K.faults sink.old) (K.faults sink.new) result }
{
    for (i, parcel) in sent.iter().enumerate() {
        lay_parcel(sink, piece, first_place + i as u64, parcel, wire)?;
    }
    Ok(())
}

/// Writes an entry of this number, which sent these parcels, from this place on; with the bytes of each where `wire` asks for
/// them. What the piece holds before is let go.
#[tactic(auto, unfolding(crate::specs::KeptText::kept_entry_text))]
pub fn print_entry<K: Sink>(
    sink: &mut K,
    piece: &mut TextPiece,
    entry: &Entry,
    sent: &[Parcel],
    number: u64,
    first_place: u64,
    wire: bool,
) -> Result<(), Failed>
    requires places { first_place + length sent.now ≤ 2 ^ 64 }
    ensures { Puts (kept_entry_text wire number first_place sent.now entry.now) (K.held sink.old) (K.held sink.new) (K.faults sink.old) (K.faults sink.new) result }
{
    piece.clear();
    lay_step(sink, piece, number, entry.actor)?;
    lay_lines(sink, piece, entry.lines.as_slice())?;
    lay_sent(sink, piece, first_place, sent, wire)?;
    put_bytes(sink, piece.as_slice())
}

/// Writes these entries, the first of which has this number, with these parcels, the first of which has this place. It takes no
/// memory. The piece is that in which each is laid: who writes them a few at a time makes one for all.
pub fn put_entries<K: Sink>(
    sink: &mut K,
    piece: &mut TextPiece,
    first_number: u64,
    first_place: u64,
    parcels: &[Parcel],
    entries: &[Entry],
    wire: bool,
) -> Result<(), Failed>
    requires all { sent_by entries.now ≡ length parcels.now }
    requires numbers { first_number + length entries.now < 2 ^ 64 }
    requires places { first_place + length parcels.now < 2 ^ 64 }
    ensures { Puts (kept_entries_text wire first_number first_place parcels.now entries.now) (K.held sink.old) (K.held sink.new) (K.faults sink.old) (K.faults sink.new) result }
{
    let mut place = first_place;
    let mut left = parcels;
    for (i, entry) in entries.iter().enumerate() {
        let (sent, behind) = left.split_at(entry.sent);
        print_entry(
            sink,
            piece,
            entry,
            sent,
            first_number + i as u64,
            place,
            wire,
        )?;
        place += entry.sent as u64;
        left = behind;
    }
    Ok(())
}

/// Writes the history that these entries tell with these parcels. It takes no memory.
#[tactic(auto, unfolding(crate::specs::KeptText::kept_history_text))]
pub fn put_history<K: Sink>(
    sink: &mut K,
    parcels: &[Parcel],
    history: &[Entry],
    wire: bool,
) -> Result<(), Failed>
    requires all { sent_by history.now ≡ length parcels.now }
    requires places { length parcels.now < 2 ^ 63 }
    ensures { Puts (kept_history_text wire parcels.now history.now) (K.held sink.old) (K.held sink.new) (K.faults sink.old) (K.faults sink.new) result }
{
    let mut piece = TextPiece::new();
    put_entries(sink, &mut piece, 1, 1, parcels, history, wire)
}
