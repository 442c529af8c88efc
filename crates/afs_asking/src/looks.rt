//! What an act reads from the cache. It goes as far as it comes without a message.

ghost use Rattle.std.specs.Prelude.{◌≡◌, OnOk, IfOk};
ghost use Rattle.std.specs.Option.{option_copied, option_map};
ghost use Rattle.spec_rows.specs.Going.{next};
ghost use Rattle.spec_rows.specs.ClientRow.{most_reads, shown_by, walked};
ghost use Rattle.afs_num.specs.declared.types.Fid.{Fid as ReadFid};
ghost use Rattle.afs_acts.specs.Acts.{FitsCalls};
ghost use Rattle.afs_acts.specs.Walks.{need_of};
ghost use Rattle.afs_entries.specs.Cached.{entry_at, HasBody, in_sight};
ghost use Rattle.afs_asking.specs.Looking.{fid_needed, found_by, HasWalked, look_of, Notes, Turns};

use afs_acts::{Going, Need, copy_body, copy_read, next};
use afs_entries::{Entry, Sight};
use afs_num::histories::{ReadBody, ReadSource};
use afs_num::types::{Fid, Mem, Node};
use spec_history::lines::{Line, Lines};
use std::alloc::Global;

/// What an act has read from the cache: it has come so far, needs this next, and these entries were used.
#[derive(Drop)]
pub struct Walked {
    pub going: Going,
    pub need: Need,
    pub used: Vec<Fid>,
}

/// What an entry shows of a need: its body, if it holds that, or its status.
fn shown(alloc: Global, need: &Need, entry: &Entry) -> Mem<Option<ReadBody>>
    ensures { (fid : ReadFid) → IfOk result (λ b. b ≡ shown_by (need_of need.now) (entry_at fid entry.now)) }
{
    match need {
        Need::Body(_) => match &entry.body {
            Some(body) => Ok(Some(ReadBody::Contents(copy_body(alloc, body)?))),
            None => Ok(None),
        },
        Need::Status(_) => Ok(Some(ReadBody::Status(entry.status))),
        _ => Ok(None),
    }
}

/// The fid whose body or status is needed.
fn fid_needed(need: &Need) -> Option<Fid>
    ensures { result ≡ fid_needed (need_of need.now) }
{
    match need {
        Need::Body(fid) | Need::Status(fid) => Some(*fid),
        _ => None,
    }
}

/// What is read for a need, where a trusted entry shows it.
#[derive(Drop)]
struct Look {
    fid: Fid,
    index: u32,
    body: ReadBody,
}

fn look_up(alloc: Global, sight: Sight<'_>, now: u32, need: &Need) -> Mem<Option<Look>>
    requires body { HasBody (option_copied sight.fresh) }
    ensures { IfOk result (λ l. option_map look_of l ≡ found_by now (in_sight sight.entry.cache.now (option_copied sight.entry.fresh)) (need_of need.now)) }
{
    let Some(fid) = fid_needed(need) else {
        return Ok(None);
    };
    let Some(entry) = sight.find(&fid) else {
        return Ok(None);
    };
    if !entry.is_trusted(now) {
        return Ok(None);
    }
    match shown(alloc, need, entry)? {
        Some(body) => Ok(Some(Look {
            fid,
            index: entry.index,
            body,
        })),
        None => Ok(None),
    }
}

impl Walked {
    /// Notes a read from the cache, and what the act needs behind it.
    fn note(&mut self, alloc: Global, node: Node, look: Look, lines: &mut Lines) -> Mem<()>
        requires { FitsCalls self.old.going.act }
        ensures { OnOk result (Notes node (look_of look) self.old self.new lines.old lines.new) }
    {
        let Look { fid, index, body } = look;
        let shown = copy_read(alloc, &body)?;
        lines.push(Line::Read {
            client: node,
            fid,
            index,
            source: ReadSource::Cached,
            body,
        })?;
        self.used.push(fid)?;
        self.going.add(fid, shown)?;
        self.need = next(alloc, &self.going)?;
        Ok(())
    }

    /// Reads from the cache what the act needs, if a trusted entry shows it.
    fn turn(
        &mut self,
        alloc: Global,
        node: Node,
        sight: Sight<'_>,
        now: u32,
        lines: &mut Lines,
    ) -> Mem<bool>
        requires short { FitsCalls self.old.going.act }
        requires need { need_of self.old.need ≡ next self.old.going }
        requires body { HasBody (option_copied sight.fresh) }
        ensures { IfOk result (λ read. Turns node (found_by now (in_sight sight.entry.cache.now (option_copied sight.entry.fresh)) (next self.old.going)) read self.old self.new lines.old lines.new) }
    {
        let Some(look) = look_up(alloc, sight, now, &self.need)? else {
            return Ok(false);
        };
        self.note(alloc, node, look, lines)?;
        Ok(true)
    }
}

/// An act goes on as far as the cache shows what it needs; its reads are told.
pub fn walk(
    alloc: Global,
    node: Node,
    sight: Sight<'_>,
    now: u32,
    going: Going,
    need: Need,
    lines: &mut Lines,
) -> Mem<Walked>
    requires short { FitsCalls going.act }
    requires need { need_of need ≡ next going }
    requires body { HasBody (option_copied sight.fresh) }
    ensures { IfOk result (λ w. HasWalked node (in_sight sight.entry.cache.now (option_copied sight.entry.fresh)) (walked (most_reads going) now going (in_sight sight.entry.cache.now (option_copied sight.entry.fresh))) lines.old w lines.new) }
{
    let mut left = going.most_reads();
    let mut walked = Walked {
        going,
        need,
        used: Vec::new(alloc),
    };
    while left > 0 {
        if !walked.turn(alloc, node, sight, now, lines)? {
            return Ok(walked);
        }
        left -= 1;
    }
    Ok(walked)
}
