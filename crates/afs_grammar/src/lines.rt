//! What the lines of a script tell, one function for each kind of line.

ghost use Rattle.std.specs.Prelude.{◌≡◌, ◌≤◌, ◌<◌, ◌+◌, ◌++◌, ◌∷◌, ◌^◌, ℕ, [], length, nat_le, true, Ok, Err, Some, IfOk, OnErr, OnOk};
ghost use Rattle.afs_num.specs.Names.{volume_name_ok};
ghost use Rattle.spec_history.specs.declared.scripts.Task.TheVariants.{Client};
ghost use Rattle.spec_model.specs.Script.{is_silent};
ghost use Rattle.afs_grammar.specs.Lines.{nothing_read, cell_line, servers_line, clients_line, admins_line, cache_line, capacity_line, user_line, new_line, line_laid, volume_accepted, volume_added, volume_line, setup_accepted, setup_laid, dir_line, file_line, link_line, acl_line, is_file_here, is_operand_here, task_bounded, bounded_for, do_line, plan_line, schedule_line, schedule_so_far, event_told, event_line, end_line, line_told, line_by_word, first_word, line_of, line_at, script_in, last_at, ticks_of};
ghost use Rattle.afs_grammar.specs.Grounds.{IsNext};
ghost use Rattle.afs_words.specs.Reads.{Gives};
ghost use Rattle.afs_grammar.specs.Heard.{Hears};

use crate::acts::{plan, task};
use crate::events;
use crate::forms::Form;
use crate::ground::Ground;
use crate::spellings::{FirstWord, first_spelled};
use crate::turns::{ENDED, is_due, next_turn};
use crate::volumes::{are_bare, count_at, is_taken, place_of, written_length};
use afs_num::scripts::Reason;
use afs_num::sequences::Octets;
use afs_num::types::Fid;
use afs_words::bytes::{CONTENTS, TEXT, length_of, written};
use afs_words::faults::LineFault;
use afs_words::names::{label, name, path};
use afs_words::nodes::{ACTORS, Counts, node, one_of};
use afs_words::parts::Parts;
use afs_words::words::{end, must, number, word};
use spec_history::acts::{Act, Operand, Path};
use spec_history::scripts::{
    Event, Events, Plans, Script, SetupLine, SetupLines, Task, Tasks, UserLine, UserLines,
    VolumeLine, VolumeLines,
};
use std::alloc::{AllocError, Global};
use std::marker::Model;

/// The number of a script's first volume.
const FIRST_ID: u32 = 536_870_912;

/// The most volumes of a server.
const VOLUMES: usize = 64;

/// The most ticks of a script.
const TICKS: u64 = 1_000_000_000;

/// The most lines of a script.
const LINES: u32 = 200_000;

/// The most bytes of a line, without its newline.
const LINE_BYTES: usize = 4_200_000;

/// What the lines so far told.
pub struct LinesRead {
    turn: u8,
    counts: Counts,
    cache: u32,
    capacity: u32,
    users: UserLines,
    volumes: Vec<VolumeLine>,
    tasks: Tasks,
    plans: Plans,
    schedule: Option<Events>,
    // All ticks of the schedule.
    ticks: u64,
}

/// It ends by a drop of its own: a line that isn't read ends it.
impl Drop for LinesRead {
    fn drop(self) {
        let LinesRead {
            turn: _,
            counts: _,
            cache: _,
            capacity: _,
            users: _,
            volumes: _,
            tasks: _,
            plans: _,
            schedule: _,
            ticks: _,
        } = self;
    }
}

impl Model for LinesRead {
    ghost use Rattle.std.specs.Prelude.{◌≡◌, ◌≤◌};
    ghost use Rattle.afs_grammar.specs.Lines.{LinesRead as Heard, schedule_so_far, ticks_in};

    ghost Value = { Heard };

    ghost view = { λ r. record { turn = r.turn; counts = r.counts; cache = r.cache; capacity = r.capacity; users = r.users; volumes = r.volumes.items; tasks = r.tasks; plans = r.plans; schedule = r.schedule } };

    ghost invariant = { λ r. (r.ticks ≡ ticks_in (schedule_so_far r.schedule)) × (r.ticks ≤ 1000000000) };
}

/// A file of a script's first volume.
fn is_file_here(fid: Fid) -> bool
    ensures { result ≡ is_file_here fid }
{
    fid.volume == FIRST_ID && fid.vnode % 2 == 0
}

fn is_operand_here(operand: &Operand) -> bool
    ensures { result ≡ is_operand_here operand.now }
{
    match operand {
        Operand::Fid(fid) => is_file_here(*fid),
        Operand::Path(_) => false,
    }
}

fn bounded_act(act: &Act) -> Result<(), Reason>
    ensures { (n : ℕ) → result ≡ task_bounded (Client n act.now) }
{
    match act {
        Act::Open { operand } => must(is_operand_here(operand), Reason::Path),
        Act::Close { operand, contents } => {
            must(is_operand_here(operand), Reason::Path)?;
            must(length_of(contents) <= TEXT, Reason::Limit)
        }
        _ => Ok(()),
    }
}

/// The bounds that narrower forms have on a task.
fn bounded(form: Form, task: &Task) -> Result<(), Reason>
    ensures { result ≡ bounded_for (nat_le 5 form.level) task.now }
{
    if form.level >= 5 {
        return Ok(());
    }
    match task {
        Task::Client { act, .. } => bounded_act(act),
        Task::Admin { .. } => Ok(()),
    }
}

/// The schedule with one more event; the first, where there is none yet.
fn put_event(alloc: Global, schedule: &mut Option<Events>, event: Event) -> Result<(), AllocError>
    ensures ok { OnOk result (schedule.new ≡ Some (schedule_so_far schedule.old ++ event ∷ [])) }
    ensures err { OnErr result (schedule.new ≡ schedule.old) }
{
    if let Some(events) = schedule {
        return events.push(event);
    }
    let mut events = Events::new(alloc);
    events.push(event)?;
    *schedule = Some(events);
    Ok(())
}

impl LinesRead {
    /// Nothing is read yet.
    pub fn new(alloc: Global) -> Self
        ensures { result ≡ nothing_read }
    {
        LinesRead {
            turn: 0,
            counts: Counts {
                servers: 0,
                clients: 0,
                admins: 0,
            },
            cache: 64,
            capacity: 268_435_456,
            users: UserLines::new(alloc),
            volumes: Vec::new(alloc),
            tasks: Tasks::new(alloc),
            plans: Plans::new(alloc),
            schedule: None,
            ticks: 0,
        }
    }

    #[tactic(auto, unfolding(crate::specs::Lines::cell_line))]
    fn cell(&mut self, words: &mut Parts<'_>) -> Result<(), LineFault>
        ensures value { Hears (cell_line self.old words.old) self.new result }
        ensures stays { OnOk result (self.new.volumes ≡ self.old.volumes) }
    {
        number(words, 1, 1)?;
        end(words)?;
        Ok(())
    }

    #[tactic(auto, unfolding(crate::specs::Lines::servers_line))]
    fn servers(&mut self, form: Form, words: &mut Parts<'_>) -> Result<(), LineFault>
        ensures value { Hears (servers_line form.level self.old words.old) self.new result }
        ensures stays { OnOk result (self.new.volumes ≡ self.old.volumes) }
    {
        let count = number(words, 1, 8)? as u8;
        end(words)?;
        must(form.level >= 7 || count == 1, Reason::Limit)?;
        self.counts.servers = count;
        Ok(())
    }

    #[tactic(auto, unfolding(crate::specs::Lines::clients_line))]
    fn clients(&mut self, form: Form, words: &mut Parts<'_>) -> Result<(), LineFault>
        ensures value { Hears (clients_line form.level self.old words.old) self.new result }
        ensures stays { OnOk result (self.new.volumes ≡ self.old.volumes) }
    {
        let count = number(words, 0, 16)? as u8;
        end(words)?;
        must(form.level >= 6 || count <= 1, Reason::Limit)?;
        self.counts.clients = count;
        Ok(())
    }

    #[tactic(auto, unfolding(crate::specs::Lines::admins_line))]
    fn admins(&mut self, words: &mut Parts<'_>) -> Result<(), LineFault>
        ensures value { Hears (admins_line self.old words.old) self.new result }
        ensures stays { OnOk result (self.new.volumes ≡ self.old.volumes) }
    {
        let count = number(words, 0, 4)? as u8;
        end(words)?;
        self.counts.admins = count;
        Ok(())
    }

    #[tactic(auto, unfolding(crate::specs::Lines::cache_line))]
    fn cache(&mut self, words: &mut Parts<'_>) -> Result<(), LineFault>
        ensures value { Hears (cache_line self.old words.old) self.new result }
        ensures stays { OnOk result (self.new.volumes ≡ self.old.volumes) }
    {
        let most = number(words, 1, 256)? as u32;
        end(words)?;
        self.cache = most;
        Ok(())
    }

    #[tactic(auto, unfolding(crate::specs::Lines::capacity_line))]
    fn capacity(&mut self, words: &mut Parts<'_>) -> Result<(), LineFault>
        ensures value { Hears (capacity_line self.old words.old) self.new result }
        ensures stays { OnOk result (self.new.volumes ≡ self.old.volumes) }
    {
        let bytes = number(words, 65_536, 268_435_456)? as u32;
        end(words)?;
        self.capacity = bytes;
        Ok(())
    }

    #[tactic(auto, unfolding(crate::specs::Lines::user_line))]
    fn user(&mut self, alloc: Global, words: &mut Parts<'_>) -> Result<(), LineFault>
        ensures value { Hears (user_line self.old words.old) self.new result }
        ensures stays { OnOk result (self.new.volumes ≡ self.old.volumes) }
    {
        let client = one_of(words, b'c', self.counts.clients)?;
        let name = name(alloc, words, 64)?;
        end(words)?;
        self.users.push(UserLine { client, name })?;
        Ok(())
    }

    /// Lays a new volume.
    #[tactic(auto, unfolding(crate::specs::Lines::volume_accepted))]
    fn add<G: Ground>(
        &self,
        alloc: Global,
        form: Form,
        ground: &mut G,
        volume: &VolumeLine,
    ) -> Result<(), LineFault>
        requires laid { G.lays ground.old self.now.volumes }
        requires bare { volume.now.lines ≡ [] }
        requires name { volume_name_ok volume.now.name ≡ true }
        requires next { IsNext volume.now self.now.volumes }
        ensures value { Gives (volume_accepted form.level self.now volume.now) result }
        ensures laid { OnOk result (G.lays ground.new (self.now.volumes ++ volume.now ∷ [])) }
    {
        let count = count_at(volume.server, self.volumes.as_slice());
        must(count < VOLUMES, Reason::Limit)?;
        ground.add(alloc, volume, self.capacity)?;
        must(form.level >= 7 || self.volumes.is_empty(), Reason::Limit)?;
        must(form.level >= 5 || 1000 <= volume.quota, Reason::Number)?;
        Ok(())
    }

    #[tactic(auto, unfolding(crate::specs::Lines::volume_added))]
    fn with_volume<G: Ground>(
        &mut self,
        alloc: Global,
        form: Form,
        ground: &mut G,
        volume: VolumeLine,
    ) -> Result<(), LineFault>
        requires laid { G.lays ground.old self.old.volumes }
        requires bare { volume.lines ≡ [] }
        requires name { volume_name_ok volume.name ≡ true }
        requires next { IsNext volume self.old.volumes }
        ensures value { Hears (volume_added form.level self.old volume) self.new result }
        ensures laid { OnOk result (G.lays ground.new self.new.volumes) }
        ensures grows { OnOk result (length self.new.volumes ≡ length self.old.volumes + 1) }
    {
        self.add(alloc, form, ground, &volume)?;
        match self.volumes.push(volume) {
            Ok(()) => Ok(()),
            Err(_) => Err(LineFault::OutOfMemory),
        }
    }

    #[tactic(auto, unfolding(crate::specs::Lines::volume_line))]
    fn volume<G: Ground>(
        &mut self,
        alloc: Global,
        form: Form,
        ground: &mut G,
        words: &mut Parts<'_>,
    ) -> Result<(), LineFault>
        requires laid { G.lays ground.old self.old.volumes }
        requires few { length self.old.volumes < 200000 }
        ensures value { Hears (volume_line form.level self.old words.old) self.new result }
        ensures laid { OnOk result (G.lays ground.new self.new.volumes) }
        ensures grows { OnOk result (length self.new.volumes ≡ length self.old.volumes + 1) }
    {
        let name = label(words)?;
        must(!is_taken(name, self.volumes.as_slice()), Reason::Name)?;
        let server = one_of(words, b's', self.counts.servers)?;
        let quota = number(words, 1, 16_384)? as u32;
        end(words)?;
        let volume = VolumeLine {
            id: FIRST_ID + self.volumes.len() as u32,
            name: Octets::from_slice(alloc, name)?,
            server,
            quota,
            lines: SetupLines::new(alloc),
        };
        self.with_volume(alloc, form, ground, volume)
    }

    /// Lays a line of set-up in the volume of this place.
    #[tactic(auto, unfolding(crate::specs::Lines::setup_accepted), using(crate::proofs::Laid::is_there))]
    fn lay<G: Ground>(
        &self,
        alloc: Global,
        form: Form,
        ground: &mut G,
        place: usize,
        line: &SetupLine,
    ) -> Result<(), LineFault>
        requires laid { G.lays ground.old self.now.volumes }
        ensures value { Gives (setup_accepted form.level self.now place line.now) result }
        ensures laid { OnOk result (G.lays ground.new (line_laid place line.now self.now.volumes)) }
        ensures within { OnOk result (place < length self.now.volumes) }
    {
        ground.lay(alloc, place, line, self.capacity)?;
        let is_small = are_bare(self.volumes.as_slice()) && written_length(line) <= TEXT;
        must(form.level >= 5 || is_small, Reason::Limit)?;
        Ok(())
    }

    /// The volume of this place has one more line.
    #[tactic(auto, using(crate::proofs::Laid::line_put))]
    fn with_line(&mut self, place: usize, line: SetupLine) -> Result<(), AllocError>
        requires { place < length self.old.volumes }
        ensures { OnOk result (self.new ≡ record self.old { volumes = line_laid place line self.old.volumes }) }
    {
        self.volumes[place].lines.push(line)?;
        Ok(())
    }

    /// A line of set-up in the volume of this name.
    #[tactic(auto, unfolding(crate::specs::Lines::setup_laid), using(crate::proofs::Laid::as_long))]
    fn with_setup<G: Ground>(
        &mut self,
        alloc: Global,
        form: Form,
        ground: &mut G,
        name: &[u8],
        line: SetupLine,
    ) -> Result<(), LineFault>
        requires laid { G.lays ground.old self.old.volumes }
        ensures value { Hears (setup_laid form.level self.old name.now line) self.new result }
        ensures laid { OnOk result (G.lays ground.new self.new.volumes) }
        ensures stays { OnOk result (length self.new.volumes ≡ length self.old.volumes) }
    {
        let place = place_of(name, self.volumes.as_slice());
        self.lay(alloc, form, ground, place, &line)?;
        self.with_line(place, line)?;
        Ok(())
    }

    #[tactic(auto, unfolding(crate::specs::Lines::dir_line))]
    fn directory<G: Ground>(
        &mut self,
        alloc: Global,
        form: Form,
        ground: &mut G,
        words: &mut Parts<'_>,
    ) -> Result<(), LineFault>
        requires laid { G.lays ground.old self.old.volumes }
        ensures value { Hears (dir_line form.level self.old words.old) self.new result }
        ensures laid { OnOk result (G.lays ground.new self.new.volumes) }
        ensures stays { OnOk result (length self.new.volumes ≡ length self.old.volumes) }
    {
        let Path { volume, names } = path(alloc, words)?;
        end(words)?;
        let line = SetupLine::Directory { path: names };
        self.with_setup(alloc, form, ground, volume.as_slice(), line)
    }

    #[tactic(auto, unfolding(crate::specs::Lines::file_line))]
    fn file<G: Ground>(
        &mut self,
        alloc: Global,
        form: Form,
        ground: &mut G,
        words: &mut Parts<'_>,
    ) -> Result<(), LineFault>
        requires laid { G.lays ground.old self.old.volumes }
        ensures value { Hears (file_line form.level self.old words.old) self.new result }
        ensures laid { OnOk result (G.lays ground.new self.new.volumes) }
        ensures stays { OnOk result (length self.new.volumes ≡ length self.old.volumes) }
    {
        let Path { volume, names } = path(alloc, words)?;
        let contents = written(alloc, words, CONTENTS)?;
        end(words)?;
        let line = SetupLine::File {
            path: names,
            contents,
        };
        self.with_setup(alloc, form, ground, volume.as_slice(), line)
    }

    #[tactic(auto, unfolding(crate::specs::Lines::link_line))]
    fn link<G: Ground>(
        &mut self,
        alloc: Global,
        form: Form,
        ground: &mut G,
        words: &mut Parts<'_>,
    ) -> Result<(), LineFault>
        requires laid { G.lays ground.old self.old.volumes }
        ensures value { Hears (link_line form.level self.old words.old) self.new result }
        ensures laid { OnOk result (G.lays ground.new self.new.volumes) }
        ensures stays { OnOk result (length self.new.volumes ≡ length self.old.volumes) }
    {
        let Path { volume, names } = path(alloc, words)?;
        let target = written(alloc, words, TEXT)?;
        end(words)?;
        let line = SetupLine::Link {
            path: names,
            target,
        };
        self.with_setup(alloc, form, ground, volume.as_slice(), line)
    }

    #[tactic(auto, unfolding(crate::specs::Lines::acl_line))]
    fn access_list<G: Ground>(
        &mut self,
        alloc: Global,
        form: Form,
        ground: &mut G,
        words: &mut Parts<'_>,
    ) -> Result<(), LineFault>
        requires laid { G.lays ground.old self.old.volumes }
        ensures value { Hears (acl_line form.level self.old words.old) self.new result }
        ensures laid { OnOk result (G.lays ground.new self.new.volumes) }
        ensures stays { OnOk result (length self.new.volumes ≡ length self.old.volumes) }
    {
        let Path { volume, names } = path(alloc, words)?;
        let text = written(alloc, words, TEXT)?;
        end(words)?;
        let line = SetupLine::AccessList { path: names, text };
        self.with_setup(alloc, form, ground, volume.as_slice(), line)
    }

    #[tactic(auto, unfolding(crate::specs::Lines::do_line, crate::specs::Acts::task_at))]
    fn task(&mut self, alloc: Global, form: Form, words: &mut Parts<'_>) -> Result<(), LineFault>
        ensures value { Hears (do_line form.level self.old words.old) self.new result }
        ensures stays { OnOk result (self.new.volumes ≡ self.old.volumes) }
    {
        let node = node(words, ACTORS, self.counts)?;
        let task = task(alloc, self.counts, node, words)?;
        bounded(form, &task)?;
        self.tasks.push(task)?;
        Ok(())
    }

    #[tactic(auto, unfolding(crate::specs::Lines::plan_line))]
    fn plan(&mut self, words: &mut Parts<'_>) -> Result<(), LineFault>
        ensures value { Hears (plan_line self.old words.old) self.new result }
        ensures stays { OnOk result (self.new.volumes ≡ self.old.volumes) }
    {
        let plan = plan(self.counts, words)?;
        self.plans.push(plan)?;
        Ok(())
    }

    #[tactic(auto, unfolding(crate::specs::Lines::schedule_line))]
    fn schedule(&mut self, alloc: Global, words: &mut Parts<'_>) -> Result<(), LineFault>
        ensures value { Hears (schedule_line self.old words.old) self.new result }
        ensures stays { OnOk result (self.new.volumes ≡ self.old.volumes) }
    {
        end(words)?;
        self.schedule = Some(Events::new(alloc));
        self.ticks = 0;
        Ok(())
    }

    /// An event behind those that were told.
    #[tactic(auto, unfolding(crate::specs::Lines::event_told), using(crate::proofs::Ticks::ticks_behind))]
    fn with_event(
        &mut self,
        alloc: Global,
        event: Event,
        words: &mut Parts<'_>,
    ) -> Result<(), LineFault>
        ensures value { Hears (event_told self.old event words.old) self.new result }
        ensures stays { OnOk result (self.new.volumes ≡ self.old.volumes) }
    {
        end(words)?;
        let ticks = self.ticks + ticks_of(event);
        must(ticks <= TICKS, Reason::Limit)?;
        put_event(alloc, &mut self.schedule, event)?;
        self.ticks = ticks;
        Ok(())
    }

    #[tactic(auto, unfolding(crate::specs::Lines::event_line))]
    fn event(
        &mut self,
        alloc: Global,
        first: FirstWord,
        words: &mut Parts<'_>,
    ) -> Result<(), LineFault>
        ensures value { Hears (event_line first self.old words.old) self.new result }
        ensures stays { OnOk result (self.new.volumes ≡ self.old.volumes) }
    {
        let event = events::event(first, self.counts, words)?;
        self.with_event(alloc, event, words)
    }

    #[tactic(auto, unfolding(crate::specs::Lines::end_line))]
    fn end(&mut self, words: &mut Parts<'_>) -> Result<(), LineFault>
        ensures value { Hears (end_line self.old words.old) self.new result }
        ensures stays { OnOk result (self.new.volumes ≡ self.old.volumes) }
    {
        end(words)?;
        Ok(())
    }

    /// A line that lays nothing.
    fn line_told(
        &mut self,
        alloc: Global,
        form: Form,
        first: FirstWord,
        words: &mut Parts<'_>,
    ) -> Result<(), LineFault>
        ensures value { Hears (line_told form.level first self.old words.old) self.new result }
        ensures stays { OnOk result (self.new.volumes ≡ self.old.volumes) }
    {
        match first {
            FirstWord::Cell => self.cell(words),
            FirstWord::Servers => self.servers(form, words),
            FirstWord::Clients => self.clients(form, words),
            FirstWord::Admins => self.admins(words),
            FirstWord::Cache => self.cache(words),
            FirstWord::Capacity => self.capacity(words),
            FirstWord::User => self.user(alloc, words),
            FirstWord::Do => self.task(alloc, form, words),
            FirstWord::Plan => self.plan(words),
            FirstWord::Schedule => self.schedule(alloc, words),
            FirstWord::End => self.end(words),
            _ => self.event(alloc, first, words),
        }
    }

    fn line_by_word<G: Ground>(
        &mut self,
        alloc: Global,
        form: Form,
        ground: &mut G,
        first: FirstWord,
        words: &mut Parts<'_>,
    ) -> Result<(), LineFault>
        requires laid { G.lays ground.old self.old.volumes }
        requires few { length self.old.volumes < 200000 }
        ensures value { Hears (line_by_word form.level first self.old words.old) self.new result }
        ensures laid { OnOk result (G.lays ground.new self.new.volumes) }
        ensures grows { OnOk result (length self.new.volumes ≤ length self.old.volumes + 1) }
    {
        match first {
            FirstWord::Volume => self.volume(alloc, form, ground, words),
            FirstWord::Dir => self.directory(alloc, form, ground, words),
            FirstWord::File => self.file(alloc, form, ground, words),
            FirstWord::Link => self.link(alloc, form, ground, words),
            FirstWord::Acl => self.access_list(alloc, form, ground, words),
            _ => self.line_told(alloc, form, first, words),
        }
    }

    #[tactic(auto, unfolding(crate::specs::Lines::line_of))]
    fn line_of<G: Ground>(
        &mut self,
        alloc: Global,
        form: Form,
        ground: &mut G,
        words: &mut Parts<'_>,
    ) -> Result<(), LineFault>
        requires laid { G.lays ground.old self.old.volumes }
        requires few { length self.old.volumes < 200000 }
        ensures value { Hears (line_of form.level self.old words.old) self.new result }
        ensures laid { OnOk result (G.lays ground.new self.new.volumes) }
        ensures grows { OnOk result (length self.new.volumes ≤ length self.old.volumes + 1) }
    {
        let first = first_of(form, word(words)?)?;
        must(is_due(self.turn, first), Reason::Order)?;
        must(!form.is_unbuilt(first, words), Reason::Word)?;
        self.turn = next_turn(first);
        self.line_by_word(alloc, form, ground, first, words)
    }

    /// The reading with one more line: its number, and how many bytes the script may have from its start on.
    #[tactic(auto, unfolding(crate::specs::Lines::line_at))]
    pub fn line<G: Ground>(
        &mut self,
        alloc: Global,
        form: Form,
        ground: &mut G,
        number: u32,
        room: usize,
        line: &[u8],
    ) -> Result<(), LineFault>
        requires laid { G.lays ground.old self.old.volumes }
        requires few { length self.old.volumes < number }
        ensures value { Hears (line_at form.level self.old number room line.now) self.new result }
        ensures laid { OnOk result (G.lays ground.new self.new.volumes) }
        ensures grows { OnOk result (length self.new.volumes ≤ number) }
        ensures within { OnOk result (length line.now < room) }
        ensures few { OnOk result (number ≤ 200000) }
    {
        must(line.len() < room, Reason::Limit)?;
        must(number <= LINES, Reason::Limit)?;
        must(line.len() <= LINE_BYTES, Reason::Limit)?;
        must(self.turn != ENDED, Reason::Order)?;
        if is_silent(line) {
            return Ok(());
        }
        self.line_of(alloc, form, ground, &mut Parts::new(line, b' '))
    }

    fn script(self) -> Script
        ensures { result ≡ script_in self }
    {
        let LinesRead {
            turn: _,
            counts,
            cache,
            capacity,
            users,
            volumes,
            tasks,
            plans,
            schedule,
            ticks: _,
        } = self;
        Script {
            servers: counts.servers,
            clients: counts.clients,
            admins: counts.admins,
            cache,
            capacity,
            users,
            volumes: VolumeLines::from_vec(volumes),
            tasks,
            plans,
            schedule,
        }
    }

    /// The script, where nothing stands behind its last newline.
    #[tactic(auto, unfolding(crate::specs::Lines::last_at))]
    pub fn last(self, number: u32, room: usize, last: &[u8]) -> Result<Script, Reason>
        ensures value { result ≡ last_at self number room last.now }
        ensures laid { IfOk result (λ s. s.volumes ≡ self.volumes) }
    {
        must(last.len() <= room, Reason::Limit)?;
        must(self.turn == ENDED, Reason::Missing)?;
        must(last.is_empty() || number <= LINES, Reason::Limit)?;
        must(last.len() <= LINE_BYTES, Reason::Limit)?;
        must(last.is_empty(), Reason::Order)?;
        Ok(self.script())
    }
}

fn ticks_of(event: Event) -> u64
    ensures value { result ≡ ticks_of event }
    ensures bound { result < 2 ^ 32 }
{
    match event {
        Event::Tick { ticks } => u64::from(ticks),
        _ => 0,
    }
}

/// The word that a line begins with, if it is built.
#[tactic(auto, unfolding(crate::specs::Lines::first_word))]
fn first_of(form: Form, word: &[u8]) -> Result<FirstWord, Reason>
    ensures { result ≡ first_word form.level word.now }
{
    let first = first_spelled(word).ok_or(Reason::Word)?;
    must(form.has(first), Reason::Word)?;
    Ok(first)
}

/// An empty line or a comment.
fn is_silent(line: &[u8]) -> bool
    ensures { result ≡ is_silent line.now }
{
    match line {
        [] => true,
        [first, ..] => *first == b'#',
    }
}
