//! The fixed words of a script, each with its one spelling.

ghost use Rattle.std.specs.Prelude.{◌≡◌};
ghost use Rattle.afs_grammar.specs.Spellings.{first_spelling, first_spelled, act_spelling, act_spelled, admin_spelling, admin_spelled, plan_spelling, plan_spelled};

/// The first word of a line.
#[derive(Clone, Copy, Debug, PartialEq, Eq)]
pub enum FirstWord {
    Cell,
    Servers,
    Clients,
    Admins,
    Cache,
    Capacity,
    User,
    Volume,
    Dir,
    File,
    Link,
    Acl,
    Do,
    Plan,
    Schedule,
    Act,
    Deliver,
    Drain,
    Timeout,
    Wake,
    Tick,
    Crash,
    Restart,
    Stop,
    Fail,
    End,
}

/// The word of a client's act.
#[derive(Clone, Copy, Debug)]
pub enum ActWord {
    Open,
    List,
    ReadLink,
    Stat,
    StatAll,
    Close,
    Make,
    MkDir,
    Rm,
    RmDir,
    Mv,
    Ln,
    Symlink,
    ChMod,
    SetAcl,
    GetAcl,
    GiveUp,
}

/// The word of an administrator's act.
#[derive(Clone, Copy, Debug)]
pub enum AdminWord {
    Create,
    Restore,
    AddSite,
    Backup,
    Release,
    Move,
    Dump,
    Remove,
    Recover,
}

/// The word of a plan.
#[derive(Clone, Copy, Debug)]
pub enum PlanWord {
    Lose,
    Repeat,
    Crash,
}

const FIRST_WORDS: [FirstWord; 26] = [
    FirstWord::Cell,
    FirstWord::Servers,
    FirstWord::Clients,
    FirstWord::Admins,
    FirstWord::Cache,
    FirstWord::Capacity,
    FirstWord::User,
    FirstWord::Volume,
    FirstWord::Dir,
    FirstWord::File,
    FirstWord::Link,
    FirstWord::Acl,
    FirstWord::Do,
    FirstWord::Plan,
    FirstWord::Schedule,
    FirstWord::Act,
    FirstWord::Deliver,
    FirstWord::Drain,
    FirstWord::Timeout,
    FirstWord::Wake,
    FirstWord::Tick,
    FirstWord::Crash,
    FirstWord::Restart,
    FirstWord::Stop,
    FirstWord::Fail,
    FirstWord::End,
];

/// The word's spelling.
#[tactic(auto, unfolding(crate::specs::Spellings::first_spelling))]
pub fn first_spelling(word: FirstWord) -> &'static [u8]
    ensures { result.now ≡ first_spelling word }
{
    match word {
        FirstWord::Cell => b"cell".as_slice(),
        FirstWord::Servers => b"servers".as_slice(),
        FirstWord::Clients => b"clients".as_slice(),
        FirstWord::Admins => b"admins".as_slice(),
        FirstWord::Cache => b"cache".as_slice(),
        FirstWord::Capacity => b"capacity".as_slice(),
        FirstWord::User => b"user".as_slice(),
        FirstWord::Volume => b"volume".as_slice(),
        FirstWord::Dir => b"dir".as_slice(),
        FirstWord::File => b"file".as_slice(),
        FirstWord::Link => b"link".as_slice(),
        FirstWord::Acl => b"acl".as_slice(),
        FirstWord::Do => b"do".as_slice(),
        FirstWord::Plan => b"plan".as_slice(),
        FirstWord::Schedule => b"schedule".as_slice(),
        FirstWord::Act => b"act".as_slice(),
        FirstWord::Deliver => b"deliver".as_slice(),
        FirstWord::Drain => b"drain".as_slice(),
        FirstWord::Timeout => b"timeout".as_slice(),
        FirstWord::Wake => b"wake".as_slice(),
        FirstWord::Tick => b"tick".as_slice(),
        FirstWord::Crash => b"crash".as_slice(),
        FirstWord::Restart => b"restart".as_slice(),
        FirstWord::Stop => b"stop".as_slice(),
        FirstWord::Fail => b"fail".as_slice(),
        FirstWord::End => b"end".as_slice(),
    }
}

/// The word that is spelled so, looked up among all.
#[tactic(auto, unfolding(crate::specs::Spellings::first_spelled))]
fn first_found(word: &[u8]) -> Option<FirstWord>
    ensures { result ≡ first_spelled word.now }
{
    FIRST_WORDS
        .iter()
        .copied()
        .find(|w| first_spelling(*w) == word)
}

/// The word that is spelled so. Those with which most lines of a script begin come first.
#[tactic(auto, unfolding(crate::specs::Spellings::first_spelled, crate::specs::Spellings::first_spelling))]
pub fn first_spelled(word: &[u8]) -> Option<FirstWord>
    ensures { result ≡ first_spelled word.now }
{
    match word {
        [b'd', b'o'] => Some(FirstWord::Do),
        [b'a', b'c', b't'] => Some(FirstWord::Act),
        [b'd', b'r', b'a', b'i', b'n'] => Some(FirstWord::Drain),
        [b'd', b'e', b'l', b'i', b'v', b'e', b'r'] => Some(FirstWord::Deliver),
        _ => first_found(word),
    }
}

const ACT_WORDS: [ActWord; 17] = [
    ActWord::Open,
    ActWord::List,
    ActWord::ReadLink,
    ActWord::Stat,
    ActWord::StatAll,
    ActWord::Close,
    ActWord::Make,
    ActWord::MkDir,
    ActWord::Rm,
    ActWord::RmDir,
    ActWord::Mv,
    ActWord::Ln,
    ActWord::Symlink,
    ActWord::ChMod,
    ActWord::SetAcl,
    ActWord::GetAcl,
    ActWord::GiveUp,
];

/// The word's spelling.
#[tactic(auto, unfolding(crate::specs::Spellings::act_spelling))]
pub fn act_spelling(word: ActWord) -> &'static [u8]
    ensures { result.now ≡ act_spelling word }
{
    match word {
        ActWord::Open => b"open".as_slice(),
        ActWord::List => b"list".as_slice(),
        ActWord::ReadLink => b"readlink".as_slice(),
        ActWord::Stat => b"stat".as_slice(),
        ActWord::StatAll => b"statall".as_slice(),
        ActWord::Close => b"close".as_slice(),
        ActWord::Make => b"make".as_slice(),
        ActWord::MkDir => b"mkdir".as_slice(),
        ActWord::Rm => b"rm".as_slice(),
        ActWord::RmDir => b"rmdir".as_slice(),
        ActWord::Mv => b"mv".as_slice(),
        ActWord::Ln => b"ln".as_slice(),
        ActWord::Symlink => b"symlink".as_slice(),
        ActWord::ChMod => b"chmod".as_slice(),
        ActWord::SetAcl => b"setacl".as_slice(),
        ActWord::GetAcl => b"getacl".as_slice(),
        ActWord::GiveUp => b"giveup".as_slice(),
    }
}

/// The word that is spelled so.
#[tactic(auto, unfolding(crate::specs::Spellings::act_spelled))]
pub fn act_spelled(word: &[u8]) -> Option<ActWord>
    ensures { result ≡ act_spelled word.now }
{
    ACT_WORDS.iter().copied().find(|w| act_spelling(*w) == word)
}

const ADMIN_WORDS: [AdminWord; 9] = [
    AdminWord::Create,
    AdminWord::Restore,
    AdminWord::AddSite,
    AdminWord::Backup,
    AdminWord::Release,
    AdminWord::Move,
    AdminWord::Dump,
    AdminWord::Remove,
    AdminWord::Recover,
];

/// The word's spelling.
#[tactic(auto, unfolding(crate::specs::Spellings::admin_spelling))]
pub fn admin_spelling(word: AdminWord) -> &'static [u8]
    ensures { result.now ≡ admin_spelling word }
{
    match word {
        AdminWord::Create => b"create".as_slice(),
        AdminWord::Restore => b"restore".as_slice(),
        AdminWord::AddSite => b"addsite".as_slice(),
        AdminWord::Backup => b"backup".as_slice(),
        AdminWord::Release => b"release".as_slice(),
        AdminWord::Move => b"move".as_slice(),
        AdminWord::Dump => b"dump".as_slice(),
        AdminWord::Remove => b"remove".as_slice(),
        AdminWord::Recover => b"recover".as_slice(),
    }
}

/// The word that is spelled so.
#[tactic(auto, unfolding(crate::specs::Spellings::admin_spelled))]
pub fn admin_spelled(word: &[u8]) -> Option<AdminWord>
    ensures { result ≡ admin_spelled word.now }
{
    ADMIN_WORDS
        .iter()
        .copied()
        .find(|w| admin_spelling(*w) == word)
}

const PLAN_WORDS: [PlanWord; 3] = [PlanWord::Lose, PlanWord::Repeat, PlanWord::Crash];

/// The word's spelling.
#[tactic(auto, unfolding(crate::specs::Spellings::plan_spelling))]
pub fn plan_spelling(word: PlanWord) -> &'static [u8]
    ensures { result.now ≡ plan_spelling word }
{
    match word {
        PlanWord::Lose => b"lose".as_slice(),
        PlanWord::Repeat => b"repeat".as_slice(),
        PlanWord::Crash => b"crash".as_slice(),
    }
}

/// The word that is spelled so.
#[tactic(auto, unfolding(crate::specs::Spellings::plan_spelled))]
pub fn plan_spelled(word: &[u8]) -> Option<PlanWord>
    ensures { result ≡ plan_spelled word.now }
{
    PLAN_WORDS
        .iter()
        .copied()
        .find(|w| plan_spelling(*w) == word)
}
