//! What the program answers to its caller, and what its words ask.

ghost use Rattle.std.specs.Prelude.{◌≡◌, ◌≤◌, [], ◌∷◌, map, string_bytes, IfOk, IfSome, IsSome, OnErr};
ghost use Rattle.std.specs.Option.{option_map};
ghost use Rattle.afs_command.specs.Forms.{asked_in, form_in, generated_in, is_disks, is_name, is_wire, name_in, name_of, number_in, of_three, of_two, options_in, place_of, with_folder};
ghost use Rattle.afs_command.specs.Statuses.{reason_word, status_line};

use afs_disk::Place;
use afs_num::scripts::Reason;
use afs_num::sequences::Octets;
use afs_num::types::Mem;
use afs_outside::outside::{Failed, Sink};
use afs_text::pieces::Print;
use afs_words::words::ranged;
use std::alloc::Global;
use std::marker::Model;

/// How the program ended. A script is refused by the number of its first bad line, from 1, and the reason there.
#[derive(Clone, Copy, Debug, PartialEq, Eq)]
pub enum Status {
    Done,
    Usage,
    Script(u32, Reason),
    ReadFault,
    WriteFault,
    BankFault,
    OutOfMemory,
    Limit,
}

impl Status {
    ghost use Rattle.afs_command.specs.Statuses.{status_number};

    /// The number that the program ends with.
    pub fn number(&self) -> u8
        ensures { result ≡ status_number self.now }
    {
        match self {
            Status::Done => 0,
            Status::Usage => 2,
            Status::Script(_, _) => 3,
            Status::ReadFault => 4,
            Status::WriteFault => 5,
            Status::BankFault => 6,
            Status::OutOfMemory => 7,
            Status::Limit => 8,
        }
    }
}

/// The name of a reason.
fn reason_word(reason: Reason) -> &'static str
    ensures { result.now ≡ reason_word reason }
{
    match reason {
        Reason::Word => "Word",
        Reason::Number => "Number",
        Reason::Node => "Node",
        Reason::Name => "Name",
        Reason::Path => "Path",
        Reason::Contents => "Contents",
        Reason::Order => "Order",
        Reason::Limit => "Limit",
        Reason::Missing => "Missing",
    }
}

/// Its line on standard error. There is none where all is done.
impl Print for Status {
    ghost text = { status_line };

    fn print<K: Sink>(&self, sink: &mut K) -> Result<(), Failed> {
        match *self {
            Status::Done => Ok(()),
            Status::Usage => "usage: afscell replay [--wire] [--disks DIR] | gen N\n".print(sink),
            Status::Script(line, reason) => {
                ("script: line ", (line, (": ", (reason_word(reason), "\n")))).print(sink)
            }
            Status::ReadFault => "read fault\n".print(sink),
            Status::WriteFault => "write fault\n".print(sink),
            Status::BankFault => "disk fault\n".print(sink),
            Status::OutOfMemory => "out of memory\n".print(sink),
            Status::Limit => "limit\n".print(sink),
        }
    }
}

/// What the words of the command line ask.
#[derive(Debug, Drop)]
pub enum Form {
    /// A script is played by its schedule, over disks of this place; with `wire` its messages are told with their bytes.
    Replay { wire: bool, place: Place },
    /// The script that is made for this number is played, and its summary told.
    Gen { number: u32 },
}

fn is_wire(word: &[u8]) -> bool
    ensures { result ≡ is_wire word.now }
{
    word == b"--wire".as_slice()
}

fn is_disks(word: &[u8]) -> bool
    ensures { result ≡ is_disks word.now }
{
    word == b"--disks".as_slice()
}

/// Whether a word can name a folder: it isn't empty, and doesn't begin as an option does.
fn is_name(word: &[u8]) -> bool
    ensures { result ≡ is_name word.now }
{
    match word {
        [letter, ..] => *letter != b'-',
        [] => false,
    }
}

/// The folder that a word names.
fn name_of(word: &[u8]) -> Option<&[u8]>
    ensures { option_map (λ n. n.now) result ≡ name_of word.now }
{
    if is_name(word) { Some(word) } else { None }
}

/// The folder that an option of one word names.
fn name_in(word: &[u8]) -> Option<&[u8]>
    ensures { option_map (λ n. n.now) result ≡ name_in word.now }
{
    match word.strip_prefix(b"--disks=") {
        Some(name) => name_of(name),
        None => None,
    }
}

/// What options ask: whether the bytes of messages are told, and the folder of the disks, if one is named.
#[derive(Drop)]
struct Options<'a> {
    wire: bool,
    folder: Option<&'a [u8]>,
}

impl<'a> Model for Options<'a> {
    ghost use Rattle.std.specs.Option.{option_map};
    ghost use Rattle.afs_command.specs.Forms.{Options};

    ghost Value = { Options };

    ghost view = { λ o. record { wire = o.wire; folder = option_map (λ n. n.now) o.folder } };
}

/// With the folder that is named.
fn with_folder(wire: bool, folder: Option<&[u8]>) -> Option<Options<'_>>
    ensures { result ≡ with_folder wire (option_map (λ n. n.now) folder.entry) }
{
    match folder {
        Some(_) => Some(Options { wire, folder }),
        None => None,
    }
}

/// Two options, in either order, of which one names a folder in one word; or a folder is named in two words.
fn of_two<'a>(first: &'a [u8], second: &'a [u8]) -> Option<Options<'a>>
    ensures { result ≡ of_two first.now second.now }
{
    if is_wire(first) {
        return with_folder(true, name_in(second));
    }
    if is_wire(second) {
        return with_folder(true, name_in(first));
    }
    if is_disks(first) {
        return with_folder(false, name_of(second));
    }
    None
}

/// Two options, in either order, of which one names a folder in two words.
fn of_three<'a>(first: &'a [u8], second: &'a [u8], third: &'a [u8]) -> Option<Options<'a>>
    ensures { result ≡ of_three first.now second.now third.now }
{
    if is_wire(first) && is_disks(second) {
        return with_folder(true, name_of(third));
    }
    if is_disks(first) && is_wire(third) {
        return with_folder(true, name_of(second));
    }
    None
}

fn of_one(word: &[u8]) -> Option<Options<'_>>
    ensures { result ≡ options_in (word.now ∷ []) }
{
    if is_wire(word) {
        return Some(Options {
            wire: true,
            folder: None,
        });
    }
    with_folder(false, name_in(word))
}

/// What the words behind the first one ask, as options in either order, each at most once.
fn options_in(words: &[String]) -> Option<Options<'_>>
    ensures { result ≡ options_in (map string_bytes words.now) }
{
    match words {
        [] => Some(Options {
            wire: false,
            folder: None,
        }),
        [word] => of_one(word.as_bytes()),
        [first, second] => of_two(first.as_bytes(), second.as_bytes()),
        [first, second, third] => {
            of_three(first.as_bytes(), second.as_bytes(), third.as_bytes())
        }
        [_, _, _, _, ..] => None,
    }
}

fn asked_in(words: &[String]) -> Option<Options<'_>>
    ensures { result ≡ asked_in (map string_bytes words.now) }
{
    match words {
        [word, rest @ ..] if word.as_bytes() == b"replay".as_slice() => options_in(rest),
        _ => None,
    }
}

/// Where the disks are.
fn place_of(alloc: Global, folder: Option<&[u8]>) -> Mem<Place>
    ensures { IfOk result (λ p. p ≡ place_of (option_map (λ n. n.now) folder.entry)) }
{
    match folder {
        Some(name) => Ok(Place::Folder(Octets::from_slice(alloc, name)?)),
        None => Ok(Place::Memory),
    }
}

/// The number that stands alone behind the first word.
fn number_in(words: &[String]) -> Option<u32>
    ensures value { result ≡ number_in (map string_bytes words.now) }
    ensures bound { IfSome result (λ n. n ≤ 1000) }
{
    match words {
        [word] => Some(ranged(1, 1000, word.as_bytes())? as u32),
        _ => None,
    }
}

/// The number for which a script is to be made, from 1 to 1,000, where the words ask for that.
pub fn generated_in(words: &[String]) -> Option<u32>
    ensures value { result ≡ generated_in (map string_bytes words.now) }
    ensures bound { IfSome result (λ n. n ≤ 1000) }
{
    match words {
        [word, rest @ ..] if word.as_bytes() == b"gen".as_slice() => number_in(rest),
        _ => None,
    }
}

/// The form of the words behind the program's name, where they have one.
pub fn form_of(alloc: Global, words: &[String]) -> Mem<Option<Form>>
    ensures form { IfOk result (λ o. o ≡ form_in (map string_bytes words.now)) }
    ensures err { OnErr result (IsSome (form_in (map string_bytes words.now))) }
{
    if let Some(number) = generated_in(words) {
        return Ok(Some(Form::Gen { number }));
    }
    let Some(options) = asked_in(words) else {
        return Ok(None);
    };
    let place = place_of(alloc, options.folder)?;
    Ok(Some(Form::Replay {
        wire: options.wire,
        place,
    }))
}
