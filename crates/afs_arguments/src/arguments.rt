//! What the words ask, as `clap` finds it.

ghost use Rattle.std.specs.Prelude.{◌≡◌, ◌↔◌, IfOk, IsSome, IsTrue, None, OnErr, codes, map, string_bytes};
ghost use Rattle.std.specs.Option.{option_map};
ghost use Rattle.std.specs.List.{list_any};
ghost use Rattle.std.specs.Str.{bytes_eq};
ghost use Rattle.clap.specs.Words.{app_of, found_of, kind_of, subcommand_rows_of};
ghost use Rattle.clap.specs.Faults.{fault_of};
ghost use Rattle.clap.specs.Kinds.{FailsBy};
ghost use Rattle.clap.specs.Simple.{subcommand_of};
ghost use Rattle.clap.specs.Walk.{first_of, rows_of};
ghost use Rattle.clap.specs.declared.error.kind.ErrorKind.TheVariants.{OutOfMemory};
ghost use Rattle.afs_arguments.specs.Program.{program, IsGen, IsReplay};
ghost use Rattle.afs_command.specs.Forms.{form_by, form_in, is_name, place_of};
ghost use Rattle.afs_arguments.specs.Found.{checked, made_by, Finds, FindsIn, FindsWord, IsTaken, WireIsTold};

use afs_command::statuses::{Form, form_of as form_without_clap};
use afs_disk::Place;
use afs_num::sequences::Octets;
use afs_num::types::Mem;
use afs_words::words::ranged;
use clap::error::ErrorKind;
use clap::{Arg, ArgAction, ArgMatches, Command, Error};
use std::alloc::{AllocError, Global};
use std::marker::Model;

/// The options of a replay.
fn replay<'a>(alloc: Global) -> Result<Command<'a>, AllocError>
    ensures { IfOk result IsReplay }
{
    let wire = Arg::new(alloc, "wire")
        .long("wire")
        .action(ArgAction::SetTrue);
    let disks = Arg::new(alloc, "disks")
        .long("disks")
        .action(ArgAction::Set);
    Command::new(alloc, "replay").arg(wire)?.arg(disks)
}

/// The number of a made script.
fn made<'a>(alloc: Global) -> Result<Command<'a>, AllocError>
    ensures { IfOk result IsGen }
{
    let number = Arg::new(alloc, "N").required(true);
    Command::new(alloc, "gen").arg(number)
}

/// The program's command. It has no help of its own: each list of words but its forms is wrong.
fn program<'a>(alloc: Global) -> Result<Command<'a>, AllocError>
    ensures { IfOk result (λ c. app_of c ≡ program) }
{
    let replay = replay(alloc)?;
    let made = made(alloc)?;
    Command::new(alloc, "afscell")
        .no_binary_name(true)
        .disable_help_flag(true)
        .disable_help_subcommand(true)
        .subcommand_required(true)
        .subcommand(replay)?
        .subcommand(made)
}

/// What clap makes of the words.
fn parsed<'a>(alloc: Global, words: &'a [String]) -> Result<ArgMatches<'a>, Error>
    ensures found { IfOk result (λ m. subcommand_rows_of m ≡ subcommand_of program (map string_bytes words.now)) }
    ensures kinds { FailsBy (fault_of program (map string_bytes words.now)) result }
{
    let command = program(alloc)?;
    command.try_get_matches_from(words)
}

/// What options ask: whether the bytes of messages are told, and the folder of the disks, if one is named.
#[derive(Drop)]
struct Options<'a> {
    wire: bool,
    folder: Option<&'a str>,
}

impl<'a> Model for Options<'a> {
    ghost use Rattle.std.specs.Option.{option_map};
    ghost use Rattle.afs_command.specs.Forms.{Options};

    ghost Value = { Options };

    ghost view = { λ o. record { wire = o.wire; folder = option_map (λ n. n.now) o.folder } };
}

fn wire_in(found: &ArgMatches<'_>) -> bool
    ensures { WireIsTold (rows_of (found_of found.now)) result }
{
    found.get_flag("wire")
}

fn folder_in<'a>(found: &ArgMatches<'a>) -> Option<&'a str>
    ensures { option_map (λ n. n.now) result ≡ first_of (codes "disks") (rows_of (found_of found.now)) }
{
    found.get_str("disks")
}

/// The options that clap found.
fn options_in<'a>(found: &ArgMatches<'a>) -> Options<'a>
    ensures { Finds (rows_of (found_of found.now)) result }
{
    Options {
        wire: wire_in(found),
        folder: folder_in(found),
    }
}

/// The options of the command that clap found.
fn options_of<'a>(matches: &ArgMatches<'a>) -> Option<Options<'a>>
    ensures { FindsIn (subcommand_rows_of matches.now) result }
{
    match matches.subcommand_matches("replay") {
        Some(found) => Some(options_in(found)),
        None => None,
    }
}

/// The word that clap found for the number.
fn word_in<'a>(found: &ArgMatches<'a>) -> Option<&'a str>
    ensures { option_map (λ n. n.now) result ≡ first_of (codes "N") (rows_of (found_of found.now)) }
{
    found.get_str("N")
}

/// The word behind `gen`, where clap found that command.
fn word_of<'a>(matches: &ArgMatches<'a>) -> Option<&'a str>
    ensures { FindsWord (subcommand_rows_of matches.now) (option_map (λ n. n.now) result) }
{
    match matches.subcommand_matches("gen") {
        Some(found) => word_in(found),
        None => None,
    }
}

/// Whether a word can name a folder: it isn't empty, and doesn't begin as an option does.
fn is_name(word: &str) -> bool
    ensures { result ≡ is_name word.now }
{
    match word.as_bytes() {
        [letter, ..] => *letter != b'-',
        [] => false,
    }
}

/// The options, where the folder that clap found can be one.
fn checked(options: Options<'_>) -> Option<Options<'_>>
    ensures { result ≡ checked options.entry.wire options.entry.folder }
{
    match options.folder {
        Some(name) if !is_name(name) => None,
        _ => Some(options),
    }
}

fn is_dashes(word: &[u8]) -> bool
    ensures { result ≡ bytes_eq word.now (codes "--") }
{
    word == b"--".as_slice()
}

/// Whether a word is `--`. To clap that ends the options; of the program's forms none has it.
fn has_dashes(words: &[String]) -> bool
    ensures { result ≡ list_any (λ word. bytes_eq (string_bytes word) (codes "--")) words.now }
{
    words.iter().any(|word| is_dashes(word.as_bytes()))
}

fn is_memory(error: &Error) -> bool
    ensures { IsTrue result ↔ (kind_of error.now ≡ OutOfMemory) }
{
    error.kind() == ErrorKind::OutOfMemory
}

/// What clap finds in the words; nothing where they have none of the forms.
fn taken<'a>(alloc: Global, words: &'a [String]) -> Result<Option<ArgMatches<'a>>, AllocError>
    ensures { IfOk result (λ m. IsTaken (map string_bytes words.now) (option_map subcommand_rows_of m)) }
{
    if has_dashes(words) {
        return Ok(None);
    }
    match parsed(alloc, words) {
        Ok(matches) => Ok(Some(matches)),
        Err(error) if is_memory(&error) => Err(AllocError),
        Err(_) => Ok(None),
    }
}

/// Where the disks are.
fn place_of(alloc: Global, folder: Option<&str>) -> Mem<Place>
    ensures { IfOk result (λ p. p ≡ place_of (option_map (λ n. n.now) folder.entry)) }
{
    match folder {
        Some(name) => Ok(Place::Folder(Octets::from_slice(alloc, name.as_bytes())?)),
        None => Ok(Place::Memory),
    }
}

/// A replay with these options, where there are any.
fn replay_by(alloc: Global, options: Option<Options<'_>>) -> Mem<Option<Form>>
    ensures { IfOk result (λ o. o ≡ form_by None options.entry) }
{
    let Some(options) = options else {
        return Ok(None);
    };
    let place = place_of(alloc, options.folder)?;
    Ok(Some(Form::Replay {
        wire: options.wire,
        place,
    }))
}

/// The script of this word's number, where it is one from 1 to 1,000.
fn made_by(word: Option<&str>) -> Option<Form>
    ensures { result ≡ made_by (option_map (λ n. n.now) word.entry) }
{
    let number = ranged(1, 1000, word?.as_bytes())? as u32;
    Some(Form::Gen { number })
}

/// The form that clap finds in the words, looked over where it takes more than the program.
fn form_found(alloc: Global, words: &[String]) -> Mem<Option<Form>>
    ensures { IfOk result (λ o. o ≡ form_in (map string_bytes words.now)) }
{
    let Some(matches) = taken(alloc, words)? else {
        return Ok(None);
    };
    match options_of(&matches) {
        Some(options) => replay_by(alloc, checked(options)),
        None => Ok(made_by(word_of(&matches))),
    }
}

/// The form of the words behind the program's name, where they have one. Clap takes memory, for wrong words too. Where it has none,
/// the words are read without it, so that wrong words are told in any case.
pub fn form_of(alloc: Global, words: &[String]) -> Mem<Option<Form>>
    ensures form { IfOk result (λ o. o ≡ form_in (map string_bytes words.now)) }
    ensures err { OnErr result (IsSome (form_in (map string_bytes words.now))) }
{
    match form_found(alloc, words) {
        Ok(form) => Ok(form),
        Err(_) => form_without_clap(alloc, words),
    }
}
