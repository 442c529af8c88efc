//! What comes next in a stream, and how it is read.

ghost use Rattle.std.specs.Prelude.{◌≡◌, ◌≤◌, ◌<◌, length, IfOk};
ghost use Rattle.afs_restore.specs.Parts.{Keeps};
ghost use Rattle.afs_restore.specs.Reading.{ReadsField};
ghost use Rattle.afs_restore.specs.Steps.{pairs_step, stage_of, stepped_past, IsPlaceOf, IsStep, StaysThere};
ghost use Rattle.afs_restore.specs.declared.steps.Step.TheVariants as steps;

use crate::fields::{acl, contents, count, mark, pair};
use crate::headers::read_headers;
use crate::images::{image_words, next};
use crate::parts::Parts;
use crate::stops::Stop;
use afs_num::sequences::Octets;
use afs_vnode::copying::copy_vnode;
use afs_xdr::reading::Reader;
use std::alloc::Global;

/// The word after the tag of the end.
const END_MAGIC: u32 = 0x3A21_4B6E;

/// What comes next in a stream: the headers; the count of the list; so many more pairs of it, the next with at least this number;
/// the image of a vnode of the list, from a place in it on; the access list of that image, and its contents, after which images come
/// from this place on; the word after the tag of the end; nothing.
#[derive(Clone, Copy, Debug, PartialEq, Eq)]
pub enum Step {
    Headers,
    Count,
    Pair(u32, u64),
    Image(usize),
    Acl(usize),
    Contents(usize),
    Magic,
    End,
}

/// The first place in which the list has a vnode of this number.
fn place_of(left: &[(u32, u32)], number: u32) -> Option<usize>
    ensures { IsPlaceOf left.now number result }
{
    for place in 0..left.len() {
        if number == left[place].0 {
            return Some(place);
        }
    }
    None
}

/// The headers.
#[tactic(auto, unfolding(crate::specs::Steps::stage_of, crate::specs::Steps::stepped_past))]
fn headers_step(alloc: Global, parts: &mut Parts, r: &mut Reader) -> Result<Step, Stop>
    requires { IsStep steps.Headers parts.old }
    ensures steps { ReadsField (stepped_past (stage_of steps.Headers parts.old)) (λ s. stage_of s parts.new) r.old r.new result }
    ensures step { IfOk result (λ s. IsStep s parts.new) }
    ensures stays { StaysThere parts.old parts.new result }
    ensures kept { Keeps parts.old parts.new }
{
    parts.headers = read_headers(alloc, r)?;
    Ok(Step::Count)
}

/// What comes after the count of the list, or after a pair: more pairs, or the images.
fn pairs_step(more: u32, least: u64) -> Step
    ensures { result ≡ pairs_step more least }
{
    if more == 0 {
        Step::Image(0)
    } else {
        Step::Pair(more, least)
    }
}

/// The count of the list.
#[tactic(auto, unfolding(crate::specs::Steps::stage_of, crate::specs::Steps::stepped_past))]
fn count_step(parts: &Parts, r: &mut Reader) -> Result<Step, Stop>
    requires { IsStep steps.Count parts.now }
    ensures steps { ReadsField (stepped_past (stage_of steps.Count parts.now)) (λ s. stage_of s parts.now) r.old r.new result }
    ensures step { IfOk result (λ s. IsStep s parts.now) }
{
    let count = count(r)?;
    Ok(pairs_step(count, 0))
}

/// The next pair of the list.
#[tactic(auto, unfolding(crate::specs::Steps::stage_of, crate::specs::Steps::stepped_past))]
fn pair_step(parts: &mut Parts, more: u32, least: u64, r: &mut Reader) -> Result<Step, Stop>
    requires { IsStep (steps.Pair more least) parts.old }
    ensures steps { ReadsField (stepped_past (stage_of (steps.Pair more least) parts.old)) (λ s. stage_of s parts.new) r.old r.new result }
    ensures step { IfOk result (λ s. IsStep s parts.new) }
    ensures stays { StaysThere parts.old parts.new result }
    ensures kept { Keeps parts.old parts.new }
{
    let one = pair(r, least)?;
    parts.live.push(one)?;
    Ok(pairs_step(more - 1, u64::from(one.0) + 1))
}

/// The words of the next image, or the tag of the end.
#[tactic(auto, unfolding(crate::specs::Steps::stage_of, crate::specs::Steps::stepped_past))]
fn image_step(alloc: Global, parts: &mut Parts, place: usize, r: &mut Reader) -> Result<Step, Stop>
    requires { IsStep (steps.Image place) parts.old }
    ensures steps { ReadsField (stepped_past (stage_of (steps.Image place) parts.old)) (λ s. stage_of s parts.new) r.old r.new result }
    ensures step { IfOk result (λ s. IsStep s parts.new) }
    ensures stays { StaysThere parts.old parts.new result }
    ensures kept { Keeps parts.old parts.new }
{
    let (_, left) = parts.live.as_slice().split_at(place);
    match next(r)? {
        None => Ok(Step::Magic),
        Some(number) => match place_of(left, number) {
            Some(found) => {
                parts.next = image_words(alloc, r, left[found])?;
                Ok(Step::Acl(place + found + 1))
            }
            None => Err(Stop::Bad),
        },
    }
}

/// The access list of an image.
#[tactic(auto, unfolding(crate::specs::Steps::stage_of, crate::specs::Steps::stepped_past))]
fn acl_step(alloc: Global, parts: &mut Parts, place: usize, r: &mut Reader) -> Result<Step, Stop>
    requires { IsStep (steps.Acl place) parts.old }
    ensures steps { ReadsField (stepped_past (stage_of (steps.Acl place) parts.old)) (λ s. stage_of s parts.new) r.old r.new result }
    ensures step { IfOk result (λ s. IsStep s parts.new) }
    ensures stays { StaysThere parts.old parts.new result }
    ensures kept { Keeps parts.old parts.new }
{
    let list = acl(alloc, r, parts.next.kind)?;
    parts.next.acl = Octets::from_slice(alloc, list)?;
    Ok(Step::Contents(place))
}

/// The contents of an image, which then is whole.
#[tactic(auto, unfolding(crate::specs::Steps::stage_of, crate::specs::Steps::stepped_past))]
fn contents_step(
    alloc: Global,
    parts: &mut Parts,
    place: usize,
    r: &mut Reader,
) -> Result<Step, Stop>
    requires { IsStep (steps.Contents place) parts.old }
    ensures steps { ReadsField (stepped_past (stage_of (steps.Contents place) parts.old)) (λ s. stage_of s parts.new) r.old r.new result }
    ensures step { IfOk result (λ s. IsStep s parts.new) }
    ensures stays { StaysThere parts.old parts.new result }
    ensures kept { Keeps parts.old parts.new }
{
    let bytes = contents(alloc, r, parts.next.kind)?;
    let mut image = copy_vnode(alloc, &parts.next)?;
    image.contents = Octets::from_slice(alloc, bytes)?;
    parts.images.push(image)?;
    Ok(Step::Image(place))
}

/// The word after the tag of the end.
#[tactic(auto, unfolding(crate::specs::Steps::stage_of, crate::specs::Steps::stepped_past))]
fn magic_step(parts: &Parts, r: &mut Reader) -> Result<Step, Stop>
    ensures steps { ReadsField (stepped_past (stage_of steps.Magic parts.now)) (λ s. stage_of s parts.now) r.old r.new result }
    ensures step { IfOk result (λ s. IsStep s parts.now) }
{
    mark(r, END_MAGIC)?;
    Ok(Step::End)
}

/// Reads what comes next, and tells what comes then.
pub fn take_step(alloc: Global, parts: &mut Parts, step: Step, r: &mut Reader) -> Result<Step, Stop>
    requires step { IsStep step parts.old }
    requires goes { step ≡ steps.End → ⊥ }
    ensures steps { ReadsField (stepped_past (stage_of step parts.old)) (λ s. stage_of s parts.new) r.old r.new result }
    ensures step { IfOk result (λ s. IsStep s parts.new) }
    ensures stays { StaysThere parts.old parts.new result }
    ensures kept { Keeps parts.old parts.new }
{
    match step {
        Step::Headers => headers_step(alloc, parts, r),
        Step::Count => count_step(parts, r),
        Step::Pair(more, least) => pair_step(parts, more, least, r),
        Step::Image(place) => image_step(alloc, parts, place, r),
        Step::Acl(place) => acl_step(alloc, parts, place, r),
        Step::Contents(place) => contents_step(alloc, parts, place, r),
        Step::Magic => magic_step(parts, r),
        Step::End => unreachable!(),
    }
}
