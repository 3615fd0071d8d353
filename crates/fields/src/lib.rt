// The fields of a file: what document 01 tests of a file before its term, and the parts of an accepted file.
#![tactic(auto)]

ghost use Rattle.std.specs.Prelude.{◌≡◌, ◌+◌, ◌≤◌, ◌<◌, length};
ghost use Rattle.fields.specs.Fields.{word, field_says, field_at, group_end, groups_from, with_groups, read_file, layout_says, layout_of, read_step, body_end, body_at, term_bytes, GroupHere, GroupParts};
ghost use Rattle.fields.specs.Claims.{Reading, Writing};
ghost use Rattle.fields.specs.Examples.{Examples};

use code::numbers::LONGEST_FILE;
use code::refusal::{Condition, Refusal};

// A file: the end of the term's body; how many groups.
#[derive(Clone, Copy)]
pub struct Layout {
    pub end: usize,
    pub groups: usize,
}

// A group: its left steps are from left up to middle, its right steps from right up to next, where the next group starts.
#[derive(Drop)]
pub struct GroupSpan {
    pub left: usize,
    pub middle: usize,
    pub right: usize,
    pub next: usize,
}

// A step: its kind, and its place in the body.
// Kept: the kind is a byte and no enum, since a file may hold any; what it names is told apart where a step is made.
#[derive(Drop)]
pub struct StepBytes {
    pub kind: u8,
    pub place: usize,
}

// The number in two bytes, high byte first.
#[tactic(auto, unfolding(crate::specs::Fields::word))]
fn word_at(s: &[u8], at: usize) -> usize
    requires { at + 2 ≤ length s.now }
    ensures { (result ≡ word s.now at) × (result < 65536) }
{
    usize::from(u16::from_be_bytes([s[at], s[at + 1]]))
}

// The end of the field at a place, where tag is due and its body is a multiple of unit bytes.
#[tactic(auto, using(crate::proofs::Laws::head_cut, crate::proofs::Laws::wrong_tag, crate::proofs::Laws::body_cut, crate::proofs::Laws::no_multiple, crate::proofs::Laws::whole_ends))]
pub fn read_field(s: &[u8], at: usize, tag: u8, unit: usize) -> Result<usize, Refusal>
    requires { (at ≤ length s.now) × (0 < unit) }
    ensures { field_says result ≡ field_at tag unit s.now at }
{
    if s.len() - at < 3 {
        return Err(Condition::CutShort.at(at)); // the head is cut short
    }
    let found = s[at];
    let n = word_at(s, at + 1);
    let left = s.len() - (at + 3);
    if found != tag {
        return Err(Condition::WrongField.at(at)); // another tag
    }
    if left < n {
        return Err(Condition::CutShort.at(at)); // the body is cut short
    }
    if n % unit != 0 {
        return Err(Condition::WrongField.at(at)); // no multiple
    }
    Ok(at + 3 + n)
}

// A tag 2 field, and the tag 3 field after it: its end.
#[tactic(auto, using(crate::proofs::Laws::ended, crate::proofs::Laws::left_fault, crate::proofs::Laws::left_end))]
fn read_group(s: &[u8], at: usize) -> Result<usize, Refusal>
    requires { at ≤ length s.now }
    ensures { field_says result ≡ group_end s.now at }
{
    let middle = read_field(s, at, 2, 3)?;
    read_field(s, middle, 3, 3)
}

// The groups from the end of the term's body on.
#[tactic(auto, using(crate::proofs::Laws::group_ended, crate::proofs::Laws::no_groups, crate::proofs::Laws::groups_fault, crate::proofs::Laws::groups_more, crate::proofs::Laws::layout_group), unfolding(crate::specs::Fields::with_groups))]
fn read_groups(s: &[u8], end: usize) -> Result<Layout, Refusal>
    requires { end ≤ length s.now }
    ensures { layout_says result ≡ layout_of (with_groups end (groups_from s.now end)) }
{
    let mut at = end;
    let mut groups: usize = 0;
    // Kept: no counted index, since each turn goes on by the length of the group that it reads.
    while at < s.len() {
        at = read_group(s, at)?;
        groups += 1;
    }
    Ok(Layout { end, groups })
}

// The tests of a file's length and fields, in one pass.
#[tactic(auto, using(crate::proofs::Laws::ended, crate::proofs::Laws::over_long, crate::proofs::Laws::term_fault, crate::proofs::Laws::term_end_lem))]
pub fn read_fields(s: &[u8]) -> Result<Layout, Refusal>
    ensures { layout_says result ≡ layout_of (read_file s.now) }
{
    if LONGEST_FILE < s.len() {
        return Err(Condition::TooLong.at(0));
    }
    let end = read_field(s, 0, 1, 1)?;
    read_groups(s, end)
}

// The parts of the group whose tag 2 head is at a place.
pub fn group_at(s: &[u8], at: usize) -> GroupSpan
    requires { GroupHere s.now at }
    ensures { GroupParts s.now at result }
{
    let middle = at + 3 + word_at(s, at + 1);
    GroupSpan {
        left: at + 3,
        middle,
        right: middle + 3,
        next: middle + 3 + word_at(s, middle + 1),
    }
}

// The step in three bytes.
pub fn step_at(s: &[u8], at: usize) -> StepBytes
    requires { at + 3 ≤ length s.now }
    ensures { (record { kind = result.kind; place = result.place } ≡ read_step s.now at) × (result.place < 65536) }
{
    StepBytes {
        kind: s[at],
        place: word_at(s, at + 1),
    }
}

// The body of the field at a place.
pub fn body_at(s: &[u8], at: usize) -> &[u8]
    requires { body_end s.now at ≤ length s.now }
    ensures { result.now ≡ body_at s.now at }
{
    let n = word_at(s, at + 1);
    &s[at + 3..at + 3 + n]
}

// The bytes of the term, a part of the file, whose body ends at `end`: none where that is before its head ends.
pub fn term_part(s: &[u8], end: usize) -> &[u8]
    requires { end ≤ length s.now }
    ensures { result.now ≡ term_bytes s.now end }
{
    if end < 3 {
        return &s[..0];
    }
    &s[3..end]
}

// The promises of specs/Claims.antt about the definitions, and the examples.
pub fn reading()
    ensures { Reading }
{}

pub fn writing()
    ensures { Writing }
{}

pub fn examples()
    ensures { Examples }
{}
