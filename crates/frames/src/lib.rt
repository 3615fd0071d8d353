// The frame record: the place of each entry's bytes in a work array, how many there are, and where they end.
// The empty function at the end carries the promises of specs/Claims.antt.
#![tactic(auto)]

ghost use Rattle.std.specs.Prelude.{◌≡◌, ◌≤◌};
ghost use Rattle.frames.specs.Stored.{Holding, EmptyRecord, SomeTermFrom, EndAt, EntryAt, Parted, Looked};
ghost use Rattle.frames.specs.Claims.{FrameLaws};

use code::numbers::{LONGEST_STATE, MOST_ABSTRACTORS};
use code::term_end;

// The work array (document 01: 'one [0; LONGEST_STATE] byte array').
pub type Work = [u8; LONGEST_STATE];

// The place of each entry.
pub type Starts = [u16; MOST_ABSTRACTORS];

#[derive(Clone, Copy)]
pub struct FrameRecord {
    pub starts: Starts,
    pub len: usize,
    pub end: usize,
}

// Where the parts of an entry stand; nothing is applied where it is a single abstractor.
#[derive(Clone, Copy)]
pub struct Span {
    pub applied: Option<usize>,
    pub domain: usize,
    pub end: usize,
}

// The frame without entries.
pub fn empty_frame() -> FrameRecord
    ensures { EmptyRecord result }
{
    FrameRecord {
        starts: [0; MOST_ABSTRACTORS],
        len: 0,
        end: 0,
    }
}

// Where the term that starts at p ends.
fn end_of(work: &Work, p: usize) -> usize
    requires { SomeTermFrom work.now p }
    ensures { EndAt work.now p result }
{
    term_end(&work[..], p).unwrap()
}

// The parts of the entry whose bytes stand from p up to e.
fn parts_of(work: &Work, p: usize, e: usize) -> Span
    requires { EntryAt work.now p e }
    ensures { Parted work.now p e result }
{
    if work[p] == 0xff {
        return Span {
            applied: None,
            domain: p + 1,
            end: e,
        };
    }
    let m = end_of(work, p + 1);
    Span {
        applied: Some(p + 1),
        domain: m + 1,
        end: e,
    }
}

// The parts of the entry that index k means.
pub fn entry_at(work: &Work, frame: &FrameRecord, k: usize) -> Span
    requires { Holding work.now frame.now × (1 ≤ k) × (k ≤ frame.now.len) }
    ensures { Looked work.now frame.now k result }
{
    let i = frame.len - k;
    let p = usize::from(frame.starts[i]);
    let e = if k > 1 {
        usize::from(frame.starts[i + 1])
    } else {
        frame.end
    };
    parts_of(work, p, e)
}

pub fn frame_laws()
    ensures { FrameLaws }
{}
