// A body held as letters, after a frame: its type, and a local step on it (document 01, 'Terms' and 'Steps').
#![tactic(auto)]

ghost use Rattle.std.specs.Prelude.{◌≡◌, ◌≤◌, ◌<◌, get_or, length};
ghost use Rattle.code.specs.Limits.{longest_term};
ghost use Rattle.letters.specs.Letters.{height_of};
ghost use Rattle.bodies.specs.declared.StepError.TheVariants.{NotPossible};
ghost use Rattle.bodies.specs.Reasons.{said, reason_number};
ghost use Rattle.bodies.specs.Held.{SomeHeld, InBody, Steps, Types};
ghost use Rattle.bodies.specs.Finding.{Findable, Found, partner_from, SomeBound, Finds};
ghost use Rattle.bodies.specs.Moving.{Ending, LiftableLetter, lifted_letter, LettersLiftable, LettersLifted, SomeLies, DeepestIs};
ghost use Rattle.bodies.specs.Putting.{Sourced, SourceWritten, Puttable, PutsTerm};

use code::numbers::{LONGEST_TERM, MOST_ABSTRACTORS};
use frames::{FrameRecord, Work, entry_at};
use letters::{ABSTRACTOR, APPLICATOR, Letters, depth_of, height_of, letter_of, read, symbol_of};

// Why a step is not possible, in the order in which it is tried.
#[derive(Clone, Copy, Debug, PartialEq, Eq)]
pub enum Reason {
    UnknownKind = 1,
    PastEnd = 2,
    WrongSymbol = 3,
    NoPartner = 4,
    StillUsed = 5,
}

// Its number.
impl From<Reason> for usize {
    ghost from_gives = { λ x r. r ≡ reason_number (said x) };

    fn from(reason: Reason) -> usize {
        reason as usize
    }
}

// Why a step reaches no form: it is not possible, or the form is over the limits.
#[derive(Clone, Copy, Debug, PartialEq, Eq)]
pub enum StepError {
    NotPossible(Reason),
    Outgrown,
}

impl From<Reason> for StepError {
    ghost from_gives = { λ x e. e ≡ NotPossible x };

    fn from(reason: Reason) -> StepError {
        StepError::NotPossible(reason)
    }
}

// Letters of the body from `start` up to `end`.
#[derive(Clone, Copy)]
struct Part {
    start: usize,
    end: usize,
}

// Where a term stands that is to take a variable's place: in the frame's bytes, or among the body's letters.
#[derive(Clone, Copy)]
enum Holder {
    TheFrame,
    TheBody,
}

// Such a term, from `start` up to `end` there, and by how much it is lifted.
#[derive(Clone, Copy)]
struct Source {
    holder: Holder,
    start: usize,
    end: usize,
    lift: usize,
}

// ---- The end of a term.
// A place from i on, of n, up to which no letter is less high than h: four letters are tried at once, as the highest bits are the height.
fn skip_high(s: &Letters, n: usize, i: usize, h: usize) -> usize
    requires { (n ≤ longest_term) × (i ≤ n) }
    ensures { Ending s.now result i h result × (result ≤ n) }
{
    let fours = (n - i) / 4;
    for k in 0..fours {
        let j = i + 4 * k;
        if height_of(s[j].min(s[j + 1]).min(s[j + 2].min(s[j + 3]))) < h {
            return j;
        }
    }
    i + 4 * fours
}

// The first place from i on, of n, whose letter is less high than h.
pub fn end_of(s: &Letters, n: usize, i: usize, h: usize) -> usize
    requires { (n ≤ longest_term) × (i ≤ n) }
    ensures { Ending s.now n i h result }
{
    if h == 0 {
        return n;
    }
    for j in skip_high(s, n, i, h)..n {
        if height_of(s[j]) < h {
            return j;
        }
    }
    n
}

// ---- Binders.
// The abstractor of depth d that has place p in its scope.
fn abstractor_of(s: &Letters, p: usize, d: usize) -> usize
    requires { Findable s.now p d }
    ensures { Found s.now p d result }
{
    let mut m = height_of(s[p]);
    let mut sought = letter_of(ABSTRACTOR, d, m);
    for q in (0..p).rev() {
        let x = s[q];
        if x == sought {
            return q;
        }
        let h = height_of(x);
        if h < m {
            m = h;
            sought = letter_of(ABSTRACTOR, d, h);
        }
    }
    p
}

// The K of the applicator that matches the abstractor at q in its train: wagons of the train are passed from right to left, and
// `unmatched` of the abstractors among them are still to be matched; `next` is the last one passed.
fn partner_of(s: &Letters, q: usize) -> Option<Part>
    requires { q < longest_term }
    ensures { result ≡ partner_from s.now (height_of (get_or s.now q 0)) q 0 q }
{
    let h = height_of(s[q]);
    let mut unmatched: usize = 0;
    let mut next = q;
    for i in (0..q).rev() {
        let x = s[i];
        let g = height_of(x);
        if g <= h {
            if g < h {
                return None;
            }
            if symbol_of(x) == APPLICATOR {
                if unmatched == 0 {
                    return Some(Part {
                        start: i + 1,
                        end: next,
                    });
                }
                unmatched -= 1;
            } else {
                unmatched += 1;
            }
            next = i;
        }
    }
    None
}

// The K of the couple of the variable at place p, whose abstractor in the body has depth d.
fn find(s: &Letters, p: usize, d: usize) -> Option<Part>
    requires { SomeBound s.now p d }
    ensures { Finds s.now p d result }
{
    let q = abstractor_of(s, p, d);
    partner_of(s, q)
}

// ---- Lifting.
// A letter of a term that is lifted by k, in 32 bits as the letters are, so that the loop is vectorised. The first letter of the term has
// depth c and height low, and is to have depth c + k and height h.
pub fn lifted_letter(x: u32, c: u32, k: u32, h: u32, low: u32) -> u32
    requires { LiftableLetter c k h low x }
    ensures { result ≡ lifted_letter c k h low x }
{
    let y = x - low * 1048576 + (k * 1024 + h * 1048576);
    let symbol = x % 1024;
    if symbol >= 1022 {
        return y;
    }
    if symbol > x / 1024 % 1024 - c {
        return y + k;
    }
    y
}

// Kept: `as` here and in `write_source`, since Rust has no From here; passes over letters are in 32 bits (steps::couple_at).
// The letters of a term, the first of which has depth c, go lifted by k to `out`, where the first has height h.
pub fn lift_to(term: &[u32], c: u32, k: u32, h: u32, out: &mut [u32])
    requires { LettersLiftable term.now c k h × (length out.old ≡ length term.now) }
    ensures { LettersLifted term.now out.new c k h }
{
    let low = height_of(term[0]) as u32;
    for (i, x) in term.iter().enumerate() {
        out[i] = lifted_letter(*x, c, k, h, low);
    }
}

// The most abstractors of the body that any letter of a term has in scope.
pub fn deepest(term: &[u32]) -> u32
    requires { SomeLies term.now }
    ensures { DeepestIs term.now result }
{
    let mut most: u32 = 0;
    for x in term {
        most = most.max(x / 1024 % 1024);
    }
    most
}

// ---- A term in a variable's place.
// Kept: a bool, as letters::read.
// The term that x says, lifted, goes to p, its first letter at depth d and height h. Not, if more than `room` of its abstractors are in
// scope anywhere.
fn write_source(
    s: &mut Letters,
    work: &Work,
    x: Source,
    d: usize,
    h: usize,
    room: usize,
    p: usize,
) -> bool
    requires { Sourced work.now s.old p d h room x }
    ensures { SourceWritten work.now s.old s.new p d h room x result }
{
    match x.holder {
        Holder::TheFrame => read(&work[x.start..x.end], x.lift, d, h, room, s, p),
        Holder::TheBody => {
            let c = (d - x.lift) as u32;
            let (before, place) = s.split_at_mut(p);
            let term = &before[x.start..x.end];
            if deepest(term) > c + room as u32 {
                return false;
            }
            lift_to(
                term,
                c,
                x.lift as u32,
                h as u32,
                &mut place[..x.end - x.start],
            );
            true
        }
    }
}

// The term that x says, lifted, takes the place of the variable at p of the body in the first n letters, after the frame.
fn put(
    s: &mut Letters,
    n: usize,
    work: &Work,
    frame: &FrameRecord,
    p: usize,
    x: Source,
) -> Result<usize, StepError>
    requires { Puttable work.now frame.now s.old n p x }
    ensures { PutsTerm work.now frame.now s.old s.new n p x result }
{
    let size = x.end - x.start;
    let m = n - 1 + size;
    if m > LONGEST_TERM {
        return Err(StepError::Outgrown);
    }
    let v = s[p];
    let d = depth_of(v);
    let room = MOST_ABSTRACTORS - frame.len - d;
    // a letter in the variable's place moves nothing
    if size > 1 {
        s.copy_within(p + 1..n, p + size);
    }
    if !write_source(s, work, x, d, height_of(v), room, p) {
        return Err(StepError::Outgrown);
    }
    Ok(m)
}

// ---- Steps of kind 1, at place p.
pub fn local(
    s: &mut Letters,
    n: usize,
    work: &Work,
    frame: &FrameRecord,
    p: usize,
) -> Result<usize, StepError>
    requires { InBody work.now frame.now s.old n p }
    ensures { Steps work.now frame.now s.old s.new n (record { kind = 1; place = p }) result }
{
    let v = s[p];
    let k = symbol_of(v);
    if k == 0 || k >= APPLICATOR {
        return Err(StepError::NotPossible(Reason::WrongSymbol));
    }
    let d = depth_of(v);
    if k <= d {
        let Some(applied) = find(s, p, d - k) else {
            return Err(StepError::NotPossible(Reason::NoPartner));
        };
        let x = Source {
            holder: Holder::TheBody,
            start: applied.start,
            end: applied.end,
            lift: d - depth_of(s[applied.start - 1]),
        };
        return put(s, n, work, frame, p, x);
    }
    let e = entry_at(work, frame, k - d);
    let Some(start) = e.applied else {
        return Err(StepError::NotPossible(Reason::NoPartner));
    };
    let x = Source {
        holder: Holder::TheFrame,
        start,
        end: e.domain - 1,
        lift: k,
    };
    put(s, n, work, frame, p, x)
}

// ---- The type of the body in the first n letters takes its place: U for its last variable.
pub fn type_in_place(
    s: &mut Letters,
    n: usize,
    work: &Work,
    frame: &FrameRecord,
) -> Result<usize, StepError>
    requires { SomeHeld work.now frame.now s.old n }
    ensures { Types work.now frame.now s.old s.new n result }
{
    let p = n - 1;
    let v = s[p];
    let k = symbol_of(v);
    if k == 0 {
        return Err(StepError::NotPossible(Reason::WrongSymbol));
    }
    let d = depth_of(v);
    if k <= d {
        let q = abstractor_of(s, p, d - k);
        let h = height_of(s[q]);
        let to = end_of(s, n, q + 1, h + 1);
        let x = Source {
            holder: Holder::TheBody,
            start: q + 1,
            end: to,
            lift: k,
        };
        return put(s, n, work, frame, p, x);
    }
    let e = entry_at(work, frame, k - d);
    let x = Source {
        holder: Holder::TheFrame,
        start: e.domain,
        end: e.end,
        lift: k,
    };
    put(s, n, work, frame, p, x)
}
