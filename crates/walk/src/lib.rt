// The walk of the check of a file: the one-pass rules (001, section 5.8) on the bytes of the term and of its copies. The frame's bytes
// stand in a work array; one state is a struct of numbers, and one function takes it to the next. `rule_of` tells the rules apart, in the
// paper's order and by the paper's numbers; what they do stands after it in the same order (docs/RULES.md).
#![tactic(auto)]

ghost use Rattle.std.specs.Prelude.{◌≡◌, true, false, cond, List, ℕ, ◌+◌, ◌-◌, ◌*◌, ◌≤◌, ◌<◌, max, length, get_or, set};
ghost use Rattle.calculus.specs.Terms.{lift_index};
ghost use Rattle.code.specs.Limits.{longest_term, longest_state, most_abstractors};
ghost use Rattle.frames.specs.Stored.{pushed};
ghost use Rattle.compare.specs.Sides.{Buffers};
ghost use Rattle.waiting.specs.Writing.{PutAsked, Puts};
ghost use Rattle.walk.specs.State.{text_of, arrays_of, Stated};
ghost use Rattle.walk.specs.Clauses.{within, stopped_by, completed_of, past_of, met_of, typed_of, start_of, inner_of, checked_of, TestAs, DueAs, RuleAt, TauTurn, WaitReady, PutAside, WaitTurn, DepthsKnown, AbstractorAt, Wagons, Known, Turns, InnerAt, Checks, Walkable, longest_list, WholeAnswer, WalkAnswer, walked_says};

use code::numbers::{LONGEST_STATE, LONGEST_TERM, MOST_ABSTRACTORS};
use compare::{Ground, compare};
use frames::{FrameRecord, Starts, Work, empty_frame};
use letters::Letters;
use texts::measure;
use waiting::{Slot, copy_from, low, put, slot_at, store_slot};

// So many numbers are enough for all that can wait: six for each of 6,144. Where little is copied, a third is enough.
pub const LONGEST_LIST: usize = 36864;

const USUAL_LIST: usize = 12288;

// Most terms are no longer, and little of theirs waits.
const SHORT_TERM: usize = 256;

const SHORT_LIST: usize = 768;

// What a walk that passes answers: the comparisons completed, and where the next group is.
#[derive(Clone, Copy, Debug, PartialEq, Eq)]
pub struct Walked {
    pub comparisons: usize,
    pub next: usize,
}

// What stops a walk, and where; and the comparisons completed.
#[derive(Clone, Copy, Debug, PartialEq, Eq)]
pub struct Stopped {
    pub by: Ground,
    pub place: usize,
    pub comparisons: usize,
}

// What ends a walk that does not pass; or a lent list has no room for one more waiting applicator.
#[derive(Clone, Copy)]
pub enum Stop {
    ListFull,
    Stopped(Stopped),
}

// The term's text, and what was measured of it: the size and the scope of the term that starts at each place, and how deep the place lies.
#[derive(Clone, Copy)]
pub struct Measured<'a> {
    pub term: &'a [u8],
    pub sizes: &'a [u16],
    pub scopes: &'a [u16],
    pub depths: &'a [u8],
    pub ghost known: { Known term.now sizes.now scopes.now },
    pub ghost deep: { DepthsKnown term.now depths.now },
}

// What the walk writes, but for the list of what waits: the work array, with the frame; for each entry where its U starts there, and
// the place of the text that this is a copy of; and how far frames were written.
#[derive(Drop)]
pub struct Memory {
    pub work: Work,
    pub domains: Starts,
    pub origins: Starts,
    pub reach: usize,
}

// A state (R, W, B) of the term's own text or (R, W, Y, B) of copied text, but for its frame R. The order of the fields was tried: by it
// alone LLVM's code takes from 0.9 to 1.2 of the time for a book (docs/BENCHMARK.md).
#[derive(Clone, Copy)]
pub struct WalkState {
    // what stands inside B's first applicator or abstractor has been checked
    pub checked: bool,
    // B is the term's own text
    pub own: bool,
    // B's bytes stand in the term; else in the work array
    pub in_term: bool,
    // completed so far
    pub comparisons: usize,
    // where B begins in the term; in copied text, the variable that it stems from
    pub place: usize,
    // where B's bytes begin
    pub from: usize,
    // the place of the term's text that B is a copy of
    pub origin: usize,
    // W stands in the list from `bottom` up to `middle`, and Y above it up to `top`
    pub bottom: usize,
    pub middle: usize,
    pub top: usize,
    // of all that waits; its scope is below
    pub size: usize,
    // B is seen lifted above `cut` by `shift`
    pub cut: usize,
    pub shift: usize,
    pub scope: usize,
    // the next group
    pub next: usize,
}

// What a turn comes to.
#[derive(Clone, Copy)]
pub enum Turned {
    Answer(Result<Walked, Stop>),
    // another state; the bytes of one more entry, if the frame has one, end at `entered`
    State {
        state: WalkState,
        entered: Option<usize>,
    },
    // what stands inside the first applicator or abstractor is to be checked first
    Inner,
    // a comparison is due, placed at `place`: K's bytes end at `middle`, and the entry's at `end`. Then the state follows
    Compare {
        state: WalkState,
        place: usize,
        middle: usize,
        end: usize,
    },
}

// The rules of the walk, and that what stands inside the first wagon of the term's own text is to be checked first, as (iii), (iv)
// and (v) ask.
#[derive(Clone, Copy)]
pub enum Rule {
    InsideFirst,
    One,
    Three,
    Four,
    Five,
    Six,
    Seven,
    Eight,
    Nine,
    Ten,
    Eleven,
    Twelve,
}

// What stops the walk in the state s.
fn stop_at(by: Ground, place: usize, s: WalkState) -> Stop
    ensures { result ≡ stopped_by by place s }
{
    Stop::Stopped(Stopped {
        by,
        place,
        comparisons: s.comparisons,
    })
}

// One more entry, whose bytes end at `end`.
fn push_entry(f: &mut FrameRecord, end: usize)
    requires { (f.old.end < 65536) × (f.old.len < most_abstractors) }
    ensures { f.new ≡ pushed f.old end }
{
    // Kept: `as` here and in `enter_domain`, since Rust has no From here; the clauses bound each number.
    f.starts[f.len] = f.end as u16;
    f.len += 1;
    f.end = end;
}

// Whether a state whose B has `size` bytes and `scope` is within the limits, after the frame.
fn fits(frame: &FrameRecord, s: WalkState, size: usize, scope: usize) -> bool
    requires { (s.size < 65536) × (s.scope < 65536) × (frame.now.len < 65536) × (frame.now.end < 65536) × (size < 65536) × (scope < 65536) }
    ensures { result ≡ within (frame.now.end + (s.size + size)) (frame.now.len + max s.scope scope) }
{
    frame.end + (s.size + size) <= LONGEST_STATE
        && frame.len + s.scope.max(scope) <= MOST_ABSTRACTORS
}

// The test for 11. It was made already where what stands inside the first wagon has been checked.
fn test(text: &Measured, frame: &FrameRecord, s: WalkState) -> bool
    requires { (s.size < 65536) × (s.scope < 65536) × (frame.now.len < 65536) × (frame.now.end < 65536) × (s.origin < length text.now.sizes.now) × (s.origin < length text.now.scopes.now) }
    ensures { TestAs text.now.sizes.now text.now.scopes.now frame.now.len frame.now.end s result }
{
    if s.checked {
        return true;
    }
    let o = s.origin;
    let n = usize::from(text.sizes[o]);
    let y = usize::from(text.scopes[o]);
    fits(frame, s, n, y)
}

// Whether what stands inside the first wagon is to be checked first.
fn due(s: WalkState) -> bool
    ensures { DueAs s result }
{
    if s.checked {
        return false;
    }
    s.own
}

fn symbol(t: &[u8], work: &Work, s: WalkState) -> u8
    requires { (s.from < length (cond s.in_term t.now work.now)) × (length work.now ≡ longest_state) }
    ensures { result ≡ get_or (cond s.in_term t.now work.now) s.from 0 }
{
    let from = s.from;
    if s.in_term {
        return t[from];
    }
    work[from]
}

// The rule for a state whose B begins with the byte b.
fn rule_of(s: WalkState, b: u8) -> Rule
    ensures { RuleAt s b result }
{
    if s.own {
        // (i)
        if b == 0 {
            return Rule::One;
        }
        if b >= 0xfe {
            if due(s) {
                return Rule::InsideFirst;
            }
            // (iii)
            if b == 0xfe {
                return Rule::Three;
            }
            // (iv)
            if s.bottom == s.top {
                return Rule::Four;
            }
            // (v)
            return Rule::Five;
        }
    }
    // (vi)
    if b == 0 {
        return Rule::Six;
    }
    // (vii)
    if s.own {
        return Rule::Seven;
    }
    // (viii)
    if b < 0xfe {
        return Rule::Eight;
    }
    // (ix)
    if b == 0xfe {
        return Rule::Nine;
    }
    // (x)
    if s.bottom == s.top {
        return Rule::Ten;
    }
    // (xi)
    if s.middle == s.top {
        return Rule::Eleven;
    }
    // (xii)
    Rule::Twelve
}

// The state past the first wagon, whose term has n bytes.
fn past(
    s: WalkState,
    n: usize,
    cut: usize,
    middle: usize,
    top: usize,
    size: usize,
    scope: usize,
) -> WalkState
    requires { (n < 65536) × (s.from < 65536) × (s.origin < 65536) }
    ensures { result ≡ past_of s n cut middle top size scope s.next s.comparisons }
{
    let from = s.from + 1 + n;
    WalkState {
        checked: false,
        place: if s.own { from } else { s.place },
        from,
        origin: s.origin + 1 + n,
        cut,
        middle,
        top,
        size,
        scope,
        ..s
    }
}

// τ: (i) and (vi).
fn at_tau(list: &[u16], s: WalkState) -> Turned
    requires { (s.bottom ≤ s.top) × (6 * s.top ≤ length list.now) }
    ensures { TauTurn list.now s result }
{
    if s.middle < s.top {
        return Turned::Answer(Err(stop_at(Ground::NotReached, s.place, s)));
    }
    if s.bottom == s.top {
        return Turned::Answer(Ok(Walked {
            comparisons: s.comparisons,
            next: s.next,
        }));
    }
    let v = slot_at(list, s.top - 1);
    let waiting = s.top - s.bottom;
    Turned::Answer(Err(stop_at(Ground::StillWaiting { waiting }, v.place, s)))
}

// Where the bytes of ⟨K⟩ stand in the work array while it waits: those of copied text where they stand, and those of the term's own text,
// whose K has n bytes, at the array's end, before those that wait already.
fn put_aside(t: &[u8], work: &mut Work, list: &[u16], s: WalkState, n: usize) -> usize
    requires { (len : ℕ) × WaitReady t.now work.old list.now len s n }
    ensures { PutAside t.now work.old work.new list.now s n result × (result < 65536) }
{
    if !s.own {
        return s.from;
    }
    let at = low(list, s.top) - (1 + n);
    copy_from(t, s.place, 1 + n, work, at);
    at
}

// ⟨K⟩, whose K has n bytes and the scope y, waits: (iii) and (ix).
fn wait(
    t: &[u8],
    work: &mut Work,
    list: &mut [u16],
    len: usize,
    s: WalkState,
    n: usize,
    y: usize,
) -> Turned
    requires { WaitReady t.now work.old list.old len s n }
    ensures { WaitTurn t.now work.old work.new list.old list.new len s n y result }
{
    let top = s.top;
    if list.len() < 6 * top + 6 {
        return Turned::Answer(Err(Stop::ListFull));
    }
    let at = put_aside(t, work, list, s, n);
    let v = Slot {
        place: s.origin,
        at,
        depth: len,
        shift: s.shift,
        cut: s.cut,
        scope: s.scope,
    };
    store_slot(list, top, v);
    let mut middle = s.middle;
    if s.own {
        middle = top + 1;
    }
    let state = past(
        s,
        n,
        s.cut,
        middle,
        top + 1,
        s.size + (1 + n),
        s.scope.max(y),
    );
    Turned::State {
        state,
        entered: None,
    }
}

// Kept: a function of its own, since the edit inner_frame_forgotten names it.
// A frame is written up to e.
fn stretch(reach: &mut usize, e: usize)
    ensures { reach.new ≡ max reach.old e }
{
    *reach = (*reach).max(e);
}

// U, which has n bytes and stands behind the first byte of B, is written to `to`, and noted.
#[inline(always)]
fn enter_domain(
    text: &Measured,
    memory: &mut Memory,
    len: usize,
    to: usize,
    s: WalkState,
    n: usize,
) -> usize
    requires { (len < most_abstractors) × (to + 1 < 65536) × (s.origin + 1 < 65536) × (s.from < 65536) × (n < 65536) × PutAsked text.now.term.now text.now.depths.now memory.old.work s.in_term (s.from + 1) (s.from + 1 + n) (s.origin + 1) to s.shift s.cut 0 }
    ensures { Puts 0xff (cond s.in_term text.now.term.now memory.old.work) memory.old.work memory.new.work (s.from + 1) (s.from + 1 + n) s.shift s.cut 0 to result × (memory.new.domains ≡ set memory.old.domains len (to + 1)) × (memory.new.origins ≡ set memory.old.origins len (s.origin + 1)) × (memory.new.reach ≡ memory.old.reach) }
{
    let from = s.from + 1;
    let e = put(
        text.term,
        text.depths,
        &mut memory.work,
        0xff,
        s.in_term,
        from,
        from + n,
        s.origin + 1,
        to,
        s.shift,
        s.cut,
        0,
    );
    memory.domains[len] = (to + 1) as u16;
    memory.origins[len] = (s.origin + 1) as u16;
    e
}

// Kept: what these ask of five values that change apart is said once, as `AbstractorAt`, and no one of them could carry it.
// [U], whose U has n bytes, while nothing waits: (iv) and (x).
fn enter_alone(
    text: &Measured,
    memory: &mut Memory,
    frame: &FrameRecord,
    s: WalkState,
    n: usize,
) -> Turned
    requires { (s.bottom ≡ s.top) × ((file list : List ℕ) × AbstractorAt (text_of file text.now.term.now) (arrays_of memory.old list) frame.now s n) }
    ensures { (file list a b : List ℕ) → AbstractorAt (text_of file text.now.term.now) (arrays_of memory.old list) frame.now s n → Wagons (text_of file text.now.term.now) (arrays_of memory.old list) (arrays_of memory.new list) frame.now s a b result }
{
    let b = enter_domain(text, memory, frame.len, frame.end, s, n);
    stretch(&mut memory.reach, b);
    let state = past(s, n, s.cut + 1, s.middle, s.top, s.size, s.scope);
    Turned::State {
        state,
        entered: Some(b),
    }
}

// Kept: a function of its own, since the edit overwritten_taken names it.
// Whether a frame was written past `at`.
fn is_lost(at: usize, reach: usize) -> bool
    ensures { result ≡ false → reach ≤ at }
{
    at < reach
}

// Where K starts that waits as v says: in the term, or in the work array.
fn start_of(v: Slot, in_term: bool) -> usize
    requires { (v.place < 65536) × (v.at < 65536) }
    ensures { (result ≡ cond in_term v.place v.at) × (result < 65536) }
{
    if in_term { v.place } else { v.at }
}

// [U], whose U has n bytes, takes the last of W: (v) and (xi). They are to be compared. K is read from the end of the work array, or from
// the term if a frame was written over it, as the copied text of an inner check may, or if this one will be.
fn enter_waiting(
    text: &Measured,
    memory: &mut Memory,
    list: &[u16],
    frame: &FrameRecord,
    s: WalkState,
    n: usize,
) -> Turned
    requires { (s.top ≤ s.middle) × (s.bottom ≡ s.top → ⊥) × ((file : List ℕ) × AbstractorAt (text_of file text.now.term.now) (arrays_of memory.old list.now) frame.now s n) }
    ensures { (file a b : List ℕ) → AbstractorAt (text_of file text.now.term.now) (arrays_of memory.old list.now) frame.now s n → Wagons (text_of file text.now.term.now) (arrays_of memory.old list.now) (arrays_of memory.new list.now) frame.now s a b result }
{
    let top = s.top - 1;
    let v = slot_at(list, top);
    let o = v.place + 1;
    let k = usize::from(text.sizes[o]);
    let b = frame.end + (1 + k) + (1 + n);
    stretch(&mut memory.reach, b);
    let lost = is_lost(v.at, memory.reach);
    let at = start_of(v, lost) + 1;
    let a = put(
        text.term,
        text.depths,
        &mut memory.work,
        0xfe,
        lost,
        at,
        at + k,
        o,
        frame.end,
        v.shift,
        v.cut,
        frame.len - v.depth,
    );
    let e = enter_domain(text, memory, frame.len, a, s, n);
    let state = past(s, n, s.cut + 1, top, top, s.size - (1 + k), v.scope);
    Turned::Compare {
        state,
        place: v.place,
        middle: a,
        end: e,
    }
}

// A variable of the term's own text: (vii).
fn meet(s: WalkState) -> Turned
    ensures { result ≡ Turned.State (met_of s) None }
{
    Turned::State {
        state: WalkState {
            own: false,
            checked: false,
            ..s
        },
        entered: None,
    }
}

// The index b, seen lifted by n above c.
fn seen_index(b: u8, n: usize, c: usize) -> usize
    requires { n ≤ most_abstractors }
    ensures { result ≡ lift_index n c b }
{
    let k = usize::from(b);
    if k <= c {
        return k;
    }
    k + n
}

// A variable of copied text, whose index is k: (viii).
fn replace(memory: &Memory, len: usize, s: WalkState, k: usize) -> Turned
    requires { (1 ≤ k) × (k ≤ len) × (len ≤ most_abstractors) }
    ensures { result ≡ Turned.State (typed_of s k (get_or memory.now.domains (len - k) 0) (get_or memory.now.origins (len - k) 0)) None }
{
    let i = len - k;
    Turned::State {
        state: WalkState {
            own: false,
            checked: false,
            in_term: false,
            from: usize::from(memory.domains[i]),
            origin: usize::from(memory.origins[i]),
            shift: k,
            cut: 0,
            ..s
        },
        entered: None,
    }
}

// [U], whose U has n bytes, takes the last of Y: (xii).
fn enter_copied(
    text: &Measured,
    memory: &mut Memory,
    list: &[u16],
    frame: &FrameRecord,
    s: WalkState,
    n: usize,
) -> Turned
    requires { (s.middle < s.top) × ((file : List ℕ) × AbstractorAt (text_of file text.now.term.now) (arrays_of memory.old list.now) frame.now s n) }
    ensures { (file a b : List ℕ) → AbstractorAt (text_of file text.now.term.now) (arrays_of memory.old list.now) frame.now s n → Wagons (text_of file text.now.term.now) (arrays_of memory.old list.now) (arrays_of memory.new list.now) frame.now s a b result }
{
    let top = s.top - 1;
    let v = slot_at(list, top);
    let o = v.place + 1;
    let k = usize::from(text.sizes[o]);
    let at = v.at + 1;
    let a = put(
        text.term,
        text.depths,
        &mut memory.work,
        0xfe,
        false,
        at,
        at + k,
        o,
        frame.end,
        v.shift,
        v.cut,
        frame.len - v.depth,
    );
    let b = enter_domain(text, memory, frame.len, a, s, n);
    stretch(&mut memory.reach, b);
    let state = past(s, n, s.cut + 1, s.middle, top, s.size - (1 + k), v.scope);
    Turned::State {
        state,
        entered: Some(b),
    }
}

// What stands inside the first wagon has been checked.
fn checked(s: WalkState, next: usize, comparisons: usize) -> WalkState
    ensures { result ≡ checked_of s next comparisons }
{
    WalkState {
        checked: true,
        next,
        comparisons,
        ..s
    }
}

// A comparison is completed, and the groups after it stand at `next`.
fn completed(s: WalkState, next: usize) -> WalkState
    requires { s.comparisons < 65536 }
    ensures { result ≡ completed_of s next }
{
    WalkState {
        checked: false,
        next,
        comparisons: s.comparisons + 1,
        ..s
    }
}

// One turn: the state is tested for 11, and replaced by its rule.
fn turn(
    text: &Measured,
    memory: &mut Memory,
    list: &mut [u16],
    frame: &FrameRecord,
    s: WalkState,
) -> Turned
    requires { (file : List ℕ) × Stated (text_of file text.now.term.now) (arrays_of memory.old list.old) frame.now s }
    ensures { (file a b : List ℕ) → Stated (text_of file text.now.term.now) (arrays_of memory.old list.old) frame.now s → Turns (text_of file text.now.term.now) (arrays_of memory.old list.old) (arrays_of memory.new list.new) frame.now s a b result }
{
    if !test(text, frame, s) {
        return Turned::Answer(Err(stop_at(Ground::Outgrown, s.place, s)));
    }
    let b = symbol(text.term, &memory.work, s);
    let o = s.origin + 1;
    match rule_of(s, b) {
        Rule::InsideFirst => Turned::Inner,
        Rule::One | Rule::Six => at_tau(list, s),
        Rule::Three | Rule::Nine => {
            let n = usize::from(text.sizes[o]);
            let y = usize::from(text.scopes[o]);
            wait(text.term, &mut memory.work, list, frame.len, s, n, y)
        }
        Rule::Four | Rule::Ten => {
            let n = usize::from(text.sizes[o]);
            enter_alone(text, memory, frame, s, n)
        }
        Rule::Five | Rule::Eleven => {
            let n = usize::from(text.sizes[o]);
            enter_waiting(text, memory, list, frame, s, n)
        }
        Rule::Seven => meet(s),
        Rule::Eight => {
            let k = seen_index(b, s.shift, s.cut);
            replace(memory, frame.len, s, k)
        }
        Rule::Twelve => {
            let n = usize::from(text.sizes[o]);
            enter_copied(text, memory, list, frame, s, n)
        }
    }
}

// The check of what stands at a place of the term's own text, with nothing waiting: a loop of turns, and a call for what stands inside each
// applicator and abstractor. The frame is copied once, into a record that grows here.
#[cycle(inside_term)]
fn term(
    file: &[u8],
    text: &Measured,
    memory: &mut Memory,
    list: &mut [u16],
    left: &mut Letters,
    right: &mut Letters,
    frame: &FrameRecord,
    place: usize,
    top: usize,
    next: usize,
    comparisons: usize,
) -> Result<Walked, Stop>
    requires { Stated (text_of file.now text.now.term.now) (arrays_of memory.old list.old) frame.now (start_of place top next comparisons) × Buffers left.old right.old }
    ensures { Checks (text_of file.now text.now.term.now) (arrays_of memory.old list.old) (arrays_of memory.new list.new) frame.now (start_of place top next comparisons) left.new right.new result × Buffers left.new right.new }
{
    let mut f = *frame;
    let mut z = WalkState {
        own: true,
        checked: false,
        in_term: true,
        place,
        from: place,
        origin: place,
        shift: 0,
        cut: 0,
        bottom: top,
        middle: top,
        top,
        size: 0,
        scope: 0,
        next,
        comparisons,
    };
    // Kept: no count: a turn's answer ends it, and a falling number bounds it (document 01).
    loop {
        match turn(text, memory, list, &f, z) {
            Turned::Answer(answer) => return answer,
            Turned::Inner => {
                let q = inside(file, text, memory, list, left, right, &f, z)?;
                z = checked(z, q.next, q.comparisons);
            }
            Turned::Compare {
                state,
                place,
                middle,
                end,
            } => {
                match compare(file, z.next, &memory.work, &f, middle, end, left, right) {
                    Ok(next) => {
                        z = completed(state, next);
                        push_entry(&mut f, end);
                    }
                    Err(ground) => return Err(stop_at(ground, place, z)),
                }
            }
            Turned::State { state, entered } => {
                z = state;
                if let Some(end) = entered {
                    push_entry(&mut f, end);
                }
            }
        }
    }
}

// What stands inside the first applicator or abstractor of the term's own text: nothing waits.
#[cycle(inside_term)]
fn inside(
    file: &[u8],
    text: &Measured,
    memory: &mut Memory,
    list: &mut [u16],
    left: &mut Letters,
    right: &mut Letters,
    frame: &FrameRecord,
    s: WalkState,
) -> Result<Walked, Stop>
    requires { InnerAt (text_of file.now text.now.term.now) (arrays_of memory.old list.old) frame.now s × Buffers left.old right.old }
    ensures { Checks (text_of file.now text.now.term.now) (arrays_of memory.old list.old) (arrays_of memory.new list.new) frame.now (inner_of s) left.new right.new result × Buffers left.new right.new }
{
    term(
        file,
        text,
        memory,
        list,
        left,
        right,
        frame,
        s.place + 1,
        s.top,
        s.next,
        s.comparisons,
    )
}

// The whole term, of at most TERM bytes, with a list of LIST numbers; or the list is full.
fn whole<const TERM: usize, const LIST: usize>(
    file: &[u8],
    t: &[u8],
    at: usize,
    left: &mut Letters,
    right: &mut Letters,
) -> Option<Result<Walked, Stopped>>
    requires { Walkable file.now t.now at × Buffers left.old right.old × (length t.now ≤ TERM) × (TERM ≤ longest_term) × (LIST ≤ longest_list) }
    ensures { WholeAnswer file.now t.now at LIST left.new right.new result × Buffers left.new right.new }
{
    let mut sizes = [0u16; TERM];
    let mut scopes = [0u16; TERM];
    let mut depths = [0u8; TERM];
    let mut list = [0u16; LIST];
    let mut memory = Memory {
        work: [0; LONGEST_STATE],
        domains: [0; MOST_ABSTRACTORS],
        origins: [0; MOST_ABSTRACTORS],
        reach: 0,
    };
    measure(t, left, &mut sizes[..], &mut scopes[..], &mut depths[..]);
    let text = Measured {
        term: t,
        sizes: &sizes[..],
        scopes: &scopes[..],
        depths: &depths[..],
    };
    let f = empty_frame();
    match term(
        file,
        &text,
        &mut memory,
        &mut list[..],
        left,
        right,
        &f,
        0,
        0,
        at,
        0,
    ) {
        Ok(walked) => Some(Ok(walked)),
        Err(Stop::Stopped(stopped)) => Some(Err(stopped)),
        Err(Stop::ListFull) => None,
    }
}

// The check of the term t with the groups of the file that stand from `at` on. After it the two lent arrays hold the bodies of the
// last comparison. A short term does not spend its time on clearing large arrays; its list may be too short for what waits in copied text.
pub fn walk_term(
    file: &[u8],
    t: &[u8],
    at: usize,
    left: &mut Letters,
    right: &mut Letters,
) -> Result<Walked, Stopped>
    requires { Walkable file.now t.now at × Buffers left.old right.old }
    ensures { WalkAnswer file.now t.now at left.new right.new (walked_says result) × Buffers left.new right.new }
{
    if t.len() <= SHORT_TERM
        && let Some(answer) = whole::<SHORT_TERM, SHORT_LIST>(file, t, at, left, right)
    {
        return answer;
    }
    if let Some(answer) = whole::<LONGEST_TERM, USUAL_LIST>(file, t, at, left, right) {
        return answer;
    }
    whole::<LONGEST_TERM, LONGEST_LIST>(file, t, at, left, right).unwrap()
}
