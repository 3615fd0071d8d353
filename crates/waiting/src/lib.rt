// The waiting applicators: six numbers for each in one lent array, and writing a term where a frame ends.
#![tactic(auto)]

ghost use Rattle.std.specs.Prelude.{◌≡◌, false, cond, ◌⊎◌, ◌+◌, ◌-◌, ◌*◌, ◌≤◌, ◌<◌, length, get_or};
ghost use Rattle.calculus.specs.Terms.{lift, lift_index};
ghost use Rattle.code.specs.Limits.{longest_state};
ghost use Rattle.indices.specs.Passes.{Replaced};
ghost use Rattle.waiting.specs.Waiting.{slot_of, low_of, SmallSlot, Noted};
ghost use Rattle.waiting.specs.Writing.{Moved, Raised, Copied, PutAsked, Puts};

use code::numbers::LONGEST_STATE;
use frames::Work;

// Kept: six numbers, not a struct of 16 bits: it would repeat Slot's six fields, and its two From are slot_at and store_slot, of whose
// `slot_of` specs/Waiting.antt speaks.
// A waiting applicator: its place in the term or, for a copy, in the text that it is a copy of; where its bytes stand in the work array;
// the frame's depth when it was met; the lift that its K is seen through; and the scope of what waited before it.
#[derive(Clone, Copy)]
pub struct Slot {
    pub place: usize,
    pub at: usize,
    pub depth: usize,
    pub shift: usize,
    pub cut: usize,
    pub scope: usize,
}

pub fn slot_at(list: &[u16], j: usize) -> Slot
    requires { 6 * j + 6 ≤ length list.now }
    ensures { (result ≡ slot_of list.now j) × SmallSlot result }
{
    Slot {
        place: usize::from(list[6 * j]),
        at: usize::from(list[6 * j + 1]),
        depth: usize::from(list[6 * j + 2]),
        shift: usize::from(list[6 * j + 3]),
        cut: usize::from(list[6 * j + 4]),
        scope: usize::from(list[6 * j + 5]),
    }
}

// Where the bytes of the first j that wait begin: they stand at the end of the work array, the first one last.
pub fn low(list: &[u16], j: usize) -> usize
    requires { 6 * j ≤ length list.now }
    ensures { result ≡ low_of list.now j }
{
    if j == 0 {
        return LONGEST_STATE;
    }
    usize::from(list[6 * (j - 1) + 1])
}

pub fn store_slot(list: &mut [u16], j: usize, v: Slot)
    requires { (6 * j + 6 ≤ length list.old) × SmallSlot v }
    ensures { Noted list.old list.new j v }
{
    // Kept: `as` here and in the lifts, since Rust has no From here; the clauses bound each number.
    list[6 * j] = v.place as u16;
    list[6 * j + 1] = v.at as u16;
    list[6 * j + 2] = v.depth as u16;
    list[6 * j + 3] = v.shift as u16;
    list[6 * j + 4] = v.cut as u16;
    list[6 * j + 5] = v.scope as u16;
}

// Kept: a function of its own: `walk::put_aside` copies by it too, and the edit first_byte_repeated names it. And no `copy_from_slice`, nor
// `copy_within` in `copy_in`: by these the library for C would need `memmove` from outside.
// n bytes of t from p on.
pub fn copy_from(t: &[u8], p: usize, n: usize, work: &mut Work, to: usize)
    requires { (p + n ≤ length t.now) × (to + n ≤ longest_state) }
    ensures { Moved t.now work.old work.new p n to }
{
    for i in 0..n {
        work[to + i] = t[p + i];
    }
}

// Kept: apart from letters::lifted_index, with `raised`: in bytes and without a branch, so that a loop does several at once.
// The index that a byte is: 0, which no lift raises, for an applicator or an abstractor.
fn index_of(b: u8) -> u8
    ensures { (b < 254 → result ≡ b) × (254 ≤ b → result ≡ 0) }
{
    if b < 254 { b } else { 0 }
}

// The byte b with d abstractors of its term in scope, lifted by n above `low`. Each `if` only chooses a value: so a loop over it has no
// branches and does several bytes at once.
fn raised(b: u8, d: u8, n: u8, low: u8) -> u8
    requires { b < 254 → lift_index n (low + d) b < 256 }
    ensures { Raised n (low + d) b result }
{
    if index_of(b).saturating_sub(low) > d {
        b + n
    } else {
        b
    }
}

// The byte of a term that is one byte, lifted by n above c.
fn lifted_byte(b: u8, n: usize, c: usize) -> u8
    requires { (n < 256) × (c < 256) × (b < 254 → lift_index n c b < 256) }
    ensures { Raised n c b result }
{
    raised(b, 0, n as u8, c as u8)
}

// The term that stands in work from `from` up to `to`, a copy of one whose depths stand from o on, is lifted by n above c.
fn lift_copy(work: &mut Work, from: usize, to: usize, depths: &[u8], o: usize, n: usize, c: usize)
    requires { (n < 256) × (c < 256) × Copied work.old depths.now from to o n c }
    ensures { Replaced (lift n c) work.old work.new from to }
{
    if n == 0 {
        return;
    }
    let base = depths[o];
    for i in 0..to - from {
        let d = depths[o + i] - base;
        work[from + i] = raised(work[from + i], d, n as u8, c as u8);
    }
}

fn byte_in(t: &[u8], work: &Work, in_term: bool, p: usize) -> u8
    requires { p < length (cond in_term t.now work.now) }
    ensures { result ≡ get_or (cond in_term t.now work.now) p 0 }
{
    if in_term { t[p] } else { work[p] }
}

// n bytes of the work array from p on, where they do not stand already.
fn copy_in(work: &mut Work, p: usize, n: usize, to: usize)
    requires { ((p + n ≤ to) ⊎ (to + n ≤ p)) × (p + n ≤ longest_state) × (to + n ≤ longest_state) }
    ensures { Moved work.old work.old work.new p n to }
{
    for i in 0..n {
        work[to + i] = work[p + i];
    }
}

// n bytes from p on, of the term or of the work array.
#[inline(never)]
fn copy(t: &[u8], work: &mut Work, in_term: bool, p: usize, n: usize, to: usize)
    requires { (in_term ≡ false → (p + n ≤ to) ⊎ (to + n ≤ p)) × (p + n ≤ length (cond in_term t.now work.old)) × (to + n ≤ longest_state) }
    ensures { Moved (cond in_term t.now work.old) work.old work.new p n to }
{
    if in_term {
        copy_from(t, p, n, work, to);
    } else {
        copy_in(work, p, n, to);
    }
}

// The mark, and the term from p up to e of t or of the work array, a copy of the text of t at o, lifted by n above c and then by m.
pub fn put(
    t: &[u8],
    depths: &[u8],
    work: &mut Work,
    mark: u8,
    in_term: bool,
    p: usize,
    e: usize,
    o: usize,
    to: usize,
    n: usize,
    c: usize,
    m: usize,
) -> usize
    requires { PutAsked t.now depths.now work.old in_term p e o to n c m }
    ensures { Puts mark (cond in_term t.now work.old) work.old work.new p e n c m to result }
{
    let size = e - p;
    let end = to + 1 + size;
    // most terms are one byte
    if size == 1 {
        let b = byte_in(t, work, in_term, p);
        work[to] = mark;
        work[to + 1] = lifted_byte(lifted_byte(b, n, c), m, 0);
        return end;
    }
    work[to] = mark;
    copy(t, work, in_term, p, size, to + 1);
    lift_copy(work, to + 1, end, depths, o, n, c);
    lift_copy(work, to + 1, end, depths, o, m, 0);
    end
}
