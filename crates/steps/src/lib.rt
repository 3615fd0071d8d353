// Steps on a body held as letters, after a frame (document 01, 'Steps'; requests (a) and (d)).
#![tactic(auto)]

ghost use Rattle.std.specs.Prelude.{◌≡◌, List, ◌++◌, map, ℕ, ◌+◌, ◌-◌, ◌≤◌, ◌<◌, length, IfOk};
ghost use Rattle.code.specs.Limits.{longest_term};
ghost use Rattle.frames.specs.declared.FrameRecord.{FrameRecord as Record};
ghost use Rattle.letters.specs.Letters.{depth_of};
ghost use Rattle.bodies.specs.Held.{SomeHeld, Steps};
ghost use Rattle.bodies.specs.Moving.{Spliced};
ghost use Rattle.steps.specs.Lowering.{lowered_letter, is_use, InScope};
ghost use Rattle.steps.specs.Couples.{InSomeBody, InBodyAfter, SomeTail, Partnered, remaining, Searches, Places};
ghost use Rattle.steps.specs.Filling.{use_depth, UsesAre, filling, LetterFillable, LetterFills, Fillable, Fills, Rewritable};

use bodies::{Reason, StepError, deepest, end_of, lift_to, local};
use code::numbers::{LONGEST_TERM, MOST_ABSTRACTORS};
use frames::{FrameRecord, Work};
use letters::{APPLICATOR, Letters, depth_of, height_of, symbol_of};

// Most results of a substitution are no larger.
const SMALL: usize = 256;

// ---- Couples.
// The couple ⟨K⟩..[U]B at a place: the depths of its applicator and of its abstractor, and the places of what stands between, of its
// abstractor, of B and of B's end.
#[derive(Clone, Copy)]
struct Couple {
    outer: u32,
    depth: u32,
    between: usize,
    abstractor: usize,
    rest: usize,
    end: usize,
}

// The place of the abstractor that matches an applicator of height h, where the train goes on at m behind its K, if there is one. Of the
// applicators passed, `unmatched` are still to be matched.
fn abstractor_after(s: &Letters, n: usize, m: usize, h: usize) -> Option<usize>
    requires { SomeTail s.now n m h }
    ensures { Partnered s.now n m h result }
{
    let mut unmatched: usize = 0;
    let mut q = m;
    let mut symbol = symbol_of(s[q]);
    // Kept: no counted index, since each turn goes on by the wagon that `end_of` measures.
    while symbol >= APPLICATOR {
        if symbol == APPLICATOR {
            unmatched += 1;
        } else {
            if unmatched == 0 {
                return Some(q);
            }
            unmatched -= 1;
        }
        q = end_of(s, n, q + 1, h + 1);
        symbol = symbol_of(s[q]);
    }
    None
}

// The couple at place p of the body in the first n letters, or why there is none.
fn couple_at(s: &Letters, n: usize, p: usize) -> Result<Couple, Reason>
    requires { InSomeBody s.now n p }
    ensures sought { Searches s.now n p result }
    ensures places { IfOk result (λ x. Places n p x) }
{
    let v = s[p];
    if symbol_of(v) != APPLICATOR {
        return Err(Reason::WrongSymbol);
    }
    let h = height_of(v);
    let m = end_of(s, n, p + 1, h + 1);
    let Some(a) = abstractor_after(s, n, m, h) else {
        return Err(Reason::NoPartner);
    };
    let q = end_of(s, n, a + 1, h + 1);
    let e = end_of(s, n, q, h);
    // Kept: `as`, since Rust has no `From` here; the passes over letters are in 32 bits, as letters are, so that they are vectorised.
    Ok(Couple {
        outer: depth_of(v) as u32,
        depth: depth_of(s[a]) as u32,
        between: m,
        abstractor: a,
        rest: q,
        end: e,
    })
}

// ---- The rest of a couple, without its abstractor.
// How often its variable is used, and the depth of its deepest use, 0 if there is none.
// Kept: no Option, since the largest depth of none is 0, and the sum that tests the scope takes it as it is.
#[derive(Clone, Copy)]
struct Uses {
    count: u32,
    deepest: u32,
}

// A letter in the scope of a dropped abstractor of depth c.
fn lowered_letter(x: u32, c: u32) -> u32
    requires { c < depth_of x }
    ensures { result ≡ lowered_letter c x }
{
    let symbol = x % 1024;
    if symbol >= 1022 {
        return x - 1024;
    }
    if symbol < x / 1024 % 1024 - c {
        return x - 1024;
    }
    x - 1025
}

// Letters in that scope are lowered.
fn lower_part(rest: &mut [u32], c: u32)
    requires { InScope rest.old c }
    ensures { rest.new ≡ map (lowered_letter c) rest.old }
{
    for x in rest.iter_mut() {
        *x = lowered_letter(*x, c);
    }
}

// Whether the letter x is a use of the variable of an abstractor of depth c.
// Kept: `is_use`, `use_depth` and `lowered_letter` each ask c < depth of x: a struct of the two would be made anew for each letter.
fn is_use(x: u32, c: u32) -> bool
    requires { c < depth_of x }
    ensures { result ≡ is_use c x }
{
    x % 1024 == x / 1024 % 1024 - c
}

// The depth of such a use, else 0.
fn use_depth(x: u32, c: u32) -> u32
    requires { c < depth_of x }
    ensures { (result ≡ use_depth c x) × (result < 1024) }
{
    if is_use(x, c) { x / 1024 % 1024 } else { 0 }
}

// The uses of the variable of an abstractor of depth c in its scope, by one pass.
fn measure(rest: &[u32], c: u32) -> Uses
    requires { InScope rest.now c × (length rest.now ≤ longest_term) }
    ensures { UsesAre rest.now c result }
{
    let mut count: u32 = 0;
    let mut deepest: u32 = 0;
    for x in rest {
        count += u32::from(is_use(*x, c));
        deepest = deepest.max(use_depth(*x, c));
    }
    Uses { count, deepest }
}

// ---- A removal.
// Kind 2 at place p. What stands between stays as it is.
fn removal(s: &mut Letters, n: usize, p: usize) -> Result<usize, StepError>
    requires { InSomeBody s.old n p }
    ensures { (w : List ℕ) (f : Record) → Steps w f s.old s.new n (record { kind = 2; place = p }) result }
{
    let x = couple_at(s, n, p)?;
    let count = measure(&s[x.rest..x.end], x.depth).count;
    if count > 0 {
        return Err(StepError::NotPossible(Reason::StillUsed));
    }
    s.copy_within(x.between..x.abstractor, p);
    lower_part(&mut s[x.rest..x.end], x.depth);
    let at = p + (x.abstractor - x.between);
    s.copy_within(x.rest..n, at);
    Ok(n - (x.rest - at))
}

// ---- The whole substitution.
// What becomes of the letter y of B goes to `out` from j on: K, lifted, for a use. The place after it.
fn fill_letter(s: &Letters, p: usize, x: Couple, y: u32, out: &mut [u32], j: usize) -> usize
    requires { LetterFillable s.now p x y out.old j }
    ensures { LetterFills s.now p x y out.old out.new j result }
{
    if !is_use(y, x.depth) {
        out[j] = lowered_letter(y, x.depth);
        return j + 1;
    }
    let argument = &s[p + 1..x.between];
    let end = j + argument.len();
    // Kept: `as`, for the same reason as in `couple_at`.
    let k = depth_of(y) as u32 - 1 - x.outer;
    lift_to(argument, x.outer, k, height_of(y) as u32, &mut out[j..end]);
    end
}

// All of B goes to `out` so.
fn fill(s: &Letters, p: usize, x: Couple, out: &mut [u32])
    requires { Fillable s.now p x out.old }
    ensures { Fills s.now p x out.old out.new }
{
    let mut j = 0;
    for y in &s[x.rest..x.end] {
        j = fill_letter(s, p, x, *y, out, j);
    }
}

// What stands between, and B so filled, which has `size` letters, take the place of the couple at p and of B. B is filled in an array of
// its own first, as K and B are read till the end.
fn rewrite<const ROOM: usize>(s: &mut Letters, n: usize, p: usize, x: Couple, size: usize)
    requires { Rewritable s.old n p x size × (size ≤ ROOM) × (ROOM ≤ longest_term) }
    ensures { Spliced s.old s.new n p x.end (remaining s.old x ++ filling s.old p x) }
{
    let mut out = [0u32; ROOM];
    let at = p + (x.abstractor - x.between);
    fill(s, p, x, &mut out[..]);
    s.copy_within(x.between..x.abstractor, p);
    s.copy_within(x.end..n, at + size);
    s[at..at + size].copy_from_slice(&out[..size]);
}

// As `rewrite`: a small result needs no large array to be cleared.
fn substitute(s: &mut Letters, n: usize, p: usize, x: Couple, size: usize)
    requires { Rewritable s.old n p x size }
    ensures { Spliced s.old s.new n p x.end (remaining s.old x ++ filling s.old p x) }
{
    if size <= SMALL {
        rewrite::<SMALL>(s, n, p, x, size)
    } else {
        rewrite::<LONGEST_TERM>(s, n, p, x, size)
    }
}

// Kind 3 at place p, after a frame of len entries. Only the final form is measured, before anything is written.
fn whole(s: &mut Letters, n: usize, p: usize, len: usize) -> Result<usize, StepError>
    requires { InBodyAfter len s.old n p }
    ensures { (w : List ℕ) (f : Record) → f.len ≡ len → Steps w f s.old s.new n (record { kind = 3; place = p }) result }
{
    let x = couple_at(s, n, p)?;
    let uses = measure(&s[x.rest..x.end], x.depth);
    let kept = n - (x.end - p) + (x.abstractor - x.between);
    // Kept: `as` here and below, for the same reason as in `couple_at`.
    let size = x.end - x.rest + uses.count as usize * (x.between - p - 2);
    if kept + size > LONGEST_TERM {
        return Err(StepError::Outgrown);
    }
    let most = uses.deepest + (deepest(&s[p + 1..x.between]) - x.outer);
    if most > (MOST_ABSTRACTORS - len) as u32 + 1 {
        return Err(StepError::Outgrown);
    }
    substitute(s, n, p, x, size);
    Ok(kept + size)
}

// ---- One step on the body in the first n letters, after the frame: the form that it reaches takes the body's place.
pub fn step_in_place(
    s: &mut Letters,
    n: usize,
    work: &Work,
    frame: &FrameRecord,
    kind: u8,
    place: usize,
) -> Result<usize, StepError>
    requires { SomeHeld work.now frame.now s.old n }
    ensures { Steps work.now frame.now s.old s.new n (record { kind = kind; place = place }) result }
{
    // Kept: the kind is a byte of the file, and any may stand there; an enum would be made here and matched here.
    match kind {
        1..=3 if place >= n => Err(StepError::NotPossible(Reason::PastEnd)),
        1 => local(s, n, work, frame, place),
        2 => removal(s, n, place),
        3 => whole(s, n, place, frame.len),
        _ => Err(StepError::NotPossible(Reason::UnknownKind)),
    }
}
