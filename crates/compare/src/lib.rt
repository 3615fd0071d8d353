// One comparison of the check of a file, `same(R,K,U)`, with the next group of the file: the type of K and U, each held as letters
// in an array of its own, replayed by its steps, and compared.
#![tactic(auto)]

ghost use Rattle.std.specs.Prelude.{◌≡◌};
ghost use Rattle.code.specs.Refusals.{number_of};
ghost use Rattle.fields.specs.Fields.{StepRange};
ghost use Rattle.bodies.specs.Held.{SomeHeld};
ghost use Rattle.compare.specs.Answers.{side_said, side_number, number_of_ground, ground_says, compared_says};
ghost use Rattle.compare.specs.Replays.{Loadable, Loads, Replays};
ghost use Rattle.compare.specs.Sides.{Buffers, TwoSides, Sides};
ghost use Rattle.compare.specs.Compares.{Comparing, Compares, Typing, ComparesType};

use bodies::{Reason, StepError, type_in_place};
use code::numbers::{LONGEST_TERM, MOST_ABSTRACTORS};
use code::refusal::Condition;
use fields::{GroupSpan, group_at, step_at};
use frames::{FrameRecord, Work};
use letters::{Letters, read, same};
use steps::step_in_place;

// The side of K's type, or that of U.
#[derive(Clone, Copy, Debug, PartialEq, Eq)]
pub enum Side {
    Left,
    Right,
}

// Its number.
impl From<Side> for usize {
    ghost from_gives = { λ side number. number ≡ side_number (side_said side) };

    fn from(side: Side) -> usize {
        side as usize
    }
}

// What stops the check of a file whose fields and term are right. A side's steps are counted from 0. Of two bodies that differ the lengths
// are told; they stand in the two lent arrays.
#[derive(Clone, Copy, Debug, PartialEq, Eq)]
pub enum Ground {
    NoType,
    StillWaiting {
        waiting: usize,
    },
    NoGroupLeft,
    StepNotPossible {
        side: Side,
        step: usize,
        reason: Reason,
    },
    Outgrown,
    BodiesDiffer {
        left: usize,
        right: usize,
    },
    GroupsLeft,
    NotReached,
}

impl Ground {
    // Its numbers: how many wait; the side, the step and the reason; the two lengths; else 0 0 0.
    pub fn numbers(self) -> (usize, usize, usize)
        ensures first { result.0 ≡ (ground_says self).first }
        ensures second { result.1 ≡ (ground_says self).second }
        ensures third { result.2 ≡ (ground_says self).third }
    {
        match self {
            Ground::StillWaiting { waiting } => (waiting, 0, 0),
            Ground::StepNotPossible { side, step, reason } => {
                (usize::from(side), step, usize::from(reason))
            }
            Ground::BodiesDiffer { left, right } => (left, right, 0),
            _ => (0, 0, 0),
        }
    }
}

// Its condition.
impl From<Ground> for Condition {
    ghost from_gives = { λ x condition. number_of condition ≡ number_of_ground x };

    fn from(ground: Ground) -> Condition {
        match ground {
            Ground::NoType => Condition::NoType,
            Ground::StillWaiting { .. } => Condition::StillWaiting,
            Ground::NoGroupLeft => Condition::NoGroupLeft,
            Ground::StepNotPossible { .. } => Condition::StepNotPossible,
            Ground::Outgrown => Condition::Outgrown,
            Ground::BodiesDiffer { .. } => Condition::BodiesDiffer,
            Ground::GroupsLeft => Condition::GroupsLeft,
            Ground::NotReached => Condition::NotReached,
        }
    }
}

// Kept: a bool, as letters::read.
// The term that stands in the work array, as letters in `body`, if it is within the limits after a frame of len entries.
fn load(work: &Work, from: usize, to: usize, len: usize, body: &mut Letters) -> bool
    requires { Loadable work.now body.old len from to }
    ensures { Loads work.now body.old body.new len from to result }
{
    if to - from > LONGEST_TERM {
        return false;
    }
    read(&work[from..to], 0, 0, 0, MOST_ABSTRACTORS - len, body, 0)
}

// The steps of a side, which stand in the file from `from` up to `to`, replayed on the body in the first n letters: the length of the form.
fn replay(
    file: &[u8],
    from: usize,
    to: usize,
    side: Side,
    body: &mut Letters,
    n: usize,
    work: &Work,
    frame: &FrameRecord,
) -> Result<usize, Ground>
    requires { StepRange file.now from to × SomeHeld work.now frame.now body.old n }
    ensures { Replays file.now from to side work.now frame.now body.old body.new n result }
{
    let mut size = n;
    for step in 0..(to - from) / 3 {
        let s = step_at(file, from + 3 * step);
        size = match step_in_place(body, size, work, frame, s.kind, s.place) {
            Ok(m) => m,
            Err(StepError::NotPossible(reason)) => {
                return Err(Ground::StepNotPossible { side, step, reason });
            }
            Err(StepError::Outgrown) => return Err(Ground::Outgrown),
        };
    }
    Ok(size)
}

// Each side's steps, and whether both reach the same form: where the next group stands.
fn compare_sides(
    file: &[u8],
    g: GroupSpan,
    work: &Work,
    frame: &FrameRecord,
    left: &mut Letters,
    n: usize,
    right: &mut Letters,
    k: usize,
) -> Result<usize, Ground>
    requires { TwoSides file.now g work.now frame.now left.old n right.old k }
    ensures { Sides file.now g work.now frame.now left.old n right.old k (compared_says result) left.new right.new }
{
    let l = replay(file, g.left, g.middle, Side::Left, left, n, work, frame)?;
    let r = replay(file, g.right, g.next, Side::Right, right, k, work, frame)?;
    if l != r {
        return Err(Ground::BodiesDiffer { left: l, right: r });
    }
    if !same(left, right, l) {
        return Err(Ground::BodiesDiffer { left: l, right: r });
    }
    Ok(g.next)
}

// The type of K is held in the first n letters of `left`, and U stands from m + 1 up to e.
fn compare_type(
    file: &[u8],
    at: usize,
    work: &Work,
    frame: &FrameRecord,
    m: usize,
    e: usize,
    left: &mut Letters,
    n: usize,
    right: &mut Letters,
) -> Result<usize, Ground>
    requires { Typing file.now work.now at frame.now m e left.old n }
    ensures { ComparesType file.now work.now at frame.now m e left.old n (compared_says result) left.new right.new }
{
    if at >= file.len() {
        return Err(Ground::NoGroupLeft);
    }
    if !load(work, m + 1, e, frame.len, right) {
        return Err(Ground::Outgrown);
    }
    let g = group_at(file, at);
    compare_sides(file, g, work, frame, left, n, right, e - (m + 1))
}

// The comparison of ⟨K⟩[U], which stands in the work array from the frame's end up to e, with the group at `at`: K ends at m. The two
// bodies are carried in the lent arrays. Where the next group stands, or what stops the check.
pub fn compare(
    file: &[u8],
    at: usize,
    work: &Work,
    frame: &FrameRecord,
    m: usize,
    e: usize,
    left: &mut Letters,
    right: &mut Letters,
) -> Result<usize, Ground>
    requires { Comparing file.now work.now at frame.now m e × Buffers left.old right.old }
    ensures { Compares file.now work.now at frame.now m e (compared_says result) left.new right.new × Buffers left.new right.new }
{
    let start = frame.end + 1;
    load(work, start, m, frame.len, left); // as K is within the limits
    match type_in_place(left, m - start, work, frame) {
        Ok(n) => compare_type(file, at, work, frame, m, e, left, n, right),
        Err(StepError::NotPossible(_)) => Err(Ground::NoType),
        Err(StepError::Outgrown) if at >= file.len() => Err(Ground::NoGroupLeft),
        Err(StepError::Outgrown) => Err(Ground::Outgrown),
    }
}
