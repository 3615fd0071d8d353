// The true ground of a refusal (document 02, request (g)): a check, and what stopped it.
// The empty function at the end carries the promises of specs/Claims.antt.
#![tactic(auto)]

ghost use Rattle.std.specs.Prelude.{◌≡◌};
ghost use Rattle.code.specs.Refusals.{number_of};
ghost use Rattle.explaining.specs.Explain.{difference, explain_file, cause_number, first_of, second_of, third_of, before_the_walk, explained_says};
ghost use Rattle.explaining.specs.Clauses.{TwoBodies, Delivers};
ghost use Rattle.explaining.specs.Claims.{Differing, Promises};

use bodies::Reason;
use checker::{Checked, open_file, walk_file};
use code::numbers::LONGEST_TERM;
use code::refusal::{Condition, Refusal};
use compare::{Ground, Side};
use letters::Letters;

// What stopped the check, with what more is told of it: how many applicators wait; the side, the step's number in its list from 0, and why it is
// not possible; or the lengths of the two bodies, which stand in the buffers, and the place of the first byte at which they differ.
#[derive(Clone, Copy, Debug, PartialEq, Eq)]
pub enum Cause {
    StillWaiting {
        waiting: usize,
    },
    StepNotPossible {
        side: Side,
        step: usize,
        reason: Reason,
    },
    BodiesDiffer {
        left: usize,
        right: usize,
        difference: usize,
    },
    // never 8, 10 or 12, of which more is told
    Other(Condition),
}

impl Cause {
    // What more is told, in numbers; else 0 0 0.
    pub fn numbers(self) -> (usize, usize, usize)
        ensures first { result.0 ≡ first_of self }
        ensures second { result.1 ≡ second_of self }
        ensures third { result.2 ≡ third_of self }
    {
        match self {
            Cause::StillWaiting { waiting } => (waiting, 0, 0),
            Cause::StepNotPossible { side, step, reason } => {
                (usize::from(side), step, usize::from(reason))
            }
            Cause::BodiesDiffer {
                left,
                right,
                difference,
            } => (left, right, difference),
            Cause::Other(_) => (0, 0, 0),
        }
    }
}

// Its condition.
impl From<Cause> for Condition {
    ghost from_gives = { λ cause condition. number_of condition ≡ cause_number cause };

    fn from(cause: Cause) -> Condition {
        match cause {
            Cause::StillWaiting { .. } => Condition::StillWaiting,
            Cause::StepNotPossible { .. } => Condition::StepNotPossible,
            Cause::BodiesDiffer { .. } => Condition::BodiesDiffer,
            Cause::Other(condition) => condition,
        }
    }
}

// Kept: the degree as in checker::Refused.
// A refusal: why, the place, the comparisons completed, and the degree, as the check has them, or 14.
#[derive(Clone, Copy, Debug, PartialEq, Eq)]
pub struct Explained {
    pub cause: Cause,
    pub place: usize,
    pub comparisons: usize,
    pub degree: usize,
}

// Before the walk.
impl From<Refusal> for Explained {
    ghost from_gives = { λ refusal explained. explained ≡ before_the_walk refusal };

    fn from(refusal: Refusal) -> Explained {
        Explained {
            cause: Cause::Other(refusal.condition),
            place: refusal.place,
            comparisons: 0,
            degree: 0,
        }
    }
}

// The place of the first byte at which two bodies differ: neither is a beginning of the other, so that there is one.
#[tactic(auto, using(crate::proofs::Differences::goes_on, crate::proofs::Differences::ends_here))]
fn first_difference(left: &[u8], right: &[u8]) -> usize
    requires { Differing left.now right.now }
    ensures { result ≡ difference left.now right.now }
{
    let mut i: usize = 0;
    // Kept: document 01 names this form, a loop that yields its offset by `break`; the promise that there is a difference bounds the index.
    let offset = loop {
        if left[i] != right[i] {
            break i;
        }
        i += 1;
    };
    offset
}

// Hands over two bodies that differ, of n and k letters: the place of the first byte at which they differ, or none where either buffer is too
// short, and then both keep every byte.
#[tactic(auto, using(crate::proofs::Telling::delivers_none, crate::proofs::Telling::delivers_both))]
fn deliver(
    a: &Letters,
    n: usize,
    b: &Letters,
    k: usize,
    left: &mut [u8],
    right: &mut [u8],
) -> Option<usize>
    requires { TwoBodies a.now n b.now k }
    ensures { Delivers a.now n b.now k left.old right.old result left.new right.new }
{
    if left.len() < n || right.len() < k {
        return None;
    }
    letters::write(a, n, left);
    letters::write(b, k, right);
    Some(first_difference(left, right))
}

// Checks a file, and says what stopped it. For 12 the bodies as reached are written to the starts of the buffers, or, where either is too
// short, the answer is 14 and neither is; at every other answer both keep every byte.
#[tactic(auto, using(checker::proofs::Checking::opening, crate::proofs::Telling::told_refused, crate::proofs::Telling::told_passed, crate::proofs::Telling::two_bodies))]
pub fn explain(s: &[u8], left: &mut [u8], right: &mut [u8]) -> Result<Checked, Explained>
    ensures { explained_says result left.new right.new ≡ explain_file s.now left.old right.old }
{
    let opened = open_file(s)?;
    let degree = opened.degree;
    let mut a: Letters = [0; LONGEST_TERM];
    let mut b: Letters = [0; LONGEST_TERM];
    let stopped = match walk_file(s, opened.end, &mut a, &mut b) {
        Ok(walked) => {
            return Ok(Checked {
                comparisons: walked.comparisons,
                degree,
            });
        }
        Err(stopped) => stopped,
    };
    let cause = match stopped.by {
        Ground::BodiesDiffer { left: n, right: k } => match deliver(&a, n, &b, k, left, right) {
            Some(difference) => Cause::BodiesDiffer {
                left: n,
                right: k,
                difference,
            },
            None => {
                return Err(Explained {
                    cause: Cause::Other(Condition::BufferTooShort),
                    place: 0,
                    comparisons: stopped.comparisons,
                    degree,
                });
            }
        },
        Ground::StillWaiting { waiting } => Cause::StillWaiting { waiting },
        Ground::StepNotPossible { side, step, reason } => {
            Cause::StepNotPossible { side, step, reason }
        }
        ground => Cause::Other(Condition::from(ground)),
    };
    Err(Explained {
        cause,
        place: stopped.place,
        comparisons: stopped.comparisons,
        degree,
    })
}

#[tactic(auto, using(crate::proofs::Promised::promised))]
pub fn promises()
    ensures { Promises }
{}
