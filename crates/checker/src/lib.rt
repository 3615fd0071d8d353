// Check a file: the fifth call; and its two parts, which the explaining call has too.
#![tactic(auto)]

ghost use Rattle.std.specs.Prelude.{◌≡◌};
ghost use Rattle.compare.specs.Sides.{Buffers};
ghost use Rattle.files.specs.File.{open_file};
ghost use Rattle.walk.specs.Clauses.{walked_says};
ghost use Rattle.checker.specs.Answer.{before_walk, stopped_in_walk, check_says, Checked as CheckedFile};
ghost use Rattle.checker.specs.Clauses.{OpenedAs, Openable, FileWalked};

use code::numbers::LONGEST_TERM;
use code::refusal::{Condition, Refusal};
use compare::Ground;
use letters::Letters;
use walk::{Stopped, Walked, walk_term};

// An accepted file: the comparisons completed, and the degree of its term.
#[derive(Clone, Copy)]
pub struct Checked {
    pub comparisons: usize,
    pub degree: usize,
}

// Kept: no Option for the degree, since README and C promise 0 there, and each caller would make it of None again.
// A refused file: why and where, the comparisons completed, and the degree of its term, which is 0 where it is refused before the walk.
#[derive(Clone, Copy)]
pub struct Refused {
    pub refusal: Refusal,
    pub comparisons: usize,
    pub degree: usize,
}

// Before the walk.
impl From<Refusal> for Refused {
    ghost from_gives = { λ refusal refused. refused ≡ before_walk refusal };

    fn from(refusal: Refusal) -> Refused {
        Refused {
            refusal,
            comparisons: 0,
            degree: 0,
        }
    }
}

impl Refused {
    // In the walk of a term of this degree.
    pub fn in_walk(stopped: Stopped, degree: usize) -> Refused
        ensures { check_says (Err result) ≡ stopped_in_walk stopped degree }
    {
        Refused {
            refusal: Condition::from(stopped.by).at(stopped.place),
            comparisons: stopped.comparisons,
            degree,
        }
    }
}

// An opened file: where its term ends, and the term's degree.
#[derive(Clone, Copy)]
pub struct Opened {
    pub end: usize,
    pub degree: usize,
}

// Opens a file: the conditions before the walk.
#[tactic(auto, using(fields::proofs::Groups::inside, crate::proofs::Checking::fields_refused, crate::proofs::Checking::term_refused, crate::proofs::Checking::term_opened))]
pub fn open_file(s: &[u8]) -> Result<Opened, Refusal>
    ensures { OpenedAs result (open_file s.now) }
{
    let layout = fields::read_fields(s)?;
    let end = layout.end;
    let part = fields::term_part(s, end);
    let degree = examine::examine_term(part)?;
    Ok(Opened { end, degree })
}

// Walks the term of an opened file, which ends at `end`, with the groups after it; then 13. What stops it is as `walk` has it: for 12 the two
// bodies stand in the lent arrays.
#[tactic(auto, using(crate::proofs::Checking::ends_inside, crate::proofs::Checking::groups_left_lem, crate::proofs::Checking::all_taken))]
pub fn walk_file(
    s: &[u8],
    end: usize,
    left: &mut Letters,
    right: &mut Letters,
) -> Result<Walked, Stopped>
    requires { Openable s.now end × Buffers left.old right.old }
    ensures { FileWalked s.now end left.new right.new (walked_says result) × Buffers left.new right.new }
{
    let part = fields::term_part(s, end);
    let walked = walk_term(s, part, end, left, right)?;
    if walked.next < s.len() {
        return Err(Stopped {
            by: Ground::GroupsLeft,
            place: walked.next,
            comparisons: walked.comparisons,
        });
    }
    Ok(walked)
}

// Checks a file.
#[tactic(auto, using(crate::proofs::Checking::opening, crate::proofs::Checking::check_refused, crate::proofs::Checking::check_passed, crate::proofs::Checking::check_stopped))]
pub fn check(s: &[u8]) -> Result<Checked, Refused>
    ensures { CheckedFile s.now (check_says result) }
{
    let opened = open_file(s)?;
    let degree = opened.degree;
    let mut left: Letters = [0; LONGEST_TERM];
    let mut right: Letters = [0; LONGEST_TERM];
    match walk_file(s, opened.end, &mut left, &mut right) {
        Ok(walked) => Ok(Checked {
            comparisons: walked.comparisons,
            degree,
        }),
        Err(stopped) => Err(Refused::in_walk(stopped, degree)),
    }
}
