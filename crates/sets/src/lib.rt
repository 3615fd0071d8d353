// Check a set of files: all are accepted, or the first that is refused is named.
#![tactic(auto)]

ghost use Rattle.std.specs.Prelude.{◌≡◌, length};
ghost use Rattle.sets.specs.Sets.{files_from, read_set, check_from, set_says, own_refusal};
ghost use Rattle.sets.specs.Clauses.{heads_say, heads_of, WholeFrom};
ghost use Rattle.sets.specs.Claims.{AcceptedSets, SetChecked as CheckedSet};

use checker::Refused;
use code::refusal::{Condition, Refusal};

// The longest set, heads included.
pub const LONGEST_SET: usize = 65535;

const FILE_TAG: u8 = 5;

// An accepted set: how many files, and the comparisons in all.
#[derive(Clone, Copy)]
pub struct SetChecked {
    pub files: usize,
    pub comparisons: usize,
}

// A refused set: the number of the refused file, from 0, and its own refusal; or 0 and that of the set.
#[derive(Clone, Copy)]
pub struct SetRefused {
    pub file: usize,
    pub refused: Refused,
}

// Of the set.
impl From<Refusal> for SetRefused {
    ghost from_gives = { λ refusal refused. refused ≡ own_refusal refusal };

    fn from(refusal: Refusal) -> SetRefused {
        SetRefused {
            file: 0,
            refused: Refused::from(refusal),
        }
    }
}

// The set's length and all its heads.
#[tactic(auto, using(crate::proofs::Passes::over_length, crate::proofs::Passes::empty, crate::proofs::Passes::starts, crate::proofs::Passes::head_faulty, crate::proofs::Passes::head_whole, crate::proofs::Passes::heads_end, fields::proofs::Laws::ended))]
fn read_heads(s: &[u8]) -> Result<(), Refusal>
    ensures { heads_say (length s.now) result ≡ heads_of (length s.now) (read_set s.now) }
{
    let n = s.len();
    if LONGEST_SET < n {
        return Err(Condition::TooLong.at(0));
    }
    if n == 0 {
        return Err(Condition::NotASet.at(0)); // no file
    }
    let mut at: usize = 0;
    // Kept: no counted index, since each turn goes on by the length of the field that it reads.
    while at < n {
        at = fields::read_field(s, at, FILE_TAG, 1).map_err(|_| Condition::NotASet.at(at))?;
    }
    Ok(())
}

// The files one after the other, up to the first that is refused.
#[tactic(auto, using(crate::proofs::Passes::here, crate::proofs::Passes::next_place, crate::proofs::Passes::file_refused, crate::proofs::Passes::file_accepted, crate::proofs::Passes::files_end, crate::proofs::Answers::comparisons_fit))]
fn check_files(s: &[u8]) -> Result<SetChecked, SetRefused>
    requires { WholeFrom s.now 0 }
    ensures { set_says result ≡ check_from 0 0 (files_from s.now 0) }
{
    let mut at: usize = 0;
    let mut files: usize = 0;
    let mut comparisons: usize = 0;
    // Kept: no counted index, since each turn goes on by the length of the field that it reads.
    while at < s.len() {
        let body = fields::body_at(s, at);
        let checked = checker::check(body).map_err(|refused| SetRefused {
            file: files,
            refused,
        })?;
        at += 3 + body.len();
        files += 1;
        comparisons += checked.comparisons;
    }
    Ok(SetChecked { files, comparisons })
}

// Checks a set.
pub fn check_set(s: &[u8]) -> Result<SetChecked, SetRefused>
    ensures { CheckedSet s.now (set_says result) }
{
    read_heads(s)?;
    check_files(s)
}

// Which sets are accepted (specs/Claims.antt).
#[tactic(auto, using(crate::proofs::Answers::accepted_sets))]
pub fn what_sets_are_accepted()
    ensures { AcceptedSets }
{}
