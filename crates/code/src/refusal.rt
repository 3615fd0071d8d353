// Why a call refuses, and where.
ghost use Rattle.std.specs.Prelude.{◌≡◌};
ghost use Rattle.code.specs.Refusals.{number_of};

use crate::numbers::{
    BEYOND_SCOPE, BODIES_DIFFER, BUFFER_TOO_SHORT, CUT_SHORT, GROUPS_LEFT, NEVER, NO_GROUP_LEFT,
    NO_TYPE, NOT_A_SET, NOT_ONE_TERM, OUTGROWN, STEP_NOT_POSSIBLE, STILL_WAITING, TOO_LONG,
    TOO_LONG_TO_COUNT, TOO_MANY_IN_SCOPE, WRONG_FIELD,
};
use std::fmt;

// The numbered conditions, in the order of their numbers. Nothing is refused for the last one.
#[derive(Clone, Copy, Debug, PartialEq, Eq)]
pub enum Condition {
    CutShort,
    WrongField,
    NotOneTerm,
    TooLong,
    BeyondScope,
    TooManyInScope,
    NoType,
    StillWaiting,
    NoGroupLeft,
    StepNotPossible,
    Outgrown,
    BodiesDiffer,
    GroupsLeft,
    BufferTooShort,
    TooLongToCount,
    NotASet,
    NotReached,
}

impl From<Condition> for u32 {
    ghost from_gives = { λ condition number. number ≡ number_of condition };

    fn from(condition: Condition) -> u32 {
        match condition {
            Condition::CutShort => CUT_SHORT,
            Condition::WrongField => WRONG_FIELD,
            Condition::NotOneTerm => NOT_ONE_TERM,
            Condition::TooLong => TOO_LONG,
            Condition::BeyondScope => BEYOND_SCOPE,
            Condition::TooManyInScope => TOO_MANY_IN_SCOPE,
            Condition::NoType => NO_TYPE,
            Condition::StillWaiting => STILL_WAITING,
            Condition::NoGroupLeft => NO_GROUP_LEFT,
            Condition::StepNotPossible => STEP_NOT_POSSIBLE,
            Condition::Outgrown => OUTGROWN,
            Condition::BodiesDiffer => BODIES_DIFFER,
            Condition::GroupsLeft => GROUPS_LEFT,
            Condition::BufferTooShort => BUFFER_TOO_SHORT,
            Condition::TooLongToCount => TOO_LONG_TO_COUNT,
            Condition::NotASet => NOT_A_SET,
            Condition::NotReached => NEVER,
        }
    }
}

// A refusal: its condition, and its place.
#[derive(Clone, Copy, Debug, PartialEq, Eq)]
pub struct Refusal {
    pub condition: Condition,
    pub place: usize,
}

impl Condition {
    // The refusal for this condition at a place.
    pub fn at(self, place: usize) -> Refusal
        ensures { result ≡ record { condition = self; place = place } }
    {
        Refusal {
            condition: self,
            place,
        }
    }
}

// The number and the place.
impl fmt::Display for Refusal {
    fn fmt<W: fmt::Write>(&self, f: &mut fmt::Formatter<W>) -> fmt::Result {
        write!(f, "{} {}", u32::from(self.condition), self.place)
    }
}
