// How many byte strings of a length the examining call accepts, refuses with 3 and refuses with 5. The counts are those of the one-byte
// code (crates/examine/specs/OneByte.antt), and come from a recurrence over the ways to split a string.
// The empty functions at the end carry the promises of specs/Claims.antt and the examples.
#![tactic(auto)]

ghost use Rattle.std.specs.Prelude.{◌≡◌, ◌+◌, ◌^◌, ◌≤◌};
ghost use Rattle.counting.specs.Counts.{longest_counted, counts_say, count_answer};
ghost use Rattle.counting.specs.Clauses.{greatest_index, terminals_in, terms_in};
ghost use Rattle.counting.specs.Claims.{Listing, Counting};
ghost use Rattle.counting.specs.Examples.{Examples};

use code::refusal::Condition;

// Condition 15: 'length over 7'.
pub const LONGEST_COUNTED: usize = 7;

// The greatest index of the one-byte code: in so many scopes every index may stand.
const GREATEST_INDEX: u64 = 253;

// How many strings are accepted, refused with 3 (malformed: not exactly one term) and refused with 5 (unbound: a term with an index beyond
// its scope).
#[derive(Clone, Copy, Debug, PartialEq, Eq)]
pub struct Counts {
    pub accepted: u64,
    pub malformed: u64,
    pub unbound: u64,
}

// How many terminals may stand in d scopes: tau, and the indices up to d.
fn terminals_in(d: u64) -> u64
    ensures { result ≡ terminals_in d }
{
    d.min(GREATEST_INDEX) + 1
}

// How many strings of length n are one term that may stand in d scopes: a terminal; or fe or ff, a first term, and a second in the
// rest, which after ff stands in one scope more.
fn terms_in(n: usize, d: u64) -> u64
    requires { (n ≤ longest_counted) × (d + n ≤ greatest_index + longest_counted) }
    ensures { result ≡ terms_in n d }
{
    match n {
        0 => 0,
        1 => terminals_in(d),
        _ => {
            let rest = n - 1;
            let mut sum: u64 = 0;
            for i in 1..rest {
                let j = rest - i;
                let first = terms_in(i, d);
                let after_fe = terms_in(j, d);
                let after_ff = terms_in(j, d + 1);
                sum += first * (after_fe + after_ff);
            }
            sum
        }
    }
}

// Counts the strings of a length.
pub fn count_strings(length: usize) -> Result<Counts, Condition>
    ensures { counts_say result ≡ count_answer length }
{
    if length > LONGEST_COUNTED {
        return Err(Condition::TooLongToCount);
    }
    let closed = terms_in(length, 0);
    let terms = terms_in(length, GREATEST_INDEX);
    // Kept: `as`, since Rust has no From here; length is at most 7.
    let strings = 256u64.pow(length as u32);
    Ok(Counts {
        accepted: closed,
        malformed: strings - terms,
        unbound: terms - closed,
    })
}

pub fn listing()
    ensures { Listing }
{}

pub fn counting()
    ensures { Counting }
{}

pub fn examples()
    ensures { Examples }
{}
