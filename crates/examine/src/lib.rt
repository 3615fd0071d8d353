// Examining a bare term: conditions 3 to 6 of document 01, and the degree.
// The empty functions at the end carry the promises of specs/Claims.antt.
#![tactic(auto)]

ghost use Rattle.std.specs.Prelude.{◌≡◌, ℕ, ◌+◌, ◌≤◌, ◌<◌, length, get_or};
ghost use Rattle.std.proofs.Math.Option.{some};
ghost use Rattle.code.specs.Limits.{longest_term, most_abstractors};
ghost use Rattle.code.specs.Code.{term_end};
ghost use Rattle.examine.specs.Inspect.{term_says, term_answer};
ghost use Rattle.examine.specs.Clauses.{ByteFault, Graded, Parts};
ghost use Rattle.examine.specs.Claims.{Examining, Examples};

use code::numbers::{LONGEST_TERM, MOST_ABSTRACTORS};
use code::refusal::{Condition, Refusal};

// What follows a byte: how many terms are its parts, and how many abstractors it adds around the second.
#[derive(Drop)]
struct Shape {
    count: usize,
    opens: u8,
}

// The byte b at a place that stands in d scopes: refused for its own fault, if it has one.
fn test(b: u8, d: u8, place: usize) -> Result<(), Refusal>
    ensures { ByteFault b d place result }
{
    let scopes = usize::from(d);
    if b == 255 && scopes >= MOST_ABSTRACTORS {
        return Err(Condition::TooManyInScope.at(place));
    }
    if b < 254 && d < b {
        return Err(Condition::BeyondScope.at(place));
    }
    Ok(())
}

// The degree of the last terminal, once the byte b is read.
fn degree_after(b: u8, d: u8, last: u16, degrees: &[u16; 254]) -> u16
    requires { (b < 254 → b ≤ d) × ((d ≤ most_abstractors) × ((k : ℕ) → get_or degrees.now k 0 ≤ longest_term)) }
    ensures { Graded degrees.now b d last result }
{
    if b >= 254 {
        return last;
    }
    if b == 0 {
        return 1;
    }
    let at = usize::from(d - b);
    degrees[at] + 1
}

fn shape_of(b: u8) -> Shape
    ensures { Parts b result.count result.opens }
{
    if b < 254 {
        return Shape { count: 0, opens: 0 };
    }
    Shape {
        count: 2,
        opens: b - 254,
    }
}

// The faults and the degree of a whole term, in one pass. The terms still to come are the first sp entries of two arrays, the next
// one on top: it stands in `outside` scopes, and in one more where `opens` is 1, in the rest after an abstractor. The entry at e of
// `degrees` is the degree of the U of the abstractor in scope that itself stands in e scopes; `last` is the last terminal's degree.
fn walk(s: &[u8]) -> Result<usize, Refusal>
    requires { (length s.now ≤ longest_term) × (term_end s.now 0 ≡ some (length s.now)) }
    ensures { term_says result ≡ term_answer s.now }
{
    let mut outside: [u8; 2049] = [0; 2049];
    let mut opens: [u8; 2049] = [0; 2049];
    let mut degrees: [u16; 254] = [0; 254];
    let mut sp: usize = 1;
    let mut last: u16 = 0;
    for (i, &b) in s.iter().enumerate() {
        let top = sp - 1;
        let e = outside[top];
        let at = usize::from(e);
        degrees[at] = last; // the degree of U, in the rest after an abstractor; elsewhere an entry out of use
        let d = e + opens[top];
        test(b, d, i)?;
        last = degree_after(b, d, last, &degrees);
        let shape = shape_of(b);
        outside[top] = d;
        outside[sp] = d;
        opens[top] = shape.opens;
        opens[sp] = 0;
        sp = top + shape.count;
    }
    Ok(usize::from(last))
}

// Examines a term: the degree of one that is accepted.
pub fn examine_term(s: &[u8]) -> Result<usize, Refusal>
    ensures { term_says result ≡ term_answer s.now }
{
    if s.len() > LONGEST_TERM {
        return Err(Condition::TooLong.at(0));
    }
    let place = code::term_end(s, 0).ok_or(Condition::NotOneTerm.at(s.len()))?;
    if place != s.len() {
        return Err(Condition::NotOneTerm.at(place));
    }
    walk(s)
}

pub fn examining()
    ensures { Examining }
{}

pub fn examples()
    ensures { Examples }
{}
