// The byte code of terms: what each byte does to the balance, and where a term ends.
// The empty functions at the end carry the promises of specs/Claims.antt.
#![tactic(auto)]

pub mod numbers;
pub mod refusal;

ghost use Rattle.std.specs.Prelude.{◌≡◌, ◌≤◌, length};
ghost use Rattle.code.specs.Limits.{longest_file};
ghost use Rattle.code.specs.Code.{Tabled, delta, term_end, end_of};
ghost use Rattle.code.specs.Scope.{Scopes};
ghost use Rattle.code.specs.Claims.{Inverse, Sizes, Balance, Examples};

// What each byte does to the balance: -1 for a terminal, 1 for an applicator or an abstractor.
pub type Deltas = [i32; 256];

const TABLE: [i32; 256] = [
    -1, // 00: tau
    -1, // 01 to fd: the variables
    -1, -1, -1, -1, -1, -1, -1, -1, -1, -1, -1, -1, -1, -1, -1, -1, -1, -1, -1, -1, -1, -1, -1, -1,
    -1, -1, -1, -1, -1, -1, -1, -1, -1, -1, -1, -1, -1, -1, -1, -1, -1, -1, -1, -1, -1, -1, -1, -1,
    -1, -1, -1, -1, -1, -1, -1, -1, -1, -1, -1, -1, -1, -1, -1, -1, -1, -1, -1, -1, -1, -1, -1, -1,
    -1, -1, -1, -1, -1, -1, -1, -1, -1, -1, -1, -1, -1, -1, -1, -1, -1, -1, -1, -1, -1, -1, -1, -1,
    -1, -1, -1, -1, -1, -1, -1, -1, -1, -1, -1, -1, -1, -1, -1, -1, -1, -1, -1, -1, -1, -1, -1, -1,
    -1, -1, -1, -1, -1, -1, -1, -1, -1, -1, -1, -1, -1, -1, -1, -1, -1, -1, -1, -1, -1, -1, -1, -1,
    -1, -1, -1, -1, -1, -1, -1, -1, -1, -1, -1, -1, -1, -1, -1, -1, -1, -1, -1, -1, -1, -1, -1, -1,
    -1, -1, -1, -1, -1, -1, -1, -1, -1, -1, -1, -1, -1, -1, -1, -1, -1, -1, -1, -1, -1, -1, -1, -1,
    -1, -1, -1, -1, -1, -1, -1, -1, -1, -1, -1, -1, -1, -1, -1, -1, -1, -1, -1, -1, -1, -1, -1, -1,
    -1, -1, -1, -1, -1, -1, -1, -1, -1, -1, -1, -1, -1, -1, -1, -1, -1, -1, -1, -1, -1, -1, -1, -1,
    -1, -1, -1, -1, -1, -1, -1, -1, -1, -1, -1, -1, 1, // fe: an applicator
    1, // ff: an abstractor
];

// The table, whose rule is tested once over all of its entries. A caller copies it once before its loop, and lends that copy.
pub fn table() -> Deltas
    ensures { Tabled result }
{
    TABLE
}

// What the byte b does to the balance.
pub fn delta_of(deltas: &Deltas, b: u8) -> i32
    requires { Tabled deltas.now }
    ensures { result ≡ delta b }
{
    deltas[usize::from(b)]
}

// Kept: apart from `term_end`, since docs/DECISIONS.md (forms that document 01 binds) names it, and its promise stays.
// Where the term of s that starts at `from` ends: the balance starts at +1 and the term ends where it first reaches 0. None, where the bytes
// end before the term does or it starts past them.
pub fn term_end_by(deltas: &Deltas, s: &[u8], from: usize) -> Option<usize>
    requires { Tabled deltas.now × (length s.now ≤ longest_file) }
    ensures { end_of result ≡ term_end s.now from }
{
    let mut balance: i32 = 1;
    for i in from..s.len() {
        balance += delta_of(deltas, s[i]);
        if balance == 0 {
            return Some(i + 1);
        }
    }
    None
}

// The same, with a table of its own.
pub fn term_end(s: &[u8], from: usize) -> Option<usize>
    requires { length s.now ≤ longest_file }
    ensures { end_of result ≡ term_end s.now from }
{
    term_end_by(&table(), s, from)
}

pub fn inverse()
    ensures { Inverse }
{}

pub fn sizes()
    ensures { Sizes }
{}

pub fn balance()
    ensures { Balance }
{}

pub fn scopes()
    ensures { Scopes }
{}

pub fn examples()
    ensures { Examples }
{}
