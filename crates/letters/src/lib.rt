// Letters: the symbols of a body at a fixed width, so that a step's place is an array index and a lift changes no length. Only this
// crate reads and writes a body's bytes.
#![tactic(auto)]

ghost use Rattle.std.specs.Prelude.{◌≡◌, true, ◌+◌, ◌<◌, ◌≤◌, ℕ, length, slice_index};
ghost use Rattle.calculus.specs.Terms.{lift_index};
ghost use Rattle.code.specs.Limits.{longest_term, most_abstractors};
ghost use Rattle.indices.specs.Stack.{Roomy};
ghost use Rattle.parts.specs.Parts.{Compared};
ghost use Rattle.letters.specs.Letters.{letter, symbol_of, depth_of, height_of};
ghost use Rattle.letters.specs.Clauses.{UpTo, Readable, Reads, BytesWritable, Writes};

use code::numbers::LONGEST_TERM;
use indices::advance;

// A body: as many letters as a term can have.
pub type Letters = [u32; LONGEST_TERM];

// The symbols that are no index.
pub const APPLICATOR: usize = 1022;

pub const ABSTRACTOR: usize = 1023;

// One of height in a letter.
const HEIGHT: usize = 1048576;

// Kept: `as` here and below, since Rust has no From between u32 and usize; the clause keeps a letter below 2^32.
#[tactic(auto, unfolding(crate::specs::Letters::letter))]
pub fn letter_of(symbol: usize, depth: usize, height: usize) -> u32
    requires { (symbol < 1024) × (depth < 1024) × (height < 4096) }
    ensures { result ≡ letter symbol depth height }
{
    (symbol + (depth + height * 1024) * 1024) as u32
}

pub fn wide(x: u32) -> usize
    ensures { result ≡ x }
{
    x as usize
}

// Kept: `< 1024` is said of each and is no type, which every pass over letters would wrap and unwrap.
pub fn symbol_of(x: u32) -> usize
    ensures { (result ≡ symbol_of x) × (result < 1024) }
{
    x as usize % 1024
}

pub fn depth_of(x: u32) -> usize
    ensures { (result ≡ depth_of x) × (result < 1024) }
{
    x as usize / 1024 % 1024
}

pub fn height_of(x: u32) -> usize
    ensures { (result ≡ height_of x) × (result < 4096) }
{
    x as usize / 1024 / 1024
}

// ---- Bytes into letters.
// The index x with d abstractors of its term in scope, lifted by k.
#[tactic(auto, unfolding(calculus::specs::Terms::lift_index))]
fn lifted_index(x: usize, d: usize, k: usize) -> usize
    requires { (x < 254) × (k ≤ most_abstractors) }
    ensures { (result ≡ lift_index k d x) × (result < 1024) }
{
    if x > d { x + k } else { x }
}

fn read_with(
    s: &[u8],
    k: usize,
    d: usize,
    h: usize,
    room: usize,
    out: &mut Letters,
    at: usize,
    stack: &mut [u16],
) -> bool
    requires { Readable s.now 0 (length s.now) k d h room out.old at × Roomy stack.old 0 (length s.now) }
    ensures { Reads s.now 0 (length s.now) k d h room out.old out.new at result }
{
    let mut scope: usize = 0;
    let mut count: usize = 1;
    for (i, b) in s.iter().enumerate() {
        if scope > room {
            return false;
        }
        let x = usize::from(*b);
        let depth = d + scope;
        let height = h + (count - 1);
        let symbol = if *b < 0xfe {
            lifted_index(x, scope, k)
        } else {
            x + 768
        };
        out[at + i] = letter_of(symbol, depth, height);
        let parts = advance(stack, scope, count, *b);
        scope = parts.scope;
        count = parts.count;
    }
    true
}

// The largest byte of s, or 0. A loop with no way out compares several at once.
fn largest_byte(s: &[u8]) -> u8
    ensures { (i : ℕ) → slice_index s.now i ≤ result }
{
    let mut largest: u8 = 0;
    for b in s {
        largest = largest.max(*b);
    }
    largest
}

// Kept: apart from `read_with`, whose stack made a file of 2,000 compared terms take twice the time (docs/BENCHMARK.md).
// As `read_with`, where no byte is an abstractor: all depths are the same, and the parts still to be read need no stack. `above` is the
// next letter without its symbol, one higher, so that the last terminal leaves no height below 0.
fn read_flat(s: &[u8], k: usize, d: usize, h: usize, out: &mut Letters, at: usize)
    requires { Readable s.now 0 (length s.now) k d h 0 out.old at × UpTo s.now 0 (length s.now) 0xfe }
    ensures { Reads s.now 0 (length s.now) k d h 0 out.old out.new at true }
{
    let mut above = d * 1024 + (h + 1) * HEIGHT;
    for (i, b) in s.iter().enumerate() {
        let x = usize::from(*b);
        let here = above - HEIGHT;
        if *b < 0xfe {
            out[at + i] = (here + lifted_index(x, 0, k)) as u32;
            above = here;
        } else {
            out[at + i] = (here + x + 768) as u32;
            above += HEIGHT;
        }
    }
}

// Kept: apart from `read`, since with these arrays a term of one byte takes 57 instructions in place of 51.
// As `read`, where bytes may be abstractors.
#[inline(never)]
fn read_scoped(
    s: &[u8],
    k: usize,
    d: usize,
    h: usize,
    room: usize,
    out: &mut Letters,
    at: usize,
) -> bool
    requires { Readable s.now 0 (length s.now) k d h room out.old at }
    ensures { Reads s.now 0 (length s.now) k d h room out.old out.new at result }
{
    if s.len() < 127 {
        let mut small: [u16; 64] = [0; 64];
        return read_with(s, k, d, h, room, out, at, &mut small[..]);
    }
    let mut stack: [u16; 2049] = [0; 2049];
    read_with(s, k, d, h, room, out, at, &mut stack[..])
}

// Kept: a bool, since there is one ground to fail for, and each caller has its own word for it, or cannot meet it.
// The term that s holds, lifted by k, as letters from `at` on: its first at depth d and height h. Not, if
// more than `room` of its abstractors are in scope anywhere.
pub fn read(
    s: &[u8],
    k: usize,
    d: usize,
    h: usize,
    room: usize,
    out: &mut Letters,
    at: usize,
) -> bool
    requires { Readable s.now 0 (length s.now) k d h room out.old at }
    ensures { Reads s.now 0 (length s.now) k d h room out.old out.new at result }
{
    // most terms are one byte, which is a terminal
    if s.len() == 1 {
        let x = usize::from(s[0]);
        out[at] = letter_of(lifted_index(x, 0, k), d, h);
        return true;
    }
    if largest_byte(s) < 0xff {
        read_flat(s, k, d, h, out, at);
        return true;
    }
    read_scoped(s, k, d, h, room, out, at)
}

// ---- Letters into bytes.
// The term that lies in n letters at the start of s, as bytes at the start of `out`.
pub fn write(s: &Letters, n: usize, out: &mut [u8])
    requires { BytesWritable s.now n out.old }
    ensures { Writes s.now n out.old out.new }
{
    for i in 0..n {
        // Kept: `as`, since Rust has no From here; a remainder by 256 is a byte.
        out[i] = (s[i] % 256) as u8;
    }
}

// ---- Letters compared.
// Whether the first n letters are the same.
pub fn same(a: &Letters, b: &Letters, n: usize) -> bool
    requires { n ≤ longest_term }
    ensures { Compared a.now b.now n result }
{
    a[..n] == b[..n]
}
