// A term on a printed page, 72 columns wide. A symbol is a byte until request (j), which changes `cell_of` and the walk over symbols in
// `write_page` and `print_term`.
// The empty functions at the end carry the promises of specs/Claims.antt and the examples.
#![tactic(auto)]

ghost use Rattle.std.specs.Prelude.{◌≡◌, ◌+◌, ◌*◌, ◌%◌, ◌≤◌, ◌<◌, [], length, set};
ghost use Rattle.std.proofs.lemmas.List.Edits.{sets};
ghost use Rattle.code.specs.Limits.{longest_term};
ghost use Rattle.calls.specs.Answers.{step_says};
ghost use Rattle.printing.specs.Page.{digit_zero, letter_cell, digit, index_cell, columns, filled, lines, cells_in_line, line_length, page_length, print_answer};
ghost use Rattle.printing.specs.Clauses.{mark, cell_of, cells_of, PutsCell};
ghost use Rattle.printing.specs.Claims.{Pages, Promises};
ghost use Rattle.printing.specs.Examples.{Examples};

use code::refusal::{Condition, Refusal};

// A buffer of this length is long enough for any page.
pub const LONGEST_PAGE: usize = 16644;

pub const CELLS_IN_LINE: usize = 18;

// A line's columns and its line feed.
pub const LINE_LENGTH: usize = 73;

const LINE_FEED: u8 = 0x0a;

const MARK: u8 = b'^';

// The four columns of a cell.
type Columns = [u8; 4];

// Where the next cell goes, and for how many more its line has room.
#[derive(Clone, Copy)]
struct Spot {
    at: usize,
    room: usize,
}

fn letter_cell(x: u8) -> Columns
    ensures { result ≡ columns (letter_cell x) [] }
{
    [b' ', b' ', b' ', x]
}

// Kept: digits by hand and `as`: three places and a blank for each that is not used, which itoa's text would have to be padded to.
fn digit_of(k: usize) -> u8
    ensures { result ≡ digit_zero + k % 10 }
{
    b'0' + (k % 10) as u8
}

// The digit of k that is worth so much, or a blank.
fn digit(k: usize, worth: usize) -> u8
    requires { 1 ≤ worth }
    ensures { result ≡ digit k worth }
{
    if k < worth {
        return b' ';
    }
    digit_of(k / worth)
}

fn index_cell(k: usize) -> Columns
    ensures { result ≡ columns (index_cell k) [] }
{
    [digit(k, 1000), digit(k, 100), digit(k, 10), digit_of(k)]
}

// The cell of a byte.
fn cell_of(b: u8) -> Columns
    ensures { result ≡ columns (cell_of b) [] }
{
    match b {
        0xff => letter_cell(b'T'),
        0xfe => letter_cell(b'A'),
        0 => letter_cell(b't'),
        _ => index_cell(usize::from(b)),
    }
}

// Puts the four columns of the byte's cell.
fn put_columns(b: u8, out: &mut [u8], at: usize)
    requires { at + 4 ≤ length out.old }
    ensures { (out.new ≡ sets out.old at (columns (cell_of b) [])) × (length out.new ≡ length out.old) }
{
    let cell = cell_of(b);
    out[at..at + 4].copy_from_slice(&cell);
}

// Puts the next cell, that of the byte b, on a line of its own if the line is full.
fn put_cell(b: u8, out: &mut [u8], spot: Spot) -> Spot
    requires { (spot.at + 5 ≤ length out.old) × (spot.room ≤ cells_in_line) }
    ensures { PutsCell (cell_of b) out.old spot.at spot.room out.new result.at result.room }
{
    if spot.room == 0 {
        out[spot.at] = LINE_FEED;
        put_columns(b, out, spot.at + 1);
        return Spot {
            at: spot.at + 5,
            room: CELLS_IN_LINE - 1,
        };
    }
    put_columns(b, out, spot.at);
    Spot {
        at: spot.at + 4,
        room: spot.room - 1,
    }
}

// Ends the last line.
fn fill_line(out: &mut [u8], spot: Spot)
    requires { spot.at + length (filled spot.room) ≤ length out.old }
    ensures { (out.new ≡ sets out.old spot.at (filled spot.room)) × (length out.new ≡ length out.old) }
{
    let end = spot.at + 4 * spot.room;
    out[spot.at..end].fill(b' ');
    out[end] = LINE_FEED;
}

// The page of the bytes s, which there is room for.
pub fn write_page(s: &[u8], out: &mut [u8])
    requires { length (lines cells_in_line (cells_of s.now)) ≤ length out.old }
    ensures { (out.new ≡ sets out.old 0 (lines cells_in_line (cells_of s.now))) × (length out.new ≡ length out.old) }
{
    let mut spot = Spot {
        at: 0,
        room: CELLS_IN_LINE,
    };
    for &b in s {
        spot = put_cell(b, out, spot);
    }
    fill_line(out, spot);
}

// A line that has a mark below one cell of the line before it.
pub fn write_mark(cell: usize, out: &mut [u8])
    requires { (cell < cells_in_line) × (line_length ≤ length out.old) }
    ensures { (out.new ≡ set (sets out.old 0 (filled cells_in_line)) (4 * cell + 3) mark) × (length out.new ≡ length out.old) }
{
    let line = Spot {
        at: 0,
        room: CELLS_IN_LINE,
    };
    fill_line(out, line);
    out[4 * cell + 3] = MARK;
}

// The length of a page of n cells.
pub fn page_length(n: usize) -> usize
    requires { n ≤ longest_term }
    ensures { result ≡ page_length n }
{
    LINE_LENGTH * ((n + (CELLS_IN_LINE - 1)) / CELLS_IN_LINE)
}

// Prints the term s to the start of `out`: the length of its page.
pub fn print_term(s: &[u8], out: &mut [u8]) -> Result<usize, Refusal>
    ensures { step_says result out.new ≡ print_answer s.now out.old }
{
    examine::examine_term(s)?;
    let n = page_length(s.len());
    if out.len() < n {
        return Err(Condition::BufferTooShort.at(0));
    }
    write_page(s, out);
    Ok(n)
}

pub fn pages()
    ensures { Pages }
{}

pub fn promises()
    ensures { Promises }
{}

pub fn examples()
    ensures { Examples }
{}
