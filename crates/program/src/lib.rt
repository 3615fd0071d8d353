// The programs. `bijterne`, `explain`, `page` and `shelf` read standard input and answer for the whole of it or not at all; `counts` reads
// nothing. If the input could not be read or the answer not written, a line on standard error says why, and the exit status is 2. Reading
// stops with the buffer full: an input of over 65,535 bytes is refused for that, however it goes on.
#![tactic(auto)]

mod explanation;

ghost use Rattle.std.specs.Prelude.{◌≡◌, ◌+◌, ◌≤◌, length};
ghost use Rattle.std.specs.Io.{ReadsAtMost};
ghost use Rattle.arrayvec.specs.ArrayString.{array_string_len};
ghost use Rattle.program.specs.Clauses.{answer_room, Added};

use arrayvec::ArrayString;
use checker::Refused;
use code::numbers::ACCEPTED;
use code::refusal::Refusal;
use counting::{Counts, LONGEST_COUNTED};
use explanation::Text;
use printing::LONGEST_PAGE;
use std::io::{Read, Write};
use std::process::ExitCode;
use std::{fmt, io};
use streams::{Reason, push_number};

// One byte more than the longest file or set.
const INPUT_ROOM: usize = 65536;

const LINES_ROOM: usize = 4096;

// Why a program has not answered: standard input could not be read, standard output could not be written, or its input is refused.
#[derive(Drop)]
enum Failure {
    Input(io::Error),
    Output(io::Error),
    Refused(Refusal),
}

impl From<Refusal> for Failure {
    fn from(refusal: Refusal) -> Failure {
        Failure::Refused(refusal)
    }
}

// Reads the input.
fn get<R: Read>(input: &mut R, buffer: &mut [u8]) -> Result<usize, Failure>
    ensures counts { ReadsAtMost result buffer.new }
    ensures same_length { length buffer.new ≡ length buffer.old }
{
    streams::read_input(input, buffer).map_err(Failure::Input)
}

// Writes the answer.
fn put<W: Write>(output: &mut W, answer: &[u8]) -> Result<(), Failure> {
    streams::write_all(output, answer).map_err(Failure::Output)
}

impl fmt::Display for Failure {
    fn fmt<W: fmt::Write>(&self, f: &mut fmt::Formatter<W>) -> fmt::Result {
        match self {
            Failure::Input(error) => write!(f, "standard input: {}", Reason(error)),
            Failure::Output(error) => write!(f, "standard output: {}", Reason(error)),
            Failure::Refused(refusal) => write!(f, "{refusal}"),
        }
    }
}

// The exit status: 2 if the input could not be read or the answer not written, and 1 if the input is refused. It is said on standard error.
fn status<R: Eprint>(rt: &R, program: &str, ended: Result<(), Failure>) -> ExitCode {
    let Err(failure) = ended else {
        return ExitCode::SUCCESS;
    };
    if let Failure::Refused(_) = failure {
        let _said = eprintln!(rt; "{failure}");
        return ExitCode::from(1);
    }
    let _said = eprintln!(rt; "{program}: {failure}");
    ExitCode::from(2)
}

// Kept: numbers, since these are what is printed.
// Puts number, place, comparisons and degree into a line, in decimal, one space between, then a line feed.
fn push_answer<const N: usize>(
    line: &mut ArrayString<N>,
    number: u32,
    place: usize,
    comparisons: usize,
    degree: usize,
)
    requires { array_string_len line.old + answer_room ≤ N }
    ensures { Added answer_room line.old line.new }
{
    push_number(line, number, ' ');
    push_number(line, place, ' ');
    push_number(line, comparisons, ' ');
    push_number(line, degree, '\n');
}

// Those of a refused file.
fn push_refused<const N: usize>(line: &mut ArrayString<N>, refused: Refused)
    requires { array_string_len line.old + answer_room ≤ N }
    ensures { Added answer_room line.old line.new }
{
    push_answer(
        line,
        u32::from(refused.refusal.condition),
        refused.refusal.place,
        refused.comparisons,
        refused.degree,
    );
}

// `bijterne`: checks a file and writes the four numbers of its answer. The exit status is 0 if they were written, whatever they say.
pub fn bijterne_run<R: Input + Print + Eprint>(rt: &R) -> ExitCode {
    status(
        rt,
        "bijterne",
        answer_file(&mut rt.reader(), &mut io::writer(rt)),
    )
}

// `explain`: checks a file and writes the four numbers of its answer, and what they say of it. The exit status is as for `bijterne`.
pub fn explain_run<R: Input + Print + Eprint>(rt: &R) -> ExitCode {
    status(
        rt,
        "explain",
        explain_file(&mut rt.reader(), &mut io::writer(rt)),
    )
}

// `shelf`: checks a set and writes the five numbers of its answer. The exit status is as for `bijterne`.
pub fn shelf_run<R: Input + Print + Eprint>(rt: &R) -> ExitCode {
    status(
        rt,
        "shelf",
        answer_set(&mut rt.reader(), &mut io::writer(rt)),
    )
}

// `page`: writes the page of a bare term. At a refusal it writes number and place to standard error, and the exit status is 1.
pub fn page_run<R: Input + Print + Eprint>(rt: &R) -> ExitCode {
    status(
        rt,
        "page",
        print_term(&mut rt.reader(), &mut io::writer(rt)),
    )
}

// `counts`: writes a line for each length from 0 to 7: the length, and how many strings of it the examining call accepts, refuses with 3
// and refuses with 5.
pub fn counts_run<R: Print + Eprint>(rt: &R) -> ExitCode {
    status(rt, "counts", count_strings(&mut io::writer(rt)))
}

fn answer_file<R: Read, W: Write>(input: &mut R, output: &mut W) -> Result<(), Failure> {
    let mut buffer = [0u8; INPUT_ROOM];
    let n = get(input, &mut buffer)?;
    let mut line: ArrayString<LINES_ROOM> = ArrayString::new();
    match checker::check(&buffer[..n]) {
        Ok(checked) => push_answer(&mut line, ACCEPTED, 0, checked.comparisons, checked.degree),
        Err(refused) => push_refused(&mut line, refused),
    }
    put(output, line.as_bytes())
}

fn explain_file<R: Read, W: Write>(input: &mut R, output: &mut W) -> Result<(), Failure> {
    let mut buffer = [0u8; INPUT_ROOM];
    let n = get(input, &mut buffer)?;
    let mut text = Text::new();
    explanation::explain(&buffer[..n], &mut text);
    put(output, text.as_bytes())
}

fn answer_set<R: Read, W: Write>(input: &mut R, output: &mut W) -> Result<(), Failure> {
    let mut buffer = [0u8; INPUT_ROOM];
    let n = get(input, &mut buffer)?;
    let mut line: ArrayString<LINES_ROOM> = ArrayString::new();
    match sets::check_set(&buffer[..n]) {
        Ok(checked) => {
            push_number(&mut line, checked.files, ' ');
            push_answer(&mut line, ACCEPTED, 0, checked.comparisons, 0);
        }
        Err(named) => {
            push_number(&mut line, named.file, ' ');
            push_refused(&mut line, named.refused);
        }
    }
    put(output, line.as_bytes())
}

fn print_term<R: Read, W: Write>(input: &mut R, output: &mut W) -> Result<(), Failure> {
    let mut buffer = [0u8; INPUT_ROOM];
    let n = get(input, &mut buffer)?;
    let mut page = [0u8; LONGEST_PAGE];
    let length = printing::print_term(&buffer[..n], &mut page)?;
    put(output, &page[..length])
}

fn count_strings<W: Write>(output: &mut W) -> Result<(), Failure> {
    let mut lines: ArrayString<LINES_ROOM> = ArrayString::new();
    for n in 0..=LONGEST_COUNTED {
        match counting::count_strings(n) {
            Ok(counts) => push_counts(&mut lines, n, &counts),
            Err(condition) => return Err(Failure::Refused(condition.at(0))),
        }
    }
    put(output, lines.as_bytes())
}

fn push_counts<const N: usize>(lines: &mut ArrayString<N>, n: usize, counts: &Counts)
    requires { array_string_len lines.old + answer_room ≤ N }
    ensures { Added answer_room lines.old lines.new }
{
    push_number(lines, n, ' ');
    push_number(lines, counts.accepted, ' ');
    push_number(lines, counts.malformed, ' ');
    push_number(lines, counts.unbound, '\n');
}
