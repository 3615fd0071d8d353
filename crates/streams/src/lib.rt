// Reading and writing for the programs: the whole input or the error; the whole answer or the error; a number put into a text; and what a
// failure says of itself.
#![tactic(auto)]

ghost use Rattle.std.specs.Prelude.{◌≡◌, ◌+◌, ◌≤◌, ◌<◌, ◌⊎◌, ◌++◌, ◌∷◌, [], ℕ, codes, length, take, IfOk, OnOk};
ghost use Rattle.std.specs.Io.{ReadsAtMost};
ghost use Rattle.std.specs.Io.KnownBytes.{Appends, Consumes, IsAtEnd};
ghost use Rattle.std.specs.Str.Pattern.{HasTextAt, LacksTextAt};
ghost use Rattle.arrayvec.specs.ArrayString.{array_string_len};
ghost use Rattle.streams.specs.Clauses.{number_room, Added};

use arrayvec::ArrayString;
use itoa::Integer;
use std::fmt::Write as _;
use std::io::{Error, ErrorKind, Read, Write};
use std::{fmt, io};

// Reads until the input ends or the buffer is full: how many bytes stand at the buffer's start. A read that a signal interrupted is tried
// again. A proved loop has to end, and nothing says that an input does: so it counts its turns, to a number that no run reaches.
pub fn read_input<R: Read>(reader: &mut R, s: &mut [u8]) -> io::Result<usize>
    ensures counts { ReadsAtMost result s.new }
    ensures same_length { length s.new ≡ length s.old }
    ensures bytes { IfOk result (λ n. Consumes (R.remaining reader.old) (R.remaining reader.new) (take n s.new)) }
    ensures whole { IfOk result (λ n. (n ≡ length s.new) ⊎ IsAtEnd (R.remaining reader.new)) }
{
    let mut n: usize = 0;
    for _turn in 0..u64::MAX {
        if n >= s.len() {
            return Ok(n);
        }
        match reader.read(&mut s[n..]) {
            Ok(0) => return Ok(n),
            Ok(moved) => n += moved,
            Err(error) => {
                if error.kind() != ErrorKind::Interrupted {
                    return Err(error);
                }
            }
        }
    }
    Err(Error::other("too many reads"))
}

// Writes all of s, in one write if the system takes it so. A write that a signal interrupted is tried again; this loop counts its turns too.
// Kept: not std's `write_all`, which gives up after many interrupted writes and has other words where a write takes nothing.
pub fn write_all<W: Write>(writer: &mut W, s: &[u8]) -> io::Result<()>
    ensures { OnOk result (Appends (W.contents writer.old) (W.contents writer.new) s.now) }
{
    let mut n: usize = 0;
    for _turn in 0..u64::MAX {
        if n >= s.len() {
            return Ok(());
        }
        match writer.write(&s[n..]) {
            Ok(0) => return Err(Error::from(ErrorKind::WriteZero)),
            Ok(moved) => n += moved,
            Err(error) => {
                if error.kind() != ErrorKind::Interrupted {
                    return Err(error);
                }
            }
        }
    }
    Err(Error::other("too many writes"))
}

// No error says more than so many bytes.
const LONGEST_MESSAGE: usize = 300;

// The system's words for an error, without its number.
#[derive(Clone, Copy)]
pub struct Reason<'a>(pub &'a Error);

impl fmt::Display for Reason<'_> {
    fn fmt<W: fmt::Write>(&self, f: &mut fmt::Formatter<W>) -> fmt::Result {
        let error = self.0;
        let mut message: ArrayString<LONGEST_MESSAGE> = ArrayString::new();
        if write!(message, "{error}").is_err() {
            return write!(f, "{error}");
        }
        f.write_str(words(message.as_str()))
    }
}

// What stands before the system's number in a message; all of it where there is none.
pub fn words(message: &str) -> &str
    ensures start { result.now ≡ take (length result.now) message.now }
    ensures ends { (result.now ≡ message.now) ⊎ HasTextAt (codes " (os error ") message.now (length result.now) (length result.now + 11) }
    ensures first { (i : ℕ) → i < length result.now → LacksTextAt (codes " (os error ") message.now i }
{
    match message.split_once(" (os error ") {
        Some((words, _number)) => words,
        None => message,
    }
}

// Puts a text into a longer one, from `at` on: where it ends.
// Kept: beside the texts that know their length, since here any bytes can be put anywhere, as in no `ArrayString`.
pub fn add_text(line: &mut [u8], at: usize, text: &[u8]) -> usize
    requires { at + length text.now ≤ length line.old }
    ensures { Added at (length text.now) line.old result line.new }
{
    parts::copy_part(text, 0, text.len(), line, at);
    at + text.len()
}

// Puts n in decimal and a byte after it, whatever it is, into a text, from `at` on: where they end.
pub fn add_number(line: &mut [u8], at: usize, n: u64, after: u8) -> usize
    requires { at + number_room 20 ≤ length line.old }
    ensures { Added at (number_room 20) line.old result line.new }
{
    let mut digits = itoa::Buffer::new();
    let end = add_text(line, at, digits.format(n).as_bytes());
    line[end] = after;
    end + 1
}

// Puts n in decimal at the end of a text, and one more byte.
// Kept: not `write!`, of which no clause says that it succeeds where there is room.
pub fn push_number<const N: usize, I: Integer>(text: &mut ArrayString<N>, n: I, after: char)
    requires one_byte { after < 128 }
    requires room { array_string_len text.old + number_room I.MAX_STR_LEN ≤ N }
    ensures bytes { text.new.bytes ≡ text.old.bytes ++ I.text n ++ after ∷ [] }
    ensures fits { array_string_len text.new ≤ array_string_len text.old + number_room I.MAX_STR_LEN }
{
    text.push_str(itoa::Buffer::new().format(n));
    text.push(after);
}
