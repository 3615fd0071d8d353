// What `explain` says of a file: the four numbers of the check; a sentence, for every number that a check answers; and of two bodies that
// differ also both, each as a page with a mark below the first difference. A symbol is a byte until request (j).
ghost use Rattle.std.specs.Prelude.{◌+◌, ◌<◌, ◌≤◌, length};
ghost use Rattle.std.specs.Str.{IsUtf8};
ghost use Rattle.code.specs.Limits.{longest_term};
ghost use Rattle.printing.specs.Page.{cells_in_line, line_length, page_length};
ghost use Rattle.streams.specs.Clauses.{number_room};
ghost use Rattle.program.specs.Clauses.{whole_room, place_room, side_room, condition_room, sentence_room, body_room, explanation_room, HasRoom, Added, LineEnd, BodiesAt};

use crate::push_answer;
use arrayvec::ArrayString;
use bodies::Reason;
use code::numbers::{ACCEPTED, LONGEST_TERM};
use code::refusal::Condition;
use compare::Side;
use explaining::{Cause, Explained};
use printing::{CELLS_IN_LINE, LINE_LENGTH, LONGEST_PAGE};
use std::str;
use streams::push_number;

// A text of this length has room for all that is said of a file.
pub const LONGEST_EXPLANATION: usize = 34000;

const OF_FILE: &str = "of the file ";

const OF_TERM: &str = "of the term ";

pub type Text = ArrayString<LONGEST_EXPLANATION>;

// Kept: no Display, for streams::push_number's reason: `Added` says that all of it is there. HasRoom and Added are facts of a text that
// grows, and of no type.
// A number, and the words for one or for any other number.
fn push_count(text: &mut Text, n: usize, one: &str, other: &str)
    requires shorter { length one.now ≤ length other.now }
    requires room { HasRoom text.old (number_room 20 + length other.now) }
    ensures { Added (number_room 20 + length other.now) text.old text.new }
{
    push_number(text, n, ' ');
    text.push_str(if n == 1 { one } else { other });
}

// A place in the file or in the term, and what is there.
fn push_at(text: &mut Text, place: usize, whole: &str, words: &str)
    requires whole { length whole.now ≤ whole_room }
    requires room { HasRoom text.old (place_room + length words.now) }
    ensures { Added (place_room + length words.now) text.old text.new }
{
    text.push_str("At place ");
    push_number(text, place, ' ');
    text.push_str(whole);
    text.push_str(words);
}

// 8: how many applicators wait, and where the last of them stands.
fn push_waiting(text: &mut Text, place: usize, waiting: usize)
    requires { HasRoom text.old sentence_room }
    ensures { Added sentence_room text.old text.new }
{
    text.push_str("Tau is met while ");
    push_count(
        text,
        waiting,
        "applicator waits; it stands at place ",
        "applicators wait; the last of them stands at place ",
    );
    push_number(text, place, ' ');
    text.push_str("of the term.\n");
}

// 10: why a step is not possible.
fn reason_words(reason: Reason) -> &'static str
    ensures { length result.now ≤ condition_room }
{
    match reason {
        Reason::UnknownKind => "its kind is not 1, 2 or 3.\n",
        Reason::PastEnd => "its place is past the end of the body, as the steps before left it.\n",
        Reason::WrongSymbol => {
            "the symbol at its place is not one that its kind takes: a variable (kind 1) or an applicator (kinds 2 and 3).\n"
        }
        Reason::NoPartner => {
            "the applicator at its place, or the abstractor of the variable there, has no partner.\n"
        }
        Reason::StillUsed => "the variable of the couple at its place is still used.\n",
    }
}

fn side_words(side: Side) -> &'static str
    ensures { length result.now ≤ side_room }
{
    match side {
        Side::Left => "of the left list of group ",
        Side::Right => "of the right list of group ",
    }
}

// 10: the step that is not possible.
fn push_step(text: &mut Text, place: usize, group: usize, side: Side, step: usize, reason: Reason)
    requires { HasRoom text.old sentence_room }
    ensures { Added sentence_room text.old text.new }
{
    push_at(text, place, OF_TERM, "the applicator is compared; step ");
    push_number(text, step, ' ');
    text.push_str(side_words(side));
    push_number(text, group, ',');
    text.push_str(" both counted from 0, is not possible: ");
    text.push_str(reason_words(reason));
}

// 12: where two bodies first differ.
fn push_difference(text: &mut Text, place: usize, group: usize, difference: usize)
    requires { HasRoom text.old sentence_room }
    ensures { Added sentence_room text.old text.new }
{
    push_at(
        text,
        place,
        OF_TERM,
        "the type of the applicator's K (left) and the abstractor's U (right), as the steps of group ",
    );
    push_number(text, group, ' ');
    text.push_str("carried them, first differ at byte ");
    push_number(text, difference, ',');
    text.push_str(" both counted from 0.\n");
}

// Every condition that has nothing but its place.
fn push_ground(text: &mut Text, condition: Condition, place: usize)
    requires { HasRoom text.old sentence_room }
    ensures { Added sentence_room text.old text.new }
{
    match condition {
        Condition::CutShort => push_at(
            text,
            place,
            OF_FILE,
            "a field is due, and the file ends before that field does.\n",
        ),
        Condition::WrongField => push_at(
            text,
            place,
            OF_FILE,
            "the tag is not the one due (1, then 2 and 3 in turn), or the steps are not a multiple of 3 bytes.\n",
        ),
        Condition::NotOneTerm => push_at(
            text,
            place,
            OF_TERM,
            "its field ends too early, or goes on though the term has ended.\n",
        ),
        Condition::TooLong => text.push_str(
            "The file has over 65,535 bytes, or its term over 4,096.\n",
        ),
        Condition::BeyondScope => push_at(
            text,
            place,
            OF_TERM,
            "the index is beyond its scope: fewer abstractors are in scope there.\n",
        ),
        Condition::TooManyInScope => push_at(
            text,
            place,
            OF_TERM,
            "an abstractor is one too many: 253 are in scope there already.\n",
        ),
        Condition::NoType => push_at(
            text,
            place,
            OF_TERM,
            "the applicator's K is taken by an abstractor, but ends in tau and so has no type.\n",
        ),
        Condition::NoGroupLeft => push_at(
            text,
            place,
            OF_TERM,
            "the applicator is due for a comparison, but no group is left.\n",
        ),
        Condition::Outgrown => push_at(
            text,
            place,
            OF_TERM,
            "a limit is outgrown: 8,192 bytes for a state, 4,096 for a compared body, 253 abstractors in scope in either.\n",
        ),
        _ => push_at(
            text,
            place,
            OF_FILE,
            "a group begins that is left over: every comparison is done.\n",
        ),
    }
}

// Where the line ends that has this cell, on the page of s.
fn line_end(s: &[u8], cell: usize) -> usize
    requires { (cell < length s.now) × (length s.now ≤ longest_term) }
    ensures { LineEnd s.now cell result }
{
    let end = (cell / CELLS_IN_LINE + 1) * CELLS_IN_LINE;
    if end < s.len() {
        return end;
    }
    s.len()
}

// A page, or a line of one.
fn push_lines(text: &mut Text, lines: &[u8])
    requires text { IsUtf8 lines.now }
    requires room { HasRoom text.old (length lines.now) }
    ensures { Added (length lines.now) text.old text.new }
{
    text.push_str(str::from_utf8(lines).unwrap());
}

// The page of s, which has no line where s is empty.
fn push_page(text: &mut Text, s: &[u8])
    requires short { length s.now ≤ longest_term }
    requires room { HasRoom text.old (page_length (length s.now)) }
    ensures { Added (page_length (length s.now)) text.old text.new }
{
    if s.is_empty() {
        return;
    }
    let mut page = [0; LONGEST_PAGE];
    printing::write_page(s, &mut page);
    push_lines(text, &page[..printing::page_length(s.len())]);
}

fn push_mark(text: &mut Text, cell: usize)
    requires in_line { cell < cells_in_line }
    requires room { HasRoom text.old line_length }
    ensures { Added line_length text.old text.new }
{
    let mut line = [0; LINE_LENGTH];
    printing::write_mark(cell, &mut line);
    push_lines(text, &line);
}

// The page of s, with a mark on a line of its own below the cell of this number.
fn push_marked_page(text: &mut Text, s: &[u8], cell: usize)
    requires in_page { cell < length s.now }
    requires short { length s.now ≤ longest_term }
    requires room { HasRoom text.old (page_length (length s.now) + line_length) }
    ensures { Added (page_length (length s.now) + line_length) text.old text.new }
{
    let end = line_end(s, cell);
    push_page(text, &s[..end]);
    push_mark(text, cell % CELLS_IN_LINE);
    push_page(text, &s[end..]);
}

// One of two bodies that differ, which is on this side.
fn push_body(text: &mut Text, side: &str, s: &[u8], difference: usize)
    requires side { length side.now ≤ side_room }
    requires differs { difference < length s.now }
    requires short { length s.now ≤ longest_term }
    requires room { HasRoom text.old body_room }
    ensures { Added body_room text.old text.new }
{
    text.push_str(side);
    push_count(text, s.len(), "byte:\n", "bytes:\n");
    push_marked_page(text, s, difference);
}

// Two bodies that differ, of n and k bytes, at the starts of two buffers.
fn push_bodies(text: &mut Text, left: &[u8], n: usize, right: &[u8], k: usize, difference: usize)
    requires bodies { BodiesAt left.now n right.now k difference }
    requires room { HasRoom text.old (body_room + body_room) }
    ensures { Added (body_room + body_room) text.old text.new }
{
    push_body(text, "left, ", &left[..n], difference);
    push_body(text, "right, ", &right[..k], difference);
}

fn push_sentence(text: &mut Text, e: Explained)
    requires { HasRoom text.old sentence_room }
    ensures { Added sentence_room text.old text.new }
{
    let place = e.place;
    let group = e.comparisons;
    match e.cause {
        Cause::StillWaiting { waiting } => push_waiting(text, place, waiting),
        Cause::StepNotPossible { side, step, reason } => {
            push_step(text, place, group, side, step, reason)
        }
        Cause::BodiesDiffer { difference, .. } => push_difference(text, place, group, difference),
        Cause::Other(condition) => push_ground(text, condition, place),
    }
}

// All that is said of the file s.
pub fn explain(s: &[u8], text: &mut Text)
    requires { HasRoom text.old explanation_room }
    ensures { Added explanation_room text.old text.new }
{
    let mut left: [u8; LONGEST_TERM] = [0; LONGEST_TERM];
    let mut right: [u8; LONGEST_TERM] = [0; LONGEST_TERM];
    let e = match explaining::explain(s, &mut left, &mut right) {
        Ok(checked) => {
            push_answer(text, ACCEPTED, 0, checked.comparisons, checked.degree);
            text.push_str("The file is accepted: its term is correct.\n");
            return;
        }
        Err(e) => e,
    };
    let number = u32::from(Condition::from(e.cause));
    push_answer(text, number, e.place, e.comparisons, e.degree);
    push_sentence(text, e);
    if let Cause::BodiesDiffer {
        left: n,
        right: k,
        difference,
    } = e.cause
    {
        push_bodies(text, &left, n, &right, k, difference);
    }
}
