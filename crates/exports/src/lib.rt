// The calls for programs in C and Rust. A slice is a pointer and a length; an answer is written to an array of numbers that
// the caller lends.
#![tactic(auto)]

ghost use Rattle.std.specs.Prelude.{◌≡◌};
ghost use Rattle.examine.specs.Inspect.{term_answer};
ghost use Rattle.files.specs.File.{file_answer};
ghost use Rattle.files.specs.Check.{check_file};
ghost use Rattle.calls.specs.Answers.{type_answer, step_answer};
ghost use Rattle.printing.specs.Page.{print_answer};
ghost use Rattle.counting.specs.Counts.{count_answer};
ghost use Rattle.explaining.specs.Explain.{explain_file};
ghost use Rattle.sets.specs.Sets.{check_set};
ghost use Rattle.exports.specs.Numbers.{result_numbers, term_numbers, file_numbers, check_numbers, numbers_of_refused, count_numbers, set_numbers, none_of, Given, Explains};

use checker::Refused;
use code::refusal::{Condition, Refusal};

// Kept: `as u64` in all of these, since Rust has no From<usize> for u64 and C takes 64 bits; the numbers 0 are C's.
// Number, place and what was found: a degree or a length, 0 for a refusal.
fn numbers(answer: Result<usize, Refusal>) -> [u64; 3]
    ensures { result ≡ result_numbers answer }
{
    match answer {
        Ok(found) => [0, 0, found as u64],
        Err(refusal) => [
            u64::from(u32::from(refusal.condition)),
            refusal.place as u64,
            0,
        ],
    }
}

// Number, place, degree.
#[unsafe(no_mangle)]
pub extern "C" fn bijterne_examine_term(s: &[u8], answer: &mut [u64; 3])
    ensures { answer.new ≡ term_numbers (term_answer s.now) }
{
    *answer = numbers(examine::examine_term(s));
}

// Number, place, and the length of the term's part, which starts at byte 3 of an accepted file.
#[unsafe(no_mangle)]
pub extern "C" fn bijterne_examine_file(s: &[u8], answer: &mut [u64; 3])
    ensures { answer.new ≡ file_numbers (file_answer s.now) }
{
    *answer = match calls::examine_file(s) {
        Ok(part) => numbers(Ok(part.len())),
        Err(refusal) => numbers(Err(refusal)),
    };
}

// Number, place and the length written; answers 1 for 'none', and then nothing is written.
#[unsafe(no_mangle)]
pub extern "C" fn bijterne_write_type(s: &[u8], out: &mut [u8], answer: &mut [u64; 3]) -> u32
    ensures { (result ≡ none_of (type_answer s.now out.old)) × Given (type_answer s.now out.old) answer.old answer.new out.new }
{
    match calls::write_type(s, out).transpose() {
        None => 1,
        Some(written) => {
            *answer = numbers(written);
            0
        }
    }
}

// Number, place and the length written.
#[unsafe(no_mangle)]
pub extern "C" fn bijterne_apply_step(
    s: &[u8],
    // Kept: a number, as C hands it over.
    kind: u8,
    place: u16,
    out: &mut [u8],
    answer: &mut [u64; 3],
)
    ensures { Given (step_answer s.now (record { kind = kind; place = place }) out.old) answer.old answer.new out.new }
{
    *answer = numbers(calls::apply_step(s, kind, place, out));
}

// Number, place and the length of the page.
#[unsafe(no_mangle)]
pub extern "C" fn bijterne_print_term(s: &[u8], out: &mut [u8], answer: &mut [u64; 3])
    ensures { Given (print_answer s.now out.old) answer.old answer.new out.new }
{
    *answer = numbers(printing::print_term(s, out));
}

// Number, and how many strings are accepted, refused with 3 and refused with 5.
#[unsafe(no_mangle)]
pub extern "C" fn bijterne_count_strings(length: usize, answer: &mut [u64; 4])
    ensures { answer.new ≡ count_numbers (count_answer length) }
{
    *answer = match counting::count_strings(length) {
        Ok(counts) => [0, counts.accepted, counts.malformed, counts.unbound],
        Err(condition) => [u64::from(u32::from(condition)), 0, 0, 0],
    };
}

// Of a refused file: number, place, comparisons completed, degree.
fn refused_numbers(refused: Refused) -> [u64; 4]
    ensures { result ≡ numbers_of_refused refused }
{
    [
        u64::from(u32::from(refused.refusal.condition)),
        refused.refusal.place as u64,
        refused.comparisons as u64,
        refused.degree as u64,
    ]
}

// Number, place, comparisons completed, degree.
#[unsafe(no_mangle)]
pub extern "C" fn bijterne_check(s: &[u8], answer: &mut [u64; 4])
    ensures { answer.new ≡ check_numbers (check_file s.now) }
{
    *answer = match checker::check(s) {
        Ok(checked) => [0, 0, checked.comparisons as u64, checked.degree as u64],
        Err(refused) => refused_numbers(refused),
    };
}

// The refused file's number, from 0, with its own number, place, comparisons and degree; or how many files, 0, 0, the comparisons in all, 0.
#[unsafe(no_mangle)]
pub extern "C" fn bijterne_check_set(s: &[u8], answer: &mut [u64; 5])
    ensures { answer.new ≡ set_numbers (check_set s.now) }
{
    *answer = match sets::check_set(s) {
        Ok(checked) => [checked.files as u64, 0, 0, checked.comparisons as u64, 0],
        Err(named) => {
            let refused = refused_numbers(named.refused);
            [
                named.file as u64,
                refused[0],
                refused[1],
                refused[2],
                refused[3],
            ]
        }
    };
}

// Number, place, comparisons completed, degree; then for 12 the lengths of the two bodies and the first difference, for 10 side, step and
// condition, for 8 how many wait; then 0s.
#[unsafe(no_mangle)]
pub extern "C" fn bijterne_explain(
    s: &[u8],
    left: &mut [u8],
    right: &mut [u8],
    answer: &mut [u64; 8],
)
    ensures { Explains (explain_file s.now left.old right.old) answer.new left.new right.new }
{
    *answer = match explaining::explain(s, left, right) {
        Ok(checked) => [
            0,
            0,
            checked.comparisons as u64,
            checked.degree as u64,
            0,
            0,
            0,
            0,
        ],
        Err(explained) => {
            let (first, second, third) = explained.cause.numbers();
            [
                u64::from(u32::from(Condition::from(explained.cause))),
                explained.place as u64,
                explained.comparisons as u64,
                explained.degree as u64,
                first as u64,
                second as u64,
                third as u64,
                0,
            ]
        }
    };
}
