// The public calls of document 01 on the caller's own bytes. None has a `requires`, and none relies on an earlier one.
#![tactic(auto)]

ghost use Rattle.std.specs.Prelude.{◌≡◌, length};
ghost use Rattle.calculus.specs.Terms.{Term};
ghost use Rattle.code.specs.Limits.{longest_term};
ghost use Rattle.code.specs.Code.{encode};
ghost use Rattle.files.specs.File.{file_answer};
ghost use Rattle.calls.specs.Answers.{file_says, handed, type_answer, type_says, step_answer, step_says, AcceptedTerm, OpenedBody, InLetters};
ghost use Rattle.calls.specs.Claims.{Promises};

use bodies::StepError;
use code::numbers::{LONGEST_STATE, LONGEST_TERM, MOST_ABSTRACTORS};
use code::refusal::{Condition, Refusal};
use frames::Work;
use letters::Letters;

// Examines a file: the term, as a part of the file.
pub fn examine_file(s: &[u8]) -> Result<&[u8], Refusal>
    ensures { file_says (λ part. part.now) result ≡ file_answer s.now }
{
    let layout = fields::read_fields(s)?;
    let part = fields::term_part(s, layout.end);
    examine::examine_term(part)?;
    Ok(part)
}

// Hands over the term that lies in n letters at the start of a body.
fn deliver(body: &Letters, n: usize, out: &mut [u8]) -> Result<usize, Refusal>
    requires { (t : Term) × InLetters body.now n t }
    ensures { (t : Term) → InLetters body.now n t → step_says result out.new ≡ handed out.old (encode t) }
{
    if out.len() < n {
        return Err(Condition::BufferTooShort.at(0));
    }
    letters::write(body, n, out);
    Ok(n)
}

// A term that is accepted, as letters. It is within the limits, so that reading it never ends early.
fn open_body(s: &[u8], body: &mut Letters)
    requires { AcceptedTerm s.now × (length body.old ≡ longest_term) }
    ensures { OpenedBody s.now body.new }
{
    letters::read(s, 0, 0, 0, MOST_ABSTRACTORS, body, 0);
}

// `write_type` for a term that is accepted.
fn type_accepted(s: &[u8], out: &mut [u8]) -> Result<Option<usize>, Refusal>
    requires { AcceptedTerm s.now }
    ensures { type_says result out.new ≡ type_answer s.now out.old }
{
    let mut body: Letters = [0; LONGEST_TERM];
    open_body(s, &mut body);
    let work: Work = [0; LONGEST_STATE];
    let f = frames::empty_frame();
    let typed = bodies::type_in_place(&mut body, s.len(), &work, &f);
    match typed {
        Err(StepError::NotPossible(_)) => Ok(None),
        Err(StepError::Outgrown) => Err(Condition::Outgrown.at(0)),
        Ok(n) => {
            let length = deliver(&body, n, out)?;
            Ok(Some(length))
        }
    }
}

// Writes the type of the term s to the start of `out`: its length, or none for degree 1.
pub fn write_type(s: &[u8], out: &mut [u8]) -> Result<Option<usize>, Refusal>
    ensures { type_says result out.new ≡ type_answer s.now out.old }
{
    examine::examine_term(s)?;
    type_accepted(s, out)
}

// `apply_step` for a term that is accepted.
fn step_accepted(s: &[u8], kind: u8, place: usize, out: &mut [u8]) -> Result<usize, Refusal>
    requires { AcceptedTerm s.now }
    ensures { step_says result out.new ≡ step_answer s.now (record { kind = kind; place = place }) out.old }
{
    let mut body: Letters = [0; LONGEST_TERM];
    open_body(s, &mut body);
    let work: Work = [0; LONGEST_STATE];
    let f = frames::empty_frame();
    let stepped = steps::step_in_place(&mut body, s.len(), &work, &f, kind, place);
    match stepped {
        Err(StepError::NotPossible(_)) => Err(Condition::StepNotPossible.at(0)),
        Err(StepError::Outgrown) => Err(Condition::Outgrown.at(0)),
        Ok(n) => deliver(&body, n, out),
    }
}

// Kept: the kind is a number, as C hands it over; steps::step_in_place refuses the others.
// Applies one step to the term s, and writes the result to the start of `out`: its length.
pub fn apply_step(s: &[u8], kind: u8, place: u16, out: &mut [u8]) -> Result<usize, Refusal>
    ensures { step_says result out.new ≡ step_answer s.now (record { kind = kind; place = place }) out.old }
{
    examine::examine_term(s)?;
    step_accepted(s, kind, usize::from(place), out)
}

pub fn promises()
    ensures { Promises }
{}
