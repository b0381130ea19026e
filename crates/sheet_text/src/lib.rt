// The sheet of a record as text (document 01, "Sheet program and examples").
#![tactic(auto)]

ghost use Rattle.std.specs.Prelude.{◌≡◌};
ghost use Rattle.scheme.specs.Accepted.{Accepted};
ghost use Rattle.scheme.specs.Number.{cause_number};
ghost use Rattle.record_spec.specs.Write.{write_answer_of};
ghost use Rattle.sheet_spec.specs.Sheet.{refused_line, sheet_of};
ghost use Rattle.sheet_spec.specs.Answer.{space_of, TextAnswered, sheet_answer, sheet_leaves, TextPromise};

use scheme::{Cause, Scheme};
use text::Text;

mod lines;
mod tables;
mod text;
mod whole;
mod years;

// Writes the line of a refusal.
fn refused(out: &mut [u8], cause: Cause) -> Result<usize, Cause>
    ensures { TextAnswered 11 (refused_line (cause_number cause)) out.old out.new (write_answer_of result) }
{
    if out.len() < 11 {
        return Err(Cause::Slice);
    }
    let mut text = Text { out, at: 0 };
    text.put_refused_line(cause.number());
    Ok(text.at)
}

// Writes the sheet of an accepted scheme.
fn accepted(out: &mut [u8], scheme: Scheme) -> Result<usize, Cause>
    requires { Accepted scheme }
    ensures { TextAnswered (space_of scheme) (sheet_of scheme) out.old out.new (write_answer_of result) }
{
    let years = usize::from(scheme.horizon) + 1;
    let space = 19 + years * (usize::from(scheme.classes) * 40 + 35) + 28;
    if out.len() < space {
        return Err(Cause::Slice);
    }
    let mut text = Text { out, at: 0 };
    text.put_sheet(scheme);
    Ok(text.at)
}

// Writes the sheet of any bytes, or the line of their refusal, answers its length, and leaves bytes past it unchanged; a slice without the
// space is left as it was.
pub fn sheet(bytes: &[u8], out: &mut [u8]) -> Result<usize, Cause>
    ensures answer { write_answer_of result ≡ sheet_answer bytes.now out.old }
    ensures leaves { out.new ≡ sheet_leaves bytes.now out.old }
    ensures promise { TextPromise bytes.now out.new (write_answer_of result) }
{
    match record::read(bytes) {
        Ok(scheme) => accepted(out, scheme),
        Err(cause) => refused(out, cause),
    }
}
