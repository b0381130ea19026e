// A scheme written as a record.
#![tactic(auto)]

ghost use Rattle.std.specs.Prelude.{◌≡◌};
ghost use Rattle.record_spec.specs.Write.{write_answer_of, write_answer, write_leaves, WritePromise};

use scheme::{Cause, Scheme};

mod parts;

// Writes the record of a scheme, in a version, into the slice, answers its length, and leaves bytes past it unchanged; declined, all of them.
pub fn write(scheme: Scheme, version: u64, out: &mut [u8]) -> Result<usize, Cause>
    ensures answer { write_answer_of result ≡ write_answer scheme version out.old }
    ensures leaves { out.new ≡ write_leaves scheme version out.old }
    ensures promise { WritePromise scheme out.new (write_answer_of result) }
{
    if record::other_version(version) {
        return Err(Cause::Version);
    }
    acceptance::check(scheme)?;
    let size = record::length_of(version, scheme.classes, scheme.columns);
    if out.len() < size {
        return Err(Cause::Slice);
    }
    parts::whole(scheme, version, &mut out[..size]);
    Ok(size)
}
