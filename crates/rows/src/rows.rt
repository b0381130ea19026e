// The parts of an interval row's answer.
// `as` stands between `usize` and another width, for which there is no `From`, and where a number is proved to fit a narrower one: what `TryFrom`
// answers could only be unwrapped.
ghost use Rattle.std.specs.Prelude.{◌≡◌, ◌-◌, ◌≤◌, Ok};
ghost use Rattle.scheme.specs.Access.{CELL_STRIDE};
ghost use Rattle.scheme.specs.RowAnswer.{row_answer_of};
ghost use Rattle.rows.specs.Rows.{entries_of, row_from};

use crate::sum_by_target;
use scheme::{Row, Scheme, class_bands};

// The lower or the upper entries of one class from its rules and their bands' ends, with 0 beyond s.
pub fn entries(rules: &[u8], ends: &[u32], classes: u8) -> [u64; 32]
    requires { classes ≤ 32 }
    ensures { result ≡ entries_of rules.now ends.now classes }
{
    let n = usize::from(classes);
    let mut out = [0u64; 32];
    sum_by_target(rules, ends, &mut out[..n]);
    out
}

// The row of a class of an accepted scheme.
pub fn answered(scheme: Scheme, class: u64) -> Row
    requires { (1 ≤ class) × (class ≤ scheme.classes) × (scheme.classes ≤ 32) × (scheme.columns ≤ CELL_STRIDE) }
    ensures { row_answer_of (Ok result) ≡ row_from scheme.rules scheme.lowers scheme.uppers scheme.columns scheme.classes (class - 1) }
{
    let m = usize::from(scheme.columns);
    let i = (class - 1) as usize;
    let from = i * scheme::CELL_STRIDE;
    let own = &scheme.rules[from..from + m];
    let lower = entries(own, class_bands(&scheme.lowers, m, i), scheme.classes);
    let upper = entries(own, class_bands(&scheme.uppers, m, i), scheme.classes);
    Row { lower, upper }
}
