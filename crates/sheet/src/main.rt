// Reads one record from standard input and prints its sheet (document 01, "Sheet program and examples").
#![tactic(auto)]

ghost use Rattle.sheet.specs.Program.{ComposePre, ComposePost};

// One byte more than a record's length field can say: input that has more is refused by its first bytes, as it would be by all of them.
const INPUT: usize = 65_536;

// Space for the sheet of any record.
const SPACE: usize = 132_862;

// Writes the sheet of the first n bytes of the input, and answers its length: a sheet of any bytes has space there.
// The whole buffer and n, and not `&input[..n]`: `ComposePost` tells by the buffer's length which longer input has the same sheet.
fn compose(input: &[u8], n: usize, out: &mut [u8]) -> usize
    requires { ComposePre input.now n out.old }
    ensures { ComposePost input.now n out.new result }
{
    sheet_text::sheet(&input[..n], out).unwrap_or(0)
}

fn main(rt: HostRuntime) {
    let mut input = [0u8; INPUT];
    let Ok(length) = console::read_all(rt.stdin(), rt.stderr(), b"sheet", &mut input) else {
        return;
    };
    let mut out = [0u8; SPACE];
    let written = compose(&input, length, &mut out);
    if rt.write_all(&out[..written]).is_err() {
        // Where this cannot be written either, there is nobody left to tell.
        let _ = eprintln!(rt; "sheet: standard output could not be written");
    }
}
