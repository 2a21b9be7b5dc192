// The whole list.
ghost use Rattle.layout.specs.Layout.{wide_ports};
ghost use Rattle.std.specs.Prelude.{◌≡◌, ◌==◌, ◌+◌, ◌<◌, ◌≤◌, length};
ghost use Rattle.std.specs.List.{slice_split};
ghost use Rattle.text.specs.Lines.{lines};
ghost use Rattle.text.specs.Row.{rows_text};
ghost use Rattle.listing.specs.Listing.{rows};
ghost use Rattle.text.specs.Written.{Wrote};
ghost use Rattle.listing.specs.Printed.{filled, lists};
ghost use Rattle.ownership.specs.OnTable.{table_step};

use layout::Layout;
use table::Wide;
use text::put;

// The size of a wide table.
const TABLE_BYTES: usize = <Wide as Layout>::LENGTH;

// The most bytes of an input that is listed.
pub const INPUT_LIMIT: usize = 60000;

// The size of an output: the header, and 24 bytes for each of 60,001 bytes, one more than the longest input has.
pub const OUTPUT_BYTES: usize = 1440075;

// An input without the newline that ends its last line.
fn without_end(input: &[u8]) -> &[u8]
    requires { 0 < length input.now }
    ensures { (lines input.now ≡ slice_split (λ x. x == 10) result.now) × (length result.now ≤ length input.now) }
{
    match input {
        [text @ .., b'\n'] => text,
        _ => input,
    }
}

// The printed lines of an input, from a place on. Each line of input is carried out on the table and printed, with its number, from 1 on; there are fewer than 65,535.
fn rows(input: &[u8], t: &mut [u8], out: &mut [u8], at: usize) -> usize
    requires { (length input.now ≤ 60000) × (at + length (rows_text (rows (table_step wide_ports) t.old 1 (lines input.now))) ≤ length out.old) }
    ensures { Wrote out.old at (rows_text (rows (table_step wide_ports) t.old 1 (lines input.now))) out.new result }
{
    if input.is_empty() {
        return at;
    }
    let mut end = at;
    for (line, text) in (1..u16::MAX).zip(without_end(input).split(|x| *x == b'\n')) {
        end = line_answer::answer(t, out, end, line, text);
    }
    end
}

// The output is shorter than the longest list, and nothing was written.
#[derive(Clone, Copy)]
pub struct TooShort;

// Writes the printed list of an input to the start of an output, and answers how many bytes it has. Later bytes keep their content.
pub fn list(input: &[u8], output: &mut [u8]) -> Result<usize, TooShort>
    ensures { filled result output.new ≡ lists input.now output.old }
{
    if output.len() < OUTPUT_BYTES {
        return Err(TooShort);
    }
    if INPUT_LIMIT < input.len() {
        return Ok(put::text(output, 0, b"too long\n"));
    }
    let mut t = [0u8; TABLE_BYTES];
    table::make::<Wide>(&mut t, 1);
    let at = put::text(
        output,
        0,
        b"line call answer node channel receive scouts ports\n",
    );
    Ok(rows(input, &mut t, output, at))
}
