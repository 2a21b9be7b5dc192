// A printed line: its eight fields, each told from the others by what it shows.
ghost use Rattle.std.specs.Prelude.{◌≡◌, List, ℕ, ◌∷◌, ◌+◌, ◌≤◌, length};
ghost use Rattle.text.specs.Text.{space};
ghost use Rattle.text.specs.Row.{answer_alone, field_bytes, row_text};
ghost use Rattle.text.specs.Written.{Wrote, shown_of, field_of, row_of, width, row_width};

use crate::put;

// What a field shows: a number, a call letter, or a path: so many ports of the buffer that is lent beside the field.
#[derive(Clone, Copy)]
pub enum Field {
    Number(u32),
    Letter(u8),
    Path(u16),
}

impl From<u16> for Field {
    ghost use Rattle.text.specs.declared.row.Field.TheVariants.{Number};

    ghost from_gives = { λ n f. f ≡ Number n };

    fn from(n: u16) -> Field {
        Field::Number(u32::from(n))
    }
}

// The fields of a printed line, in their order; None shows nothing. The answer is the number as it is printed.
#[derive(Clone, Copy)]
pub struct Row {
    pub line: u16,
    pub call: Option<Field>,
    pub answer: u16,
    pub node: Option<Field>,
    pub channel: Option<Field>,
    pub receive: Option<Field>,
    pub scouts: Option<Field>,
    pub ports: Option<Field>,
}

// A line that shows its number and an answer alone.
pub fn answer_alone(line: u16, answer: u16) -> Row
    ensures { (w : List ℕ) → row_of w result ≡ answer_alone line answer }
{
    Row {
        line,
        call: None,
        answer,
        node: None,
        channel: None,
        receive: None,
        scouts: None,
        ports: None,
    }
}

// The bytes of a field that shows something.
#[tactic(auto, unfolding(crate::specs::Row::field_bytes))]
fn write_shown(out: &mut [u8], at: usize, f: Field, ports: &[u8]) -> usize
    requires { at + width (shown_of ports.now f) ≤ length out.old }
    ensures { Wrote out.old at (field_bytes (shown_of ports.now f)) out.new result }
{
    match f {
        Field::Number(n) => put::decimal(out, at, n),
        Field::Letter(x) => put::byte(out, at, x),
        Field::Path(n) => {
            let hops = usize::from(n).min(ports.len());
            put::path(out, at, &ports[..hops])
        }
    }
}

// A field behind a space; `-` where it shows nothing.
#[tactic(auto, unfolding(crate::specs::Row::field_bytes))]
fn write_next(out: &mut [u8], at: usize, f: Option<Field>, ports: &[u8]) -> usize
    requires { at + 1 + width (field_of ports.now f) ≤ length out.old }
    ensures { Wrote out.old at (space ∷ field_bytes (field_of ports.now f)) out.new result }
{
    let after = put::byte(out, at, b' ');
    match f {
        None => put::byte(out, after, b'-'),
        Some(f) => write_shown(out, after, f, ports),
    }
}

// Writes a printed line from a place on, and answers the place behind it.
pub fn write(out: &mut [u8], at: usize, row: Row, ports: &[u8]) -> usize
    requires { at + row_width (row_of ports.now row) ≤ length out.old }
    ensures { Wrote out.old at (row_text (row_of ports.now row)) out.new result }
{
    let answer = Some(Field::Number(u32::from(row.answer)));
    let fields = [
        row.call,
        answer,
        row.node,
        row.channel,
        row.receive,
        row.scouts,
        row.ports,
    ];
    let mut end = put::decimal(out, at, u32::from(row.line));
    for field in fields {
        end = write_next(out, end, field, ports);
    }
    put::byte(out, end, b'\n')
}
