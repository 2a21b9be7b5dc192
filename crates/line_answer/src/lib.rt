// What an input line asks, carried out on the table, and its printed line.
#![tactic(auto)]

ghost use Rattle.std.specs.Prelude.{◌≡◌, List, ℕ, ◌+◌, ◌≤◌, length};
ghost use Rattle.layout.specs.Layout.{wide_ports};
ghost use Rattle.ownership.specs.OnTable.{table_step};
ghost use Rattle.text.specs.Row.{nothing, shows, row, row_text};
ghost use Rattle.text.specs.Written.{Wrote, row_of};
ghost use Rattle.input_line.specs.Line.{asks};
ghost use Rattle.input_line.specs.ReadLine.{call_of};
ghost use Rattle.printed_line.specs.PrintedLine.{unreadable, zero_buffer, row_for};
ghost use Rattle.printed_line.specs.LineContracts.{Answered};
ghost use Rattle.line_answer.specs.LineWritten.{WroteLine};

use common::refusal;
use cube::{Node, Port};
use input_line::Asked;
use table::Wide;
use text::row::{Field, Row};
use text::{put, row};

// The line of a call that shows its answer alone.
fn of_answer(line: u16, letter: u8, answer: u16) -> Row
    ensures { (w : List ℕ) → row_of w result ≡ row line letter answer nothing nothing nothing nothing nothing }
{
    Row {
        call: Some(Field::Letter(letter)),
        ..row::answer_alone(line, answer)
    }
}

// The line of a call that shows a node and a port.
fn of_port(line: u16, letter: u8, answer: u16, node: Node, port: Port) -> Row
    ensures { (w : List ℕ) → row_of w result ≡ row line letter answer (shows node.0) nothing nothing nothing (shows port.0) }
{
    Row {
        node: Some(node.0.into()),
        ports: Some(port.0.into()),
        ..of_answer(line, letter, answer)
    }
}

// Carries out what a line asks, and gives the fields of its printed line; the ports of a path are left in the buffer.
fn carry_out(t: &mut [u8], line: u16, asked: Asked, ports: &mut [u8]) -> Row
    requires { ports.old ≡ zero_buffer }
    ensures { Answered t.old line (call_of (Some asked)) ports.new result t.new }
{
    match asked {
        Asked::Make(dimension) => {
            let answer = refusal::answer(router::make::<Wide>(t, dimension));
            of_answer(line, b'F', answer)
        }
        Asked::Block(node, port) => {
            let answer = refusal::answer(router::block::<Wide>(t, node, port));
            of_port(line, b'B', answer, node, port)
        }
        Asked::Unblock(node, port) => {
            let answer = refusal::answer(router::unblock::<Wide>(t, node, port));
            of_port(line, b'E', answer, node, port)
        }
        Asked::Open(x) => printed_line::open(t, line, x, ports),
        Asked::Close(source, channel) => {
            let answer = refusal::answer(router::close::<Wide>(t, source, channel));
            printed_line::of_channel(line, b'C', answer, source, channel)
        }
        Asked::Arm(node, channel) => {
            let answer = refusal::answer(router::arm::<Wide>(t, node, channel));
            printed_line::of_channel(line, b'R', answer, node, channel)
        }
        Asked::Disarm(node, channel) => {
            let answer = refusal::answer(router::disarm::<Wide>(t, node, channel));
            printed_line::of_channel(line, b'D', answer, node, channel)
        }
        Asked::Fold(mask) => {
            let answer = refusal::answer(router::fold(t, mask));
            of_answer(line, b'M', answer)
        }
    }
}

// Writes the printed line of an input line that cannot be read. Behind its number it is the same for each, so it is not put together field by field.
// Not inlined, for speed: written within `answer` it costs each line of a call three to five instructions more.
#[inline(never)]
fn unreadable(out: &mut [u8], at: usize, line: u16) -> usize
    requires { at + length (row_text (unreadable line)) ≤ length out.old }
    ensures { Wrote out.old at (row_text (unreadable line)) out.new result }
{
    let end = put::decimal(out, at, u32::from(line));
    put::text(out, end, b" - 20 - - - - -\n")
}

// Reads an input line, carries it out, and writes its printed line from a place on; the answer is the place behind it.
pub fn answer(t: &mut [u8], out: &mut [u8], at: usize, line: u16, text: &[u8]) -> usize
    requires { at + length (row_text (row_for (table_step wide_ports) t.old line (asks text.now))) ≤ length out.old }
    ensures { WroteLine t.old line (asks text.now) out.old at t.new out.new result }
{
    let Some(asked) = input_line::read(text) else {
        return unreadable(out, at, line);
    };
    let mut ports = [0u8; 9];
    let row = carry_out(t, line, asked, &mut ports);
    row::write(out, at, row, &ports)
}
