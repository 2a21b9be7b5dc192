// The printed line of an open.
#![tactic(auto)]

ghost use Rattle.std.specs.Prelude.{List, ◌≡◌, ℕ};
ghost use Rattle.common.specs.Refusals.{number_of};
ghost use Rattle.std.proofs.Math.Option.{some};
ghost use Rattle.ownership.specs.Calls.{opening, carries_scouts};
ghost use Rattle.text.specs.Row.{nothing, shows, row};
ghost use Rattle.text.specs.Written.{field_of, row_of};
ghost use Rattle.printed_line.specs.PrintedLine.{shows_if, zero_buffer};
ghost use Rattle.printed_line.specs.LineContracts.{Answered};

use answers::{Opening, Rejected};
use common::refusal;
use common::refusal::Refusal;
use cube::Node;
use table::Wide;
use text::row;
use text::row::{Field, Row};

// The line of a call that shows a node and a channel.
pub fn of_channel(line: u16, letter: u8, answer: u16, node: Node, channel: u16) -> Row
    ensures { (w : List ℕ) → row_of w result ≡ row line letter answer (shows node.0) (shows channel) nothing nothing nothing }
{
    Row {
        call: Some(Field::Letter(letter)),
        node: Some(node.0.into()),
        channel: Some(channel.into()),
        ..row::answer_alone(line, answer)
    }
}

// The scouts of an open that was rejected after the search.
#[tactic(auto, unfolding(ownership::specs::Calls::carries_scouts))]
fn scouts_of(rejected: Rejected) -> Option<Field>
    ensures { (w : List ℕ) → field_of w result ≡ shows_if (carries_scouts (number_of rejected.refusal)) (shows rejected.scouts) }
{
    match rejected.refusal {
        Refusal::RouteRejected => Some(Field::Number(rejected.scouts)),
        Refusal::ReceiveRejected => Some(Field::Number(rejected.scouts)),
        Refusal::NoRoute => Some(Field::Number(rejected.scouts)),
        _ => None,
    }
}

// An open. A trace tells the ports of one that was acknowledged.
pub fn open(t: &mut [u8], line: u16, x: Opening, ports: &mut [u8]) -> Row
    requires { ports.old ≡ zero_buffer }
    ensures { Answered t.old line (some (opening x.source.0 x.channel x.target.0 x.routing x.vector)) ports.new result t.new }
{
    match router::open::<Wide>(t, x) {
        Err(rejected) => Row {
            scouts: scouts_of(rejected),
            ..of_channel(line, b'S', rejected.refusal.number(), x.source, x.channel)
        },
        Ok(acknowledged) => {
            let hops = router::trace::<Wide>(t, x.source, x.channel, ports).unwrap_or(0);
            Row {
                receive: Some(acknowledged.receive.into()),
                scouts: Some(Field::Number(acknowledged.scouts)),
                ports: Some(Field::Path(hops)),
                ..of_channel(line, b'S', refusal::ACCEPTED, x.source, x.channel)
            }
        }
    }
}
