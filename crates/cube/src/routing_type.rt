// The routing type of a send: which paths it may try, and in which order.
ghost use Rattle.cube.specs.RoutingTypes.{ReadsType, SentAs};

use common::refusal::Refusal;

#[derive(Clone, Copy, Debug, PartialEq, Eq)]
pub enum RoutingType {
    // Every permitted path of the send vector, in one pass.
    Maze = 0,
    // The helix path of each port of the vector, in rising order.
    Helix = 1,
    // The helix path of its lowest port alone.
    Fixed = 3,
    // As Maze, and where that finds no path a second pass with the ports that the vector left out.
    AlternateMaze = 4,
}

impl TryFrom<u16> for RoutingType {
    type Error = Refusal;

    ghost try_from_gives = { ReadsType };

    fn try_from(number: u16) -> Result<RoutingType, Refusal> {
        match number {
            0 => Ok(RoutingType::Maze),
            1 => Ok(RoutingType::Helix),
            3 => Ok(RoutingType::Fixed),
            4 => Ok(RoutingType::AlternateMaze),
            _ => Err(Refusal::RoutingType),
        }
    }
}

impl RoutingType {
    // The type as which a number is sent: a number that is no type, which the tests of an open let no one send, as type 0.
    pub fn sent_as(number: u16) -> RoutingType
        ensures { SentAs number result }
    {
        RoutingType::try_from(number).unwrap_or(RoutingType::Maze)
    }
}
