// What a command word names: its packet type and its command.
ghost use Rattle.std.specs.Prelude.{◌≡◌, ◌↔◌, ◌<◌, IsTrue};
ghost use Rattle.command_word.specs.Commands.{type_for, values};
ghost use Rattle.command_word.specs.Kinds.{command_number, packet_type_number, NamedBy};

use common::refusal::Refusal;

// The packet types (Words 2). Only the last two carry commands.
#[derive(Clone, Copy, PartialEq, Eq)]
pub enum PacketType {
    Address = 0,
    Data = 1,
    BackTrack = 2,
    Forward = 3,
}

impl PacketType {
    // The commands below this one go with back-track, the others with forward.
    pub const FIRST_FORWARD: u16 = 8;

    // The packet type that goes with a command number, reserved or not.
    pub fn of_command(command: u16) -> PacketType
        ensures { packet_type_number result ≡ type_for command }
    {
        if command < PacketType::FIRST_FORWARD {
            PacketType::BackTrack
        } else {
            PacketType::Forward
        }
    }

    pub fn carries_commands(self) -> bool
        ensures { IsTrue result ↔ (1 < packet_type_number self) }
    {
        matches!(self, PacketType::BackTrack | PacketType::Forward)
    }

    pub fn number(self) -> u16
        ensures { result ≡ packet_type_number self }
    {
        self as u16 // only a cast reads the number of a variant
    }
}

// The commands (Words 3). 3, 10, 11 and 15 are reserved (Words 4).
#[derive(Clone, Copy, PartialEq, Eq)]
pub enum Command {
    PacketAcknowledge = 0,
    RouteAcknowledge = 1,
    RouteRejected = 2,
    ReceiveRejected = 4,
    ForwardedRouteRejected = 5,
    EndToEndAcknowledge = 6,
    EndToEndNotAcknowledged = 7,
    EndOfMessage = 8,
    EndOfTransmission = 9,
    ResetCpu = 12,
    ResetNode = 13,
    FlushPath = 14,
}

impl Command {
    pub fn number(self) -> u16
        ensures { result ≡ command_number self }
    {
        self as u16 // as above
    }

    // How many numbers, from 0 upward, the command carries.
    #[tactic(auto, unfolding(crate::specs::Commands::commands, crate::specs::Commands::values_in, crate::specs::Commands::values))]
    pub fn values(self) -> u16
        ensures { (result ≡ values (command_number self)) × (0 < result) × (result < 65) }
    {
        match self {
            Command::ReceiveRejected => 2,
            Command::EndToEndAcknowledge => 64,
            Command::EndToEndNotAcknowledged => 64,
            Command::EndOfTransmission => 2,
            Command::FlushPath => 2,
            _ => 1,
        }
    }
}

impl TryFrom<u16> for Command {
    type Error = Refusal;

    ghost try_from_gives = { NamedBy };

    fn try_from(number: u16) -> Result<Command, Refusal> {
        match number {
            0 => Ok(Command::PacketAcknowledge),
            1 => Ok(Command::RouteAcknowledge),
            2 => Ok(Command::RouteRejected),
            4 => Ok(Command::ReceiveRejected),
            5 => Ok(Command::ForwardedRouteRejected),
            6 => Ok(Command::EndToEndAcknowledge),
            7 => Ok(Command::EndToEndNotAcknowledged),
            8 => Ok(Command::EndOfMessage),
            9 => Ok(Command::EndOfTransmission),
            12 => Ok(Command::ResetCpu),
            13 => Ok(Command::ResetNode),
            14 => Ok(Command::FlushPath),
            _ => Err(Refusal::ReservedCommand),
        }
    }
}
