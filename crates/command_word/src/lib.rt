// Command words: packet type, command and status of the patent's command packets, stored in one number (Words 1).
#![tactic(auto)]

ghost use Rattle.std.specs.Prelude.{◌≡◌, ◌≤◌, ◌<◌};
ghost use Rattle.command_word.specs.Commands.{word_of, type_of, command_of, status_of, type_for};
ghost use Rattle.command_word.specs.Kinds.{command_number, packet_type_number};
ghost use Rattle.command_word.specs.Word.{read_word, write_word, read_answer, write_answer};

use common::refusal::Refusal;

mod kinds;

pub use kinds::{Command, PacketType};

// A stored word: its packet type stands above its command, and that above its status.
#[derive(Clone, Copy)]
pub struct CommandWord(pub u16);

// What a word says: its command, and the number that the command carries.
#[derive(Clone, Copy)]
pub struct Reading {
    pub command: Command,
    pub carried: u16,
}

impl CommandWord {
    // Forms 6: the fields, what one of each is worth in a word, and how many there are. Numbers, since a word is stored as one, and C's header shows them so.
    pub const TYPE_PLACE: u16 = 1024;

    pub const COMMAND_PLACE: u16 = 64;

    pub const STATUS_PLACE: u16 = 1;

    pub const TYPES: u16 = 4;

    pub const COMMANDS: u16 = 16;

    pub const STATUSES: u16 = 64;

    pub const LARGEST: u16 = CommandWord::TYPES * CommandWord::TYPE_PLACE - 1;

    // What a command carries is a number, whose meaning depends on the command: these are the numbers that have names, as C's header shows them. No enum, since
    // one number means something else with each command.
    // What ReceiveRejected carries.
    pub const STATUS_RECEIVE_REJECTED: u16 = 0;

    pub const STATUS_PARITY_ERROR_BACK: u16 = 1;
    // What EndOfTransmission carries.
    pub const STATUS_NO_END_TO_END: u16 = 0;

    pub const STATUS_END_TO_END: u16 = 1;
    // What FlushPath carries.
    pub const STATUS_FLUSH_PATH: u16 = 0;

    pub const STATUS_PARITY_ERROR_FORWARD: u16 = 1;
    // What EndToEndNotAcknowledged carries: a code above an error.
    pub const CODE_PLACE: u16 = 16;

    pub const CODES: u16 = 4;

    pub const ERRORS: u16 = 16;

    // The word of a command with its status: the packet type is the command's.
    fn new(command: Command, status: u16) -> CommandWord
        requires { status < 64 }
        ensures { result.0 ≡ word_of (type_for (command_number command)) (command_number command) status }
    {
        let number = command.number();
        let packet_type = PacketType::of_command(number).number();
        CommandWord(
            packet_type * CommandWord::TYPE_PLACE
                + number * CommandWord::COMMAND_PLACE
                + status * CommandWord::STATUS_PLACE,
        )
    }

    // The fields of a word. Forms 6: readers that need no word beforehand, so without self. No `TryFrom`: a word up to 4,095 has one of four types, and none can fail.
    fn packet_type(word: CommandWord) -> PacketType
        requires { word.0 ≤ 4095 }
        ensures { packet_type_number result ≡ type_of word.0 }
    {
        match word.0 / CommandWord::TYPE_PLACE {
            0 => PacketType::Address,
            1 => PacketType::Data,
            2 => PacketType::BackTrack,
            _ => PacketType::Forward,
        }
    }

    fn command(word: CommandWord) -> u16
        ensures { result ≡ command_of word.0 }
    {
        word.0 / CommandWord::COMMAND_PLACE % CommandWord::COMMANDS
    }

    fn status(word: CommandWord) -> u16
        ensures { result ≡ status_of word.0 }
    {
        word.0 / CommandWord::STATUS_PLACE % CommandWord::STATUSES
    }

    // Words 7, Words 8: reads any number as a command word.
    pub fn read(word: u16) -> Result<Reading, Refusal>
        ensures { read_answer result ≡ read_word word }
    {
        if word > CommandWord::LARGEST {
            return Err(Refusal::WordTooLarge);
        }
        let stored = CommandWord(word);
        let packet_type = CommandWord::packet_type(stored);
        if !packet_type.carries_commands() {
            return Err(Refusal::NotACommand);
        }
        if packet_type != PacketType::of_command(CommandWord::command(stored)) {
            return Err(Refusal::WrongType);
        }
        let command = Command::try_from(CommandWord::command(stored))?;
        Ok(Reading {
            command,
            carried: CommandWord::status(stored) % command.values(),
        })
    }

    // Words 9, Words 10: the word of a command, any number, with the number that it carries.
    pub fn write(command: u16, carried: u16) -> Result<CommandWord, Refusal>
        ensures { write_answer result ≡ write_word command carried }
    {
        let named = Command::try_from(command)?;
        if carried >= named.values() {
            return Err(Refusal::CarriedTooLarge);
        }
        Ok(CommandWord::new(named, carried))
    }
}
