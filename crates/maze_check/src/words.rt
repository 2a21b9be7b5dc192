// Command words: the numbers behind the names, and Examples 8.
use command_word::{Command, CommandWord, PacketType};
use common::refusal;
use std::io;

// Each command by its name in Words 3.
pub fn names(rt: &impl Print) -> io::Result<()> {
    for (name, command) in [
        ("packet acknowledge", Command::PacketAcknowledge),
        ("route acknowledge", Command::RouteAcknowledge),
        ("route rejected", Command::RouteRejected),
        ("receive rejected", Command::ReceiveRejected),
        ("forwarded route rejected", Command::ForwardedRouteRejected),
        ("end-to-end acknowledge", Command::EndToEndAcknowledge),
        (
            "end-to-end not acknowledged",
            Command::EndToEndNotAcknowledged,
        ),
        ("end of message", Command::EndOfMessage),
        ("end of transmission", Command::EndOfTransmission),
        ("reset CPU", Command::ResetCpu),
        ("reset node", Command::ResetNode),
        ("flush path", Command::FlushPath),
    ] {
        println!(rt; "{name} {}", command.number())?;
    }
    Ok(())
}

// The packet types.
pub fn types(rt: &impl Print) -> io::Result<()> {
    for (name, packet_type) in [
        ("address", PacketType::Address),
        ("data", PacketType::Data),
        ("back-track", PacketType::BackTrack),
        ("forward", PacketType::Forward),
    ] {
        println!(rt; "type {name} {}", packet_type.number())?;
    }
    Ok(())
}

// What the carried numbers mean.
pub fn carried(rt: &impl Print) -> io::Result<()> {
    for (name, number) in [
        (
            "receive rejected: receive rejected",
            CommandWord::STATUS_RECEIVE_REJECTED,
        ),
        (
            "receive rejected: parity error flushed back",
            CommandWord::STATUS_PARITY_ERROR_BACK,
        ),
        (
            "end-to-end not acknowledged: code above error, in steps of",
            CommandWord::CODE_PLACE,
        ),
        ("end-to-end not acknowledged: codes", CommandWord::CODES),
        ("end-to-end not acknowledged: errors", CommandWord::ERRORS),
        (
            "end of transmission: end-to-end not requested",
            CommandWord::STATUS_NO_END_TO_END,
        ),
        (
            "end of transmission: end-to-end requested",
            CommandWord::STATUS_END_TO_END,
        ),
        ("flush path: flush path", CommandWord::STATUS_FLUSH_PATH),
        (
            "flush path: parity error flushed forward",
            CommandWord::STATUS_PARITY_ERROR_FORWARD,
        ),
    ] {
        println!(rt; "{name} {number}")?;
    }
    Ok(())
}

// A word as read: number, command and carried number.
fn read(rt: &impl Print, word: u16) -> io::Result<()> {
    let (number, command, carried) = match CommandWord::read(word) {
        Ok(read) => (refusal::ACCEPTED, read.command.number(), read.carried),
        Err(refused) => (refused.number(), 0, 0),
    };
    println!(rt; "read {word} {number} {command} {carried}")
}

// A word as written: number and word.
fn write(rt: &impl Print, command: u16, carried: u16) -> io::Result<()> {
    let (number, word) = match CommandWord::write(command, carried) {
        Ok(written) => (refusal::ACCEPTED, written.0),
        Err(refused) => (refused.number(), 0),
    };
    println!(rt; "write {command} {carried} {number} {word}")
}

// Examples 8, then a word for each refusal from 15 to 18.
pub fn examples(rt: &impl Print) -> io::Result<()> {
    read(rt, 2175)?;
    write(rt, Command::RouteAcknowledge.number(), 0)?;
    for word in [
        2437,
        3649,
        3136,
        2240,
        CommandWord::LARGEST,
        CommandWord::LARGEST + 1,
        2047,
        2048,
    ] {
        read(rt, word)?;
    }
    Ok(())
}

// A command for each of the refusals 18 and 19.
pub fn written(rt: &impl Print) -> io::Result<()> {
    for (command, carried) in [
        (15, 0),
        (CommandWord::COMMANDS, 0),
        (
            Command::FlushPath.number(),
            CommandWord::STATUS_PARITY_ERROR_FORWARD,
        ),
        (Command::FlushPath.number(), 2),
        (Command::EndToEndNotAcknowledged.number(), 63),
        (Command::EndToEndNotAcknowledged.number(), 64),
    ] {
        write(rt, command, carried)?;
    }
    Ok(())
}
