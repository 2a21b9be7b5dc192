// One receive channel: it takes the packets of a circuit, data and command words, until an end stops it.
#![tactic(auto)]

ghost use Rattle.std.specs.Prelude.{◌≡◌, ◌≢◌, MatchResult};
ghost use Rattle.common.specs.declared.refusal.Refusal.TheVariants.{ChannelStopped};
ghost use Rattle.command_word.specs.Kinds.{command_number};
ghost use Rattle.receiver.specs.Promises.{ReceivesAgree};
ghost use Rattle.receiver.specs.Receive.{data_packet, command_word, started, after_data, after_command, received, received_as, overshoot, followed};

use command_word::{Command, CommandWord};
use common::refusal::Refusal;
use router::{Acknowledged, Rejected};

// Receiver 1, Receiver 11: the state of a channel, as C keeps it: a flag is a byte, which C may have written, and 0 alone says no: the channel is stopped, its
// overflow mark is clear, ends of message are not ignored. A state that is all zero is stopped.
#[repr(C)]
#[derive(Clone, Copy, Default)]
pub struct Channel {
    pub address: u32,
    pub count: u32,
    pub running: u8,
    pub overflow: u8,
    pub ignores: u8,
}

// The channel of a circuit: which receive channel of the target it is, and its state.
#[derive(Clone, Copy)]
pub struct Followed {
    pub receive: u16,
    pub channel: Channel,
}

impl Channel {
    // A channel at its start, running and its mark clear. Any `ignores` but 0 has it ignore ends of message: a number, as C has it, since a `bool` would ask more.
    #[tactic(auto, unfolding(crate::specs::Receive::started))]
    pub fn start(address: u32, count: u32, ignores: u16) -> Channel
        ensures { result ≡ started address count ignores }
    {
        Channel {
            address,
            count,
            running: 1,
            overflow: 0,
            ignores: u8::from(ignores != 0),
        }
    }

    // Receiver 3: a data packet, and the channel after it.
    pub fn take_data(self) -> Result<Channel, Refusal>
        ensures { received_as self result ≡ received self data_packet }
    {
        Ok(self.not_stopped()?.doubleword())
    }

    // Receiver 7, Receiver 9: a command word, any number: what cannot be read gets its refusal, and then what comes to a stopped channel.
    pub fn take_word(self, word: u16) -> Result<Channel, Refusal>
        ensures { received_as self result ≡ received self (command_word word) }
    {
        let read = CommandWord::read(word)?;
        Ok(self.not_stopped()?.obey(read.command))
    }

    // The channel, where it is not stopped: one that is takes no packet.
    fn not_stopped(self) -> Result<Channel, Refusal>
        ensures { MatchResult result (λ c. (c ≡ self) × (self.running ≢ 0)) (λ e. (e ≡ ChannelStopped) × (self.running ≡ 0)) }
    {
        if self.running == 0 {
            return Err(Refusal::ChannelStopped);
        }
        Ok(self)
    }

    // Counts a doubleword (Forms 8). The mark decides whether the address moves (Receiver 5): once the count has wrapped below zero it is not zero any more.
    #[tactic(auto, unfolding(crate::specs::Receive::after_data, crate::specs::Receive::overflows))]
    fn doubleword(self) -> Channel
        ensures { result ≡ after_data self }
    {
        let count = self.count.wrapping_sub(1);
        if self.overflow != 0 || self.count == 0 {
            return Channel {
                count,
                overflow: 1,
                ..self
            };
        }
        Channel {
            address: self.address.wrapping_add(8),
            count,
            ..self
        }
    }

    // Receiver 7: an end of transmission stops the channel, and an end of message where those are not ignored.
    #[tactic(auto, unfolding(crate::specs::Receive::after_command, crate::specs::Receive::stops))]
    fn obey(self, command: Command) -> Channel
        ensures { result ≡ after_command self (command_number command) }
    {
        match command {
            Command::EndOfTransmission => Channel { running: 0, ..self },
            Command::EndOfMessage if self.ignores == 0 => Channel { running: 0, ..self },
            _ => self,
        }
    }

    // Receiver 10: how many doublewords came too many, modulo 2^32, read from the wrapped count.
    #[tactic(auto, unfolding(crate::specs::Receive::overshoot))]
    pub fn overshoot(self) -> u32
        ensures { result ≡ overshoot self }
    {
        if self.overflow == 0 {
            return 0;
        }
        0u32.wrapping_sub(self.count)
    }
}

// Receiver 13: the channel of a circuit that was opened, started. A refused open has none, and its refusal is handed on.
#[tactic(auto, unfolding(crate::specs::Receive::followed))]
pub fn follow(
    opened: Result<Acknowledged, Rejected>,
    address: u32,
    count: u32,
    ignores: u16,
) -> Result<Followed, Refusal>
    ensures { result ≡ followed opened address count ignores }
{
    match opened {
        Ok(found) => Ok(Followed {
            receive: found.receive,
            channel: Channel::start(address, count, ignores),
        }),
        Err(rejected) => Err(rejected.refusal),
    }
}

// Promises 21: every sequence of packets agrees with the machine that counts without end. The function does nothing: its contract is the promise.
pub fn receives_agree()
    ensures { ReceivesAgree }
{}
