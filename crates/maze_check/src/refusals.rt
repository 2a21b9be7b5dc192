// The refusal numbers behind their names.
use common::refusal::{self, Refusal};
use std::io;

pub fn names(rt: &impl Print) -> io::Result<()> {
    println!(rt; "refusal: accepted {}", refusal::ACCEPTED)?;
    for (name, refusal) in [
        ("table length", Refusal::TableLength),
        ("dimension", Refusal::Dimension),
        ("not sound", Refusal::NotSound),
        ("node", Refusal::Node),
        ("channel", Refusal::Channel),
        ("port", Refusal::Port),
        ("routing type", Refusal::RoutingType),
        ("send vector", Refusal::SendVector),
        ("channel in use", Refusal::ChannelInUse),
        ("route rejected", Refusal::RouteRejected),
        ("receive rejected", Refusal::ReceiveRejected),
        ("no circuit", Refusal::NoCircuit),
        ("link held", Refusal::LinkHeld),
        ("buffer short", Refusal::BufferShort),
        ("word too large", Refusal::WordTooLarge),
        ("not a command", Refusal::NotACommand),
        ("wrong type", Refusal::WrongType),
        ("reserved command", Refusal::ReservedCommand),
        ("carried too large", Refusal::CarriedTooLarge),
        ("unreadable line", Refusal::UnreadableLine),
        ("channel held", Refusal::ChannelHeld),
        ("no route", Refusal::NoRoute),
        ("book short", Refusal::BookShort),
        ("folded", Refusal::Folded),
        ("book", Refusal::Book),
        ("book circuit", Refusal::BookCircuit),
        ("book link", Refusal::BookLink),
        ("send list", Refusal::SendList),
        ("halves", Refusal::Halves),
        ("channel stopped", Refusal::ChannelStopped),
        ("requester", Refusal::Requester),
    ] {
        println!(rt; "refusal: {name} {}", refusal.number())?;
    }
    Ok(())
}
