// Why a call is refused: the numbers of Refusals.
ghost use Rattle.std.specs.Prelude.{◌≡◌};
ghost use Rattle.common.specs.Refusals.{number_of, answer_of};

// A refusal is its number to C, from 1 to 31. Success is 0, which is no refusal.
#[derive(Clone, Copy, Debug, PartialEq, Eq)]
pub enum Refusal {
    // The lent table.
    TableLength = 1,
    Dimension = 2,
    NotSound = 3,
    // Node, channel and port.
    Node = 4,
    Channel = 5,
    Port = 6,
    // Open, before the search.
    RoutingType = 7,
    SendVector = 8,
    ChannelInUse = 9,
    // Open, after the search.
    RouteRejected = 10,
    ReceiveRejected = 11,
    // Close, trace and block.
    NoCircuit = 12,
    LinkHeld = 13,
    BufferShort = 14,
    // Command words.
    WordTooLarge = 15,
    NotACommand = 16,
    WrongType = 17,
    ReservedCommand = 18,
    CarriedTooLarge = 19,
    // The printed list.
    UnreadableLine = 20,
    // Disarm: a circuit holds the receive channel.
    ChannelHeld = 21,
    // Open, after the search: beside a route rejection, where waiting does not help.
    NoRoute = 22,
    // A book of circuits: a buffer cannot hold its part.
    BookShort = 23,
    // A wide table going back to a narrow one: a dimension is folded.
    Folded = 24,
    // A book that is read: it is not well formed.
    Book = 25,
    // A book that is judged: a circuit's source, path or send channel; a link that is blocked, taken or shared.
    BookCircuit = 26,
    BookLink = 27,
    // A job: a length that no list of sends has.
    SendList = 28,
    // Two half cabinets: tables that cannot be joined.
    Halves = 29,
    // A packet to a receive channel: it is stopped.
    ChannelStopped = 30,
    // The arbiter: a request or a record that is no requester.
    Requester = 31,
}

impl Refusal {
    pub fn number(self) -> u16
        ensures { result ≡ number_of self }
    {
        // Only a cast reads the number of a variant.
        self as u16
    }
}

// Success.
pub const ACCEPTED: u16 = 0;

// The number that C gets: 0 for success.
pub fn answer(result_of_call: Result<(), Refusal>) -> u16
    ensures { result ≡ answer_of result_of_call }
{
    match result_of_call {
        Ok(()) => ACCEPTED,
        Err(refused) => refused.number(),
    }
}
