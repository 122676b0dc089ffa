// What a capture says, and why it is refused.

/// One packet that was captured.
#[derive(Clone, Copy, Debug, PartialEq, Eq)]
pub struct Record {
    /// The counter when the packet left or came, in counts below 2^62.
    pub count: u64,
    /// The packet was sent; otherwise it was received.
    pub sent: bool,
    /// The first 48 bytes of the packet.
    pub packet: [u8; 48],
}

/// What a capture gives: its head the frequency, and then its records.
#[derive(Clone, Copy, Debug, PartialEq, Eq)]
pub enum Piece {
    /// The counter's nominal frequency in Hz, from 10^6 to 16*10^9.
    Freq(u64),
    /// One packet.
    Record(Record),
}

/// Why a capture is refused.
#[derive(Clone, Copy, Debug, PartialEq, Eq)]
pub enum CapWhy {
    /// The first eight bytes are not `RADCAP01`.
    Head,
    /// The frequency is below 10^6 Hz or above 16*10^9 Hz.
    Freq,
    /// A counter is 2^62 or more.
    Counter,
    /// A direction is neither 0 nor 1.
    Direction,
    /// A packet has less than 48 bytes.
    Short,
    /// The input ends inside the head or a record, or has no byte.
    Cut,
}

/// The first fault of a capture.
#[derive(Clone, Copy, Debug, PartialEq, Eq)]
pub struct CapFault {
    /// The offset in bytes of the first byte of the field, or of the head or record that is cut off.
    pub at: u64,
    /// What is wrong there.
    pub why: CapWhy,
}
