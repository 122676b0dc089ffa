// What records give: exchanges with a server.

/// One exchange with a server.
#[derive(Clone, Copy, Debug, PartialEq, Eq)]
pub struct Exchange {
    /// The counter when the request left, below 2^62 counts.
    pub ta: u64,
    /// The server's time when the request came: seconds since 1970, and nanoseconds below 10^9.
    pub tb: (u64, u32),
    /// The server's time when the reply left: seconds since 1970, and nanoseconds below 10^9.
    pub te: (u64, u32),
    /// The counter when the reply came, below 2^62 counts.
    pub tf: u64,
    /// How far the server is from a clock: 1 where it has one, and 0 where it refuses.
    pub stratum: u32,
    /// The leap indicator: 3 where the server is not synchronised.
    pub leap: u32,
}

/// What a record gives.
#[derive(Clone, Copy, Debug, PartialEq, Eq)]
pub enum Got {
    /// The record is no reply: a request, which is kept, or a packet of another mode.
    Nothing,
    /// The record is a reply that takes no request.
    Unused,
    /// The record is a reply, and this is the exchange with the request that it took.
    Exchange(Exchange),
}
