// Requests and the replies that take them.
ghost use Rattle.std.specs.Prelude.{◌≡◌, ◌<◌, ◌≤◌, ◌^◌, IfSome, ℕ, length, List, [], ◌∷◌, ◌++◌, take, true, false};
ghost use Rattle.std.specs.List.{find, position};
ghost use Rattle.ntp_capture.specs.Packets.{is_usable};
ghost use Rattle.ntp_capture.specs.Matches.{exchange_of};

use crate::exchanges::{Exchange, Got};
use crate::packets::{
    is_reply, is_request, is_usable, origin_of, receive_of, transmit_of, unix_time,
};
use crate::pieces::Record;
use arrayvec::ArrayVec;
use std::marker::Model;

/// How many of the last requests a reply may take.
const LIMIT: usize = 16;

/// A request: its counter, the bytes of its transmit time, and whether a reply took it.
#[derive(Clone, Copy, Default)]
struct Request {
    count: u64,
    mark: [u8; 8],
    taken: bool,
}

// What a reply says of the request that it takes.
#[tactic(auto, unfolding(crate::specs::Packets::is_usable))]
fn exchange_of(reply: &Record, q: &Request) -> Exchange
    requires { is_usable reply.now.packet ≡ true }
    ensures value { result ≡ exchange_of reply.now q.now }
    ensures tb { result.tb.1 < 1000000000 }
    ensures te { result.te.1 < 1000000000 }
{
    Exchange {
        ta: q.count,
        tb: unix_time(receive_of(&reply.packet)),
        te: unix_time(transmit_of(&reply.packet)),
        tf: reply.count,
        stratum: u32::from(reply.packet[1]),
        leap: u32::from(reply.packet[0] / 64),
    }
}

fn mark_of(time: &[u8]) -> [u8; 8]
    requires { length time.now ≡ 8 }
    ensures { result ≡ time.now }
{
    *time.first_chunk().unwrap()
}

/// The last 16 requests, the latest first.
#[derive(Drop)]
pub struct Matcher {
    recent: ArrayVec<Request, LIMIT>,
}

impl Model for Matcher {
    ghost use Rattle.std.specs.Prelude.{List, ◌≤◌, length};
    ghost use Rattle.ntp_capture.specs.declared.matches.Request.{Request};

    ghost Value = { List Request };

    ghost view = { λ m. m.recent.items };

    ghost invariant = { λ m. length m.recent.items ≤ 16 };
}

impl Default for Matcher {
    fn default() -> Matcher {
        Matcher::new()
    }
}

impl Matcher {
    ghost use Rattle.ntp_capture.specs.declared.pieces.Record.{Record};
    ghost use Rattle.ntp_capture.specs.Packets.{transmit_of};
    ghost use Rattle.ntp_capture.specs.Matches.{StandsFor, fits, first_taken, requests_of, requests_with, got_by, IsGotInRange};

    /// A matcher that was given nothing.
    pub fn new() -> Matcher
        ensures { StandsFor result [] }
    {
        Matcher {
            recent: ArrayVec::new(),
        }
    }

    /// Takes the next record, and answers what it gives behind those before it.
    pub fn give(&mut self, r: &Record) -> Got
        ensures answer { (records : List Record) → StandsFor self.old records →
            result ≡ got_by (requests_of records) r.now }
        ensures after { (records : List Record) → StandsFor self.old records →
            StandsFor self.new (records ++ r.now ∷ []) }
        ensures ranges { IsGotInRange result }
    {
        self.gives(r)
    }

    // What a record gives where the kept requests are all, and what is then kept.
    #[tactic(auto, using(crate::proofs::MatchLaws::few_taken), unfolding(crate::specs::Matches::got_by, crate::specs::Matches::requests_with))]
    fn gives(&mut self, r: &Record) -> Got
        ensures answer { result ≡ got_by self.old r.now }
        ensures after { self.new ≡ take 16 (requests_with self.old r.now) }
        ensures ranges { IsGotInRange result }
    {
        let _few = &self.recent;
        if is_request(r) {
            self.note(r);
            return Got::Nothing;
        }
        if !is_reply(r) {
            return Got::Nothing;
        }
        if !is_usable(&r.packet) {
            return Got::Unused;
        }
        match self.take_first(r) {
            Some(request) => Got::Exchange(exchange_of(r, &request)),
            None => Got::Unused,
        }
    }

    // Keeps a request in front of the others.
    fn note(&mut self, r: &Record)
        ensures { self.new ≡ take 16 (record { count = r.now.count; mark = transmit_of r.now.packet; taken = false } ∷ self.old) }
    {
        if self.recent.is_full() {
            self.recent.pop();
        }
        let request = Request {
            count: r.count,
            mark: mark_of(transmit_of(&r.packet)),
            taken: false,
        };
        self.recent.insert(0, request);
    }

    // Takes the first request that fits a reply.
    fn take_first(&mut self, reply: &Record) -> Option<Request>
        ensures found { result ≡ find (fits reply.now) self.old }
        ensures taken { self.new ≡ first_taken (fits reply.now) self.old }
    {
        let at = self.place(reply)?;
        let request = self.recent[at];
        self.recent[at].taken = true;
        Some(request)
    }

    // The place of the first request that fits a reply.
    fn place(&self, reply: &Record) -> Option<usize>
        ensures { result ≡ position (fits reply.now) self.now }
    {
        let mark = mark_of(origin_of(&reply.packet));
        self.recent.iter().position(|q| !q.taken && q.mark == mark)
    }
}
