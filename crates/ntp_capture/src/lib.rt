//! Captures of NTP packets, from bytes to exchanges with a server: `Capture` reads records out of bytes, however
//! they come cut, and `Matcher` finds the request that a reply answers. Their packets are those of RFC 5905.
#![tactic(auto)]

mod capture;
mod exchanges;
mod laws;
mod matches;
mod packets;
mod pieces;
#[cfg(test)]
mod tests;
mod units;
mod worked;

pub use capture::Capture;
pub use exchanges::{Exchange, Got};
pub use laws::answers_grow;
pub use matches::Matcher;
pub use pieces::{CapFault, CapWhy, Piece, Record};
pub use worked::{captures_are_worked, faults_are_worked, packets_are_worked, replies_are_worked};
