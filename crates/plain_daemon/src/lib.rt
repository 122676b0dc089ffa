//! A plain program of the daemon's rules, for a comparison of both over a long run of made stamps. It
//! keeps all accepted stamps, and computes each estimate afresh from their list, by the rules in words
//! of docs/DAEMON.md. It stands alone since the comparison is the crate's one test, and rests on nothing
//! above the daemon.
#![tactic(auto)]

#[cfg(test)]
mod made;
#[cfg(test)]
mod rules;
#[cfg(test)]
mod tests;
