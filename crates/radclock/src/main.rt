//! A feed-forward clock: reads a file of stamps from standard input, and writes the report that its
//! words ask for to standard output.
#![tactic(auto)]

use rad_io::{StdSink, StdSource};
use radclock_run::program::program;
use std::io::Input;
use std::process::ExitCode;
use std::{env, io};

fn main(rt: HostRuntime) -> ExitCode {
    let mut source = StdSource::new(rt.reader());
    let sink = StdSink::new(io::writer(&rt));
    let (code, _) = program(&rt, rt.alloc(), env::args(&rt), &mut source, sink);
    code
}
