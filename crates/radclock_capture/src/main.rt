//! The same program, of which the stored run makes a stamp file of a real capture: its input is bytes that are no text.
#![tactic(auto)]

use rad_io::{StdSink, StdSource};
use radclock_run::program::program;
use std::io::Input;
use std::process::ExitCode;
use std::{env, io};

fn main(rt: HostRuntime) -> ExitCode {
    let mut source = StdSource::new(rt.reader());
    let sink = StdSink::new(io::writer(&rt));
    let (code, _) = program(&rt, rt.alloc(), env::args(&rt), &mut source, sink);
    code
}
