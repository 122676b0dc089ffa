// The lines of the program.
ghost use Rattle.std.specs.Prelude.{◌≡◌, ◌≤◌, ◌<◌, ◌^◌, ◌-◌, IfOk, IfErr, OnErr, IfSome, true, option_map};
ghost use Rattle.clap.specs.Values.{kind_of};
ghost use Rattle.clock_words.specs.Rows.{has, texts};
ghost use Rattle.clock_words.specs.Lines.{IsCommandOf, IsCommandInRange, bare_in, ticks_in, replay_in, make_in, run_in, ideal_is_early, number_within, option_within, given_within, places_told, command_names, begins_with_name, command_named, command_in};

use crate::rows::{self, Arguments};
use crate::{Command, Report};
use clap::Error;
use clap::error::ErrorKind;
use ff_grain::NoMemory;
use stamp_text::number_of;
use std::alloc::Global;

/// How many plain steps stand between two estimates where the words do not tell.
const TICKS: u64 = 4;

/// The most plain steps between two estimates.
const MOST_TICKS: u64 = 15;

/// The most timers.
const MOST_TIMERS: u64 = 1000;

/// How many readers read the clock where the words do not tell.
const READERS: u64 = 2;

/// The most readers.
const MOST_READERS: u64 = 16;

/// How often each reader reads where the words do not tell.
const READS: u64 = 100;

/// The most readings of one reader.
const MOST_READS: u64 = 16_384;

/// The greatest number that made stamps are drawn by.
const MOST_NUMBER: u64 = 4_294_967_295;

/// The most stamps that are made.
const MOST_MADE: u64 = 16_384;

/// The most stamps that are made for a run.
const MOST_RAN: u64 = 4096;

// The number that a text is, from `least` to `most`.
fn number_within(least: u64, most: u64, text: &str) -> Option<u64>
    requires { most < 2 ^ 64 - 1 }
    ensures value { result ≡ number_within least most text.now }
    ensures within { IfSome result (λ n. (least ≤ n) × (n ≤ most)) }
{
    match number_of(text.as_bytes()) {
        Some(n) if least <= n && n <= most => Some(n),
        _ => None,
    }
}

// The value of an option, up to `most`, or what stands for it where the words do not give it.
fn option_within(most: u64, default: u64, text: Option<&str>) -> Option<u64>
    requires most { most < 2 ^ 64 - 1 }
    requires default { default ≤ most }
    ensures value { result ≡ option_within 0 most default (option_map (λ t. t.now) text.entry) }
    ensures within { IfSome result (λ n. n ≤ most) }
{
    match text {
        Some(text) => number_within(0, most, text),
        None => Some(default),
    }
}

// The value of an option, up to `most`, if the words give it.
fn given_within(most: u64, text: Option<&str>) -> Option<Option<u32>>
    requires { most < 2 ^ 32 }
    ensures value { result ≡ given_within 0 most (option_map (λ t. t.now) text.entry) }
    ensures within { IfSome result (λ given. IfSome given (λ n. n ≤ most)) }
{
    match text {
        Some(text) => number_within(0, most, text).map(|n| Some(n as u32)),
        None => Some(None),
    }
}

// A command that has nothing behind its name.
fn bare<'a>(alloc: Global, command: Command, words: &'a [&'a str]) -> Result<Option<Command>, Error>
    requires { IsCommandInRange command }
    ensures value { IfOk result (λ found. found ≡ bare_in command (texts words.entry.now)) }
    ensures ranged { IfOk result (λ found. IfSome found IsCommandInRange) }
    ensures memory { IfErr result (λ e. kind_of e ≡ ErrorKind.OutOfMemory) }
{
    match rows::bare(alloc, words)? {
        Some(_) => Ok(Some(command)),
        None => Ok(None),
    }
}

fn ticks<'a>(alloc: Global, words: &'a [&'a str]) -> Result<Option<Command>, Error>
    ensures value { IfOk result (λ found. found ≡ ticks_in (texts words.entry.now)) }
    ensures ranged { IfOk result (λ found. IfSome found IsCommandInRange) }
    ensures memory { IfErr result (λ e. kind_of e ≡ ErrorKind.OutOfMemory) }
{
    let Some(arguments) = rows::ticks(alloc, words)? else {
        return Ok(None);
    };
    let Some(ticks) = option_within(MOST_TICKS, TICKS, arguments.value("ticks")) else {
        return Ok(None);
    };
    let Some(timers) = given_within(MOST_TIMERS, arguments.value("timers")) else {
        return Ok(None);
    };
    Ok(Some(Command::Report(Report::Ticks {
        ticks: ticks as u32,
        timers,
    })))
}

fn replay<'a>(alloc: Global, words: &'a [&'a str]) -> Result<Option<Command>, Error>
    ensures value { IfOk result (λ found. found ≡ replay_in (texts words.entry.now)) }
    ensures ranged { IfOk result (λ found. IfSome found IsCommandInRange) }
    ensures memory { IfErr result (λ e. kind_of e ≡ ErrorKind.OutOfMemory) }
{
    let Some(arguments) = rows::replay(alloc, words)? else {
        return Ok(None);
    };
    let (crank, lane) = (arguments.flag("crank"), arguments.flag("lane"));
    if crank && lane {
        return Ok(None);
    }
    match (
        option_within(MOST_TICKS, TICKS, arguments.value("ticks")),
        option_within(MOST_READERS, READERS, arguments.value("readers")),
        option_within(MOST_READS, READS, arguments.value("reads")),
    ) {
        (Some(ticks), Some(readers), Some(reads)) => Ok(Some(Command::Report(Report::Replay {
            ticks: ticks as u32,
            readers: readers as u32,
            reads: reads as u32,
            back: arguments.flag("back"),
            crank,
            utc: arguments.flag("utc"),
            lane,
        }))),
        _ => Ok(None),
    }
}

// The number and the count, from 1 to `most`, in the places of a command.
fn places<'a>(arguments: &Arguments<'a>, most: u64) -> Option<(u64, u64)>
    requires { most < 2 ^ 64 - 1 }
    ensures value { result ≡ places_told most arguments.now }
    ensures within { IfSome result (λ p. (p.0 < 2 ^ 32) × (1 ≤ p.1) × (p.1 ≤ most)) }
{
    let (Some(number), Some(count)) = (arguments.value("NUMBER"), arguments.value("COUNT")) else {
        return None;
    };
    match (
        number_within(0, MOST_NUMBER, number),
        number_within(1, most, count),
    ) {
        (Some(number), Some(count)) => Some((number, count)),
        _ => None,
    }
}

fn make<'a>(alloc: Global, words: &'a [&'a str]) -> Result<Option<Command>, Error>
    ensures value { IfOk result (λ found. found ≡ make_in (texts words.entry.now)) }
    ensures ranged { IfOk result (λ found. IfSome found IsCommandInRange) }
    ensures memory { IfErr result (λ e. kind_of e ≡ ErrorKind.OutOfMemory) }
{
    let Some(arguments) = rows::make(alloc, words)? else {
        return Ok(None);
    };
    match places(&arguments, MOST_MADE) {
        Some((number, count)) => Ok(Some(Command::Make {
            number,
            count: count as u32,
        })),
        None => Ok(None),
    }
}

// The flag of `run` stands in front of a number.
fn ideal_is_early(words: &[&str]) -> bool
    ensures { result ≡ ideal_is_early (texts words.now) }
{
    words.iter().take(2).any(|word| *word == "--ideal")
}

// `clap` takes a flag in any place; this one stands last.
fn run<'a>(alloc: Global, words: &'a [&'a str]) -> Result<Option<Command>, Error>
    ensures value { IfOk result (λ found. found ≡ run_in (texts words.entry.now)) }
    ensures ranged { IfOk result (λ found. IfSome found IsCommandInRange) }
    ensures memory { IfErr result (λ e. kind_of e ≡ ErrorKind.OutOfMemory) }
{
    if ideal_is_early(words) {
        return Ok(None);
    }
    let Some(arguments) = rows::run(alloc, words)? else {
        return Ok(None);
    };
    match places(&arguments, MOST_RAN) {
        Some((number, count)) => Ok(Some(Command::Run {
            number,
            count: count as u32,
            ideal: arguments.flag("ideal"),
        })),
        None => Ok(None),
    }
}

// The command that has a name, with what the words behind it say.
fn command_named<'a>(
    alloc: Global,
    name: &str,
    words: &'a [&'a str],
) -> Result<Option<Command>, Error>
    ensures value { IfOk result (λ found. found ≡ command_named name.now (texts words.entry.now)) }
    ensures ranged { IfOk result (λ found. IfSome found IsCommandInRange) }
    ensures named { OnErr result (has command_names name.now ≡ true) }
    ensures memory { IfErr result (λ e. kind_of e ≡ ErrorKind.OutOfMemory) }
{
    match name {
        "stamps" => bare(alloc, Command::Report(Report::Stamps), words),
        "rtt" => bare(alloc, Command::Report(Report::Rtt), words),
        "estimate" => bare(alloc, Command::Report(Report::Estimate), words),
        "ticks" => ticks(alloc, words),
        "replay" => replay(alloc, words),
        "make" => make(alloc, words),
        "run" => run(alloc, words),
        "capture" => bare(alloc, Command::Capture, words),
        _ => Ok(None),
    }
}

// The command that words are, if they are a line.
#[tactic(auto, unfolding(crate::specs::Lines::command_in))]
fn parse<'a>(alloc: Global, words: &'a [&'a str]) -> Result<Option<Command>, Error>
    ensures value { IfOk result (λ found. found ≡ command_in (texts words.entry.now)) }
    ensures ranged { IfOk result (λ found. IfSome found IsCommandInRange) }
    ensures named { OnErr result (begins_with_name (texts words.entry.now) ≡ true) }
    ensures memory { IfErr result (λ e. kind_of e ≡ ErrorKind.OutOfMemory) }
{
    match words.split_first() {
        Some((name, rest)) => command_named(alloc, name, rest),
        None => Ok(None),
    }
}

/// The command that the words after the program's name are, if they are a line. The error is want
/// of memory, which comes only behind the name of a command.
pub fn command_of<'a>(alloc: Global, words: &'a [&'a str]) -> Result<Option<Command>, NoMemory>
    ensures line { IfOk result (IsCommandOf (texts words.entry.now)) }
    ensures value { IfOk result (λ found. found ≡ command_in (texts words.entry.now)) }
    ensures ranged { IfOk result (λ found. IfSome found IsCommandInRange) }
    ensures memory { OnErr result (begins_with_name (texts words.entry.now) ≡ true) }
{
    parse(alloc, words).map_err(|_| NoMemory)
}
