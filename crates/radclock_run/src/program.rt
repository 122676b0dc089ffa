// The whole program, over its words, a source and a sink.
ghost use Rattle.std.specs.Prelude.{◌≡◌, ◌≢◌, [], IfOk, IfErr, OnErr, drop, map, string_bytes};
ghost use Rattle.std.specs.Process.{exit_status};
ghost use Rattle.std.specs.Vec.Iter.{into_iter_items};
ghost use Rattle.std.specs.IoError.{error_kind};
ghost use Rattle.std.specs.declared.io.ErrorKind.TheVariants.{OutOfMemory};
ghost use Rattle.radclock_run.specs.Exits.{Exits, HasRun, IsShort};
ghost use Rattle.radclock_run.specs.Statuses.{code_of};

use crate::output::run_in_blocks;
use crate::status::Status;
use ff_grain::NoMemory;
use rad_io::{OpenGate, Sink, Source};
use std::alloc::Global;
use std::env::Args;
use std::io;
use std::process::ExitCode;
use std::thread::Threads;
use tick_desk::Desk;

// All words, the first of which is the program's name.
fn all_words(alloc: Global, mut args: Args) -> Result<Vec<String>, NoMemory>
    ensures { IfOk result (λ words. words.items ≡ into_iter_items args) }
{
    let mut words = Vec::new(alloc);
    while let Some(word) = args.next() {
        words.push(word)?;
    }
    Ok(words)
}

// The words behind the program's name.
fn words_behind(words: &[String]) -> &[String]
    ensures { result.now ≡ drop 1 words.now }
{
    match words {
        [] => words,
        [_, behind @ ..] => behind,
    }
}

// The texts of words.
fn texts_of<'a>(alloc: Global, words: &'a [String]) -> Result<Vec<&'a str>, NoMemory>
    ensures { IfOk result (λ texts. map (λ t. t.now) texts.items ≡ map string_bytes words.entry.now) }
{
    let mut texts = Vec::new(alloc);
    for word in words {
        texts.push(word.as_str())?;
    }
    Ok(texts)
}

// Runs by the words behind the first, on a new desk.
fn run_by_words<R: Threads + Sync, S: Source, K: Sink>(
    rt: &R,
    alloc: Global,
    words: &[String],
    source: &mut S,
    sink: K,
) -> (Result<Status, NoMemory>, K)
    ensures ran { IfOk result.0 (λ status. HasRun S.pull_gives K.push_gives
        (map string_bytes words.now) source.old source.new sink result.1 status) }
    ensures unread { OnErr result.0 (source.new ≡ source.old) }
    ensures unwritten { OnErr result.0 (result.1 ≡ sink) }
{
    let texts = match texts_of(alloc, words_behind(words)) {
        Ok(texts) => texts,
        Err(NoMemory) => return (Err(NoMemory), sink),
    };
    match Desk::start(alloc) {
        Ok(mut desk) => run_in_blocks(rt, alloc, &texts, source, sink, &mut desk, &OpenGate),
        Err(NoMemory) => (Err(NoMemory), sink),
    }
}

// The exit status of a run, or where memory for it was wanting.
fn code_of_run(run: Result<Status, NoMemory>) -> ExitCode
    ensures ok { IfOk run (λ status. exit_status result ≡ code_of status) }
    ensures err { OnErr run (exit_status result ≡ 5) }
{
    match run {
        Ok(status) => ExitCode::from(status.code()),
        Err(NoMemory) => ExitCode::from(Status::NoMemory.code()),
    }
}

/// The whole program: reads its words, runs by them, and gives back the sink. It ends with the code of
/// the run's status, or, where memory was wanting before the run, with that of `NoMemory`, and nothing
/// was read or written. Where a word is not text it runs by no words.
pub fn program<R: Threads + Sync, S: Source, K: Sink>(
    rt: &R,
    alloc: Global,
    args: io::Result<Args>,
    source: &mut S,
    sink: K,
) -> (ExitCode, K)
    ensures text { IfOk args (λ args. Exits S.pull_gives K.push_gives
        (map string_bytes (into_iter_items args)) source.old source.new sink result.1
        (exit_status result.0)) }
    ensures not_text { IfErr args (λ e. error_kind e ≢ OutOfMemory →
        Exits S.pull_gives K.push_gives [] source.old source.new sink result.1
        (exit_status result.0)) }
    ensures short { IfErr args (λ e. error_kind e ≡ OutOfMemory →
        IsShort source.old source.new sink result.1 (exit_status result.0)) }
{
    let words = match args {
        Ok(args) => all_words(alloc, args),
        Err(error) => match error.kind() {
            io::ErrorKind::OutOfMemory => Err(NoMemory),
            _ => Ok(Vec::new(alloc)),
        },
    };
    match words {
        Ok(words) => {
            let (run, sink) = run_by_words(rt, alloc, &words, source, sink);
            (code_of_run(run), sink)
        }
        Err(NoMemory) => (code_of_run(Err(NoMemory)), sink),
    }
}
