// The logs of a replay's readers.
ghost use Rattle.std.specs.Prelude.{◌≡◌, ℕ, [], length, IfOk, OnOk, OnErr};
ghost use Rattle.replay_run.specs.Logs.{AreEmpty, AreGiven, AreOpened};

use crate::plan::Plan;
use clock_lines::Entry;
use ff_grain::NoMemory;
use std::alloc::Global;
use std::mem;
use tick_desk::{Desk, Pass};

/// What a reader was answered so far, and the pass that it reads by.
#[derive(Drop)]
pub struct ReadLog {
    /// The reader's number, from 0.
    pub reader: u32,
    pub entries: Vec<Entry>,
    /// None behind the replay, when the pen has taken the pass in.
    pub pass: Option<Pass>,
}

// Logs without passes, with room for all their entries.
fn empty(alloc: Global, readers: u32, reads: u32) -> Result<Vec<ReadLog>, NoMemory>
    ensures { IfOk result (λ logs. AreEmpty readers reads logs.items) }
{
    let mut logs = Vec::new(alloc);
    for reader in 0..readers {
        let entries = Vec::with_capacity(alloc, reads as usize)?;
        logs.push(ReadLog {
            reader,
            entries,
            pass: None,
        })?;
    }
    Ok(logs)
}

// Gives each log its pass.
fn give(logs: &mut Vec<ReadLog>, passes: Vec<Pass>)
    requires { length passes.items ≡ length logs.old.items }
    ensures { AreGiven logs.old.items logs.new.items passes.items }
{
    let mut passes = passes;
    for i in 0..logs.len() {
        logs[i].pass = Some(passes.remove(0));
    }
}

impl ReadLog {
    /// One log for each reader of a plan, each with a pass of the desk, which has just as many, in their
    /// order. The passes move out of the desk.
    ///
    /// It takes all the memory for the logs and their entries here. Want of it is the only error, and then
    /// nothing has changed.
    pub fn all(alloc: Global, desk: &mut Desk, plan: &Plan) -> Result<Vec<ReadLog>, NoMemory>
        requires { length desk.old.passes.items ≡ plan.now.options.readers }
        ensures opened { IfOk result (λ logs.
            AreOpened plan.now.options.reads desk.old.passes.items logs.items) }
        ensures moved { OnOk result (desk.new.passes.items ≡ []) }
        ensures pen { desk.new.pen ≡ desk.old.pen }
        ensures refused { OnErr result (desk.new ≡ desk.old) }
    {
        let mut logs = empty(alloc, plan.options.readers, plan.options.reads)?;
        let passes = mem::replace(&mut desk.passes, Vec::new(alloc));
        give(&mut logs, passes);
        Ok(logs)
    }
}
