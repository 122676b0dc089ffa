// What follows of a run in bytes and in counts of faults.
ghost use Rattle.std.specs.Prelude.{◌≡◌, ◌⊎◌, ℕ, List, [], ◌∷◌, Option, None, Some, Bool};
ghost use Rattle.ff_hands.specs.Windups.{cold};
ghost use Rattle.clock_words.specs.declared.commands.Command.{Command};
ghost use Rattle.clock_words.specs.declared.commands.Command.TheVariants as command;
ghost use Rattle.clock_words.specs.declared.commands.Report.{Report};
ghost use Rattle.tick_desk.specs.declared.desk.Desk.{Desk};
ghost use Rattle.replay_run.specs.declared.plan.Options.{Options};
ghost use Rattle.radclock_run.specs.Endings.{replay_by};
ghost use Rattle.radclock_run.specs.InBytes.{HeadlineInBytes, MakesNone, RunInBytes, TruthInBytes, WasDone, WasFree};
ghost use Rattle.radclock_input.specs.Captured.{stop_of_packets};
ghost use Rattle.radclock_input.specs.Inputs.{stop_of_file};
ghost use Rattle.radclock_run.specs.Asks.{takes_few};
ghost use Rattle.radclock_run.specs.MadeRuns.{run_by};
ghost use Rattle.radclock_run.specs.Runs.{ByBlocks, ByLines, Ran};
ghost use Rattle.radclock_run.specs.Statuses.{status_by};
ghost use Rattle.radclock_run.specs.Replays.{MadeTruth};
ghost use Rattle.radclock_run.specs.declared.ran.Asked.{Asked};
ghost use Rattle.radclock_run.specs.declared.status.Status.{Status};

use crate::status::Status;
use rad_io::{Sink, Source};

/// What a run over one text says in bytes and in counts of faults, where the source and the sink tell
/// them: what was done, read and appended, the headline and the truth over the bytes that were taken,
/// and which status comes where nothing else interferes.
pub fn lines_tell<S: Source, K: Sink>()
    ensures done { (asked : Option Command) (source source' : S) (sink sink' : K) (desk desk' : Desk)
        (result : Status) →
        Ran S.pull_gives (ByLines K.push_gives) asked source source' sink sink' desk desk' result →
        result ≡ Status.Done → WasDone (S.left source) (S.left source') (K.written sink)
        (K.written sink') desk desk' asked }
    ensures headline { (o : Options) (lane : Bool) (source source' : S) (sink sink' : K) (desk desk' : Desk)
        (result : Status) →
        Ran S.pull_gives (ByLines K.push_gives) (Some (command.Report (replay_by o lane))) source source' sink
        sink' desk desk' result → result ≡ Status.Done → HeadlineInBytes (S.left source)
        (S.left source') (K.written sink) (K.written sink') o lane desk'.pen }
    ensures summary { (a : Asked) (source source' : S) (sink sink' : K) (desk desk' : Desk)
        (result : Status) →
        Ran S.pull_gives (ByLines K.push_gives) (Some (run_by a)) source source' sink sink' desk desk'
        result → result ≡ Status.Done → RunInBytes (S.left source) (S.left source')
        (K.written sink) (K.written sink') a desk'.pen }
    ensures truth { (r : Report) (source source' : S) (sink sink' : K) (desk desk' : Desk)
        (result : Status) →
        Ran S.pull_gives (ByLines K.push_gives) (Some (command.Report r)) source source' sink sink' desk
        desk' result → result ≡ Status.Done → TruthInBytes (S.left source) (S.left source')
        (K.written sink) (K.written sink') r desk'.pen }
    ensures made_truth { (a : Asked) (source source' : S) (sink sink' : K) (desk desk' : Desk)
        (result : Status) →
        Ran S.pull_gives (ByLines K.push_gives) (Some (run_by a)) source source' sink sink' desk desk'
        result → result ≡ Status.Done → MadeTruth a desk'.pen }
    ensures none { (asked : Option Command) (source source' : S) (sink sink' : K) (desk desk' : Desk)
        (result : Status) →
        desk.pen.journal ≡ cold ∷ [] →
        Ran S.pull_gives (ByLines K.push_gives) asked source source' sink sink' desk desk' result →
        MakesNone result → desk'.pen.journal ≡ cold ∷ [] }
    ensures usage { (source source' : S) (sink sink' : K) (desk desk' : Desk)
        (result : Status) →
        Ran S.pull_gives (ByLines K.push_gives) None source source' sink sink' desk desk' result →
        (result ≡ Status.Usage) ⊎ ((result ≡ Status.WriteFault) ⊎ (result ≡ Status.NoMemory)) }
    ensures complete { (r : Report) (text : List ℕ) (source source' : S) (sink sink' : K) (desk desk' : Desk)
        (result : Status) →
        Ran S.pull_gives (ByLines K.push_gives) (Some (command.Report r)) source source' sink sink' desk
        desk' result → S.left source ≡ Some text → WasFree (S.faults source) (S.faults source') →
        WasFree (K.faults sink) (K.faults sink') →
        (result ≡ status_by (stop_of_file (takes_few r) text)) ⊎ (result ≡ Status.NoMemory) }
    ensures converts { (text : List ℕ) (source source' : S) (sink sink' : K) (desk desk' : Desk)
        (result : Status) →
        Ran S.pull_gives (ByLines K.push_gives) (Some command.Capture) source source' sink sink' desk desk'
        result → S.left source ≡ Some text → WasFree (S.faults source) (S.faults source') →
        WasFree (K.faults sink) (K.faults sink') →
        (result ≡ status_by (stop_of_packets text)) ⊎ (result ≡ Status.NoMemory) }
    ensures made { (number count : ℕ) (source source' : S) (sink sink' : K) (desk desk' : Desk)
        (result : Status) →
        Ran S.pull_gives (ByLines K.push_gives) (Some (command.Make number count)) source source' sink
        sink' desk desk' result → WasFree (K.faults sink) (K.faults sink') →
        (result ≡ Status.Done) ⊎ (result ≡ Status.NoMemory) }
    ensures ran { (a : Asked) (source source' : S) (sink sink' : K) (desk desk' : Desk)
        (result : Status) →
        Ran S.pull_gives (ByLines K.push_gives) (Some (run_by a)) source source' sink sink' desk desk'
        result → WasFree (K.faults sink) (K.faults sink') →
        (result ≡ Status.Done) ⊎ (result ≡ Status.NoMemory) }
{}

/// The same of a run whose lines went out in blocks.
pub fn blocks_tell<S: Source, K: Sink>()
    ensures done { (asked : Option Command) (source source' : S) (sink sink' : K) (desk desk' : Desk)
        (result : Status) →
        Ran S.pull_gives (ByBlocks K.push_gives) asked source source' sink sink' desk desk' result →
        result ≡ Status.Done → WasDone (S.left source) (S.left source') (K.written sink)
        (K.written sink') desk desk' asked }
    ensures headline { (o : Options) (lane : Bool) (source source' : S) (sink sink' : K) (desk desk' : Desk)
        (result : Status) →
        Ran S.pull_gives (ByBlocks K.push_gives) (Some (command.Report (replay_by o lane))) source source' sink
        sink' desk desk' result → result ≡ Status.Done → HeadlineInBytes (S.left source)
        (S.left source') (K.written sink) (K.written sink') o lane desk'.pen }
    ensures summary { (a : Asked) (source source' : S) (sink sink' : K) (desk desk' : Desk)
        (result : Status) →
        Ran S.pull_gives (ByBlocks K.push_gives) (Some (run_by a)) source source' sink sink' desk desk'
        result → result ≡ Status.Done → RunInBytes (S.left source) (S.left source')
        (K.written sink) (K.written sink') a desk'.pen }
    ensures truth { (r : Report) (source source' : S) (sink sink' : K) (desk desk' : Desk)
        (result : Status) →
        Ran S.pull_gives (ByBlocks K.push_gives) (Some (command.Report r)) source source' sink sink' desk
        desk' result → result ≡ Status.Done → TruthInBytes (S.left source) (S.left source')
        (K.written sink) (K.written sink') r desk'.pen }
    ensures made_truth { (a : Asked) (source source' : S) (sink sink' : K) (desk desk' : Desk)
        (result : Status) →
        Ran S.pull_gives (ByBlocks K.push_gives) (Some (run_by a)) source source' sink sink' desk desk'
        result → result ≡ Status.Done → MadeTruth a desk'.pen }
    ensures none { (asked : Option Command) (source source' : S) (sink sink' : K) (desk desk' : Desk)
        (result : Status) →
        desk.pen.journal ≡ cold ∷ [] →
        Ran S.pull_gives (ByBlocks K.push_gives) asked source source' sink sink' desk desk' result →
        MakesNone result → desk'.pen.journal ≡ cold ∷ [] }
    ensures usage { (source source' : S) (sink sink' : K) (desk desk' : Desk)
        (result : Status) →
        Ran S.pull_gives (ByBlocks K.push_gives) None source source' sink sink' desk desk' result →
        (result ≡ Status.Usage) ⊎ ((result ≡ Status.WriteFault) ⊎ (result ≡ Status.NoMemory)) }
    ensures complete { (r : Report) (text : List ℕ) (source source' : S) (sink sink' : K) (desk desk' : Desk)
        (result : Status) →
        Ran S.pull_gives (ByBlocks K.push_gives) (Some (command.Report r)) source source' sink sink' desk
        desk' result → S.left source ≡ Some text → WasFree (S.faults source) (S.faults source') →
        WasFree (K.faults sink) (K.faults sink') →
        (result ≡ status_by (stop_of_file (takes_few r) text)) ⊎ (result ≡ Status.NoMemory) }
    ensures converts { (text : List ℕ) (source source' : S) (sink sink' : K) (desk desk' : Desk)
        (result : Status) →
        Ran S.pull_gives (ByBlocks K.push_gives) (Some command.Capture) source source' sink sink' desk desk'
        result → S.left source ≡ Some text → WasFree (S.faults source) (S.faults source') →
        WasFree (K.faults sink) (K.faults sink') →
        (result ≡ status_by (stop_of_packets text)) ⊎ (result ≡ Status.NoMemory) }
    ensures made { (number count : ℕ) (source source' : S) (sink sink' : K) (desk desk' : Desk)
        (result : Status) →
        Ran S.pull_gives (ByBlocks K.push_gives) (Some (command.Make number count)) source source' sink
        sink' desk desk' result → WasFree (K.faults sink) (K.faults sink') →
        (result ≡ Status.Done) ⊎ (result ≡ Status.NoMemory) }
    ensures ran { (a : Asked) (source source' : S) (sink sink' : K) (desk desk' : Desk)
        (result : Status) →
        Ran S.pull_gives (ByBlocks K.push_gives) (Some (run_by a)) source source' sink sink' desk desk'
        result → WasFree (K.faults sink) (K.faults sink') →
        (result ≡ Status.Done) ⊎ (result ≡ Status.NoMemory) }
{}
