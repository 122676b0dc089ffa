// What a printed report of `replay` says, read back by a reader of the tests' own.
use clock_lines::Kind;
use std::alloc::Global;
use std::test::Fail;

/// What the first line tells of the words.
#[derive(Clone, Copy)]
pub struct Asked {
    pub freq: u64,
    pub ticks: u64,
    pub readers: u64,
    pub reads: u64,
    pub back: bool,
    pub crank: bool,
    pub utc: bool,
    pub lane: bool,
}

/// A tick, as far as readers go by it. Times are in grains of 2^-64 s.
#[derive(Clone, Copy)]
pub struct Tick {
    pub number: u64,
    pub plain: bool,
    pub count: u64,
    pub time: i128,
    pub lerp: i128,
    pub slope: u64,
    pub boot: i128,
    /// The count of the estimate.
    pub update: u64,
    pub period: u64,
    pub abs: u64,
    pub rate: u64,
    /// The count of the due leap second, the leap seconds so far, and the due one.
    pub next: u64,
    pub leaps: i64,
    pub due: i64,
}

/// What came of an attempt. Times and bounds are in grains of 2^-64 s.
#[derive(Clone, Copy)]
pub enum Came {
    Read {
        kind: Kind,
        tick: u64,
        count: u64,
        time: i128,
        bound: i128,
    },
    Again {
        kind: Kind,
        first: u64,
        last: u64,
    },
    Old {
        count: u64,
        oldest: u64,
    },
    Ahead {
        count: u64,
        at: u64,
    },
}

/// The line of an attempt.
#[derive(Clone, Copy)]
pub struct Attempt {
    pub reader: u64,
    pub number: u64,
    pub came: Came,
}

/// What the lines of a report say, but for leap seconds, refused items and the end.
#[derive(Drop)]
pub struct Report {
    pub asked: Asked,
    /// The counts of the estimates and of the sets.
    pub events: Vec<u64>,
    pub ticks: Vec<Tick>,
    pub attempts: Vec<Attempt>,
}

// The columns of a line that were not taken yet.
#[derive(Clone, Copy)]
struct Columns<'t> {
    rest: &'t str,
}

impl<'t> Columns<'t> {
    // The next column, or none of them, which is empty.
    fn word(&mut self) -> &'t str {
        match self.rest.split_once(' ') {
            Some((word, rest)) => {
                self.rest = rest;
                word
            }
            None => {
                let word = self.rest;
                self.rest = "";
                word
            }
        }
    }

    fn number(&mut self) -> Option<u64> {
        self.word().parse::<u64>().ok()
    }

    // The number behind a word.
    fn number_of(&mut self, name: &str) -> Option<u64> {
        if self.word() != name {
            return None;
        }
        self.number()
    }

    // Whether the next column is this flag, which is then taken.
    fn flag(&mut self, name: &str) -> bool {
        let mut after = *self;
        if after.word() != name {
            return false;
        }
        *self = after;
        true
    }

    // A time, in grains of 2^-64 s.
    fn time(&mut self) -> Option<i128> {
        let (seconds, grains) = self.word().split_once('+')?;
        let seconds = i128::from(seconds.parse::<i64>().ok()?);
        let grains = i128::from(grains.parse::<u64>().ok()?);
        Some(seconds.wrapping_mul(1 << 64).wrapping_add(grains))
    }

    fn kind(&mut self) -> Option<Kind> {
        match self.word() {
            "abs" => Some(Kind::Abs),
            "mono" => Some(Kind::Mono),
            "uptime" => Some(Kind::Uptime),
            "fast" => Some(Kind::Fast),
            "diff" => Some(Kind::Diff),
            "back" => Some(Kind::Back),
            "utc" => Some(Kind::Utc),
            _ => None,
        }
    }

    // What the columns behind an attempt's number say.
    fn came(&mut self, name: &str) -> Option<Came> {
        match name {
            "read" => Some(Came::Read {
                kind: self.kind()?,
                tick: self.number()?,
                count: self.number()?,
                time: self.time()?,
                bound: self.word().parse::<i128>().ok()?,
            }),
            "again" => Some(Came::Again {
                kind: self.kind()?,
                first: self.number()?,
                last: self.number()?,
            }),
            "old" => Some(Came::Old {
                count: self.number()?,
                oldest: self.number()?,
            }),
            "ahead" => Some(Came::Ahead {
                count: self.number()?,
                at: self.number()?,
            }),
            _ => None,
        }
    }
}

fn asked_of(line: &str) -> Option<Asked> {
    let mut columns = Columns {
        rest: line.strip_prefix("report replay ")?,
    };
    let freq = columns.number_of("freq")?;
    let ticks = columns.number_of("ticks")?;
    let readers = columns.number_of("readers")?;
    let reads = columns.number_of("reads")?;
    let back = columns.flag("back");
    let crank = columns.flag("crank");
    let utc = columns.flag("utc");
    let lane = columns.flag("lane");
    let asked = Asked {
        freq,
        ticks,
        readers,
        reads,
        back,
        crank,
        utc,
        lane,
    };
    matches!(columns.rest, "" | "version 2").then_some(asked)
}

// The tick of the columns behind the first word of its line.
fn tick_of(rest: &str) -> Option<Tick> {
    let mut columns = Columns { rest };
    let number = columns.number()?;
    let plain = columns.word() == "plain";
    let count = columns.number()?;
    let time = columns.time()?;
    let lerp = columns.time()?;
    let slope = columns.number()?;
    let boot = columns.time()?;
    // Marks, and the time of the estimate.
    columns.word();
    columns.word();
    let update = columns.number()?;
    let period = columns.number()?;
    let abs = columns.number()?;
    let rate = columns.number()?;
    // Its marks.
    columns.word();
    Some(Tick {
        number,
        plain,
        count,
        time,
        lerp,
        slope,
        boot,
        update,
        period,
        abs,
        rate,
        next: columns.number()?,
        leaps: columns.word().parse::<i64>().ok()?,
        due: columns.word().parse::<i64>().ok()?,
    })
}

fn attempt_of(line: &str) -> Option<Attempt> {
    let mut columns = Columns { rest: line };
    let name = columns.word();
    Some(Attempt {
        reader: columns.number()?,
        number: columns.number()?,
        came: columns.came(name)?,
    })
}

// The count of an estimate or a set.
fn event_of(line: &str) -> Option<u64> {
    let mut columns = Columns { rest: line };
    match columns.word() {
        "estimate" => {
            columns.word();
            columns.number()
        }
        "set" => columns.number(),
        _ => None,
    }
}

// Takes the line of an estimate, a set, a tick or an attempt. Whether it is one of these.
fn take_line(report: &mut Report, line: &str) -> Result<bool, Fail> {
    if let Some(count) = event_of(line) {
        report.events.push(count)?;
        return Ok(true);
    }
    if let Some(rest) = line.strip_prefix("tick ") {
        let Some(tick) = tick_of(rest) else {
            return Ok(false);
        };
        report.ticks.push(tick)?;
        return Ok(true);
    }
    let Some(attempt) = attempt_of(line) else {
        return Ok(false);
    };
    report.attempts.push(attempt)?;
    Ok(true)
}

/// Reads so many lines of a report back.
pub fn report_of(alloc: Global, text: &str, lines: usize) -> Result<Report, Fail> {
    let Some(asked) = text.lines().next().and_then(asked_of) else {
        return Err(Fail::new("the first line is none of a replay"));
    };
    let mut report = Report {
        asked,
        events: Vec::new(alloc),
        ticks: Vec::new(alloc),
        attempts: Vec::new(alloc),
    };
    for line in text.lines().take(lines).skip(1) {
        let names = ["refused ", "leap ", "end "];
        let other = names.iter().any(|name| line.starts_with(*name));
        if !other && !take_line(&mut report, line)? {
            return Err(Fail::new("a line is none of a replay"));
        }
    }
    Ok(report)
}
