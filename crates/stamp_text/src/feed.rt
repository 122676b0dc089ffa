// A reader of stamp files that takes one byte at a time, or those up to the end of a line.
ghost use Rattle.std.specs.Prelude.{◌≡◌, ◌≢◌, IfOk, IfErr, IfSome, IfNone, OnOk, OnSome, ℕ, ◌+◌, ◌^◌, ◌<◌, ◌≤◌, List, [], ◌∷◌, ◌++◌, length, take, Bool, true, false, None, Some, Ok, Err};
ghost use Rattle.stamp_text.specs.Cut.{without_return};
ghost use Rattle.stamp_text.specs.Grammar.{entry_says, freq_says, head_of, is_second, line_of, short_says, text_says, version_says};
ghost use Rattle.stamp_text.specs.Accepted.{IsLineInRange};
ghost use Rattle.stamp_text.specs.FeedSteps.{second_after};
ghost use Rattle.stamp_text.specs.Pieces.{BeginsWithLine};

use crate::items::item_of;
use crate::lines::{Head, Item, Line, LineFault, Stamp, Why};
use crate::numbers::number_of;
use crate::stamps::{second_ahead, stamp_ahead};
use arrayvec::ArrayVec;
use memchr::memchr;
use std::marker::Model;

/// The most bytes of a line without its line feed.
const MOST: usize = 255;

/// The least nominal frequency, in Hz.
const LEAST_FREQ: u64 = 1_000_000;

/// The greatest nominal frequency, in Hz.
const GREATEST_FREQ: u64 = 16_000_000_000;

/// A reader at some place in a stamp file. It keeps how many lines have ended, whether the first of
/// them said that the file is of version 2, the bytes of the line that has not ended, and the fault that
/// it found.
#[derive(Drop)]
pub struct Feed {
    ended: u64,
    second: bool,
    line: ArrayVec<u8, MOST>,
    fault: Option<LineFault>,
}

impl Model for Feed {
    ghost use Rattle.stamp_text.specs.Kept.{Kept};

    ghost Value = { Kept };

    ghost view = { λ f. record { ended = f.ended; second = f.second; line = f.line.items; fault = f.fault } };
}

impl Default for Feed {
    fn default() -> Feed {
        Feed::new()
    }
}

fn without_return(line: &[u8]) -> &[u8]
    ensures { result.now ≡ without_return line.now }
{
    line.strip_suffix(b"\r").unwrap_or(line)
}

fn is_second(line: &[u8]) -> bool
    ensures { result ≡ is_second line.now }
{
    line == b"radclock-stamps 2".as_slice()
}

fn version_said(line: &[u8]) -> Result<Option<Line>, Why>
    ensures { result ≡ version_says line.now }
{
    if line == b"radclock-stamps 1".as_slice() || is_second(line) {
        Ok(None)
    } else {
        Err(Why::Head)
    }
}

fn freq_said(second: bool, line: &[u8]) -> Result<Option<Line>, Why>
    ensures { result ≡ freq_says second line.now }
{
    let version = if second { 2 } else { 1 };
    let digits = line.strip_prefix(b"freq ").ok_or(Why::Freq)?;
    match number_of(digits) {
        Some(freq) if LEAST_FREQ <= freq && freq <= GREATEST_FREQ => {
            Ok(Some(Line::Head(Head { version, freq })))
        }
        _ => Err(Why::Freq),
    }
}

fn line_of(line: u64, item: Item) -> Line
    ensures { result ≡ line_of line item }
{
    match item {
        Item::Stamp(stamp) => Line::Stamp { line, stamp },
        Item::Set { count, at } => Line::Set { line, count, at },
        Item::Leap { count, leap } => Line::Leap { line, count, leap },
    }
}

fn entry_said(second: bool, line: u64, text: &[u8]) -> Result<Option<Line>, Why>
    ensures { result ≡ entry_says second line text.now }
{
    if text.is_empty() || text[0] == b'#' {
        return Ok(None);
    }
    let item = item_of(second, text)?;
    Ok(Some(line_of(line, item)))
}

fn text_said(second: bool, line: u64, text: &[u8]) -> Result<Option<Line>, Why>
    ensures { result ≡ text_says second line text.now }
{
    match line {
        1 => version_said(text),
        2 => freq_said(second, text),
        _ => entry_said(second, line, text),
    }
}

// A line from 3 on that is a comment: it gives nothing.
fn is_comment(line: u64, bytes: &[u8]) -> bool
    ensures late { result ≡ true → 2 < line }
    ensures says { (second : Bool) → result ≡ true → short_says second line bytes.now ≡ Ok None }
{
    match bytes {
        [b'#', ..] => line > 2,
        _ => false,
    }
}

// What a line says that is not too long.
#[inline(always)]
fn line_said(second: bool, line: u64, bytes: &[u8]) -> Result<Option<Line>, Why>
    ensures { result ≡ short_says second line bytes.now }
{
    text_said(second, line, without_return(bytes))
}

// Whether the file is of version 2, behind a line: the first line says so.
fn second_after(ended: u64, second: bool, line: &[u8]) -> bool
    ensures { result ≡ second_after ended second line.now }
{
    if ended == 0 {
        is_second(without_return(line))
    } else {
        second
    }
}

impl Feed {
    ghost use Rattle.std.specs.List.{All};
    ghost use Rattle.stamp_text.specs.Format.{line_feed, line_limit};
    ghost use Rattle.stamp_text.specs.Kept.{StandsFor, IsFaultOfAll};
    ghost use Rattle.stamp_text.specs.Kept.{AnswersByte, AnswersBytes, AnswersEnd};
    ghost use Rattle.stamp_text.specs.Turns.{AnswersInTurn};
    ghost use Rattle.stamp_text.specs.declared.lines.LineFault.{LineFault};
    ghost use Rattle.stamp_text.specs.FeedSteps.{step_answer, step_kept, last_answer};

    /// A reader at the start of a file.
    pub fn new() -> Feed
        ensures { StandsFor result [] }
    {
        Feed {
            ended: 0,
            second: false,
            line: ArrayVec::new(),
            fault: None,
        }
    }

    /// Takes the next byte, and answers the line that it ends, if that line carries the head or an
    /// item. A fault of a line is answered at its line feed, or at its 256th byte where it is too
    /// long, and again at each later byte. It is then the first fault of each file that begins with
    /// the bytes so far.
    pub fn byte(&mut self, b: u8) -> Result<Option<Line>, LineFault>
        ensures answer { (text : List ℕ) → length text < 2 ^ 62 → StandsFor self.old text →
            AnswersByte text b result }
        ensures after { (text : List ℕ) → length text < 2 ^ 62 → StandsFor self.old text →
            StandsFor self.new (text ++ b ∷ []) }
        ensures refused { IfErr result (λ fault. (text : List ℕ) →
            length text < 2 ^ 62 → StandsFor self.old text → IsFaultOfAll (text ++ b ∷ []) fault) }
        ensures ranges { IfOk result (λ line. IfSome line IsLineInRange) }

        // A fault is kept, and answered again.
        ensures kept { IfErr result (λ fault. self.new.fault ≡ Some fault) }
        ensures again { (fault : LineFault) → self.old.fault ≡ Some fault →
            (result ≡ Err fault) × (self.new ≡ self.old) }

        // What was kept decides what is answered, and what is then kept.
        ensures step { (result ≡ step_answer self.old b) ×
            (self.new ≡ step_kept self.old b result) }
    {
        self.step(b)
    }

    /// Takes the next bytes, up to and with the first that is a line feed or at which there is a
    /// fault, and answers how many it took and what they give. It is as if each had been given to
    /// `byte` in turn, and `byte` had answered nothing to each but the last. A fault that was found
    /// before is answered again, and then no byte is taken.
    #[inline(always)]
    pub fn bytes(&mut self, more: &[u8]) -> (usize, Result<Option<Line>, LineFault>)
        ensures within { result.0 ≤ length more.now }
        ensures goes_on { OnOk result.1 (0 < length more.now → 0 < result.0) }
        ensures in_turn { AnswersInTurn self.old (take result.0 more.now) result.1 self.new }
        ensures answer { (text : List ℕ) → length text + length more.now < 2 ^ 62 →
            StandsFor self.old text → AnswersBytes text (take result.0 more.now) result.1 }
        ensures after { (text : List ℕ) → length text + length more.now < 2 ^ 62 →
            StandsFor self.old text → StandsFor self.new (text ++ take result.0 more.now) }
        ensures refused { IfErr result.1 (λ fault. (text : List ℕ) →
            length text + length more.now < 2 ^ 62 → StandsFor self.old text →
            IsFaultOfAll (text ++ take result.0 more.now) fault) }
        ensures ranges { IfOk result.1 (λ line. IfSome line IsLineInRange) }

        // A fault is kept, and answered again.
        ensures kept { IfErr result.1 (λ fault. self.new.fault ≡ Some fault) }
        ensures again { (fault : LineFault) → self.old.fault ≡ Some fault →
            (result.1 ≡ Err fault) × (self.new ≡ self.old) }
    {
        self.take(more)
    }

    #[inline(always)]
    fn take(&mut self, more: &[u8]) -> (usize, Result<Option<Line>, LineFault>)
        ensures within { result.0 ≤ length more.now }
        ensures goes_on { OnOk result.1 (0 < length more.now → 0 < result.0) }
        ensures in_turn { AnswersInTurn self.old (take result.0 more.now) result.1 self.new }
        ensures again { (fault : LineFault) → self.old.fault ≡ Some fault →
            (result.1 ≡ Err fault) × (self.new ≡ self.old) }
    {
        match self.stamp_line(more) {
            Some((count, line)) => (count, Ok(Some(line))),
            None if self.empty_line(more) => (1, Ok(None)),
            None => self.part(more),
        }
    }

    // No line is open, no fault was found, and both lines of the head have ended.
    #[inline(always)]
    fn is_before_entry(&self) -> bool
        ensures sound { result ≡ true → self.now.fault ≡ None }
        ensures empty { result ≡ true → self.now.line ≡ [] }
        ensures late { result ≡ true → 2 ≤ self.now.ended }
    {
        self.fault.is_none() && self.line.is_empty() && self.ended >= 2
    }

    // Takes the line feed of an empty line, where no line is open and the next byte is one.
    #[inline(always)]
    fn empty_line(&mut self, more: &[u8]) -> bool
        ensures some { result ≡ true → 0 < length more.now }
        ensures sound { result ≡ true → self.old.fault ≡ None }
        ensures in_turn { result ≡ true → AnswersInTurn self.old (take 1 more.now) (Ok None) self.new }
        ensures none { result ≡ false → self.new ≡ self.old }
    {
        if !self.is_before_entry() {
            return false;
        }
        if more.is_empty() || more[0] != b'\n' {
            return false;
        }
        let line = self.ended.saturating_add(1);
        self.ended = line;
        true
    }

    // Takes a stamp line with its line feed, where no line is open and the next bytes are such a
    // line for sure. Other lines are left to `part`.
    #[inline(always)]
    fn stamp_line(&mut self, more: &[u8]) -> Option<(usize, Line)>
        ensures within { IfSome result (λ p. p.0 ≤ length more.now) }
        ensures goes_on { IfSome result (λ p. 0 < p.0) }
        ensures sound { OnSome result (self.old.fault ≡ None) }
        ensures in_turn { IfSome result
            (λ p. AnswersInTurn self.old (take p.0 more.now) (Ok (Some p.1)) self.new) }
        ensures none { IfNone result (self.new ≡ self.old) }
    {
        if !self.is_before_entry() {
            return None;
        }
        let [b'0'..=b'9', ..] = more else {
            return None;
        };
        if self.second {
            return self.second_line(more);
        }
        let (answer, count) = stamp_ahead(more)?;
        self.end_line(more, answer, count)
    }

    // The same in a file of version 2.
    #[inline(always)]
    fn second_line(&mut self, more: &[u8]) -> Option<(usize, Line)>
        requires second { self.old.second ≡ true }
        requires sound { self.old.fault ≡ None }
        requires empty { self.old.line ≡ [] }
        requires late { 2 ≤ self.old.ended }
        ensures within { IfSome result (λ p. p.0 ≤ length more.now) }
        ensures goes_on { IfSome result (λ p. 0 < p.0) }
        ensures sound { OnSome result (self.old.fault ≡ None) }
        ensures in_turn { IfSome result
            (λ p. AnswersInTurn self.old (take p.0 more.now) (Ok (Some p.1)) self.new) }
        ensures none { IfNone result (self.new ≡ self.old) }
    {
        let (answer, count) = second_ahead(more)?;
        self.end_line(more, answer, count)
    }

    // Takes the stamp line that the next bytes begin with, so many, if a line feed ends it.
    #[inline(always)]
    fn end_line(
        &mut self,
        more: &[u8],
        answer: Result<Stamp, Why>,
        count: usize,
    ) -> Option<(usize, Line)>
        requires sound { self.old.fault ≡ None }
        requires empty { self.old.line ≡ [] }
        requires late { 2 ≤ self.old.ended }
        requires begins { BeginsWithLine self.old.second more.now answer count }
        ensures within { IfSome result (λ p. p.0 ≤ length more.now) }
        ensures goes_on { IfSome result (λ p. 0 < p.0) }
        ensures sound { OnSome result (self.old.fault ≡ None) }
        ensures in_turn { IfSome result
            (λ p. AnswersInTurn self.old (take p.0 more.now) (Ok (Some p.1)) self.new) }
        ensures none { IfNone result (self.new ≡ self.old) }
    {
        if count >= more.len() || more[count] != b'\n' {
            return None;
        }
        let stamp = answer.ok()?;
        let line = self.ended.saturating_add(1);
        self.ended = line;
        Some((count + 1, Line::Stamp { line, stamp }))
    }

    // Takes the bytes up to the first line feed, or as many as the line has room for.
    fn part(&mut self, more: &[u8]) -> (usize, Result<Option<Line>, LineFault>)
        ensures within { result.0 ≤ length more.now }
        ensures goes_on { OnOk result.1 (0 < length more.now → 0 < result.0) }
        ensures in_turn { AnswersInTurn self.old (take result.0 more.now) result.1 self.new }
        ensures again { (fault : LineFault) → self.old.fault ≡ Some fault →
            (result.1 ≡ Err fault) × (self.new ≡ self.old) }
    {
        if let Some(fault) = self.fault {
            return (0, Err(fault));
        }
        let plain = self.plain(more);
        if self.line.is_empty() && plain < more.len() && more[plain] == b'\n' {
            let answer = self.whole(&more[..plain]);
            return (plain + 1, answer);
        }
        self.add(&more[..plain]);
        if plain == more.len() {
            return (plain, Ok(None));
        }
        let answer = self.step(more[plain]);
        (plain + 1, answer)
    }

    // Takes a whole line with its line feed, where no line is open. The line is kept only where it
    // is faulty.
    #[tactic(auto, unfolding(crate::specs::FeedSteps::step_answer))]
    fn whole(&mut self, line: &[u8]) -> Result<Option<Line>, LineFault>
        requires sound { self.old.fault ≡ None }
        requires none { self.old.line ≡ [] }
        requires room { length line.now ≤ line_limit }
        ensures answer { result ≡ step_answer (record self.old { line = line.now }) line_feed }
        ensures after { self.new ≡
            step_kept (record self.old { line = line.now }) line_feed result }
    {
        let number = self.ended.saturating_add(1);
        if is_comment(number, line) {
            self.ended = number;
            return Ok(None);
        }
        match line_said(self.second, number, line) {
            Ok(given) => {
                self.second = second_after(self.ended, self.second, line);
                self.ended = number;
                Ok(given)
            }
            Err(why) => {
                let fault = LineFault { line: number, why };
                self.add(line);
                self.fault = Some(fault);
                Err(fault)
            }
        }
    }

    // Adds bytes to the line.
    fn add(&mut self, plain: &[u8])
        requires { length self.old.line + length plain.now ≤ line_limit }
        ensures { self.new ≡ record self.old { line = self.old.line ++ plain.now } }
    {
        let _fits = self.line.try_extend_from_slice(plain);
    }

    // How many bytes come before the first line feed, as far as the line has room for them.
    fn plain(&self, more: &[u8]) -> usize
        ensures within { result ≤ length more.now }
        ensures room { length self.now.line + result ≤ line_limit }
        ensures plain { All (λ b. b ≢ line_feed) (take result more.now) }
    {
        let room = self.line.remaining_capacity();
        memchr(b'\n', more).unwrap_or(more.len()).min(room)
    }

    fn step(&mut self, b: u8) -> Result<Option<Line>, LineFault>
        ensures answer { result ≡ step_answer self.old b }
        ensures after { self.new ≡ step_kept self.old b (step_answer self.old b) }
    {
        let answer = self.answer(b);
        match answer {
            Err(fault) => self.fault = Some(fault),
            Ok(_) => {
                if b == b'\n' {
                    self.second = second_after(self.ended, self.second, self.line.as_slice());
                    self.line.clear();
                    self.ended = self.ended.saturating_add(1);
                } else {
                    self.line.push(b);
                }
            }
        }
        answer
    }

    #[tactic(auto, unfolding(crate::specs::FeedSteps::step_answer))]
    fn answer(&self, b: u8) -> Result<Option<Line>, LineFault>
        ensures answer { result ≡ step_answer self.now b }
        ensures room { OnOk result (b ≢ 10 → length self.now.line < 255) }
    {
        if let Some(fault) = self.fault {
            return Err(fault);
        }
        let line = self.ended.saturating_add(1);
        if b == b'\n' {
            return line_said(self.second, line, self.line.as_slice()).map_err(|why| LineFault {
                line,
                why,
            });
        }
        if self.line.is_full() {
            return Err(LineFault {
                line,
                why: Why::LongLine,
            });
        }
        Ok(None)
    }

    /// Ends the file, and answers its last line where that has no line feed and carries the head or
    /// an item. The answer is a fault exactly where the file is not in the grammar.
    pub fn end(self) -> Result<Option<Line>, LineFault>
        ensures answer { (text : List ℕ) → length text < 2 ^ 62 → StandsFor self text →
            AnswersEnd text result }
        ensures ranges { IfOk result (λ line. IfSome line IsLineInRange) }
        ensures again { (fault : LineFault) → self.fault ≡ Some fault → result ≡ Err fault }
    {
        self.last()
    }

    #[tactic(auto, unfolding(crate::specs::FeedSteps::last_answer))]
    fn last(&self) -> Result<Option<Line>, LineFault>
        ensures { result ≡ last_answer self.now }
    {
        if let Some(fault) = self.fault {
            return Err(fault);
        }
        let line = self.ended.saturating_add(1);
        if self.line.is_empty() {
            return match line {
                1 => Err(LineFault {
                    line: 1,
                    why: Why::Head,
                }),
                2 => Err(LineFault {
                    line: 2,
                    why: Why::Freq,
                }),
                _ => Ok(None),
            };
        }
        let given = line_said(self.second, line, self.line.as_slice()).map_err(|why| LineFault {
            line,
            why,
        })?;
        if line == 1 {
            return Err(LineFault {
                line: 2,
                why: Why::Freq,
            });
        }
        Ok(given)
    }
}
