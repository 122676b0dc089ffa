// A line that is being made.
ghost use Rattle.std.specs.Prelude.{◌≡◌, ◌+◌, ◌-◌, ◌<◌, ◌≤◌, [], ◌++◌, length, replicate, codes, decimal};
ghost use Rattle.std.specs.Fmt.{signed_decimal};
ghost use Rattle.report_text.specs.Text.{time_text, mark_text, count_text, flag_text, letter_text, nanos_text, written_text};

use ff_grain::Bintime;
use itoa::{Buffer, write_digits};
use std::marker::Model;

/// The most bytes of a line with its line end.
const MOST: usize = 640;

/// As many zeros as nanoseconds have digits.
const ZEROS: &[u8] = b"000000000";

// The zeros in front of so many digits that make them nine.
#[inline(always)]
#[tactic(auto, using(crate::proofs::Digits::dropped_zeros))]
fn leading_zeros(digits: usize) -> &'static [u8]
    requires { digits ≤ 9 }
    ensures zeros { result.now ≡ replicate (9 - digits) 48 }
    ensures nine { length result.now + digits ≡ 9 }
{
    &ZEROS[digits..]
}

/// The bytes of a line from some place to its end. A line is made from its end, since the last digit
/// of a number is the first that is known: so digits are written where they stay.
#[derive(Drop)]
pub struct LineText {
    bytes: [u8; MOST],
    start: usize,
}

impl Model for LineText {
    ghost use Rattle.std.specs.Prelude.{ℕ, List, ◌≤◌, drop};
    ghost use Rattle.std.specs.Coded.{coded_list, coded_ℕ};

    ghost Value = { List ℕ };

    ghost coded = { coded_list coded_ℕ };

    ghost view = { λ l. drop l.start l.bytes };

    ghost invariant = { λ l. l.start ≤ 640 };
}

impl LineText {
    /// Nothing yet.
    pub fn new() -> LineText
        ensures { result ≡ [] }
    {
        LineText {
            bytes: [0; MOST],
            start: MOST,
        }
    }

    /// Takes all bytes away.
    #[inline(always)]
    pub fn clear(&mut self)
        ensures { self.new ≡ [] }
    {
        self.start = MOST;
    }

    // How many bytes there are.
    #[inline(always)]
    fn len(&self) -> usize
        ensures { result ≡ length self.now }
    {
        MOST - self.start
    }

    /// Puts these bytes in front.
    #[inline(always)]
    pub fn word(&mut self, word: &[u8])
        requires { length self.old + length word.now ≤ 640 }
        ensures { self.new ≡ word.now ++ self.old }
    {
        let start = self.start - word.len();
        self.bytes[start..self.start].copy_from_slice(word);
        self.start = start;
    }

    /// Puts a number in digits in front.
    #[inline(always)]
    #[tactic(auto, using(crate::proofs::Digits::most_digits))]
    pub fn number(&mut self, n: u64)
        requires { length self.old + 20 ≤ 640 }
        ensures text { self.new ≡ decimal n ++ self.old }
        ensures short { length self.new ≤ length self.old + 20 }
    {
        self.start = write_digits(n, &mut self.bytes, self.start);
    }

    /// Puts a number in digits in front, and its sign where it is below 0.
    #[inline(always)]
    pub fn signed(&mut self, n: i64)
        requires { length self.old + 21 ≤ 640 }
        ensures text { self.new ≡ signed_decimal n ++ self.old }
        ensures short { length self.new ≤ length self.old + 21 }
    {
        self.number(n.unsigned_abs());
        if n < 0 {
            self.word(b"-");
        }
    }

    /// Puts a number in digits in front, of up to 128 bits.
    #[inline(always)]
    pub fn wide(&mut self, n: u128)
        requires { length self.old + 40 ≤ 640 }
        ensures text { self.new ≡ decimal n ++ self.old }
        ensures short { length self.new ≤ length self.old + 40 }
    {
        match u64::try_from(n) {
            Ok(n) => self.number(n),
            Err(_) => self.word(Buffer::new().format(n).as_bytes()),
        }
    }

    /// Puts a time in front: its seconds, a plus sign, and its grains below one second.
    #[inline(always)]
    pub fn time(&mut self, t: Bintime)
        requires { length self.old + 81 ≤ 640 }
        ensures text { self.new ≡ time_text t ++ self.old }
        ensures short { length self.new ≤ length self.old + 42 }
    {
        self.number(t.frac);
        self.word(b"+");
        self.signed(t.sec);
    }

    /// Puts a space and a number in front.
    #[inline(always)]
    pub fn column(&mut self, n: u64)
        requires { length self.old + 21 ≤ 640 }
        ensures text { self.new ≡ codes " " ++ decimal n ++ self.old }
        ensures short { length self.new ≤ length self.old + 21 }
    {
        self.number(n);
        self.word(b" ");
    }

    /// Puts a space and a time in front.
    #[inline(always)]
    pub fn time_column(&mut self, t: Bintime)
        requires { length self.old + 82 ≤ 640 }
        ensures text { self.new ≡ codes " " ++ time_text t ++ self.old }
        ensures short { length self.new ≤ length self.old + 43 }
    {
        self.time(t);
        self.word(b" ");
    }

    /// Puts 1 in front where it is so, and 0 where it is not.
    #[inline(always)]
    pub fn flag(&mut self, is: bool)
        requires { length self.old + 1 ≤ 640 }
        ensures text { self.new ≡ flag_text is ++ self.old }
        ensures short { length self.new ≤ length self.old + 1 }
    {
        self.word(if is { b"1" } else { b"0" });
    }

    /// Puts a letter in front where it is so, and a dash where it is not.
    #[inline(always)]
    pub fn letter(&mut self, letter: &[u8], is: bool)
        requires room { length self.old + 1 ≤ 640 }
        requires one { length letter.now ≡ 1 }
        ensures text { self.new ≡ letter_text letter.now is ++ self.old }
        ensures short { length self.new ≤ length self.old + 1 }
    {
        self.word(if is { letter } else { b"-" });
    }

    /// Puts a word in front where it is so.
    #[inline(always)]
    pub fn mark(&mut self, word: &[u8], is: bool)
        requires { length self.old + length word.now ≤ 640 }
        ensures text { self.new ≡ mark_text word.now is ++ self.old }
        ensures short { length self.new ≤ length self.old + length word.now }
    {
        if is {
            self.word(word);
        }
    }

    /// Puts a word and a number in front, where there is one.
    #[inline(always)]
    pub fn count(&mut self, word: &[u8], count: Option<u64>)
        requires { length self.old + length word.now + 40 ≤ 640 }
        ensures text { self.new ≡ count_text word.now count ++ self.old }
        ensures short { length self.new ≤ length self.old + length word.now + 20 }
    {
        if let Some(n) = count {
            self.number(n);
            self.word(word);
        }
    }

    /// Puts nanoseconds below 10^9 in front, in nine digits with leading zeros.
    #[inline(always)]
    #[tactic(auto, using(crate::proofs::Digits::few_digits))]
    pub fn nanos(&mut self, nanos: u32)
        requires room { length self.old + 20 ≤ 640 }
        requires below { nanos < 1000000000 }
        ensures text { self.new ≡ nanos_text nanos ++ self.old }
        ensures nine { length self.new ≡ length self.old + 9 }
    {
        let behind = self.len();
        self.number(u64::from(nanos));
        self.word(leading_zeros(self.len() - behind));
    }

    /// Puts a time in front as a stamp file has it: its seconds, a point, and the nanoseconds below
    /// 10^9.
    #[inline(always)]
    pub fn written(&mut self, t: (u64, u32))
        requires room { length self.old + 50 ≤ 640 }
        requires below { t.1 < 1000000000 }
        ensures text { self.new ≡ written_text t ++ self.old }
        ensures short { length self.new ≤ length self.old + 30 }
    {
        self.nanos(t.1);
        self.word(b".");
        self.number(t.0);
    }

    /// The bytes.
    #[inline(always)]
    pub fn bytes(&self) -> &[u8]
        ensures { result.now ≡ self.now }
    {
        &self.bytes[self.start..]
    }
}
