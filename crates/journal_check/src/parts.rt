// The parts of a line.
ghost use Rattle.std.specs.Prelude.{◌≡◌, ◌^◌, ◌-◌, IfSome, FitsSigned};
ghost use Rattle.std.specs.Int.{w8, w16};
ghost use Rattle.journal_check.specs.Reading.{told};
ghost use Rattle.journal_check.specs.Numbers.{half_at, signed_at, word_at, wide_at, time_at};
ghost use Rattle.journal_check.specs.Names.{marks_at};
ghost use Rattle.journal_check.specs.Parts.{column_at, given_at, hands_at, full_at, told_full_at, reading_at};

use crate::names::{flags, how, kind, marks};
use crate::numbers::{behind, number, signed, time, word};
use crate::wide::wide;
use clock_lines::Reading;
use ff_estimator::Full;
use ff_grain::Bintime;
use ff_hands::{Estimate, Hands, Marks};
use rate_pair::Rate;

/// A number behind a space.
#[inline(always)]
pub fn word_column(text: &[u8]) -> Option<(u64, &[u8])>
    ensures { told result ≡ column_at word_at text.now }
{
    word(behind(b" ", text)?)
}

#[inline(always)]
fn half_column(text: &[u8]) -> Option<(u32, &[u8])>
    ensures { told result ≡ column_at half_at text.now }
{
    let (n, text) = number(behind(b" ", text)?, u32::MAX as u64)?;
    Some((n as u32, text))
}

/// A time behind a space.
#[inline(always)]
pub fn time_column(text: &[u8]) -> Option<(Bintime, &[u8])>
    ensures { told result ≡ column_at time_at text.now }
{
    time(behind(b" ", text)?)
}

#[inline(always)]
fn marks_column(text: &[u8]) -> Option<(Marks, &[u8])>
    ensures { told result ≡ column_at marks_at text.now }
{
    marks(behind(b" ", text)?)
}

fn total_column(text: &[u8]) -> Option<(i16, &[u8])>
    ensures read { told result ≡ column_at (signed_at (2 ^ 15 - 1)) text.now }
    ensures fits { IfSome result (λ x. FitsSigned w16 x.0) }
{
    let (n, text) = signed(behind(b" ", text)?, i16::MAX as u64)?;
    Some((n as i16, text))
}

/// A number of 8 bits with its sign behind a space.
pub fn leap_column(text: &[u8]) -> Option<(i8, &[u8])>
    ensures read { told result ≡ column_at (signed_at (2 ^ 7 - 1)) text.now }
    ensures fits { IfSome result (λ x. FitsSigned w8 x.0) }
{
    let (n, text) = signed(behind(b" ", text)?, i8::MAX as u64)?;
    Some((n as i8, text))
}

/// An estimate with its leap seconds.
#[tactic(auto, using(crate::proofs::SignLaws::passed_on), unfolding(crate::specs::Parts::given_at))]
pub fn given(text: &[u8]) -> Option<(Estimate, &[u8])>
    ensures { told result ≡ given_at text.now }
{
    let (update_time, text) = time(text)?;
    let (update_ffcount, text) = word_column(text)?;
    let (period, text) = word_column(text)?;
    let (errb_abs, text) = half_column(text)?;
    let (errb_rate, text) = half_column(text)?;
    let (status, text) = marks_column(text)?;
    let (leapsec_next, text) = word_column(text)?;
    let (leapsec_total, text) = total_column(text)?;
    let (leapsec, text) = leap_column(text)?;
    let e = Estimate {
        update_time,
        update_ffcount,
        leapsec_next,
        period,
        errb_abs,
        errb_rate,
        status,
        leapsec_total,
        leapsec,
    };
    Some((e, text))
}

/// The hands of a tick.
#[tactic(auto, unfolding(crate::specs::Parts::hands_at))]
pub fn hands(text: &[u8]) -> Option<(Hands, &[u8])>
    ensures { told result ≡ hands_at text.now }
{
    let (how, text) = how(text)?;
    let (count, text) = word_column(text)?;
    let (time, text) = time_column(text)?;
    let (lerp, text) = time_column(text)?;
    let (period_lerp, text) = word_column(text)?;
    let (boot, text) = time_column(text)?;
    let (kstatus, text) = marks_column(text)?;
    let (est, text) = given(behind(b" ", text)?)?;
    let h = Hands {
        count,
        time,
        lerp,
        period_lerp,
        boot,
        kstatus,
        how,
        est,
    };
    Some((h, text))
}

#[inline(always)]
fn wide_column(text: &[u8]) -> Option<(u128, &[u8])>
    ensures { told result ≡ column_at wide_at text.now }
{
    wide(behind(b" ", text)?)
}

/// An estimate of the daemon.
#[tactic(auto, unfolding(crate::specs::Parts::full_at))]
pub fn full(text: &[u8]) -> Option<(Full, &[u8])>
    ensures { told result ≡ full_at text.now }
{
    let (update_ffcount, text) = word(text)?;
    let (update_time, text) = time_column(text)?;
    let (period, text) = word_column(text)?;
    let (errb_abs, text) = half_column(text)?;
    let (errb_rate, text) = half_column(text)?;
    let (status, text) = marks_column(text)?;
    let (spread, text) = wide_column(text)?;
    let (low, text) = word_column(text)?;
    let (high, text) = word_column(text)?;
    let ((shifted, local, predicted), text) = flags(behind(b" ", text)?)?;
    let est = Estimate {
        update_time,
        update_ffcount,
        leapsec_next: 0,
        period,
        errb_abs,
        errb_rate,
        status,
        leapsec_total: 0,
        leapsec: 0,
    };
    let f = Full {
        est,
        spread,
        rate: Rate { period, low, high },
        shifted,
        local,
        predicted,
    };
    Some((f, text))
}

/// An estimate of the daemon with its leap seconds.
#[tactic(auto, using(crate::proofs::SignLaws::passed_on), unfolding(crate::specs::Parts::told_full_at))]
pub fn told_full(text: &[u8]) -> Option<(Full, &[u8])>
    ensures { told result ≡ told_full_at text.now }
{
    let (f, text) = full(text)?;
    let (leapsec_next, text) = word_column(text)?;
    let (leapsec_total, text) = total_column(text)?;
    let (leapsec, text) = leap_column(text)?;
    let est = Estimate {
        leapsec_next,
        leapsec_total,
        leapsec,
        ..f.est
    };
    Some((Full { est, ..f }, text))
}

/// A reading.
#[tactic(auto, unfolding(crate::specs::Parts::reading_at))]
pub fn reading(text: &[u8]) -> Option<(Reading, &[u8])>
    ensures { told result ≡ reading_at text.now }
{
    let (kind, text) = kind(text)?;
    let (tick, text) = word_column(text)?;
    let (count, text) = word_column(text)?;
    let (time, text) = time_column(text)?;
    let (bound, text) = wide_column(text)?;
    let r = Reading {
        kind,
        tick,
        count,
        time,
        bound,
    };
    Some((r, text))
}
