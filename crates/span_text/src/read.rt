// Reading a span text.
ghost use Rattle.std.specs.Prelude.{◌≡◌};
ghost use Rattle.timebase.specs.Spans.{part_limit, time_limit};
ghost use Rattle.span_text.specs.declared.scan.Fields.{Fields as Said};
ghost use Rattle.span_text.specs.Grammar.{SpanText};
ghost use Rattle.span_text.specs.Spans.{time_of, within, limited_span, read_span, Answered};

use crate::scan::{Fields, START};
use reading::read;
use timebase::fault::Fault;
use timebase::span::{PART_LIMIT, Part, Span, TIME_LIMIT};

// The size of a part, which a sign can be put to, if it keeps the limit. (`time_of` tests a wider number by a limit of its
// own: one function for both would cast each way.)
fn count_of(size: u32, part: Part) -> Result<i32, Fault>
    ensures { result ≡ within part_limit part size }
{
    if size > PART_LIMIT {
        return Err(Fault::PastLimit { part });
    }
    Ok(size as i32)
}

// Hours, minutes, seconds and their fraction, in microseconds, if they keep the limit.
fn time_of(fields: Fields) -> Result<i64, Fault>
    ensures { result ≡ within time_limit Part.Time (time_of fields) }
{
    let time = u64::from(fields.hours) * 3_600_000_000
        + u64::from(fields.minutes) * 60_000_000
        + u64::from(fields.seconds) * 1_000_000
        + u64::from(fields.micros);
    if time > TIME_LIMIT {
        return Err(Fault::PastLimit { part: Part::Time });
    }
    Ok(time as i64)
}

// The span that a text said, if it keeps the limits; or else the first part that is past its limit.
fn span_of(fields: Fields) -> Result<Span, Fault>
    ensures { result ≡ limited_span fields }
{
    let sign = if fields.minus { -1 } else { 1 };
    Ok(Span {
        years: sign * count_of(fields.years, Part::Years)?,
        months: sign * count_of(fields.months, Part::Months)?,
        weeks: sign * count_of(fields.weeks, Part::Weeks)?,
        days: sign * count_of(fields.days, Part::Days)?,
        time: i64::from(sign) * time_of(fields)?,
    })
}

// The span that a text says. A text that is none of the grammar is refused at the length of its longest viable prefix,
// and then a span past a limit by its first such part. A text says one thing.
pub fn read_span(text: &[u8]) -> Result<Span, Fault>
    ensures value { result ≡ read_span text.now }
    ensures grammar { Answered text.now result }
    ensures one { (f g : Said) → SpanText text.now f → SpanText text.now g → f ≡ g }
{
    span_of(read(START, text)?)
}
