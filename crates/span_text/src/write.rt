// The canonical text of a span.
ghost use Rattle.std.specs.Prelude.{◌≡◌, [], ◌∷◌};
ghost use Rattle.span_text.specs.Canonical.{date_text, is_nought, part_text, seconds_text, span_text, time_text};
ghost use Rattle.span_text.specs.Canonical.{write_answer, write_memory};
ghost use Rattle.span_text.specs.RoundTrip.{ReadsBack};
ghost use Rattle.writing.specs.Putting.{Puts};

use timebase::fault::Fault;
use timebase::span::Span;
use writing::Writer;

// The room that a buffer must have, whichever span is written; no text is longer than 58 bytes.
pub const ROOM: usize = 96;

// A number and its letter, unless the number is nought.
fn put_part(writer: &mut Writer, n: u64, letter: u8)
    ensures { Puts writer.old (part_text n (letter ∷ [])) writer.new }
{
    if n > 0 {
        writer.put_number(n);
        writer.put_byte(letter);
    }
}

// The seconds of so many microseconds, with their fraction, unless both are nought.
fn put_seconds(writer: &mut Writer, micros: u32)
    ensures { Puts writer.old (seconds_text micros) writer.new }
{
    if micros > 0 {
        writer.put_number(u64::from(micros / 1_000_000));
        writer.put_point(micros);
        writer.put_byte(b'S');
    }
}

// The time of a span, unless it is nought: hours, as many as there are, and minutes and seconds below 60.
fn put_time(writer: &mut Writer, micros: u64)
    ensures { Puts writer.old (time_text micros) writer.new }
{
    if micros > 0 {
        writer.put_byte(b'T');
        put_part(writer, micros / 3_600_000_000, b'H');
        put_part(writer, micros / 60_000_000 % 60, b'M');
        put_seconds(writer, (micros % 60_000_000) as u32);
    }
}

// The years, months, weeks and days that aren't nought.
fn put_date(writer: &mut Writer, span: &Span)
    ensures { Puts writer.old (date_text span.now) writer.new }
{
    put_part(writer, u64::from(span.years.unsigned_abs()), b'Y');
    put_part(writer, u64::from(span.months.unsigned_abs()), b'M');
    put_part(writer, u64::from(span.weeks.unsigned_abs()), b'W');
    put_part(writer, u64::from(span.days.unsigned_abs()), b'D');
}

// Whether every part is nought.
fn is_nought(span: &Span) -> bool
    ensures { result ≡ is_nought span.now }
{
    *span == Span::default()
}

// Puts the text of a span, as much of it as fits: a piece of a longer text. Of a span that a text can enter, it is the
// canonical text. It is no Display, which may fail by its contract, where this can't.
pub fn put_span(writer: &mut Writer, span: &Span)
    ensures { Puts writer.old (span_text span.now) writer.new }
{
    if is_nought(span) {
        writer.put_bytes(b"PT0S");
        return;
    }
    if span.is_minus() {
        writer.put_byte(b'-');
    }
    writer.put_byte(b'P');
    put_date(writer, span);
    put_time(writer, span.time.unsigned_abs());
}

// Writes the canonical text of a span at the start of the buffer, and answers its length. Refused are a span that no text
// can enter and a buffer without the room; nothing is written then. Reading the text gives the span again.
pub fn write_span(span: &Span, out: &mut [u8]) -> Result<usize, Fault>
    ensures answer { result ≡ write_answer span.now out.old }
    ensures memory { out.new ≡ write_memory span.now out.old }
    ensures law { ReadsBack span.now out.old result out.new }
{
    if let Some(part) = span.wrong_part() {
        return Err(Fault::PastLimit { part });
    }
    if out.len() < ROOM {
        return Err(Fault::BufferSmall);
    }
    let mut writer = Writer { out, at: 0 };
    put_span(&mut writer, span);
    Ok(writer.at)
}
