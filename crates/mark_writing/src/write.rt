// Writing the canonical text of a mark.
ghost use Rattle.std.specs.Prelude.{◌≡◌, ◌<◌, ◌≤◌, IfOk, unsigned_abs};
ghost use Rattle.mark_writing.specs.Canonical.{two_text, date_text, clock_text, sign_byte, offset_text, zone_text};
ghost use Rattle.mark_writing.specs.Canonical.{is_iso8601, calendar_text, mark_text, write_answer, write_memory};
ghost use Rattle.writing.specs.Putting.{Puts};

use crate::stamp::Stamp;
use timebase::fault::Fault;
use writing::Writer;

// The room that a buffer must have, whichever mark is written; no text is longer than 92 bytes.
pub const ROOM: usize = 96;

// Puts a number of two digits, a nought before it where it has only one.
fn put_two(writer: &mut Writer, n: u32)
    requires { n < 100 }
    ensures { Puts writer.old (two_text n) writer.new }
{
    writer.put_bytes(&[b'0' + (n / 10) as u8, b'0' + (n % 10) as u8]);
}

// Puts `YYYY-MM-DD`.
fn put_date(writer: &mut Writer, stamp: &Stamp<'_>)
    ensures { Puts writer.old (date_text stamp.now) writer.new }
{
    put_two(writer, stamp.year / 100);
    put_two(writer, stamp.year % 100);
    writer.put_byte(b'-');
    put_two(writer, stamp.month);
    writer.put_byte(b'-');
    put_two(writer, stamp.day);
}

// Puts `hh:mm:ss` and the fraction of the second.
fn put_clock(writer: &mut Writer, stamp: &Stamp<'_>)
    ensures { Puts writer.old (clock_text stamp.now) writer.new }
{
    put_two(writer, stamp.hour);
    writer.put_byte(b':');
    put_two(writer, stamp.minute);
    writer.put_byte(b':');
    put_two(writer, stamp.second);
    writer.put_point(stamp.micros);
}

fn sign_byte(offset: i32) -> u8
    ensures { result ≡ sign_byte offset }
{
    if offset < 0 { b'-' } else { b'+' }
}

// Puts `±hh:mm`, and `:ss` where the offset isn't in whole minutes.
fn put_offset(writer: &mut Writer, offset: i32)
    requires { unsigned_abs offset < 86400 }
    ensures { Puts writer.old (offset_text offset) writer.new }
{
    let size = offset.unsigned_abs();
    writer.put_byte(sign_byte(offset));
    put_two(writer, size / 3600);
    writer.put_byte(b':');
    put_two(writer, size / 60 % 60);
    let seconds = size % 60;
    if seconds > 0 {
        writer.put_byte(b':');
        put_two(writer, seconds);
    }
}

// Puts a zone's name in brackets.
fn put_zone(writer: &mut Writer, name: &[u8])
    ensures { Puts writer.old (zone_text name.now) writer.new }
{
    writer.put_byte(b'[');
    writer.put_bytes(name);
    writer.put_byte(b']');
}

// Whether a calendar is the one that a text means where it names none.
fn is_iso8601(name: &[u8]) -> bool
    ensures { result ≡ is_iso8601 name.now }
{
    name == b"iso8601".as_slice()
}

// Puts a calendar's name in its tag, unless a text that names none means that calendar.
fn put_calendar(writer: &mut Writer, name: &[u8])
    ensures { Puts writer.old (calendar_text name.now) writer.new }
{
    if is_iso8601(name) {
        return;
    }
    writer.put_bytes(b"[u-ca=");
    writer.put_bytes(name);
    writer.put_byte(b']');
}

// Puts the canonical text of a mark, as much of it as fits: a piece of a longer text. It is no Display, which may fail by
// its contract, where this can't.
pub fn put_stamp(writer: &mut Writer, stamp: &Stamp<'_>)
    ensures { Puts writer.old (mark_text stamp.now) writer.new }
{
    put_date(writer, stamp);
    writer.put_byte(b'T');
    put_clock(writer, stamp);
    put_offset(writer, stamp.offset);
    put_zone(writer, stamp.zone);
    put_calendar(writer, stamp.calendar);
}

// Writes the canonical text of a mark at the start of the buffer, and answers its length; what the buffer holds past the
// text is as before. A buffer without the room is refused, and nothing is written.
pub fn write_stamp(stamp: &Stamp<'_>, out: &mut [u8]) -> Result<usize, Fault>
    ensures answer { result ≡ write_answer stamp.now out.old }
    ensures short { IfOk result (λ n. n ≤ 92) }
    ensures memory { out.new ≡ write_memory stamp.now out.old }
{
    if out.len() < ROOM {
        return Err(Fault::BufferSmall);
    }
    let mut writer = Writer { out, at: 0 };
    put_stamp(&mut writer, stamp);
    Ok(writer.at)
}
