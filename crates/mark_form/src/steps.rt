// The steps by which a mark text is read.
ghost use Rattle.std.specs.Prelude.{◌≡◌};
ghost use Rattle.mark_form.specs.Scanning.{signed, opened, after_form, in_form, in_fraction, in_zone, in_name, in_open, in_key, in_run, in_value, between, stepped, ended};

use crate::bytes::{
    is_calendar_key, is_first_of_key, is_first_of_name, is_in_key, is_in_name, is_in_run,
    match_more, stands_for,
};
use crate::layout::{Layout, Part, Tag};
use crate::stage::{Form, Progress, Stage};
use reading::Scan;

// After the first byte of the offset.
fn sign(seen: Layout, at: usize, byte: u8) -> Option<Progress>
    ensures { result ≡ signed seen at byte }
{
    let stage = match byte {
        b'Z' => Stage::Utc,
        b'+' | b'-' => Stage::Fixed {
            form: Form::Offset,
            read: 0,
        },
        _ => return None,
    };
    let seen = Layout { sign: at, ..seen };
    Some(Progress { stage, seen })
}

// After the byte that opens the zone.
fn open_zone(seen: Layout, byte: u8) -> Option<Progress>
    ensures { result ≡ opened seen byte }
{
    let stage = Stage::Zone { critical: false };
    (byte == b'[').then_some(Progress { stage, seen })
}

// After one byte more, when a form is whole.
fn after_form(seen: Layout, form: Form, at: usize, byte: u8) -> Option<Progress>
    ensures { result ≡ after_form seen form at byte }
{
    let stage = match (form, byte) {
        (Form::Clock, b'.') => Stage::Fraction { digits: 0 },
        (Form::Clock, _) => return sign(seen, at, byte),
        (Form::Offset, b':') => Stage::Fixed {
            form: Form::Seconds,
            read: 0,
        },
        (Form::Offset | Form::Seconds, _) => return open_zone(seen, byte),
    };
    Some(Progress { stage, seen })
}

// After one byte more in a form, of which so many bytes have been read.
fn in_form(seen: Layout, form: Form, read: usize, at: usize, byte: u8) -> Option<Progress>
    ensures { result ≡ in_form seen form read at byte }
{
    match form.text().get(read) {
        None => after_form(seen, form, at, byte),
        Some(kind) if stands_for(*kind, byte) => {
            let stage = Stage::Fixed {
                form,
                read: read + 1,
            };
            Some(Progress { stage, seen })
        }
        Some(_) => None,
    }
}

// After one byte more in a fraction, which ends where the offset begins.
fn in_fraction(seen: Layout, digits: u8, at: usize, byte: u8) -> Option<Progress>
    ensures { result ≡ in_fraction seen digits at byte }
{
    match byte {
        b'0'..=b'9' if digits < 6 => {
            let stage = Stage::Fraction { digits: digits + 1 };
            Some(Progress { stage, seen })
        }
        b'0'..=b'9' => None,
        _ if digits > 0 => sign(seen, at, byte),
        _ => None,
    }
}

// After one byte more, when the zone has been opened.
fn in_zone(seen: Layout, critical: bool, at: usize, byte: u8) -> Option<Progress>
    ensures { result ≡ in_zone seen critical at byte }
{
    let stage = match byte {
        b'!' if !critical => Stage::Zone { critical: true },
        _ if is_first_of_name(byte) => Stage::Name { start: at },
        _ => return None,
    };
    Some(Progress { stage, seen })
}

// After one byte more in the zone's name.
fn in_name(seen: Layout, start: usize, at: usize, byte: u8) -> Option<Progress>
    ensures { result ≡ in_name seen start at byte }
{
    match byte {
        b']' => {
            let name = Part {
                from: start,
                to: at,
            };
            let seen = Layout { name, ..seen };
            let stage = Stage::Between;
            Some(Progress { stage, seen })
        }
        _ if is_in_name(byte) => {
            let stage = Stage::Name { start };
            Some(Progress { stage, seen })
        }
        _ => None,
    }
}

// After one byte more, when a tag has been opened.
fn in_open(seen: Layout, bracket: usize, critical: bool, byte: u8) -> Option<Progress>
    ensures { result ≡ in_open seen bracket critical byte }
{
    let stage = match byte {
        b'!' if !critical => Stage::Open {
            bracket,
            critical: true,
        },
        _ if is_first_of_key(byte) => Stage::Key {
            bracket,
            critical,
            matched: match_more(Some(0), byte),
        },
        _ => return None,
    };
    Some(Progress { stage, seen })
}

// After one byte more in a tag's key.
fn in_key(
    seen: Layout,
    bracket: usize,
    critical: bool,
    matched: Option<usize>,
    byte: u8,
) -> Option<Progress>
    ensures { result ≡ in_key seen bracket critical matched byte }
{
    let stage = match byte {
        b'=' => Stage::Equals {
            tag: Tag {
                bracket,
                critical,
                is_calendar: is_calendar_key(matched),
            },
        },
        _ if is_in_key(byte) => Stage::Key {
            bracket,
            critical,
            matched: match_more(matched, byte),
        },
        _ => return None,
    };
    Some(Progress { stage, seen })
}

// After the first byte of a run of a tag's value, which begins at a place.
fn in_run(seen: Layout, tag: Tag, start: usize, byte: u8) -> Option<Progress>
    ensures { result ≡ in_run seen tag start byte }
{
    let stage = Stage::Run { tag, start };
    is_in_run(byte).then_some(Progress { stage, seen })
}

// After one byte more in a run of a tag's value.
fn in_value(seen: Layout, tag: Tag, start: usize, at: usize, byte: u8) -> Option<Progress>
    ensures { result ≡ in_value seen tag start at byte }
{
    match byte {
        b']' => {
            let value = Part {
                from: start,
                to: at,
            };
            let tags = seen.tags.note(tag, value);
            let seen = Layout { tags, ..seen };
            let stage = Stage::Between;
            Some(Progress { stage, seen })
        }
        b'-' => {
            let stage = Stage::Joined { tag, start };
            Some(Progress { stage, seen })
        }
        _ => in_run(seen, tag, start, byte),
    }
}

// After the byte that opens a tag.
fn open_tag(seen: Layout, at: usize, byte: u8) -> Option<Progress>
    ensures { result ≡ between seen at byte }
{
    let stage = Stage::Open {
        bracket: at,
        critical: false,
    };
    (byte == b'[').then_some(Progress { stage, seen })
}

impl Scan for Progress {
    type Value = Layout;

    ghost stepped = { stepped };

    ghost ended = { ended };

    fn step(self, at: usize, byte: u8) -> Option<Progress> {
        let seen = self.seen;
        match self.stage {
            Stage::Fixed { form, read } => in_form(seen, form, read, at, byte),
            Stage::Fraction { digits } => in_fraction(seen, digits, at, byte),
            Stage::Utc => open_zone(seen, byte),
            Stage::Zone { critical } => in_zone(seen, critical, at, byte),
            Stage::Name { start } => in_name(seen, start, at, byte),
            Stage::Between => open_tag(seen, at, byte),
            Stage::Open { bracket, critical } => in_open(seen, bracket, critical, byte),
            Stage::Key {
                bracket,
                critical,
                matched,
            } => in_key(seen, bracket, critical, matched, byte),
            Stage::Equals { tag } => in_run(seen, tag, at, byte),
            Stage::Joined { tag, start } => in_run(seen, tag, start, byte),
            Stage::Run { tag, start } => in_value(seen, tag, start, at, byte),
        }
    }

    fn end(self) -> Option<Layout> {
        match self.stage {
            Stage::Between => Some(self.seen),
            _ => None,
        }
    }
}
