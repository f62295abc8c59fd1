// The form of zones' names: a letter, `_` or `.`, then letters, digits, `.`, `_`, `-`, `+` and `/`.
ghost use Rattle.std.specs.Prelude.{◌≡◌};
ghost use Rattle.reading.specs.Places.{Answers, AnswersWithin};
ghost use Rattle.names.specs.ZoneNames.{IsZoneName};
ghost use Rattle.names.specs.ZoneScanning.{is_first_of_zone_name, is_in_zone_name, zone_stepped, zone_ended, scan_zone_name, read_zone_name};

use crate::InForm;
use reading::{Misread, Scan, read, read_within};

// The most bytes of a zone's name.
pub const ZONE_NAME_LIMIT: usize = 32;

fn is_first_of_zone_name(byte: u8) -> bool
    ensures { result ≡ is_first_of_zone_name byte }
{
    byte.is_ascii_alphabetic() || matches!(byte, b'_' | b'.')
}

fn is_in_zone_name(byte: u8) -> bool
    ensures { result ≡ is_in_zone_name byte }
{
    byte.is_ascii_alphanumeric() || matches!(byte, b'.' | b'_' | b'-' | b'+' | b'/')
}

// How far a name has been read.
#[derive(Clone, Copy)]
pub enum ZoneProgress {
    // the name has to begin
    Begin,
    // past its first byte
    Inside,
}

impl Scan for ZoneProgress {
    type Value = InForm;

    ghost stepped = { zone_stepped };

    ghost ended = { zone_ended };

    fn step(self, _at: usize, byte: u8) -> Option<ZoneProgress> {
        match self {
            ZoneProgress::Begin if is_first_of_zone_name(byte) => Some(ZoneProgress::Inside),
            ZoneProgress::Inside if is_in_zone_name(byte) => Some(ZoneProgress::Inside),
            _ => None,
        }
    }

    fn end(self) -> Option<InForm> {
        match self {
            ZoneProgress::Begin => None,
            ZoneProgress::Inside => Some(InForm),
        }
    }
}

// Whether a name of any length has the form of zones' names, or where it goes wrong.
pub fn scan_zone_name(name: &[u8]) -> Result<InForm, Misread>
    ensures value { result ≡ scan_zone_name name.now }
    ensures grammar { Answers IsZoneName name.now result }
{
    read(ZoneProgress::Begin, name)
}

// Whether a zone's name is in form and not too long, or where it goes wrong.
pub fn read_zone_name(name: &[u8]) -> Result<InForm, Misread>
    ensures value { result ≡ read_zone_name name.now }
    ensures grammar { AnswersWithin IsZoneName 32 name.now result }
{
    read_within(ZoneProgress::Begin, name, ZONE_NAME_LIMIT)
}
