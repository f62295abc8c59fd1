// The bytes of which mark texts are made.
ghost use Rattle.std.specs.Prelude.{◌≡◌};
ghost use Rattle.names.specs.Scanning.{is_letter_or_digit};
ghost use Rattle.names.specs.ZoneScanning.{is_first_of_zone_name, is_in_zone_name};
ghost use Rattle.mark_form.specs.Bytes.{is_first_of_key, is_in_key, stands, matched, is_matched};

// The key of the tag that names a calendar.
const CALENDAR_KEY: [u8; 4] = *b"u-ca";

// Whether a zone's name can begin with this byte.
pub(crate) fn is_first_of_name(byte: u8) -> bool
    ensures { result ≡ is_first_of_zone_name byte }
{
    byte.is_ascii_alphabetic() || matches!(byte, b'_' | b'.')
}

// Whether this byte can stand in a zone's name.
pub(crate) fn is_in_name(byte: u8) -> bool
    ensures { result ≡ is_in_zone_name byte }
{
    byte.is_ascii_alphanumeric() || matches!(byte, b'.' | b'_' | b'-' | b'+' | b'/')
}

// Whether a tag's key can begin with this byte.
pub(crate) fn is_first_of_key(byte: u8) -> bool
    ensures { result ≡ is_first_of_key byte }
{
    matches!(byte, b'a'..=b'z' | b'_')
}

// Whether this byte can stand in a tag's key.
pub(crate) fn is_in_key(byte: u8) -> bool
    ensures { result ≡ is_in_key byte }
{
    matches!(byte, b'a'..=b'z' | b'0'..=b'9' | b'_' | b'-')
}

// Whether this byte can stand in a run of a tag's value.
pub(crate) fn is_in_run(byte: u8) -> bool
    ensures { result ≡ is_letter_or_digit byte }
{
    byte.is_ascii_alphanumeric()
}

// Whether a byte stands where a form has that kind: `0` is for any digit, another byte for itself.
pub(crate) fn stands_for(kind: u8, byte: u8) -> bool
    ensures { result ≡ stands kind byte }
{
    match kind {
        b'0' => byte.is_ascii_digit(),
        _ => byte == kind,
    }
}

// How many bytes of `u-ca` a key has matched after one byte more, or none where it is another key.
pub(crate) fn match_more(so_far: Option<usize>, byte: u8) -> Option<usize>
    ensures { result ≡ matched so_far byte }
{
    match so_far {
        Some(k) if k < CALENDAR_KEY.len() && byte == CALENDAR_KEY[k] => Some(k + 1),
        _ => None,
    }
}

// Whether a key that has matched so much is `u-ca`.
pub(crate) fn is_calendar_key(so_far: Option<usize>) -> bool
    ensures { result ≡ is_matched so_far }
{
    so_far == Some(CALENDAR_KEY.len())
}
