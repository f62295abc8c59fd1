// Offsets from UTC.
ghost use Rattle.std.specs.Prelude.{◌≡◌};
ghost use Rattle.zone.specs.Offsets.{is_offset};

// The most seconds that a zone's clocks are ahead of UTC, or behind it.
pub const OFFSET_MOST: i32 = 86_399;

// Whether a zone may have this offset, in seconds.
pub fn is_offset(offset: i32) -> bool
    ensures { result ≡ is_offset offset }
{
    (-OFFSET_MOST..=OFFSET_MOST).contains(&offset)
}
