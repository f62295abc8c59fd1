// The law of spans, of the board's own sources.
ghost use Rattle.board_sources.specs.Sources.{board_zones, board_calendars};
ghost use Rattle.span_law.specs.Law.{SpansTrueOver};

use crate::calendars::calendars;
use crate::zones::zones;
use moves::law::spans_are_true_over;

// Over the zones and calendars of `board`, whatever its two files hold, every span that measuring answers is true. Nothing is
// left to suppose.
pub fn own_spans_are_true(one: &[u8], two: &[u8])
    ensures { SpansTrueOver (board_zones one.now two.now) board_calendars }
{
    spans_are_true_over(&zones(one, two), &calendars());
}
