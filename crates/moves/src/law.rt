// The law of spans, said of every zone and every calendar.
ghost use Rattle.span_law.specs.Law.{SpansAreTrue, SpansTrueOver};

use calendar::source::CalendarSource;
use zone::source::ZoneSource;

// Whatever measuring answers is true: the span leads back to where it was measured to, its parts bear one sign, and it is the
// larger the farther it leads. The function does nothing; its promise is the law.
pub fn spans_are_true()
    ensures { SpansAreTrue }
{}

// The same of two sources, whatever they are: what the law supposes of a zone and a calendar, every source keeps.
pub fn spans_are_true_over<Z: ZoneSource, C: CalendarSource>(_zones: &Z, _calendars: &C)
    ensures { SpansTrueOver (Z.ZoneSource.zones _zones.now) (C.CalendarSource.calendars _calendars.now) }
{}
