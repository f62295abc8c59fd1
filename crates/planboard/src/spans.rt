// The calls that put spans into slots.
ghost use Rattle.std.specs.Prelude.{◌≡◌, Some, IfOk};
ghost use Rattle.board_law.specs.Boards.{entered, between, measured, enter, measure, made, put_span};
ghost use Rattle.board_law.specs.Judging.{Judged};
ghost use Rattle.board_law.specs.Leaves.{SpanLeft};
ghost use Rattle.board_law.specs.Meanings.{EnterAnswers, MeasureAnswers};
ghost use Rattle.board_law.specs.Runs.{TrueHere};
ghost use Rattle.planboard.specs.View.{view, sources, Same};
ghost use Rattle.timebase.specs.Spans.{Enterable};

use crate::board::Board;
use crate::checks::on_shelf;
use calendar::source::CalendarSource;
use span_law::unit::Unit;
use span_text::read::read_span;
use timebase::fault::Fault;
use timebase::span::Span;
use zone::source::ZoneSource;

impl<'a, Z: ZoneSource, C: CalendarSource> Board<'a, Z, C> {
    // Gives a slot a span: the one way to alter a span.
    fn store_span(&mut self, slot: usize, span: Span)
        ensures state { view self.new ≡ put_span (view self.old) slot (Some span) }
        ensures same { Same self.old self.new }
    {
        let _ = self.spans.put(slot, span);
    }

    // The span that a text says for a slot.
    fn span_said(&self, slot: usize, text: &[u8]) -> Result<Span, Fault>
        ensures { result ≡ entered (sources Z.ZoneSource.zones C.CalendarSource.calendars self.now) (view self.now) slot text.now }
    {
        on_shelf(slot, self.spans.len(), 0)?;
        read_span(text)
    }

    // Enters the span that a text says into a slot, and answers it.
    pub fn enter(&mut self, slot: usize, text: &[u8]) -> Result<Span, Fault>
        ensures answer { result ≡ entered (sources Z.ZoneSource.zones C.CalendarSource.calendars self.old) (view self.old) slot text.now }
        ensures there { IfOk result Enterable }
        ensures state { view self.new ≡ made (sources Z.ZoneSource.zones C.CalendarSource.calendars self.old) (view self.old) (enter slot text.now) }
        ensures law { SpanLeft (view self.old) slot Some result (view self.new) }
        ensures judged { Judged (sources Z.ZoneSource.zones C.CalendarSource.calendars self.old) (view self.old) (enter slot text.now) result }
        ensures means { EnterAnswers (sources Z.ZoneSource.zones C.CalendarSource.calendars self.old) (view self.old) slot text.now result }
        ensures same { Same self.old self.new }
    {
        let span = self.span_said(slot, text)?;
        self.store_span(slot, span);
        Ok(span)
    }

    // The span by a unit from the mark in one slot to that in another, over the first's zone and calendar.
    fn between(&self, first: usize, second: usize, unit: Unit) -> Result<Span, Fault>
        ensures { result ≡ between (sources Z.ZoneSource.zones C.CalendarSource.calendars self.now) (view self.now).marks first second unit }
    {
        let from = self.read_mark(first, 0)?;
        let to = self.read_mark(second, 1)?;
        self.setting_of(&from)
            .measure(unit, from.instant, to.instant)
    }

    // The same for a span's slot.
    fn span_measured(
        &self,
        first: usize,
        second: usize,
        unit: Unit,
        span: usize,
    ) -> Result<Span, Fault>
        ensures { result ≡ measured (sources Z.ZoneSource.zones C.CalendarSource.calendars self.now) (view self.now) first second unit span }
    {
        on_shelf(first, self.marks.len(), 0)?;
        on_shelf(second, self.marks.len(), 1)?;
        on_shelf(span, self.spans.len(), 2)?;
        self.between(first, second, unit)
    }

    // Measures the span by a unit from the mark in one slot to that in another, over the first's zone and calendar, into a span's
    // slot, and answers it. What it leaves is true of the two marks: carried from the first, it arrives at the second's instant.
    pub fn measure(
        &mut self,
        first: usize,
        second: usize,
        unit: Unit,
        span: usize,
    ) -> Result<Span, Fault>
        ensures answer { result ≡ measured (sources Z.ZoneSource.zones C.CalendarSource.calendars self.old) (view self.old) first second unit span }
        ensures there { IfOk result Enterable }
        ensures state { view self.new ≡ made (sources Z.ZoneSource.zones C.CalendarSource.calendars self.old) (view self.old) (measure first second unit span) }
        ensures law { SpanLeft (view self.old) span Some result (view self.new) }
        ensures stays { IfOk result (λ s. TrueHere (sources Z.ZoneSource.zones C.CalendarSource.calendars self.old) (view self.new) first second span unit s) }
        ensures judged { Judged (sources Z.ZoneSource.zones C.CalendarSource.calendars self.old) (view self.old) (measure first second unit span) result }
        ensures means { MeasureAnswers (sources Z.ZoneSource.zones C.CalendarSource.calendars self.old) (view self.old) first second unit span result }
        ensures same { Same self.old self.new }
    {
        let measured = self.span_measured(first, second, unit, span)?;
        self.store_span(span, measured);
        Ok(measured)
    }
}
