// The calls that put marks into slots and take them out.
ghost use Rattle.std.specs.Prelude.{◌≡◌, Some, None, IfOk};
ghost use Rattle.board_law.specs.Boards.{placed, lifted, carried, rezoned, recalendared, place, lift, carry, rezone, recalendar, made, put_mark, There};
ghost use Rattle.board_law.specs.Judging.{Judged};
ghost use Rattle.board_law.specs.Leaves.{MarkLeft};
ghost use Rattle.board_law.specs.Meanings.{PlaceAnswers, LiftAnswers, CarryAnswers, RezoneAnswers, RecalendarAnswers};
ghost use Rattle.board_law.specs.Runs.{LeadsTrue};
ghost use Rattle.planboard.specs.View.{view, sources, Same};

use crate::board::Board;
use crate::checks::on_shelf;
use calendar::source::CalendarSource;
use mark_text::mark::Mark;
use mark_text::read::read_mark;
use timebase::fault::Fault;
use zone::source::ZoneSource;

impl<'a, Z: ZoneSource, C: CalendarSource> Board<'a, Z, C> {
    // Gives a slot a mark, or empties it: the one way to alter a mark.
    fn store(&mut self, slot: usize, held: Option<Mark>)
        ensures state { view self.new ≡ put_mark (view self.old) slot held }
        ensures same { Same self.old self.new }
    {
        let _ = match held {
            Some(mark) => self.marks.put(slot, mark),
            None => self.marks.clear(slot),
        };
    }

    // The mark that a text says for a slot.
    fn mark_said(&self, slot: usize, text: &[u8]) -> Result<Mark, Fault>
        ensures { result ≡ placed (sources Z.ZoneSource.zones C.CalendarSource.calendars self.now) (view self.now) slot text.now }
    {
        on_shelf(slot, self.marks.len(), 0)?;
        read_mark(self.zones, self.calendars, text)
    }

    // Places the mark that a text says in a slot, and answers it. A refusal alters nothing; so with every call.
    pub fn place(&mut self, slot: usize, text: &[u8]) -> Result<Mark, Fault>
        ensures answer { result ≡ placed (sources Z.ZoneSource.zones C.CalendarSource.calendars self.old) (view self.old) slot text.now }
        ensures there { IfOk result (There (sources Z.ZoneSource.zones C.CalendarSource.calendars self.old)) }
        ensures state { view self.new ≡ made (sources Z.ZoneSource.zones C.CalendarSource.calendars self.old) (view self.old) (place slot text.now) }
        ensures law { MarkLeft (view self.old) slot Some result (view self.new) }
        ensures judged { Judged (sources Z.ZoneSource.zones C.CalendarSource.calendars self.old) (view self.old) (place slot text.now) result }
        ensures means { PlaceAnswers (sources Z.ZoneSource.zones C.CalendarSource.calendars self.old) (view self.old) slot text.now result }
        ensures same { Same self.old self.new }
    {
        let mark = self.mark_said(slot, text)?;
        self.store(slot, Some(mark));
        Ok(mark)
    }

    // The mark that is to be lifted from a slot.
    fn mark_to_lift(&self, slot: usize) -> Result<Mark, Fault>
        ensures { result ≡ lifted (sources Z.ZoneSource.zones C.CalendarSource.calendars self.now) (view self.now) slot }
    {
        on_shelf(slot, self.marks.len(), 0)?;
        self.read_mark(slot, 0)
    }

    // Lifts the mark from a slot, which is empty then, and answers it.
    pub fn lift(&mut self, slot: usize) -> Result<Mark, Fault>
        ensures answer { result ≡ lifted (sources Z.ZoneSource.zones C.CalendarSource.calendars self.old) (view self.old) slot }
        ensures there { IfOk result (There (sources Z.ZoneSource.zones C.CalendarSource.calendars self.old)) }
        ensures state { view self.new ≡ made (sources Z.ZoneSource.zones C.CalendarSource.calendars self.old) (view self.old) (lift slot) }
        ensures law { MarkLeft (view self.old) slot (λ _. None) result (view self.new) }
        ensures judged { Judged (sources Z.ZoneSource.zones C.CalendarSource.calendars self.old) (view self.old) (lift slot) result }
        ensures means { LiftAnswers (sources Z.ZoneSource.zones C.CalendarSource.calendars self.old) (view self.old) slot result }
        ensures same { Same self.old self.new }
    {
        let mark = self.mark_to_lift(slot)?;
        self.store(slot, None);
        Ok(mark)
    }

    // Where the mark in one slot is carried by the span in another, for a target slot.
    fn mark_carried(&self, first: usize, span: usize, target: usize) -> Result<Mark, Fault>
        ensures { result ≡ carried (sources Z.ZoneSource.zones C.CalendarSource.calendars self.now) (view self.now) first span target }
    {
        on_shelf(first, self.marks.len(), 0)?;
        on_shelf(span, self.spans.len(), 1)?;
        on_shelf(target, self.marks.len(), 2)?;
        let mark = self.read_mark(first, 0)?;
        let span = self.read_span(span, 1)?;
        let instant = self.setting_of(&mark).carry(mark.instant, &span)?;
        Ok(Mark { instant, ..mark })
    }

    // Carries the mark in one slot by the span in another into a target slot, in the mark's own zone and calendar, and answers it. By
    // a span that a call measured, while it and its two marks stand in their slots, it arrives at the second's instant.
    pub fn carry(&mut self, first: usize, span: usize, target: usize) -> Result<Mark, Fault>
        ensures answer { result ≡ carried (sources Z.ZoneSource.zones C.CalendarSource.calendars self.old) (view self.old) first span target }
        ensures there { IfOk result (There (sources Z.ZoneSource.zones C.CalendarSource.calendars self.old)) }
        ensures state { view self.new ≡ made (sources Z.ZoneSource.zones C.CalendarSource.calendars self.old) (view self.old) (carry first span target) }
        ensures law { MarkLeft (view self.old) target Some result (view self.new) }
        ensures leads { LeadsTrue (sources Z.ZoneSource.zones C.CalendarSource.calendars self.old) (view self.old) first span target result }
        ensures judged { Judged (sources Z.ZoneSource.zones C.CalendarSource.calendars self.old) (view self.old) (carry first span target) result }
        ensures means { CarryAnswers (sources Z.ZoneSource.zones C.CalendarSource.calendars self.old) (view self.old) first span target result }
        ensures same { Same self.old self.new }
    {
        let mark = self.mark_carried(first, span, target)?;
        self.store(target, Some(mark));
        Ok(mark)
    }

    // The mark in a slot, in the zone that bears a name.
    fn mark_rezoned(&self, slot: usize, name: &[u8]) -> Result<Mark, Fault>
        ensures { result ≡ rezoned (sources Z.ZoneSource.zones C.CalendarSource.calendars self.now) (view self.now) slot name.now }
    {
        on_shelf(slot, self.marks.len(), 0)?;
        let mark = self.read_mark(slot, 0)?;
        let zone = self.zone_named(name)?;
        // refused where the zone has no offset at the mark's instant, which stays
        self.zone_at(zone).arrive(mark.instant)?;
        Ok(Mark {
            zone: zone as u8,
            ..mark
        })
    }

    // Puts the mark in a slot into the zone that bears a name, at its instant, and answers it.
    pub fn rezone(&mut self, slot: usize, name: &[u8]) -> Result<Mark, Fault>
        ensures answer { result ≡ rezoned (sources Z.ZoneSource.zones C.CalendarSource.calendars self.old) (view self.old) slot name.now }
        ensures there { IfOk result (There (sources Z.ZoneSource.zones C.CalendarSource.calendars self.old)) }
        ensures state { view self.new ≡ made (sources Z.ZoneSource.zones C.CalendarSource.calendars self.old) (view self.old) (rezone slot name.now) }
        ensures law { MarkLeft (view self.old) slot Some result (view self.new) }
        ensures judged { Judged (sources Z.ZoneSource.zones C.CalendarSource.calendars self.old) (view self.old) (rezone slot name.now) result }
        ensures means { RezoneAnswers (sources Z.ZoneSource.zones C.CalendarSource.calendars self.old) (view self.old) slot name.now result }
        ensures same { Same self.old self.new }
    {
        let mark = self.mark_rezoned(slot, name)?;
        self.store(slot, Some(mark));
        Ok(mark)
    }

    // The mark in a slot, in the calendar that bears a name.
    fn mark_recalendared(&self, slot: usize, name: &[u8]) -> Result<Mark, Fault>
        ensures { result ≡ recalendared (sources Z.ZoneSource.zones C.CalendarSource.calendars self.now) (view self.now) slot name.now }
    {
        on_shelf(slot, self.marks.len(), 0)?;
        let mark = self.read_mark(slot, 0)?;
        let calendar = self.calendar_named(name)?;
        Ok(Mark {
            calendar: calendar as u8,
            ..mark
        })
    }

    // Puts the mark in a slot into the calendar that bears a name, at its instant, and answers it.
    pub fn recalendar(&mut self, slot: usize, name: &[u8]) -> Result<Mark, Fault>
        ensures answer { result ≡ recalendared (sources Z.ZoneSource.zones C.CalendarSource.calendars self.old) (view self.old) slot name.now }
        ensures there { IfOk result (There (sources Z.ZoneSource.zones C.CalendarSource.calendars self.old)) }
        ensures state { view self.new ≡ made (sources Z.ZoneSource.zones C.CalendarSource.calendars self.old) (view self.old) (recalendar slot name.now) }
        ensures law { MarkLeft (view self.old) slot Some result (view self.new) }
        ensures judged { Judged (sources Z.ZoneSource.zones C.CalendarSource.calendars self.old) (view self.old) (recalendar slot name.now) result }
        ensures means { RecalendarAnswers (sources Z.ZoneSource.zones C.CalendarSource.calendars self.old) (view self.old) slot name.now result }
        ensures same { Same self.old self.new }
    {
        let mark = self.mark_recalendared(slot, name)?;
        self.store(slot, Some(mark));
        Ok(mark)
    }
}
