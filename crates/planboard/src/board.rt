// A board: what stands on its shelves.
ghost use Rattle.std.specs.Prelude.{◌≡◌, ◌≤◌, IfOk, IfSome};
ghost use Rattle.board_law.specs.Boards.{new_board, mark_at, mark_slots, span_at, filled, There};
ghost use Rattle.board_law.specs.Runs.{AllThere};
ghost use Rattle.planboard.specs.View.{view, sources, sources_of, mark_lender, span_lender};
ghost use Rattle.timebase.specs.Spans.{Enterable};

use calendar::source::CalendarSource;
use mark_text::mark::Mark;
use mark_text::write::is_there;
use shelf::Shelf;
use timebase::fault::Fault;
use timebase::span::Span;
use zone::source::ZoneSource;

// The most slots that a shelf of marks or of spans uses.
pub const SLOTS_MOST: usize = 256;

// A plan board: a shelf of marks and a shelf of spans, over the zones and the calendars of two sources. The host lends the memory,
// so a slot may hold any numbers at all: what no text can enter counts as empty wherever a slot is read.
#[derive(Drop)]
pub struct Board<'a, Z: ZoneSource, C: CalendarSource> {
    pub(crate) zones: &'a Z,
    pub(crate) calendars: &'a C,
    pub(crate) marks: Shelf<'a, Mark, SLOTS_MOST>,
    pub(crate) spans: Shelf<'a, Span, SLOTS_MOST>,
}

impl<'a, Z: ZoneSource, C: CalendarSource> Board<'a, Z, C> {
    // A board over two sources and the lent memory, with every slot empty.
    pub fn new(
        zones: &'a Z,
        calendars: &'a C,
        marks: &'a mut [Option<Mark>],
        spans: &'a mut [Option<Span>],
    ) -> Board<'a, Z, C>
        ensures state { view result ≡ new_board marks.old spans.old }
        ensures sources { sources Z.ZoneSource.zones C.CalendarSource.calendars result ≡ sources_of (Z.ZoneSource.zones zones.now) (C.CalendarSource.calendars calendars.now) }
        ensures lent { (mark_lender result ≡ marks.entry.ghost_name) × (span_lender result ≡ spans.entry.ghost_name) }
    {
        Board {
            zones,
            calendars,
            marks: Shelf::new(marks),
            spans: Shelf::new(spans),
        }
    }

    // How many slots of marks are in use.
    pub fn mark_slots(&self) -> usize
        ensures value { result ≡ mark_slots (view self.now) }
        ensures most { result ≤ 256 }
    {
        self.marks.len()
    }

    // The mark in a slot.
    pub fn mark(&self, slot: usize) -> Option<Mark>
        ensures value { result ≡ mark_at (sources Z.ZoneSource.zones C.CalendarSource.calendars self.now) (view self.now) slot }
        ensures there { IfSome result (There (sources Z.ZoneSource.zones C.CalendarSource.calendars self.now)) }
    {
        match self.marks.get(slot) {
            Some(mark) if is_there(self.zones, self.calendars, &mark) => Some(mark),
            _ => None,
        }
    }

    // The span in a slot.
    pub fn span(&self, slot: usize) -> Option<Span>
        ensures value { result ≡ span_at (view self.now) slot }
        ensures there { IfSome result Enterable }
    {
        match self.spans.get(slot) {
            Some(span) if span.wrong_part().is_none() => Some(span),
            _ => None,
        }
    }

    // The mark in a slot that a call reads; refused where the slot is empty, with which slot of the call it is.
    pub(crate) fn read_mark(&self, slot: usize, which: u8) -> Result<Mark, Fault>
        ensures value { result ≡ filled (mark_at (sources Z.ZoneSource.zones C.CalendarSource.calendars self.now) (view self.now) slot) which }
        ensures there { IfOk result (There (sources Z.ZoneSource.zones C.CalendarSource.calendars self.now)) }
    {
        self.mark(slot).ok_or(Fault::SlotEmpty { slot: which })
    }

    // The span in a slot that a call reads; refused likewise.
    pub(crate) fn read_span(&self, slot: usize, which: u8) -> Result<Span, Fault>
        ensures value { result ≡ filled (span_at (view self.now) slot) which }
        ensures there { IfOk result Enterable }
    {
        self.span(slot).ok_or(Fault::SlotEmpty { slot: which })
    }
}
