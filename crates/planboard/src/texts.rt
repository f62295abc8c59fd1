// The calls that write texts into a buffer.
ghost use Rattle.std.specs.Prelude.{◌≡◌, length};
ghost use Rattle.board_law.specs.Boards.{mark_written, span_written, write_mark, write_span};
ghost use Rattle.board_law.specs.Judging.{Judged};
ghost use Rattle.board_law.specs.Meanings.{WriteMarkAnswers, WriteSpanAnswers};
ghost use Rattle.board_law.specs.Texts.{Wrote};
ghost use Rattle.planboard.specs.View.{view, sources};

use crate::board::Board;
use crate::checks::{on_shelf, roomy};
use calendar::source::CalendarSource;
use mark_text::mark::Mark;
use mark_text::write::write_mark;
use span_text::write::{ROOM, write_span};
use timebase::fault::Fault;
use timebase::span::Span;
use zone::source::ZoneSource;

impl<'a, Z: ZoneSource, C: CalendarSource> Board<'a, Z, C> {
    // The mark in a slot whose text is to be written to a buffer of a length.
    fn mark_to_write(&self, slot: usize, room: usize) -> Result<Mark, Fault>
        ensures { result ≡ mark_written (sources Z.ZoneSource.zones C.CalendarSource.calendars self.now) (view self.now) slot room }
    {
        on_shelf(slot, self.marks.len(), 0)?;
        let mark = self.read_mark(slot, 0)?;
        roomy(ROOM, room)?;
        Ok(mark)
    }

    // Writes the canonical text of the mark in a slot at the start of the buffer, and answers its length.
    pub fn write_mark(&self, slot: usize, out: &mut [u8]) -> Result<usize, Fault>
        ensures wrote { Wrote (sources Z.ZoneSource.zones C.CalendarSource.calendars self.now) (view self.now) (write_mark slot (length out.old)) out.old result out.new }
        ensures judged { Judged (sources Z.ZoneSource.zones C.CalendarSource.calendars self.now) (view self.now) (write_mark slot (length out.old)) result }
        ensures means { WriteMarkAnswers (sources Z.ZoneSource.zones C.CalendarSource.calendars self.now) (view self.now) slot out.old result out.new }
    {
        let mark = self.mark_to_write(slot, out.len())?;
        write_mark(self.zones, self.calendars, &mark, out)
    }

    // The span in a slot whose text is to be written to a buffer of a length.
    fn span_to_write(&self, slot: usize, room: usize) -> Result<Span, Fault>
        ensures { result ≡ span_written (sources Z.ZoneSource.zones C.CalendarSource.calendars self.now) (view self.now) slot room }
    {
        on_shelf(slot, self.spans.len(), 0)?;
        let span = self.read_span(slot, 0)?;
        roomy(ROOM, room)?;
        Ok(span)
    }

    // Writes the canonical text of the span in a slot at the start of the buffer, and answers its length.
    pub fn write_span(&self, slot: usize, out: &mut [u8]) -> Result<usize, Fault>
        ensures wrote { Wrote (sources Z.ZoneSource.zones C.CalendarSource.calendars self.now) (view self.now) (write_span slot (length out.old)) out.old result out.new }
        ensures judged { Judged (sources Z.ZoneSource.zones C.CalendarSource.calendars self.now) (view self.now) (write_span slot (length out.old)) result }
        ensures means { WriteSpanAnswers (sources Z.ZoneSource.zones C.CalendarSource.calendars self.now) (view self.now) slot out.old result out.new }
    {
        let span = self.span_to_write(slot, out.len())?;
        write_span(&span, out)
    }
}
