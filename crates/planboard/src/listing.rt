// Listing the marks.
ghost use Rattle.std.specs.Prelude.{◌≡◌, ◌≤◌, is_some, length};
ghost use Rattle.board_law.specs.Boards.{mark_slots, marks_there, kept, list_marks, is_there as is_held, There};
ghost use Rattle.board_law.specs.Judging.{Judged};
ghost use Rattle.board_law.specs.Meanings.{ListAnswers};
ghost use Rattle.board_law.specs.Texts.{Wrote};
ghost use Rattle.shelf.specs.Slots.{slot_at};
ghost use Rattle.planboard.specs.Lists.{ListPut, LinePut, MarkPut};
ghost use Rattle.planboard.specs.View.{view, sources};

use crate::board::Board;
use crate::checks::roomy;
use calendar::source::CalendarSource;
use mark_text::mark::Mark;
use mark_text::write::{is_there, put_mark};
use timebase::fault::Fault;
use writing::Writer;
use zone::source::ZoneSource;

// The room that a list is given for each mark; no line is longer than 97 bytes.
pub const LIST_ROOM: usize = 100;

impl<'a, Z: ZoneSource, C: CalendarSource> Board<'a, Z, C> {
    // Whether a slot's memory holds a mark that is there.
    fn is_filled(&self, slot: &Option<Mark>) -> bool
        ensures { result ≡ is_some (kept (is_held (sources Z.ZoneSource.zones C.CalendarSource.calendars self.now)) slot.now) }
    {
        match slot {
            Some(mark) => is_there(self.zones, self.calendars, mark),
            None => false,
        }
    }

    // Puts the canonical text of a mark, as much of it as fits; nothing where the mark isn't there. The answer is whether it is.
    pub fn put_mark(&self, writer: &mut Writer, mark: &Mark) -> bool
        ensures value { result ≡ is_held (sources Z.ZoneSource.zones C.CalendarSource.calendars self.now) mark.now }
        ensures absent { (There (sources Z.ZoneSource.zones C.CalendarSource.calendars self.now) mark.now → ⊥) → writer.new ≡ writer.old }
        ensures there { There (sources Z.ZoneSource.zones C.CalendarSource.calendars self.now) mark.now → MarkPut (sources Z.ZoneSource.zones C.CalendarSource.calendars self.now) mark.now writer.old writer.new }
    {
        put_mark(writer, self.zones, self.calendars, mark)
    }

    // How many slots hold a mark that is there.
    pub fn count_marks(&self) -> usize
        ensures value { result ≡ marks_there (sources Z.ZoneSource.zones C.CalendarSource.calendars self.now) (view self.now) }
        ensures most { result ≤ mark_slots (view self.now) }
    {
        let mut count = 0;
        for slot in self.marks.slots() {
            if self.is_filled(slot) {
                count += 1;
            }
        }
        count
    }

    // Puts the line of a slot, if its mark is there.
    fn put_line(&self, writer: &mut Writer, slot: usize, held: &Option<Mark>)
        requires { held.now ≡ slot_at 256 (view self.now).marks slot }
        ensures { LinePut (sources Z.ZoneSource.zones C.CalendarSource.calendars self.now) (view self.now) slot writer.old writer.new }
    {
        let Some(mark) = held else { return };
        if !is_there(self.zones, self.calendars, mark) {
            return;
        }
        // u64 has no From<usize>
        writer.put_number(slot as u64);
        writer.put_byte(b' ');
        let _ = self.put_mark(writer, mark);
        writer.put_byte(b'\n');
    }

    // Puts a line `N TEXT` for each mark that is there, as much of the list as fits: a piece of a longer text.
    pub fn put_list(&self, writer: &mut Writer)
        ensures { ListPut (sources Z.ZoneSource.zones C.CalendarSource.calendars self.now) (view self.now) writer.old writer.new }
    {
        for (k, slot) in self.marks.slots().iter().enumerate() {
            self.put_line(writer, k, slot);
        }
    }

    // Lists the marks at the start of the buffer, a line `N TEXT` for each that is there, and answers the list's length.
    pub fn list(&self, out: &mut [u8]) -> Result<usize, Fault>
        ensures wrote { Wrote (sources Z.ZoneSource.zones C.CalendarSource.calendars self.now) (view self.now) (list_marks (length out.old)) out.old result out.new }
        ensures judged { Judged (sources Z.ZoneSource.zones C.CalendarSource.calendars self.now) (view self.now) (list_marks (length out.old)) result }
        ensures means { ListAnswers (sources Z.ZoneSource.zones C.CalendarSource.calendars self.now) (view self.now) out.old result out.new }
    {
        roomy(LIST_ROOM * self.count_marks(), out.len())?;
        let mut writer = Writer { out, at: 0 };
        self.put_list(&mut writer);
        Ok(writer.at)
    }
}
