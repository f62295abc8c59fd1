// Running a whole script.
ghost use Rattle.std.specs.Prelude.{◌≡◌, ◌≤◌, length, take};
ghost use Rattle.board_law.specs.Boards.{mark_slots, run as run_of};
ghost use Rattle.board_law.specs.Runs.{KeepsOn, SpansStayTrue};
ghost use Rattle.planboard.specs.View.{view, sources, Same};
ghost use Rattle.script.specs.Scripts.{lines_of, room_of, script_lines, script_calls, Ran};

use crate::answers::{answer_line, line_room};
use crate::lines::Lines;
use calendar::source::CalendarSource;
use planboard::board::Board;
use timebase::fault::Fault;
use writing::Writer;
use zone::source::ZoneSource;

// The most bytes of a script; what comes after them doesn't count.
pub const SCRIPT_LIMIT: usize = 16_384;

// The bytes of the input that count.
fn script_of(input: &[u8]) -> &[u8]
    ensures value { result.now ≡ take 16384 input.now }
    ensures small { length result.now ≤ 16384 }
{
    &input[..input.len().min(SCRIPT_LIMIT)]
}

// The room that the lines of a script are given, over a board of so many slots of marks.
fn room_of_lines(slots: usize, script: &[u8]) -> usize
    requires slots { slots ≤ 256 }
    requires small { length script.now ≤ 16384 }
    ensures { result ≡ room_of slots (lines_of script.now) }
{
    let mut room = 0;
    for line in (Lines { left: script }) {
        room += line_room(slots, line);
    }
    room
}

// The room that a script's answers are given: a buffer for `run_script` has to have as much.
pub fn room_for<Z: ZoneSource, C: CalendarSource>(board: &Board<'_, Z, C>, input: &[u8]) -> usize
    ensures { result ≡ room_of (mark_slots (view board.now)) (script_lines input.now) }
{
    room_of_lines(board.mark_slots(), script_of(input))
}

// Runs a script: makes the call of each line, puts the answers into the buffer, and answers their length. A buffer without the
// room is refused, and nothing is altered then. However the board came to what it holds, the spans that were measured stay true
// of their marks.
pub fn run_script<Z: ZoneSource, C: CalendarSource>(
    board: &mut Board<'_, Z, C>,
    input: &[u8],
    out: &mut [u8],
) -> Result<usize, Fault>
    ensures answers { Ran (sources Z.ZoneSource.zones C.CalendarSource.calendars board.old) (view board.old) (mark_slots (view board.old)) input.now out.old result out.new }
    ensures state { view board.new ≡ run_of (sources Z.ZoneSource.zones C.CalendarSource.calendars board.old) (view board.old) (script_calls (mark_slots (view board.old)) input.now out.old) }
    ensures same { Same board.old board.new }
    ensures keeps { KeepsOn (sources Z.ZoneSource.zones C.CalendarSource.calendars board.old) (view board.old) (script_calls (mark_slots (view board.old)) input.now out.old) (view board.new) }
    ensures law { SpansStayTrue (sources Z.ZoneSource.zones C.CalendarSource.calendars board.old) }
{
    if out.len() < room_for(board, input) {
        return Err(Fault::BufferSmall);
    }
    let mut writer = Writer { out, at: 0 };
    let lines = Lines {
        left: script_of(input),
    };
    for line in lines {
        answer_line(board, line, &mut writer);
    }
    Ok(writer.at)
}
