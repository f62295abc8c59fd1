// The answer to a line.
ghost use Rattle.std.specs.Prelude.{◌≡◌, ◌≢◌, ◌≤◌, drop, Ok, IfOk, MatchOption};
ghost use Rattle.board_law.specs.Boards.{made, mark_slots};
ghost use Rattle.planboard.specs.Answers.{AnswerThere};
ghost use Rattle.planboard.specs.Coded.{call_of};
ghost use Rattle.planboard.specs.Lists.{PutsOne};
ghost use Rattle.planboard.specs.View.{view, sources, Same};
ghost use Rattle.script.specs.Scripts.{word_text, refusal_text, on_line, form_call, line_after, line_room, form_room, AnswerTold, FormAnswer, Answer as LineAnswer};
ghost use Rattle.writing.specs.Putting.{Puts};

use calendar::source::CalendarSource;
use line_form::line::{Line, read_line};
use planboard::board::Board;
use planboard::call::{Answer, Call};
use span_text::write::put_span;
use timebase::fault::{Fault, Told};
use writing::Writer;
use zone::source::ZoneSource;

// The room that an answer is given; for a list, that of each mark.
pub(crate) const LINE_ROOM: usize = 100;

// The room that the answer to a line is given, over a board of so many slots of marks.
pub(crate) fn line_room(slots: usize, line: &[u8]) -> usize
    requires { slots ≤ 256 }
    ensures value { result ≡ line_room slots line.now }
    ensures most { result ≤ 25600 }
{
    if line == b"list".as_slice() {
        LINE_ROOM * slots
    } else {
        LINE_ROOM
    }
}

// A line from a place on; nothing past its end.
fn from_place(line: &[u8], place: usize) -> &[u8]
    ensures { result.now ≡ drop place line.now }
{
    line.get(place..).unwrap_or_default()
}

// Puts a number after a space.
fn put_word(writer: &mut Writer, n: u64)
    ensures { Puts writer.old (word_text n) writer.new }
{
    writer.put_byte(b' ');
    writer.put_number(n);
}

// Puts what a refusal tells. It is no Display, which may fail by its contract, where this can't.
fn put_refusal(writer: &mut Writer, told: Told)
    ensures { PutsOne (λ t. t ≡ on_line (refusal_text told)) 100 writer.old writer.new }
{
    writer.put_bytes(b"no");
    put_word(writer, u64::from(told.number));
    // u64 has no From<usize>
    put_word(writer, told.place as u64);
    put_word(writer, u64::from(told.cause));
    put_word(writer, u64::from(told.depth));
    writer.put_byte(b'\n');
}

// Puts the line that tells what an accepted call answers.
fn put_accepted<Z: ZoneSource, C: CalendarSource>(
    writer: &mut Writer,
    board: &Board<'_, Z, C>,
    answer: Answer,
)
    requires { AnswerThere (sources Z.ZoneSource.zones C.CalendarSource.calendars board.now) answer }
    ensures { PutsOne (AnswerTold (sources Z.ZoneSource.zones C.CalendarSource.calendars board.now) (Ok answer)) 100 writer.old writer.new }
{
    match answer {
        Answer::Mark(mark) => {
            let _ = board.put_mark(writer, &mark);
            writer.put_byte(b'\n');
        }
        Answer::Lifted(_) => writer.put_bytes(b"lifted\n"),
        Answer::Span(span) => {
            put_span(writer, &span);
            writer.put_byte(b'\n');
        }
        Answer::Written(_) => {}
    }
}

// Puts the line that tells what a call answers.
fn put_answer<Z: ZoneSource, C: CalendarSource>(
    writer: &mut Writer,
    board: &Board<'_, Z, C>,
    answer: Result<Answer, Fault>,
)
    requires { IfOk answer (AnswerThere (sources Z.ZoneSource.zones C.CalendarSource.calendars board.now)) }
    ensures { PutsOne (AnswerTold (sources Z.ZoneSource.zones C.CalendarSource.calendars board.now) answer) 100 writer.old writer.new }
{
    match answer {
        Ok(answer) => put_accepted(writer, board, answer),
        Err(fault) => put_refusal(writer, fault.told()),
    }
}

// The call that a line in form says; none for `list`, which is put where the answers stand.
fn call_said(line: &[u8], form: Line) -> Option<Call<'_>>
    ensures { MatchOption result (form ≡ Line.List) (λ call. (call_of 0 call ≡ form_call line.now form) × (form ≢ Line.List)) }
{
    Some(match form {
        Line::Mark { slot, text } => Call::Place {
            slot: usize::from(slot),
            text: from_place(line, text),
        },
        Line::Lift { slot } => Call::Lift {
            slot: usize::from(slot),
        },
        Line::Span { slot, text } => Call::Enter {
            slot: usize::from(slot),
            text: from_place(line, text),
        },
        Line::Between {
            first,
            second,
            unit,
            span,
        } => Call::Measure {
            first: usize::from(first),
            second: usize::from(second),
            unit,
            span: usize::from(span),
        },
        Line::Carry {
            first,
            span,
            target,
        } => Call::Carry {
            first: usize::from(first),
            span: usize::from(span),
            target: usize::from(target),
        },
        Line::Zone { slot, name } => Call::Rezone {
            slot: usize::from(slot),
            name: from_place(line, name),
        },
        Line::Calendar { slot, name } => Call::Recalendar {
            slot: usize::from(slot),
            name: from_place(line, name),
        },
        Line::List => return None,
    })
}

// Makes the call of a line in form, and puts the answer.
fn answer_form<Z: ZoneSource, C: CalendarSource>(
    board: &mut Board<'_, Z, C>,
    line: &[u8],
    form: Line,
    writer: &mut Writer,
)
    ensures put { PutsOne (FormAnswer (sources Z.ZoneSource.zones C.CalendarSource.calendars board.old) (view board.old) line.now form) (form_room (mark_slots (view board.old)) form) writer.old writer.new }
    ensures state { view board.new ≡ made (sources Z.ZoneSource.zones C.CalendarSource.calendars board.old) (view board.old) (form_call line.now form) }
    ensures same { Same board.old board.new }
{
    match call_said(line, form) {
        Some(call) => {
            let answer = board.call(&call, &mut []);
            put_answer(writer, board, answer);
        }
        None => board.put_list(writer),
    }
}

// Makes the call that a line says, and puts the answer.
pub(crate) fn answer_line<Z: ZoneSource, C: CalendarSource>(
    board: &mut Board<'_, Z, C>,
    line: &[u8],
    writer: &mut Writer,
)
    ensures put { PutsOne (LineAnswer (sources Z.ZoneSource.zones C.CalendarSource.calendars board.old) (view board.old) line.now) (line_room (mark_slots (view board.old)) line.now) writer.old writer.new }
    ensures state { view board.new ≡ line_after (sources Z.ZoneSource.zones C.CalendarSource.calendars board.old) (view board.old) line.now }
    ensures same { Same board.old board.new }
{
    match read_line(line) {
        Ok(form) => answer_form(board, line, form, writer),
        Err(misread) => put_refusal(writer, Fault::from(misread).told()),
    }
}
