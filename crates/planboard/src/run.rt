// Lists of calls.
ghost use Rattle.std.specs.Prelude.{◌≡◌, [], ◌∷◌, IfOk, length};
ghost use Rattle.board_law.specs.Boards.{made, run as run_of, accepted};
ghost use Rattle.board_law.specs.Judging.{Judged};
ghost use Rattle.board_law.specs.Runs.{KeepsOn, SpansStayTrue, SpansAlwaysStayTrue};
ghost use Rattle.board_law.specs.Texts.{AllWrote};
ghost use Rattle.planboard.specs.Answers.{Answered, AnswerThere, Means};
ghost use Rattle.planboard.specs.Coded.{call_of, calls_of};
ghost use Rattle.planboard.specs.View.{view, sources, Same, sources_of};

use crate::board::Board;
use crate::call::{Answer, Call};
use calendar::source::CalendarSource;
use timebase::fault::Fault;
use zone::source::ZoneSource;

impl<'a, Z: ZoneSource, C: CalendarSource> Board<'a, Z, C> {
    // Makes one call by its method.
    fn make(&mut self, call: &Call<'_>, out: &mut [u8]) -> Result<Answer, Fault>
        ensures answer { Answered (sources Z.ZoneSource.zones C.CalendarSource.calendars self.old) (view self.old) (call_of (length out.old) call.now) out.old result out.new }
        ensures there { IfOk result (AnswerThere (sources Z.ZoneSource.zones C.CalendarSource.calendars self.old)) }
        ensures means { Means (sources Z.ZoneSource.zones C.CalendarSource.calendars self.old) (view self.old) (call_of (length out.old) call.now) out.old result out.new }
        ensures state { view self.new ≡ made (sources Z.ZoneSource.zones C.CalendarSource.calendars self.old) (view self.old) (call_of (length out.old) call.now) }
        ensures same { Same self.old self.new }
    {
        match *call {
            Call::Place { slot, text } => self.place(slot, text).map(Answer::Mark),
            Call::Lift { slot } => self.lift(slot).map(Answer::Lifted),
            Call::Enter { slot, text } => self.enter(slot, text).map(Answer::Span),
            Call::Measure {
                first,
                second,
                unit,
                span,
            } => self.measure(first, second, unit, span).map(Answer::Span),
            Call::Carry {
                first,
                span,
                target,
            } => self.carry(first, span, target).map(Answer::Mark),
            Call::Rezone { slot, name } => self.rezone(slot, name).map(Answer::Mark),
            Call::Recalendar { slot, name } => self.recalendar(slot, name).map(Answer::Mark),
            Call::WriteMark { slot } => self.write_mark(slot, out).map(Answer::Written),
            Call::WriteSpan { slot } => self.write_span(slot, out).map(Answer::Written),
            Call::List => self.list(out).map(Answer::Written),
        }
    }

    // Makes one call, and answers as its method does. A text goes to the start of the buffer; a refusal alters neither the board nor
    // the buffer. However the board came to what it holds, the spans that were measured stay true of their marks.
    pub fn call(&mut self, call: &Call<'_>, out: &mut [u8]) -> Result<Answer, Fault>
        ensures answer { Answered (sources Z.ZoneSource.zones C.CalendarSource.calendars self.old) (view self.old) (call_of (length out.old) call.now) out.old result out.new }
        ensures judged { Judged (sources Z.ZoneSource.zones C.CalendarSource.calendars self.old) (view self.old) (call_of (length out.old) call.now) result }
        ensures there { IfOk result (AnswerThere (sources Z.ZoneSource.zones C.CalendarSource.calendars self.old)) }
        ensures means { Means (sources Z.ZoneSource.zones C.CalendarSource.calendars self.old) (view self.old) (call_of (length out.old) call.now) out.old result out.new }
        ensures state { view self.new ≡ made (sources Z.ZoneSource.zones C.CalendarSource.calendars self.old) (view self.old) (call_of (length out.old) call.now) }
        ensures same { Same self.old self.new }
        ensures keeps { KeepsOn (sources Z.ZoneSource.zones C.CalendarSource.calendars self.old) (view self.old) (call_of (length out.old) call.now ∷ []) (view self.new) }
        ensures law { SpansStayTrue (sources Z.ZoneSource.zones C.CalendarSource.calendars self.old) }
    {
        self.make(call, out)
    }

    // Makes the calls in their order, and answers how many are accepted. The texts that they write go to the start of one buffer,
    // one over another. However the board came to what it holds, the spans that were measured stay true of their marks.
    pub fn run(&mut self, calls: &[Call<'_>], out: &mut [u8]) -> usize
        ensures answer { result ≡ accepted (sources Z.ZoneSource.zones C.CalendarSource.calendars self.old) (view self.old) (calls_of (length out.old) calls.now) }
        ensures state { view self.new ≡ run_of (sources Z.ZoneSource.zones C.CalendarSource.calendars self.old) (view self.old) (calls_of (length out.old) calls.now) }
        ensures buffer { AllWrote (sources Z.ZoneSource.zones C.CalendarSource.calendars self.old) (view self.old) (calls_of (length out.old) calls.now) out.old out.new }
        ensures same { Same self.old self.new }
        ensures keeps { KeepsOn (sources Z.ZoneSource.zones C.CalendarSource.calendars self.old) (view self.old) (calls_of (length out.old) calls.now) (view self.new) }
        ensures law { SpansStayTrue (sources Z.ZoneSource.zones C.CalendarSource.calendars self.old) }
    {
        let mut accepted = 0;
        for call in calls {
            if self.call(call, out).is_ok() {
                accepted += 1;
            }
        }
        accepted
    }
}

// Measured spans stay true through runs of calls, over every zone source and every calendar source. The function does nothing; its
// promise is the law.
pub fn spans_stay_true()
    ensures { SpansAlwaysStayTrue }
{}

// The same over two sources, whatever they are: what the law supposes of them, every source shows.
pub fn spans_stay_true_over<Z: ZoneSource, C: CalendarSource>(_zones: &Z, _calendars: &C)
    ensures { SpansStayTrue (sources_of (Z.ZoneSource.zones _zones.now) (C.CalendarSource.calendars _calendars.now)) }
{}
