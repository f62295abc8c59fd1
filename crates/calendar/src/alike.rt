// Whether two sources can be told apart.
ghost use Rattle.std.specs.Prelude.{◌≡◌, true, Decides};
ghost use Rattle.calendar.specs.Questions.{Alike};

use crate::question::Question;
use crate::source::CalendarSource;

// Whether two sources answer a question alike. Sources of the same meaning always do, and so does one that is asked
// twice: nothing but the meaning shows in an answer.
pub fn answer_alike<P: CalendarSource, Q: CalendarSource>(
    first: &P,
    second: &Q,
    question: Question<'_>,
) -> bool
    ensures decides { Decides result (Alike (P.CalendarSource.calendars first.now) (Q.CalendarSource.calendars second.now) question.entry) }
    ensures law { P.CalendarSource.calendars first.now ≡ Q.CalendarSource.calendars second.now → result ≡ true }
{
    match question {
        Question::Count => first.count() == second.count(),
        Question::Name { calendar } => first.name(calendar) == second.name(calendar),
        Question::Find { name } => first.find(name) == second.find(name),
        Question::FirstYear { calendar } => {
            first.first_year(calendar) == second.first_year(calendar)
        }
        Question::LastYear { calendar } => first.last_year(calendar) == second.last_year(calendar),
        Question::Months { calendar, year } => {
            first.months(calendar, year) == second.months(calendar, year)
        }
        Question::Length {
            calendar,
            year,
            month,
        } => first.length(calendar, year, month) == second.length(calendar, year, month),
        Question::Date { calendar, day } => first.date(calendar, day) == second.date(calendar, day),
        Question::Day { calendar, date } => first.day(calendar, date) == second.day(calendar, date),
        Question::Twin {
            calendar,
            year,
            month,
            other,
        } => {
            first.twin(calendar, year, month, other) == second.twin(calendar, year, month, other)
        }
    }
}
