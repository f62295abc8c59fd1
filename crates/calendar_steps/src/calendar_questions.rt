// What a calendar says of its years, months and days, as the layers above ask it.
ghost use Rattle.std.specs.Prelude.{◌≡◌, ◌<◌, ◌≤◌, pos, negsuc, ◌≤ℤ◌, MatchOption};
ghost use Rattle.calendar.specs.Calendars.{year_there};
ghost use Rattle.span_law.specs.Standing.{Stands};
ghost use Rattle.calendar_steps.specs.Standing.{IsDated};

use crate::calendar_at::CalendarAt;
use crate::dated::Dated;
use calendar::source::CalendarSource;
use span_law::year_month::YearMonth;
use years::date::Date;

impl<'c, C: CalendarSource> CalendarAt<'c, C> {
    // The calendar of that number; none where the source has no such calendar.
    pub fn new(source: &'c C, number: usize) -> Option<CalendarAt<'c, C>>
        ensures { MatchOption result ((C.CalendarSource.calendars source.now).count ≤ number) (λ calendar. (calendar.source.now ≡ source.now) × (calendar.number ≡ number)) }
    {
        if number < source.count() {
            Some(CalendarAt { source, number })
        } else {
            None
        }
    }

    // The year of day 1.
    pub(crate) fn first_year(&self) -> i32
        ensures is { result ≡ ((C.CalendarSource.calendars self.now.source.now).calendar self.now.number).first }
        ensures low { negsuc 9999999 ≤ℤ result }
    {
        match self.source.first_year(self.number) {
            Some(year) => year,
            None => unreachable(),
        }
    }

    // The year of the last day.
    pub(crate) fn last_year(&self) -> i32
        ensures is { result ≡ ((C.CalendarSource.calendars self.now.source.now).calendar self.now.number).last }
        ensures high { result ≤ℤ pos 10000000 }
    {
        match self.source.last_year(self.number) {
            Some(year) => year,
            None => unreachable(),
        }
    }

    // Whether the calendar has a year of that number.
    pub(crate) fn has_year(&self, year: i32) -> bool
        ensures { result ≡ year_there ((C.CalendarSource.calendars self.now.source.now).calendar self.now.number) year }
    {
        (self.first_year()..=self.last_year()).contains(&year)
    }

    // How many months a year has.
    pub(crate) fn months_in(&self, year: i32) -> u8
        requires first { ((C.CalendarSource.calendars self.now.source.now).calendar self.now.number).first ≤ℤ year }
        requires last { year ≤ℤ ((C.CalendarSource.calendars self.now.source.now).calendar self.now.number).last }
        ensures is { result ≡ ((C.CalendarSource.calendars self.now.source.now).calendar self.now.number).months year }
        ensures few { (1 ≤ result) × (result ≤ 14) }
    {
        match self.source.months(self.number, year) {
            Some(months) => months,
            None => unreachable(),
        }
    }

    // How many days a month has.
    pub(crate) fn length_of(&self, at: YearMonth) -> u8
        requires { Stands ((C.CalendarSource.calendars self.now.source.now).calendar self.now.number) at.year at.month }
        ensures { result ≡ ((C.CalendarSource.calendars self.now.source.now).calendar self.now.number).size at.year at.month }
    {
        match self.source.length(self.number, at.year, at.month) {
            Some(length) => length,
            None => unreachable(),
        }
    }

    // The month of a year that is the twin of a date's month.
    pub(crate) fn twin_of(&self, of: Date, year: i32) -> u8
        requires stands { Stands ((C.CalendarSource.calendars self.now.source.now).calendar self.now.number) of.year of.month }
        requires first { ((C.CalendarSource.calendars self.now.source.now).calendar self.now.number).first ≤ℤ year }
        requires last { year ≤ℤ ((C.CalendarSource.calendars self.now.source.now).calendar self.now.number).last }
        ensures { result ≡ ((C.CalendarSource.calendars self.now.source.now).calendar self.now.number).twin of.year of.month year }
    {
        match self.source.twin(self.number, of.year, of.month, year) {
            Some(month) => month,
            None => unreachable(),
        }
    }

    // A day with its date.
    pub(crate) fn with_date(&self, number: u32) -> Dated
        requires first { 1 ≤ number }
        requires last { number ≤ 3652059 }
        ensures is { IsDated ((C.CalendarSource.calendars self.now.source.now).calendar self.now.number) result }
        ensures same { result.number ≡ number }
    {
        match self.source.date(self.number, number) {
            Some(date) => Dated { number, date },
            None => unreachable(),
        }
    }
}
