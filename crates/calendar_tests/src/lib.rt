// Examples, as tests: the two calendars side by side, as a board has them.
#![tactic(auto)]

#[cfg(test)]
mod tests {
    use calendar::beside::Beside;
    use calendar::named::Named;
    use calendar::order::comes_before;
    use calendar::single::Single;
    use calendar::source::CalendarSource;
    use hebrew::Hebrew;
    use iso8601::Iso8601;
    use years::date::Date;

    fn both() -> Beside<Single<Iso8601>, Single<Hebrew>> {
        Beside {
            first: Single {
                name: Named::new(b"iso8601"),
                rule: Iso8601,
            },
            second: Single {
                name: Named::new(b"hebrew"),
                rule: Hebrew,
            },
        }
    }

    fn date(year: i32, month: u8, day: u8) -> Date {
        Date { year, month, day }
    }

    #[test]
    fn names_are_found(rt: HostRuntime) {
        let source = both();
        assert!(rt; source.count() == 2);
        assert!(rt; source.find(b"iso8601") == Some(0) && source.find(b"hebrew") == Some(1));
        assert!(rt; source.find(b"coptic") == None);
    }

    #[test]
    fn days_have_dates(rt: HostRuntime) {
        let source = both();
        assert!(rt; source.date(0, 730_120) == Some(date(2000, 1, 1)));
        assert!(rt; source.date(1, 730_120) == Some(date(5760, 4, 23)));
        assert!(rt; source.date(0, 0).is_none() && source.date(2, 1).is_none());
        assert!(rt; source.day(1, date(5760, 4, 23)) == Some(730_120));
    }

    #[test]
    fn months_have_twins(rt: HostRuntime) {
        let source = both();
        assert!(rt; source.months(1, 5784) == Some(13) && source.months(1, 5785) == Some(12));
        assert!(rt;
            source.twin(1, 5784, 7, 5785) == Some(6) && source.twin(1, 5785, 6, 5784) == Some(7)
        );
        assert!(rt; source.twin(1, 5785, 13, 5784) == None);
    }

    #[test]
    fn name_out_of_form_leaves_none(rt: HostRuntime) {
        let source = Single {
            name: Named::new(b"iso--8601"),
            rule: Iso8601,
        };
        assert!(rt; source.count() == 0 && source.date(0, 1).is_none());
    }

    #[test]
    fn dates_are_in_order(rt: HostRuntime) {
        let source = both();
        let first = date(1999, 12, 31);
        let second = date(2000, 1, 1);
        assert!(rt; comes_before(&source, 0, first, second) == Some(true));
        assert!(rt; comes_before(&source, 0, second, first) == Some(false));
    }
}
