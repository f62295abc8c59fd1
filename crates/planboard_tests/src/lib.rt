// Examples, as tests: what is refused alters nothing, and what is written leaves the rest as it was.
#![tactic(auto)]

#[cfg(test)]
mod tests {
    use board_sources::calendars::calendars;
    use board_sources::zones::zones;
    use calendar::named::Named;
    use calendar::single::Single;
    use hebrew::Hebrew;
    use mark_text::mark::Mark;
    use planboard::board::Board;
    use planboard::call::{Answer, Call};
    use script::run::run_script;
    use shelf::Shelf;
    use span_law::unit::Unit;
    use span_text::write::write_span;
    use std::test::Fail;
    use timebase::fault::Fault;
    use timebase::span::{Part, Span};

    const HOUR_AND_A_HALF: Span = Span {
        years: 0,
        months: 0,
        weeks: 0,
        days: 0,
        time: 5_400_000_000,
    };

    #[test]
    fn writes_and_leaves_the_rest(rt: HostRuntime) {
        let mut out = [b'#'; 96];
        assert!(rt; write_span(&HOUR_AND_A_HALF, &mut out).is_ok());
        assert!(rt; &out[0..9] == b"PT1H30M##".as_slice());
    }

    #[test]
    fn small_buffer_is_refused(rt: HostRuntime) {
        let mut out = [b'#'; 95];
        assert!(rt;
            matches!(
                write_span(&HOUR_AND_A_HALF, &mut out),
                Err(Fault::BufferSmall)
            )
        );
        assert!(rt; out == [b'#'; 95]);
    }

    #[test]
    fn two_signs_are_refused(rt: HostRuntime) -> Result<(), Fail> {
        let mut out = [b'#'; 96];
        let span = Span {
            days: -1,
            ..HOUR_AND_A_HALF
        };
        let Err(fault) = write_span(&span, &mut out) else {
            return Err(Fail::new("written"));
        };
        let told = fault.told();
        assert!(rt; told.number == 8 && told.place == 4);
        Ok(())
    }

    #[test]
    fn shelf_keeps_to_its_cap(rt: HostRuntime) {
        let mut memory = [Some(7u8); 3];
        let mut shelf: Shelf<u8, 2> = Shelf::new(&mut memory);
        assert!(rt; shelf.put(1, 9) && !shelf.put(2, 9));
        assert!(rt; shelf.get(1) == Some(9) && shelf.get(2) == None);
        assert!(rt; memory == [None, Some(9), Some(7)]);
    }

    const NOON: &[u8] = b"2024-02-29T12:00:00Z[UTC]";

    #[test]
    fn list_asks_for_a_hundred_bytes_a_mark(rt: HostRuntime) -> Result<(), Fail> {
        let (zones, calendars) = (zones(b"", b""), calendars());
        let mut marks = [None; 3];
        let mut spans = [None; 1];
        let mut board = Board::new(&zones, &calendars, &mut marks, &mut spans);
        assert!(rt; board.place(1, NOON).is_ok());
        let mut out = [b'#'; 100];
        assert!(rt; matches!(board.list(&mut out[..99]), Err(Fault::BufferSmall)));
        assert!(rt; out == [b'#'; 100]);
        let Ok(length) = board.list(&mut out) else {
            return Err(Fail::new("no room"));
        };
        assert!(rt; out.get(..length) == Some(b"1 2024-02-29T12:00:00+00:00[UTC]\n".as_slice()));
        Ok(())
    }

    #[test]
    fn script_without_room_is_refused(rt: HostRuntime) {
        let (zones, calendars) = (zones(b"", b""), calendars());
        let mut marks = [None; 2];
        let mut spans = [None; 2];
        let mut board = Board::new(&zones, &calendars, &mut marks, &mut spans);
        let mut out = [b'#'; 299];
        assert!(rt;
            matches!(
                run_script(&mut board, b"span 0 PT1S\nlist", &mut out),
                Err(Fault::BufferSmall)
            )
        );
        assert!(rt; out == [b'#'; 299]);
    }

    // Each kind of call as a value on a board with a mark in slot 0 alone, and what it is refused by: slots of the call count from 0.
    const REFUSED: [(Call<'static>, Fault); 24] = [
        (
            Call::Place {
                slot: 2,
                text: NOON,
            },
            Fault::SlotOff { slot: 0 },
        ),
        (
            Call::Place {
                slot: 1,
                text: b"2024-02-30T12:00:00Z[UTC]",
            },
            Fault::NoSuchField { at: 8 },
        ),
        (Call::Lift { slot: 2 }, Fault::SlotOff { slot: 0 }),
        (Call::Lift { slot: 1 }, Fault::SlotEmpty { slot: 0 }),
        (
            Call::Enter {
                slot: 2,
                text: b"P1D",
            },
            Fault::SlotOff { slot: 0 },
        ),
        (
            Call::Enter {
                slot: 0,
                text: b"P1Y2",
            },
            Fault::Unreadable { at: 4 },
        ),
        (
            Call::Enter {
                slot: 0,
                text: b"P1Y4000001D",
            },
            Fault::PastLimit { part: Part::Days },
        ),
        (
            Call::Measure {
                first: 1,
                second: 2,
                unit: Unit::Day,
                span: 2,
            },
            Fault::SlotOff { slot: 1 },
        ),
        (
            Call::Measure {
                first: 1,
                second: 0,
                unit: Unit::Day,
                span: 2,
            },
            Fault::SlotOff { slot: 2 },
        ),
        (
            Call::Measure {
                first: 1,
                second: 1,
                unit: Unit::Day,
                span: 0,
            },
            Fault::SlotEmpty { slot: 0 },
        ),
        (
            Call::Measure {
                first: 0,
                second: 1,
                unit: Unit::Day,
                span: 0,
            },
            Fault::SlotEmpty { slot: 1 },
        ),
        (
            Call::Carry {
                first: 1,
                span: 2,
                target: 2,
            },
            Fault::SlotOff { slot: 1 },
        ),
        (
            Call::Carry {
                first: 1,
                span: 0,
                target: 2,
            },
            Fault::SlotOff { slot: 2 },
        ),
        (
            Call::Carry {
                first: 1,
                span: 0,
                target: 1,
            },
            Fault::SlotEmpty { slot: 0 },
        ),
        (
            Call::Carry {
                first: 0,
                span: 1,
                target: 1,
            },
            Fault::SlotEmpty { slot: 1 },
        ),
        (
            Call::Carry {
                first: 0,
                span: 0,
                target: 1,
            },
            Fault::InstantOut,
        ),
        (
            Call::Rezone {
                slot: 1,
                name: b"UTC",
            },
            Fault::SlotEmpty { slot: 0 },
        ),
        (
            Call::Rezone {
                slot: 0,
                name: b"UTC-",
            },
            Fault::UnknownZone { at: 0 },
        ),
        (
            Call::Rezone {
                slot: 0,
                name: b"Site/One",
            },
            Fault::Blank { cause: 1, depth: 2 },
        ),
        (
            Call::Recalendar {
                slot: 2,
                name: b"hebrew",
            },
            Fault::SlotOff { slot: 0 },
        ),
        (
            Call::Recalendar {
                slot: 0,
                name: b"hebrew-",
            },
            Fault::Unreadable { at: 7 },
        ),
        (
            Call::Recalendar {
                slot: 0,
                name: b"julian",
            },
            Fault::UnknownCalendar { at: 0 },
        ),
        (Call::WriteMark { slot: 1 }, Fault::SlotEmpty { slot: 0 }),
        (Call::WriteSpan { slot: 1 }, Fault::SlotEmpty { slot: 0 }),
    ];

    #[test]
    fn each_refused_call_tells_why_and_alters_nothing(rt: HostRuntime) -> Result<(), Fail> {
        let (zones, calendars) = (zones(b"", b""), calendars());
        let mut marks = [None; 2];
        let mut spans = [None; 2];
        let mut board = Board::new(&zones, &calendars, &mut marks, &mut spans);
        let mut out = [b'#'; 99];
        assert!(rt; board.place(0, NOON).is_ok());
        assert!(rt; board.enter(0, b"PT111111111H").is_ok());
        let (mark, span) = (board.mark(0), board.span(0));
        for (call, fault) in &REFUSED {
            assert!(rt; board.call(call, &mut out) == Err(*fault));
        }
        let mut short = [b'#'; 95];
        for call in &[
            Call::WriteMark { slot: 0 },
            Call::WriteSpan { slot: 0 },
            Call::List,
        ] {
            assert!(rt; board.call(call, &mut short) == Err(Fault::BufferSmall));
        }
        assert!(rt; board.call(&Call::List, &mut out) == Err(Fault::BufferSmall));
        assert!(rt; out == [b'#'; 99] && short == [b'#'; 95]);
        assert!(rt; board.mark(0) == mark && board.mark(1) == None);
        assert!(rt; board.span(0) == span && board.span(1) == None);
        Ok(())
    }

    #[test]
    fn each_accepted_call_answers(rt: HostRuntime) -> Result<(), Fail> {
        let (zones, calendars) = (zones(b"", b""), calendars());
        let mut marks = [None; 2];
        let mut spans = [None; 1];
        let mut board = Board::new(&zones, &calendars, &mut marks, &mut spans);
        let mut out = [b'#'; 100];
        // 2024-02-29 and a year and a day later, in seconds
        let noon = Mark {
            instant: 1_709_208_000_000_000,
            zone: 0,
            calendar: 0,
        };
        let later = Mark {
            instant: 1_740_830_400_000_000,
            ..noon
        };
        let day = Span {
            years: 0,
            months: 0,
            weeks: 0,
            days: 1,
            time: 0,
        };
        let year_and_a_day = Span { years: 1, ..day };
        let text = b"2025-03-01T12:00:00Z[UTC]";
        let accepted = [
            (
                Call::Place {
                    slot: 0,
                    text: NOON,
                },
                Answer::Mark(noon),
            ),
            (Call::Place { slot: 1, text }, Answer::Mark(later)),
            (
                Call::Enter {
                    slot: 0,
                    text: b"P1D",
                },
                Answer::Span(day),
            ),
            (Call::WriteSpan { slot: 0 }, Answer::Written(3)),
            (
                Call::Measure {
                    first: 0,
                    second: 1,
                    unit: Unit::Year,
                    span: 0,
                },
                Answer::Span(year_and_a_day),
            ),
            (
                Call::Carry {
                    first: 0,
                    span: 0,
                    target: 0,
                },
                Answer::Mark(later),
            ),
            (
                Call::Rezone {
                    slot: 0,
                    name: b"Test/H",
                },
                Answer::Mark(Mark { zone: 1, ..later }),
            ),
            (
                Call::Recalendar {
                    slot: 0,
                    name: b"hebrew",
                },
                Answer::Mark(Mark {
                    zone: 1,
                    calendar: 1,
                    ..later
                }),
            ),
            (Call::Lift { slot: 1 }, Answer::Lifted(later)),
            (Call::List, Answer::Written(49)),
            (Call::WriteMark { slot: 0 }, Answer::Written(46)),
        ];
        for (call, answer) in &accepted {
            assert!(rt; board.call(call, &mut out) == Ok(*answer));
        }
        assert!(rt;
            out.get(..46) == Some(b"2025-03-01T13:00:00+01:00[Test/H][u-ca=hebrew]".as_slice())
        );
        assert!(rt; board.mark(1) == None && board.span(0) == Some(year_and_a_day));
        Ok(())
    }

    #[test]
    fn run_counts_what_is_accepted(rt: HostRuntime) {
        let (zones, calendars) = (zones(b"", b""), calendars());
        let mut marks = [None; 2];
        let mut spans = [None; 2];
        let mut board = Board::new(&zones, &calendars, &mut marks, &mut spans);
        let mut out = [b'#'; 200];
        let calls = [
            Call::Place {
                slot: 0,
                text: NOON,
            },
            Call::Place {
                slot: 2,
                text: NOON,
            },
            Call::Place {
                slot: 1,
                text: b"2025-03-01T13:30:00Z[UTC]",
            },
            Call::Measure {
                first: 0,
                second: 1,
                unit: Unit::Year,
                span: 1,
            },
            Call::Measure {
                first: 0,
                second: 1,
                unit: Unit::Year,
                span: 2,
            },
            Call::Rezone {
                slot: 1,
                name: b"Site/One",
            },
            Call::Lift { slot: 1 },
            Call::Carry {
                first: 0,
                span: 1,
                target: 1,
            },
            Call::WriteSpan { slot: 0 },
            Call::List,
            Call::WriteSpan { slot: 1 },
        ];
        assert!(rt; board.run(&calls, &mut out) == 7);
        assert!(rt; out.get(..11) == Some(b"P1Y1DT1H30M".as_slice()));
        let mut text = [b'#'; 96];
        assert!(rt; board.write_mark(1, &mut text) == Ok(30));
        assert!(rt; text.get(..31) == Some(b"2025-03-01T13:30:00+00:00[UTC]#".as_slice()));
        assert!(rt; board.write_span(1, &mut text) == Ok(11));
        assert!(rt; text.get(..12) == Some(b"P1Y1DT1H30M1".as_slice()));
    }

    // A text without a calendar means iso8601; over a source that lacks it, it is refused where the calendar would be named.
    #[test]
    fn meant_calendar_may_be_unknown(rt: HostRuntime) {
        let zones = zones(b"", b"");
        let calendars = Single {
            name: Named::new(b"hebrew"),
            rule: Hebrew,
        };
        let mut marks = [None; 1];
        let mut spans = [None; 1];
        let mut board = Board::new(&zones, &calendars, &mut marks, &mut spans);
        assert!(rt; board.place(0, NOON) == Err(Fault::UnknownCalendar { at: NOON.len() }));
        let tagged = b"2024-02-29T12:00:00Z[UTC][u-ca=hebrew]";
        assert!(rt; board.place(0, tagged).is_ok());
        assert!(rt; board.recalendar(0, b"iso8601") == Err(Fault::UnknownCalendar { at: 0 }));
    }
}
