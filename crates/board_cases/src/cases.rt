// The scripts that are run.

// A script, by the name that its files begin with, and the pair of zone files that it runs over, by the name that those begin with.
#[derive(Clone, Copy)]
pub struct Case {
    pub name: &'static str,
    pub pair: &'static str,
}

// Scripts over zone files of their own name, whose answers are printed.
pub(crate) const SHOWN: [&str; 2] = ["damaged", "without-files"];

// Scripts over zone files of their own name, of whose answers the counts alone are printed, as of those below.
pub(crate) const COUNTED: [&str; 15] = [
    "past-the-limit",
    "span-texts",
    "00",
    "01",
    "02",
    "03",
    "04",
    "05",
    "06",
    "07",
    "08",
    "09",
    "10",
    "11",
    "12",
];

// Scripts over the zone files of another.
pub(crate) const SHARING: [Case; 14] = [
    Case {
        name: "picked-moves",
        pair: "00",
    },
    Case {
        name: "picked-marks",
        pair: "00",
    },
    Case {
        name: "picked-01",
        pair: "01",
    },
    Case {
        name: "picked-02",
        pair: "02",
    },
    Case {
        name: "picked-07",
        pair: "07",
    },
    Case {
        name: "picked-09",
        pair: "09",
    },
    Case {
        name: "picked-10",
        pair: "10",
    },
    Case {
        name: "damaged-marks-1",
        pair: "00",
    },
    Case {
        name: "damaged-marks-2",
        pair: "00",
    },
    Case {
        name: "damaged-marks-3",
        pair: "01",
    },
    Case {
        name: "damaged-marks-4",
        pair: "01",
    },
    Case {
        name: "damaged-marks-5",
        pair: "01",
    },
    Case {
        name: "damaged-marks-6",
        pair: "06",
    },
    Case {
        name: "damaged-marks-7",
        pair: "06",
    },
];
