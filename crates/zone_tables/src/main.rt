// Runs zone sources over real zone files, and compares what they say with tables that were made without the library: values
// and changes of good files, and the places at which damaged files are refused. It prints a line a file, a line a kind of
// damage, what sources side by side say, and at last the totals.
#![tactic(auto)]

mod bad_files;
mod compare;
mod damage;
mod good_files;
mod sides;
mod table;
mod tally;

use bad_files::{BadCounts, report_cuts, report_damages};
use good_files::{GoodCounts, report_good_file};
use sides::report_sides;

// The files that are compared, each NAME.tzif with its table NAME.tsv.
const FILES: [&str; 16] = [
    "Dublin.fat",
    "Dublin.slim",
    "Apia.fat",
    "Apia.slim",
    "LordHowe.fat",
    "LordHowe.slim",
    "Qyzylorda.fat",
    "Qyzylorda.slim",
    "Manila.fat",
    "Manila.slim",
    "Monrovia.fat",
    "Monrovia.slim",
    "Casablanca.slim",
    "Nuuk.slim",
    "UTC.fat",
    "UTC.slim",
];

fn main(rt: HostRuntime) -> anyhow::Result<()> {
    let mut good = GoodCounts::default();
    for name in FILES {
        good.add(report_good_file(&rt, name)?);
    }
    let mut bad = report_cuts(&rt, "Apia.slim")?;
    bad.add(report_damages(&rt, "damages.tsv")?);
    report_sides(&rt)?;
    let GoodCounts { values, changes } = good;
    let BadCounts { places, blanks } = bad;
    println!(rt;
        "total: values {values}; changes and their ends {changes}; places {places}; blanks {blanks}"
    )?;
    Ok(())
}
