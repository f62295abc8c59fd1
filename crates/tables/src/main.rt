// Compares published tables of dates with the calendars, from day number to date and from date to day number. It prints
// a line a row, with the dates that the calendars give, and at last how many rows there are and how many differ.
#![tactic(auto)]

mod compare;
mod report;
mod row;

use report::{Comparison, Tally};
use row::{is_row, read_row};
use std::fs;

const TABLES: [&str; 2] = ["published-days.tsv", "hebrew-years.tsv"];

fn report_table(rt: &HostRuntime, name: &str, tally: &mut Tally) -> anyhow::Result<()> {
    let table = fs::read_to_string(rt, name)?;
    for line in table.lines().filter(|line| is_row(line)) {
        match read_row(line).map(Comparison::of) {
            Some(comparison) => {
                tally.note(comparison.is_ok());
                println!(rt; "{comparison}")?;
            }
            None => {
                tally.note(false);
                println!(rt; "unreadable")?;
            }
        }
    }
    Ok(())
}

fn main(rt: HostRuntime) -> anyhow::Result<()> {
    let mut tally = Tally::default();
    for name in TABLES {
        report_table(&rt, name, &mut tally)?;
    }
    let Tally { rows, differ } = tally;
    println!(rt; "{rows} rows, {differ} differ")?;
    Ok(())
}
