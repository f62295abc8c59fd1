// Runs whole scripts, each on a board of its own and over a pair of zone files, and compares what is answered with what is
// expected, byte for byte. It prints a line for each script, how many answers there are and how many of them differ, and of
// some scripts the answers too; and at last the totals.
#![tactic(auto)]

mod case;
mod cases;
mod compare;
mod tally;

use case::answers_to;
use cases::{COUNTED, Case, SHARING, SHOWN};
use compare::compare;
use std::{fs, str};
use tally::Tally;

// Compares a script's answers with those that are expected, and prints the counts.
fn report_counts(rt: &HostRuntime, name: &str, answers: &str) -> anyhow::Result<Tally> {
    let expected = fs::read_to_string(rt, format!(in rt.alloc(); "{name}.answers")?)?;
    let tally = compare(answers, expected.as_str());
    println!(rt; "{name}: {tally}")?;
    Ok(tally)
}

// Runs a script, and prints the counts.
fn report_case(rt: &HostRuntime, case: Case) -> anyhow::Result<Tally> {
    let answers = answers_to(rt, case)?;
    report_counts(rt, case.name, str::from_utf8(&answers)?)
}

// Runs a script, and prints the counts and the answers.
fn show_case(rt: &HostRuntime, case: Case) -> anyhow::Result<Tally> {
    let answers = answers_to(rt, case)?;
    let text = str::from_utf8(&answers)?;
    let tally = report_counts(rt, case.name, text)?;
    print!(rt; "{text}")?;
    Ok(tally)
}

fn main(rt: HostRuntime) -> anyhow::Result<()> {
    let mut total = Tally::default();
    for name in SHOWN {
        total.add(&show_case(&rt, Case { name, pair: name })?);
    }
    for name in COUNTED {
        total.add(&report_case(&rt, Case { name, pair: name })?);
    }
    for case in SHARING {
        total.add(&report_case(&rt, case)?);
    }
    println!(rt; "total: {total}")?;
    Ok(())
}
