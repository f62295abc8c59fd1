// Damaged files: where they are refused, and the zones over them.
ghost use Rattle.std.specs.Prelude.{Decides};
ghost use Rattle.tzif.specs.File.{checked};
ghost use Rattle.zone_tables.specs.Refusals.{AnswersAs};
ghost use Rattle.zone_tables.specs.Rows.{IsBlankAt, IsBlank};

use crate::damage::{Kind, damaged, read_damage};
use crate::good_files::{file_source, read_zone_file};
use crate::table::is_row;
use crate::tally::Tally;
use anyhow::Context;
use std::fs;
use timebase::fault::Fault;
use tzif::check::check;
use zone::source::ZoneSource;
use zone::value::Value;

// Seconds at which a zone over a bad file is asked for its value: the ends of numbers and of the zones' range, and some between.
const SECONDS: [i64; 7] = [
    i64::MIN,
    -62_135_683_200,
    -2_000_000_000,
    0,
    1_325_239_200,
    253_402_387_199,
    i64::MAX,
];

// Whether the check answers a file so: refuses it at a place, or accepts it.
fn answers_as(file: &[u8], refused_at: Option<usize>) -> bool
    ensures { Decides result (AnswersAs (checked file.now) refused_at) }
{
    match (check(file), refused_at) {
        (Ok(_), None) => true,
        (Err(fault), Some(at)) => fault == Fault::BadFile { at },
        _ => false,
    }
}

// Whether the first zone of a source is there, and blank at a second as a badly made one is.
fn is_blank_at<Z: ZoneSource>(source: &Z, second: i64) -> bool
    ensures { Decides result (IsBlankAt (Z.ZoneSource.zones source.now) second) }
{
    source.value(0, second) == Some(Value::BADLY_MADE)
}

// Whether the first zone of a source is there, and blank at every second, as one over a bad file is. By the contracts one second
// and no change tell as much: the others are asked of the program that runs.
fn is_blank_throughout<Z: ZoneSource>(source: &Z) -> bool
    ensures { Decides result (IsBlank (Z.ZoneSource.zones source.now)) }
{
    SECONDS.iter().all(|second| is_blank_at(source, *second))
        && source.change(0, i64::MIN, i64::MAX).is_none()
}

// What was compared of damaged files: where they are refused, and the zones over those that are.
#[derive(Clone, Copy, Default)]
pub struct BadCounts {
    pub places: Tally,
    pub blanks: Tally,
}

impl BadCounts {
    fn note(&mut self, file: &[u8], refused_at: Option<usize>) {
        self.places.note(answers_as(file, refused_at));
        if refused_at.is_some() {
            let source = file_source("Test/Bad", file);
            self.blanks.note(is_blank_throughout(&source));
        }
    }

    pub(crate) fn add(&mut self, other: BadCounts) {
        self.places.add(other.places);
        self.blanks.add(other.blanks);
    }
}

// Cuts a good file at each of its places.
pub(crate) fn report_cuts(rt: &HostRuntime, name: &str) -> anyhow::Result<BadCounts> {
    let file = read_zone_file(rt, name)?;
    let mut counts = BadCounts::default();
    for k in 0..file.len() {
        counts.note(&file[..k], Some(k));
    }
    let BadCounts { places, blanks } = counts;
    println!(rt; "cuts of {name}: places {places}; blanks {blanks}")?;
    Ok(counts)
}

// Damages files as the rows of one kind say.
fn report_kind(rt: &HostRuntime, table: &str, kind: Kind) -> anyhow::Result<BadCounts> {
    let mut counts = BadCounts::default();
    for line in table.lines().filter(|line| is_row(line)) {
        let damage = read_damage(line).context(format_args!("the row {line:?} doesn't read"))?;
        if damage.kind == kind {
            let file = read_zone_file(rt, damage.file)?;
            let bad = damaged(rt.alloc(), file.as_slice(), &damage)?;
            counts.note(bad.as_slice(), damage.refused_at);
        }
    }
    let BadCounts { places, blanks } = counts;
    println!(rt; "{kind}: places {places}; blanks {blanks}")?;
    Ok(counts)
}

// Damages files as the rows of a table say, kind by kind.
pub(crate) fn report_damages(rt: &HostRuntime, name: &str) -> anyhow::Result<BadCounts> {
    let table = fs::read_to_string(rt, name)?;
    let mut counts = BadCounts::default();
    for kind in [Kind::Flip, Kind::Append, Kind::Insert] {
        counts.add(report_kind(rt, table.as_str(), kind)?);
    }
    Ok(counts)
}
