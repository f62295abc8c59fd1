// Good files: their values and changes.
use crate::compare::{compare_changes, compare_values};
use crate::table::read_rows;
use crate::tally::Tally;
use file_zone::zone_file::{FileZone, ZoneFile};
use names::ZoneName;
use std::fs;
use zone_rule::named_zone::NamedZone;

// The source of one zone over a file.
pub(crate) fn file_source<'f>(name: &'f str, file: &'f [u8]) -> FileZone<'f> {
    NamedZone {
        name: ZoneName::new(name.as_bytes()),
        rule: ZoneFile::new(file),
    }
}

// What was compared of good files: values, and changes with the end after the last one.
#[derive(Clone, Copy, Default)]
pub struct GoodCounts {
    pub values: Tally,
    pub changes: Tally,
}

impl GoodCounts {
    pub(crate) fn add(&mut self, other: GoodCounts) {
        self.values.add(other.values);
        self.changes.add(other.changes);
    }
}

// Compares a file with its table.
pub(crate) fn report_good_file(rt: &HostRuntime, name: &str) -> anyhow::Result<GoodCounts> {
    let file = read_zone_file(rt, name)?;
    let table = fs::read_to_string(rt, format!(in rt.alloc(); "{name}.tsv")?)?;
    let rows = read_rows(rt.alloc(), table.as_str())?;
    let source = file_source(name, file.as_slice());
    let values = compare_values(&source, rows.as_slice());
    let changes = compare_changes(&source, rows.as_slice());
    println!(rt; "{name}: values {values}; changes and their end {changes}")?;
    Ok(GoodCounts { values, changes })
}

// The bytes of a zone file.
pub(crate) fn read_zone_file(rt: &HostRuntime, name: &str) -> anyhow::Result<Vec<u8>> {
    Ok(fs::read(rt, format!(in rt.alloc(); "{name}.tzif")?)?)
}
