// The zones of `board`, sources side by side: what they say, printed, and compared with the expected output alone.
use crate::good_files::read_zone_file;
use board_sources::zones::{home, sites, zones};
use std::{fmt, str};
use zone::source::ZoneSource;
use zone::value::Value;

// Each side of the changes of Test/H, and of the day that Apia left out.
const SECONDS: [i64; 6] = [
    999_999,
    1_000_000,
    1_999_999,
    2_000_000,
    1_325_239_199,
    1_325_239_200,
];

// The seconds after which the first change is asked for.
const AFTERS: [i64; 3] = [0, 1_000_000, 1_300_000_000];

// The last is borne by no zone.
const NAMES: [&str; 5] = ["UTC", "Test/H", "Site/One", "Site/Two", "Site/Three"];

// An answer to be printed: a type of its own, since Display can't be written for Option.
#[derive(Clone, Copy)]
struct Said(Option<Value>);

impl fmt::Display for Said {
    fn fmt<W: fmt::Write>(&self, f: &mut fmt::Formatter<W>) -> fmt::Result {
        match self.0 {
            Some(Value::Offset(offset)) => write!(f, "{offset}"),
            Some(Value::Blank { cause, depth }) => write!(f, "blank {cause} {depth}"),
            None => write!(f, "none"),
        }
    }
}

// What a source says of each of its zones, and of the number after them.
fn report_source<Z: ZoneSource>(rt: &HostRuntime, title: &str, source: &Z) -> anyhow::Result<()> {
    let count = source.count();
    println!(rt; "{title}: {count} zones")?;
    report_finds(rt, source)?;
    for zone in 0..=count {
        report_zone(rt, source, zone)?;
    }
    Ok(())
}

// Where a source finds each name.
fn report_finds<Z: ZoneSource>(rt: &HostRuntime, source: &Z) -> anyhow::Result<()> {
    for name in NAMES {
        match source.find(name.as_bytes()) {
            Some(zone) => println!(rt; "  {name} is {zone}")?,
            None => println!(rt; "  {name} is none")?,
        }
    }
    Ok(())
}

// The name of a zone, its values at some seconds, and its changes.
fn report_zone<Z: ZoneSource>(rt: &HostRuntime, source: &Z, zone: usize) -> anyhow::Result<()> {
    let name = shown_name(source.name(zone));
    print!(rt; "  {zone} {name}:")?;
    for second in SECONDS {
        let value = Said(source.value(zone, second));
        print!(rt; " {value};")?;
    }
    report_changes(rt, source, zone)
}

fn shown_name(name: Option<&[u8]>) -> &str {
    match name {
        Some(bytes) => str::from_utf8(bytes).unwrap_or("not text"),
        None => "none",
    }
}

// The first changes of a zone after some seconds.
fn report_changes<Z: ZoneSource>(rt: &HostRuntime, source: &Z, zone: usize) -> anyhow::Result<()> {
    for after in AFTERS {
        match source.change(zone, after, i64::MAX) {
            Some(second) => print!(rt; " {second};")?,
            None => print!(rt; " no change;")?,
        }
    }
    println!(rt)?;
    Ok(())
}

// The two pairs of `board`, each alone, and the pair of both: in the second pair the second file is missing, or both are bad.
pub(crate) fn report_sides(rt: &HostRuntime) -> anyhow::Result<()> {
    let apia_file = read_zone_file(rt, "Apia.slim")?;
    let apia = apia_file.as_slice();
    // a file that is missing has no bytes
    let missing = &[];
    report_source(rt, "UTC and Test/H", &home())?;
    report_source(rt, "Site/One and a missing Site/Two", &sites(apia, missing))?;
    report_source(rt, "the two pairs", &zones(apia, missing))?;
    report_source(
        rt,
        "the two pairs, Site/One cut short",
        &zones(without_last(apia), missing),
    )
}

fn without_last(file: &[u8]) -> &[u8] {
    file.split_last().map_or(file, |(_, rest)| rest)
}
