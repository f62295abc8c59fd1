// What the first zone of a source says, against the rows of a table.
ghost use Rattle.std.specs.Prelude.{◌≡◌, ◌≢◌, ◌+ℤ◌, Decides, pos};
ghost use Rattle.zone.specs.Zones.{ChangeIs};
ghost use Rattle.zone_tables.specs.Rows.{HasOffset};

use crate::table::Row;
use crate::tally::Tally;
use zone::source::ZoneSource;
use zone::value::Value;

// Whether the zone has an offset at a second.
fn has_offset<Z: ZoneSource>(source: &Z, second: i64, offset: i32) -> bool
    ensures { Decides result (HasOffset (Z.ZoneSource.zones source.now) second offset) }
{
    source.value(0, second) == Some(Value::Offset(offset))
}

// Whether this is the zone's first change after a second, at whatever later second it is; or whether there is none.
fn is_next_change<Z: ZoneSource>(source: &Z, after: i64, change: Option<i64>) -> bool
    ensures { Decides result (ChangeIs (Z.ZoneSource.zones source.now) 0 after (pos 9223372036854775807) change) }
{
    source.change(0, after, i64::MAX) == change
}

// Compares the values at the rows' seconds.
pub(crate) fn compare_values<Z: ZoneSource>(source: &Z, rows: &[Row]) -> Tally {
    let mut tally = Tally::default();
    for row in rows {
        tally.note(has_offset(source, row.second, row.offset));
    }
    tally
}

// Whether the table changes at a row: the row before it is of the second before, and has another offset.
fn is_change(before: Row, row: Row) -> bool
    ensures { Decides result ((before.second +ℤ pos 1 ≡ row.second) × (before.offset ≢ row.offset)) }
{
    before.second.checked_add(1) == Some(row.second) && before.offset != row.offset
}

// Compares the changes: after each change of the table the next one follows, and after the last one none.
pub(crate) fn compare_changes<Z: ZoneSource>(source: &Z, rows: &[Row]) -> Tally {
    let mut tally = Tally::default();
    let mut after = i64::MIN;
    for (before, row) in rows.iter().zip(rows.iter().skip(1)) {
        if is_change(*before, *row) {
            tally.note(is_next_change(source, after, Some(row.second)));
            after = row.second;
        }
    }
    tally.note(is_next_change(source, after, None));
    tally
}
