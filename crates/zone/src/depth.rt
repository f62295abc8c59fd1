// Zones as they are seen from one layer above.
ghost use Rattle.std.specs.Prelude.{◌≡◌};
ghost use Rattle.zone.specs.Joining.{deeper_of, deepened};
ghost use Rattle.zone.specs.Zones.{ValueIs, ChangeIs};

use crate::source::ZoneSource;
use crate::value::Value;

// A value from one layer below: a blank is one deeper.
fn deeper(value: Value) -> Value
    ensures { result ≡ deeper_of value }
{
    match value {
        Value::Offset(_) => value,
        Value::Blank { cause, depth } => Value::Blank {
            cause,
            depth: depth.saturating_add(1),
        },
    }
}

// What a zone says of a second, as it is seen from one layer above.
pub(crate) fn deep_value<Z: ZoneSource>(source: &Z, zone: usize, second: i64) -> Option<Value>
    ensures { ValueIs (deepened (Z.ZoneSource.zones source.now)) zone second result }
{
    source.value(zone, second).map(deeper)
}

// The first change of a zone as it is seen from one layer above. Depths 254 and 255 look alike there, so that a change
// from one to the other is passed over.
pub(crate) fn deep_change<Z: ZoneSource>(
    source: &Z,
    zone: usize,
    after: i64,
    before: i64,
) -> Option<i64>
    ensures { ChangeIs (deepened (Z.ZoneSource.zones source.now)) zone after before result }
{
    let mut from = after;
    while let Some(s) = source.change(zone, from, before) {
        if let (Some(here), Some(last)) = (source.value(zone, s), source.value(zone, s - 1)) {
            if deeper(here) != deeper(last) {
                return Some(s);
            }
        }
        from = s;
    }
    None
}
