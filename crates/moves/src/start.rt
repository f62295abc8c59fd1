// Where a move starts.
ghost use Rattle.std.specs.Prelude.{◌≡◌};
ghost use Rattle.local_times.specs.Locals.{Shows};

use local_times::local_time::LocalTime;
use local_times::zone_at::ZoneAt;
use zone::source::ZoneSource;

// An instant with its local time in a zone.
#[derive(Drop)]
pub(crate) struct Start<'a, 'z, Z: ZoneSource> {
    pub(crate) zone: &'a ZoneAt<'z, Z>,
    pub(crate) instant: i64,
    pub(crate) local: LocalTime,
    ghost shows: { Shows ((Z.ZoneSource.zones zone.now.source.now).value zone.now.number) instant local },
}
