// One zone of a source.
ghost use Rattle.std.specs.Prelude.{◌<◌};

use zone::source::ZoneSource;

// A zone that its source has: its number is below the count, so that a question about it always has an answer.
#[derive(Drop)]
pub struct ZoneAt<'z, Z: ZoneSource> {
    pub source: &'z Z,
    pub number: usize,
    ghost there: { number < (Z.ZoneSource.zones source.now).count },
}
