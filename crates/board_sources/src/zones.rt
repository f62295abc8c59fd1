// The zones of `board`.
ghost use Rattle.std.specs.Prelude.{◌≡◌};
ghost use Rattle.board_sources.specs.Sources.{home_zones, site_zones, board_zones};
ghost use Rattle.file_zone.specs.Files.{file_tells};
ghost use Rattle.zone_rule.specs.Naming.{named_zone};
ghost use Rattle.zone_rule.specs.Steps.{steps_tell};

use file_zone::zone_file::{FileZone, ZoneFile};
use names::ZoneName;
use zone::beside::Beside;
use zone::source::ZoneSource;
use zone_rule::named_zone::NamedZone;
use zone_rule::step::Step;
use zone_rule::steps::{StepZone, Steps};

// Two sources of one type.
pub type Pair<S> = Beside<S, S>;

// Two pairs side by side: `UTC` and `Test/H`, which are steps, and `Site/One` and `Site/Two`, which view files.
pub type BoardZones<'f> = Beside<Pair<StepZone<'f>>, Pair<FileZone<'f>>>;

// The changes of `Test/H`.
const TEST_CHANGES: [Step; 2] = [
    Step {
        at: 1_000_000,
        offset: 7_200,
    },
    Step {
        at: 2_000_000,
        offset: 3_600,
    },
];

// A zone of steps under a name.
fn stepped<'f>(name: &'f [u8], first: i32, changes: &'f [Step]) -> StepZone<'f>
    ensures { (⟦<StepZone<'f> as ZoneSource>⟧).zones result ≡ named_zone name.now (steps_tell first changes.now) }
{
    NamedZone {
        name: ZoneName::new(name),
        rule: Steps::new(first, changes),
    }
}

// A zone that views a file under a name.
fn viewed<'f>(name: &'f [u8], bytes: &'f [u8]) -> FileZone<'f>
    ensures { (⟦<FileZone<'f> as ZoneSource>⟧).zones result ≡ named_zone name.now (file_tells bytes.now) }
{
    NamedZone {
        name: ZoneName::new(name),
        rule: ZoneFile::new(bytes),
    }
}

// `UTC` and `Test/H`.
pub fn home<'s>() -> Pair<StepZone<'s>>
    ensures { (⟦<Pair<StepZone<'s>> as ZoneSource>⟧).zones result ≡ home_zones }
{
    Beside {
        first: stepped(b"UTC", 0, &[]),
        second: stepped(b"Test/H", 3_600, &TEST_CHANGES),
    }
}

// `Site/One` and `Site/Two`, over the bytes of the two files.
pub fn sites<'f>(one: &'f [u8], two: &'f [u8]) -> Pair<FileZone<'f>>
    ensures { (⟦<Pair<FileZone<'f>> as ZoneSource>⟧).zones result ≡ site_zones one.now two.now }
{
    Beside {
        first: viewed(b"Site/One", one),
        second: viewed(b"Site/Two", two),
    }
}

// The zones, over the bytes of the two files.
pub fn zones<'f>(one: &'f [u8], two: &'f [u8]) -> BoardZones<'f>
    ensures { (⟦<BoardZones<'f> as ZoneSource>⟧).zones result ≡ board_zones one.now two.now }
{
    Beside {
        first: home(),
        second: sites(one, two),
    }
}
