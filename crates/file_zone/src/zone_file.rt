// A zone that views a file.
ghost use Rattle.std.specs.Prelude.{◌≡◌};
ghost use Rattle.tzif.specs.File.{checked};

use timebase::fault::Fault;
use tzif::layout::Layout;
use zone_rule::named_zone::NamedZone;

// The caller's bytes of a TZif file, which are checked once and not copied.
#[derive(Clone, Copy)]
pub struct ZoneFile<'f> {
    pub(crate) bytes: &'f [u8],
    pub(crate) layout: Result<Layout, Fault>,
    ghost judged: { layout ≡ checked bytes.now },
}

// A file zone is a source: of one zone, told by the file that it views, under a name.
pub type FileZone<'f> = NamedZone<'f, ZoneFile<'f>>;
