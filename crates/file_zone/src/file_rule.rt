// The rule of a zone that views a file.
ghost use Rattle.std.specs.Prelude.{◌≡◌, ◌+◌, ◌*◌, ◌≤◌, length};
ghost use Rattle.file_zone.specs.FileTells.{file_sound};
ghost use Rattle.file_zone.specs.Files.{part_of, file_tells};
ghost use Rattle.file_zone.specs.Telling.{told_by, bytes_of, IsBlockOf};
ghost use Rattle.tzif.specs.File.{checked};

use crate::block::Block;
use crate::zone_file::ZoneFile;
use timebase::fault::Fault;
use tzif::check::check;
use tzif::layout::Layout;
use zone::value::Value;
use zone_rule::rule::ZoneRule;

impl<'f> ZoneFile<'f> {
    // The zone that a file tells. Over a bad file it is blank throughout, with cause 1.
    pub fn new(bytes: &'f [u8]) -> ZoneFile<'f>
        ensures tells { told_by result ≡ file_tells bytes.now }
        ensures views { bytes_of result ≡ bytes.now }
    {
        let layout = check(bytes);
        ZoneFile { bytes, layout }
    }

    // Where the file's parts stand, or why it is refused.
    pub fn layout(&self) -> Result<Layout, Fault>
        ensures { result ≡ checked (bytes_of self.now) }
    {
        self.layout
    }

    // The second block of a good file. Each question asks for it, so the layout is looked at where it stands and not copied.
    fn block(&self) -> Result<Block<'f>, Fault>
        ensures { IsBlockOf (bytes_of self.now) (checked (bytes_of self.now)) result }
    {
        match &self.layout {
            Ok(layout) => Ok(Block {
                bytes: part(self.bytes, *layout),
                times: layout.times,
            }),
            Err(fault) => Err(*fault),
        }
    }
}

// The second block of a file, from its transition seconds to its type records.
fn part<'f>(file: &'f [u8], layout: Layout) -> &'f [u8]
    requires { (layout.block + 9 * layout.times + 6 * layout.types) ≤ length file.now }
    ensures { result.now ≡ part_of file.now layout }
{
    let start = layout.block;
    let end = start + 9 * layout.times + 6 * layout.types;
    &file[start..end]
}

impl ZoneRule for ZoneFile<'_> {
    ghost told = { told_by };

    ghost sound = { λ z. file_sound (bytes_of z) };

    fn value(&self, second: i64) -> Value {
        match self.block() {
            Ok(block) => Value::Offset(block.look_up(second)),
            Err(_) => Value::BADLY_MADE,
        }
    }

    fn change(&self, after: i64, before: i64) -> Option<i64> {
        match self.block() {
            Ok(block) => block.next_change(after, before),
            Err(_) => None,
        }
    }
}
