// A file's second block, as a part of the file that starts in its middle.
ghost use Rattle.file_zone.specs.Blocks.{GoodBlock};

// A block of a good file: its transitions' seconds, then their type indexes, then the types' records.
#[derive(Clone, Copy)]
pub(crate) struct Block<'f> {
    pub(crate) bytes: &'f [u8],
    // how many transitions
    pub(crate) times: usize,
    ghost good: { GoodBlock bytes.now times },
}
