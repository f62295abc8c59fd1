// What a zone says of a second.
ghost use Rattle.std.specs.Prelude.{◌≡◌};
ghost use Rattle.zone.specs.Zones.{offset_known};

use timebase::fault::Fault;

// What a zone says of a second: its offset from UTC in seconds, or a blank, where it has none. A blank has a cause, a
// number that the source chooses, and as its depth the number of layers that it came through, up to 255.
#[derive(Clone, Copy, Debug, PartialEq, Eq)]
pub enum Value {
    Offset(i32),
    Blank { cause: u8, depth: u8 },
}

impl Value {
    // What a badly made zone says throughout.
    pub const BADLY_MADE: Value = Value::Blank { cause: 1, depth: 0 };

    // The offset; a blank refuses, and tells its cause and depth. A blank that refuses a meeting or a carry becomes a fault here.
    pub fn known_offset(self) -> Result<i32, Fault>
        ensures { result ≡ offset_known self }
    {
        match self {
            Value::Offset(offset) => Ok(offset),
            Value::Blank { cause, depth } => Err(Fault::Blank { cause, depth }),
        }
    }
}
