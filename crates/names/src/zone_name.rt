// A zone's name, with what was found of its form.
ghost use Rattle.std.specs.Prelude.{◌≡◌};
ghost use Rattle.names.specs.ZoneScanning.{read_zone_name};

use crate::InForm;
use reading::Misread;

// A name that views its bytes, and what was found of its form, which is judged once.
#[derive(Clone, Copy)]
pub struct ZoneName<'n> {
    pub(crate) bytes: &'n [u8],
    pub(crate) form: Result<InForm, Misread>,
    ghost judged: { form ≡ read_zone_name bytes.now },
}
