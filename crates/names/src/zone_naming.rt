// Names of zones: making and reading them.
ghost use Rattle.std.specs.Prelude.{◌≡◌, is_ok};
ghost use Rattle.names.specs.ZoneNamings.{zone_name_of};
ghost use Rattle.names.specs.ZoneScanning.{read_zone_name};

use crate::zone_form::read_zone_name;
use crate::zone_name::ZoneName;

impl<'n> ZoneName<'n> {
    pub fn new(bytes: &'n [u8]) -> ZoneName<'n>
        ensures { zone_name_of result ≡ bytes.now }
    {
        let form = read_zone_name(bytes);
        ZoneName { bytes, form }
    }

    pub fn bytes(&self) -> &'n [u8]
        ensures { result.now ≡ zone_name_of self.now }
    {
        self.bytes
    }

    pub fn is_in_form(&self) -> bool
        ensures { result ≡ is_ok (read_zone_name (zone_name_of self.now)) }
    {
        self.form.is_ok()
    }
}
