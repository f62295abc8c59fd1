// A source of one zone.
ghost use Rattle.std.specs.Prelude.{◌≡◌, ◌<◌, ◌≤◌, MatchOption};
ghost use Rattle.names.specs.ZoneNamings.{zone_name_of};
ghost use Rattle.zone_rule.specs.NamedLaws.{named_laws};
ghost use Rattle.zone_rule.specs.Naming.{one_or_none, named_zone};

use crate::range::{cut_high, cut_low, hold};
use crate::rule::ZoneRule;
use names::ZoneName;
use zone::source::ZoneSource;
use zone::value::Value;

// One zone, told by its rule, under a name. A name out of form leaves the source no zone.
#[derive(Clone, Copy, Drop)]
pub struct NamedZone<'n, R> {
    pub name: ZoneName<'n>,
    pub rule: R,
}

// One zone, or none.
fn count_of(name: &ZoneName<'_>) -> usize
    ensures { result ≡ one_or_none (zone_name_of name.now) }
{
    usize::from(name.is_in_form())
}

impl<R: ZoneRule> NamedZone<'_, R> {
    // The rule of a zone of the source; none for a zone that isn't there. (A source of one calendar has the like: names and
    // rules are of other types there, with other promises.)
    fn rule_of(&self, zone: usize) -> Option<&R>
        ensures { MatchOption result (one_or_none (zone_name_of self.now.name) ≤ zone) (λ r. (zone < one_or_none (zone_name_of self.now.name)) × (r.now ≡ self.now.rule)) }
    {
        (zone < count_of(&self.name)).then_some(&self.rule)
    }
}

impl<R: ZoneRule> ZoneSource for NamedZone<'_, R> {
    ghost zones = { λ z. named_zone (zone_name_of z.name) (R.ZoneRule.told z.rule) };

    ghost lawful = { λ z. named_laws (zone_name_of z.name) (R.ZoneRule.told z.rule) (R.ZoneRule.sound z.rule) };

    fn count(&self) -> usize {
        count_of(&self.name)
    }

    fn name(&self, zone: usize) -> Option<&[u8]> {
        let _rule = self.rule_of(zone)?;
        Some(self.name.bytes())
    }

    fn value(&self, zone: usize, second: i64) -> Option<Value> {
        let rule = self.rule_of(zone)?;
        Some(rule.value(hold(second)))
    }

    fn change(&self, zone: usize, after: i64, before: i64) -> Option<i64> {
        let rule = self.rule_of(zone)?;
        rule.change(cut_low(after), cut_high(before))
    }
}
