// Whether two sources can be told apart.
ghost use Rattle.std.specs.Prelude.{◌≡◌, true, Decides};
ghost use Rattle.zone.specs.Questions.{Alike, AlikeName};

use crate::question::Question;
use crate::source::ZoneSource;

// Whether two sources answer a question alike. Sources of the same meaning always do, and so does one that is asked
// twice: nothing but the meaning shows in an answer.
pub fn answer_alike<P: ZoneSource, Q: ZoneSource>(
    first: &P,
    second: &Q,
    question: Question<'_>,
) -> bool
    ensures decides { Decides result (Alike (P.ZoneSource.zones first.now) (Q.ZoneSource.zones second.now) question.entry) }
    ensures law { P.ZoneSource.zones first.now ≡ Q.ZoneSource.zones second.now → result ≡ true }
{
    match question {
        Question::Count => first.count() == second.count(),
        Question::Name { zone } => first.name(zone) == second.name(zone),
        Question::Find { name } => first.find(name) == second.find(name),
        Question::Value { zone, at } => first.value(zone, at) == second.value(zone, at),
        Question::Change {
            zone,
            after,
            before,
        } => first.change(zone, after, before) == second.change(zone, after, before),
    }
}
