// What the checks of a bundle share.

ghost use Rattle.std.specs.Prelude.{◌≡◌};
ghost use Rattle.field_index.specs.Noted.{DefinitionsNoted};
ghost use Rattle.field_index.specs.Facts.{DefinitionsNoted-prop};
ghost use Rattle.checks.specs.Checks.{EdgesPrepared};

use bundle::Opened;
use size_tests::TestAnswers;

// The bundle, its edges prepared for searches, and the answers of its size tests. What is noted of references is no part of it: the checks
// of tags and sizes do not ask for that. What a check leaves of it as it is (`Unchanged`) only a clause can say.
#[derive(Drop)]
pub struct Checks<'a> {
    pub opened: Opened<'a>,
    pub edges: &'a [u16],
    pub answers: TestAnswers<'a>,
    pub ghost noted: { DefinitionsNoted opened.definitions.bytes.now opened.definitions.places.now opened.definitions.count } by { DefinitionsNoted-prop opened.definitions.bytes.now opened.definitions.places.now opened.definitions.count },
    pub ghost same: { answers.definitions.bytes.now ≡ opened.definitions.bytes.now },
    pub ghost prepared: { EdgesPrepared opened.definitions.bytes.now opened.layout edges.now },
}
