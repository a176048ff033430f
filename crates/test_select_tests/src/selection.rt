//! What a selection answers.

ghost use Rattle.std.specs.Prelude.{◌≡◌, map};
ghost use Rattle.list_facts.specs.Texts.{texts, pair_of};

use std::marker::Model;

/// The tests that are chosen, and the binaries that were asked for theirs.
#[derive(Debug, Drop)]
pub struct Selection {
    chosen: Vec<(String, String)>,
    asked: Vec<String>,
}

impl Model for Selection {
    ghost use Rattle.std.specs.Prelude.{map};
    ghost use Rattle.list_facts.specs.Texts.{texts, pair_of};
    ghost use Rattle.test_select_tests.specs.Selections.{Selected};

    ghost Value = { Selected };

    ghost view = { λ s. record { chosen = map pair_of s.chosen.items; asked = texts s.asked.items } };
}

impl Selection {
    pub(crate) fn new(chosen: Vec<(String, String)>, asked: Vec<String>) -> Selection
        ensures { result ≡ record { chosen = map pair_of chosen.items; asked = texts asked.items } }
    {
        Selection { chosen, asked }
    }

    /// The chosen tests, each a binary's id and the test's name, ascending, each once.
    pub fn chosen(&self) -> &[(String, String)]
        ensures { map pair_of result.now ≡ self.now.chosen }
    {
        &self.chosen
    }

    /// The ids of the binaries that were asked, ascending, each once.
    pub fn asked(&self) -> &[String]
        ensures { texts result.now ≡ self.now.asked }
    {
        &self.asked
    }

    /// The chosen tests, and the ids of the binaries that were asked.
    pub(crate) fn into_lists(self) -> (Vec<(String, String)>, Vec<String>)
        ensures chosen { map pair_of result.0.items ≡ self.chosen }
        ensures asked { texts result.1.items ≡ self.asked }
    {
        (self.chosen, self.asked)
    }
}
