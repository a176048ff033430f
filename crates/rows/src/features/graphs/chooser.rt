//! Visitors that are given as data.

use crate::features::graphs::link_texts::link_text;
use guppy_feature_graph::{ConditionalLink, FeatureLinkContext, FeatureLinkVisitor};
use row_program::{Answers, Row, RowFault};
use serde_json::Value;
use std::alloc::{AllocError, Global};

/// What is accepted.
#[derive(Clone, Copy)]
pub(crate) enum Rule {
    All,
    Nothing,
    /// The first link that is shown.
    Once,
    /// Every second one, from the first on.
    Alternate,
    /// What required lines declare.
    Required,
    /// What optional lines declare.
    Optional,
    /// What has a normal line, or a build line, or a dev line.
    Normal,
    Build,
    Dev,
}

impl Rule {
    /// The rule that the row names under `accepts`, if it names one.
    pub(crate) fn of(row: Row<'_>) -> Result<Option<Rule>, RowFault> {
        let Some(word) = row.get("accepts").and_then(Value::as_str) else {
            return Ok(None);
        };
        let rule = match word {
            "all" => Rule::All,
            "nothing" => Rule::Nothing,
            "once" => Rule::Once,
            "alternate" => Rule::Alternate,
            "required" => Rule::Required,
            "optional" => Rule::Optional,
            "normal" => Rule::Normal,
            "build" => Rule::Build,
            "dev" => Rule::Dev,
            _ => return Err(RowFault::Key("accepts")),
        };
        Ok(Some(rule))
    }
}

/// Answers by a rule, and keeps what each link says.
#[derive(Drop)]
pub(crate) struct Chooser {
    alloc: Global,
    rule: Rule,
    asked: usize,
    texts: Vec<Result<String, AllocError>>,
    lost: bool,
}

impl Chooser {
    pub(crate) fn new(alloc: Global, rule: Rule) -> Chooser {
        let texts = Vec::new(alloc);
        Chooser {
            alloc,
            rule,
            asked: 0,
            texts,
            lost: false,
        }
    }

    pub(crate) fn choose(
        &mut self,
        cx: &FeatureLinkContext<'_>,
        link: ConditionalLink<'_>,
    ) -> bool {
        let accepted = match self.rule {
            Rule::All => true,
            Rule::Nothing => false,
            Rule::Once => self.asked == 0,
            Rule::Alternate => self.asked % 2 == 0,
            Rule::Required => link.declarations().includes_required(),
            Rule::Optional => link.declarations().includes_optional(),
            Rule::Normal => link.normal().is_present(),
            Rule::Build => link.build().is_present(),
            Rule::Dev => link.dev().is_present(),
        };
        self.asked = self.asked.saturating_add(1);
        if self.texts.push(link_text(self.alloc, cx, link)).is_err() {
            self.lost = true;
        }
        accepted
    }

    /// Tells how many links were shown, and what they said, in the order in which they were shown.
    pub(crate) fn tell(self, answers: &mut Answers) {
        answers.show("offers", &self.asked);
        answers.begin("offered");
        for text in self.texts {
            match text {
                Ok(text) => answers.part("; ", &text),
                Err(refused) => answers.keep("offered", Err(refused)),
            }
        }
        if self.lost {
            answers.part("; ", &"and more");
        }
    }
}

impl FeatureLinkVisitor for Chooser {
    ghost use Rattle.std.specs.Prelude.{◌≡◌, []};

    ghost state = { λ _. [] };

    ghost steps = { λ _ _ _ _ t. t ≡ [] };

    fn visit_link(&mut self, cx: &FeatureLinkContext<'_>, link: ConditionalLink<'_>) -> bool {
        self.choose(cx, link)
    }
}
