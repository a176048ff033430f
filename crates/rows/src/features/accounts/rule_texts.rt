//! Rules as texts: `app/fast & app/dep:util -> util/simd`.

use feature_account::{Premises, Rule};
use row_program::{Answers, add_feature};

/// Tells a line for each rule.
pub(crate) fn tell_rules(rules: &[Rule], answers: &mut Answers) {
    answers.begin("rules");
    for rule in rules {
        match &rule.premises {
            Premises::None => {}
            Premises::One(premise) => {
                add_feature(premise, answers);
                answers.add(&" ");
            }
            Premises::Two(first, second) => {
                add_feature(first, answers);
                answers.add(&" & ");
                add_feature(second, answers);
                answers.add(&" ");
            }
        }
        answers.add(&"-> ");
        add_feature(&rule.conclusion, answers);
        answers.add(&"\n");
    }
}

/// Tells what the rules with these numbers conclude, parted by spaces. A number that no rule has concludes
/// `?`.
pub(crate) fn tell_conclusions(rules: &[Rule], account: &[usize], answers: &mut Answers) {
    answers.begin("concludes");
    for number in account {
        match rules.get(*number) {
            Some(rule) => {
                answers.part(" ", &"");
                add_feature(&rule.conclusion, answers);
            }
            None => answers.part(" ", &"?"),
        }
    }
}
