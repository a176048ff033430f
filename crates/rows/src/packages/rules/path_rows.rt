//! Rows of paths of members.

use guppy_package_rules::{PathText, compare_paths, same_path};
use row_program::Answers;
use std::cmp::Ordering;

/// How each path compares with the one before it.
pub(crate) fn tell_paths(paths: &[&str], answers: &mut Answers) {
    for pair in paths.windows(2) {
        let (a, b) = (pair[0], pair[1]);
        let (a_key, b_key) = (PathText { text: a }, PathText { text: b });
        answers.show("order", &order_text(compare_paths(a, b)));
        answers.show("order", &order_text(a_key.cmp(&b_key)));
        answers.show("back", &order_text(compare_paths(b, a)));
        answers.show("same", &same_path(a, b));
        answers.show("same", &(a_key == b_key));
    }
}

fn order_text(order: Ordering) -> &'static str {
    match order {
        Ordering::Less => "less",
        Ordering::Equal => "equal",
        Ordering::Greater => "greater",
    }
}
