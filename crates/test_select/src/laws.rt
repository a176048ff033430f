//! The laws of what the program answers from. Each stands, with its statement, at the crate that it speaks of; those of filters
//! and of graphs are in the modules `laws` of `nextest_filtering`, `guppy_feature_graph` and `guppy_package_graph`.

ghost use Rattle.test_select.specs.RunLaws.{PlainPrintsTheSame, PrintedAccountsAreAccepted};

pub use feature_account::laws::{
    accounts_agree, accounts_count_what_is_on, explanations_are_irreducible, lists_each_rule,
    stays_on_when_unknowns_count, stays_on_with_a_yes, stays_on_with_an_extra,
};
pub use feature_account_making::laws::{
    accounts_read_back, explanations_read_back, looks_are_few, lowest_accounts_agree,
};
pub use test_select_changes::laws::{changed_filters_read_back, dependents_are_taken};
pub use test_select_feature_laws::demand_laws::{
    demands_close_as_rules_do, what_is_chosen_leads_on,
};
pub use test_select_feature_laws::edge_laws::{edges_close_as_demands_do, edges_close_as_rules_do};
pub use test_select_feature_laws::laws::{
    edges_lead_to_what_is_on, kept_records_have_graphs, lines_on_join_packages_on, order_is_free,
    workspace_packages_are_on,
};
pub use test_select_features::laws::{initials_lead_to_what_is_on, switching_keeps_packages};
pub use test_select_laws::laws::{
    accepted_texts_agree, declared_selections_agree, selection_order_is_free,
    served_questions_are_answered, switched_dependencies_are_declared,
    tables_are_asked_for_answers,
};
pub use test_select_tests::laws::{
    groups_ascend, listed_binaries_suffice, parts_are_the_whole, parts_ascend, parts_share_nothing,
    places_are_of_one_part, readings_say_the_same, reasons_say_what_is_selected, reports_agree,
    selections_ask_what_is_listed, selections_report_alike, unasked_binaries_have_no_chosen_test,
};

/// Two runs of `test_select tests`, of which one is given `--plain` and the other is not, print the same
/// bytes where both end with 0 and their files answered the same.
pub fn plain_prints_the_same()
    ensures same { PlainPrintsTheSame }
{
    selections_report_alike();
}

/// What `test_select account` printed, where it ended with 0, is accepted by `check` with the same other
/// files, as a file that holds just these bytes; unless memory runs out, or the output takes no more.
pub fn printed_accounts_are_accepted()
    ensures accepted { PrintedAccountsAreAccepted }
{}
