//! The laws of two selections: in the two scopes in which paths follow links, and over records in two
//! orders; and of which questions a selection answers.

ghost use Rattle.test_select_laws.specs.Laws.{AcceptedTextsAgree, DeclaredSelectionsAgree, SwitchedDependenciesAreDeclared};
ghost use Rattle.test_select_laws.specs.Orders.{SelectionOrderIsFree};
ghost use Rattle.test_select_laws.specs.Served.{ServedQuestionsAreAnswered};
ghost use Rattle.test_select_laws.specs.Tables.{RulesAskForAnswers, SelectionsAskForAnswers};

/// What a package depends on by links that are on, it depends on by declared links: the packages of
/// `deps(..)` and `rdeps(..)` over the switched-on graph are among those over the declared one, where
/// names are matched over the same packages, or over more there.
pub fn switched_dependencies_are_declared()
    ensures among { SwitchedDependenciesAreDeclared }
{}

/// The same texts are accepted in both scopes, and under every choice and table: what is accepted
/// depends on the names of the record alone.
pub fn accepted_texts_agree()
    ensures agree { AcceptedTextsAgree }
{}

/// Over declared links, and by texts, groups and a default filter that name no features, two choices of
/// features, on two platforms, that make the same binaries available choose the same tests of the same
/// listings and ask for the same binaries.
pub fn declared_selections_agree()
    ensures agree { DeclaredSelectionsAgree }
{}

// Groups keep their order, since a test is in the first whose filter holds.
/// Another order of packages, targets, features, entries, optional dependencies, links, lines and
/// members, with the same groups and default filter, changes neither the texts that are accepted, nor
/// the report over the same listings, nor the binaries that are asked, in either scope.
pub fn selection_order_is_free()
    ensures free { SelectionOrderIsFree }
{}

/// Over a record that keeps the rules, with known extras, accepted texts, and a lister that has a
/// well-formed listing for each available binary and does not fail, a selection is made; or memory runs
/// out, or `regex` refuses a pattern, of which no clause says when it does.
pub fn served_questions_are_answered()
    ensures answered { ServedQuestionsAreAnswered }
{}

/// Of a table nothing but its answers counts: two tables that answer each spec alike, and treat unknown
/// answers alike, make the same rules and have the same selections.
pub fn tables_are_asked_for_answers()
    ensures rules { RulesAskForAnswers }
    ensures selections { SelectionsAskForAnswers }
{}
