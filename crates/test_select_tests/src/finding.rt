//! The binary that is asked about, and what it lacks.

ghost use Rattle.std.specs.Prelude.{◌≡◌, Contains, bytes_eq, find, not, option_copied, option_map, string_bytes};
ghost use Rattle.feature_account.specs.Accounts.{concluded_set};
ghost use Rattle.feature_account_rules.specs.RuleList.{named_of};
ghost use Rattle.test_select_rules.specs.BinaryView.{binary_view};
ghost use Rattle.test_select_tests.specs.Reasons.{FindsOff};

use test_select_rules::FeaturesOn;
use test_select_rules::binaries::TestBinary;

pub(crate) fn binary_with_id<'b, 'r>(
    binaries: &'b [TestBinary<'r>],
    id: &str,
) -> Option<&'b TestBinary<'r>>
    ensures { option_copied result ≡ find (λ b. bytes_eq b.id id.now) binaries.entry.now }
{
    binaries.iter().find(|binary| binary.id.as_str() == id)
}

/// The first of the features that the binary requires that is off.
pub(crate) fn first_off<'r>(on: &FeaturesOn, binary: &TestBinary<'r>) -> Option<&'r str>
    ensures { FindsOff (λ f. Contains on.now f) (binary_view binary.entry.now)
        (option_map (λ t. t.now) result) }
{
    let (row, target) = (binary.row, binary.target);
    let name = off_among(on, row.id.as_str(), &target.required_features)?;
    Some(name.as_str())
}

/// The first of these features of the package that is off.
fn off_among<'r>(on: &FeaturesOn, package_id: &str, names: &'r [String]) -> Option<&'r String>
    ensures { option_copied result ≡ find
        (λ name. not (concluded_set on.now (named_of package_id.now (string_bytes name))))
        names.entry.now }
{
    names
        .iter()
        .find(|name| !on.contains_named(package_id, name.as_str()))
}
