//! Laws that hold of every status, every question and every package id.

ghost use Rattle.std.specs.Prelude.{◌≡◌, length};
ghost use Rattle.std.specs.Iterator.{IsFinite, size};
ghost use Rattle.std.specs.List.Sorted.{IsStrictlySortedBy};
ghost use Rattle.guppy_package_parts.specs.Laws.{AndIsMinimum, IdsAreLawful, NamesAscend, OrIsMaximum, PlatformsJoin};
ghost use Rattle.guppy_package_parts.specs.NameViews.{features_left};
ghost use Rattle.guppy_package_parts.specs.StatusViews.{specs_left};

use crate::platform_status::TargetSpecs;
use crate::requirement_features::RequirementFeatures;
use crate::sorted_set::SortedSet;

/// `&` on answers is the minimum of Disabled, Unknown and Enabled, in this order.
pub fn and_is_minimum()
    ensures { AndIsMinimum }
{}

/// `|` on answers is their maximum.
pub fn or_is_maximum()
    ensures { OrIsMaximum }
{}

/// Two lists of platforms together have the greater of their two answers.
pub fn platforms_join()
    ensures { PlatformsJoin }
{}

/// Names put in order, each once, are the ascending list of the same names.
pub fn names_ascend()
    ensures { NamesAscend }
{}

/// Equality of package ids is an equivalence, their order is total and tells just unequal ids apart,
/// and equal ids feed a hasher the same.
pub fn ids_are_lawful()
    ensures { IdsAreLawful }
{}

/// The features that are required of a package end: they are exactly those that are left.
pub fn required_features_end(features: &RequirementFeatures<'_>)
    ensures ends { IsFinite (⟦<RequirementFeatures<'static> as Iterator>⟧.remaining features.now) }
    ensures left { size (⟦<RequirementFeatures<'static> as Iterator>⟧.remaining features.now)
        ≡ length (features_left features.now) }
{
    let _ = features;
}

/// The specs of a status end: they are exactly those that are left.
pub fn target_specs_end(specs: &TargetSpecs<'_>)
    ensures ends { IsFinite (⟦<TargetSpecs<'static> as Iterator>⟧.remaining specs.now) }
    ensures left { size (⟦<TargetSpecs<'static> as Iterator>⟧.remaining specs.now)
        ≡ length (specs_left specs.now) }
{
    let _ = specs;
}

/// A set that is held in order ascends, each element once.
pub fn sets_ascend<T: Ord>(set: &SortedSet<T>)
    ensures { IsStrictlySortedBy T.cmp set.now }
{
    let _ = set.as_slice();
}
