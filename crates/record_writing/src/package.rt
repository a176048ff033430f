//! Packages as values of a record's file.

ghost use Rattle.std.specs.Prelude.{◌≡◌, IfOk, map};
ghost use Rattle.serde_json.specs.Data.{no_members};
ghost use Rattle.serde_json.specs.View.{members_view, view};
ghost use Rattle.record_writing.specs.Members.{put_all};
ghost use Rattle.record_writing.specs.Rows.{details_members, feature_data, package_data};

use crate::object::{Member, Written, object_of, values_of, with_member, with_members};
use serde_json::{Map, Value};
use std::alloc::{AllocError, Global};
use workspace_record::{FeatureRecord, PackageInfo, PackageRecord};

impl Written for PackageRecord {
    ghost use Rattle.record_writing.specs.Rows.{package_data};

    ghost object = { package_data };

    fn written(&self, alloc: Global) -> Result<Value, AllocError> {
        let members = [
            ("id", Member::Text(self.id.as_str())),
            ("name", Member::Text(self.name.as_str())),
            ("version", Member::Text(self.version.as_str())),
            ("optional", Member::Texts(&self.optional)),
        ];
        let features = Value::Array(values_of(alloc, &self.features)?);
        let targets = Value::Array(values_of(alloc, &self.targets)?);
        let details = details_of(alloc, &self.info)?;
        let own = with_members(alloc, details, &members)?;
        let own = with_member(alloc, own, "features", features)?;
        Ok(Value::Object(with_member(alloc, own, "targets", targets)?))
    }
}

/// An object with the details of a package; none of its metadata is written.
fn details_of(alloc: Global, info: &PackageInfo) -> Result<Map<String, Value>, AllocError>
    ensures { IfOk result (λ m. members_view m.entries
        ≡ put_all (details_members info.now) no_members) }
{
    let members = [
        ("source", Member::OptionalText(&info.source)),
        ("path", Member::OptionalText(&info.path)),
        ("manifest_path", Member::Text(info.manifest_path.as_str())),
        ("edition", Member::Text(info.edition.as_str())),
        ("authors", Member::Texts(&info.authors)),
        ("categories", Member::Texts(&info.categories)),
        ("keywords", Member::Texts(&info.keywords)),
        ("description", Member::OptionalText(&info.description)),
        ("license", Member::OptionalText(&info.license)),
        ("license_file", Member::OptionalText(&info.license_file)),
        ("readme", Member::OptionalText(&info.readme)),
        ("repository", Member::OptionalText(&info.repository)),
        ("homepage", Member::OptionalText(&info.homepage)),
        ("documentation", Member::OptionalText(&info.documentation)),
        ("links", Member::OptionalText(&info.links)),
        ("default_run", Member::OptionalText(&info.default_run)),
        ("rust_version", Member::OptionalText(&info.rust_version)),
        ("publish", Member::OptionalTexts(&info.publish)),
    ];
    object_of(alloc, &members)
}

impl Written for FeatureRecord {
    ghost use Rattle.record_writing.specs.Rows.{feature_data};

    ghost object = { feature_data };

    fn written(&self, alloc: Global) -> Result<Value, AllocError> {
        let members = [
            ("name", Member::Text(self.name.as_str())),
            ("enables", Member::Texts(&self.enables)),
        ];
        Ok(Value::Object(object_of(alloc, &members)?))
    }
}
