//! The table of a platform: which specs of a record hold there.

ghost use Rattle.std.specs.Prelude.{◌≡◌, List, false, map, IfErr, IfOk};
ghost use Rattle.indexmap.specs.IndexMap.{get_by_text};
ghost use Rattle.workspace_record.specs.Records.{Text};
ghost use Rattle.workspace_record.specs.Tables.{answer};
ghost use Rattle.cargo_files.specs.TableAnswers.{IsAnswer, IsRefusal, IsRefusedAs, Says, specs_of};

use crate::setting::CfgSetting;
use crate::spec::spec_holds;
use crate::spec_fault::SpecFault;
use indexmap::IndexMap;
use std::alloc::{AllocError, AllocFailed, Global};
use std::fmt;
use workspace_record::{LinkRecord, PlatformTable, WorkspaceRecord};

/// Why there is no table.
#[derive(Debug, Drop, PartialEq, Eq)]
pub enum TableError {
    /// A spec of the record cannot be read.
    Spec(String, SpecFault),
    /// There was no memory for the table.
    Memory,
}

impl fmt::Display for TableError {
    fn fmt<W: fmt::Write>(&self, f: &mut fmt::Formatter<W>) -> fmt::Result {
        match self {
            TableError::Spec(spec, fault) => write!(f, "spec `{spec}`: {fault}"),
            TableError::Memory => f.write_str("out of memory"),
        }
    }
}

impl From<AllocError> for TableError {
    ghost use Rattle.std.specs.Prelude.{◌≡◌};
    ghost use Rattle.cargo_files.specs.declared.cfg_table.TableError.TheVariants.{Memory};

    ghost from_gives = { λ _ e. e ≡ Memory };

    fn from(_refused: AllocError) -> TableError {
        TableError::Memory
    }
}

impl<T: Drop> From<AllocFailed<T>> for TableError {
    ghost use Rattle.std.specs.Prelude.{◌≡◌};
    ghost use Rattle.cargo_files.specs.declared.cfg_table.TableError.TheVariants.{Memory};

    ghost from_gives = { λ _ e. e ≡ Memory };

    fn from(_refused: AllocFailed<T>) -> TableError {
        TableError::Memory
    }
}

/// The answers to all specs of the record, for the platform with this triple and these settings. No
/// unknown answer counts, since there is none.
pub fn table_of(
    alloc: Global,
    workspace: &WorkspaceRecord,
    triple: &str,
    settings: &[CfgSetting],
) -> Result<PlatformTable, TableError>
    ensures answers { IfOk result (λ t. (spec : Text)
        → IsAnswer triple.now settings.now (specs_of workspace.now.links) spec (answer t spec)) }
    ensures unknown { IfOk result (λ t. t.unknown_counts ≡ false) }
    ensures refused { IfErr result (λ e. IsRefusal (specs_of workspace.now.links) e) }
{
    let specs = specs_of(alloc, &workspace.links)?;
    let answers = answers_to(alloc, &specs, triple, settings)?;
    Ok(PlatformTable {
        answers,
        unknown_counts: false,
    })
}

/// The specs of all lines, in order.
fn specs_of<'a>(alloc: Global, links: &'a [LinkRecord]) -> Result<Vec<&'a str>, AllocError>
    ensures { IfOk result (λ v. map (λ s. s.now) v.items ≡ specs_of links.entry.now) }
{
    let mut specs = Vec::new(alloc);
    for link in links {
        for line in &link.lines {
            if let Some(spec) = &line.spec {
                specs.push(spec.as_str())?;
            }
        }
    }
    Ok(specs)
}

/// The answer to each of the specs.
fn answers_to(
    alloc: Global,
    specs: &[&str],
    triple: &str,
    settings: &[CfgSetting],
) -> Result<IndexMap<String, bool>, TableError>
    ensures answers { IfOk result (λ m. (spec : Text)
        → IsAnswer triple.now settings.now (map (λ s. s.now) specs.now) spec (get_by_text m spec)) }
    ensures refused { IfErr result (λ e. IsRefusal (map (λ s. s.now) specs.now) e) }
{
    let mut answers = IndexMap::new(alloc);
    for spec in specs {
        let answer = answer_to(alloc, spec, triple, settings)?;
        let spec = String::from_str(alloc, spec)?;
        drop(answers.insert(spec, answer)?);
    }
    Ok(answers)
}

/// The answer to a spec.
fn answer_to(
    alloc: Global,
    spec: &str,
    triple: &str,
    settings: &[CfgSetting],
) -> Result<bool, TableError>
    ensures says { IfOk result (λ b. Says triple.now settings.now spec.now b) }
    ensures refused { IfErr result (λ e. IsRefusedAs spec.now e) }
{
    match spec_holds(spec, triple, settings) {
        Ok(holds) => Ok(holds),
        Err(fault) => {
            let spec = String::from_str(alloc, spec)?;
            Err(TableError::Spec(spec, fault))
        }
    }
}
