//! Rows of what Cargo and its kin print, and of what is made of it.

use cargo_files::{
    FeatureWords, Refusal, RefusedFile, add_listing, choice_file, listings_file, nextest_listings,
    record_file, settings_file, spec_holds, table_file, tests_printed,
};
use cargo_record::RequestedMembers;
use record_files::read_record;
use record_writing::record_text;
use row_program::{Answers, Row, RowFault, RowRunner};
use std::alloc::Global;

/// Rows of conversions. A row's `kind` says what is made: `spec`, `table`, `record`, `choice`, or the
/// listings of one binary by `terse` or `nextest`. What comes is the file that is `made`, or of a spec
/// its answer, and else the line by which a file is `refused`. A record has to be read back as one.
#[derive(Drop)]
pub(crate) struct CargoRows;

impl RowRunner for CargoRows {
    fn inputs(&self) -> &'static [&'static str] {
        &[
            "kind",
            "cfg",
            "triple",
            "spec",
            "metadata",
            "packages",
            "workspace",
            "record",
            "features",
            "flags",
            "id",
            "printed",
            "list",
            "built",
        ]
    }

    fn run_row(
        &mut self,
        alloc: Global,
        row: Row<'_>,
        answers: &mut Answers,
    ) -> Result<(), RowFault> {
        match row.text("kind")? {
            "spec" => tell_spec(alloc, row, answers),
            "table" => tell_table(alloc, row, answers),
            "record" => tell_record(alloc, row, answers),
            "choice" => tell_choice(alloc, row, answers),
            "terse" => tell_terse(alloc, row, answers),
            "nextest" => tell_nextest(alloc, row, answers),
            _ => Err(RowFault::Key("kind")),
        }
    }
}

/// Whether the platform of the settings has what the spec asks for.
fn tell_spec(alloc: Global, row: Row<'_>, answers: &mut Answers) -> Result<(), RowFault> {
    let (spec, triple) = (row.text("spec")?, row.text("triple")?);
    match settings_file(alloc, row.text("cfg")?.as_bytes()) {
        Ok(settings) => match spec_holds(spec, triple, &settings) {
            Ok(holds) => {
                answers.show("made", &holds);
                answers.show("refused", &"");
            }
            Err(fault) => {
                answers.show("made", &"");
                answers.show("refused", &fault);
            }
        },
        Err(refusal) => tell_made("cfg.txt", Err(refusal), answers),
    }
    Ok(())
}

fn tell_table(alloc: Global, row: Row<'_>, answers: &mut Answers) -> Result<(), RowFault> {
    let (triple, printed) = (row.text("triple")?, row.text("cfg")?);
    let record = row.printed(alloc, "record")?;
    match settings_file(alloc, printed.as_bytes()) {
        Ok(settings) => {
            let table = table_file(alloc, record.as_bytes(), triple, &settings);
            tell_made("record.json", table, answers);
        }
        Err(refusal) => tell_made("cfg.txt", Err(refusal), answers),
    }
    Ok(())
}

/// The record, which has to be read as one of which just this file is made.
fn tell_record(alloc: Global, row: Row<'_>, answers: &mut Answers) -> Result<(), RowFault> {
    let names = row.texts(alloc, "packages")?;
    let metadata = row.printed(alloc, "metadata")?;
    let wanted = wanted_by(row.get("workspace").is_some(), &names);
    let made = record_file(alloc, metadata.as_bytes(), wanted);
    let is_kept = match &made {
        Ok(text) => reads_back(alloc, text.as_str()),
        Err(_) => true,
    };
    tell_made("metadata.json", made, answers);
    if is_kept {
        Ok(())
    } else {
        Err(RowFault::Key("made"))
    }
}

fn reads_back(alloc: Global, text: &str) -> bool {
    match read_record(alloc, text.as_bytes()) {
        Ok(record) => match record_text(alloc, &record) {
            Ok(again) => again.as_str() == text,
            Err(_) => false,
        },
        Err(_) => false,
    }
}

fn wanted_by<'m>(workspace: bool, names: &'m [&'m str]) -> RequestedMembers<'m> {
    if workspace {
        RequestedMembers::Workspace
    } else if names.is_empty() {
        RequestedMembers::Default
    } else {
        RequestedMembers::Named(names)
    }
}

fn tell_choice(alloc: Global, row: Row<'_>, answers: &mut Answers) -> Result<(), RowFault> {
    let flags = row.texts(alloc, "flags")?;
    let no_default_features = flags.contains(&"no-default-features");
    let all_features = flags.contains(&"all-features");
    let features = row.texts(alloc, "features")?;
    let record = row.printed(alloc, "record")?;
    let words = FeatureWords {
        features: &features,
        no_default_features,
        all_features,
    };
    let choice = choice_file(alloc, record.as_bytes(), words);
    tell_made("record.json", choice, answers);
    Ok(())
}

/// The listings of one binary, of what it printed, if it printed something.
fn tell_terse(alloc: Global, row: Row<'_>, answers: &mut Answers) -> Result<(), RowFault> {
    let id = row.text("id")?;
    let built = row.get("built").is_some();
    let printed = match row.get("printed") {
        Some(_) => Some(row.text("printed")?.as_bytes()),
        None => None,
    };
    tell_made("lists", terse_file(alloc, id, printed, built), answers);
    Ok(())
}

fn terse_file(
    alloc: Global,
    id: &str,
    printed: Option<&[u8]>,
    built: bool,
) -> Result<String, Refusal> {
    let tests = match printed {
        Some(printed) => Some(tests_printed(alloc, id, printed)?),
        None => None,
    };
    let mut listings = Vec::new(alloc);
    add_listing(alloc, &mut listings, id, tests, built)?;
    listings_file(alloc, &listings)
}

/// The listings of one binary, of what nextest listed.
fn tell_nextest(alloc: Global, row: Row<'_>, answers: &mut Answers) -> Result<(), RowFault> {
    let id = row.text("id")?;
    let built = row.get("built").is_some();
    let list = row.printed(alloc, "list")?;
    let file = nextest_file(alloc, id, list.as_bytes(), built);
    tell_made("nextest.json", file, answers);
    Ok(())
}

fn nextest_file(alloc: Global, id: &str, printed: &[u8], built: bool) -> Result<String, Refusal> {
    let ids = [String::from_str(alloc, id)?];
    let listings = nextest_listings(alloc, printed, &ids, built)?;
    listings_file(alloc, &listings)
}

/// Tells what is made of the file with this name, or why it is refused: one of both is an empty text.
fn tell_made(name: &str, made: Result<String, Refusal>, answers: &mut Answers) {
    match made {
        Ok(text) => {
            answers.show("made", &text);
            answers.show("refused", &"");
        }
        Err(refusal) => {
            answers.show("made", &"");
            answers.show("refused", &RefusedFile { name, refusal });
        }
    }
}
