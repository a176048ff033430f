//! Rows of wanted answers, each compared with what comes: of graphs over numbers, of packages, of features and
//! of filters; of files of every kind, and what Cargo and rustc print, turned into such files. Those of
//! selections and of the program stand in `selection_rows`, so that these are proved beside what those need.
#![tactic(auto)]

mod features;
mod files;
mod filters;
mod ids;
mod numbers;
mod packages;
mod records;

use crate::files::{CargoRows, FileRows, ReasonRows};
use row_program::run_file;
use std::io::{self, Write};
use std::process::ExitCode;

fn main(rt: HostRuntime) -> io::Result<ExitCode> {
    let mut out = rt.stdout();
    let same = run_rows(&rt, &mut out)?;
    Ok(ExitCode::from(if same { 0 } else { 1 }))
}

fn run_rows<W: Write>(rt: &HostRuntime, out: &mut W) -> io::Result<bool> {
    let packages = run_packages(rt, out)?;
    let features = run_features(rt, out)?;
    let filters = run_filters(rt, out)?;
    let files = run_files(rt, out)?;
    Ok(packages && features && filters && files)
}

fn run_packages<W: Write>(rt: &HostRuntime, out: &mut W) -> io::Result<bool> {
    let numbers = run_file(
        rt,
        "number graphs",
        "number_graphs.json",
        &mut numbers::GraphRows,
        out,
    )?;
    let offers = run_file(rt, "offers", "offers.json", &mut numbers::OfferRows, out)?;
    let parts = run_file(rt, "parts", "parts.json", &mut packages::PartRows, out)?;
    let rules = run_file(rt, "rules", "rules.json", &mut packages::RuleRows, out)?;
    let graphs = run_file(
        rt,
        "package graphs",
        "package_graphs.json",
        &mut packages::GraphRows,
        out,
    )?;
    Ok(numbers && offers && parts && rules && graphs)
}

fn run_features<W: Write>(rt: &HostRuntime, out: &mut W) -> io::Result<bool> {
    let nodes = run_file(rt, "nodes", "nodes.json", &mut features::NodeRows, out)?;
    let graphs = run_file(
        rt,
        "feature graphs",
        "feature_graphs.json",
        &mut features::GraphRows,
        out,
    )?;
    let accounts = run_file(
        rt,
        "accounts",
        "accounts.json",
        &mut features::AccountRows,
        out,
    )?;
    Ok(nodes && graphs && accounts)
}

fn run_filters<W: Write>(rt: &HostRuntime, out: &mut W) -> io::Result<bool> {
    let matchers = run_file(
        rt,
        "matchers",
        "matchers.json",
        &mut filters::MatcherRows,
        out,
    )?;
    let texts = run_file(rt, "texts", "texts.json", &mut filters::PlaceRows, out)?;
    let syntax = run_file(rt, "syntax", "syntax.json", &mut filters::FilterRows, out)?;
    let compiled = run_file(
        rt,
        "compiled",
        "compiled.json",
        &mut filters::CompiledRows,
        out,
    )?;
    Ok(matchers && texts && syntax && compiled)
}

fn run_files<W: Write>(rt: &HostRuntime, out: &mut W) -> io::Result<bool> {
    let files = run_file(rt, "files", "files.json", &mut FileRows, out)?;
    let reasons = run_file(rt, "reasons", "reasons.json", &mut ReasonRows, out)?;
    let cargo = run_file(rt, "cargo", "cargo.json", &mut CargoRows, out)?;
    let example = run_file(
        rt,
        "cargo example",
        "cargo_example.json",
        &mut CargoRows,
        out,
    )?;
    Ok(files && reasons && cargo && example)
}
