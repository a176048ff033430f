//! Paths compared by their components, without memory.

ghost use Rattle.std.specs.Prelude.{◌≡◌, ◌<◌, ◌↔◌, List, ℕ, ◌∷◌, [], IsTrue, IfSome, MatchOption, length};
ghost use Rattle.std.specs.Cmp.Lexicographic.{slice_cmp};
ghost use Rattle.list_facts.specs.Ascending.{text_cmp};
ghost use Rattle.guppy_package_rules.specs.Paths.{is_relative, is_part, parts, components, path_cmp, with_part};

use std::cmp::Ordering;

// As with Rust's paths; `..` is a part like others. The empty path and `.` are one path, `/` is another.
/// Compares two paths by their components: those that begin with a `/` come first, and then parts
/// are compared in turn, byte by byte. Empty parts and `.` do not count.
pub fn compare_paths(a: &str, b: &str) -> Ordering
    ensures { result ≡ path_cmp a.now b.now }
{
    is_relative(a)
        .cmp(&is_relative(b))
        .then_with(|| compare_parts(a, b))
}

/// Whether two paths have the same components.
pub fn same_path(a: &str, b: &str) -> bool
    ensures { IsTrue result ↔ (components a.now ≡ components b.now) }
{
    compare_paths(a, b).is_eq()
}

/// Whether a path does not begin with a `/`.
pub fn is_relative(path: &str) -> bool
    ensures { result ≡ is_relative path.now }
{
    !path.starts_with('/')
}

fn compare_parts(a: &str, b: &str) -> Ordering
    ensures { result ≡ slice_cmp text_cmp (parts a.now) (parts b.now) }
{
    let mut a_left = a;
    let mut b_left = b;
    while let Some((a_part, a_after)) = next_part(a_left) {
        let Some((b_part, b_after)) = next_part(b_left) else {
            return Ordering::Greater;
        };
        match a_part.cmp(b_part) {
            Ordering::Equal => {}
            Ordering::Less => return Ordering::Less,
            Ordering::Greater => return Ordering::Greater,
        }
        a_left = a_after;
        b_left = b_after;
    }
    match next_part(b_left) {
        Some(_) => Ordering::Less,
        None => Ordering::Equal,
    }
}

/// The first part of a path and what follows it.
fn next_part(path: &str) -> Option<(&str, &str)>
    ensures part { MatchOption result (parts path.now ≡ [])
        (λ r. parts path.now ≡ r.0.now ∷ parts r.1.now) }
    ensures shorter { IfSome result (λ r. length r.1.now < length path.now) }
{
    let mut rest = path;
    while !rest.is_empty() {
        let (first, after) = cut_at_slash(rest);
        if is_part(first) {
            return Some((first, after));
        }
        rest = after;
    }
    None
}

/// What stands before the first `/`, and what stands after it.
fn cut_at_slash(path: &str) -> (&str, &str)
    requires { 0 < length path.now }
    ensures parts { parts path.now ≡ with_part result.0.now (parts result.1.now) }
    ensures shorter { length result.1.now < length path.now }
{
    match path.split_once('/') {
        Some((first, after)) => (first, after),
        None => (path, ""),
    }
}

/// Whether what stands between two slashes counts: it is not empty, and not `.`.
pub fn is_part(text: &str) -> bool
    ensures { result ≡ is_part text.now }
{
    !text.is_empty() && text != "."
}

/// A path that is compared by its components.
#[derive(Clone, Copy, Debug, Drop)]
pub struct PathText<'a> {
    pub text: &'a str,
}

impl PartialEq for PathText<'_> {
    ghost use Rattle.guppy_package_rules.specs.PathOrder.{path_text_eq, path_text_eq_laws};

    ghost eq = { path_text_eq };

    ghost laws = { path_text_eq_laws };

    fn eq(&self, other: &Self) -> bool {
        compare_paths(self.text, other.text).is_eq()
    }
}

impl Eq for PathText<'_> {
    ghost use Rattle.guppy_package_rules.specs.PathOrder.{path_text_equivalence};

    ghost laws = { path_text_equivalence };
}

impl PartialOrd for PathText<'_> {
    ghost use Rattle.std.specs.Ordering.{as_partial_cmp};
    ghost use Rattle.guppy_package_rules.specs.PathOrder.{path_text_cmp, path_text_cmp_laws};

    ghost partial_cmp = { as_partial_cmp path_text_cmp };

    ghost laws = { path_text_cmp_laws };

    fn partial_cmp(&self, other: &Self) -> Option<Ordering> {
        Some(self.cmp(other))
    }
}

impl Ord for PathText<'_> {
    ghost use Rattle.std.proofs.Common.{refl};
    ghost use Rattle.guppy_package_rules.specs.PathOrder.{path_text_cmp, path_text_total};

    ghost cmp = { path_text_cmp };

    ghost total = { path_text_total };

    ghost matches_partial_cmp = { λ a b. refl };

    ghost matches_eq = { λ a b. refl };

    fn cmp(&self, other: &Self) -> Ordering {
        compare_paths(self.text, other.text)
    }
}
