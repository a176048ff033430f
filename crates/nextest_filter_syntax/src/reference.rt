//! The reference of the filter language.

/// What may stand in a filter, with an example for each predicate.
pub const FILTERSET_REFERENCE_MD: &str = "\
# Filters

A filter names a set of tests by predicates and operators.

## Predicates

| Predicate | Tests | Example |
|---|---|---|
| `all()` | every test | `all()` |
| `none()` | no test | `none()` |
| `default()` | those of the default filter | `default() - test(slow)` |
| `package(name)` | those of packages, by their names | `package(my-app)` |
| `deps(name)` | those of packages and of what they depend on | `deps(my-app)` |
| `rdeps(name)` | those of packages and of what depends on them | `rdeps(my-lib)` |
| `kind(name)` | those of binaries of a kind, as `lib` or `test` | `kind(test)` |
| `binary(name)` | those of binaries, by their names | `binary(net)` |
| `binary_id(id)` | those of binaries, by their ids | `binary_id(my-app::net)` |
| `platform(name)` | those built for `host` or `target` | `platform(host)` |
| `test(name)` | those whose names match | `test(parses)` |
| `group(name)` | those of groups | `group(serial)` |
| `feature(name)` | those of packages with a feature that is on | `feature(simd)` |

## Matchers

| Matcher | Matches | Example |
|---|---|---|
| `=text` | the text itself, the default of `kind` | `test(=tests::parses)` |
| `~text` | what contains the text, the default of `test` | `package(~app)` |
| `#glob` | what the glob matches, the default of the others | `package(#my-*)` |
| `/regex/` | what the regular expression is found in | `test(/^tests::/)` |

A text ends before `)` or `,`.
In it `\\n`, `\\r`, `\\t`, `\\b`, `\\f`, `\\\\`, `\\/`, `\\)`, `\\,` and `\\u{7FFF}` are escapes.

## Operators

| Operator | Tests | Example |
|---|---|---|
| `not a`, `!a` | those that are not of `a` | `not test(slow)` |
| `a and b`, `a & b` | those of both | `package(my-app) & kind(lib)` |
| `a - b` | those of `a` that are not of `b` | `all() - test(slow)` |
| `a or b`, `a \\| b`, `a + b` | those of either | `test(one) + test(two)` |

`not` binds tightest, then `and`, `&` and `-`, then `or`, `|` and `+`; of one sort the left one first.
Parentheses group: `not (test(one) or test(two))`.
";
