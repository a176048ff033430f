//! Runs of the program.

pub(crate) const TESTS: [&str; 8] = [
    "test_select",
    "tests",
    "--record",
    "record.json",
    "--choice",
    "choice.json",
    "--listings",
    "listings.json",
];

/// Each subcommand with its words, and what it prints.
pub(crate) const RUNS: [(&[&str], &str); 9] = [
    (
        &TESTS,
        "app one\napp::net get\nutil two\nutil::wide lanes\n",
    ),
    (
        &[
            "test_select",
            "tests",
            "--record",
            "record.json",
            "--choice",
            "choice.json",
            "--table",
            "table.json",
            "--listings",
            "listings.json",
            "package(=app)",
        ],
        "app one\napp::net get\n",
    ),
    (
        &[
            "test_select",
            "account",
            "--record",
            "record.json",
            "--choice",
            "choice.json",
        ],
        "{\"rules\":[0,1,2,3,8,9]}\n",
    ),
    (
        &[
            "test_select",
            "check",
            "--record",
            "record.json",
            "--choice",
            "choice.json",
            "--account",
            "account.json",
        ],
        "accepted\n",
    ),
    (
        &[
            "test_select",
            "explain",
            "--record",
            "record.json",
            "--choice",
            "choice.json",
            "util",
            "simd",
        ],
        "{\"goal\":{\"package\":\"util\",\"feature\":\"simd\"},\"rules\":[2,3,8,9]}\n",
    ),
    (
        &[
            "test_select",
            "order",
            "--record",
            "record.json",
            "--choice",
            "choice.json",
        ],
        "util\napp\n",
    ),
    (
        &["test_select", "features", "--record", "record.json"],
        "app/[base]\nutil/[base]\n",
    ),
    (
        &["test_select", "rules", "--record", "record.json"],
        "0: -> app/[base]
1: -> util/[base]
2: app/full -> app/[base]
3: app/fast -> app/[base]
4: app/dep:util -> app/[base]
5: util/simd -> util/[base]
6: app/full -> app/dep:util
7: app/fast, app/dep:util -> util/simd
8: app/dep:util -> util/[base]
",
    ),
    (
        &[
            "test_select",
            "why",
            "--record",
            "record.json",
            "--choice",
            "choice.json",
            "--table",
            "table.json",
            "--listings",
            "listings.json",
            "-E",
            "package(=app)",
            "app::net",
            "get",
        ],
        "chosen by filter 0\n",
    ),
];
