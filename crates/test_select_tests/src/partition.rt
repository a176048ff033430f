//! A part of the tests: every so many of them.

ghost use Rattle.std.specs.Prelude.{◌≡◌, ℕ, ◌↔◌, ◌==◌, ◌-◌, ◌%◌, ◌≤◌, IfOk, Some, option_map};
ghost use Rattle.test_select_tests.specs.Partitions.{AsksForPart, WritesNumber, is_in_part, part_of};

use crate::selection::Selection;
use std::alloc::{AllocError, Global};

/// One of the parts into which tests are split in turn: the `part`th of `parts`, from 1.
#[derive(Clone, Copy, Debug, PartialEq, Eq)]
pub struct Partition {
    part: usize,
    parts: usize,
    ghost from_one: { 1 ≤ part },
    ghost within: { part ≤ parts },
}

impl Partition {
    ghost use Rattle.test_select_tests.specs.PartitionView.{partition_view};

    /// Reads `count:M/N`, as nextest writes it, for the `M`th of `N` parts; none where the text is anything
    /// else, or M is 0 or past N. Both are read as `usize` is parsed.
    pub fn from_text(text: &str) -> Option<Partition>
        ensures reads { (part parts : ℕ) → AsksForPart text.now part parts
            ↔ (option_map partition_view result ≡ Some (part, parts)) }
    {
        let (part, parts) = text.strip_prefix("count:")?.split_once('/')?;
        let (part, parts) = (number_of(part)?, number_of(parts)?);
        if 1 <= part && part <= parts {
            Some(Partition { part, parts })
        } else {
            None
        }
    }

    /// Whether what stands at the place, from 0, is of this part.
    fn holds(self, place: usize) -> bool
        ensures { result ≡ is_in_part self.part self.parts place }
    {
        place % self.parts == self.part - 1
    }
}

fn number_of(text: &str) -> Option<usize>
    ensures { (number : ℕ) → WritesNumber text.now number ↔ (result ≡ Some number) }
{
    text.parse().ok()
}

impl Selection {
    /// The selection with just the chosen tests of this part, in their order: those whose place, from 0, is
    /// M - 1 modulo N, counted over all binaries together. What was asked stays. Tests are moved, and none
    /// is copied.
    pub fn in_part(self, alloc: Global, partition: Partition) -> Result<Selection, AllocError>
        ensures part { IfOk result (λ s. s ≡ record {
          chosen = part_of partition.part partition.parts self.chosen;
          asked = self.asked;
        }) }
    {
        let (chosen, asked) = self.into_lists();
        Ok(Selection::new(tests_in(alloc, partition, chosen)?, asked))
    }
}

fn tests_in(
    alloc: Global,
    partition: Partition,
    tests: Vec<(String, String)>,
) -> Result<Vec<(String, String)>, AllocError>
    ensures { IfOk result (λ v. v.items ≡ part_of partition.part partition.parts tests.items) }
{
    let mut chosen = Vec::new(alloc);
    for (place, test) in tests.into_iter().enumerate() {
        if partition.holds(place) {
            chosen.push(test)?;
        }
    }
    Ok(chosen)
}
