//! A flag for each of several things, and lists of those whose flag is set.

ghost use Rattle.std.specs.Prelude.{◌≡◌, ◌≤◌, ◌++◌, ◌∷◌, [], All, IfOk, OnOk, replicate, if◌then◌else◌};
ghost use Rattle.numbered_graph.specs.Sets.{has};

use std::alloc::{AllocError, Global};

/// So many flags, all alike.
pub fn flags_of(alloc: Global, flag: bool, count: usize) -> Result<Vec<bool>, AllocError>
    ensures { IfOk result (λ v. v.items ≡ replicate count flag) }
{
    vec![in alloc; flag; count]
}

/// Whether the flag at the place is set. Past the last flag none is.
pub fn is_set(flags: &[bool], place: usize) -> bool
    ensures { result ≡ has flags.now place }
{
    place < flags.len() && flags[place]
}

/// Puts the number at the end of the list where the flag is set.
pub fn push_if(numbers: &mut Vec<usize>, number: usize, flag: bool) -> Result<(), AllocError>
    ensures { OnOk result (numbers.new.items
        ≡ (if flag then numbers.old.items ++ number ∷ [] else numbers.old.items)) }
{
    if flag {
        numbers.push(number)?;
    }
    Ok(())
}

/// The greatest of the numbers, or 0.
pub fn highest(numbers: &[usize]) -> usize
    ensures { All (λ n. n ≤ result) numbers.now }
{
    let mut top = 0;
    for number in numbers {
        if *number > top {
            top = *number;
        }
    }
    top
}
