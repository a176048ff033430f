//! Links with some of their lines.

ghost use Rattle.std.specs.Prelude.{◌≡◌, ◌<◌, All, IfOk, length};
ghost use Rattle.std.specs.List.Sorted.{IsStrictlyIncreasing};
ghost use Rattle.workspace_record.specs.LinesAt.{lines_at};

use crate::link::{LineRecord, LinkRecord};
use std::alloc::{AllocError, Global};

impl LinkRecord {
    /// The link with just the lines at these places, in memory of its own.
    pub fn copy_some(&self, alloc: Global, places: &[usize]) -> Result<LinkRecord, AllocError>
        requires in_range { All (λ i. i < length self.now.lines) places.now }
        requires ascending { IsStrictlyIncreasing places.now }
        ensures { IfOk result (λ l. l ≡ record self.now {
          lines = lines_at self.now.lines
              places.now;
        }) }
    {
        let lines = copy_lines_at(alloc, &self.lines, places)?;
        let mut link = self.copy_without_lines(alloc)?;
        link.lines = lines;
        Ok(link)
    }
}

fn copy_lines_at(
    alloc: Global,
    lines: &[LineRecord],
    places: &[usize],
) -> Result<Vec<LineRecord>, AllocError>
    requires { All (λ i. i < length lines.now) places.now }
    ensures { IfOk result (λ v. v.items ≡ lines_at lines.now places.now) }
{
    let mut copies = Vec::with_capacity(alloc, places.len())?;
    for place in places {
        let line = &lines[*place];
        copies.push(line.copy(alloc)?)?;
    }
    Ok(copies)
}
