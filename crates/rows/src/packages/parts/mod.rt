//! Sources, targets, restrictions and statuses of the rows of `parts.json`, compared with what each has
//! to be.

mod part_rows;
mod platforms;
mod printing;

pub(crate) use crate::packages::parts::part_rows::PartRows;
