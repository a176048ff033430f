//! Runs of the program with each of its subcommands.

use crate::files::Files;
use crate::refusals::turns::{AllocatingCall, Refusal, refuse_in_turn};
use crate::runs::RUNS;
use std::alloc::Global;
use test_select::run;

/// Runs the program, and tells what it prints. A run that is refused memory says so.
#[derive(Drop)]
struct Runs<'a, 'b> {
    words: &'a [&'b str],
    out: Vec<u8>,
    err: Vec<u8>,
}

impl AllocatingCall for Runs<'_, '_> {
    fn answer(&mut self, alloc: Global) -> Result<String, Refusal> {
        self.out.clear();
        self.err.clear();
        let status = run(alloc, self.words, &mut Files, &mut self.out, &mut self.err);
        if status == 0 {
            return match String::from_utf8(self.out.to_vec(alloc)?) {
                Ok(text) => Ok(text),
                Err(_) => Err(Refusal::Other),
            };
        }
        let is_told = self.err.as_slice() == b"out of memory\n".as_slice();
        if status == 1 && self.out.is_empty() && is_told {
            return Err(Refusal::Memory);
        }
        Err(Refusal::Other)
    }
}

#[test]
fn subcommands(rt: HostRuntime) {
    for (words, wanted) in RUNS {
        let out = Vec::with_capacity(rt.alloc(), 1024).expect(&rt, "memory");
        let err = Vec::with_capacity(rt.alloc(), 1024).expect(&rt, "memory");
        refuse_in_turn(&rt, rt.alloc(), &mut Runs { words, out, err }, wanted);
    }
}
