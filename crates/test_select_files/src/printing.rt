//! What a program prints.

ghost use Rattle.std.specs.Prelude.{◌≡◌, ◌≢◌, Err, IfErr, IsErrAnd};
ghost use Rattle.clap.specs.Words.{kind_of};
ghost use Rattle.clap.specs.declared.error.ErrorKind.TheVariants.{DisplayHelp, DisplayVersion, OutOfMemory};
ghost use Rattle.list_facts.specs.Writers.{Writes};
ghost use Rattle.test_select_files.specs.Failures.{status_of};
ghost use Rattle.test_select_files.specs.Mistakes.{IsBadLine};
ghost use Rattle.test_select_files.specs.declared.run_failure.RunFailure.TheVariants.{Memory};

use crate::run_failure::RunFailure;
use clap::Error;
use list_facts::write_bytes;
use std::io::{self, Write};

/// Shows what was asked for in place of a run: the help, or the version. A command line that is refused is
/// not shown here.
pub fn show<'a, O: Write>(shown: Error, out: &mut O) -> Result<(), RunFailure<'a>>
    ensures bad_words { IfErr result (λ f. status_of f ≡ 2
        → O.contents out.new ≡ O.contents out.old) }
    ensures memory { kind_of shown ≡ OutOfMemory → (result ≡ Err Memory)
        × (O.contents out.new ≡ O.contents out.old) }
    ensures refused { kind_of shown ≢ DisplayHelp → kind_of shown ≢ DisplayVersion
        → IsErrAnd result IsBadLine × (O.contents out.new ≡ O.contents out.old) }
{
    if shown.use_stderr() {
        return Err(RunFailure::from(shown));
    }
    write!(out, "{shown}")?;
    out.flush()?;
    Ok(())
}

/// Writes the bytes, and flushes them: a run that ends early, as after a no, flushes nothing later.
pub fn write_out<O: Write>(out: &mut O, bytes: &[u8]) -> io::Result<()>
    ensures writes { Writes (O.contents out.old) (O.contents out.new) result bytes.now }
{
    write_bytes(out, bytes)?;
    out.flush()
}
