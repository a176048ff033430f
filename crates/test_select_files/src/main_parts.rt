//! How a program begins and ends: the words of its command line, and its status.

ghost use Rattle.std.specs.Prelude.{◌≡◌, ◌⊎◌, IfErr, IfOk};
ghost use Rattle.std.specs.Process.{exit_status};

use std::alloc::AllocGlobal;
use std::io::{self, ErrorKind};
use std::process::ExitCode;

/// The words of the command line, the program's name first.
pub fn words(rt: &HostRuntime) -> io::Result<Vec<String>> {
    let mut words = Vec::new(rt.alloc());
    for word in std::env::args(rt)? {
        if words.push(word).is_err() {
            return Err(io::Error::from(ErrorKind::OutOfMemory));
        }
    }
    Ok(words)
}

/// The status that a run answered; or, if it could not begin, 1 for want of memory and 2 for a word that is
/// not UTF-8, with a line on standard error.
pub fn exit_code(rt: &HostRuntime, ended: io::Result<u8>) -> ExitCode
    ensures ran { IfOk ended (λ status. exit_status result ≡ status) }
    ensures not_begun { IfErr ended (λ _. (exit_status result ≡ 1) ⊎ (exit_status result ≡ 2)) }
{
    match ended {
        Ok(status) => ExitCode::from(status),
        Err(error) if error.kind() == ErrorKind::OutOfMemory => {
            let _ = eprintln!(rt; "out of memory");
            ExitCode::from(1)
        }
        Err(_) => {
            let _ = eprintln!(rt; "error: an argument is not UTF-8");
            ExitCode::from(2)
        }
    }
}
