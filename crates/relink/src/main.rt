//! `relink`: links a kernel anew from kept object files.
#![tactic(auto)]

ghost use Rattle.std.specs.Prelude.{◌≡◌};
ghost use Rattle.std.specs.Process.{exit_status};

mod messages;

use kl_cli::{Exit, run};
use kl_host::{HostEntropy, HostSink, HostStore};
use kl_jobs::Cause;
use std::env;
use std::io::{self, ErrorKind};
use std::process::ExitCode;
use std::rt::Env;

fn main(rt: HostRuntime) -> ExitCode {
    let alloc = rt.alloc();
    let (words, is_text) = match words_after_name(&rt) {
        Ok(words) => (words, true),
        Err(e) if e.kind() == ErrorKind::OutOfMemory => {
            messages::tell_no_memory(&rt);
            return code_of(&Exit::of(Cause::NoMemory, 0));
        }
        // a word that isn't UTF-8 is no command
        Err(_) => (Vec::new(alloc), false),
    };
    let mut store = HostStore::new(&rt, alloc);
    let mut entropy = HostEntropy::new(&rt);
    let mut out = HostSink::new(&rt);
    let exit = run(alloc, &words, &mut store, &mut entropy, &mut out);
    let told = if is_text {
        Some(words.as_slice())
    } else {
        None
    };
    messages::tell(&rt, told, &exit.cause, &mut store);
    code_of(&exit)
}

/// The status of the process.
fn code_of(exit: &Exit) -> ExitCode
    ensures { exit_status result ≡ exit.now.status }
{
    ExitCode::from(exit.status)
}

/// The words of the command line after the program's name.
fn words_after_name<R: Env + AllocGlobal>(rt: &R) -> io::Result<Vec<Vec<u8>>> {
    let mut words = Vec::new(rt.alloc());
    for word in env::args(rt)?.skip(1) {
        words.push(word.into_bytes())?;
    }
    Ok(words)
}
