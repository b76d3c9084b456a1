// What is told a person on standard error.
use kl_host::HostStore;
use kl_jobs::Cause;
use kl_messages::{Ended, message};
use std::env;
use std::rt::{Env, Files};

/// Tells on standard error why a command was refused, in a line or two. What can't be written there is left out, so this changes nothing
/// of how the command ended.
pub fn tell<R: Env + Eprint + AllocGlobal, F: Files + Drop>(
    rt: &R,
    words: Option<&[Vec<u8>]>,
    cause: &Cause,
    store: &mut HostStore<F>,
) {
    let path = env::current_dir(rt);
    let folder = path.as_ref().ok().and_then(|path| path.to_str());
    let refused = store.last_failure(rt.alloc());
    let failure = refused.as_ref().map(|text| text.as_str());
    tell_ended(rt, words, cause, folder, failure, store);
}

fn tell_ended<'a, R: Eprint + AllocGlobal, F: Files + Drop>(
    rt: &R,
    words: Option<&'a [Vec<u8>]>,
    cause: &'a Cause,
    folder: Option<&'a str>,
    failure: Option<&'a str>,
    store: &mut HostStore<F>,
) {
    let ended = Ended {
        words,
        cause,
        folder,
        failure,
    };
    let _ = match message(rt.alloc(), &ended, store) {
        Ok(text) => eprint!(rt; "{text}"),
        Err(_) => eprintln!(rt; "relink: {cause}"),
    };
}

/// Tells on standard error that memory ran out.
pub fn tell_no_memory<R: Eprint>(rt: &R) {
    let cause = Cause::NoMemory;
    let _ = eprintln!(rt; "relink: {cause}");
}
