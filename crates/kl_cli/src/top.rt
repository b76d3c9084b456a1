// The top call.
ghost use Rattle.std.specs.Prelude.{◌≡◌, ◌≢◌, ◌↔◌, ◌⊎◌, None, Some, IfErr, IfOk, IsErrAnd};
ghost use Rattle.std.specs.Option.{ForSome};
ghost use Rattle.kl_store.specs.Calls.{HasCause, Rose, Stays};
ghost use Rattle.kl_store.specs.Images.{LeavesOfDisk};
ghost use Rattle.kl_store.specs.Outside.{Writes};
ghost use Rattle.kl_jobs.specs.Refusals.{RefusesJob};
ghost use Rattle.kl_jobs.specs.Seeds.{Draws, NoneDrawn};
ghost use Rattle.kl_jobs.specs.declared.cause.Cause.TheVariants as cause;
ghost use Rattle.kl_cli.specs.Commands.{AsksForMemory, IsInMemory, IsRequest, request_of};
ghost use Rattle.kl_cli.specs.Answers.{Answers, IsAtEnd, IsDoneInMemory, IsNoEnd, MayChange, Says, StandsSo, batches_of, cause_of, early, given_seed, late, lines_of, status_of, texts};
ghost use Rattle.kl_cli.specs.Done.{ComesToEnd, Does, Finishes, refusal_of};
ghost use Rattle.kl_cli.specs.Exits.{Fails, FailsSo, IsCrash, Keeps, LeavesAlone, MayLeaveSo};

use crate::command::{Command, Request};
use crate::exit::Exit;
use crate::outcome::Outcome;
use kl_generate::generate;
use kl_jobs::{Cause, JobFault, link_only, recover_all, reorder_kernel};
use kl_lines::{write_cause, write_generate, write_kernel, write_link, write_slots};
use kl_store::{Entropy, Failed, Sink, Store};
use std::alloc::Global;

/// Does what the words ask for, and writes the lines of it. The words don't name the program.
///
/// `link DIR` links the kit in the folder `DIR` of the store, in the order and with the gaps that are drawn from a seed. `reorder_kernel`
/// links the kernel's kit so, and installs the kernel with its record and its map. `recover` completes what was stopped. `generate N` makes
/// the kit of a kernel of `N` objects in memory and links it. With `--seed HEX` behind it, but for `recover`, that is the seed; without it
/// `link` and `reorder_kernel` take the next block of the source of random bytes, and `generate` zeros.
pub fn run<S: Store, E: Entropy, K: Sink>(
    alloc: Global,
    words: &[Vec<u8>],
    store: &mut S,
    entropy: &mut E,
    out: &mut K,
) -> Exit
    // The answer is the first refusal that stands in the words and files, or that all was done, but for want of memory
    // and a counted fault of the store, of the source of random bytes or of the sink.
    ensures usage { (result.cause ≡ Cause.Usage) ↔ (request_of (texts words.now) ≡ None) }
    ensures answer { Answers (texts words.now) (E.meaning entropy.old) (E.meaning entropy.new) (S.meaning store.old) result.cause }
    ensures failed { result.cause ≡ Cause.Store → Rose (S.faults store.old) (S.faults store.new) }
    ensures entropy { result.cause ≡ Cause.Entropy → Rose (E.faults entropy.old) (E.faults entropy.new) }
    ensures sink { result.cause ≡ Cause.Sink → Rose (K.faults out.old) (K.faults out.new) }
    ensures memory { AsksForMemory (request_of (texts words.now)) → IsDoneInMemory result.cause }
    ensures status { result.status ≡ status_of result.cause }

    // What a command leaves that came to its end, stable on the disk; that another changes no name and counts no batch; and what is
    // left where a call of the store failed.
    ensures done { IsAtEnd result.cause → ComesToEnd (request_of (texts words.now)) (E.meaning entropy.old) (E.meaning entropy.new) (S.meaning store.old) (S.meaning store.new) result.cause result.batches }
    ensures untouched { MayChange result.cause ⊎ ((result.batches ≡ 0) × Stays (S.meaning store.old) (S.meaning store.new)) }
    ensures stopped { result.cause ≡ Cause.Store → Fails (request_of (texts words.now)) (E.meaning entropy.old) (E.meaning entropy.new) result.batches (S.meaning store.old) (S.meaning store.new) }

    // What a stop leaves at each moment, and what every command leaves alone.
    ensures images { LeavesOfDisk (S.meaning store.old) (S.meaning store.new) (IsCrash (request_of (texts words.now)) (E.meaning entropy.old) (E.meaning entropy.new)) }
    ensures others { Keeps (request_of (texts words.now)) (S.meaning store.old) (S.meaning store.new) }

    // It takes one block at most, none with a seed, and none where the source failed.
    ensures draws { Draws (given_seed (request_of (texts words.now))) (E.meaning entropy.old) (E.meaning entropy.new) }
    ensures undrawn { result.cause ≡ Cause.Entropy → NoneDrawn (given_seed (request_of (texts words.now))) (E.meaning entropy.old) (E.meaning entropy.new) }

    // What is written.
    ensures says { Says (request_of (texts words.now)) (E.meaning entropy.old) (E.meaning entropy.new) (S.meaning store.old) (S.meaning store.new)
        result.cause (K.meaning out.old) (K.meaning out.new) (K.faults out.old) (K.faults out.new) }
{
    let ended = answer(alloc, words, store, entropy);
    let told = tell(out, &ended);
    let batches = batches_of(&ended);
    Exit::of(cause_of(ended, told.is_ok()), batches)
}

/// Does what the words ask for. Nothing is written to the sink yet.
fn answer<S: Store, E: Entropy>(
    alloc: Global,
    words: &[Vec<u8>],
    store: &mut S,
    entropy: &mut E,
) -> Result<Outcome, JobFault>
    ensures usage { IsErrAnd result (λ f. f.cause ≡ cause.Usage) ↔ (request_of (texts words.now) ≡ None) }
    ensures done { IfOk result (Finishes (request_of (texts words.now)) (E.meaning entropy.old) (E.meaning entropy.new) (S.meaning store.old) (S.meaning store.new)) }
    ensures stands { IfOk result (λ o. ForSome (S.meaning store.old).names
        (λ m. StandsSo (request_of (texts words.now)) (E.meaning entropy.old) (E.meaning entropy.new) m (refusal_of o))) }
    ensures refused { IfErr result (λ f. Answers (texts words.now) (E.meaning entropy.old) (E.meaning entropy.new) (S.meaning store.old) f.cause) }
    ensures refusal { IfErr result (λ f. IsNoEnd f.cause) }
    ensures memory { AsksForMemory (request_of (texts words.now)) → IfErr result (λ f. f.cause ≡ cause.NoMemory) }
    ensures failed { IfErr result (λ f. f.cause ≡ cause.Store → Rose (S.faults store.old) (S.faults store.new)) }
    ensures draws { Draws (given_seed (request_of (texts words.now))) (E.meaning entropy.old) (E.meaning entropy.new) }
    ensures undrawn { IfErr result (λ f. f.cause ≡ cause.Entropy → NoneDrawn (given_seed (request_of (texts words.now))) (E.meaning entropy.old) (E.meaning entropy.new)) }
    ensures entropy { IfErr result (λ f. f.cause ≡ cause.Entropy → Rose (E.faults entropy.old) (E.faults entropy.new)) }
    ensures untouched { IfErr result (λ f. (f.cause ≡ cause.Store) ⊎ ((f.batches ≡ 0) × Stays (S.meaning store.old) (S.meaning store.new))) }
    ensures stopped { IfErr result (λ f. f.cause ≡ cause.Store → Fails (request_of (texts words.now)) (E.meaning entropy.old) (E.meaning entropy.new) f.batches (S.meaning store.old) (S.meaning store.new)) }
    ensures images { LeavesOfDisk (S.meaning store.old) (S.meaning store.new) (IsCrash (request_of (texts words.now)) (E.meaning entropy.old) (E.meaning entropy.new)) }
    ensures others { Keeps (request_of (texts words.now)) (S.meaning store.old) (S.meaning store.new) }
{
    match Request::of_words(words) {
        Some(request) => execute(alloc, &request, store, entropy),
        None => Err(Cause::Usage.into()),
    }
}

/// The cause that is answered of how a command ended, by whether the sink took its lines: a sink that fails changes nothing of a refusal.
fn cause_of(ended: Result<Outcome, JobFault>, told: bool) -> Cause
    ensures { result ≡ cause_of ended told }
{
    match ended {
        Ok(outcome) => match outcome.refusal() {
            Some(cause) => cause,
            None if told => Cause::Done,
            None => Cause::Sink,
        },
        Err(fault) => fault.cause,
    }
}

/// How many batches were installed, or slots completed.
fn batches_of(ended: &Result<Outcome, JobFault>) -> u32
    ensures { result ≡ batches_of ended.now }
{
    match ended {
        Ok(outcome) => outcome.installed(),
        Err(fault) => fault.batches,
    }
}

/// Writes the lines of how a command ended.
fn tell<K: Sink>(out: &mut K, ended: &Result<Outcome, JobFault>) -> Result<(), Failed>
    ensures writes { Writes (lines_of ended.now) (K.meaning out.old) (K.meaning out.new) result }
    ensures cause { HasCause (K.faults out.old) (K.faults out.new) result }
{
    match ended {
        Ok(Outcome::Linked(dir, report)) => write_link(out, dir, report),
        Ok(Outcome::Relinked(report)) => write_kernel(out, report),
        Ok(Outcome::Recovered { kernel, libs }) => write_slots(out, kernel, libs),
        Ok(Outcome::Generated(count, report)) => write_generate(out, *count, report),
        Err(fault) => write_cause(out, &fault.cause),
    }
}

/// Does what a command asks for.
fn execute<S: Store, E: Entropy>(
    alloc: Global,
    request: &Request,
    store: &mut S,
    entropy: &mut E,
) -> Result<Outcome, JobFault>
    requires { IsRequest request.now.command request.now.seed }
    ensures done { IfOk result (Does request.now.command request.now.seed (E.meaning entropy.old) (E.meaning entropy.new) (S.meaning store.old) (S.meaning store.new)) }
    ensures stands { IfOk result (λ o. ForSome (S.meaning store.old).names
        (λ m. StandsSo (Some request.now) (E.meaning entropy.old) (E.meaning entropy.new) m (refusal_of o))) }
    ensures refused { IfErr result (λ f. RefusesJob request.now.seed (E.meaning entropy.old) (E.meaning entropy.new) (S.meaning store.old)
        (λ m. early m request.now.command) (λ m. late m request.now.command) f.cause) }
    ensures refusal { IfErr result (λ f. IsNoEnd f.cause) }
    ensures words { IfErr result (λ f. f.cause ≢ cause.Usage) }
    ensures memory { IsInMemory request.now.command → IfErr result (λ f. f.cause ≡ cause.NoMemory) }
    ensures failed { IfErr result (λ f. f.cause ≡ cause.Store → Rose (S.faults store.old) (S.faults store.new)) }
    ensures draws { Draws request.now.seed (E.meaning entropy.old) (E.meaning entropy.new) }
    ensures undrawn { IfErr result (λ f. f.cause ≡ cause.Entropy → NoneDrawn request.now.seed (E.meaning entropy.old) (E.meaning entropy.new)) }
    ensures entropy { IfErr result (λ f. f.cause ≡ cause.Entropy → Rose (E.faults entropy.old) (E.faults entropy.new)) }
    ensures untouched { IfErr result (λ f. (f.cause ≡ cause.Store) ⊎ ((f.batches ≡ 0) × Stays (S.meaning store.old) (S.meaning store.new))) }
    ensures stopped { IfErr result (λ f. f.cause ≡ cause.Store → FailsSo request.now.command request.now.seed (E.meaning entropy.old) (E.meaning entropy.new) f.batches (S.meaning store.old) (S.meaning store.new)) }
    ensures images { LeavesOfDisk (S.meaning store.old) (S.meaning store.new) (MayLeaveSo request.now.command request.now.seed (E.meaning entropy.old) (E.meaning entropy.new)) }
    ensures others { LeavesAlone request.now.command (S.meaning store.old) (S.meaning store.new) }
{
    match request.command {
        Command::Link(dir) => {
            let report = link_only(alloc, &dir, request.seed, store, entropy)?;
            Ok(Outcome::Linked(dir, report))
        }
        Command::ReorderKernel => {
            let report = reorder_kernel(alloc, request.seed, store, entropy)?;
            Ok(Outcome::Relinked(report))
        }
        Command::Recover => {
            let [kernel, libs] = recover_all(alloc, store)?;
            Ok(Outcome::Recovered { kernel, libs })
        }
        Command::Generate(count) => {
            let report = generate(alloc, count, &request.seed.unwrap())?;
            Ok(Outcome::Generated(count, report))
        }
    }
}
