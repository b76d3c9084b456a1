// The words of the command line.
ghost use Rattle.std.specs.Prelude.{◌≡◌, ◌≤◌, length, IfSome};
ghost use Rattle.kl_base.specs.declared.limits.TheConstants.{FILE_LIMIT};
ghost use Rattle.kl_generate.specs.declared.limits.TheConstants.{MADE_LIMIT};
ghost use Rattle.kl_cli.specs.Commands.{IsCommand, IsRequest, command_of, command_with, count_of, flagged, folder_of, own_seed, seed_of, seeded, takes_seed, unseeded};
ghost use Rattle.kl_cli.specs.Answers.{texts};

use kl_base::{FILE_LIMIT, Name};
use kl_generate::MADE_LIMIT;
use kl_text::number_of;

/// What is asked for.
#[derive(Clone, Copy, Debug, PartialEq, Eq)]
pub enum Command {
    /// Links the kit in a folder, whose name has at most `FILE_LIMIT` bytes.
    Link(Name),
    /// Links the kernel's kit, and installs the kernel with its record and its map.
    ReorderKernel,
    /// Completes the batches of files that were stopped.
    Recover,
    /// Makes the kit of a kernel of so many objects, from 1 to `MADE_LIMIT`, in memory, and links it.
    Generate(u32),
}

impl Command {
    ghost use Rattle.std.specs.Prelude.{◌≡◌};
    ghost use Rattle.kl_cli.specs.Commands.{own_seed, takes_seed};

    /// The seed of a command that draws none, where none is given with it.
    fn own_seed(&self) -> Option<[u8; 32]>
        ensures { result ≡ own_seed self.now }
    {
        match self {
            Command::Link(_) | Command::ReorderKernel => None,
            Command::Recover | Command::Generate(_) => Some([0; 32]),
        }
    }

    /// Whether a seed may be given with the command.
    fn takes_seed(&self) -> bool
        ensures { result ≡ takes_seed self.now }
    {
        match self {
            Command::Link(_) | Command::ReorderKernel | Command::Generate(_) => true,
            Command::Recover => false,
        }
    }
}

/// A command and its seed.
#[derive(Clone, Copy, Debug, PartialEq, Eq)]
pub struct Request {
    pub command: Command,
    /// The seed of order and gaps; without one the command draws it.
    pub seed: Option<[u8; 32]>,
}

impl Request {
    ghost use Rattle.std.specs.Prelude.{◌≡◌, IfSome};
    ghost use Rattle.kl_cli.specs.Commands.{IsRequest, request_of};
    ghost use Rattle.kl_cli.specs.Answers.{texts};

    /// What these words ask for, if they are a command: `link DIR`, `reorder_kernel`, `recover` or `generate N`, with `--seed HEX` behind it,
    /// but for `recover`, or without.
    pub fn of_words(words: &[Vec<u8>]) -> Option<Request>
        ensures words { result ≡ request_of (texts words.now) }
        ensures command { IfSome result (λ r. IsRequest r.command r.seed) }
    {
        match words {
            [word] => unseeded(command_of(word)),
            [word, operand] => unseeded(command_with(word, operand)),
            [word, flag, digits] => flagged(command_of(word), flag, digits),
            [word, operand, flag, digits] => flagged(command_with(word, operand), flag, digits),
            _ => None,
        }
    }
}

/// What a command asks for without a seed.
fn unseeded(command: Option<Command>) -> Option<Request>
    requires { IfSome command IsCommand }
    ensures words { result ≡ unseeded command }
    ensures command { IfSome result (λ r. IsRequest r.command r.seed) }
{
    let command = command?;
    let seed = command.own_seed();
    Some(Request { command, seed })
}

/// What a command asks for with two more words behind it.
fn flagged(command: Option<Command>, flag: &[u8], digits: &[u8]) -> Option<Request>
    requires { IfSome command IsCommand }
    ensures words { result ≡ flagged command flag.now digits.now }
    ensures command { IfSome result (λ r. IsRequest r.command r.seed) }
{
    if flag != b"--seed".as_slice() {
        return None;
    }
    seeded(command, digits)
}

/// What a command asks for with a seed.
fn seeded(command: Option<Command>, digits: &[u8]) -> Option<Request>
    requires { IfSome command IsCommand }
    ensures words { result ≡ seeded command digits.now }
    ensures command { IfSome result (λ r. IsRequest r.command r.seed) }
{
    let command = command?;
    if !command.takes_seed() {
        return None;
    }
    let seed = seed_of(digits)?;
    Some(Request {
        command,
        seed: Some(seed),
    })
}

/// The seed of 64 hexadecimal digits of either case.
fn seed_of(digits: &[u8]) -> Option<[u8; 32]>
    ensures { result ≡ seed_of digits.now }
{
    let mut seed = [0; 32];
    match hex::decode_to_slice(digits, &mut seed) {
        Ok(()) => Some(seed),
        Err(_) => None,
    }
}

/// The folder of a kit: a name within the limit.
fn folder_of(word: &[u8]) -> Option<Name>
    ensures folder { result ≡ folder_of word.now }
    ensures short { IfSome result (λ name. length name ≤ FILE_LIMIT) }
{
    if word.len() > FILE_LIMIT {
        return None;
    }
    Name::from_bytes(word).ok()
}

/// A number of objects: decimal, from 1 to the limit.
fn count_of(word: &[u8]) -> Option<u32>
    ensures count { result ≡ count_of word.now }
    ensures some { IfSome result (λ count. 1 ≤ count) }
    ensures few { IfSome result (λ count. count ≤ MADE_LIMIT) }
{
    let count = number_of(word)?;
    if 1 <= count && count <= MADE_LIMIT as u32 {
        Some(count)
    } else {
        None
    }
}

/// The command of a word alone: `reorder_kernel` or `recover`.
fn command_of(word: &[u8]) -> Option<Command>
    ensures words { result ≡ command_of word.now }
    ensures command { IfSome result IsCommand }
{
    if word == b"reorder_kernel".as_slice() {
        Some(Command::ReorderKernel)
    } else if word == b"recover".as_slice() {
        Some(Command::Recover)
    } else {
        None
    }
}

/// The command of a word and the one behind it: `link DIR` or `generate N`.
fn command_with(word: &[u8], operand: &[u8]) -> Option<Command>
    ensures words { result ≡ command_with word.now operand.now }
    ensures command { IfSome result IsCommand }
{
    if word == b"link".as_slice() {
        Some(Command::Link(folder_of(operand)?))
    } else if word == b"generate".as_slice() {
        Some(Command::Generate(count_of(operand)?))
    } else {
        None
    }
}
