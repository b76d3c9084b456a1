// Which of the words is wrong.
use kl_base::{FILE_LIMIT, Name, NoMemory};
use kl_explain::{Shown, tell_name};
use kl_generate::MADE_LIMIT;
use std::fmt::Write;

/// The commands that work on the files of the system, of which `reorder_libs` comes later.
const OF_SYSTEM: [&[u8]; 3] = [b"reorder_kernel", b"reorder_libs", b"recover"];

/// What may stand behind `reorder_kernel`.
const REORDER_TAKES: &str = "'reorder_kernel' takes '--seed HEX' alone";

/// The number of digits of a seed.
const SEED_DIGITS: usize = 64;

/// Whether a command works on the files of the system, and not on a folder that is named.
pub fn is_of_system(word: &[u8]) -> bool {
    OF_SYSTEM.contains(&word)
}

/// What is wrong with words that are no command.
pub fn tell_words(text: &mut String, words: &[Vec<u8>]) -> Result<(), NoMemory> {
    let [command, rest @ ..] = words else {
        write!(
            text,
            "no command is given: 'relink link /kit' links the kit in the folder kit"
        )?;
        return Ok(());
    };
    if let Some(operand) = operand_of(command) {
        tell_operands(text, operand, rest)
    } else if command.as_slice() == b"reorder_kernel".as_slice() {
        tell_reorder_words(text, rest)
    } else if command.as_slice() == b"recover".as_slice() {
        tell_recover_words(text, rest)
    } else {
        tell_command(text, command)
    }
}

/// What stands behind the name of a command.
#[derive(Clone, Copy)]
enum Operand {
    /// The folder of a kit, behind `link`.
    Folder,
    /// A number of objects, behind `generate`.
    Count,
}

impl Operand {
    /// How it is told that the operand is missing.
    fn missing(self) -> &'static str {
        match self {
            Operand::Folder => "'link' needs the folder of a kit, as in 'relink link /kit'",
            Operand::Count => "'generate' needs a number of objects, as in 'relink generate 200'",
        }
    }

    /// What may stand behind the command.
    fn taken(self) -> &'static str {
        match self {
            Operand::Folder => "'link' takes one folder, and '--seed HEX' behind it",
            Operand::Count => "'generate' takes one number, and '--seed HEX' behind it",
        }
    }
}

/// What stands behind a command that is there.
fn operand_of(command: &[u8]) -> Option<Operand> {
    if command == b"link".as_slice() {
        Some(Operand::Folder)
    } else if command == b"generate".as_slice() {
        Some(Operand::Count)
    } else {
        None
    }
}

/// What is wrong with a word that is no command, or none yet.
fn tell_command(text: &mut String, command: &[u8]) -> Result<(), NoMemory> {
    let word = Shown(command);
    if command == b"reorder_libs".as_slice() {
        write!(
            text,
            "the command '{word}' isn't there yet: 'link', 'reorder_kernel', 'recover' and 'generate' are the only ones so far"
        )?;
    } else {
        write!(
            text,
            "no such command '{word}': 'relink link /kit' links the kit in the folder kit"
        )?;
    }
    Ok(())
}

/// What is wrong with the words behind a command.
fn tell_operands(text: &mut String, operand: Operand, words: &[Vec<u8>]) -> Result<(), NoMemory> {
    match words {
        [] => {
            write!(text, "{}", operand.missing())?;
            Ok(())
        }
        [word] => tell_operand(text, operand, word),
        [word, option, values @ ..] if is_seed_option(option) => {
            tell_seeded_words(text, operand, word, values)
        }
        [_, word, ..] => tell_one_too_many(text, word, operand.taken()),
    }
}

/// What is wrong with the words behind `reorder_kernel`.
fn tell_reorder_words(text: &mut String, words: &[Vec<u8>]) -> Result<(), NoMemory> {
    match words {
        [option] if is_seed_option(option) => tell_no_seed(text),
        [option, seed] if is_seed_option(option) => tell_seed(text, seed),
        [option, _, word, ..] if is_seed_option(option) => {
            tell_one_too_many(text, word, REORDER_TAKES)
        }
        [word, ..] => tell_one_too_many(text, word, REORDER_TAKES),
        [] => tell_not_taken(text),
    }
}

/// What is wrong with the words behind `recover`.
fn tell_recover_words(text: &mut String, words: &[Vec<u8>]) -> Result<(), NoMemory> {
    match words {
        [option, ..] if is_seed_option(option) => {
            write!(text, "'recover' takes no seed: leave '--seed' out")?;
            Ok(())
        }
        [word, ..] => tell_one_too_many(text, word, "'recover' takes none"),
        [] => tell_not_taken(text),
    }
}

/// Tells of words that have no fault that is told.
fn tell_not_taken(text: &mut String) -> Result<(), NoMemory> {
    write!(text, "the words are no command")?;
    Ok(())
}

/// Whether a word says that a seed follows.
fn is_seed_option(word: &[u8]) -> bool {
    word == b"--seed".as_slice()
}

/// What is wrong with the word behind a command.
fn tell_operand(text: &mut String, operand: Operand, word: &[u8]) -> Result<(), NoMemory> {
    match operand {
        Operand::Folder => tell_folder(text, word),
        Operand::Count => tell_count(text, word),
    }
}

/// What is wrong with a number of objects.
fn tell_count(text: &mut String, count: &[u8]) -> Result<(), NoMemory> {
    let word = Shown(count);
    write!(
        text,
        "the number '{word}' isn't taken: 'generate' makes 1 to {MADE_LIMIT} objects, and a number has no leading zero"
    )?;
    Ok(())
}

/// What is wrong with the word behind a command, or with the words behind `--seed`.
fn tell_seeded_words(
    text: &mut String,
    operand: Operand,
    word: &[u8],
    values: &[Vec<u8>],
) -> Result<(), NoMemory> {
    match values {
        [] => tell_no_seed(text),
        [seed] if is_seed(seed) => tell_operand(text, operand, word),
        [seed] => tell_seed(text, seed),
        [_, word, ..] => tell_one_too_many(text, word, operand.taken()),
    }
}

/// Tells of a word too many, and of those that are taken.
fn tell_one_too_many(text: &mut String, word: &[u8], taken: &str) -> Result<(), NoMemory> {
    let word = Shown(word);
    write!(text, "the word '{word}' is one too many: {taken}")?;
    Ok(())
}

/// Tells that the seed is missing.
fn tell_no_seed(text: &mut String) -> Result<(), NoMemory> {
    write!(
        text,
        "'--seed' needs a seed of {SEED_DIGITS} hexadecimal digits behind it"
    )?;
    Ok(())
}

/// Whether a word is a seed.
fn is_seed(word: &[u8]) -> bool {
    word.len() == SEED_DIGITS && word.iter().all(|digit| digit.is_ascii_hexdigit())
}

/// What is wrong with a word that is no seed.
fn tell_seed(text: &mut String, seed: &[u8]) -> Result<(), NoMemory> {
    let (word, count) = (Shown(seed), seed.len());
    if count != SEED_DIGITS {
        write!(
            text,
            "the seed '{word}' has {count} digits, not {SEED_DIGITS}"
        )?;
    } else {
        write!(
            text,
            "the seed '{word}' has a byte that is no hexadecimal digit"
        )?;
    }
    Ok(())
}

/// What is wrong with the name of a folder.
fn tell_folder(text: &mut String, folder: &[u8]) -> Result<(), NoMemory> {
    let word = Shown(folder);
    write!(text, "the folder's name '{word}' ")?;
    match Name::from_bytes(folder) {
        _ if folder.len() > FILE_LIMIT => {
            let count = folder.len();
            write!(
                text,
                "has {count} bytes, and at most {FILE_LIMIT} are taken"
            )?;
        }
        Err(fault) => tell_name(text, folder, fault)?,
        Ok(_) => write!(text, "isn't taken")?,
    }
    Ok(())
}
