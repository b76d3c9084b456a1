// The files of a kit, which are read once more for a message.
ghost use Rattle.kl_store.specs.Calls.{Stays};

use kl_ar::members;
use kl_base::{INPUT_LIMIT, KIT_TEXT_LIMIT, NAME_LIMIT, Name, NoMemory, Range};
use kl_explain::Shown;
use kl_kit::read_kit;
use kl_model::{Kit, KitInput, Object, Part, Section};
use kl_rel::read_object;
use kl_store::{Store, read_whole};
use std::alloc::Global;
use std::fmt;

/// The bytes with which an archive of `ar` begins.
const ARCHIVE: &[u8; 8] = b"!<arch>\n";

/// The bytes with which a thin archive begins.
const THIN_ARCHIVE: &[u8; 8] = b"!<thin>\n";

/// The text of a kit, and what it says where it has no fault.
#[derive(Drop)]
pub struct KitText {
    /// The name of its file.
    pub name: Name,
    pub text: Vec<u8>,
    pub kit: Option<Kit>,
}

/// An input of a kit.
#[derive(Drop)]
pub struct Source {
    /// Its number, in kit order.
    pub input: u32,
    /// The name of its file.
    pub name: Name,
    /// Its own name, where the file is an archive.
    pub member: Option<Vec<u8>>,
    /// Its bytes: of a member of an archive those of the member alone.
    pub bytes: Vec<u8>,
    /// The object that stands in the bytes, where they have no flaw.
    pub object: Option<Object>,
}

/// The name of an input, as it is shown: that of its file, and behind it in parentheses its own where the file is an archive.
#[derive(Clone, Copy)]
pub struct InputName<'a>(pub &'a Source);

impl fmt::Display for InputName<'_> {
    fn fmt<W: fmt::Write>(&self, f: &mut fmt::Formatter<W>) -> fmt::Result {
        let file = Shown(self.0.name.bytes());
        match &self.0.member {
            Some(member) => {
                let member = Shown(member);
                write!(f, "{file}({member})")
            }
            None => write!(f, "{file}"),
        }
    }
}

/// Where an input stands: the line of its file, and its number among the inputs of that file.
#[derive(Clone, Copy)]
pub struct Place<'a> {
    pub line: &'a KitInput,
    pub number: usize,
}

/// The bytes of a range, as far as the file has them.
pub fn text_at(bytes: &[u8], range: Range) -> &[u8] {
    let start = bytes.len().min(range.at as usize);
    let rest = &bytes[start..];
    &rest[..rest.len().min(range.len as usize)]
}

/// The name of a section of an object, by its number.
pub fn name_of_section<'a>(bytes: &'a [u8], object: &Object, number: u32) -> &'a [u8] {
    match section_of(object, number) {
        Some(section) => text_at(bytes, section.name),
        None => b"",
    }
}

/// A section of an object, by its number.
fn section_of(object: &Object, number: u32) -> Option<&Section> {
    object.sections.items().get(number.checked_sub(1)? as usize)
}

/// The name of a file in a folder.
fn file_in(dir: &Name, file: &[u8]) -> Option<Name> {
    let Ok(name) = Name::at_root(file) else {
        return None;
    };
    if dir.bytes().len() + name.bytes().len() > NAME_LIMIT {
        return None;
    }
    Some(dir.join(&name))
}

/// The kit text of a folder, where it can be read.
pub fn read_kit_text<S: Store>(alloc: Global, dir: &Name, store: &mut S) -> Option<KitText>
    ensures still { Stays (S.meaning store.old) (S.meaning store.new) }
{
    let name = file_in(dir, b"link.conf")?;
    let Ok(text) = read_whole(alloc, store, &name, KIT_TEXT_LIMIT) else {
        return None;
    };
    let kit = kit_in(alloc, &text);
    Some(KitText { name, text, kit })
}

/// The kit that a text says.
fn kit_in(alloc: Global, text: &[u8]) -> Option<Kit> {
    if text.len() as u64 > KIT_TEXT_LIMIT {
        return None;
    }
    match read_kit(alloc, text) {
        Ok(kit) => Some(kit),
        Err(_) => None,
    }
}

/// The input lines of a kit in kit order: those of the head, the drawn ones, those of the tail.
pub fn kit_order(alloc: Global, kit: &Kit) -> Result<Vec<&KitInput>, NoMemory> {
    let lines = kit.inputs.items();
    let mut ordered = Vec::new(alloc);
    add_part(&mut ordered, lines, Part::Head)?;
    add_part(&mut ordered, lines, Part::Drawn)?;
    add_part(&mut ordered, lines, Part::Tail)?;
    Ok(ordered)
}

/// Adds the lines of a part.
fn add_part<'a>(
    ordered: &mut Vec<&'a KitInput>,
    lines: &'a [KitInput],
    part: Part,
) -> Result<(), NoMemory> {
    for line in lines {
        if line.place == part {
            ordered.push(line)?;
        }
    }
    Ok(())
}

/// The name of the file of a line.
pub fn file_of(dir: &Name, line: &KitInput) -> Option<Name> {
    file_in(dir, line.file.items())
}

/// Where the input of a number stands, if each file before it can be read.
pub fn find_input<'a, S: Store>(
    alloc: Global,
    dir: &Name,
    lines: &[&'a KitInput],
    input: u32,
    store: &mut S,
) -> Option<Place<'a>>
    ensures still { Stays (S.meaning store.old) (S.meaning store.new) }
{
    let mut number = input as usize;
    for line in lines {
        let count = count_inputs(alloc, dir, line, store)?;
        if number < count {
            return Some(Place { line, number });
        }
        number -= count;
    }
    None
}

/// The number of inputs of a line, where its file can be read: the members of an archive, or one.
fn count_inputs<S: Store>(
    alloc: Global,
    dir: &Name,
    line: &KitInput,
    store: &mut S,
) -> Option<usize>
    ensures still { Stays (S.meaning store.old) (S.meaning store.new) }
{
    let name = file_of(dir, line)?;
    let Ok(Some(_)) = store.size(&name) else {
        return None;
    };
    let mut head = [0; ARCHIVE.len()];
    let Ok(_) = store.read(&name, 0, &mut head) else {
        return None;
    };
    if !is_archive(&head) {
        return Some(1);
    }
    let Ok(bytes) = read_whole(alloc, store, &name, INPUT_LIMIT) else {
        return None;
    };
    match members(alloc, &bytes) {
        Ok(members) => Some(members.len()),
        Err(_) => None,
    }
}

/// Whether a file that begins so is an archive.
fn is_archive(bytes: &[u8]) -> bool {
    bytes.starts_with(ARCHIVE) || bytes.starts_with(THIN_ARCHIVE)
}

/// The input at a place, where it can be read.
pub fn read_source<S: Store>(
    alloc: Global,
    dir: &Name,
    place: &Place<'_>,
    input: u32,
    store: &mut S,
) -> Option<Source>
    ensures still { Stays (S.meaning store.old) (S.meaning store.new) }
{
    let name = file_of(dir, place.line)?;
    let Ok(file) = read_whole(alloc, store, &name, INPUT_LIMIT) else {
        return None;
    };
    let (member, bytes) = input_in(alloc, file, place.number)?;
    let object = object_in(alloc, &bytes);
    Some(Source {
        input,
        name,
        member,
        bytes,
        object,
    })
}

/// The input of a number in a file: its name where the file is an archive, and its bytes.
fn input_in(alloc: Global, file: Vec<u8>, number: usize) -> Option<(Option<Vec<u8>>, Vec<u8>)> {
    if !is_archive(&file) {
        return Some((None, file));
    }
    let Ok(members) = members(alloc, &file) else {
        return None;
    };
    let member = members.get(number)?;
    let own = Range {
        at: member.start,
        len: member.len,
    };
    let name = copy_of(alloc, text_at(&file, member.name))?;
    let bytes = copy_of(alloc, text_at(&file, own))?;
    Some((Some(name), bytes))
}

/// A copy of bytes, where there is memory.
fn copy_of(alloc: Global, bytes: &[u8]) -> Option<Vec<u8>> {
    match Vec::from_slice(alloc, bytes) {
        Ok(copy) => Some(copy),
        Err(_) => None,
    }
}

/// The object that stands in bytes without a flaw.
fn object_in(alloc: Global, bytes: &[u8]) -> Option<Object> {
    if bytes.len() as u64 > INPUT_LIMIT {
        return None;
    }
    match read_object(alloc, bytes) {
        Ok(object) => Some(object),
        Err(_) => None,
    }
}
