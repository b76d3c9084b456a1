// What the name field of a header says.
ghost use Rattle.std.specs.Prelude.{◌≡◌, ◌≤◌, ◌<◌, length, IfSome};
ghost use Rattle.kl_ar.specs.Fields.{decimal_of, text_of};
ghost use Rattle.kl_ar.specs.Names.{in_data, in_table, is_symbol_index, is_symdef, name_form, short_len, slash_of};
ghost use Rattle.kl_ar.specs.Readers.{FitsField};
ghost use Rattle.kl_ar.specs.declared.format.TheConstants.{NAME_LEN};

use crate::field::{decimal_of, text_of};
use crate::format::NAME_LEN;

/// What the name field of a header says.
#[derive(Clone, Copy, Debug, PartialEq, Eq)]
pub(crate) enum NameForm {
    /// A symbol index, which is no member.
    SymbolIndex,
    /// A table of long names, which is no member.
    LongNames,
    /// The name stands at this place of the table of long names.
    InTable(u64),
    /// The name is so many bytes at the beginning of the data.
    InData(u64),
    /// The name is so many bytes at the beginning of the field.
    InField(usize),
    /// A long name without its number.
    NoNumber,
}

/// What a name field says.
#[tactic(auto, unfolding(crate::specs::Names::name_form))]
pub(crate) fn name_form(field: &[u8]) -> NameForm
    requires { length field.now ≤ NAME_LEN }
    ensures form { result ≡ name_form field.now }
    ensures fits { FitsField result }
{
    let text = text_of(field);
    if is_symbol_index(text) {
        return NameForm::SymbolIndex;
    }
    if text == b"//".as_slice() {
        return NameForm::LongNames;
    }
    if let Some(number) = text.strip_prefix(b"/") {
        return in_table(number);
    }
    match text.strip_prefix(b"#1/") {
        Some(number) => in_data(number),
        None => NameForm::InField(short_len(field)),
    }
}

/// The form of a name at a place of the table of long names.
fn in_table(number: &[u8]) -> NameForm
    requires { length number.now ≤ NAME_LEN }
    ensures form { result ≡ in_table (decimal_of number.now) }
    ensures fits { FitsField result }
{
    match decimal_of(number) {
        Some(place) => NameForm::InTable(place),
        None => NameForm::NoNumber,
    }
}

/// The form of a name of a length before the data.
fn in_data(number: &[u8]) -> NameForm
    requires { length number.now ≤ NAME_LEN }
    ensures form { result ≡ in_data (decimal_of number.now) }
    ensures fits { FitsField result }
{
    match decimal_of(number) {
        Some(len) => NameForm::InData(len),
        None => NameForm::NoNumber,
    }
}

/// The length of a name that stands in the field itself: up to the first slash, or else up to the spaces at the end.
#[tactic(auto, unfolding(crate::specs::Names::short_len))]
fn short_len(field: &[u8]) -> usize
    ensures len { result ≡ short_len field.now }
    ensures within { result ≤ length field.now }
{
    match slash_of(field) {
        Some(slash) => slash,
        None => text_of(field).len(),
    }
}

/// The place of the first slash.
fn slash_of(field: &[u8]) -> Option<usize>
    ensures place { result ≡ slash_of field.now }
    ensures within { IfSome result (λ place. place < length field.now) }
{
    field.iter().position(|byte| *byte == b'/')
}

/// Whether this is the name of a symbol index.
fn is_symbol_index(name: &[u8]) -> bool
    ensures { result ≡ is_symbol_index name.now }
{
    name == b"/".as_slice() || name == b"/SYM64/".as_slice() || is_symdef(name)
}

/// Whether this is the name of a symbol index as the BSDs write it.
pub(crate) fn is_symdef(name: &[u8]) -> bool
    ensures { result ≡ is_symdef name.now }
{
    name == b"__.SYMDEF".as_slice() || name == b"__.SYMDEF SORTED".as_slice()
}
