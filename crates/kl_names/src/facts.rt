// What the symbols of each name say.
ghost use Rattle.std.specs.Prelude.{◌≡◌, ◌==◌, ◌&&◌, if◌then◌else◌, nat_lt, Some, None};
ghost use Rattle.std.specs.Option.{option_or};
ghost use Rattle.kl_model.specs.Names.{rank as rank_of};
ghost use Rattle.kl_names.specs.Noted.{noted, with_common};

use kl_elf::abi::{SHN_COMMON, STB_GLOBAL, STB_WEAK, STV_DEFAULT, STV_HIDDEN, STV_PROTECTED};
use kl_model::Symbol;

/// Where a symbol stands: its input, and its number there.
#[derive(Clone, Copy, Debug, PartialEq, Eq)]
pub struct SymbolAt {
    /// The number of its input.
    pub input: u32,
    /// Its number in that input.
    pub number: u32,
}

/// What the common symbols of a name ask for together (gABI, `SHN_COMMON`).
#[derive(Clone, Copy, Debug, PartialEq, Eq)]
pub struct Common {
    /// The largest of their sizes, in bytes.
    pub size: u64,
    /// The strictest of their alignments, in bytes.
    pub align: u64,
}

/// What the symbols of a name say that aren't LOCAL.
#[derive(Clone, Copy, Debug, PartialEq, Eq)]
pub struct NameFacts {
    /// The first of them.
    pub first: Option<SymbolAt>,
    /// The GLOBAL definition.
    pub global: Option<SymbolAt>,
    /// The first WEAK definition.
    pub weak: Option<SymbolAt>,
    /// What the commons ask for, where there are some.
    pub common: Option<Common>,
    /// The most constraining visibility, one of `STV_*`.
    pub visibility: u8,
    /// Whether all are WEAK.
    pub all_weak: bool,
}

/// Of no symbols.
pub const NO_FACTS: NameFacts = NameFacts {
    first: None,
    global: None,
    weak: None,
    common: None,
    visibility: STV_DEFAULT,
    all_weak: true,
};

/// How constraining a visibility is (gABI, "Symbol Visibility").
fn rank(visibility: u8) -> u8
    ensures { result ≡ rank_of visibility }
{
    match visibility {
        STV_DEFAULT => 0,
        STV_PROTECTED => 1,
        STV_HIDDEN => 2,
        _ => 3,
    }
}

/// The more constraining of two visibilities, the first where they are alike.
fn stricter(old: u8, new: u8) -> u8
    ensures { result ≡ (if nat_lt (rank_of old) (rank_of new) then new else old) }
{
    if rank(old) < rank(new) { new } else { old }
}

/// What the commons of a name ask for with one more.
fn with_common(common: Option<Common>, symbol: &Symbol) -> Common
    ensures { result ≡ with_common common symbol.now }
{
    let common = common.unwrap_or(Common { size: 0, align: 1 });
    Common {
        size: common.size.max(symbol.size),
        align: common.align.max(symbol.value),
    }
}

/// What the commons of a name ask for after one more symbol.
fn commons_of(common: Option<Common>, symbol: &Symbol) -> Option<Common>
    ensures { result ≡ (if symbol.now.section == SHN_COMMON then Some (with_common common symbol.now) else common) }
{
    if symbol.section == u32::from(SHN_COMMON) {
        Some(with_common(common, symbol))
    } else {
        common
    }
}

/// The first of some symbols, after one more that may be one of them.
fn first_of(first: Option<SymbolAt>, belongs: bool, at: SymbolAt) -> Option<SymbolAt>
    ensures { result ≡ option_or first (if belongs then Some at else None) }
{
    match first {
        Some(first) => Some(first),
        None if belongs => Some(at),
        None => None,
    }
}

/// What a name's symbols say with one more, and whether it is a definition.
pub fn note(facts: &NameFacts, symbol: &Symbol, at: SymbolAt, defines: bool) -> NameFacts
    ensures { result ≡ noted facts.now symbol.now at defines }
{
    NameFacts {
        first: first_of(facts.first, true, at),
        global: first_of(facts.global, defines && symbol.binding == STB_GLOBAL, at),
        weak: first_of(facts.weak, defines && symbol.binding == STB_WEAK, at),
        common: commons_of(facts.common, symbol),
        visibility: stricter(facts.visibility, symbol.visibility),
        all_weak: facts.all_weak && symbol.binding == STB_WEAK,
    }
}
