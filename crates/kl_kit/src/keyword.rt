// The words that begin lines.
ghost use Rattle.std.specs.Prelude.{◌≡◌};
ghost use Rattle.kl_kit.specs.Keywords.{has_lines, keyword_of, keyword_word, word_count};

use kl_model::KitKind;

/// The first word of a line.
#[derive(Clone, Copy, Debug, PartialEq, Eq)]
pub(crate) enum Keyword {
    Kind,
    Output,
    Base,
    Entry,
    Head,
    Object,
    Tail,
    Run,
    Edge,
    Drop,
    Soname,
    Needed,
    Export,
    Symbolic,
    Undefined,
}

/// All keywords.
pub(crate) const KEYWORDS: [Keyword; 15] = [
    Keyword::Kind,
    Keyword::Output,
    Keyword::Base,
    Keyword::Entry,
    Keyword::Head,
    Keyword::Object,
    Keyword::Tail,
    Keyword::Run,
    Keyword::Edge,
    Keyword::Drop,
    Keyword::Soname,
    Keyword::Needed,
    Keyword::Export,
    Keyword::Symbolic,
    Keyword::Undefined,
];

impl Keyword {
    /// Its bytes.
    pub(crate) fn word(self) -> &'static [u8]
        ensures { result.now ≡ keyword_word self }
    {
        match self {
            Keyword::Kind => b"kind",
            Keyword::Output => b"output",
            Keyword::Base => b"base",
            Keyword::Entry => b"entry",
            Keyword::Head => b"head",
            Keyword::Object => b"object",
            Keyword::Tail => b"tail",
            Keyword::Run => b"run",
            Keyword::Edge => b"edge",
            Keyword::Drop => b"drop",
            Keyword::Soname => b"soname",
            Keyword::Needed => b"needed",
            Keyword::Export => b"export",
            Keyword::Symbolic => b"symbolic",
            Keyword::Undefined => b"undefined",
        }
    }

    /// How many words follow it.
    pub(crate) fn word_count(self) -> usize
        ensures { result ≡ word_count self }
    {
        match self {
            Keyword::Symbolic => 0,
            Keyword::Edge => 3,
            Keyword::Run => 4,
            _ => 1,
        }
    }

    /// Whether kits of the kind have its lines.
    pub(crate) fn is_of(self, kind: KitKind) -> bool
        ensures { result ≡ has_lines kind self }
    {
        match kind {
            KitKind::Kernel => !matches!(
                self,
                Keyword::Soname
                    | Keyword::Needed
                    | Keyword::Export
                    | Keyword::Symbolic
                    | Keyword::Undefined
            ),
            KitKind::Library => self != Keyword::Base,
        }
    }
}

/// The keyword of these bytes.
#[tactic(auto, unfolding(crate::specs::Keywords::keyword_of))]
pub(crate) fn keyword_of(word: &[u8]) -> Option<Keyword>
    ensures { result ≡ keyword_of word.now }
{
    KEYWORDS
        .iter()
        .copied()
        .find(|keyword| word == keyword.word())
}
