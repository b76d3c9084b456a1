// What may not come again.
ghost use Rattle.std.specs.Prelude.{◌≡◌, ◌++◌, ◌∷◌, [], List, not, IfOk};
ghost use Rattle.std.specs.Bool.{OnTrue};
ghost use Rattle.kl_text.specs.Lines.{words};
ghost use Rattle.kl_kit.specs.Keys.{Key, comes_again, has_key, keys_of, run_keys};
ghost use Rattle.kl_kit.specs.Readers.{HasKeys};

use crate::keyword::Keyword;
use crate::line::Line;
use kl_base::NoMemory;
use std::alloc::Global;
use std::collections::BTreeSet;

/// What the lines so far have that may come once: what it is, and up to two words that tell it from others.
#[derive(Drop)]
pub(crate) struct Keys<'a> {
    seen: BTreeSet<(&'a [u8], &'a [u8], &'a [u8])>,
}

impl<'a> Keys<'a> {
    pub(crate) fn new(alloc: Global) -> Self
        ensures { HasKeys result [] }
    {
        Keys {
            seen: BTreeSet::new(alloc),
        }
    }

    /// Adds what a line has, and says whether none of it was there. Where some was, the keys are of no more use.
    pub(crate) fn add(&mut self, keyword: Keyword, line: &Line<'a>) -> Result<bool, NoMemory>
        ensures fresh { (ks : List Key) → HasKeys self.old ks → IfOk result (λ fresh. fresh ≡ not (comes_again ks (keys_of keyword (words line.now.rest.now)))) }
        ensures keys { (ks : List Key) → HasKeys self.old ks → IfOk result (λ fresh. OnTrue fresh (HasKeys self.new (ks ++ keys_of keyword (words line.now.rest.now)))) }
    {
        let word = line.word(0);
        match keyword {
            Keyword::Head | Keyword::Object | Keyword::Tail => {
                Ok(self.put(b"object", word, b"")?)
            }
            Keyword::Run => Ok(self.put_run(word, line.word(1), line.word(2), line.word(3))?),
            Keyword::Edge => Ok(self.put(b"edge", word, b"")?),
            Keyword::Drop | Keyword::Needed | Keyword::Export => {
                Ok(self.put(keyword.word(), word, b"")?)
            }
            _ => Ok(self.put(keyword.word(), b"", b"")?),
        }
    }

    /// Adds what a `run` line has.
    fn put_run(
        &mut self,
        section: &'a [u8],
        class: &'a [u8],
        start: &'a [u8],
        end: &'a [u8],
    ) -> Result<bool, NoMemory>
        ensures fresh { (ks : List Key) → HasKeys self.old ks → IfOk result (λ fresh. fresh ≡ not (comes_again ks (run_keys section.now class.now start.now end.now))) }
        ensures keys { (ks : List Key) → HasKeys self.old ks → IfOk result (λ fresh. OnTrue fresh (HasKeys self.new (ks ++ run_keys section.now class.now start.now end.now))) }
    {
        if !self.put(b"run", section, class)? {
            return Ok(false);
        }
        if !self.put(b"edge", start, b"")? {
            return Ok(false);
        }
        let fresh = self.put(b"edge", end, b"")?;
        Ok(fresh)
    }

    fn put(&mut self, what: &'a [u8], word: &'a [u8], other: &'a [u8]) -> Result<bool, NoMemory>
        ensures fresh { (ks : List Key) → HasKeys self.old ks → IfOk result (λ fresh. fresh ≡ not (has_key ks (what.now, word.now, other.now))) }
        ensures keys { (ks : List Key) → HasKeys self.old ks → IfOk result (λ fresh. OnTrue fresh (HasKeys self.new (ks ++ (what.now, word.now, other.now) ∷ []))) }
    {
        Ok(self.seen.insert((what, word, other))?)
    }
}
