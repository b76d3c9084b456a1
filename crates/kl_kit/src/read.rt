// The reader of kit texts.
ghost use Rattle.std.specs.Prelude.{◌≡◌, ◌≤◌, ◌++◌, ◌∷◌, [], List, length, map, slice_get, option_to_list, IfOk, IfErr, OnOk};
ghost use Rattle.std.specs.Result.{result_err};
ghost use Rattle.std.specs.List.{AllByRecursion};
ghost use Rattle.kl_text.specs.Lines.{words};
ghost use Rattle.kl_model.specs.Fit.{IsKit};
ghost use Rattle.kl_kit.specs.Forms.{HasFile};
ghost use Rattle.kl_kit.specs.KitLines.{KitLine, line_of};
ghost use Rattle.kl_kit.specs.KitTexts.{kit_faults, kit_of, kit_of_statements, line_faults, missing, output_faults, place_faults, said_faults};
ghost use Rattle.kl_kit.specs.ReadableKits.{IsReadable};
ghost use Rattle.kl_kit.specs.Readers.{HasRead, IsFirst, parts_of, said_line, stands_at};
ghost use Rattle.kl_kit.specs.declared.statement.Statement.{Statement};
ghost use Rattle.kl_kit.specs.declared.fault.KitFault.TheVariants as fault;

use crate::form::{is_kernel_output, is_reserved};
use crate::key::Keys;
use crate::keyword::{Keyword, keyword_of};
use crate::line::{Line, is_text, next_line};
use crate::parts::Parts;
use crate::statement::{Statement, statement_of};
use crate::{KitError, KitFault};
use kl_base::KIT_TEXT_LIMIT;
use kl_model::{Kit, KitKind};
use std::alloc::Global;

/// The kit of a text of at most 4 MiB. Each word of it is in its form and nothing comes twice, so that `print_kit` prints a text that
/// reads as it.
///
/// # Errors
///
/// The first fault of the text, the first line's first, or want of memory.
pub fn read_kit(alloc: Global, text: &[u8]) -> Result<Kit, KitError>
    requires { length text.now ≤ KIT_TEXT_LIMIT }
    ensures kit { IfOk result (λ kit. kit ≡ kit_of text.now) }
    ensures sound { OnOk result (kit_faults text.now ≡ []) }
    ensures files { IfOk result (λ kit. AllByRecursion HasFile kit.inputs) }
    ensures form { IfOk result IsKit }
    ensures readable { IfOk result IsReadable }
    ensures fault { IfErr result (IsFirst (kit_faults text.now)) }
{
    let mut reader = Reader::new(alloc);
    let mut number = 0;
    let mut rest = text;
    while !rest.is_empty() {
        let (line, more) = next_line(rest);
        number += 1;
        reader.read_line(number, line)?;
        rest = more;
    }
    reader.kit()
}

/// What was read of a text.
#[derive(Drop)]
struct Reader<'a> {
    alloc: Global,
    keys: Keys<'a>,
    parts: Parts,
}

impl<'a> Reader<'a> {
    fn new(alloc: Global) -> Self
        ensures { HasRead result [] }
    {
        Reader {
            alloc,
            keys: Keys::new(alloc),
            parts: Parts::new(alloc),
        }
    }

    /// Reads the next line. Where that fails, the reader is of no more use.
    fn read_line(&mut self, number: u32, bytes: &'a [u8]) -> Result<(), KitError>
        ensures sound { (before : List KitLine) → HasRead self.old before → OnOk result (line_faults before number bytes.now ≡ []) }
        ensures read { (before : List KitLine) → HasRead self.old before → OnOk result (HasRead self.new (before ++ option_to_list (line_of number (words bytes.now)))) }
        ensures fault { (before : List KitLine) → HasRead self.old before → IfErr result (IsFirst (line_faults before number bytes.now)) }
    {
        if !is_text(bytes) {
            return Err(KitFault::Byte { line: number }.into());
        }
        match Line::new(number, bytes) {
            Some(line) => self.read_said(&line),
            None => Ok(()),
        }
    }

    /// Reads a line that says something.
    fn read_said(&mut self, line: &Line<'a>) -> Result<(), KitError>
        ensures sound { (before : List KitLine) → HasRead self.old before → OnOk result (said_faults before (said_line line.now) ≡ []) }
        ensures read { (before : List KitLine) → HasRead self.old before → OnOk result (HasRead self.new (before ++ said_line line.now ∷ [])) }
        ensures fault { (before : List KitLine) → HasRead self.old before → IfErr result (IsFirst (said_faults before (said_line line.now))) }
    {
        let Some(keyword) = keyword_of(line.keyword) else {
            return Err(KitFault::Keyword { line: line.number }.into());
        };
        self.check_keyword(keyword, line)?;
        let Some(statement) = statement_of(self.alloc, keyword, line)? else {
            return Err(KitFault::Value { line: line.number }.into());
        };
        self.check_output(&statement, line.number)?;
        if !self.keys.add(keyword, line)? {
            return Err(KitFault::Twice { line: line.number }.into());
        }
        if self.parts.is_one_too_many(&statement) {
            return Err(KitFault::Limit { line: line.number }.into());
        }
        self.parts.say(statement)?;
        Ok(())
    }

    /// Checks the place of a line, and how many words it has.
    fn check_keyword(&self, keyword: Keyword, line: &Line<'_>) -> Result<(), KitFault>
        ensures { result_err result ≡ slice_get (place_faults (stands_at self.now.parts.kind keyword) (said_line line.now) keyword) 0 }
    {
        if !stands_at(self.parts.kind, keyword) {
            return Err(KitFault::Misplaced { line: line.number });
        }
        if !line.has_words(keyword.word_count()) {
            return Err(KitFault::Count { line: line.number });
        }
        Ok(())
    }

    /// Checks the name of the output, where the statement gives it.
    fn check_output(&self, statement: &Statement, line: u32) -> Result<(), KitFault>
        ensures { result_err result ≡ slice_get (output_faults self.now.parts.kind line statement.now) 0 }
    {
        match (self.parts.kind, statement) {
            (Some(KitKind::Kernel), Statement::Output(name)) if !is_kernel_output(name.bytes()) => {
                Err(KitFault::Value { line })
            }
            (Some(KitKind::Library), Statement::Output(name)) if is_reserved(name.bytes()) => {
                Err(KitFault::Reserved { line })
            }
            _ => Ok(()),
        }
    }

    /// The kit, or the fault of what is missing.
    fn kit(self) -> Result<Kit, KitError>
        ensures kit { (ss : List Statement) → self.entry.parts ≡ parts_of ss → IfOk result (λ kit. kit ≡ kit_of_statements ss) }
        ensures sound { (ss : List Statement) → self.entry.parts ≡ parts_of ss → OnOk result (missing ss ≡ []) }
        ensures fault { (ss : List Statement) → self.entry.parts ≡ parts_of ss → IfErr result (IsFirst (map fault.Missing (missing ss))) }
    {
        match self.parts.kit() {
            Ok(kit) => Ok(kit),
            Err(what) => Err(KitFault::Missing { what }.into()),
        }
    }
}

/// Whether a line stands in its place, behind lines that say the kit's kind.
fn stands_at(kind: Option<KitKind>, keyword: Keyword) -> bool
    ensures { result ≡ stands_at kind keyword }
{
    match kind {
        Some(kind) => keyword != Keyword::Kind && keyword.is_of(kind),
        None => keyword == Keyword::Kind,
    }
}
