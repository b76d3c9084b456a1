// What a line says.
ghost use Rattle.std.specs.Prelude.{◌≡◌, IfOk};
ghost use Rattle.std.specs.Option.{option_map};
ghost use Rattle.kl_text.specs.Lines.{words};
ghost use Rattle.kl_kit.specs.KitLines.{edge_of, input_of, run_of, statement_of};

use crate::form::{
    area_of, base_of, class_of, end_of, file_of, kind_of, name_of, refuse_of, word_of,
};
use crate::keyword::Keyword;
use crate::line::Line;
use kl_base::{Name, NoMemory};
use kl_model::{EdgeLine, KitInput, KitKind, Part, Run, Word};
use std::alloc::Global;

/// What a line says.
#[derive(Drop)]
pub(crate) enum Statement {
    Kind(KitKind),
    Output(Name),
    Base(u64),
    Entry(Word),
    Input(KitInput),
    Run(Run),
    Edge(EdgeLine),
    Drop(Word),
    Soname(Word),
    Needed(Word),
    Export(Word),
    Symbolic,
    Undefined(bool),
}

/// What a line says that begins with the keyword; `None` where a word isn't in its form.
pub(crate) fn statement_of(
    alloc: Global,
    keyword: Keyword,
    line: &Line<'_>,
) -> Result<Option<Statement>, NoMemory>
    ensures { IfOk result (λ o. o ≡ statement_of keyword line.now.number (words line.now.rest.now)) }
{
    let word = line.word(0);
    Ok(match keyword {
        Keyword::Kind => kind_of(word).map(Statement::Kind),
        Keyword::Output => name_of(word).map(Statement::Output),
        Keyword::Base => base_of(word).map(Statement::Base),
        Keyword::Entry => word_of(alloc, word)?.map(Statement::Entry),
        Keyword::Head => input_of(alloc, Part::Head, line)?,
        Keyword::Object => input_of(alloc, Part::Drawn, line)?,
        Keyword::Tail => input_of(alloc, Part::Tail, line)?,
        Keyword::Run => run_of(alloc, line)?.map(Statement::Run),
        Keyword::Edge => edge_of(alloc, line)?.map(Statement::Edge),
        Keyword::Drop => word_of(alloc, word)?.map(Statement::Drop),
        Keyword::Soname => word_of(alloc, word)?.map(Statement::Soname),
        Keyword::Needed => word_of(alloc, word)?.map(Statement::Needed),
        Keyword::Export => word_of(alloc, word)?.map(Statement::Export),
        Keyword::Symbolic => Some(Statement::Symbolic),
        Keyword::Undefined => refuse_of(word).map(Statement::Undefined),
    })
}

fn input_of(alloc: Global, place: Part, line: &Line<'_>) -> Result<Option<Statement>, NoMemory>
    ensures { IfOk result (λ o. o ≡ input_of place line.now.number (words line.now.rest.now)) }
{
    let Some(file) = file_of(alloc, line.word(0))? else {
        return Ok(None);
    };
    Ok(Some(Statement::Input(KitInput {
        place,
        file,
        line: line.number,
    })))
}

fn run_of(alloc: Global, line: &Line<'_>) -> Result<Option<Run>, NoMemory>
    ensures { IfOk result (λ o. o ≡ run_of line.now.number (words line.now.rest.now)) }
{
    let Some(section) = word_of(alloc, line.word(0))? else {
        return Ok(None);
    };
    let Some(class) = class_of(line.word(1)) else {
        return Ok(None);
    };
    let Some(start) = word_of(alloc, line.word(2))? else {
        return Ok(None);
    };
    let Some(end) = word_of(alloc, line.word(3))? else {
        return Ok(None);
    };
    Ok(Some(Run {
        section,
        class,
        start,
        end,
        line: line.number,
    }))
}

fn edge_of(alloc: Global, line: &Line<'_>) -> Result<Option<EdgeLine>, NoMemory>
    ensures { IfOk result (λ o. o ≡ edge_of line.now.number (words line.now.rest.now)) }
{
    let Some(symbol) = word_of(alloc, line.word(0))? else {
        return Ok(None);
    };
    let Some(area) = area_of(line.word(1)) else {
        return Ok(None);
    };
    let Some(end) = end_of(line.word(2)) else {
        return Ok(None);
    };
    Ok(Some(EdgeLine {
        symbol,
        area,
        end,
        line: line.number,
    }))
}
