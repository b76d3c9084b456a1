// What the lines so far say.
ghost use Rattle.std.specs.Prelude.{◌≡◌, [], List, slice_get, IfOk, IfErr, OnOk, Some};
ghost use Rattle.kl_kit.specs.KitTexts.{default_base, is_one_too_many, kit_of_statements, missing};
ghost use Rattle.kl_kit.specs.Readers.{also, parts_of};
ghost use Rattle.kl_kit.specs.declared.statement.Statement.{Statement};

use crate::Needed;
use crate::statement::Statement;
use kl_base::{INPUT_COUNT_LIMIT, KERNEL_BASE, Listed, Name, NoMemory};
use kl_model::{EdgeLines, Kit, KitInputs, KitKind, Runs, Word, Words};
use std::alloc::Global;

/// The parts of a kit that lines have said so far.
#[derive(Drop)]
pub(crate) struct Parts {
    pub(crate) kind: Option<KitKind>,
    pub(crate) output: Option<Name>,
    pub(crate) base: Option<u64>,
    pub(crate) entry: Option<Word>,
    pub(crate) inputs: KitInputs,
    pub(crate) runs: Runs,
    pub(crate) edges: EdgeLines,
    pub(crate) drops: Words,
    pub(crate) needed: Words,
    pub(crate) exports: Words,
    pub(crate) soname: Option<Word>,
    pub(crate) symbolic: bool,
    pub(crate) refuse: bool,
}

impl Parts {
    pub(crate) fn new(alloc: Global) -> Self
        ensures { result ≡ parts_of [] }
    {
        Parts {
            kind: None,
            output: None,
            base: None,
            entry: None,
            inputs: Listed::new(alloc),
            runs: Listed::new(alloc),
            edges: Listed::new(alloc),
            drops: Listed::new(alloc),
            needed: Listed::new(alloc),
            exports: Listed::new(alloc),
            soname: None,
            symbolic: false,
            refuse: false,
        }
    }

    /// Adds what a line says.
    pub(crate) fn say(&mut self, statement: Statement) -> Result<(), NoMemory>
        ensures { OnOk result (self.new ≡ also self.old statement) }
    {
        match statement {
            Statement::Kind(kind) => self.kind = Some(kind),
            Statement::Output(name) => self.output = Some(name),
            Statement::Base(base) => self.base = Some(base),
            Statement::Entry(symbol) => self.entry = Some(symbol),
            Statement::Input(input) => self.inputs.push(input)?,
            Statement::Run(run) => self.runs.push(run)?,
            Statement::Edge(edge) => self.edges.push(edge)?,
            Statement::Drop(section) => self.drops.push(section)?,
            Statement::Soname(text) => self.soname = Some(text),
            Statement::Needed(text) => self.needed.push(text)?,
            Statement::Export(symbol) => self.exports.push(symbol)?,
            Statement::Symbolic => self.symbolic = true,
            Statement::Undefined(refuse) => self.refuse = refuse,
        }
        Ok(())
    }

    /// Whether this is an input line too many.
    pub(crate) fn is_one_too_many(&self, statement: &Statement) -> bool
        ensures { (ss : List Statement) → self.now ≡ parts_of ss → result ≡ is_one_too_many ss statement.now }
    {
        matches!(statement, Statement::Input(_)) && self.inputs.items().len() >= INPUT_COUNT_LIMIT
    }

    /// The kit, or what is missing.
    pub(crate) fn kit(self) -> Result<Kit, Needed>
        ensures kit { (ss : List Statement) → self ≡ parts_of ss → IfOk result (λ kit. kit ≡ kit_of_statements ss) }
        ensures none { (ss : List Statement) → self ≡ parts_of ss → OnOk result (missing ss ≡ []) }
        ensures missing { (ss : List Statement) → self ≡ parts_of ss → IfErr result (λ what. slice_get (missing ss) 0 ≡ Some what) }
    {
        let Some(kind) = self.kind else {
            return Err(Needed::Kind);
        };
        let Some(output) = self.output else {
            return Err(Needed::Output);
        };
        if kind == KitKind::Kernel && self.entry.is_none() {
            return Err(Needed::Entry);
        }
        if self.inputs.items().is_empty() {
            return Err(Needed::Input);
        }
        Ok(Kit {
            kind,
            output,
            base: self.base.unwrap_or(default_base(kind)),
            entry: self.entry,
            inputs: self.inputs,
            runs: self.runs,
            edges: self.edges,
            drops: self.drops,
            needed: self.needed,
            exports: self.exports,
            soname: self.soname,
            symbolic: self.symbolic,
            refuse: self.refuse,
        })
    }
}

/// The base of a kit that names none.
fn default_base(kind: KitKind) -> u64
    ensures { result ≡ default_base kind }
{
    match kind {
        KitKind::Kernel => KERNEL_BASE,
        KitKind::Library => 0,
    }
}
