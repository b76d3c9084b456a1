// What the `drop` and `run` lines of a kit say of sections by their names.
ghost use Rattle.std.specs.Prelude.{◌≡◌, ◌<◌, ◌≤◌, ◌+◌, ◌&&◌, [], Some, None, length, if◌then◌else◌, IfOk, OnOk, List, ℕ};
ghost use Rattle.std.specs.Option.{option_or};
ghost use Rattle.std.specs.Str.{bytes_eq};
ghost use Rattle.kl_base.specs.declared.class.Class.{Class};
ghost use Rattle.kl_model.specs.Areas.{same_class};
ghost use Rattle.kl_model.specs.Kept.{run_area};
ghost use Rattle.kl_model.specs.Lists.{among};
ghost use Rattle.kl_model.specs.declared.kit.Kit.{Kit};
ghost use Rattle.kl_names.specs.Numbers.{place_in};
ghost use Rattle.kl_sym.specs.SectionLines.{AreLines, HasRuns, run_found, run_in};

use kl_base::{Class, KIT_TEXT_LIMIT, NoMemory};
use kl_model::area::FIRST_RUN;
use kl_model::{Kit, Run};
use kl_names::NameIndex;
use std::alloc::Global;

/// The areas of the first `run` lines of a name, one for each class.
#[derive(Clone, Copy, Debug, PartialEq, Eq)]
struct FirstRuns {
    text: Option<u32>,
    rodata: Option<u32>,
    rwdata: Option<u32>,
    bss: Option<u32>,
}

const NO_RUNS: FirstRuns = FirstRuns {
    text: None,
    rodata: None,
    rwdata: None,
    bss: None,
};

impl FirstRuns {
    /// That of a class.
    fn of(&self, class: Class) -> Option<u32>
        ensures { result ≡ run_in self.now class }
    {
        match class {
            Class::Text => self.text,
            Class::Rodata => self.rodata,
            Class::Rwdata => self.rwdata,
            Class::Bss => self.bss,
        }
    }

    /// With the area of one more run of a class: the first stays.
    fn with(self, class: Class, area: u32) -> Self
        ensures { (c : Class) → run_in result c ≡ option_or (run_in self c) (if same_class c class then Some area else None) }
    {
        match class {
            Class::Text => FirstRuns {
                text: self.text.or(Some(area)),
                ..self
            },
            Class::Rodata => FirstRuns {
                rodata: self.rodata.or(Some(area)),
                ..self
            },
            Class::Rwdata => FirstRuns {
                rwdata: self.rwdata.or(Some(area)),
                ..self
            },
            Class::Bss => FirstRuns {
                bss: self.bss.or(Some(area)),
                ..self
            },
        }
    }
}

/// The `drop` and `run` lines of a kit, by the names of sections.
#[derive(Drop)]
pub struct SectionLines<'a> {
    drops: NameIndex<'a>,
    sections: NameIndex<'a>,
    runs: Vec<FirstRuns>,
}

/// The names of the `drop` lines of a kit.
fn drops<'a>(alloc: Global, kit: &'a Kit) -> Result<NameIndex<'a>, NoMemory>
    requires { length kit.now.drops < KIT_TEXT_LIMIT }
    ensures { IfOk result (λ d. (q : List ℕ) → among d q ≡ among kit.now.drops q) }
{
    let mut drops = NameIndex::new(alloc);
    for word in kit.drops.items() {
        drops.number(word.items())?;
    }
    Ok(drops)
}

/// The number of the section of a run, with a place for its areas.
fn section_number<'a>(
    sections: &mut NameIndex<'a>,
    runs: &mut Vec<FirstRuns>,
    section: &'a [u8],
) -> Result<usize, NoMemory>
    requires len { length runs.old.items ≡ length sections.old }
    requires few { length sections.old < KIT_TEXT_LIMIT }
    ensures len { OnOk result (length runs.new.items ≡ length sections.new) }
    ensures most { OnOk result (length sections.new ≤ length sections.old + 1) }
    ensures same { OnOk result ((c : Class) (q : List ℕ) → run_found sections.new runs.new.items c q ≡ run_found sections.old runs.old.items c q) }
    ensures number { IfOk result (λ n. place_in sections.new section.now ≡ Some n) }
{
    let number = sections.number(section)? as usize;
    if number == runs.len() {
        runs.push(NO_RUNS)?;
    }
    Ok(number)
}

/// Notes a run in the area of this number.
fn note_run<'a>(
    sections: &mut NameIndex<'a>,
    runs: &mut Vec<FirstRuns>,
    run: &'a Run,
    area: u32,
) -> Result<(), NoMemory>
    requires len { length runs.old.items ≡ length sections.old }
    requires few { length sections.old < KIT_TEXT_LIMIT }
    ensures len { OnOk result (length runs.new.items ≡ length sections.new) }
    ensures most { OnOk result (length sections.new ≤ length sections.old + 1) }
    ensures noted { OnOk result ((c : Class) (q : List ℕ) → run_found sections.new runs.new.items c q ≡ option_or (run_found sections.old runs.old.items c q) (if bytes_eq q run.now.section && same_class c run.now.class then Some area else None)) }
{
    let number = section_number(sections, runs, run.section.items())?;
    runs[number] = runs[number].with(run.class, area);
    Ok(())
}

impl<'a> SectionLines<'a> {
    /// The lines of a kit. The only error is want of memory.
    pub fn new(alloc: Global, kit: &'a Kit) -> Result<Self, NoMemory>
        requires drops { length kit.now.drops < KIT_TEXT_LIMIT }
        requires runs { length kit.now.runs < KIT_TEXT_LIMIT }
        ensures { IfOk result (AreLines kit.now) }
    {
        let drops = drops(alloc, kit)?;
        let mut sections = NameIndex::new(alloc);
        let mut runs = Vec::new(alloc);
        for (number, run) in kit.runs.items().iter().enumerate() {
            note_run(&mut sections, &mut runs, run, FIRST_RUN + number as u32)?;
        }
        Ok(SectionLines {
            drops,
            sections,
            runs,
        })
    }

    /// Whether a `drop` line has this name.
    pub fn is_dropped(&self, name: &[u8]) -> bool
        ensures { (kit : Kit) → AreLines kit self.now → result ≡ among kit.drops name.now }
    {
        self.drops.find(name).is_some()
    }

    /// The area of the first `run` line of this class and name.
    pub fn run_area(&self, class: Class, name: &[u8]) -> Option<u32>
        ensures { (kit : Kit) → AreLines kit self.now → result ≡ run_area kit class name.now }
    {
        let number = self.sections.find(name)?;
        self.runs.get(number as usize)?.of(class)
    }
}
