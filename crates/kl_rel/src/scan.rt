// Fields in order, and whether two of them share a byte.
ghost use Rattle.std.specs.Prelude.{◌≡◌, ◌+◌, ◌≤◌, ◌<◌, ◌^◌, [], ◌∷◌, ◌++◌, ℕ, true, false, length, slice_index, slice_index_or, All, AllPairs, IfOk, OnOk, OnErr};
ghost use Rattle.std.specs.Bool.{OnTrue, OnFalse};
ghost use Rattle.std.specs.List.Sorted.{IsSorted};
ghost use Rattle.kl_model.specs.Fit.{ShareNoByte};
ghost use Rattle.kl_model.specs.Relocations.{width};
ghost use Rattle.kl_rel.specs.FieldScans.{IsScan, Apart, noted_spans, span_cmp};

use kl_base::{Listed, NoMemory};
use kl_model::{RawField, RawFields, width};
use std::alloc::Global;

/// A section number, and the offsets in that section of a field's first byte and of its end.
type Span = (u32, u64, u64);

/// The fields of an object that were read so far. Compilers write the fields of a section in few ascending runs, so the fields
/// tell themselves where two may share a byte.
#[derive(Drop)]
pub(crate) struct FieldScan {
    fields: Vec<RawField>,
    /// By section number, an offset that no field in the section passes.
    ends: Vec<u64>,
    /// By section number, whether a field begins before the end of the earlier ones, so that two may share a byte.
    noted: Vec<bool>,
}

impl FieldScan {
    /// No fields, with room for so many, of an object of so many sections.
    pub(crate) fn new(alloc: Global, sections: u32, fields: u64) -> Result<Self, NoMemory>
        ensures empty { IfOk result (λ scan. scan.fields.items ≡ []) }
        ensures scan { IfOk result (λ scan. IsScan scan) }
        ensures count { IfOk result (λ scan. length scan.ends.items ≡ sections) }
    {
        Ok(FieldScan {
            fields: Vec::with_capacity(alloc, fields as usize)?,
            ends: vec![in alloc; 0; sections as usize]?,
            noted: vec![in alloc; false; sections as usize]?,
        })
    }

    /// The fields in order.
    pub(crate) fn into_fields(self) -> RawFields
        ensures { result ≡ self.fields.items }
    {
        Listed::from_vec(self.fields)
    }

    /// Adds a field. Where memory runs out the fields stay as they were.
    pub(crate) fn push(&mut self, field: &RawField) -> Result<(), NoMemory>
        requires scan { IsScan self.old }
        requires section { field.now.section < length self.old.ends.items }
        requires end { field.now.offset + width field.now.kind < 2 ^ 63 }
        ensures fields { OnOk result (self.new.fields.items ≡ self.old.fields.items ++ field.now ∷ []) }
        ensures kept { OnErr result (self.new.fields.items ≡ self.old.fields.items) }
        ensures scan { IsScan self.new }
        ensures count { length self.new.ends.items ≡ length self.old.ends.items }
    {
        self.fields.push(*field)?;
        let width = width(field.kind);
        if width != 0 {
            self.note(field.section as usize, field.offset, field.offset + width);
        }
        Ok(())
    }

    /// Whether two of the fields share a byte.
    pub(crate) fn has_overlap(&self, alloc: Global) -> Result<bool, NoMemory>
        requires { IsScan self.now }
        ensures free { IfOk result (λ found. OnFalse found (AllPairs ShareNoByte self.now.fields.items)) }
        ensures found { IfOk result (λ found. OnTrue found (¬ AllPairs ShareNoByte self.now.fields.items)) }
    {
        let mut spans = self.noted_spans(alloc)?;
        spans.sort()?;
        Ok(has_neighbours_that_meet(&spans))
    }
}

impl FieldScan {
    /// Moves the end of a section's fields past a field that has bytes, and notes the section where the field begins before it.
    fn note(&mut self, section: usize, offset: u64, end: u64)
        requires section { section < length self.old.ends.items }
        requires noted { section < length self.old.noted.items }
        ensures fields { self.new.fields ≡ self.old.fields }
        ensures ends_count { length self.new.ends.items ≡ length self.old.ends.items }
        ensures noted_count { length self.new.noted.items ≡ length self.old.noted.items }
        ensures ends { (s : ℕ) → slice_index self.old.ends.items s ≤ slice_index self.new.ends.items s }
        ensures end { end ≤ slice_index self.new.ends.items section }
        ensures noted { (s : ℕ) → slice_index_or self.new.noted.items s true ≡ false → slice_index_or self.old.noted.items s true ≡ false }
        ensures clear { slice_index_or self.new.noted.items section true ≡ false → slice_index self.old.ends.items section ≤ offset }
    {
        let past = self.ends[section];
        if offset < past {
            self.noted[section] = true;
        }
        if past < end {
            self.ends[section] = end;
        }
    }

    /// The spans of the fields that have bytes, in the sections that are noted.
    fn noted_spans(&self, alloc: Global) -> Result<Vec<Span>, NoMemory>
        requires { IsScan self.now }
        ensures { IfOk result (λ spans. spans.items ≡ noted_spans self.now.noted.items self.now.fields.items) }
    {
        let mut spans = Vec::new(alloc);
        if self.noted.contains(&true) {
            spans.reserve(self.fields.len())?;
        }
        for field in &self.fields {
            let width = width(field.kind);
            if self.noted[field.section as usize] && width != 0 {
                spans.push((field.section, field.offset, field.offset + width))?;
            }
        }
        Ok(spans)
    }
}

/// Whether one of the spans shares a byte with the next.
fn has_neighbours_that_meet(spans: &[Span]) -> bool
    requires sorted { IsSorted span_cmp spans.now }
    requires bytes { All (λ x. x.1 < x.2) spans.now }
    ensures free { OnFalse result (AllPairs Apart spans.now) }
    ensures found { OnTrue result (¬ AllPairs Apart spans.now) }
{
    for index in 1..spans.len() {
        let (before, span) = (&spans[index - 1], &spans[index]);
        if before.0 == span.0 && span.1 < before.2 {
            return true;
        }
    }
    false
}
