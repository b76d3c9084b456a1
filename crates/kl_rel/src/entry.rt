// The entries of a relocation section.
ghost use Rattle.std.specs.Prelude.{◌≡◌, ◌+◌, ◌*◌, ◌/◌, ◌≤◌, ◌<◌, ◌^◌, nat_le, length, take, AllPairs, OnOk, IfErr, None};
ghost use Rattle.std.specs.Result.{result_err};
ghost use Rattle.kl_elf.specs.Records.{rela_at};
ghost use Rattle.kl_model.specs.Fit.{ShareNoByte};
ghost use Rattle.kl_model.specs.Relocations.{width};
ghost use Rattle.kl_rel.specs.Flaws.{IsAnswer, first_of};
ghost use Rattle.kl_rel.specs.FieldScans.{IsScan, TellsFlaw, plain_checks};
ghost use Rattle.kl_rel.specs.EntryLists.{AreEntries};
ghost use Rattle.kl_rel.specs.Relocations.{fields_before, entries_flaw, listed_field};
ghost use Rattle.kl_base.specs.declared.limits.TheConstants.{INPUT_LIMIT, SIZE_LIMIT};

use crate::fault::fault_at;
use crate::scan::FieldScan;
use crate::{ReadError, ReadFault, ReadKind};
use kl_elf::{Rela, Shdr};
use kl_model::{RawField, width};

/// The entries of a relocation section.
#[derive(Clone, Copy)]
pub(crate) struct Entries {
    /// The number of the section, and its header.
    pub(crate) number: u32,
    pub(crate) header: Shdr,
    /// The number of symbols.
    pub(crate) symbols: u64,
    /// The size of the section that they change, in bytes.
    pub(crate) size: u64,
}

impl Entries {
    /// Adds the fields of the entries to those of earlier sections, up to the first flaw that no two fields have a part in.
    pub(crate) fn scan(&self, bytes: &[u8], scan: &mut FieldScan) -> Result<(), ReadError>
        requires long { length bytes.now ≤ INPUT_LIMIT }
        requires entries { AreEntries bytes.now self.now }
        requires lies { self.now.header.offset + self.now.header.size ≤ length bytes.now }
        requires size { self.now.size ≤ SIZE_LIMIT }
        requires scan { IsScan scan.old }
        requires section { self.now.header.info < length scan.old.ends.items }
        requires before { scan.old.fields.items ≡ fields_before bytes.now self.now.number 0 }
        ensures fields { OnOk result (scan.new.fields.items ≡ fields_before bytes.now self.now.number (self.now.header.size / Rela.SIZE)) }
        ensures kept { take (length scan.old.fields.items) scan.new.fields.items ≡ scan.old.fields.items }
        ensures scan { IsScan scan.new }
        ensures count { length scan.new.ends.items ≡ length scan.old.ends.items }
        ensures sound { OnOk result (AllPairs ShareNoByte scan.new.fields.items → entries_flaw bytes.now self.now.number ≡ None) }
        ensures flaw { IfErr result (λ e. AllPairs ShareNoByte scan.new.fields.items → IsAnswer (entries_flaw bytes.now self.now.number) e) }
        ensures told { IfErr result (TellsFlaw (entries_flaw bytes.now self.now.number)) }
    {
        for index in 0..self.header.size / Rela::SIZE as u64 {
            let field = self.field(bytes, index);
            self.check(self.header.offset + Rela::SIZE as u64 * index, &field)?;
            scan.push(&field)?;
        }
        Ok(())
    }

    /// The field of an entry.
    pub(crate) fn field(&self, bytes: &[u8], index: u64) -> RawField
        requires long { length bytes.now ≤ INPUT_LIMIT }
        requires place { self.now.header.offset + Rela.SIZE * index + Rela.SIZE ≤ length bytes.now }
        ensures { result ≡ listed_field self.now.number index self.now.header.info (rela_at bytes.now (self.now.header.offset + Rela.SIZE * index)) }
    {
        let place = self.header.offset + Rela::SIZE as u64 * index;
        let entry = Rela::read(bytes, place as usize);
        RawField {
            rela: self.number,
            index: index as u32,
            section: self.header.info,
            offset: entry.offset,
            kind: (entry.info % (1 << 32)) as u32,
            symbol: (entry.info / (1 << 32)) as u32,
            addend: entry.addend,
        }
    }

    /// Checks the symbol and the place of a field, whose entry stands at `place`.
    #[tactic(auto, unfolding(crate::specs::FieldScans::plain_checks))]
    pub(crate) fn check(&self, place: u64, field: &RawField) -> Result<(), ReadFault>
        requires { place < 2 ^ 63 }
        ensures { result_err result ≡ first_of (plain_checks self.now.symbols self.now.size place field.now) }
    {
        if u64::from(field.symbol) >= self.symbols {
            return Err(fault_at(ReadKind::RelaLink, place + Rela::R_INFO));
        }
        if !fits(field, self.size) {
            return Err(fault_at(ReadKind::RelaPlace, place));
        }
        Ok(())
    }
}

/// Whether a field lies in a section of this size.
fn fits(field: &RawField, size: u64) -> bool
    ensures { result ≡ nat_le (field.now.offset + width field.now.kind) size }
{
    match field.offset.checked_add(width(field.kind)) {
        Some(end) => end <= size,
        None => false,
    }
}
