// The image of a disk that a pick names.
ghost use Rattle.std.specs.Prelude.{◌≡◌, ◌≤◌, ◌+◌, ◌/◌, ◌%◌, ℕ, List, [], length, take, drop, map, true, false, Some, IfOk};
ghost use Rattle.std.specs.FinMap.{get};
ghost use Rattle.kl_store.specs.Disk.{names_now, IsImage};
ghost use Rattle.kl_mem.specs.Record.{disk_of, changes_of, AreChanges};
ghost use Rattle.kl_mem.specs.Picked.{turned, twisted, IsKept, IsLeft, IsPicked, AreLeft};

use crate::files::Files;
use crate::numbers::{is_appended, number_after};
use crate::record::Record;
use crate::step::Step;
use kl_base::{Name, NoMemory};
use std::alloc::Global;

// The image of the steps' disk that the pick names, as a record of stable files.
pub fn image(alloc: Global, steps: &[Step], pick: u64) -> Result<Record, NoMemory>
    ensures settled { IfOk result (λ r. (disk_of r.steps.items).changes ≡ []) }
    ensures picked { IfOk result (λ r. IsPicked pick (disk_of steps.now) (names_now (disk_of r.steps.items))) }
    ensures image { IfOk result (λ r. IsImage (disk_of steps.now) (names_now (disk_of r.steps.items))) }
{
    let since = settled_before(steps);
    let pending = &steps[since..];
    let choices = pending.len() as u64 + 1;
    let carried = (pick % choices) as usize;
    let twist = pick / choices % 4;
    let files = files_after(alloc, &steps[..since + carried])?;
    with_lost(alloc, pending, carried, twist, &files)
}

// The files, with the bytes twisted that a crash may lose.
fn with_lost(
    alloc: Global,
    pending: &[Step],
    carried: usize,
    twist: u64,
    files: &Files,
) -> Result<Record, NoMemory>
    requires carried { carried ≤ length pending.now }
    requires changes { AreChanges pending.now }
    ensures settled { IfOk result (λ r. (disk_of r.steps.items).changes ≡ []) }
    ensures left { IfOk result (λ r. AreLeft (changes_of pending.now) carried twist files.now (names_now (disk_of r.steps.items))) }
{
    let mut made = Record::new(alloc);
    let names = files.names(alloc)?;
    for name in &names {
        let Some(bytes) = files.get(name) else {
            continue;
        };
        let left = left_of(alloc, pending, carried, twist, name, bytes)?;
        made.put(name, &left)?;
    }
    Ok(made)
}

// What is left of a file that has these bytes after the picked changes.
fn left_of(
    alloc: Global,
    pending: &[Step],
    carried: usize,
    twist: u64,
    name: &Name,
    bytes: &[u8],
) -> Result<Vec<u8>, NoMemory>
    requires carried { carried ≤ length pending.now }
    requires changes { AreChanges pending.now }
    ensures { IfOk result (λ v. IsLeft (changes_of pending.now) carried twist name.now (Some bytes.now) (Some v.items)) }
{
    if is_kept(pending, carried, name) {
        return Ok(bytes.to_vec(alloc)?);
    }
    twist_bytes(alloc, bytes, twist)
}

// Where the changes since the last settle begin.
fn settled_before(steps: &[Step]) -> usize
    ensures within { result ≤ length steps.now }
    ensures pending { AreChanges (drop result steps.now) }
    ensures settled { (disk_of (take result steps.now)).changes ≡ [] }
{
    let mut i = steps.len();
    while i > 0 {
        match &steps[i - 1] {
            Step::Settle | Step::Put { .. } => return i,
            _ => i -= 1,
        }
    }
    0
}

// The names and their bytes after the steps.
fn files_after(alloc: Global, steps: &[Step]) -> Result<Files, NoMemory>
    ensures { IfOk result (λ files. files ≡ names_now (disk_of steps.now)) }
{
    let mut files = Files::new(alloc);
    for step in steps {
        files.apply(step)?;
    }
    Ok(files)
}

// Whether the name's file after k changes is stable, and none of all the changes appends to it.
fn is_kept(pending: &[Step], k: usize, name: &Name) -> bool
    requires within { k ≤ length pending.now }
    requires changes { AreChanges pending.now }
    ensures yes { result ≡ true → (file : List ℕ) × IsKept (changes_of pending.now) k name.now file }
    ensures no { result ≡ false → (file : List ℕ) → ¬ IsKept (changes_of pending.now) k name.now file }
{
    match number_after(pending, k, name) {
        Some(file) => !is_appended(pending, &file),
        None => false,
    }
}

// The bytes, as a crash may leave them.
fn twist_bytes(alloc: Global, bytes: &[u8], twist: u64) -> Result<Vec<u8>, NoMemory>
    ensures { IfOk result (λ v. v.items ≡ twisted twist bytes.now) }
{
    match twist {
        0 => Ok(Vec::new(alloc)),
        1 => Ok(bytes[..bytes.len() / 2].to_vec(alloc)?),
        2 => Ok(bytes.to_vec(alloc)?),
        _ => turn(alloc, bytes),
    }
}

// The bytes with every bit turned.
fn turn(alloc: Global, bytes: &[u8]) -> Result<Vec<u8>, NoMemory>
    ensures { IfOk result (λ v. v.items ≡ map turned bytes.now) }
{
    Ok(bytes.iter().map(|byte| !byte).collect(alloc)?)
}
