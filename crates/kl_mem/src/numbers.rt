// Which files keep their bytes in a crash.
ghost use Rattle.std.specs.Prelude.{◌≡◌, ◌≤◌, ◌<◌, ◌+◌, List, ℕ, length, take, true, false, Option, Some, None, IfSome, IfNone};
ghost use Rattle.kl_store.specs.Disk.{all_renumbered, IsAppendedTo, Numbers};
ghost use Rattle.kl_mem.specs.Record.{renumbers, changes_of};

use crate::step::Step;
use kl_base::Name;

// The number of the name's file after the first k steps, if it was stable before them: its stable name.
pub fn number_after(steps: &[Step], k: usize, name: &Name) -> Option<Name>
    requires { k ≤ length steps.now }
    ensures { result ≡ all_renumbered (changes_of (take k steps.now)) Some name.now }
{
    let mut current = *name;
    let mut i = k;
    while i > 0 {
        i -= 1;
        match before(&steps[i], &current) {
            Some(earlier) => {
                current = earlier;
            }
            None => return None,
        }
    }
    Some(current)
}

// The name that the file had before the step, if it was there.
#[tactic(auto, using(crate::proofs::Written::same_bytes))]
fn before(step: &Step, name: &Name) -> Option<Name>
    ensures some { IfSome result (λ earlier. (f : Numbers) → renumbers step.now f name.now ≡ f earlier) }
    ensures none { IfNone result ((f : Numbers) → renumbers step.now f name.now ≡ None) }
{
    match step {
        Step::Create { name: n } | Step::Remove { name: n } => {
            if name == n {
                return None;
            }
        }
        Step::Rename { from, to } => {
            if name == to {
                return Some(*from);
            }
            if name == from {
                return None;
            }
        }
        Step::Append { .. } | Step::Settle | Step::Put { .. } => {}
    }
    Some(*name)
}

// Whether one of the steps appends to the stable file of that number.
pub fn is_appended(steps: &[Step], file: &Name) -> bool
    ensures yes { result ≡ true → IsAppendedTo file.now (changes_of steps.now) Some }
    ensures no { result ≡ false → IsAppendedTo file.now (changes_of steps.now) Some → ⊥ }
{
    for i in 0..steps.len() {
        if appends_at(steps, i, file) {
            return true;
        }
    }
    false
}

// Whether the step of that number does.
fn appends_at(steps: &[Step], i: usize, file: &Name) -> bool
    requires { i < length steps.now }
    ensures yes { result ≡ true → IsAppendedTo file.now (changes_of (take (i + 1) steps.now)) Some }
    ensures no { result ≡ false → IsAppendedTo file.now (changes_of (take (i + 1) steps.now)) Some → IsAppendedTo file.now (changes_of (take i steps.now)) Some }
{
    match &steps[i] {
        Step::Append { name, .. } => match number_after(steps, i, name) {
            Some(number) => number == *file,
            None => false,
        },
        _ => false,
    }
}
