// Files that take their places as one.
ghost use Rattle.std.specs.Prelude.{◌≡◌, ◌∷◌, [], None, OnOk, true};
ghost use Rattle.kl_base.specs.declared.class.Slot.TheVariants as slot;
ghost use Rattle.std.specs.Option.{ForSome};
ghost use Rattle.kl_store.specs.Calls.{HasCause, Holds};
ghost use Rattle.kl_store.specs.Disk.{names_now};
ghost use Rattle.kl_store.specs.Files.{KeepsNames};
ghost use Rattle.kl_store.specs.Images.{Leaves, NamesHave};
ghost use Rattle.kl_intent.specs.IntentText.{slot_name};
ghost use Rattle.kl_install.specs.Installers.{is_ready, slot_of, staged};
ghost use Rattle.kl_batch.specs.Together.{Installs, IsElsewhere};
ghost use Rattle.kl_batch.specs.Batches.{AreInstalled, IsKernelBatch, MayLeave, Plan, kernel_files};

use crate::names::{KERNEL, KERNEL_MAP, KERNEL_RECORD};
use kl_base::Name;
use kl_install::Installer;
use kl_store::{Failed, Store};

/// Puts a kernel, its record and its map into their places as one: a stop at any moment, followed by recovery of the kernel's slot, leaves
/// all three as they were or all three in place. After a failure only `recover` may be called on the installer.
pub fn put_kernel<S: Store>(
    installer: &mut Installer,
    store: &mut S,
    image: &[u8],
    record_text: &[u8],
    map: &[u8],
) -> Result<(), Failed>
    requires slot { slot_of installer.old ≡ slot.Kernel }
    requires ready { is_ready installer.old ≡ true }
    requires none { staged installer.old ≡ [] }
    requires free { Holds (S.meaning store.old) (slot_name slot.Kernel) (λ file. file ≡ None) }
    ensures installs { Installs slot.Kernel (kernel_files image.now record_text.now map.now) (S.meaning store.old) (S.meaning store.new) result }

    // Where they are those of a kernel's plan, that batch is installed with Ok, and whatever the answer a stop leaves it or none, as the
    // names then are.
    ensures installed { (p : Plan) → IsKernelBatch p image.now record_text.now map.now → OnOk result (ForSome (S.meaning store.old).disk (λ d. ForSome (S.meaning store.new).disk (AreInstalled slot.Kernel (p ∷ []) (names_now d)))) }
    ensures crash { (p : Plan) → IsKernelBatch p image.now record_text.now map.now → Leaves (S.meaning store.old) (S.meaning store.new) (MayLeave slot.Kernel (p ∷ [])) }
    ensures stopped { (p : Plan) → IsKernelBatch p image.now record_text.now map.now → NamesHave (S.meaning store.old) (S.meaning store.new) (MayLeave slot.Kernel (p ∷ [])) }
    ensures others { KeepsNames (IsElsewhere slot.Kernel (kernel_files image.now record_text.now map.now)) (S.meaning store.old) (S.meaning store.new) }
    ensures cause { HasCause (S.faults store.old) (S.faults store.new) result }
{
    installer.stage(store, &Name::from_bytes(&KERNEL).unwrap(), image)?;
    installer.stage(
        store,
        &Name::from_bytes(&KERNEL_RECORD).unwrap(),
        record_text,
    )?;
    installer.stage(store, &Name::from_bytes(&KERNEL_MAP).unwrap(), map)?;
    installer.commit(store)
}
