// A library and its map, which take their places as one.
ghost use Rattle.std.specs.Prelude.{◌≡◌, [], None, OnOk, true};
ghost use Rattle.kl_base.specs.declared.class.Slot.TheVariants as slot;
ghost use Rattle.kl_store.specs.Calls.{HasCause, Holds};
ghost use Rattle.kl_store.specs.Files.{KeepsNames};
ghost use Rattle.kl_intent.specs.IntentText.{slot_name};
ghost use Rattle.kl_install.specs.Installers.{is_ready, slot_of, staged};
ghost use Rattle.kl_batch.specs.Together.{Installs, IsElsewhere};
ghost use Rattle.kl_batch.specs.Batches.{IsLibraryName, library_files, map_of};

use kl_base::Name;
use kl_install::{Installer, with_suffix};
use kl_store::{Failed, Store};

/// The folder of the libraries' maps.
const LIBRARY_MAPS: [u8; 14] = *b"/var/db/relink";

/// The name of a library's map: that of the library, below `/var/db/relink`, and `.map`.
pub fn library_map(output: &Name) -> Name
    requires { IsLibraryName output.now }
    ensures { result ≡ map_of output.now }
{
    let below = Name::from_bytes(&LIBRARY_MAPS).unwrap().join(output);
    with_suffix(&below, b".map")
}

/// Puts a library and its map into their places as one: a stop at any moment, followed by recovery of the libraries' slot, leaves both as
/// they were or both in place. After that the installer is ready for the next library; after a failure only `recover` may be called on it.
pub fn put_library<S: Store>(
    installer: &mut Installer,
    store: &mut S,
    output: &Name,
    image: &[u8],
    map: &[u8],
) -> Result<(), Failed>
    requires slot { slot_of installer.old ≡ slot.Libs }
    requires ready { is_ready installer.old ≡ true }
    requires none { staged installer.old ≡ [] }
    requires free { Holds (S.meaning store.old) (slot_name slot.Libs) (λ file. file ≡ None) }
    requires name { IsLibraryName output.now }
    ensures slot { slot_of installer.new ≡ slot.Libs }
    ensures ready { OnOk result (is_ready installer.new ≡ true) }
    ensures none { OnOk result (staged installer.new ≡ []) }
    ensures installs { Installs slot.Libs (library_files output.now image.now map.now) (S.meaning store.old) (S.meaning store.new) result }
    ensures others { KeepsNames (IsElsewhere slot.Libs (library_files output.now image.now map.now)) (S.meaning store.old) (S.meaning store.new) }
    ensures cause { HasCause (S.faults store.old) (S.faults store.new) result }
{
    installer.stage(store, output, image)?;
    installer.stage(store, &library_map(output), map)?;
    installer.commit(store)
}
