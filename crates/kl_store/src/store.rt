// A store of files as the product sees it.
ghost use Rattle.std.specs.Prelude.{◌≡◌, ◌≢◌, ◌≤◌, ℕ, length, option_map, IfOk};
ghost use Rattle.kl_store.specs.Names.{Create, Append, Rename, Remove};
ghost use Rattle.kl_store.specs.Meaning.{Meaning};
ghost use Rattle.kl_store.specs.Calls.{HasCause, Stays, Does, DoesIf, Settles, Holds, Reads};

use kl_base::Name;

/// A call to the outside failed. Its object's count of faults says so too.
#[derive(Clone, Copy, Debug, PartialEq, Eq)]
pub struct Failed;

/// Files under names, with no folders. A failed call may have made its change, an append
/// a part of it, and makes no other; the store can be used after it.
pub trait Store {
    /// What the store tells: its names, its disk, and what a crash may have left of it.
    ghost meaning: { Self → Meaning };

    /// How many calls have failed, up to 2^64 - 1.
    ghost faults: { Self → ℕ };

    /// The length of the file in bytes, or None where the name is absent.
    fn size(&mut self, name: &Name) -> Result<Option<u64>, Failed>
        ensures size { IfOk result (λ n. Holds (meaning self.old) name.now (λ file. n ≡ option_map length file)) }
        ensures still { Stays (meaning self.old) (meaning self.new) }
        ensures cause { HasCause (faults self.old) (faults self.new) result };

    /// Puts the file's bytes from the place `at` on into the buffer, as many as fit, and answers
    /// how many: none at the file's end or past it, or where the name is absent.
    fn read(&mut self, name: &Name, at: u64, buf: &mut [u8]) -> Result<usize, Failed>
        ensures bound { IfOk result (λ n. n ≤ length buf.old) }
        ensures bytes { IfOk result (λ n. Holds (meaning self.old) name.now (Reads at n buf.old buf.new)) }
        ensures still { Stays (meaning self.old) (meaning self.new) }
        ensures cause { HasCause (faults self.old) (faults self.new) result };

    /// Puts a new empty file under the name; a file that had the name is gone.
    fn create(&mut self, name: &Name) -> Result<(), Failed>
        ensures does { Does (Create name.now) (meaning self.old) (meaning self.new) result }
        ensures cause { HasCause (faults self.old) (faults self.new) result };

    /// Adds the bytes at the file's end. An absent file is created first.
    fn append(&mut self, name: &Name, bytes: &[u8]) -> Result<(), Failed>
        ensures does { Does (Append name.now bytes.now) (meaning self.old) (meaning self.new) result }
        ensures cause { HasCause (faults self.old) (faults self.new) result };

    /// Gives the file the new name, in place of a file that had it. False where `from` is absent.
    fn rename(&mut self, from: &Name, to: &Name) -> Result<bool, Failed>
        requires { from.now ≢ to.now }
        ensures does { DoesIf (Rename from.now to.now) (meaning self.old) (meaning self.new) result }
        ensures cause { HasCause (faults self.old) (faults self.new) result };

    /// Removes the name and its file. False where the name is absent.
    fn remove(&mut self, name: &Name) -> Result<bool, Failed>
        ensures does { DoesIf (Remove name.now) (meaning self.old) (meaning self.new) result }
        ensures cause { HasCause (faults self.old) (faults self.new) result };

    /// Makes all changes so far stable: a crash after it undoes none of them.
    fn settle(&mut self) -> Result<(), Failed>
        ensures settles { Settles (meaning self.old) (meaning self.new) result }
        ensures cause { HasCause (faults self.old) (faults self.new) result };
}
