// A store that passes some calls on, and then fails.
ghost use Rattle.std.specs.Prelude.{◌≡◌, ◌≢◌, ◌≤◌, ◌<◌, ◌-◌, ℕ, length, option_map, IfOk, true, false};
ghost use Rattle.kl_store.specs.Names.{Create, Append, Rename, Remove};
ghost use Rattle.kl_store.specs.Calls.{Rose, HasCause, Stays, Does, DoesIf, Settles, Holds, Reads};
ghost use Rattle.kl_store.specs.Counts.{raised};
ghost use Rattle.kl_mem.specs.Fuses.{Burns, passes, inner_of, failed};

use kl_base::Name;
use kl_store::{Failed, Store};

/// A store that passes a number of calls of `Store` on to another one, and then fails each without a change.
#[derive(Drop)]
pub struct Fuse<S: Store> {
    inner: S,
    left: u64,
    faults: u64,
}

impl<S: Store> Fuse<S> {
    /// A store that passes that many calls on to `inner`.
    pub fn new(inner: S, calls: u64) -> Self
        ensures inner { inner_of result ≡ inner }
        ensures calls { passes result ≡ calls }
        ensures faults { failed result ≡ 0 }
    {
        Fuse {
            inner,
            left: calls,
            faults: 0,
        }
    }

    /// The store that got the calls.
    pub fn into_inner(self) -> S
        ensures { result ≡ inner_of self }
    {
        self.inner
    }

    // Takes one of the calls that are left, if there is one.
    fn burn(&mut self) -> bool
        ensures left { self.new ≡ record self.old { left = self.old.left - 1 } }
        ensures yes { result ≡ true → 0 < self.old.left }
        ensures no { result ≡ false → self.old.left ≡ 0 }
    {
        let burns = self.left > 0;
        self.left = self.left.saturating_sub(1);
        burns
    }

    // Counts a failure.
    fn fail(&mut self) -> Failed
        ensures inner { self.new.inner ≡ self.old.inner }
        ensures left { self.new.left ≡ self.old.left }
        ensures faults { self.new.faults ≡ raised self.old.faults }
        ensures later { self.old.faults ≤ self.new.faults }
        ensures rose { Rose self.old.faults self.new.faults }
    {
        self.faults = self.faults.saturating_add(1);
        Failed
    }
}

impl<S: Store> Store for Fuse<S> {
    ghost meaning = { λ f. S.meaning f.inner };

    ghost faults = { λ f. f.faults };

    fn size(&mut self, name: &Name) -> Result<Option<u64>, Failed>
        ensures size { IfOk result (λ n. Holds (S.meaning self.old.inner) name.now (λ file. n ≡ option_map length file)) }
        ensures still { Stays (S.meaning self.old.inner) (S.meaning self.new.inner) }
        ensures cause { HasCause self.old.faults self.new.faults result }
        ensures burns { Burns S.faults self.old self.new result }
    {
        if !self.burn() {
            return Err(self.fail());
        }
        match self.inner.size(name) {
            Ok(size) => Ok(size),
            Err(_) => Err(self.fail()),
        }
    }

    fn read(&mut self, name: &Name, at: u64, buf: &mut [u8]) -> Result<usize, Failed>
        ensures bound { IfOk result (λ n. n ≤ length buf.old) }
        ensures bytes { IfOk result (λ n. Holds (S.meaning self.old.inner) name.now (Reads at n buf.old buf.new)) }
        ensures still { Stays (S.meaning self.old.inner) (S.meaning self.new.inner) }
        ensures cause { HasCause self.old.faults self.new.faults result }
        ensures burns { Burns S.faults self.old self.new result }
    {
        if !self.burn() {
            return Err(self.fail());
        }
        match self.inner.read(name, at, buf) {
            Ok(count) => Ok(count),
            Err(_) => Err(self.fail()),
        }
    }

    fn create(&mut self, name: &Name) -> Result<(), Failed>
        ensures does { Does (Create name.now) (S.meaning self.old.inner) (S.meaning self.new.inner) result }
        ensures cause { HasCause self.old.faults self.new.faults result }
        ensures burns { Burns S.faults self.old self.new result }
    {
        if !self.burn() {
            return Err(self.fail());
        }
        match self.inner.create(name) {
            Ok(()) => Ok(()),
            Err(_) => Err(self.fail()),
        }
    }

    fn append(&mut self, name: &Name, bytes: &[u8]) -> Result<(), Failed>
        ensures does { Does (Append name.now bytes.now) (S.meaning self.old.inner) (S.meaning self.new.inner) result }
        ensures cause { HasCause self.old.faults self.new.faults result }
        ensures burns { Burns S.faults self.old self.new result }
    {
        if !self.burn() {
            return Err(self.fail());
        }
        match self.inner.append(name, bytes) {
            Ok(()) => Ok(()),
            Err(_) => Err(self.fail()),
        }
    }

    fn rename(&mut self, from: &Name, to: &Name) -> Result<bool, Failed>
        requires { from.now ≢ to.now }
        ensures does { DoesIf (Rename from.now to.now) (S.meaning self.old.inner) (S.meaning self.new.inner) result }
        ensures cause { HasCause self.old.faults self.new.faults result }
        ensures burns { Burns S.faults self.old self.new result }
    {
        if !self.burn() {
            return Err(self.fail());
        }
        match self.inner.rename(from, to) {
            Ok(was) => Ok(was),
            Err(_) => Err(self.fail()),
        }
    }

    fn remove(&mut self, name: &Name) -> Result<bool, Failed>
        ensures does { DoesIf (Remove name.now) (S.meaning self.old.inner) (S.meaning self.new.inner) result }
        ensures cause { HasCause self.old.faults self.new.faults result }
        ensures burns { Burns S.faults self.old self.new result }
    {
        if !self.burn() {
            return Err(self.fail());
        }
        match self.inner.remove(name) {
            Ok(was) => Ok(was),
            Err(_) => Err(self.fail()),
        }
    }

    fn settle(&mut self) -> Result<(), Failed>
        ensures settles { Settles (S.meaning self.old.inner) (S.meaning self.new.inner) result }
        ensures cause { HasCause self.old.faults self.new.faults result }
        ensures burns { Burns S.faults self.old self.new result }
    {
        if !self.burn() {
            return Err(self.fail());
        }
        match self.inner.settle() {
            Ok(()) => Ok(()),
            Err(_) => Err(self.fail()),
        }
    }
}
