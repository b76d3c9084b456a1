// The numbers of names.
ghost use Rattle.std.specs.Prelude.{◌≡◌};
ghost use Rattle.kl_image.specs.Resolvers.{Numbers, number_of};

/// What a loader asks for the numbers of names, as the addresses of other objects' symbols.
pub trait Resolver {
    /// The names that have a number, each with it.
    ghost numbers: { Self → Numbers };

    /// The number of a name, and 0 for a name without one.
    fn resolve(&self, name: &[u8]) -> u64
        ensures { result ≡ number_of (numbers self.now) name.now };
}
