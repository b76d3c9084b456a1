// The other two things outside the program: a source of random bytes, and a sink of bytes.
ghost use Rattle.std.specs.Prelude.{ℕ};
ghost use Rattle.kl_store.specs.Calls.{HasCause};
ghost use Rattle.kl_store.specs.Outside.{Blocks, Taken, Fills, Writes};

use crate::Failed;

/// A source of random bytes, in blocks of 32.
pub trait Entropy {
    /// What the source tells: the blocks that it will still give.
    ghost meaning: { Self → Blocks };

    /// How many calls have failed, up to 2^64 - 1.
    ghost faults: { Self → ℕ };

    /// Puts the next block into `out`. A failed call uses up no block, and may leave any bytes in `out`.
    fn fill(&mut self, out: &mut [u8; 32]) -> Result<(), Failed>
        ensures fills { Fills (meaning self.old) (meaning self.new) out.new result }
        ensures cause { HasCause (faults self.old) (faults self.new) result };
}

/// A sink of bytes, such as standard output.
pub trait Sink {
    /// What the sink tells: the bytes that it has taken.
    ghost meaning: { Self → Taken };

    /// How many calls have failed, up to 2^64 - 1.
    ghost faults: { Self → ℕ };

    /// Takes the bytes. A failed call may have taken some first ones of them.
    fn write(&mut self, bytes: &[u8]) -> Result<(), Failed>
        ensures writes { Writes bytes.now (meaning self.old) (meaning self.new) result }
        ensures cause { HasCause (faults self.old) (faults self.new) result };
}
