// Bytes that are written one piece after another.
ghost use Rattle.std.specs.Prelude.{◌≡◌};
ghost use Rattle.std.specs.List.{flat_map};
ghost use Rattle.kl_store.specs.Calls.{HasCause};
ghost use Rattle.kl_store.specs.Outside.{Writes};

use kl_store::{Failed, Sink};

/// Writes the pieces one after another.
pub fn write_pieces<K: Sink>(out: &mut K, pieces: &[&[u8]]) -> Result<(), Failed>
    ensures writes { Writes (flat_map (λ p. p.now) pieces.now) (K.meaning out.old) (K.meaning out.new) result }
    ensures cause { HasCause (K.faults out.old) (K.faults out.new) result }
{
    for piece in pieces {
        out.write(piece)?;
    }
    Ok(())
}
