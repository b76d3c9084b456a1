// What a store in memory notes of each call that changed its disk.
use kl_base::{Bytes, Name};

#[derive(Drop)]
pub enum Step {
    Create { name: Name },
    Append { name: Name, bytes: Bytes },
    Rename { from: Name, to: Name },
    Remove { name: Name },
    Settle,
    // a stable file, put there from outside
    Put { name: Name, bytes: Bytes },
}
