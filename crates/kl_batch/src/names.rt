// The names under which a kernel is installed.

/// The name of the kernel.
pub const KERNEL: [u8; 4] = *b"/bsd";

/// The name of its record, which names its digest.
pub const KERNEL_RECORD: [u8; 21] = *b"/var/db/kernel.SHA256";

/// The name of its map.
pub const KERNEL_MAP: [u8; 18] = *b"/var/db/kernel.map";
