// The names under which kits stand.

/// The folder of the kernel's kit.
pub const KERNEL_KIT: [u8; 24] = *b"/usr/share/relink/kernel";
