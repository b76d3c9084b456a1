// Reading a text in tests.
use kl_base::KIT_TEXT_LIMIT;
use kl_kit::{Index, KitError, KitFault, read_index, read_kit};
use kl_model::Kit;
use std::alloc::Global;
use std::test::Fail;

/// The kit of a text that has one.
pub(crate) fn kit(alloc: Global, text: &[u8]) -> Result<Kit, Fail> {
    if text.len() as u64 > KIT_TEXT_LIMIT {
        return Err("a text past the limit".into());
    }
    match read_kit(alloc, text) {
        Ok(kit) => Ok(kit),
        Err(_) => Err("a kit".into()),
    }
}

/// The first fault of a text that has one.
pub(crate) fn fault(alloc: Global, text: &[u8]) -> Result<KitFault, Fail> {
    if text.len() as u64 > KIT_TEXT_LIMIT {
        return Err("a text past the limit".into());
    }
    match read_kit(alloc, text) {
        Ok(_) => Err("a fault".into()),
        Err(KitError::Fault(fault)) => Ok(fault),
        Err(KitError::NoMemory) => Err("memory".into()),
    }
}

/// The index of a text that has one.
pub(crate) fn index(alloc: Global, text: &[u8]) -> Result<Index, Fail> {
    if text.len() as u64 > KIT_TEXT_LIMIT {
        return Err("a text past the limit".into());
    }
    match read_index(alloc, text) {
        Ok(index) => Ok(index),
        Err(_) => Err("an index".into()),
    }
}

/// The first fault of an index that has one.
pub(crate) fn index_fault(alloc: Global, text: &[u8]) -> Result<KitFault, Fail> {
    if text.len() as u64 > KIT_TEXT_LIMIT {
        return Err("a text past the limit".into());
    }
    match read_index(alloc, text) {
        Ok(_) => Err("a fault".into()),
        Err(KitError::Fault(fault)) => Ok(fault),
        Err(KitError::NoMemory) => Err("memory".into()),
    }
}
