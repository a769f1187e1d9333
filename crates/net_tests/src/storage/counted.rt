//! A value that tells when it is dropped.
use std::cell::Cell;

/// A value that counts how often one of its kind is dropped.
pub struct Counted<'a> {
    pub drops: &'a Cell<u32>,
}

impl Drop for Counted<'_> {
    fn drop(self) {
        let Counted { drops } = self;
        drops.set(drops.get().saturating_add(1));
    }
}
