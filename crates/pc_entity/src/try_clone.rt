//! Copies of texts and lists.

use crate::{NoMemory, Seq, Text, TryClone};
use std::alloc::Global;

impl TryClone for Text {
    fn try_clone(&self, _alloc: Global) -> Result<Text, NoMemory> {
        self.share()
    }
}

impl<T: TryClone + Drop> TryClone for Seq<T> {
    fn try_clone(&self, alloc: Global) -> Result<Seq<T>, NoMemory> {
        let mut copy = Seq::with_capacity(alloc, self.len())?;
        for item in self.as_slice() {
            copy.push(item.try_clone(alloc)?)?;
        }
        Ok(copy)
    }
}
