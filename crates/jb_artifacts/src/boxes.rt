//! A boxed artifact is an artifact: each call is passed on to what is in the box.

use crate::interfaces::{Collector, ItemProcessor, ItemReader, ItemWriter};
use crate::item::Item;
use crate::view::RowView;
use jb_base::ArtifactError;
use std::alloc::AllocError;

impl ItemReader for Box<dyn ItemReader + Send + Drop> {
    ghost reader = { λ boxed. (ItemReader-box boxed).reader boxed.value };

    fn first(&self) -> u64 {
        (**self).first()
    }

    fn end(&self) -> u64 {
        (**self).end()
    }

    fn place(&self) -> u64 {
        (**self).place()
    }

    fn open_at(&mut self, at: u64) {
        (**self).open_at(at);
    }

    fn read_item(&mut self) -> Result<Option<Item>, ArtifactError> {
        (**self).read_item()
    }
}

impl ItemProcessor for Box<dyn ItemProcessor + Send + Drop> {
    ghost processor = { λ boxed. (ItemProcessor-box boxed).processor boxed.value };

    fn process_item(&mut self, number: u64, item: &[u8]) -> Result<Option<Item>, ArtifactError> {
        (**self).process_item(number, item)
    }
}

impl ItemWriter for Box<dyn ItemWriter + Send + Drop> {
    ghost writer = { λ boxed. (ItemWriter-box boxed).writer boxed.value };

    fn count(&self) -> u64 {
        (**self).count()
    }

    fn open_at(&mut self, count: u64) {
        (**self).open_at(count);
    }

    fn write_items(&mut self, results: &[(u64, Item)]) -> Result<(), ArtifactError> {
        (**self).write_items(results)
    }

    fn item_at(&self, i: u64) -> Option<&[u8]> {
        (**self).item_at(i)
    }
}

impl Collector for Box<dyn Collector + Send + Drop> {
    ghost collected = { λ boxed. (Collector-box boxed).collected boxed.value };

    fn collect(&self, view: &RowView) -> Result<Item, AllocError> {
        (**self).collect(view)
    }
}
