//! A processor that puts a text before each item.

ghost use Rattle.std.specs.Prelude.{◌≡◌, ◌++◌, IfOk};
ghost use Rattle.jb_artifacts.specs.Faults.{plans_of};
ghost use Rattle.jb_artifacts.specs.Prefix.{begins_with, prefixed};

use crate::fault_plans::FaultPlans;
use crate::interfaces::ItemProcessor;
use crate::item::Item;
use crate::packed_results::PackedResults;
use crate::packing_processor::PackingProcessor;
use jb_base::ArtifactError;
use std::alloc::{AllocError, Global};

/// A processor that puts a prefix before each item. If it has a drop text, it filters the items that begin with it. It
/// has a fault plan for the processing of each record.
#[derive(Drop)]
pub struct PrefixProcessor {
    alloc: Global,
    prefix: Item,
    dropped: Option<Item>,
    faults: FaultPlans,
}

impl PrefixProcessor {
    /// Takes no memory.
    pub fn new(
        alloc: Global,
        prefix: Item,
        dropped: Option<Item>,
        faults: FaultPlans,
    ) -> PrefixProcessor
        ensures { ⟦<PrefixProcessor as ItemProcessor>⟧.processor result
            ≡ record { answer = λ _ item. prefixed prefix dropped item; faults = plans_of faults } }
    {
        PrefixProcessor {
            alloc,
            prefix,
            dropped,
            faults,
        }
    }
}

impl ItemProcessor for PrefixProcessor {
    ghost processor = { λ p. record { answer = λ _ item. prefixed p.prefix p.dropped item; faults = plans_of p.faults } };

    fn process_item(&mut self, number: u64, item: &[u8]) -> Result<Option<Item>, ArtifactError> {
        if let Some(class) = self.faults.strike(number) {
            return Err(ArtifactError::Fault(class));
        }
        if is_dropped(&self.dropped, item) {
            return Ok(None);
        }
        let result = joined(self.alloc, self.prefix.as_slice(), item)?;
        Ok(Some(result))
    }
}

impl PackingProcessor for PrefixProcessor {
    fn pack_item(
        &mut self,
        number: u64,
        item: &[u8],
        results: &mut PackedResults,
    ) -> Result<bool, ArtifactError> {
        if let Some(class) = self.faults.strike(number) {
            return Err(ArtifactError::Fault(class));
        }
        if is_dropped(&self.dropped, item) {
            return Ok(false);
        }
        results.push_joined(number, self.prefix.as_slice(), item)?;
        Ok(true)
    }
}

/// Whether the item begins with the drop text, if there is one.
fn is_dropped(dropped: &Option<Item>, item: &[u8]) -> bool
    ensures { result ≡ begins_with dropped.now item.now }
{
    match dropped {
        Some(text) => item.starts_with(text.as_slice()),
        None => false,
    }
}

/// The prefix followed by the text.
fn joined(alloc: Global, prefix: &[u8], text: &[u8]) -> Result<Item, AllocError>
    ensures { IfOk result (λ item. item ≡ prefix.now ++ text.now) }
{
    let mut bytes = Vec::with_capacity(alloc, prefix.len() + text.len())?;
    bytes.extend_from_slice(prefix)?;
    bytes.extend_from_slice(text)?;
    Ok(Item::from_vec(bytes))
}
