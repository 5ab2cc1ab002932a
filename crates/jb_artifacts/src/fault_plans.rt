//! The fault plans of an artifact's records.

ghost use Rattle.std.specs.Prelude.{◌≡◌, IsTrue, None, OnOk, OnErr};
ghost use Rattle.jb_artifacts.specs.Faults.{live, plans_of, used_at, with_plan};

use crate::fault_places::search;
use crate::faults::FaultPlan;
use jb_base::ClassId;
use std::alloc::{AllocError, Global};
use std::marker::Model;

/// A fault plan for each record, by its number. A contract sees the table of the plans that were put in; every other
/// record is sound. A look-up begins where the one before it ended, so it takes a few steps if records come in order.
/// Otherwise its time is in proportion to the logarithm of the number of plans.
#[derive(Drop)]
pub struct FaultPlans {
    // In the order of the records' numbers.
    table: Vec<(u64, FaultPlan)>,
    // Where the last look-up ended.
    place: usize,
}

impl Model for FaultPlans {
    ghost use Rattle.std.specs.Prelude.{ℕ, List};
    ghost use Rattle.jb_artifacts.specs.declared.faults.FaultPlan.{FaultPlan};
    ghost use Rattle.jb_artifacts.specs.inside.FaultPlaces.{DoNumbersRise};

    ghost Value = { List (ℕ × FaultPlan) };

    ghost view = { λ plans. plans.table.items };

    ghost invariant = { λ plans. DoNumbersRise plans.table.items };
}

impl FaultPlans {
    ghost use Rattle.jb_artifacts.specs.declared.faults.FaultPlan.TheVariants.{Sound};

    /// No plans: each record is sound. Takes no memory.
    pub fn new(alloc: Global) -> FaultPlans
        ensures { plans_of result ≡ λ _. Sound }
    {
        FaultPlans {
            table: Vec::new(alloc),
            place: 0,
        }
    }

    /// Gives the record this plan, in place of the plan that it had.
    pub fn insert(&mut self, number: u64, plan: FaultPlan) -> Result<(), AllocError>
        ensures ok { OnOk result (plans_of self.new ≡ with_plan (plans_of self.old) number plan) }
        ensures err { OnErr result (plans_of self.new ≡ plans_of self.old) }
    {
        match search(number, &self.table, self.place) {
            Ok(place) => {
                self.table[place].1 = plan;
                Ok(())
            }
            Err(place) => {
                self.place = place;
                self.table.insert(place, (number, plan))?;
                Ok(())
            }
        }
    }

    /// Whether no plan was put in: each record is sound.
    pub fn is_empty(&self) -> bool
        ensures { IsTrue result → plans_of self.now ≡ λ _. Sound }
    {
        self.table.is_empty()
    }

    /// The class with which the next call for the record fails, if it does.
    pub fn live(&self, number: u64) -> Option<ClassId>
        ensures { result ≡ live (plans_of self.now number) }
    {
        match search(number, &self.table, self.place) {
            Ok(place) => self.table[place].1.live(),
            Err(_) => None,
        }
    }

    /// The class with which this call for the record fails, if it does. The record's plan advances by one call. A call
    /// that doesn't fail changes nothing.
    pub fn strike(&mut self, number: u64) -> Option<ClassId>
        ensures class { result ≡ live (plans_of self.old number) }
        ensures plans { plans_of self.new ≡ used_at (plans_of self.old) number }
        ensures sound { result ≡ None → plans_of self.new ≡ plans_of self.old }
    {
        if self.table.is_empty() {
            return None;
        }
        match search(number, &self.table, self.place) {
            Ok(place) => {
                self.place = place;
                self.table[place].1.strike()
            }
            Err(place) => {
                self.place = place;
                None
            }
        }
    }
}
