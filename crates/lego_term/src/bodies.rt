//! The bodies of constants.
ghost use Rattle.std.specs.Prelude.{◌≡◌, OnOk, OnErr};
ghost use Rattle.std.specs.Option.{option_copied};
ghost use Rattle.std.specs.Ordering.{nat_cmp};
ghost use Rattle.std.specs.FinMap as map;
ghost use Rattle.lego_term.specs.private.ConstantBound.{NoneBelow};

use crate::term::Term;
use std::alloc::{AllocError, Global};
use std::collections::BTreeMap;
use std::marker::Model;

/// The bodies of some constants, by the constants' numbers.
#[derive(Drop)]
pub struct Bodies {
    terms: BTreeMap<u32, Term>,
    // no constant below it has a body
    least: u64,
}

impl Model for Bodies {
    ghost use Rattle.std.specs.Ordering.{nat_cmp};
    ghost use Rattle.std.specs.FinMap as map;
    ghost use Rattle.std.specs.Coded.{coded_ℕ};
    ghost use Rattle.lego_term.specs.Trees.{Core};
    ghost use Rattle.lego_term.specs.private.TreeCode.{tree_code};

    ghost Value = { map.FinMap nat_cmp Core };

    ghost coded = { map.code coded_ℕ tree_code };

    ghost view = { λ b. map.from_entries b.terms.entries };

    ghost use Rattle.std.specs.BTreeMap.{get};
    ghost use Rattle.lego_term.specs.private.ConstantBound.{NoneBelow};

    ghost invariant = { λ b. NoneBelow b.least (get nat_cmp b.terms) };
}

impl Bodies {
    /// No bodies.
    pub fn new(alloc: Global) -> Bodies
        ensures { result ≡ map.empty }
    {
        Bodies {
            terms: BTreeMap::new(alloc),
            least: u64::MAX,
        }
    }

    /// Keeps the constant's body, in place of the one that it had.
    pub fn put(&mut self, number: u32, body: &Term) -> Result<(), AllocError>
        ensures ok { OnOk result (self.new ≡ map.insert self.old number body.now) }
        ensures err { OnErr result (self.new ≡ self.old) }
    {
        let body = body.share()?;
        match self.terms.insert(number, body) {
            Ok(_) => {
                self.least = self.least.min(u64::from(number));
                Ok(())
            }
            Err(_) => Err(AllocError),
        }
    }

    /// The constant's body, which is no longer kept.
    pub fn take(&mut self, number: u32) -> Option<Term>
        ensures value { result ≡ map.get self.old number }
        ensures rest { self.new ≡ map.remove self.old number }
    {
        self.terms.remove(&number)
    }

    /// A number below which no constant has a body.
    pub(crate) fn least(&self) -> u64
        ensures { NoneBelow result (map.get self.now) }
    {
        self.least
    }

    /// The constant's body, where it has one.
    pub fn get(&self, number: u32) -> Option<&Term>
        ensures { option_copied result ≡ map.get self.now number }
    {
        self.terms.get(&number)
    }
}
