//! Local variables, which contracts see as the list of them, the innermost first.
ghost use Rattle.std.specs.Prelude.{◌≡◌, ◌<◌, ◌≤◌, [], ◌∷◌, drop, length, map, reverse, slice_get, Some, OnOk, OnErr, IfOk};
ghost use Rattle.std.specs.Option.{option_copied};

use lego_term::{Binder, Term};
use std::alloc::{AllocError, Global};
use std::marker::Model;

/// The most local variables that are held.
const MAX_LOCALS: usize = 65_536;

/// A local variable: its binder and its type, which is over those outside it.
#[derive(Drop)]
pub struct Local {
    pub binder: Binder,
    pub ty: Term,
}

/// The local variables where a term stands.
#[derive(Drop)]
pub struct Locals {
    alloc: Global,
    items: Vec<Local>,
}

impl Model for Locals {
    ghost use Rattle.std.specs.Prelude.{List, reverse as reversed, length as len_of, ◌≤◌};
    ghost use Rattle.std.specs.Coded.{coded_list};
    ghost use Rattle.lego_inference.specs.private.LocalCode.{local_code};
    ghost use Rattle.lego_inference.specs.declared.locals.Local.{Local as Item};

    ghost Value = { List Item };

    ghost coded = { coded_list local_code };

    ghost view = { λ l. reversed l.items.items };

    ghost invariant = { λ l. len_of l.items.items ≤ 65536 };
}

impl Locals {
    /// No locals.
    pub fn new(alloc: Global) -> Locals
        ensures { result ≡ [] }
    {
        Locals {
            alloc,
            items: Vec::new(alloc),
        }
    }

    /// How many there are.
    pub fn len(&self) -> u32
        ensures exact { result ≡ length self.now }
        ensures limit { result ≤ 65536 }
    {
        self.items.len() as u32
    }

    /// Goes under a binder, whose variable has this type.
    pub fn push(&mut self, binder: Binder, ty: &Term) -> Result<(), AllocError>
        requires { length self.old < 65536 }
        ensures ok { OnOk result (self.new ≡ record { binder = binder; ty = ty.now } ∷ self.old) }
        ensures err { OnErr result (self.new ≡ self.old) }
    {
        let ty = ty.share()?;
        let Ok(()) = self.items.push(Local { binder, ty }) else {
            return Err(AllocError);
        };
        Ok(())
    }

    /// Leaves the innermost binder.
    pub fn pop(&mut self)
        requires { 0 < length self.old }
        ensures { self.new ≡ drop 1 self.old }
    {
        self.items.pop();
    }

    /// The binder and the type of a local, counted from the outermost.
    pub fn get(&self, at: u32) -> (Binder, &Term)
        requires { at < length self.now }
        ensures { slice_get (reverse self.now) at ≡ Some (record { binder = result.0; ty = result.1.now }) }
    {
        let local = &self.items[at as usize];
        (local.binder, &local.ty)
    }

    /// The type of a local variable, by its index.
    pub(crate) fn ty(&self, index: u32) -> Option<&Term>
        ensures { option_copied result ≡ slice_get (map (λ l. l.ty) self.now) index }
    {
        let index = index as usize;
        if index < self.items.len() {
            Some(&self.items[self.items.len() - 1 - index].ty)
        } else {
            None
        }
    }

    /// The binders, the outermost first.
    pub(crate) fn binders(&self) -> Result<Vec<Binder>, AllocError>
        ensures { IfOk result (λ binders. binders.items ≡ reverse (map (λ l. l.binder) self.now)) }
    {
        let mut binders = Vec::new(self.alloc);
        for local in &self.items {
            binders.push(local.binder)?;
        }
        Ok(binders)
    }

    /// The same locals, shared.
    pub(crate) fn copy(&self) -> Result<Locals, AllocError>
        ensures { IfOk result (λ copy. copy ≡ self.now) }
    {
        let mut items = Vec::new(self.alloc);
        for local in &self.items {
            let ty = local.ty.share()?;
            items.push(Local {
                binder: local.binder,
                ty,
            })?;
        }
        Ok(Locals {
            alloc: self.alloc,
            items,
        })
    }
}
