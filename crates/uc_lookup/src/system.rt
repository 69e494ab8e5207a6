//! A design by reference.

ghost use Rattle.std.specs.Prelude.{◌≡◌};
ghost use Rattle.std.specs.Option.{option_copied, option_and_then, option_map};
ghost use Rattle.uc_meaning.specs.Lookup.{system_of, module_named, module_at, main_module, instance_of};
ghost use Rattle.uc_meaning.specs.Expressions.{binding_of};
ghost use Rattle.uc_lookup.specs.Parts.{system_in, bound_parts, bound_below};

use crate::declarations::bound_to;
use crate::instances::instance_of;
use uc_items::at;
use uc_syntax::{Design, Expr, Module, Names};

/// The texts of the names, the numbers of the files' names, the modules, and the place of main among these.
#[derive(Clone, Copy)]
pub struct SystemRef<'a> {
    pub names: &'a Names,
    pub files: &'a [u32],
    pub modules: &'a [Module],
    pub main: u32,
}

/// What the parent of an instance binds to a name: how many instances the path of the parent has, and the expression.
#[derive(Clone, Copy)]
pub struct Bound<'a> {
    pub depth: usize,
    pub expression: &'a Expr,
}

impl<'a> SystemRef<'a> {
    /// A design with the number of its main module.
    pub fn of(design: &'a Design, main: u32) -> SystemRef<'a>
        ensures { system_in result ≡ system_of design.now main }
    {
        SystemRef {
            names: design.names(),
            files: design.files().as_slice(),
            modules: design.modules().as_slice(),
            main,
        }
    }

    /// The module of a name.
    pub fn module_named(&self, name: u32) -> Option<&'a Module>
        ensures { option_copied result ≡ module_named (system_in self.now) name }
    {
        self.modules.iter().find(|module| module.name == name)
    }

    /// The main module.
    pub fn main_module(&self) -> Option<&'a Module>
        ensures { option_copied result ≡ main_module (system_in self.now) }
    {
        at(self.modules, self.main as usize)
    }

    /// The module of the instance at the end of a path.
    pub fn module_at(&self, path: &[u32]) -> Option<&'a Module>
        ensures { option_copied result ≡ module_at (system_in self.now) path.now }
    {
        let mut here = self.main_module()?;
        for name in path {
            here = self.module_below(here, *name)?;
        }
        Some(here)
    }

    /// The module of an instance in a module.
    pub fn module_below(&self, here: &Module, name: u32) -> Option<&'a Module>
        ensures { option_copied result ≡ option_and_then (λ p. module_named (system_in self.now) p.module_name) (instance_of here.now name) }
    {
        match instance_of(here.decls.as_slice(), name) {
            Some(instance) => self.module_named(instance.module_name),
            None => None,
        }
    }

    /// The expression that the parent of the instance at the end of a path binds to a name.
    pub fn binding_of(&self, path: &[u32], name: u32) -> Option<Bound<'a>>
        ensures { option_map (bound_parts path.now) result ≡ binding_of (system_in self.now) path.now name }
    {
        let count = path.len();
        if count == 0 {
            return None;
        }
        let depth = count - 1;
        match self.bound_in(&path[..depth], path[depth], name) {
            Some(expression) => Some(Bound { depth, expression }),
            None => None,
        }
    }

    /// The expression that a parent binds to a name of an instance.
    fn bound_in(&self, parent: &[u32], instance: u32, name: u32) -> Option<&'a Expr>
        ensures { option_copied result ≡ bound_below (system_in self.now) parent.now instance name }
    {
        let here = self.module_at(parent)?;
        let instance = instance_of(here.decls.as_slice(), instance)?;
        bound_to(instance.bindings, name)
    }
}
