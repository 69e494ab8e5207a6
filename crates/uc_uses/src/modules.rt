//! The modules of a design by their names.

ghost use Rattle.std.specs.Prelude.{◌≡◌, IfOk};
ghost use Rattle.std.specs.Option.{option_copied};
ghost use Rattle.uc_uses.specs.Modules.{AreNamed, KnowsModules, named_in};

use std::alloc::{AllocError, Global};
use uc_names::Firsts;
use uc_syntax::Module;

/// The first module of each name.
#[derive(Drop)]
pub struct ModuleTable<'a> {
    modules: Firsts<&'a Module>,
}

impl<'a> ModuleTable<'a> {
    /// The modules of a design.
    pub fn of(alloc: Global, modules: &'a [Module]) -> Result<ModuleTable<'a>, AllocError>
        ensures { IfOk result (λ t. KnowsModules modules.now t) }
    {
        let table = table_of(alloc, modules)?;
        Ok(ModuleTable { modules: table })
    }

    /// The module of a name.
    pub fn named(&self, name: u32) -> Option<&'a Module>
        ensures { option_copied result ≡ named_in self.now.modules name }
    {
        self.modules.get(name)
    }
}

fn table_of<'a>(alloc: Global, modules: &'a [Module]) -> Result<Firsts<&'a Module>, AllocError>
    ensures { IfOk result (λ t. AreNamed modules.now t) }
{
    let mut table = Firsts::new(alloc);
    for whole in modules {
        table.enter(whole.name, Some(whole))?;
    }
    Ok(table)
}
