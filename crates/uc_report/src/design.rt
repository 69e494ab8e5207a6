//! A design as a report's text names it.

ghost use Rattle.std.specs.Prelude.{◌≡◌, [], nat_eq, slice_get};
ghost use Rattle.std.specs.Option.{option_copied, option_map, option_map_or, option_and_then};
ghost use Rattle.std.specs.List.{find, filter_map};
ghost use Rattle.uc_meaning.specs.Lookup.{instance_in, instance_of, module_named, module_at};
ghost use Rattle.uc_meaning.specs.Lines.{main_declarations};
ghost use Rattle.uc_report.specs.HeadsText.{procedure_text};
ghost use Rattle.uc_report.specs.Described.{described, name_of, file_of};

use uc_items::at;
use uc_syntax::{Decl, Module, Names};

/// The names by their numbers, the names of the files by theirs, the modules, and the place of main among these.
#[derive(Clone, Copy)]
pub struct DesignView<'a> {
    pub names: &'a Names,
    pub files: &'a [u32],
    pub modules: &'a [Module],
    pub main: u32,
}

impl<'a> DesignView<'a> {
    /// The bytes of a name, none where it is not there.
    pub fn name(&self, n: u32) -> &'a [u8]
        ensures { result.now ≡ name_of (described self.now) n }
    {
        if (n as usize) < self.names.len() {
            self.names.text(n)
        } else {
            &[]
        }
    }

    /// The bytes of a name that may be missing.
    pub fn name_or_none(&self, n: Option<u32>) -> &'a [u8]
        ensures { result.now ≡ option_map_or (name_of (described self.now)) n [] }
    {
        match n {
            Some(n) => self.name(n),
            None => &[],
        }
    }

    /// The name of a file, none where it is not there.
    pub fn file(&self, n: u16) -> &'a [u8]
        ensures { result.now ≡ file_of (described self.now) n }
    {
        match self.files.get(n as usize) {
            Some(name) => self.name(*name),
            None => &[],
        }
    }

    /// The module of the instance at the end of a path.
    pub fn module_at(&self, path: &[u32]) -> Option<&'a Module>
        ensures { option_copied result ≡ module_at (described self.now) path.now }
    {
        let mut here = self.modules.get(self.main as usize)?;
        for name in path {
            here = self.module_below(here, *name)?;
        }
        Some(here)
    }

    /// The name of a procedure of main by the number of its declaration, none where it is no procedure.
    #[tactic(auto, unfolding(crate::specs::HeadsText::procedure_text))]
    pub fn procedure_name(&self, decl: u32) -> &'a [u8]
        ensures { result.now ≡ procedure_text (described self.now) decl }
    {
        match at(self.main_declarations(), decl as usize) {
            Some(Decl::Procedure(_, procedure)) => self.name(procedure.identifier.name),
            _ => &[],
        }
    }

    /// The declarations of main.
    pub fn main_declarations(&self) -> &'a [Decl]
        ensures { result.now ≡ main_declarations (described self.now) }
    {
        match at(self.modules, self.main as usize) {
            Some(main) => main.decls.as_slice(),
            None => &[],
        }
    }

    /// The declaration of a number in the module of the instance at the end of a path.
    pub fn decl_at(&self, path: &[u32], decl: u32) -> Option<&'a Decl>
        ensures { option_copied result ≡ option_and_then (λ m. slice_get m.decls decl) (module_at (described self.now) path.now) }
    {
        let module = self.module_at(path)?;
        at(module.decls.as_slice(), decl as usize)
    }

    /// The module of an instance in a module.
    fn module_below(&self, here: &Module, name: u32) -> Option<&'a Module>
        ensures { option_copied result ≡ option_and_then (λ i. module_named (described self.now) i.module_name) (instance_of here.now name) }
    {
        let module = module_of_instance(here.decls.as_slice(), name)?;
        module_named(self.modules, module)
    }
}

fn module_named(modules: &[Module], name: u32) -> Option<&Module>
    ensures { option_copied result ≡ find (λ m. nat_eq m.name name) modules.now }
{
    modules.iter().find(|m| m.name == name)
}

/// The name of the module of an instance.
fn module_of_instance(decls: &[Decl], name: u32) -> Option<u32>
    ensures { result ≡ option_map (λ i. i.module_name) (find (λ i. nat_eq i.name name) (filter_map instance_in decls.now)) }
{
    for decl in decls {
        if let Decl::Instance(_, instance, module, _) = decl {
            if instance.name == name {
                return Some(module.name);
            }
        }
    }
    None
}
