//! A module of a design, outside all scopes.

ghost use Rattle.std.specs.Prelude.{◌≡◌};
ghost use Rattle.uc_names.specs.Senses.{module_in};
ghost use Rattle.uc_read_names.specs.Reading.{KnowsReads};
ghost use Rattle.uc_rules.specs.Declarations.{in_module};

use std::alloc::Global;
use std::marker::Model;
use uc_declared_types::KnownTypes;
use uc_read_names::Scope;
use uc_syntax::Decl;
use uc_type_names::NameSet;

/// A module by its place in a design, with the names of its defines that read state.
#[derive(Drop)]
pub struct Home<'a, 'd> {
    types: &'a KnownTypes<'d>,
    reading: &'a NameSet,
    number: usize,
}

impl<'a, 'd> Model for Home<'a, 'd> {
    ghost use Rattle.uc_rules.specs.Expressions.{Context};
    ghost use Rattle.uc_names.specs.Senses.{module_in};
    ghost use Rattle.uc_read_names.specs.Reading.{KnowsReads};
    ghost use Rattle.uc_rules.specs.Declarations.{in_module};
    ghost use Rattle.std.specs.Coded.{codes};
    ghost use Rattle.uc_syntax.specs.contracts.type_expression.TypeExpr as types_row;
    ghost use Rattle.uc_syntax.specs.contracts.expression.Expr as expressions_row;
    ghost use Rattle.uc_syntax.specs.contracts.statement.Stmt as statements_row;
    ghost use Rattle.uc_values.specs.contracts.ty.Ty as values_row;

    ghost Value = { Context };

    ghost coded = { Prim.hlevel (codes, types_row.the_row.coded, expressions_row.the_row.coded, statements_row.the_row.coded, values_row.the_row.coded) };

    ghost view = { λ h. in_module h.types.now (module_in h.types.now.modules h.number) };

    ghost invariant = { λ h. KnowsReads h.types.now (module_in h.types.now.modules h.number) h.reading.now };
}

impl<'a, 'd> Home<'a, 'd> {
    /// The module at a place of a design, with the names of its defines that read state.
    pub fn of(types: &'a KnownTypes<'d>, reading: &'a NameSet, number: usize) -> Home<'a, 'd>
        requires { KnowsReads types.now (module_in types.now.modules number) reading.now }
        ensures { result ≡ in_module types.now (module_in types.now.modules number) }
    {
        Home {
            types,
            reading,
            number,
        }
    }

    /// The scope of what stands in the module outside all scopes.
    pub fn scope(&self, alloc: Global) -> Scope<'a, 'd>
        ensures { result ≡ in_module self.now.system self.now.home }
    {
        Scope::of(alloc, self.types, self.reading, self.number)
    }

    /// The declarations of the module at a place of the design, and none where there is no module.
    pub fn declarations_of(&self, number: usize) -> &'d [Decl]
        ensures { result.now ≡ (module_in self.now.system.modules number).decls }
    {
        self.types.homes().design().declarations_of(number)
    }
}
