//! A design with the types of its aliases.

ghost use Rattle.std.specs.Prelude.{◌≡◌, ◌≤◌, length, IfOk, OnOk};
ghost use Rattle.uc_lookup.specs.Parts.{system_in};
ghost use Rattle.uc_names.specs.Senses.{module_in};
ghost use Rattle.uc_rules.specs.Faults.{first_of};
ghost use Rattle.uc_rules.specs.Expressions.{enum_of};
ghost use Rattle.uc_rules.specs.Types.{type_faults, type_of};
ghost use Rattle.uc_declared_types.specs.Aliases.{Agrees, Below, KnowsAliases, read_to_end};

use crate::aliases::AliasTypes;
use crate::counts::{label_counts, number_at};
use crate::listed::aliases_of;
use crate::named::word;
use crate::needs::in_order;
use crate::passes::{read_aliases, read_all};
use crate::reading::note_type;
use std::alloc::{AllocError, Global};
use std::marker::Model;
use uc_items::{Items, beside};
use uc_lookup::SystemRef;
use uc_names::TypeHomes;
use uc_rules::Fault;
use uc_syntax::TypeExpr;
use uc_values::Ty;

/// A design with what its names stand for and with the types of its aliases.
#[derive(Drop)]
pub struct KnownTypes<'a> {
    homes: TypeHomes<'a>,
    aliases: AliasTypes,
    /// How many labels each enum has, by its number.
    counts: Items<usize>,
}

impl<'a> Model for KnownTypes<'a> {
    ghost use Rattle.uc_meaning.specs.Lookup.{System};
    ghost use Rattle.std.specs.Coded.{codes};
    ghost use Rattle.uc_syntax.specs.contracts.type_expression.TypeExpr as types;
    ghost use Rattle.uc_syntax.specs.contracts.expression.Expr as expressions;
    ghost use Rattle.uc_syntax.specs.contracts.statement.Stmt as statements;
    ghost use Rattle.uc_declared_types.specs.Counts.{KnowsTypes};

    ghost Value = { System };

    ghost coded = { Prim.hlevel (codes, types.the_row.coded, expressions.the_row.coded, statements.the_row.coded) };

    ghost view = { λ t. t.homes };

    ghost invariant = { λ t. KnowsTypes t.homes t.aliases t.counts };
}

impl<'a> KnownTypes<'a> {
    /// Reads the aliases of a design, each once but for those that rest on a cycle.
    pub fn of(alloc: Global, system: SystemRef<'a>) -> Result<KnownTypes<'a>, AllocError>
        ensures { IfOk result (λ t. t ≡ system_in system.entry) }
    {
        let count = system.modules.len();
        let counts = label_counts(alloc, system.modules)?;
        let homes = TypeHomes::of(alloc, system)?;
        let aliases = read_aliases_of(alloc, &homes, count);
        let ((counts, homes), aliases) = beside((counts, homes), aliases)?;
        Ok(KnownTypes {
            homes,
            aliases,
            counts,
        })
    }

    /// The design, with what its names stand for.
    pub fn homes(&self) -> &TypeHomes<'a>
        ensures { result.now ≡ self.now }
    {
        &self.homes
    }

    /// The type that a written type of the module at a place stands for, where it breaks no rule. Its faults are noted.
    pub fn note_type(
        &self,
        alloc: Global,
        home: usize,
        ty: &TypeExpr,
        first: &mut Option<Fault>,
    ) -> Result<Option<Ty>, AllocError>
        ensures ty { IfOk result (λ t. t ≡ type_of self.now (module_in self.now.modules home) ty.now) }
        ensures faults { OnOk result (first.new ≡ first_of first.old (type_faults self.now (module_in self.now.modules home) ty.now)) }
    {
        let found = note_type(alloc, &self.homes, &self.aliases, home, ty, first)?;
        Ok(found)
    }

    /// The type that a written type of the module at a place stands for, where it breaks no rule.
    pub fn type_of(
        &self,
        alloc: Global,
        home: usize,
        ty: &TypeExpr,
    ) -> Result<Option<Ty>, AllocError>
        ensures { IfOk result (λ t. t ≡ type_of self.now (module_in self.now.modules home) ty.now) }
    {
        let mut unnoted = None;
        let found = self.note_type(alloc, home, ty, &mut unnoted)?;
        Ok(found)
    }

    /// The type of the enum of a number, with so many labels as it has.
    pub fn enum_type(&self, number: usize) -> Result<Ty, AllocError>
        ensures { IfOk result (λ t. t ≡ enum_of self.now number) }
    {
        let count = word(number_at(&self.counts, number))?;
        let number = word(number)?;
        Ok(Ty::Enum(number, count))
    }
}

/// The types of the aliases that the modules of a design declare.
fn read_aliases_of(
    alloc: Global,
    homes: &TypeHomes<'_>,
    count: usize,
) -> Result<AliasTypes, AllocError>
    ensures { IfOk result (λ t. length homes.now.modules ≤ count → KnowsAliases homes.now t) }
{
    let mut aliases = AliasTypes::new(alloc);
    read_declared(alloc, homes, count, &mut aliases)?;
    Ok(aliases)
}

/// Reads the aliases that the first so many modules of a design declare.
fn read_declared(
    alloc: Global,
    homes: &TypeHomes<'_>,
    count: usize,
    aliases: &mut AliasTypes,
) -> Result<(), AllocError>
    ensures { OnOk result (Agrees Below homes.now aliases.old (read_to_end homes.now) → length homes.now.modules ≤ count → KnowsAliases homes.now aliases.new) }
{
    let listed = aliases_of(alloc, homes, count)?;
    let ordered = in_order(alloc, homes, listed.as_slice())?;
    read_aliases(alloc, homes, aliases, ordered.as_slice())?;
    read_all(alloc, homes, aliases, listed)?;
    Ok(())
}
