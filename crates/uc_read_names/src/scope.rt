//! Where an expression stands.

ghost use Rattle.std.specs.Prelude.{◌≡◌, ◌-◌, ◌∷◌, true, false, drop, length, Some, None, nat_eq, slice_get, IfOk, OnErr, OnOk};
ghost use Rattle.std.specs.Option.{is_some, option_copied, option_map};
ghost use Rattle.uc_lookup.specs.Parts.{instance_parts};
ghost use Rattle.uc_meaning.specs.Lookup.{module_named};
ghost use Rattle.uc_names.specs.Senses.{called_meant, module_in, value_meant};
ghost use Rattle.uc_rules.specs.Declarations.{in_module};
ghost use Rattle.uc_rules.specs.Expressions.{bound_named, enum_of};
ghost use Rattle.uc_rules.specs.Faults.{first_of};
ghost use Rattle.uc_rules.specs.Names.{called_named, instance_named, is_name_of, names_one_of, procedure_named, value_named};
ghost use Rattle.uc_rules.specs.Reads.{define_reads};
ghost use Rattle.uc_rules.specs.Statements.{bound_names, may_modify};
ghost use Rattle.uc_rules.specs.Types.{type_faults, type_of};
ghost use Rattle.uc_read_names.specs.Reading.{KnowsReads};

use crate::bit_functions::is_bit_function;
use crate::locals::Locals;
use crate::modified::Modified;
use std::alloc::{AllocError, Global};
use std::marker::Model;
use uc_declared_types::KnownTypes;
use uc_lookup::InstanceParts;
use uc_names::{Called, Value};
use uc_rules::{Fault, Known};
use uc_syntax::{Procedure, TypeExpr};
use uc_type_names::NameSet;
use uc_values::Ty;

/// Where an expression stands: its design and module, the names of the enclosing scopes, and the block, clause or formula.
#[derive(Drop)]
pub struct Scope<'a, 'd> {
    types: &'a KnownTypes<'d>,
    /// The defines of the module that read state.
    reading: &'a NameSet,
    home: usize,
    locals: Locals,
    in_next: bool,
    in_ensures: bool,
    in_axiom: bool,
    copies: Option<u128>,
    modifies: Option<Modified>,
}

impl<'a, 'd> Model for Scope<'a, 'd> {
    ghost use Rattle.uc_rules.specs.Expressions.{Context};
    ghost use Rattle.uc_names.specs.Senses.{module_in};
    ghost use Rattle.uc_read_names.specs.Reading.{KnowsReads};
    ghost use Rattle.std.specs.Coded.{codes};
    ghost use Rattle.uc_syntax.specs.contracts.type_expression.TypeExpr as types_row;
    ghost use Rattle.uc_syntax.specs.contracts.expression.Expr as expressions_row;
    ghost use Rattle.uc_syntax.specs.contracts.statement.Stmt as statements_row;
    ghost use Rattle.uc_values.specs.contracts.ty.Ty as values_row;

    ghost Value = { Context };

    ghost coded = { Prim.hlevel (codes, types_row.the_row.coded, expressions_row.the_row.coded, statements_row.the_row.coded, values_row.the_row.coded) };

    ghost view = { λ s. record { system = s.types.now; home = module_in s.types.now.modules s.home; bound = s.locals; in_next = s.in_next; in_ensures = s.in_ensures; in_axiom = s.in_axiom; copies = s.copies; modifies = s.modifies } };

    ghost invariant = { λ s. KnowsReads s.types.now (module_in s.types.now.modules s.home) s.reading.now };
}

impl<'a, 'd> Scope<'a, 'd> {
    /// A module outside all scopes, by its place, with the names of its defines that read state.
    pub fn of(
        alloc: Global,
        types: &'a KnownTypes<'d>,
        reading: &'a NameSet,
        home: usize,
    ) -> Scope<'a, 'd>
        requires { KnowsReads types.now (module_in types.now.modules home) reading.now }
        ensures { result ≡ in_module types.now (module_in types.now.modules home) }
    {
        Scope {
            types,
            reading,
            home,
            locals: Locals::new(alloc),
            in_next: false,
            in_ensures: false,
            in_axiom: false,
            copies: None,
            modifies: None,
        }
    }

    /// The same scope in a next block.
    pub fn in_next(self) -> Scope<'a, 'd>
        ensures { result ≡ record self.entry { in_next = true } }
    {
        let mut scope = self;
        scope.in_next = true;
        scope
    }

    /// The same scope in an `ensures`.
    pub fn in_ensures(self) -> Scope<'a, 'd>
        ensures { result ≡ record self.entry { in_ensures = true } }
    {
        let mut scope = self;
        scope.in_ensures = true;
        scope
    }

    /// The same scope in an axiom.
    pub fn in_axiom(self) -> Scope<'a, 'd>
        ensures { result ≡ record self.entry { in_axiom = true } }
    {
        let mut scope = self;
        scope.in_axiom = true;
        scope
    }

    /// The same scope in a hyper formula of so many copies.
    pub fn in_copies(self, count: u128) -> Scope<'a, 'd>
        ensures { result ≡ record self.entry { copies = Some count } }
    {
        let mut scope = self;
        scope.copies = Some(count);
        scope
    }

    /// The same scope in the body of a procedure that may modify these names.
    pub fn in_body(self, modified: Modified) -> Scope<'a, 'd>
        ensures { result ≡ record self.entry { in_ensures = false; modifies = Some modified } }
    {
        let mut scope = self;
        scope.in_ensures = false;
        scope.modifies = Some(modified);
        scope
    }

    /// How many names the enclosing scopes have.
    pub fn depth(&self) -> usize
        ensures { result ≡ length self.now.bound }
    {
        self.locals.len()
    }

    /// Leaves the innermost scopes, until at most so many names are left.
    pub fn leave(&mut self, depth: usize)
        ensures { self.new ≡ record self.old { bound = drop (length self.old.bound - depth) self.old.bound } }
    {
        self.locals.truncate(depth);
    }

    /// Adds a name of a new innermost scope.
    pub fn bind(&mut self, known: Known) -> Result<(), AllocError>
        ensures ok { OnOk result (self.new ≡ record self.old { bound = known ∷ self.old.bound }) }
        ensures err { OnErr result (self.new ≡ self.old) }
    {
        self.locals.push(known)
    }

    /// Whether this is in a next block.
    pub fn is_in_next(&self) -> bool
        ensures { result ≡ self.now.in_next }
    {
        self.in_next
    }

    pub(crate) fn is_in_ensures(&self) -> bool
        ensures { result ≡ self.now.in_ensures }
    {
        self.in_ensures
    }

    pub(crate) fn is_in_axiom(&self) -> bool
        ensures { result ≡ self.now.in_axiom }
    {
        self.in_axiom
    }

    pub(crate) fn copies(&self) -> Option<u128>
        ensures { result ≡ self.now.copies }
    {
        self.copies
    }

    /// What a name of an enclosing scope is.
    pub fn known(&self, name: u32) -> Option<&Known>
        ensures { option_copied result ≡ bound_named self.now name }
    {
        self.locals.named(name)
    }

    /// Whether a name is one of an enclosing scope.
    pub fn has_local(&self, name: u32) -> bool
        ensures { result ≡ names_one_of (bound_names self.now) name }
    {
        self.locals.has(name)
    }

    /// Whether a name is one of the module, or that of a function on bits.
    pub fn has_name(&self, name: u32) -> bool
        ensures { result ≡ is_name_of self.now.system self.now.home name }
    {
        let names = self.types.homes().design().system().names;
        is_bit_function(names, name) || self.types.homes().has_name(self.home, name)
    }

    /// Whether the procedure around it may modify a name. Outside procedures every name may be modified.
    pub fn may_modify(&self, name: u32) -> bool
        ensures { result ≡ may_modify self.now.modifies name }
    {
        may_be_modified(&self.modifies, name)
    }

    /// The procedure of a name.
    pub fn procedure(&self, name: u32) -> Option<&'d Procedure>
        ensures { option_copied result ≡ procedure_named self.now.system self.now.home name }
    {
        self.types.homes().procedure(self.home, name)
    }

    /// What a name of the module is as a value.
    pub fn value(&self, name: u32) -> Option<Value<'d>>
        ensures { option_map value_meant result ≡ value_named self.now.system self.now.home name }
    {
        self.types.homes().value(self.home, name)
    }

    /// The instance of a name.
    pub fn instance(&self, name: u32) -> Option<InstanceParts<'d>>
        ensures { option_map instance_parts result ≡ instance_named self.now.system self.now.home name }
    {
        self.types.homes().instance(self.home, name)
    }

    /// What a name is where arguments follow.
    pub(crate) fn called(&self, name: u32) -> Option<Called<'d>>
        ensures { option_map called_meant result ≡ called_named self.now.system self.now.home name }
    {
        self.types.homes().called(self.home, name)
    }

    /// Whether a define of the module reads state.
    pub(crate) fn reads_state(&self, name: u32) -> bool
        ensures { result ≡ define_reads self.now.system self.now.home name }
    {
        self.reading.contains(name)
    }

    /// The type that a written type stands for.
    pub fn type_of(&self, alloc: Global, ty: &TypeExpr) -> Result<Option<Ty>, AllocError>
        ensures { IfOk result (λ t. t ≡ type_of self.now.system self.now.home ty.now) }
    {
        let found = self.types.type_of(alloc, self.home, ty)?;
        Ok(found)
    }

    /// The type that a written type stands for. Its faults are noted.
    pub fn note_type(
        &self,
        alloc: Global,
        ty: &TypeExpr,
        first: &mut Option<Fault>,
    ) -> Result<Option<Ty>, AllocError>
        ensures ty { IfOk result (λ t. t ≡ type_of self.now.system self.now.home ty.now) }
        ensures faults { OnOk result (first.new ≡ first_of first.old (type_faults self.now.system self.now.home ty.now)) }
    {
        let found = self.types.note_type(alloc, self.home, ty, first)?;
        Ok(found)
    }

    /// The type of the enum of a number.
    pub(crate) fn enum_type(&self, number: usize) -> Result<Ty, AllocError>
        ensures { IfOk result (λ t. t ≡ enum_of self.now.system number) }
    {
        let found = self.types.enum_type(number)?;
        Ok(found)
    }

    /// The module of a name, by its place among the modules.
    pub fn module_named(&self, name: u32) -> Option<usize>
        ensures { option_map (module_in self.now.system.modules) result ≡ module_named self.now.system name }
    {
        self.types.homes().design().module_named(name)
    }

    /// What a name of the module at a place is as a value.
    pub fn value_in(&self, home: usize, name: u32) -> Option<Value<'d>>
        ensures { option_map value_meant result ≡ value_named self.now.system (module_in self.now.system.modules home) name }
    {
        self.types.homes().value(home, name)
    }

    /// The instance of a name in the module at a place.
    pub fn instance_in(&self, home: usize, name: u32) -> Option<InstanceParts<'d>>
        ensures { option_map instance_parts result ≡ instance_named self.now.system (module_in self.now.system.modules home) name }
    {
        self.types.homes().instance(home, name)
    }

    /// The type that a written type of the module at a place stands for.
    pub fn type_in(
        &self,
        alloc: Global,
        home: usize,
        ty: &TypeExpr,
    ) -> Result<Option<Ty>, AllocError>
        ensures { IfOk result (λ t. t ≡ type_of self.now.system (module_in self.now.system.modules home) ty.now) }
    {
        let found = self.types.type_of(alloc, home, ty)?;
        Ok(found)
    }
}

fn may_be_modified(modifies: &Option<Modified>, name: u32) -> bool
    ensures { result ≡ may_modify modifies.now name }
{
    match modifies {
        None => true,
        Some(modified) => modified.contains(name),
    }
}
