//! Applications of functions and defines.

ghost use Rattle.std.specs.Prelude.{◌≡◌, if◌then◌else◌, IfOk};
ghost use Rattle.std.specs.Option.{is_some};
ghost use Rattle.uc_rules.specs.Reads.{define_reads};
ghost use Rattle.uc_rules.specs.declared.outcome.Outcome.TheVariants.{Breaks};
ghost use Rattle.uc_rules.specs.declared.rule.Rule.TheVariants.{AxiomState, BadCopy};
ghost use Rattle.uc_rules.specs.Expressions.{applied, called_outcome, where_state_is_read};
ghost use Rattle.uc_rules.specs.Names.{called_named};
ghost use Rattle.uc_rules.specs.Types.{parameter_types, type_of};

use crate::scope::Scope;
use std::alloc::{AllocError, Global};
use uc_items::Items;
use uc_names::Called;
use uc_rules::{Outcome, Rule};
use uc_syntax::{Parameter, TypeExpr};
use uc_type_names::applied;
use uc_values::Ty;

impl<'a, 'd> Scope<'a, 'd> {
    /// What a name gives to arguments of some types.
    pub fn called_outcome(
        &self,
        alloc: Global,
        name: u32,
        arguments: &[Option<Ty>],
    ) -> Result<Outcome, AllocError>
        ensures { IfOk result (λ o. o ≡ called_outcome self.now name (called_named self.now.system self.now.home name) arguments.now) }
    {
        match self.called(name) {
            None => Ok(Outcome::Breaks(Rule::UnknownName)),
            Some(Called::Function(signature)) => {
                self.applied_to(alloc, signature.parameters, signature.ty, arguments)
            }
            Some(Called::Define(defined)) => {
                let outcome = self.applied_to(alloc, defined.parameters, defined.ty, arguments)?;
                Ok(self.define_outcome(name, outcome))
            }
        }
    }

    fn applied_to(
        &self,
        alloc: Global,
        parameters: &[Parameter<TypeExpr>],
        ty: &TypeExpr,
        arguments: &[Option<Ty>],
    ) -> Result<Outcome, AllocError>
        ensures { IfOk result (λ o. o ≡ applied (type_of self.now.system self.now.home ty.now) (parameter_types self.now.system self.now.home parameters.now) arguments.now) }
    {
        let gives = self.type_of(alloc, ty)?;
        let types = self.parameter_types(alloc, parameters)?;
        Ok(applied(gives, types.as_slice(), arguments))
    }

    /// The types of parameters or results.
    pub fn parameter_types(
        &self,
        alloc: Global,
        parameters: &[Parameter<TypeExpr>],
    ) -> Result<Items<Option<Ty>>, AllocError>
        ensures { IfOk result (λ ts. ts ≡ parameter_types self.now.system self.now.home parameters.now) }
    {
        let mut types = Items::new(alloc);
        for parameter in parameters {
            let ty = self.type_of(alloc, &parameter.ty)?;
            types.push(ty)?;
        }
        Ok(types)
    }

    /// A define that reads state stands in no hyper formula and in no axiom.
    fn define_outcome(&self, name: u32, outcome: Outcome) -> Outcome
        ensures { result ≡ (if define_reads self.now.system self.now.home name then where_state_is_read self.now else (λ o. o)) outcome }
    {
        if self.reads_state(name) {
            self.where_state_is_read(outcome)
        } else {
            outcome
        }
    }

    fn where_state_is_read(&self, outcome: Outcome) -> Outcome
        ensures { result ≡ where_state_is_read self.now outcome }
    {
        match outcome {
            Outcome::Breaks(rule) => Outcome::Breaks(rule),
            other => self.without_state(other),
        }
    }

    fn without_state(&self, outcome: Outcome) -> Outcome
        ensures { result ≡ (if self.now.in_axiom then Breaks AxiomState else (if is_some self.now.copies then Breaks BadCopy else outcome)) }
    {
        if self.is_in_axiom() {
            return Outcome::Breaks(Rule::AxiomState);
        }
        if self.copies().is_some() {
            return Outcome::Breaks(Rule::BadCopy);
        }
        outcome
    }
}
