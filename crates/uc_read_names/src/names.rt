//! Names alone, and `old`.

ghost use Rattle.std.specs.Prelude.{◌≡◌, Some, IfOk};
ghost use Rattle.std.specs.Option.{option_map};
ghost use Rattle.uc_lookup.specs.Parts.{instance_parts};
ghost use Rattle.uc_meaning.specs.Lookup.{module_named};
ghost use Rattle.uc_names.specs.Senses.{value_meant};
ghost use Rattle.uc_rules.specs.Expressions.{ValueOf, enum_of, inside, instance_or_nothing, instance_standing, module_standing, name_standing, old_instance, old_standing, old_valued, old_variable, unprimed, valued_standing, variable_standing};
ghost use Rattle.uc_rules.specs.Names.{instance_named, value_named};
ghost use Rattle.uc_rules.specs.Types.{type_of};
ghost use Rattle.uc_read_names.specs.Reading.{standing_meant};

use crate::scope::Scope;
use crate::standing::{Standing, copy_type, wrong};
use std::alloc::{AllocError, Global};
use uc_lookup::{InstanceParts, Variable};
use uc_names::Value;
use uc_rules::{Known, Rule};
use uc_syntax::{Identifier, Place, VariableKind};

impl<'a, 'd> Scope<'a, 'd> {
    /// What a name stands for: one of an enclosing scope, else one of the module.
    pub fn name_standing(
        &self,
        alloc: Global,
        begin: Place,
        name: u32,
        primed: bool,
    ) -> Result<Standing, AllocError>
        ensures { IfOk result (λ s. standing_meant self.now.system.modules s ≡ name_standing self.now begin name primed) }
    {
        match self.known(name) {
            Some(known) => self.known_standing(alloc, begin, primed, known),
            None => self.module_standing(alloc, begin, name, primed),
        }
    }

    fn known_standing(
        &self,
        alloc: Global,
        begin: Place,
        primed: bool,
        known: &Known,
    ) -> Result<Standing, AllocError>
        ensures { IfOk result (λ s. standing_meant self.now.system.modules s ≡ unprimed begin primed (ValueOf known.now.ty)) }
    {
        if primed {
            return Ok(wrong(Rule::BadPrime, begin));
        }
        let ty = copy_type(alloc, &known.ty)?;
        Ok(Standing::Value(ty))
    }

    fn module_standing(
        &self,
        alloc: Global,
        begin: Place,
        name: u32,
        primed: bool,
    ) -> Result<Standing, AllocError>
        ensures { IfOk result (λ s. standing_meant self.now.system.modules s ≡ module_standing self.now begin name primed (value_named self.now.system self.now.home name)) }
    {
        match self.value(name) {
            Some(value) => self.value_standing(alloc, begin, primed, value),
            None => Ok(self.instance_or_nothing(begin, name, primed)),
        }
    }

    fn value_standing(
        &self,
        alloc: Global,
        begin: Place,
        primed: bool,
        value: Value<'d>,
    ) -> Result<Standing, AllocError>
        ensures { IfOk result (λ s. standing_meant self.now.system.modules s ≡ valued_standing self.now begin primed (value_meant value.entry)) }
    {
        match value {
            Value::Variable(variable) => self.variable_standing(alloc, begin, primed, variable),
            Value::Label(number) => self.label_standing(begin, primed, number),
        }
    }

    fn variable_standing(
        &self,
        alloc: Global,
        begin: Place,
        primed: bool,
        variable: Variable<'d>,
    ) -> Result<Standing, AllocError>
        ensures { IfOk result (λ s. standing_meant self.now.system.modules s ≡ variable_standing self.now begin primed variable.entry.kind (type_of self.now.system self.now.home variable.entry.ty.now)) }
    {
        match variable.kind {
            VariableKind::Constant => {
                if primed {
                    return Ok(wrong(Rule::BadPrime, begin));
                }
                let ty = self.type_of(alloc, variable.ty)?;
                Ok(Standing::Value(ty))
            }
            _ => {
                if primed && !self.is_in_next() {
                    return Ok(wrong(Rule::BadPrime, begin));
                }
                let ty = self.type_of(alloc, variable.ty)?;
                Ok(Standing::State(ty))
            }
        }
    }

    fn label_standing(
        &self,
        begin: Place,
        primed: bool,
        number: usize,
    ) -> Result<Standing, AllocError>
        ensures { IfOk result (λ s. standing_meant self.now.system.modules s ≡ unprimed begin primed (ValueOf (Some (enum_of self.now.system number)))) }
    {
        if primed {
            return Ok(wrong(Rule::BadPrime, begin));
        }
        let ty = self.enum_type(number)?;
        Ok(Standing::Value(Some(ty)))
    }

    fn instance_or_nothing(&self, begin: Place, name: u32, primed: bool) -> Standing
        ensures { standing_meant self.now.system.modules result ≡ instance_or_nothing self.now begin primed (instance_named self.now.system self.now.home name) }
    {
        match self.instance(name) {
            None => wrong(Rule::UnknownName, begin),
            Some(instance) => {
                if primed {
                    wrong(Rule::BadPrime, begin)
                } else {
                    self.inside(begin, instance.module_name)
                }
            }
        }
    }

    /// What an instance stands for whose name stands at a place, where there is one.
    pub(crate) fn instance_standing(
        &self,
        place: Place,
        instance: Option<InstanceParts<'d>>,
    ) -> Standing
        ensures { standing_meant self.now.system.modules result ≡ instance_standing self.now.system place (option_map instance_parts instance.entry) }
    {
        match instance {
            None => wrong(Rule::UnknownName, place),
            Some(instance) => self.inside(place, instance.module_name),
        }
    }

    fn inside(&self, place: Place, module_name: u32) -> Standing
        ensures { standing_meant self.now.system.modules result ≡ inside place (module_named self.now.system module_name) }
    {
        match self.module_named(module_name) {
            Some(home) => Standing::Inside(place, home),
            None => Standing::Broken,
        }
    }

    /// What `old` of a name stands for, at the place of the word `old`.
    pub fn old_standing(
        &self,
        alloc: Global,
        begin: Place,
        name: Identifier,
    ) -> Result<Standing, AllocError>
        ensures { IfOk result (λ s. standing_meant self.now.system.modules s ≡ old_standing self.now begin name) }
    {
        if !self.is_in_ensures() {
            return Ok(wrong(Rule::BadPrime, begin));
        }
        match self.known(name.name) {
            Some(_) => Ok(wrong(Rule::BadPrime, begin)),
            None => self.old_value(alloc, begin, name),
        }
    }

    fn old_value(
        &self,
        alloc: Global,
        begin: Place,
        name: Identifier,
    ) -> Result<Standing, AllocError>
        ensures { IfOk result (λ s. standing_meant self.now.system.modules s ≡ old_valued self.now begin name (value_named self.now.system self.now.home name.name)) }
    {
        match self.value(name.name) {
            None => Ok(self.old_instance(begin, name)),
            Some(Value::Label(_)) => Ok(wrong(Rule::BadPrime, begin)),
            Some(Value::Variable(variable)) => self.old_variable(alloc, begin, variable),
        }
    }

    /// An instance is there and has no old value.
    fn old_instance(&self, begin: Place, name: Identifier) -> Standing
        ensures { standing_meant self.now.system.modules result ≡ old_instance begin name (instance_named self.now.system self.now.home name.name) }
    {
        match self.instance(name.name) {
            None => wrong(Rule::UnknownName, name.place),
            Some(_) => wrong(Rule::BadPrime, begin),
        }
    }

    fn old_variable(
        &self,
        alloc: Global,
        begin: Place,
        variable: Variable<'d>,
    ) -> Result<Standing, AllocError>
        ensures { IfOk result (λ s. standing_meant self.now.system.modules s ≡ old_variable begin variable.entry.kind (type_of self.now.system self.now.home variable.entry.ty.now)) }
    {
        match variable.kind {
            VariableKind::Constant => Ok(wrong(Rule::BadPrime, begin)),
            _ => {
                let ty = self.type_of(alloc, variable.ty)?;
                Ok(Standing::Value(ty))
            }
        }
    }
}
