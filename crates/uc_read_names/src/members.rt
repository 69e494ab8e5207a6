//! Names of instances.

ghost use Rattle.std.specs.Prelude.{◌≡◌, IfOk};
ghost use Rattle.uc_names.specs.Senses.{module_in};
ghost use Rattle.uc_rules.specs.Expressions.{member, member_variable};
ghost use Rattle.uc_rules.specs.Types.{type_of};
ghost use Rattle.uc_read_names.specs.Reading.{standing_meant};

use crate::scope::Scope;
use crate::standing::{Standing, wrong};
use std::alloc::{AllocError, Global};
use uc_lookup::Variable;
use uc_names::Value;
use uc_rules::Rule;
use uc_syntax::{Place, VariableKind};

impl<'a, 'd> Scope<'a, 'd> {
    /// What a name of an instance stands for, by the place of the instance's module among the modules.
    pub fn member(
        &self,
        alloc: Global,
        place: Place,
        home: usize,
        name: u32,
    ) -> Result<Standing, AllocError>
        ensures { IfOk result (λ s. standing_meant self.now.system.modules s ≡ member self.now place (module_in self.now.system.modules home) name) }
    {
        match self.value_in(home, name) {
            Some(Value::Variable(variable)) => self.member_variable(alloc, place, home, variable),
            Some(Value::Label(_)) => Ok(wrong(Rule::UnknownName, place)),
            None => Ok(self.instance_standing(place, self.instance_in(home, name))),
        }
    }

    fn member_variable(
        &self,
        alloc: Global,
        place: Place,
        home: usize,
        variable: Variable<'d>,
    ) -> Result<Standing, AllocError>
        ensures { IfOk result (λ s. standing_meant self.now.system.modules s ≡ member_variable place variable.entry.kind (type_of self.now.system (module_in self.now.system.modules home) variable.entry.ty.now)) }
    {
        match variable.kind {
            VariableKind::Constant => Ok(wrong(Rule::UnknownName, place)),
            _ => {
                let ty = self.type_in(alloc, home, variable.ty)?;
                Ok(Standing::State(ty))
            }
        }
    }
}
