//! What a name of a module stands for, by reference.

ghost use Rattle.std.specs.Prelude.{◌≡◌, List};
ghost use Rattle.uc_syntax.specs.declared.declaration.Module.{Module};
ghost use Rattle.std.specs.Option.{option_copied, option_map};
ghost use Rattle.uc_rules.specs.Names.{as_called, as_instance, as_procedure, as_type, as_value};
ghost use Rattle.uc_lookup.specs.Parts.{instance_parts};
ghost use Rattle.uc_names.specs.Senses.{called_meant, declared_meant, sense_meant, value_meant};

use uc_lookup::{Defined, InstanceParts, Signature, Variable};
use uc_syntax::{Identifier, Procedure};

/// A type, by the place of the module that declares it among those of the design, and by the place of its declaration there.
#[derive(Clone, Copy, Debug, PartialEq, Eq, Hash)]
pub struct DeclaredType {
    pub home: usize,
    pub declaration: usize,
}

/// A label: the number of its enum, and its place among the labels from 0.
#[derive(Clone, Copy, Debug, PartialEq, Eq)]
pub struct Label {
    pub enum_number: usize,
    pub place: usize,
}

/// What a name stands for.
#[derive(Clone, Copy)]
pub enum Sense<'a> {
    Declared(DeclaredType),
    Variable(Variable<'a>),
    Label(Label),
    Function(Signature<'a>),
    Define(Defined<'a>),
    Procedure(&'a Procedure),
    Instance(InstanceParts<'a>),
    Formula,
}

/// A name as a module declares it or brings it in, with the place where it does so.
#[derive(Clone, Copy)]
pub struct Entry<'a> {
    pub identifier: Identifier,
    pub sense: Sense<'a>,
}

/// What a name is as a value: a variable, input, output or constant, or a label of an enum by the enum's number.
#[derive(Clone, Copy)]
pub enum Value<'a> {
    Variable(Variable<'a>),
    Label(usize),
}

/// What a name is where arguments follow.
#[derive(Clone, Copy)]
pub enum Called<'a> {
    Function(Signature<'a>),
    Define(Defined<'a>),
}

impl<'a> Sense<'a> {
    /// A variable, input, output or constant, or a label.
    pub fn as_value(self) -> Option<Value<'a>>
        ensures { (ms : List Module) → option_map value_meant result ≡ as_value (sense_meant ms self.entry) }
    {
        match self {
            Sense::Variable(variable) => Some(Value::Variable(variable)),
            Sense::Label(label) => Some(Value::Label(label.enum_number)),
            _ => None,
        }
    }

    /// A function or a define.
    pub fn as_called(self) -> Option<Called<'a>>
        ensures { (ms : List Module) → option_map called_meant result ≡ as_called (sense_meant ms self.entry) }
    {
        match self {
            Sense::Function(signature) => Some(Called::Function(signature)),
            Sense::Define(defined) => Some(Called::Define(defined)),
            _ => None,
        }
    }

    /// A type.
    pub fn as_type(self) -> Option<DeclaredType>
        ensures { (ms : List Module) → option_map (declared_meant ms) result ≡ as_type (sense_meant ms self.entry) }
    {
        match self {
            Sense::Declared(declared) => Some(declared),
            _ => None,
        }
    }

    /// A procedure.
    pub fn as_procedure(self) -> Option<&'a Procedure>
        ensures { (ms : List Module) → option_copied result ≡ as_procedure (sense_meant ms self.entry) }
    {
        match self {
            Sense::Procedure(procedure) => Some(procedure),
            _ => None,
        }
    }

    /// An instance.
    pub fn as_instance(self) -> Option<InstanceParts<'a>>
        ensures { (ms : List Module) → option_map instance_parts result ≡ as_instance (sense_meant ms self.entry) }
    {
        match self {
            Sense::Instance(instance) => Some(instance),
            _ => None,
        }
    }
}
