//! What a module declares by a name.

ghost use Rattle.std.specs.Prelude.{◌≡◌};
ghost use Rattle.std.specs.Option.{option_copied, option_map};
ghost use Rattle.uc_meaning.specs.Lookup.{first_some, some_if, is_named, names_one, variable_in, define_in, function_in, procedure_in};
ghost use Rattle.uc_lookup.specs.Parts.{variable_parts, defined_parts, signature_parts};

use uc_syntax::{Binding, Decl, Expr, Identifier, Parameter, Procedure, TypeExpr, VariableKind};

/// A variable, input, output or constant: its kind and its type.
#[derive(Clone, Copy)]
pub struct Variable<'a> {
    pub kind: VariableKind,
    pub ty: &'a TypeExpr,
}

/// What a define says: its parameters, its type and its body.
#[derive(Clone, Copy)]
pub struct Defined<'a> {
    pub parameters: &'a [Parameter<TypeExpr>],
    pub ty: &'a TypeExpr,
    pub body: &'a Expr,
}

/// What a function says: its parameters and the type of its results.
#[derive(Clone, Copy)]
pub struct Signature<'a> {
    pub parameters: &'a [Parameter<TypeExpr>],
    pub ty: &'a TypeExpr,
}

/// The variable, input, output or constant of a name.
pub fn variable_of(decls: &[Decl], name: u32) -> Option<Variable<'_>>
    ensures { option_map variable_parts result ≡ first_some (variable_in name) decls.now }
{
    for decl in decls {
        if let Some(found) = variable_in(decl, name) {
            return Some(found);
        }
    }
    None
}

fn variable_in(decl: &Decl, name: u32) -> Option<Variable<'_>>
    ensures { option_map variable_parts result ≡ variable_in name decl.now }
{
    match decl {
        Decl::Variables(_, kind, names, ty) => {
            if names_one(names.as_slice(), name) {
                Some(Variable { kind: *kind, ty })
            } else {
                None
            }
        }
        _ => None,
    }
}

/// Whether a name is among some.
fn names_one(names: &[Identifier], name: u32) -> bool
    ensures { result ≡ names_one name names.now }
{
    names.iter().any(|identifier| identifier.name == name)
}

/// The define of a name.
pub fn define_of(decls: &[Decl], name: u32) -> Option<Defined<'_>>
    ensures { option_map defined_parts result ≡ first_some (define_in name) decls.now }
{
    for decl in decls {
        if let Some(found) = define_in(decl, name) {
            return Some(found);
        }
    }
    None
}

fn define_in(decl: &Decl, name: u32) -> Option<Defined<'_>>
    ensures { option_map defined_parts result ≡ define_in name decl.now }
{
    match decl {
        Decl::Define(_, identifier, parameters, ty, body) => {
            if identifier.name == name {
                Some(Defined {
                    parameters: parameters.as_slice(),
                    ty,
                    body,
                })
            } else {
                None
            }
        }
        _ => None,
    }
}

/// The function of a name.
pub fn function_of(decls: &[Decl], name: u32) -> Option<Signature<'_>>
    ensures { option_map signature_parts result ≡ first_some (function_in name) decls.now }
{
    for decl in decls {
        if let Some(found) = function_in(decl, name) {
            return Some(found);
        }
    }
    None
}

fn function_in(decl: &Decl, name: u32) -> Option<Signature<'_>>
    ensures { option_map signature_parts result ≡ function_in name decl.now }
{
    match decl {
        Decl::Function(_, identifier, parameters, ty) => {
            if identifier.name == name {
                Some(Signature {
                    parameters: parameters.as_slice(),
                    ty,
                })
            } else {
                None
            }
        }
        _ => None,
    }
}

/// The procedure of a name.
pub fn procedure_of(decls: &[Decl], name: u32) -> Option<&Procedure>
    ensures { option_copied result ≡ first_some (procedure_in name) decls.now }
{
    for decl in decls {
        if let Some(found) = procedure_in(decl, name) {
            return Some(found);
        }
    }
    None
}

fn procedure_in(decl: &Decl, name: u32) -> Option<&Procedure>
    ensures { option_copied result ≡ procedure_in name decl.now }
{
    match decl {
        Decl::Procedure(_, procedure) => {
            if procedure.identifier.name == name {
                Some(procedure)
            } else {
                None
            }
        }
        _ => None,
    }
}

/// The expression that is bound to a name of an instance's module.
pub fn bound_to(bindings: &[Binding], name: u32) -> Option<&Expr>
    ensures { option_copied result ≡ first_some (λ b. some_if (is_named name b.identifier) b.expression) bindings.now }
{
    for binding in bindings {
        if let Some(found) = bound_in(binding, name) {
            return Some(found);
        }
    }
    None
}

fn bound_in(binding: &Binding, name: u32) -> Option<&Expr>
    ensures { option_copied result ≡ some_if (is_named name binding.now.identifier) binding.now.expression }
{
    if binding.identifier.name == name {
        Some(&binding.expression)
    } else {
        None
    }
}
