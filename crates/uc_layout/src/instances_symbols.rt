//! The types of the constants and of the functions of an interpretation.

ghost use Rattle.std.specs.Prelude.{◌≡◌, ◌++◌, map, replicate, nat_eq, IfOk, OnOk};
ghost use Rattle.std.specs.List.{flat_map, list_any};
ghost use Rattle.uc_meaning.specs.Types.{type_of_written};
ghost use Rattle.uc_meaning.specs.Cells.{constants_of, functions_of, modules_in_use};
ghost use Rattle.uc_lookup.specs.Parts.{system_in};
ghost use Rattle.uc_layout.specs.InstancesSymbols.{signature_of, constants_at, constants_typed, functions_at, functions_typed, if_used};

use crate::instance::{InstanceRef, instances};
use std::alloc::{AllocError, Global};
use uc_items::{Items, beside};
use uc_lookup::SystemRef;
use uc_syntax::{Decl, Identifier, Module, Parameter, TypeExpr, VariableKind};
use uc_type_reader::{Tables, type_of_written};
use uc_values::{Ty, copy_ty};

/// The types of a function's arguments and of its result.
#[derive(Drop)]
pub struct FunctionTypes {
    pub arguments: Items<Ty>,
    pub result: Ty,
}

/// The types of the constants of the modules in use, by module and declaration.
#[tactic(auto, using(uc_syntax::proofs::Added::added_begin, uc_syntax::proofs::Added::added_more))]
pub fn constant_types(alloc: Global, tables: &Tables) -> Result<Items<Ty>, AllocError>
    ensures { IfOk result (λ ts. ts ≡ map (λ c. c.type) (constants_of tables.now)) }
{
    let modules = modules_in_use(alloc, &tables.system())?;
    let mut types = Items::new(alloc);
    for code in modules.as_slice() {
        add_constants_at(alloc, tables, code, &mut types)?;
    }
    Ok(types)
}

/// The types of the functions of the modules in use, by module and declaration.
#[tactic(auto, using(uc_syntax::proofs::Added::added_begin, uc_syntax::proofs::Added::added_more))]
pub fn function_types(alloc: Global, tables: &Tables) -> Result<Items<FunctionTypes>, AllocError>
    ensures { IfOk result (λ fs. fs ≡ map signature_of (functions_of tables.now)) }
{
    let modules = modules_in_use(alloc, &tables.system())?;
    let mut types = Items::new(alloc);
    for code in modules.as_slice() {
        add_functions_at(alloc, tables, code, &mut types)?;
    }
    Ok(types)
}

/// The modules of main and of the instances below it, in the order of the design.
#[tactic(auto, using(uc_syntax::proofs::Added::added_begin, uc_syntax::proofs::Added::added_more))]
fn modules_in_use<'a>(
    alloc: Global,
    design: &SystemRef<'a>,
) -> Result<Items<&'a Module>, AllocError>
    ensures { IfOk result (λ ms. map (λ m. m.now) ms ≡ modules_in_use (system_in design.now)) }
{
    let all = instances(alloc, design)?;
    let used = all.as_slice();
    let mut modules = Items::new(alloc);
    for code in design.modules {
        add_if_used(used, code, &mut modules)?;
    }
    Ok(modules)
}

fn add_if_used<'a>(
    used: &[InstanceRef<'_>],
    code: &'a Module,
    modules: &mut Items<&'a Module>,
) -> Result<(), AllocError>
    ensures { OnOk result (map (λ m. m.now) modules.new ≡ map (λ m. m.now) modules.old ++ if_used used.now code.now) }
{
    if is_used(used, code.name) {
        modules.push(code)?;
    }
    Ok(())
}

/// Whether a module is that of some instance.
fn is_used(instances: &[InstanceRef<'_>], name: u32) -> bool
    ensures { result ≡ list_any (λ i. nat_eq i.code.now.name name) instances.now }
{
    instances.iter().any(|instance| instance.code.name == name)
}

#[tactic(auto, using(uc_syntax::proofs::Added::added_begin, uc_syntax::proofs::Added::added_more, uc_syntax::proofs::Added::added_end))]
fn add_constants_at(
    alloc: Global,
    tables: &Tables,
    code: &Module,
    types: &mut Items<Ty>,
) -> Result<(), AllocError>
    ensures { OnOk result (types.new ≡ types.old ++ constants_at tables.now code.now) }
{
    for decl in code.decls.as_slice() {
        add_constants_in(alloc, tables, code, decl, types)?;
    }
    Ok(())
}

fn add_constants_in(
    alloc: Global,
    tables: &Tables,
    code: &Module,
    decl: &Decl,
    types: &mut Items<Ty>,
) -> Result<(), AllocError>
    ensures { OnOk result (types.new ≡ types.old ++ constants_typed tables.now code.now decl.now) }
{
    match decl {
        Decl::Variables(_, kind, names, ty) => match *kind {
            VariableKind::Constant => {
                let ty = type_of_written(alloc, tables, code, ty)?;
                add_copies(alloc, &ty, names.len(), types)
            }
            _ => Ok(()),
        },
        _ => Ok(()),
    }
}

/// Adds a type so many times.
fn add_copies(alloc: Global, ty: &Ty, count: usize, types: &mut Items<Ty>) -> Result<(), AllocError>
    ensures { OnOk result (types.new ≡ types.old ++ replicate count ty.now) }
{
    for _ in 0..count {
        types.push(copy_ty(alloc, ty)?)?;
    }
    Ok(())
}

#[tactic(auto, using(uc_syntax::proofs::Added::added_begin, uc_syntax::proofs::Added::added_more, uc_syntax::proofs::Added::added_end))]
fn add_functions_at(
    alloc: Global,
    tables: &Tables,
    code: &Module,
    types: &mut Items<FunctionTypes>,
) -> Result<(), AllocError>
    ensures { OnOk result (types.new ≡ types.old ++ functions_at tables.now code.now) }
{
    for decl in code.decls.as_slice() {
        add_functions_in(alloc, tables, code, decl, types)?;
    }
    Ok(())
}

fn add_functions_in(
    alloc: Global,
    tables: &Tables,
    code: &Module,
    decl: &Decl,
    types: &mut Items<FunctionTypes>,
) -> Result<(), AllocError>
    ensures { OnOk result (types.new ≡ types.old ++ functions_typed tables.now code.now decl.now) }
{
    match decl {
        Decl::Function(_, _, parameters, result) => {
            let result = type_of_written(alloc, tables, code, result)?;
            let arguments = parameter_types(alloc, tables, code, parameters.as_slice());
            let (result, arguments) = beside(result, arguments)?;
            types.push(FunctionTypes { arguments, result })
        }
        _ => Ok(()),
    }
}

/// The types of parameters, in order.
pub fn parameter_types(
    alloc: Global,
    tables: &Tables,
    code: &Module,
    parameters: &[Parameter<TypeExpr>],
) -> Result<Items<Ty>, AllocError>
    ensures { IfOk result (λ ts. ts ≡ map (λ p. type_of_written tables.now code.now p.ty) parameters.now) }
{
    let mut types = Items::new(alloc);
    for parameter in parameters {
        types.push(type_of_written(alloc, tables, code, &parameter.ty)?)?;
    }
    Ok(types)
}
