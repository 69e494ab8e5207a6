//! Declarations and modules.

ghost use Rattle.std.specs.Prelude.{◌≡◌, IfOk};

use crate::expression::Expr;
use crate::place::{Identifier, Place};
use crate::statement::{Stmt, copy_block, copy_named};
use crate::type_expression::{Parameter, TypeExpr, copy_parameters};
use std::alloc::{AllocError, Global};
use uc_items::{Items, beside};

/// How a variable is declared: by `var`, `input`, `output` or `const`.
#[derive(Clone, Copy, Debug, PartialEq, Eq)]
pub enum VariableKind {
    Variable,
    Input,
    Output,
    Constant,
}

/// A clause of a procedure, with the place of its first word.
pub enum Clause {
    Requires(Place, Expr),
    Ensures(Place, Expr),
    Modifies(Place, Items<Identifier>),
}

/// A procedure, as it stands behind the word `procedure`.
pub struct Procedure {
    pub identifier: Identifier,
    pub parameters: Items<Parameter<TypeExpr>>,
    pub results: Items<Parameter<TypeExpr>>,
    pub clauses: Items<Clause>,
    pub body: Items<Stmt>,
}

/// `name : (expression)`
pub struct Binding {
    pub identifier: Identifier,
    pub expression: Expr,
}

/// What a command runs, with its number as it is written, which may be too large.
#[derive(Clone, Copy, Debug, PartialEq, Eq)]
pub enum WrittenRun {
    Unroll(u128),
    Induction(Option<u128>),
    Verify(Identifier),
}

/// A command of a control block, with the place of its first word.
#[derive(Drop)]
pub enum Command {
    /// The name that the run is given, and what is run.
    Run(Place, Option<Identifier>, WrittenRun),
    Check(Place),
    PrintResults(Place),
    /// The command whose lines are printed, and the paths to print.
    PrintCounterexamples(Place, Option<Identifier>, Option<Items<Items<Identifier>>>),
}

/// A declaration, with the place of its first word.
pub enum Decl {
    /// `type name;`
    OpaqueType(Place, Identifier),
    TypeAlias(Place, Identifier, TypeExpr),
    /// `type * = module.*;`
    TypeImport(Place, Identifier),
    Variables(Place, VariableKind, Items<Identifier>, TypeExpr),
    Function(Place, Identifier, Items<Parameter<TypeExpr>>, TypeExpr),
    Define(Place, Identifier, Items<Parameter<TypeExpr>>, TypeExpr, Expr),
    Procedure(Place, Procedure),
    /// The instance, its module and what is bound.
    Instance(Place, Identifier, Identifier, Items<Binding>),
    Init(Place, Items<Stmt>),
    Next(Place, Items<Stmt>),
    Invariant(Place, Identifier, Expr),
    Axiom(Place, Option<Identifier>, Expr),
    /// The number of copies, the name and the formula.
    Hyperinvariant(Place, u128, Identifier, Expr),
    Hyperaxiom(Place, u128, Identifier, Expr),
    Control(Place, Items<Command>),
}

/// A module: the place of the word `module`, the number of its name, and its declarations in order.
pub struct Module {
    pub place: Place,
    pub name: u32,
    pub decls: Items<Decl>,
}

impl Clause {
    /// The same clause again.
    pub fn copy(&self, alloc: Global) -> Result<Clause, AllocError>
        ensures { IfOk result (λ c. c ≡ self.now) }
    {
        match self {
            Clause::Requires(place, condition) => {
                let condition = condition.copy(alloc)?;
                Ok(Clause::Requires(*place, condition))
            }
            Clause::Ensures(place, condition) => {
                let condition = condition.copy(alloc)?;
                Ok(Clause::Ensures(*place, condition))
            }
            Clause::Modifies(place, names) => {
                let names = Items::from_slice(alloc, names.as_slice())?;
                Ok(Clause::Modifies(*place, names))
            }
        }
    }
}

fn copy_clauses(alloc: Global, clauses: &[Clause]) -> Result<Items<Clause>, AllocError>
    ensures { IfOk result (λ cs. cs ≡ clauses.now) }
{
    let mut copies = Items::new(alloc);
    for clause in clauses {
        let clause = clause.copy(alloc)?;
        copies.push(clause)?;
    }
    Ok(copies)
}

impl Procedure {
    /// The same procedure again.
    pub fn copy(&self, alloc: Global) -> Result<Procedure, AllocError>
        ensures { IfOk result (λ p. p ≡ self.now) }
    {
        let parameters = copy_parameters(alloc, self.parameters.as_slice())?;
        let results = copy_parameters(alloc, self.results.as_slice())?;
        let clauses = copy_clauses(alloc, self.clauses.as_slice())?;
        let body = copy_block(alloc, self.body.as_slice())?;
        Ok(Procedure {
            identifier: self.identifier,
            parameters,
            results,
            clauses,
            body,
        })
    }
}

impl Binding {
    /// The same binding again.
    pub fn copy(&self, alloc: Global) -> Result<Binding, AllocError>
        ensures { IfOk result (λ b. b ≡ self.now) }
    {
        let expression = self.expression.copy(alloc)?;
        Ok(Binding {
            identifier: self.identifier,
            expression,
        })
    }
}

fn copy_bindings(alloc: Global, bindings: &[Binding]) -> Result<Items<Binding>, AllocError>
    ensures { IfOk result (λ bs. bs ≡ bindings.now) }
{
    let mut copies = Items::new(alloc);
    for binding in bindings {
        let binding = binding.copy(alloc)?;
        copies.push(binding)?;
    }
    Ok(copies)
}

fn copy_paths(
    alloc: Global,
    paths: &[Items<Identifier>],
) -> Result<Items<Items<Identifier>>, AllocError>
    ensures { IfOk result (λ ps. ps ≡ paths.now) }
{
    let mut copies = Items::new(alloc);
    for path in paths {
        let path = Items::from_slice(alloc, path.as_slice())?;
        copies.push(path)?;
    }
    Ok(copies)
}

impl Command {
    /// The same command again.
    pub fn copy(&self, alloc: Global) -> Result<Command, AllocError>
        ensures { IfOk result (λ c. c ≡ self.now) }
    {
        match self {
            Command::Run(place, name, run) => Ok(Command::Run(*place, *name, *run)),
            Command::Check(place) => Ok(Command::Check(*place)),
            Command::PrintResults(place) => Ok(Command::PrintResults(*place)),
            Command::PrintCounterexamples(place, command, None) => {
                Ok(Command::PrintCounterexamples(*place, *command, None))
            }
            Command::PrintCounterexamples(place, command, Some(paths)) => {
                let paths = copy_paths(alloc, paths.as_slice())?;
                Ok(Command::PrintCounterexamples(*place, *command, Some(paths)))
            }
        }
    }
}

fn copy_commands(alloc: Global, commands: &[Command]) -> Result<Items<Command>, AllocError>
    ensures { IfOk result (λ cs. cs ≡ commands.now) }
{
    let mut copies = Items::new(alloc);
    for command in commands {
        let command = command.copy(alloc)?;
        copies.push(command)?;
    }
    Ok(copies)
}

// The parameters of a function and the type of its result.
fn copy_signature(
    alloc: Global,
    parameters: &Items<Parameter<TypeExpr>>,
    ty: &TypeExpr,
) -> Result<(Items<Parameter<TypeExpr>>, TypeExpr), AllocError>
    ensures { IfOk result (λ signature. (signature.0 ≡ parameters.now) × (signature.1 ≡ ty.now)) }
{
    let parameters = copy_parameters(alloc, parameters.as_slice())?;
    let ty = ty.copy(alloc)?;
    Ok((parameters, ty))
}

// The parameters of a define, its type and its body.
fn copy_define(
    alloc: Global,
    parameters: &Items<Parameter<TypeExpr>>,
    ty: &TypeExpr,
    body: &Expr,
) -> Result<(Items<Parameter<TypeExpr>>, TypeExpr, Expr), AllocError>
    ensures { IfOk result (λ define. (define.0 ≡ parameters.now) × (define.1 ≡ ty.now) × (define.2 ≡ body.now)) }
{
    let (parameters, ty) = copy_signature(alloc, parameters, ty)?;
    let (ty, body) = beside(ty, body.copy(alloc))?;
    Ok((parameters, ty, body))
}

impl Decl {
    /// The same declaration again.
    pub fn copy(&self, alloc: Global) -> Result<Decl, AllocError>
        ensures { IfOk result (λ d. d ≡ self.now) }
    {
        match self {
            Decl::OpaqueType(place, name) => Ok(Decl::OpaqueType(*place, *name)),
            Decl::TypeAlias(place, name, ty) => {
                let ty = ty.copy(alloc)?;
                Ok(Decl::TypeAlias(*place, *name, ty))
            }
            Decl::TypeImport(place, module) => Ok(Decl::TypeImport(*place, *module)),
            Decl::Variables(place, kind, names, ty) => {
                let (names, ty) = copy_named(alloc, names, ty)?;
                Ok(Decl::Variables(*place, *kind, names, ty))
            }
            Decl::Function(place, name, parameters, ty) => {
                let (parameters, ty) = copy_signature(alloc, parameters, ty)?;
                Ok(Decl::Function(*place, *name, parameters, ty))
            }
            Decl::Define(place, name, parameters, ty, body) => {
                let (parameters, ty, body) = copy_define(alloc, parameters, ty, body)?;
                Ok(Decl::Define(*place, *name, parameters, ty, body))
            }
            Decl::Procedure(place, procedure) => {
                let procedure = procedure.copy(alloc)?;
                Ok(Decl::Procedure(*place, procedure))
            }
            Decl::Instance(place, name, module, bindings) => {
                let bindings = copy_bindings(alloc, bindings.as_slice())?;
                Ok(Decl::Instance(*place, *name, *module, bindings))
            }
            Decl::Init(place, block) => {
                let block = copy_block(alloc, block.as_slice())?;
                Ok(Decl::Init(*place, block))
            }
            Decl::Next(place, block) => {
                let block = copy_block(alloc, block.as_slice())?;
                Ok(Decl::Next(*place, block))
            }
            Decl::Invariant(place, name, formula) => {
                let formula = formula.copy(alloc)?;
                Ok(Decl::Invariant(*place, *name, formula))
            }
            Decl::Axiom(place, name, formula) => {
                let formula = formula.copy(alloc)?;
                Ok(Decl::Axiom(*place, *name, formula))
            }
            Decl::Hyperinvariant(place, copies, name, formula) => {
                let formula = formula.copy(alloc)?;
                Ok(Decl::Hyperinvariant(*place, *copies, *name, formula))
            }
            Decl::Hyperaxiom(place, copies, name, formula) => {
                let formula = formula.copy(alloc)?;
                Ok(Decl::Hyperaxiom(*place, *copies, *name, formula))
            }
            Decl::Control(place, commands) => {
                let commands = copy_commands(alloc, commands.as_slice())?;
                Ok(Decl::Control(*place, commands))
            }
        }
    }
}

/// The same declarations again.
pub fn copy_declarations(alloc: Global, declarations: &[Decl]) -> Result<Items<Decl>, AllocError>
    ensures { IfOk result (λ ds. ds ≡ declarations.now) }
{
    let mut copies = Items::new(alloc);
    for declaration in declarations {
        let declaration = declaration.copy(alloc)?;
        copies.push(declaration)?;
    }
    Ok(copies)
}

impl Module {
    /// The same module again.
    pub fn copy(&self, alloc: Global) -> Result<Module, AllocError>
        ensures { IfOk result (λ m. m ≡ self.now) }
    {
        let decls = copy_declarations(alloc, self.decls.as_slice())?;
        Ok(Module {
            place: self.place,
            name: self.name,
            decls,
        })
    }
}

/// The same modules again.
pub fn copy_modules(alloc: Global, modules: &[Module]) -> Result<Items<Module>, AllocError>
    ensures { IfOk result (λ ms. ms ≡ modules.now) }
{
    let mut copies = Items::new(alloc);
    for module in modules {
        let module = module.copy(alloc)?;
        copies.push(module)?;
    }
    Ok(copies)
}

impl Drop for Clause {
    fn drop(self) {
        match self {
            Clause::Requires(_, condition) | Clause::Ensures(_, condition) => drop(condition),
            Clause::Modifies(_, names) => drop(names),
        }
    }
}

impl Drop for Procedure {
    fn drop(self) {
        let Procedure {
            identifier: _,
            parameters,
            results,
            clauses,
            body,
        } = self;
        drop(parameters);
        drop(results);
        drop(clauses);
        drop(body);
    }
}

impl Drop for Binding {
    fn drop(self) {
        let Binding {
            identifier: _,
            expression,
        } = self;
        drop(expression);
    }
}

impl Drop for Decl {
    fn drop(self) {
        match self {
            Decl::OpaqueType(_, _) | Decl::TypeImport(_, _) => {}
            Decl::TypeAlias(_, _, ty) => drop(ty),
            Decl::Variables(_, _, names, ty) => {
                drop(names);
                drop(ty);
            }
            Decl::Function(_, _, parameters, result) => {
                drop(parameters);
                drop(result);
            }
            Decl::Define(_, _, parameters, result, body) => {
                drop(parameters);
                drop(result);
                drop(body);
            }
            Decl::Procedure(_, procedure) => drop(procedure),
            Decl::Instance(_, _, _, bindings) => drop(bindings),
            Decl::Init(_, body) | Decl::Next(_, body) => drop(body),
            Decl::Invariant(_, _, formula)
            | Decl::Axiom(_, _, formula)
            | Decl::Hyperinvariant(_, _, _, formula)
            | Decl::Hyperaxiom(_, _, _, formula) => drop(formula),
            Decl::Control(_, commands) => drop(commands),
        }
    }
}

impl Drop for Module {
    fn drop(self) {
        let Module {
            place: _,
            name: _,
            decls,
        } = self;
        drop(decls);
    }
}
