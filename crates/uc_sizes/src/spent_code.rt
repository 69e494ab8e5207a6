//! The walk over code, procedures and stepped instances.

ghost use Rattle.std.specs.Prelude.{◌≡◌, ◌++◌, ◌∷◌, [], IfOk};
ghost use Rattle.std.specs.Option.{option_and_then, option_copied};
ghost use Rattle.uc_lookup.specs.Parts.{system_in};
ghost use Rattle.uc_meaning.specs.Lookup.{module_at, next_in, next_of, procedure_of};
ghost use Rattle.uc_order_rules.specs.Sizes.{callee, size_through, stepped, times};
ghost use Rattle.uc_sizes.specs.Pieces.{piece_size};
ghost use Rattle.uc_sizes.specs.Spending.{Spends, size_in};
ghost use Rattle.uc_sizes.specs.Levels.{at_level, clause_size, pieces_size, procedure_size, requires_size};

use crate::{Halt, Piece, Repeated, Spent, pieces_of, repeat, spend_nodes};
use std::alloc::{AllocError, Global};
use uc_items::Items;
use uc_lookup::{SystemRef, procedure_of};
use uc_syntax::{Clause, Decl, Module, Procedure, Stmt};

/// How many levels of defines and bindings an expression is followed through, itself being the first.
const EXPRESSION_LEVELS: u32 = 33;

/// Counts code at a path, where calls and steps are followed through at most so many levels, the code being the first.
#[cycle(spend_code)]
pub fn spend_code(
    alloc: Global,
    system: &SystemRef<'_>,
    levels: u32,
    path: &[u32],
    code: &[Stmt],
    spent: &mut Spent,
) -> Result<(), Halt>
    ensures { Spends (size_in spent.old) (size_in spent.new) result (size_through levels (system_in system.now) path.now code.now) }
{
    if levels == 0 {
        return Ok(());
    }
    let pieces = pieces_of(alloc, code)?;
    spend_pieces(alloc, system, levels - 1, path, pieces.as_slice(), spent)
}

#[cycle(spend_code)]
fn spend_pieces(
    alloc: Global,
    system: &SystemRef<'_>,
    below: u32,
    path: &[u32],
    pieces: &[Repeated<'_>],
    spent: &mut Spent,
) -> Result<(), Halt>
    ensures { Spends (size_in spent.old) (size_in spent.new) result (pieces_size (at_level (system_in system.now) below path.now) pieces.now) }
{
    for repeated in pieces {
        spend_repeated(alloc, system, below, path, *repeated, spent)?;
    }
    Ok(())
}

/// Counts a piece as often as it is run through; it is walked once.
#[cycle(spend_code)]
fn spend_repeated(
    alloc: Global,
    system: &SystemRef<'_>,
    below: u32,
    path: &[u32],
    repeated: Repeated<'_>,
    spent: &mut Spent,
) -> Result<(), Halt>
    ensures { Spends (size_in spent.old) (size_in spent.new) result (times repeated.entry.times (piece_size (at_level (system_in system.now) below path.now) repeated.entry.piece)) }
{
    if repeated.times == 0 {
        return Ok(());
    }
    let before = *spent;
    spend_piece(alloc, system, below, path, repeated.piece, spent)?;
    repeat(repeated.times - 1, before, spent)
}

#[cycle(spend_code)]
fn spend_piece(
    alloc: Global,
    system: &SystemRef<'_>,
    below: u32,
    path: &[u32],
    piece: Piece<'_>,
    spent: &mut Spent,
) -> Result<(), Halt>
    ensures { Spends (size_in spent.old) (size_in spent.new) result (piece_size (at_level (system_in system.now) below path.now) piece.entry) }
{
    match piece {
        Piece::Statement => spent.spend(1, 0),
        Piece::Expression(expression) => {
            spend_nodes(alloc, system, EXPRESSION_LEVELS, path, expression, spent)
        }
        Piece::Call(name) => spend_call(alloc, system, below, path, name, spent),
        Piece::Step(name) => spend_step(alloc, system, below, path, name, spent),
    }
}

/// Counts what a call of a procedure brings in, where there is one of the name.
#[cycle(spend_code)]
fn spend_call(
    alloc: Global,
    system: &SystemRef<'_>,
    below: u32,
    path: &[u32],
    name: u32,
    spent: &mut Spent,
) -> Result<(), Halt>
    ensures { Spends (size_in spent.old) (size_in spent.new) result (callee (system_in system.now) (size_through below (system_in system.now)) path.now (option_and_then (λ m. procedure_of m name) (module_at (system_in system.now) path.now))) }
{
    match procedure_at(system, path, name) {
        Some(procedure) => spend_procedure(alloc, system, below, path, procedure, spent),
        None => Ok(()),
    }
}

/// Counts what a procedure requires, and its body.
#[cycle(spend_code)]
fn spend_procedure(
    alloc: Global,
    system: &SystemRef<'_>,
    below: u32,
    path: &[u32],
    procedure: &Procedure,
    spent: &mut Spent,
) -> Result<(), Halt>
    ensures { Spends (size_in spent.old) (size_in spent.new) result (procedure_size (system_in system.now) below path.now procedure.now) }
{
    spend_requires(alloc, system, path, procedure.clauses.as_slice(), spent)?;
    spend_code(alloc, system, below, path, procedure.body.as_slice(), spent)
}

/// Counts what is stepped where an instance is.
#[cycle(spend_code)]
fn spend_step(
    alloc: Global,
    system: &SystemRef<'_>,
    below: u32,
    path: &[u32],
    name: u32,
    spent: &mut Spent,
) -> Result<(), Halt>
    ensures { Spends (size_in spent.old) (size_in spent.new) result (stepped (size_through below (system_in system.now)) (path.now ++ name ∷ []) (module_at (system_in system.now) (path.now ++ name ∷ []))) }
{
    let inside = path_to(alloc, path, name)?;
    match system.module_at(inside.as_slice()) {
        Some(code) => spend_next(alloc, system, below, inside.as_slice(), code, spent),
        None => Ok(()),
    }
}

/// Counts the next block of a module.
#[cycle(spend_code)]
pub fn spend_next(
    alloc: Global,
    system: &SystemRef<'_>,
    below: u32,
    path: &[u32],
    code: &Module,
    spent: &mut Spent,
) -> Result<(), Halt>
    ensures { Spends (size_in spent.old) (size_in spent.new) result (size_through below (system_in system.now) path.now (next_of code.now)) }
{
    for declaration in code.decls.as_slice() {
        spend_code(alloc, system, below, path, next_in(declaration), spent)?;
    }
    Ok(())
}

/// Counts what clauses require.
fn spend_requires(
    alloc: Global,
    system: &SystemRef<'_>,
    path: &[u32],
    clauses: &[Clause],
    spent: &mut Spent,
) -> Result<(), Halt>
    ensures { Spends (size_in spent.old) (size_in spent.new) result (requires_size (system_in system.now) path.now clauses.now) }
{
    for clause in clauses {
        spend_clause(alloc, system, path, clause, spent)?;
    }
    Ok(())
}

fn spend_clause(
    alloc: Global,
    system: &SystemRef<'_>,
    path: &[u32],
    clause: &Clause,
    spent: &mut Spent,
) -> Result<(), Halt>
    ensures { Spends (size_in spent.old) (size_in spent.new) result (clause_size (system_in system.now) path.now clause.now) }
{
    match clause {
        Clause::Requires(_, condition) => {
            spend_nodes(alloc, system, EXPRESSION_LEVELS, path, condition, spent)
        }
        Clause::Ensures(..) => Ok(()),
        Clause::Modifies(..) => Ok(()),
    }
}

/// The procedure of a name of the module at a path.
fn procedure_at<'a>(system: &SystemRef<'a>, path: &[u32], name: u32) -> Option<&'a Procedure>
    ensures { option_copied result ≡ option_and_then (λ m. procedure_of m name) (module_at (system_in system.now) path.now) }
{
    match system.module_at(path) {
        Some(code) => procedure_of(code.decls.as_slice(), name),
        None => None,
    }
}

/// The path of an instance inside the one at a path.
fn path_to(alloc: Global, path: &[u32], name: u32) -> Result<Items<u32>, AllocError>
    ensures { IfOk result (λ p. p ≡ path.now ++ name ∷ []) }
{
    let mut inside = Items::from_slice(alloc, path)?;
    inside.push(name)?;
    Ok(inside)
}

/// The code of a declaration, if it is a next block.
fn next_in(declaration: &Decl) -> &[Stmt]
    ensures { result.now ≡ next_in declaration.now }
{
    match declaration {
        Decl::Next(_, block) => block.as_slice(),
        _ => &[],
    }
}
