//! The cells that a `print_cex` shows.

ghost use Rattle.std.specs.Prelude.{◌≡◌, ◌++◌, nat_eq, map, OnOk, IfOk};
ghost use Rattle.std.specs.List.{list_any, flat_map, position_from};
ghost use Rattle.uc_report.specs.Prints.{declares};
ghost use Rattle.uc_judge.specs.Prints.{own_ref, declared_refs, own_refs, place_or_first, named_refs, shown_refs};

use std::alloc::{AllocError, Global};
use uc_items::Items;
use uc_meaning::Path;
use uc_report::CellRef;
use uc_syntax::{Decl, Identifier, VariableKind};

/// The cells of main that are written, or all of them where none is. Numbers of declarations are below 2^32: more count as want of
/// memory.
pub(crate) fn shown_refs(
    alloc: Global,
    decls: &[Decl],
    paths: &Option<Items<Items<Identifier>>>,
) -> Result<Items<CellRef>, AllocError>
    ensures { IfOk result (λ refs. refs ≡ shown_refs decls.now paths.now) }
{
    match paths {
        None => own_refs(alloc, decls),
        Some(paths) => {
            if paths.is_empty() {
                own_refs(alloc, decls)
            } else {
                written_refs(alloc, decls, paths.as_slice())
            }
        }
    }
}

/// All cells of main, in order.
fn own_refs(alloc: Global, decls: &[Decl]) -> Result<Items<CellRef>, AllocError>
    ensures { IfOk result (λ refs. refs ≡ own_refs decls.now) }
{
    let mut refs = Items::new(alloc);
    for place in 0..decls.len() {
        add_declared(alloc, &mut refs, place, &decls[place])?;
    }
    Ok(refs)
}

/// Adds the cells that the declaration of a number names.
fn add_declared(
    alloc: Global,
    refs: &mut Items<CellRef>,
    place: usize,
    decl: &Decl,
) -> Result<(), AllocError>
    ensures { OnOk result (refs.new ≡ refs.old ++ declared_refs (place, decl.now)) }
{
    let number = word(place)?;
    match decl {
        Decl::Variables(_, kind, names, _) => {
            if matches!(kind, VariableKind::Constant) {
                return Ok(());
            }
            add_refs(alloc, refs, number, names.as_slice())
        }
        _ => Ok(()),
    }
}

#[tactic(auto, using(uc_syntax::proofs::Added::added_begin, uc_syntax::proofs::Added::added_more, uc_syntax::proofs::Added::added_end))]
fn add_refs(
    alloc: Global,
    refs: &mut Items<CellRef>,
    decl: u32,
    names: &[Identifier],
) -> Result<(), AllocError>
    ensures { OnOk result (refs.new ≡ refs.old ++ flat_map (own_ref decl) names.now) }
{
    for name in names {
        refs.push(CellRef {
            path: Path::main(alloc),
            decl,
            name: name.name,
        })?;
    }
    Ok(())
}

/// The cells of main that paths name.
#[tactic(auto, using(uc_syntax::proofs::Added::added_begin, uc_syntax::proofs::Added::added_more, uc_syntax::proofs::Added::added_end))]
fn written_refs(
    alloc: Global,
    decls: &[Decl],
    paths: &[Items<Identifier>],
) -> Result<Items<CellRef>, AllocError>
    ensures { IfOk result (λ refs. refs ≡ flat_map (named_refs decls.now) paths.now) }
{
    let mut refs = Items::new(alloc);
    for path in paths {
        add_named(alloc, &mut refs, decls, path.as_slice())?;
    }
    Ok(refs)
}

/// Adds the cell of a path that is one name.
fn add_named(
    alloc: Global,
    refs: &mut Items<CellRef>,
    decls: &[Decl],
    path: &[Identifier],
) -> Result<(), AllocError>
    ensures { OnOk result (refs.new ≡ refs.old ++ named_refs decls.now path.now) }
{
    match path {
        [name] => {
            let decl = word(place_or_first(decls, name.name))?;
            refs.push(CellRef {
                path: Path::main(alloc),
                decl,
                name: name.name,
            })?;
            Ok(())
        }
        _ => Ok(()),
    }
}

/// The number of the declaration of a name, and 0 where there is none.
fn place_or_first(decls: &[Decl], name: u32) -> usize
    ensures { result ≡ place_or_first decls.now name }
{
    for place in 0..decls.len() {
        if declares(&decls[place], name) {
            return place;
        }
    }
    0
}

fn declares(decl: &Decl, name: u32) -> bool
    ensures { result ≡ declares name decl.now }
{
    match decl {
        Decl::Variables(_, _, names, _) => names_one(names.as_slice(), name),
        _ => false,
    }
}

/// Whether a name is among some.
fn names_one(names: &[Identifier], name: u32) -> bool
    ensures { result ≡ list_any (λ i. nat_eq i.name name) names.now }
{
    names.iter().any(|identifier| identifier.name == name)
}

/// A number that fits 32 bits.
pub(crate) fn word(number: usize) -> Result<u32, AllocError>
    ensures { IfOk result (λ n. n ≡ number) }
{
    match u32::try_from(number) {
        Ok(number) => Ok(number),
        Err(_) => Err(AllocError),
    }
}
