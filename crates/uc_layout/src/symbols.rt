//! The constants and the functions of the modules in use.

ghost use Rattle.std.specs.Prelude.{◌≡◌, ◌++◌, nat_eq, unwrap_or, IfOk, OnOk};
ghost use Rattle.std.specs.List.{flat_map, list_any, position_from};
ghost use Rattle.uc_meaning.specs.Cells.{is_symbol};
ghost use Rattle.uc_layout.specs.Symbols.{symbol_meant, constants_named, symbol_of_name, symbols_in, symbols_at, symbols_listed};

use std::alloc::{AllocError, Global};
use uc_items::Items;
use uc_syntax::{Decl, Identifier, Module, VariableKind};

/// A constant or a function, by its module and its name.
#[derive(Clone, Copy)]
pub(crate) struct SymbolName {
    pub module_name: u32,
    pub name: u32,
}

/// Constants, or functions.
#[derive(Clone, Copy, PartialEq, Eq)]
pub(crate) enum SymbolKind {
    Constant,
    Function,
}

/// The symbols of a kind of the modules whose names are listed, by module and declaration.
#[tactic(auto, using(uc_syntax::proofs::Added::added_begin, uc_syntax::proofs::Added::added_more, uc_syntax::proofs::Added::added_end))]
pub(crate) fn list_symbols(
    alloc: Global,
    kind: SymbolKind,
    modules: &[Module],
    codes: &[u32],
) -> Result<Items<SymbolName>, AllocError>
    ensures { IfOk result (λ ss. ss ≡ symbols_listed kind codes.now modules.now) }
{
    let mut symbols = Items::new(alloc);
    for code in modules {
        add_if_used(kind, code, codes, &mut symbols)?;
    }
    Ok(symbols)
}

fn add_if_used(
    kind: SymbolKind,
    code: &Module,
    codes: &[u32],
    symbols: &mut Items<SymbolName>,
) -> Result<(), AllocError>
    ensures { OnOk result (symbols.new ≡ symbols.old ++ symbols_at kind codes.now code.now) }
{
    if !is_used(codes, code.name) {
        return Ok(());
    }
    add_symbols(kind, code.name, code.decls.as_slice(), symbols)?;
    Ok(())
}

/// Whether a module is that of some instance.
fn is_used(codes: &[u32], name: u32) -> bool
    ensures { result ≡ list_any (λ c. nat_eq c name) codes.now }
{
    codes.iter().any(|used| *used == name)
}

#[tactic(auto, using(uc_syntax::proofs::Added::added_begin, uc_syntax::proofs::Added::added_more, uc_syntax::proofs::Added::added_end))]
fn add_symbols(
    kind: SymbolKind,
    code: u32,
    decls: &[Decl],
    symbols: &mut Items<SymbolName>,
) -> Result<(), AllocError>
    ensures { OnOk result (symbols.new ≡ symbols.old ++ flat_map (symbols_in kind code) decls.now) }
{
    for decl in decls {
        add_symbols_in(kind, code, decl, symbols)?;
    }
    Ok(())
}

fn add_symbols_in(
    kind: SymbolKind,
    code: u32,
    decl: &Decl,
    symbols: &mut Items<SymbolName>,
) -> Result<(), AllocError>
    ensures { OnOk result (symbols.new ≡ symbols.old ++ symbols_in kind code decl.now) }
{
    match kind {
        SymbolKind::Constant => {
            add_names(code, constants_in(decl), symbols)?;
            Ok(())
        }
        SymbolKind::Function => {
            if let Decl::Function(_, identifier, _, _) = decl {
                symbols.push(SymbolName {
                    module_name: code,
                    name: identifier.name,
                })?;
            }
            Ok(())
        }
    }
}

/// The constants that a declaration names.
fn constants_in(decl: &Decl) -> &[Identifier]
    ensures { result.now ≡ constants_named decl.now }
{
    match decl {
        Decl::Variables(_, VariableKind::Constant, names, _) => names.as_slice(),
        _ => &[],
    }
}

#[tactic(auto, using(uc_syntax::proofs::Added::added_begin, uc_syntax::proofs::Added::added_more, uc_syntax::proofs::Added::added_end))]
fn add_names(
    code: u32,
    names: &[Identifier],
    symbols: &mut Items<SymbolName>,
) -> Result<(), AllocError>
    ensures { OnOk result (symbols.new ≡ symbols.old ++ flat_map (symbol_of_name code) names.now) }
{
    for identifier in names {
        symbols.push(SymbolName {
            module_name: code,
            name: identifier.name,
        })?;
    }
    Ok(())
}

/// The first place of a symbol, and 0 where it is not there.
pub(crate) fn place_of(symbols: &[SymbolName], code: u32, name: u32) -> usize
    ensures { result ≡ unwrap_or (position_from (λ s. is_symbol code name (symbol_meant s)) 0 symbols.now) 0 }
{
    for (place, symbol) in symbols.iter().enumerate() {
        if is_symbol(symbol, code, name) {
            return place;
        }
    }
    0
}

fn is_symbol(symbol: &SymbolName, code: u32, name: u32) -> bool
    ensures { result ≡ is_symbol code name (symbol_meant symbol.now) }
{
    symbol.module_name == code && symbol.name == name
}
