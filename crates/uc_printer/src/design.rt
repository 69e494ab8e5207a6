//! The text of a design.

ghost use Rattle.std.specs.Prelude.{◌≡◌, ◌++◌, ◌∷◌, [], ℕ, IfOk, OnOk};
ghost use Rattle.uc_print_laws.specs.Text.{design_text, spaced};
ghost use Rattle.uc_print_laws.specs.Declarations.{module_words};
ghost use Rattle.uc_print_laws.specs.Law.{SpellsAgain};
ghost use Rattle.uc_print_laws.specs.Spelled.{IsShaped};

use crate::declarations::put_declarations;
use std::alloc::{AllocError, Global};
use uc_grammar::Kind;
use uc_print_laws::{Page, put_name, put_sign, text_is_spelled};
use uc_syntax::{Design, Module, Names};

/// Puts a module, and a line feed behind it.
#[tactic(auto, using(crate::proofs::DeclarationWords::module_text))]
fn put_module(page: &mut Page, names: &Names, one: &Module) -> Result<(), AllocError>
    ensures { OnOk result (page.new ≡ page.old ++ (spaced names.now (module_words one.now).words ++ 10 ∷ [])) }
{
    page.put(b"module")?;
    put_name(page, names, one.name)?;
    put_sign(page, Kind::LeftBrace)?;
    put_declarations(page, names, one.decls.as_slice())?;
    put_sign(page, Kind::RightBrace)?;
    page.put(b"\n")?;
    Ok(())
}

/// The text of modules under these names: all words in the order of the grammar, one blank between neighbours, a line feed after
/// each module.
#[tactic(auto, using(crate::proofs::DeclarationWords::design_end))]
pub fn print_modules(
    alloc: Global,
    names: &Names,
    modules: &[Module],
) -> Result<Vec<u8>, AllocError>
    ensures { IfOk result (λ text. text.items ≡ design_text names.now modules.now) }
{
    let mut page = Page::new(alloc);
    'modules: for module in modules {
        put_module(&mut page, names, module)?;
    }
    Ok(page.into_bytes())
}

/// The text of a design: that of its modules under its names. Where the names and literals in its modules have spellings and its
/// nodes are those of the grammar, the text spells the same modules again, places and files aside, as a text of any file that is read
/// into the design's names.
pub fn print(alloc: Global, design: &Design) -> Result<Vec<u8>, AllocError>
    ensures text { IfOk result (λ text. text.items ≡ design_text design.now.names design.now.modules) }
    ensures spelled { IfOk result (λ text. IsShaped design.now.names design.now.modules → (file : ℕ) → SpellsAgain design.now.names file text.items design.now.modules) }
{
    let names = design.names();
    let _count = names.len();
    text_is_spelled();
    print_modules(alloc, names, design.modules().as_slice())
}
