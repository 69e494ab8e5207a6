//! The main module of a design.

ghost use Rattle.std.specs.Prelude.{◌≡◌, [], slice_index_or};
ghost use Rattle.std.specs.List.{position_from};
ghost use Rattle.std.specs.Str.{bytes_eq};
ghost use Rattle.uc_rules.specs.Declarations.{main_number};

use uc_syntax::{Design, Module, Names};

/// The place of the first module whose name has this text.
pub(crate) fn main_number(design: &Design, main: &str) -> Option<usize>
    ensures { result ≡ main_number design.now main.now }
{
    let names = design.names();
    let modules = design.modules().as_slice();
    modules.iter().position(|code| is_called(names, code, main))
}

fn is_called(names: &Names, code: &Module, main: &str) -> bool
    ensures { result ≡ bytes_eq main.now (slice_index_or names.now code.now.name []) }
{
    main.as_bytes() == text_of(names, code.name)
}

/// The text of a name, and none where there is no such name.
fn text_of(names: &Names, name: u32) -> &[u8]
    ensures { result.now ≡ slice_index_or names.now name [] }
{
    if name as usize >= names.len() {
        return b"";
    }
    names.text(name)
}
