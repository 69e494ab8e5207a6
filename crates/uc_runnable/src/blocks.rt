//! How many control blocks a module has.

ghost use Rattle.std.specs.Prelude.{◌≡◌, count_by, cond};
ghost use Rattle.uc_meaning.specs.Fragment.{is_control, at_most_one};

use uc_syntax::Decl;

pub(crate) fn at_most_one_control(decls: &[Decl]) -> bool
    ensures { result ≡ at_most_one is_control decls.now }
{
    count_control(decls) <= 1
}

fn count_control(decls: &[Decl]) -> usize
    ensures { result ≡ count_by is_control decls.now }
{
    let mut count = 0;
    for decl in decls {
        count += one_if(is_control(decl));
    }
    count
}

fn is_control(decl: &Decl) -> bool
    ensures { result ≡ is_control decl.now }
{
    matches!(decl, Decl::Control(_, _))
}

fn one_if(b: bool) -> usize
    ensures { result ≡ cond b 1 0 }
{
    if b { 1 } else { 0 }
}
