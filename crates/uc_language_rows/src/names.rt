use std::alloc::{AllocError, Global};
use std::process::Abort;
use std::test::Fail;
use uc_syntax::Names;

fn check_numbers(rt: &impl Abort, alloc: Global, names: &mut Names) -> Result<(), AllocError> {
    for (text, number) in [("main", 0), ("x", 1), ("main", 0), ("", 2), ("x", 1)] {
        assert_eq!(rt; names.intern(alloc, text.as_bytes())?, number);
    }
    assert_eq!(rt; names.len(), 3);
    assert_eq!(rt; names.text(1), b"x".as_slice());
    Ok(())
}

#[test]
fn a_text_has_one_number(rt: HostRuntime) -> Result<(), Fail> {
    let alloc = rt.alloc();
    let mut names = Names::new(alloc);
    check_numbers(&rt, alloc, &mut names)?;
    Ok(())
}
