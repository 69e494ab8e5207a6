//! Designs that keep the static rules.

ghost use Rattle.std.specs.Prelude.{◌≡◌, Some};
ghost use Rattle.uc_syntax.specs.Contents.{Contents};
ghost use Rattle.uc_rules.specs.Declarations.{KeepsRules, main_number};
ghost use Rattle.uc_types.specs.Typed.{KeepsTypes};

use std::marker::Model;
use uc_syntax::Design;

/// A design that keeps the static rules, with the place of main among its modules.
#[derive(Drop)]
pub struct TypedDesign {
    design: Design,
    main: u32,
}

impl Model for TypedDesign {
    ghost use Rattle.std.specs.Coded.{codes};
    ghost use Rattle.uc_syntax.specs.contracts.type_expression.TypeExpr as types;
    ghost use Rattle.uc_syntax.specs.contracts.expression.Expr as expressions;
    ghost use Rattle.uc_syntax.specs.contracts.statement.Stmt as statements;
    ghost use Rattle.uc_types.specs.Typed.{KeepsTypes, Typed};

    ghost Value = { Typed };

    ghost coded = { Prim.hlevel (codes, types.the_row.coded, expressions.the_row.coded, statements.the_row.coded) };

    ghost view = { λ t. record { contents = t.design; main = t.main } };

    ghost invariant = { λ t. KeepsTypes (record { contents = t.design; main = t.main }) };
}

impl TypedDesign {
    /// A design that keeps the rules.
    pub fn of(design: Design, main: u32) -> TypedDesign
        requires { KeepsTypes (record { contents = design; main = main }) }
        ensures { result ≡ record { contents = design; main = main } }
    {
        TypedDesign { design, main }
    }

    /// The design.
    pub fn design(&self) -> &Design
        ensures value { result.now ≡ self.now.contents }
        ensures kept { KeepsTypes self.now }
    {
        &self.design
    }

    /// The place of main among the modules.
    pub fn main(&self) -> u32
        ensures { result ≡ self.now.main }
    {
        self.main
    }

    /// The design and the place of main. It takes no memory.
    pub fn parts(self) -> (Design, u32)
        ensures design { result.0 ≡ self.contents }
        ensures main { result.1 ≡ self.main }
        ensures kept { KeepsTypes (record { contents = result.0; main = result.1 }) }
    {
        let TypedDesign { design, main } = self;
        (design, main)
    }
}
