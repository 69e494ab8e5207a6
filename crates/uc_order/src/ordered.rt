//! Designs that keep the static rules and the rules on order and sizes.

ghost use Rattle.std.specs.Prelude.{◌≡◌};
ghost use Rattle.uc_types.specs.Typed.{Typed, KeepsTypes};
ghost use Rattle.uc_order.specs.Ordered.{system_in, KeepsAll};

use std::marker::Model;
use uc_syntax::Design;
use uc_types::TypedDesign;

/// A design that keeps all rules but those of its control block, with the place of main among its modules.
#[derive(Drop)]
pub struct Ordered {
    typed: TypedDesign,
}

impl Model for Ordered {
    ghost use Rattle.std.specs.Coded.{codes};
    ghost use Rattle.uc_syntax.specs.contracts.type_expression.TypeExpr as types;
    ghost use Rattle.uc_syntax.specs.contracts.expression.Expr as expressions;
    ghost use Rattle.uc_syntax.specs.contracts.statement.Stmt as statements;
    ghost use Rattle.uc_types.specs.Typed.{Typed};
    ghost use Rattle.uc_order.specs.Ordered.{KeepsAll};

    ghost Value = { Typed };

    ghost coded = { Prim.hlevel (codes, types.the_row.coded, expressions.the_row.coded, statements.the_row.coded) };

    ghost view = { λ o. o.typed };

    ghost invariant = { λ o. KeepsAll o.typed };
}

impl Ordered {
    /// A design that keeps all rules.
    pub fn of(typed: TypedDesign) -> Ordered
        requires { KeepsAll typed }
        ensures { result ≡ typed }
    {
        Ordered { typed }
    }

    /// The design.
    pub fn design(&self) -> &Design
        ensures value { result.now ≡ self.now.contents }
        ensures kept { KeepsAll self.now }
    {
        self.typed.design()
    }

    /// The place of main among the modules.
    pub fn main(&self) -> u32
        ensures { result ≡ self.now.main }
    {
        self.typed.main()
    }

    /// The design and the place of main. It takes no memory.
    pub fn parts(self) -> (Design, u32)
        ensures design { result.0 ≡ self.contents }
        ensures main { result.1 ≡ self.main }
        ensures kept { KeepsAll (record { contents = result.0; main = result.1 }) }
    {
        self.typed.parts()
    }
}
