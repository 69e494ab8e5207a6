//! A design with the numbers of what it declares.

ghost use Rattle.std.specs.Prelude.{◌≡◌, ◌&&◌, nat_eq, unwrap_or, [], map, length, slice_index_or, IfOk};
ghost use Rattle.uc_meaning.specs.Expressions.{label_count};
ghost use Rattle.std.specs.List.{position_from};
ghost use Rattle.uc_syntax.specs.WrittenTypes.{labels_of};
ghost use Rattle.uc_meaning.specs.Lookup.{system_of, same_place};
ghost use Rattle.uc_meaning.specs.Types.{enum_number, opaque_number};
ghost use Rattle.uc_lookup.specs.Parts.{system_in};
ghost use Rattle.uc_type_reader.specs.Places.{declaration_count};

use crate::mentioned::WrittenEnum;
use crate::places::lists_of;
use std::alloc::{AllocError, Global};
use std::marker::Model;
use uc_items::{Items, at};
use uc_lookup::SystemRef;
use uc_syntax::{Design, Place};

/// A design with the number of its main module, and with lists of its enums and of its types without a definition.
#[derive(Drop)]
pub struct Tables {
    design: Design,
    main: u32,
    enums: Items<WrittenEnum>,
    opaques: Items<(u32, u32)>,
    declarations: usize,
}

impl Model for Tables {
    ghost use Rattle.uc_meaning.specs.Lookup.{System};
    ghost use Rattle.uc_type_reader.specs.Places.{AreListed};
    ghost use Rattle.std.specs.Coded.{codes};
    ghost use Rattle.uc_syntax.specs.contracts.type_expression.TypeExpr as types;
    ghost use Rattle.uc_syntax.specs.contracts.expression.Expr as expressions;
    ghost use Rattle.uc_syntax.specs.contracts.statement.Stmt as statements;

    ghost Value = { System };

    ghost coded = { Prim.hlevel (codes, types.the_row.coded, expressions.the_row.coded, statements.the_row.coded) };

    ghost view = { λ t. record { names = t.design.names; files = t.design.files; modules = t.design.modules; main = t.main } };

    ghost invariant = { λ t. AreListed (record { names = t.design.names; files = t.design.files; modules = t.design.modules; main = t.main }) t.enums t.opaques t.declarations };
}

impl Tables {
    /// The tables of a design with the number of its main module.
    pub fn of(alloc: Global, design: Design, main: u32) -> Result<Tables, AllocError>
        ensures { IfOk result (λ t. t ≡ system_of design main) }
    {
        let lists = lists_of(alloc, design.modules().as_slice())?;
        Ok(Tables {
            design,
            main,
            enums: lists.enums,
            opaques: lists.opaques,
            declarations: lists.declarations,
        })
    }

    /// The design by reference.
    pub fn system(&self) -> SystemRef<'_>
        ensures { system_in result ≡ self.now }
    {
        SystemRef::of(&self.design, self.main)
    }

    /// The numbers of the labels of each enum.
    pub fn labels(&self) -> &[Items<u32>]
        ensures { result.now ≡ labels_of self.now.modules }
    {
        self.design.enums().as_slice()
    }

    /// How many declarations the modules have together.
    pub fn declarations(&self) -> usize
        ensures { result ≡ declaration_count self.now.modules }
    {
        self.declarations
    }

    /// The number of the enum that is written at a place, and 0 for another place.
    pub fn enum_number(&self, place: Place) -> usize
        ensures { result ≡ enum_number self.now place }
    {
        number_of_place(self.enums.as_slice(), place)
    }

    /// How many labels an enum has, and 0 where there is none of the number.
    pub fn label_count(&self, number: u32) -> usize
        ensures { result ≡ label_count self.now number }
    {
        count_at(self.enums.as_slice(), number as usize)
    }

    /// The number of a type without a definition, and 0 for another name.
    pub fn opaque_number(&self, code: u32, name: u32) -> usize
        ensures { result ≡ opaque_number self.now code name }
    {
        number_of_type(self.opaques.as_slice(), code, name)
    }
}

fn number_of_place(enums: &[WrittenEnum], place: Place) -> usize
    ensures { result ≡ unwrap_or (position_from (λ w. same_place place w.place) 0 enums.now) 0 }
{
    for (number, written) in enums.iter().enumerate() {
        if same_place(place, &written.place) {
            return number;
        }
    }
    0
}

#[tactic(auto, using(crate::proofs::Listed::no_labels, crate::proofs::Listed::some_labels))]
fn count_at(enums: &[WrittenEnum], number: usize) -> usize
    ensures { result ≡ length (slice_index_or (map (λ w. w.labels) enums.now) number []) }
{
    match at(enums, number) {
        Some(written) => written.labels.len(),
        None => 0,
    }
}

fn same_place(left: Place, right: &Place) -> bool
    ensures { result ≡ same_place left right.now }
{
    left.file == right.file && left.line == right.line && left.col == right.col
}

fn number_of_type(types: &[(u32, u32)], code: u32, name: u32) -> usize
    ensures { result ≡ unwrap_or (position_from (λ p. nat_eq p.0 code && nat_eq p.1 name) 0 types.now) 0 }
{
    for (number, other) in types.iter().enumerate() {
        if is_type(other, code, name) {
            return number;
        }
    }
    0
}

fn is_type(declared: &(u32, u32), code: u32, name: u32) -> bool
    ensures { result ≡ (nat_eq declared.now.0 code && nat_eq declared.now.1 name) }
{
    declared.0 == code && declared.1 == name
}
