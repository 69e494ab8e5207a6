//! Goals through the passes of the solver, one line each.
//!
//! First each operation is blasted, and its circuit compared with the value of the term under every model of its symbols: a line for an
//! operation and a width. Then terms are tested, lowered and blasted: how many inputs their problem has and how many of their values make
//! the goal true, and under how many models the goal has the value of the term. Last goals are solved: a model of the goal, or that none
//! makes it true, or that the budget was spent.
#![tactic(auto)]

mod agreeing;
mod building;
mod comparing;
mod evaluating;
mod goals;
mod low_terms;
mod operations;
mod passing;
mod refused;
mod rows;
mod solving;
mod table;

use crate::goals::{square_is_three, third, turned_product};
use crate::refused::{function, integers, two_types};
use crate::rows::{any_record, fourth_where_low, negative_number, never_below_zero};
use crate::table::whole_table;
use std::test::Fail;

fn main(rt: HostRuntime) -> Result<(), Fail> {
    let table = whole_table(rt.alloc())?;
    print!(rt; "{}", table.text)?;
    print_lowered(&rt)?;
    print_solved(&rt)
}

fn print_lowered(rt: &HostRuntime) -> Result<(), Fail> {
    let alloc = rt.alloc();
    println!(rt; "Ult(s, 0bv2): {}", never_below_zero(alloc)?)?;
    println!(rt; "Slt(15bv4, 0bv4): {}", negative_number(alloc)?)?;
    println!(rt; "r == r: {}", any_record(alloc)?)?;
    println!(rt;
        "(r.label == 3) == (r.bits < 2): {}",
        fourth_where_low(alloc)?
    )?;
    println!(rt; "x <= x of integers: {}", integers(alloc)?)?;
    println!(rt; "f(s): {}", function(alloc)?)?;
    println!(rt; "s0 == (s0 == s0) of two types: {}", two_types(alloc)?)?;
    Ok(())
}

fn print_solved(rt: &HostRuntime) -> Result<(), Fail> {
    let alloc = rt.alloc();
    println!(rt; "x == 3bv4, budget 16: {}", third(alloc)?)?;
    println!(rt;
        "x * y != y * x on bv3, budget 64: {}",
        turned_product(alloc)?
    )?;
    println!(rt; "x * x == 3bv8, budget 256: {}", square_is_three(alloc)?)?;
    Ok(())
}
