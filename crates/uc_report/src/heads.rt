//! The head of a line of a report: its command, its moment, and what it judges.

ghost use Rattle.std.specs.Prelude.{◌≡◌, ◌++◌, OnOk, decimal};
ghost use Rattle.std.specs.Option.{option_copied};
ghost use Rattle.uc_report.specs.Described.{described};
ghost use Rattle.uc_report.specs.HeadsTables.{AreHeadTables};
ghost use Rattle.uc_report.specs.HeadsText.{place_text, assertion_text, precondition_text, site_text, moment_text, path_text, clause_text, formula_text, subject_text, body_text, head_text};

use crate::bytes::{put, put_between, put_number};
use crate::design::DesignView;
use crate::heads_tables::HeadTables;
use std::alloc::AllocError;
use uc_meaning::{At, Line, Site, What};
use uc_syntax::{Decl, Place};

/// Puts a line's command, moment and subject.
#[tactic(auto, unfolding(crate::specs::HeadsText::head_text))]
pub fn put_head(
    out: &mut Vec<u8>,
    d: &DesignView<'_>,
    tables: &HeadTables<'_>,
    line: &Line,
) -> Result<(), AllocError>
    requires { AreHeadTables (described d.now) tables.now }
    ensures { OnOk result (out.new.items ≡ out.old.items ++ head_text (described d.now) line.now) }
{
    put(out, tables.command(d, line.command))?;
    put_moment(out, d, line.at)?;
    put_subject(out, d, tables, line)?;
    Ok(())
}

/// Puts the moment of a line, in brackets.
#[tactic(auto, unfolding(crate::specs::HeadsText::moment_text))]
fn put_moment(out: &mut Vec<u8>, d: &DesignView<'_>, moment: At) -> Result<(), AllocError>
    ensures { OnOk result (out.new.items ≡ out.old.items ++ moment_text (described d.now) moment) }
{
    match moment {
        At::Exactly(j) => put_between(out, b" [step ", u64::from(j), b"] "),
        At::Base(j) => put_between(out, b" [base ", u64::from(j), b"] "),
        At::Step(_) => put(out, b" [step] "),
        At::Body(procedure) => {
            put(out, b" [")?;
            put(out, d.procedure_name(procedure))?;
            put(out, b"] ")?;
            Ok(())
        }
    }
}

/// Puts the kind and the name of what a line judges.
#[tactic(auto, unfolding(crate::specs::HeadsText::subject_text))]
fn put_subject(
    out: &mut Vec<u8>,
    d: &DesignView<'_>,
    tables: &HeadTables<'_>,
    line: &Line,
) -> Result<(), AllocError>
    requires { AreHeadTables (described d.now) tables.now }
    ensures { OnOk result (out.new.items ≡ out.old.items ++ subject_text (described d.now) line.now.at line.now.what) }
{
    match &line.what {
        What::Formula { path, decl } => {
            let path = path.as_slice();
            put_formula(out, d, path, d.decl_at(path, *decl))
        }
        What::AtSite(site) => put_site(out, d, tables, site),
        What::Ensures(n) => {
            put(out, b"postcondition ")?;
            put_clause(out, body_name(d, line.at), *n)?;
            Ok(())
        }
    }
}

/// Puts a formula by its kind, its path and its name.
#[tactic(auto, unfolding(crate::specs::HeadsText::formula_text))]
fn put_formula(
    out: &mut Vec<u8>,
    d: &DesignView<'_>,
    path: &[u32],
    formula: Option<&Decl>,
) -> Result<(), AllocError>
    ensures { OnOk result (out.new.items ≡ out.old.items ++ formula_text (described d.now) path.now (option_copied formula.entry)) }
{
    match formula {
        Some(Decl::Invariant(_, name, _)) => {
            put(out, b"invariant ")?;
            put_path(out, d, path)?;
            put(out, d.name(name.name))?;
            Ok(())
        }
        Some(Decl::Hyperinvariant(_, _, name, _)) => {
            put(out, b"hyperinvariant ")?;
            put_path(out, d, path)?;
            put(out, d.name(name.name))?;
            Ok(())
        }
        _ => Ok(()),
    }
}

/// Puts each instance of a path with a dot.
pub fn put_path(out: &mut Vec<u8>, d: &DesignView<'_>, path: &[u32]) -> Result<(), AllocError>
    ensures { OnOk result (out.new.items ≡ out.old.items ++ path_text (described d.now) path.now) }
{
    for name in path {
        put(out, d.name(*name))?;
        put(out, b".")?;
    }
    Ok(())
}

/// Puts a clause of a procedure by its number.
fn put_clause(out: &mut Vec<u8>, procedure: &[u8], n: u32) -> Result<(), AllocError>
    ensures { OnOk result (out.new.items ≡ out.old.items ++ clause_text procedure.now n) }
{
    put(out, procedure)?;
    put(out, b"#")?;
    put_number(out, u64::from(n))?;
    Ok(())
}

fn body_name<'a>(d: &DesignView<'a>, moment: At) -> &'a [u8]
    ensures { result.now ≡ body_text (described d.now) moment }
{
    match moment {
        At::Body(procedure) => d.procedure_name(procedure),
        _ => &[],
    }
}

/// Puts an assertion or a precondition of a call.
#[tactic(auto, unfolding(crate::specs::HeadsText::site_text))]
fn put_site(
    out: &mut Vec<u8>,
    d: &DesignView<'_>,
    tables: &HeadTables<'_>,
    site: &Site,
) -> Result<(), AllocError>
    requires { AreHeadTables (described d.now) tables.now }
    ensures { OnOk result (out.new.items ≡ out.old.items ++ site_text (described d.now) site.now) }
{
    let name = tables.name_at(d, site.place);
    if site.requires_ == 0 {
        put_assertion(out, d, site, name)
    } else {
        put_precondition(out, d, site, name)
    }
}

#[tactic(auto, unfolding(crate::specs::HeadsText::assertion_text))]
fn put_assertion(
    out: &mut Vec<u8>,
    d: &DesignView<'_>,
    site: &Site,
    label: Option<u32>,
) -> Result<(), AllocError>
    ensures { OnOk result (out.new.items ≡ out.old.items ++ assertion_text (described d.now) site.now label) }
{
    put(out, b"assertion ")?;
    put_path(out, d, site.path.as_slice())?;
    match label {
        Some(label) => put(out, d.name(label)),
        None => put_place(out, d, site.place),
    }
}

#[tactic(auto, unfolding(crate::specs::HeadsText::precondition_text))]
fn put_precondition(
    out: &mut Vec<u8>,
    d: &DesignView<'_>,
    site: &Site,
    procedure: Option<u32>,
) -> Result<(), AllocError>
    ensures { OnOk result (out.new.items ≡ out.old.items ++ precondition_text (described d.now) site.now procedure) }
{
    put(out, b"precondition ")?;
    put_path(out, d, site.path.as_slice())?;
    put_clause(out, d.name_or_none(procedure), site.requires_)?;
    put(out, b" at ")?;
    put_place(out, d, site.place)?;
    Ok(())
}

/// Puts a place as FILE:LINE:COLUMN.
#[tactic(auto, unfolding(crate::specs::HeadsText::place_text))]
fn put_place(out: &mut Vec<u8>, d: &DesignView<'_>, place: Place) -> Result<(), AllocError>
    ensures { OnOk result (out.new.items ≡ out.old.items ++ place_text (described d.now) place) }
{
    put(out, d.file(place.file))?;
    put_between(out, b":", u64::from(place.line), b":")?;
    put_number(out, u64::from(place.col))?;
    Ok(())
}
