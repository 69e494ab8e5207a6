//! What the heads of lines look up beside the design.

ghost use Rattle.std.specs.Prelude.{◌≡◌, ◌++◌, OnOk, IfOk, map};
ghost use Rattle.uc_meaning.specs.Lookup.{same_place};
ghost use Rattle.uc_meaning.specs.Lines.{commands_of};
ghost use Rattle.uc_report.specs.Described.{described};
ghost use Rattle.uc_report.specs.Named.{name_in};
ghost use Rattle.uc_report.specs.HeadsText.{command_text, command_at, name_at};

use crate::design::DesignView;
use crate::named::{Named, named_places};
use std::alloc::{AllocError, Global};
use uc_items::at;
use uc_syntax::{Command, Decl, Place, WrittenRun};

/// The texts of main's commands by their numbers, and the names that stand at places of code.
#[derive(Drop)]
pub struct HeadTables<'a> {
    pub words: Vec<&'a [u8]>,
    pub named: Vec<Named>,
}

impl<'a> HeadTables<'a> {
    ghost use Rattle.uc_report.specs.HeadsTables.{AreHeadTables};

    pub fn of(alloc: Global, d: &DesignView<'a>) -> Result<HeadTables<'a>, AllocError>
        ensures { IfOk result (λ tables. AreHeadTables (described d.now) tables) }
    {
        let words = command_words(alloc, d)?;
        let named = named_places(alloc, d)?;
        Ok(HeadTables { words, named })
    }

    /// The text of the command of a number, none where it is not there.
    pub fn command(&self, d: &DesignView<'_>, command: u32) -> &'a [u8]
        requires { AreHeadTables (described d.now) self.now }
        ensures { result.now ≡ command_at (described d.now) command }
    {
        let _ = d;
        match at(self.words.as_slice(), command as usize) {
            Some(word) => word,
            None => &[],
        }
    }

    /// The name that stands at a place.
    #[tactic(auto, unfolding(crate::specs::HeadsText::name_at))]
    pub fn name_at(&self, d: &DesignView<'_>, place: Place) -> Option<u32>
        requires { AreHeadTables (described d.now) self.now }
        ensures { result ≡ name_at (described d.now) place }
    {
        let _ = d;
        find_name(self.named.as_slice(), place)
    }
}

fn find_name(named: &[Named], place: Place) -> Option<u32>
    ensures { result ≡ name_in named.now place }
{
    for (stands, name) in named {
        if same_place(*stands, place) {
            return Some(*name);
        }
    }
    None
}

fn same_place(a: Place, b: Place) -> bool
    ensures { result ≡ same_place a b }
{
    a.file == b.file && a.line == b.line && a.col == b.col
}

fn command_words<'a>(alloc: Global, d: &DesignView<'a>) -> Result<Vec<&'a [u8]>, AllocError>
    ensures { IfOk result (λ words. map (λ w. w.now) words.items ≡ map (command_text (described d.now)) (commands_of (described d.now))) }
{
    let mut words = Vec::new(alloc);
    for decl in d.main_declarations() {
        if let Decl::Control(_, commands) = decl {
            add_words(&mut words, d, commands.as_slice())?;
        }
    }
    Ok(words)
}

fn add_words<'a>(
    words: &mut Vec<&'a [u8]>,
    d: &DesignView<'a>,
    commands: &[Command],
) -> Result<(), AllocError>
    ensures { OnOk result (map (λ w. w.now) words.new.items ≡ map (λ w. w.now) words.old.items ++ map (command_text (described d.now)) commands.now) }
{
    for command in commands {
        words.push(command_word(d, command))?;
    }
    Ok(())
}

/// A command by its name, or by its word where it has none.
fn command_word<'a>(d: &DesignView<'a>, command: &Command) -> &'a [u8]
    ensures { result.now ≡ command_text (described d.now) command.now }
{
    match command {
        Command::Run(_, Some(name), _) => d.name(name.name),
        Command::Run(_, None, WrittenRun::Unroll(_)) => b"unroll",
        Command::Run(_, None, WrittenRun::Induction(_)) => b"induction",
        Command::Run(_, None, WrittenRun::Verify(_)) => b"verify",
        _ => &[],
    }
}
