//! Laws on ways through defines, aliases and instances: how far they are followed.

ghost use Rattle.uc_declared_types.specs.AliasLaw.{AliasesAreRead};
ghost use Rattle.uc_declared_types.specs.CycleLaws.{AliasWaysAreFollowed, InstanceWaysAreFollowed};
ghost use Rattle.uc_declared_types.specs.WayLaws.{CallsAreDeclared, DefinesAreFollowed};

/// A law of the definitions: an alias that a design declares stands for what its written type stands for, whose own aliases are read to
/// the end. So the bound on how many aliases are read is never felt.
#[tactic(auto, using(crate::proofs::Stable::aliases_are_read))]
pub fn aliases_are_read()
    ensures { AliasesAreRead }
{}

/// A law of the definitions: what a name is where arguments follow is what the first declaration of a function or a define of that name
/// says.
#[tactic(auto, using(crate::proofs::Calls::calls_are_declared))]
pub fn calls_are_declared()
    ensures { CallsAreDeclared }
{}

/// A law of the definitions: a define reads state exactly where its body does, whose own defines are followed to the end. So the bound on
/// how many defines are followed is never felt.
#[tactic(auto, using(crate::proofs::Followed::defines_are_followed))]
pub fn defines_are_followed()
    ensures { DefinesAreFollowed }
{}

/// A law of the definitions: what some way through aliases leads to, one leads to of no more steps than the design has declarations.
#[tactic(auto, using(crate::proofs::WayLawsAliases::alias_ways_are_followed))]
pub fn alias_ways_are_followed()
    ensures { AliasWaysAreFollowed }
{}

/// A law of the definitions: what some way through instances leads to, one leads to of no more steps than the design has modules.
#[tactic(auto, using(crate::proofs::Instances::instance_ways_are_followed))]
pub fn instance_ways_are_followed()
    ensures { InstanceWaysAreFollowed }
{}
