//! Trees mention only what the words that spell them have.
//!
//! A design asks that each name of its modules is one of its names, and that the file of each place is one of its files. What
//! reads a text knows this of the words, and that the words spell the modules. The law of this crate says that it then holds
//! of the modules. `proofs/Laws.antt` has the laws as lemmas, with what a reader needs of words that come one by one.

ghost use Rattle.uc_words.specs.Law.{MentionsAreOfWords, MentionsLaw, GreaterBounds, JoinedModules};

/// Modules mention only what the words mention that spell them.
#[tactic(auto, using(crate::proofs::Texts::mentions_are_of_words))]
pub fn mentions_are_of_words()
    ensures { MentionsAreOfWords }
{}

/// Modules are below two numbers where the words that spell them are.
#[tactic(auto, using(crate::proofs::Laws::mentions_law))]
pub fn mentions_law()
    ensures { MentionsLaw }
{}

/// What is below two numbers is below greater ones.
pub fn greater_bounds()
    ensures { GreaterBounds }
{}

/// Modules that are joined mention what both mention.
pub fn joined_modules()
    ensures { JoinedModules }
{}
