ghost use Rattle.uc_print_laws.specs.PrintedLaw.{TypesAreSpelled, ExpressionsAreSpelled, StatementsAreSpelled, ModulesAreSpelled, PrintedIsReadBack};

/// A law of the definitions: the printed words of a type spell it, places aside.
pub fn types_are_spelled()
    ensures { TypesAreSpelled }
{}

/// A law of the definitions: the printed words of an expression spell it, places aside.
pub fn expressions_are_spelled()
    ensures { ExpressionsAreSpelled }
{}

/// A law of the definitions: the printed words of a statement spell it, places aside.
pub fn statements_are_spelled()
    ensures { StatementsAreSpelled }
{}

/// A law of the definitions: the printed words of modules spell them, places aside.
pub fn modules_are_spelled()
    ensures { ModulesAreSpelled }
{}

/// A law of the definitions: what is read of the printed words of modules is these modules, places aside.
pub fn printed_is_read_back()
    ensures { PrintedIsReadBack }
{
    uc_grammar::spells_one_list();
}
