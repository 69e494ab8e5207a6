//! The productions of the language as a grammar usually writes them, and the law that the grammar spells the same.
//!
//! The grammar of `uc_grammar` is read with one word of lookahead (two at a label and at `[high:low]`). So where two
//! ways to write a production begin alike, it has their common start once: it is factored. `specs/Written.antt` has
//! each such production with no common start taken out, and each function here states the law for one of them, as
//! `SpellTheSame` (`specs/Same.antt`): at every level, the one form spells a value by some words exactly where the other
//! does, each word lies in as many nested forms, and the same names are declared in the same order. The proofs
//! hold for every language of nested forms, so they do not depend on what stands in brackets.
//!
//! | production | as it is written | as it is factored |
//! |---|---|---|
//! | type | `Id \| Id "." Id` | `Id ["." Id]` |
//! | declaration of a type | `"type" Id ";" \| "type" Id "=" Type ";" \| "type" "*" "=" Id "." "*" ";"` | `"type" (Id (";" \| "=" Type ";") \| "*" "=" Id "." "*" ";")` |
//! | primary | `Id ["'"] \| Id "(" [Exprs] ")"` | `Id ["'" \| "(" [Exprs] ")"]` |
//! | selection | `"." Id \| "." Num` | `"." (Id \| Num)` |
//! | selection in brackets | `"[" Expr "]" \| "[" Expr "->" Expr "]" \| "[" Num ":" Num "]"` | `"["`, then by the second word `Num ":" Num "]"`, or `Expr ("]" \| "->" Expr "]")` |
//! | `if` expression | `"if" Expr "then" Expr "else" Expr`, where an `if` behind `else` lies no deeper | `Branch { Branch } Iff` with `Branch = "if" Expr "then" Expr "else"` |
//! | lists in parentheses: arguments, parameters, bindings, targets of a call, paths | `"(" [Xs] ")"` | `"(" (")" \| Xs ")")` |
//! | depth of an induction | `"(" [Num] ")"` | `"(" (")" \| Num ")")` |
//! | blocks, control blocks, modules | `"{" { X } "}"` | `"{"`, then an X as long as no `"}"` comes |
//! | `if` statement | `"if" Expr Block { "else" "if" Expr Block } ["else" Block]` | `"if" Expr Block`, then a chain of `"else" ("if" Expr Block \| Block)` that ends with a Block |
//! | `case` statement | `"case" { Expr ":" Block } ["default" ":" Block] "esac"` | `"case"`, then an arm as long as neither `default` nor `esac` comes, then `("default" ":" Block "esac" \| "esac")` |
//! | labels of assertions and axioms | `[Id ":"] Expr ";"` | by the second word `Id ":" Expr ";"`, or `Expr ";"` |
//! | command | `[Id "="] Run ";" \| "check" ";" \| "print_results" ";" \| [Id "."] "print_cex" ["(" [Paths] ")"] ";"` | by the first name, which may be the word of a command: `"=" Run ";"`, `"." "print_cex" ..`, or what that word itself begins |
//!
//! All other productions stand in `uc_grammar` as they are written. The sign of `["-"] Num` is a nested form there, since
//! a number behind a sign lies one level deeper.

ghost use Rattle.uc_grammar.specs.Same.{SpellTheSame};
ghost use Rattle.uc_grammar.specs.Written.{arms, written_arguments, written_arms, written_binds, written_block, written_brackets, written_call_targets, written_case_statement, written_command, written_control_braces, written_declaration, written_if, written_if_statement, written_maybe_number, written_module_braces, written_params, written_paths, written_primary, written_selection, written_statement, written_ty, written_type_declaration};
ghost use Rattle.uc_grammar.specs.Syntax.{arguments, binds, block, brackets, call_targets, case_statement, command, control_braces, declaration, if_expression, if_statement, maybe_number, module_braces, params, paths, primary, rule, selection, statement, ty, type_declaration};

/// Types.
#[tactic(auto, using(crate::proofs::Types::same_ty))]
pub fn types_are_as_written()
    ensures { SpellTheSame written_ty ty }
{}

/// Declarations of types.
#[tactic(auto, using(crate::proofs::Types::same_type_declaration))]
pub fn type_declarations_are_as_written()
    ensures { SpellTheSame written_type_declaration type_declaration }
{}

/// Primaries.
#[tactic(auto, using(crate::proofs::Expressions::same_primary))]
pub fn primaries_are_as_written()
    ensures { SpellTheSame written_primary primary }
{}

/// Selections, and those in brackets.
#[tactic(auto, using(crate::proofs::Expressions::same_selection, crate::proofs::Expressions::same_brackets))]
pub fn selections_are_as_written()
    ensures selections { SpellTheSame written_selection selection }
    ensures brackets { SpellTheSame written_brackets (rule brackets) }
{}

/// `if` expressions: behind `else` stands an `if` of the same depth, whose arms go on with those before it, or what is no `if`. All
/// arms are of one node.
#[tactic(auto, using(crate::proofs::Expressions::same_arms, crate::proofs::Expressions::same_if))]
pub fn if_expressions_are_as_written()
    ensures arms { SpellTheSame (written_arms arms) arms }
    ensures node { SpellTheSame written_if (rule if_expression) }
{}

/// Lists in parentheses, where maybe nothing stands between these.
#[tactic(auto, using(crate::proofs::Lists::same_arguments, crate::proofs::Lists::same_params, crate::proofs::Lists::same_binds, crate::proofs::Lists::same_call_targets, crate::proofs::Lists::same_paths, crate::proofs::Lists::same_maybe_number))]
pub fn lists_are_as_written()
    ensures arguments { SpellTheSame written_arguments (rule arguments) }
    ensures params { SpellTheSame written_params (rule params) }
    ensures binds { SpellTheSame written_binds (rule binds) }
    ensures call_targets { SpellTheSame written_call_targets (rule call_targets) }
    ensures paths { SpellTheSame written_paths (rule paths) }
    ensures number { SpellTheSame written_maybe_number (rule maybe_number) }
{}

/// Blocks, control blocks and the declarations of a module.
#[tactic(auto, using(crate::proofs::Lists::same_block, crate::proofs::Lists::same_control_braces, crate::proofs::Lists::same_module_braces))]
pub fn braces_are_as_written()
    ensures block { SpellTheSame written_block (rule block) }
    ensures control { SpellTheSame written_control_braces (rule control_braces) }
    ensures module_ { SpellTheSame written_module_braces (rule module_braces) }
{}

/// Statements, among them `if` and `case`, and the labels of assertions.
#[tactic(auto, using(crate::proofs::Statements::same_if_statement, crate::proofs::Statements::same_case_statement, crate::proofs::Statements::same_statement))]
pub fn statements_are_as_written()
    ensures ifs { SpellTheSame written_if_statement if_statement }
    ensures cases { SpellTheSame written_case_statement case_statement }
    ensures statements { SpellTheSame written_statement statement }
{}

/// Declarations, among them the labels of axioms.
#[tactic(auto, using(crate::proofs::Declarations::same_declaration))]
pub fn declarations_are_as_written()
    ensures { SpellTheSame written_declaration declaration }
{}

/// Commands of a control block.
#[tactic(auto, using(crate::proofs::Commands::same_command))]
pub fn commands_are_as_written()
    ensures { SpellTheSame written_command command }
{}
