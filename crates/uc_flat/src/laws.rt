//! Laws of code over free values, and of ordered statements.

ghost use Rattle.uc_flat.specs.Laws.{ExtendsLaw, KeepsLaw, CountsLaw, ConstantsLaw, RunsLaw, FindsLaw, OrderAllowsLaw, AllowsOrderLaw};
ghost use Rattle.uc_flat.specs.Executions.{InitialLaw, InitialFoundLaw, StepLaw, StepFoundLaw};

/// What code does on free values of its own, it does on them behind those that were read before.
pub fn extends()
    ensures { ExtendsLaw }
{}

/// What code did on the free values that it reads stays when more are added behind them.
pub fn keeps()
    ensures { KeepsLaw }
{}

/// How many free values code reads is a number of the code alone.
pub fn counts_values()
    ensures { CountsLaw }
{}

/// Code does the same under models that agree on its constants and on the functions.
pub fn reads_constants()
    ensures { ConstantsLaw }
{}

/// Where all assumptions hold on free values, code runs on the choices that it lists, to the same cells, and lists the same sites.
pub fn code_runs()
    ensures { RunsLaw }
{}

/// Where code runs on choices, there are as many free values as it reads on which it goes the same way.
pub fn code_runs_on()
    ensures { FindsLaw }
{}

/// What ordered statements give in order, they allow as a constraint.
pub fn order_allows()
    ensures { OrderAllowsLaw }
{}

/// What ordered statements allow as a constraint, they give in order where the free values are those of the new cells.
pub fn allows_order()
    ensures { AllowsOrderLaw }
{}

/// Where all assumptions hold, what init code leaves on free values is an initial state, with the choices and the sites that it lists.
pub fn initial_states()
    ensures { InitialLaw }
{}

/// Each initial state is what init code leaves on some free values, behind the symbols before them.
pub fn initial_states_found()
    ensures { InitialFoundLaw }
{}

/// Where all assumptions hold, what a step's code leaves on free values is a step, with the choices and the sites that it lists.
pub fn steps()
    ensures { StepLaw }
{}

/// Each step is what a step's code leaves on some free values, behind the symbols that were read before.
pub fn steps_found()
    ensures { StepFoundLaw }
{}
