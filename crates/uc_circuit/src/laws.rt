//! The law of propagation.

ghost use Rattle.uc_circuit.specs.Propagation.{EndsWithAll, EvaluatesAll, InputsReachAll};

/// Values of all inputs fix every gate by unit propagation over its clauses.
/// The function does nothing: the law is its contract.
pub fn propagation_fixes_gates()
    ensures values { EvaluatesAll }
    ensures reached { InputsReachAll }
    ensures ends { EndsWithAll }
{}
