//! A circuit that is being built.

ghost use Rattle.std.specs.Prelude.{◌≡◌, ◌<◌, ◌^◌, ◌+◌, [], ◌&&◌, ◌||◌, not, if◌then◌else◌, IfOk, length};
ghost use Rattle.uc_circuit.specs.Gates.{OperandsBelow, gate_value};
ghost use Rattle.uc_circuit.specs.Literals.{literal_value};
ghost use Rattle.uc_circuit.specs.Signals.{signal_value, differ, Below};
ghost use Rattle.uc_circuit.specs.Building.{Grows, NoGateTwice, IsBuilding, size, nodes_of};
ghost use Rattle.uc_circuit.specs.Meanings.{Means};

use crate::{Circuit, Gate, Lit, Signal};
use indexmap::IndexSet;
use std::alloc::{AllocError, Global};
use std::marker::Model;

/// Inputs, and then gates, of which no two are equal.
#[derive(Drop)]
pub struct Gates {
    inputs: u32,
    gates: IndexSet<Gate>,
}

impl Model for Gates {
    ghost use Rattle.uc_circuit.specs.Building.{Building, IsBuilding};

    ghost Value = { Building };

    ghost view = { λ s. record { inputs = s.inputs; gates = s.gates.keys } };

    ghost invariant = { λ s. IsBuilding (record { inputs = s.inputs; gates = s.gates.keys }) };
}

impl Gates {
    /// So many inputs, and no gate.
    pub fn new(alloc: Global, inputs: u32) -> Gates
        ensures { result ≡ record { inputs = inputs; gates = [] } }
    {
        Gates {
            inputs,
            gates: IndexSet::new(alloc),
        }
    }

    /// How many inputs and gates there are.
    pub fn len(&self) -> u32
        ensures len { result ≡ size self.now }
        ensures shared { NoGateTwice self.now }
    {
        self.inputs + self.gates.len() as u32
    }

    /// The circuit.
    pub fn into_circuit(self, alloc: Global) -> Result<Circuit, AllocError>
        ensures { IfOk result (λ c. c ≡ nodes_of self) }
    {
        self.circuit(alloc)
    }

    /// The inputs, and then the gates.
    fn circuit(&self, alloc: Global) -> Result<Circuit, AllocError>
        ensures { IfOk result (λ c. c ≡ nodes_of self.now) }
    {
        let mut circuit = Circuit::new(alloc)?;
        for _input in 0..self.inputs {
            circuit.add_input()?;
        }
        for gate in self.gates.as_slice() {
            circuit.add_gate(*gate)?;
        }
        Ok(circuit)
    }

    /// The signal of a gate: that of the equal gate where there is one.
    fn add(&mut self, gate: Gate) -> Result<Signal, AllocError>
        requires { OperandsBelow (size self.old) gate }
        ensures grows { Grows self.old self.new }
        ensures ok { IfOk result (Means self.new (λ v. gate_value v gate)) }
    {
        if self.len() == u32::MAX {
            return Err(AllocError);
        }
        let (place, _) = self.gates.insert_full(gate)?;
        Ok(Signal::Of(Lit::positive(self.inputs + place as u32)))
    }

    /// The conjunction.
    pub fn and(&mut self, a: Signal, b: Signal) -> Result<Signal, AllocError>
        requires a { Below (size self.old) a }
        requires b { Below (size self.old) b }
        ensures grows { Grows self.old self.new }
        ensures ok { IfOk result (Means self.new (λ v. signal_value v a && signal_value v b)) }
    {
        match a {
            Signal::Constant(true) => Ok(b),
            Signal::Constant(false) => Ok(a),
            Signal::Of(left) => self.and_literal(left, b),
        }
    }

    /// The conjunction of a literal and a signal.
    fn and_literal(&mut self, left: Lit, b: Signal) -> Result<Signal, AllocError>
        requires left { left.var < size self.old }
        requires b { Below (size self.old) b }
        ensures grows { Grows self.old self.new }
        ensures ok { IfOk result (Means self.new (λ v. literal_value v left && signal_value v b)) }
    {
        match b {
            Signal::Constant(true) => Ok(Signal::Of(left)),
            Signal::Constant(false) => Ok(b),
            Signal::Of(right) => self.and_literals(left, right),
        }
    }

    /// The conjunction of two literals.
    fn and_literals(&mut self, left: Lit, right: Lit) -> Result<Signal, AllocError>
        requires left { left.var < size self.old }
        requires right { right.var < size self.old }
        ensures grows { Grows self.old self.new }
        ensures ok { IfOk result (Means self.new (λ v. literal_value v left && literal_value v right)) }
    {
        if left.var < right.var {
            return self.add(Gate::And(left, right));
        }
        if right.var < left.var {
            return self.add(Gate::And(right, left));
        }
        if left.neg == right.neg {
            Ok(Signal::Of(left))
        } else {
            Ok(Signal::Constant(false))
        }
    }

    /// The disjunction.
    pub fn or(&mut self, a: Signal, b: Signal) -> Result<Signal, AllocError>
        requires a { Below (size self.old) a }
        requires b { Below (size self.old) b }
        ensures grows { Grows self.old self.new }
        ensures ok { IfOk result (Means self.new (λ v. signal_value v a || signal_value v b)) }
    {
        let neither = self.and(a.turn(), b.turn())?;
        Ok(neither.turn())
    }

    /// Whether two signals differ.
    pub fn xor(&mut self, a: Signal, b: Signal) -> Result<Signal, AllocError>
        requires a { Below (size self.old) a }
        requires b { Below (size self.old) b }
        ensures grows { Grows self.old self.new }
        ensures ok { IfOk result (Means self.new (λ v. differ (signal_value v a) (signal_value v b))) }
    {
        match a {
            Signal::Constant(truth) => Ok(b.turn_if(truth)),
            Signal::Of(left) => self.xor_literal(left, b),
        }
    }

    /// Whether a literal and a signal differ.
    fn xor_literal(&mut self, left: Lit, b: Signal) -> Result<Signal, AllocError>
        requires left { left.var < size self.old }
        requires b { Below (size self.old) b }
        ensures grows { Grows self.old self.new }
        ensures ok { IfOk result (Means self.new (λ v. differ (literal_value v left) (signal_value v b))) }
    {
        match b {
            Signal::Constant(truth) => Ok(Signal::Of(left).turn_if(truth)),
            Signal::Of(right) => {
                let variables_differ = self.xor_variables(left.var, right.var)?;
                Ok(variables_differ.turn_if(left.neg != right.neg))
            }
        }
    }

    /// Whether two variables differ.
    fn xor_variables(&mut self, left: u32, right: u32) -> Result<Signal, AllocError>
        requires left { left < size self.old }
        requires right { right < size self.old }
        ensures grows { Grows self.old self.new }
        ensures ok { IfOk result (Means self.new (λ v. differ (v left) (v right))) }
    {
        if left < right {
            return self.add(Gate::Xor(Lit::positive(left), Lit::positive(right)));
        }
        if right < left {
            return self.add(Gate::Xor(Lit::positive(right), Lit::positive(left)));
        }
        Ok(Signal::Constant(false))
    }

    /// The second where the first is true, and else the third.
    pub fn choose(
        &mut self,
        condition: Signal,
        on_true: Signal,
        on_false: Signal,
    ) -> Result<Signal, AllocError>
        requires condition { Below (size self.old) condition }
        requires on_true { Below (size self.old) on_true }
        requires on_false { Below (size self.old) on_false }
        ensures grows { Grows self.old self.new }
        ensures ok { IfOk result (Means self.new (λ v. if signal_value v condition then signal_value v on_true else signal_value v on_false)) }
    {
        match condition {
            Signal::Constant(true) => Ok(on_true),
            Signal::Constant(false) => Ok(on_false),
            Signal::Of(literal) => self.choose_by(literal, on_true, on_false),
        }
    }

    /// The first signal where the literal is true, and else the second.
    fn choose_by(
        &mut self,
        condition: Lit,
        on_true: Signal,
        on_false: Signal,
    ) -> Result<Signal, AllocError>
        requires condition { condition.var < size self.old }
        requires on_true { Below (size self.old) on_true }
        requires on_false { Below (size self.old) on_false }
        ensures grows { Grows self.old self.new }
        ensures ok { IfOk result (Means self.new (λ v. if literal_value v condition then signal_value v on_true else signal_value v on_false)) }
    {
        match on_true {
            Signal::Constant(true) => self.or(Signal::Of(condition), on_false),
            Signal::Constant(false) => self.and(Signal::Of(condition.negate()), on_false),
            Signal::Of(literal) => self.choose_literal(condition, literal, on_false),
        }
    }

    fn choose_literal(
        &mut self,
        condition: Lit,
        on_true: Lit,
        on_false: Signal,
    ) -> Result<Signal, AllocError>
        requires condition { condition.var < size self.old }
        requires on_true { on_true.var < size self.old }
        requires on_false { Below (size self.old) on_false }
        ensures grows { Grows self.old self.new }
        ensures ok { IfOk result (Means self.new (λ v. if literal_value v condition then literal_value v on_true else signal_value v on_false)) }
    {
        match on_false {
            Signal::Constant(true) => self.or(Signal::Of(condition.negate()), Signal::Of(on_true)),
            Signal::Constant(false) => self.and(Signal::Of(condition), Signal::Of(on_true)),
            Signal::Of(literal) => self.choose_literals(condition, on_true, literal),
        }
    }

    fn choose_literals(
        &mut self,
        condition: Lit,
        on_true: Lit,
        on_false: Lit,
    ) -> Result<Signal, AllocError>
        requires condition { condition.var < size self.old }
        requires on_true { on_true.var < size self.old }
        requires on_false { on_false.var < size self.old }
        ensures grows { Grows self.old self.new }
        ensures ok { IfOk result (Means self.new (λ v. if literal_value v condition then literal_value v on_true else literal_value v on_false)) }
    {
        if on_true.var == on_false.var {
            if on_true.neg == on_false.neg {
                return Ok(Signal::Of(on_true));
            }
            return self.xor(Signal::Of(condition), Signal::Of(on_false));
        }
        if condition.neg {
            return self.add(Gate::Mux(condition.negate(), on_false, on_true));
        }
        self.add(Gate::Mux(condition, on_true, on_false))
    }
}
