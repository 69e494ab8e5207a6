//! What was counted so far.

ghost use Rattle.std.specs.Prelude.{◌≡◌, ◌<◌, ◌≤◌};
ghost use Rattle.uc_order_rules.specs.Sizes.{Size, plus, size, times};
ghost use Rattle.uc_sizes.specs.Spending.{Spends, size_in};

use std::alloc::AllocError;

/// The most statements that a design may expand to.
const MOST_STATEMENTS: u128 = 1_000_000;

/// The most nodes of expressions that a design may expand to.
const MOST_NODES: u128 = 4_000_000;

/// Why counting ended.
#[derive(Clone, Copy, Debug, PartialEq, Eq)]
pub enum Halt {
    /// A limit was passed.
    TooLarge,
    NoMemory,
}

impl From<AllocError> for Halt {
    ghost use Rattle.std.specs.Prelude.{◌≡◌};
    ghost use Rattle.uc_sizes.specs.declared.spent.Halt.TheVariants.{NoMemory};

    ghost from_gives = { λ _ halt. halt ≡ NoMemory };

    fn from(_: AllocError) -> Halt {
        Halt::NoMemory
    }
}

/// How many statements and nodes were counted.
#[derive(Clone, Copy)]
pub struct Spent {
    pub statements: u64,
    pub nodes: u64,
}

impl Spent {
    /// Nothing yet.
    pub fn new() -> Spent
        ensures { size_in result ≡ size 0 0 }
    {
        Spent {
            statements: 0,
            nodes: 0,
        }
    }

    /// Counts so many statements and nodes.
    pub fn spend(&mut self, statements: u128, nodes: u128) -> Result<(), Halt>
        ensures { Spends (size_in self.old) (size_in self.new) result (size statements nodes) }
    {
        let statements = u128::from(self.statements).saturating_add(statements);
        let nodes = u128::from(self.nodes).saturating_add(nodes);
        if MOST_STATEMENTS < statements || MOST_NODES < nodes {
            return Err(Halt::TooLarge);
        }
        self.statements = statements as u64;
        self.nodes = nodes as u64;
        Ok(())
    }
}

/// Counts what was counted since `before` again, until it is there so many times.
pub fn repeat(more: u64, before: Spent, spent: &mut Spent) -> Result<(), Halt>
    ensures { (part : Size) → size_in spent.old ≡ plus (size_in before) part → Spends (size_in spent.old) (size_in spent.new) result (times more part) }
{
    let statements = u128::from(spent.statements.saturating_sub(before.statements));
    let nodes = u128::from(spent.nodes.saturating_sub(before.nodes));
    let more = u128::from(more);
    spent.spend(more.saturating_mul(statements), more.saturating_mul(nodes))
}
