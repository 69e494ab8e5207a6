//! The law that joins lowering with blasting.

ghost use Rattle.std.specs.Prelude.{List, ℕ};
ghost use Rattle.uc_ops.specs.declared.node.Node.{Node};
ghost use Rattle.uc_lower.specs.Lowering.{IsLoweredTerm};
ghost use Rattle.uc_blast.specs.Blasting.{IsBlastable};

/// What lowering answers can be blasted: it is a boolean all of whose subterms are booleans and bit-vectors.
pub fn lowered_is_blastable()
    ensures { (nodes : List Node) (u : ℕ) → IsLoweredTerm nodes u → IsBlastable nodes u }
{}
