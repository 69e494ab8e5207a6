//! Laws of known goals, and of designs without constants.

ghost use Rattle.std.specs.Prelude.{◌≡◌, ℕ, List, []};
ghost use Rattle.uc_values.specs.declared.ty.Ty.{Ty as AType};
ghost use Rattle.uc_ops.specs.declared.op.Op.TheVariants.{App};
ghost use Rattle.uc_ops.specs.declared.node.Node.{Node as ANode};
ghost use Rattle.uc_terms.specs.Tables.{HasOp};
ghost use Rattle.uc_terms.specs.Subterms.{IsSubterm, EvenlyTyped};
ghost use Rattle.uc_flat.specs.declared.flat.Flat.{Flat};
ghost use Rattle.uc_flat.specs.Flats.{IsSound};
ghost use Rattle.uc_symstep.specs.Known.{IsKnown, ReadsOwnTypes};

/// A sound design without constants reads every constant at its own type.
pub fn reads_own_types()
    ensures { (f : Flat) → IsSound f → f.constants ≡ [] → ReadsOwnTypes f }
{}

/// A known term in which no function is applied is evenly typed.
pub fn is_even_where_known()
    ensures { (supply : List AType) (nodes : List ANode) (t : ℕ) → IsKnown supply nodes t → ((k number : ℕ) (ty : AType) → IsSubterm nodes t k → ¬ HasOp nodes k (App number ty)) → EvenlyTyped nodes t }
{}
