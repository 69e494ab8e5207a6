//! Parts that lie in one another.

ghost use Rattle.std.specs.Prelude.{◌≡◌, ◌≤◌, length, nat_eq, take};
ghost use Rattle.std.specs.Cmp.Lexicographic.{pointwise};
ghost use Rattle.uc_meaning.specs.Steps.{is_prefix};
ghost use Rattle.uc_order_rules.specs.Writes.{overlap};

/// Whether one of two parts lies in the other.
pub fn overlaps(part: &[u32], other: &[u32]) -> bool
    ensures { result ≡ overlap part.now other.now }
{
    is_front(part, other) || is_front(other, part)
}

/// Whether a path is the front of another one.
#[tactic(auto, using(uc_written_once::proofs::Overlaps::front_long, uc_written_once::proofs::Overlaps::front_same))]
fn is_front(front: &[u32], path: &[u32]) -> bool
    ensures { result ≡ is_prefix front.now path.now }
{
    if front.len() > path.len() {
        return false;
    }
    is_same(front, front_of(path, front.len()))
}

fn is_same(path: &[u32], other: &[u32]) -> bool
    ensures { result ≡ pointwise nat_eq path.now other.now }
{
    path == other
}

/// The first names of a path.
fn front_of(path: &[u32], end: usize) -> &[u32]
    requires { end ≤ length path.now }
    ensures { result.now ≡ take end path.now }
{
    &path[..end]
}
