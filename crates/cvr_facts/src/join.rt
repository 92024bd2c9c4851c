ghost use Rattle.std.specs.Prelude.{◌≡◌, ◌⊎◌, ℕ, ◌+◌, OnOk, OnErr, IfOk};
ghost use Rattle.cvr_facts.specs.Sets.{JoinLaws};

use cdf_types::Memory;

/// What holds a set and takes in the members of another. Contracts may see more of it than that
/// set, such as a list in order; of joining they say only the set.
///
/// Each brings the proof (`laws`) that joining is commutative, associative and idempotent, and that
/// to join nothing changes nothing. What becomes of what a type shows beside the set, the type says
/// itself.
pub trait Join {
    ghost Set: { Type 0 };

    // The set that it holds.
    ghost held: { Self → Set };

    ghost joined: { Set → Set → Set };

    ghost nothing: { Set };

    ghost size: { Set → ℕ };

    /// Takes in the members of `other`, and answers how many are new.
    ///
    /// # Errors
    /// `Memory` where a growth was refused; the set is then as it was.
    fn join(&mut self, other: &Self) -> Result<usize, Memory>
        ensures ok { OnOk result (held self.new ≡ joined (held self.old) (held other.now)) }
        ensures new { IfOk result (λ n. size (held self.old) + n ≡ size (held self.new)) }
        ensures unchanged { OnErr result (self.new ≡ self.old) };

    ghost laws: { JoinLaws joined nothing };
}

/// Takes in the members of two others.
///
/// Both are joined in by these laws alone.
///
/// # Errors
/// `Memory` where a growth was refused; the set then holds what it held, or that and the first's.
pub fn join_both<J: Join>(set: &mut J, one: &J, other: &J) -> Result<(), Memory>
    ensures ok { OnOk result
        (J.held set.new ≡ J.joined (J.held set.old)
        (J.joined (J.held one.now) (J.held other.now))) }
    ensures err { OnErr result
        ((set.new ≡ set.old) ⊎ (J.held set.new ≡ J.joined (J.held set.old) (J.held one.now))) }
{
    set.join(one)?;
    set.join(other)?;
    Ok(())
}
