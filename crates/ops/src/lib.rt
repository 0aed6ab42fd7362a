// Or, and, xor of two stores of equal capacity, in place: the Rust's ops.rs, `BitOrAssign`, `BitAndAssign`, `BitXorAssign`.
#![tactic(auto)]

ghost use Rattle.ops_merge.specs.Calls.{Assigned};

use ops_word::Op;
use store::Refusal;

// The first store becomes the union.
pub fn bitor_assign(store: &mut [u64], other: &[u64]) -> Result<(), Refusal>
    ensures { Assigned 17 store.old other.now result store.new }
{
    ops_merge::assign(store, other, Op::Or)
}

// The first store becomes the intersection.
pub fn bitand_assign(store: &mut [u64], other: &[u64]) -> Result<(), Refusal>
    ensures { Assigned 16 store.old other.now result store.new }
{
    ops_merge::assign(store, other, Op::And)
}

// The first store becomes the symmetric difference.
pub fn bitxor_assign(store: &mut [u64], other: &[u64]) -> Result<(), Refusal>
    ensures { Assigned 18 store.old other.now result store.new }
{
    ops_merge::assign(store, other, Op::Xor)
}
