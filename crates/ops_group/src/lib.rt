// Two groups of up to 64 words, merged by or, and, or xor, with the summary word over the first.
#![tactic(auto)]

ghost use Rattle.std.specs.Prelude.{◌≡◌, ◌<◌, leb, length, get_or, set};
ghost use Rattle.util.specs.Word.{count};
ghost use Rattle.store.specs.Build.{flags};
ghost use Rattle.ops_word.specs.Op.{op_word};
ghost use Rattle.ops_word.specs.Named.{code};
ghost use Rattle.ops_group.specs.Group.{merge_named, mark_named, all, is_dense, group_words, group_over};

use ops_word::Op;
use util::Ones;

// Whether 12 words or more are named. A quick look first whether three or fewer are, since to count the bits of a word takes some twenty
// instructions.
fn is_many(m: u64) -> bool
    ensures { result ≡ leb 12 (count m) }
{
    util::drop_lowest(util::drop_lowest(util::drop_lowest(m))) != 0 && 12 <= m.count_ones()
}

// Whether two groups go as a whole: both are full, and 12 words or more are named.
#[tactic(auto, unfolding(crate::specs::Group::is_dense))]
fn is_dense(n: usize, l: usize, m: u64) -> bool
    ensures { result ≡ is_dense n l m }
{
    n == 64 && l == 64 && is_many(m)
}

// A full group, each word with the other's at its place.
fn merge_64(part: &mut [u64], other: &[u64], op: Op)
    requires { (length part.old ≡ 64) × (length other.now ≡ 64) }
    ensures { part.new ≡ merge_named (code op) all 0 part.old other.now }
{
    for (t, x) in part.iter_mut().enumerate() {
        *x = op.combine(*x, other[t]);
    }
}

// The same, and its summary.
fn dense_64(part: &mut [u64], other: &[u64], op: Op) -> u64
    requires { (length part.old ≡ 64) × (length other.now ≡ 64) }
    ensures part_after { part.new ≡ merge_named (code op) all 0 part.old other.now }
    ensures value { result ≡ flags part.new }
{
    merge_64(part, other, op);
    summary_word::gather(part, 0)
}

// One word of a group; answers what stands there after, 0 past the group's end.
fn leaf(part: &mut [u64], other: &[u64], t: usize, op: Op) -> u64
    ensures part_after { let x = part.old in part.new ≡ set x t (op_word (code op) (get_or x t 0) (get_or other.now t 0)) }
    ensures value { result ≡ get_or part.new t 0 }
{
    if t < part.len() {
        let z = op.combine(part[t], store::get(other, t));
        part[t] = z;
        return z;
    }
    0
}

// The words of a group that m names, one by one, each with the other's at its place; w is the word above the group. Answers the word above
// after.
pub fn one_by_one(part: &mut [u64], other: &[u64], w: u64, m: u64, op: Op) -> u64
    ensures part_after { part.new ≡ merge_named (code op) m 0 part.old other.now }
    ensures value { result ≡ mark_named m (merge_named (code op) m 0 part.old other.now) w }
{
    let mut over = w;
    for t in Ones(m) {
        let z = leaf(part, other, t, op);
        over = util::with_bit(over, t, z != 0);
    }
    over
}

// The same, with a loop of its own for each operation, which is a literal there and not asked for at each turn.
fn sparse(part: &mut [u64], other: &[u64], w: u64, m: u64, op: Op) -> u64
    ensures part_after { part.new ≡ merge_named (code op) m 0 part.old other.now }
    ensures value { result ≡ mark_named m (merge_named (code op) m 0 part.old other.now) w }
{
    match op {
        Op::And => one_by_one(part, other, w, m, Op::And),
        Op::Or => one_by_one(part, other, w, m, Op::Or),
        Op::Xor => one_by_one(part, other, w, m, Op::Xor),
    }
}

// The words of a group that m names, each with the other's at its place; w is the word above the group. Answers the word above after.
// Words that m does not name are merged too where the group goes as a whole.
pub fn group(part: &mut [u64], other: &[u64], w: u64, m: u64, op: Op) -> u64
    ensures part_after { part.new ≡ group_words (code op) part.old other.now m }
    ensures value { result ≡ group_over (code op) part.old other.now w m }
{
    if is_dense(part.len(), other.len(), m) {
        return dense_64(part, other, op);
    }
    sparse(part, other, w, m, op)
}
