//! The relations of a presentation, by the numbers of their generators.

ghost use Rattle.std.specs.Prelude.{◌≡◌, ℕ, ◌<◌, ◌≤◌, ◌↔◌, IsTrue};
ghost use Rattle.pq_base.specs.Limits.{max_rank};
ghost use Rattle.pc_presentation.specs.Relation.{IsRelation, side_start, relation_number, relation_count, triangular};

/// A relation, named by its left side. Generators count from 1.
#[derive(Clone, Copy, Debug, PartialEq, Eq)]
pub enum Relation {
    /// The power of a generator to the prime.
    Power(u16),
    /// `Commutator(j, i)`, with j > i: the commutator of generator j and generator i.
    Commutator(u16, u16),
}

impl Relation {
    /// Whether this is a relation of `rank` generators.
    pub(crate) fn is_of(self, rank: u16) -> bool
        ensures { IsTrue result ↔ IsRelation rank self }
    {
        match self {
            Relation::Power(i) => 1 <= i && i <= rank,
            Relation::Commutator(j, i) => 1 <= i && i < j && j <= rank,
        }
    }

    /// The generator after which those of the right side come.
    pub(crate) fn leading(self) -> u16
        ensures { result ≡ side_start self }
    {
        match self {
            Relation::Power(i) => i,
            Relation::Commutator(j, _) => j,
        }
    }

    /// The place of the relation among those of `rank` generators, counted from 0: the powers, then the commutators, row
    /// by row.
    pub(crate) fn number(self, rank: usize) -> usize
        requires relation { IsRelation rank self }
        requires limit { rank ≤ max_rank }
        ensures number { result ≡ relation_number rank self }
        ensures below { result < relation_count rank }
    {
        match self {
            Relation::Power(i) => i as usize - 1,
            Relation::Commutator(j, i) => rank + triangular(j as usize - 1) + i as usize - 1,
        }
    }
}

/// How many relations `rank` generators have.
pub(crate) fn relation_count(rank: usize) -> usize
    requires { rank ≤ max_rank }
    ensures count { result ≡ relation_count rank }
    ensures limit { result ≤ relation_count max_rank }
{
    rank + triangular(rank)
}

/// 0 + 1 + .. + (n - 1).
fn triangular(n: usize) -> usize
    requires { n ≤ max_rank }
    ensures number { result ≡ triangular n }
    ensures limit { result ≤ triangular max_rank }
{
    if n == 0 { 0 } else { n * (n - 1) / 2 }
}
