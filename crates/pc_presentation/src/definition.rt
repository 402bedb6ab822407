//! Where the generators of an answer come from, and the tails of its covers.

/// An image or a relation. As the definition of a generator it is one whose right side is that generator alone; as the source
/// of a tail, one whose right side has that tail behind it. Numbers count from 1.
#[derive(Clone, Copy, Debug, PartialEq, Eq)]
pub enum Definition {
    /// The image of a given generator.
    Image(u16),
    /// `Commutator(j, i)`, with j > i: the commutator of generator j and generator i.
    Commutator(u16, u16),
    /// The power of a generator to the prime.
    Power(u16),
}
