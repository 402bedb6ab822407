//! What commutes with a generator among the letters of an element.

ghost use Rattle.std.specs.Prelude.{◌≤◌, ◌-◌, ◌↔◌, IsTrue};
ghost use Rattle.pc_presentation.specs.CommutingLaws.{PassesBarely};
ghost use Rattle.pc_presentation.specs.Tailed.{rowed_presentation, IsElement};

use crate::elem::Elem;
use crate::pcp::Pcp;
use crate::relation::Relation;

/// Whether a generator, counted from 1, commutes with each later one that the element has.
pub fn commutes_with_later(pcp: &Pcp, at: &Elem, generator: u16) -> bool
    requires element { IsElement pcp.now at.now }
    requires from_one { 1 ≤ generator }
    requires in_range { generator ≤ pcp.now.presentation.rank }
    ensures { IsTrue result ↔ PassesBarely (rowed_presentation pcp.now) at.now.state (generator - 1) }
{
    for j in generator..pcp.commuting_from(generator) - 1 {
        if at.exponent(j + 1) != 0 && !pcp.is_bare(Relation::Commutator(j + 1, generator)) {
            return false;
        }
    }
    true
}
