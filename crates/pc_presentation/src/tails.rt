//! Tails of relations added to an element.

ghost use Rattle.std.specs.Prelude.{◌≡◌};
ghost use Rattle.pc_presentation.specs.Relation.{IsTail};
ghost use Rattle.pc_presentation.specs.Pcp.{row_of};
ghost use Rattle.pc_presentation.specs.Collection.{add_row};
ghost use Rattle.pc_presentation.specs.AddedRows.{add_row_times};
ghost use Rattle.pc_presentation.specs.Tailed.{IsElement, with_state};

use crate::elem::Elem;
use crate::pcp::Pcp;

/// Adds a tail, if there is one.
pub fn add_tail(pcp: &Pcp, at: &mut Elem, tail: Option<u16>)
    requires element { IsElement pcp.now at.old }
    requires tail { IsTail pcp.now.tails tail }
    ensures element { IsElement pcp.now at.new }
    ensures added { at.new ≡ with_state at.old (add_row pcp.now.presentation.prime (row_of pcp.now.tails tail) at.old.state) }
{
    if let Some(column) = tail {
        at.add_tail(column);
    }
}

/// Adds a tail so many times, if there is one.
pub fn add_tail_times(pcp: &Pcp, at: &mut Elem, tail: Option<u16>, times: u8)
    requires element { IsElement pcp.now at.old }
    requires tail { IsTail pcp.now.tails tail }
    ensures element { IsElement pcp.now at.new }
    ensures added { at.new ≡ with_state at.old (add_row_times pcp.now.presentation.prime (row_of pcp.now.tails tail) times at.old.state) }
{
    for _ in 0..times {
        add_tail(pcp, at, tail);
    }
}
