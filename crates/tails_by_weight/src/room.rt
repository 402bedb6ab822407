//! Generators whose weights leave room.

ghost use Rattle.std.specs.Prelude.{◌≡◌, ◌≤◌, ◌-◌, suc, pred, min};
ghost use Rattle.pq_base.specs.Answer.{class_of};
ghost use Rattle.pq_base.specs.Canonical.{rank_up_to};

use pc_presentation::Answer;

/// How many generators before generator j have a weight that, with the given one, is at most the class and one. They are the first
/// generators, since weights never fall.
pub(crate) fn count_with_room(answer: &Answer, weight: u16, j: u16) -> u16
    requires from_one { 1 ≤ j }
    requires in_range { j ≤ answer.now.presentation.rank }
    ensures { result ≡ min (pred j) (rank_up_to answer.now (suc (class_of answer.now) - weight)) }
{
    let most = (answer.class() as u16 + 1).saturating_sub(weight);
    count_up_to(answer, most, j - 1)
}

/// How many of the first `end` generators have at most this weight. It reads at most one weight more than it counts.
pub(crate) fn count_up_to(answer: &Answer, weight: u16, end: u16) -> u16
    requires { end ≤ answer.now.presentation.rank }
    ensures { result ≡ min end (rank_up_to answer.now weight) }
{
    let pcp = answer.pcp();
    for k in 0..end {
        if pcp.weight(k + 1) as u16 > weight {
            return k;
        }
    }
    end
}
