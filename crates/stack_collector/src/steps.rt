//! Steps: the next thing that a frame owes, done at the element in place.

ghost use Rattle.std.specs.Prelude.{◌≡◌, ◌≤◌, ◌<◌, ◌+◌, ◌-◌, ◌⊎◌, ℕ, get_or, length, replicate, drop};
ghost use Rattle.pc_presentation.specs.Relation.{IsRelation};
ghost use Rattle.pc_presentation.specs.Pcp.{side_word};
ghost use Rattle.pc_presentation.specs.Collection.{plain_push};
ghost use Rattle.pc_presentation.specs.PushSteps.{raised};
ghost use Rattle.pc_presentation.specs.CommutingLaws.{PassesBarely};
ghost use Rattle.pc_presentation.specs.Tailed.{rowed_presentation, IsElement, with_state, places_of};
ghost use Rattle.stack_collector.specs.Frames.{pushed, finished, IsFrame};
ghost use Rattle.stack_collector.specs.FrameSteps.{IsWithin, IsStep};

use crate::frame::Frame;
use pc_presentation::{Elem, Pcp, Relation, add_tail, add_tail_times, commutes_with_later};

/// What a step of a frame comes to.
#[derive(Clone, Copy, Debug)]
pub(crate) enum Progress {
    /// The frame goes on.
    Within,
    /// A copy of this generator, counted from 1, is to be pushed before the frame goes on.
    Push(u16),
    /// The frame owes nothing.
    Done,
}

/// Begins a push of a generator, counted from 1: sets aside the letters after it, up to that from which on all commute, and
/// raises its exponent. What the push still owes stands in the frame.
pub(crate) fn begin(pcp: &Pcp, at: &mut Elem, generator: u16) -> Frame
    requires element { IsElement pcp.now at.old }
    requires from_one { 1 ≤ generator }
    requires in_range { generator ≤ pcp.now.presentation.rank }
    ensures element { IsElement pcp.now at.new }
    ensures frame { IsFrame pcp.now result }
    ensures generator { result.generator ≡ generator }
    ensures pushed { finished pcp.now result at.new
        ≡ with_state at.old (plain_push (rowed_presentation pcp.now) at.old.state (generator - 1)) }
{
    let commuting = pcp.commuting_from(generator);
    let mut frame = Frame {
        generator,
        letter: generator,
        copies: 0,
        relation: Relation::Power(generator),
        place: 0,
        syllables: pcp.word(Relation::Power(generator)).len(),
        next: generator,
        times: 0,
        later: at.exponents_between(generator, commuting),
        end: commuting - 1,
    };
    at.clear_between(generator, commuting);
    frame.place = raise(pcp, at, generator);
    frame
}

/// Raises the exponent of a generator by 1, and gives the number of the syllable from which on the word of its power is to be
/// pushed: all of it where the exponent becomes the prime, and none of it else.
fn raise(pcp: &Pcp, at: &mut Elem, generator: u16) -> usize
    requires element { IsElement pcp.now at.old }
    requires from_one { 1 ≤ generator }
    requires in_range { generator ≤ pcp.now.presentation.rank }
    ensures element { IsElement pcp.now at.new }
    ensures place { result ≤ length (side_word pcp.now.presentation (Relation.Power generator)) }
    ensures raised { let Y = rowed_presentation pcp.now in
        pushed pcp.now at.new (places_of (drop result (side_word pcp.now.presentation (Relation.Power generator))))
        ≡ with_state at.old (raised Y at.old.state (generator - 1)) }
{
    let power = Relation::Power(generator);
    let exponent = at.exponent(generator) + 1;
    if exponent == pcp.prime().value() {
        at.set_exponent(generator, 0);
        add_tail(pcp, at, pcp.tail(power));
        0
    } else {
        at.set_exponent(generator, exponent);
        pcp.word(power).len()
    }
}

/// Does what a frame owes, one thing after the other, up to a push or to its end.
pub(crate) fn run(pcp: &Pcp, at: &mut Elem, frame: &mut Frame) -> Progress
    requires element { IsElement pcp.now at.old }
    requires frame { IsFrame pcp.now frame.old }
    ensures { IsStep pcp.now frame.old at.old result frame.new at.new }
{
    loop {
        match step(pcp, at, frame) {
            Progress::Within => (),
            ended => return ended,
        }
    }
}

/// Does the next thing that a frame owes.
fn step(pcp: &Pcp, at: &mut Elem, frame: &mut Frame) -> Progress
    requires element { IsElement pcp.now at.old }
    requires frame { IsFrame pcp.now frame.old }
    ensures { IsStep pcp.now frame.old at.old result frame.new at.new }
{
    if frame.copies > 0 {
        push_letter(pcp, at, frame)
    } else if frame.place < frame.syllables {
        push_syllables(pcp, at, frame)
    } else if frame.times > 0 {
        pass_letter(pcp, at, frame)
    } else if frame.next < frame.end {
        frame.take_exponent(pcp);
        if frame.times > 0 {
            pass_letter(pcp, at, frame)
        } else {
            Progress::Within
        }
    } else {
        Progress::Done
    }
}

/// Adds the letters of the rest of the word at once, up to the first of which some copies are left: one of them is to be pushed.
fn push_syllables(pcp: &Pcp, at: &mut Elem, frame: &mut Frame) -> Progress
    requires element { IsElement pcp.now at.old }
    requires frame { IsFrame pcp.now frame.old }
    requires none_before { frame.old.copies ≡ 0 }
    requires more { frame.old.place < length (side_word pcp.now.presentation frame.old.relation) }
    ensures { IsStep pcp.now frame.old at.old result frame.new at.new }
{
    let word = pcp.word(frame.relation);
    let mut place = frame.place;
    while place < word.len() {
        let syllable = word[place];
        place += 1;
        let left = add_copies(pcp, at, syllable.generator, syllable.exponent);
        if left > 0 {
            frame.letter = syllable.generator;
            frame.copies = left - 1;
            frame.place = place;
            return Progress::Push(syllable.generator);
        }
    }
    frame.place = place;
    Progress::Within
}

/// Passes copies of the next letter: adds their tails, and pushes what can be pushed of them at once.
fn pass_letter(pcp: &Pcp, at: &mut Elem, frame: &mut Frame) -> Progress
    requires element { IsElement pcp.now at.old }
    requires frame { IsFrame pcp.now frame.old }
    requires none_before { frame.old.copies ≡ 0 }
    requires word_ended { frame.old.syllables ≤ frame.old.place }
    requires some { 1 ≤ frame.old.times }
    ensures { IsStep pcp.now frame.old at.old result frame.new at.new }
{
    pass(pcp, at, frame);
    push_letter(pcp, at, frame)
}

/// Adds what can be added at once of the copies of a letter. Where some are left, the first of them is to be pushed.
fn push_letter(pcp: &Pcp, at: &mut Elem, frame: &mut Frame) -> Progress
    requires element { IsElement pcp.now at.old }
    requires frame { IsFrame pcp.now frame.old }
    requires some { 1 ≤ frame.old.copies }
    ensures { IsStep pcp.now frame.old at.old result frame.new at.new }
{
    let left = add_copies(pcp, at, frame.letter, frame.copies);
    if left == 0 {
        frame.copies = 0;
        Progress::Within
    } else {
        frame.copies = left - 1;
        Progress::Push(frame.letter)
    }
}

/// Adds copies of a generator, counted from 1, to its exponent, and gives how many are left: all where it doesn't commute with
/// each later letter that the element has, and else those that take the exponent past the prime, unless the right side of the
/// power is empty.
#[inline(always)]
pub(crate) fn add_copies(pcp: &Pcp, at: &mut Elem, generator: u16, copies: u8) -> u8
    requires element { IsElement pcp.now at.old }
    requires from_one { 1 ≤ generator }
    requires in_range { generator ≤ pcp.now.presentation.rank }
    ensures element { IsElement pcp.now at.new }
    ensures fewer { result ≤ copies }
    ensures added { pushed pcp.now at.new (replicate result (generator - 1)) ≡ pushed pcp.now at.old (replicate copies (generator - 1)) }
{
    if !commutes_with_later(pcp, at, generator) {
        return copies;
    }
    let prime = pcp.prime().value();
    let missing = prime - at.exponent(generator);
    if copies < missing {
        add_below(pcp, at, generator, copies);
        0
    } else if copies - missing < prime && pcp.word(Relation::Power(generator)).is_empty() {
        add_past(pcp, at, generator, copies - missing);
        0
    } else {
        add_below(pcp, at, generator, missing - 1);
        copies - (missing - 1)
    }
}

/// Adds copies of a generator to its exponent, which stays below the prime.
fn add_below(pcp: &Pcp, at: &mut Elem, generator: u16, copies: u8)
    requires element { IsElement pcp.now at.old }
    requires from_one { 1 ≤ generator }
    requires in_range { generator ≤ pcp.now.presentation.rank }
    requires commutes { PassesBarely (rowed_presentation pcp.now) at.old.state (generator - 1) }
    requires below { get_or at.old.state.exponents (generator - 1) 0 + copies < pcp.now.presentation.prime }
    ensures element { IsElement pcp.now at.new }
    ensures added { at.new ≡ pushed pcp.now at.old (replicate copies (generator - 1)) }
{
    let exponent = at.exponent(generator);
    at.set_exponent(generator, exponent + copies);
}

/// Adds copies of a generator that take its exponent past the prime, where the right side of its power is empty: what is above
/// the prime stays, and the tail of the power is added.
fn add_past(pcp: &Pcp, at: &mut Elem, generator: u16, rest: u8)
    requires element { IsElement pcp.now at.old }
    requires from_one { 1 ≤ generator }
    requires in_range { generator ≤ pcp.now.presentation.rank }
    requires commutes { PassesBarely (rowed_presentation pcp.now) at.old.state (generator - 1) }
    requires empty { length (side_word pcp.now.presentation (Relation.Power generator)) ≡ 0 }
    requires rest { rest < pcp.now.presentation.prime }
    ensures element { IsElement pcp.now at.new }
    ensures added { (n : ℕ) → get_or at.old.state.exponents (generator - 1) 0 + n ≡ pcp.now.presentation.prime + rest
        → at.new ≡ pushed pcp.now at.old (replicate n (generator - 1)) }
{
    at.set_exponent(generator, rest);
    add_tail(pcp, at, pcp.tail(Relation::Power(generator)));
}

/// Passes copies of the next letter: one, or all where it has an empty word with the frame's generator.
fn pass(pcp: &Pcp, at: &mut Elem, frame: &mut Frame)
    requires element { IsElement pcp.now at.old }
    requires frame { IsFrame pcp.now frame.old }
    requires none_before { frame.old.copies ≡ 0 }
    requires word_ended { frame.old.syllables ≤ frame.old.place }
    requires some { 1 ≤ frame.old.times }
    ensures within { IsWithin pcp.now frame.old at.old frame.new at.new }
    ensures some { 1 ≤ frame.new.copies }
{
    let relation = Relation::Commutator(frame.next, frame.generator);
    let syllables = pcp.word(relation).len();
    let copies = together(frame.times, syllables);
    add_tail_times(pcp, at, pcp.tail(relation), copies);
    frame.letter = frame.next;
    frame.copies = copies;
    frame.relation = relation;
    frame.place = 0;
    frame.syllables = syllables;
    frame.times -= copies;
}

/// How many of these copies are passed at once: one, or all where the word of their relation has no syllables.
fn together(times: u8, syllables: usize) -> u8
    requires some { 1 ≤ times }
    ensures some { 1 ≤ result }
    ensures within { result ≤ times }
    ensures one_or_empty { (result ≡ 1) ⊎ (syllables ≡ 0) }
{
    if syllables == 0 { times } else { 1 }
}
