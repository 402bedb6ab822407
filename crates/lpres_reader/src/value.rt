//! What a line means so far.

ghost use Rattle.std.specs.Prelude.{◌≡◌, [], ◌∷◌, MatchOption, MatchResult, Ok};
ghost use Rattle.lpres_reader.specs.declared.fault.Stop.TheVariants.{NoMemory as WantOfMemory};
ghost use Rattle.lpres_reader.specs.Values.{Given, no_form, value, at_relators, at_arrows};

use crate::factor::Factor;
use crate::fault::{Kind, Stop};
use crate::gathered::Gathered;
use crate::recipe::Recipe;
use std::alloc::Global;
use std::marker::Model;

/// Where a unit stands: behind the product of other factors, and as an exponent behind its base.
#[derive(Drop)]
pub(crate) struct Place {
    pub(crate) before: Recipe,
    pub(crate) base: Option<Factor>,
}

/// An open bracket. A square one has the commutator of its entries so far, if there are any.
#[derive(Drop)]
pub(crate) enum Bracket {
    Round,
    Square(Option<Recipe>),
}

/// An open bracket where it stands.
#[derive(Drop)]
pub(crate) struct Opened {
    pub(crate) place: Place,
    pub(crate) bracket: Bracket,
}

/// The brackets that are open.
#[derive(Drop)]
pub(crate) struct Stack {
    list: Vec<Opened>,
}

impl Model for Stack {
    ghost use Rattle.std.specs.Prelude.{List, reverse};
    ghost use Rattle.lpres_reader.specs.declared.value.Opened.{Opened};

    ghost Value = { List Opened };

    ghost view = { λ s. reverse s.list.items };
}

impl Stack {
    pub(crate) fn none(alloc: Global) -> Stack
        ensures { result ≡ [] }
    {
        Stack {
            list: Vec::new(alloc),
        }
    }

    pub(crate) fn push(self, opened: Opened) -> Result<Stack, Stop>
        ensures { MatchResult result (λ more. more ≡ opened ∷ self) (λ e. e ≡ WantOfMemory) }
    {
        let mut list = self.list;
        list.push(opened)?;
        Ok(Stack { list })
    }

    pub(crate) fn pop(self) -> Option<(Opened, Stack)>
        ensures { MatchOption result (self ≡ []) (λ top. self ≡ top.0 ∷ top.1) }
    {
        let mut list = self.list;
        match list.pop() {
            None => None,
            Some(opened) => Some((opened, Stack { list })),
        }
    }
}

/// What the next token stands behind.
#[derive(Drop)]
pub(crate) enum Stage {
    /// A comma between arrows, or `endo`.
    Start,
    /// The name from which an arrow goes.
    From,
    /// The product of the factors before.
    Before(Recipe),
    /// The product of the factors before, a factor and a `^`.
    Caret(Recipe, Factor),
    /// The same and a minus.
    Minus(Recipe, Factor),
    /// The product of the factors before, and a factor.
    Behind(Recipe, Factor),
}

/// What stands on a line. A relator may have the left side of an equation already, and an arrow goes from a place.
#[derive(Drop)]
pub(crate) enum Outer {
    Relators(Option<Recipe>),
    Arrows(usize),
}

/// What is around the word that is read.
#[derive(Drop)]
pub(crate) struct Around {
    pub(crate) stack: Stack,
    pub(crate) outer: Outer,
    pub(crate) gathered: Gathered,
}

/// What a line means so far.
#[derive(Drop)]
pub(crate) struct Value {
    pub(crate) stage: Stage,
    pub(crate) around: Around,
}

/// No token of this sort may come here.
pub(crate) fn no_form<T>() -> Result<T, Stop>
    ensures { result ≡ no_form }
{
    Err(Stop::Fault(Kind::Syntax))
}

pub(crate) fn value_at(stage: Stage, around: Around) -> Value
    ensures { result ≡ value stage around }
{
    Value { stage, around }
}

/// Behind `fixed` or `iterated`.
pub(crate) fn at_relators(alloc: Global, gathered: Gathered) -> Result<Value, Stop>
    ensures { Given result (Ok (at_relators gathered)) }
{
    Ok(value_at(
        Stage::Before(Recipe::empty(alloc)),
        Around {
            stack: Stack::none(alloc),
            outer: Outer::Relators(None),
            gathered,
        },
    ))
}

/// Behind `endo`.
pub(crate) fn at_arrows(alloc: Global, gathered: Gathered) -> Value
    ensures { result ≡ at_arrows gathered }
{
    value_at(
        Stage::Start,
        Around {
            stack: Stack::none(alloc),
            outer: Outer::Arrows(0),
            gathered,
        },
    )
}
