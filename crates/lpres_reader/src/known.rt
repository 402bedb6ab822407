//! The generators that names stand for.

ghost use Rattle.std.specs.Prelude.{◌≡◌, ◌<◌, ◌&&◌, IfSome};
ghost use Rattle.lpres_reader.specs.Trees.{place_of};
ghost use Rattle.lpres_reader.specs.Front.{token_of};
ghost use Rattle.lpres_reader.specs.Presentations.{AreGenerators};
ghost use Rattle.lpres_reader.specs.Known.{is_known};

use crate::token::Token;
use indexmap::IndexSet;
use pq_base::Name;

/// The place of a generator's name, counted from 0.
#[inline(always)]
pub(crate) fn place_of(names: &IndexSet<Name>, text: &[u8]) -> Option<usize>
    requires { AreGenerators names.now.keys }
    ensures place { result ≡ place_of names.now.keys text.now }
    ensures within { IfSome result (λ k. k < 32) }
{
    names
        .as_slice()
        .iter()
        .position(|name| text == name.bytes())
}

/// Whether a token is no name, or that of a generator.
fn is_known(names: &IndexSet<Name>, token: Token) -> bool
    requires { AreGenerators names.now.keys }
    ensures { result ≡ is_known names.now.keys (token_of token.entry) }
{
    match token {
        Token::Name(text) => place_of(names, text).is_some(),
        _ => true,
    }
}

/// Whether all names so far are generators, with one token more.
pub(crate) fn are_known(names: &IndexSet<Name>, so_far: bool, token: Token) -> bool
    requires { AreGenerators names.now.keys }
    ensures { result ≡ (so_far && is_known names.now.keys (token_of token.entry)) }
{
    so_far && is_known(names, token)
}
