// Chains of operators over factors, alike for each kind of trees. Operators of one height are read in a loop, so that only
// brackets nest calls.

ghost use Rattle.std.specs.Prelude.{◌≡◌, ◌≤◌, ◌<◌, length, IfOk, IfSome, MatchOption, List};
ghost use Rattle.tcl_text.specs.declared.token.Token.{Token};
ghost use Rattle.tcl_text.specs.Trees.{Sort, Tree, Joint, height, joint_of, joined};
ghost use Rattle.tcl_parse.specs.Readers.{Found, OnFound, Ends, NoEnd, IsRead, NoneRead, IsOperator, NoOperator};
ghost use Rattle.tcl_parse.specs.Chains.{loosest, closing, Base, SignAt, NoSignAt, signed, Opens, NotOpened, Closed};

use crate::tree::reader::{Reading, behind_sign, first_of};
use sqlite_items::Boxed;
use std::alloc::{AllocError, Global};
use tcl_lang::Ty;
use tcl_text::{Symbol, Token};

/// Trees that are chains of operators over factors. A factor is a base with at most one sign before it, and a base may be a
/// tree in brackets.
pub(crate) trait Chained: Drop {
    /// A binary operator.
    type Joint: Copy;

    /// The kind of the trees.
    ghost sort: { Sort };

    /// A tree as the grammar has it.
    ghost tree: { Self → Tree sort };

    /// An operator as the grammar has it.
    ghost joint: { Self.Joint → Joint sort };

    /// The greatest height of an operator.
    fn loosest() -> usize
        ensures exact { result ≡ loosest sort }
        ensures low { result ≤ 5 };

    /// The symbol that closes a tree in brackets.
    fn closing() -> Symbol
        ensures { result ≡ closing sort };

    /// The operator that a token is, and its height.
    fn operator_of(token: &Token) -> Option<(usize, Self::Joint)>
        ensures { MatchOption result (joint_of sort token.now ≡ None)
            (λ r. (height sort token.now ≡ r.0) × (joint_of sort token.now ≡ Some (joint r.1))) };

    /// The tree of an operator and its two sides.
    fn joined(op: Self::Joint, left: Boxed<Self>, right: Boxed<Self>) -> Self
        ensures { tree result ≡ joined sort (joint op) (tree left) (tree right) };

    /// The sign that stands first, and the tokens behind it.
    fn sign_at(tokens: &[Token]) -> Option<(Symbol, &[Token])>
        ensures exact { MatchOption result (NoSignAt sort tokens.now) (λ r. SignAt sort tokens.now r.0 r.1.now) }
        ensures shorter { IfSome result (λ r. length r.1.now < length tokens.now) };

    /// The tree of a sign and the tree behind it.
    fn signed(sign: Symbol, base: Boxed<Self>) -> Self
        ensures { tree result ≡ signed sort sign (tree base) };

    /// The tokens behind a bracket that stands first, or behind a cast's with the type that it casts to.
    fn opening(tokens: &[Token]) -> Option<(Option<Ty>, &[Token])>
        ensures exact { MatchOption result (NotOpened sort tokens.now) (λ r. Opens sort tokens.now r.0 r.1.now) }
        ensures shorter { IfSome result (λ r. length r.1.now < length tokens.now) };

    /// A base that begins with no bracket.
    fn unbracketed(alloc: Global, tokens: &[Token]) -> Result<Option<Reading<'_, Self>>, AllocError>
        requires { NotOpened sort tokens.now }
        ensures exact { Found result (NoEnd sort 0 (Base sort) tokens.now)
            (λ r. Ends sort 0 (Base sort) tokens.now (tree r.tree) r.rest.now) }
        ensures shorter { OnFound result (λ r. length r.rest.now < length tokens.now) };

    /// A base that begins with the brackets around `inner`, behind which `rest` stands.
    fn bracketed(
        alloc: Global,
        cast: Option<Ty>,
        inner: Self,
        rest: &[Token],
    ) -> Result<Option<Reading<'_, Self>>, AllocError>
        ensures exact { (ts us : List Token) → Opens sort ts cast us → Closed sort us (tree inner) rest.now →
            Found result (NoEnd sort 0 (Base sort) ts) (λ r. Ends sort 0 (Base sort) ts (tree r.tree) r.rest.now) }
        ensures shorter { OnFound result (λ r. length r.rest.now ≤ length rest.now) };
}

/// An operator of this height that stands first, and the tokens behind it.
fn operator_at<T: Chained>(level: usize, tokens: &[Token]) -> Option<Reading<'_, T::Joint>>
    ensures exact { MatchOption result (NoOperator T.sort level tokens.now)
        (λ r. IsOperator T.sort level tokens.now (T.joint r.tree) r.rest.now) }
    ensures shorter { IfSome result (λ r. length r.rest.now < length tokens.now) }
{
    let (first, rest) = first_of(tokens)?;
    let (height, op) = T::operator_of(first)?;
    if height != level {
        return None;
    }
    Some(Reading { tree: op, rest })
}

/// The tree of an operator and its two sides.
fn join<T: Chained>(alloc: Global, op: T::Joint, left: T, right: T) -> Result<T, AllocError>
    ensures { IfOk result (λ t. T.tree t ≡ joined T.sort (T.joint op) (T.tree left) (T.tree right)) }
{
    let left = Boxed::new(alloc, left)?;
    let right = Boxed::new(alloc, right)?;
    Ok(T::joined(op, left, right))
}

/// A tree in which operators up to this height stand outside brackets, and which none of them goes on with.
#[cycle(chains)]
pub(crate) fn chain<T: Chained>(
    alloc: Global,
    level: usize,
    tokens: &[Token],
) -> Result<Option<Reading<'_, T>>, AllocError>
    requires { level ≤ loosest T.sort }
    ensures exact { Found result (NoneRead T.sort level tokens.now)
        (λ r. IsRead T.sort level tokens.now (T.tree r.tree) r.rest.now) }
    ensures shorter { OnFound result (λ r. length r.rest.now < length tokens.now) }
{
    if level == 0 {
        return factor(alloc, tokens);
    }
    let Some(first) = chain::<T>(alloc, level - 1, tokens)? else {
        return Ok(None);
    };
    let mut left = first.tree;
    let mut rest = first.rest;
    while let Some(op) = operator_at::<T>(level, rest) {
        let Some(right) = chain(alloc, level - 1, op.rest)? else {
            return Ok(None);
        };
        left = join(alloc, op.tree, left, right.tree)?;
        rest = right.rest;
    }
    Ok(Some(Reading { tree: left, rest }))
}

/// A base with its sign.
#[cycle(chains)]
fn factor<T: Chained>(alloc: Global, tokens: &[Token]) -> Result<Option<Reading<'_, T>>, AllocError>
    ensures exact { Found result (NoneRead T.sort 0 tokens.now)
        (λ r. IsRead T.sort 0 tokens.now (T.tree r.tree) r.rest.now) }
    ensures shorter { OnFound result (λ r. length r.rest.now < length tokens.now) }
{
    let Some((sign, behind)) = T::sign_at(tokens) else {
        return base(alloc, tokens);
    };
    let Some(found) = base::<T>(alloc, behind)? else {
        return Ok(None);
    };
    let base = Boxed::new(alloc, found.tree)?;
    Ok(Some(Reading {
        tree: T::signed(sign, base),
        rest: found.rest,
    }))
}

/// A base: a tree in brackets, or what begins with none.
#[cycle(chains)]
fn base<T: Chained>(alloc: Global, tokens: &[Token]) -> Result<Option<Reading<'_, T>>, AllocError>
    ensures exact { Found result (NoEnd T.sort 0 (Base T.sort) tokens.now)
        (λ r. Ends T.sort 0 (Base T.sort) tokens.now (T.tree r.tree) r.rest.now) }
    ensures shorter { OnFound result (λ r. length r.rest.now < length tokens.now) }
{
    let Some((cast, inside)) = T::opening(tokens) else {
        return T::unbracketed(alloc, tokens);
    };
    let Some(inner) = chain::<T>(alloc, T::loosest(), inside)? else {
        return Ok(None);
    };
    let Some(rest) = behind_sign(T::closing(), inner.rest) else {
        return Ok(None);
    };
    T::bracketed(alloc, cast, inner.tree, rest)
}
