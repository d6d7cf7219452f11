// The numbers of names, by first occurrence, and tokens by what they mean.

ghost use Rattle.std.specs.Prelude.{◌≡◌, [], map, IfOk, OnOk};
ghost use Rattle.tcl_text.specs.Numbering as numbering;

use crate::text::words::meaning_of;
use indexmap::IndexSet;
use std::alloc::{AllocError, Global};
use std::marker::Model;
use tcl_lang::Names;
use tcl_list::Listing;
use tcl_text::{Raw, Token};

/// The names so far, by their numbers.
#[derive(Drop)]
pub(crate) struct NameTable {
    names: IndexSet<Vec<u8>>,
}

impl Model for NameTable {
    ghost use Rattle.std.specs.Prelude.{ℕ, List, map};
    ghost use Rattle.std.specs.Coded.{codes};

    ghost Value = { List (List ℕ) };

    ghost coded = { Prim.hlevel (codes) };

    ghost view = { λ t. map (λ name. name.items) t.names.keys };
}

impl NameTable {
    /// No names.
    pub fn new(alloc: Global) -> Self
        ensures { result ≡ [] }
    {
        NameTable {
            names: IndexSet::new(alloc),
        }
    }

    /// The number of a name. A new name gets the next number.
    fn enter(&mut self, name: Vec<u8>) -> Result<usize, AllocError>
        ensures number { IfOk result (λ n. n ≡ numbering.number_of self.old name.items) }
        ensures names { OnOk result (self.new ≡ numbering.with_name self.old name.items) }
    {
        let Ok((number, _)) = self.names.insert_full(name) else {
            return Err(AllocError);
        };
        Ok(number)
    }

    /// The number of a name by its bytes.
    fn number_of(&mut self, alloc: Global, name: &[u8]) -> Result<u32, AllocError>
        ensures number { IfOk result (λ n. n ≡ numbering.number_of self.old name.now) }
        ensures names { OnOk result (self.new ≡ numbering.with_name self.old name.now) }
    {
        match u32::try_from(self.enter(Vec::from_slice(alloc, name)?)?) {
            Ok(number) => Ok(number),
            Err(_) => Err(AllocError),
        }
    }

    /// The token that a raw token is. A new name gets the next number.
    fn token_of(&mut self, alloc: Global, raw: &Raw) -> Result<Token, AllocError>
        ensures token { IfOk result (λ token. token ≡ numbering.token_of self.old raw.now) }
        ensures names { OnOk result (self.new ≡ numbering.names_after_token self.old raw.now) }
    {
        match raw {
            Raw::Word(word) => match meaning_of(word.as_slice()) {
                Some(token) => Ok(token),
                None => Ok(Token::Name(self.number_of(alloc, word.as_slice())?)),
            },
            Raw::Number(number) => Ok(Token::Number(*number)),
            Raw::Sign(symbol) => Ok(Token::Sign(*symbol)),
        }
    }

    /// The tokens of a line. New names get the next numbers.
    pub fn tokens_of(&mut self, alloc: Global, raws: &[Raw]) -> Result<Listing<Token>, AllocError>
        ensures tokens { IfOk result (λ tokens. tokens ≡ numbering.tokens_of self.old raws.now) }
        ensures names { OnOk result (self.new ≡ numbering.names_after self.old raws.now) }
    {
        let mut tokens = Listing::new(alloc);
        for raw in raws {
            tokens.push(self.token_of(alloc, raw)?)?;
        }
        Ok(tokens)
    }

    /// The names by their numbers.
    pub fn names(&self, alloc: Global) -> Result<Names, AllocError>
        ensures { IfOk result (λ names. names ≡ self.now) }
    {
        names_of(alloc, self.names.as_slice())
    }
}

/// Copies of the names.
fn names_of(alloc: Global, keys: &[Vec<u8>]) -> Result<Names, AllocError>
    ensures { IfOk result (λ names. names ≡ map (λ key. key.items) keys.now) }
{
    let mut names = Listing::new(alloc);
    for key in keys {
        names.push(Listing::from_vec(Vec::from_slice(alloc, key.as_slice())?))?;
    }
    Ok(names)
}
