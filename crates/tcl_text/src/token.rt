//! Tokens: as they are cut from the bytes of a line, and as they are read.

use crate::symbol::Symbol;
use tcl_lang::{Line, Name, Op, Ty};

/// A token by its bytes. A number is from 0 to `2^127 - 1`.
#[derive(Drop)]
pub enum Raw {
    Word(Name),
    Number(i128),
    Sign(Symbol),
}

/// A token that was cut, and how many bytes behind its first one belong to it.
#[derive(Drop)]
pub struct Cut {
    pub token: Raw,
    pub more: usize,
}

/// The reserved words that are no instruction and no type.
#[derive(Clone, Copy, PartialEq, Eq)]
pub enum Keyword {
    In,
    Pre,
    Assert,
    Assume,
    Cut,
    Post,
    End,
    Rng,
    Alg,
    Mod,
    True,
    False,
    Ecut,
    Rcut,
    Proc,
    Call,
}

/// A token by what it means. A name is the number of its first occurrence.
#[derive(Clone, Copy, PartialEq, Eq)]
pub enum Token {
    Name(u32),
    Number(i128),
    Kind(Ty),
    Instruction(Op),
    Reserved(Keyword),
    Sign(Symbol),
}

/// What a line of the text is, apart from where it stands.
#[derive(Drop)]
pub enum Statement {
    Program(Line),
    End,
}
