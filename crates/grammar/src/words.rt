// The tables of fourteen words: the word that a field may be is guessed, and tried before the table is looked through.
ghost use Rattle.std.specs.Prelude.{◌≡◌, option_map};
ghost use Rattle.std.specs.Bool.{then_some};
ghost use Rattle.text.specs.Text.{same};
ghost use Rattle.text.specs.Word.{place_in};
ghost use Rattle.grammar.specs.Grammar.{bin_ops, Expr, Guessed, kind_for};
ghost use Rattle.grammar.specs.Coded.{bin_number, kind_of};

use crate::kinds::{Kind, kind_in};
use crate::ops::BinOp;
use text::{is_word, place_in};

// A number that differs for the words of each table; it decides only which word is tried first.
fn guess(field: &[u8]) -> usize {
    if field.len() < 2 {
        return 0;
    }
    (usize::from(field[0]) + 6 * usize::from(field[1]) + 13 * (field.len() % 32)) % 32
}

// x, where the field is the word.
fn if_word<T: Copy>(field: &[u8], word: &[u8], x: T) -> Option<T>
    ensures { result ≡ then_some (same field.now word.now) x }
{
    is_word(field, word).then_some(x)
}

// The kind of the guessed word of an expression, where the field is that word.
#[tactic(auto, using(crate::proofs::KindLaws::tried_expr))]
fn try_expr(field: &[u8]) -> Option<Kind>
    ensures { Guessed (kind_of (kind_for Expr field.now)) result }
{
    match guess(field) {
        4 => if_word(field, b"int", Kind::Int),
        27 => if_word(field, b"id", Kind::Id),
        30 => if_word(field, b"date", Kind::Date),
        18 => if_word(field, b"str", Kind::Str),
        23 => if_word(field, b"caller", Kind::Caller),
        2 => if_word(field, b"native", Kind::Native),
        24 => if_word(field, b"inasset", Kind::Inasset),
        15 => if_word(field, b"now", Kind::Now),
        3 => if_word(field, b"un", Kind::Un),
        31 => if_word(field, b"bin", Kind::Bin),
        5 => if_word(field, b"dot", Kind::Dot),
        29 => if_word(field, b"call", Kind::Call),
        14 => if_word(field, b"checked", Kind::Checked),
        11 => if_word(field, b"wrapping", Kind::Wrapping),
        _ => None,
    }
}

// The kind of the expression with this word.
#[tactic(auto, using(crate::proofs::KindLaws::known, crate::proofs::KindLaws::looked_expr))]
pub fn expr_kind(word: &[u8]) -> Option<Kind>
    ensures { result ≡ kind_of (kind_for Expr word.now) }
{
    if let Some(kind) = try_expr(word) {
        return Some(kind);
    }
    kind_in(
        word,
        b"int id date str caller native inasset now un bin dot call checked wrapping ",
        &[
            Kind::Int,
            Kind::Id,
            Kind::Date,
            Kind::Str,
            Kind::Caller,
            Kind::Native,
            Kind::Inasset,
            Kind::Now,
            Kind::Un,
            Kind::Bin,
            Kind::Dot,
            Kind::Call,
            Kind::Checked,
            Kind::Wrapping,
        ],
    )
}

// The guessed operator of `bin`, where the field is its word.
#[tactic(auto, using(crate::proofs::KindLaws::tried_bin))]
fn try_bin(field: &[u8]) -> Option<BinOp>
    ensures { Guessed (place_in field.now bin_ops) (option_map bin_number result) }
{
    match guess(field) {
        21 => if_word(field, b"or", BinOp::Or),
        28 => if_word(field, b"and", BinOp::And),
        5 => if_word(field, b"eq", BinOp::Eq),
        6 => if_word(field, b"ne", BinOp::Ne),
        30 => if_word(field, b"lt", BinOp::Lt),
        25 => if_word(field, b"gt", BinOp::Gt),
        4 => if_word(field, b"le", BinOp::Le),
        31 => if_word(field, b"ge", BinOp::Ge),
        0 => if_word(field, b"add", BinOp::Add),
        24 => if_word(field, b"sub", BinOp::Sub),
        18 => if_word(field, b"mul", BinOp::Mul),
        1 => if_word(field, b"div", BinOp::Div),
        23 => if_word(field, b"rem", BinOp::Rem),
        10 => if_word(field, b"shr", BinOp::Shr),
        _ => None,
    }
}

// The place of a field among the operators of `bin`.
#[tactic(auto, using(crate::proofs::KindLaws::known_bin, crate::proofs::KindLaws::looked_bin))]
pub fn place_of_bin(field: &[u8]) -> Option<usize>
    ensures { result ≡ place_in field.now bin_ops }
{
    if let Some(op) = try_bin(field) {
        return Some(op.number());
    }
    place_in(field, b"or and eq ne lt gt le ge add sub mul div rem shr ")
}
