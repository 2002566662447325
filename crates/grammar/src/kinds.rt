// The records of a sheet, by their words. A record's kind is its place among all of them (specs/Kinds.antt).
ghost use Rattle.std.specs.Prelude.{◌≡◌, option_and_then, slice_get};
ghost use Rattle.text.specs.Word.{place_in, split};
ghost use Rattle.grammar.specs.Grammar.{kind_for};
ghost use Rattle.grammar.specs.Coded.{kind_number, kind_of, sort_meant};

use crate::sorts::Sort;
use crate::tells::Tells;
use crate::words::expr_kind;
use text::place_in;

#[derive(Clone, Copy, PartialEq, Eq)]
pub enum Kind {
    Contract,
    State,
    Event,
    Invariant,
    Genesis,
    Entry,
    Field,
    Param,
    Type,
    Num,
    Mofn,
    Limits,
    Denies,
    Mints,
    After,
    Guard,
    Let,
    Emit,
    Assign,
    Do,
    Int,
    Id,
    Date,
    Str,
    Caller,
    Native,
    Inasset,
    Now,
    Un,
    Bin,
    Dot,
    Call,
    Checked,
    Wrapping,
}

// Methods and not `From` and `TryFrom`: each says which number it is, and `of` has nothing to say of a number that is of no kind.
impl Kind {
    // Its place among all records.
    pub fn number(self) -> usize
        ensures { result ≡ kind_number self }
    {
        self as usize
    }

    // The kind of a number.
    pub fn of(n: usize) -> Option<Kind>
        ensures { result ≡ kind_of n }
    {
        match n {
            0 => Some(Kind::Contract),
            1 => Some(Kind::State),
            2 => Some(Kind::Event),
            3 => Some(Kind::Invariant),
            4 => Some(Kind::Genesis),
            5 => Some(Kind::Entry),
            6 => Some(Kind::Field),
            7 => Some(Kind::Param),
            8 => Some(Kind::Type),
            9 => Some(Kind::Num),
            10 => Some(Kind::Mofn),
            11 => Some(Kind::Limits),
            12 => Some(Kind::Denies),
            13 => Some(Kind::Mints),
            14 => Some(Kind::After),
            15 => Some(Kind::Guard),
            16 => Some(Kind::Let),
            17 => Some(Kind::Emit),
            18 => Some(Kind::Assign),
            19 => Some(Kind::Do),
            20 => Some(Kind::Int),
            21 => Some(Kind::Id),
            22 => Some(Kind::Date),
            23 => Some(Kind::Str),
            24 => Some(Kind::Caller),
            25 => Some(Kind::Native),
            26 => Some(Kind::Inasset),
            27 => Some(Kind::Now),
            28 => Some(Kind::Un),
            29 => Some(Kind::Bin),
            30 => Some(Kind::Dot),
            31 => Some(Kind::Call),
            32 => Some(Kind::Checked),
            33 => Some(Kind::Wrapping),
            _ => None,
        }
    }
}

// The kind at a place, if there is one.
fn nth_kind(kinds: &[Kind], place: usize) -> Option<Kind>
    ensures { result ≡ slice_get kinds.now place }
{
    kinds.get(place).copied()
}

// The kind of the record with this word, where the words of a table are those of some kinds. The words are one text and the
// kinds one byte each, since what is constant is laid out on the stack at each call: an array of pairs would be 24 bytes a word.
pub fn kind_in(word: &[u8], table: &[u8], kinds: &[Kind]) -> Option<Kind>
    ensures { result ≡ option_and_then (slice_get kinds.now) (place_in word.now (split table.now)) }
{
    nth_kind(kinds, place_in(word, table)?)
}

// The kind of the record with this word where a sort is due, if it is allowed there.
fn kind_due(sort: Sort, word: &[u8]) -> Option<Kind>
    ensures { result ≡ kind_of (kind_for (sort_meant sort) word.now) }
{
    match sort {
        Sort::Contract => kind_in(word, b"contract ", &[Kind::Contract]),
        Sort::Item => kind_in(
            word,
            b"state event invariant genesis entry ",
            &[
                Kind::State,
                Kind::Event,
                Kind::Invariant,
                Kind::Genesis,
                Kind::Entry,
            ],
        ),
        Sort::Field => kind_in(word, b"field ", &[Kind::Field]),
        Sort::Param => kind_in(word, b"param ", &[Kind::Param]),
        Sort::Ty => kind_in(word, b"type ", &[Kind::Type]),
        Sort::Arg => kind_in(
            word,
            b"type num mofn ",
            &[Kind::Type, Kind::Num, Kind::Mofn],
        ),
        Sort::Clause => kind_in(
            word,
            b"limits denies mints after ",
            &[Kind::Limits, Kind::Denies, Kind::Mints, Kind::After],
        ),
        Sort::Stmt => kind_in(
            word,
            b"guard let emit assign do ",
            &[Kind::Guard, Kind::Let, Kind::Emit, Kind::Assign, Kind::Do],
        ),
        Sort::Expr => expr_kind(word),
    }
}

// The same, for a sort or its number.
pub fn kind_for<S: Tells<Sort>>(sort: S, word: &[u8]) -> Option<Kind>
    ensures { result ≡ kind_of (kind_for (sort_meant (S.meaning sort)) word.now) }
{
    kind_due(sort.told(), word)
}
