// The rules of a record's fields.
ghost use Rattle.std.specs.Prelude.{◌≡◌};
ghost use Rattle.grammar.specs.Coded.{rule_of};

#[derive(Clone, Copy)]
pub enum Rule {
    // SPAN and NSPAN
    Span,
    Name,
    Text,
    AssignOp,
    UnaryOp,
    BinOp,
    // COUNT and FLAG, with the group of the record's parts that they tell. Parts that a record always has are its first group.
    Count(usize),
    Flag(usize),
}

// A method and not `TryFrom`, whose error would have nothing to say.
impl Rule {
    // The rule of which `rule_numbers` (specs/Table.antt) has the number; 0 is no rule's, and every number from 10 on a FLAG's.
    pub fn of(n: u8) -> Option<Rule>
        ensures { result ≡ rule_of n }
    {
        match n {
            0 => None,
            1 => Some(Rule::Span),
            2 => Some(Rule::Name),
            3 => Some(Rule::Text),
            4 => Some(Rule::AssignOp),
            5 => Some(Rule::UnaryOp),
            6 => Some(Rule::BinOp),
            7..=9 => Some(Rule::Count(usize::from(n - 7))),
            _ => Some(Rule::Flag(usize::from(n - 10))),
        }
    }
}
