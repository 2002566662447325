// The number of a refusal (docs/REFUSALS.md).
ghost use Rattle.refusals.specs.Numbers.{From, Numbers};

use crate::refusal::Refusal;

// In two parts, as in place.rt: a function has 40 lines at most. The last arm of the second can't come (`From`).
impl Refusal {
    #[tactic(auto, using(crate::proofs::Tags::number_told))]
    pub fn number(self) -> u32
        ensures { Numbers self result }
    {
        match self {
            Refusal::NameStored(_) => 12,
            Refusal::Arity(_) => 13,
            Refusal::OnlyTypes(_) => 14,
            Refusal::InnerType { .. } => 15,
            Refusal::UnknownType(_) => 16,
            Refusal::NoArguments(_) => 17,
            Refusal::Digest(_) => 18,
            Refusal::Default { .. } => 19,
            Refusal::Guardian(_) => 20,
            Refusal::Predicate(_) => 21,
            Refusal::ReachesField { .. } => 22,
            Refusal::ReachesValues { .. } => 22,
            Refusal::ReachesEvent { .. } => 22,
            Refusal::CollectionLocal(_) => 23,
            Refusal::AssetSlot(_) => 24,
            Refusal::NameIntoAddress { .. } => 25,
            Refusal::WrappingIntoNarrow { .. } => 26,
            Refusal::LiteralIntoNarrow { .. } => 27,
            Refusal::SlotMismatch { .. } => 28,
            Refusal::Recipient(_) => 29,
            _ => self.number_from_30(),
        }
    }

    // The same of 30 to 46.
    #[tactic(auto, using(crate::proofs::Tags::number_told))]
    fn number_from_30(self) -> u32
        requires { From 30 self }
        ensures { Numbers self result }
    {
        match self {
            Refusal::Receiver(_) => 30,
            Refusal::KeyedOp { .. } => 31,
            Refusal::Amount { .. } => 32,
            Refusal::NameNotParam { .. } => 33,
            Refusal::NameWanted { .. } => 34,
            Refusal::Holds { .. } => 35,
            Refusal::Not(_) => 36,
            Refusal::Neg(_) => 37,
            Refusal::Logical(_) => 38,
            Refusal::Arithmetic(_) => 39,
            Refusal::Ordering(_) => 40,
            Refusal::NamesCompared(_) => 41,
            Refusal::Compared { .. } => 42,
            Refusal::EmitField { .. } => 43,
            Refusal::Dropped(_) => 44,
            Refusal::Overflow(_) => 45,
            Refusal::KeyKinds { .. } => 46,
            _ => 0,
        }
    }
}
