// Refusals, each with what its message needs: lines and types. `refusal_of` of specs/Refusal.antt gives its
// number, place and text.

use rules::Ty;

#[derive(Clone, Copy)]
pub enum Refusal {
    // 12, 13, 14: the type
    NameStored(usize),
    Arity(usize),
    OnlyTypes(usize),
    // 15
    InnerType {
        ty: usize,
        inner: usize,
        is_key: bool,
    },
    // 16, 17: the type
    UnknownType(usize),
    NoArguments(usize),
    // 18: the field or parameter
    Digest(usize),
    // 19: the field and its default
    Default {
        field: usize,
        value: usize,
    },
    // 20: the type
    Guardian(usize),
    // 21: the condition
    Predicate(usize),
    // 22: what is assigned, whose `set` it is, or the emit
    ReachesField {
        target: usize,
        value: usize,
    },
    ReachesValues {
        map: usize,
        value: usize,
    },
    ReachesEvent {
        emit: usize,
        value: usize,
    },
    // 23: the value
    CollectionLocal(usize),
    // 24 to 28: a target is an expression or, for a default, the field
    AssetSlot(usize),
    NameIntoAddress {
        target: usize,
        value: usize,
    },
    WrappingIntoNarrow {
        target: usize,
        value: usize,
    },
    LiteralIntoNarrow {
        target: usize,
        value: usize,
        max: u64,
    },
    SlotMismatch {
        value: usize,
        slot: Ty,
        given: Ty,
    },
    // 29: the argument
    Recipient(usize),
    // 30: the callee
    Receiver(usize),
    // 31
    KeyedOp {
        callee: usize,
        field: usize,
    },
    // 32
    Amount {
        callee: usize,
        arg: usize,
    },
    // 33, 34
    NameNotParam {
        field: usize,
        arg: usize,
    },
    NameWanted {
        field: usize,
        arg: usize,
    },
    // 35
    Holds {
        field: usize,
        arg: usize,
        want: Ty,
        got: Ty,
    },
    // 36 to 40: the operand
    Not(usize),
    Neg(usize),
    Logical(usize),
    Arithmetic(usize),
    Ordering(usize),
    // 41: the left side
    NamesCompared(usize),
    // 42: the right side, and the types of both
    Compared {
        right: usize,
        l: Ty,
        r: Ty,
    },
    // 43
    EmitField {
        arg: usize,
        param: usize,
        got: Ty,
    },
    // 44: the call
    Dropped(usize),
    // 45: the assignment
    Overflow(usize),
    // 46
    KeyKinds {
        map: usize,
        key: usize,
    },
}
