// Why something is refused: the numbers of docs/REFUSALS.md by their names there (rules 5.4, 9.2, 10.2, 12.9, 13.5 to 13.7). Assumes nothing.
ghost use Rattle.std.specs.Prelude.{◌≡◌};
ghost use Rattle.model.specs.Refusals.{refusal_no};

// Tests and readers return a refusal as the error of a `Result`; an answer tells its number.
#[derive(Clone, Copy, PartialEq, Eq)]
pub enum Refusal {
    Unsound,
    NoSuchTask,
    NoSuchResource,
    Undeclared,
    NotSuspended,
    NotActive,
    NoProcessor,
    NotRunning,
    TicksOutOfRange,
    ClockLimit,
    PastBudget,
    NotRecharging,
    BeforeDeadline,
    AlreadyHeld,
    WouldDeadlock,
    NotOwned,
    NotTop,
    BadCounts,
    BadReservation,
    BadDeclaration,
    FewRows,
    CutShort,
    BadRecord,
    OutOfOrder,
    TooLong,
    BadSectionCounts,
    BadSection,
    ResourceOrder,
    ChildrenTooLong,
    NoSuchBoundTask,
    BadAllowance,
    AllowanceSpent,
    Suspended,
    Waiting,
    NotServed,
}

impl From<Refusal> for u16 {
    ghost from_gives = { λ refusal n. n ≡ refusal_no refusal };

    fn from(refusal: Refusal) -> u16 {
        match refusal {
            Refusal::Unsound => 1,
            Refusal::NoSuchTask => 2,
            Refusal::NoSuchResource => 3,
            Refusal::Undeclared => 4,
            Refusal::NotSuspended => 5,
            Refusal::NotActive => 7,
            Refusal::NoProcessor => 8,
            Refusal::NotRunning => 9,
            Refusal::TicksOutOfRange => 10,
            Refusal::ClockLimit => 11,
            Refusal::PastBudget => 12,
            Refusal::NotRecharging => 13,
            Refusal::BeforeDeadline => 14,
            Refusal::AlreadyHeld => 15,
            Refusal::WouldDeadlock => 16,
            Refusal::NotOwned => 17,
            Refusal::NotTop => 18,
            Refusal::BadCounts => 19,
            Refusal::BadReservation => 20,
            Refusal::BadDeclaration => 21,
            Refusal::FewRows => 22,
            Refusal::CutShort => 30,
            Refusal::BadRecord => 31,
            Refusal::OutOfOrder => 32,
            Refusal::TooLong => 33,
            Refusal::BadSectionCounts => 40,
            Refusal::BadSection => 41,
            Refusal::ResourceOrder => 42,
            Refusal::ChildrenTooLong => 43,
            Refusal::NoSuchBoundTask => 44,
            Refusal::BadAllowance => 45,
            Refusal::AllowanceSpent => 46,
            Refusal::Suspended => 61,
            Refusal::Waiting => 62,
            Refusal::NotServed => 63,
        }
    }
}
