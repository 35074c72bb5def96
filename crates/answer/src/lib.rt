// Why the functions of this library refuse: the reasons of document 01's table, and of 02's after it. They answer with a
// Result: Ok with a count, or Err with a reason.
#![tactic(auto)]

ghost use Rattle.std.specs.Prelude.{◌≡◌};
ghost use Rattle.answer.specs.Outcome.{number_of, first_of, second_of};
ghost use Rattle.answer.specs.Answers.{reason_of};

// The reasons in the table's order, numbers 1 to 14, with the places inside.
#[derive(Clone, Copy, Debug, PartialEq, Eq)]
pub enum Reason {
    InvalidSizeRequest,
    InvalidSecret,
    SharingLimitLessThanThreshold,
    SharingMinThreshold,
    NotEnoughShareIdentifiers,
    // The place of the zero.
    SharingInvalidIdentifier(usize),
    // The places of two equal identifiers.
    SharingDuplicateIdentifier(usize, usize),
    InvalidShare,
    InvalidShareElement,
    TooLong,
    CoefficientCount,
    NoRoom,
    RowLengths,
    // The line.
    InvalidSheet(usize),
}

impl Reason {
    // The number in the table. A method and no `From`: docs/PROMISES.md names it, and `number_of` states it.
    pub fn number(self) -> u64
        ensures { result ≡ number_of (reason_of self) }
    {
        match self {
            Reason::InvalidSizeRequest => 1,
            Reason::InvalidSecret => 2,
            Reason::SharingLimitLessThanThreshold => 3,
            Reason::SharingMinThreshold => 4,
            Reason::NotEnoughShareIdentifiers => 5,
            Reason::SharingInvalidIdentifier(_) => 6,
            Reason::SharingDuplicateIdentifier(_, _) => 7,
            Reason::InvalidShare => 8,
            Reason::InvalidShareElement => 9,
            Reason::TooLong => 10,
            Reason::CoefficientCount => 11,
            Reason::NoRoom => 12,
            Reason::RowLengths => 13,
            Reason::InvalidSheet(_) => 14,
        }
    }

    // The first place, 0 where there is none. 0 and no Option, as `word_of` puts it into the word that C gets.
    pub fn first_place(self) -> usize
        ensures { result ≡ first_of (reason_of self) }
    {
        match self {
            Reason::SharingInvalidIdentifier(i) => i,
            Reason::SharingDuplicateIdentifier(i, _) => i,
            Reason::InvalidSheet(k) => k,
            _ => 0,
        }
    }

    // The second place, 0 where there is none. 0 and no Option, as `word_of` puts it into the word that C gets.
    pub fn second_place(self) -> usize
        ensures { result ≡ second_of (reason_of self) }
    {
        match self {
            Reason::SharingDuplicateIdentifier(_, j) => j,
            _ => 0,
        }
    }
}
