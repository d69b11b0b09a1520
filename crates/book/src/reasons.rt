// Why a call is refused, at which row, and in join of which book.
ghost use Rattle.std.specs.Prelude.{◌≡◌};
ghost use Rattle.book.specs.Refusals.{refused};
ghost use Rattle.book.specs.Reasons.{number_of, numbers_of, told, at_start};

use crate::Refusal;

// The reasons in the order of their numbers, 1 to 22.
#[derive(Clone, Copy, Debug, PartialEq, Eq)]
pub enum Reason {
    Contents,
    Rows,
    Length,
    Group,
    Kind,
    Days,
    Coupon,
    Sides,
    Amount,
    LadderGroup,
    JoinedRows,
    Room,
    IssueTerms,
    NetAmount,
    Note,
    OptionTable,
    OptionRow,
    TableLength,
    TableValues,
    SmallBank,
    Place,
    Limits,
}

impl Reason {
    // Its number in document 01 and in the requests after it.
    #[tactic(auto, unfolding(crate::specs::Reasons::number_of))]
    pub fn number(self) -> u8
        ensures { result ≡ number_of self }
    {
        match self {
            Reason::Contents => 1,
            Reason::Rows => 2,
            Reason::Length => 3,
            Reason::Group => 4,
            Reason::Kind => 5,
            Reason::Days => 6,
            Reason::Coupon => 7,
            Reason::Sides => 8,
            Reason::Amount => 9,
            Reason::LadderGroup => 10,
            Reason::JoinedRows => 11,
            Reason::Room => 12,
            Reason::IssueTerms => 13,
            Reason::NetAmount => 14,
            Reason::Note => 15,
            Reason::OptionTable => 16,
            Reason::OptionRow => 17,
            Reason::TableLength => 18,
            Reason::TableValues => 19,
            Reason::SmallBank => 20,
            Reason::Place => 21,
            Reason::Limits => 22,
        }
    }

    // The refusal of a row of the file.
    pub fn at_row(self, row: u16) -> Refused
        ensures { result ≡ record { reason = self; row = row; book = 0 } }
    {
        Refused {
            reason: self,
            row,
            book: 0,
        }
    }
}

// The error of a call: its reason, its row where it is one of a row, and in join its book.
#[derive(Clone, Copy, Debug, PartialEq, Eq)]
pub struct Refused {
    pub reason: Reason,
    pub row: u16,
    pub book: u8,
}

impl From<Reason> for Refused {
    ghost from_gives = { λ reason refused. refused ≡ at_start reason };

    fn from(reason: Reason) -> Refused {
        reason.at_row(0)
    }
}

impl From<Refused> for Refusal {
    ghost from_gives = { λ refused refusal. refusal ≡ numbers_of refused };

    #[tactic(auto, unfolding(crate::specs::Reasons::numbers_of))]
    fn from(refused: Refused) -> Refusal {
        Refusal {
            number: refused.reason.number(),
            row: refused.row,
            book: refused.book,
        }
    }
}

// What an answer tells of its refusal, in numbers: all zero where there is none.
#[tactic(auto, unfolding(crate::specs::Reasons::told, crate::specs::Refusals::refused))]
pub fn told<T>(answer: &Result<T, Refused>) -> Refusal
    ensures { result ≡ told answer.now }
{
    match answer {
        Ok(_) => Refusal::default(),
        Err(refused) => Refusal::from(*refused),
    }
}
