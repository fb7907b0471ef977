// Why a datagram is refused by its octets alone, and document 01's number of each reason.

ghost use Rattle.std.specs.Prelude.{◌≡◌};
ghost use Rattle.base_octets.specs.Refused.{refused_number};

use crate::Number;

// The first reason for which a datagram is refused, whatever the table holds.
#[derive(Clone, Copy, Debug, PartialEq, Eq)]
pub enum Refused {
    UnderEight,
    FlagPSet,
    OtherVersion,
    LengthUnfit,
    TypeNotTaken,
    TeidUnfit,
    NotUser,
    PartCut,
    MustUnderstand,
}

impl From<Refused> for u8 {
    ghost from_gives = { λ why n. n ≡ refused_number why };

    fn from(why: Refused) -> u8 {
        match why {
            Refused::UnderEight => Number::UNDER_EIGHT,
            Refused::FlagPSet => Number::FLAG_P_SET,
            Refused::OtherVersion => Number::OTHER_VERSION,
            Refused::LengthUnfit => Number::LENGTH_UNFIT,
            Refused::TypeNotTaken => Number::TYPE_NOT_TAKEN,
            Refused::TeidUnfit => Number::TEID_UNFIT,
            Refused::NotUser => Number::NOT_USER,
            Refused::PartCut => Number::PART_CUT,
            Refused::MustUnderstand => Number::MUST_UNDERSTAND,
        }
    }
}
