//! Tables of what depends on a small number alone: roots of unity and their inverses by the logarithm of
//! their order, and the inverses of small counts.
ghost use Rattle.std.specs.Prelude.{◌≡◌, ◌≤◌, ◌^◌};
ghost use Rattle.flp_field.specs.Word.{word_product};
ghost use Rattle.flp_field.specs.Domain.{alpha};

use crate::word::Fe;

/// The root of unity of order 2^k at place k: each is the square of the next, and the last is the generator.
const ROOTS: [u64; 33] = [
    1,
    18446744069414584320,
    281474976710656,
    18446744069397807105,
    17293822564807737345,
    70368744161280,
    549755813888,
    17870292113338400769,
    13797081185216407910,
    1803076106186727246,
    11353340290879379826,
    455906449640507599,
    17492915097719143606,
    1532612707718625687,
    16207902636198568418,
    17776499369601055404,
    6115771955107415310,
    12380578893860276750,
    9306717745644682924,
    18146160046829613826,
    3511170319078647661,
    17654865857378133588,
    5416168637041100469,
    16905767614792059275,
    9713644485405565297,
    5456943929260765144,
    17096174751763063430,
    1213594585890690845,
    6414415596519834757,
    16116352524544190054,
    9123114210336311365,
    4614640910117430873,
    1753635133440165772,
];

/// The inverses of the roots, at the same places.
const INVERSE_ROOTS: [u64; 33] = [
    1,
    18446744069414584320,
    18446462594437873665,
    1099511627520,
    68719476736,
    18446744069414322177,
    18302628881338728449,
    18442240469787213841,
    2117504431143841456,
    4459017075746761332,
    4295002282146690441,
    8548973421900915981,
    11164456749895610016,
    3968367389790187850,
    4654242210262998966,
    1553425662128427817,
    7868944258580147481,
    14744321562856667967,
    2513567076326282710,
    5089696809409609209,
    17260140776825220475,
    11898519751787946856,
    15307271466853436433,
    5456584715443070302,
    1219213613525454263,
    13843946492009319323,
    16884827967813875098,
    10516896061424301529,
    4514835231089717636,
    16488041148801377373,
    16303955383020744715,
    10790884855407511297,
    8554224884056360729,
];

/// The inverse of k + 1 at place k.
const INVERSE_COUNTS: [u64; 16] = [
    1,
    9223372034707292161,
    12297829379609722881,
    13835058052060938241,
    14757395255531667457,
    15372286724512153601,
    2635249152773512046,
    16140901060737761281,
    4099276459869907627,
    16602069662473125889,
    8384883667915720146,
    16909515396963368961,
    11351842504255128813,
    1317624576386756023,
    17216961131453612033,
    17293822565076172801,
];

impl Fe {
    /// The root of unity of order 2^log: the power of 7^4294967295 with the exponent 2^32 / 2^log.
    #[inline]
    pub fn root(log: u32) -> Fe
        requires { log ≤ 32 }
        ensures { result ≡ alpha (2 ^ log) }
    {
        Fe::from_word(ROOTS[log as usize])
    }

    /// The inverse of the root of unity of order 2^log.
    #[inline]
    pub fn inverse_root(log: u32) -> Fe
        requires { log ≤ 32 }
        ensures { word_product result (alpha (2 ^ log)) ≡ 1 }
    {
        Fe::from_word(INVERSE_ROOTS[log as usize])
    }

    /// The inverse of a count from 1 to 16.
    #[inline]
    pub fn inverse_of(count: u32) -> Fe
        requires some { 1 ≤ count }
        requires few { count ≤ 16 }
        ensures { word_product result count ≡ 1 }
    {
        Fe::from_word(INVERSE_COUNTS[count as usize - 1])
    }
}
