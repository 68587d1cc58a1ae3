//! The rows of the attributes that are copied one by one.

ghost use Rattle.std.specs.Prelude.{◌≡◌};
ghost use Rattle.attribute_table.specs.Rows as table;
ghost use Rattle.attribute_table.specs.Rows.{row_of};

/// What a value is.
#[derive(Clone, Copy, PartialEq, Eq)]
pub enum Kind {
    /// UTF-8 of any length, none included.
    Text,
    /// Any octets.
    Plain,
    /// Four octets.
    Four,
    /// Eight octets.
    Eight,
    /// Sixteen octets.
    Sixteen,
    /// An IPv6 prefix, in 2 to 18 octets (RFC 3162, section 2.3).
    Prefix,
    /// Four octets of seconds, from 1970 in RADIUS and from 1900 in Diameter.
    Time,
}

/// An attribute that becomes one AVP, and the packets in which it does.
#[derive(Clone, Copy, PartialEq, Eq)]
pub struct Row {
    /// The type of the attribute.
    pub code: u8,
    /// The code of the AVP.
    pub avp: u32,
    pub kind: Kind,
    /// Copied from an Access-Request.
    pub access: bool,
    /// Copied from an Accounting-Request.
    pub accounting: bool,
    /// Copied into an Access-Accept.
    pub accept: bool,
    /// Copied into an Access-Challenge.
    pub challenge: bool,
    /// Copied into an Access-Reject.
    pub reject: bool,
}

/// The ways of a row.
const A: u8 = 1;

const C: u8 = 2;

const S: u8 = 4;

const H: u8 = 8;

const J: u8 = 16;

macro_rules! row {
    ($code:literal, $kind:ident, $ways:expr) => {
        Row {
            code: $code,
            avp: $code,
            kind: Kind::$kind,
            access: $ways & A != 0,
            accounting: $ways & C != 0,
            accept: $ways & S != 0,
            challenge: $ways & H != 0,
            reject: $ways & J != 0,
        }
    };
}

const ROWS: [Row; 47] = [
    row!(1, Text, A | C | S),
    row!(4, Four, A | C),
    row!(5, Four, A | C),
    row!(6, Four, A | C | S),
    row!(7, Four, A | C | S),
    row!(8, Four, A | C | S),
    row!(9, Four, A | C | S),
    row!(10, Four, C | S),
    row!(11, Text, C | S),
    row!(12, Four, A | C | S),
    row!(13, Four, A | C | S),
    row!(14, Four, A | C | S),
    row!(15, Four, C | S),
    row!(16, Four, C | S),
    row!(18, Text, S | H | J),
    row!(19, Text, A | C | S),
    row!(20, Text, C | S),
    row!(22, Text, C | S),
    row!(25, Plain, C | S),
    row!(27, Four, C),
    row!(28, Four, C | S | H),
    row!(30, Text, A | C),
    row!(31, Text, A | C),
    row!(32, Text, A | C),
    row!(41, Four, C),
    row!(44, Plain, A | C),
    row!(45, Four, C),
    row!(46, Four, C),
    row!(50, Text, C),
    row!(51, Four, C),
    row!(55, Time, C),
    row!(60, Plain, A),
    row!(61, Four, A | C),
    row!(62, Four, A | C | S),
    row!(75, Four, J),
    row!(76, Four, H),
    row!(77, Text, A | C),
    row!(78, Plain, S),
    row!(85, Four, S),
    row!(87, Text, A | C),
    row!(88, Plain, C | S),
    row!(95, Sixteen, A | C),
    row!(96, Eight, A | C | S),
    row!(97, Prefix, A | C | S),
    row!(98, Sixteen, A | C | S),
    row!(99, Text, C | S),
    row!(100, Plain, C | S),
];

/// The row of the attributes of a type.
#[tactic(auto, unfolding(crate::specs::Rows::row_of, crate::specs::Rows::rows))]
pub fn row_of_type(code: u8) -> Option<Row>
    ensures { result ≡ row_of code }
{
    ROWS.iter().find(|row| row.code == code).copied()
}

/// The row of the AVPs with a code, the V flag clear.
#[tactic(auto, unfolding(crate::specs::Rows::row_of_avp, crate::specs::Rows::rows))]
pub fn row_of_avp(code: u32) -> Option<Row>
    ensures { result ≡ table.row_of_avp code }
{
    ROWS.iter().find(|row| row.avp == code).copied()
}
