//! Calls of `attribute_table`.

use crate::fixtures::{are, cut};
use attribute_table::{
    Image, Kind, Row, RowFault, backward, forward, forward_checked, is_key, is_known, row_of_avp,
    row_of_type, vsa,
};
use std::alloc::Global;
use std::test::Fail;

/// The rows as the RFCs' tables of attributes and this profile list them, apart from the code: the type, the kind, and
/// a letter for each way: Access-Request, Accounting-Request (C), Access-Accept (S), Access-Challenge (H), and
/// Access-Reject (J).
const ROWS: &str = "\
1|Text|ACS
4|Four|AC
5|Four|AC
6|Four|ACS
7|Four|ACS
8|Four|ACS
9|Four|ACS
10|Four|CS
11|Text|CS
12|Four|ACS
13|Four|ACS
14|Four|ACS
15|Four|CS
16|Four|CS
18|Text|SHJ
19|Text|ACS
20|Text|CS
22|Text|CS
25|Plain|CS
27|Four|C
28|Four|CSH
30|Text|AC
31|Text|AC
32|Text|AC
41|Four|C
44|Plain|AC
45|Four|C
46|Four|C
50|Text|C
51|Four|C
55|Time|C
60|Plain|A
61|Four|AC
62|Four|ACS
75|Four|J
76|Four|H
77|Text|AC
78|Plain|S
85|Four|S
87|Text|AC
88|Plain|CS
95|Sixteen|AC
96|Eight|ACS
97|Prefix|ACS
98|Sixteen|ACS
99|Text|CS
100|Plain|CS";

fn name_of(kind: Kind) -> &'static str {
    match kind {
        Kind::Text => "Text",
        Kind::Plain => "Plain",
        Kind::Four => "Four",
        Kind::Eight => "Eight",
        Kind::Sixteen => "Sixteen",
        Kind::Prefix => "Prefix",
        Kind::Time => "Time",
    }
}

/// Whether the row goes the ways of these letters, and no other.
fn goes_ways(row: &Row, letters: &str) -> bool {
    row.access == letters.contains('A')
        && row.accounting == letters.contains('C')
        && row.accept == letters.contains('S')
        && row.challenge == letters.contains('H')
        && row.reject == letters.contains('J')
}

/// Whether a line of the list is a row, under its type and under the code of its AVP.
fn is_row(line: &str) -> Result<bool, Fail> {
    let (code, rest) = cut(line);
    let (kind, letters) = cut(rest);
    let code = code.parse::<u8>()?;
    let row = row_of_type(code).ok_or("a row")?;
    Ok(
        row.code == code
            && row.avp == u32::from(code)
            && name_of(row.kind) == kind
            && goes_ways(&row, letters)
            && row_of_avp(row.avp) == Some(row),
    )
}

#[test]
fn each_row_of_the_list_and_no_other(rt: HostRuntime) -> Result<(), Fail> {
    for line in ROWS.lines() {
        assert!(rt; is_row(line)?, "{line}");
    }
    let types = (0..=255)
        .filter(|code| row_of_type(*code).is_some())
        .count();
    let avps = (0..1000).filter(|code| row_of_avp(*code).is_some()).count();
    assert_eq!(rt; (types, avps), (47, 47));
    Ok(())
}

/// Codes with the V flag clear: those with `yes` are known, though each but the last four has no row.
const KNOWN: &str = "\
yes|24 29 33 258 263 297 401 408 462 485 1 25 27 100
no|0 2 26 79 69 102 257 280 283 400 402 464 65559";

/// In each line a code, and whether it is a key without a vendor, of Microsoft, of the vendor 0, and of another.
const KEYS: &str = "\
69|yes no no no
102|yes no no no
464|yes no no no
12|no yes no no
16|no yes no no
17|no yes no no
13|no no no no";

fn are_known(line: &str) -> Result<bool, Fail> {
    let (known, codes) = cut(line);
    for code in codes.split(' ') {
        if is_known(code.parse::<u32>()?) != (known == "yes") {
            return Ok(false);
        }
    }
    Ok(true)
}

fn are_keys(line: &str) -> Result<bool, Fail> {
    let (code, keys) = cut(line);
    let code = code.parse::<u32>()?;
    let mut wanted = keys.split(' ');
    for vendor in [None, Some(311), Some(0), Some(9)] {
        if is_key(code, vendor) != (wanted.next() == Some("yes")) {
            return Ok(false);
        }
    }
    Ok(true)
}

#[test]
fn codes_that_are_known_and_keys(rt: HostRuntime) -> Result<(), Fail> {
    for line in KNOWN.lines() {
        assert!(rt; are_known(line)?, "{line}");
    }
    // 47 rows, and 33 more.
    assert_eq!(rt; (0..1000).filter(|code| is_known(*code)).count(), 80);
    for line in KEYS.lines() {
        assert!(rt; are_keys(line)?, "{line}");
    }
    Ok(())
}

/// In each line a type, and the fewest and the most octets that a value of zeros has, up to 19.
const SIZES: &str = "\
1|0|19
44|0|19
5|4|4
55|4|4
95|16|16
96|8|8
97|2|18";

/// Whether values of zeros go both ways at these sizes alone.
fn fits_at(line: &str) -> Result<bool, Fail> {
    let (code, rest) = cut(line);
    let (fewest, most) = cut(rest);
    let row = row_of_type(code.parse::<u8>()?).ok_or("a row")?;
    let sizes = fewest.parse::<usize>()?..=most.parse::<usize>()?;
    let value = [0; 19];
    for size in 0..20 {
        let fits = sizes.contains(&size);
        if forward(&row, &value[..size]).is_ok() != fits
            || backward(&row, &value[..size]).is_ok() != fits
        {
            return Ok(false);
        }
    }
    Ok(true)
}

/// In each line a type, a value, and what it becomes in Diameter and in RADIUS: the image, or a word for its fault.
const IMAGES: &str = "\
1|6e656d6f|6e656d6f|6e656d6f
1|ff|text|text
55|000000|size|size
55|00000000|83aa7e80|7c558180
55|83aa7e80|0754fd00|00000000";

/// Whether an image, or its fault, is the one that the word says.
fn is_image(
    alloc: Global,
    image: &Result<Image<'_>, RowFault>,
    wanted: &str,
) -> Result<bool, Fail> {
    match image {
        Ok(image) => are(image.octets(), alloc, wanted),
        Err(RowFault::BadSize) => Ok(wanted == "size"),
        Err(RowFault::BadText) => Ok(wanted == "text"),
        Err(RowFault::TooLong) => Ok(wanted == "long"),
    }
}

/// Whether a value of a type becomes what the line says.
fn has_images(alloc: Global, line: &str) -> Result<bool, Fail> {
    let (code, rest) = cut(line);
    let (value, rest) = cut(rest);
    let (to_diameter, to_radius) = cut(rest);
    let row = row_of_type(code.parse::<u8>()?).ok_or("a row")?;
    let value = hex::decode(alloc, value)?;
    let forwards = is_image(alloc, &forward(&row, &value), to_diameter)?;
    let backwards = is_image(alloc, &backward(&row, &value), to_radius)?;
    Ok(forwards && backwards)
}

#[test]
fn values_both_ways(rt: HostRuntime) -> Result<(), Fail> {
    for line in SIZES.lines() {
        assert!(rt; fits_at(line)?, "{line}");
    }
    for line in IMAGES.lines() {
        assert!(rt; has_images(rt.alloc(), line)?, "{line}");
    }
    Ok(())
}

#[test]
fn the_longest_values(rt: HostRuntime) -> Result<(), Fail> {
    let octets = [0xff; 254];
    for code in [1, 5, 25, 55] {
        let row = row_of_type(code).ok_or("a row")?;
        assert!(rt;
            matches!(backward(&row, &octets), Err(RowFault::TooLong)),
            "{code}"
        );
    }
    let class = row_of_type(25).ok_or("Class")?;
    assert!(rt; backward(&class, &octets[..253]).is_ok());
    assert!(rt; forward(&class, &octets).is_ok());
    assert_eq!(rt;
        forward_checked(&class, &octets).octets(),
        octets.as_slice()
    );
    Ok(())
}

#[test]
fn parts_of_a_vendor(rt: HostRuntime) -> Result<(), Fail> {
    let mut parts = vsa(b"\x00\x00\x00\x09\x01\x05abc\x02\x02").ok_or("parts")?;
    let part = parts.next().ok_or("the first")?;
    assert_eq!(rt; (part.vendor, part.code), (9, 1));
    assert_eq!(rt; part.body, b"abc".as_slice());
    let part = parts.next().ok_or("the second")?;
    assert_eq!(rt; (part.vendor, part.code), (9, 2));
    assert!(rt; part.body.is_empty());
    assert!(rt; parts.next().is_none());
    assert!(rt; parts.next().is_none());
    assert!(rt; vsa(b"\x00\x00\x01\x37").is_none());
    Ok(())
}
