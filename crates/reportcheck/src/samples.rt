//! Reports line by line, and damages of them.
use std::alloc::{AllocError, Global};

/// A report by month, whose titles have two publishers.
pub(crate) const BY_MONTH: [&[u8]; 8] = [
    b"Journal Report 1(R3),Number of Successful Full-text Article Requests by Month and Journal\r\n",
    b"Test College\r\n",
    b"Date run:\r\n",
    b"2009-03-01\r\n",
    b",Publisher,Platform,Print ISSN,Online ISSN,Jan-2009,Feb-2009,YTD Total,YTD HTML,YTD PDF\r\n",
    b"Total for all journals,,Host,,,3,1,4,2,2\r\n",
    b"Kiln Annals,Kiln Press,Host,1000-0003,2000-0006,3,0,3,2,1\r\n",
    b"Lock Letters,Lock Press,Host,3000-0009,,0,1,1,0,1\r\n",
];

/// The same with one publisher.
pub(crate) const ONE_PUBLISHER: [&[u8]; 8] = [
    b"Journal Report 1(R3),Number of Successful Full-text Article Requests by Month and Journal\r\n",
    b"Test College\r\n",
    b"Date run:\r\n",
    b"2096-02-29\r\n",
    b",Publisher,Platform,Print ISSN,Online ISSN,Jan-2009,Feb-2009,YTD Total,YTD HTML,YTD PDF\r\n",
    b"Total for all journals,Kiln Press,Host,,,3,1,4,2,2\r\n",
    b"Kiln Annals,Kiln Press,Host,1000-0003,2000-0006,3,0,3,2,1\r\n",
    b"1984,Kiln Press,Host,,,0,1,1,0,1\r\n",
];

/// A report by year of publication. Its total, which is not shown, is over 1,000,000,000.
pub(crate) const BY_YEAR: [&[u8]; 9] = [
    b"Journal Report 5 (R3),Number of Successful Full-text Article Requests by Year and Journal\r\n",
    b"Test College\r\n",
    b"Date run:\r\n",
    b"2009-12-31\r\n",
    b",Publisher,Platform,Print ISSN,Online ISSN,YOP-2009,YOP-2008,YOP-2007,YOP-2006,YOP-2005,YOP Pre-2005\r\n",
    b"Total for all journals,Kiln Press,Host,,,1000000000,10,0,0,1000000000,7\r\n",
    b"Kiln Annals,Kiln Press,Host,1000-0003,2000-0006,999999999,10,0,0,0,7\r\n",
    b"Kiln Notes,Kiln Press,Host,,2434-561X,1,0,0,0,400000000,0\r\n",
    b"Kiln Proceedings,Kiln Press,Host,,,0,0,0,0,600000000,0\r\n",
];

/// A damaged copy of a report: what is wrong, the line, counted from 0, that other bytes replace, these bytes, and whether
/// the lines behind it follow.
// A tuple: forty of them in a row read as a table, and each is taken apart in one place.
pub(crate) type Damage = (&'static str, usize, &'static [u8], bool);

/// Damages of the report by month.
pub(crate) const MONTH_DAMAGES: [Damage; 36] = [
    ("an empty file", 0, b"", false),
    ("a comma, and the end", 0, b"Journal Report 1(R3),", false),
    (
        "a space before (R3)",
        0,
        b"Journal Report 1 (R3),Number of Successful Full-text Article Requests by Month and Journal\r\n",
        true,
    ),
    (
        "a third cell in line 1",
        0,
        b"Journal Report 1(R3),Number of Successful Full-text Article Requests by Month and Journal,\r\n",
        true,
    ),
    ("criteria of two cells", 1, b"Test College,\r\n", true),
    ("no criteria", 1, b"\r\n", true),
    (
        "criteria in quotation marks",
        1,
        b"\"Test College\"\r\n",
        true,
    ),
    ("LF alone behind the criteria", 1, b"Test College\n", true),
    ("29 February 2009", 3, b"2009-02-29\r\n", true),
    ("a short date", 3, b"2009-3-01\r\n", true),
    (
        "no blank before Publisher",
        4,
        b"Publisher,Platform,Print ISSN,Online ISSN,Jan-2009,Feb-2009,YTD Total,YTD HTML,YTD PDF\r\n",
        true,
    ),
    (
        "months exchanged",
        4,
        b",Publisher,Platform,Print ISSN,Online ISSN,Feb-2009,Jan-2009,YTD Total,YTD HTML,YTD PDF\r\n",
        true,
    ),
    (
        "no YTD PDF",
        4,
        b",Publisher,Platform,Print ISSN,Online ISSN,Jan-2009,Feb-2009,YTD Total,YTD HTML\r\n",
        true,
    ),
    (
        "a leading zero in line 6",
        5,
        b"Total for all journals,,Host,,,03,1,4,2,2\r\n",
        true,
    ),
    (
        "a publisher that is not shared",
        5,
        b"Total for all journals,Kiln Press,Host,,,3,1,4,2,2\r\n",
        true,
    ),
    (
        "a wrong total",
        5,
        b"Total for all journals,,Host,,,3,1,5,2,2\r\n",
        true,
    ),
    (
        "a wrong sum of a column, and a wrong total",
        5,
        b"Total for all journals,,Host,,,3,2,5,2,2\r\n",
        true,
    ),
    (
        "HTML and PDF of line 6 one off",
        5,
        b"Total for all journals,,Host,,,3,1,4,1,3\r\n",
        true,
    ),
    (
        "no platform",
        5,
        b"Total for all journals,,,,,3,1,4,2,2\r\n",
        true,
    ),
    (
        "an ISSN in line 6",
        5,
        b"Total for all journals,,Host,1000-0003,,3,1,4,2,2\r\n",
        true,
    ),
    ("no titles", 6, b"", false),
    (
        "a wrong total of a title",
        6,
        b"Kiln Annals,Kiln Press,Host,1000-0003,2000-0006,3,0,4,2,1\r\n",
        true,
    ),
    (
        "a wrong total, and a sign before HTML",
        6,
        b"Kiln Annals,Kiln Press,Host,1000-0003,2000-0006,3,0,4,+2,1\r\n",
        true,
    ),
    (
        "HTML and PDF that make up another total",
        6,
        b"Kiln Annals,Kiln Press,Host,1000-0003,2000-0006,3,0,3,1,1\r\n",
        true,
    ),
    (
        "HTML over the total",
        6,
        b"Kiln Annals,Kiln Press,Host,1000-0003,2000-0006,3,0,3,4,0\r\n",
        true,
    ),
    (
        "another platform",
        7,
        b"Lock Letters,Lock Press,Hosts,3000-0009,,0,1,1,0,1\r\n",
        true,
    ),
    (
        "a wrong check sign",
        7,
        b"Lock Letters,Lock Press,Host,3000-0008,,0,1,1,0,1\r\n",
        true,
    ),
    (
        "a space for the online ISSN",
        7,
        b"Lock Letters,Lock Press,Host,3000-0009, ,0,1,1,0,1\r\n",
        true,
    ),
    (
        "a blank number",
        7,
        b"Lock Letters,Lock Press,Host,3000-0009,,,1,1,0,1\r\n",
        true,
    ),
    (
        "a number over 1,000,000,000",
        7,
        b"Lock Letters,Lock Press,Host,3000-0009,,0,1000000001,1,0,1\r\n",
        true,
    ),
    (
        "a title's line cut short",
        7,
        b"Lock Letters,Lock Press,Host,3000-0009,,0,1,1\r\n",
        true,
    ),
    (
        "a wrong sum in a line cut short",
        7,
        b"Lock Letters,Lock Press,Host,3000-0009,,0,1,2\r\n",
        true,
    ),
    (
        "a title's line too long",
        7,
        b"Lock Letters,Lock Press,Host,3000-0009,,0,1,1,0,1,9\r\n",
        true,
    ),
    (
        "no CR LF at the end",
        7,
        b"Lock Letters,Lock Press,Host,3000-0009,,0,1,1,0,1",
        true,
    ),
    (
        "a blank line at the end",
        7,
        b"Lock Letters,Lock Press,Host,3000-0009,,0,1,1,0,1\r\n\r\n",
        true,
    ),
    (
        "one more title, with zeros",
        7,
        b"Lock Letters,Lock Press,Host,3000-0009,,0,1,1,0,1\r\nLock News,Lock Press,Host,,,0,0,0,0,0\r\n",
        true,
    ),
];

/// Damages of the report by year.
pub(crate) const YEAR_DAMAGES: [Damage; 4] = [
    (
        "no space before (R3)",
        0,
        b"Journal Report 5(R3),Number of Successful Full-text Article Requests by Year and Journal\r\n",
        true,
    ),
    (
        "a blank where all share the publisher",
        5,
        b"Total for all journals,,Host,,,1000000000,10,0,0,1000000000,7\r\n",
        true,
    ),
    (
        "a sum that cannot be shown",
        8,
        b"Kiln Proceedings,Kiln Press,Host,,,0,0,0,0,600000001,0\r\n",
        true,
    ),
    (
        "a year to date",
        6,
        b"Kiln Annals,Kiln Press,Host,1000-0003,2000-0006,999999999,10,0,0,0,7,1000000016\r\n",
        true,
    ),
];

/// A file of these lines.
pub(crate) fn whole(heap: Global, lines: &[&[u8]]) -> Result<Vec<u8>, AllocError> {
    let mut file = Vec::new(heap);
    for line in lines {
        file.extend_from_slice(line)?;
    }
    Ok(file)
}

/// A damaged copy of the file of these lines.
pub(crate) fn damaged(
    heap: Global,
    lines: &[&[u8]],
    damage: &Damage,
) -> Result<Vec<u8>, AllocError> {
    let (_, at, bytes, goes_on) = *damage;
    let mut file = Vec::new(heap);
    for (i, line) in lines.iter().enumerate() {
        if i < at || (i > at && goes_on) {
            file.extend_from_slice(line)?;
        } else if i == at {
            file.extend_from_slice(bytes)?;
        }
    }
    Ok(file)
}

/// A report by year of so many titles, none of which was read.
pub(crate) fn repeated(heap: Global, titles: usize) -> Result<Vec<u8>, AllocError> {
    let mut file = Vec::new(heap);
    for line in &BY_YEAR[..5] {
        file.extend_from_slice(line)?;
    }
    file.extend_from_slice(b"Total for all journals,Kiln Press,Host,,,0,0,0,0,0,0\r\n")?;
    for _ in 0..titles {
        file.extend_from_slice(b"Kiln Notes,Kiln Press,Host,,,0,0,0,0,0,0\r\n")?;
    }
    Ok(file)
}
