//! Texts of certificates, written by hand, and what reading each of them gives. A row of a table has a text, in
//! which `;` stands for a line feed, and what is wanted.

use std::alloc::{AllocError, Global};
use std::process::Abort;
use std::test::Fail;
use tl_base::MAX_CERTIFICATE_BYTES;
use tl_cert::{
    Bound, CertError, Certificate, Claim, CutAt, End, LogLine, Nogood, Section, Side, read, write,
};

/// Two columns of widths 3 and 5 on a page of 12, of height 2.
const LOWEST: &str =
    "tablelayout 1 12 plain 6\nlowest 2\nsection 0 12 2 2 0 1\nwidths 3 5\nz0 chain\nend\n";

// One text of each kind. In the fifth, four columns on a page of 25, the last line fires the others.
const READ: &str = "\
tablelayout 1 12 plain 6;lowest 2;section 0 12 2 2 0 1;widths 3 5;z0 chain;end; => read
tablelayout 1 12 plain 0;bounded 3 2;section 0 12 3 2 0 1;widths 3 2;z0 chain;end; => read
tablelayout 1 11 plain 5000;narrow 12;chain 0 0 1;end; => read
tablelayout 1 6 plain 5000;narrow 7;chain 0 0:1;chain 1 0 1;end; => read
tablelayout 1 25 plain 3;lowest 4;section 0 25 4 4 3 3;widths 1 1 4 4;\
    cut 0 0 0;cut 1 1 0;cut 3 2 0;2-8 chain;2+9 chain;z0 @0 @1 fired;end; => read
tablelayout 2 7 plain 0;lowest 2;section 0 7 2 2 0 1;widths 1 1;z0 area;end; => read
tablelayout 1 1 frame 0;lowest 0;section 0 1 0 0 0 1;widths;0-3 0+4 cycle;end; => read
tablelayout 1 9 compact 6;lowest 2;section 0 9 2 2 0 1;widths 3 5;z0 chain;end; => read
tablelayout 1 10 grid 0;narrow 11;chain 0 0 1;end; => read
tablelayout 1 10 box 0;narrow 11;chain 0 0 1;end; => read";

// A number is as long as its digits go on, past 64 bits too, whatever follows it. A second zero is wrong in the
// number of a claim too. Chains stand with `narrow` and sections with the others, and no area with `narrow`.
const FAULTS: &str = "\
tablelayout 1 12 plain 6\r; => syntax at 24
 => syntax at 0
tablelayout 3 => syntax at 12
tablelayout 1 0 plain 6; => range at 14
tablelayout 1 00 plain 6; => syntax at 15
tablelayout 1 501 => range at 14
tablelayout 1 18446744073709551616 plain => range at 14
tablelayout 1 99999999999999999999x => range at 14
tablelayout 1 12 fancy 6; => syntax at 18
tablelayout 1 12 cramped 6; => syntax at 18
tablelayout 1 12 grad 6; => syntax at 19
tablelayout 1 12 boxes 6; => syntax at 20
tablelayout 1 12 compacts 6; => syntax at 24
tablelayout 1 12 plain 6;lowest 02 => syntax at 33
tablelayout 1 12 plain 6;lowest 2;chain 0 0;end; => syntax at 34
tablelayout 1 12 plain 6;narrow 2;section 0 => syntax at 34
tablelayout 2 12 plain 6;narrow 2; => syntax at 25
tablelayout 1 12 plain 6;narrow 2;end; => syntax at 34
tablelayout 1 12 plain 6;narrow 2;chain 0 ;end; => syntax at 42";

// The log line begins at byte 66. At most eight lines are fired, and there are at most eight bounds, in order: by
// span, "at most" before "at least", each once.
const LINES: &str = "\
z0 chain => read
z0 fired  => syntax at 74
z0 chair => syntax at 73
z0  chain => syntax at 69
z0 @0 @0 @0 @0 @0 @0 @0 @0 cycle => read
z0 @0 @0 @0 @0 @0 @0 @0 @0 @0 cycle => syntax at 93
0-1 1-1 2-1 3-1 4-1 5-1 6-1 7-1 cycle => read
0-1 1-1 2-1 3-1 4-1 5-1 6-1 7-1 8-1 cycle => syntax at 98
0-3 0+4 cycle => read
0+3 0-4 cycle => syntax at 70
0-3 0-3 cycle => syntax at 71
12-3 1-4 cycle => syntax at 72
12-3 1 => syntax at 72
12+3 12+4 cycle => syntax at 73
12-3 13-4 cycle => read
12-3 02-4 cycle => syntax at 71
07-3 cycle => syntax at 67";

// The section begins at byte 34, its last number at byte 53, its widths at byte 55. There are as many cuts and log
// lines as its first line announces, and widths may follow.
const SECTIONS: &str = "\
section 0 12 2 2 0 0;widths => range at 53
section 0 12 2 2 0 2;widths => range at 53
section 0 12 2 2 0 1;widths => read
section 0 12 2 2 0 1;widths  => syntax at 62
section 0 12 2 2 0 1;widths 3  5 => syntax at 64
section 0 12 2 2 0 1;widths;cut 0 0 0 => syntax at 62
section 0 12 2 2 1 1;widths => syntax at 62
section 0 12 2 2 1 1;widths;cut 0 0 0 => read
section 0 12 2 2 1 3;widths;cut 0 0 0 => syntax at 81
section 0 12 2 2 1 4;widths;cut 0 0 0 => range at 53";

// In version 2 a log line ends by `area`, in the last section at the latest, and in version 1 none.
const AREAS: &str = "\
1 12 plain 6;lowest 2;section 0 12 2 2 0 1;widths 3 5;z0 chain => read
1 12 plain 6;lowest 2;section 0 12 2 2 0 1;widths 3 5;z0 area => syntax at 69
2 12 plain 6;lowest 2;section 0 12 2 2 0 1;widths 3 5;z0 chain => syntax at 75
2 12 plain 6;lowest 2;section 0 12 2 2 0 1;widths 3 5;z0 area => read";

// Each number of the head at its limit, and one past it.
const HEAD_LIMITS: &str = "\
tablelayout 1 1 plain 6;lowest 2 => read
tablelayout 1 0 plain 6;lowest 2 => range at 14
tablelayout 1 500 plain 6;lowest 2 => read
tablelayout 1 501 plain 6;lowest 2 => range at 14
tablelayout 1 12 plain 100000;lowest 2 => read
tablelayout 1 12 plain 100001;lowest 2 => range at 23
tablelayout 1 12 plain 6;lowest 1073741824 => read
tablelayout 1 12 plain 6;lowest 1073741825 => range at 32
tablelayout 1 12 plain 6;bounded 1073741824 2 => read
tablelayout 1 12 plain 6;bounded 1073741825 2 => range at 33
tablelayout 1 12 plain 6;bounded 3 1073741824 => read
tablelayout 1 12 plain 6;bounded 3 1073741825 => range at 35";

// Each number of a chain, and that of `narrow`, at its limit, and one past it.
const CHAIN_LIMITS: &str = "\
1073741824;chain 0 0 1 => read
1073741825;chain 0 0 1 => range at 32
2;chain 199 0 1 => read
2;chain 200 0 1 => range at 40
2;chain 0 20000 => read
2;chain 0 20001 => range at 42
2;chain 0 0:199 => read
2;chain 0 0:200 => range at 44";

// Each number of a section, its cuts and its log lines at its limit, and one past it.
const SECTION_LIMITS: &str = "\
section 199 12 2 2 0 1;widths;z0 chain => read
section 200 12 2 2 0 1;widths;z0 chain => range at 42
section 0 500 2 2 0 1;widths;z0 chain => read
section 0 501 2 2 0 1;widths;z0 chain => range at 44
section 0 12 1073741824 2 0 1;widths;z0 chain => read
section 0 12 1073741825 2 0 1;widths;z0 chain => range at 47
section 0 12 2 1073741824 0 1;widths;z0 chain => read
section 0 12 2 1073741825 0 1;widths;z0 chain => range at 49
section 0 12 2 2 0 1;widths 3 500;z0 chain => read
section 0 12 2 2 0 1;widths 3 501;z0 chain => range at 64
section 0 12 2 2 1 1;widths;cut 200000 0 0;z0 chain => read
section 0 12 2 2 1 1;widths;cut 200001 0 0;z0 chain => range at 66
section 0 12 2 2 1 1;widths;cut 0 1829 0;z0 chain => read
section 0 12 2 2 1 1;widths;cut 0 1830 0;z0 chain => range at 68
section 0 12 2 2 1 1;widths;cut 0 0 499;z0 chain => read
section 0 12 2 2 1 1;widths;cut 0 0 500;z0 chain => range at 70
section 0 12 2 2 0 1;widths;z200000 chain => read
section 0 12 2 2 0 1;widths;z200001 chain => range at 63
section 0 12 2 2 0 1;widths;z0 @200000 fired => read
section 0 12 2 2 0 1;widths;z0 @200001 fired => range at 66
section 0 12 2 2 0 1;widths;1829-3 chain => read
section 0 12 2 2 0 1;widths;1830-3 chain => range at 62
section 0 12 2 2 0 1;widths;0+500 chain => read
section 0 12 2 2 0 1;widths;0+501 chain => range at 64";

/// What reading the text gives: its fault, or that it is written again as it is.
fn outcome(alloc: Global, text: &[u8]) -> Result<String, AllocError> {
    match read(alloc, text) {
        Err(error) => format!(in alloc; "{error}"),
        Ok(certificate) => {
            let again = write(alloc, &certificate)?;
            if again.as_slice() == text {
                String::from_str(alloc, "read")
            } else {
                String::from_str(alloc, "written in another way")
            }
        }
    }
}

/// That each row's text, with `before` and `after` around it, gives what is wanted.
fn compare(
    rt: &impl Abort,
    alloc: Global,
    before: &str,
    table: &str,
    after: &str,
) -> Result<(), Fail> {
    for row in table.lines() {
        let (text, wanted) = row.split_once(" => ").ok_or("a row without an arrow")?;
        let text = format!(in alloc; "{before}{text}{after}")?;
        let text = text.as_str().replace(alloc, ";", "\n")?;
        let found = outcome(alloc, text.as_bytes())?;
        assert_eq!(rt; found.as_str(), wanted, "{row}");
    }
    Ok(())
}

#[test]
fn texts_are_read_and_written_again(rt: HostRuntime) -> Result<(), Fail> {
    compare(&rt, rt.alloc(), "", READ, "")
}

/// The page's width, the budget, the claim and how many chains there are; then of each section its widths, how
/// many cuts there are, and its lines.
fn shown(alloc: Global, certificate: &Certificate) -> Result<String, AllocError> {
    let mut text = format!(in alloc;
        "{} {} {:?} {}; ",
        certificate.width,
        certificate.budget,
        certificate.claim,
        certificate.chains.len()
    )?;
    for section in &certificate.sections {
        let widths = section.widths.as_slice();
        text.push_str(&format!(in alloc; "{widths:?} {}; ", section.trace.len())?)?;
        for line in &section.log {
            text.push_str(&shown_line(alloc, line)?)?;
        }
    }
    Ok(text)
}

/// The zone of the line, if it has one, and its end.
fn shown_line(alloc: Global, line: &LogLine) -> Result<String, AllocError> {
    match line.nogood {
        Nogood::Zone(zone) => format!(in alloc; "z{zone} {:?}; ", line.end),
        Nogood::Bounds(_) => format!(in alloc; "bounds {:?}; ", line.end),
    }
}

#[test]
fn a_certificate_has_the_numbers_of_its_text(rt: HostRuntime) -> Result<(), Fail> {
    let certificate = read(rt.alloc(), LOWEST.as_bytes())?;
    let found = shown(rt.alloc(), &certificate)?;
    assert_eq!(rt; found.as_str(), "12 6 Lowest(2) 0; [3, 5] 0; z0 Chain; ");
    Ok(())
}

#[test]
fn a_fault_stands_at_its_place(rt: HostRuntime) -> Result<(), Fail> {
    compare(&rt, rt.alloc(), "", FAULTS, "")
}

#[test]
fn a_fault_in_a_log_line_stands_at_its_place(rt: HostRuntime) -> Result<(), Fail> {
    let before = "tablelayout 1 12 plain 6;lowest 2;section 0 12 2 2 0 1;widths 3 5;";
    compare(&rt, rt.alloc(), before, LINES, ";end;")
}

#[test]
fn a_fault_in_a_section_stands_at_its_place(rt: HostRuntime) -> Result<(), Fail> {
    let before = "tablelayout 1 12 plain 6;lowest 2;";
    compare(&rt, rt.alloc(), before, SECTIONS, ";z0 chain;end;")
}

#[test]
fn an_area_line_stands_in_version_2_alone(rt: HostRuntime) -> Result<(), Fail> {
    compare(&rt, rt.alloc(), "tablelayout ", AREAS, ";end;")
}

#[test]
fn numbers_of_the_head_go_up_to_their_limits(rt: HostRuntime) -> Result<(), Fail> {
    let after = ";section 0 12 2 2 0 1;widths 3 5;z0 chain;end;";
    compare(&rt, rt.alloc(), "", HEAD_LIMITS, after)
}

#[test]
fn numbers_of_chains_go_up_to_their_limits(rt: HostRuntime) -> Result<(), Fail> {
    let before = "tablelayout 1 12 plain 6;narrow ";
    compare(&rt, rt.alloc(), before, CHAIN_LIMITS, ";end;")
}

#[test]
fn numbers_of_sections_go_up_to_their_limits(rt: HostRuntime) -> Result<(), Fail> {
    let before = "tablelayout 1 12 plain 6;lowest 2;";
    compare(&rt, rt.alloc(), before, SECTION_LIMITS, ";end;")
}

/// What reading gives of the text that has each part so many times.
fn repeated_outcome(alloc: Global, parts: &[(u32, &str)]) -> Result<String, AllocError> {
    let mut text = String::new(alloc);
    for &(count, part) in parts {
        for _ in 0..count {
            text.push_str(part)?;
        }
    }
    outcome(alloc, text.as_bytes())
}

#[test]
fn there_are_at_most_60_widths(rt: HostRuntime) -> Result<(), Fail> {
    let before = "tablelayout 1 12 plain 6\nlowest 2\nsection 0 12 2 2 0 1\nwidths";
    let after = "\nz0 chain\nend\n";
    for (count, want) in [(60, "read"), (61, "syntax at 181")] {
        let found = repeated_outcome(rt.alloc(), &[(1, before), (count, " 3"), (1, after)])?;
        assert_eq!(rt; found.as_str(), want);
    }
    Ok(())
}

// The start has 33 bytes and each section 36. The last line has to begin where one too many does.
#[test]
fn there_are_at_most_100001_sections(rt: HostRuntime) -> Result<(), Fail> {
    let before = "tablelayout 1 1 plain 0\nlowest 0\n";
    let section = "section 0 1 0 0 0 1\nwidths\nz0 cycle\n";
    for (count, want) in [(100_001, "read"), (100_002, "syntax at 3600069")] {
        let found = repeated_outcome(rt.alloc(), &[(1, before), (count, section), (1, "end\n")])?;
        assert_eq!(rt; found.as_str(), want);
    }
    Ok(())
}

/// What reading gives of the text with so many cuts and log lines.
fn cuts_outcome(alloc: Global, cuts: u32, lines: u32) -> Result<String, AllocError> {
    let before = format!(in alloc;
        "tablelayout 1 12 plain 6\nlowest 2\nsection 0 12 2 2 {cuts} {lines}\nwidths\n"
    )?;
    let before = before.as_str();
    let (cut, line) = ("cut 0 0 0\n", "z0 cycle\n");
    repeated_outcome(
        alloc,
        &[(1, before), (cuts, cut), (lines, line), (1, "end\n")],
    )
}

// The number of cuts is byte 51. With 100,000 cuts there are at most 200,001 log lines.
#[test]
fn there_are_at_most_100000_cuts(rt: HostRuntime) -> Result<(), Fail> {
    for (cuts, lines, want) in [
        (100_000, 200_001, "read"),
        (100_000, 200_002, "range at 58"),
        (100_001, 200_001, "range at 51"),
    ] {
        let found = cuts_outcome(rt.alloc(), cuts, lines)?;
        assert_eq!(rt; found.as_str(), want);
    }
    Ok(())
}

// Up to the limit the first of these bytes is wrong, and past it there are too many.
#[test]
fn there_are_at_most_1073741824_bytes(rt: HostRuntime) -> Result<(), Fail> {
    let pages = vec![in rt.alloc(); [b'x'; 4096]; MAX_CERTIFICATE_BYTES / 4096 + 1]?;
    let bytes = pages.as_flattened();
    let most = bytes.get(..MAX_CERTIFICATE_BYTES).ok_or("too few bytes")?;
    assert!(rt; matches!(read(rt.alloc(), most), Err(CertError::Syntax(0))));
    let past = bytes
        .get(..MAX_CERTIFICATE_BYTES + 1)
        .ok_or("too few bytes")?;
    assert!(rt; matches!(read(rt.alloc(), past), Err(CertError::TooLong)));
    Ok(())
}

// A prefix of the text is no text, and it goes wrong where it ends.
#[test]
fn a_prefix_goes_wrong_where_it_ends(rt: HostRuntime) {
    let bytes = LOWEST.as_bytes();
    for length in 0..bytes.len() {
        assert!(rt;
            matches!(read(rt.alloc(), &bytes[..length]), Err(CertError::Syntax(place)) if place as usize == length),
            "{length}"
        );
    }
}

/// What reading gives of the text with another byte at this place, or that the byte is there already.
fn changed_outcome(alloc: Global, place: usize, byte: u8) -> Result<String, AllocError> {
    let mut bytes = LOWEST.as_bytes().to_vec(alloc)?;
    if place >= bytes.len() || bytes[place] == byte {
        return String::from_str(alloc, "unchanged");
    }
    bytes[place] = byte;
    outcome(alloc, &bytes)
}

// With one byte changed, 22 texts are read: the page's width becomes 92, 10 or 19, the budget and the claim
// 0 or 9, the table 9, the section's width 92, 10 or 19, its height and its lower bound 0 or 9, each of the
// two widths 0 or 9, both of them 305 or 395 in one, and the zone 9.
#[test]
fn a_text_with_one_byte_changed_is_refused_or_spells_another_certificate(
    rt: HostRuntime,
) -> Result<(), Fail> {
    let mut read_texts = 0u32;
    for place in 0..LOWEST.len() {
        for byte in *b"09z \n" {
            let found = changed_outcome(rt.alloc(), place, byte)?;
            assert!(rt; found.as_str() != "written in another way", "{place}");
            if found.as_str() == "read" {
                read_texts = read_texts.saturating_add(1);
            }
        }
    }
    assert_eq!(rt; read_texts, 22);
    Ok(())
}

#[test]
fn each_error_has_its_message(rt: HostRuntime) -> Result<(), Fail> {
    let found = format!(in rt.alloc();
        "{}, {}, {}, {}",
        CertError::Memory(AllocError),
        CertError::Syntax(33),
        CertError::Range(14),
        CertError::TooLong
    )?;
    assert_eq!(rt;
        found.as_str(),
        "out of memory, syntax at 33, range at 14, too long"
    );
    Ok(())
}

fn share<T: Send + Sync + Drop>(_value: T) {}

// Each of the types may be shared and sent between threads.
#[test]
fn certificates_and_their_parts_may_go_to_other_threads() {
    share::<Option<Certificate>>(None);
    share::<Option<Section>>(None);
    share::<Option<LogLine>>(None);
    share::<Option<Nogood>>(None);
    share::<Option<Bound>>(None);
    share::<Option<Side>>(None);
    share::<Option<End>>(None);
    share::<Option<CutAt>>(None);
    share::<Option<Claim>>(None);
    share::<Option<CertError>>(None);
}
