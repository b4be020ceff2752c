//! Files of a few bytes with the tokens or the error that the grammar gives them, counted by hand.

use std::alloc::{AllocError, Global};
use std::process::Abort;
use std::test::Fail;
use tl_sides::Side;
use tl_token::{Element, Spans, Token, TokenError, TokenKind, tokens};

/// One number of a start tag, where it is not the one that a tag has without attributes.
fn push_number(
    alloc: Global,
    line: &mut String,
    letter: char,
    number: u32,
    usual: u32,
) -> Result<(), AllocError> {
    if number != usual {
        line.push_str(format!(in alloc; " {letter}{number}")?.as_str())?;
    }
    Ok(())
}

/// The side that a start tag asks for, if it asks for one.
fn push_side(alloc: Global, line: &mut String, side: Option<Side>) -> Result<(), AllocError> {
    if let Some(side) = side {
        line.push_str(format!(in alloc; " @{side:?}")?.as_str())?;
    }
    Ok(())
}

fn push_start(
    alloc: Global,
    line: &mut String,
    element: Element,
    spans: Spans,
) -> Result<(), AllocError> {
    line.push_str(format!(in alloc; "<{element:?}")?.as_str())?;
    push_number(alloc, line, 'c', spans.colspan, 1)?;
    push_number(alloc, line, 'r', spans.rowspan, 1)?;
    push_number(alloc, line, 's', spans.span, 1)?;
    push_number(alloc, line, 'm', spans.least, 0)?;
    push_side(alloc, line, spans.align)
}

/// A token as the tables below write it: `<Td c2 0-14>`, `</Td 0-5>` or `[a text 3-9]`.
fn push_token(alloc: Global, line: &mut String, token: &Token) -> Result<(), AllocError> {
    match &token.kind {
        TokenKind::Start(element, spans) => push_start(alloc, line, *element, *spans)?,
        TokenKind::End(element) => line.push_str(format!(in alloc; "</{element:?}")?.as_str())?,
        TokenKind::Text(text) => {
            line.push('[')?;
            line.push_str(text.as_str())?;
        }
    }
    let close = match &token.kind {
        TokenKind::Text(_) => ']',
        _ => '>',
    };
    let first = token.first;
    let past = token.past;
    line.push_str(format!(in alloc; " {first}-{past}{close}")?.as_str())
}

/// The tokens of the bytes, or their error.
fn shown(alloc: Global, bytes: &[u8]) -> Result<String, AllocError> {
    if bytes.len() > 1_048_576 {
        return String::from_str(alloc, "too long");
    }
    match tokens(alloc, bytes) {
        Ok(list) => {
            let mut line = String::new(alloc);
            for token in list.as_slice() {
                if !line.is_empty() {
                    line.push(' ')?;
                }
                push_token(alloc, &mut line, token)?;
            }
            Ok(line)
        }
        Err(error) => format!(in alloc; "{error}"),
    }
}

const TAGS: &str = "
<table> => <Table 0-7>
</table> => </Table 0-8>
<tAbLe></TaBlE> => <Table 0-7> </Table 7-15>
<caption><colgroup><col> => <Caption 0-9> <Colgroup 9-19> <Col 19-24>
<thead><tbody><tfoot> => <Thead 0-7> <Tbody 7-14> <Tfoot 14-21>
<tr><td><th><br><p><div> => <Tr 0-4> <Td 4-8> <Th 8-12> <Br 12-16> <P 16-19> <Div 19-24>
<a><abbr><b><cite> => <Inline 0-3> <Inline 3-9> <Inline 9-12> <Inline 12-18>
<code><em><i><kbd><mark> => <Inline 0-6> <Inline 6-10> <Inline 10-13> <Inline 13-18> <Inline 18-24>
<s><samp><small><span> => <Inline 0-3> <Inline 3-9> <Inline 9-16> <Inline 16-22>
<strong><sub><sup> => <Inline 0-8> <Inline 8-13> <Inline 13-18>
<u><var> => <Inline 0-3> <Inline 3-8>
<html><head><body><meta> => <Outer 0-6> <Outer 6-12> <Outer 12-18> <Outer 18-24>
<td a> => <Td 0-6>
<td a=b> => <Td 0-8>
<td a = b> => <Td 0-10>
<td a=\"b\"> => <Td 0-10>
<td a=''> => <Td 0-9>
<td a=\"x\"b='y'c> => <Td 0-16>
<td a=\"it's\"> => <Td 0-13>
<td a='say \"x\"'> => <Td 0-16>
<td a=\"<>/&\"> => <Td 0-13>
<td/> => <Td 0-5>
<td/a/b/> => <Td 0-9>
<td a=b/> => <Td 0-9>
<td / / a> => <Td 0-10>
</td/> => </Td 0-6>
</td colspan=2> => </Td 0-15>
<td a=\0> => <Td 0-8>
<td \u{85}> => <Td 0-7>
<img> => unknown element at 0
<td><img></td> => unknown element at 4
a</tdx> => unknown element at 1
<td5> => unknown element at 0
<td =a> => bad tag at 0
<td a==b> => bad tag at 0
<td a=b/c=d> => bad tag at 0
<td a=b`c> => bad tag at 0
<td a= > => bad tag at 0
<td \"a\"> => bad tag at 0
<td a=\"b\"=c> => bad tag at 0
x<td a=b\"c\"> => bad tag at 1
<tr><td<tr> => bad tag at 4
<td-x> => bad tag at 0
<?xml?> => bad tag at 0
a<? => bad tag at 1
</ td> => bad tag at 0
</1> => bad tag at 0
</> => bad tag at 0
";

const NUMBERS: &str = "
<td colspan=2> => <Td c2 0-14>
<td COLSPAN='3' rowspan=\"4\"> => <Td c3 r4 0-28>
<th rowspan=0> => <Th r0 0-14>
<td colspan=0> => <Td 0-14>
<td colspan=\" 2px\"> => <Td c2 0-19>
<td colspan=-1> => <Td 0-15>
<td rowspan=-0> => <Td r0 0-15>
<td rowspan=-1> => <Td 0-15>
<td colspan=+3 colspan=2> => <Td c3 0-25>
<td colspan=x colspan=2> => <Td 0-24>
<td colspan colspan=2> => <Td 0-22>
<td colspan=1000> => <Td c1000 0-17>
<td colspan=1001> => <Td c1000 0-17>
<td colspan=99999999999999999999> => <Td c1000 0-33>
<td rowspan=65534> => <Td r65534 0-18>
<td rowspan=65535> => <Td r65534 0-18>
<td data-min=4> => <Td m4 0-15>
<th DATA-MIN=500> => <Th m500 0-17>
<td data-min=501> => <Td m500 0-17>
<td data-min=-4> => <Td 0-16>
<td data-min> => <Td 0-13>
<col span=3> => <Col s3 0-12>
<colgroup span=2000> => <Colgroup s1000 0-20>
<colgroup span=0> => <Colgroup 0-17>
<tr colspan=2 span=2 data-min=2> => <Tr 0-32>
<td span=2> => <Td 0-11>
<col colspan=2 data-min=3> => <Col 0-26>
<td colspan=2&amp;> => <Td c2 0-19>
<td align=left> => <Td @Left 0-15>
<th ALIGN='Right'> => <Th @Right 0-18>
<td align=CENTER colspan=2> => <Td c2 @Center 0-27>
<td align=middle> => <Td 0-17>
<td align=\" right\"> => <Td 0-19>
<td align align=right> => <Td 0-22>
<td align=right align=left> => <Td @Right 0-27>
<tr align=right> => <Tr 0-16>
<col align=right> => <Col 0-17>
";

const TEXTS: &str = "
 => 
abc => [abc 0-3]
é<td>ü => [é 0-2] <Td 2-6> [ü 6-8]
a&amp;b => [a&b 0-7]
&lt;&gt;&quot;&apos; => [<>\"' 0-20]
&nbsp; => [\u{a0} 0-6]
&#65;&#x41;&#X4a; => [AAJ 0-17]
&#233;&#9;&#32;&#160; => [é\t \u{a0} 0-21]
&#x10FFFF; => [\u{10ffff} 0-10]
&#0000000000000000065; => [A 0-22]
&amp => [&amp 0-4]
&;&#;&#x;&#xg;&#65 => [&;&#;&#x;&#xg;&#65 0-18]
&&amp;& => [&&& 0-7]
R & D => [R & D 0-5]
&ampé; => [&ampé; 0-7]
&foo; => bad reference at 0
a&AMP;b => bad reference at 1
ab&#0; => bad reference at 2
&#31; => bad reference at 0
&#127; => bad reference at 0
&#x9F; => bad reference at 0
&#xD800; => bad reference at 0
&#x110000; => bad reference at 0
&#99999999999; => bad reference at 0
a < b => [a < b 0-5]
1<2 => [1<2 0-3]
<<td> => [< 0-1] <Td 1-5>
<>< td><é => [<>< td><é 0-10]
\0 => bad character at 0
a\u{85}b => bad character at 1
<td>\u{7f} => bad character at 4
é\u{9f} => bad character at 2
a\u{8} => bad character at 1
\u{a0} => [\u{a0} 0-2]
\u{feff}a => [a 3-4]
\u{feff} => 
a\u{feff} => [a\u{feff} 0-4]
\u{feff}\u{feff} => [\u{feff} 3-6]
\u{feff}<td> => <Td 3-7>
\u{feff}&x; => bad reference at 3
a<b>c</b>d => [a 0-1] <Inline 1-4> [c 4-5] </Inline 5-9> [d 9-10]
<!--x-->a<!--y--> <td> => [a  8-18] <Td 18-22>
a<!--x--><td> => [a 0-1] <Td 9-13>
&foo;<img> => bad reference at 0
<img>&foo; => unknown element at 0
<td><img => unended tag at 4
a>b\"c'd=e/f` => [a>b\"c'd=e/f` 0-12]
";

const MARKUP: &str = "
<!----> => 
a<!--x-->b => [ab 0-10]
<!-- - -- -> <td> > --> => 
<!--x--y---> => 
<!-->--> => 
<!--\0\u{85}--> => 
<!--> => unended comment at 0
<!---> => unended comment at 0
a<!-- => unended comment at 1
<td><!-- x -- > => unended comment at 4
<!DOCTYPE html> => 
<!doctype> => 
<!doctypehtml \0> => 
a<!DocType x>b => [ab 0-14]
<!docs> => bad tag at 0
a<!x> => bad tag at 1
<!-x => bad tag at 0
<!doctype html => unended tag at 0
ab<!doc => unended tag at 2
<!- => unended tag at 0
a<! => unended tag at 1
< => unended tag at 0
ab< => unended tag at 2
</ => unended tag at 0
x<td a  => unended tag at 1
<td a=\"x> => unended tag at 0
<img => unended tag at 0
<td a=b => unended tag at 0
<td a= => unended tag at 0
<table border=\"1\" class=\"dataframe\"> => <Table 0-36>
";

/// Reads what stands before the arrow of each line after the first, which is empty, and compares
/// what is shown with what stands after the arrow.
fn compare(rt: &impl Abort, alloc: Global, table: &str) -> Result<(), Fail> {
    let cases = table.strip_prefix('\n').ok_or("a case on the first line")?;
    for line in cases.lines() {
        let (input, wanted) = line.split_once(" => ").ok_or("a line without an arrow")?;
        let found = shown(alloc, input.as_bytes())?;
        assert_eq!(rt; found.as_str(), wanted, "{input:?}");
    }
    Ok(())
}

#[test]
fn tags_are_read_or_refused(rt: HostRuntime) -> Result<(), Fail> {
    compare(&rt, rt.alloc(), TAGS)
}

#[test]
fn numbers_are_read_by_the_rules_of_html(rt: HostRuntime) -> Result<(), Fail> {
    compare(&rt, rt.alloc(), NUMBERS)
}

#[test]
fn texts_are_read_or_refused(rt: HostRuntime) -> Result<(), Fail> {
    compare(&rt, rt.alloc(), TEXTS)
}

#[test]
fn comments_and_doctypes_are_hidden_and_unended_ones_refused(rt: HostRuntime) -> Result<(), Fail> {
    compare(&rt, rt.alloc(), MARKUP)
}

#[test]
fn white_space_separates_attributes_and_is_text(rt: HostRuntime) -> Result<(), Fail> {
    let tag = shown(rt.alloc(), b"<td\ta\nb\x0cc\rd>")?;
    assert_eq!(rt; tag.as_str(), "<Td 0-12>");
    let text = shown(rt.alloc(), b"\t\n\x0c\r ")?;
    assert_eq!(rt; text.as_str(), "[\t\n\u{c}\r  0-5]");
    Ok(())
}

#[test]
fn bytes_that_are_no_text_are_refused_first(rt: HostRuntime) -> Result<(), Fail> {
    for (bytes, wanted) in [
        (b"\xff".as_slice(), "not utf-8 at 0"),
        (b"a\xff".as_slice(), "not utf-8 at 1"),
        (b"<td>\xc2".as_slice(), "not utf-8 at 4"),
        (b"&foo;\x80".as_slice(), "not utf-8 at 5"),
        (b"\xed\xa0\x80".as_slice(), "not utf-8 at 0"),
    ] {
        assert_eq!(rt; shown(rt.alloc(), bytes)?.as_str(), wanted);
    }
    Ok(())
}

#[test]
fn each_proper_prefix_of_a_tag_is_unended(rt: HostRuntime) -> Result<(), Fail> {
    let tag = "<td a b=c/ d = \"e f\" g='h'i/>";
    assert_eq!(rt; shown(rt.alloc(), tag.as_bytes())?.as_str(), "<Td 0-29>");
    for cut in 1..tag.len() {
        let prefix = &tag.as_bytes()[..cut];
        assert_eq!(rt; shown(rt.alloc(), prefix)?.as_str(), "unended tag at 0");
    }
    Ok(())
}

/// So many copies of the text.
fn repeated(alloc: Global, text: &str, times: usize) -> Result<Vec<u8>, AllocError> {
    let mut file = Vec::new(alloc);
    for _ in 0..times {
        file.extend_from_slice(text.as_bytes())?;
    }
    Ok(file)
}

// A file of 1,048,576 bytes: three tokens to every 16 bytes, or one text.
#[test]
fn a_file_at_the_limit_is_read(rt: HostRuntime) -> Result<(), Fail> {
    for (bytes, wanted) in [("<td>ab &lt;</td>", 196_608), ("a text of 16 b. ", 1)] {
        let file = repeated(rt.alloc(), bytes, 1 << 16)?;
        assert_eq!(rt; file.len(), 1 << 20);
        let found = tokens(rt.alloc(), file.as_slice())
            .ok()
            .map(|found| found.len());
        assert_eq!(rt; found, Some(wanted), "{bytes:?}");
    }
    Ok(())
}

#[test]
fn each_error_has_its_message(rt: HostRuntime) -> Result<(), Fail> {
    for (error, wanted) in [
        (TokenError::Memory(AllocError), "out of memory"),
        (TokenError::NotUtf8(1), "not utf-8 at 1"),
        (TokenError::UnendedTag(2), "unended tag at 2"),
        (TokenError::UnendedComment(3), "unended comment at 3"),
        (TokenError::BadTag(4), "bad tag at 4"),
        (TokenError::UnknownElement(5), "unknown element at 5"),
        (TokenError::BadReference(6), "bad reference at 6"),
        (TokenError::BadCharacter(7), "bad character at 7"),
    ] {
        assert_eq!(rt; format!(in rt.alloc(); "{error}")?.as_str(), wanted);
    }
    Ok(())
}
