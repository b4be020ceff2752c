//! Writes the text of a certificate.

ghost use Rattle.std.specs.Prelude.{◌≡◌, ◌+◌, ◌*◌, ◌∷◌, [], ◌++◌, OnOk, IfOk};
ghost use Rattle.std.specs.List.{flat_map};
ghost use Rattle.tl_cert.specs.Pieces.{numeral, spell, character};
ghost use Rattle.tl_cert.specs.Text as text;
ghost use Rattle.tl_cert.specs.inner.Head.{head_text};

use crate::certificate::{Certificate, Claim};
use crate::log::{Bound, End, LogLine, Nogood, Side};
use crate::section::Section;
use crate::section_text::has_area as log_has_area;
use crate::trace::CutAt;
use std::alloc::{AllocError, Global};
use tl_base::{Chain, Entry, List, MAX_PAGE_WIDTH, Style};

/// Appends the canonical decimal of a number, digit by digit.
#[tactic(auto, using(crate::proofs::Appending::digits))]
fn put_number(out: &mut List<u8>, number: u64) -> Result<(), AllocError>
    ensures { OnOk result (out.new ≡ out.old ++ numeral number) }
{
    if number >= 10 {
        put_number(out, number / 10)?;
    }
    out.push(b'0' + (number % 10) as u8)?;
    Ok(())
}

/// Appends a number and the byte that ends it.
fn put_field(out: &mut List<u8>, number: u64, end: u8) -> Result<(), AllocError>
    ensures { OnOk result (out.new ≡ out.old ++ (numeral number ++ (end ∷ []))) }
{
    put_number(out, number)?;
    out.push(end)?;
    Ok(())
}

fn put_entry(out: &mut List<u8>, entry: &Entry) -> Result<(), AllocError>
    ensures { OnOk result (out.new ≡ out.old ++ spell (text.entry_pieces entry.now)) }
{
    put_number(out, u64::from(entry.cell))?;
    if let Some(table) = entry.inner {
        out.push(b':')?;
        put_number(out, u64::from(table))?;
    }
    Ok(())
}

fn put_entries(out: &mut List<u8>, entries: &[Entry]) -> Result<(), AllocError>
    ensures { OnOk result (out.new ≡ out.old
        ++ spell (flat_map (λ entry. character text.space ∷ text.entry_pieces entry) entries.now)) }
{
    'entries: for entry in entries {
        out.push(b' ')?;
        put_entry(out, entry)?;
    }
    Ok(())
}

fn put_chain(out: &mut List<u8>, chain: &Chain) -> Result<(), AllocError>
    ensures { OnOk result (out.new ≡ out.old ++ spell (text.chain_pieces chain.now)) }
{
    let entries = chain.entries.as_slice();
    out.extend_from_slice(b"chain ")?;
    put_number(out, u64::from(chain.table))?;
    put_entries(out, entries)?;
    out.push(b'\n')?;
    Ok(())
}

fn put_chains(out: &mut List<u8>, chains: &[Chain]) -> Result<(), AllocError>
    ensures { OnOk result (out.new ≡ out.old ++ spell (flat_map text.chain_pieces chains.now)) }
{
    'chains: for chain in chains {
        put_chain(out, chain)?;
    }
    Ok(())
}

fn put_cut(out: &mut List<u8>, cut: &CutAt) -> Result<(), AllocError>
    ensures { OnOk result (out.new ≡ out.old ++ spell (text.cut_pieces cut.now)) }
{
    out.extend_from_slice(b"cut ")?;
    put_field(out, u64::from(cut.zone), b' ')?;
    put_field(out, u64::from(cut.span), b' ')?;
    put_field(out, u64::from(cut.class), b'\n')
}

fn put_cuts(out: &mut List<u8>, cuts: &[CutAt]) -> Result<(), AllocError>
    ensures { OnOk result (out.new ≡ out.old ++ spell (flat_map text.cut_pieces cuts.now)) }
{
    'cuts: for cut in cuts {
        put_cut(out, cut)?;
    }
    Ok(())
}

fn side_sign(side: Side) -> u8
    ensures { result ≡ text.side_sign side }
{
    match side {
        Side::Most => b'-',
        Side::Least => b'+',
    }
}

fn put_bound(out: &mut List<u8>, bound: &Bound) -> Result<(), AllocError>
    ensures { OnOk result (out.new ≡ out.old ++ spell (text.bound_pieces bound.now)) }
{
    put_field(out, u64::from(bound.span), side_sign(bound.side))?;
    put_number(out, u64::from(bound.width))
}

fn put_later_bounds(out: &mut List<u8>, bounds: &[Bound]) -> Result<(), AllocError>
    ensures { OnOk result (out.new ≡ out.old
        ++ spell (flat_map (λ bound. character text.space ∷ text.bound_pieces bound) bounds.now)) }
{
    'bounds: for bound in bounds {
        out.push(b' ')?;
        put_bound(out, bound)?;
    }
    Ok(())
}

fn put_bounds(out: &mut List<u8>, bounds: &[Bound]) -> Result<(), AllocError>
    ensures { OnOk result (out.new ≡ out.old ++ spell (text.bounds_pieces bounds.now)) }
{
    match bounds.split_first() {
        None => Ok(()),
        Some((first, others)) => {
            put_bound(out, first)?;
            put_later_bounds(out, others)
        }
    }
}

fn put_nogood(out: &mut List<u8>, nogood: &Nogood) -> Result<(), AllocError>
    ensures { OnOk result (out.new ≡ out.old ++ spell (text.nogood_pieces nogood.now)) }
{
    match nogood {
        Nogood::Zone(zone) => {
            out.push(b'z')?;
            put_number(out, u64::from(*zone))
        }
        Nogood::Bounds(bounds) => put_bounds(out, bounds.as_slice()),
    }
}

fn put_fires(out: &mut List<u8>, fires: &[u32]) -> Result<(), AllocError>
    ensures { OnOk result (out.new ≡ out.old ++ spell (flat_map text.fire_pieces fires.now)) }
{
    'fires: for line in fires {
        out.extend_from_slice(b" @")?;
        put_number(out, u64::from(*line))?;
    }
    Ok(())
}

fn put_end(out: &mut List<u8>, end: End) -> Result<(), AllocError>
    ensures { OnOk result (out.new ≡ out.old ++ text.end_word end) }
{
    match end {
        End::Fired => out.extend_from_slice(b"fired\n"),
        End::Cycle => out.extend_from_slice(b"cycle\n"),
        End::Chain => out.extend_from_slice(b"chain\n"),
        End::Area => out.extend_from_slice(b"area\n"),
    }
}

fn put_line(out: &mut List<u8>, line: &LogLine) -> Result<(), AllocError>
    ensures { OnOk result (out.new ≡ out.old ++ spell (text.line_pieces line.now)) }
{
    let fires = line.fires.as_slice();
    put_nogood(out, &line.nogood)?;
    put_fires(out, fires)?;
    out.push(b' ')?;
    put_end(out, line.end)?;
    Ok(())
}

fn put_lines(out: &mut List<u8>, lines: &[LogLine]) -> Result<(), AllocError>
    ensures { OnOk result (out.new ≡ out.old ++ spell (flat_map text.line_pieces lines.now)) }
{
    'lines: for line in lines {
        put_line(out, line)?;
    }
    Ok(())
}

fn put_widths(out: &mut List<u8>, widths: &[u32]) -> Result<(), AllocError>
    ensures { OnOk result (out.new ≡ out.old ++ spell (flat_map (text.spaced MAX_PAGE_WIDTH) widths.now)) }
{
    'widths: for width in widths {
        out.extend_from_slice(b" ")?;
        put_number(out, u64::from(*width))?;
    }
    Ok(())
}

/// Appends the six numbers of a section's first line.
fn put_section_head(out: &mut List<u8>, section: &Section) -> Result<(), AllocError>
    ensures { OnOk result (out.new ≡ out.old ++ spell (text.section_head section.now)) }
{
    out.extend_from_slice(b"section ")?;
    put_field(out, u64::from(section.table), b' ')?;
    put_field(out, u64::from(section.width), b' ')?;
    put_field(out, u64::from(section.height), b' ')?;
    put_field(out, u64::from(section.lower), b' ')?;
    put_field(out, section.trace.len() as u64, b' ')?;
    put_field(out, section.log.len() as u64, b'\n')
}

fn put_section(out: &mut List<u8>, section: &Section) -> Result<(), AllocError>
    ensures { OnOk result (out.new ≡ out.old ++ spell (text.section_pieces section.now)) }
{
    let widths = section.widths.as_slice();
    let trace = section.trace.as_slice();
    let log = section.log.as_slice();
    put_section_head(out, section)?;
    out.extend_from_slice(b"widths")?;
    put_widths(out, widths)?;
    out.push(b'\n')?;
    put_cuts(out, trace)?;
    put_lines(out, log)?;
    Ok(())
}

fn put_sections(out: &mut List<u8>, sections: &[Section]) -> Result<(), AllocError>
    ensures { OnOk result (out.new ≡ out.old ++ spell (flat_map text.section_pieces sections.now)) }
{
    'sections: for section in sections {
        put_section(out, section)?;
    }
    Ok(())
}

/// Whether a log line of the certificate ends by `area`.
fn has_area(sections: &[Section]) -> bool
    ensures { result ≡ text.has_area sections.now }
{
    sections
        .iter()
        .any(|section| log_has_area(section.log.as_slice()))
}

fn put_version(out: &mut List<u8>, has_area: bool) -> Result<(), AllocError>
    ensures { OnOk result (out.new ≡ out.old ++ text.version_word has_area) }
{
    if has_area {
        out.extend_from_slice(b"2 ")
    } else {
        out.extend_from_slice(b"1 ")
    }
}

fn put_style(out: &mut List<u8>, style: Style) -> Result<(), AllocError>
    ensures { OnOk result (out.new ≡ out.old ++ text.style_field style) }
{
    match style {
        Style::Plain => out.extend_from_slice(b"plain "),
        Style::Compact => out.extend_from_slice(b"compact "),
        Style::Frame => out.extend_from_slice(b"frame "),
        Style::Grid => out.extend_from_slice(b"grid "),
        Style::Box => out.extend_from_slice(b"box "),
        Style::Rule => out.extend_from_slice(b"rule "),
        Style::Apart => out.extend_from_slice(b"apart "),
    }
}

fn put_bounded(out: &mut List<u8>, height: u32, lower: u32) -> Result<(), AllocError>
    ensures { OnOk result (out.new ≡ out.old ++ spell (text.claim_pieces (Claim.Bounded height lower))) }
{
    out.extend_from_slice(b"bounded ")?;
    put_field(out, u64::from(height), b' ')?;
    put_field(out, u64::from(lower), b'\n')
}

fn put_claim(out: &mut List<u8>, claim: Claim) -> Result<(), AllocError>
    ensures { OnOk result (out.new ≡ out.old ++ spell (text.claim_pieces claim)) }
{
    match claim {
        Claim::Lowest(height) => {
            out.extend_from_slice(b"lowest ")?;
            put_field(out, u64::from(height), b'\n')
        }
        Claim::Bounded(height, lower) => put_bounded(out, height, lower),
        Claim::Narrow(least) => {
            out.extend_from_slice(b"narrow ")?;
            put_field(out, u64::from(least), b'\n')
        }
    }
}

/// Appends the first line.
fn put_head(out: &mut List<u8>, certificate: &Certificate) -> Result<(), AllocError>
    ensures { OnOk result (out.new ≡ out.old ++ head_text certificate.now) }
{
    let sections = certificate.sections.as_slice();
    out.extend_from_slice(b"tablelayout ")?;
    put_version(out, has_area(sections))?;
    put_field(out, u64::from(certificate.width), b' ')?;
    put_style(out, certificate.style)?;
    put_field(out, u64::from(certificate.budget), b'\n')?;
    Ok(())
}

/// The text of a certificate.
pub fn write(alloc: Global, certificate: &Certificate) -> Result<List<u8>, AllocError>
    requires { text.IsWritable certificate.now }
    ensures { IfOk result (λ bytes. bytes ≡ text.cert_text certificate.now) }
{
    let chains = certificate.chains.as_slice();
    let sections = certificate.sections.as_slice();
    let mut out = List::new(alloc);
    put_head(&mut out, certificate)?;
    put_claim(&mut out, certificate.claim)?;
    put_chains(&mut out, chains)?;
    put_sections(&mut out, sections)?;
    out.extend_from_slice(b"end\n")?;
    Ok(out)
}
