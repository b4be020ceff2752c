//! Reads a whole certificate.

ghost use Rattle.std.specs.Prelude.{◌≡◌, ◌≤◌, [], length, IfOk, IfErr, alloc_error};
ghost use Rattle.tl_base.specs.Returned.{ReturnsOk, ReturnsError, IsMemoryOr};
ghost use Rattle.tl_cert.specs.declared.certificate.Certificate.{Certificate};
ghost use Rattle.tl_cert.specs.declared.error.CertError.{CertError};
ghost use Rattle.tl_cert.specs.declared.error.CertError.TheVariants.{Memory};
ghost use Rattle.tl_cert.specs.Faults.{IsTextOf, IsNoText};
ghost use Rattle.tl_cert.specs.inner.Gives.{Gives, ReturnsAs};
ghost use Rattle.tl_cert.specs.inner.CertReading as read;

use crate::areas::Areas;
use crate::certificate::{Certificate, Claim};
use crate::error::CertError;
use crate::reader::{Fault, Reader};
use std::alloc::{AllocError, Global};
use tl_base::{List, MAX_BUDGET, MAX_CERTIFICATE_BYTES, MAX_HEIGHT, MAX_PAGE_WIDTH, Style};

/// The first line of a certificate.
#[derive(Clone, Copy)]
struct Head {
    /// Whether a log line ends by `area`, as one does in version 2 alone.
    has_area: bool,
    width: u32,
    style: Style,
    budget: u32,
}

impl<'a> Reader<'a> {
    /// Whether the text is of version 2.
    #[tactic(auto, unfolding(crate::specs::inner::CertReading::version_at, // and how readings follow one another
    crate::specs::inner::reading::Readings::followed, crate::specs::inner::reading::Readings::either, crate::specs::inner::reading::Readings::give))]
    fn version(&mut self) -> Result<bool, Fault>
        ensures { Gives (λ x. x) result self.new.rest.now (read.version_at self.old.rest.now) }
    {
        if self.next_is(b'2') {
            self.word(b"2 ")?;
            return Ok(true);
        }
        self.word(b"1 ")?;
        Ok(false)
    }

    #[tactic(auto, unfolding(crate::specs::inner::CertReading::style_at, // and how readings follow one another
    crate::specs::inner::reading::Readings::followed, crate::specs::inner::reading::Readings::either, crate::specs::inner::reading::Readings::give))]
    fn style(&mut self) -> Result<Style, Fault>
        ensures { Gives (λ x. x) result self.new.rest.now (read.style_at self.old.rest.now) }
    {
        if self.next_is(b'f') {
            self.word(b"frame ")?;
            return Ok(Style::Frame);
        }
        self.style_but_frame()
    }

    #[tactic(auto, unfolding(crate::specs::inner::CertReading::no_frame_at, // and how readings follow one another
    crate::specs::inner::reading::Readings::followed, crate::specs::inner::reading::Readings::either, crate::specs::inner::reading::Readings::give))]
    fn style_but_frame(&mut self) -> Result<Style, Fault>
        ensures { Gives (λ x. x) result self.new.rest.now (read.no_frame_at self.old.rest.now) }
    {
        if self.next_is(b'g') {
            self.word(b"grid ")?;
            return Ok(Style::Grid);
        }
        self.box_or_open_style()
    }

    #[tactic(auto, unfolding(crate::specs::inner::CertReading::box_or_none_at, // and how readings follow one another
    crate::specs::inner::reading::Readings::followed, crate::specs::inner::reading::Readings::either, crate::specs::inner::reading::Readings::give))]
    fn box_or_open_style(&mut self) -> Result<Style, Fault>
        ensures { Gives (λ x. x) result self.new.rest.now (read.box_or_none_at self.old.rest.now) }
    {
        if self.next_is(b'b') {
            self.word(b"box ")?;
            return Ok(Style::Box);
        }
        self.open_style()
    }

    #[tactic(auto, unfolding(crate::specs::inner::CertReading::rule_or_none_at, // and how readings follow one another
    crate::specs::inner::reading::Readings::followed, crate::specs::inner::reading::Readings::either, crate::specs::inner::reading::Readings::give))]
    fn open_style(&mut self) -> Result<Style, Fault>
        ensures { Gives (λ x. x) result self.new.rest.now (read.rule_or_none_at self.old.rest.now) }
    {
        if self.next_is(b'r') {
            self.word(b"rule ")?;
            return Ok(Style::Rule);
        }
        self.apart_or_style_without_lines()
    }

    #[tactic(auto, unfolding(crate::specs::inner::CertReading::apart_or_none_at, // and how readings follow one another
    crate::specs::inner::reading::Readings::followed, crate::specs::inner::reading::Readings::either, crate::specs::inner::reading::Readings::give))]
    fn apart_or_style_without_lines(&mut self) -> Result<Style, Fault>
        ensures { Gives (λ x. x) result self.new.rest.now (read.apart_or_none_at self.old.rest.now) }
    {
        if self.next_is(b'a') {
            self.word(b"apart ")?;
            return Ok(Style::Apart);
        }
        self.style_without_lines()
    }

    #[tactic(auto, unfolding(crate::specs::inner::CertReading::no_lines_at, // and how readings follow one another
    crate::specs::inner::reading::Readings::followed, crate::specs::inner::reading::Readings::either, crate::specs::inner::reading::Readings::give))]
    fn style_without_lines(&mut self) -> Result<Style, Fault>
        ensures { Gives (λ x. x) result self.new.rest.now (read.no_lines_at self.old.rest.now) }
    {
        if self.next_is(b'c') {
            self.word(b"compact ")?;
            return Ok(Style::Compact);
        }
        self.word(b"plain ")?;
        Ok(Style::Plain)
    }

    #[tactic(auto, unfolding(crate::specs::inner::reading::Readings::followed, crate::specs::inner::reading::Readings::give))]
    fn bounded(&mut self) -> Result<Claim, Fault>
        ensures { Gives (λ x. x) result self.new.rest.now (read.bounded_at self.old.rest.now) }
    {
        self.word(b"bounded ")?;
        let height = self.field(0, MAX_HEIGHT, b' ')?;
        let lower = self.field(0, MAX_HEIGHT, b'\n')?;
        Ok(Claim::Bounded(height, lower))
    }

    /// The claim. In version 2 a log line ends by `area`, so there are sections.
    #[tactic(auto, unfolding(crate::specs::inner::CertReading::claim_at, // and how readings follow one another
    crate::specs::inner::reading::Readings::followed, crate::specs::inner::reading::Readings::either, crate::specs::inner::reading::Readings::give))]
    fn claim(&mut self, has_area: bool) -> Result<Claim, Fault>
        ensures { Gives (λ x. x) result self.new.rest.now (read.claim_at has_area self.old.rest.now) }
    {
        if self.next_is(b'l') {
            self.word(b"lowest ")?;
            let height = self.field(0, MAX_HEIGHT, b'\n')?;
            return Ok(Claim::Lowest(height));
        }
        if has_area || self.next_is(b'b') {
            return self.bounded();
        }
        self.word(b"narrow ")?;
        let least = self.field(0, MAX_HEIGHT, b'\n')?;
        Ok(Claim::Narrow(least))
    }

    /// What follows the claim: chains with `narrow`, and sections with the other claims.
    #[tactic(auto, unfolding(crate::specs::inner::reading::Readings::followed, crate::specs::inner::reading::Readings::give))]
    fn proof(&mut self, alloc: Global, head: Head, claim: Claim) -> Result<Certificate, Fault>
        ensures { Gives (λ x. x) result self.new.rest.now
            (read.proof_at head.has_area head.width head.style head.budget claim self.old.rest.now) }
    {
        let (chains, sections) = match claim {
            Claim::Lowest(_) | Claim::Bounded(_, _) => {
                let sections = self.sections(alloc, areas_of(head.has_area))?;
                (List::new(alloc), sections)
            }
            Claim::Narrow(_) => {
                let chains = self.chains(alloc)?;
                (chains, List::new(alloc))
            }
        };
        Ok(Certificate {
            width: head.width,
            style: head.style,
            budget: head.budget,
            claim,
            chains,
            sections,
        })
    }

    /// A certificate, up to the end of its last line.
    #[tactic(auto, unfolding(crate::specs::inner::CertReading::certificate_at, // and how readings follow one another
    crate::specs::inner::reading::Readings::followed, crate::specs::inner::reading::Readings::give))]
    pub(crate) fn certificate(&mut self, alloc: Global) -> Result<Certificate, Fault>
        ensures { Gives (λ x. x) result self.new.rest.now (read.certificate_at self.old.rest.now) }
    {
        self.word(b"tablelayout ")?;
        let has_area = self.version()?;
        let width = self.field(1, MAX_PAGE_WIDTH, b' ')?;
        let style = self.style()?;
        let budget = self.field(0, MAX_BUDGET, b'\n')?;
        let head = Head {
            has_area,
            width,
            style,
            budget,
        };
        let claim = self.claim(has_area)?;
        self.proof(alloc, head, claim)
    }
}

fn areas_of(has_area: bool) -> Areas
    ensures { result ≡ read.areas_of has_area }
{
    if has_area { Areas::Owed } else { Areas::Never }
}

/// The certificate that all of the bytes spell, or why they spell none.
#[tactic(auto, unfolding(crate::specs::inner::CertReading::whole_at))]
fn whole(alloc: Global, bytes: &[u8]) -> Result<Certificate, Fault>
    ensures { Gives (λ x. x) result [] (read.whole_at bytes.now) }
{
    let mut reader = Reader { rest: bytes };
    let certificate = reader.certificate(alloc)?;
    if reader.rest.is_empty() {
        Ok(certificate)
    } else {
        Err(reader.wrong())
    }
}

/// Reads a text that is not too long; a fault is named by its place from the beginning.
fn read_short(alloc: Global, bytes: &[u8]) -> Result<Certificate, CertError>
    requires { length bytes.now ≤ MAX_CERTIFICATE_BYTES }
    ensures { ReturnsAs result (length bytes.now) (read.whole_at bytes.now) }
{
    match whole(alloc, bytes) {
        Ok(certificate) => Ok(certificate),
        Err(Fault::Memory) => Err(CertError::Memory(AllocError)),
        Err(Fault::Wrong(left)) => Err(CertError::Syntax(bytes.len().saturating_sub(left) as u32)),
        Err(Fault::Outside(left)) => Err(CertError::Range(bytes.len().saturating_sub(left) as u32)),
    }
}

/// Reads the text of a certificate. It is read once, from its beginning to its end, and no further than to its
/// first fault.
pub fn read(alloc: Global, bytes: &[u8]) -> Result<Certificate, CertError>
    ensures ok { IfOk result (IsTextOf bytes.now) }
    ensures each_ok { (c : Certificate) → IsTextOf bytes.now c → ReturnsOk (Memory alloc_error) c result }
    ensures err { IfErr result (IsMemoryOr (Memory alloc_error) (IsNoText bytes.now)) }
    ensures each_err { (e : CertError) → IsNoText bytes.now e → ReturnsError (Memory alloc_error) e result }
{
    if bytes.len() > MAX_CERTIFICATE_BYTES {
        return Err(CertError::TooLong);
    }
    read_short(alloc, bytes)
}
