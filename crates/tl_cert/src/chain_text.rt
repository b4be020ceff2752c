//! Reads the chains of a certificate.

ghost use Rattle.std.specs.Prelude.{◌≡◌, true};
ghost use Rattle.tl_cert.specs.inner.Gives.{Gives};
ghost use Rattle.tl_cert.specs.inner.CertReading as read;
ghost use Rattle.tl_cert.specs.inner.reading.Lists.{listing, comes};

use crate::follow::Follow;
use crate::limits::MAX_TABLE;
use crate::reader::{Fault, Reader};
use std::alloc::Global;
use tl_base::{Chain, Entry, List, MAX_CELLS};

impl<'a> Reader<'a> {
    /// An entry, and whether another follows.
    #[tactic(auto, unfolding(crate::specs::inner::CertReading::entry_at, // and how readings follow one another
    crate::specs::inner::reading::Readings::followed, crate::specs::inner::reading::Readings::give))]
    fn entry(&mut self) -> Result<(Entry, bool), Fault>
        ensures { Gives (λ x. (x.0, x.1)) result self.new.rest.now (read.entry_at true self.old.rest.now) }
    {
        let (cell, end) = self.number(0, MAX_CELLS as u32, Follow::Entry(true))?;
        if end != b':' {
            return Ok((Entry { cell, inner: None }, end == b' '));
        }
        let (table, end) = self.number(0, MAX_TABLE, Follow::Item(true))?;
        let inner = Some(table);
        Ok((Entry { cell, inner }, end == b' '))
    }

    /// The entries of a chain, and the line feed.
    fn entries(&mut self, alloc: Global) -> Result<List<Entry>, Fault>
        ensures { Gives (λ x. listing x tt) result self.new.rest.now (read.entries_at self.old.rest.now) }
    {
        let mut entries = List::new(alloc);
        let mut more = true;
        'entries: while more {
            let (entry, follows) = self.entry()?;
            entries.push(entry)?;
            more = follows;
        }
        Ok(entries)
    }

    /// One chain.
    #[tactic(auto, unfolding(crate::specs::inner::CertReading::chain_at, // and how readings follow one another
    crate::specs::inner::reading::Readings::followed, crate::specs::inner::reading::Readings::give))]
    fn chain(&mut self, alloc: Global) -> Result<Chain, Fault>
        ensures { Gives (λ x. x) result self.new.rest.now (read.chain_at self.old.rest.now) }
    {
        self.word(b"chain ")?;
        let table = self.field(0, MAX_TABLE, b' ')?;
        let entries = self.entries(alloc)?;
        Ok(Chain { table, entries })
    }

    /// Whether a chain comes, or has to: where none was read.
    fn chain_comes(&self, first: bool) -> bool
        ensures { result ≡ comes (read.chains_turn first) self.now.rest.now }
    {
        first || self.next_is(b'c')
    }

    /// The chains, at least one, and the last line.
    pub(crate) fn chains(&mut self, alloc: Global) -> Result<List<Chain>, Fault>
        ensures { Gives (λ x. listing x tt) result self.new.rest.now (read.chains_at self.old.rest.now) }
    {
        let mut chains = List::new(alloc);
        let mut first = true;
        'chains: while self.chain_comes(first) {
            let chain = self.chain(alloc)?;
            chains.push(chain)?;
            first = false;
        }
        self.word(b"end\n")?;
        Ok(chains)
    }
}
