//! Where the pieces of sources are: in the text of sources, or in bytecode. Advice looks them up here.

use crate::op_sites::OpSites;
use crate::outline::Outline;
use crate::outlining::outline;
use crate::site::{Origin, Site};
use crate::spot::Spot;
use bb_basis::Memory;
use bb_diag_text::{ListedSource, Section, list_sources};
use bb_rules::{ClauseList, Source};
use bb_verify::Checked;
use std::alloc::Global;

/// The sources of a text.
#[derive(Drop)]
pub struct Texts<'a> {
    origin: Origin<'a>,
    listed: Vec<ListedSource<'a>>,
}

/// Where the pieces of a source are.
#[derive(Drop)]
pub struct SourceSites<'a> {
    // The text and its outline, if the source belongs to the text.
    text: Option<(Origin<'a>, Outline<'a>)>,
}

impl<'a> Texts<'a> {
    /// Lists the sources of a section.
    pub fn of(alloc: Global, section: Section<'a>) -> Result<Texts<'a>, Memory> {
        Ok(Texts {
            origin: Origin {
                text: section.text,
                header: section.header,
                lines_before: section.lines_before(),
            },
            listed: list_sources(alloc, section.text)?,
        })
    }

    /// Returns the locations of the pieces of the source at an index. The sources of the text come first, in its order.
    pub fn sites(
        &self,
        alloc: Global,
        index: usize,
        source: &Source,
    ) -> Result<SourceSites<'a>, Memory> {
        let name = source.parts().name.as_str();
        match self.listed.get(index) {
            Some(listed) if listed.name.is(name) => Ok(SourceSites {
                text: Some((self.origin, outline(alloc, listed)?)),
            }),
            _ => Ok(SourceSites { text: None }),
        }
    }
}

impl<'a> SourceSites<'a> {
    // Returns a site in the text, if there is one.
    fn site(&self, spot: Option<Spot>) -> Site<'a> {
        match (&self.text, spot) {
            (Some((origin, _)), Some(spot)) => Site::Text {
                origin: *origin,
                spot,
            },
            _ => Site::Bytecode,
        }
    }

    /// Returns the word `rate` of the source's head.
    pub fn rate(&self) -> Site<'a> {
        match &self.text {
            Some((_, outline)) => self.site(outline.rate),
            None => Site::Bytecode,
        }
    }

    /// Returns the clause at an index of a list.
    pub fn clause(&self, list: ClauseList, index: usize) -> Site<'a> {
        match &self.text {
            Some((_, outline)) => self.site(outline.clauses(list).get(index).copied()),
            None => Site::Bytecode,
        }
    }

    /// Returns the part with a word.
    pub fn part(&self, word: &str) -> Site<'a> {
        match &self.text {
            Some((_, outline)) => self.site(outline.part(word).map(|part| part.spot)),
            None => Site::Bytecode,
        }
    }

    /// Returns the ops of a code of the source.
    pub fn ops(&self, alloc: Global, checked: &Checked) -> Result<OpSites<'a>, Memory> {
        let Some((origin, outline)) = &self.text else {
            return Ok(OpSites::of_bytecode(alloc));
        };
        match outline.part(checked.part().word()) {
            None => Ok(OpSites::of_bytecode(alloc)),
            Some(part) => OpSites::of_text(alloc, *origin, part, checked.code()),
        }
    }
}
